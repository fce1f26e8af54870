// The tables that a call which sends is lent: how many of each are held, the subscriptions, and the names with their texts.
use crate::sizes::{Head, Numbers, Searches, Texts};

#[derive(Clone, Copy)]
pub struct Tables<'a> {
    pub head: &'a Head,
    pub searches: &'a Searches,
    pub numbers: &'a Numbers,
    pub texts: &'a Texts,
}
