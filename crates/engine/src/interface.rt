// A link (network interface) taken out of its row: document 01, 'Links and addresses'. The rows stand in links.rt.
use crate::sizes::ADDRESSES;
use arrayvec::ArrayVec;

// A link: its index, whether it is up, and its addresses, in the order in which they were stored.
#[derive(Drop)]
pub struct Interface {
    pub index: u32,
    pub up: bool,
    pub addresses: ArrayVec<u32, ADDRESSES>,
}
