// The subscriptions in a lent array of bytes, a row for each, in the order in which they were made (document 01, 'Outbox'), and which of them a notify or response concerns
// ('Engine and ledger'). The contracts cite specs/Arrays.antt.
ghost use Rattle.std.specs.Prelude.{◌≡◌, [], ◌∷◌, ◌++◌, suc, ◌+◌, ◌*◌, ◌<◌, ◌≤◌, length};
ghost use Rattle.text.specs.Bytes.{equal};
ghost use Rattle.message.specs.Build.{type_max};
ghost use Rattle.engine.specs.Sizes.{subscriptions_max};
ghost use Rattle.engine.specs.Target.{ssdp_all, target_match};
ghost use Rattle.engine.specs.Records.{any_all};
ghost use Rattle.engine.specs.Engine.{mask_of};
ghost use Rattle.engine.specs.Notifying.{Notifies};
ghost use Rattle.engine.specs.Arrays.{search_width, search_in, search_at, search_rows, search_count, searches_in};

use crate::buffer::put;
use crate::clamp::count_in;
use crate::sizes::{Head, SEARCH_COUNT, SEARCH_WIDTH, SUBSCRIPTIONS, Searches, TYPE_SIZE};
use crate::target::target_match;
use text::bytes::equal;

// The subscriptions to be told: bit k for subscription k, and their number.
#[derive(Clone, Copy)]
pub struct Subscribers {
    pub mask: u32,
    pub told: u32,
}

// Whether a type is `ssdp:all`.
pub(crate) fn is_all(service: &[u8]) -> bool
    ensures { result ≡ equal service.now ssdp_all }
{
    equal(service, b"ssdp:all")
}

// How many subscriptions are held.
pub(crate) fn count_of(head: &Head) -> usize
    ensures { result ≡ search_count head.now }
{
    count_in(head, SEARCH_COUNT, SUBSCRIPTIONS)
}

// The type of subscription i.
pub(crate) fn service_at(searches: &Searches, i: usize) -> &[u8]
    requires { i < subscriptions_max }
    ensures { result.now ≡ search_at i searches.now }
{
    let at = SEARCH_WIDTH * i;
    let start = at + 1;
    let end = start + (searches[at] as usize).min(TYPE_SIZE);
    &searches[start..end]
}

// A type, which fits, into a row: a slice, whose length the contract asks for, since `as_chunks_mut` says nothing of what the slice ends as (links.rt).
fn set_service(row: &mut [u8], service: &[u8])
    requires { (length row.old ≡ search_width) × (length service.now ≤ type_max) }
    ensures { search_in row.new ≡ service.now }
{
    row[0] = service.len() as u8;
    put(row, 1, service);
}

// A type, which fits, behind the first n rows.
pub(crate) fn push(searches: &mut Searches, n: usize, service: &[u8])
    requires { (n < subscriptions_max) × (length service.now ≤ type_max) }
    ensures { search_rows (suc n) searches.new ≡ search_rows n searches.old ++ (service.now ∷ []) }
{
    let a = SEARCH_WIDTH * n;
    let e = a + SEARCH_WIDTH;
    set_service(&mut searches[a..e], service);
}

// Whether any subscription is to `ssdp:all`.
pub(crate) fn any_all(head: &Head, searches: &Searches) -> bool
    ensures { result ≡ any_all (searches_in head.now searches.now) }
{
    let n = count_of(head);
    (0..n).any(|i| is_all(service_at(searches, i)))
}

// Bit k is set when subscription k, as the search, matches the type. From the last subscription to the first.
fn mask_of(head: &Head, searches: &Searches, service: &[u8]) -> u32
    ensures { result ≡ mask_of (searches_in head.now searches.now) service.now }
{
    let n = count_of(head);
    let mut mask = 0;
    for i in (0..n).rev() {
        let bit = target_match(service_at(searches, i), service);
        mask = 2 * mask + bit as u32;
    }
    mask
}

// The subscriptions that a type concerns. The number told is the count of the mask's ones.
pub(crate) fn told_of(head: &Head, searches: &Searches, service: &[u8]) -> Subscribers
    ensures { Notifies (searches_in head.now searches.now) service.now result }
{
    let mask = mask_of(head, searches, service);
    Subscribers {
        mask,
        told: mask.count_ones(),
    }
}
