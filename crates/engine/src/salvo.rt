// Runs over the lent tables: document 01, 'Outbox': `refresh`, and what goes to one address. Each writes from the outbox's first record on and answers the number of records.
// The contracts cite specs/Records.antt and, for what is written, `Sent` of specs/Layout.antt.
ghost use Rattle.engine.specs.Records.{flat, searches_of, search_on, notify_on, refresh_on, all_from};
ghost use Rattle.engine.specs.Layout.{Room, Sent};
ghost use Rattle.engine.specs.Lent.{names_lent, searches_lent};
ghost use Rattle.engine.specs.Row.{entry};

use crate::advertisement::ActiveAdvertisement;
use crate::announce::{Announcement, announce_on_all};
use crate::lent::Tables;
use crate::sizes::RECORD_SIZE;
use crate::{names, subscription};

// That the service of a name is there, from each address.
pub(crate) fn notify_name(outbox: &mut [u8], up: &[u32], a: &ActiveAdvertisement<'_>) -> usize
    requires { Room outbox.old 0 (notify_on up.now (entry a.now)) }
    ensures { Sent (notify_on up.now (entry a.now)) outbox.old outbox.new result }
{
    let what = Announcement::Alive {
        service: a.service,
        name: a.name,
        location: a.location,
    };
    announce_on_all(outbox, up, &what)
}

// The search for a type from each address.
pub(crate) fn send_search(outbox: &mut [u8], up: &[u32], service: &[u8]) -> usize
    requires { Room outbox.old 0 (search_on up.now service.now) }
    ensures { Sent (search_on up.now service.now) outbox.old outbox.new result }
{
    announce_on_all(outbox, up, &Announcement::Search { service })
}

// ---- runs over a table. They have the same loop, as `replies_due` in due.rt has: one loop over a closure that sends would have to say `Sent` of what the closure sends for
// each item, and each run would state of its closure what it states now.

// Every name from each address.
pub(crate) fn names_on_all(outbox: &mut [u8], up: &[u32], tables: &Tables<'_>) -> usize
    requires { Room outbox.old 0 (flat (notify_on up.now) (names_lent tables.now)) }
    ensures { Sent (flat (notify_on up.now) (names_lent tables.now)) outbox.old outbox.new result }
{
    let mut k = 0;
    for i in 0..names::count_of(tables.head) {
        let a = names::active_at(tables.numbers, tables.texts, i);
        k += notify_name(&mut outbox[RECORD_SIZE * k..], up, &a);
    }
    k
}

// The search of every subscription from each address.
fn each_search_on_all(outbox: &mut [u8], up: &[u32], tables: &Tables<'_>) -> usize
    requires { Room outbox.old 0 (flat (search_on up.now) (searches_lent tables.now)) }
    ensures { Sent (flat (search_on up.now) (searches_lent tables.now)) outbox.old outbox.new result }
{
    let mut k = 0;
    for i in 0..subscription::count_of(tables.head) {
        let service = subscription::service_at(tables.searches, i);
        k += send_search(&mut outbox[RECORD_SIZE * k..], up, service);
    }
    k
}

// The same, but one search for all where any subscription is for all.
pub(crate) fn searches_on_all(outbox: &mut [u8], up: &[u32], tables: &Tables<'_>) -> usize
    requires { Room outbox.old 0 (flat (search_on up.now) (searches_of (searches_lent tables.now))) }
    ensures { Sent (flat (search_on up.now) (searches_of (searches_lent tables.now))) outbox.old outbox.new result }
{
    if subscription::any_all(tables.head, tables.searches) {
        return send_search(outbox, up, b"ssdp:all");
    }
    each_search_on_all(outbox, up, tables)
}

// `refresh`: every name, then the searches.
pub(crate) fn refresh_on_all(outbox: &mut [u8], up: &[u32], tables: &Tables<'_>) -> usize
    requires { Room outbox.old 0 (refresh_on up.now (searches_lent tables.now) (names_lent tables.now)) }
    ensures { Sent (refresh_on up.now (searches_lent tables.now) (names_lent tables.now)) outbox.old outbox.new result }
{
    let k = names_on_all(outbox, up, tables);
    k + searches_on_all(&mut outbox[RECORD_SIZE * k..], up, tables)
}

// To one address: the same searches, then every name.
pub(crate) fn send_all(outbox: &mut [u8], source: u32, tables: &Tables<'_>) -> usize
    requires { Room outbox.old 0 (all_from (searches_lent tables.now) (names_lent tables.now) source) }
    ensures { Sent (all_from (searches_lent tables.now) (names_lent tables.now) source) outbox.old outbox.new result }
{
    let one = [source];
    let k = searches_on_all(outbox, &one, tables);
    k + names_on_all(&mut outbox[RECORD_SIZE * k..], &one, tables)
}

// To each address of a link in turn.
pub(crate) fn send_all_in_turn(outbox: &mut [u8], addresses: &[u32], tables: &Tables<'_>) -> usize
    requires { Room outbox.old 0 (flat (all_from (searches_lent tables.now) (names_lent tables.now)) addresses.now) }
    ensures { Sent (flat (all_from (searches_lent tables.now) (names_lent tables.now)) addresses.now) outbox.old outbox.new result }
{
    let mut k = 0;
    for &source in addresses {
        k += send_all(&mut outbox[RECORD_SIZE * k..], source, tables);
    }
    k
}
