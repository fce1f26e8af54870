// What each call sends, from the outbox's first record on: document 01, 'Outbox'. Each function answers the number of records.
// The contracts cite specs/Records.antt and, for what is written, `Sent` of specs/Layout.antt. They ask for an outbox with room for that.
ghost use Rattle.std.specs.Prelude.{cond, [], map, ◌<◌};
ghost use Rattle.engine.specs.Records.{flat, byebye_on, refresh_on, all_from, timeout_on, NotifyFrom};
ghost use Rattle.engine.specs.Layout.{Room, Sent};
ghost use Rattle.engine.specs.Lent.{names_lent, searches_lent};
ghost use Rattle.engine.specs.Row.{entry};

use crate::advertisement::{ActiveAdvertisement, Location};
use crate::announce::{Announcement, announce_on_all};
use crate::due::replies_due;
use crate::lent::Tables;
use crate::salvo::{refresh_on_all, send_all, send_all_in_turn};
use crate::sizes::RECORD_SIZE;

// `advertise`: that a service is there, from each address. The texts come one by one, as each message has them in an order of its own.
pub(crate) fn send_alive(
    outbox: &mut [u8],
    up: &[u32],
    service: &[u8],
    name: &[u8],
    location: Location<'_>,
) -> usize
    requires { Room outbox.old 0 (map (λ source. NotifyFrom source service.now name.now location.text.now) up.now) }
    ensures { Sent (map (λ source. NotifyFrom source service.now name.now location.entry.text.now) up.now) outbox.old outbox.new result }
{
    let what = Announcement::Alive {
        service,
        name,
        location,
    };
    announce_on_all(outbox, up, &what)
}

// `deadvertise` of a name: that its service goes, from each address.
pub(crate) fn send_byebye(outbox: &mut [u8], up: &[u32], a: &ActiveAdvertisement<'_>) -> usize
    requires { Room outbox.old 0 (byebye_on up.now (entry a.now)) }
    ensures { Sent (byebye_on up.now (entry a.now)) outbox.old outbox.new result }
{
    let what = Announcement::ByeBye {
        service: a.service,
        name: a.name,
    };
    announce_on_all(outbox, up, &what)
}

// ---- sent or not. Each test is in a function of its own with what it decides: behind an `if` in the caller each later goal would have to take both branches apart. It
// comes as a bool, since the definitions have all of the records, or none, by a bool.

// A new address, if it is stored on an up link.
pub(crate) fn send_if_stored(
    outbox: &mut [u8],
    stored: bool,
    address: u32,
    tables: &Tables<'_>,
) -> usize
    requires { Room outbox.old 0 (cond stored (all_from (searches_lent tables.now) (names_lent tables.now) address) []) }
    ensures { Sent (cond stored (all_from (searches_lent tables.now) (names_lent tables.now) address) []) outbox.old outbox.new result }
{
    if stored {
        return send_all(outbox, address, tables);
    }
    0
}

// A link that turns up, with its addresses.
pub(crate) fn send_if_up(
    outbox: &mut [u8],
    turns: bool,
    addresses: &[u32],
    tables: &Tables<'_>,
) -> usize
    requires { Room outbox.old 0 (cond turns (flat (all_from (searches_lent tables.now) (names_lent tables.now)) addresses.now) []) }
    ensures { Sent (cond turns (flat (all_from (searches_lent tables.now) (names_lent tables.now)) addresses.now) []) outbox.old outbox.new result }
{
    if turns {
        return send_all_in_turn(outbox, addresses, tables);
    }
    0
}

// The refresh records of a timeout, if the salvo is due.
fn salvo_if_due(outbox: &mut [u8], up: &[u32], due: bool, tables: &Tables<'_>) -> usize
    requires { Room outbox.old 0 (cond due (refresh_on up.now (searches_lent tables.now) (names_lent tables.now)) []) }
    ensures { Sent (cond due (refresh_on up.now (searches_lent tables.now) (names_lent tables.now)) []) outbox.old outbox.new result }
{
    if due {
        return refresh_on_all(outbox, up, tables);
    }
    0
}

// `handle_timeout`: the refresh records, if the salvo is due, then the replies that are due by now.
pub(crate) fn send_timeout(
    outbox: &mut [u8],
    up: &[u32],
    due: bool,
    time: u64,
    tables: &Tables<'_>,
) -> usize
    requires { Room outbox.old 0 (timeout_on up.now due time (searches_lent tables.now) (names_lent tables.now)) }
    ensures { Sent (timeout_on up.now due time (searches_lent tables.now) (names_lent tables.now)) outbox.old outbox.new result }
{
    let k = salvo_if_due(outbox, up, due, tables);
    k + replies_due(&mut outbox[RECORD_SIZE * k..], up, time, tables)
}
