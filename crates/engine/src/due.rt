// Waiting replies of the lent tables whose time has come, as a timeout sends them: document 01, 'Engine and ledger'. Each function writes from the outbox's first record on and answers the number of records.
// The contracts cite specs/Records.antt and, for what is written, `Sent` of specs/Layout.antt.
ghost use Rattle.std.specs.Prelude.{◌+◌, ◌*◌, ◌<◌};
ghost use Rattle.engine.specs.Records.{flat, reply_records, due_records};
ghost use Rattle.engine.specs.Layout.{Room, Sent};
ghost use Rattle.engine.specs.Lent.{names_lent};
ghost use Rattle.engine.specs.Row.{entry};

use crate::advertisement::{ActiveAdvertisement, ResponseNeeded};
use crate::lent::Tables;
use crate::names;
use crate::outbox::send_response;
use crate::salvo::notify_name;
use crate::sizes::RECORD_SIZE;

// The waiting reply of a name: to the searcher, in the answer's type, from the address that the search reached, or to the group from each address.
fn reply(outbox: &mut [u8], up: &[u32], a: &ActiveAdvertisement<'_>) -> usize
    requires { Room outbox.old 0 (reply_records up.now (entry a.now) a.now.response_needed) }
    ensures { Sent (reply_records up.now (entry a.now) a.now.response_needed) outbox.old outbox.new result }
{
    match a.response_needed {
        ResponseNeeded::None => 0,
        ResponseNeeded::Multicast(_) => notify_name(outbox, up, a),
        ResponseNeeded::Unicast(_, sender, receiver) => {
            send_response(outbox, receiver, sender, a.answer, a.name, a.location);
            1
        }
    }
}

// The same, if it is due by now.
fn reply_if_due(outbox: &mut [u8], up: &[u32], time: u64, a: &ActiveAdvertisement<'_>) -> usize
    requires { Room outbox.old 0 (due_records time up.now (entry a.now)) }
    ensures { Sent (due_records time up.now (entry a.now)) outbox.old outbox.new result }
{
    if a.response_needed.is_due(time) {
        return reply(outbox, up, a);
    }
    0
}

// The replies of all names that are due by now.
pub(crate) fn replies_due(outbox: &mut [u8], up: &[u32], time: u64, tables: &Tables<'_>) -> usize
    requires { Room outbox.old 0 (flat (due_records time up.now) (names_lent tables.now)) }
    ensures { Sent (flat (due_records time up.now) (names_lent tables.now)) outbox.old outbox.new result }
{
    let mut k = 0;
    for i in 0..names::count_of(tables.head) {
        let a = names::active_at(tables.numbers, tables.texts, i);
        k += reply_if_due(&mut outbox[RECORD_SIZE * k..], up, time, &a);
    }
    k
}
