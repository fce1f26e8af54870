// One message to the group from every address on an up link: document 01, 'Outbox'.
// The contracts cite specs/Announcements.antt and, for what is written, `Sent` of specs/Layout.antt.
ghost use Rattle.std.specs.Prelude.{[], ◌∷◌, ◌*◌, ◌≤◌, length};
ghost use Rattle.engine.specs.Sizes.{record_size};
ghost use Rattle.engine.specs.Layout.{Room, Sent};
ghost use Rattle.engine.specs.Announcements.{announced, announced_on};

use crate::advertisement::Location;
use crate::outbox::{byebye_on, notify_on, search_on};
use crate::sizes::RECORD_SIZE;

// What is said: a search for a type, that a service is there, that a service goes.
#[derive(Clone, Copy)]
pub enum Announcement<'a> {
    Search {
        service: &'a [u8],
    },
    Alive {
        service: &'a [u8],
        name: &'a [u8],
        location: Location<'a>,
    },
    ByeBye {
        service: &'a [u8],
        name: &'a [u8],
    },
}

// An announcement from one address: one record.
fn announce(outbox: &mut [u8], source: u32, what: &Announcement<'_>)
    requires { record_size ≤ length outbox.old }
    ensures { Sent (announced what.now source ∷ []) outbox.old outbox.new 1 }
{
    match *what {
        Announcement::Search { service } => search_on(outbox, source, service),
        Announcement::Alive {
            service,
            name,
            location,
        } => notify_on(outbox, source, service, name, location),
        Announcement::ByeBye { service, name } => byebye_on(outbox, source, service, name),
    }
}

// An announcement from each address. Answers the number of records.
pub(crate) fn announce_on_all(outbox: &mut [u8], up: &[u32], what: &Announcement<'_>) -> usize
    requires { Room outbox.old 0 (announced_on up.now what.now) }
    ensures { Sent (announced_on up.now what.now) outbox.old outbox.new result }
{
    for (k, &source) in up.iter().enumerate() {
        announce(&mut outbox[RECORD_SIZE * k..], source, what);
    }
    up.len()
}
