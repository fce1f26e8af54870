// The replies that wait, and what a search and a handle_timeout make of them: document 01, 'Engine and ledger'.
ghost use Rattle.std.specs.Prelude.{◌≡◌, true, [], ◌≤◌};
ghost use Rattle.engine.specs.Records.{is_due};
ghost use Rattle.engine.specs.Replies.{due_at, is_none, asked_need, waits, sooner, same_sender, is_alone, is_group};
ghost use Rattle.engine.specs.Passes.{asked_by};

use crate::advertisement::{Endpoint, ResponseNeeded};

// Whether two datagrams came from the same address and port.
fn same_sender(s: Endpoint, t: Endpoint) -> bool
    ensures { result ≡ same_sender s t }
{
    s == t
}

impl ResponseNeeded {
    // The instant of a reply, if one waits.
    fn due(self) -> Option<u64>
        ensures { result ≡ due_at self }
    {
        match self {
            ResponseNeeded::None => None,
            ResponseNeeded::Multicast(due) | ResponseNeeded::Unicast(due, _, _) => Some(due),
        }
    }

    // Whether none waits: then a search that asks for the name opens one.
    pub(crate) fn is_none(self) -> bool
        ensures { result ≡ is_none self }
    {
        self.due().is_none()
    }

    // How many wait: 1, or 0.
    pub(crate) fn waits(self) -> usize
        ensures { (result ≡ waits self) × (result ≤ 1) }
    {
        match self {
            ResponseNeeded::None => 0,
            ResponseNeeded::Multicast(_) | ResponseNeeded::Unicast(_, _, _) => 1,
        }
    }

    // The earlier of an instant and that of the reply, if one waits.
    pub(crate) fn sooner(self, time: u64) -> u64
        ensures { result ≡ sooner time self }
    {
        match self {
            ResponseNeeded::None => time,
            ResponseNeeded::Multicast(due) | ResponseNeeded::Unicast(due, _, _) => time.min(due),
        }
    }

    // The waiting reply of a name after a search that asks for it: one opens, or the searcher joins the one that waits.
    pub(crate) fn asked(self, due: u64, sender: Endpoint, receiver: u32) -> ResponseNeeded
        ensures { result ≡ asked_need true due (asked_by [] sender receiver) self }
    {
        match self {
            ResponseNeeded::None => ResponseNeeded::Unicast(due, sender, receiver),
            ResponseNeeded::Unicast(opened_for, opener, _) if !same_sender(opener, sender) => {
                ResponseNeeded::Multicast(opened_for)
            }
            _ => self,
        }
    }

    // Whether one waits that is due.
    pub(crate) fn is_due(self, time: u64) -> bool
        ensures { result ≡ is_due time self }
    {
        self.due().is_some_and(|due| due <= time)
    }

    // Whether one waits for a lone searcher, or for the group: 1, or 0.
    pub(crate) fn alone(self) -> usize
        ensures { (result ≡ is_alone self) × (result ≤ 1) }
    {
        usize::from(matches!(self, ResponseNeeded::Unicast(_, _, _)))
    }

    pub(crate) fn group(self) -> usize
        ensures { (result ≡ is_group self) × (result ≤ 1) }
    {
        usize::from(matches!(self, ResponseNeeded::Multicast(_)))
    }
}
