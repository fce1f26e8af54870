// What a call answers, and what an accepted one counts and notifies: document 01, 'Engine and ledger' and 'Who can be turned away'. The calls stand in calls.rt.
ghost use Rattle.std.specs.Prelude.{◌≡◌};
ghost use Rattle.std.specs.Option.{unwrap_or};
ghost use Rattle.engine.specs.Replies.{drops};
ghost use Rattle.engine.specs.Calls.{zeros};
ghost use Rattle.engine.specs.Engine.{notifies_nobody};
ghost use Rattle.engine.specs.Outcomes.{counted, notified_by, leaves, sends, asks, notifies_mask};

use crate::subscription::Subscribers;

// What a call answers: its refusal number (0: accepted), the records written, the five counts of the reply ledger that it adds,
// the replies waiting and the instant to be polled at afterwards, the mask of subscriptions to tell and their number, and the leave outcome.
// Hosts in C read it, so that a refusal is a number in it.
#[repr(C)]
#[derive(Clone, Copy)]
pub struct Answer {
    pub refusal: u32,
    pub records: usize,
    pub matched: usize,
    pub joined: usize,
    pub alone: usize,
    pub group: usize,
    pub dropped: usize,
    pub waiting: usize,
    pub poll: u64,
    pub mask: u32,
    pub told: u32,
    pub leave: u32,
}

// What an accepted call counts, and whom it notifies. These are fields of `Answer` too, whose places are C's.
#[derive(Clone, Copy, Default)]
pub struct Outcome {
    pub matched: usize,
    pub joined: usize,
    pub alone: usize,
    pub group: usize,
    pub dropped: usize,
    pub mask: u32,
    pub told: u32,
    pub leave: u32,
}

// A call that counts nothing and notifies nobody.
pub(crate) fn nothing() -> Outcome
    ensures { (counted result ≡ zeros) × (notified_by result ≡ notifies_nobody) }
{
    Outcome::default()
}

// A link was deleted: its leave outcome, if it was held.
pub(crate) fn leaving(left: Option<u32>) -> Outcome
    ensures { (counted result ≡ zeros) × (notified_by result ≡ leaves (unwrap_or left 0)) }
{
    Outcome {
        leave: left.unwrap_or(0),
        ..nothing()
    }
}

// A name was replaced or has left, and its waiting reply with it.
pub(crate) fn dropping(dropped: usize) -> Outcome
    ensures { (counted result ≡ drops dropped) × (notified_by result ≡ notifies_nobody) }
{
    Outcome {
        dropped,
        ..nothing()
    }
}

// Replies were sent, alone and to the group.
pub(crate) fn sending(alone: usize, group: usize) -> Outcome
    ensures { (counted result ≡ sends alone group) × (notified_by result ≡ notifies_nobody) }
{
    Outcome {
        alone,
        group,
        ..nothing()
    }
}

// A search matched, and joined replies that wait.
pub(crate) fn asking(matched: usize, joined: usize) -> Outcome
    ensures { (counted result ≡ asks matched joined) × (notified_by result ≡ notifies_nobody) }
{
    Outcome {
        matched,
        joined,
        ..nothing()
    }
}

// Subscriptions are told.
pub(crate) fn notifying(s: Subscribers) -> Outcome
    ensures { (counted result ≡ zeros) × (notified_by result ≡ notifies_mask s.mask s.told) }
{
    Outcome {
        mask: s.mask,
        told: s.told,
        ..nothing()
    }
}
