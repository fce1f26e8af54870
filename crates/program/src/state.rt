// What the program holds from step to step, besides the engine's arrays, the outbox and the line under way.
ghost use Rattle.std.specs.Prelude.{◌≡◌, None};
ghost use Rattle.program.specs.Steps.{replied, room_in};

use console::input::LINE_MAX;
use dialogue::session::Reply;
use engine::sizes::OUTBOX_SIZE;

// Room for the longest line with both bytes of its end.
pub const LINE_SIZE: usize = LINE_MAX + 2;

// What is still printed of an answer: how many bytes were lent to its call, the record that is printed next, and how many there are.
#[derive(Clone, Copy)]
pub struct Printing {
    pub room: usize,
    pub next: usize,
    pub records: usize,
}

// Whether the program is `trace`; how many bytes are lent to the calls of an engine, if one has begun; how much of a line has come; and the answer that is
// still printed, if there is one.
#[derive(Clone, Copy)]
pub struct State {
    pub traced: bool,
    pub lent: Option<usize>,
    pub held: usize,
    pub printing: Option<Printing>,
}

// Before the first line.
pub fn start(traced: bool) -> State
    ensures { (result.traced ≡ traced) × (result.lent ≡ None) × (result.held ≡ 0) × (result.printing ≡ None) }
{
    State {
        traced,
        lent: None,
        held: 0,
        printing: None,
    }
}

// How many bytes are lent to a call: none before an engine has begun.
pub(crate) fn room_of(s: State) -> usize
    ensures { result ≡ room_in s }
{
    s.lent.unwrap_or(0)
}

// A line has got its reply. An engine that has just begun is lent what all its calls need, and `trace` prints the records of an answer besides.
pub(crate) fn after_reply(s: State, r: Reply) -> State
    ensures { result ≡ replied s r }
{
    let printing = r.answer.filter(|_| s.traced).map(|a| Printing {
        room: room_of(s),
        next: 0,
        records: a.records,
    });
    State {
        traced: s.traced,
        lent: r.begun.then_some(s.lent.unwrap_or(OUTBOX_SIZE)),
        held: 0,
        printing,
    }
}

// Another number of bytes is lent from now on.
pub(crate) fn with_lent(s: State, lent: Option<usize>) -> State
    ensures { result ≡ record { traced = s.traced; lent = lent; held = 0; printing = None } }
{
    State {
        lent,
        held: 0,
        printing: None,
        ..s
    }
}
