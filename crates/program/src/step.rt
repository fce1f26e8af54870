// The steps of a program: a part of a chunk of the input is taken in, a piece of an answer is printed, the input ends. Each writes one piece of the output to
// the front of a buffer, and says how long it is.
ghost use Rattle.std.specs.Prelude.{◌≡◌, ◌&&◌, ◌≤◌, IsSome, eqb, leb, length, take};
ghost use Rattle.console.specs.Command.{outbox_max};
ghost use Rattle.dialogue.specs.Outbox.{record_at};
ghost use Rattle.dialogue.specs.Printing.{record_line};
ghost use Rattle.engine.specs.Owned.{engine_in};
ghost use Rattle.program.specs.Program.{stain};
ghost use Rattle.program.specs.Steps.{piece_max, used_by, Replies, Ready, Takes, Finishes, PrintsPiece};

use crate::line;
use crate::line::Said;
use crate::state::{Printing, State};
use console::command::OUTBOX_MAX;
use console::input::Event;
use console::{buffer, input, part};
use dialogue::record;
use engine::arrays::Arrays;

// The state after a step, how many bytes of the chunk are used up, and how many bytes of the buffer are printed: there is no heap, so they are in the caller's.
#[derive(Clone, Copy)]
pub struct Step {
    pub state: State,
    pub used: usize,
    pub len: usize,
}

// A line that goes on, one that has ended, and one that is too long. Line, outbox and output come one by one: a line is changed first and then lent in part, and so is the outbox.
fn on_event(
    s: State,
    arrays: &mut Arrays,
    line: &[u8],
    event: Event,
    outbox: &mut [u8],
    out: &mut [u8],
) -> Said
    requires { (length outbox.old ≡ outbox_max) × (piece_max ≤ length out.old) }
    ensures { Replies event s (engine_in arrays.old) line.now outbox.old (engine_in arrays.new) outbox.new (take result.len out.new) result.state }
{
    match event {
        Event::More(n) => Said {
            state: State { held: n, ..s },
            len: 0,
        },
        Event::Line { len, .. } => line::on_line(s, arrays, part::front(line, len), outbox, out),
        Event::TooLong(_) => line::unheard(s, out),
    }
}

// How many bytes of a chunk are used up: all of them where the line goes on.
fn used_by(event: Event, all: usize) -> usize
    ensures { result ≡ used_by event all }
{
    match event {
        Event::More(_) => all,
        Event::Line { used, .. } => used,
        Event::TooLong(used) => used,
    }
}

// The most bytes of one piece. The functions below a step ask for this room in the buffer and for the size of the outbox in clauses, not by a type: a step is
// lent slices of any length, and its own clause says of all the buffer that it begins with the piece. Of an array cut from its front that would follow only
// with a further clause on each function, that the piece's length is within the array. `fits` finds both sizes at once, so the outbox goes with the buffer.
const PIECE_MAX: usize = 4096;

// Whether a step is lent the whole outbox and a buffer with room for a piece.
fn fits(outbox: &[u8], out: &[u8]) -> bool
    ensures { result ≡ eqb (length outbox.now) outbox_max && leb piece_max (length out.now) }
{
    (outbox.len() == OUTBOX_MAX) & (PIECE_MAX <= out.len())
}

// A step that is lent too little does nothing. The steps are public and must not fail, so this answer is a step in which nothing was done, and no refusal.
fn idle(s: State) -> Step
    ensures { result ≡ record { state = s; used = 0; len = 0 } }
{
    Step {
        state: s,
        used: 0,
        len: 0,
    }
}

// Takes in a chunk up to its first line end, or all of it.
pub fn take_in(
    s: State,
    arrays: &mut Arrays,
    line: &mut [u8],
    chunk: &[u8],
    outbox: &mut [u8],
    out: &mut [u8],
) -> Step
    ensures { Ready s line.old outbox.old out.old → Takes s (engine_in arrays.old) line.old outbox.old chunk.now result.state (engine_in arrays.new) line.new outbox.new result.used (take result.len out.new) }
{
    if !fits(outbox, out) {
        return idle(s);
    }
    let event = input::gather(line, s.held, chunk);
    let said = on_event(s, arrays, line, event, outbox, out);
    Step {
        state: said.state,
        used: used_by(event, chunk.len()),
        len: said.len,
    }
}

// The input has ended: what is left of it is a line, if there is anything.
pub fn finish(s: State, arrays: &mut Arrays, line: &[u8], outbox: &mut [u8], out: &mut [u8]) -> Step
    ensures { Ready s line.now outbox.old out.old → Finishes s (engine_in arrays.old) line.now outbox.old result.state (engine_in arrays.new) outbox.new (take result.len out.new) }
{
    if !fits(outbox, out) {
        return idle(s);
    }
    let event = input::finish(line, s.held);
    let said = on_event(s, arrays, line, event, outbox, out);
    Step {
        state: said.state,
        used: 0,
        len: said.len,
    }
}

// `!` where a call wrote what it should not.
fn say_stain(out: &mut [u8], lent: &[u8], n: usize) -> usize
    requires { piece_max ≤ length out.old }
    ensures { take result out.new ≡ stain n lent.now }
{
    if record::is_clean(lent, n) {
        return 0;
    }
    buffer::append(out, 0, b"!\n")
}

// The line of the record that is printed next.
fn say_record(out: &mut [u8], lent: &[u8], due: Printing) -> usize
    requires { piece_max ≤ length out.old }
    ensures { take result out.new ≡ record_line (record_at due.next lent.now) }
{
    record::append_record(out, 0, record::record_at(lent, due.next))
}

// Prints the next piece of what is due of an answer: a record, or behind the last whether a call wrote what it should not.
pub fn print_due(s: State, outbox: &[u8], out: &mut [u8]) -> Step
    ensures { IsSome s.printing → piece_max ≤ length out.old → PrintsPiece s outbox.now result.state (take result.len out.new) }
{
    let Some(due) = s.printing else {
        return idle(s);
    };
    if out.len() < PIECE_MAX {
        return idle(s);
    }
    let lent = part::front(outbox, due.room);
    if due.records <= due.next {
        return Step {
            state: State {
                printing: None,
                ..s
            },
            used: 0,
            len: say_stain(out, lent, due.records),
        };
    }
    let rest = Printing {
        next: due.next + 1,
        ..due
    };
    Step {
        state: State {
            printing: Some(rest),
            ..s
        },
        used: 0,
        len: say_record(out, lent, due),
    }
}
