// What one line gives: document 01, 'The session program'.
ghost use Rattle.std.specs.Prelude.{◌≡◌, false, Some, is_some, List, ℕ, min, ◌≤◌, length, take};
ghost use Rattle.console.specs.Command.{outbox_max};
ghost use Rattle.console.specs.Input.{Text};
ghost use Rattle.engine.specs.Arrays.{Engine};
ghost use Rattle.engine.specs.Owned.{engine_in};
ghost use Rattle.dialogue.specs.Asking.{Lend, asked};
ghost use Rattle.dialogue.specs.Obeying.{Obeys};
ghost use Rattle.program.specs.Program.{command_of, unread, gives, reply, lent_in};
ghost use Rattle.program.specs.Steps.{piece_max, session_in, room_in, Gives, reply_text, marked, lends};

use crate::state;
use crate::state::State;
use console::command::Command;
use console::{buffer, command};
use dialogue::session::Reply;
use dialogue::{answer, record, session};
use engine::answer::Answer;
use engine::arrays::Arrays;

// What is printed at once for a line: how many bytes of the buffer, and the state after it. There is no heap, so the bytes are in the caller's buffer, and an
// answer can say only how many they are.
#[derive(Clone, Copy)]
pub(crate) struct Said {
    pub state: State,
    pub len: usize,
}

// A short text at the front of a buffer.
fn say(out: &mut [u8], text: &[u8]) -> usize
    requires { length text.now ≤ length out.old }
    ensures { take result out.new ≡ text.now }
{
    buffer::append(out, 0, text)
}

// The command of a line, by the words that the program knows. `traced` says here, in `mark` and in `say_reply` whether the program is `trace`: an enum of
// the two programs would be asked by the same `if` in each, and the definitions speak of a flag.
fn command_of(line: &[u8], traced: bool) -> Option<Command>
    ensures { result ≡ command_of traced line.now }
{
    if traced {
        return command::trace_command(line);
    }
    command::session_command(line)
}

// Marks what is lent, so that `trace` sees what a call wrote.
fn mark(outbox: &mut [u8], traced: bool)
    ensures { outbox.new ≡ marked traced outbox.old }
{
    if traced {
        record::fill(outbox);
    }
}

// The engine hears a command, with this outbox.
fn obey_marked(s: State, arrays: &mut Arrays, line: &[u8], c: Command, outbox: &mut [u8]) -> Reply
    ensures { Obeys (is_some s.lent) (asked line.now (length outbox.old) (Some c)) (engine_in arrays.old) (marked s.traced outbox.old) outbox.new (engine_in arrays.new) result }
{
    mark(outbox, s.traced);
    session::obey(s.lent.is_some(), arrays, line, Some(c), outbox)
}

// The same with as much of the outbox as is lent.
fn obey_lent(s: State, arrays: &mut Arrays, line: &[u8], c: Command, outbox: &mut [u8]) -> Reply
    ensures { Obeys (is_some s.lent) (asked line.now (min (room_in s) (length outbox.old)) (Some c)) (engine_in arrays.old) (marked s.traced (take (room_in s) outbox.old)) (take (room_in s) outbox.new) (engine_in arrays.new) result }
{
    let lent = state::room_of(s).min(outbox.len());
    obey_marked(s, arrays, line, c, &mut outbox[..lent])
}

// What is printed at once of a reply: `?`, or the answer and, by `trace`, its news.
fn say_reply(out: &mut [u8], reply: Option<Answer>, traced: bool) -> usize
    requires { piece_max ≤ length out.old }
    ensures { take result out.new ≡ reply_text traced reply }
{
    let Some(answer) = reply else {
        return say(out, b"?\n");
    };
    let len = answer::append_answer(out, 0, answer);
    if !traced {
        return len;
    }
    answer::append_news(out, len, answer)
}

// A call, or nothing that is heard.
fn obey(
    s: State,
    arrays: &mut Arrays,
    line: &[u8],
    c: Command,
    outbox: &mut [u8],
    out: &mut [u8],
) -> Said
    requires { (length outbox.old ≡ outbox_max) × (piece_max ≤ length out.old) }
    ensures { lends (asked line.now (lent_in (session_in s (engine_in arrays.old))) (Some c)) ≡ false → Gives (gives s.traced (session_in s (engine_in arrays.old)) (asked line.now (lent_in (session_in s (engine_in arrays.old))) (Some c))) s.traced (engine_in arrays.new) outbox.new (take result.len out.new) result.state }
{
    let r = obey_lent(s, arrays, line, c, outbox);
    Said {
        state: state::after_reply(s, r),
        len: say_reply(out, r.answer, s.traced),
    }
}

// A line that is not read: `?`.
pub(crate) fn unheard(s: State, out: &mut [u8]) -> Said
    requires { piece_max ≤ length out.old }
    ensures { (e : Engine) (outbox : List ℕ) → Gives (unread (session_in s e)) s.traced e outbox (take result.len out.new) result.state }
{
    Said {
        state: state::with_lent(s, s.lent),
        len: say(out, b"?\n"),
    }
}

// An `outbox` line: so many bytes are lent from now on.
fn lend(s: State, n: usize, out: &mut [u8]) -> Said
    requires { piece_max ≤ length out.old }
    ensures { (e : Engine) (outbox : List ℕ) → Gives (gives s.traced (session_in s e) (Lend n)) s.traced e outbox (take result.len out.new) result.state }
{
    let Some(_) = s.lent else {
        return unheard(s, out);
    };
    Said {
        state: state::with_lent(s, Some(n)),
        len: say(out, b"ok\n"),
    }
}

// One line.
pub(crate) fn on_line(
    s: State,
    arrays: &mut Arrays,
    line: &[u8],
    outbox: &mut [u8],
    out: &mut [u8],
) -> Said
    requires { (length outbox.old ≡ outbox_max) × (piece_max ≤ length out.old) }
    ensures { Gives (reply s.traced (session_in s (engine_in arrays.old)) (Text line.now)) s.traced (engine_in arrays.new) outbox.new (take result.len out.new) result.state }
{
    let Some(command) = command_of(line, s.traced) else {
        return unheard(s, out);
    };
    let Command::Lend(n) = command else {
        return obey(s, arrays, line, command, outbox, out);
    };
    lend(s, n as usize, out)
}
