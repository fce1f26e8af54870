// The programs `session` and `trace` at their standard streams: chunks of the input are read and handed on, and what each step gives is written. What is
// printed is decided in crate `program`. Nothing says that the input ends, so the loop that reads has a count that falls.
#![tactic(auto)]

ghost use Rattle.std.specs.Prelude.{◌≡◌, None, List, [], ℕ, ◌≤◌, length};
ghost use Rattle.engine.specs.Arrays.{Engine};
ghost use Rattle.engine.specs.Owned.{engine_in};
ghost use Rattle.program.specs.Steps.{piece_max, Ready, Hands, Reads};

use console::command::OUTBOX_MAX;
use console::part;
use engine::arrays::Arrays;
use program::state::{LINE_SIZE, State};
use program::{state, step};
use std::io::{Print, Read, Stdin, Stdout};

// The most bytes of a chunk of the input, and of a piece of the output.
const BUFFER_SIZE: usize = 4096;

// Writes the first `len` bytes of a buffer: a step says only how many bytes it has put there, since there is no heap. What cannot be written is lost.
fn write(to: Stdout, out: &[u8], len: usize) {
    let _ = to.write_all(part::front(out, len));
}

// Reads a chunk and answers how long it is: 0 where the input ends, as std's `read` says it, or where a read fails.
fn read_chunk(from: &mut Stdin, chunk: &mut [u8]) -> usize {
    from.read(chunk).unwrap_or(0)
}

// Writes what is still to be printed of an answer.
fn print_due(to: Stdout, s: State, outbox: &[u8], out: &mut [u8]) -> State
    requires { piece_max ≤ length out.old }
    ensures { (result.held ≡ s.held) × (result.printing ≡ None) × ((e : Engine) (line rest : List ℕ) → Hands s e line outbox.now rest result e line outbox.now rest) }
{
    let mut state = s;
    while state.printing.is_some() {
        let step = step::print_due(state, outbox, out);
        write(to, out, step.len);
        state = step.state;
    }
    state
}

// Hands on a chunk, part by part.
fn on_chunk(
    to: Stdout,
    s: State,
    arrays: &mut Arrays,
    line: &mut [u8],
    chunk: &[u8],
    outbox: &mut [u8],
    out: &mut [u8],
) -> State
    requires { Ready s line.old outbox.old out.old }
    ensures { Ready result line.new outbox.new out.new × Hands s (engine_in arrays.old) line.old outbox.old chunk.now result (engine_in arrays.new) line.new outbox.new [] }
{
    let mut state = s;
    let mut rest = chunk;
    while !rest.is_empty() {
        let step = step::take_in(state, arrays, line, rest, outbox, out);
        write(to, out, step.len);
        state = print_due(to, step.state, outbox, out);
        rest = part::tail(rest, step.used);
    }
    state
}

// Reads standard input to its end and hands it on.
fn read_all(
    from: &mut Stdin,
    to: Stdout,
    s: State,
    arrays: &mut Arrays,
    line: &mut [u8],
    outbox: &mut [u8],
    out: &mut [u8],
) -> State
    requires { Ready s line.old outbox.old out.old }
    ensures { Ready result line.new outbox.new out.new × Reads s (engine_in arrays.old) line.old outbox.old result (engine_in arrays.new) line.new outbox.new }
{
    let mut chunk = [0; BUFFER_SIZE];
    let mut state = s;
    for _ in 0..u64::MAX {
        let n = read_chunk(from, &mut chunk);
        if n == 0 {
            return state;
        }
        let read = part::front(&chunk, n);
        state = on_chunk(to, state, arrays, line, read, outbox, out);
    }
    state
}

// The input has ended: what is left of it is handed on, and its answer told to the end. The state says so; nobody goes on from it.
fn on_end(
    to: Stdout,
    s: State,
    arrays: &mut Arrays,
    line: &[u8],
    outbox: &mut [u8],
    out: &mut [u8],
) -> State
    requires { Ready s line.now outbox.old out.old }
    ensures { (result.held ≡ 0) × (result.printing ≡ None) }
{
    let step = step::finish(s, arrays, line, outbox, out);
    write(to, out, step.len);
    print_due(to, step.state, outbox, out)
}

// From the first byte of standard input to its end, with what `run` lends.
fn serve(
    from: &mut Stdin,
    to: Stdout,
    traced: bool,
    arrays: &mut Arrays,
    line: &mut [u8; LINE_SIZE],
    outbox: &mut [u8; OUTBOX_MAX],
    out: &mut [u8; BUFFER_SIZE],
) {
    let start = state::start(traced);
    let last = read_all(from, to, start, arrays, line, outbox, out);
    on_end(to, last, arrays, line, outbox, out);
}

// From the first byte of standard input to its end. The arrays are made here and lent to a function that knows of each its length alone.
pub fn run(from: &mut Stdin, to: Stdout, traced: bool) {
    let mut arrays = Arrays::new();
    let mut outbox = [0; OUTBOX_MAX];
    let mut line = [0; LINE_SIZE];
    let mut out = [0; BUFFER_SIZE];
    serve(
        from,
        to,
        traced,
        &mut arrays,
        &mut line,
        &mut outbox,
        &mut out,
    );
}
