// The input's lines, gathered from chunks: document 01, 'The session program'. A line's text grows in a buffer that holds the longest
// line with both bytes of its end; a longer one loses what finds no room, and is told by its length.
ghost use Rattle.std.specs.Prelude.{◌≡◌, List, ℕ, take};
ghost use Rattle.console.specs.Input.{event_in, Gathers, Pending, finished};

use crate::{buffer, part};
use text::{bytes, lines};

// The longest line that is read.
pub const LINE_MAX: usize = 4096;

// What a chunk of the input brings: the line goes on, and so much of it is held; it has ended, with this length, and so many bytes
// of the chunk are used up; or it has ended and is too long.
#[derive(Clone, Copy)]
pub enum Event {
    More(usize),
    Line { len: usize, used: usize },
    TooLong(usize),
}

// What stands at the front of a buffer, as a line.
#[tactic(auto, unfolding(crate::specs::Input::event_in))]
fn event_of(front: &[u8], used: usize) -> Event
    ensures { result ≡ event_in front.now used }
{
    let line = lines::first_line(front);
    if line.len <= LINE_MAX {
        return Event::Line {
            len: line.len,
            used,
        };
    }
    Event::TooLong(used)
}

fn event_in(buf: &[u8], len: usize, used: usize) -> Event
    ensures { result ≡ event_in (take len buf.now) used }
{
    event_of(part::front(buf, len), used)
}

// Takes in a chunk behind the `len` bytes of a line that are held (buffer.rt says why a length goes beside a buffer).
pub fn gather(buf: &mut [u8], len: usize, chunk: &[u8]) -> Event
    ensures { Gathers buf.old len chunk.now buf.new result }
{
    let Some(end) = bytes::find(chunk, b'\n') else {
        return Event::More(buffer::append(buf, len, chunk));
    };
    let used = end + 1;
    let held = buffer::append(buf, len, &chunk[..used]);
    event_in(buf, held, used)
}

// The input has ended behind the `len` bytes of a line that are held.
#[tactic(auto, using(crate::proofs::Gathering::at_end_none, crate::proofs::Gathering::at_end))]
pub fn finish(buf: &[u8], len: usize) -> Event
    ensures { (text : List ℕ) → Pending text buf.now len → result ≡ finished text }
{
    if len == 0 {
        return Event::More(0);
    }
    event_in(buf, len, 0)
}
