// Lines (document 01, 'Text rules').
ghost use Rattle.std.specs.Prelude.{◌≡◌, length};
ghost use Rattle.text.specs.Lines.{first_line, without};

use crate::bytes;

// A line at the front of a text: its length without its end, and where the next one begins.
#[derive(Clone, Copy)]
pub struct Line {
    pub len: usize,
    pub next: usize,
}

// How long a line is without a byte 13 at its end.
fn bare_len(line: &[u8]) -> usize
    ensures { result ≡ length (without 13 line.now) }
{
    match line {
        [bare @ .., 13] => bare.len(),
        _ => line.len(),
    }
}

// The first line of a text. One that is empty is told by its first bytes: what stands behind many of them would wait for a search each time.
pub fn first_line(s: &[u8]) -> Line
    ensures { result ≡ first_line s.now }
{
    if 2 <= s.len() {
        let second = s[1];
        match s[0] {
            10 => return Line { len: 0, next: 1 },
            13 if second == 10 => return Line { len: 0, next: 2 },
            _ => {}
        }
    }
    match bytes::find(s, 10) {
        Some(n) => Line {
            len: bare_len(&s[..n]),
            next: n + 1,
        },
        None => Line {
            len: s.len(),
            next: s.len(),
        },
    }
}
