// The text rules for a host that is not Rattle, a static library: what differential/bench_text links and measures beside
// Rust's own functions.
#![tactic(auto)]

use text::lines::Line;
use text::white::Place;

// A line at the front of a text: its length without its end, and where the next one begins. The host reads it by C's
// layout, and text's `Line` has none that is fixed.
#[repr(C)]
#[derive(Clone, Copy)]
pub struct Cut {
    pub len: usize,
    pub next: usize,
}

impl From<Line> for Cut {
    fn from(line: Line) -> Cut {
        Cut {
            len: line.len,
            next: line.next,
        }
    }
}

// A part of a text: where it starts, and its length. As `Cut`, for `Place`.
#[repr(C)]
#[derive(Clone, Copy)]
pub struct Part {
    pub start: usize,
    pub len: usize,
}

impl From<Place> for Part {
    fn from(place: Place) -> Part {
        Part {
            start: place.start,
            len: place.len,
        }
    }
}

#[unsafe(no_mangle)]
pub extern "C" fn text_is_utf8(s: &[u8]) -> bool {
    text::utf8::is_utf8(s)
}

#[unsafe(no_mangle)]
pub extern "C" fn text_first_line(s: &[u8]) -> Cut {
    text::lines::first_line(s).into()
}

#[unsafe(no_mangle)]
pub extern "C" fn text_trim(s: &[u8]) -> Part {
    text::white::trim(s).into()
}

// Whether a text may be handed in.
#[unsafe(no_mangle)]
pub extern "C" fn text_is_good(s: &[u8]) -> bool {
    text::good::is_good(s)
}
