// White space, and trimming from both ends (document 01, 'Text rules').
ghost use Rattle.std.specs.Prelude.{◌≡◌, false, ◌<◌, ◌≤◌, reverse, length, take, drop, get_or};
ghost use Rattle.text.specs.White.{white_space, begins, white1, white2, white3, width, opening, closing, at, leading, trailing, trimmed};

use crate::{bytes, utf8};

// A part of a text: where it starts, and its length.
#[derive(Clone, Copy)]
pub struct Place {
    pub start: usize,
    pub len: usize,
}

// What stands at a place. A place that reaches past the text has what there is of it.
pub fn part_of(s: &[u8], place: Place) -> &[u8]
    ensures { result.now ≡ take place.len (drop place.start s.now) }
{
    let rest = s.get(place.start..).unwrap_or(b"");
    rest.get(..place.len).unwrap_or(rest)
}

// Whether a code point is white space: document 01's list.
#[tactic(auto, using(std::proofs::lemmas::Bool::Decides::nat_tests), unfolding(crate::specs::White::white_space))]
pub fn is_white_space(c: u32) -> bool
    ensures { result ≡ white_space c }
{
    matches!(
        c,
        0x0009..=0x000D
            | 0x0020
            | 0x0085
            | 0x00A0
            | 0x1680
            | 0x2000..=0x200A
            | 0x2028
            | 0x2029
            | 0x202F
            | 0x205F
            | 0x3000
    )
}

// Whether `a` and `b` begin a character of 1 + `tail` bytes.
fn begin(tail: u8, a: u8, b: u8) -> bool
    ensures { result ≡ begins tail a b }
{
    let l = utf8::lead_of(a);
    (l.tail == tail) & l.admits(b)
}

// Whether a character of one byte, of two or of three is white space: each has its code point from other bits.
fn is_white1(a: u8) -> bool
    ensures { result ≡ white1 a }
{
    (a <= 0x7F) & is_white_space(u32::from(a))
}

fn is_white2(a: u8, b: u8) -> bool
    ensures { result ≡ white2 a b }
{
    begin(1, a, b) & is_white_space(u32::from(a) % 32 * 64 + u32::from(b) % 64)
}

fn is_white3(a: u8, b: u8, c: u8) -> bool
    ensures { result ≡ white3 a b c }
{
    begin(2, a, b)
        & utf8::continues(c)
        & is_white_space((u32::from(a) % 16 * 64 + u32::from(b) % 64) * 64 + u32::from(c) % 64)
}

// How many bytes of white space the three tests stand for; 0, as the definition has it, passes nothing.
fn width_of(one: bool, two: bool, three: bool) -> usize
    ensures { result ≡ width one two three }
{
    if one {
        1
    } else if two {
        2
    } else if three {
        3
    } else {
        0
    }
}

// The same for a byte that is a character by itself.
fn ascii_width(a: u8) -> usize
    ensures { result ≡ width (white_space a) false false }
{
    width_of(is_white_space(u32::from(a)), false, false)
}

// How many bytes the white-space character has that starts at `i`.
fn opening_at(s: &[u8], i: usize) -> usize
    requires { i < length s.now }
    ensures { result ≡ at opening (drop i s.now) }
{
    let a = s[i];
    if a <= 0x7F {
        return ascii_width(a);
    }
    let b = bytes::byte_at(s, i + 1);
    let c = bytes::byte_at(s, i + 2);
    width_of(is_white1(a), is_white2(a, b), is_white3(a, b, c))
}

// How many bytes of white space stand at the front. Each turn passes one character: the place moves by its width.
pub fn leading_of(s: &[u8]) -> usize
    ensures { result ≡ leading s.now }
{
    let mut i = 0;
    while i < s.len() {
        let w = opening_at(s, i);
        if w == 0 {
            return i;
        }
        i += w;
    }
    i
}

// The byte `k` before the last of the first `e`, 0 if there is none. By hand: of `s[..e].iter().rev().nth(k)` the proof did not close.
fn byte_before(s: &[u8], e: usize, k: usize) -> u8
    requires { e ≤ length s.now }
    ensures { result ≡ get_or (reverse (take e s.now)) k 0 }
{
    if k < e { s[e - 1 - k] } else { 0 }
}

// How many bytes the white-space character has that ends before `e`.
fn closing_at(s: &[u8], e: usize) -> usize
    requires { e ≤ length s.now }
    ensures { result ≡ at closing (reverse (take e s.now)) }
{
    let c = byte_before(s, e, 0);
    if c <= 0x7F {
        return ascii_width(c);
    }
    let b = byte_before(s, e, 1);
    let a = byte_before(s, e, 2);
    width_of(is_white1(c), is_white2(b, c), is_white3(a, b, c))
}

// How many bytes of white space stand at the end. Each turn passes one character: the place moves by its width.
pub fn trailing_of(s: &[u8]) -> usize
    ensures { result ≡ trailing s.now }
{
    let mut e = s.len();
    while 0 < e {
        let w = closing_at(s, e);
        if w == 0 {
            return s.len() - e;
        }
        e -= w;
    }
    s.len() - e
}

// The place of a text without the white space at its ends.
pub fn trim(s: &[u8]) -> Place
    ensures { result ≡ trimmed s.now }
{
    let start = leading_of(s);
    if s.len() <= start {
        return Place { start: 0, len: 0 };
    }
    let rest = &s[start..];
    Place {
        start,
        len: rest.len() - trailing_of(rest),
    }
}
