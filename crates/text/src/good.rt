// Texts that a host hands in (document 01, 'Who can be turned away', refusal 4).
ghost use Rattle.std.specs.Prelude.{◌≡◌};
ghost use Rattle.text.specs.Good.{good_text, visible};
ghost use Rattle.text.specs.Range.{every};

use crate::{bytes, utf8, white};

// Whether every byte is a visible ASCII character. The loop has no way out before the end, as `all` has, so that it runs
// over many bytes at a time.
fn all_visible(s: &[u8]) -> bool
    ensures { result ≡ every visible s.now }
{
    let mut all = true;
    for b in s {
        all &= b.is_ascii_graphic();
    }
    all
}

// The same by blocks of 16 bytes: with one loop over the text the build of a search takes 0.77 of the Rust's time, where the goal is 0.7. The last block ends where
// the text does and looks at some bytes of the one before again, so that no byte is looked at by itself. The
// loop over the blocks is plain: `all` would take `all_visible` as a closure.
fn is_visible(s: &[u8]) -> bool
    ensures { result ≡ every visible s.now }
{
    let Some(last) = s.last_chunk::<16>() else {
        return all_visible(s);
    };
    let (blocks, _) = s.as_chunks::<16>();
    for block in blocks {
        if !all_visible(block) {
            return false;
        }
    }
    all_visible(last)
}

// Whether a text passes every rule, one after the other.
fn passes(s: &[u8]) -> bool
    ensures { result ≡ good_text s.now }
{
    utf8::is_utf8(s)
        & bytes::lacks(s, 10)
        & bytes::lacks(s, 13)
        & (white::leading_of(s) == 0)
        & (white::trailing_of(s) == 0)
}

// Whether a text is UTF-8, has no byte 10 or 13, and no white space at an end. Most texts are visible
// ASCII and pass all of it at once.
pub fn is_good(s: &[u8]) -> bool
    ensures { result ≡ good_text s.now }
{
    is_visible(s) || passes(s)
}
