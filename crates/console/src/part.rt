// Parts of a text. A part that reaches past the text is what there is of it.
ghost use Rattle.std.specs.Prelude.{◌≡◌, take, drop, get_or};

pub use text::white::part_of;

// The text from byte `at` on.
pub fn tail(s: &[u8], at: usize) -> &[u8]
    ensures { result.now ≡ drop at s.now }
{
    &s[at.min(s.len())..]
}

// The first `n` bytes of the text.
pub fn front(s: &[u8], n: usize) -> &[u8]
    ensures { result.now ≡ take n s.now }
{
    &s[..n.min(s.len())]
}

// The byte at `i`, 0 past the end. As text's: it stands here too, since an edit of this crate makes it wrong (must-fail-by-name).
pub fn byte_at(s: &[u8], i: usize) -> u8
    ensures { result ≡ get_or s.now i 0 }
{
    s.get(i).copied().unwrap_or(0)
}
