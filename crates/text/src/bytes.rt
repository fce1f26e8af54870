// Comparing texts and finding in them: keys ('Messages'), names ('Outbox'), the last colon and the first `://`
// ('target_match' and 'rewrite_host'). What is one call of the library stands here for its clause, which says which definition the library's function is.
ghost use Rattle.std.specs.Prelude.{◌≡◌, ◌<◌, length, get_or, IfSome, IfNone};
ghost use Rattle.text.specs.Bytes.{lacks, upper, equal, equal_upper, order, index_of, last_index_of, starts_with, index_of_text};

use std::cmp::Ordering;
use std::simd::prelude::*;

// The byte at `i`, 0 past the end, as the definitions' `get_or` has it.
pub fn byte_at(s: &[u8], i: usize) -> u8
    ensures { result ≡ get_or s.now i 0 }
{
    s.get(i).copied().unwrap_or(0)
}

// A byte as an ASCII capital, if it is an ASCII letter.
pub fn upper_of(a: u8) -> u8
    ensures { result ≡ upper a }
{
    a.to_ascii_uppercase()
}

// Whether two texts are the same.
pub fn equal(s: &[u8], t: &[u8]) -> bool
    ensures { result ≡ equal s.now t.now }
{
    s == t
}

// Whether `s`, its ASCII letters in upper case, is `t`.
pub fn equal_upper(s: &[u8], t: &[u8]) -> bool
    ensures { result ≡ equal_upper s.now t.now }
{
    s.len() == t.len() && s.iter().zip(t).all(|(&a, &b)| upper_of(a) == b)
}

// The byte order of two texts.
pub fn order(s: &[u8], t: &[u8]) -> Ordering
    ensures { result ≡ order s.now t.now }
{
    s.cmp(t)
}

// Whether a text has no byte `b`.
pub fn lacks(s: &[u8], b: u8) -> bool
    ensures { result ≡ lacks b s.now }
{
    !s.contains(&b)
}

// The first place of `b` in a block of 16 bytes, which are compared at once; 16 if it has none, as the definition says of a text: of an Option two clauses would say the same.
fn place_in(block: &[u8; 16], b: u8) -> usize
    ensures { result ≡ index_of b block.now }
{
    let places = u8x16::from_array(*block)
        .simd_eq(u8x16::splat(b))
        .to_bitmask();
    if places == 0 {
        return 16;
    }
    places.trailing_zeros() as usize
}

// The first place of `b`: by blocks, and in what these leave byte by byte. With the kit's `memchr`, which goes byte by byte through less than 32 bytes, as a line mostly
// has, a search misses its goal of speed (docs/BENCHMARKS.md).
pub fn find(s: &[u8], b: u8) -> Option<usize>
    ensures some { IfSome result (λ i. (i ≡ index_of b s.now) × (i < length s.now)) }
    ensures none { IfNone result (index_of b s.now ≡ length s.now) }
{
    let (blocks, _) = s.as_chunks::<16>();
    for (i, block) in blocks.iter().enumerate() {
        let k = place_in(block, b);
        if k < 16 {
            return Some(16 * i + k);
        }
    }
    for i in 16 * blocks.len()..s.len() {
        if s[i] == b {
            return Some(i);
        }
    }
    None
}

// The last place of `b`, looked for from the end.
pub fn find_last(s: &[u8], b: u8) -> Option<usize>
    ensures some { IfSome result (λ i. (i ≡ last_index_of b s.now) × (i < length s.now)) }
    ensures none { IfNone result (last_index_of b s.now ≡ length s.now) }
{
    for i in (0..s.len()).rev() {
        if s[i] == b {
            return Some(i);
        }
    }
    None
}

// Whether `s` starts with `p`.
pub fn starts_with(s: &[u8], p: &[u8]) -> bool
    ensures { result ≡ starts_with p.now s.now }
{
    s.starts_with(p)
}

// The first place where `p` starts.
pub fn find_text(s: &[u8], p: &[u8]) -> Option<usize>
    ensures some { IfSome result (λ i. (i ≡ index_of_text p.now s.now) × (i < length s.now)) }
    ensures none { IfNone result (index_of_text p.now s.now ≡ length s.now) }
{
    (0..s.len()).find(|&i| starts_with(&s[i..], p))
}
