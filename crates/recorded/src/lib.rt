// Reading recorded cases, which differential/record writes: one case a line, its fields parted by a blank, numbers and bytes in hexadecimal.
// It says no paragraph of document 01; the programs that replay recorded answers of the Rust read them by this.
#![tactic(auto)]

ghost use Rattle.std.specs.Prelude.{◌≡◌, ◌<◌, ◌+◌, ◌/◌, ◌%◌, ◌^◌, length, vec_len, replicate, cond, codes, ◌++◌, Some, IfOk, IfErr, IsTrue, ◌↔◌, All};
ghost use Rattle.std.specs.Fmt.{decimal};
ghost use Rattle.std.specs.IoError.{error_kind};
ghost use Rattle.recorded.specs.Counts.{IsPrefixLen};

use std::alloc::{AllocError, Global};
use std::io::{ErrorKind, Read};
use std::{fmt, io};

// The byte by which it is seen what a call leaves alone.
pub const UNTOUCHED: u8 = 165;

// The value of a hexadecimal digit in lower case, 0 of any other byte, since `number` answers a number of any bytes. By hand: `to_digit` takes capitals too.
fn digit(b: u8) -> u8
    ensures { result < 16 }
{
    match b {
        b'0'..=b'9' => b - b'0',
        b'a'..=b'f' => b - b'a' + 10,
        _ => 0,
    }
}

// The number that digits stand for; of more than sixteen the last sixteen count.
pub fn number(s: &[u8]) -> u64 {
    s.iter().fold(0, |n, b| n << 4 | u64::from(digit(*b)))
}

// Puts the bytes that pairs of digits stand for at the start of `out`, as many as it takes, and answers how many.
pub fn bytes(s: &[u8], out: &mut [u8]) -> usize
    ensures { IsPrefixLen result out.new }
{
    let (pairs, _) = s.as_chunks::<2>();
    for (byte, [high, low]) in out.iter_mut().zip(pairs) {
        *byte = digit(*high) << 4 | digit(*low);
    }
    pairs.len().min(out.len())
}

// The bytes that pairs of digits stand for.
pub fn decoded(alloc: Global, s: &[u8]) -> Result<Vec<u8>, AllocError>
    ensures { IfOk result (λ bytes. vec_len bytes ≡ length s.now / 2) }
{
    let mut decoded = vec![in alloc; 0; s.len() / 2]?;
    bytes(s, &mut decoded);
    Ok(decoded)
}

// Fills a buffer with the byte by which it is seen what a call leaves alone.
pub fn fill(s: &mut [u8])
    ensures { s.new ≡ replicate (length s.old) UNTOUCHED }
{
    s.fill(UNTOUCHED);
}

// Whether every byte is still that one.
pub fn is_filled(s: &[u8]) -> bool
    ensures { IsTrue result ↔ All (λ b. b ≡ UNTOUCHED) s.now }
{
    s.iter().all(|b| *b == UNTOUCHED)
}

// A number that stands for bytes: 257 times what came before, of which the lowest 55 bits count, and the byte.
pub fn digest(s: &[u8]) -> u64 {
    s.iter()
        .fold(0, |sum, b| sum % (1 << 55) * 257 + u64::from(*b))
}

// How many cases were replayed and how many differ.
#[derive(Clone, Copy, Debug, Default, PartialEq, Eq)]
pub struct Tally {
    pub cases: u64,
    pub differences: u64,
}

impl Tally {
    // One case more.
    pub fn with(self, same: bool) -> Tally
        ensures cases { result.cases ≡ (self.cases + 1) % 2 ^ 64 }
        ensures differences { result.differences ≡ (self.differences + cond same 0 1) % 2 ^ 64 }
    {
        Tally {
            cases: self.cases.wrapping_add(1),
            differences: self.differences.wrapping_add(u64::from(!same)),
        }
    }
}

impl fmt::Display for Tally {
    ghost output = { λ t. Some (decimal t.cases ++ codes " cases, " ++ decimal t.differences ++ codes " differences") };

    fn fmt<W: fmt::Write>(&self, f: &mut fmt::Formatter<W>) -> fmt::Result {
        write!(f, "{} cases, {} differences", self.cases, self.differences)
    }
}

// Asks of each line of a list, by its fields, whether the answer agrees. A read that fails counts as the end of the list, and
// so does an empty line, since no recorded one is empty: the only error is a lack of memory, for the list too.
pub fn replay<R: Read + Drop, F: FnMut(&[&[u8]]) -> Result<bool, AllocError>>(
    alloc: Global,
    mut list: R,
    mut agrees: F,
) -> io::Result<Tally>
    requires { F.IsAlwaysCallable agrees }
    ensures { IfErr result (λ e. error_kind e ≡ ErrorKind.OutOfMemory) }
{
    let mut text = Vec::new(alloc);
    match list.read_to_end(&mut text) {
        Err(error) if error.kind() == ErrorKind::OutOfMemory => return Err(error),
        _ => {}
    }
    let mut tally = Tally::default();
    for line in text.split(|b| *b == b'\n') {
        if line.is_empty() {
            break;
        }
        let fields: Vec<&[u8]> = line.split(|b| *b == b' ').collect(alloc)?;
        tally = tally.with(agrees(&fields)?);
    }
    Ok(tally)
}
