// Dotted addresses: document 01, 'The session program'.
ghost use Rattle.std.specs.Prelude.{◌≡◌, ◌≤◌, length};
ghost use Rattle.console.specs.Buffer.{Appends};
ghost use Rattle.console.specs.Address.{octet, address, address_then};

use crate::{decimal, part};
use text::{bytes, number};

// One of the four numbers.
fn octet_of(s: &[u8]) -> Option<u8>
    ensures { result ≡ octet s.now }
{
    let first = part::byte_at(s, 0);
    if (first == b'+') | ((first == b'0') & (1 < s.len())) {
        return None;
    }
    number::parse(s)
}

// The number that a dotted address stands for. Each turn passes an octet that ends in a dot; the last has none.
pub fn address_of(s: &[u8]) -> Option<u32>
    ensures { result ≡ address s.now }
{
    let mut rest = s;
    let mut n: u32 = 0;
    for _ in 0..3u32 {
        let dot = bytes::find(rest, b'.')?;
        n = n * 256 + u32::from(octet_of(&rest[..dot])?);
        rest = &rest[dot + 1..];
    }
    Some(n * 256 + u32::from(octet_of(rest)?))
}

// Appends the first four bytes of `s` as a dotted address, and the byte that ends it: 16 bytes at most.
pub fn append_address(buf: &mut [u8], len: usize, s: &[u8], end: u8) -> usize
    ensures { Appends (address_then end s.now) buf.old len buf.new result × (length (address_then end s.now) ≤ 16) }
{
    let first = decimal::append_number(buf, len, u64::from(part::byte_at(s, 0)), b'.');
    let second = decimal::append_number(buf, first, u64::from(part::byte_at(s, 1)), b'.');
    let third = decimal::append_number(buf, second, u64::from(part::byte_at(s, 2)), b'.');
    decimal::append_number(buf, third, u64::from(part::byte_at(s, 3)), end)
}
