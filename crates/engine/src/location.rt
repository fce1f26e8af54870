// A location with the host that the receiver of a message can reach: document 01, '`target_match` and `rewrite_host`'.
// The contracts cite specs/Location.antt.
ghost use Rattle.std.specs.Prelude.{◌≡◌, ◌+◌, ◌≤◌, ◌<◌, length, drop};
ghost use Rattle.text.specs.Put.{Put};
ghost use Rattle.engine.specs.Location.{address_text_max, decimal, decimal_dot, dotted, host_length, Rewrites};

use crate::buffer::put;
use text::bytes;

// A byte in decimal digits, without leading zeros. Crate `console` appends what finds room, and this asks for room.
// By hand: the library's printing goes through a formatter, which would need a writer of our own over the lent buffer.
fn put_decimal(buf: &mut [u8], at: usize, n: u8) -> usize
    requires { at + 3 ≤ length buf.old }
    ensures put { Put buf.old at (decimal n) buf.new result }
    ensures upper_bound { result ≤ at + 3 }
{
    let digits = [b'0' + n / 100, b'0' + n / 10 % 10, b'0' + n % 10];
    if n < 10 {
        return put(buf, at, &digits[2..]);
    }
    if n < 100 {
        return put(buf, at, &digits[1..]);
    }
    put(buf, at, &digits)
}

// The same and a dot.
fn put_decimal_dot(buf: &mut [u8], at: usize, n: u8) -> usize
    requires { at + 4 ≤ length buf.old }
    ensures put { Put buf.old at (decimal_dot n) buf.new result }
    ensures upper_bound { result ≤ at + 4 }
{
    let a = put_decimal(buf, at, n);
    put(buf, a, b".")
}

// An IPv4 address in dotted text.
fn put_dotted(buf: &mut [u8], at: usize, address: u32) -> usize
    requires { at + address_text_max ≤ length buf.old }
    ensures put { Put buf.old at (dotted address) buf.new result }
    ensures upper_bound { result ≤ at + address_text_max }
{
    let [first, second, third, fourth] = address.to_be_bytes();
    let a = put_decimal_dot(buf, at, first);
    let b = put_decimal_dot(buf, a, second);
    let c = put_decimal_dot(buf, b, third);
    put_decimal(buf, c, fourth)
}

// How much of what follows `://` is the host that goes.
#[tactic(auto, unfolding(crate::specs::Location::host_length))]
fn host_length(s: &[u8]) -> usize
    ensures { result ≡ host_length s.now }
{
    let Some(slash) = bytes::find(s, b'/') else {
        return s.len();
    };
    match bytes::find(s, b':') {
        Some(colon) => colon.min(slash),
        None => slash,
    }
}

// Where the host that begins at `start` ends.
fn host_end(location: &[u8], start: usize) -> usize
    requires { start ≤ length location.now }
    ensures value { result ≡ start + host_length (drop start location.now) }
    ensures lower_bound { (start ≤ result) × (result ≤ length location.now) }
{
    let n = host_length(&location[start..]);
    start + n
}

// Writes a location with an address in place of its host into `buf`, and answers its length.
pub(crate) fn rewrite_host(buf: &mut [u8], location: &[u8], address: u32) -> usize
    requires { length location.now + address_text_max ≤ length buf.old }
    ensures { Rewrites buf.old location.now address buf.new result }
{
    let Some(scheme) = bytes::find_text(location, b"://") else {
        return put(buf, 0, location);
    };
    let start = scheme + 3;
    let end = host_end(location, start);
    let a = put(buf, 0, &location[..start]);
    let b = put_dotted(buf, a, address);
    put(buf, b, &location[end..])
}
