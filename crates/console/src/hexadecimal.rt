// Bytes in hexadecimal, as `trace` reads and prints them.
ghost use Rattle.std.specs.Prelude.{◌≡◌, ◌<◌};
ghost use Rattle.console.specs.Buffer.{Appends, Filled};
ghost use Rattle.console.specs.Each.{all};
ghost use Rattle.console.specs.Hexadecimal.{hex_digit, hex_byte, hex_text, is_hex_digit, nibble, hexadecimal, unhexed};

use crate::buffer;

// The digit of a number below 16. `char::from_digit` would have an arm that never runs, and answer a char.
fn digit_of(n: u8) -> u8
    requires { n < 16 }
    ensures { result ≡ hex_digit n }
{
    if n < 10 { b'0' + n } else { b'a' + (n - 10) }
}

// Appends a byte's two digits.
fn append_hex_byte(buf: &mut [u8], len: usize, byte: u8) -> usize
    ensures { Appends (hex_byte byte) buf.old len buf.new result }
{
    let next = buffer::push(buf, len, digit_of(byte / 16));
    buffer::push(buf, next, digit_of(byte % 16))
}

// Appends the digits of a text's bytes.
pub fn append_hex(buf: &mut [u8], len: usize, text: &[u8]) -> usize
    ensures { Appends (hex_text text.now) buf.old len buf.new result }
{
    let mut end = len;
    for byte in text {
        end = append_hex_byte(buf, end, *byte);
    }
    end
}

fn is_hex_digit(b: u8) -> bool
    ensures { result ≡ is_hex_digit b }
{
    b.is_ascii_hexdigit()
}

fn has_only_digits(text: &[u8]) -> bool
    ensures { result ≡ all is_hex_digit text.now }
{
    text.iter().all(|b| is_hex_digit(*b))
}

// Whether a text is bytes in hexadecimal.
#[tactic(auto, unfolding(crate::specs::Hexadecimal::hexadecimal))]
pub fn is_hexadecimal(text: &[u8]) -> bool
    ensures { result ≡ hexadecimal text.now }
{
    (text.len() % 2 == 0) && has_only_digits(text)
}

// The number that a digit stands for; 0 for any other byte, as the definition has it.
#[tactic(auto, unfolding(crate::specs::Hexadecimal::nibble))]
fn nibble_of(b: u8) -> u8
    ensures value { result ≡ nibble b }
    ensures upper_bound { result < 16 }
{
    char::from(b).to_digit(16).unwrap_or(0) as u8
}

// Writes the bytes that the digits stand for to the front of `buf`, and answers how many they are.
pub fn write_unhexed(buf: &mut [u8], text: &[u8]) -> usize
    ensures { Filled (unhexed text.now) buf.new result }
{
    let mut len = 0;
    let (pairs, _) = text.as_chunks::<2>();
    for [high, low] in pairs {
        len = buffer::push(buf, len, 16 * nibble_of(*high) + nibble_of(*low));
    }
    len
}
