// Numbers in decimal: document 01, 'The session program'.
ghost use Rattle.console.specs.Buffer.{Appends};
ghost use Rattle.console.specs.Each.{each};
ghost use Rattle.console.specs.Decimal.{decimal, number_then};

use crate::buffer;

// Appends a number's decimal digits: those of its tenth, if it has one, and its last. (std's Display writes to a `fmt::Write`, which would be a further type here.)
pub fn append_decimal(buf: &mut [u8], len: usize, n: u64) -> usize
    ensures { Appends (decimal n) buf.old len buf.new result }
{
    let last = b'0' + (n % 10) as u8;
    if n < 10 {
        return buffer::push(buf, len, last);
    }
    let next = append_decimal(buf, len, n / 10);
    buffer::push(buf, next, last)
}

// Appends a number and the byte that ends it.
pub fn append_number(buf: &mut [u8], len: usize, n: u64, end: u8) -> usize
    ensures { Appends (number_then end n) buf.old len buf.new result }
{
    let next = append_decimal(buf, len, n);
    buffer::push(buf, next, end)
}

// Appends numbers, each with the byte that ends it.
pub fn append_numbers(buf: &mut [u8], len: usize, numbers: &[u64], end: u8) -> usize
    ensures { Appends (each (number_then end) numbers.now) buf.old len buf.new result }
{
    let mut next = len;
    for n in numbers {
        next = append_number(buf, next, *n, end);
    }
    next
}
