// What `trace` prints and checks of the records in the outbox: document 01, 'Outbox'.
ghost use Rattle.std.specs.Prelude.{◌≡◌, ◌+◌, ◌*◌, ◌<◌, ◌≤◌, eqb, length, replicate};
ghost use Rattle.console.specs.Buffer.{Appends};
ghost use Rattle.console.specs.Each.{all};
ghost use Rattle.dialogue.specs.Printing.{number_at, head_line, record_line};
ghost use Rattle.dialogue.specs.Outbox.{record_at, padded, all_padded, clean, mark};

use console::{address, buffer, decimal, hexadecimal, part};
use engine::sizes::{RECORD_HEAD, RECORD_SIZE};

// What every byte of the outbox is before a call.
const MARK: u8 = 165;

// The number of two bytes, the higher first.
fn number_at(s: &[u8], at: usize) -> usize
    ensures { (result ≡ number_at at s.now) × (result < 65536) }
{
    let rest = part::tail(s, at);
    usize::from(u16::from_be_bytes([part::byte_at(rest, 0), part::byte_at(rest, 1)]))
}

// Record `k` of the outbox; nothing where it has fewer.
pub fn record_at(outbox: &[u8], k: usize) -> &[u8]
    ensures { result.now ≡ record_at k outbox.now }
{
    if outbox.len() / RECORD_SIZE <= k {
        return &outbox[..0];
    }
    let start = RECORD_SIZE * k;
    &outbox[start..start + RECORD_SIZE]
}

// Where a record goes, and from where. As in answer.rt the bytes are the caller's, and the answer says how many are used.
fn append_head(buf: &mut [u8], len: usize, s: &[u8]) -> usize
    ensures { Appends (head_line s.now) buf.old len buf.new result × (length (head_line s.now) ≤ 40) }
{
    let next = buffer::append(buf, len, b"R ");
    let next = address::append_address(buf, next, s, b' ');
    let next = decimal::append_number(buf, next, number_at(s, 4) as u64, b' ');
    address::append_address(buf, next, part::tail(s, 6), b' ')
}

// The line of a record: two digits for each byte of the message, and 47 bytes at most for all else.
pub fn append_record(buf: &mut [u8], len: usize, s: &[u8]) -> usize
    ensures { Appends (record_line s.now) buf.old len buf.new result × (length (record_line s.now) ≤ 47 + 2 * length s.now) }
{
    let size = number_at(s, 10);
    let next = append_head(buf, len, s);
    let next = decimal::append_number(buf, next, size as u64, b' ');
    let message = part::front(part::tail(s, RECORD_HEAD), size);
    let next = hexadecimal::append_hex(buf, next, message);
    buffer::push(buf, next, b'\n')
}

// Marks every byte that is lent. Crate `recorded` has the like for the lists, with a mark of its own.
pub fn fill(outbox: &mut [u8])
    ensures { outbox.new ≡ replicate (length outbox.old) mark }
{
    outbox.fill(MARK);
}

// Whether every byte is this one.
fn is_all(s: &[u8], byte: u8) -> bool
    ensures { result ≡ all (eqb byte) s.now }
{
    s.iter().all(|b| *b == byte)
}

// Whether a record is zero behind its message.
fn is_padded(s: &[u8]) -> bool
    ensures { result ≡ padded s.now }
{
    let size = number_at(s, 10);
    is_all(part::tail(s, RECORD_HEAD + size), 0)
}

// Whether the first `n` records are.
fn are_padded(outbox: &[u8], n: usize) -> bool
    ensures { result ≡ all_padded n outbox.now }
{
    (0..n).all(|k| is_padded(record_at(outbox, k)))
}

// Whether a call that wrote `n` records left the rest of the outbox alone, and each record's padding zero. More records than there is room for show nothing.
pub fn is_clean(outbox: &[u8], n: usize) -> bool
    ensures { result ≡ clean n outbox.now }
{
    if outbox.len() / RECORD_SIZE < n {
        return true;
    }
    let end = RECORD_SIZE * n;
    is_all(&outbox[end..], MARK) & are_padded(outbox, n)
}
