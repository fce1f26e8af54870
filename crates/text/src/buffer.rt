// Writing into a lent buffer. The contract of `put` cites specs/Put.antt.
ghost use Rattle.std.specs.Prelude.{◌≡◌, ◌+◌, ◌≤◌, length};
ghost use Rattle.text.specs.Put.{Put, Puts};

// Writes `text`, which fits, byte by byte. This body and the two below are from before docs/DESIGN-PASS.md, which says what was tried in their place: `copy_from_slice` is a call
// of the C library's `memmove`, which an archive would need from outside, and with `for` loops a build takes twice the time.
fn put_bytes(buf: &mut [u8], at: usize, text: &[u8]) -> usize
    requires { at + length text.now ≤ length buf.old }
    ensures { Put buf.old at text.now buf.new result }
{
    let mut i = 0;
    let mut next = at;
    while i < text.len() {
        buf[next] = text[i];
        next += 1;
        i += 1;
    }
    next
}

// Writes 16 bytes by way of a copy, which cannot overlap the buffer, so that they are read and written at once.
fn put_block(buf: &mut [u8], at: usize, text: &[u8]) -> usize
    requires { (length text.now ≡ 16) × (at + 16 ≤ length buf.old) }
    ensures { Put buf.old at text.now buf.new result }
{
    let mut block = [0; 16];
    put_bytes(&mut block, 0, text);
    put_bytes(buf, at, &block)
}

// Writes a text of 16 bytes or more, which fits, by blocks. The last block ends where the text does and writes some bytes of the one before again,
// so that no byte is written by itself.
fn put_blocks(buf: &mut [u8], at: usize, text: &[u8]) -> usize
    requires { (16 ≤ length text.now) × (at + length text.now ≤ length buf.old) }
    ensures { Put buf.old at text.now buf.new result }
{
    let mut i = 0;
    while 16 <= text.len() - i {
        let e = i + 16;
        put_block(buf, at + i, &text[i..e]);
        i = e;
    }
    let last = text.len() - 16;
    put_block(buf, at + last, &text[last..])
}

// Writes `text` into `buf` from `at` on and answers the place behind it. Where it does not fit, writes nothing and answers `at`. Buffer and
// place go side by side: of a struct that holds a lent buffer each contract would have to say that it still holds the same one.
pub fn put(buf: &mut [u8], at: usize, text: &[u8]) -> usize
    ensures { Puts buf.old at text.now buf.new result }
{
    if buf.len() < text.len() || buf.len() - text.len() < at {
        return at;
    }
    if text.len() < 16 {
        return put_bytes(buf, at, text);
    }
    put_blocks(buf, at, text)
}
