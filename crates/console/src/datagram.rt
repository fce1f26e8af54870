// The datagram of a `data` line: document 01, 'The session program'.
ghost use Rattle.console.specs.Buffer.{Appends, Filled};
ghost use Rattle.console.specs.Datagram.{unbarred, datagram};

use crate::buffer;

// Appends what a byte of the line stands for.
#[tactic(auto, using(crate::proofs::Appending::text), unfolding(crate::specs::Datagram::unbarred))]
fn append_byte(buf: &mut [u8], len: usize, byte: u8) -> usize
    ensures { Appends (unbarred byte) buf.old len buf.new result }
{
    if byte == b'|' {
        return buffer::append(buf, len, b"\r\n");
    }
    buffer::push(buf, len, byte)
}

// Writes the datagram that a text of the line stands for to the front of `buf`, and answers its length.
pub fn write_datagram(buf: &mut [u8], text: &[u8]) -> usize
    ensures { Filled (datagram text.now) buf.new result }
{
    let mut len = 0;
    for byte in text {
        len = append_byte(buf, len, *byte);
    }
    len
}
