// Text that grows at the front of a lent buffer. What finds no room is left out, so that no call asks for room. The length goes beside the buffer: of a struct
// that holds both each contract would have to say besides that it still holds the same buffer.
ghost use Rattle.console.specs.Buffer.{Appends};
ghost use Rattle.std.specs.Prelude.{[], ◌∷◌};

// Appends a byte to the first `len` bytes of `buf` and answers the new length.
pub fn push(buf: &mut [u8], len: usize, byte: u8) -> usize
    ensures { Appends (byte ∷ []) buf.old len buf.new result }
{
    if len < buf.len() {
        buf[len] = byte;
        return len + 1;
    }
    len
}

// Appends a text.
pub fn append(buf: &mut [u8], len: usize, text: &[u8]) -> usize
    ensures { Appends text.now buf.old len buf.new result }
{
    let mut end = len;
    for byte in text {
        end = push(buf, end, *byte);
    }
    end
}
