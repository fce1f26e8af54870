// Writing into a lent buffer, where the text fits. The contract cites the text crate's specs/Put.antt.
ghost use Rattle.std.specs.Prelude.{◌+◌, ◌≤◌, length};
ghost use Rattle.text.specs.Put.{Put};

use text::buffer;

// Writes `text`, which fits, into `buf` from `at` on and answers the place behind it. A public function asks nothing of its caller, so that the text crate has none such.
pub(crate) fn put(buf: &mut [u8], at: usize, text: &[u8]) -> usize
    requires { at + length text.now ≤ length buf.old }
    ensures { Put buf.old at text.now buf.new result }
{
    buffer::put(buf, at, text)
}
