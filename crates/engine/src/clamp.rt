// Numbers brought into their range: the low bits of a number in a row, and a count of a table, as `take` has it in the definitions. The contracts cite specs/Arrays.antt.
ghost use Rattle.std.specs.Prelude.{◌≡◌, min, ◌<◌, length, get_or};
ghost use Rattle.engine.specs.Arrays.{low32};

use crate::sizes::Head;

// The low bits are meant, so no `try_from`.
pub(crate) fn low_32(x: u64) -> u32
    ensures { result ≡ low32 x }
{
    (x % 4294967296) as u32
}

// How many entries of a table are held: the number at a place of the head, but no more than the table has rows.
pub(crate) fn count_in(head: &Head, place: usize, most: usize) -> usize
    requires { place < length head.now }
    ensures { result ≡ min (get_or head.now place 0) most }
{
    (head[place] as usize).min(most)
}
