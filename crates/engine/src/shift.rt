// Elements of a lent array moved within it, `by` places up or down: what makes room for a row, and what closes a gap. By hand, since the slice's `copy_within` is a call
// of the C library's `memmove`, which an archive for C would need from outside.
ghost use Rattle.std.specs.Prelude.{◌≡◌, ◌+◌, ◌≤◌, length};
ghost use Rattle.std.specs.List.{copy_within};

pub(crate) fn up<T: Copy>(l: &mut [T], from: usize, end: usize, by: usize)
    requires { (from ≤ end) × (end + by ≤ length l.old) }
    ensures { l.new ≡ copy_within l.old from end (from + by) }
{
    for i in (from..end).rev() {
        l[i + by] = l[i];
    }
}

pub(crate) fn down<T: Copy>(l: &mut [T], from: usize, end: usize, by: usize)
    requires { (from ≤ end) × (end + by ≤ length l.old) }
    ensures { l.new ≡ copy_within l.old (from + by) (end + by) from }
{
    for i in from..end {
        l[i] = l[i + by];
    }
}
