// Numbers (document 01, 'Text rules').
ghost use Rattle.std.specs.Prelude.{ℕ, ◌≡◌, ◌≤◌, refl, Option, None};
ghost use Rattle.text.specs.Number.{number, unsigned, max8, max16, max32, max64};

// The number that digits stand for, if it is at most `max`. The loop stops at the first digit that
// takes it above, so that leading zeros of any count pass.
fn digits_up_to(s: &[u8], max: u64) -> Option<u64>
    ensures { result ≡ unsigned max s.now }
{
    if s.is_empty() {
        return None;
    }
    let mut n: u64 = 0;
    for d in s {
        if !d.is_ascii_digit() {
            return None;
        }
        n = n.checked_mul(10)?.checked_add(u64::from(*d - b'0'))?;
        if max < n {
            return None;
        }
    }
    Some(n)
}

// The number that a text stands for, if it is at most `max`.
pub fn up_to(s: &[u8], max: u64) -> Option<u64>
    ensures { result ≡ number max s.now }
{
    digits_up_to(s.strip_prefix(b"+").unwrap_or(s), max)
}

// An unsigned type that a number is read as: its largest number, and what a number up to that, or none, is in it. A trait of its own, since the clause of
// `parse` needs both, and std's `TryFrom` states neither.
pub trait Width: Sized {
    ghost LARGEST: { ℕ };

    ghost read: { Option ℕ → Option Self };

    const LARGEST: u64;

    // A number up to the largest, as the type has it. One above it is no number of the type: what it becomes is not said.
    fn narrowed(n: u64) -> Self
        ensures { n ≤ LARGEST → Some result ≡ read (Some n) };

    ghost reads_none: { None ≡ read None };
}

// The four are written out: an impl that a macro of ours writes is none that the check takes. A constant is widened by `as`, since `From` is not const.
impl Width for u8 {
    ghost LARGEST = { max8 };

    ghost read = { λ n. n };

    const LARGEST: u64 = u8::MAX as u64;

    fn narrowed(n: u64) -> u8 {
        u8::try_from(n).unwrap_or(u8::MAX)
    }

    ghost reads_none = { refl };
}

impl Width for u16 {
    ghost LARGEST = { max16 };

    ghost read = { λ n. n };

    const LARGEST: u64 = u16::MAX as u64;

    fn narrowed(n: u64) -> u16 {
        u16::try_from(n).unwrap_or(u16::MAX)
    }

    ghost reads_none = { refl };
}

impl Width for u32 {
    ghost LARGEST = { max32 };

    ghost read = { λ n. n };

    const LARGEST: u64 = u32::MAX as u64;

    fn narrowed(n: u64) -> u32 {
        u32::try_from(n).unwrap_or(u32::MAX)
    }

    ghost reads_none = { refl };
}

impl Width for u64 {
    ghost LARGEST = { max64 };

    ghost read = { λ n. n };

    const LARGEST: u64 = u64::MAX;

    fn narrowed(n: u64) -> u64 {
        n
    }

    ghost reads_none = { refl };
}

// The number that a text stands for, if it is one of the type.
pub fn parse<T: Width>(s: &[u8]) -> Option<T>
    ensures { result ≡ T.read (number T.LARGEST s.now) }
{
    let n = up_to(s, T::LARGEST)?;
    Some(T::narrowed(n))
}
