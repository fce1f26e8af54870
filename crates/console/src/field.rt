// The fields of a line, parted by tabs, each read as its form: document 01, 'The session program'.
ghost use Rattle.std.specs.Prelude.{◌≡◌, ◌≤◌, length};
ghost use Rattle.text.specs.Bytes.{index_of};
ghost use Rattle.console.specs.Field.{U16, U32, UpTo, Address, Text, Rest, Hex, Reads, ReadsPart};

use crate::part::part_of;
use crate::{address, hexadecimal};
use text::white::Place;
use text::{bytes, number};

// The fields of a line that are not read yet: they begin at byte `at`, which is one byte past the line's end if there is none. A field's place says where it
// starts in the line, so that `at` would stay beside an Option of what is left.
#[derive(Clone, Copy)]
pub struct Fields<'a> {
    pub line: &'a [u8],
    pub at: usize,
}

// How far a field reaches: to the next tab, or to the line's end.
pub(crate) fn extent_of(rest: &[u8]) -> usize
    ensures value { result ≡ index_of 9 rest.now }
    ensures upper_bound { result ≤ length rest.now }
{
    bytes::find(rest, b'\t').unwrap_or(rest.len())
}

impl<'a> Fields<'a> {
    // Any text without a tab.
    pub fn text(&mut self) -> Option<Place>
        ensures { Reads Text self.old self.new result }
    {
        let rest = self.line.get(self.at..)?;
        let len = extent_of(rest);
        let start = self.at;
        self.at += len + 1;
        Some(Place { start, len })
    }

    // The rest of the line, by a form of its own.
    pub fn rest(&mut self) -> Option<Place>
        ensures { Reads Rest self.old self.new result }
    {
        let rest = self.line.get(self.at..)?;
        let start = self.at;
        self.at += rest.len() + 1;
        Some(Place {
            start,
            len: rest.len(),
        })
    }

    // The text itself.
    fn part(&mut self) -> Option<&'a [u8]>
        ensures { ReadsPart self.old self.new result }
    {
        let text = self.text()?;
        Some(part_of(self.line, text))
    }

    // A number that is not above a largest.
    pub fn up_to(&mut self, max: u64) -> Option<u64>
        ensures { Reads (UpTo max) self.old self.new result }
    {
        number::up_to(self.part()?, max)
    }

    // A number of 16 bits, and one of 32. Each has a form of its own, which its clause names.
    pub fn u16(&mut self) -> Option<u16>
        ensures { Reads U16 self.old self.new result }
    {
        number::parse::<u16>(self.part()?)
    }

    pub fn u32(&mut self) -> Option<u32>
        ensures { Reads U32 self.old self.new result }
    {
        number::parse::<u32>(self.part()?)
    }

    // A dotted address.
    pub fn address(&mut self) -> Option<u32>
        ensures { Reads Address self.old self.new result }
    {
        address::address_of(self.part()?)
    }

    // Hexadecimal of at most so many bytes.
    pub fn hex(&mut self, max: usize) -> Option<Place>
        ensures { Reads (Hex max) self.old self.new result }
    {
        let digits = self.text()?;
        let text = part_of(self.line, digits);
        let fits = hexadecimal::is_hexadecimal(text) & (text.len() / 2 <= max);
        fits.then_some(digits)
    }
}
