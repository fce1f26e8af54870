// The headers of a datagram, read in one pass: document 01, 'Messages'.
ghost use Rattle.std.specs.Prelude.{◌≡◌, MatchOption, Some, set};
ghost use Rattle.message.specs.Headers.{keys, key_index, place_of, number_of, line_key, value_of, listed, headers_from};

use text::white::Place;
use text::{bytes, lines, white};

// The keys that are looked up.
#[derive(Clone, Copy, Debug, PartialEq, Eq)]
pub enum Key {
    Nt,
    St,
    Mx,
    Nts,
    Usn,
    Location,
}

// A line's key, and the place of its value in the line.
#[derive(Clone, Copy)]
pub struct Entry {
    pub key: Key,
    pub value: Place,
}

// What a datagram has under each key: the place of its last value, if it has one.
#[derive(Clone, Copy, Default)]
pub struct Headers {
    pub nt: Option<Place>,
    pub st: Option<Place>,
    pub mx: Option<Place>,
    pub nts: Option<Place>,
    pub usn: Option<Place>,
    pub location: Option<Place>,
}

impl Headers {
    // The value of a key, in place of an earlier one.
    fn note(&mut self, key: Key, value: Place)
        ensures { listed self.new ≡ set (listed self.old) (place_of key) (Some value) }
    {
        let value = Some(value);
        match key {
            Key::Nt => self.nt = value,
            Key::St => self.st = value,
            Key::Mx => self.mx = value,
            Key::Nts => self.nts = value,
            Key::Usn => self.usn = value,
            Key::Location => self.location = value,
        }
    }
}

// Which key a text is, in any case of its letters. Its length tells which keys it can be; a table of six would compare a text with each.
#[tactic(auto, using(crate::proofs::Keys::unlike), unfolding(text::specs::Bytes::bytes, crate::specs::Headers::keys, crate::specs::Headers::key_index))]
fn key_of(text: &[u8]) -> Option<Key>
    ensures { number_of result ≡ key_index keys text.now }
{
    if text.len() == 2 {
        if bytes::equal_upper(text, b"NT") {
            return Some(Key::Nt);
        }
        if bytes::equal_upper(text, b"ST") {
            return Some(Key::St);
        }
        if bytes::equal_upper(text, b"MX") {
            return Some(Key::Mx);
        }
        return None;
    }
    if text.len() == 3 {
        if bytes::equal_upper(text, b"NTS") {
            return Some(Key::Nts);
        }
        if bytes::equal_upper(text, b"USN") {
            return Some(Key::Usn);
        }
        return None;
    }
    if bytes::equal_upper(text, b"LOCATION") {
        return Some(Key::Location);
    }
    None
}

// The entry of a line without its end. Only the value of a key that is looked up is trimmed.
fn entry_of(line: &[u8]) -> Option<Entry>
    ensures { MatchOption result (line_key line.now ≡ 6) (λ entry. (place_of entry.key ≡ line_key line.now) × (entry.value ≡ value_of line.now)) }
{
    let colon = bytes::find(line, b':')?;
    let key = key_of(&line[..colon])?;
    let behind = colon + 1;
    let value = white::trim(&line[behind..]);
    Some(Entry {
        key,
        value: Place {
            start: behind + value.start,
            len: value.len,
        },
    })
}

// The headers of the lines from `from` on. The place goes on by whole lines: an iterator of lines would be a type of its own with this very step.
pub fn headers_from(s: &[u8], from: usize) -> Headers
    ensures { listed result ≡ headers_from s.now from }
{
    let mut latest = Headers::default();
    let mut at = from;
    while at < s.len() {
        let rest = &s[at..];
        let line = lines::first_line(rest);
        let n = line.len;
        if let Some(Entry { key, value }) = entry_of(&rest[..n]) {
            let start = at + value.start;
            let len = value.len;
            latest.note(key, Place { start, len });
        }
        at += line.next;
    }
    latest
}
