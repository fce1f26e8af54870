// UTF-8 (document 01, 'Text rules'; RFC 3629, section 4).
ghost use Rattle.std.specs.Prelude.{◌≡◌, ◌<◌, ◌≤◌, length, drop, get_or};
ghost use Rattle.text.specs.Range.{within, every};
ghost use Rattle.text.specs.Utf8.{expects, lead_of, utf8, ascii, follows};

// What a lead byte fixes: `tail` bytes follow it, the first of them in low..=high.
#[derive(Clone, Copy)]
pub struct Lead {
    pub tail: u8,
    pub low: u8,
    pub high: u8,
}

impl Lead {
    // Whether `b` is in the range of the first byte that follows.
    pub(crate) fn admits(&self, b: u8) -> bool
        ensures { result ≡ within self.now.low self.now.high b }
    {
        (self.low <= b) & (b <= self.high)
    }
}

fn expects(tail: u8, low: u8, high: u8) -> Lead
    ensures { result ≡ expects tail low high }
{
    Lead { tail, low, high }
}

// What `b` fixes as a lead byte. One that begins no character asks for a second byte in an empty range, so that the
// test of its second byte refuses it.
pub fn lead_of(b: u8) -> Lead
    ensures { result ≡ lead_of b }
{
    match b {
        0..=0x7F => expects(0, 0x80, 0xBF),
        0xC2..=0xDF => expects(1, 0x80, 0xBF),
        0xE0 => expects(2, 0xA0, 0xBF),
        0xE1..=0xEC => expects(2, 0x80, 0xBF),
        0xED => expects(2, 0x80, 0x9F),
        0xEE..=0xEF => expects(2, 0x80, 0xBF),
        0xF0 => expects(3, 0x90, 0xBF),
        0xF1..=0xF3 => expects(3, 0x80, 0xBF),
        0xF4 => expects(3, 0x80, 0x8F),
        _ => expects(1, 1, 0),
    }
}

// Whether every byte of a text is a character by itself. One call, for its clause, as in bytes.rt.
fn is_ascii(s: &[u8]) -> bool
    ensures { result ≡ every ascii s.now }
{
    s.is_ascii()
}

// A place behind the byte at `i`, which is a character by itself, up to which all bytes are. The loop stands for `position`,
// which took up to four times as long where a byte is found in a text (docs/DECISIONS.md, 'Texts and messages').
fn ascii_end(s: &[u8], i: usize) -> usize
    requires { (i < length s.now) × (get_or s.now i 0 ≤ 0x7F) }
    ensures { (i < result) × (result ≤ length s.now) × (utf8 (drop i s.now) ≡ utf8 (drop result s.now)) }
{
    if 16 <= s.len() - i {
        let e = i + 16;
        if is_ascii(&s[i..e]) {
            return e;
        }
    }
    for k in i + 1..s.len() {
        if 0x7F < s[k] {
            return k;
        }
    }
    s.len()
}

// Whether a byte follows inside a character. By `&`, as in `admits`: the tests run without a branch.
pub(crate) fn continues(b: u8) -> bool
    ensures { result ≡ within 0x80 0xBF b }
{
    (0x80 <= b) & (b <= 0xBF)
}

// Whether as many bytes stand at the front of `rest` as `lead` says, the first of them in its range.
fn has_tail(rest: &[u8], lead: Lead) -> bool
    requires { lead.tail ≤ 3 }
    ensures { result ≡ follows lead.tail lead.low lead.high rest.now }
{
    match (lead.tail, rest) {
        (0, _) => true,
        (1, [b, ..]) => lead.admits(*b),
        (2, [b, c, ..]) => lead.admits(*b) & continues(*c),
        (3, [b, c, d, ..]) => lead.admits(*b) & continues(*c) & continues(*d),
        _ => false,
    }
}

// Whether a text is UTF-8. Each turn passes a character, as long as its lead byte says, or a run of those that are one byte: the place moves by
// their width. std's `from_utf8` takes more than twice the Rust's time where each character has four bytes, which misses the goal.
pub fn is_utf8(s: &[u8]) -> bool
    ensures { result ≡ utf8 s.now }
{
    if is_ascii(s) {
        return true;
    }
    let mut i = 0;
    while i < s.len() {
        let lead = lead_of(s[i]);
        if lead.tail == 0 {
            i = ascii_end(s, i);
            continue;
        }
        if !has_tail(&s[i + 1..], lead) {
            return false;
        }
        i += 1 + usize::from(lead.tail);
    }
    true
}
