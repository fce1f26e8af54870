// A line as a command: document 01, 'The session program', and the further lines of `trace`. A word has a row in the table of
// specs/Command.antt, which says the forms of its fields; `read` is that table in code.
ghost use Rattle.std.specs.Prelude.{◌≡◌};
ghost use Rattle.console.specs.Command.{row_of, session_words, trace_words, word_in, command, Fills};

use crate::field;
use crate::field::Fields;
use text::bytes;
use text::white::Place;

// The most bytes that an `outbox` line can lend.
pub const OUTBOX_MAX: usize = 300000;

// The first field of a line.
#[derive(Clone, Copy)]
pub enum Word {
    New,
    Link,
    Addr,
    Advertise,
    Data,
    Timeout,
    Dellink,
    Deladdr,
    Subscribe,
    Deadvertise,
    Refresh,
    Reset,
    Outbox,
    Hexdata,
    Hexaddr,
    Hexdeladdr,
}

// What a line asks for, with its fields in the line's order. A text is a part of the line.
#[derive(Clone, Copy)]
pub enum Command {
    // seed, time
    New(u32, u64),
    // index, flags, outcome
    NewLink(u32, u32, u32),
    // index, outcome
    DeletedLink(u32, u32),
    // index, address
    NewAddress(u32, u32),
    DeletedAddress(u32, u32),
    // type
    Subscribe(Place),
    // name, type, location
    Advertise(Place, Place, Place),
    // name
    Deadvertise(Place),
    Refresh,
    // time, sender, port, receiving address, datagram
    Datagram(u64, u32, u16, u32, Place),
    // time
    Timeout(u64),
    Reset(u64),
    // bytes
    Lend(u64),
    // as Datagram, NewAddress and DeletedAddress, the last field in hexadecimal
    HexDatagram(u64, u32, u16, u32, Place),
    NewHexAddress(u32, Place),
    DeletedHexAddress(u32, Place),
}

// The words of `trace`: its own, and then the session's.
const WORDS: [Word; 16] = [
    Word::Outbox,
    Word::Hexdata,
    Word::Hexaddr,
    Word::Hexdeladdr,
    Word::New,
    Word::Link,
    Word::Addr,
    Word::Advertise,
    Word::Data,
    Word::Timeout,
    Word::Dellink,
    Word::Deladdr,
    Word::Subscribe,
    Word::Deadvertise,
    Word::Refresh,
    Word::Reset,
];

const FIRST_SESSION_WORD: usize = 4;

// How a word is written.
#[tactic(auto, unfolding(text::specs::Bytes::bytes))]
fn text_of(word: Word) -> &'static [u8]
    ensures { result.now ≡ (row_of word).word }
{
    match word {
        Word::New => b"new",
        Word::Link => b"link",
        Word::Addr => b"addr",
        Word::Advertise => b"advertise",
        Word::Data => b"data",
        Word::Timeout => b"timeout",
        Word::Dellink => b"dellink",
        Word::Deladdr => b"deladdr",
        Word::Subscribe => b"subscribe",
        Word::Deadvertise => b"deadvertise",
        Word::Refresh => b"refresh",
        Word::Reset => b"reset",
        Word::Outbox => b"outbox",
        Word::Hexdata => b"hexdata",
        Word::Hexaddr => b"hexaddr",
        Word::Hexdeladdr => b"hexdeladdr",
    }
}

// The word that a text is, of those that a program knows.
fn word_of(words: &[Word], s: &[u8]) -> Option<Word>
    ensures { result ≡ word_in words.now s.now }
{
    words
        .iter()
        .copied()
        .find(|word| bytes::equal(s, text_of(*word)))
}

// The command of a word, with the fields behind it.
#[tactic(auto, using(crate::proofs::Filling::whole, crate::proofs::Filling::stop, crate::proofs::Filling::next), unfolding(crate::specs::Command::reads))]
fn read(word: Word, fields: &mut Fields) -> Option<Command>
    ensures { Fills (row_of word) fields.old fields.new result }
{
    let command = match word {
        Word::New => Command::New(fields.u32()?, fields.up_to(u64::MAX)?),
        Word::Link => Command::NewLink(fields.u32()?, fields.u32()?, fields.u32()?),
        Word::Addr => Command::NewAddress(fields.u32()?, fields.address()?),
        Word::Advertise => Command::Advertise(fields.text()?, fields.text()?, fields.text()?),
        Word::Data => Command::Datagram(
            fields.up_to(u64::MAX)?,
            fields.address()?,
            fields.u16()?,
            fields.address()?,
            fields.rest()?,
        ),
        Word::Timeout => Command::Timeout(fields.up_to(u64::MAX)?),
        Word::Dellink => Command::DeletedLink(fields.u32()?, fields.u32()?),
        Word::Deladdr => Command::DeletedAddress(fields.u32()?, fields.address()?),
        Word::Subscribe => Command::Subscribe(fields.text()?),
        Word::Deadvertise => Command::Deadvertise(fields.text()?),
        Word::Refresh => Command::Refresh,
        Word::Reset => Command::Reset(fields.up_to(u64::MAX)?),
        Word::Outbox => Command::Lend(fields.up_to(OUTBOX_MAX as u64)?),
        Word::Hexdata => Command::HexDatagram(
            fields.up_to(u64::MAX)?,
            fields.address()?,
            fields.u16()?,
            fields.address()?,
            fields.hex(2000)?,
        ),
        Word::Hexaddr => Command::NewHexAddress(fields.u32()?, fields.hex(32)?),
        Word::Hexdeladdr => Command::DeletedHexAddress(fields.u32()?, fields.hex(32)?),
    };
    Some(command)
}

// The command of a line, by the words that a program knows. A field too many is one that begins inside the line.
fn command_of(words: &[Word], line: &[u8]) -> Option<Command>
    ensures { result ≡ command words.now line.now }
{
    let n = field::extent_of(line);
    let word = word_of(words, &line[..n])?;
    let mut fields = Fields { line, at: n + 1 };
    let command = read(word, &mut fields)?;
    (line.len() < fields.at).then_some(command)
}

// A line of `session`.
pub fn session_command(line: &[u8]) -> Option<Command>
    ensures { result ≡ command session_words line.now }
{
    command_of(&WORDS[FIRST_SESSION_WORD..], line)
}

// A line of `trace`.
pub fn trace_command(line: &[u8]) -> Option<Command>
    ensures { result ≡ command trace_words line.now }
{
    command_of(&WORDS, line)
}
