// SSDP messages: document 01, 'Messages'. `parse` answers a message, whose fields are places in the datagram, or why there is none; `build_*` write the four kinds.
// Contracts cite specs/Parse.antt, specs/Headers.antt and specs/Build.antt.
#![tactic(auto)]

ghost use Rattle.std.specs.Prelude.{◌≡◌, Some};
ghost use Rattle.message.specs.Parse.{field_at, alive_of, byebye_of, notify_of, response_of, search_of, notify_from, response_from, search_from, parsed, number_of, words_of, answer_of};

use crate::headers::Headers;
use std::error::Error;
use std::fmt;
use text::white::Place;
use text::{bytes, lines, number, utf8, white};

pub mod build;
pub mod headers;

pub use build::{BuildError, build_byebye, build_notify, build_response, build_search};

// What a datagram says: its fields are places in it.
#[derive(Clone, Copy)]
pub enum Message {
    NotifyAlive {
        notification_type: Place,
        unique_service_name: Place,
        location: Place,
    },
    NotifyByeBye {
        notification_type: Place,
        unique_service_name: Place,
    },
    Search {
        search_target: Place,
        maximum_wait_sec: u8,
    },
    Response {
        search_target: Place,
        unique_service_name: Place,
        location: Place,
    },
}

// Why a datagram is no message, with document 01's numbers.
#[derive(Clone, Copy, Debug, PartialEq, Eq)]
pub enum ParseError {
    Empty = 7,
    Invalid = 8,
}

impl ParseError {
    pub fn number(self) -> u32
        ensures { result ≡ number_of self }
    {
        self as u32
    }
}

impl fmt::Display for ParseError {
    ghost output = { λ e. Some (words_of e) };

    fn fmt<W: fmt::Write>(&self, f: &mut fmt::Formatter<W>) -> fmt::Result {
        f.write_str(match self {
            ParseError::Empty => "an empty datagram",
            ParseError::Invalid => "no message",
        })
    }
}

impl Error for ParseError {}

// What stands at a place; nothing of it where the datagram has ended.
pub fn field(s: &[u8], place: Place) -> &[u8]
    ensures { result.now ≡ field_at s.now place }
{
    white::part_of(s, place)
}

// ---- one message each, which has headers and a definition of its own: one function for two of them would take the message as a closure. `let .. else` names the error
// once, where `ok_or(..)?` would name it at each header.

fn alive_of(h: &Headers) -> Result<Message, ParseError>
    ensures { answer_of result ≡ alive_of h.now.nt h.now.usn h.now.location }
{
    let (Some(notification_type), Some(unique_service_name), Some(location)) = (
        h.nt, h.usn, h.location,
    ) else {
        return Err(ParseError::Invalid);
    };
    Ok(Message::NotifyAlive {
        notification_type,
        unique_service_name,
        location,
    })
}

fn byebye_of(h: &Headers) -> Result<Message, ParseError>
    ensures { answer_of result ≡ byebye_of h.now.nt h.now.usn }
{
    let (Some(notification_type), Some(unique_service_name)) = (h.nt, h.usn) else {
        return Err(ParseError::Invalid);
    };
    Ok(Message::NotifyByeBye {
        notification_type,
        unique_service_name,
    })
}

#[tactic(auto, unfolding(text::specs::Bytes::bytes))]
fn notify_of(s: &[u8], h: &Headers) -> Result<Message, ParseError>
    ensures { answer_of result ≡ notify_of s.now h.now.nts h.now.nt h.now.usn h.now.location }
{
    let Some(nts) = h.nts else {
        return Err(ParseError::Invalid);
    };
    let nts = field(s, nts);
    if bytes::equal(nts, b"ssdp:alive") {
        return alive_of(h);
    }
    if bytes::equal(nts, b"ssdp:byebye") {
        return byebye_of(h);
    }
    Err(ParseError::Invalid)
}

fn response_of(h: &Headers) -> Result<Message, ParseError>
    ensures { answer_of result ≡ response_of h.now.st h.now.usn h.now.location }
{
    let (Some(search_target), Some(unique_service_name), Some(location)) = (h.st, h.usn, h.location)
    else {
        return Err(ParseError::Invalid);
    };
    Ok(Message::Response {
        search_target,
        unique_service_name,
        location,
    })
}

fn search_of(s: &[u8], h: &Headers) -> Result<Message, ParseError>
    ensures { answer_of result ≡ search_of s.now h.now.st h.now.mx }
{
    let (Some(search_target), Some(mx)) = (h.st, h.mx) else {
        return Err(ParseError::Invalid);
    };
    let Some(maximum_wait_sec) = number::parse::<u8>(field(s, mx)) else {
        return Err(ParseError::Invalid);
    };
    Ok(Message::Search {
        search_target,
        maximum_wait_sec,
    })
}

// ---- the same from the lines from `from` on. Each is out of line: `parse` would else clear the stack for three tables of headers at each datagram.

#[inline(never)]
#[tactic(auto, using(crate::proofs::Reading::notify_read))]
fn notify_from(s: &[u8], from: usize) -> Result<Message, ParseError>
    ensures { answer_of result ≡ notify_from s.now from }
{
    notify_of(s, &headers::headers_from(s, from))
}

#[inline(never)]
#[tactic(auto, using(crate::proofs::Reading::response_read))]
fn response_from(s: &[u8], from: usize) -> Result<Message, ParseError>
    ensures { answer_of result ≡ response_from s.now from }
{
    response_of(&headers::headers_from(s, from))
}

#[inline(never)]
#[tactic(auto, using(crate::proofs::Reading::search_read))]
fn search_from(s: &[u8], from: usize) -> Result<Message, ParseError>
    ensures { answer_of result ≡ search_from s.now from }
{
    search_of(s, &headers::headers_from(s, from))
}

// The message of a datagram, if it is one. A first line of no kind needs no look at the headers.
#[tactic(auto, using(crate::proofs::Reading::is_empty))]
pub fn parse(buf: &[u8]) -> Result<Message, ParseError>
    ensures { answer_of result ≡ parsed buf.now }
{
    if buf.is_empty() {
        return Err(ParseError::Empty);
    }
    if !utf8::is_utf8(buf) {
        return Err(ParseError::Invalid);
    }
    let line = lines::first_line(buf);
    let len = line.len;
    let next = line.next;
    let first = &buf[..len];
    if bytes::equal(first, b"NOTIFY * HTTP/1.1") {
        return notify_from(buf, next);
    }
    if bytes::equal(first, b"HTTP/1.1 200 OK") {
        return response_from(buf, next);
    }
    if bytes::equal(first, b"M-SEARCH * HTTP/1.1") {
        return search_from(buf, next);
    }
    Err(ParseError::Invalid)
}

// Document 01's number for an answer: 0 for a message, else its refusal. A host's answers are numbers, and 0 is an accepted one's there.
pub fn refusal_of(answer: Result<Message, ParseError>) -> u32
    ensures { result ≡ (answer_of answer).refusal }
{
    match answer {
        Ok(_) => 0,
        Err(error) => error.number(),
    }
}
