// Crate `message` for a host, as functions over byte slices that a static library exports (document 01, 'Messages'): an
// answer is numbers. Crate `message_c_c` is that library; the comparisons and benchmarks of differential/ link it.
#![tactic(auto)]

ghost use Rattle.std.specs.Prelude.{◌≡◌};
ghost use Rattle.message.specs.Build.{Builds, built, search_texts, byebye_texts, located_texts, search_text, response_text, notify_text, byebye_text};
ghost use Rattle.message.specs.Parse.{answer_of, parsed};
ghost use Rattle.message_c.specs.Numbers.{flat_of, message_numbers, numbers_of, built_of};

use message::{BuildError, Message, ParseError};
use text::white::Place;

// What `parse` answers, in numbers alone, since these cross to C: 1 alive, 2 byebye, 3 search, 4 response, or the refusal 7 or 8; then MX, and the start and length
// of each of the message's fields in their order.
#[repr(C)]
#[derive(Clone, Copy)]
pub struct ParsedNumbers {
    pub kind: u32,
    pub mx: u32,
    pub first: usize,
    pub first_len: usize,
    pub second: usize,
    pub second_len: usize,
    pub third: usize,
    pub third_len: usize,
}

// What a `build_*` answers, in numbers alone, since these cross to C: the refusal, 0 if there is none, and the length of the message, 0 if it was refused.
#[repr(C)]
#[derive(Clone, Copy)]
pub struct Written {
    pub refusal: u32,
    pub len: usize,
}

// No place.
const NOWHERE: Place = Place { start: 0, len: 0 };

fn flat(kind: u32, mx: u8, a: Place, b: Place, c: Place) -> ParsedNumbers
    ensures { result ≡ flat_of kind mx a b c }
{
    ParsedNumbers {
        kind,
        mx: u32::from(mx),
        first: a.start,
        first_len: a.len,
        second: b.start,
        second_len: b.len,
        third: c.start,
        third_len: c.len,
    }
}

impl From<Message> for ParsedNumbers {
    ghost from_gives = { λ m n. n ≡ message_numbers m };

    fn from(m: Message) -> ParsedNumbers {
        match m {
            Message::NotifyAlive {
                notification_type,
                unique_service_name,
                location,
            } => flat(1, 0, notification_type, unique_service_name, location),
            Message::NotifyByeBye {
                notification_type,
                unique_service_name,
            } => flat(2, 0, notification_type, unique_service_name, NOWHERE),
            Message::Search {
                search_target,
                maximum_wait_sec,
            } => flat(3, maximum_wait_sec, search_target, NOWHERE, NOWHERE),
            Message::Response {
                search_target,
                unique_service_name,
                location,
            } => flat(4, 0, search_target, unique_service_name, location),
        }
    }
}

impl From<Result<Message, ParseError>> for ParsedNumbers {
    ghost from_gives = { λ answer n. n ≡ numbers_of (answer_of answer) };

    fn from(answer: Result<Message, ParseError>) -> ParsedNumbers {
        match answer {
            Ok(m) => ParsedNumbers::from(m),
            Err(e) => flat(e.number(), 0, NOWHERE, NOWHERE, NOWHERE),
        }
    }
}

impl From<Result<usize, BuildError>> for Written {
    ghost from_gives = { λ answer w. built_of w ≡ built answer };

    fn from(answer: Result<usize, BuildError>) -> Written {
        match answer {
            Ok(len) => Written { refusal: 0, len },
            Err(e) => Written {
                refusal: e.number(),
                len: 0,
            },
        }
    }
}

#[unsafe(no_mangle)]
pub extern "C" fn message_c_parse(datagram: &[u8]) -> ParsedNumbers
    ensures { result ≡ numbers_of (parsed datagram.now) }
{
    ParsedNumbers::from(message::parse(datagram))
}

#[unsafe(no_mangle)]
pub extern "C" fn message_c_search(buf: &mut [u8], st: &[u8]) -> Written
    ensures { Builds (search_texts st.now) (search_text st.now) buf.old buf.new (built_of result) }
{
    Written::from(message::build_search(buf, st))
}

#[unsafe(no_mangle)]
pub extern "C" fn message_c_response(
    buf: &mut [u8],
    st: &[u8],
    usn: &[u8],
    location: &[u8],
) -> Written
    ensures { Builds (located_texts st.now usn.now location.now)
        (response_text st.now usn.now location.now)
        buf.old buf.new (built_of result) }
{
    Written::from(message::build_response(buf, st, usn, location))
}

#[unsafe(no_mangle)]
pub extern "C" fn message_c_notify(
    buf: &mut [u8],
    nt: &[u8],
    usn: &[u8],
    location: &[u8],
) -> Written
    ensures { Builds (located_texts nt.now usn.now location.now)
        (notify_text nt.now usn.now location.now)
        buf.old buf.new (built_of result) }
{
    Written::from(message::build_notify(buf, nt, usn, location))
}

#[unsafe(no_mangle)]
pub extern "C" fn message_c_byebye(buf: &mut [u8], nt: &[u8], usn: &[u8]) -> Written
    ensures { Builds (byebye_texts nt.now usn.now)
        (byebye_text nt.now usn.now)
        buf.old buf.new (built_of result) }
{
    Written::from(message::build_byebye(buf, nt, usn))
}
