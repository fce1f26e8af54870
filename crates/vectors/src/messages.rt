// Recorded answers of the unchanged message.rs against crate `message` (document 01, 'Messages'). differential/record/src/message.rs made the cases and says
// what each column is: a letter, nine numbers of four digits, then bytes.
use message::{BuildError, Message};
use std::alloc::{AllocError, Global};
use text::white::Place;

// As much as a build of the list is lent.
const BUFFER_MAX: usize = 4096;

// The eight numbers of a line behind the count of its bytes.
type Numbers = [usize; 8];

// What stands in these of a datagram; nothing in those that say nothing of it and are not looked at.
type Columns = [Option<usize>; 8];

// The start and the length of a text, if there is one.
fn place_of(place: Option<Place>) -> (Option<usize>, Option<usize>) {
    match place {
        Some(Place { start, len }) => (Some(start), Some(len)),
        None => (None, None),
    }
}

// The columns of a line of the list in their order.
fn columns_of(kind: usize, texts: [Option<Place>; 3], wait: Option<usize>) -> Columns {
    let [(a, a_len), (b, b_len), (c, c_len)] = texts.map(|text| place_of(text));
    [Some(kind), a, a_len, b, b_len, c, c_len, wait]
}

// What is listed of a message. The kinds are the numbers 1 to 4 since a column of the list is, and the Rust's side writes
// the same. Crate `message_c` has such a function for C, in an order of its own.
fn of_message(message: Message) -> Columns {
    let (kind, texts, wait) = match message {
        Message::NotifyAlive {
            notification_type: a,
            unique_service_name: b,
            location: c,
        } => (1, [Some(a), Some(b), Some(c)], None),
        Message::NotifyByeBye {
            notification_type: a,
            unique_service_name: b,
        } => (2, [Some(a), Some(b), None], None),
        Message::Search {
            search_target: a,
            maximum_wait_sec,
        } => (
            3,
            [Some(a), None, None],
            Some(usize::from(maximum_wait_sec)),
        ),
        Message::Response {
            search_target: a,
            unique_service_name: b,
            location: c,
        } => (4, [Some(a), Some(b), Some(c)], None),
    };
    columns_of(kind, texts, wait)
}

// What crate `message` answers to a datagram; a refusal stands in the place of the kind.
fn of_parse(datagram: &[u8]) -> Columns {
    match message::parse(datagram) {
        Ok(message) => of_message(message),
        Err(error) => columns_of(error.number() as usize, [None; 3], None),
    }
}

// The refusal and the length of the message, 0 where there is none, as the list's columns have them.
fn of_built(built: Result<usize, BuildError>) -> (usize, usize) {
    match built {
        Ok(len) => (0, len),
        Err(error) => (error.number() as usize, 0),
    }
}

// The bytes of a line of a build: three texts, and the message that is built of them.
#[derive(Clone, Copy)]
struct Build<'a> {
    first: &'a [u8],
    second: &'a [u8],
    third: &'a [u8],
    message: &'a [u8],
}

// The build whose texts have these lengths; nothing where the bytes are fewer.
fn build_of(bytes: &[u8], a: usize, b: usize, c: usize) -> Option<Build<'_>> {
    let (first, rest) = bytes.split_at_checked(a)?;
    let (second, rest) = rest.split_at_checked(b)?;
    let (third, message) = rest.split_at_checked(c)?;
    Some(Build {
        first,
        second,
        third,
        message,
    })
}

// What crate `message` answers to a build, which any other letter asks of a byebye.
fn built_by(letter: &[u8], buf: &mut [u8], build: Build) -> (usize, usize) {
    let Build {
        first,
        second,
        third,
        ..
    } = build;
    of_built(match letter {
        b"s" => message::build_search(buf, first),
        b"r" => message::build_response(buf, first, second, third),
        b"n" => message::build_notify(buf, first, second, third),
        _ => message::build_byebye(buf, first, second),
    })
}

// Whether a build answers as recorded, writes the message and behind it leaves the buffer alone.
fn is_built(letter: &[u8], numbers: Numbers, bytes: &[u8]) -> bool {
    let [refusal, len, a, b, c, room, _, _] = numbers;
    let Some(build) = build_of(bytes, a, b, c) else {
        return false;
    };
    let mut buf = [0u8; BUFFER_MAX];
    let Some(buf) = buf.get_mut(..room) else {
        return false;
    };
    recorded::fill(buf);
    built_by(letter, buf, build) == (refusal, len)
        && buf
            .strip_prefix(build.message)
            .is_some_and(|rest| recorded::is_filled(rest))
}

// Whether the columns that are looked at have these numbers.
fn are(numbers: Numbers, columns: Columns) -> bool {
    numbers
        .iter()
        .zip(columns)
        .all(|(number, column)| column.unwrap_or(*number) == *number)
}

// Whether crate `message` answers as recorded.
fn is_answered(letter: &[u8], numbers: Numbers, bytes: &[u8]) -> bool {
    match letter {
        b"p" => are(numbers, of_parse(bytes)),
        _ => is_built(letter, numbers, bytes),
    }
}

fn numbers_in(columns: &[&[u8]; 8]) -> Numbers {
    columns.map(|column| recorded::number(column) as usize)
}

// Whether a line's answer agrees; that of a line that is not whole does not.
pub(crate) fn agrees(alloc: Global, fields: &[&[u8]]) -> Result<bool, AllocError> {
    let [letter, count, columns @ .., digits] = fields else {
        return Ok(false);
    };
    let Some(columns) = columns.as_array() else {
        return Ok(false);
    };
    let bytes = recorded::decoded(alloc, digits)?;
    let is_whole = recorded::number(count) == bytes.len() as u64;
    Ok(is_whole && is_answered(letter, numbers_in(columns), &bytes))
}
