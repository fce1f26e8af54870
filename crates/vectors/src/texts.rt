// Recorded answers of Rust's own text functions against crate `text` (document 01, 'Text rules'). differential/record/src/text.rs made the cases and says
// what each column is: a letter, the input's length, two answers, the input.
use std::alloc::{AllocError, Global};
use std::cmp::Ordering;
use text::number::Width;

// The two answers of a line; nothing for a column that says nothing of it and is not looked at.
type Answers = (Option<u64>, Option<u64>);

fn of_flag(flag: bool) -> Answers {
    (Some(u64::from(flag)), None)
}

// The number and 1, or 0 in the second column: these are the columns of the list, and the Rust's side writes the same.
fn of_number<T: Width + Into<u64>>(s: &[u8]) -> Answers {
    match text::number::parse::<T>(s) {
        Some(number) => (Some(number.into()), Some(1)),
        None => (None, Some(0)),
    }
}

fn of_line(s: &[u8]) -> Answers {
    let line = text::lines::first_line(s);
    (Some(line.len as u64), Some(line.next as u64))
}

fn of_trim(s: &[u8]) -> Answers {
    let place = text::white::trim(s);
    (Some(place.start as u64), Some(place.len as u64))
}

// What crate `text` answers about one text; nothing where the letter does not ask that.
fn of_one(letter: &[u8], s: &[u8]) -> Option<Answers> {
    Some(match letter {
        b"u" => of_flag(text::utf8::is_utf8(s)),
        b"g" => of_flag(text::good::is_good(s)),
        b"l" => of_line(s),
        b"t" => of_trim(s),
        b"1" => of_number::<u8>(s),
        b"2" => of_number::<u16>(s),
        b"4" => of_number::<u32>(s),
        b"8" => of_number::<u64>(s),
        _ => return None,
    })
}

// The list's column for an order.
fn of_order(ordering: Ordering) -> u64 {
    match ordering {
        Ordering::Less => 0,
        Ordering::Equal => 1,
        Ordering::Greater => 2,
    }
}

// A place in a text; the text's length where there is none, as the list's column has it.
fn place_or_len(place: Option<usize>, s: &[u8]) -> u64 {
    place.unwrap_or(s.len()) as u64
}

// The first answer about two texts; nothing where the letter does not ask that.
fn of_two(letter: &[u8], s: &[u8], t: &[u8]) -> Option<u64> {
    match (letter, t) {
        (b"o", _) => Some(of_order(text::bytes::order(s, t))),
        (b"e", _) => Some(u64::from(text::bytes::equal_upper(s, t))),
        (b"x", _) => Some(place_or_len(text::bytes::find_text(s, t), s)),
        (b"f", [byte]) => Some(place_or_len(text::bytes::find(s, *byte), s)),
        (b"r", [byte]) => Some(place_or_len(text::bytes::find_last(s, *byte), s)),
        _ => None,
    }
}

// Whether crate `text` answers as recorded. The second answer about two texts is the length of the first.
fn is_answered(letter: &[u8], recorded: (u64, u64), input: &[u8]) -> bool {
    let (first, second) = recorded;
    if let Some((one, other)) = of_one(letter, input) {
        return (one.unwrap_or(first) == first) & (other.unwrap_or(second) == second);
    }
    input
        .split_at_checked(second as usize)
        .is_some_and(|(s, t)| of_two(letter, s, t) == Some(first))
}

// Whether a line's answers agree; those of a line that is not whole do not.
pub(crate) fn agrees(alloc: Global, fields: &[&[u8]]) -> Result<bool, AllocError> {
    let [letter, length, first, second, digits] = fields else {
        return Ok(false);
    };
    let input = recorded::decoded(alloc, digits)?;
    let answers = (recorded::number(first), recorded::number(second));
    let is_whole = recorded::number(length) == input.len() as u64;
    Ok(is_whole && is_answered(letter, answers, &input))
}
