// The table of names in two lent arrays, `numbers` and `texts`, a row for each name, in byte order of name. Only this file knows what stands where in a row.
// What is read of row i is told by `entry_at` of specs/Arrays.antt; what is changed, as a change of the list of entries. The two arrays that are changed come as two
// parameters: a struct of both references would be taken apart again in each function, since no part of an array behind a reference in a struct is lent. So what reads a
// row takes the two as well, or the one that it reads.
ghost use Rattle.std.specs.Prelude.{◌≡◌, List, ℕ, suc, ◌+◌, ◌-◌, ◌*◌, ◌<◌, ◌≤◌, length, take, set, get_or};
ghost use Rattle.text.specs.Bytes.{order};
ghost use Rattle.message.specs.Build.{type_max};
ghost use Rattle.engine.specs.Sizes.{advertisements_max};
ghost use Rattle.engine.specs.Slots.{insert_at, remove_at};
ghost use Rattle.engine.specs.Spot.{Spotted};
ghost use Rattle.engine.specs.Held.{advertised};
ghost use Rattle.engine.specs.Replies.{newcomer};
ghost use Rattle.engine.specs.Rows.{row};
ghost use Rattle.engine.specs.Arrays.{numbers_width, texts_width, service_place, text_in, reply_of, reply_at, entry_at, entries, name_count, names_in};
ghost use Rattle.engine.specs.Row.{entry};
ghost use Rattle.engine.specs.Changes.{change_at, blank, with_active, Replied, Answered, NewNumbers, NewTexts, Filled};

use crate::advertisement::{ActiveAdvertisement, Endpoint, Location, ResponseNeeded, Service};
use crate::buffer::put;
use crate::clamp::{count_in, low_32};
use crate::shift::{down, up};
use crate::sizes::{
    ANSWER_LENGTH, ANSWER_PLACE, Head, LOCATION_LENGTH, LOCATION_PLACE, LOCATION_SIZE, NAME_COUNT,
    NAME_LENGTH, NAME_SIZE, NAMES, NUMBERS_WIDTH, Numbers, REPLY, REPLY_DUE, REPLY_PORT,
    REPLY_RECEIVER, REPLY_SENDER, TEXTS_WIDTH, TYPE_LENGTH, TYPE_PLACE, TYPE_SIZE, Texts,
};
use std::cmp::Ordering;
use text::bytes::order;

// How many names are held.
pub(crate) fn count_of(head: &Head) -> usize
    ensures { result ≡ name_count head.now }
{
    count_in(head, NAME_COUNT, NAMES)
}

// ---- reading a row: `i` is below the table's size, as each function asks, and as `spot_of` and the loops over the held rows have it. A type for such an index would be
// made at each turn of a loop, with the very proof that is given to these functions now, and taken apart again at each array.

// The first `len` of the `size` bytes from a place on, or all of them.
fn text_in(texts: &Texts, place: usize, size: usize, len: u64) -> &[u8]
    requires { place + size ≤ length texts.now }
    ensures { result.now ≡ text_in len place size texts.now }
{
    let end = place + (len as usize).min(size);
    &texts[place..end]
}

// A text of row i, of at most `size` bytes, by the places of its length and of its first byte in the row. The three are constants of the layout, which the functions below
// hand in; a struct of them would be taken apart again in the clause, which speaks of each.
fn text_at<'a>(
    numbers: &Numbers,
    texts: &'a Texts,
    i: usize,
    length_place: usize,
    place: usize,
    size: usize,
) -> &'a [u8]
    requires { (i < advertisements_max) × (length_place < numbers_width) × (place + size ≤ texts_width) }
    ensures { result.now ≡ text_in (get_or (row numbers_width i numbers.now) length_place 0) place size (row texts_width i texts.now) }
{
    let len = numbers[NUMBERS_WIDTH * i + length_place];
    text_in(texts, TEXTS_WIDTH * i + place, size, len)
}

#[tactic(auto, unfolding(crate::specs::Arrays::entry_in))]
pub(crate) fn name_at<'a>(numbers: &Numbers, texts: &'a Texts, i: usize) -> &'a [u8]
    requires { i < advertisements_max }
    ensures { result.now ≡ (entry_at i numbers.now texts.now).name }
{
    text_at(numbers, texts, i, NAME_LENGTH, 0, NAME_SIZE)
}

#[tactic(auto, unfolding(crate::specs::Arrays::entry_in))]
pub(crate) fn service_at<'a>(numbers: &Numbers, texts: &'a Texts, i: usize) -> &'a [u8]
    requires { i < advertisements_max }
    ensures { result.now ≡ (entry_at i numbers.now texts.now).service }
{
    text_at(numbers, texts, i, TYPE_LENGTH, TYPE_PLACE, TYPE_SIZE)
}

fn location_at<'a>(numbers: &Numbers, texts: &'a Texts, i: usize) -> Location<'a>
    requires { i < advertisements_max }
    ensures { result.text.now ≡ (entry_at i numbers.now texts.now).location }
{
    let text = text_at(
        numbers,
        texts,
        i,
        LOCATION_LENGTH,
        LOCATION_PLACE,
        LOCATION_SIZE,
    );
    Location { text }
}

// A waiting reply from its numbers. What stands in a row is the layout that owners in C lend: 0, 1 and 2 are its kinds there.
#[tactic(auto, unfolding(crate::specs::Arrays::reply_of))]
fn reply_of(code: u64, due: u64, sender: u64, port: u64, receiver: u64) -> ResponseNeeded
    ensures { result ≡ reply_of code due sender port receiver }
{
    if code == 0 {
        return ResponseNeeded::None;
    }
    if code == 1 {
        return ResponseNeeded::Multicast(due);
    }
    let to = Endpoint {
        address: low_32(sender),
        port: (port % 65536) as u16,
    };
    ResponseNeeded::Unicast(due, to, low_32(receiver))
}

pub(crate) fn reply_at(numbers: &Numbers, i: usize) -> ResponseNeeded
    requires { i < advertisements_max }
    ensures { result ≡ reply_at i numbers.now }
{
    let at = NUMBERS_WIDTH * i;
    reply_of(
        numbers[at + REPLY],
        numbers[at + REPLY_DUE],
        numbers[at + REPLY_SENDER],
        numbers[at + REPLY_PORT],
        numbers[at + REPLY_RECEIVER],
    )
}

// All that row i holds.
pub(crate) fn active_at<'a>(
    numbers: &Numbers,
    texts: &'a Texts,
    i: usize,
) -> ActiveAdvertisement<'a>
    requires { i < advertisements_max }
    ensures { entry result ≡ entry_at i numbers.now texts.now }
{
    ActiveAdvertisement {
        name: name_at(numbers, texts, i),
        service: service_at(numbers, texts, i),
        location: location_at(numbers, texts, i),
        response_needed: reply_at(numbers, i),
        answer: text_at(numbers, texts, i, ANSWER_LENGTH, ANSWER_PLACE, TYPE_SIZE),
    }
}

// ---- changing a row: a part of an array, lent by itself. It comes as a slice, whose length the contracts ask for, for the reason in links.rt: `as_chunks_mut` says nothing of
// what the slice ends as, and what does say it needs an arm that never runs.

// The five numbers of a reply.
fn set_numbers(row: &mut [u64], code: u64, due: u64, sender: u64, port: u64, receiver: u64)
    requires { length row.old ≡ numbers_width }
    ensures { Replied (reply_of code due sender port receiver) (get_or row.old 3 0) row.old row.new }
{
    row[REPLY] = code;
    row[REPLY_DUE] = due;
    row[REPLY_SENDER] = sender;
    row[REPLY_PORT] = port;
    row[REPLY_RECEIVER] = receiver;
}

// Another waiting reply.
fn set_reply(row: &mut [u64], reply: ResponseNeeded)
    requires { length row.old ≡ numbers_width }
    ensures { Replied reply (get_or row.old 3 0) row.old row.new }
{
    match reply {
        ResponseNeeded::None => {
            set_numbers(row, 0, 0, 0, 0, 0);
        }
        ResponseNeeded::Multicast(due) => {
            set_numbers(row, 1, due, 0, 0, 0);
        }
        ResponseNeeded::Unicast(due, to, receiver) => {
            set_numbers(
                row,
                2,
                due,
                to.address as u64,
                to.port as u64,
                receiver as u64,
            );
        }
    }
}

// Another waiting reply with an answer type of `len` bytes.
fn set_active(row: &mut [u64], reply: ResponseNeeded, len: u64)
    requires { length row.old ≡ numbers_width }
    ensures { Replied reply len row.old row.new }
{
    set_reply(row, reply);
    row[ANSWER_LENGTH] = len;
}

// Another answer type, with what stands behind it.
fn set_answer(row: &mut [u8], answer: &[u8; TYPE_SIZE])
    requires { length row.old ≡ texts_width }
    ensures { (len : ℕ) → Answered len (take len answer.now) row.old row.new }
{
    let end = ANSWER_PLACE + TYPE_SIZE;
    row[ANSWER_PLACE..end].copy_from_slice(answer);
}

// The type of the row as its answer type, `len` being its length.
fn set_own_answer(row: &mut [u8])
    requires { length row.old ≡ texts_width }
    ensures { (len : ℕ) → Answered len (text_in len service_place type_max row.old) row.old row.new }
{
    row.copy_within(TYPE_PLACE..TYPE_PLACE + TYPE_SIZE, ANSWER_PLACE);
}

// The numbers of a new name, for which no reply waits.
fn fill_numbers(row: &mut [u64], name_len: u64, service_len: u64, location_len: u64)
    requires { length row.old ≡ numbers_width }
    ensures { NewNumbers name_len service_len location_len row.new }
{
    row[NAME_LENGTH] = name_len;
    row[TYPE_LENGTH] = service_len;
    row[LOCATION_LENGTH] = location_len;
    row[ANSWER_LENGTH] = 0;
    row[REPLY] = 0;
}

// Its texts.
fn fill_texts(row: &mut [u8], new: &Service<'_>)
    requires { length row.old ≡ texts_width }
    ensures { NewTexts new.now.name.now new.now.service.now new.now.location.text.now row.new }
{
    put(row, 0, new.name);
    put(row, TYPE_PLACE, new.service);
    put(row, LOCATION_PLACE, new.location.text);
}

// ---- changing entry i

// Gives it another waiting reply.
pub(crate) fn store_reply(numbers: &mut Numbers, i: usize, reply: ResponseNeeded)
    requires { i < advertisements_max }
    ensures { (n : ℕ) (texts : List ℕ) → i < n → n ≤ advertisements_max → entries n numbers.new texts ≡ change_at blank i (λ a. with_active reply a.answer a) (entries n numbers.old texts) }
{
    let a = NUMBERS_WIDTH * i;
    let e = a + NUMBERS_WIDTH;
    set_reply(&mut numbers[a..e], reply);
}

// Opens a waiting reply of entry i that answers in a type, the first `len` bytes of what is written of it.
pub(crate) fn open_at(
    numbers: &mut Numbers,
    texts: &mut Texts,
    i: usize,
    reply: ResponseNeeded,
    answer: &[u8; TYPE_SIZE],
    len: usize,
)
    requires { i < advertisements_max }
    ensures { (n : ℕ) → i < n → n ≤ advertisements_max → entries n numbers.new texts.new ≡ change_at blank i (with_active reply (take len answer.now)) (entries n numbers.old texts.old) }
{
    let at = NUMBERS_WIDTH * i;
    let place = TEXTS_WIDTH * i;
    set_active(&mut numbers[at..at + NUMBERS_WIDTH], reply, len as u64);
    set_answer(&mut texts[place..place + TEXTS_WIDTH], answer);
}

// Opens one that answers in the entry's own type.
pub(crate) fn own_type_at(numbers: &mut Numbers, texts: &mut Texts, i: usize, reply: ResponseNeeded)
    requires { i < advertisements_max }
    ensures { (n : ℕ) → i < n → n ≤ advertisements_max → entries n numbers.new texts.new ≡ change_at blank i (with_active reply (entry_at i numbers.old texts.old).service) (entries n numbers.old texts.old) }
{
    let at = NUMBERS_WIDTH * i;
    let place = TEXTS_WIDTH * i;
    let len = numbers[at + TYPE_LENGTH];
    set_active(&mut numbers[at..at + NUMBERS_WIDTH], reply, len);
    set_own_answer(&mut texts[place..place + TEXTS_WIDTH]);
}

// ---- the table in byte order of name

// Where a name stands among the held ones: `Ok` of its row, or `Err` of the one where it would stand. Not by `binary_search_by`, which wants a slice of rows that are in order:
// a row lies in two arrays, and an owner may have lent any content. Links are looked through in links.rt, which says why apart.
pub(crate) fn spot_of(
    head: &Head,
    numbers: &Numbers,
    texts: &Texts,
    name: &[u8],
) -> Result<usize, usize>
    ensures { Spotted advertised name.now (names_in head.now numbers.now texts.now) result }
{
    let n = count_of(head);
    for i in 0..n {
        match order(name_at(numbers, texts, i), name) {
            Ordering::Less => {}
            Ordering::Equal => return Ok(i),
            Ordering::Greater => return Err(i),
        }
    }
    Err(n)
}

// A new name in row i, whatever stood there.
fn filled(numbers: &mut Numbers, texts: &mut Texts, i: usize, new: &Service<'_>)
    requires { i < advertisements_max }
    ensures { Filled i (newcomer new.now.name.now new.now.service.now new.now.location.text.now) numbers.old texts.old numbers.new texts.new }
{
    let a = NUMBERS_WIDTH * i;
    let e = a + NUMBERS_WIDTH;
    fill_numbers(
        &mut numbers[a..e],
        new.name.len() as u64,
        new.service.len() as u64,
        new.location.text.len() as u64,
    );
    let s = TEXTS_WIDTH * i;
    let t = s + TEXTS_WIDTH;
    fill_texts(&mut texts[s..t], new);
}

// A new name before row i of the first n. Links have the like in links.rt, in one array.
pub(crate) fn put_in(
    numbers: &mut Numbers,
    texts: &mut Texts,
    n: usize,
    i: usize,
    new: &Service<'_>,
)
    requires { (i ≤ n) × (n < advertisements_max) }
    ensures { entries (suc n) numbers.new texts.new ≡ insert_at i (newcomer new.now.name.now new.now.service.now new.now.location.text.now) (entries n numbers.old texts.old) }
{
    up(numbers, NUMBERS_WIDTH * i, NUMBERS_WIDTH * n, NUMBERS_WIDTH);
    up(texts, TEXTS_WIDTH * i, TEXTS_WIDTH * n, TEXTS_WIDTH);
    filled(numbers, texts, i, new);
}

// A new name in the place of row i.
pub(crate) fn put_over(
    numbers: &mut Numbers,
    texts: &mut Texts,
    n: usize,
    i: usize,
    new: &Service<'_>,
)
    requires { (i < n) × (n ≤ advertisements_max) }
    ensures { entries n numbers.new texts.new ≡ set (entries n numbers.old texts.old) i (newcomer new.now.name.now new.now.service.now new.now.location.text.now) }
{
    filled(numbers, texts, i, new);
}

// The first n rows without row i.
pub(crate) fn taken_out(numbers: &mut Numbers, texts: &mut Texts, n: usize, i: usize)
    requires { (i < n) × (n ≤ advertisements_max) }
    ensures { entries (n - 1) numbers.new texts.new ≡ remove_at i (entries n numbers.old texts.old) }
{
    let last = n - 1;
    down(
        numbers,
        NUMBERS_WIDTH * i,
        NUMBERS_WIDTH * last,
        NUMBERS_WIDTH,
    );
    down(texts, TEXTS_WIDTH * i, TEXTS_WIDTH * last, TEXTS_WIDTH);
}
