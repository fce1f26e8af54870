// Lists of calls against crate `engine` (document 01, 'Engine and ledger'), with what engine.rs (but for its `+ 10`) sends, tells and polls and what documents 01 and 02
// count and refuse. differential/record/src/engine.rs made the lists and says what each field of a line is: one call a line.
use engine::advertisement::Endpoint;
use engine::answer::Answer;
use engine::arrays::Arrays;
use engine::sizes::RECORD_SIZE;
use std::alloc::{AllocError, Global};

// The call of a line: its letter, its numbers and its texts.
#[derive(Clone, Copy)]
struct Call<'a> {
    letter: u8,
    numbers: [u64; 4],
    texts: [&'a [u8]; 3],
}

// Of a number that is too large for a call the lowest bits count.
fn low_32(number: u64) -> u32 {
    (number % (1 << 32)) as u32
}

fn low_16(number: u64) -> u16 {
    (number % (1 << 16)) as u16
}

// What the engine answers to news of a link or an address: any other letter is that of an address that has gone.
fn news(arrays: &mut Arrays, call: Call, outbox: &mut [u8]) -> Answer {
    let [address, ..] = call.texts;
    let [index, second, third, _] = call.numbers;
    let index = low_32(index);
    let second = low_32(second);
    let third = low_32(third);
    match call.letter {
        b'l' => arrays.new_link(index, second, third, outbox),
        b'd' => arrays.deleted_link(index, second),
        b'a' => arrays.new_address(index, address, outbox),
        _ => arrays.deleted_address(index, address),
    }
}

// What the engine answers to a datagram.
fn received(arrays: &mut Arrays, numbers: [u64; 4], datagram: &[u8]) -> Answer {
    let [time, address, port, receiver] = numbers;
    let sender = Endpoint {
        address: low_32(address),
        port: low_16(port),
    };
    arrays.on_data(time, sender, low_32(receiver), datagram)
}

// What the engine answers to a call.
fn called(arrays: &mut Arrays, call: Call, outbox: &mut [u8]) -> Answer {
    let [text, service, location] = call.texts;
    let [number, time, ..] = call.numbers;
    match call.letter {
        b'n' => arrays.begin(low_32(number), time),
        b'z' => arrays.reset_refresh_timer(number),
        b'r' => arrays.refresh(outbox),
        b's' => arrays.subscribe(text, outbox),
        b'v' => arrays.advertise(text, service, location, outbox),
        b'w' => arrays.deadvertise(text, outbox),
        b't' => arrays.handle_timeout(number, outbox),
        b'p' => received(arrays, call.numbers, text),
        _ => news(arrays, call, outbox),
    }
}

// The refusal, the number of records, the ledger's counts, poll, mask, number told and leave outcome.
fn numbers_of(answer: &Answer) -> [u64; 12] {
    [
        u64::from(answer.refusal),
        answer.records as u64,
        answer.matched as u64,
        answer.joined as u64,
        answer.alone as u64,
        answer.group as u64,
        answer.dropped as u64,
        answer.waiting as u64,
        answer.poll,
        u64::from(answer.mask),
        u64::from(answer.told),
        u64::from(answer.leave),
    ]
}

// Whether the outbox has the records that a number stands for, and behind them what it had before.
fn is_sent(outbox: &[u8], records: usize, digest: u64) -> bool {
    outbox
        .split_at_checked(RECORD_SIZE.saturating_mul(records))
        .is_some_and(|(sent, rest)| {
            recorded::digest(sent) == digest && recorded::is_filled(rest)
        })
}

// Makes a call, and tells whether all is as recorded.
fn is_answered(arrays: &mut Arrays, call: Call, outbox: &mut [u8], expected: &[u64]) -> bool {
    let [numbers @ .., digest] = expected else {
        return false;
    };
    recorded::fill(outbox);
    let answer = called(arrays, call, outbox);
    numbers == numbers_of(&answer).as_slice() && is_sent(outbox, answer.records, *digest)
}

// Column `k` of a line; nothing where it has fewer.
fn column<'a>(fields: &[&'a [u8]], k: usize) -> &'a [u8] {
    fields.get(k).copied().unwrap_or(b"")
}

fn number(fields: &[&[u8]], k: usize) -> u64 {
    recorded::number(column(fields, k))
}

type Texts = (Vec<u8>, Vec<u8>, Vec<u8>);

fn texts_in(alloc: Global, fields: &[&[u8]]) -> Result<Texts, AllocError> {
    let text = recorded::decoded(alloc, column(fields, 6))?;
    let service = recorded::decoded(alloc, column(fields, 7))?;
    let location = recorded::decoded(alloc, column(fields, 8))?;
    Ok((text, service, location))
}

// Makes the call of a line, lent as much of the outbox as it says.
pub(crate) fn agrees(
    alloc: Global,
    arrays: &mut Arrays,
    outbox: &mut [u8],
    fields: &[&[u8]],
) -> Result<bool, AllocError> {
    let (text, service, location) = &texts_in(alloc, fields)?;
    let call = Call {
        letter: column(fields, 0).first().copied().unwrap_or(0),
        numbers: [2, 3, 4, 5].map(|k| number(fields, k)),
        texts: [text, service, location],
    };
    let expected = [9, 10, 11, 12, 13, 14, 15, 16, 17, 18, 19, 20, 21].map(|k| number(fields, k));
    let room = outbox.len().min(number(fields, 1) as usize);
    Ok(is_answered(arrays, call, &mut outbox[..room], &expected))
}
