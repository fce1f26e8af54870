// What the programs print of an answer: document 01, 'The session program'. It is written to the caller's buffer, as there is no heap, so a function takes and
// answers how many of its bytes are used.
ghost use Rattle.std.specs.Prelude.{◌≤◌, length};
ghost use Rattle.console.specs.Buffer.{Appends};
ghost use Rattle.dialogue.specs.Printing.{answer_line, news_line};

use console::{buffer, decimal};
use engine::answer::Answer;

// The line of `session`: refusal, records, the five counts, waiting and poll; nine numbers of at most 20 digits.
pub fn append_answer(buf: &mut [u8], len: usize, a: Answer) -> usize
    ensures { Appends (answer_line a) buf.old len buf.new result × (length (answer_line a) ≤ 189) }
{
    let numbers = [
        u64::from(a.refusal),
        a.records as u64,
        a.matched as u64,
        a.joined as u64,
        a.alone as u64,
        a.group as u64,
        a.dropped as u64,
        a.waiting as u64,
    ];
    let next = decimal::append_numbers(buf, len, &numbers, b'\t');
    decimal::append_number(buf, next, a.poll, b'\n')
}

// The further line of `trace`: mask, number told and leave outcome, of at most 10 digits each.
pub fn append_news(buf: &mut [u8], len: usize, a: Answer) -> usize
    ensures { Appends (news_line a) buf.old len buf.new result × (length (news_line a) ≤ 35) }
{
    let next = buffer::append(buf, len, b"A ");
    let next = decimal::append_number(buf, next, u64::from(a.mask), b' ');
    let next = decimal::append_number(buf, next, u64::from(a.told), b' ');
    decimal::append_number(buf, next, u64::from(a.leave), b'\n')
}
