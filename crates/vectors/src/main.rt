// Replays recorded cases against crates `text`, `message` and `engine`, and prints how many there were and how many differ.
// differential/record made them. The first field of a line says which of the three its case asks.
#![tactic(auto)]

mod calls;
mod messages;
mod texts;

use engine::arrays::Arrays;
use std::alloc::{AllocError, Global};
use std::io;

// Whether the crate that a line asks answers as recorded; a line that asks none differs.
fn agrees(
    alloc: Global,
    arrays: &mut Arrays,
    outbox: &mut [u8],
    line: &[&[u8]],
) -> Result<bool, AllocError> {
    match line {
        [[b't'], fields @ ..] => texts::agrees(alloc, fields),
        [[b'm'], fields @ ..] => messages::agrees(alloc, fields),
        [[b'e'], fields @ ..] => calls::agrees(alloc, arrays, outbox, fields),
        _ => Ok(false),
    }
}

// As much as a line of the lists may lend.
const OUTBOX_MAX: usize = 300000;

fn main(rt: HostRuntime) -> io::Result<()> {
    let alloc = rt.alloc();
    let mut arrays = Arrays::new();
    let mut outbox = vec![in alloc; 0u8; OUTBOX_MAX]?;
    let tally = recorded::replay(alloc, rt.reader(), |line| {
        agrees(alloc, &mut arrays, &mut outbox, line)
    })?;
    println!(rt; "{tally}")
}
