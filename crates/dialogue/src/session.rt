// One line after the other: what a line does to the engine in its owner's arrays. Whether an engine has begun is held beside them: they are the
// owner's from the first line on, so that an Option of them would say nothing more.
ghost use Rattle.std.specs.Prelude.{◌≡◌, false, List, [], ℕ, Some, None, length};
ghost use Rattle.engine.specs.Owned.{engine_in};
ghost use Rattle.dialogue.specs.Asking.{asked};
ghost use Rattle.dialogue.specs.Obeying.{Begun, Obeys};

use crate::call;
use console::command::Command;
use engine::answer::Answer;
use engine::arrays::Arrays;

// What a line gives: whether an engine has begun then, and the answer to print; where nothing was heard, a `?`.
#[derive(Clone, Copy)]
pub struct Reply {
    pub begun: bool,
    pub answer: Option<Answer>,
}

// A line that is not heard.
fn unheard(begun: bool) -> Reply
    ensures { (result.begun ≡ begun) × (result.answer ≡ None) }
{
    Reply {
        begun,
        answer: None,
    }
}

// The engine begins, if its `new` is accepted.
fn begin(arrays: &mut Arrays, seed: u32, time: u64) -> Reply
    ensures { Begun seed time [] [] (engine_in arrays.new) result }
{
    let answer = arrays.begin(seed, time);
    Reply {
        begun: answer.refusal == 0,
        answer: Some(answer),
    }
}

// A line before an accepted `new`.
fn obey_first(arrays: &mut Arrays, command: Command) -> Reply
    ensures { (line outbox : List ℕ) → Obeys false (asked line (length outbox) (Some command)) (engine_in arrays.old) outbox outbox (engine_in arrays.new) result }
{
    let Command::New(seed, time) = command else {
        return unheard(false);
    };
    begin(arrays, seed, time)
}

// What a line does, where an engine has begun or not.
pub fn obey(
    begun: bool,
    arrays: &mut Arrays,
    line: &[u8],
    command: Option<Command>,
    outbox: &mut [u8],
) -> Reply
    ensures { Obeys begun (asked line.now (length outbox.old) command) (engine_in arrays.old) outbox.old outbox.new (engine_in arrays.new) result }
{
    let Some(command) = command else {
        return unheard(begun);
    };
    if !begun {
        return obey_first(arrays, command);
    }
    Reply {
        begun,
        answer: call::answer_to(arrays, line, command, outbox),
    }
}
