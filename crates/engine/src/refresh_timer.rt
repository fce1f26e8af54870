// The timer of the refresh salvos: document 01, 'Refresh timer'. It is handed round by value, or lent by its owner (`update_refresh`).
// The contracts cite specs/RefreshTimer.antt.
ghost use Rattle.std.specs.Prelude.{◌≡◌, ◌≤◌};
ghost use Rattle.engine.specs.Sizes.{time_max};
ghost use Rattle.engine.specs.RefreshTimer.{time_refusal, seed_byte, period, timer_new, timer_step, answer_for, timer_of, new_answer, reset_answer, update_answer};
ghost use Rattle.engine.specs.Refusals.{refused_as};
ghost use Rattle.engine.specs.declared.refusals.Refusal.TheVariants.{TimeLate};

use crate::refusals::{Refusal, of_time};
use crate::sizes::TIME_MAX;

#[derive(Clone, Copy)]
pub struct RefreshTimer {
    pub random_seed: u32,
    pub next_salvo: u64,
    pub phase: u8,
}

// A call was refused, since its time is above `TIME_MAX`: the timer with which the caller may go on.
#[derive(Clone, Copy)]
pub struct Late {
    pub timer: RefreshTimer,
}

impl From<Late> for Refusal {
    ghost from_gives = { λ _ refusal. refusal ≡ TimeLate };

    fn from(_late: Late) -> Refusal {
        Refusal::TimeLate
    }
}

// Byte number `phase` of the seed, the lowest being number 0. Phases count modulo 4.
fn seed_byte(seed: u32, phase: u8) -> u8
    ensures { result ≡ seed_byte seed phase }
{
    seed.to_le_bytes()[usize::from(phase % 4)]
}

// The milliseconds from the salvo of a phase to the next one.
#[tactic(auto, unfolding(crate::specs::RefreshTimer::period))]
fn period_of(seed: u32, phase: u8) -> u64
    ensures { result ≡ period seed phase }
{
    let offset = 10 * u64::from(seed_byte(seed, phase));
    if phase % 4 == 3 {
        return 800000 + offset;
    }
    6000 + offset
}

// One step, if the salvo is due: never more, however late the call.
fn stepped(timer: RefreshTimer, time: u64) -> RefreshTimer
    requires { time ≤ time_max }
    ensures { result ≡ timer_step timer time }
{
    let due = timer.next_salvo;
    if time < due {
        return timer;
    }
    RefreshTimer {
        next_salvo: due + period_of(timer.random_seed, timer.phase),
        phase: (timer.phase % 4 + 1) % 4,
        ..timer
    }
}

// Refuses a time that no call may bear.
pub fn time_refusal(time: u64) -> Result<(), Refusal>
    ensures { refused_as result ≡ time_refusal time }
{
    of_time(time)
}

// The answer to a call that bears `time`, by what the timer is if that is refused, and if it is not.
#[tactic(auto, unfolding(crate::specs::RefreshTimer::answer_for))]
fn answer_for(
    time: u64,
    refused: RefreshTimer,
    accepted: RefreshTimer,
) -> Result<RefreshTimer, Late>
    ensures { result ≡ answer_for time refused accepted }
{
    if TIME_MAX < time {
        return Err(Late { timer: refused });
    }
    Ok(accepted)
}

#[tactic(auto, unfolding(crate::specs::RefreshTimer::timer_new))]
pub(crate) fn timer_at(random_seed: u32, next_salvo: u64) -> RefreshTimer
    ensures { result ≡ timer_new random_seed next_salvo }
{
    RefreshTimer {
        random_seed,
        next_salvo,
        phase: 0,
    }
}

impl RefreshTimer {
    // A timer whose first salvo is due at once. Refused: one of that seed at time 0.
    pub fn new(random_seed: u32, time: u64) -> Result<RefreshTimer, Late>
        ensures { result ≡ new_answer random_seed time }
    {
        answer_for(time, timer_at(random_seed, 0), timer_at(random_seed, time))
    }

    // Begins anew, as after the network was away. Refused: the timer as it was.
    #[tactic(auto, unfolding(crate::specs::RefreshTimer::timer_reset))]
    pub fn reset(self, time: u64) -> Result<RefreshTimer, Late>
        ensures { result ≡ reset_answer self time }
    {
        answer_for(time, self, timer_at(self.random_seed, time))
    }

    // The instant of the next salvo.
    pub fn next_refresh(self) -> u64
        ensures { result ≡ self.next_salvo }
    {
        self.next_salvo
    }

    // Rolls the timer on by one salvo, if that is due. Refused: the timer as it was.
    #[tactic(auto, unfolding(crate::specs::RefreshTimer::answer_for))]
    pub fn updated(self, time: u64) -> Result<RefreshTimer, Late>
        ensures { result ≡ update_answer self time }
    {
        if TIME_MAX < time {
            return Err(Late { timer: self });
        }
        Ok(stepped(self, time))
    }

    // The same in place, for an owner that lends its timer.
    pub fn update_refresh(&mut self, time: u64) -> Result<(), Refusal>
        ensures { (self.new ≡ timer_of (update_answer self.old time)) × (refused_as result ≡ time_refusal time) }
    {
        let before = *self;
        *self = before.updated(time)?;
        Ok(())
    }
}
