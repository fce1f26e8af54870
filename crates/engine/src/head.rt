// The head of the lent arrays: the timer and the counts of the tables. The contracts cite specs/Arrays.antt.
ghost use Rattle.std.specs.Prelude.{◌≡◌, [], ◌∷◌, ◌<◌, length, set};
ghost use Rattle.engine.specs.RefreshTimer.{timer_of, update_answer};
ghost use Rattle.engine.specs.Arrays.{salvo_place, phase_place, seed_in, timer_in};

use crate::clamp::low_32;
use crate::refresh_timer::RefreshTimer;
use crate::sizes::{HEAD_PLACES, Head, PHASE, SALVO, SEED};

pub(crate) fn seed_in(head: &Head) -> u32
    ensures { result ≡ seed_in head.now }
{
    low_32(head[SEED])
}

pub(crate) fn timer_in(head: &Head) -> RefreshTimer
    ensures { result ≡ timer_in head.now }
{
    RefreshTimer {
        random_seed: seed_in(head),
        next_salvo: head[SALVO],
        phase: (head[PHASE] % 256) as u8,
    }
}

// The salvo instant and the phase of a timer; its seed is the head's own.
pub(crate) fn set_timer(head: &mut Head, timer: RefreshTimer)
    ensures { head.new ≡ set (set head.old salvo_place timer.next_salvo) phase_place timer.phase }
{
    head[SALVO] = timer.next_salvo;
    head[PHASE] = timer.phase as u64;
}

// How many entries of a table are held, by the table's place in the head.
pub(crate) fn set_count(head: &mut Head, place: usize, count: usize)
    requires { place < length head.old }
    ensures { head.new ≡ set head.old place count }
{
    head[place] = count as u64;
}

// A head with this timer, whose tables hold nothing.
pub(crate) fn begin(head: &mut Head, timer: RefreshTimer)
    ensures { head.new ≡ timer.random_seed ∷ timer.next_salvo ∷ timer.phase ∷ 0 ∷ 0 ∷ 0 ∷ [] }
{
    *head = [0; HEAD_PLACES];
    head[SEED] = timer.random_seed as u64;
    set_timer(head, timer);
}

// Lends the timer to `update_refresh`, which rolls it on by one salvo, if that is due. A time that no call may bear leaves it as it was.
pub(crate) fn rolled(timer: RefreshTimer, time: u64) -> RefreshTimer
    ensures { result ≡ timer_of (update_answer timer time) }
{
    let mut owned = timer;
    let _ = owned.update_refresh(time);
    owned
}
