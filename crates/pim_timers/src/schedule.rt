//! What a queue reads: when timers expire.
ghost use Rattle.std.specs.Prelude.{◌≡◌, ℕ, ◌+◌, ◌-◌, ◌≤◌, Option, length};
ghost use Rattle.pim_types.specs.declared.timer.Timer.{Timer as TimerValue};
ghost use Rattle.pim_timers.specs.Armed.{AreArmed, holds};

use crate::queue::Queue;
use pim_types::Timer;

/// What knows when each timer expires (ms), for a queue of these timestamps.
pub trait Schedule {
    /// What counts the look-ups; `()` where they aren't counted.
    type Count;

    /// When each timer expires, if it runs.
    ghost end_of: { Self → TimerValue → Option ℕ };

    /// The most timers that run.
    ghost most: { Self → ℕ };

    /// When the timer expires, in ms, if it runs.
    fn end_of(&self, timer: Timer, count: &mut Self::Count) -> Option<u64>
        ensures { result ≡ end_of self.now timer };

    /// By how much the number of entries is greater than that of the timers that may run.
    fn excess(&self, entries: usize) -> usize
        ensures { result ≡ entries - most self.now };

    /// Puts all timers that run into a queue that has room for them.
    fn arm_all(&self, queue: &mut Queue, count: &mut Self::Count)
        requires { most self.now ≤ queue.old.room }
        ensures armed { AreArmed (end_of self.now) (holds queue.new) }
        ensures few { length queue.new.dues ≤ most self.now + length queue.old.dues };
}
