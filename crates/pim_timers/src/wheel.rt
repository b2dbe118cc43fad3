//! Timers that move later at the cost of a comparison.
ghost use Rattle.std.specs.Prelude.{◌≡◌, IfOk, Some, false};
ghost use Rattle.std.specs.FinMap as map;
ghost use Rattle.pim_timers.specs.Armed.{AreArmed, IsSettled, holds};
ghost use Rattle.pim_timers.specs.Dues.{Due, IsFirst};
ghost use Rattle.pim_timers.specs.Ends.{same_timer};

use crate::moments::Moments;
use crate::queue::Queue;
use crate::timers::Timers;
use pim_types::Timer;
use std::alloc::{AllocError, Global};
use std::marker::Model;

/// Timers with their timestamps, and a queue of these, in which an entry whose timer is set to expire later isn't
/// touched until it comes first.
#[derive(Drop)]
pub struct Wheel {
    queue: Queue,
    moments: Moments,
}

impl Model for Wheel {
    ghost use Rattle.std.specs.FinMap as map;
    ghost use Rattle.pim_timers.specs.Schedule.{Contents, contents_code};
    ghost use Rattle.pim_timers.specs.Armed.{IsSettled};

    ghost Value = { Contents };

    ghost coded = { contents_code };

    ghost view = { λ a. a.moments };

    ghost invariant = { λ a. IsSettled (map.get a.moments) (map.len a.moments) a.queue };
}

impl Wheel {
    /// No timers. An error is want of memory.
    pub fn new(alloc: Global) -> Result<Self, AllocError>
        ensures { IfOk result (λ wheel. wheel ≡ map.empty) }
    {
        Ok(Wheel {
            queue: Queue::new(alloc),
            moments: Moments::new(alloc),
        })
    }
}

// Whether the first entry of the queue, if there is one, is of the timer.
fn is_of(first: Option<(u64, Timer)>, timer: Timer) -> bool
    ensures { result ≡ false → (d : Due) → first ≡ Some d → same_timer d.1 timer ≡ false }
{
    match first {
        Some((_, first)) => first == timer,
        None => false,
    }
}

// Settles the queue after one timer changed.
fn settle(queue: &mut Queue, moments: &Moments, timer: Timer)
    requires armed { AreArmed (map.get moments.now) (holds queue.old) }
    requires others { (due : Due) → IsFirst (holds queue.old) (Some due) → same_timer due.1 timer ≡ false
        → map.get moments.now due.1 ≡ Some due.0 }
    ensures { IsSettled (map.get moments.now) (map.len moments.now) queue.new }
{
    let is_own = is_of(queue.first(), timer);
    queue.settle(moments, !is_own, &mut ());
}

impl Timers for Wheel {
    ghost contents = { λ s. s };

    fn len(&self) -> usize {
        self.moments.len()
    }

    fn is_empty(&self) -> bool {
        self.moments.len() == 0
    }

    fn get(&self, timer: Timer) -> Option<u64> {
        self.moments.get(timer)
    }

    fn set(&mut self, timer: Timer, moment: u64) -> Result<(), AllocError> {
        let before = self.moments.insert(timer, moment)?;
        if let Err(refused) = self.queue.arm(timer, before, Some(moment)) {
            self.moments.put_back(timer, before);
            return Err(refused);
        }
        settle(&mut self.queue, &self.moments, timer);
        Ok(())
    }

    fn cancel(&mut self, timer: Timer) {
        if self.moments.remove(timer).is_some() {
            settle(&mut self.queue, &self.moments, timer);
        }
    }

    fn next(&self) -> Option<(u64, Timer)> {
        self.queue.first()
    }

    fn pop_due(&mut self, moment: u64) -> Option<(u64, Timer)> {
        let due = self.next()?;
        if due.0 > moment {
            return None;
        }
        self.cancel(due.1);
        Some(due)
    }
}
