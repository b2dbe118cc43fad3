//! Timers in one ordered set.
ghost use Rattle.std.specs.Prelude.{◌≡◌};
ghost use Rattle.std.specs.FinMap as map;

use crate::dues::Dues;
use crate::moments::Moments;
use crate::timers::Timers;
use pim_types::Timer;
use std::alloc::{AllocError, Global};
use std::marker::Model;

/// Timers with their timestamps, and these timestamps in one ordered set.
#[derive(Drop)]
pub struct SortedTimers {
    dues: Dues,
    moments: Moments,
}

impl Model for SortedTimers {
    ghost use Rattle.std.specs.FinMap as map;
    ghost use Rattle.pim_timers.specs.Schedule.{Contents, contents_code};
    ghost use Rattle.pim_timers.specs.Dues.{AreTogether, is_among};

    ghost Value = { Contents };

    ghost coded = { contents_code };

    ghost view = { λ a. a.moments };

    ghost invariant = { λ a. AreTogether (map.get a.moments) (is_among a.dues) };
}

impl SortedTimers {
    /// No timers; it takes no memory until one is set.
    pub fn new(alloc: Global) -> Self
        ensures { result ≡ map.empty }
    {
        SortedTimers {
            dues: Dues::new(alloc),
            moments: Moments::new(alloc),
        }
    }
}

impl Timers for SortedTimers {
    ghost contents = { λ s. s };

    fn len(&self) -> usize {
        self.moments.len()
    }

    fn is_empty(&self) -> bool {
        self.moments.len() == 0
    }

    fn get(&self, timer: Timer) -> Option<u64> {
        self.moments.get(timer)
    }

    fn set(&mut self, timer: Timer, moment: u64) -> Result<(), AllocError> {
        self.dues.insert((moment, timer))?;
        match self.moments.insert(timer, moment) {
            Ok(None) => {}
            Ok(Some(before)) => {
                if before != moment {
                    self.dues.remove((before, timer));
                }
            }
            Err(refused) => {
                self.dues.remove((moment, timer));
                return Err(refused);
            }
        }
        Ok(())
    }

    fn cancel(&mut self, timer: Timer) {
        if let Some(before) = self.moments.remove(timer) {
            self.dues.remove((before, timer));
        }
    }

    fn next(&self) -> Option<(u64, Timer)> {
        self.dues.first()
    }

    fn pop_due(&mut self, moment: u64) -> Option<(u64, Timer)> {
        let due = self.next()?;
        if due.0 > moment {
            return None;
        }
        self.cancel(due.1);
        Some(due)
    }
}
