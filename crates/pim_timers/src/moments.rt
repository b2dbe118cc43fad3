//! A map from timers to their timestamps.
ghost use Rattle.std.specs.Prelude.{◌≡◌, None, IfOk, OnOk, OnErr, cond, is_some, true};
ghost use Rattle.std.specs.FinMap as map;
ghost use Rattle.pim_timers.specs.Ends.{same_timer};
ghost use Rattle.pim_types.specs.declared.timer.Timer.{Timer as TimerValue};

use crate::queue::Queue;
use crate::schedule::Schedule;
use pim_types::Timer;
use std::alloc::{AllocError, Global};
use std::collections::BTreeMap;
use std::marker::Model;

/// When each timer expires, in ms.
#[derive(Drop)]
pub struct Moments {
    moments: BTreeMap<Timer, u64>,
}

impl Model for Moments {
    ghost use Rattle.std.specs.FinMap.{from_entries};
    ghost use Rattle.pim_timers.specs.Schedule.{Contents, contents_code};

    ghost Value = { Contents };

    ghost coded = { contents_code };

    ghost view = { λ a. from_entries a.moments.entries };
}

impl Moments {
    /// No timers; it takes no memory.
    pub fn new(alloc: Global) -> Self
        ensures { result ≡ map.empty }
    {
        Moments {
            moments: BTreeMap::new(alloc),
        }
    }

    /// How many timers there are.
    pub fn len(&self) -> usize
        ensures { result ≡ map.len self.now }
    {
        self.moments.len()
    }

    /// When the timer expires.
    pub fn get(&self, timer: Timer) -> Option<u64>
        ensures { result ≡ map.get self.now timer }
    {
        self.moments.get(&timer).copied()
    }

    /// Sets the timestamp of the timer, and returns the one that it had. Memory is needed only for a new timer. The
    /// error is want of memory, and then nothing has changed.
    pub fn insert(&mut self, timer: Timer, moment: u64) -> Result<Option<u64>, AllocError>
        ensures before { IfOk result (λ before. before ≡ map.get self.old timer) }
        ensures ok { OnOk result (self.new ≡ map.insert self.old timer moment) }
        ensures absent { OnErr result (map.get self.old timer ≡ None) }
        ensures err { OnErr result (self.new ≡ self.old) }
    {
        Ok(self.moments.insert(timer, moment)?)
    }

    /// Restores the timestamp that a timer had before.
    pub fn put_back(&mut self, timer: Timer, before: Option<u64>)
        requires { is_some (map.get self.old timer) ≡ true }
        ensures { (q : TimerValue) → map.get self.new q ≡ cond (same_timer q timer) before (map.get self.old q) }
    {
        match before {
            Some(moment) => {
                let _ = self.moments.insert(timer, moment);
            }
            None => {
                self.moments.remove(&timer);
            }
        }
    }

    /// Removes the timer, and returns the timestamp that it had.
    pub fn remove(&mut self, timer: Timer) -> Option<u64>
        ensures before { result ≡ map.get self.old timer }
        ensures contents { self.new ≡ map.remove self.old timer }
    {
        self.moments.remove(&timer)
    }
}

impl Schedule for Moments {
    type Count = ();

    ghost end_of = { λ s. map.get s };

    ghost most = { λ s. map.len s };

    fn end_of(&self, timer: Timer, _count: &mut ()) -> Option<u64> {
        self.get(timer)
    }

    fn excess(&self, entries: usize) -> usize {
        entries.saturating_sub(self.len())
    }

    fn arm_all(&self, queue: &mut Queue, _count: &mut ()) {
        // For the proof: each timer is listed once.
        let _ = self.moments.len();
        for (timer, moment) in self.moments.iter() {
            queue.push_in_room((*moment, *timer));
        }
    }
}
