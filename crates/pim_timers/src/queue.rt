//! A queue of timestamps of timers, in which an entry isn't moved when its timer is set to expire later.
ghost use Rattle.std.specs.Prelude.{◌≡◌, ◌+◌, ◌<◌, ◌≤◌, ◌&&◌, ◌||◌, ℕ, Bool, false, true, [], length, Option, Some, None, OnErr, OnOk};
ghost use Rattle.std.specs.List.{count_by};
ghost use Rattle.pim_timers.specs.Armed.{AreArmed, Grows, IsArmed, IsReal, IsSettled, holds};
ghost use Rattle.pim_timers.specs.Dues.{Due, IsFirst, same_due};
ghost use Rattle.pim_timers.specs.Ends.{same_timer};

use crate::schedule::Schedule;
use pim_types::Timer;
use std::alloc::{AllocError, Global};
use std::cmp::Reverse;
use std::collections::BinaryHeap;
use std::marker::Model;

/// How many outdated entries the queue may have at least, however few timers run.
const SPARE: usize = 32;

/// Timestamps (ms), each with a timer that expires then, or later, or doesn't run any more. The first entry is the
/// least by timestamp, then by the kind and the key of its timer. An entry whose timer is set to expire later is left
/// where it is, and is put right once it comes first. In a settled queue the first entry is up to date, while others
/// may be outdated.
#[derive(Drop)]
pub struct Queue {
    heap: BinaryHeap<Reverse<(u64, Timer)>>,
}

impl Model for Queue {
    ghost use Rattle.std.specs.Prelude.{◌-◌};
    ghost use Rattle.std.specs.BinaryHeap.{IsHeap, heap_capacity, heap_items, heap_len};
    ghost use Rattle.pim_timers.specs.Armed.{Entries};
    ghost use Rattle.pim_timers.specs.Heap.{entry_cmp};

    ghost Value = { Entries };

    ghost view = { λ a. record { dues = heap_items a.heap; room = heap_capacity a.heap - heap_len a.heap } };

    ghost invariant = { λ a. IsHeap entry_cmp (heap_items a.heap) };
}

// Whether a timer's timestamp, in ms, if it has one, is no later than another.
fn is_within(end: Option<u64>, other: u64) -> bool
    ensures { result ≡ true → (e : ℕ) × (end ≡ Some e) × (e ≤ other) }
{
    match end {
        Some(end) => end <= other,
        None => false,
    }
}

impl Queue {
    /// An empty queue; it takes no memory.
    pub fn new(alloc: Global) -> Self
        ensures { result.dues ≡ [] }
    {
        Queue {
            heap: BinaryHeap::new(alloc),
        }
    }

    /// The first entry.
    pub fn first(&self) -> Option<(u64, Timer)>
        ensures { IsFirst (holds self.now) result }
    {
        match self.heap.peek() {
            Some(Reverse(due)) => Some(*due),
            None => None,
        }
    }

    // Makes room for one more entry, where there is none. The memory grows by a quarter and isn't doubled, since
    // entries are most of what a timer needs. The error is want of memory.
    fn make_room(&mut self) -> Result<(), AllocError>
        ensures { self.new.dues ≡ self.old.dues }
    {
        let entries = self.heap.len();
        if entries < self.heap.capacity() {
            return Ok(());
        }
        self.heap.reserve_exact(entries / 4 + 4)
    }

    // Puts an entry in. An error is want of memory, and changes nothing.
    fn push(&mut self, due: (u64, Timer)) -> Result<(), AllocError>
        ensures ok { OnOk result ((d : Due) → holds self.new d ≡ (same_due d due || holds self.old d)) }
        ensures err { OnErr result (self.new.dues ≡ self.old.dues) }
    {
        self.make_room()?;
        self.heap.push(Reverse(due))?;
        Ok(())
    }

    /// Adds an entry (ms) where there is room.
    pub fn push_in_room(&mut self, due: (u64, Timer))
        requires { 0 < self.old.room }
        ensures held { (d : Due) → holds self.new d ≡ (same_due d due || holds self.old d) }
        ensures room { self.old.room ≤ self.new.room + 1 }
        ensures len { length self.new.dues ≡ length self.old.dues + 1 }
        ensures aside { (p : Due → Bool) → p due ≡ false
            → count_by (λ e. p e.0) self.new.dues ≡ count_by (λ e. p e.0) self.old.dues }
    {
        let _ = self.heap.push(Reverse(due));
    }

    /// Sets when a timer expires (ms), where it was known to expire before. If it expires no earlier than before,
    /// nothing is written. The error is want of memory, and changes nothing.
    pub fn arm(
        &mut self,
        timer: Timer,
        from: Option<u64>,
        to: Option<u64>,
    ) -> Result<(), AllocError>
        requires { IsArmed (holds self.old) timer from }
        ensures ok { OnOk result (IsArmed (holds self.new) timer to) }
        ensures grows { Grows (holds self.old) (holds self.new) }
        ensures others { (d : Due) → same_timer d.1 timer ≡ false → holds self.new d ≡ holds self.old d }
        ensures err { OnErr result (self.new.dues ≡ self.old.dues) }
    {
        match to {
            Some(after) if !is_within(from, after) => self.push((after, timer)),
            _ => Ok(()),
        }
    }

    // Takes the first out.
    fn take_first(&mut self, first: (u64, Timer))
        requires { IsFirst (holds self.old) (Some first) }
        ensures held { (d : Due) → holds self.old d ≡ (same_due d first || holds self.new d) }
        ensures fewer { (p : Due → Bool) → p first ≡ true
            → count_by (λ e. p e.0) self.new.dues < count_by (λ e. p e.0) self.old.dues }
        ensures len { length self.new.dues + 1 ≡ length self.old.dues }
        ensures room { 0 < self.new.room }
    {
        let _ = self.heap.pop();
    }

    // Takes the first entry out. If its timer expires later, an entry for that is added, unless the first entry is then
    // the same.
    fn move_first(&mut self, first: (u64, Timer), to: Option<u64>)
        requires { IsFirst (holds self.old) (Some first) }
        ensures others { (d : Due) → same_due d first ≡ false → holds self.old d ≡ true → holds self.new d ≡ true }
        ensures moved { (m : ℕ) → to ≡ Some m → first.0 ≤ m → (e : ℕ) × (e ≤ m) × (holds self.new (e, first.1) ≡ true) }
        ensures fewer { (p : Due → Bool) → p first ≡ true → ((m : ℕ) → to ≡ Some m → p (m, first.1) ≡ false)
            → count_by (λ e. p e.0) self.new.dues < count_by (λ e. p e.0) self.old.dues }
        ensures few { length self.new.dues ≤ length self.old.dues }
    {
        self.take_first(first);
        if self.first() == Some(first) {
            return;
        }
        if let Some(moment) = to {
            self.push_in_room((moment, first.1));
        }
    }

    // Makes the first entry up to date: outdated ones are removed, or moved to when their timers expire.
    fn put_right<S: Schedule>(&mut self, schedule: &S, count: &mut S::Count)
        requires { AreArmed (S.end_of schedule.now) (holds self.old) }
        ensures armed { AreArmed (S.end_of schedule.now) (holds self.new) }
        ensures real { IsReal (S.end_of schedule.now) (holds self.new) }
        ensures few { length self.new.dues ≤ length self.old.dues }
    {
        while let Some(first) = self.first() {
            let end = schedule.end_of(first.1, count);
            if end == Some(first.0) {
                return;
            }
            self.move_first(first, end);
        }
    }

    // Takes all entries out, and keeps the memory.
    fn clear(&mut self)
        ensures empty { self.new.dues ≡ [] }
        ensures room { length self.old.dues + self.old.room ≤ self.new.room }
    {
        self.heap.clear();
    }

    // Fills the queue with the entries of the timers that run, and no others.
    fn rebuild<S: Schedule>(&mut self, schedule: &S, count: &mut S::Count)
        requires { S.most schedule.now ≤ length self.old.dues }
        ensures armed { AreArmed (S.end_of schedule.now) (holds self.new) }
        ensures few { length self.new.dues ≤ S.most schedule.now }
    {
        self.clear();
        schedule.arm_all(self, count);
    }

    /// Makes the first entry up to date, after timers were set and armed; `is_right` says that it is known to be. If
    /// there are far more entries than timers, the queue is filled anew, which takes no memory. Each look-up is counted.
    pub fn settle<S: Schedule>(&mut self, schedule: &S, is_right: bool, count: &mut S::Count)
        requires armed { AreArmed (S.end_of schedule.now) (holds self.old) }
        requires right { is_right ≡ true → IsReal (S.end_of schedule.now) (holds self.old) }
        ensures { IsSettled (S.end_of schedule.now) (S.most schedule.now) self.new }
    {
        let entries = self.heap.len();
        if schedule.excess(entries) > entries / 2 + SPARE {
            self.rebuild(schedule, count);
            self.put_right(schedule, count);
        } else if !is_right {
            self.put_right(schedule, count);
        }
    }
}
