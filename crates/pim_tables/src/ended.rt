//! Rows together with a queue of when their timers expire.
ghost use Rattle.std.specs.Prelude.{◌≡◌, ◌+◌, ◌<◌, ◌≤◌, true, length, Option, Some, None};
ghost use Rattle.pim_timers.specs.Armed.{AreArmed, Grows, IsArmed, IsReal, holds};
ghost use Rattle.pim_tables.specs.Ends.{InStep, IsRowArmed, end_of as end_in, ends_in, is_second, most_ends};

use crate::ends::Ends;
use crate::keeping::ReadRows;
use pim_timers::{Queue, Schedule};
use pim_types::{Key, Timer, TimerKind};
use std::marker::PhantomData;

// Rows that answer when each of their timers expires.
struct Ended<'a, R, K> {
    rows: &'a K,
    row: PhantomData<R>,
}

// Written out, so that it is proved once (docs/PROOF_NOTES.md, Drops).
impl<'a, R, K> Drop for Ended<'a, R, K> {
    fn drop(self) {
        let Ended { rows: _, row: _ } = self;
    }
}

// Whether the second kind, if there is one, is this kind.
fn is_kind(second: Option<TimerKind>, kind: TimerKind) -> bool
    ensures { result ≡ is_second second kind }
{
    match second {
        Some(second) => kind == second,
        None => false,
    }
}

// When the row's timer of a kind expires.
fn end_of_row<R: Ends>(row: R, kind: TimerKind) -> Option<u64>
    ensures { result ≡ end_in R.kinds R.ends (Some row) kind }
{
    let kinds = R::kinds();
    let ends = row.ends();
    if kind == kinds.0 {
        return ends.0;
    }
    if is_kind(kinds.1, kind) {
        return ends.1;
    }
    None
}

impl<'a, R: Ends, K: ReadRows<R>> Schedule for Ended<'a, R, K> {
    type Count = K::Count;

    ghost end_of = { λ s. ends_in R.kinds R.ends (K.table s.rows.now) };

    ghost most = { λ s. most_ends R.kinds.1 (length (K.table s.rows.now)) };

    fn end_of(&self, timer: Timer, count: &mut K::Count) -> Option<u64> {
        match self.rows.get(timer.key, count) {
            Some(row) => end_of_row(row, timer.kind),
            None => None,
        }
    }

    fn excess(&self, entries: usize) -> usize {
        let rows = self.rows.count();
        let more = entries.saturating_sub(rows);
        match R::kinds().1 {
            Some(_) => more.saturating_sub(rows),
            None => more,
        }
    }

    fn arm_all(&self, queue: &mut Queue, count: &mut K::Count) {
        self.rows.arm_all(queue, count);
    }
}

// Puts a timer into the queue with its expiry (ms), if it runs and the queue has room for it.
fn push_end(queue: &mut Queue, timer: Timer, end: Option<u64>)
    requires { 0 < queue.old.room }
    ensures armed { IsArmed (holds queue.new) timer end }
    ensures grows { Grows (holds queue.old) (holds queue.new) }
    ensures room { queue.old.room ≤ queue.new.room + 1 }
    ensures few { length queue.new.dues ≤ length queue.old.dues + 1 }
{
    if let Some(moment) = end {
        queue.push_in_room((moment, timer));
    }
}

/// Puts the timers of a row into a queue that has room for them.
pub fn arm_row<R: Ends>(queue: &mut Queue, key: Key, row: R)
    requires { most_ends R.kinds.1 1 ≤ queue.old.room }
    ensures armed { IsRowArmed R.kinds R.ends (holds queue.new) key (Some row) }
    ensures grows { Grows (holds queue.old) (holds queue.new) }
    ensures room { queue.old.room ≤ queue.new.room + most_ends R.kinds.1 1 }
    ensures few { length queue.new.dues ≤ length queue.old.dues + most_ends R.kinds.1 1 }
{
    let kinds = R::kinds();
    let ends = row.ends();
    push_end(queue, Timer { kind: kinds.0, key }, ends.0);
    if let Some(kind) = kinds.1 {
        push_end(queue, Timer { kind, key }, ends.1);
    }
}

// Settles the queue after rows changed. `is_right` says whether its first entry is known to be right.
pub(crate) fn settle_ended<R: Ends, K: ReadRows<R>>(
    rows: &K,
    queue: &mut Queue,
    is_right: bool,
    count: &mut K::Count,
)
    requires armed { AreArmed (ends_in R.kinds R.ends (K.table rows.now)) (holds queue.old) }
    requires right { is_right ≡ true → IsReal (ends_in R.kinds R.ends (K.table rows.now)) (holds queue.old) }
    ensures { InStep R.kinds R.ends queue.new (K.table rows.now) }
{
    let ended = Ended {
        rows,
        row: PhantomData,
    };
    queue.settle(&ended, is_right, count);
}
