//! The queue of when the timers of rows expire that are kept elsewhere.
ghost use Rattle.std.specs.Prelude.{◌≡◌, [], OnOk, Option, Some, None, false, option_map};
ghost use Rattle.std.specs.List.Sorted.{IsStrictlySortedBy};
ghost use Rattle.pim_model.specs.Clearing.{first_by};
ghost use Rattle.pim_model.specs.Tables.{Table, keys_in};
ghost use Rattle.pim_model.specs.Timers.{is_ending_first};
ghost use Rattle.pim_timers.specs.Armed.{AreArmed, Grows, holds};
ghost use Rattle.pim_timers.specs.Dues.{Due};
ghost use Rattle.pim_types.specs.Keys.{key_cmp, same_key};
ghost use Rattle.pim_tables.specs.Ends.{DifferAt, InStep, InStepBeside, IsRowArmed, due_of, ends_in, ends_under, row_endings};

use crate::ended::settle_ended;
use crate::ends::Ends;
use crate::keeping::ReadRows;
use pim_timers::Queue;
use pim_types::{Key, Timer};
use std::alloc::{AllocError, Global};
use std::marker::{Model, PhantomData};

/// When the timers of the rows of a table expire, where the table is kept elsewhere. The owner of both keeps them in
/// step (`InStep`): it arms the queue for a row that is added or changed, changes the row, and then settles the queue.
pub struct EndQueue<R: Ends> {
    queue: Queue,
    row: PhantomData<R>,
}

// Written out, so that it is proved once (docs/PROOF_NOTES.md, Drops).
impl<R: Ends> Drop for EndQueue<R> {
    fn drop(self) {
        let EndQueue { queue: _, row: _ } = self;
    }
}

impl<R: Ends> Model for EndQueue<R> {
    ghost use Rattle.pim_timers.specs.Armed.{Entries};

    ghost Value = { Entries };

    ghost view = { λ e. e.queue };
}

// When the timers of a row expire, if there is one.
fn ends_of<R: Ends>(row: Option<R>) -> (Option<u64>, Option<u64>)
    ensures { result ≡ ends_under R.ends row }
{
    match row {
        Some(row) => row.ends(),
        None => (None, None),
    }
}

// Arms the timers of a row under the key, except where the queue already has an earlier entry. The error is want of
// memory. No entry is removed, also where it fails.
fn arm_ends<R: Ends>(
    queue: &mut Queue,
    key: Key,
    before: Option<R>,
    row: R,
) -> Result<(), AllocError>
    requires { IsRowArmed R.kinds R.ends (holds queue.old) key before }
    ensures ok { OnOk result (IsRowArmed R.kinds R.ends (holds queue.new) key (Some row)) }
    ensures grows { Grows (holds queue.old) (holds queue.new) }
    ensures others { (d : Due) → same_key d.1.key key ≡ false → holds queue.new d ≡ holds queue.old d }
{
    let kinds = R::kinds();
    let from = ends_of(before);
    let to = row.ends();
    queue.arm(Timer { kind: kinds.0, key }, from.0, to.0)?;
    if let Some(kind) = kinds.1 {
        queue.arm(Timer { kind, key }, from.1, to.1)?;
    }
    Ok(())
}

// Whether the first entry, if there is one, is of the key.
fn is_of(first: Option<(u64, Timer)>, key: Key) -> bool
    ensures { result ≡ false → (d : Due) → first ≡ Some d → same_key d.1.key key ≡ false }
{
    match first {
        Some((_, timer)) => timer.key == key,
        None => false,
    }
}

impl<R: Ends> EndQueue<R> {
    /// A queue for no rows. Takes no memory.
    pub fn new(alloc: Global) -> Self
        ensures { InStep R.kinds R.ends result [] }
    {
        EndQueue {
            queue: Queue::new(alloc),
            row: PhantomData,
        }
    }

    /// Which row's timer expires first in the table that the queue is in step with, and when, in ms: the least by
    /// timestamp, then by kind, then by key. `None` where no timer runs.
    pub fn first(&self) -> Option<(u64, Timer)>
        ensures { (rows : Table R) → IsStrictlySortedBy key_cmp (keys_in rows) → InStep R.kinds R.ends self.now rows
            → result ≡ option_map due_of (first_by is_ending_first (row_endings R.kinds R.ends rows)) }
    {
        self.queue.first()
    }

    /// Arms the timers of the row that is to be under the key, except where the timers of the row before are armed
    /// early enough. The error is want of memory. In either case, whatever is under the key afterwards (the new row,
    /// the row before, or none) is armed, and the queue is still to be settled.
    pub fn arm(&mut self, key: Key, before: Option<R>, row: R) -> Result<(), AllocError>
        requires { IsRowArmed R.kinds R.ends (holds self.old) key before }
        ensures ok { OnOk result (IsRowArmed R.kinds R.ends (holds self.new) key (Some row)) }
        ensures before { IsRowArmed R.kinds R.ends (holds self.new) key before }
        ensures beside { (rows after : Table R) (w : Option R) → InStep R.kinds R.ends self.old rows
            → DifferAt rows after key w → IsRowArmed R.kinds R.ends (holds self.new) key w
            → InStepBeside R.kinds R.ends self.new after key }
    {
        arm_ends(&mut self.queue, key, before, row)
    }

    /// Settles the queue after the row under the key was added, changed or removed, with the rows as they are
    /// afterwards.
    pub fn settle<K: ReadRows<R>>(&mut self, rows: &K, key: Key, count: &mut K::Count)
        requires { InStepBeside R.kinds R.ends self.old (K.table rows.now) key }
        ensures { InStep R.kinds R.ends self.new (K.table rows.now) }
    {
        let is_own = is_of(self.queue.first(), key);
        settle_ended(rows, &mut self.queue, !is_own, count);
    }

    /// Settles the queue after rows were removed, with the rows as they are afterwards.
    pub fn settle_all<K: ReadRows<R>>(&mut self, rows: &K, count: &mut K::Count)
        requires { AreArmed (ends_in R.kinds R.ends (K.table rows.now)) (holds self.old) }
        ensures { InStep R.kinds R.ends self.new (K.table rows.now) }
    {
        settle_ended(rows, &mut self.queue, false, count);
    }
}
