//! A table whose rows have timers. It has a queue of when the rows' timers expire, which it keeps in step, so that no
//! caller sets a timer.
ghost use Rattle.std.specs.Prelude.{◌≡◌, [], length, IfOk, IfSome, OnOk, OnErr, Option, Some, None, option_map};
ghost use Rattle.std.specs.List.Sorted.{IsStrictlySortedBy};
ghost use Rattle.pim_model.specs.Clearing.{first_by};
ghost use Rattle.pim_model.specs.Tables.{keys_in, row_at, has_row, put, drop_at, drop_where, set_row, change_row};
ghost use Rattle.pim_model.specs.Timers.{is_ending_first};
ghost use Rattle.pim_types.specs.Keys.{key_cmp, is_on};
ghost use Rattle.pim_tables.specs.Ends.{InStep, InStepBeside, back_at, due_of, left_at, row_endings};

use crate::change::{Change, To};
use crate::end_queue::EndQueue;
use crate::ends::Ends;
use crate::facts::Facts;
use crate::keeping::WriteRows;
use pim_types::{IfaceId, Key, Timer};
use std::alloc::{AllocError, Global};
use std::marker::Model;

/// The facts of one kind, which have timers.
pub struct Timed<R: Ends, K: WriteRows<R> = Facts<R>> {
    rows: K,
    queue: EndQueue<R>,
}

// Written out, so that it is proved once (docs/PROOF_NOTES.md, Drops).
impl<R: Ends + Drop, K: WriteRows<R> + Drop> Drop for Timed<R, K> {
    fn drop(self) {
        let Timed { rows: _, queue: _ } = self;
    }
}

impl<R: Ends, K: WriteRows<R>> Model for Timed<R, K> {
    ghost use Rattle.pim_model.specs.Tables.{Table};
    ghost use Rattle.pim_tables.specs.Ends.{InStep};

    ghost Value = { Table R };

    ghost view = { λ a. K.table a.rows };

    ghost invariant = { λ a. InStep R.kinds R.ends a.queue (K.table a.rows) };
}

// Leaves under the key of a changed row what a refusal is to leave: the row as it was where rows have no second timer,
// else none.
fn put_back<R: Ends, K: WriteRows<R>>(rows: &mut K, hint: Option<usize>, key: Key, before: R)
    ensures { K.table rows.new ≡ back_at R.kinds.1 (K.table rows.old) key before }
{
    match R::kinds().1 {
        None => {
            rows.replace(hint, key, To { row: before });
        }
        Some(_) => {
            rows.take(key);
        }
    }
}

// Changes the row under the key, if there is one, in its place, and its timers, and returns the row as it was. The row
// is looked up once. The error is want of memory.
fn update_in_step<R: Ends, K: WriteRows<R>, C: Change<R>>(
    rows: &mut K,
    queue: &mut EndQueue<R>,
    hint: Option<usize>,
    key: Key,
    change: C,
) -> Result<Option<R>, AllocError>
    requires { InStep R.kinds R.ends queue.old (K.table rows.old) }
    ensures ok { OnOk result (K.table rows.new
        ≡ change_row (λ before. Some (C.after change before)) key (K.table rows.old)) }
    ensures before { IfOk result (λ before. before ≡ row_at (K.table rows.old) key) }
    ensures err { OnErr result (K.table rows.new ≡ left_at R.kinds.1 (K.table rows.old) key) }
    ensures in_step { InStep R.kinds R.ends queue.new (K.table rows.new) }
{
    // For the proof: a key is listed once, so that the row can be put back.
    rows.proof_rise();
    let Some(before) = rows.replace(hint, key, change) else {
        return Ok(None);
    };
    let row = change.after(before);
    if let Err(refused) = queue.arm(key, Some(before), row) {
        put_back(rows, hint, key, before);
        queue.settle(rows, key, &mut ());
        return Err(refused);
    }
    queue.settle(rows, key, &mut ());
    Ok(Some(before))
}

// Puts a row under a key that has none, and its timers into the queue. The error is want of memory, and changes no row.
fn insert_armed<R: Ends, K: WriteRows<R>>(
    rows: &mut K,
    queue: &mut EndQueue<R>,
    key: Key,
    row: R,
) -> Result<(), AllocError>
    requires absent { row_at (K.table rows.old) key ≡ None }
    requires in_step { InStep R.kinds R.ends queue.old (K.table rows.old) }
    ensures ok { OnOk result (K.table rows.new ≡ put (K.table rows.old) key row) }
    ensures err { OnErr result (K.table rows.new ≡ K.table rows.old) }
    ensures beside { InStepBeside R.kinds R.ends queue.new (K.table rows.new) key }
{
    queue.arm(key, None, row)?;
    rows.insert(key, row)
}

// Puts a row with its timers under a key that has none, and settles the queue. The error is want of memory, and changes
// no row.
fn add_in_step<R: Ends, K: WriteRows<R>>(
    rows: &mut K,
    queue: &mut EndQueue<R>,
    key: Key,
    row: R,
) -> Result<(), AllocError>
    requires absent { row_at (K.table rows.old) key ≡ None }
    requires in_step { InStep R.kinds R.ends queue.old (K.table rows.old) }
    ensures ok { OnOk result (K.table rows.new ≡ put (K.table rows.old) key row) }
    ensures err { OnErr result (K.table rows.new ≡ K.table rows.old) }
    ensures in_step { InStep R.kinds R.ends queue.new (K.table rows.new) }
{
    let added = insert_armed(rows, queue, key, row);
    queue.settle(rows, key, &mut ());
    added
}

// Puts the row with its timers under the key, replacing one that is there. The error is want of memory.
fn put_in_step<R: Ends, K: WriteRows<R>>(
    rows: &mut K,
    queue: &mut EndQueue<R>,
    key: Key,
    row: R,
) -> Result<(), AllocError>
    requires { InStep R.kinds R.ends queue.old (K.table rows.old) }
    ensures ok { OnOk result (K.table rows.new ≡ put (K.table rows.old) key row) }
    ensures err { OnErr result (K.table rows.new ≡ left_at R.kinds.1 (K.table rows.old) key) }
    ensures in_step { InStep R.kinds R.ends queue.new (K.table rows.new) }
{
    // For the proof: what is put under a key with a row takes the place of that row.
    rows.proof_rise();
    match update_in_step(rows, queue, None, key, To { row })? {
        Some(_) => Ok(()),
        None => add_in_step(rows, queue, key, row),
    }
}

impl<R: Ends, K: WriteRows<R>> Timed<R, K> {
    /// A table without facts. Takes no memory.
    pub fn new(alloc: Global) -> Self
        ensures { result ≡ [] }
    {
        Timed {
            rows: K::none(alloc),
            queue: EndQueue::new(alloc),
        }
    }

    /// The facts, in the table that keeps them.
    pub fn rows(&self) -> &K
        ensures { K.table result.now ≡ self.now }
    {
        &self.rows
    }

    /// How many facts there are.
    pub fn len(&self) -> usize
        ensures count { result ≡ length self.now }

        // This holds of every table: the keys rise.
        ensures ascending { IsStrictlySortedBy key_cmp (keys_in self.now) }
    {
        self.rows.proof_rise();
        self.rows.count()
    }

    /// For the proof: the keys rise. Does nothing when it runs.
    pub fn proof_rising(&self)
        ensures { IsStrictlySortedBy key_cmp (keys_in self.now) }
    {
        self.rows.proof_rise();
    }

    /// Whether there is a fact under the key.
    pub fn contains(&self, key: Key) -> bool
        ensures { result ≡ has_row self.now key }
    {
        self.rows.has(key, &mut ())
    }

    /// The fact under the key.
    pub fn get(&self, key: Key) -> Option<R>
        ensures { result ≡ row_at self.now key }
    {
        self.rows.get(key, &mut ())
    }

    /// Which timer expires first, and when, in ms: the least by timestamp, then by kind, then by key. `None` where no
    /// timer runs.
    pub fn next(&self) -> Option<(u64, Timer)>
        ensures { result ≡ option_map due_of (first_by is_ending_first (row_endings R.kinds R.ends self.now)) }
    {
        // For the proof: a key is listed once, so that the queue has all timers.
        self.rows.proof_rise();
        self.queue.first()
    }

    /// Puts the fact under the key, replacing one that is there. The error is want of memory: facts with one timer are
    /// then unchanged, and of those with two there is none under the key.
    pub fn put(&mut self, key: Key, row: R) -> Result<(), AllocError>
        ensures ok { OnOk result (self.new ≡ put self.old key row) }
        ensures err { OnErr result (self.new ≡ left_at R.kinds.1 self.old key) }
    {
        put_in_step(&mut self.rows, &mut self.queue, key, row)
    }

    /// Puts the fact under a key that has none, so that no other is looked for. The error is want of memory, and
    /// changes no fact.
    pub fn add(&mut self, key: Key, row: R) -> Result<(), AllocError>
        requires { row_at self.old key ≡ None }
        ensures ok { OnOk result (self.new ≡ put self.old key row) }
        ensures err { OnErr result (self.new ≡ self.old) }
    {
        add_in_step(&mut self.rows, &mut self.queue, key, row)
    }

    /// Changes the fact under the key, if there is one, in its place, and returns the fact as it was. The fact is
    /// looked up once, or not at all where the hint is its place (`place` of `Placed`); the result doesn't depend on
    /// the hint. The error is want of memory, and leaves what an error of `put` leaves.
    pub fn update<C: Change<R>>(
        &mut self,
        hint: Option<usize>,
        key: Key,
        change: C,
    ) -> Result<Option<R>, AllocError>
        ensures ok { OnOk result (self.new ≡ change_row (λ before. Some (C.after change before)) key self.old) }
        ensures before { IfOk result (λ before. before ≡ row_at self.old key) }
        ensures err { OnErr result (self.new ≡ left_at R.kinds.1 self.old key) }
    {
        update_in_step(&mut self.rows, &mut self.queue, hint, key, change)
    }

    /// Removes the fact under the key.
    pub fn remove(&mut self, key: Key)
        ensures { self.new ≡ drop_at self.old key }
    {
        self.rows.take(key);
        self.queue.settle(&self.rows, key, &mut ());
    }

    /// Puts the fact under the key, or removes the one that is there. The error is want of memory, and leaves what an
    /// error of `put` leaves.
    pub fn set(&mut self, key: Key, row: Option<R>) -> Result<(), AllocError>
        ensures ok { OnOk result (self.new ≡ set_row self.old key row) }
        ensures err { OnErr result (self.new ≡ left_at R.kinds.1 self.old key) }
    {
        match row {
            Some(row) => self.put(key, row),
            None => {
                self.remove(key);
                Ok(())
            }
        }
    }

    /// Replaces the fact under the key, if there is one. The error is want of memory, and leaves what an error of `put`
    /// leaves.
    pub fn change(&mut self, key: Key, row: R) -> Result<(), AllocError>
        ensures to { OnOk result (self.new ≡ change_row (λ _. Some row) key self.old) }
        ensures by { OnOk result ((change : R → Option R)
            → IfSome (row_at self.old key) (λ before. change before ≡ Some row)
            → self.new ≡ change_row change key self.old) }
        ensures err { OnErr result (self.new ≡ left_at R.kinds.1 self.old key) }
    {
        // For the proof: a key is listed once.
        self.rows.proof_rise();
        update_in_step(&mut self.rows, &mut self.queue, None, key, To { row })?;
        Ok(())
    }
}

// A table in an ordered map.
impl<R: Ends> Timed<R> {
    /// Removes the facts of the interface. One fact of the others is read.
    pub fn drop_on(&mut self, iface: IfaceId)
        ensures { self.new ≡ drop_where (is_on iface.number) self.old }
    {
        self.rows.drop_on(iface);
        // The fact whose timer expires first may be among the removed ones.
        self.queue.settle_all(&self.rows, &mut ());
    }
}
