//! What tables of rows offer, however the rows are kept.
ghost use Rattle.std.specs.Prelude.{◌≡◌, ◌+◌, ◌≤◌, [], length, Option, Some, OnOk, OnErr};
ghost use Rattle.std.specs.List.Sorted.{IsStrictlySortedBy};
ghost use Rattle.pim_model.specs.Tables.{Table, keys_in, row_at, has_row, put, drop_at, change_row};
ghost use Rattle.pim_timers.specs.Armed.{AreArmed, holds};
ghost use Rattle.pim_types.specs.Keys.{key_cmp};
ghost use Rattle.pim_tables.specs.Ends.{ends_in, most_ends};

use crate::change::Change;
use crate::ends::Ends;
use pim_timers::Queue;
use pim_types::Key;
use std::alloc::{AllocError, Global};

/// A table that can be read: rows, each under its key.
pub trait ReadRows<R: Ends> {
    /// What counts the look-ups; `()` where they aren't counted.
    type Count;

    /// The rows, by rising key.
    ghost table: { Self → Table R };

    /// How many rows there are.
    fn count(&self) -> usize
        ensures { result ≡ length (table self.now) };

    /// For the proof: the keys rise. Does nothing when it runs.
    fn proof_rise(&self)
        ensures { IsStrictlySortedBy key_cmp (keys_in (table self.now)) };

    /// Whether there is a row under the key.
    fn has(&self, key: Key, count: &mut Self::Count) -> bool
        ensures { result ≡ has_row (table self.now) key };

    /// The row under the key.
    fn get(&self, key: Key, count: &mut Self::Count) -> Option<R>
        ensures { result ≡ row_at (table self.now) key };

    /// Puts the timers of all rows into a queue that has room for them.
    fn arm_all(&self, queue: &mut Queue, count: &mut Self::Count)
        requires { most_ends R.kinds.1 (length (table self.now)) ≤ queue.old.room }
        ensures armed { AreArmed (ends_in R.kinds R.ends (table self.now)) (holds queue.new) }
        ensures few { length queue.new.dues
            ≤ most_ends R.kinds.1 (length (table self.now)) + length queue.old.dues };
}

/// A table that can be changed.
pub trait WriteRows<R: Ends>: ReadRows<R, Count = ()> {
    /// A table without rows. Takes no memory.
    fn none(alloc: Global) -> Self
        ensures { Self.table result ≡ [] };

    /// Puts the row under the key, replacing one that is there. The error is want of memory, and changes nothing.
    fn insert(&mut self, key: Key, row: R) -> Result<(), AllocError>
        ensures ok { OnOk result (Self.table self.new ≡ put (Self.table self.old) key row) }
        ensures err { OnErr result (Self.table self.new ≡ Self.table self.old) };

    /// Changes the row under the key, if there is one, in its place, and returns the row as it was. A hint may be the
    /// place of the row, so that its key isn't looked up; the result doesn't depend on the hint.
    fn replace<C: Change<R>>(&mut self, hint: Option<usize>, key: Key, change: C) -> Option<R>
        ensures before { result ≡ row_at (Self.table self.old) key }
        ensures changed { Self.table self.new
            ≡ change_row (λ before. Some (C.after change before)) key (Self.table self.old) };

    /// Removes the row under the key, and returns it.
    fn take(&mut self, key: Key) -> Option<R>
        ensures taken { result ≡ row_at (Self.table self.old) key }
        ensures left { Self.table self.new ≡ drop_at (Self.table self.old) key };
}
