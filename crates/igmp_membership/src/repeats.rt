//! Repeats of queries, group by group.
ghost use Rattle.std.specs.List.{list_any};
ghost use Rattle.std.specs.List.Sorted.{IsStrictlySortedBy};
ghost use Rattle.std.specs.Prelude.{◌≡◌, [], OnOk, option_map};
ghost use Rattle.pim_model.specs.Clearing.{first_by};
ghost use Rattle.pim_model.specs.Tables.{change_row, drop_at, drop_where, keys_in, row_at, set_row};
ghost use Rattle.pim_model.specs.Timers.{is_ending_first};
ghost use Rattle.pim_tables.specs.Ends.{due_of, row_endings};
ghost use Rattle.pim_types.specs.Keys.{is_on, key_cmp, star_key};
ghost use Rattle.igmp_membership.specs.Sources.{AreStarKind, NameNone};

use pim_ip::Addr;
use pim_tables::{Ends, Timed};
use pim_types::{IfaceId, Key, Timer};
use std::alloc::{AllocError, Global};
use std::collections::btree_map::Iter;
use std::marker::Model;

// The repeats of one kind; each is of a group on an interface, and of no source.
pub(crate) struct Repeats<R: Ends> {
    rows: Timed<R>,
}

// Written out, so that it is proved once (docs/PROOF_NOTES.md, Drops).
impl<R: Ends> Drop for Repeats<R> {
    fn drop(self) {
        let Repeats { rows: _ } = self;
    }
}

impl<R: Ends> Model for Repeats<R> {
    ghost use Rattle.pim_model.specs.Tables.{Table};
    ghost use Rattle.igmp_membership.specs.Sources.{AreStarKind};

    ghost Value = { Table R };

    ghost view = { λ a. a.rows };

    ghost invariant = { λ a. AreStarKind a.rows };
}

impl<R: Ends> Repeats<R> {
    // A table without repeats. Takes no memory.
    pub(crate) fn new(alloc: Global) -> Repeats<R>
        ensures { result ≡ [] }
    {
        Repeats {
            rows: Timed::new(alloc),
        }
    }

    // For the proof: the repeats name no source. Does nothing when it runs.
    pub(crate) fn proof_no_source(&self)
        ensures { NameNone self.now }
    {
        let _ = &self.rows;
    }

    // For the proof: each is under the key of a group. Does nothing when it runs.
    pub(crate) fn proof_kind(&self)
        ensures { AreStarKind self.now }
    {
        let _ = &self.rows;
    }

    // For the proof: the keys rise. Does nothing when it runs.
    pub(crate) fn proof_rising(&self)
        ensures { IsStrictlySortedBy key_cmp (keys_in self.now) }
    {
        self.rows.proof_rising();
    }

    // The repeat under the key.
    pub(crate) fn get(&self, key: Key) -> Option<R>
        ensures { result ≡ row_at self.now key }
    {
        self.rows.get(key)
    }

    // The repeats, by rising key.
    pub(crate) fn iter(&self) -> Iter<'_, Key, R>
        ensures { result ≡ self.now }
    {
        self.rows.rows().iter()
    }

    // Which repeat comes first, and when, in ms.
    pub(crate) fn next(&self) -> Option<(u64, Timer)>
        ensures { result ≡ option_map due_of (first_by is_ending_first (row_endings R.kinds R.ends self.now)) }
    {
        self.rows.next()
    }

    // Sets the repeat for the group on the interface, or removes it. The error is want of memory.
    pub(crate) fn set(
        &mut self,
        iface: IfaceId,
        group: Addr,
        row: Option<R>,
    ) -> Result<(), AllocError>
        ensures { OnOk result (self.new ≡ set_row self.old (star_key iface.number group.bits) row) }
    {
        self.rows.set(Key::star(iface, group), row)
    }

    // Removes the repeat for the group on the interface.
    pub(crate) fn remove(&mut self, iface: IfaceId, group: Addr)
        ensures { self.new ≡ drop_at self.old (star_key iface.number group.bits) }
    {
        self.rows.remove(Key::star(iface, group));
    }

    // Changes the repeat for the group on the interface, if there is one, or removes it. The error is want of memory.
    pub(crate) fn change(
        &mut self,
        iface: IfaceId,
        group: Addr,
        row: Option<R>,
    ) -> Result<(), AllocError>
        ensures { OnOk result (self.new ≡ change_row (λ _. row) (star_key iface.number group.bits) self.old) }
    {
        let key = Key::star(iface, group);
        let Some(row) = row else {
            self.rows.remove(key);
            return Ok(());
        };
        self.rows.change(key, row)
    }

    // Whether a repeat is of the interface.
    pub(crate) fn has_on(&self, iface: IfaceId) -> bool
        ensures { result ≡ list_any (is_on iface.number) (keys_in self.now) }
    {
        self.rows.rows().has_on(iface)
    }

    // Removes the repeats on the interface.
    pub(crate) fn drop_on(&mut self, iface: IfaceId)
        ensures { self.new ≡ drop_where (is_on iface.number) self.old }
    {
        self.rows.drop_on(iface);
    }
}
