//! The facts of one kind under their keys, in an ordered map.
ghost use Rattle.std.specs.Prelude.{◌≡◌, ◌==◌, ◌++◌, ◌↔◌, ◌&&◌, [], filter, length, IsTrue, IfSome, OnOk, OnErr, Option, Some, None};
ghost use Rattle.std.specs.List.{list_any};
ghost use Rattle.std.specs.List.Sorted.{IsStrictlySortedBy};
ghost use Rattle.pim_model.specs.Tables.{keys_in, row_at, has_row, put, drop_at, drop_where, set_row, change_row, rows_on};
ghost use Rattle.pim_types.specs.Keys.{group_in, is_of_group, key_cmp, is_on};
ghost use Rattle.pim_model.specs.Records.{is_at_group};
ghost use Rattle.pim_tables.specs.RowsOf.{first_key};

use crate::change::Change;
use crate::ended::arm_row;
use crate::ends::Ends;
use crate::keeping::{ReadRows, WriteRows};
use crate::rows_of::RowsOf;
use pim_ip::Addr;
use pim_timers::Queue;
use pim_types::{IfaceId, Key};
use std::alloc::{AllocError, Global};
use std::collections::btree_map::Iter;
use std::collections::{BTreeMap, BTreeSet};
use std::marker::Model;

/// The facts of one kind.
#[derive(Drop)]
pub struct Facts<R> {
    pub(crate) rows: BTreeMap<Key, R, Global>,
}

impl<R> Model for Facts<R> {
    ghost use Rattle.std.specs.List.Sorted.{IsStrictlySortedBy};
    ghost use Rattle.pim_model.specs.Tables.{Table, keys_in};
    ghost use Rattle.pim_types.specs.Keys.{key_cmp};

    ghost Value = { Table R };

    ghost view = { λ f. f.rows.entries };

    ghost invariant = { λ f. IsStrictlySortedBy key_cmp (keys_in f.rows.entries) };
}

impl<R> Facts<R> {
    /// A table without facts. Takes no memory.
    pub fn new(alloc: Global) -> Self
        ensures { result ≡ [] }
    {
        Facts {
            rows: BTreeMap::new(alloc),
        }
    }

    /// How many facts there are.
    pub fn len(&self) -> usize
        ensures count { result ≡ length self.now }

        // This holds of every table: the keys rise.
        ensures ascending { IsStrictlySortedBy key_cmp (keys_in self.now) }
    {
        self.rows.len()
    }

    /// For the proof: the keys rise. Does nothing when it runs.
    pub fn proof_rising(&self)
        ensures { IsStrictlySortedBy key_cmp (keys_in self.now) }
    {
        let _ = &self.rows;
    }

    /// Whether there is no fact.
    pub fn is_empty(&self) -> bool
        ensures { IsTrue result ↔ (self.now ≡ []) }
    {
        self.rows.is_empty()
    }

    /// Whether there is a fact under the key.
    pub fn contains(&self, key: Key) -> bool
        ensures { result ≡ has_row self.now key }
    {
        self.rows.contains_key(&key)
    }

    /// The facts, by rising key.
    pub fn iter(&self) -> Iter<'_, Key, R>
        ensures { result ≡ self.now }
    {
        self.rows.iter()
    }

    /// Adds the keys of the (S,G,rpt) facts of the group on the interface at the end of the list, by rising key. Of other
    /// facts only the next one is read.
    pub fn push_rpt_keys_at(
        &self,
        iface: IfaceId,
        group: Addr,
        keys: &mut Vec<Key>,
    ) -> Result<(), AllocError>
        ensures { OnOk result (keys.new.items ≡ keys.old.items
            ++ filter (λ k. is_on iface.number k && k.rpt && is_of_group group.bits k) (keys_in self.now)) }
    {
        for (key, _) in self.rows_at(iface, group) {
            if key.rpt {
                keys.push(*key)?;
            }
        }
        Ok(())
    }

    /// Adds the keys of the (S,G,rpt) facts of the given groups on an interface at the end of the list, by rising key.
    /// Of other groups only one fact after each of the given ones is read.
    pub fn push_rpt_keys(
        &self,
        iface: IfaceId,
        groups: &BTreeSet<Addr>,
        keys: &mut Vec<Key>,
    ) -> Result<(), AllocError>
        ensures { OnOk result (keys.new.items ≡ keys.old.items
            ++ filter (λ k. is_on iface.number k && k.rpt && list_any (λ a. group_in k == a.bits) groups.now.keys)
            (keys_in self.now)) }
    {
        self.proof_rising();
        // For the proof: the groups rise.
        let _ = groups.len();
        for group in groups {
            self.push_rpt_keys_at(iface, *group, keys)?;
        }
        Ok(())
    }

    /// The facts of the interface, by rising key.
    pub fn rows_on(&self, iface: IfaceId) -> RowsOf<'_, R>
        ensures { result ≡ rows_on iface.number self.now }
    {
        RowsOf::among(&self.rows, iface, None)
    }

    /// The facts of the group on the interface, by rising key. Of other facts only the next one is read.
    pub fn rows_at(&self, iface: IfaceId, group: Addr) -> RowsOf<'_, R>
        ensures { result ≡ filter (λ e. is_at_group iface.number group.bits e.0) self.now }
    {
        RowsOf::among(&self.rows, iface, Some(group))
    }
}

impl<R: Copy> Facts<R> {
    /// The fact under the key.
    pub fn get(&self, key: Key) -> Option<R>
        ensures { result ≡ row_at self.now key }
    {
        self.rows.get(&key).copied()
    }

    /// Puts the fact under the key, replacing one that is there. Memory is needed only where there was none. The error
    /// is want of memory.
    pub fn put(&mut self, key: Key, row: R) -> Result<(), AllocError>
        ensures ok { OnOk result (self.new ≡ put self.old key row) }
        ensures absent { OnErr result (row_at self.old key ≡ None) }
        ensures err { OnErr result (self.new ≡ self.old) }
    {
        self.rows.insert(key, row)?;
        Ok(())
    }

    /// Removes the fact under the key.
    pub fn remove(&mut self, key: Key)
        ensures { self.new ≡ drop_at self.old key }
    {
        self.rows.remove(&key);
    }

    // Removes the fact under the key, and returns it.
    pub(crate) fn pull(&mut self, key: Key) -> Option<R>
        ensures taken { result ≡ row_at self.old key }
        ensures left { self.new ≡ drop_at self.old key }
    {
        self.rows.remove(&key)
    }

    /// Puts the fact under the key, or removes the one that is there. The error is want of memory.
    pub fn set(&mut self, key: Key, row: Option<R>) -> Result<(), AllocError>
        ensures ok { OnOk result (self.new ≡ set_row self.old key row) }
        ensures err { OnErr result (self.new ≡ self.old) }
    {
        match row {
            Some(row) => self.put(key, row),
            None => {
                self.remove(key);
                Ok(())
            }
        }
    }

    /// Replaces the fact under the key, if there is one.
    pub fn change(&mut self, key: Key, row: R)
        ensures to { self.new ≡ change_row (λ _. Some row) key self.old }
        ensures by { (change : R → Option R) → IfSome (row_at self.old key) (λ before. change before ≡ Some row)
            → self.new ≡ change_row change key self.old }
    {
        if let Some(place) = self.rows.get_mut(&key) {
            *place = row;
        }
    }

    /// How many facts are of the interface. One fact of the others is read.
    pub fn count_on(&self, iface: IfaceId) -> usize
        ensures { result ≡ length (rows_on iface.number self.now) }
    {
        // For the proof: the count fits.
        let _ = self.len();
        let mut count = 0;
        for _row in self.rows_on(iface) {
            count += 1;
        }
        count
    }

    /// Whether a fact is of the interface.
    #[tactic(auto, using(crate::proofs::Counting::first_is_any))]
    pub fn has_on(&self, iface: IfaceId) -> bool
        ensures { result ≡ list_any (is_on iface.number) (keys_in self.now) }
    {
        self.first_on(iface).is_some()
    }

    // The key of the interface's first fact.
    fn first_on(&self, iface: IfaceId) -> Option<Key>
        ensures { result ≡ first_key (rows_on iface.number self.now) }
    {
        let (key, _) = self.rows_on(iface).next()?;
        Some(*key)
    }

    /// Removes the facts of the interface. One fact of the others is read.
    pub fn drop_on(&mut self, iface: IfaceId)
        ensures { self.new ≡ drop_where (is_on iface.number) self.old }
    {
        while let Some(first) = self.first_on(iface) {
            self.remove(first);
        }
    }
}

impl<R: Ends> ReadRows<R> for Facts<R> {
    type Count = ();

    ghost table = { λ f. f };

    fn count(&self) -> usize {
        self.len()
    }

    fn proof_rise(&self) {
        self.proof_rising();
    }

    fn has(&self, key: Key, _count: &mut ()) -> bool {
        self.contains(key)
    }

    fn get(&self, key: Key, _count: &mut ()) -> Option<R> {
        self.get(key)
    }

    fn arm_all(&self, queue: &mut Queue, _count: &mut ()) {
        for (key, row) in self.rows.iter() {
            arm_row(queue, *key, *row);
        }
    }
}

impl<R: Ends> WriteRows<R> for Facts<R> {
    fn none(alloc: Global) -> Self {
        Facts::new(alloc)
    }

    fn insert(&mut self, key: Key, row: R) -> Result<(), AllocError> {
        self.put(key, row)
    }

    fn replace<C: Change<R>>(&mut self, _hint: Option<usize>, key: Key, change: C) -> Option<R> {
        match self.rows.get_mut(&key) {
            Some(place) => {
                let before = *place;
                *place = change.after(before);
                Some(before)
            }
            None => None,
        }
    }

    fn take(&mut self, key: Key) -> Option<R> {
        self.pull(key)
    }
}
