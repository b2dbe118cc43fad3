//! Rows that keep their places, so that one whose place is known is found with no look-up of its key.
ghost use Rattle.std.specs.Prelude.{◌≡◌, ◌≢◌, ℕ, Option, Some, None, OnOk, OnErr, is_some, option_map, true};
ghost use Rattle.std.specs.Iterator.{YieldsFirstBy, item_count};
ghost use Rattle.slab.specs.Slab.{get};
ghost use Rattle.pim_model.specs.Tables.{change_row, drop_at, has_row, put, row_at};
ghost use Rattle.pim_tables.specs.Places.{ArePlaced, key_placed, rows_placed};
ghost use Rattle.pim_tables.specs.RowsOf.{row_seen};
ghost use Rattle.pim_types.specs.declared.fact.Key.{Key as KeyValue};

use crate::change::{Change, To};
use crate::ended::arm_row;
use crate::ends::Ends;
use crate::facts::Facts;
use crate::keeping::{ReadRows, WriteRows};
use pim_timers::Queue;
use pim_types::Key;
use slab::Slab;
use std::alloc::{AllocError, Global};
use std::collections::btree_map::Iter;
use std::iter::FusedIterator;
use std::marker::Model;

/// Rows under their keys. Each keeps a place of its own, with its key, until it is removed.
pub struct Placed<R> {
    places: Facts<usize>,
    rows: Slab<(Key, R)>,
}

// Written out, so that it is proved once (docs/PROOF_NOTES.md, Drops).
impl<R: Drop> Drop for Placed<R> {
    fn drop(self) {
        let Placed { places: _, rows: _ } = self;
    }
}

impl<R> Model for Placed<R> {
    ghost use Rattle.pim_model.specs.Tables.{Table};
    ghost use Rattle.pim_tables.specs.Places.{ArePlaced, rows_placed};
    ghost use Rattle.slab.specs.Slab.{get};

    ghost Value = { Table R };

    ghost view = { λ p. rows_placed (get p.rows) p.places };

    ghost invariant = { λ p. ArePlaced (get p.rows) p.places };
}

// Whether the row under the key is at the place.
fn stands_at<R>(rows: &Slab<(Key, R)>, place: usize, key: Key) -> bool
    ensures { result ≡ true → key_placed (get rows.now) place ≡ Some key }
{
    match rows.get(place) {
        Some((found, _)) => *found == key,
        None => false,
    }
}

// The place of the row under the key: that of the hint where the hint is right.
fn find<R>(
    places: &Facts<usize>,
    rows: &Slab<(Key, R)>,
    hint: Option<usize>,
    key: Key,
) -> Option<usize>
    requires { ArePlaced (get rows.now) places.now }
    ensures { result ≡ row_at places.now key }
{
    match hint {
        Some(place) if stands_at(rows, place, key) => hint,
        _ => places.get(key),
    }
}

// Changes the row at the place, if there is one, and returns the row as it was.
fn change_at<R: Copy, C: Change<R>>(rows: &mut Slab<(Key, R)>, place: usize, change: C) -> Option<R>
    ensures before { result ≡ option_map (λ e. e.1) (get rows.old place) }
    ensures changed { get rows.new place ≡ option_map (λ e. (e.0, C.after change e.1)) (get rows.old place) }
    ensures others { (p : ℕ) → p ≢ place → get rows.new p ≡ get rows.old p }
{
    match rows.get_mut(place) {
        Some(entry) => {
            let (key, before) = *entry;
            *entry = (key, change.after(before));
            Some(before)
        }
        None => None,
    }
}

// Changes the row under the key, if there is one, in its place, and returns the row as it was.
fn replace_placed<R: Copy, C: Change<R>>(
    places: &Facts<usize>,
    rows: &mut Slab<(Key, R)>,
    hint: Option<usize>,
    key: Key,
    change: C,
) -> Option<R>
    requires { ArePlaced (get rows.old) places.now }
    ensures before { result ≡ row_at (rows_placed (get rows.old) places.now) key }
    ensures changed { rows_placed (get rows.new) places.now
        ≡ change_row (λ before. Some (C.after change before)) key (rows_placed (get rows.old) places.now) }
    ensures placed { ArePlaced (get rows.new) places.now }
{
    match find(places, rows, hint, key) {
        Some(place) => change_at(rows, place, change),
        None => None,
    }
}

// Puts a row under a key that has none. The error is want of memory, and changes nothing.
fn add_placed<R: Copy>(
    places: &mut Facts<usize>,
    rows: &mut Slab<(Key, R)>,
    key: Key,
    row: R,
) -> Result<(), AllocError>
    requires placed { ArePlaced (get rows.old) places.old }
    requires absent { row_at places.old key ≡ None }
    ensures ok { OnOk result (rows_placed (get rows.new) places.new ≡ put (rows_placed (get rows.old) places.old) key row) }
    ensures err { OnErr result (rows_placed (get rows.new) places.new ≡ rows_placed (get rows.old) places.old) }
    ensures placed { ArePlaced (get rows.new) places.new }
{
    rows.reserve(1)?;
    let place = rows.vacant_key();
    places.put(key, place)?;
    // For the proof: the keys still rise.
    places.proof_rising();
    rows.insert_reserved((key, row));
    Ok(())
}

// Removes the row under the key, and returns it.
fn take_placed<R: Copy>(places: &mut Facts<usize>, rows: &mut Slab<(Key, R)>, key: Key) -> Option<R>
    requires { ArePlaced (get rows.old) places.old }
    ensures taken { result ≡ row_at (rows_placed (get rows.old) places.old) key }
    ensures left { rows_placed (get rows.new) places.new ≡ drop_at (rows_placed (get rows.old) places.old) key }
    ensures placed { ArePlaced (get rows.new) places.new }
{
    match places.pull(key) {
        Some(place) => {
            // For the proof: the keys still rise.
            places.proof_rising();
            match rows.try_remove(place) {
                Some(entry) => Some(entry.1),
                None => None,
            }
        }
        None => None,
    }
}

impl<R> Placed<R> {
    /// The place of the row under the key, if there is one. It is valid as long as the row is there. A call that
    /// changes a row takes it as a hint, so that no result depends on it.
    pub fn place(&self, key: Key) -> Option<usize>
        ensures { is_some result ≡ has_row self.now key }
    {
        self.places.get(key)
    }

    /// The rows, by rising key.
    pub fn iter(&self) -> PlacedRows<'_, R>
        ensures { result ≡ self.now }
    {
        PlacedRows {
            places: self.places.iter(),
            rows: &self.rows,
        }
    }
}

impl<R: Ends> ReadRows<R> for Placed<R> {
    type Count = ();

    ghost table = { λ p. p };

    fn count(&self) -> usize {
        self.places.len()
    }

    fn proof_rise(&self) {
        let _ = &self.places;
    }

    fn has(&self, key: Key, _count: &mut ()) -> bool {
        self.places.contains(key)
    }

    fn get(&self, key: Key, _count: &mut ()) -> Option<R> {
        let place = self.places.get(key)?;
        let (_, row) = self.rows.get(place)?;
        Some(*row)
    }

    fn arm_all(&self, queue: &mut Queue, _count: &mut ()) {
        for (key, row) in self.iter() {
            arm_row(queue, *key, *row);
        }
    }
}

impl<R: Ends> WriteRows<R> for Placed<R> {
    fn none(alloc: Global) -> Self {
        Placed {
            places: Facts::new(alloc),
            rows: Slab::new(alloc),
        }
    }

    fn insert(&mut self, key: Key, row: R) -> Result<(), AllocError> {
        if self.places.contains(key) {
            replace_placed(&self.places, &mut self.rows, None, key, To { row });
            return Ok(());
        }
        add_placed(&mut self.places, &mut self.rows, key, row)
    }

    fn replace<C: Change<R>>(&mut self, hint: Option<usize>, key: Key, change: C) -> Option<R> {
        replace_placed(&self.places, &mut self.rows, hint, key, change)
    }

    fn take(&mut self, key: Key) -> Option<R> {
        take_placed(&mut self.places, &mut self.rows, key)
    }
}

/// The remaining rows, by rising key.
pub struct PlacedRows<'a, R> {
    places: Iter<'a, Key, usize>,
    rows: &'a Slab<(Key, R)>,
}

// Written out, so that it is proved once (docs/PROOF_NOTES.md, Drops).
impl<'a, R> Drop for PlacedRows<'a, R> {
    fn drop(self) {
        let PlacedRows { places: _, rows: _ } = self;
    }
}

impl<'a, R> Model for PlacedRows<'a, R> {
    ghost use Rattle.pim_model.specs.Tables.{Table};
    ghost use Rattle.pim_tables.specs.Places.{rows_placed};
    ghost use Rattle.slab.specs.Slab.{get};

    ghost Value = { Table R };

    ghost view = { λ w. rows_placed (get w.rows.now) w.places };
}

impl<'a, R> Iterator for PlacedRows<'a, R> {
    type Item = (&'a Key, &'a R);

    ghost next_gives = { YieldsFirstBy row_seen (λ rest. rest) };

    ghost remaining = { item_count (λ rest. rest) };

    fn next(&mut self) -> Option<(&'a Key, &'a R)> {
        while let Some((_, place)) = self.places.next() {
            if let Some((key, row)) = self.rows.get(*place) {
                return Some((key, row));
            }
        }
        None
    }
}

impl<'a, R> FusedIterator for PlacedRows<'a, R> {}
