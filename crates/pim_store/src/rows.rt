//! A table's rows, changed together with the marks that they set.
ghost use Rattle.std.specs.Prelude.{◌≡◌, ◌&&◌, ℕ, None, Some, IfOk, IsTrue, OnOk, false, true};
ghost use Rattle.pim_model.specs.Tables.{change_row, drop_at, drop_where, has_row, put, row_at, set_row};
ghost use Rattle.pim_types.specs.Keys.{is_on};
ghost use Rattle.pim_store.specs.Said.{IsTold, KeepsOtherMarks, SaysAlike, SetsMarks, is_about, row_says, timers_in};
ghost use Rattle.pim_store.specs.declared.marks.Mark.{Mark as MarkValue};

use crate::index::Index;
use crate::telling::TellsMarks;
use pim_source_trie::Meter;
use pim_tables::{Change, Timed, To, WriteRows};
use pim_types::{IfaceId, Key};
use std::alloc::AllocError;

// Whether both rows set the same marks.
fn says_alike<R: TellsMarks>(key: Key, before: R, row: R) -> bool
    requires { IsTrue (R.fits key) }
    ensures alike { IsTrue result → (x : MarkValue) (i : ℕ) → (R.tells x && is_about x i key) ≡ true
        → row_says R.tells R.says x (Some row) ≡ row_says R.tells R.says x (Some before) }
    ensures all { SaysAlike R.tells R.says row before → result ≡ true }
{
    let (first, second) = R::told(key);
    if row.says(first) != before.says(first) {
        return false;
    }
    match second {
        Some(second) => row.says(second) == before.says(second),
        None => true,
    }
}

// Changes the row under the key in its place, if there is one. The result is whether there is one. The row is looked up
// once, or not at all where the hint is its place; the result doesn't depend on the hint. The error is want of memory.
// The marks are looked up only if the new row sets other marks than the old one.
pub(crate) fn update_row<R: TellsMarks, K: WriteRows<R>, C: Change<R>>(
    rows: &mut Timed<R, K>,
    index: &mut Index,
    hint: Option<usize>,
    key: Key,
    change: C,
    meter: &mut Meter,
) -> Result<bool, AllocError>
    requires fits { IsTrue (R.fits key) }
    requires told { IsTold R.tells R.says R.fits index.old rows.old }
    ensures changed { OnOk result (rows.new ≡ change_row (λ before. Some (C.after change before)) key rows.old) }
    ensures there { IfOk result (λ there. there ≡ has_row rows.old key) }
    ensures told { IsTold R.tells R.says R.fits index.new rows.new }
    ensures others { KeepsOtherMarks R.tells index.old index.new }
    ensures timers { timers_in index.new ≡ timers_in index.old }
    ensures alike { OnOk result ((before : R) → row_at rows.old key ≡ Some before
        → SaysAlike R.tells R.says (C.after change before) before → meter.new ≡ meter.old) }
{
    // For the proof: a key is listed once.
    rows.proof_rising();
    let found = match rows.update(hint, key, change) {
        Ok(found) => found,
        Err(refused) => {
            drop_marked(rows, index, key, meter);
            return Err(refused);
        }
    };
    let Some(before) = found else {
        return Ok(false);
    };
    let row = change.after(before);
    if says_alike(key, before, row) {
        return Ok(true);
    }
    if let Err(refused) = index.mark(key, row, meter) {
        drop_marked(rows, index, key, meter);
        return Err(refused);
    }
    Ok(true)
}

// Puts the row under the key, replacing one that is there. The error is want of memory.
pub(crate) fn put_row<R: TellsMarks, K: WriteRows<R>>(
    rows: &mut Timed<R, K>,
    index: &mut Index,
    key: Key,
    row: R,
    meter: &mut Meter,
) -> Result<(), AllocError>
    requires fits { IsTrue (R.fits key) }
    requires told { IsTold R.tells R.says R.fits index.old rows.old }
    ensures put { OnOk result (rows.new ≡ put rows.old key row) }
    ensures told { IsTold R.tells R.says R.fits index.new rows.new }
    ensures others { KeepsOtherMarks R.tells index.old index.new }
    ensures timers { timers_in index.new ≡ timers_in index.old }
{
    // For the proof: what is put under a key with a row takes the place of that row.
    rows.proof_rising();
    if update_row(rows, index, None, key, To { row }, meter)? {
        return Ok(());
    }
    add_row(rows, index, key, row, meter)
}

// Puts a row under a key that has none. An error is want of memory.
pub(crate) fn add_row<R: TellsMarks, K: WriteRows<R>>(
    rows: &mut Timed<R, K>,
    index: &mut Index,
    key: Key,
    row: R,
    meter: &mut Meter,
) -> Result<(), AllocError>
    requires fits { IsTrue (R.fits key) }
    requires told { IsTold R.tells R.says R.fits index.old rows.old }
    requires absent { row_at rows.old key ≡ None }
    ensures put { OnOk result (rows.new ≡ put rows.old key row) }
    ensures told { IsTold R.tells R.says R.fits index.new rows.new }
    ensures others { KeepsOtherMarks R.tells index.old index.new }
    ensures timers { timers_in index.new ≡ timers_in index.old }
{
    index.mark(key, row, meter)?;
    if let Err(refused) = rows.add(key, row) {
        drop_marked(rows, index, key, meter);
        return Err(refused);
    }
    Ok(())
}

// Removes the row under the key, with the marks that it set.
fn drop_marked<R: TellsMarks, K: WriteRows<R>>(
    rows: &mut Timed<R, K>,
    index: &mut Index,
    key: Key,
    meter: &mut Meter,
)
    requires { IsTrue (R.fits key) }
    ensures removed { rows.new ≡ drop_at rows.old key }
    ensures unmarked { SetsMarks R.tells R.says index.old index.new key None }
    ensures timers { timers_in index.new ≡ timers_in index.old }
{
    rows.remove(key);
    index.unmark::<R>(key, meter);
}

// Removes the row under the key.
pub(crate) fn remove_row<R: TellsMarks, K: WriteRows<R>>(
    rows: &mut Timed<R, K>,
    index: &mut Index,
    key: Key,
    meter: &mut Meter,
)
    requires fits { IsTrue (R.fits key) }
    requires told { IsTold R.tells R.says R.fits index.old rows.old }
    ensures removed { rows.new ≡ drop_at rows.old key }
    ensures told { IsTold R.tells R.says R.fits index.new rows.new }
    ensures others { KeepsOtherMarks R.tells index.old index.new }
    ensures timers { timers_in index.new ≡ timers_in index.old }
{
    drop_marked(rows, index, key, meter);
}

// Puts the row under the key, or removes the one that is there. The error is want of memory.
#[tactic(auto, unfolding(pim_model::specs::Tables::set_row))]
pub(crate) fn set_row<R: TellsMarks, K: WriteRows<R>>(
    rows: &mut Timed<R, K>,
    index: &mut Index,
    key: Key,
    row: Option<R>,
    meter: &mut Meter,
) -> Result<(), AllocError>
    requires fits { IsTrue (R.fits key) }
    requires told { IsTold R.tells R.says R.fits index.old rows.old }
    ensures set { OnOk result (rows.new ≡ set_row rows.old key row) }
    ensures told { IsTold R.tells R.says R.fits index.new rows.new }
    ensures others { KeepsOtherMarks R.tells index.old index.new }
    ensures timers { timers_in index.new ≡ timers_in index.old }
{
    match row {
        Some(row) => put_row(rows, index, key, row, meter),
        None => {
            remove_row(rows, index, key, meter);
            Ok(())
        }
    }
}

// If there is a row under the key, replaces it or removes it. The error is want of memory.
pub(crate) fn change_row<R: TellsMarks, K: WriteRows<R>>(
    rows: &mut Timed<R, K>,
    index: &mut Index,
    key: Key,
    row: Option<R>,
    meter: &mut Meter,
) -> Result<(), AllocError>
    requires { IsTold R.tells R.says R.fits index.old rows.old }
    ensures changed { OnOk result (rows.new ≡ change_row (λ before. row) key rows.old) }
    ensures told { IsTold R.tells R.says R.fits index.new rows.new }
    ensures others { KeepsOtherMarks R.tells index.old index.new }
    ensures timers { timers_in index.new ≡ timers_in index.old }
{
    // For the proof: what is put under a key with a row takes the place of that row.
    rows.proof_rising();
    if !rows.contains(key) {
        return Ok(());
    }
    set_row(rows, index, key, row, meter)
}

// Removes the row under the key, if there is one.
pub(crate) fn drop_row<R: TellsMarks, K: WriteRows<R>>(
    rows: &mut Timed<R, K>,
    index: &mut Index,
    key: Key,
    meter: &mut Meter,
)
    requires { IsTold R.tells R.says R.fits index.old rows.old }
    ensures dropped { rows.new ≡ drop_at rows.old key }
    ensures told { IsTold R.tells R.says R.fits index.new rows.new }
    ensures others { KeepsOtherMarks R.tells index.old index.new }
    ensures timers { timers_in index.new ≡ timers_in index.old }
{
    if rows.contains(key) {
        remove_row(rows, index, key, meter);
    }
}

// Clears the marks that the interface's rows set.
fn unmark_on<R: TellsMarks>(rows: &Timed<R>, index: &mut Index, iface: IfaceId, meter: &mut Meter)
    requires { IsTold R.tells R.says R.fits index.old rows.now }
    ensures told { IsTold R.tells R.says R.fits index.new (drop_where (is_on iface.number) rows.now) }
    ensures others { KeepsOtherMarks R.tells index.old index.new }
    ensures timers { timers_in index.new ≡ timers_in index.old }
{
    for (key, _) in rows.rows().iter() {
        if key.iface == iface {
            index.unmark::<R>(*key, meter);
        }
    }
}

// Removes the interface's rows.
pub(crate) fn drop_rows_on<R: TellsMarks>(
    rows: &mut Timed<R>,
    index: &mut Index,
    iface: IfaceId,
    meter: &mut Meter,
)
    requires { IsTold R.tells R.says R.fits index.old rows.old }
    ensures dropped { rows.new ≡ drop_where (is_on iface.number) rows.old }
    ensures told { IsTold R.tells R.says R.fits index.new rows.new }
    ensures others { KeepsOtherMarks R.tells index.old index.new }
    ensures timers { timers_in index.new ≡ timers_in index.old }
{
    unmark_on(rows, index, iface, meter);
    rows.drop_on(iface);
}
