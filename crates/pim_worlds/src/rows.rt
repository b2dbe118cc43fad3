//! Rows at other places, and rows as lists.
ghost use Rattle.law_states.specs.Placing.{placed_key, placed};
ghost use Rattle.std.specs.Prelude.{◌≡◌, IfOk};

use crate::numbers::number_at;
use pim_store::JoinTimerRows;
use pim_tables::{Facts, PlacedRows};
use pim_types::fact::{JoinTimerRow, SourceRow};
use pim_types::{IfaceId, Key};
use std::alloc::{AllocError, Global};
use std::collections::btree_map::Iter;

/// The values of a slice.
pub(crate) fn copied<T: Copy>(alloc: Global, values: &[T]) -> Result<Vec<T>, AllocError>
    ensures { IfOk result (λ list. list.items ≡ values.now) }
{
    let mut list = Vec::new(alloc);
    list.extend_from_slice(values)?;
    Ok(list)
}

// The key of a fact whose interface goes to another place.
fn placed_key(places: &[u32], key: Key) -> Key
    ensures { result ≡ placed_key places.now key }
{
    let iface = IfaceId {
        number: number_at(places, key.iface.number),
    };
    Key { iface, ..key }
}

// The rows, each at its interface's place.
fn placed<R: Copy>(
    alloc: Global,
    places: &[u32],
    rows: Iter<'_, Key, R>,
) -> Result<Facts<R>, AllocError>
    ensures { IfOk result (λ table. table ≡ placed places.now rows.entry) }
{
    let mut table = Facts::new(alloc);
    for (key, row) in rows {
        table.put(placed_key(places, *key), *row)?;
    }
    Ok(table)
}

/// The rows as a list.
pub(crate) fn listed<R: Copy>(
    alloc: Global,
    rows: Iter<'_, Key, R>,
) -> Result<Vec<(Key, R)>, AllocError>
    ensures { IfOk result (λ list. list.items ≡ rows.entry) }
{
    let mut list = Vec::new(alloc);
    for (key, row) in rows {
        list.push((*key, *row))?;
    }
    Ok(list)
}

/// The rows, each at its interface's place, as a list by rising key.
pub(crate) fn listed_at<R: Copy>(
    alloc: Global,
    places: &[u32],
    rows: Iter<'_, Key, R>,
) -> Result<Vec<(Key, R)>, AllocError>
    ensures { IfOk result (λ list. list.items ≡ placed places.now rows.entry) }
{
    let table = placed(alloc, places, rows)?;
    listed(alloc, table.iter())
}

/// The Join timers as a list.
pub(crate) fn listed_timers(
    alloc: Global,
    rows: JoinTimerRows<'_>,
) -> Result<Vec<(Key, JoinTimerRow)>, AllocError>
    ensures { IfOk result (λ list. list.items ≡ rows.entry) }
{
    let mut list = Vec::new(alloc);
    for row in rows {
        list.push(row)?;
    }
    Ok(list)
}

/// The sources as a list.
pub(crate) fn listed_sources(
    alloc: Global,
    rows: PlacedRows<'_, SourceRow>,
) -> Result<Vec<(Key, SourceRow)>, AllocError>
    ensures { IfOk result (λ list. list.items ≡ rows.entry) }
{
    let mut list = Vec::new(alloc);
    for (key, row) in rows {
        list.push((*key, *row))?;
    }
    Ok(list)
}
