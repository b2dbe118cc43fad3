//! Settings and rows where the interfaces have other places.
ghost use Rattle.std.specs.Prelude.{◌≡◌, IfOk, OnOk};
ghost use Rattle.igmp_older.specs.Placed.{goes_to, new_place, old_place, placed, placed_list, placed_rows, put_at, setting_placed};
ghost use Rattle.igmp_older.specs.Quiet.{AreQuiet};

use super::{Presence, first_look};
use crate::mode::PresentRow;
use crate::setting::OlderHosts;
use pim_types::{IfaceId, Key};
use std::alloc::{AllocError, Global};
use std::collections::BTreeMap;

// Whether an old interface goes to this number.
fn goes_to(number: u32, place: Option<u32>) -> bool
    ensures { result ≡ goes_to number place }
{
    match place {
        Some(there) => there == number,
        None => false,
    }
}

// The first old interface that goes to a number.
#[tactic(auto, unfolding(crate::specs::Placed::old_place))]
fn old_place(places: &[Option<u32>], number: u32) -> Option<usize>
    ensures { result ≡ old_place places.now number }
{
    places.iter().position(|place| goes_to(number, *place))
}

// The number to which an old interface goes.
#[tactic(auto, unfolding(crate::specs::Placed::new_place))]
fn new_place(places: &[Option<u32>], iface: IfaceId) -> Option<u32>
    ensures { result ≡ new_place places.now iface.number }
{
    match places.get(iface.number as usize).copied() {
        Some(place) => place,
        None => None,
    }
}

// The setting of a number: that of the old interface that goes there.
#[tactic(auto, unfolding(crate::specs::Placed::setting_placed))]
fn setting_placed<T: Copy>(places: &[Option<u32>], unset: T, settings: &[T], number: u32) -> T
    ensures { result ≡ setting_placed places.now unset settings.now number }
{
    let Some(old) = old_place(places, number) else {
        return unset;
    };
    match settings.get(old).copied() {
        Some(setting) => setting,
        None => unset,
    }
}

/// Settings by the numbers of interfaces, where the old interfaces go to other numbers, by `places`, of so many; one to
/// which none goes is unset. After an `Err`, which is want of memory, they are as they were.
pub fn place_settings<T: Copy>(
    settings: &mut Vec<T>,
    count: u32,
    places: &[Option<u32>],
    unset: T,
) -> Result<(), AllocError>
    ensures { OnOk result (settings.new.items ≡ placed_list count places.now unset settings.old.items) }
{
    let mut placed = Vec::new(*settings.allocator());
    for number in 0..count {
        placed.push(setting_placed(places, unset, settings.as_slice(), number))?;
    }
    *settings = placed;
    Ok(())
}

// The rows where their interfaces go; a row whose interface goes nowhere isn't there.
#[tactic(auto, unfolding(crate::specs::Placed::placed_rows))]
fn placed_rows(
    alloc: Global,
    rows: &BTreeMap<Key, PresentRow, Global>,
    places: &[Option<u32>],
) -> Result<BTreeMap<Key, PresentRow, Global>, AllocError>
    ensures { IfOk result (λ placed. placed.entries ≡ placed_rows places.now rows.now.entries) }
{
    let mut placed = BTreeMap::new(alloc);
    for (key, row) in rows.iter() {
        put_at(&mut placed, *key, *row, new_place(places, key.iface))?;
    }
    Ok(placed)
}

// Puts a row where its interface goes.
fn put_at(
    placed: &mut BTreeMap<Key, PresentRow, Global>,
    key: Key,
    row: PresentRow,
    place: Option<u32>,
) -> Result<(), AllocError>
    ensures { OnOk result (placed.new.entries ≡ put_at placed.old.entries (key, row) place) }
{
    let Some(number) = place else {
        return Ok(());
    };
    let there = Key {
        iface: IfaceId { number },
        group: key.group,
        source: key.source,
        rpt: key.rpt,
    };
    placed.insert(there, row)?;
    Ok(())
}

impl Presence {
    /// The settings and the rows of the old interfaces go where these go, by `places`, of so many; on one to which none
    /// goes nobody is heard, and the rows of one that goes nowhere are forgotten. Later as many rows are kept as the
    /// limit says, or as are left now if these are more. After an `Err`, which is want of memory, only some settings may
    /// be other ones.
    pub fn place(
        &mut self,
        limit: usize,
        count: u32,
        places: &[Option<u32>],
    ) -> Result<(), AllocError>
        ensures { OnOk result (self.new ≡ placed limit count places.now self.old) }
    {
        let rows = placed_rows(*self.hosts.allocator(), &self.rows, places)?;
        place_settings(&mut self.hosts, count, places, OlderHosts::Nobody)?;
        self.limit = limit.max(rows.len());
        self.quiet = first_look(&rows);
        self.rows = rows;
        Ok(())
    }
}
