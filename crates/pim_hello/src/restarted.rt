//! What a neighbour that restarted changes: the asserts lost to it are removed, and the Join timers towards it lowered.
ghost use Rattle.std.specs.Prelude.{◌≡◌, IfOk, OnOk, Some, filter};
ghost use Rattle.pim_model.specs.Hellos.{is_lost_to, upstream_of};
ghost use Rattle.pim_model.specs.Tables.{change_row, keys_in, same_hop};
ghost use Rattle.pim_hello.specs.Towards.{is_towards};
ghost use Rattle.law_settled.specs.Rows.{all_changed};
ghost use Rattle.pim_store.specs.PimTables.{lowered_join_timer};

use pim_macros::desires::is_same_hop;
use pim_macros::upstream_of;
use pim_state::{Meter, Turn, World};
use pim_types::fact::{AssertRole, AssertRow};
use pim_types::{Hop, Key};
use std::alloc::{AllocError, Global};

// The keys of all Join timers, ascending.
fn timer_keys(world: &World, alloc: Global, meter: &mut Meter) -> Result<Vec<Key>, AllocError>
    ensures { IfOk result (λ keys. keys.items ≡ keys_in world.now.join_timers) }
{
    let mut keys = Vec::new(alloc);
    for (key, _) in world.store().join_timer_rows(meter) {
        keys.push(key)?;
    }
    Ok(keys)
}

/// The keys of the Join timers whose upstream neighbour it is. The meter rises by the nodes visited.
pub(crate) fn timers_towards(
    world: &World,
    alloc: Global,
    meter: &mut Meter,
    neighbour: Hop,
) -> Result<Vec<Key>, AllocError>
    ensures { IfOk result (λ keys. keys.items
        ≡ keys_in (filter (λ e. is_towards world.now neighbour e.0) world.now.join_timers)) }
{
    let timers = timer_keys(world, alloc, meter)?;
    let mut keys = Vec::new(alloc);
    for key in timers.as_slice() {
        let upstream = upstream_of(world, *key, meter);
        if is_same_hop(upstream, Some(neighbour)) {
            keys.push(*key)?;
        }
    }
    Ok(keys)
}

// Whether the assert was lost to it.
fn is_lost_to(neighbour: Hop, key: Key, row: AssertRow) -> bool
    ensures { result ≡ is_lost_to neighbour.iface.number neighbour.address.bits (key, row) }
{
    key.iface == neighbour.iface
        && matches!(row.role, AssertRole::Loser)
        && row.winner.address == neighbour.address
}

/// The keys of the asserts that were lost to the neighbour.
pub fn asserts_lost_to(world: &World, turn: &Turn, neighbour: Hop) -> Result<Vec<Key>, AllocError>
    ensures { IfOk result (λ keys. keys.items
        ≡ keys_in (filter (is_lost_to neighbour.iface.number neighbour.address.bits) world.now.asserts)) }
{
    let mut keys = Vec::new(turn.alloc);
    for (key, row) in world.store().assert_rows() {
        if is_lost_to(neighbour, *key, *row) {
            keys.push(*key)?;
        }
    }
    Ok(keys)
}

/// Lowers the Join timers with these keys to a timestamp, in ms. The meter rises by the nodes visited.
pub(crate) fn lower_timers(
    world: &mut World,
    meter: &mut Meter,
    keys: &[Key],
    end: u64,
) -> Result<(), AllocError>
    ensures { OnOk result (world.new
        ≡ record world.old { join_timers = all_changed (lowered_join_timer end) world.old.join_timers keys.now }) }
{
    for key in keys {
        world.store_mut().lower_join_timer(*key, end, meter)?;
    }
    Ok(())
}
