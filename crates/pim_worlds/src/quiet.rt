//! Whether nothing follows of the facts of a world: no assert (RFC 7761, sections 4.6.1 and 4.6.2) and no SPTbit (4.5.5)
//! must go, and all registers are settled (4.4.1).
ghost use Rattle.law_events.specs.Locality.{is_register_settled};
ghost use Rattle.pim_macros.specs.Sights.{IsSourceSight, IsStarSight};
ghost use Rattle.pim_model.specs.Clearing.{assert_must_go, spt_must_go};
ghost use Rattle.pim_model.specs.Desires.{join_desired};
ghost use Rattle.pim_model.specs.Neighbours.{is_neighbour};
ghost use Rattle.pim_model.specs.Sets.{is_better};
ghost use Rattle.pim_types.specs.Keys.{iface_in, key_of};
ghost use Rattle.pim_worlds.specs.Resuming.{is_quiet};
ghost use Rattle.std.specs.List.{list_all};
ghost use Rattle.std.specs.Prelude.{◌≡◌, ◌<◌, ◌||◌, None, Some, false, nat_lt, not, true};

use pim_macros::asserts::is_better;
use pim_macros::{SourceSight, StarSight};
use pim_state::{Meter, World};
use pim_tables::PlacedRows;
use pim_types::fact::{AssertMetric, AssertRole, AssertRow, RegisterRow, SourceRow};
use pim_types::{IfaceId, Key, SourceGroup};
use std::collections::btree_map::Iter;

// Whether an assert lost to this winner must go, by AssertTrackingDesired and my_assert_metric.
fn loss_goes(
    world: &World,
    iface: IfaceId,
    winner: AssertMetric,
    is_tracked: bool,
    metric: AssertMetric,
) -> bool
    ensures { result ≡ (not (is_neighbour world.now iface.number winner.address.bits) || not is_tracked
        || is_better metric winner) }
{
    !world.neighbours().contains(iface, winner.address) || !is_tracked || is_better(metric, winner)
}

// Whether an assert of (*,G) on the interface must go.
#[tactic(auto, using(crate::proofs::Unmoved::goes_unmoved), unfolding(pim_model::specs::Clearing::assert_must_go))]
fn star_goes(world: &World, star: &StarSight, iface: IfaceId, row: AssertRow) -> bool
    requires sight { IsStarSight world.now star.now }
    requires below { iface.number < 120 }
    ensures { result ≡ assert_must_go world.now world.now (key_of iface.number star.now.group.bits None false, row) }
{
    match row.role {
        AssertRole::Winner => !star.could_assert().contains(iface),
        AssertRole::Loser => {
            let is_tracked = star.tracking_desired().contains(iface);
            let metric = star.my_metric(iface, world.address(iface));
            loss_goes(world, iface, row.winner, is_tracked, metric)
        }
    }
}

// Whether an assert of (S,G) on the interface must go.
#[tactic(auto, using(crate::proofs::Unmoved::goes_unmoved), unfolding(pim_model::specs::Clearing::assert_must_go))]
fn source_goes(world: &World, sight: &SourceSight, iface: IfaceId, row: AssertRow) -> bool
    requires sight { IsSourceSight world.now sight.now }
    requires below { iface.number < 120 }
    ensures { result ≡ assert_must_go world.now world.now
        (key_of iface.number sight.now.star.group.bits (Some sight.now.source.bits) false, row) }
{
    match row.role {
        AssertRole::Winner => !sight.could_assert().contains(iface),
        AssertRole::Loser => {
            let is_tracked = sight.tracking_desired().contains(iface);
            let metric = sight.my_metric(iface, world.address(iface));
            loss_goes(world, iface, row.winner, is_tracked, metric)
        }
    }
}

// Whether the assert must go.
#[tactic(auto, unfolding(pim_model::specs::Clearing::assert_must_go))]
fn assert_goes(world: &World, key: Key, row: AssertRow, meter: &mut Meter) -> bool
    requires { nat_lt (iface_in key) 120 ≡ true }
    ensures { result ≡ assert_must_go world.now world.now (key, row) }
{
    let star = StarSight::of(world, key.group, meter);
    match key.source {
        None => star_goes(world, &star, key.iface, row),
        Some(source) => {
            let sight = SourceSight::of(world, star, source, meter);
            source_goes(world, &sight, key.iface, row)
        }
    }
}

// Whether no assert must go.
fn are_asserts_kept(world: &World, rows: Iter<'_, Key, AssertRow>, meter: &mut Meter) -> bool
    requires { list_all (λ e. nat_lt (iface_in e.0) 120) rows ≡ true }
    ensures { result ≡ list_all (λ e. not (assert_must_go world.now world.now e)) rows.entry }
{
    for (key, row) in rows {
        if assert_goes(world, *key, *row, meter) {
            return false;
        }
    }
    true
}

// JoinDesired(S,G).
fn is_joined(world: &World, name: SourceGroup, meter: &mut Meter) -> bool
    ensures { result ≡ join_desired world.now name.group.bits name.source.bits }
{
    SourceSight::with_star(world, name, meter).join_desired()
}

// Whether no SPTbit must go.
fn are_bits_kept(world: &World, rows: PlacedRows<'_, SourceRow>, meter: &mut Meter) -> bool
    ensures { result ≡ list_all (λ e. not (spt_must_go world.now e)) rows.entry }
{
    for (key, row) in rows {
        if row.spt && !is_joined(world, key.name(), meter) {
            return false;
        }
    }
    true
}

// Whether the source of the key has a register exactly where CouldRegister(S,G) holds.
#[tactic(auto, unfolding(pim_model::specs::Tables::has_row))]
fn is_register_settled(world: &World, key: Key, meter: &mut Meter) -> bool
    ensures { result ≡ is_register_settled world.now key }
{
    let is_registered = world.store().register(key).is_some();
    let sight = SourceSight::with_star(world, key.name(), meter);
    if sight.could_register() {
        is_registered
    } else {
        !is_registered
    }
}

// Whether the register of each source with a fact is settled.
fn are_sources_settled(world: &World, rows: PlacedRows<'_, SourceRow>, meter: &mut Meter) -> bool
    ensures { result ≡ list_all (λ e. is_register_settled world.now e.0) rows.entry }
{
    for (key, _) in rows {
        if !is_register_settled(world, *key, meter) {
            return false;
        }
    }
    true
}

// Whether each register is settled.
fn are_registers_settled(world: &World, rows: Iter<'_, Key, RegisterRow>, meter: &mut Meter) -> bool
    ensures { result ≡ list_all (λ e. is_register_settled world.now e.0) rows.entry }
{
    for (key, _) in rows {
        if !is_register_settled(world, *key, meter) {
            return false;
        }
    }
    true
}

/// Whether no assert and no SPTbit must go, and all registers are settled. The meter rises by the nodes visited.
pub fn is_quiet(world: &World, meter: &mut Meter) -> bool
    ensures { result ≡ is_quiet world.now }
{
    let store = world.store();
    if !are_asserts_kept(world, store.assert_rows(), meter) {
        return false;
    }
    if !are_bits_kept(world, store.source_rows(), meter) {
        return false;
    }
    if !are_sources_settled(world, store.source_rows(), meter) {
        return false;
    }
    if !are_registers_settled(world, store.register_rows(), meter) {
        return false;
    }
    true
}
