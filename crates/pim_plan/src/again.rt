//! Which events repeat what the router knows: they change no more than when a running timer expires, so they touch
//! nothing.
ghost use Rattle.std.specs.Prelude.{◌≡◌, ◌<◌, ◌&&◌, IfOk, filter, if◌then◌else◌, not};
ghost use Rattle.pim_macros.specs.Sights.{InSource, IsSourceSight};
ghost use Rattle.pim_model.specs.Asserts.{theirs_of};
ghost use Rattle.pim_model.specs.Rows.{same_metric};
ghost use Rattle.pim_model.specs.Sets.{is_kept_alive, spt_bit};
ghost use Rattle.pim_model.specs.Tables.{has_row, row_at};
ghost use Rattle.pim_types.specs.Keys.{is_star, source_key, star_key};
ghost use Rattle.pim_plan.specs.Repeats.{asserted_key, asserts_anew, is_assert_known, is_direct, is_lost_to_metric, is_unmoved, is_watched, is_won_against, moved_asserts, moves_at_most_the_keepalive_end};

use pim_data::is_on_list;
use pim_macros::SourceSight;
use pim_macros::asserts::{is_better, is_infinite};
use pim_state::World;
use pim_types::fact::{AssertMetric, AssertRole, AssertRow};
use pim_types::{Addr, IfaceId, Key, Series, SourceGroup};
use pim_wire::Assert;
use std::alloc::{AllocError, Global};

// ---- an Assert

// The key of the assert machine that an Assert is for first.
fn asserted_key(iface: IfaceId, assert: &Assert) -> Key
    ensures { result ≡ asserted_key iface.number assert.now }
{
    if assert.source == Addr::NONE {
        Key::star(iface, assert.group)
    } else {
        Key::source(iface, assert.group, assert.source)
    }
}

// Whether two assert metrics are the same, with their addresses.
fn is_same_metric(first: AssertMetric, second: AssertMetric) -> bool
    ensures { result ≡ same_metric first second }
{
    first.rpt == second.rpt
        && first.preference == second.preference
        && first.metric == second.metric
        && first.address == second.address
}

// Whether the assert is one that the router lost to this metric.
#[tactic(auto, unfolding(crate::specs::Repeats::is_lost_to_metric))]
fn is_lost_to_metric(row: Option<AssertRow>, theirs: AssertMetric) -> bool
    ensures { result ≡ is_lost_to_metric row theirs }
{
    match row {
        Some(row) => matches!(row.role, AssertRole::Loser) && is_same_metric(row.winner, theirs),
        None => false,
    }
}

// Whether the assert is one that the router won, with a metric that this one isn't better than.
#[tactic(auto, unfolding(crate::specs::Repeats::is_won_against))]
fn is_won_against(row: Option<AssertRow>, theirs: AssertMetric) -> bool
    ensures { result ≡ is_won_against row theirs }
{
    match row {
        Some(row) => matches!(row.role, AssertRole::Winner) && !is_better(theirs, row.winner),
        None => false,
    }
}

// Whether the metric repeats that of the winner that the router lost to, and isn't infinite, or the router is the winner
// and stays it.
#[tactic(auto, unfolding(crate::specs::Repeats::is_unmoved))]
fn is_unmoved(row: Option<AssertRow>, theirs: AssertMetric) -> bool
    ensures { result ≡ is_unmoved row theirs }
{
    (is_lost_to_metric(row, theirs) && !is_infinite(theirs)) || is_won_against(row, theirs)
}

// The metric that a router announces.
fn metric_of(from: Addr, assert: &Assert) -> AssertMetric
    ensures { result ≡ theirs_of assert.now from.bits }
{
    AssertMetric {
        rpt: assert.rpt,
        preference: assert.preference,
        metric: assert.metric,
        address: from,
    }
}

/// Whether an Assert repeats the metric of the winner that the router lost to, and isn't an AssertCancel, or is one by
/// which the router stays the winner that it is.
#[tactic(auto, unfolding(crate::specs::Repeats::is_assert_known))]
pub(crate) fn is_assert_known(world: &World, iface: IfaceId, from: Addr, assert: &Assert) -> bool
    ensures { result ≡ is_assert_known world.now iface.number from.bits assert.now }
{
    is_unmoved(
        world.store().assert_at(asserted_key(iface, assert)),
        metric_of(from, assert),
    )
}

// Whether the key is of (*,G), whose machine the metric doesn't move.
fn is_unmoved_star(world: &World, key: Key, theirs: AssertMetric) -> bool
    ensures { result ≡ (is_star key && is_unmoved (row_at world.now.asserts key) theirs) }
{
    key.source.is_none() && is_unmoved(world.store().assert_at(key), theirs)
}

// Those of the keys whose machines the metric may move: not (*,G) where that stays as it is.
fn moved_among(
    world: &World,
    alloc: Global,
    keys: &[Key],
    theirs: AssertMetric,
) -> Result<Series<Key>, AllocError>
    ensures { IfOk result (λ found. found
        ≡ filter (λ k. not (is_star k && is_unmoved (row_at world.now.asserts k) theirs)) keys.now) }
{
    let mut found = Vec::new(alloc);
    for key in keys {
        if !is_unmoved_star(world, *key, theirs) {
            found.push(*key)?;
        }
    }
    Ok(Series::from_vec(found))
}

/// The keys that an Assert names of machines that it may move.
#[tactic(auto, unfolding(crate::specs::Repeats::moved_asserts))]
pub(crate) fn moved_asserts(
    world: &World,
    alloc: Global,
    iface: IfaceId,
    from: Addr,
    assert: &Assert,
) -> Result<Series<Key>, AllocError>
    ensures { IfOk result (λ keys. keys ≡ moved_asserts world.now iface.number from.bits assert.now) }
{
    let named = pim_asserts::named_keys(alloc, iface, assert)?;
    moved_among(world, alloc, named.as_slice(), metric_of(from, assert))
}

// ---- a packet of data, or a Register

/// Whether the keepalive timer of the source runs.
#[tactic(auto, unfolding(pim_model::specs::Sets::is_kept_alive))]
pub(crate) fn is_kept_alive(world: &World, name: SourceGroup) -> bool
    ensures { result ≡ is_kept_alive world.now name.group.bits name.source.bits }
{
    match world.store().source(name.key()) {
        Some(row) => row.keepalive.is_some(),
        None => false,
    }
}

/// Whether the packet comes on RPF_interface(S), where S is connected or JoinDesired(S,G) holds.
#[tactic(auto, unfolding(crate::specs::Repeats::is_direct))]
pub(crate) fn is_direct(world: &World, sight: &SourceSight, iface: IfaceId) -> bool
    requires { IsSourceSight world.now sight.now }
    ensures { result ≡ is_direct world.now sight.now.star.group.bits sight.now.source.bits iface.number }
{
    sight.is_rpf_interface(iface) && (sight.is_connected() || sight.join_desired())
}

// Whether the source has local receivers, and the router is to switch to shortest path trees.
#[tactic(auto, unfolding(crate::specs::Repeats::is_watched))]
fn is_watched(world: &World, sight: &SourceSight) -> bool
    requires { IsSourceSight world.now sight.now }
    ensures { result ≡ is_watched world.now sight.now.star.group.bits sight.now.source.bits }
{
    sight.has_local_receivers() && sight.is_spt_wanted
}

// The key of the assert that a packet off its tree may make: of (S,G) where the shortest path tree is reached, else of
// (*,G).
fn stray_key(sight: &SourceSight, iface: IfaceId) -> Key
    ensures { InSource sight.now (λ s g src. result
        ≡ (if spt_bit s g src then source_key iface.number g src else star_key iface.number g)) }
{
    if sight.spt {
        Key::source(iface, sight.star.group, sight.source)
    } else {
        Key::star(iface, sight.star.group)
    }
}

// Whether there is an assert under the key.
#[tactic(auto, unfolding(pim_model::specs::Tables::has_row))]
fn has_assert(world: &World, key: Key) -> bool
    ensures { result ≡ has_row world.now.asserts key }
{
    world.store().assert_at(key).is_some()
}

// Whether the router forwards to the interface on which the packet came, and has no assert there.
#[tactic(auto, unfolding(crate::specs::Repeats::asserts_anew))]
fn asserts_anew(world: &World, sight: &SourceSight, iface: IfaceId) -> bool
    requires sight { IsSourceSight world.now sight.now }
    requires below { iface.number < 120 }
    ensures { result ≡ asserts_anew world.now sight.now.star.group.bits sight.now.source.bits iface.number }
{
    is_on_list(sight, iface) && !has_assert(world, stray_key(sight, iface))
}

/// Whether a packet that came on the interface changes at most when the keepalive timer of its source expires.
#[tactic(auto, unfolding(crate::specs::Repeats::moves_at_most_the_keepalive_end))]
pub(crate) fn moves_at_most_the_keepalive_end(
    world: &World,
    sight: &SourceSight,
    iface: IfaceId,
) -> bool
    requires sight { IsSourceSight world.now sight.now }
    requires below { iface.number < 120 }
    ensures { result ≡ moves_at_most_the_keepalive_end world.now sight.now.star.group.bits sight.now.source.bits iface.number }
{
    if is_direct(world, sight, iface) {
        return sight.is_kept_alive && sight.spt;
    }
    if sight.star.is_rpf_interface(iface) && !sight.spt {
        return sight.is_kept_alive || !is_watched(world, sight);
    }
    !asserts_anew(world, sight, iface)
}
