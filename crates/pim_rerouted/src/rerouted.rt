//! Which keys new routes, or new RP ranges, touch: those of the groups and sources with facts that they move. The new
//! routes or ranges stand in the table that was made to test them, and each address is looked up once in the present
//! table and once in the new one.
ghost use Rattle.law_events.specs.Moved.{keys_by_routes, keys_by_rps, moved_of_group};
ghost use Rattle.law_events.specs.Named.{has_same_rp};
ghost use Rattle.pim_model.specs.Step.{rps_replaced};
ghost use Rattle.pim_model.specs.Unicast.{route};
ghost use Rattle.pim_rerouted.specs.Between.{Follows};
ghost use Rattle.pim_rerouted.specs.OtherRoutes.{has_other_route, group_has_other_rp, with_routes};
ghost use Rattle.pim_state.specs.Groups.{numbers_of};
ghost use Rattle.pim_state.specs.declared.touched.Touched.{Touched as TouchedValue};
ghost use Rattle.pim_types.specs.Keys.{source_key, star_key};
ghost use Rattle.std.specs.List.{flat_map};
ghost use Rattle.std.specs.Prelude.{◌≡◌, ◌++◌, IfOk, OnOk, filter, map, not};

use crate::changed::NextRoutes;
use pim_fanout::{is_same_address, is_same_path};
use pim_mrib::Mrib;
use pim_state::{Meter, Touched, World};
use pim_types::{Addr, Key, Series, SourceGroup};
use std::alloc::{AllocError, Global};
use std::collections::BTreeMap;

/// Whether the address has another route in the other table.
#[tactic(auto, unfolding(pim_model::specs::Unicast::route))]
pub fn has_other_route(world: &World, meter: &mut Meter, next: &Mrib, address: Addr) -> bool
    ensures { result ≡ has_other_route world.now (with_routes world.now next.now.routes) address.bits }
{
    let before = world.route(address, meter);
    let after = next.route(world.interfaces(), address, meter);
    !is_same_path(before, after)
}

/// Whether the RP of the group has another route in the other table.
pub fn is_group_moved(world: &World, meter: &mut Meter, next: &Mrib, group: Addr) -> bool
    ensures { result ≡ not (has_same_rp group.bits world.now (with_routes world.now next.now.routes)) }
{
    match world.rp(group, meter) {
        Some(rp) => has_other_route(world, meter, next, rp),
        None => false,
    }
}

/// Whether the group has another RP by the other ranges.
#[tactic(auto, unfolding(pim_model::specs::Unicast::rp_of, pim_model::specs::Step::rps_replaced))]
pub fn group_has_other_rp(world: &World, meter: &mut Meter, next: &Mrib, group: Addr) -> bool
    ensures { result ≡ group_has_other_rp world.now (rps_replaced world.now next.now.ranges) group.bits }
{
    let before = world.rp(group, meter);
    let after = next.rp(group, meter);
    !is_same_address(before, after)
}

// Whether the address has another route in the next table.
#[tactic(auto, using(crate::proofs::Between::not_moved))]
fn is_moved(world: &World, meter: &mut Meter, next: &NextRoutes<'_>, address: Addr) -> bool
    requires { Follows world.now next.now }
    ensures { result ≡ has_other_route world.now (with_routes world.now next.now.table.now.routes) address.bits }
{
    if next.leave(address) {
        return false;
    }
    has_other_route(world, meter, next.table, address)
}

// Whether the RP of the group has another route in the next table.
fn is_rp_moved(world: &World, meter: &mut Meter, next: &NextRoutes<'_>, group: Addr) -> bool
    requires { Follows world.now next.now }
    ensures { result ≡ not (has_same_rp group.bits world.now (with_routes world.now next.now.table.now.routes)) }
{
    match world.rp(group, meter) {
        Some(rp) => is_moved(world, meter, next, rp),
        None => false,
    }
}

// Adds the keys of those sources of a group that have another route.
fn put_sources(
    world: &World,
    meter: &mut Meter,
    next: &NextRoutes<'_>,
    group: Addr,
    sources: &BTreeMap<Addr, (), Global>,
    keys: &mut Vec<Key>,
) -> Result<(), AllocError>
    requires { Follows world.now next.now }
    ensures { OnOk result (keys.new.items ≡ keys.old.items ++ map (source_key 0 group.bits)
        (filter (has_other_route world.now (with_routes world.now next.now.table.now.routes)) (numbers_of sources.now.entries))) }
{
    for (source, ()) in sources.iter() {
        if is_moved(world, meter, next, *source) {
            let name = SourceGroup {
                source: *source,
                group,
            };
            keys.push(name.key())?;
        }
    }
    Ok(())
}

// Adds the keys of what the new routes move of a group: all of the group where its RP has another route, else each
// source with any fact that has another route.
fn put_group(
    world: &World,
    alloc: Global,
    meter: &mut Meter,
    next: &NextRoutes<'_>,
    group: Addr,
    keys: &mut Vec<Key>,
) -> Result<(), AllocError>
    requires { Follows world.now next.now }
    ensures { OnOk result (keys.new.items ≡ keys.old.items
        ++ moved_of_group world.now (with_routes world.now next.now.table.now.routes) group.bits) }
{
    if is_rp_moved(world, meter, next, group) {
        keys.push(Key::group(group))?;
        return Ok(());
    }
    let sources = world.sources(alloc, group, meter)?;
    put_sources(world, meter, next, group, &sources, keys)
}

// The keys of what the new routes move of the given groups.
fn keys_of_groups(
    world: &World,
    alloc: Global,
    meter: &mut Meter,
    next: &NextRoutes<'_>,
    groups: &BTreeMap<Addr, (), Global>,
) -> Result<Series<Key>, AllocError>
    requires { Follows world.now next.now }
    ensures { IfOk result (λ keys. keys
        ≡ flat_map (moved_of_group world.now (with_routes world.now next.now.table.now.routes)) (numbers_of groups.now.entries)) }
{
    let mut keys = Vec::new(alloc);
    for (group, ()) in groups.iter() {
        put_group(world, alloc, meter, next, *group, &mut keys)?;
    }
    Ok(Series::from_vec(keys))
}

// The keys of those of the given groups that have another RP by the new ranges.
fn keys_with_other_rp(
    world: &World,
    alloc: Global,
    meter: &mut Meter,
    next: &Mrib,
    groups: &BTreeMap<Addr, (), Global>,
) -> Result<Series<Key>, AllocError>
    ensures { IfOk result (λ keys. keys ≡ map (star_key 0)
        (filter (group_has_other_rp world.now (rps_replaced world.now next.now.ranges)) (numbers_of groups.now.entries))) }
{
    let mut keys = Vec::new(alloc);
    for (group, ()) in groups.iter() {
        if group_has_other_rp(world, meter, next, *group) {
            keys.push(Key::group(*group))?;
        }
    }
    Ok(Series::from_vec(keys))
}

/// What the routes of the next table touch: the groups with any fact whose RP has another route, and of the other
/// groups the sources with any fact that have another route. The meter rises by the nodes that the look-ups visit, at
/// least those of the RP of each group.
pub fn touched_by_routes(
    world: &World,
    alloc: Global,
    meter: &mut Meter,
    next: &Mrib,
) -> Result<Touched, AllocError>
    ensures { IfOk result (λ touched. touched
        ≡ TouchedValue.Keys (keys_by_routes world.now (with_routes world.now next.now.routes))) }
{
    let groups = world.groups(alloc, meter)?;
    let next = NextRoutes::of(world.routes(), next);
    Ok(Touched::Keys(keys_of_groups(world, alloc, meter, &next, &groups)?))
}

/// What the RP ranges of the next table touch: the groups with any fact that have another RP. The meter rises by the
/// nodes of the RPs of each group.
pub fn touched_by_rps(
    world: &World,
    alloc: Global,
    meter: &mut Meter,
    next: &Mrib,
) -> Result<Touched, AllocError>
    ensures { IfOk result (λ touched. touched
        ≡ TouchedValue.Keys (keys_by_rps world.now (rps_replaced world.now next.now.ranges))) }
{
    let groups = world.groups(alloc, meter)?;
    Ok(Touched::Keys(keys_with_other_rp(world, alloc, meter, next, &groups)?))
}
