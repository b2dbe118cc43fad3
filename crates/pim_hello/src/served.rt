//! What asks whether the router is the DR of an interface: the groups and the sources with a receiver there, and the
//! sources on its link.
ghost use Rattle.law_events.specs.Adjacent.{is_linked, keys_of_dr, linked_of_group, linked_sources, receiver_sources, receiver_stars};
ghost use Rattle.pim_model.specs.Unicast.{route};
ghost use Rattle.pim_state.specs.Groups.{numbers_of};
ghost use Rattle.pim_types.specs.Keys.{source_key};
ghost use Rattle.std.specs.List.{flat_map};
ghost use Rattle.std.specs.Prelude.{◌≡◌, ◌++◌, OnOk, filter, map};

use pim_state::{Meter, Turn, World};
use pim_types::{Addr, IfaceId, Key, Path, SourceGroup};
use std::alloc::{AllocError, Global};
use std::collections::BTreeMap;

// Whether the path leads to a source on the interface's own link.
fn is_linked(iface: IfaceId, path: Option<Path>) -> bool
    ensures { result ≡ is_linked iface.number path }
{
    match path {
        Some(path) => path.is_connected && iface == path.iface,
        None => false,
    }
}

// Puts the groups with a receiver of all their sources on the interface behind other keys.
#[tactic(auto, unfolding(law_events::specs::Adjacent::receiver_stars))]
fn put_stars(world: &World, iface: IfaceId, keys: &mut Vec<Key>) -> Result<(), AllocError>
    ensures { OnOk result (keys.new.items ≡ keys.old.items ++ receiver_stars world.now iface.number) }
{
    for (key, row) in world.membership().group_record_rows() {
        if key.iface == iface && row.end.is_some() {
            keys.push(Key::group(key.group))?;
        }
    }
    Ok(())
}

// Puts the sources with a receiver on the interface behind other keys.
#[tactic(auto, unfolding(law_events::specs::Adjacent::receiver_sources))]
fn put_sources(world: &World, iface: IfaceId, keys: &mut Vec<Key>) -> Result<(), AllocError>
    ensures { OnOk result (keys.new.items ≡ keys.old.items ++ receiver_sources world.now iface.number) }
{
    for (key, _) in world.membership().source_record_rows() {
        if key.iface == iface {
            keys.push(key.name().key())?;
        }
    }
    Ok(())
}

// Adds the keys of the sources of a group that are on the interface's link.
fn put_linked(
    world: &World,
    meter: &mut Meter,
    iface: IfaceId,
    group: Addr,
    sources: &BTreeMap<Addr, (), Global>,
    keys: &mut Vec<Key>,
) -> Result<(), AllocError>
    ensures { OnOk result (keys.new.items ≡ keys.old.items ++ map (source_key 0 group.bits)
        (filter (λ src. is_linked iface.number (route world.now src)) (numbers_of sources.now.entries))) }
{
    for (source, ()) in sources.iter() {
        if is_linked(iface, world.route(*source, meter)) {
            let named = SourceGroup {
                source: *source,
                group,
            };
            keys.push(named.key())?;
        }
    }
    Ok(())
}

// Puts the sources of the group with any fact that are on the interface's link behind other keys.
#[tactic(auto, unfolding(law_events::specs::Adjacent::linked_of_group))]
fn put_linked_of(
    world: &World,
    alloc: Global,
    meter: &mut Meter,
    iface: IfaceId,
    group: Addr,
    keys: &mut Vec<Key>,
) -> Result<(), AllocError>
    ensures { OnOk result (keys.new.items ≡ keys.old.items ++ linked_of_group world.now iface.number group.bits) }
{
    let sources = world.sources(alloc, group, meter)?;
    put_linked(world, meter, iface, group, &sources, keys)
}

// Adds the keys of the sources of the given groups that are on the interface's link.
fn put_linked_of_groups(
    world: &World,
    alloc: Global,
    meter: &mut Meter,
    iface: IfaceId,
    groups: &BTreeMap<Addr, (), Global>,
    keys: &mut Vec<Key>,
) -> Result<(), AllocError>
    ensures { OnOk result (keys.new.items ≡ keys.old.items
        ++ flat_map (linked_of_group world.now iface.number) (numbers_of groups.now.entries)) }
{
    for (group, ()) in groups.iter() {
        put_linked_of(world, alloc, meter, iface, *group, keys)?;
    }
    Ok(())
}

// Puts all sources with any fact that are on the interface's link behind other keys. If none is in its subnet, no group is
// read.
#[tactic(auto, unfolding(law_events::specs::Adjacent::linked_sources))]
fn put_linked_sources(
    world: &World,
    alloc: Global,
    meter: &mut Meter,
    iface: IfaceId,
    keys: &mut Vec<Key>,
) -> Result<(), AllocError>
    ensures { OnOk result (keys.new.items ≡ keys.old.items ++ linked_sources world.now iface.number) }
{
    if !world.has_source_on_subnet(iface, meter) {
        return Ok(());
    }
    let groups = world.groups(alloc, meter)?;
    put_linked_of_groups(world, alloc, meter, iface, &groups, keys)
}

/// Puts the keys of what asks whether the router is the DR of the interface behind other keys. The meter rises by the
/// nodes visited.
#[tactic(auto, unfolding(law_events::specs::Adjacent::keys_of_dr))]
pub(crate) fn put_keys_of_dr(
    world: &World,
    turn: &Turn,
    meter: &mut Meter,
    iface: IfaceId,
    keys: &mut Vec<Key>,
) -> Result<(), AllocError>
    ensures { OnOk result (keys.new.items ≡ keys.old.items ++ keys_of_dr world.now iface.number) }
{
    put_stars(world, iface, keys)?;
    put_sources(world, iface, keys)?;
    put_linked_sources(world, turn.alloc, meter, iface, keys)
}
