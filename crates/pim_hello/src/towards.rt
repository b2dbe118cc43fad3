//! What looks to a neighbour: each group to whose RP it leads, of the other groups the sources to which it leads, and
//! the asserts that the router lost to it.
ghost use Rattle.law_events.specs.Adjacent.{keys_of_end, keys_of_hello, keys_of_neighbour, keys_towards, leads_to, led_keys, led_of_group, may_lead};
ghost use Rattle.pim_model.specs.Unicast.{route, rp_route};
ghost use Rattle.pim_state.specs.Groups.{numbers_of};
ghost use Rattle.pim_types.specs.Keys.{source_key};
ghost use Rattle.std.specs.List.{flat_map};
ghost use Rattle.std.specs.Prelude.{◌≡◌, ◌++◌, IfOk, OnOk, filter, map};

use crate::election::{end_keeps_dr, hello_keeps_dr};
use crate::restarted::asserts_lost_to;
use crate::served::put_keys_of_dr;
use law_events::neighbours::leads_nowhere;
use pim_state::{Meter, Turn, World};
use pim_types::{Addr, Hop, IfaceId, Key, Path, SourceGroup};
use pim_wire::{DEFAULT_HOLDTIME, Hello};
use std::alloc::{AllocError, Global};
use std::collections::BTreeMap;

// Whether the next hop of the path is the neighbour.
fn leads_to(neighbour: Hop, path: Option<Path>) -> bool
    ensures { result ≡ leads_to neighbour.iface.number neighbour.address.bits path }
{
    match path {
        Some(path) => path.iface == neighbour.iface && path.next_hop == neighbour.address,
        None => false,
    }
}

// Whether the neighbour is the next hop to RP(G).
fn is_group_led(world: &World, meter: &mut Meter, neighbour: Hop, group: Addr) -> bool
    ensures { result
        ≡ leads_to neighbour.iface.number neighbour.address.bits (rp_route world.now group.bits) }
{
    let rp = world.rp(group, meter);
    leads_to(neighbour, world.rp_route(group, rp, meter))
}

// Whether the neighbour is the next hop to the source.
fn is_source_led(world: &World, meter: &mut Meter, neighbour: Hop, source: Addr) -> bool
    ensures { result
        ≡ leads_to neighbour.iface.number neighbour.address.bits (route world.now source.bits) }
{
    leads_to(neighbour, world.route(source, meter))
}

// Adds the keys of the sources of a group to which the neighbour is the next hop.
fn put_sources(
    world: &World,
    meter: &mut Meter,
    neighbour: Hop,
    group: Addr,
    sources: &BTreeMap<Addr, (), Global>,
    keys: &mut Vec<Key>,
) -> Result<(), AllocError>
    ensures { OnOk result (keys.new.items ≡ keys.old.items ++ map (source_key 0 group.bits)
        (filter (λ src. leads_to neighbour.iface.number neighbour.address.bits (route world.now src))
        (numbers_of sources.now.entries))) }
{
    for (source, ()) in sources.iter() {
        if is_source_led(world, meter, neighbour, *source) {
            let named = SourceGroup {
                source: *source,
                group,
            };
            keys.push(named.key())?;
        }
    }
    Ok(())
}

// Adds the keys of a group whose upstream neighbour a change of the neighbour moves: all of the group where the
// neighbour is the next hop to RP(G), or else the sources with any fact to which it is the next hop.
fn put_group(
    world: &World,
    alloc: Global,
    meter: &mut Meter,
    neighbour: Hop,
    group: Addr,
    keys: &mut Vec<Key>,
) -> Result<(), AllocError>
    ensures { OnOk result (keys.new.items ≡ keys.old.items
        ++ led_of_group world.now neighbour.iface.number neighbour.address.bits group.bits) }
{
    if is_group_led(world, meter, neighbour, group) {
        keys.push(Key::group(group))?;
        return Ok(());
    }
    let sources = world.sources(alloc, group, meter)?;
    put_sources(world, meter, neighbour, group, &sources, keys)
}

// The keys of what leads to the neighbour, of the given groups.
fn keys_of_groups(
    world: &World,
    alloc: Global,
    meter: &mut Meter,
    neighbour: Hop,
    groups: &BTreeMap<Addr, (), Global>,
) -> Result<Vec<Key>, AllocError>
    ensures { IfOk result (λ keys. keys.items
        ≡ flat_map (led_of_group world.now neighbour.iface.number neighbour.address.bits) (numbers_of groups.now.entries)) }
{
    let mut keys = Vec::new(alloc);
    for (group, ()) in groups.iter() {
        put_group(world, alloc, meter, neighbour, *group, &mut keys)?;
    }
    Ok(keys)
}

// Whether a path may lead to a neighbour with the address: it is a route's next hop, a range's RP, or a source of which
// there is a fact.
#[tactic(auto, unfolding(law_events::specs::Adjacent::may_lead))]
fn may_lead(world: &World, address: Addr, meter: &mut Meter) -> bool
    ensures { result ≡ may_lead world.now address.bits }
{
    world.is_next_hop(address) || world.is_some_rp(address) || world.is_source(address, meter)
}

// The groups to whose RP the path leads over the neighbour, and the sources to which it does. If no path may lead
// there, no group is read.
#[tactic(auto, unfolding(law_events::specs::Adjacent::led_keys))]
fn keys_by_paths(
    world: &World,
    alloc: Global,
    meter: &mut Meter,
    neighbour: Hop,
) -> Result<Vec<Key>, AllocError>
    ensures { IfOk result (λ keys. keys.items
        ≡ led_keys world.now neighbour.iface.number neighbour.address.bits) }
{
    if !may_lead(world, neighbour.address, meter) {
        leads_nowhere();
        return Ok(Vec::new(alloc));
    }
    let groups = world.groups(alloc, meter)?;
    keys_of_groups(world, alloc, meter, neighbour, &groups)
}

// The keys with facts of what depends on the neighbour.
#[tactic(auto, unfolding(law_events::specs::Adjacent::keys_towards))]
fn keys_towards(
    world: &World,
    turn: &Turn,
    meter: &mut Meter,
    neighbour: Hop,
) -> Result<Vec<Key>, AllocError>
    ensures { IfOk result (λ keys. keys.items
        ≡ keys_towards world.now neighbour.iface.number neighbour.address.bits) }
{
    let mut keys = keys_by_paths(world, turn.alloc, meter, neighbour)?;
    let lost = asserts_lost_to(world, turn, neighbour)?;
    keys.extend_from_slice(&lost)?;
    Ok(keys)
}

// The keys of what a Hello moves but for what asks for the DR. For a neighbour that stays they are the asserts that the
// router lost to it, which are removed where it restarted; for one that comes or goes they are all that depends on it.
#[tactic(auto, unfolding(law_events::specs::Adjacent::keys_of_neighbour))]
fn keys_of_neighbour(
    world: &World,
    turn: &Turn,
    meter: &mut Meter,
    iface: IfaceId,
    from: Addr,
    hello: &Hello,
) -> Result<Vec<Key>, AllocError>
    ensures { IfOk result (λ keys. keys.items
        ≡ keys_of_neighbour world.now iface.number from.bits hello.now) }
{
    let neighbour = Hop {
        iface,
        address: from,
    };
    let lasts = hello.holdtime.unwrap_or(DEFAULT_HOLDTIME) != 0;
    if world.neighbours().contains(iface, from) && lasts {
        return asserts_lost_to(world, turn, neighbour);
    }
    keys_towards(world, turn, meter, neighbour)
}

/// The keys of what a Hello moves: what depends on its neighbour, and what asks whether the router is the DR of the
/// interface, where that changes. The meter rises by the nodes visited.
pub fn keys_of_hello(
    world: &World,
    turn: &Turn,
    meter: &mut Meter,
    iface: IfaceId,
    from: Addr,
    hello: &Hello,
) -> Result<Vec<Key>, AllocError>
    ensures { IfOk result (λ keys. keys.items
        ≡ keys_of_hello world.now iface.number from.bits hello.now) }
{
    let mut keys = keys_of_neighbour(world, turn, meter, iface, from, hello)?;
    if hello_keeps_dr(world, iface, from, hello) {
        return Ok(keys);
    }
    put_keys_of_dr(world, turn, meter, iface, &mut keys)?;
    Ok(keys)
}

/// The keys of what the expiry of the neighbour with this key moves: what depends on it, and what asks whether the router
/// is the DR of its interface, where that changes. The meter rises by the nodes visited.
pub fn keys_of_end(
    world: &World,
    turn: &Turn,
    meter: &mut Meter,
    key: Key,
) -> Result<Vec<Key>, AllocError>
    ensures { IfOk result (λ keys. keys.items ≡ keys_of_end world.now key) }
{
    let mut keys = keys_towards(world, turn, meter, key.hop())?;
    if end_keeps_dr(world, key) {
        return Ok(keys);
    }
    put_keys_of_dr(world, turn, meter, key.iface, &mut keys)?;
    Ok(keys)
}
