//! Whether a Hello, or the expiry of a neighbour, leaves unchanged whether the router is the DR of the interface (RFC
//! 7761, section 4.3.2).
ghost use Rattle.law_events.specs.Adjacent.{end_keeps_dr, hello_keeps_dr};
ghost use Rattle.pim_hello.specs.Election.{is_dr_with, is_other, is_unranked, some_other};
ghost use Rattle.pim_model.specs.Neighbours.{is_better_dr};
ghost use Rattle.pim_model.specs.State.{my_address, my_priority};
ghost use Rattle.pim_types.specs.Keys.{same_key};
ghost use Rattle.std.specs.Prelude.{◌≡◌, ◌||◌, None, Some, is_none, not};

use pim_neighbours::{is_better_dr, row_of_hello};
use pim_state::World;
use pim_types::fact::NeighbourRow;
use pim_types::{Addr, IfaceId, InterfaceConfig, Key};
use pim_wire::Hello;

// What is configured of the interface.
fn own(world: &World, iface: IfaceId) -> InterfaceConfig
    ensures address { result.address.bits ≡ my_address world.now iface.number }
    ensures priority { result.priority ≡ my_priority world.now iface.number }
{
    world
        .interfaces()
        .config(iface)
        .unwrap_or(InterfaceConfig::UNCONFIGURED)
}

// Whether both are the same key.
#[tactic(auto, unfolding(pim_types::specs::Keys::key_cmp, pim_types::specs::Keys::addr_cmp))]
fn is_same(first: Key, second: Key) -> bool
    ensures { result ≡ same_key first second }
{
    first.cmp(&second).is_eq()
}

// Whether a neighbour is another one than that with the key, and announced no priority.
fn is_other_unranked(key: Key, other: Key, row: NeighbourRow) -> bool
    ensures { result ≡ is_other key is_unranked (other, row) }
{
    !is_same(key, other) && row.priority.is_none()
}

// Whether a neighbour is another one than that with the key, and comes before the router in the election of the DR.
fn is_other_better(
    by_priority: bool,
    own: &InterfaceConfig,
    key: Key,
    other: Key,
    row: NeighbourRow,
) -> bool
    ensures { result ≡ is_other key (is_better_dr by_priority own.now.priority own.now.address.bits) (other, row) }
{
    !is_same(key, other) && is_better_dr(by_priority, own, &other, &row)
}

// Whether another neighbour on the interface of the key announced no priority.
fn some_other_unranked(world: &World, key: Key) -> bool
    ensures { result ≡ some_other key is_unranked world.now.neighbours }
{
    for (other, row) in world.neighbours().iter_on(key.iface) {
        if is_other_unranked(key, *other, *row) {
            return true;
        }
    }
    false
}

// Whether a neighbour other than that with the key comes before the router in the election of the DR.
fn some_other_better(world: &World, by_priority: bool, own: &InterfaceConfig, key: Key) -> bool
    ensures { result ≡ some_other key (is_better_dr by_priority own.now.priority own.now.address.bits)
        world.now.neighbours }
{
    for (other, row) in world.neighbours().iter_on(key.iface) {
        if is_other_better(by_priority, own, key, *other, *row) {
            return true;
        }
    }
    false
}

// Whether the router is the DR where no neighbour has the key.
fn is_dr_if_gone(world: &World, key: Key) -> bool
    ensures { result ≡ is_dr_with world.now key None }
{
    // For the proof: the keys of neighbours rise.
    let _ = world.neighbours().len();
    let own = own(world, key.iface);
    let by_priority = !some_other_unranked(world, key);
    !some_other_better(world, by_priority, &own, key)
}

// Whether each neighbour on the interface announced its priority, where the neighbour with the key has this row.
fn all_are_ranked(world: &World, key: Key, row: NeighbourRow) -> bool
    ensures { result ≡ not (is_none row.priority || some_other key is_unranked world.now.neighbours) }
{
    !(row.priority.is_none() || some_other_unranked(world, key))
}

// Whether the neighbour with the key, or another one, comes before the router in the election of the DR.
fn some_are_better(
    world: &World,
    by_priority: bool,
    own: &InterfaceConfig,
    key: Key,
    row: NeighbourRow,
) -> bool
    ensures { result ≡ (is_better_dr by_priority own.now.priority own.now.address.bits (key, row)
        || some_other key (is_better_dr by_priority own.now.priority own.now.address.bits) world.now.neighbours) }
{
    is_better_dr(by_priority, own, &key, &row) || some_other_better(world, by_priority, own, key)
}

// Whether the router is the DR where the neighbour with the key has this row.
fn is_dr_beside(world: &World, key: Key, row: NeighbourRow) -> bool
    ensures { result ≡ is_dr_with world.now key (Some row) }
{
    // For the proof: the keys of neighbours rise.
    let _ = world.neighbours().len();
    let own = own(world, key.iface);
    let by_priority = all_are_ranked(world, key, row);
    !some_are_better(world, by_priority, &own, key, row)
}

// Whether the router is the DR where the neighbour with the key has this row, or isn't one.
fn is_dr_with(world: &World, key: Key, row: Option<NeighbourRow>) -> bool
    ensures { result ≡ is_dr_with world.now key row }
{
    match row {
        Some(row) => is_dr_beside(world, key, row),
        None => is_dr_if_gone(world, key),
    }
}

/// Whether a Hello from the address leaves unchanged whether the router is the DR of the interface.
#[tactic(auto, unfolding(law_events::specs::Adjacent::hello_keeps_dr, pim_model::specs::Hellos::neighbour_replaced, pim_model::specs::Hellos::neighbours_replaced, pim_model::specs::Neighbours::is_dr))]
pub fn hello_keeps_dr(world: &World, iface: IfaceId, from: Addr, hello: &Hello) -> bool
    ensures { result ≡ hello_keeps_dr world.now iface.number from.bits hello.now }
{
    let key = Key::neighbour(iface, from);
    let after = is_dr_with(world, key, row_of_hello(world.present(), hello));
    if world.is_dr(iface) { after } else { !after }
}

/// Whether the expiry of the neighbour with this key leaves unchanged whether the router is the DR of its interface.
#[tactic(auto, unfolding(law_events::specs::Adjacent::end_keeps_dr, pim_model::specs::Hellos::neighbour_due, pim_model::specs::Neighbours::is_dr, pim_model::specs::Tables::set_row))]
pub fn end_keeps_dr(world: &World, key: Key) -> bool
    ensures { result ≡ end_keeps_dr world.now key }
{
    let after = is_dr_if_gone(world, key);
    if world.is_dr(key.iface) {
        after
    } else {
        !after
    }
}
