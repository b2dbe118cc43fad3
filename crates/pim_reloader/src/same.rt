//! Whether another configuration differs from the present one in nothing but its settings.
ghost use Rattle.pim_reloader.specs.Same.{DifferInSettings};
ghost use Rattle.std.specs.Prelude.{◌≡◌, ◌↔◌, IsTrue};

use pim_state::World;
use pim_types::{Addr, InterfaceConfig};

// Whether they are the same interface.
fn is_same_interface(first: InterfaceConfig, second: InterfaceConfig) -> bool
    ensures { IsTrue result ↔ (first ≡ second) }
{
    first.address == second.address
        && first.length == second.length
        && first.priority == second.priority
        && first.propagation_delay == second.propagation_delay
        && first.override_interval == second.override_interval
}

// Whether both lists have the same interfaces, in the same order.
fn are_same_interfaces(first: &[InterfaceConfig], second: &[InterfaceConfig]) -> bool
    ensures { IsTrue result ↔ (first.now ≡ second.now) }
{
    if first.len() != second.len() {
        return false;
    }
    for index in 0..first.len() {
        if !is_same_interface(first[index], second[index]) {
            return false;
        }
    }
    true
}

// Whether both lists have the same addresses, in the same order.
fn are_same_addresses(first: &[Addr], second: &[Addr]) -> bool
    ensures { IsTrue result ↔ (first.now ≡ second.now) }
{
    if first.len() != second.len() {
        return false;
    }
    for index in 0..first.len() {
        if first[index] != second[index] {
            return false;
        }
    }
    true
}

/// Whether the configuration of the next world has the interfaces, the own addresses, the routes and the RP ranges of the
/// present one, each in their order.
pub(crate) fn differ_in_settings(world: &World, next: &World) -> bool
    ensures { IsTrue result ↔ DifferInSettings world.now next.now }
{
    let (before, after) = (world.interfaces(), next.interfaces());
    are_same_interfaces(before.configured(), after.configured())
        && are_same_addresses(before.addresses(), after.addresses())
        && world.has_routes(next.routes())
        && world.has_static_ranges(next.static_ranges())
}
