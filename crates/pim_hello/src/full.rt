//! Whether there is room for the neighbour that a Hello names.
ghost use Rattle.std.specs.Prelude.{◌≡◌};
ghost use Rattle.pim_model.specs.Full.{hello_is_full};
ghost use Rattle.pim_model.specs.Hellos.{hello_holdtime_of};

use pim_state::World;
use pim_types::{Addr, IfaceId};
use pim_wire::{DEFAULT_HOLDTIME, Hello};

/// The most neighbours of an interface.
const MOST_NEIGHBOURS: usize = 64;

/// Whether a Hello from an address names a new neighbour for which there is no room, on its interface or in the limit
/// on facts.
#[tactic(auto, unfolding(pim_model::specs::Full::hello_is_full))]
pub fn is_full(world: &World, iface: IfaceId, from: Addr, hello: &Hello) -> bool
    ensures { result ≡ hello_is_full world.now iface.number from.bits (hello_holdtime_of hello.now) }
{
    let holdtime = hello.holdtime.unwrap_or(DEFAULT_HOLDTIME);
    holdtime != 0
        && !world.neighbours().contains(iface, from)
        && (world.neighbours().count_on(iface) >= MOST_NEIGHBOURS || world.passes_limit(1))
}
