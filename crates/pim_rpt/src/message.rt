//! A Join/Prune to an upstream neighbour, when an override of a Prune is due, and whether a change is by an assert.
ghost use Rattle.std.specs.Prelude.{◌≡◌, ◌≤◌, ◌+◌, OnOk, length};
ghost use Rattle.pim_model.specs.Upstream.{if_neighbour, is_due_to_assert, join_prune_to, override_on};
ghost use Rattle.pim_state.specs.Turns.{saying};

use pim_macros::desires::is_same_hop;
use pim_messages::MOST_ENTRIES;
use pim_state::{Turn, World};
use pim_types::{Addr, Hop, IfaceId};
use pim_wire::Entry;
use std::alloc::AllocError;

/// Sends a Join/Prune to a neighbour, where there is one.
#[tactic(auto, unfolding(pim_model::specs::Upstream::join_prune_to))]
pub fn say(
    turn: &mut Turn,
    upstream: Option<Hop>,
    group: Addr,
    joins: &[Entry],
    prunes: &[Entry],
) -> Result<(), AllocError>
    requires { length joins.now + length prunes.now ≤ MOST_ENTRIES }
    ensures { OnOk result (turn.new ≡ saying turn.old (join_prune_to upstream group.bits joins.now prunes.now)) }
{
    match upstream {
        Some(upstream) => turn.out.join_prune(upstream, group, joins, prunes),
        None => Ok(()),
    }
}

/// The upstream neighbour, where it still is a neighbour.
#[tactic(auto, unfolding(pim_model::specs::Upstream::if_neighbour))]
pub fn if_neighbour(world: &World, hop: Option<Hop>) -> Option<Hop>
    ensures { result ≡ if_neighbour world.now hop }
{
    match hop {
        Some(hop) => {
            if world.neighbours().contains(hop.iface, hop.address) {
                Some(hop)
            } else {
                None
            }
        }
        None => None,
    }
}

/// Whether a change of the upstream neighbour is due to an assert: the route and its next hop are as before.
pub fn is_due_to_assert(
    old_iface: Option<IfaceId>,
    new_iface: Option<IfaceId>,
    old_hop: Option<Hop>,
    new_hop: Option<Hop>,
) -> bool
    ensures { result ≡ is_due_to_assert old_iface new_iface old_hop new_hop }
{
    old_iface == new_iface && is_same_hop(old_hop, new_hop)
}

/// t_override on the interface from the present time, in ms.
#[tactic(auto, unfolding(pim_model::specs::Upstream::override_on))]
pub fn override_end(world: &World, draw: u32, iface: Option<IfaceId>) -> u64
    ensures { result ≡ override_on world.now draw iface }
{
    match iface {
        Some(iface) => world.present() + world.override_delay(iface, draw),
        None => world.present() + 1,
    }
}
