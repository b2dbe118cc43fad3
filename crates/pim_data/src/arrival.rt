//! A data packet that came.
ghost use Rattle.std.specs.Prelude.{◌≡◌, ◌<◌, IfOk, OnOk};
ghost use Rattle.pim_macros.specs.Sights.{IsSourceSight};
ghost use Rattle.pim_state.specs.Turns.{saying};
ghost use Rattle.pim_model.specs.Forwarding.{forwarded};
ghost use Rattle.pim_register.specs.Outgoing.{LeavesOn};

use crate::list::choose_list;
use crate::source::{source_here, source_joined, update_spt_bit};
use pim_ifset::IfSet;
use pim_macros::SourceSight;
use pim_state::{Meter, Turn, World};
use pim_types::IfaceId;
use std::alloc::AllocError;

/// Takes a data packet of a source and a group that came on an interface below 120. The sight is what their macros
/// read, and is kept up to date by what the packet changes. A directly connected source is kept alive and registered,
/// one that is joined is kept alive, the SPTbit is set where the shortest path tree is reached, and a packet that came
/// on no tree's interface calls for an assert. The result is the interfaces on which the packet leaves, without the one
/// on which it came. The meter rises by the nodes visited. The error is want of memory.
#[tactic(auto, unfolding(pim_model::specs::Forwarding::forwarded))]
pub fn arrived(
    world: &mut World,
    turn: &mut Turn,
    meter: &mut Meter,
    iface: IfaceId,
    sight: SourceSight,
) -> Result<IfSet, AllocError>
    requires below { iface.number < 120 }
    requires sight { IsSourceSight world.old sight }
    ensures list { IfOk result (λ list. LeavesOn list
        (forwarded world.old sight.star.group.bits sight.source.bits iface.number)) }
    ensures state { OnOk result (world.new
        ≡ (forwarded world.old sight.star.group.bits sight.source.bits iface.number).state) }
    ensures messages { OnOk result (turn.new
        ≡ saying turn.old (forwarded world.old sight.star.group.bits sight.source.bits iface.number).messages) }
{
    let mut sight = sight;
    source_here(world, meter, &mut sight, iface)?;
    source_joined(world, meter, &mut sight, iface)?;
    update_spt_bit(world, meter, &mut sight, iface)?;
    let mut list = choose_list(world, turn, meter, &sight, iface)?;
    list.remove(iface);
    Ok(list)
}
