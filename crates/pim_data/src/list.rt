//! Which list of outgoing interfaces a packet takes (RFC 7761, section 4.2), by the sight of its source.
ghost use Rattle.std.specs.Prelude.{◌≡◌, ◌<◌, IfOk, OnOk, if◌then◌else◌};
ghost use Rattle.pim_model.specs.Sets.{inherited_olist, inherited_olist_rpt, spt_bit};
ghost use Rattle.pim_macros.specs.Sights.{InSource, IsSourceSight};
ghost use Rattle.pim_state.specs.Turns.{saying};
ghost use Rattle.pim_model.specs.Forwarding.{list_chosen, stray, watched};
ghost use Rattle.pim_register.specs.Outgoing.{LeavesOn};

use pim_asserts::data_seen;
use pim_ifset::IfSet;
use pim_macros::SourceSight;
use pim_state::{Meter, Turn, World};
use pim_types::IfaceId;
use std::alloc::AllocError;

// Off the shortest path tree a source that local receivers want is watched, so that the router can move to it.
#[tactic(auto, unfolding(pim_model::specs::Forwarding::watched))]
fn watch(world: &mut World, meter: &mut Meter, sight: &SourceSight) -> Result<(), AllocError>
    requires { IsSourceSight world.old sight.now }
    ensures { OnOk result (world.new ≡ watched world.old sight.now.star.group.bits sight.now.source.bits) }
{
    if !(sight.has_local_receivers() && sight.is_spt_wanted) {
        return Ok(());
    }
    world.keep_alive(sight.name(), None, meter)
}

/// Whether the interface is on the list of the tree that the source comes by: the shortest path tree once it is
/// reached, the shared tree before.
pub fn is_on_list(sight: &SourceSight, iface: IfaceId) -> bool
    requires { iface.number < 120 }
    ensures { InSource sight.now (λ s g src. result
        ≡ (if spt_bit s g src then inherited_olist s g src else inherited_olist_rpt s g src) iface.number) }
{
    if sight.spt {
        sight.inherited_olist().contains(iface)
    } else {
        sight.inherited_olist_rpt().contains(iface)
    }
}

// A packet that came on no tree's interface leaves nowhere. If it came on an interface of the list it calls for an
// assert: of (S,G) if SPTbit(S,G) is set, else of (*,G).
fn take_stray(
    world: &mut World,
    turn: &mut Turn,
    meter: &mut Meter,
    sight: &SourceSight,
    iface: IfaceId,
) -> Result<(), AllocError>
    requires sight { IsSourceSight world.old sight.now }
    requires below { iface.number < 120 }
    ensures state { OnOk result (world.new
        ≡ (stray world.old sight.now.star.group.bits sight.now.source.bits iface.number).state) }
    ensures messages { OnOk result (turn.new
        ≡ saying turn.old (stray world.old sight.now.star.group.bits sight.now.source.bits iface.number).messages) }
{
    if !is_on_list(sight, iface) {
        return Ok(());
    }
    data_seen(world, turn, meter, sight, iface)
}

/// The list on the shortest path tree, on the shared tree, or of neither; with what the packet changes there.
#[tactic(auto, unfolding(pim_model::specs::Forwarding::list_chosen, pim_model::specs::Forwarding::stray))]
pub(crate) fn choose_list(
    world: &mut World,
    turn: &mut Turn,
    meter: &mut Meter,
    sight: &SourceSight,
    iface: IfaceId,
) -> Result<IfSet, AllocError>
    requires sight { IsSourceSight world.old sight.now }
    requires below { iface.number < 120 }
    ensures list { IfOk result (λ list. LeavesOn list
        (list_chosen world.old sight.now.star.group.bits sight.now.source.bits iface.number)) }
    ensures state { OnOk result (world.new
        ≡ (list_chosen world.old sight.now.star.group.bits sight.now.source.bits iface.number).state) }
    ensures messages { OnOk result (turn.new ≡ saying turn.old
        (list_chosen world.old sight.now.star.group.bits sight.now.source.bits iface.number).messages) }
{
    if sight.is_rpf_interface(iface) && sight.spt {
        return Ok(sight.inherited_olist());
    }
    if sight.star.is_rpf_interface(iface) && !sight.spt {
        let list = sight.inherited_olist_rpt().without_tunnel();
        watch(world, meter, sight)?;
        return Ok(list);
    }
    take_stray(world, turn, meter, sight, iface)?;
    Ok(IfSet::new())
}
