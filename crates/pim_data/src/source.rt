//! What a packet changes of its source (RFC 7761, sections 4.2 and 4.2.2). Each step takes the sight of the source,
//! which is true of the state before it, and then of the state after it.
ghost use Rattle.std.specs.Prelude.{◌≡◌, ◌<◌, OnOk};
ghost use Rattle.pim_macros.specs.Sights.{IsSourceSight};
ghost use Rattle.pim_model.specs.Forwarding.{source_here, source_joined, spt_updated};
ghost use Rattle.pim_model.specs.Registers.{with_keepalive};

use pim_macros::SourceSight;
use pim_register::settle_register;
use pim_state::{Meter, World};
use pim_types::IfaceId;
use std::alloc::AllocError;

// Starts KAT(S,G) for its whole period.
fn keep_alive(
    world: &mut World,
    meter: &mut Meter,
    sight: &mut SourceSight,
) -> Result<(), AllocError>
    requires { IsSourceSight world.old sight.old }
    ensures state { OnOk result (world.new
        ≡ with_keepalive world.old sight.old.star.group.bits sight.old.source.bits) }
    ensures sight { OnOk result (IsSourceSight world.new sight.new) }
    ensures group { OnOk result (sight.new.star.group ≡ sight.old.star.group) }
    ensures source { OnOk result (sight.new.source ≡ sight.old.source) }
{
    world.keep_alive(sight.name(), None, meter)?;
    *sight = sight.kept_alive();
    Ok(())
}

/// A source on a link of the router's own is kept alive, and registered at once where it can be.
#[tactic(auto, unfolding(pim_model::specs::Forwarding::source_here))]
pub(crate) fn source_here(
    world: &mut World,
    meter: &mut Meter,
    sight: &mut SourceSight,
    iface: IfaceId,
) -> Result<(), AllocError>
    requires { IsSourceSight world.old sight.old }
    ensures state { OnOk result (world.new
        ≡ source_here world.old sight.old.star.group.bits sight.old.source.bits iface.number) }
    ensures sight { OnOk result (IsSourceSight world.new sight.new) }
    ensures group { OnOk result (sight.new.star.group ≡ sight.old.star.group) }
    ensures source { OnOk result (sight.new.source ≡ sight.old.source) }
{
    if !(sight.is_connected() && sight.is_rpf_interface(iface)) {
        return Ok(());
    }
    keep_alive(world, meter, sight)?;
    settle_register(world, meter, sight)
}

/// A source that is joined, and forwarded from here, is kept alive.
#[tactic(auto, unfolding(pim_model::specs::Forwarding::source_joined))]
pub(crate) fn source_joined(
    world: &mut World,
    meter: &mut Meter,
    sight: &mut SourceSight,
    iface: IfaceId,
) -> Result<(), AllocError>
    requires { IsSourceSight world.old sight.old }
    ensures state { OnOk result (world.new
        ≡ source_joined world.old sight.old.star.group.bits sight.old.source.bits iface.number) }
    ensures sight { OnOk result (IsSourceSight world.new sight.new) }
    ensures group { OnOk result (sight.new.star.group ≡ sight.old.star.group) }
    ensures source { OnOk result (sight.new.source ≡ sight.old.source) }
{
    let is_forwarded = sight.is_rpf_interface(iface)
        && sight.join_desired()
        && !sight.is_inherited_empty();
    if !is_forwarded {
        return Ok(());
    }
    keep_alive(world, meter, sight)
}

/// Update_SPTbit(S,G,iif).
#[tactic(auto, unfolding(pim_model::specs::Forwarding::spt_updated))]
pub(crate) fn update_spt_bit(
    world: &mut World,
    meter: &mut Meter,
    sight: &mut SourceSight,
    iface: IfaceId,
) -> Result<(), AllocError>
    requires sight { IsSourceSight world.old sight.old }
    requires below { iface.number < 120 }
    ensures state { OnOk result (world.new
        ≡ spt_updated world.old sight.old.star.group.bits sight.old.source.bits iface.number) }
    ensures sight { OnOk result (IsSourceSight world.new sight.new) }
    ensures group { OnOk result (sight.new.star.group ≡ sight.old.star.group) }
    ensures source { OnOk result (sight.new.source ≡ sight.old.source) }
{
    if !sight.is_spt_reached(iface) {
        return Ok(());
    }
    world.set_spt_bit(sight.name(), meter)?;
    *sight = sight.with_spt_bit();
    Ok(())
}
