//! What the expiry of an override timer changes (RFC 7761, section 4.5.7).
ghost use Rattle.std.specs.Prelude.{◌≡◌, OnOk};
ghost use Rattle.pim_types.specs.declared.timer.TimerKind.{TimerKind};
ghost use Rattle.pim_model.specs.Desires.{rpf_rpt};
ghost use Rattle.pim_model.specs.Firing.{fired};
ghost use Rattle.pim_state.specs.Turns.{saying};

use crate::machine::entry;
use crate::message::say;
use pim_macros::SourceSight;
use pim_state::{Meter, Turn, World};
use pim_types::{Hop, Key, SourceGroup};
use std::alloc::AllocError;

// RPF'(S,G,rpt).
fn rpf_rpt(world: &World, meter: &mut Meter, name: SourceGroup) -> Option<Hop>
    ensures { result ≡ rpf_rpt world.now name.group.bits name.source.bits }
{
    let sight = SourceSight::with_star(world, name, meter);
    sight.rpf_neighbour_rpt()
}

/// What the expiry of an override timer changes: it is removed, and a Join(S,G,rpt) overrides the Prune of another
/// router. The error is want of memory. The meter rises by the nodes visited.
#[tactic(auto, unfolding(pim_model::specs::Firing::fired, pim_model::specs::Upstream::override_timer_due))]
pub fn fired(
    world: &mut World,
    turn: &mut Turn,
    meter: &mut Meter,
    key: Key,
) -> Result<(), AllocError>
    ensures state { OnOk result (world.new ≡ (fired world.old TimerKind.Override key).0) }
    ensures messages { OnOk result (turn.new ≡ saying turn.old (fired world.old TimerKind.Override key).1) }
{
    let name = key.name();
    let upstream = rpf_rpt(world, meter, name);
    say(turn, upstream, name.group, &[entry(name.source)], &[])?;
    world.store_mut().drop_override_timer(key, meter);
    Ok(())
}
