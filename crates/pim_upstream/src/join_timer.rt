//! What the expiry of a Join timer changes (RFC 7761, sections 4.5.4 and 4.5.5).
ghost use Rattle.std.specs.Prelude.{◌≡◌, OnOk};
ghost use Rattle.pim_types.specs.declared.timer.TimerKind.{TimerKind};
ghost use Rattle.pim_model.specs.Firing.{fired};
ghost use Rattle.pim_state.specs.Turns.{saying};

use crate::{source, star};
use pim_macros::{SourceSight, StarSight};
use pim_state::{Meter, Turn, World};
use pim_types::fact::JoinTimerRow;
use pim_types::{Key, SourceGroup};
use std::alloc::AllocError;

// Join(*,G) with its prunes, or Join(S,G), to the upstream neighbour.
#[tactic(auto, unfolding(pim_model::specs::Firing::fired, pim_model::specs::Upstream::join_timer_due))]
fn join_again(world: &World, turn: &mut Turn, meter: &mut Meter, key: Key) -> Result<(), AllocError>
    ensures { OnOk result (turn.new ≡ saying turn.old (fired world.now TimerKind.Join key).1) }
{
    let star = StarSight::of(world, key.group, meter);
    match key.source {
        None => star::join(world, turn, meter, &star, star.rp, star.rpf_neighbour()),
        Some(source) => {
            let sight = SourceSight::of(world, star, source, meter);
            let name = SourceGroup {
                source,
                group: key.group,
            };
            source::join(turn, sight.rpf_neighbour(), name)
        }
    }
}

/// What the expiry of a Join timer changes: the Join leaves again, and the timer restarts. The error is want of memory.
/// The meter rises by the nodes visited.
#[tactic(auto, unfolding(pim_model::specs::Firing::fired, pim_model::specs::Upstream::join_timer_due))]
pub fn fired(
    world: &mut World,
    turn: &mut Turn,
    meter: &mut Meter,
    key: Key,
) -> Result<(), AllocError>
    ensures state { OnOk result (world.new ≡ (fired world.old TimerKind.Join key).0) }
    ensures messages { OnOk result (turn.new ≡ saying turn.old (fired world.old TimerKind.Join key).1) }
{
    join_again(world, turn, meter, key)?;
    let end = world.periodic_end();
    world
        .store_mut()
        .change_join_timer(key, JoinTimerRow { end }, meter)
}
