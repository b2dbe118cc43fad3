//! What the expiry of an assert timer changes (RFC 7761, sections 4.6.1 and 4.6.2).
ghost use Rattle.std.specs.Prelude.{◌≡◌, ◌<◌, ◌^◌, OnOk};
ghost use Rattle.pim_types.specs.declared.timer.TimerKind.{TimerKind};
ghost use Rattle.pim_model.specs.Asserts.{asserted_metric, wins_again};
ghost use Rattle.pim_model.specs.Firing.{fired};
ghost use Rattle.pim_state.specs.Turns.{saying};

use pim_macros::{SourceSight, StarSight};
use pim_state::{Meter, Turn, World};
use pim_types::Key;
use pim_types::fact::{AssertMetric, AssertRole, AssertRow};
use std::alloc::AllocError;

/// Assert_Time less Assert_Override_Interval (RFC 7761, section 4.11), in ms.
pub(crate) const WINNER_TIME: u64 = 177_000;

/// The metric with which the machine of the key asserts, by its sight.
pub(crate) fn asserted_metric(world: &World, meter: &mut Meter, key: Key) -> AssertMetric
    ensures metric { result ≡ asserted_metric world.now key }
    ensures within { result.preference < 2 ^ 31 }
{
    let star = StarSight::of(world, key.group, meter);
    match key.source {
        None => star.metric(world.address(key.iface)),
        Some(source) => {
            let sight = SourceSight::of(world, star, source, meter);
            sight.metric(world.address(key.iface))
        }
    }
}

/// The assert timer of a winner expires: it asserts again (RFC 7761, sections 4.6.1 and 4.6.2).
#[tactic(auto, unfolding(pim_model::specs::Asserts::wins_again, pim_model::specs::Asserts::assert_message))]
pub(crate) fn win_again(
    world: &mut World,
    turn: &mut Turn,
    meter: &mut Meter,
    key: Key,
    row: AssertRow,
) -> Result<(), AllocError>
    ensures state { OnOk result (world.new ≡ (wins_again world.old key row).0) }
    ensures messages { OnOk result (turn.new ≡ saying turn.old (wins_again world.old key row).1) }
{
    let metric = asserted_metric(world, meter, key);
    turn.out.assert(key.iface, key.group, key.source, metric)?;
    let end = world.present() + WINNER_TIME;
    world
        .store_mut()
        .change_assert(key, AssertRow { end, ..row }, meter)
}

/// What the expiry of an assert timer changes: a winner sends its Assert again, and a loser forgets the assert. The
/// meter rises by the nodes visited. The error is want of memory.
#[tactic(auto, unfolding(pim_model::specs::Firing::fired, pim_model::specs::Firing::fire_row, pim_model::specs::Asserts::assert_due, pim_model::specs::Asserts::assert_forgotten))]
pub fn fired(
    world: &mut World,
    turn: &mut Turn,
    meter: &mut Meter,
    key: Key,
) -> Result<(), AllocError>
    ensures state { OnOk result (world.new ≡ (fired world.old TimerKind.Assert key).0) }
    ensures messages { OnOk result (turn.new ≡ saying turn.old (fired world.old TimerKind.Assert key).1) }
{
    let Some(row) = world.store().assert_at(key) else {
        return Ok(());
    };
    match row.role {
        AssertRole::Winner => win_again(world, turn, meter, key, row),
        AssertRole::Loser => {
            world.store_mut().drop_assert(key, meter);
            Ok(())
        }
    }
}
