//! An Assert, and data that calls for one (RFC 7761, sections 4.6.1 and 4.6.2).
ghost use Rattle.std.specs.Prelude.{◌≡◌, ◌<◌, ◌^◌, ◌+◌, IfOk, OnOk, false, not, ◌&&◌};
ghost use Rattle.pim_types.specs.Keys.{source_key, star_key};
ghost use Rattle.pim_model.specs.Asserts.{assert_at, assert_received, asserted_metric, data_seen, loses, theirs_of};
ghost use Rattle.pim_model.specs.Tables.{has_row};
ghost use Rattle.pim_state.specs.Turns.{saying};
ghost use Rattle.pim_macros.specs.Sights.{IsSourceSight, IsStarSight};
ghost use Rattle.pim_asserts.specs.Receiving.{after_action, data_key, goes_on_to_star, source_asserted, stance_at, wins_with};

use crate::action::{Action, action_of};
use crate::assert_timer::{WINNER_TIME, asserted_metric, win_again};
use crate::stance::{Stance, source_stance, stance_of, star_stance};
use pim_macros::{SourceSight, StarSight};
use pim_state::{Meter, Turn, World};
use pim_types::fact::{AssertMetric, AssertRole, AssertRow};
use pim_types::{Addr, IfaceId, Key};
use pim_wire::Assert;
use std::alloc::AllocError;

// Assert_Time (RFC 7761, section 4.11), in ms.
const LOSER_TIME: u64 = 180_000;

// The router becomes the winner with one metric of its own, and asserts with the other.
#[tactic(auto, using(crate::proofs::Receiving::plain_key), unfolding(crate::specs::Receiving::wins_with, pim_model::specs::Asserts::assert_message, pim_model::specs::Tables::set_row))]
fn win_with(
    world: &mut World,
    turn: &mut Turn,
    meter: &mut Meter,
    key: Key,
    mine: AssertMetric,
    asserted: AssertMetric,
) -> Result<(), AllocError>
    requires plain { key.rpt ≡ false }
    requires below { key.iface.number < 120 }
    requires asserted { asserted ≡ asserted_metric world.old key }
    requires within { asserted.preference < 2 ^ 31 }
    ensures state { OnOk result (world.new ≡ (wins_with world.old key mine).0) }
    ensures messages { OnOk result (turn.new ≡ saying turn.old (wins_with world.old key mine).1) }
{
    turn.out.assert(key.iface, key.group, key.source, asserted)?;
    let row = AssertRow {
        role: AssertRole::Winner,
        winner: mine,
        end: world.present() + WINNER_TIME,
    };
    world
        .store_mut()
        .set_assert(key.iface, key.group, key.source, Some(row), meter)
}

// The router becomes the winner with a metric of its own, and asserts.
fn win(
    world: &mut World,
    turn: &mut Turn,
    meter: &mut Meter,
    key: Key,
    mine: AssertMetric,
) -> Result<(), AllocError>
    requires plain { key.rpt ≡ false }
    requires below { key.iface.number < 120 }
    ensures state { OnOk result (world.new ≡ (wins_with world.old key mine).0) }
    ensures messages { OnOk result (turn.new ≡ saying turn.old (wins_with world.old key mine).1) }
{
    let asserted = asserted_metric(world, meter, key);
    win_with(world, turn, meter, key, mine, asserted)
}

// The router becomes a loser, to the winner with this metric.
#[tactic(auto, using(crate::proofs::Receiving::plain_key), unfolding(pim_model::specs::Asserts::loses, pim_model::specs::Tables::set_row))]
fn lose(
    world: &mut World,
    meter: &mut Meter,
    key: Key,
    theirs: AssertMetric,
) -> Result<(), AllocError>
    requires plain { key.rpt ≡ false }
    requires below { key.iface.number < 120 }
    ensures { OnOk result (world.new ≡ loses world.old key theirs) }
{
    let row = AssertRow {
        role: AssertRole::Loser,
        winner: theirs,
        end: world.present() + LOSER_TIME,
    };
    world
        .store_mut()
        .set_assert(key.iface, key.group, key.source, Some(row), meter)
}

// Carries out what an Assert with this metric makes of the machine.
#[tactic(auto, unfolding(crate::specs::Receiving::after_action, pim_model::specs::Asserts::assert_forgotten))]
fn carry_out(
    world: &mut World,
    turn: &mut Turn,
    meter: &mut Meter,
    key: Key,
    theirs: AssertMetric,
    action: Action,
) -> Result<(), AllocError>
    requires plain { key.rpt ≡ false }
    requires below { key.iface.number < 120 }
    ensures state { OnOk result (world.new ≡ (after_action world.old key theirs action).0) }
    ensures messages { OnOk result (turn.new ≡ saying turn.old (after_action world.old key theirs action).1) }
{
    match action {
        Action::Stay => Ok(()),
        Action::Win(mine) => win(world, turn, meter, key, mine),
        Action::WinAgain(row) => win_again(world, turn, meter, key, row),
        Action::Lose => lose(world, meter, key, theirs),
        Action::LoseAndSwitch => {
            lose(world, meter, key, theirs)?;
            world.set_spt_bit(key.name(), meter)
        }
        Action::Forget => {
            world.store_mut().drop_assert(key, meter);
            Ok(())
        }
    }
}

/// Whether the machine of a key isn't in NoInfo.
#[tactic(auto, unfolding(pim_model::specs::Tables::has_row))]
pub(crate) fn has_assert(world: &World, key: Key) -> bool
    ensures { result ≡ has_row world.now.asserts key }
{
    world.store().assert_at(key).is_some()
}

// Runs one machine by an Assert with this metric.
fn run_machine(
    world: &mut World,
    turn: &mut Turn,
    meter: &mut Meter,
    key: Key,
    theirs: AssertMetric,
) -> Result<(), AllocError>
    requires plain { key.rpt ≡ false }
    requires below { key.iface.number < 120 }
    ensures state { OnOk result (world.new ≡ (assert_at world.old key theirs).0) }
    ensures messages { OnOk result (turn.new ≡ saying turn.old (assert_at world.old key theirs).1) }
{
    let stance = stance_of(world, meter, key);
    let action = action_of(stance, world.store().assert_at(key), theirs);
    carry_out(world, turn, meter, key, theirs, action)
}

// Runs the machine of (S,G) by an Assert of a source. The result is whether the Assert goes on to (*,G): with R set it
// does where (S,G) was in NoInfo and still is, or where there is no source.
fn run_source_machine(
    world: &mut World,
    turn: &mut Turn,
    meter: &mut Meter,
    iface: IfaceId,
    from: Addr,
    assert: &Assert,
) -> Result<bool, AllocError>
    requires { iface.number < 120 }
    ensures further { IfOk result (λ goes_on. goes_on ≡ goes_on_to_star world.old world.new iface.number assert.now) }
    ensures state { IfOk result (λ goes_on. world.new
        ≡ (source_asserted world.old iface.number from.bits assert.now).0) }
    ensures messages { IfOk result (λ goes_on. turn.new
        ≡ saying turn.old (source_asserted world.old iface.number from.bits assert.now).1) }
{
    if assert.source == Addr::NONE {
        return Ok(assert.rpt);
    }
    let key = Key::source(iface, assert.group, assert.source);
    let was_silent = !has_assert(world, key);
    run_machine(world, turn, meter, key, metric_of(from, assert))?;
    Ok(assert.rpt && was_silent && !has_assert(world, key))
}

/// The metric that a router announces.
pub(crate) fn metric_of(from: Addr, assert: &Assert) -> AssertMetric
    ensures { result ≡ theirs_of assert.now from.bits }
{
    AssertMetric {
        rpt: assert.rpt,
        preference: assert.preference,
        metric: assert.metric,
        address: from,
    }
}

/// Takes an Assert that came from an address. One of a source goes to (S,G), and with R set on to (*,G) where (S,G) was
/// in NoInfo and still is; one without a source goes to (*,G) alone. The meter rises by the nodes visited. The
/// error is want of memory.
pub fn received(
    world: &mut World,
    turn: &mut Turn,
    meter: &mut Meter,
    iface: IfaceId,
    from: Addr,
    assert: &Assert,
) -> Result<(), AllocError>
    requires { iface.number < 120 }
    ensures state { OnOk result (world.new ≡ (assert_received world.old iface.number from.bits assert.now).0) }
    ensures messages { OnOk result (turn.new
        ≡ saying turn.old (assert_received world.old iface.number from.bits assert.now).1) }
{
    let goes_on = run_source_machine(world, turn, meter, iface, from, assert)?;
    if !goes_on {
        return Ok(());
    }
    let star = Key::star(iface, assert.group);
    run_machine(world, turn, meter, star, metric_of(from, assert))
}

// Whether data makes a winner.
fn asserts_by_data(world: &World, key: Key, stance: Stance) -> bool
    ensures { result ≡ (stance.could_assert && not (has_row world.now.asserts key)) }
{
    stance.could_assert && !has_assert(world, key)
}

// Runs the machine of a key, with this stance of the router, by data: if the router asserts by data it wins, and
// announces this metric.
fn win_by_data(
    world: &mut World,
    turn: &mut Turn,
    meter: &mut Meter,
    key: Key,
    stance: Stance,
    asserted: AssertMetric,
) -> Result<(), AllocError>
    requires plain { key.rpt ≡ false }
    requires below { key.iface.number < 120 }
    requires stance { stance ≡ stance_at world.old key }
    requires asserted { asserted ≡ asserted_metric world.old key }
    requires within { asserted.preference < 2 ^ 31 }
    ensures state { OnOk result (world.new ≡ (data_seen world.old key).0) }
    ensures messages { OnOk result (turn.new ≡ saying turn.old (data_seen world.old key).1) }
{
    if !asserts_by_data(world, key, stance) {
        return Ok(());
    }
    win_with(world, turn, meter, key, stance.metric, asserted)
}

// Takes data as an event of the machine of (*,G).
fn data_seen_of_group(
    world: &mut World,
    turn: &mut Turn,
    meter: &mut Meter,
    star: &StarSight,
    iface: IfaceId,
) -> Result<(), AllocError>
    requires sight { IsStarSight world.old star.now }
    requires below { iface.number < 120 }
    ensures state { OnOk result (world.new ≡ (data_seen world.old (star_key iface.number star.now.group.bits)).0) }
    ensures messages { OnOk result (turn.new
        ≡ saying turn.old (data_seen world.old (star_key iface.number star.now.group.bits)).1) }
{
    let stance = star_stance(world, star, iface);
    let asserted = star.metric(world.address(iface));
    let key = Key::star(iface, star.group);
    win_by_data(world, turn, meter, key, stance, asserted)
}

// A packet of data of a source of a group, as an event of the machine of (S,G).
fn data_seen_of_source(
    world: &mut World,
    turn: &mut Turn,
    meter: &mut Meter,
    sight: &SourceSight,
    iface: IfaceId,
) -> Result<(), AllocError>
    requires sight { IsSourceSight world.old sight.now }
    requires below { iface.number < 120 }
    ensures state { OnOk result (world.new
        ≡ (data_seen world.old (source_key iface.number sight.now.star.group.bits sight.now.source.bits)).0) }
    ensures messages { OnOk result (turn.new ≡ saying turn.old
        (data_seen world.old (source_key iface.number sight.now.star.group.bits sight.now.source.bits)).1) }
{
    let stance = source_stance(world, sight, iface);
    let asserted = sight.metric(world.address(iface));
    let key = Key::source(iface, sight.star.group, sight.source);
    win_by_data(world, turn, meter, key, stance, asserted)
}

/// Takes data on an interface on which the router forwards it, as an event of the machine of (S,G) with SPTbit(S,G),
/// else of (*,G): where it could assert and none has won or lost yet, it wins. The meter rises by the nodes
/// visited. An error is want of memory.
pub fn data_seen(
    world: &mut World,
    turn: &mut Turn,
    meter: &mut Meter,
    sight: &SourceSight,
    iface: IfaceId,
) -> Result<(), AllocError>
    requires sight { IsSourceSight world.old sight.now }
    requires below { iface.number < 120 }
    ensures state { OnOk result (world.new ≡ (data_seen world.old (data_key sight.now iface.number)).0) }
    ensures messages { OnOk result (turn.new ≡ saying turn.old (data_seen world.old (data_key sight.now iface.number)).1) }
{
    if sight.spt {
        data_seen_of_source(world, turn, meter, sight, iface)
    } else {
        data_seen_of_group(world, turn, meter, &sight.star, iface)
    }
}
