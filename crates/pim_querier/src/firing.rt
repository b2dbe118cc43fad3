//! The expiry of a querier's timers.
ghost use Rattle.std.specs.Prelude.{◌≡◌, OnOk, true};
ghost use Rattle.pim_state.specs.Turns.{saying};
ghost use Rattle.pim_model.specs.Firing.{fired, startup_left};
ghost use Rattle.pim_types.specs.declared.timer.TimerKind.{TimerKind};
ghost use Rattle.pim_querier.specs.Kinds.{is_igmp_kind};

use crate::election::other_querier_gone;
use crate::place::IfaceGroup;
use crate::records::{group_record_due, source_record_due};
use crate::repeats::{group_repeat_due, source_repeat_due};
use crate::startup::general_query_due;
use pim_state::{Meter, Turn, World};
use pim_types::fact::QuerierRole;
use pim_types::{Key, TimerKind};
use std::alloc::AllocError;

// How many of the startup queries are still to leave.
fn startup_left(role: QuerierRole) -> u8
    ensures { result ≡ startup_left role }
{
    match role {
        QuerierRole::Querier { startup_left, .. } => startup_left,
        QuerierRole::NonQuerier { .. } => 0,
    }
}

// The timer under the key expires, so a query of a group is repeated.
#[tactic(auto, unfolding(pim_model::specs::Firing::fire_row))]
fn group_repeat_fired(world: &mut World, turn: &mut Turn, key: Key) -> Result<(), AllocError>
    ensures state { OnOk result (world.new ≡ (fired world.old TimerKind.GroupRepeat key).0) }
    ensures messages { OnOk result (turn.new ≡ saying turn.old (fired world.old TimerKind.GroupRepeat key).1) }
{
    let place = IfaceGroup {
        iface: key.iface,
        group: key.group,
    };
    match world.membership().group_repeat_at(key) {
        Some(row) => group_repeat_due(world, turn, place, row.left),
        None => Ok(()),
    }
}

// The timer under the key expires, so a general query leaves.
#[tactic(auto, unfolding(pim_model::specs::Firing::fire_row))]
fn general_query_fired(world: &mut World, turn: &mut Turn, key: Key) -> Result<(), AllocError>
    ensures state { OnOk result (world.new ≡ (fired world.old TimerKind.GeneralQuery key).0) }
    ensures messages { OnOk result (turn.new ≡ saying turn.old (fired world.old TimerKind.GeneralQuery key).1) }
{
    match world.membership().querier_at(key) {
        Some(row) => general_query_due(world, turn, key.iface, startup_left(row.role)),
        None => Ok(()),
    }
}

/// A timer of a querier expires: of a group or a source of its records, of the other querier, or one after which a
/// query leaves. The meter rises by the nodes visited. If an allocation fails, some of what it changes may be changed.
#[tactic(auto, unfolding(pim_model::specs::Firing::fired))]
pub fn fired(
    world: &mut World,
    turn: &mut Turn,
    meter: &mut Meter,
    kind: TimerKind,
    key: Key,
) -> Result<(), AllocError>
    requires { is_igmp_kind kind ≡ true }
    ensures state { OnOk result (world.new ≡ (fired world.old kind key).0) }
    ensures messages { OnOk result (turn.new ≡ saying turn.old (fired world.old kind key).1) }
{
    let place = IfaceGroup {
        iface: key.iface,
        group: key.group,
    };
    match kind {
        TimerKind::GroupRecord => group_record_due(world, meter, turn.alloc, place),
        TimerKind::SourceRecord => source_record_due(
            world,
            meter,
            turn.alloc,
            place,
            key.address(),
        ),
        TimerKind::OtherQuerier => other_querier_gone(world, turn, key.iface),
        TimerKind::GroupRepeat => group_repeat_fired(world, turn, key),
        TimerKind::SourceRepeat => source_repeat_due(world, turn, place),
        TimerKind::GeneralQuery => general_query_fired(world, turn, key),
        _ => unreachable!(),
    }
}
