//! The Join timers of (*,G) and (S,G), and the override timers of (S,G,rpt).
ghost use Rattle.std.specs.Prelude.{◌≡◌, ◌++◌, OnOk, Some};
ghost use Rattle.pim_types.specs.Keys.{rpt_key};
ghost use Rattle.pim_model.specs.Seen.{lowered_row, raised_row};
ghost use Rattle.pim_model.specs.State.{State};
ghost use Rattle.pim_model.specs.Tables.{row_at};
ghost use Rattle.pim_model.specs.Upstream.{LowerTo, changed_end, with_join_timer, with_override_timer};
ghost use Rattle.pim_upstream.specs.Hearing.{heard_if};
ghost use Rattle.pim_upstream.specs.Timers.{after_move, after_moves, join_key};
ghost use Rattle.pim_rpt.specs.Changes.{change_of};

use pim_rpt::Change;
use pim_state::{Meter, World};
use pim_types::fact::{JoinTimerRow, OverrideTimerRow};
use pim_types::{Addr, Key, SourceGroup};
use std::alloc::AllocError;

/// What becomes of the Join timer of (*,G), without a source, or of (S,G), or of the override timer of (S,G,rpt).
/// Timestamps are in ms.
#[derive(Clone, Copy)]
pub(crate) enum TimerMove {
    Join(Addr, Option<Addr>, Change),
    Override(SourceGroup, Change),
    /// Where the Join timer runs, it is to expire at this timestamp at the earliest.
    RaiseJoin(Addr, Option<Addr>, u64),
    /// Where the Join timer runs, it is to expire at this timestamp at the latest.
    LowerJoin(Addr, Option<Addr>, u64),
}

// When a timer expires, in ms, that is to expire at this timestamp at the latest.
fn lowered_end(old: Option<u64>, end: u64) -> u64
    ensures { Some result ≡ changed_end (LowerTo end) old }
{
    match old {
        Some(old) => old.min(end),
        None => end,
    }
}

// A Join timer that is to expire at this timestamp, in ms, at the earliest.
fn raised(row: Option<JoinTimerRow>, end: u64) -> Option<JoinTimerRow>
    ensures { result ≡ raised_row end row }
{
    let row = row?;
    Some(JoinTimerRow {
        end: row.end.max(end),
    })
}

// A Join timer that is to expire at this timestamp, in ms, at the latest.
fn lowered(row: Option<JoinTimerRow>, end: u64) -> Option<JoinTimerRow>
    ensures { result ≡ lowered_row end row }
{
    let row = row?;
    Some(JoinTimerRow {
        end: row.end.min(end),
    })
}

// The Join timer of (*,G), without a source, or of (S,G).
fn join_timer(
    world: &World,
    meter: &mut Meter,
    group: Addr,
    source: Option<Addr>,
) -> Option<JoinTimerRow>
    ensures { result ≡ row_at world.now.join_timers (join_key group source) }
{
    world.store().join_timer(group, source, meter)
}

// What becomes of a Join timer.
#[tactic(auto, unfolding(pim_model::specs::Upstream::with_join_timer, pim_model::specs::Upstream::moved_join_timer, pim_rpt::specs::Changes::change_of))]
fn move_join_timer(
    world: &mut World,
    meter: &mut Meter,
    group: Addr,
    source: Option<Addr>,
    change: Change,
) -> Result<(), AllocError>
    ensures { OnOk result (world.new
        ≡ with_join_timer world.old (join_key group source) (change_of change)) }
{
    match change {
        Change::Keep => Ok(()),
        Change::Cancel => world.store_mut().set_join_timer(group, source, None, meter),
        Change::SetTo(end) => world
            .store_mut()
            .set_join_timer(group, source, Some(JoinTimerRow { end }), meter),
        Change::LowerTo(end) => {
            let end = lowered_end(
                join_timer(world, meter, group, source).map(|row| row.end),
                end,
            );
            world
                .store_mut()
                .set_join_timer(group, source, Some(JoinTimerRow { end }), meter)
        }
    }
}

// What becomes of an override timer.
#[tactic(auto, unfolding(pim_model::specs::Upstream::with_override_timer, pim_model::specs::Upstream::moved_override_timer, pim_rpt::specs::Changes::change_of))]
fn move_override_timer(
    world: &mut World,
    meter: &mut Meter,
    name: SourceGroup,
    change: Change,
) -> Result<(), AllocError>
    ensures { OnOk result (world.new
        ≡ with_override_timer world.old (rpt_key 0 name.group.bits name.source.bits) (change_of change)) }
{
    match change {
        Change::Keep => Ok(()),
        Change::Cancel => world.store_mut().set_override_timer(name, None, meter),
        Change::SetTo(end) => {
            world
                .store_mut()
                .set_override_timer(name, Some(OverrideTimerRow { end }), meter)
        }
        Change::LowerTo(end) => {
            let row = world.store().override_timer(name.rpt_key());
            let end = lowered_end(row.map(|row| row.end), end);
            world
                .store_mut()
                .set_override_timer(name, Some(OverrideTimerRow { end }), meter)
        }
    }
}

// Moves a timer.
#[tactic(auto, unfolding(crate::specs::Timers::after_move, pim_model::specs::Seen::raise_join_timer, pim_model::specs::Seen::lower_join_timer))]
fn move_timer(world: &mut World, meter: &mut Meter, moved: TimerMove) -> Result<(), AllocError>
    ensures { OnOk result (world.new ≡ after_move world.old moved) }
{
    match moved {
        TimerMove::Join(group, source, change) => {
            move_join_timer(world, meter, group, source, change)
        }
        TimerMove::Override(name, change) => move_override_timer(world, meter, name, change),
        TimerMove::RaiseJoin(group, source, end) => {
            let row = raised(join_timer(world, meter, group, source), end);
            world.store_mut().set_join_timer(group, source, row, meter)
        }
        TimerMove::LowerJoin(group, source, end) => {
            let row = lowered(join_timer(world, meter, group, source), end);
            world.store_mut().set_join_timer(group, source, row, meter)
        }
    }
}

/// Moves these timers, one after the other.
#[tactic(auto, unfolding(crate::specs::Timers::after_moves))]
pub(crate) fn move_timers(
    world: &mut World,
    meter: &mut Meter,
    moves: &[TimerMove],
) -> Result<(), AllocError>
    ensures { OnOk result (world.new ≡ after_moves world.old moves.now) }
{
    for moved in moves {
        move_timer(world, meter, *moved)?;
    }
    Ok(())
}

/// Puts the move behind the others, if it is to be made.
pub(crate) fn note_if(
    moves: &mut Vec<TimerMove>,
    is_made: bool,
    moved: TimerMove,
) -> Result<(), AllocError>
    ensures { OnOk result (moves.new.items ≡ moves.old.items ++ heard_if is_made moved) }
{
    if is_made {
        moves.push(moved)?;
    }
    Ok(())
}

/// Puts what becomes of a Join timer behind the moves.
pub(crate) fn note_join(
    moves: &mut Vec<TimerMove>,
    group: Addr,
    source: Option<Addr>,
    change: Change,
) -> Result<(), AllocError>
    ensures { OnOk result ((s : State) → after_moves s moves.new.items
        ≡ with_join_timer (after_moves s moves.old.items) (join_key group source) (change_of change)) }
{
    match change {
        Change::Keep => Ok(()),
        _ => {
            moves.push(TimerMove::Join(group, source, change))?;
            Ok(())
        }
    }
}

/// Puts what becomes of an override timer behind the moves.
pub(crate) fn note_override(
    moves: &mut Vec<TimerMove>,
    name: SourceGroup,
    change: Change,
) -> Result<(), AllocError>
    ensures { OnOk result ((s : State) → after_moves s moves.new.items ≡ with_override_timer
        (after_moves s moves.old.items) (rpt_key 0 name.group.bits name.source.bits) (change_of change)) }
{
    match change {
        Change::Keep => Ok(()),
        _ => {
            moves.push(TimerMove::Override(name, change))?;
            Ok(())
        }
    }
}
