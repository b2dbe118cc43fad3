//! The messages upstream after an event's own change.
ghost use Rattle.std.specs.Prelude.{◌≡◌, ◌∷◌, [], ◌||◌, OnOk, map};
ghost use Rattle.pim_types.specs.Keys.{star_key};
ghost use Rattle.pim_model.specs.Upstream.{with_join_timer};
ghost use Rattle.pim_views.specs.Openings.{has_facts};
ghost use Rattle.pim_views.specs.After.{AreAfter, AreGathered, IsAfter, opened_in, opening_in, openings_in};
ghost use Rattle.pim_model.specs.Querier.{each_in_turn};
ghost use Rattle.pim_model.specs.State.{State};
ghost use Rattle.pim_macros.specs.Sights.{IsSourceSight, IsStarSight};
ghost use Rattle.pim_state.specs.Turns.{saying};
ghost use Rattle.pim_upstream.specs.Told.{group_step, source_moved, source_step, star_changed, upstream_by};
ghost use Rattle.pim_upstream.specs.Timers.{after_moves};

use crate::timer::{TimerMove, move_timers, note_join, note_override};
use crate::{source, star};
use pim_macros::{SourceSight, StarSight};
use pim_state::{Meter, Turn, World};
use pim_types::{Addr, SourceGroup, SourceView, StarView};
use pim_views::{GroupAfter, GroupOpening, SourceAfter, SourceOpening};
use std::alloc::AllocError;

// Sends the messages of a source by its sight, and notes what becomes of its timers.
#[tactic(auto, unfolding(crate::specs::Told::source_moved))]
fn send_by_views(
    world: &World,
    turn: &mut Turn,
    sight: &SourceSight,
    old: SourceView,
    moves: &mut Vec<TimerMove>,
) -> Result<(), AllocError>
    requires { IsSourceSight world.now sight.now }
    ensures timers { OnOk result ((s : State) → after_moves s moves.new.items
        ≡ (source_moved world.now turn.old.draw sight.now.star.group.bits
        (after_moves s moves.old.items) sight.now.source.bits old).0) }
    ensures messages { OnOk result ((s : State) → turn.new ≡ saying turn.old
        (source_moved world.now turn.old.draw sight.now.star.group.bits
        (after_moves s moves.old.items) sight.now.source.bits old).1) }
{
    let name = SourceGroup {
        source: sight.source,
        group: sight.star.group,
    };
    let new = sight.view();
    let joins = source::send_change(world, turn, name, old, new)?;
    let prunes = pim_rpt::changed(world, turn, &sight.star, name.source, old, new)?;
    note_join(moves, name.group, Some(name.source), joins)?;
    note_override(moves, name, prunes)
}

// Whether a source of the group may have messages: it has a fact, before or after the change.
fn may_send(world: &World, meter: &mut Meter, group: Addr, before: SourceOpening) -> bool
    ensures { result ≡ (before.has_facts || has_facts world.now group.bits before.source.bits) }
{
    let source = before.source;
    before.has_facts || world.has_facts(SourceGroup { source, group }, meter)
}

// Sends the messages of a source that has facts, before or after the change; its sight is that after the change.
#[tactic(auto, unfolding(crate::specs::Told::source_step))]
fn send_for_source(
    world: &World,
    turn: &mut Turn,
    meter: &mut Meter,
    sight: &SourceSight,
    before: SourceOpening,
    moves: &mut Vec<TimerMove>,
) -> Result<(), AllocError>
    requires sight { IsSourceSight world.now sight.now }
    requires source { sight.now.source ≡ before.source }
    ensures timers { OnOk result ((s : State) → after_moves s moves.new.items
        ≡ (source_step world.now turn.old.draw sight.now.star.group.bits (after_moves s moves.old.items) before).0) }
    ensures messages { OnOk result ((s : State) → turn.new ≡ saying turn.old
        (source_step world.now turn.old.draw sight.now.star.group.bits (after_moves s moves.old.items) before).1) }
{
    if may_send(world, meter, sight.star.group, before) {
        return send_by_views(world, turn, sight, before.view, moves);
    }
    Ok(())
}

// Sends the messages of (*,G) by its sight, and notes what becomes of its Join timer.
fn send_for_star(
    world: &World,
    turn: &mut Turn,
    meter: &mut Meter,
    star: &StarSight,
    old: StarView,
    moves: &mut Vec<TimerMove>,
) -> Result<(), AllocError>
    requires { IsStarSight world.now star.now }
    ensures timers { OnOk result ((s : State) → after_moves s moves.new.items
        ≡ with_join_timer (after_moves s moves.old.items) (star_key 0 star.now.group.bits)
        (star_changed world.now turn.old.draw star.now.group.bits old).timer) }
    ensures messages { OnOk result (turn.new ≡ saying turn.old
        (star_changed world.now turn.old.draw star.now.group.bits old).messages) }
{
    let new = star.view();
    let change = star::send_change(world, turn, meter, star, old, new)?;
    note_join(moves, star.group, None, change)
}

/// The messages upstream where one source alone was opened, by its sight in the state after the change: neither this
/// sight nor that of the group is gathered again. The meter rises by the nodes visited.
#[tactic(auto, unfolding(crate::specs::Timers::after_moves))]
pub fn changed_alone(
    world: &mut World,
    turn: &mut Turn,
    meter: &mut Meter,
    group: &GroupOpening,
    opened: SourceOpening,
    sight: &SourceSight,
) -> Result<(), AllocError>
    requires alone { group.now.sources ≡ opened ∷ [] }
    requires sight { IsSourceSight world.old sight.now }
    requires group { sight.now.star.group ≡ group.now.group }
    requires source { sight.now.source ≡ opened.source }
    ensures state { OnOk result (world.new ≡ (upstream_by (group.now ∷ []) world.old turn.old.draw).0) }
    ensures messages { OnOk result (turn.new
        ≡ saying turn.old (upstream_by (group.now ∷ []) world.old turn.old.draw).1) }
{
    let mut moves = Vec::new(turn.alloc);
    send_for_star(world, turn, meter, &sight.star, group.star, &mut moves)?;
    send_for_source(world, turn, meter, sight, opened, &mut moves)?;
    move_timers(world, meter, moves.as_slice())
}

// Sends the messages of these sources of a group by their sights, one after the other.
fn send_for_sources(
    world: &World,
    turn: &mut Turn,
    meter: &mut Meter,
    star: &StarSight,
    sources: &[SourceAfter],
    moves: &mut Vec<TimerMove>,
) -> Result<(), AllocError>
    requires { AreAfter world.now star.now sources.now }
    ensures timers { OnOk result ((s : State) → after_moves s moves.new.items
        ≡ (each_in_turn (source_step world.now turn.old.draw star.now.group.bits)
        (after_moves s moves.old.items) (map opened_in sources.now)).0) }
    ensures messages { OnOk result ((s : State) → turn.new ≡ saying turn.old
        (each_in_turn (source_step world.now turn.old.draw star.now.group.bits)
        (after_moves s moves.old.items) (map opened_in sources.now)).1) }
{
    for after in sources {
        send_for_source(world, turn, meter, &after.sight, after.opened, moves)?;
    }
    Ok(())
}

// Sends the messages of a group and of its sources, and notes what becomes of their timers.
#[tactic(auto, unfolding(crate::specs::Told::group_step))]
fn send_for_group(
    world: &World,
    turn: &mut Turn,
    meter: &mut Meter,
    after: &GroupAfter,
    moves: &mut Vec<TimerMove>,
) -> Result<(), AllocError>
    requires { IsAfter world.now after.now }
    ensures timers { OnOk result ((s : State) → after_moves s moves.new.items
        ≡ (group_step world.now turn.old.draw (after_moves s moves.old.items) (opening_in after.now)).0) }
    ensures messages { OnOk result ((s : State) → turn.new ≡ saying turn.old
        (group_step world.now turn.old.draw (after_moves s moves.old.items) (opening_in after.now)).1) }
{
    send_for_star(world, turn, meter, &after.star, after.was, moves)?;
    send_for_sources(
        world,
        turn,
        meter,
        &after.star,
        after.sources.as_slice(),
        moves,
    )
}

// Sends the messages of these groups, one after the other, and notes what becomes of their timers.
fn send_for_groups(
    world: &World,
    turn: &mut Turn,
    meter: &mut Meter,
    seen: &[GroupAfter],
    moves: &mut Vec<TimerMove>,
) -> Result<(), AllocError>
    requires { AreGathered world.now seen.now }
    ensures timers { OnOk result ((s : State) → after_moves s moves.new.items
        ≡ (each_in_turn (group_step world.now turn.old.draw)
        (after_moves s moves.old.items) (openings_in seen.now)).0) }
    ensures messages { OnOk result ((s : State) → turn.new ≡ saying turn.old
        (each_in_turn (group_step world.now turn.old.draw)
        (after_moves s moves.old.items) (openings_in seen.now)).1) }
{
    for after in seen {
        send_for_group(world, turn, meter, after, moves)?;
    }
    Ok(())
}

/// Sends the messages upstream after a change, and moves the timers: for each touched group ascending, and for each of
/// its touched sources ascending. All follows of the state after the change, by what was gathered in it: nothing of that
/// is gathered again; the timers move last. The meter rises by the nodes visited. The error is want of memory.
#[tactic(auto, unfolding(crate::specs::Told::upstream_by, crate::specs::Timers::after_moves))]
pub fn changed(
    world: &mut World,
    turn: &mut Turn,
    meter: &mut Meter,
    seen: &[GroupAfter],
) -> Result<(), AllocError>
    requires { AreGathered world.old seen.now }
    ensures state { OnOk result (world.new ≡ (upstream_by (openings_in seen.now) world.old turn.old.draw).0) }
    ensures messages { OnOk result (turn.new
        ≡ saying turn.old (upstream_by (openings_in seen.now) world.old turn.old.draw).1) }
{
    let mut moves = Vec::new(turn.alloc);
    send_for_groups(world, turn, meter, seen, &mut moves)?;
    move_timers(world, meter, moves.as_slice())
}
