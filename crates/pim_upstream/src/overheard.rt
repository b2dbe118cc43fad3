//! A Join/Prune between other routers (RFC 7761, sections 4.5.4, 4.5.5 and 4.5.7): a Join to the router's own upstream
//! neighbour suppresses the router's, and a Prune to it is overridden.
ghost use Rattle.std.specs.Prelude.{◌≡◌, ◌++◌, OnOk, Some};
ghost use Rattle.pim_types.specs.Keys.{is_star};
ghost use Rattle.pim_macros.specs.Sights.{IsSourceSight, IsStarSight};
ghost use Rattle.pim_model.specs.Downstream.{joined_keys, pruned_keys};
ghost use Rattle.pim_model.specs.Seen.{is_unpruned_towards, override_end, seen, suppressed_end};
ghost use Rattle.pim_model.specs.Tables.{same_hop};
ghost use Rattle.pim_upstream.specs.Hearing.{heard_in_joins, heard_in_prunes, heard_of_join, heard_of_prune, heard_of_source, heard_of_timer, heard_of_timers, is_source_towards, is_star_towards, timers_of};
ghost use Rattle.pim_upstream.specs.Timers.{after_moves};

use crate::timer::{TimerMove, move_timers, note_if};
use pim_downstream::Named;
use pim_macros::desires::is_same_hop;
use pim_macros::{SourceSight, StarSight};
use pim_rpt::Change;
use pim_state::{Meter, Turn, World};
use pim_types::{Addr, Hop, IfaceId, Key, SourceGroup, TreeState};
use pim_wire::JoinPruneView;
use std::alloc::AllocError;
use std::collections::BTreeSet;

// Whether RPF'(*,G) is the neighbour.
fn is_star_towards(world: &World, meter: &mut Meter, hop: Hop, group: Addr) -> bool
    ensures { result ≡ is_star_towards world.now hop group.bits }
{
    let star = StarSight::of(world, group, meter);
    is_same_hop(star.rpf_neighbour(), Some(hop))
}

// Whether RPF'(S,G) is the neighbour.
fn is_source_towards(world: &World, sight: &SourceSight, hop: Hop) -> bool
    requires { IsSourceSight world.now sight.now }
    ensures { result ≡ is_source_towards world.now hop sight.now.star.group.bits sight.now.source.bits }
{
    is_same_hop(sight.rpf_neighbour(), Some(hop))
}

// Whether (S,G,rpt) is in NotPruned and RPF'(S,G,rpt) is the neighbour.
#[tactic(auto, unfolding(pim_model::specs::Seen::is_unpruned_towards))]
fn is_unpruned_towards(world: &World, sight: &SourceSight, hop: Hop) -> bool
    requires { IsSourceSight world.now sight.now }
    ensures { result ≡ is_unpruned_towards world.now hop sight.now.star.group.bits sight.now.source.bits }
{
    match sight.tree_state() {
        TreeState::NotPruned => is_same_hop(sight.rpf_neighbour_rpt(), Some(hop)),
        _ => false,
    }
}

// What a key of a Join changes: the router's own Join is suppressed until this timestamp, in ms, or its override isn't
// wanted.
#[tactic(auto, unfolding(crate::specs::Hearing::heard_of_join))]
fn hear_join(
    world: &World,
    meter: &mut Meter,
    hop: Hop,
    end: u64,
    key: Key,
    moves: &mut Vec<TimerMove>,
) -> Result<(), AllocError>
    ensures { OnOk result (moves.new.items
        ≡ moves.old.items ++ heard_of_join world.now hop end key.group key.source key.rpt) }
{
    let group = key.group;
    match (key.source, key.rpt) {
        (None, _) => {
            let is_heard = is_star_towards(world, meter, hop, group);
            note_if(moves, is_heard, TimerMove::RaiseJoin(group, None, end))
        }
        (Some(source), true) => {
            let name = SourceGroup { source, group };
            let sight = SourceSight::with_star(world, name, meter);
            let is_heard = is_unpruned_towards(world, &sight, hop);
            note_if(moves, is_heard, TimerMove::Override(name, Change::Cancel))
        }
        (Some(source), false) => {
            let sight = SourceSight::with_star(world, SourceGroup { source, group }, meter);
            let is_heard = is_source_towards(world, &sight, hop);
            note_if(
                moves,
                is_heard,
                TimerMove::RaiseJoin(group, Some(source), end),
            )
        }
    }
}

// What the keys of Joins change: those of (*,G), or the others.
#[tactic(auto, using(std::proofs::lemmas::List::flat_map_more), unfolding(crate::specs::Hearing::heard_in_joins))]
fn hear_joins(
    world: &World,
    meter: &mut Meter,
    hop: Hop,
    end: u64,
    is_star: bool,
    keys: &[Key],
    moves: &mut Vec<TimerMove>,
) -> Result<(), AllocError>
    ensures { OnOk result (moves.new.items
        ≡ moves.old.items ++ heard_in_joins world.now hop end is_star keys.now) }
{
    for key in keys {
        if key.source.is_none() == is_star {
            hear_join(world, meter, hop, end, *key, moves)?;
        }
    }
    Ok(())
}

// The Join of a source to the neighbour is to leave by this timestamp, in ms.
#[tactic(auto, unfolding(crate::specs::Hearing::heard_of_source))]
fn hear_source(
    world: &World,
    meter: &mut Meter,
    star: &StarSight,
    hop: Hop,
    end: u64,
    source: Addr,
    moves: &mut Vec<TimerMove>,
) -> Result<(), AllocError>
    requires { IsStarSight world.now star.now }
    ensures { OnOk result (moves.new.items
        ≡ moves.old.items ++ heard_of_source world.now hop end star.now.group source) }
{
    let sight = SourceSight::of(world, *star, source, meter);
    let is_heard = is_source_towards(world, &sight, hop);
    note_if(
        moves,
        is_heard,
        TimerMove::LowerJoin(star.group, Some(source), end),
    )
}

// What the source of a Join timer's key does by an overheard Prune.
#[tactic(auto, unfolding(crate::specs::Hearing::heard_of_timer))]
fn hear_timer(
    world: &World,
    meter: &mut Meter,
    star: &StarSight,
    hop: Hop,
    end: u64,
    key: Key,
    moves: &mut Vec<TimerMove>,
) -> Result<(), AllocError>
    requires { IsStarSight world.now star.now }
    ensures { OnOk result (moves.new.items
        ≡ moves.old.items ++ heard_of_timer world.now hop end star.now.group key) }
{
    match key.source {
        Some(source) => hear_source(world, meter, star, hop, end, source, moves),
        None => Ok(()),
    }
}

// What the sources of the group with a Join timer do by an overheard Prune.
#[tactic(auto, unfolding(crate::specs::Hearing::heard_of_timers))]
fn hear_timers(
    world: &World,
    meter: &mut Meter,
    hop: Hop,
    end: u64,
    group: Addr,
    moves: &mut Vec<TimerMove>,
) -> Result<(), AllocError>
    ensures { OnOk result (moves.new.items
        ≡ moves.old.items ++ heard_of_timers world.now hop end group (timers_of world.now group.bits)) }
{
    let star = StarSight::of(world, group, meter);
    for (key, _) in world.store().join_timers_of(group, meter) {
        hear_timer(world, meter, &star, hop, end, key, moves)?;
    }
    Ok(())
}

// What a key of a Prune changes: a Join that overrides it is to leave by this timestamp, in ms.
#[tactic(auto, unfolding(crate::specs::Hearing::heard_of_prune, crate::specs::Hearing::heard_of_source))]
fn hear_prune(
    world: &World,
    meter: &mut Meter,
    hop: Hop,
    end: u64,
    key: Key,
    moves: &mut Vec<TimerMove>,
) -> Result<(), AllocError>
    ensures { OnOk result (moves.new.items
        ≡ moves.old.items ++ heard_of_prune world.now hop end key.group key.source) }
{
    let group = key.group;
    match key.source {
        None => {
            let is_heard = is_star_towards(world, meter, hop, group);
            note_if(moves, is_heard, TimerMove::LowerJoin(group, None, end))?;
            hear_timers(world, meter, hop, end, group, moves)
        }
        Some(source) => {
            let name = SourceGroup { source, group };
            let sight = SourceSight::with_star(world, name, meter);
            let is_joined = is_source_towards(world, &sight, hop);
            note_if(
                moves,
                is_joined,
                TimerMove::LowerJoin(group, Some(source), end),
            )?;
            let is_unpruned = is_unpruned_towards(world, &sight, hop);
            note_if(
                moves,
                is_unpruned,
                TimerMove::Override(name, Change::LowerTo(end)),
            )
        }
    }
}

// What the keys of Prunes change. A repeated key changes nothing more, so it isn't looked up again.
fn hear_prunes(
    world: &World,
    turn: &mut Turn,
    meter: &mut Meter,
    hop: Hop,
    end: u64,
    keys: &[Key],
    moves: &mut Vec<TimerMove>,
) -> Result<(), AllocError>
    ensures heard { OnOk result (after_moves world.now moves.new.items
        ≡ after_moves world.now (moves.old.items ++ heard_in_prunes world.now hop end keys.now)) }
    ensures silent { turn.new ≡ turn.old }
{
    let mut heard = BTreeSet::new(turn.alloc);
    for key in keys {
        if heard.insert(*key)? {
            hear_prune(world, meter, hop, end, *key, moves)?;
        }
    }
    Ok(())
}

// Up to when a Join with this holdtime, in seconds, suppresses the router's own, in ms.
#[tactic(auto, unfolding(pim_model::specs::Seen::suppressed_end, pim_model::specs::Neighbours::t_suppressed))]
fn suppressed_end(world: &World, iface: IfaceId, draw: u32, holdtime: u16) -> u64
    ensures { result ≡ suppressed_end world.now iface.number draw holdtime }
{
    let delay = world.neighbours().suppressed_delay(iface, draw);
    world.present() + delay.min(1000 * u64::from(holdtime)).max(1)
}

// When a Join that overrides a Prune leaves at the latest, in ms.
fn overriding_end(world: &World, iface: IfaceId, draw: u32) -> u64
    ensures { result ≡ override_end world.now iface.number draw }
{
    world.present() + world.override_delay(iface, draw)
}

/// Takes a Join/Prune to another router that came on an interface and names these keys. If that router is the upstream
/// neighbour, a Join suppresses the router's own and cancels an override, and a Prune is overridden: first the Joins of
/// (*,G), then the other Joins, then the Prunes; all is judged by the state that the message finds. The error is want
/// of memory. The meter rises by the nodes visited.
pub fn seen(
    world: &mut World,
    turn: &mut Turn,
    meter: &mut Meter,
    iface: IfaceId,
    message: &JoinPruneView<'_>,
    named: &Named,
) -> Result<(), AllocError>
    requires joined { named.now.joined.items ≡ joined_keys world.old iface.number message.now }
    requires pruned { named.now.pruned.items ≡ pruned_keys iface.number message.now }
    ensures state { OnOk result (world.new ≡ seen world.old turn.old.draw iface.number message.now) }
    ensures silent { turn.new ≡ turn.old }
{
    let hop = Hop {
        iface,
        address: message.upstream(),
    };
    let suppressed = suppressed_end(world, iface, turn.draw, message.holdtime());
    let overriding = overriding_end(world, iface, turn.draw);
    let mut moves = Vec::new(turn.alloc);
    hear_joins(
        world,
        meter,
        hop,
        suppressed,
        true,
        &named.joined,
        &mut moves,
    )?;
    hear_joins(
        world,
        meter,
        hop,
        suppressed,
        false,
        &named.joined,
        &mut moves,
    )?;
    hear_prunes(
        world,
        turn,
        meter,
        hop,
        overriding,
        &named.pruned,
        &mut moves,
    )?;
    move_timers(world, meter, &moves)
}
