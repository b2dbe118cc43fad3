//! Queries that are repeated (RFC 3376, section 6.6.3).
ghost use Rattle.std.specs.Prelude.{◌≡◌, OnOk};
ghost use Rattle.pim_model.specs.Querier.{group_repeat_due, next_sending, send_sources, source_repeat_due, sources_sent};
ghost use Rattle.pim_state.specs.Turns.{saying};
ghost use Rattle.pim_querier.specs.Changes.{one_repeat_less};

use crate::intervals::{exceeds, last_member_query_interval, query_end};
use crate::place::IfaceGroup;
use crate::queries::{say_sources, specific_query};
use crate::sendings::{lessen, sendings_at, sources_by_end};
use pim_state::{Turn, World};
use pim_types::fact::{GroupRepeatRow, SourceRepeatRow};
use std::alloc::AllocError;

// What is left to repeat after a query of a group of which `left` were still to leave.
fn one_repeat_less(world: &World, left: u32) -> Option<GroupRepeatRow>
    ensures { result ≡ one_repeat_less world.now left }
{
    if left <= 1 {
        return None;
    }
    let next = world.present() + last_member_query_interval(world);
    Some(GroupRepeatRow {
        next,
        left: left - 1,
    })
}

/// The query of the group is due again, with `left` still to leave. S is set where the group timer runs past what a
/// query would lower it to (RFC 3376, section 6.6.3.1).
#[tactic(auto, unfolding(pim_model::specs::Querier::group_repeat_due))]
pub fn group_repeat_due(
    world: &mut World,
    turn: &mut Turn,
    place: IfaceGroup,
    left: u32,
) -> Result<(), AllocError>
    ensures state { OnOk result (world.new ≡ (group_repeat_due world.old place.iface.number place.group.bits left).0) }
    ensures messages { OnOk result (turn.new
        ≡ saying turn.old (group_repeat_due world.old place.iface.number place.group.bits left).1) }
{
    let suppress = exceeds(
        query_end(world, place.iface),
        world.group_end(place.iface, place.group),
    );
    let query = specific_query(world, place, suppress);
    let less = one_repeat_less(world, left);
    world
        .membership_mut()
        .change_group_repeat(place.iface, place.group, less)?;
    turn.out.query(place.iface, &query, &[])
}

/// Sends the sources of the group that have sendings left, those first whose timers run beyond what a query would lower
/// them to, with S set, and counts one sending less of each (RFC 3376, section 6.6.3.2).
pub fn send(world: &mut World, turn: &mut Turn, place: IfaceGroup) -> Result<(), AllocError>
    ensures state { OnOk result (world.new ≡ (sources_sent world.old place.iface.number place.group.bits).0) }
    ensures messages { OnOk result (turn.new
        ≡ saying turn.old (sources_sent world.old place.iface.number place.group.bits).1) }
{
    let end = query_end(world, place.iface);
    let sendings = sendings_at(world, turn.alloc, place)?;
    let running = sources_by_end(world, turn.alloc, place, &sendings, end, true)?;
    let others = sources_by_end(world, turn.alloc, place, &sendings, end, false)?;
    say_sources(world, turn, place, true, &running)?;
    say_sources(world, turn, place, false, &others)?;
    // For the proof: each key is listed once.
    world.membership().proof_rising_sendings();
    lessen(world, &sendings);
    Ok(())
}

/// When the group's sources are sent again, if any has sendings left.
#[tactic(auto, unfolding(pim_model::specs::Querier::next_sending))]
pub fn next_sending(world: &World, place: IfaceGroup) -> Option<SourceRepeatRow>
    ensures { result ≡ next_sending world.now place.iface.number place.group.bits }
{
    if !world.has_sendings(place.iface, place.group) {
        return None;
    }
    let next = world.present() + last_member_query_interval(world);
    Some(SourceRepeatRow { next })
}

/// Sends the sources of the group that have sendings left, and again while any has.
#[tactic(auto, unfolding(pim_model::specs::Querier::send_sources))]
pub fn send_sources(world: &mut World, turn: &mut Turn, place: IfaceGroup) -> Result<(), AllocError>
    ensures state { OnOk result (world.new ≡ (send_sources world.old place.iface.number place.group.bits).0) }
    ensures messages { OnOk result (turn.new
        ≡ saying turn.old (send_sources world.old place.iface.number place.group.bits).1) }
{
    send(world, turn, place)?;
    let next = next_sending(world, place);
    world
        .membership_mut()
        .set_source_repeat(place.iface, place.group, next)
}

/// The query of the group's sources is due again.
#[tactic(auto, unfolding(pim_model::specs::Querier::source_repeat_due))]
pub fn source_repeat_due(
    world: &mut World,
    turn: &mut Turn,
    place: IfaceGroup,
) -> Result<(), AllocError>
    ensures state { OnOk result (world.new ≡ (source_repeat_due world.old place.iface.number place.group.bits).0) }
    ensures messages { OnOk result (turn.new
        ≡ saying turn.old (source_repeat_due world.old place.iface.number place.group.bits).1) }
{
    send(world, turn, place)?;
    let next = next_sending(world, place);
    world
        .membership_mut()
        .change_source_repeat(place.iface, place.group, next)
}
