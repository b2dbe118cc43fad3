//! The queries that a record of a report requests (RFC 3376, section 6.6.3).
ghost use Rattle.std.specs.Prelude.{◌≡◌, IfOk, OnOk, filter, option_map};
ghost use Rattle.pim_filters.specs.Asking.{source_queries};
ghost use Rattle.pim_state.specs.Turns.{saying};
ghost use Rattle.pim_model.specs.Querier.{each_in_turn, exceeds, query_asked, query_group, query_sources, source_end};
ghost use Rattle.pim_querier.specs.Changes.{sendings_put};
ghost use Rattle.igmp_wire.specs.Written.{bits_of};

use crate::intervals::{exceeds, last_member_query_interval, query_end, robustness};
use crate::lowering::lower_sources;
use crate::place::IfaceGroup;
use crate::queries::specific_query;
use crate::repeats::send_sources;
use pim_filters::Asking;
use pim_state::{Meter, Turn, World};
use pim_types::Addr;
use pim_types::fact::{GroupRepeatRow, SendingRow};
use std::alloc::{AllocError, Global};

// Queries the group at once, and again [Last Member Query Count] - 1 times; lowers its timer (RFC 3376, section
// 6.6.3.1).
#[tactic(auto, unfolding(pim_model::specs::Querier::query_group))]
fn query_group(
    world: &mut World,
    turn: &mut Turn,
    meter: &mut Meter,
    place: IfaceGroup,
) -> Result<(), AllocError>
    ensures state { OnOk result (world.new ≡ (query_group world.old place.iface.number place.group.bits).0) }
    ensures messages { OnOk result (turn.new
        ≡ saying turn.old (query_group world.old place.iface.number place.group.bits).1) }
{
    let query = specific_query(world, place, false);
    let repeat = GroupRepeatRow {
        next: world.present() + last_member_query_interval(world),
        left: u32::from(robustness(world, place.iface)).saturating_sub(1),
    };
    world.lower_group(
        place.iface,
        place.group,
        query_end(world, place.iface),
        meter,
    )?;
    world
        .membership_mut()
        .set_group_repeat(place.iface, place.group, Some(repeat))?;
    turn.out.query(place.iface, &query, &[])
}

// The given sources whose timers expire after a timestamp, in ms.
fn running_past(
    world: &World,
    alloc: Global,
    place: IfaceGroup,
    sources: &[Addr],
    moment: u64,
) -> Result<Vec<Addr>, AllocError>
    ensures { IfOk result (λ running. bits_of running.items
        ≡ filter (λ src. exceeds moment (source_end world.now place.iface.number place.group.bits src))
        (bits_of sources.now)) }
{
    let mut running = Vec::new(alloc);
    for source in sources {
        if exceeds(moment, world.source_end(place.iface, place.group, *source)) {
            running.push(*source)?;
        }
    }
    Ok(running)
}

// Sets each of the sources to be named in a number of queries.
#[tactic(auto, unfolding(crate::specs::Changes::sending_put, crate::specs::Changes::sendings_put, pim_model::specs::Tables::set_row))]
fn put_sendings(
    world: &mut World,
    place: IfaceGroup,
    sources: &[Addr],
    row: SendingRow,
) -> Result<(), AllocError>
    ensures { OnOk result (world.new ≡ sendings_put place.iface.number place.group.bits row world.old sources.now) }
{
    for source in sources {
        world
            .membership_mut()
            .set_sending(place.iface, place.group, *source, Some(row))?;
    }
    Ok(())
}

// Queries those of the group's sources whose timers run beyond what a query lowers them to, at once and again [Last
// Member Query Count] - 1 times, with all others that are still to be sent; lowers their timers (RFC 3376, section
// 6.6.3.2).
fn query_sources(
    world: &mut World,
    turn: &mut Turn,
    meter: &mut Meter,
    place: IfaceGroup,
    asked: &[Addr],
) -> Result<(), AllocError>
    ensures state { OnOk result (world.new
        ≡ (query_sources world.old place.iface.number place.group.bits (bits_of asked.now)).0) }
    ensures messages { OnOk result (turn.new
        ≡ saying turn.old (query_sources world.old place.iface.number place.group.bits (bits_of asked.now)).1) }
{
    let end = query_end(world, place.iface);
    let sources = running_past(world, turn.alloc, place, asked, end)?;
    if sources.is_empty() {
        return Ok(());
    }
    let row = SendingRow {
        left: u32::from(robustness(world, place.iface)),
    };
    lower_sources(world, meter, place, &sources, end)?;
    put_sendings(world, place, &sources, row)?;
    send_sources(world, turn, place)
}

// Queries these sources of the group, if a query of sources is requested.
#[tactic(auto, unfolding(pim_model::specs::Querier::query_asked, pim_model::specs::Querier::each_in_turn))]
fn query_asked_sources(
    world: &mut World,
    turn: &mut Turn,
    meter: &mut Meter,
    place: IfaceGroup,
    sources: Option<&[Addr]>,
) -> Result<(), AllocError>
    ensures state { OnOk result (world.new ≡ (each_in_turn (query_asked place.iface.number place.group.bits) world.old
        (source_queries (option_map (λ named. bits_of named.now) sources.entry))).0) }
    ensures messages { OnOk result (turn.new ≡ saying turn.old
        (each_in_turn (query_asked place.iface.number place.group.bits) world.old
        (source_queries (option_map (λ named. bits_of named.now) sources.entry))).1) }
{
    match sources {
        Some(sources) => query_sources(world, turn, meter, place, sources),
        None => Ok(()),
    }
}

/// Sends the queries that a record of a report requests: first of the group's sources, then of the group. The meter rises
/// by the nodes visited.
pub fn query_asked(
    world: &mut World,
    turn: &mut Turn,
    meter: &mut Meter,
    place: IfaceGroup,
    asked: &Asking,
) -> Result<(), AllocError>
    ensures state { OnOk result (world.new
        ≡ (each_in_turn (query_asked place.iface.number place.group.bits) world.old asked.now).0) }
    ensures messages { OnOk result (turn.new
        ≡ saying turn.old (each_in_turn (query_asked place.iface.number place.group.bits) world.old asked.now).1) }
{
    query_asked_sources(world, turn, meter, place, asked.sources())?;
    if asked.asks_group() {
        return query_group(world, turn, meter, place);
    }
    Ok(())
}
