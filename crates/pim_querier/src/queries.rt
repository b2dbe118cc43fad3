//! Queries as they are put together (RFC 3376, section 4.1).
ghost use Rattle.std.specs.Prelude.{◌≡◌, ◌<◌, ◌++◌, OnOk, false};
ghost use Rattle.pim_model.specs.Querier.{specific_queries};
ghost use Rattle.pim_state.specs.Turns.{saying};
ghost use Rattle.pim_querier.specs.Queries.{all_queries, asking, general_header, header_of, specific_header};
ghost use Rattle.igmp_wire.specs.Written.{bits_of};

use crate::intervals::{query_interval, robustness};
use crate::place::IfaceGroup;
use igmp_wire::{QueryHeader, value_code};
use pim_messages::{MOST_SOURCES, Outbox};
use pim_state::{Turn, World};
use pim_types::{Addr, IfaceId};
use std::alloc::AllocError;

// A query without its sources; hosts answer within `response` tenths of a second.
fn header(world: &World, iface: IfaceId, response: u32, group: Addr, suppress: bool) -> QueryHeader
    ensures header { result ≡ header_of world.now iface.number response group.bits suppress }
    ensures robust { result.robustness < 8 }
{
    let interval = query_interval(world, iface) / 1000;
    QueryHeader {
        max_response_code: value_code(response),
        group,
        suppress,
        robustness: robustness(world, iface),
        interval_code: value_code(interval as u32),
    }
}

/// The query of all groups (RFC 3376, section 4.1.11).
pub fn general_query(world: &World, iface: IfaceId) -> QueryHeader
    ensures header { result ≡ general_header world.now iface.number }
    ensures robust { result.robustness < 8 }
{
    let response = world.settings().query_response_interval;
    header(world, iface, response, Addr::NONE, false)
}

/// The query of a group, or of sources of it, before its sources (RFC 3376, section 4.1.11). With S set routers that
/// hear it leave their timers as they are.
pub fn specific_query(world: &World, place: IfaceGroup, suppress: bool) -> QueryHeader
    ensures header { result ≡ specific_header world.now place.iface.number place.group.bits suppress }
    ensures robust { result.robustness < 8 }
{
    let response = world.settings().last_member_query_interval;
    header(world, place.iface, response, place.group, suppress)
}

// Adds the queries of these sources at the end, each with as many sources as a frame holds.
fn put_queries(
    out: &mut Outbox,
    iface: IfaceId,
    header: &QueryHeader,
    sources: &[Addr],
) -> Result<(), AllocError>
    requires { header.now.robustness < 8 }
    ensures { OnOk result (out.new ≡ out.old
        ++ all_queries (asking iface.number header.now) (bits_of sources.now)) }
{
    let mut left = sources;
    while !left.is_empty() {
        let (first, later) = left.split_at(left.len().min(MOST_SOURCES));
        out.query(iface, header, first)?;
        left = later;
    }
    Ok(())
}

/// Sends the queries of these sources of the group, in as many messages as they take.
pub fn say_sources(
    world: &World,
    turn: &mut Turn,
    place: IfaceGroup,
    suppress: bool,
    sources: &[Addr],
) -> Result<(), AllocError>
    ensures { OnOk result (turn.new ≡ saying turn.old
        (specific_queries world.now place.iface.number place.group.bits suppress (bits_of sources.now))) }
{
    let header = specific_query(world, place, suppress);
    put_queries(&mut turn.out, place.iface, &header, sources)
}
