//! Routers of IGMP version 2 on a link (RFC 3376, section 7.3.1).
ghost use Rattle.std.specs.Prelude.{◌≡◌, ◌≤◌, ◌++◌, [], min, option_map, IfOk, IsOk, None, OnErr, OnOk};
ghost use Rattle.pim_ip.specs.Ipv4.{igmp_packet_text};
ghost use Rattle.igmp_wire.specs.Queries.{query_text};
ghost use Rattle.igmp_older.specs.Routers.{Wrote, cut, cut_text, message_cut, older_query_reading, older_query_text, packet_cut, packet_queried, queried, query_as_three, query_packet, response_to};

use crate::front::PROTOCOL_PLACE;
use crate::older::group_of;
use igmp_wire::{IgmpView, QueryHeader, QueryView, read_igmp, write_query};
use pim_ip::{
    Addr, FRAME_LIMIT, Ipv4View, PROTOCOL_IGMP, read_ipv4, set_checksum, sum16, write_igmp_packet,
};
use std::alloc::{AllocError, Global};

/// The length of a query of version 2, in bytes.
const QUERY_LENGTH: usize = 8;

/// The type of a query.
const QUERY_TYPE: u8 = 0x11;

/// Where the checksum stands in a message.
const CHECKSUM_PLACE: usize = 2;

/// The greatest Max Response Time of version 2, in tenths of a second.
const LONGEST_RESPONSE: u32 = 255;

/// A query of version 2.
#[derive(Clone, Copy)]
pub struct OlderQuery {
    /// The time in which hosts answer, in tenths of a second.
    pub max_response: u8,
    /// The group that is asked for, or 0.0.0.0 for all groups.
    pub group: Addr,
}

/// The times in which hosts answer a router's queries, as they are configured, in tenths of a second.
#[derive(Clone, Copy)]
pub struct ResponseTimes {
    /// [Query Response Interval], for a query of all groups.
    pub general: u32,
    /// [Last Member Query Interval], for a query of one group.
    pub specific: u32,
}

/// Reads a query of exactly eight bytes.
#[tactic(auto, unfolding(crate::specs::Routers::older_query_reading))]
fn read_older_query(message: &[u8]) -> Option<OlderQuery>
    ensures { result ≡ older_query_reading message.now }
{
    if message.len() != QUERY_LENGTH || sum16(message) != 0 || message[0] != QUERY_TYPE {
        return None;
    }
    let group = group_of(message);
    if group != Addr::NONE && !group.is_multicast() {
        return None;
    }
    Some(OlderQuery {
        max_response: message[1],
        group,
    })
}

/// Writes a query of version 2 at the end as one of version 3.
#[tactic(auto, using(crate::proofs::RouterLaws::query_lengths))]
fn write_as_three(
    alloc: Global,
    source: Addr,
    destination: Addr,
    query: OlderQuery,
    out: &mut Vec<u8>,
) -> Result<(), AllocError>
    ensures ok { OnOk result (out.new.items
        ≡ out.old.items ++ igmp_packet_text source.bits destination.bits (query_text (query_as_three query))) }
    ensures err { OnErr result (out.new.items ≡ out.old.items) }
{
    let header = QueryHeader {
        max_response_code: query.max_response,
        group: query.group,
        suppress: false,
        robustness: 0,
        interval_code: 0,
    };
    let mut message = Vec::new(alloc);
    write_query(&mut message, &header, &[])?;
    write_igmp_packet(source, destination, &message, out)
}

/// A packet that was read.
#[tactic(auto, unfolding(crate::specs::Routers::packet_queried, crate::specs::Routers::query_packet))]
fn give_packet(alloc: Global, packet: &Ipv4View<'_>, out: &mut Vec<u8>) -> Result<bool, AllocError>
    ensures ok { IfOk result (λ written. Wrote written (option_map query_packet (packet_queried packet.now))
        out.old.items out.new.items) }
    ensures err { OnErr result (out.new.items ≡ out.old.items) }
    ensures sure { packet_queried packet.now ≡ None → IsOk result }
{
    if packet.protocol() != PROTOCOL_IGMP || !packet.destination().is_multicast() {
        return Ok(false);
    }
    let Some(query) = read_older_query(packet.payload()) else {
        return Ok(false);
    };
    write_as_three(alloc, packet.source(), packet.destination(), query, out)?;
    Ok(true)
}

/// Whether a packet that came is a query of version 2: then the query of version 3 that the router is to be given in its
/// place is written behind what stands in `out`. The router elects by it, with its configured values. An `Err` is want of
/// memory, and changes nothing. Any other packet takes no memory.
#[tactic(auto, using(crate::proofs::Passing::no_queries), unfolding(crate::specs::Routers::queried))]
pub fn translate_query(alloc: Global, bytes: &[u8], out: &mut Vec<u8>) -> Result<bool, AllocError>
    ensures ok { IfOk result (λ written. Wrote written (option_map query_packet (queried bytes.now))
        out.old.items out.new.items) }
    ensures err { OnErr result (out.new.items ≡ out.old.items) }
    ensures sure { queried bytes.now ≡ None → IsOk result }
{
    // Data pays for no more than this.
    if bytes.len() <= PROTOCOL_PLACE || bytes[PROTOCOL_PLACE] != PROTOCOL_IGMP {
        return Ok(false);
    }
    if bytes.len() > FRAME_LIMIT {
        return Ok(false);
    }
    match read_ipv4(bytes) {
        Ok(packet) => give_packet(alloc, &packet, out),
        Err(_) => Ok(false),
    }
}

/// The Max Response Time of a query of a group, or of all groups, in tenths of a second, as far as version 2 can say it.
/// The code of version 3 would say less: above 12.7 s it has steps of 0.8 s and more.
fn plain_response(times: ResponseTimes, group: Addr) -> u8
    ensures { result ≡ min (response_to times group.bits) 255 }
{
    let tenths = if group == Addr::NONE {
        times.general
    } else {
        times.specific
    };
    if tenths <= LONGEST_RESPONSE {
        tenths as u8
    } else {
        u8::MAX
    }
}

/// Writes a query of version 2 as a message, where there is none yet.
#[tactic(auto, unfolding(crate::specs::Routers::older_query_text, pim_ip::specs::Checksum::with_checksum))]
fn write_older_query(message: &mut Vec<u8>, max_response: u8, group: Addr) -> Result<(), AllocError>
    requires { message.old.items ≡ [] }
    ensures { OnOk result (message.new.items ≡ older_query_text max_response group.bits) }
{
    let [first, second, third, fourth] = group.octets();
    message.extend_from_slice(&[QUERY_TYPE, max_response, 0, 0, first, second, third, fourth])?;
    set_checksum(message, CHECKSUM_PLACE);
    Ok(())
}

/// Writes a query at the end, cut behind its group.
#[tactic(auto, using(crate::proofs::RouterLaws::query_lengths))]
fn write_cut(
    alloc: Global,
    times: ResponseTimes,
    packet: &Ipv4View<'_>,
    query: &QueryView<'_>,
    out: &mut Vec<u8>,
) -> Result<(), AllocError>
    ensures ok { OnOk result (out.new.items
        ≡ out.old.items ++ igmp_packet_text packet.now.source packet.now.destination (cut_text times query.now)) }
    ensures err { OnErr result (out.new.items ≡ out.old.items) }
{
    let mut message = Vec::new(alloc);
    let group = query.group();
    write_older_query(&mut message, plain_response(times, group), group)?;
    write_igmp_packet(packet.source(), packet.destination(), &message, out)
}

/// A packet that was read.
#[tactic(auto, unfolding(crate::specs::Routers::packet_cut))]
fn cut_packet(
    alloc: Global,
    times: ResponseTimes,
    packet: &Ipv4View<'_>,
    out: &mut Vec<u8>,
) -> Result<bool, AllocError>
    ensures ok { IfOk result (λ written. Wrote written (packet_cut times packet.now) out.old.items out.new.items) }
    ensures err { OnErr result (out.new.items ≡ out.old.items) }
{
    if packet.protocol() != PROTOCOL_IGMP {
        return Ok(false);
    }
    match read_igmp(packet.payload()) {
        Ok(IgmpView::Query(query)) => {
            write_cut(alloc, times, packet, &query, out)?;
            Ok(true)
        }
        _ => Ok(false),
    }
}

/// Whether a packet that is to leave is a query: then the query of version 2 that is to leave in its place, on an interface
/// that acts in version 2, is written behind what stands in `out`. It says the times that are configured. An `Err` changes
/// nothing.
#[tactic(auto, unfolding(crate::specs::Routers::cut))]
pub fn cut_query(
    alloc: Global,
    times: ResponseTimes,
    bytes: &[u8],
    out: &mut Vec<u8>,
) -> Result<bool, AllocError>
    ensures ok { IfOk result (λ written. Wrote written (cut times bytes.now) out.old.items out.new.items) }
    ensures err { OnErr result (out.new.items ≡ out.old.items) }
{
    match read_ipv4(bytes) {
        Ok(packet) => cut_packet(alloc, times, &packet, out),
        Err(_) => Ok(false),
    }
}
