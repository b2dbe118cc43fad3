//! The packets that come to the router.
use pim_ip::{
    ControlHeader, PROTOCOL_PIM, set_checksum, write_header, write_igmp_packet, write_pim_packet,
};
use pim_types::{Addr, Series};
use pim_wire::{Entry, EntryKind, write_join_prune};
use std::alloc::{AllocError, Global};
use std::io::{self, ErrorKind};

/// 225.1.1.1, the group of all packets.
pub const GROUP: Addr = Addr { bits: 0xe101_0101 };

/// The router that joins: 10.0.1.2.
const JOINER: Addr = Addr { bits: 0x0a00_0102 };

/// The router's address on the link of the router that joins: 10.0.1.1.
const UPSTREAM: Addr = Addr { bits: 0x0a00_0101 };

/// The host that asks for a source: 10.0.2.7.
const HOST: Addr = Addr { bits: 0x0a00_0207 };

/// All IGMPv3 routers of a link (RFC 3376, section 4.2.14): 224.0.0.22.
const ALL_IGMP_ROUTERS: Addr = Addr { bits: 0xe000_0016 };

/// A Hello whose holdtime never ends, without another option.
const HELLO: [u8; 10] = *b"\x20\0\xdf\xfc\0\x01\0\x02\xff\xff";

/// ALLOW of 10.0.3.5 for the group.
const ALLOW: [u8; 20] = *b"\x22\0\xe9\xf5\0\0\0\x01\x05\0\0\x01\xe1\x01\x01\x01\x0a\0\x03\x05";

/// A packet of data to the group, without its source and its checksum.
const DATA: [u8; 28] = *b"\x45\0\0\x1c\0\0\0\0\x40\x11\0\0\0\0\0\0\xe1\x01\x01\x01\
    \0\x01\0\x02\0\x03\0\x04";

/// The most sources that a Join/Prune here has.
const MOST_SOURCES: usize = 100;

/// A Hello.
pub fn hello(alloc: Global, from: Addr) -> Result<Series<u8>, AllocError> {
    let mut packet = Vec::new(alloc);
    write_pim_packet(1, from, Addr::ALL_PIM_ROUTERS, &HELLO, &mut packet)?;
    Ok(Series::from_vec(packet))
}

/// A report that asks for 10.0.3.5.
pub fn report(alloc: Global) -> Result<Series<u8>, AllocError> {
    let mut packet = Vec::new(alloc);
    write_igmp_packet(HOST, ALL_IGMP_ROUTERS, &ALLOW, &mut packet)?;
    Ok(Series::from_vec(packet))
}

/// A packet of data.
pub fn data(alloc: Global, source: Addr) -> Result<Series<u8>, AllocError> {
    let mut packet = DATA;
    packet[12..16].copy_from_slice(&source.octets());
    set_checksum(&mut packet[..20], 10);
    Ok(Series::from_vec(Vec::from_slice(alloc, &packet)?))
}

/// A Join/Prune that joins sources, at most 100; of more it is an error.
pub fn join(alloc: Global, sources: &[Addr]) -> io::Result<Series<u8>> {
    join_prune(alloc, &entries(alloc, sources)?, &[])
}

/// A Join/Prune that prunes sources, at most 100; of more it is an error.
pub fn prune(alloc: Global, sources: &[Addr]) -> io::Result<Series<u8>> {
    join_prune(alloc, &[], &entries(alloc, sources)?)
}

fn entries(alloc: Global, sources: &[Addr]) -> Result<Vec<Entry>, AllocError> {
    let mut entries = Vec::new(alloc);
    for source in sources {
        entries.push(Entry {
            kind: EntryKind::Source,
            address: *source,
        })?;
    }
    Ok(entries)
}

fn join_prune(alloc: Global, joins: &[Entry], prunes: &[Entry]) -> io::Result<Series<u8>> {
    if joins.len() > MOST_SOURCES || prunes.len() > MOST_SOURCES {
        return Err(io::Error::from(ErrorKind::InvalidInput));
    }
    let header = ControlHeader {
        router_alert: false,
        time_to_live: 1,
        protocol: PROTOCOL_PIM,
        source: JOINER,
        destination: Addr::ALL_PIM_ROUTERS,
        payload_length: 26 + 8 * (joins.len() + prunes.len()),
    };
    let mut packet = Vec::new(alloc);
    write_header(&header, &mut packet)?;
    write_join_prune(UPSTREAM, GROUP, joins, prunes, &mut packet)?;
    Ok(Series::from_vec(packet))
}
