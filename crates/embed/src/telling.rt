//! What is printed.
use crate::packets::GROUP;
use pim_ifset::IfSet;
use pim_mfc::CacheRow;
use pim_router::Router;
use pim_types::{Addr, Emission};
use std::io;

/// Prints a packet that leaves, in hexadecimal.
pub fn print_packet(rt: &HostRuntime, emission: &Emission) -> io::Result<()> {
    match emission {
        Emission::Link { iface, bytes } => {
            print!(rt; "on {}: ", iface.number)?;
            tell_bytes(rt, bytes.as_slice())
        }
        Emission::Unicast { destination, bytes } => {
            print!(rt; "to {destination}: ")?;
            tell_bytes(rt, bytes.as_slice())
        }
    }
}

fn tell_bytes(rt: &HostRuntime, bytes: &[u8]) -> io::Result<()> {
    for byte in bytes {
        print!(rt; "{byte:02x}")?;
    }
    println!(rt; "")
}

/// The row of a source.
pub fn tell(rt: &HostRuntime, router: &Router, source: Addr) -> io::Result<()> {
    print!(rt; "({source},{GROUP}): ")?;
    match router.cached(source, GROUP) {
        Some(row) => tell_row(rt, &row),
        None => println!(rt; "no row"),
    }
}

fn tell_row(rt: &HostRuntime, row: &CacheRow) -> io::Result<()> {
    tell_set(rt, "immediate", row.immediate)?;
    tell_set(rt, "inherited", row.inherited)?;
    tell_set(rt, "inherited_rpt", row.inherited_rpt)?;
    match row.rpf {
        Some(iface) => print!(rt; "rpf {}, ", iface.number)?,
        None => print!(rt; "rpf none, ")?,
    }
    println!(rt; "spt {}", row.spt)
}

fn tell_set(rt: &HostRuntime, name: &str, set: IfSet) -> io::Result<()> {
    print!(rt; "{name} {{")?;
    for (place, iface) in set.iter().enumerate() {
        if place > 0 {
            print!(rt; ", ")?;
        }
        print!(rt; "{}", iface.number)?;
    }
    print!(rt; "}}")?;
    if set.has_tunnel() {
        print!(rt; " and the tunnel")?;
    }
    print!(rt; ", ")
}

/// Whether the last event visited at least one trie node, and at most those of a group's path and a source's.
pub fn tell_path(rt: &HostRuntime, router: &Router) -> io::Result<()> {
    let is_within = (1..=66).contains(&router.probes());
    println!(rt; "within a path: {is_within}")
}

/// How many rows of the cache the last event touched.
pub fn tell_touched(rt: &HostRuntime, router: &Router) -> io::Result<()> {
    println!(rt; "touched {}", router.touched())
}

/// How many of these sources have a row.
pub fn rows_of(router: &Router, sources: &[Addr]) -> usize {
    sources
        .iter()
        .filter(|source| router.cached(**source, GROUP).is_some())
        .count()
}
