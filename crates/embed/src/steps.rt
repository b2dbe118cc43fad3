//! Events, one after the other.
use crate::config::{ABOVE, BELOW, BESIDE};
use crate::packets::{data, hello, join};
use crate::telling::print_packet;
use pim_router::Router;
use pim_types::{Addr, Emission, Event, EventKind, Fault, IfaceId, Series, Verdict};
use std::io::{self, ErrorKind};

/// A router's fault is want of memory, once for all.
pub fn failed(_fault: Fault) -> io::Error {
    io::Error::from(ErrorKind::OutOfMemory)
}

/// The interfaces come up, and 10.0.0.1 and 10.0.1.2 say Hello.
pub fn begin(rt: &HostRuntime, router: &mut Router) -> io::Result<()> {
    for iface in [ABOVE, BELOW, BESIDE] {
        let kind = EventKind::Up { iface };
        let _ = step(rt, router, Event { draw: 7, kind })?;
    }
    greet(rt, router, ABOVE, [10, 0, 0, 1])?;
    greet(rt, router, BELOW, [10, 0, 1, 2])
}

/// A router says Hello.
pub fn greet(
    rt: &HostRuntime,
    router: &mut Router,
    iface: IfaceId,
    octets: [u8; 4],
) -> io::Result<()> {
    let bytes = hello(rt.alloc(), Addr::from(octets))?;
    pass(rt, router, frame(iface, bytes))
}

/// The sources are joined, at most 100, and each sends a packet.
pub fn join_and_hear(rt: &HostRuntime, router: &mut Router, sources: &[Addr]) -> io::Result<()> {
    pass(rt, router, frame(BELOW, join(rt.alloc(), sources)?))?;
    for source in sources {
        pass(rt, router, frame(ABOVE, data(rt.alloc(), *source)?))?;
    }
    Ok(())
}

/// A packet that comes on a link.
pub fn frame(iface: IfaceId, bytes: Series<u8>) -> EventKind {
    EventKind::Frame { iface, bytes }
}

/// Takes an event, and prints what leaves.
pub fn take(rt: &HostRuntime, router: &mut Router, kind: EventKind) -> io::Result<()> {
    for emission in step(rt, router, Event { draw: 0, kind })? {
        print_packet(rt, &emission)?;
    }
    Ok(())
}

/// Takes an event without a word.
pub fn pass(rt: &HostRuntime, router: &mut Router, kind: EventKind) -> io::Result<()> {
    let _ = step(rt, router, Event { draw: 0, kind })?;
    Ok(())
}

// Takes an event, and gives what leaves. Where it isn't done, that is printed.
fn step(rt: &HostRuntime, router: &mut Router, event: Event) -> io::Result<Vec<Emission>> {
    let mut emissions = Vec::new(rt.alloc());
    match router.step(&event, &mut emissions).map_err(failed)? {
        Ok(Verdict::Done) => {}
        Ok(Verdict::Ignored(reason)) => println!(rt; "ignored: {reason:?}")?,
        Err(refusal) => println!(rt; "refused: {refusal}")?,
    }
    Ok(emissions)
}
