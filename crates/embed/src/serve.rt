//! The loop of a program that feeds a router: an event comes, and what becomes of it is printed, with what leaves.
use crate::config::{ABOVE, BELOW};
use crate::steps::failed;
use crate::telling::print_packet;
use pim_router::Router;
use pim_types::{Emission, Event, EventKind, IfaceId, Refusal, Series, Verdict};
use std::io;

// A Hello of 10.0.0.1, one of 10.0.1.2, and the Join(*,225.1.1.1) of 10.0.1.2 to 10.0.1.1.
const HELLO_ABOVE: &[u8] = b"\x45\xc0\0\x1e\0\0\0\0\x01\x67\xce\xab\x0a\0\0\x01\xe0\0\0\x0d\
    \x20\0\xdf\xfc\0\x01\0\x02\xff\xff";

const HELLO_BELOW: &[u8] = b"\x45\xc0\0\x1e\0\0\0\0\x01\x67\xcd\xaa\x0a\0\x01\x02\xe0\0\0\x0d\
    \x20\0\xdf\xfc\0\x01\0\x02\xff\xff";

const JOIN: &[u8] = b"\x45\xc0\0\x36\0\0\0\0\x01\x67\xcd\x92\x0a\0\x01\x02\xe0\0\0\x0d\
    \x23\0\xda\xe6\x01\0\x0a\0\x01\x01\0\x01\0\xd2\
    \x01\0\0\x20\xe1\x01\x01\x01\0\x01\0\0\x01\0\x07\x20\x0a\0\0\x01";

/// Serves the router until three timers have expired.
pub fn serve(rt: &HostRuntime, router: &mut Router) -> io::Result<()> {
    begin(rt, router)?;
    take(rt, router, frame(rt, ABOVE, HELLO_ABOVE)?)?;
    take(rt, router, frame(rt, BELOW, HELLO_BELOW)?)?;
    take(rt, router, frame(rt, BELOW, JOIN)?)?;
    for _ in 0..3 {
        if let Some(moment) = router.next_moment() {
            take(rt, router, EventKind::Advance { moment })?;
        }
    }
    Ok(())
}

// The two interfaces come up: several events at once.
fn begin(rt: &HostRuntime, router: &mut Router) -> io::Result<()> {
    let events = [ABOVE, BELOW].map(|iface| Event {
        draw: 7,
        kind: EventKind::Up { iface },
    });
    for outcome in router.run(&events).map_err(failed)? {
        say(rt, outcome.answer, outcome.emissions.as_slice())?;
    }
    Ok(())
}

fn frame(rt: &HostRuntime, iface: IfaceId, packet: &[u8]) -> io::Result<EventKind> {
    let bytes = Series::from_vec(Vec::from_slice(rt.alloc(), packet)?);
    Ok(EventKind::Frame { iface, bytes })
}

// Takes one event; its draw should be another random number each time.
fn take(rt: &HostRuntime, router: &mut Router, kind: EventKind) -> io::Result<()> {
    let event = Event { draw: 7, kind };
    let mut emissions = Vec::new(rt.alloc());
    let answer = router.step(&event, &mut emissions).map_err(failed)?;
    say(rt, answer, &emissions)
}

// What became of an event, and what leaves.
fn say(
    rt: &HostRuntime,
    answer: Result<Verdict, Refusal>,
    emissions: &[Emission],
) -> io::Result<()> {
    match answer {
        Ok(Verdict::Done) => println!(rt; "done")?,
        Ok(Verdict::Ignored(reason)) => println!(rt; "ignored: {reason:?}")?,
        Err(refusal) => println!(rt; "refused: {refusal}")?,
    }
    // A program that serves a real network would send the packet here.
    for emission in emissions {
        print_packet(rt, emission)?;
    }
    Ok(())
}
