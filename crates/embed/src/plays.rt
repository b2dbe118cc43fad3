//! The plays. In all but the first the router has come up, and 10.0.0.1 and 10.0.1.2 have said Hello.
use crate::config::{self, ABOVE, BELOW, BESIDE, routes_with};
use crate::packets::{data, hello, join, prune, report};
use crate::serve::serve;
use crate::steps::{begin, frame, greet, join_and_hear, pass, take};
use crate::telling::{rows_of, tell, tell_path, tell_touched};
use pim_router::Router;
use pim_types::{Addr, Config, EventKind, Prefix};
use std::alloc::{AllocError, Global};
use std::io;
use std::ops::Range;

/// What happens to a router.
#[derive(Clone, Copy)]
pub enum Play {
    Served,
    JoinedSource,
    EightSources,
    LongerRoute,
    AnotherDr,
    InterfaceDown,
    ManySources,
}

impl Play {
    /// All plays, in the order of their lines.
    pub const ALL: [Play; 7] = [
        Play::Served,
        Play::JoinedSource,
        Play::EightSources,
        Play::LongerRoute,
        Play::AnotherDr,
        Play::InterfaceDown,
        Play::ManySources,
    ];

    /// The configuration of the play's router.
    pub fn config(self, alloc: Global) -> Result<Config, AllocError> {
        match self {
            Play::Served => config::small(alloc),
            _ => config::routed(alloc),
        }
    }

    /// Plays the play with a router.
    pub fn with(self, rt: &HostRuntime, router: &mut Router) -> io::Result<()> {
        match self {
            Play::Served => serve(rt, router),
            Play::JoinedSource => play_joined_source(rt, router),
            Play::EightSources => eight_sources(rt, router),
            Play::LongerRoute => longer_route(rt, router),
            Play::AnotherDr => another_dr(rt, router),
            Play::InterfaceDown => interface_down(rt, router),
            Play::ManySources => many_sources(rt, router),
        }
    }
}

// A source in 10.0.3.0/24.
fn near(last: u8) -> Addr {
    Addr::from([10, 0, 3, last])
}

// A source in 10.64.0.0/16.
fn far(number: u16) -> Addr {
    let [third, last] = number.to_be_bytes();
    Addr::from([10, 64, third, last])
}

fn all_near(alloc: Global, numbers: Range<u8>) -> Result<Vec<Addr>, AllocError> {
    let mut sources = Vec::new(alloc);
    for last in numbers {
        sources.push(near(last))?;
    }
    Ok(sources)
}

fn all_far(alloc: Global, numbers: Range<u16>) -> Result<Vec<Addr>, AllocError> {
    let mut sources = Vec::new(alloc);
    for number in numbers {
        sources.push(far(number))?;
    }
    Ok(sources)
}

fn take_join(rt: &HostRuntime, router: &mut Router, source: Addr) -> io::Result<()> {
    println!(rt; "10.0.1.2 joins {source}")?;
    take(rt, router, frame(BELOW, join(rt.alloc(), &[source])?))
}

fn take_prune(rt: &HostRuntime, router: &mut Router, source: Addr) -> io::Result<()> {
    println!(rt; "10.0.1.2 prunes {source}")?;
    take(rt, router, frame(BELOW, prune(rt.alloc(), &[source])?))
}

fn take_data(rt: &HostRuntime, router: &mut Router, source: Addr) -> io::Result<()> {
    println!(rt; "a packet of {source} on 0")?;
    take(rt, router, frame(ABOVE, data(rt.alloc(), source)?))
}

// A route by 10.0.2.9 comes beside the others.
fn take_route(rt: &HostRuntime, router: &mut Router, prefix: Prefix) -> io::Result<()> {
    println!(rt; "{}/{} by 10.0.2.9 on 2", prefix.address, prefix.length)?;
    let routes = routes_with(rt.alloc(), prefix)?;
    take(rt, router, EventKind::Routes { routes })?;
    tell_touched(rt, router)
}

fn play_joined_source(rt: &HostRuntime, router: &mut Router) -> io::Result<()> {
    begin(rt, router)?;
    println!(rt; "\nA joined source, and others")?;
    take_join(rt, router, near(5))?;
    take_data(rt, router, near(5))?;
    tell(rt, router, near(5))?;
    take_data(rt, router, near(5))?;
    tell_path(rt, router)?;
    tell(rt, router, near(6))?;
    let before = router.probes();
    hear_others(rt, router)?;
    take_data(rt, router, near(5))?;
    let is_as_before = router.probes() == before;
    println!(rt; "probes as before: {is_as_before}")
}

// Sources that nobody joined.
fn hear_others(rt: &HostRuntime, router: &mut Router) -> io::Result<()> {
    println!(rt; "a packet of each of 200 other sources on 0")?;
    let sources = all_near(rt.alloc(), 6..206)?;
    let mut touched = 0u64;
    for source in &sources {
        pass(rt, router, frame(ABOVE, data(rt.alloc(), *source)?))?;
        touched = touched.saturating_add(router.touched());
    }
    let rows = rows_of(router, &sources);
    println!(rt; "{rows} rows of them, {touched} touched")
}

fn eight_sources(rt: &HostRuntime, router: &mut Router) -> io::Result<()> {
    begin(rt, router)?;
    println!(rt; "\nEight joined sources")?;
    let sources = all_near(rt.alloc(), 5..13)?;
    join_and_hear(rt, router, &sources)?;
    println!(rt; "{} rows", rows_of(router, &sources))?;
    take_join(rt, router, near(6))?;
    tell_touched(rt, router)?;
    take_prune(rt, router, near(5))?;
    tell_touched(rt, router)?;
    tell(rt, router, near(5))?;
    tell(rt, router, near(6))
}

fn longer_route(rt: &HostRuntime, router: &mut Router) -> io::Result<()> {
    begin(rt, router)?;
    println!(rt; "\nA longer route to one of two sources")?;
    greet(rt, router, BESIDE, [10, 0, 2, 9])?;
    let sources = [near(5), near(200)];
    join_and_hear(rt, router, &sources)?;
    println!(rt; "{} rows", rows_of(router, &sources))?;
    let prefix = Prefix {
        address: near(128),
        length: 25,
    };
    take_route(rt, router, prefix)?;
    tell(rt, router, near(200))?;
    tell(rt, router, near(5))
}

fn another_dr(rt: &HostRuntime, router: &mut Router) -> io::Result<()> {
    begin(rt, router)?;
    println!(rt; "\nA DR that is another router")?;
    println!(rt; "a host on 2 asks for {}", near(5))?;
    take(rt, router, frame(BESIDE, report(rt.alloc())?))?;
    take_data(rt, router, near(5))?;
    tell(rt, router, near(5))?;
    println!(rt; "10.0.2.9 says Hello on 2")?;
    let hello = hello(rt.alloc(), Addr::from([10, 0, 2, 9]))?;
    take(rt, router, frame(BESIDE, hello))?;
    tell(rt, router, near(5))
}

fn interface_down(rt: &HostRuntime, router: &mut Router) -> io::Result<()> {
    begin(rt, router)?;
    println!(rt; "\nAn interface that goes down")?;
    join_and_hear(rt, router, &[near(5)])?;
    tell(rt, router, near(5))?;
    println!(rt; "interface 1 goes down")?;
    take(rt, router, EventKind::Down { iface: BELOW })?;
    tell(rt, router, near(5))?;
    println!(rt; "to 210000 ms")?;
    pass(rt, router, EventKind::Advance { moment: 210_000 })?;
    tell(rt, router, near(5))
}

fn many_sources(rt: &HostRuntime, router: &mut Router) -> io::Result<()> {
    begin(rt, router)?;
    println!(rt; "\nOne of 10000 sources on another interface")?;
    greet(rt, router, BESIDE, [10, 0, 2, 9])?;
    hear_many(rt, router)?;
    let sources = all_far(rt.alloc(), 1..10_001)?;
    println!(rt; "{} rows", rows_of(router, &sources))?;
    take_data(rt, router, far(5000))?;
    tell_path(rt, router)?;
    let prefix = Prefix {
        address: far(5000),
        length: 32,
    };
    take_route(rt, router, prefix)?;
    tell(rt, router, far(5000))?;
    tell(rt, router, far(5001))?;
    println!(rt; "{} rows", rows_of(router, &sources))
}

// 10,000 sources are joined, 100 at once, and each sends a packet.
fn hear_many(rt: &HostRuntime, router: &mut Router) -> io::Result<()> {
    for hundred in 0..100u16 {
        let first = 100 * hundred + 1;
        let sources = all_far(rt.alloc(), first..first + 100)?;
        join_and_hear(rt, router, &sources)?;
    }
    Ok(())
}
