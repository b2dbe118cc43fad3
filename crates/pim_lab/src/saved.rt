//! Scenarios in which routers begin in saved states, or in which the states of some are saved at the end.
ghost use Rattle.pim_lab.specs.Statuses.{IsAccepted};
ghost use Rattle.std.specs.Prelude.{◌≡◌, ◌⊎◌};

use crate::lab::Lab;
use crate::playing::{Opened, open_scenario, play_moves, print_tables};
use igmp_older_saved::HeldRefusal;
use lab_parts::{Lines, Trouble};
use pim_anycast::BadRpSet;
use pim_bsr::ListenerRefusal;
use pim_net::{Unrestored, Wire};
use pim_scenario::{Complaint, ScenarioMove, Tables};
use pim_types::{Fault, Series};
use std::alloc::Global;
use std::io::{self, Write};

/// A router by its name, and the bytes of its state.
#[derive(Clone, Copy)]
pub struct Begin<'a> {
    pub router: &'a str,
    pub bytes: &'a [u8],
}

/// Which routers begin in saved states, and whose states are saved at the end.
#[derive(Clone, Copy)]
pub struct States<'a> {
    pub from: &'a [Begin<'a>],
    pub save: &'a [&'a str],
}

/// Why a router isn't put into a saved state.
#[derive(Clone, Copy)]
pub(crate) enum Unresumed {
    Router(Unrestored),
    /// The older hosts in the bytes aren't read, or are none that the router can have.
    Hosts,
    /// The router can't have its sets of RPs in that state.
    RpSets,
    /// No listener for Bootstraps is made of the bytes.
    Listener(ListenerRefusal),
}

/// What ends a run from saved states, or to one, before its end.
#[derive(Clone, Copy)]
enum Stop<'a> {
    Trouble(Trouble),
    /// The scenario has no router of this name.
    NoRouter(&'a str),
    Unresumed(Unresumed),
}

impl Stop<'_> {
    // Writes the message, and returns the status of the program.
    fn tell<E: Write>(self, err: &mut E) -> u8
        ensures { (result ≡ 2) ⊎ (result ≡ 3) ⊎ (result ≡ 4) }
    {
        match self {
            Stop::Trouble(trouble) => trouble.tell(err),
            Stop::NoRouter(name) => Complaint::Router(name).tell(err),
            Stop::Unresumed(why) => why.tell(err),
        }
    }
}

impl Unresumed {
    // Writes the message, and returns the status of the program.
    fn tell<E: Write>(self, err: &mut E) -> u8
        ensures { (result ≡ 2) ⊎ (result ≡ 3) ⊎ (result ≡ 4) }
    {
        match self {
            // Each name was looked up before.
            Unresumed::Router(Unrestored::NoRouter) => Complaint::CommandLine.tell(err),
            Unresumed::Router(Unrestored::OtherInterfaces) => {
                told(err.writeln("pimlab: saved state has other interfaces"))
            }
            Unresumed::Router(Unrestored::Bytes(refusal)) => tell_refused(refusal.number(), err),
            Unresumed::Hosts => tell_refused(HeldRefusal::HostsNotHeld.number(), err),
            Unresumed::RpSets => tell_refused(BadRpSet::NUMBER, err),
            Unresumed::Listener(refusal) => tell_refused(refusal.number(), err),
        }
    }
}

// Writes the number of the refusal of a saved state, and returns the status of the program.
fn tell_refused<E: Write>(number: u8, err: &mut E) -> u8
    ensures { (result ≡ 2) ⊎ (result ≡ 3) }
{
    told(err.writeln(format_args!("pimlab: saved state refused: {number}")))
}

// The status where a saved state isn't taken: 3 where the line can't be written.
fn told(written: io::Result<()>) -> u8
    ensures { (result ≡ 2) ⊎ (result ≡ 3) }
{
    match written {
        Ok(()) => 2,
        Err(_) => 3,
    }
}

impl From<Trouble> for Stop<'_> {
    ghost use Rattle.std.specs.Prelude.{◌≡◌};
    ghost use Rattle.pim_lab.specs.declared.saved.Stop.{Stop};

    ghost from_gives = { λ trouble stop. stop ≡ Stop.Trouble trouble };

    fn from(trouble: Trouble) -> Self {
        Stop::Trouble(trouble)
    }
}

impl From<Fault> for Stop<'_> {
    ghost use Rattle.std.specs.Prelude.{◌≡◌};
    ghost use Rattle.pim_lab.specs.declared.saved.Stop.{Stop};
    ghost use Rattle.lab_parts.specs.declared.trouble.Trouble.{Trouble};

    ghost from_gives = { λ fault stop. stop ≡ Stop.Trouble (Trouble.Fault fault) };

    fn from(fault: Fault) -> Self {
        Stop::Trouble(Trouble::Fault(fault))
    }
}

impl From<Unresumed> for Stop<'_> {
    ghost use Rattle.std.specs.Prelude.{◌≡◌};
    ghost use Rattle.pim_lab.specs.declared.saved.Stop.{Stop};

    ghost from_gives = { λ why stop. stop ≡ Stop.Unresumed why };

    fn from(why: Unresumed) -> Self {
        Stop::Unresumed(why)
    }
}

/// As [`play_with`](crate::playing::play_with), but routers may begin in saved states, and the states of some may be added
/// to `saved` at the end, in the order in which they are asked for. A router by a name that the scenario doesn't have, and
/// a saved state that isn't taken, are refused before the first move, with status 2. A router that is named twice begins
/// in the last state that is given for it.
pub fn play_saved<W: Wire, O: Write, E: Write>(
    alloc: Global,
    text: &str,
    wire: W,
    tables: Tables,
    states: States<'_>,
    saved: &mut Vec<Vec<u8>>,
    out: &mut O,
    err: &mut E,
) -> u8
    ensures status { (result ≡ 0) ⊎ (result ≡ 2) ⊎ (result ≡ 3) ⊎ (result ≡ 4) }
    ensures silent { (IsAccepted text.now → ⊥) → out.new ≡ out.old }
{
    let Opened { lab, moves } = match open_scenario(alloc, text, wire, tables.after_each) {
        Ok(opened) => opened,
        Err(trouble) => return trouble.tell(err),
    };
    match run_saved(alloc, lab, moves, tables.at_end, states, saved, out) {
        Ok(()) => 0,
        Err(stop) => stop.tell(err),
    }
}

// Does the moves between the two states. What can fail borrows the lab, so the lab is dropped in one place.
fn run_saved<'a, W: Wire, O: Write>(
    alloc: Global,
    lab: Lab<W>,
    moves: Series<ScenarioMove>,
    tables: bool,
    states: States<'a>,
    saved: &mut Vec<Vec<u8>>,
    out: &mut O,
) -> Result<(), Stop<'a>> {
    let mut lab = lab;
    let mut lines = Lines::new(alloc);
    start(&mut lab, states)?;
    play_moves(&mut lab, moves, &mut lines, out)?;
    if tables {
        print_tables(&lab, &mut lines, out)?;
    }
    save(alloc, &lab, states.save, saved)?;
    Ok(())
}

// Puts routers into their saved states. A name that no router has is refused, also of a router to be saved.
fn start<'a, W: Wire>(lab: &mut Lab<W>, states: States<'a>) -> Result<(), Stop<'a>> {
    find(lab, states.save)?;
    for begin in states.from {
        find(lab, &[begin.router])?;
        lab.restore(begin.router, begin.bytes)??;
    }
    Ok(())
}

// Refuses a name that no router has.
fn find<'a, W: Wire>(lab: &Lab<W>, names: &[&'a str]) -> Result<(), Stop<'a>> {
    for name in names {
        if lab.place_of(name).is_none() {
            return Err(Stop::NoRouter(name));
        }
    }
    Ok(())
}

// Adds the states of routers to those that are saved.
fn save<W: Wire>(
    alloc: Global,
    lab: &Lab<W>,
    names: &[&str],
    saved: &mut Vec<Vec<u8>>,
) -> Result<(), Fault> {
    for name in names {
        let mut bytes = Vec::new(alloc);
        lab.save(name, &mut bytes)?;
        saved.push(bytes)?;
    }
    Ok(())
}
