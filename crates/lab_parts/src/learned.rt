//! Listeners for Bootstraps (RFC 5059) before the routers of a scenario, and the lines of what they know.
ghost use Rattle.lab_parts.specs.Learning.{known_with, learning_of};
ghost use Rattle.std.specs.Prelude.{◌≡◌, IfOk};

use pim_bsr::{Choice, Elected, Learned, Listener, Part, Why};
use pim_candidate::CandidacyHeard;
use pim_scenario::FrontText;
use pim_types::{Addr, Config, Prefix, Refusal, RpRange, Series};
use std::alloc::{AllocError, Global};
use std::fmt;

/// Until when a neighbour may say at once what it learned before, in ms: all routers of a scenario start at 0.
const REFRESH_END: u64 = 60_000;

/// The settings of a listener.
#[derive(Drop)]
pub struct Learning {
    /// How many RPs are kept at most.
    pub limit: u32,
    /// The configured RP ranges.
    pub ranges: Series<RpRange>,
    /// What an RP is chosen for.
    pub choice: Choice,
}

impl Learning {
    /// Those of a router's configuration, if it hears Bootstraps.
    pub fn of(
        alloc: Global,
        text: FrontText,
        config: &Config,
    ) -> Result<Option<Learning>, AllocError>
        ensures { IfOk result (λ made. made ≡ learning_of text config.now) }
    {
        if !text.bsr {
            return Ok(None);
        }
        Ok(Some(Learning {
            limit: text.rp_limit,
            ranges: Series::from_vec(config.rps.as_slice().to_vec(alloc)?),
            choice: text.choice,
        }))
    }

    /// A listener that has heard nothing.
    pub fn listener(self, alloc: Global) -> Listener
        ensures { result ≡ known_with self }
    {
        let Learning {
            limit,
            ranges,
            choice,
        } = self;
        let mut listener = Listener::new(alloc, limit as usize, ranges.into_vec(), REFRESH_END);
        listener.choose(choice);
        listener
    }
}

/// A move by which a packet came that a listener heard, or a candidate beside it.
#[derive(Clone, Copy)]
pub struct HeardLine<'a> {
    /// The moves are counted from 1.
    pub number: usize,
    pub router: &'a str,
    pub heard: CandidacyHeard,
}

impl fmt::Display for HeardLine<'_> {
    fn fmt<W: fmt::Write>(&self, f: &mut fmt::Formatter<W>) -> fmt::Result {
        let number = self.number;
        let router = self.router;
        let answer = Answered(self.heard);
        write!(f, "move {number} {router} {answer}")
    }
}

// What became of such a packet.
#[derive(Clone, Copy)]
struct Answered(CandidacyHeard);

impl fmt::Display for Answered {
    fn fmt<W: fmt::Write>(&self, f: &mut fmt::Formatter<W>) -> fmt::Result {
        match self.0 {
            CandidacyHeard::Taken(_)
            | CandidacyHeard::PassedOn
            | CandidacyHeard::Answered(_)
            | CandidacyHeard::Advertised => f.write_str("done"),
            CandidacyHeard::Other => f.write_str("ignored OtherType"),
            CandidacyHeard::NotElected => f.write_str("ignored NotElected"),
            CandidacyHeard::Ignored(Why::NoRoom) => write_refused(f, Refusal::Full),
            CandidacyHeard::Ignored(why) => write!(f, "ignored {why:?}"),
            CandidacyHeard::Refused(refusal) => write_refused(f, refusal),
        }
    }
}

fn write_refused<W: fmt::Write>(f: &mut fmt::Formatter<W>, refusal: Refusal) -> fmt::Result {
    let refused = refusal.number();
    write!(f, "refused {refused}")
}

/// The elected BSR.
#[derive(Clone, Copy)]
pub struct ElectedLine {
    pub elected: Elected,
}

impl fmt::Display for ElectedLine {
    fn fmt<W: fmt::Write>(&self, f: &mut fmt::Formatter<W>) -> fmt::Result {
        let bsr = self.elected.bsr;
        let priority = self.elected.priority;
        let end = self.elected.end;
        write!(f, "B {bsr} {priority} {end}")
    }
}

/// An RP of a learned range.
#[derive(Clone, Copy)]
pub struct LearnedLine {
    groups: Prefix,
    rp: Addr,
    priority: u8,
    end: u64,
    state: &'static str,
}

impl LearnedLine {
    /// One in force, which the router is given or not.
    pub fn in_force(learned: Learned, is_given: bool) -> LearnedLine {
        LearnedLine {
            groups: learned.prefix,
            rp: learned.rp,
            priority: learned.priority,
            end: learned.end,
            state: if is_given { "given" } else { "kept" },
        }
    }

    /// One of a message whose other fragments haven't come.
    pub fn waiting(part: Part) -> LearnedLine {
        LearnedLine {
            groups: part.prefix,
            rp: part.rp.address,
            priority: part.rp.priority,
            end: part.until,
            state: "waits",
        }
    }
}

impl fmt::Display for LearnedLine {
    fn fmt<W: fmt::Write>(&self, f: &mut fmt::Formatter<W>) -> fmt::Result {
        let address = self.groups.address;
        let length = self.groups.length;
        let rp = self.rp;
        let priority = self.priority;
        let end = self.end;
        let state = self.state;
        write!(f, "L {address}/{length} {rp} {priority} {end} {state}")
    }
}
