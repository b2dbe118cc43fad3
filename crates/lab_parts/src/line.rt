//! The lines that are printed.
use pim_anycast::BadRpSet;
use pim_types::{Addr, Refusal, Verdict};
use std::fmt;

/// What became of a move.
#[derive(Clone, Copy)]
pub struct MoveLine<'a> {
    /// The moves are counted from 1.
    pub number: usize,
    pub router: &'a str,
    pub answer: Result<Verdict, Refusal>,
}

// One write at one exit: each `?` between writes, and each arm with a write of its own, is dear to prove.
impl fmt::Display for MoveLine<'_> {
    fn fmt<W: fmt::Write>(&self, f: &mut fmt::Formatter<W>) -> fmt::Result {
        let number = self.number;
        let router = self.router;
        let answer = Answered(self.answer);
        write!(f, "move {number} {router} {answer}")
    }
}

/// A move that a router's guard stopped.
#[derive(Clone, Copy)]
pub struct GuardedLine<'a> {
    pub number: usize,
    pub router: &'a str,
}

impl fmt::Display for GuardedLine<'_> {
    fn fmt<W: fmt::Write>(&self, f: &mut fmt::Formatter<W>) -> fmt::Result {
        let number = self.number;
        let router = self.router;
        write!(f, "move {number} {router} ignored Guarded")
    }
}

/// A move by which a router was to get sets of RPs that it can't have.
#[derive(Clone, Copy)]
pub struct BadSetsLine<'a> {
    pub number: usize,
    pub router: &'a str,
}

impl fmt::Display for BadSetsLine<'_> {
    fn fmt<W: fmt::Write>(&self, f: &mut fmt::Formatter<W>) -> fmt::Result {
        let number = self.number;
        let router = self.router;
        let refused = BadRpSet::NUMBER;
        write!(f, "move {number} {router} refused {refused}")
    }
}

// What a router answered.
#[derive(Clone, Copy)]
struct Answered(Result<Verdict, Refusal>);

impl fmt::Display for Answered {
    fn fmt<W: fmt::Write>(&self, f: &mut fmt::Formatter<W>) -> fmt::Result {
        match self.0 {
            Ok(Verdict::Done) => f.write_str("done"),
            Ok(Verdict::Ignored(reason)) => write!(f, "ignored {reason:?}"),
            Err(refusal) => {
                let refused = refusal.number();
                write!(f, "refused {refused}")
            }
        }
    }
}

/// Where a packet went.
#[derive(Clone, Copy)]
pub enum Way<'a> {
    /// A packet that leaves on the link of this name.
    Link(&'a str),
    /// A copy of a data packet that leaves on the link of this name.
    Copy(&'a str),
    /// A packet that leaves to be routed to this address.
    Address(Addr),
}

impl Way<'_> {
    // The first word of the line.
    fn word(self) -> &'static str {
        match self {
            Way::Link(_) => "frame",
            Way::Copy(_) => "copy",
            Way::Address(_) => "unicast",
        }
    }
}

impl fmt::Display for Way<'_> {
    fn fmt<W: fmt::Write>(&self, f: &mut fmt::Formatter<W>) -> fmt::Result {
        match self {
            Way::Link(link) | Way::Copy(link) => f.write_str(link),
            Way::Address(address) => write!(f, "{address}"),
        }
    }
}

/// A packet that left.
#[derive(Clone, Copy)]
pub struct PacketLine<'a> {
    /// The packets are counted from 1 over all routers.
    pub number: u32,
    pub way: Way<'a>,
    pub bytes: &'a [u8],
}

impl fmt::Display for PacketLine<'_> {
    fn fmt<W: fmt::Write>(&self, f: &mut fmt::Formatter<W>) -> fmt::Result {
        let word = self.way.word();
        let number = self.number;
        let way = self.way;
        let bytes = Hexadecimal(self.bytes);
        write!(f, "{word} {number} {way} {bytes}")
    }
}

// Bytes as two digits each.
#[derive(Clone, Copy)]
struct Hexadecimal<'a>(&'a [u8]);

impl fmt::Display for Hexadecimal<'_> {
    fn fmt<W: fmt::Write>(&self, f: &mut fmt::Formatter<W>) -> fmt::Result {
        for byte in self.0 {
            write!(f, "{byte:02x}")?;
        }
        Ok(())
    }
}
