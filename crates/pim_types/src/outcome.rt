//! What becomes of an event, and the packets that leave.
use crate::config::IfaceId;
use crate::series::Series;
use pim_ip::{Addr, Refusal};

/// Why an event had no effect, in the order in which the reasons are tested.
#[derive(Clone, Copy, Debug)]
pub enum Ignored {
    /// The IP source of a frame is an address of the router.
    Own,
    /// The destination isn't the router's, or the message may not come where it came.
    NotForMe,
    /// A PIM type that the router doesn't handle.
    OtherType,
    /// An Assert or a Register-Stop whose group mask isn't 32.
    Mask,
    /// A group of 224.0.0.0/24.
    LinkLocal,
    /// From an address that isn't a neighbour.
    NoNeighbour,
    /// A Register-Stop that doesn't come from the RP.
    NotRp,
    /// The interface is up, or down, already.
    Already,
}

/// Why an event changes nothing.
#[derive(Clone, Copy)]
pub enum Stop {
    Refuse(Refusal),
    Ignore(Ignored),
}

impl From<Refusal> for Stop {
    ghost use Rattle.std.specs.Prelude.{◌≡◌};
    ghost use Rattle.pim_types.specs.declared.outcome.Stop.{Stop};

    ghost from_gives = { λ refusal stop. stop ≡ Stop.Refuse refusal };

    fn from(refusal: Refusal) -> Stop {
        Stop::Refuse(refusal)
    }
}

/// What became of an event that wasn't refused.
#[derive(Clone, Copy)]
pub enum Verdict {
    Done,
    Ignored(Ignored),
}

/// A packet that leaves: a whole IPv4 packet, on a link or to an address.
#[derive(Drop)]
pub enum Emission {
    Link {
        iface: IfaceId,
        bytes: Series<u8>,
    },
    Unicast {
        destination: Addr,
        bytes: Series<u8>,
    },
}

/// The answer to an event, and what it sent.
#[derive(Drop)]
pub struct Outcome {
    pub answer: Result<Verdict, Refusal>,
    /// The packets in their order: copies of a data packet are the last, except for a packet to the RP.
    pub emissions: Series<Emission>,
    /// How many of the emissions are copies of a data packet on links.
    pub copies: u32,
}
