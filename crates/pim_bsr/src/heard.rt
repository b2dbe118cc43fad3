//! What becomes of a packet that the router ignored for its type.
use pim_ip::Refusal;

/// Why a Bootstrap doesn't count, in the order in which the reasons are tested.
#[derive(Clone, Copy, PartialEq, Eq, Debug)]
pub enum Why {
    /// The router itself is its BSR.
    OwnBsr,
    /// It comes from an address that isn't a neighbour.
    NoNeighbour,
    /// Its first range is an admin scope zone.
    Scoped,
    /// It has the No-Forward bit, and isn't the first after a start.
    LateRefresh,
    /// It doesn't come from the RPF neighbour of its BSR.
    NotFromRpf,
    /// Its BSR has less weight than the elected one.
    NotPreferred,
    /// There is no room for its RPs.
    NoRoom,
}

/// What became of a packet.
#[derive(Clone, Copy, PartialEq, Eq, Debug)]
pub enum Heard {
    /// It is no Bootstrap.
    Other,
    /// It can't be read as one.
    Refused(Refusal),
    /// It doesn't count.
    Ignored(Why),
    /// It counts. True where the router is to be given other RP ranges.
    Taken(bool),
}
