//! What happens to a router.
use crate::config::{IfaceId, Route, RpCandidate, RpRange};
use crate::series::Series;

/// What happens to a router in one step.
#[derive(Drop)]
pub enum EventKind {
    /// Time passes up to this timestamp, in ms: the timers that are due by then expire.
    Advance { moment: u64 },
    /// An IPv4 packet received on a link.
    Frame { iface: IfaceId, bytes: Series<u8> },
    /// An IPv4 packet received for an address of the router.
    Unicast { bytes: Series<u8> },
    /// The interface goes up.
    Up { iface: IfaceId },
    /// The interface goes down.
    Down { iface: IfaceId },
    /// The unicast routes are replaced.
    Routes { routes: Series<Route> },
    /// The RP ranges are replaced.
    Rps { rps: Series<RpRange> },
    /// The candidate RPs are replaced. A new router has none.
    RpCandidates { candidates: Series<RpCandidate> },
}

/// An event, with the number from which its random delays are drawn.
#[derive(Drop)]
pub struct Event {
    pub draw: u32,
    pub kind: EventKind,
}
