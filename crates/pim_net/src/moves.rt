//! What can happen in a network in one step.
use pim_types::{Event, IfaceId};

/// What happens in a network in one step. Routers are counted from 0, in the order of the nodes, and frames from 1, in
/// the order in which they were sent.
#[derive(Drop)]
pub enum Move {
    /// An event at a router.
    Event {
        router: usize,
        event: Event,
    },
    /// A frame comes on an interface of a router, which is on the frame's link. The router draws its delays from
    /// `draw`.
    Deliver {
        router: usize,
        iface: IfaceId,
        frame: u32,
        draw: u32,
    },
    /// A frame, of a link or not, comes for an address of a router.
    DeliverUnicast {
        router: usize,
        frame: u32,
        draw: u32,
    },
}
