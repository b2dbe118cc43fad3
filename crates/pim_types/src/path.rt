//! Unicast routes to an address, and PIM neighbours.
use crate::config::IfaceId;
use pim_ip::Addr;

/// A unicast route to an address. On a link the next hop is the address itself, with preference and
/// metric 0.
#[derive(Clone, Copy)]
pub struct Path {
    pub iface: IfaceId,
    pub next_hop: Addr,
    pub preference: u32,
    pub metric: u32,
    /// The address is on a link of the router.
    pub is_connected: bool,
}

/// A PIM router on a link: `RPF'` and `NBR` of RFC 7761, section 4.1.5.
#[derive(Clone, Copy, PartialEq, Eq)]
pub struct Hop {
    pub iface: IfaceId,
    pub address: Addr,
}
