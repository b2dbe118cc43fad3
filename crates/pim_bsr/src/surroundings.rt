//! What the front asks of the router behind it.
ghost use Rattle.std.specs.Prelude.{◌≡◌, ◌^◌, ◌≤◌};
ghost use Rattle.pim_bsr.specs.Hearing.{Around};

use pim_ip::Addr;
use pim_types::{Hop, IfaceId};

/// The router behind the front, with its neighbours and routes. Of a router in a state the answers are those of
/// `around_of`.
pub trait Surroundings {
    /// The router's answers.
    ghost around: { Self → Around };

    /// The present timestamp, in ms.
    fn present_moment(&self) -> u64
        ensures value { result ≡ (around self.now).present }
        ensures within { result ≤ 2 ^ 62 };

    /// Whether the address is one of the router's.
    fn is_own(&self, address: Addr) -> bool
        ensures { result ≡ (around self.now).own address.bits };

    /// Whether there is a neighbour with the address on the interface.
    fn is_neighbour(&self, iface: IfaceId, address: Addr) -> bool
        ensures { result ≡ (around self.now).neighbour iface.number address.bits };

    /// RPF_neighbor of the address: the next hop of the route to it, where that is a neighbour.
    fn rpf_neighbour(&self, address: Addr) -> Option<Hop>
        ensures { result ≡ (around self.now).hop address.bits };

    /// How many interfaces are configured.
    fn interface_count(&self) -> u32
        ensures { result ≡ (around self.now).count };

    /// Whether there are neighbours on the interface.
    fn has_neighbours(&self, iface: IfaceId) -> bool
        ensures { result ≡ (around self.now).linked iface.number };

    /// The router's address on the interface.
    fn address(&self, iface: IfaceId) -> Addr
        ensures { result.bits ≡ (around self.now).address iface.number };
}
