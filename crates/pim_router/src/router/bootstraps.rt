//! What a front that hears Bootstraps asks of the router.
ghost use Rattle.std.specs.Option.{option_map_or};
ghost use Rattle.std.specs.Prelude.{◌≡◌, ◌==◌, false, not, option_and_then};
ghost use Rattle.pim_model.specs.Neighbours.{is_neighbour, nbr, neighbour_count};
ghost use Rattle.pim_model.specs.State.{my_address};
ghost use Rattle.pim_model.specs.Unicast.{route};

use super::Router;
use pim_types::{Addr, Hop, IfaceId};

impl Router {
    /// Whether there is a neighbour with the address on the interface; false where the router has failed. No memory is
    /// taken.
    pub fn is_neighbour(&self, iface: IfaceId, address: Addr) -> bool
        ensures { result ≡ option_map_or (λ r. is_neighbour r.state iface.number address.bits) self.now.standing false }
    {
        if self.failed {
            return false;
        }
        self.core.world.neighbours().contains(iface, address)
    }

    /// RPF_neighbor of an address: the next hop of the route to it, where that is a neighbour. `None` where the router has
    /// failed. No memory is taken.
    #[tactic(auto, unfolding(pim_model::specs::Neighbours::nbr))]
    pub fn rpf_neighbour(&self, address: Addr) -> Option<Hop>
        ensures { result ≡ option_and_then (λ r. nbr r.state (route r.state address.bits)) self.now.standing }
    {
        if self.failed {
            return None;
        }
        let mut outside = self.probes.outside();
        let path = self.core.world.route(address, &mut outside.meter);
        self.core.world.neighbours().nbr(path)
    }

    /// Whether there are neighbours on the interface; false where the router has failed. No memory is taken.
    pub fn has_neighbours(&self, iface: IfaceId) -> bool
        ensures { result ≡ option_map_or (λ r. not (neighbour_count r.state iface.number == 0)) self.now.standing false }
    {
        if self.failed {
            return false;
        }
        self.core.world.neighbours().count_on(iface) != 0
    }

    /// The router's address on the interface; 0.0.0.0 where the interface isn't configured, and where the router has
    /// failed. No memory is taken.
    pub fn address(&self, iface: IfaceId) -> Addr
        ensures { result.bits ≡ option_map_or (λ r. my_address r.state iface.number) self.now.standing 0 }
    {
        if self.failed {
            return Addr::NONE;
        }
        self.core.world.address(iface)
    }
}
