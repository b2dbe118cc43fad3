//! The addresses of a configuration, by which sets are accepted before a router has it.
ghost use Rattle.pim_model.specs.State.{addressing_of};
ghost use Rattle.std.specs.List.{list_any};
ghost use Rattle.std.specs.Prelude.{◌≡◌, ◌==◌};

use crate::rendezvous::OwnAddresses;
use crate::set::is_listed;
use pim_types::{Addr, Config, InterfaceConfig};

// Whether an address is that of an interface.
fn is_of_interface(interfaces: &[InterfaceConfig], address: Addr) -> bool
    ensures { result ≡ list_any (λ c. c.address.bits == address.bits) interfaces.now }
{
    for interface in interfaces {
        if interface.address == address {
            return true;
        }
    }
    false
}

impl OwnAddresses for Config {
    ghost configured = { λ c. addressing_of c };

    #[tactic(auto, unfolding(pim_model::specs::State::is_own_among))]
    fn is_own(&self, address: Addr) -> bool {
        is_of_interface(self.interfaces.as_slice(), address)
            || is_listed(self.addresses.as_slice(), address)
    }
}
