//! Whether an interface that goes up or down may move what has facts.
ghost use Rattle.law_events.specs.Switched.{has_any_on, is_in_use, may_lead_over};
ghost use Rattle.std.specs.Prelude.{◌≡◌};

use pim_ip::Prefix;
use pim_state::{Meter, World};
use pim_types::IfaceId;

/// Whether anything with facts may be routed over the interface: a route is over it, or its subnet has the RP of a range
/// or a fact's source. Unless a route is over it, the keys of all facts are gone through. The meter rises by the nodes
/// visited.
#[tactic(auto, using(crate::proofs::InUse::without_config, crate::proofs::InUse::by_route))]
pub fn may_lead_over(world: &World, meter: &mut Meter, iface: IfaceId) -> bool
    ensures { result ≡ may_lead_over world.now iface.number }
{
    if world.has_route_over(iface) {
        return true;
    }
    match world.interfaces().config(iface) {
        Some(config) => {
            let subnet = Prefix {
                address: config.address,
                length: config.length,
            };
            world.has_rp_in(subnet) || world.has_source_in(subnet, meter)
        }
        None => false,
    }
}

// Whether a neighbour, or a fact of a group or a source, is on the interface.
#[tactic(auto, using(crate::proofs::InUse::any_of_eight), unfolding(law_events::specs::Switched::has_any_on, igmp_membership::specs::MembershipTables::membership_keys))]
fn has_any_on(world: &World, iface: IfaceId) -> bool
    ensures { result ≡ has_any_on world.now iface.number }
{
    world.neighbours().has_on(iface)
        || world.membership().has_on(iface)
        || world.store().has_on(iface)
}

/// Whether a neighbour, or a fact of a group or a source, is on the interface, or anything with facts may be routed over
/// it. The meter rises by the nodes visited.
pub fn is_in_use(world: &World, meter: &mut Meter, iface: IfaceId) -> bool
    ensures { result ≡ is_in_use world.now iface.number }
{
    has_any_on(world, iface) || may_lead_over(world, meter, iface)
}
