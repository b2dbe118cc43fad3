//! A world made of its parts.
ghost use Rattle.std.specs.Prelude.{◌≡◌, ◌&&◌, IfSome, is_some, nat_le};
ghost use Rattle.pim_model.specs.State.{address_among, value_among};
ghost use Rattle.pim_state.specs.PartsOf.{are_held, parts_of};
ghost use Rattle.pim_state.specs.Shown.{Shows, is_dr_on};

use crate::members::with_member;
use crate::settings::LONGEST_INTERVAL;
use crate::world::World;
use igmp_membership::Membership;
use pim_ifaces::Interfaces;
use pim_ifset::IfSet;
use pim_mrib::Mrib;
use pim_neighbours::Neighbours;
use pim_store::Store;
use pim_types::{IfaceId, InterfaceConfig, Settings};

// The last timestamp that a world can have, in ms.
const LAST_TIMESTAMP: u64 = 1 << 62;

// What is configured of the interface.
fn own_among(interfaces: &Interfaces, iface: IfaceId) -> InterfaceConfig
    ensures address { result.address.bits ≡ address_among interfaces.now.configured iface.number }
    ensures priority { result.priority ≡ value_among (λ c. c.priority) interfaces.now.configured iface.number }
{
    interfaces
        .config(iface)
        .unwrap_or(InterfaceConfig::UNCONFIGURED)
}

// Whether the router is the DR of the interface.
fn is_dr_among(interfaces: &Interfaces, neighbours: &Neighbours, iface: IfaceId) -> bool
    ensures { result ≡ is_dr_on interfaces.now.configured neighbours.now iface.number }
{
    neighbours.is_dr(iface, &own_among(interfaces, iface))
}

// Where the router is the DR.
pub(crate) fn elected(interfaces: &Interfaces, neighbours: &Neighbours) -> IfSet
    ensures { Shows result (is_dr_on interfaces.now.configured neighbours.now) }
{
    let mut dr = IfSet::below(0);
    for number in 0..IfSet::LIMIT {
        let iface = IfaceId { number };
        let is_in = is_dr_among(interfaces, neighbours, iface);
        dr = with_member(dr, iface, is_in);
    }
    dr
}

impl World {
    /// The world made of its parts; none where its settings or its present time are none that a world has.
    pub fn of_parts(
        settings: Settings,
        present: u64,
        interfaces: Interfaces,
        mrib: Mrib,
        neighbours: Neighbours,
        membership: Membership,
        store: Store,
    ) -> Option<World>
        ensures made { IfSome result (λ world. world ≡ parts_of settings present interfaces mrib neighbours membership store) }
        ensures none { is_some result ≡ are_held settings present }
    {
        if present > LAST_TIMESTAMP
            || settings.robustness < 2
            || settings.robustness > 7
            || settings.query_interval > LONGEST_INTERVAL
        {
            return None;
        }
        let dr = elected(&interfaces, &neighbours);
        Some(World {
            settings,
            present,
            interfaces,
            mrib,
            neighbours,
            dr,
            membership,
            store,
            next: None,
        })
    }
}
