//! The router as what stands before it asks it.
ghost use Rattle.std.specs.Prelude.{◌≡◌};

use igmp_older::Querier;
use pim_anycast::{OwnAddresses, Rendezvous};
use pim_bsr::Surroundings;
use pim_router::Router;
use pim_types::fact::GroupRecordRow;
use pim_types::{Addr, Hop, IfaceId, SourceGroup};
use std::alloc::{AllocError, Global};
use std::marker::Model;

/// A router that is asked.
#[derive(Drop)]
pub(crate) struct Asked<'a> {
    router: &'a Router,
}

impl<'a> Model for Asked<'a> {
    ghost use Rattle.pim_router.specs.Standing.{Shown};

    ghost Value = { Shown };

    ghost view = { λ q. q.router.now };
}

impl<'a> Asked<'a> {
    pub(crate) fn of(router: &'a Router) -> Asked<'a>
        ensures { result ≡ router.now }
    {
        Asked { router }
    }
}

impl<'a> Querier for Asked<'a> {
    ghost use Rattle.std.specs.Option.{option_map_or};
    ghost use Rattle.std.specs.Prelude.{[]};

    ghost present = { λ q. option_map_or (λ r. r.state.present) q.standing 0 };

    ghost group_records = { λ q. option_map_or (λ r. r.state.group_records) q.standing [] };

    fn present_moment(&self) -> u64 {
        self.router.present_moment()
    }

    fn has_group_record(&self, iface: IfaceId, group: Addr) -> bool {
        self.router.has_group_record(iface, group)
    }

    fn group_record(&self, iface: IfaceId, group: Addr) -> Option<GroupRecordRow> {
        self.router.group_record(iface, group)
    }
}

impl<'a> OwnAddresses for Asked<'a> {
    ghost use Rattle.std.specs.Option.{option_map_or};
    ghost use Rattle.std.specs.Prelude.{[]};

    ghost configured = { λ q. option_map_or (λ r. r.state.configured) q.standing (record { interfaces = []; addresses = [] }) };

    fn is_own(&self, address: Addr) -> bool {
        self.router.is_own(address)
    }
}

impl<'a> Rendezvous for Asked<'a> {
    ghost use Rattle.pim_anycast.specs.Announced.{is_local, local_keys};
    ghost use Rattle.pim_model.specs.Unicast.{no_ranges};
    ghost use Rattle.std.specs.Option.{option_map_or};
    ghost use Rattle.std.specs.Prelude.{[], false};

    ghost present = { λ q. option_map_or (λ r. r.state.present) q.standing 0 };

    ghost ranges = { λ q. option_map_or (λ r. r.state.ranges) q.standing no_ranges };

    ghost is_local = { λ q g src. option_map_or (λ r. is_local r.state g src) q.standing false };

    ghost local_keys = { λ q. option_map_or (λ r. local_keys r.state) q.standing [] };

    fn present_moment(&self) -> u64 {
        self.router.present_moment()
    }

    fn rp(&self, group: Addr) -> Option<Addr> {
        self.router.rp(group)
    }

    #[tactic(auto, unfolding(pim_anycast::specs::Announced::is_local))]
    fn is_local(&self, name: SourceGroup) -> bool {
        self.router.is_local(name)
    }

    #[tactic(auto, unfolding(pim_anycast::specs::Announced::is_local, pim_anycast::specs::Announced::local_keys))]
    fn local_sources(&self, alloc: Global) -> Result<Vec<SourceGroup>, AllocError> {
        self.router.local_sources(alloc)
    }
}

impl<'a> Surroundings for Asked<'a> {
    ghost use Rattle.pim_session.specs.Heard.{around_in};

    ghost around = { λ q. around_in q.standing };

    fn present_moment(&self) -> u64 {
        self.router.present_moment()
    }

    fn is_own(&self, address: Addr) -> bool {
        self.router.is_own(address)
    }

    fn is_neighbour(&self, iface: IfaceId, address: Addr) -> bool {
        self.router.is_neighbour(iface, address)
    }

    #[tactic(auto, unfolding(pim_bsr::specs::Hearing::rpf_hop))]
    fn rpf_neighbour(&self, address: Addr) -> Option<Hop> {
        self.router.rpf_neighbour(address)
    }

    fn interface_count(&self) -> u32 {
        self.router.interface_count()
    }

    fn has_neighbours(&self, iface: IfaceId) -> bool {
        self.router.has_neighbours(iface)
    }

    fn address(&self, iface: IfaceId) -> Addr {
        self.router.address(iface)
    }
}
