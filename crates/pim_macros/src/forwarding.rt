//! What the forwarding of data reads of a source (RFC 7761, section 4.2).
ghost use Rattle.std.specs.Prelude.{◌≡◌, ◌<◌, ◌&&◌, is_some};
ghost use Rattle.pim_macros.specs.Sights.{InSource, InStar};
ghost use Rattle.pim_model.specs.Desires.{rpf_source, rpf_star};
ghost use Rattle.pim_model.specs.Forwarding.{has_local_receivers, is_spt_reached};
ghost use Rattle.pim_model.specs.Tables.{same_hop, same_option};
ghost use Rattle.pim_model.specs.Unicast.{is_connected, is_rpf_interface, is_rpf_interface_rp, rpf_interface, rpf_interface_rp};

use crate::desires::is_same_hop;
use crate::interfaces::is_over;
use crate::sight::{SourceSight, StarSight};
use pim_types::IfaceId;

impl StarSight {
    /// Whether the interface is RPF_interface(RP(G)).
    #[tactic(auto, unfolding(pim_model::specs::Unicast::rpf_interface_rp))]
    pub fn is_rpf_interface(&self, iface: IfaceId) -> bool
        ensures { InStar self.now (λ s g. result ≡ is_rpf_interface_rp s g iface.number) }
    {
        is_over(self.rp_path, iface)
    }
}

impl SourceSight {
    /// Whether the interface is RPF_interface(S).
    #[tactic(auto, unfolding(pim_model::specs::Unicast::rpf_interface))]
    pub fn is_rpf_interface(&self, iface: IfaceId) -> bool
        ensures { InSource self.now (λ s g src. result ≡ is_rpf_interface s src iface.number) }
    {
        is_over(self.path, iface)
    }

    /// Whether the source is on a link of the router.
    #[tactic(auto, unfolding(pim_model::specs::Unicast::is_connected))]
    pub fn is_connected(&self) -> bool
        ensures { InSource self.now (λ s g src. result ≡ is_connected s src) }
    {
        self.path.is_some_and(|path| path.is_connected)
    }

    /// Whether receivers on the router's own links want the source.
    #[tactic(auto, unfolding(pim_model::specs::Forwarding::has_local_receivers))]
    pub fn has_local_receivers(&self) -> bool
        ensures { InSource self.now (λ s g src. result ≡ has_local_receivers s g src) }
    {
        let by_group = self.star.pim_include().minus(self.pim_exclude());
        !self.star.is_empty(by_group.union(self.pim_include()))
    }

    // Whether RPF_interface(S) and RPF_interface(RP(G)) are the same, or both none.
    #[tactic(auto, unfolding(pim_model::specs::Unicast::rpf_interface, pim_model::specs::Unicast::rpf_interface_rp))]
    fn is_interface_shared(&self) -> bool
        ensures { InSource self.now (λ s g src. result ≡ same_option (rpf_interface s src) (rpf_interface_rp s g)) }
    {
        match (self.path, self.star.rp_path) {
            (None, None) => true,
            (Some(path), Some(rp_path)) => path.iface == rp_path.iface,
            _ => false,
        }
    }

    // Whether RPF'(S,G) is known, and is RPF'(*,G).
    fn is_neighbour_shared(&self) -> bool
        ensures { InSource self.now (λ s g src. result
            ≡ (is_some (rpf_source s g src) && same_hop (rpf_source s g src) (rpf_star s g))) }
    {
        let upstream = self.rpf_neighbour();
        upstream.is_some() && is_same_hop(upstream, self.star.rpf_neighbour())
    }

    /// Whether data that came on the interface, which is below 120, has reached the shortest path tree:
    /// Update_SPTbit(S,G,iif) (RFC 7761, section 4.2.2) sets the SPTbit.
    #[tactic(auto, unfolding(pim_model::specs::Forwarding::is_spt_reached))]
    pub fn is_spt_reached(&self, iface: IfaceId) -> bool
        requires { iface.number < 120 }
        ensures { InSource self.now (λ s g src. result ≡ is_spt_reached s g src iface.number) }
    {
        self.is_rpf_interface(iface)
            && self.join_desired()
            && (self.is_connected()
                || !self.is_interface_shared()
                || self.star.is_empty(self.inherited_olist_rpt())
                || self.is_neighbour_shared()
                || self.lost.contains(iface))
    }
}
