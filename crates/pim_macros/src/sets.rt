//! The sets of interfaces of RFC 7761, section 4.1.5.
ghost use Rattle.std.specs.Prelude.{◌≡◌};
ghost use Rattle.pim_state.specs.Shown.{Shows};
ghost use Rattle.pim_macros.specs.Sights.{InSource, InStar, wanted_by_group};
ghost use Rattle.pim_model.specs.AssertMacros.{forwarding_set};
ghost use Rattle.pim_model.specs.Neighbours.{is_dr};
ghost use Rattle.pim_model.specs.Receivers.{local_receiver_exclude, local_receiver_include, local_receiver_star};
ghost use Rattle.pim_model.specs.Sets.{immediate_olist, immediate_olist_star, inherited_olist, inherited_olist_rpt, joins, joins_star, lost_assert, lost_assert_rpt, lost_assert_star, pim_exclude, pim_include, pim_include_star, prunes, serves, serves_star, tunnel};

use crate::interfaces::interface_of;
use crate::sight::{SourceSight, StarSight};
use pim_ifset::IfSet;

impl StarSight {
    /// joins(*,G).
    pub fn joins(&self) -> IfSet
        ensures { InStar self.now (λ s g. Shows result (joins_star s g)) }
    {
        self.joined
    }

    /// local_receiver_include(*,G).
    pub fn local_receiver_include(&self) -> IfSet
        ensures { InStar self.now (λ s g. Shows result (local_receiver_star s g)) }
    {
        self.receivers
    }

    /// The interfaces on which I_am_DR holds.
    pub fn i_am_dr(&self) -> IfSet
        ensures { InStar self.now (λ s g. Shows result (is_dr s)) }
    {
        self.dr
    }

    /// lost_assert(*,G) (RFC 7761, section 4.6.5).
    #[tactic(auto, unfolding(pim_model::specs::Sets::lost_assert_star, pim_model::specs::Unicast::rpf_interface_rp))]
    pub fn lost_assert(&self) -> IfSet
        ensures { InStar self.now (λ s g. Shows result (lost_assert_star s g)) }
    {
        self.lost.minus(interface_of(self.rp_path))
    }

    /// The interfaces on which the router serves receivers of the group: it is the DR and lost no assert of (*,G), or
    /// it won that assert.
    #[tactic(auto, unfolding(pim_model::specs::Sets::serves_star))]
    pub fn serves(&self) -> IfSet
        ensures { InStar self.now (λ s g. Shows result (serves_star s g)) }
    {
        self.dr.minus(self.lost_assert()).union(self.won)
    }

    /// pim_include(*,G).
    #[tactic(auto, unfolding(pim_model::specs::Sets::pim_include_star))]
    pub fn pim_include(&self) -> IfSet
        ensures { InStar self.now (λ s g. Shows result (pim_include_star s g)) }
    {
        self.serves().intersection(self.receivers)
    }

    /// immediate_olist(*,G).
    #[tactic(auto, unfolding(pim_model::specs::Sets::immediate_olist_star))]
    pub fn immediate_olist(&self) -> IfSet
        ensures { InStar self.now (λ s g. Shows result (immediate_olist_star s g)) }
    {
        self.joined
            .union(self.pim_include())
            .minus(self.lost_assert())
    }
}

impl SourceSight {
    /// joins(S,G), with the register tunnel if it is joined.
    pub fn joins(&self) -> IfSet
        ensures interfaces { InSource self.now (λ s g src. Shows result (joins s g src)) }
        ensures tunnel { InSource self.now (λ s g src. result.tunnel ≡ tunnel s g src) }
    {
        let mut joins = self.joined;
        joins.set_tunnel(self.tunnel);
        joins
    }

    /// prunes(S,G,rpt).
    pub fn prunes(&self) -> IfSet
        ensures { InSource self.now (λ s g src. Shows result (prunes s g src)) }
    {
        self.pruned
    }

    /// local_receiver_include(S,G).
    pub fn local_receiver_include(&self) -> IfSet
        ensures { InSource self.now (λ s g src. Shows result (local_receiver_include s g src)) }
    {
        self.included
    }

    /// local_receiver_exclude(S,G).
    pub fn local_receiver_exclude(&self) -> IfSet
        ensures { InSource self.now (λ s g src. Shows result (local_receiver_exclude s g src)) }
    {
        self.excluded
    }

    /// lost_assert(S,G) (RFC 7761, section 4.6.5).
    #[tactic(auto, unfolding(pim_model::specs::Sets::lost_assert, pim_model::specs::Unicast::rpf_interface, pim_model::specs::Sets::is_beaten))]
    pub fn lost_assert(&self) -> IfSet
        ensures { InSource self.now (λ s g src. Shows result (lost_assert s g src)) }
    {
        self.lost
            .intersection(self.beaten)
            .minus(interface_of(self.path))
    }

    /// lost_assert(S,G,rpt) (RFC 7761, section 4.6.5).
    #[tactic(auto, unfolding(pim_model::specs::Sets::lost_assert_rpt, pim_model::specs::Unicast::rpf_interface, pim_model::specs::Unicast::rpf_interface_rp))]
    pub fn lost_assert_rpt(&self) -> IfSet
        ensures { InSource self.now (λ s g src. Shows result (lost_assert_rpt s g src)) }
    {
        let lost = self.lost.minus(interface_of(self.star.rp_path));
        if self.spt {
            lost.minus(interface_of(self.path))
        } else {
            lost
        }
    }

    /// The interfaces on which the router serves receivers of the source: it is the DR and lost no assert of (S,G), or
    /// it won that assert.
    #[tactic(auto, unfolding(pim_model::specs::Sets::serves))]
    pub fn serves(&self) -> IfSet
        ensures { InSource self.now (λ s g src. Shows result (serves s g src)) }
    {
        self.star.dr.minus(self.lost_assert()).union(self.won)
    }

    /// pim_include(S,G).
    #[tactic(auto, unfolding(pim_model::specs::Sets::pim_include))]
    pub fn pim_include(&self) -> IfSet
        ensures { InSource self.now (λ s g src. Shows result (pim_include s g src)) }
    {
        self.serves().intersection(self.included)
    }

    /// pim_exclude(S,G).
    #[tactic(auto, unfolding(pim_model::specs::Sets::pim_exclude))]
    pub fn pim_exclude(&self) -> IfSet
        ensures { InSource self.now (λ s g src. Shows result (pim_exclude s g src)) }
    {
        self.star.serves().intersection(self.excluded)
    }

    /// immediate_olist(S,G), with the register tunnel where it is in joins(S,G).
    #[tactic(auto, unfolding(pim_model::specs::Sets::immediate_olist))]
    pub fn immediate_olist(&self) -> IfSet
        ensures interfaces { InSource self.now (λ s g src. Shows result (immediate_olist s g src)) }
        ensures tunnel { InSource self.now (λ s g src. result.tunnel ≡ tunnel s g src) }
    {
        let mut olist = self
            .joined
            .union(self.pim_include())
            .minus(self.lost_assert());
        olist.set_tunnel(self.tunnel);
        olist
    }

    // The interfaces on which the source is wanted because its group is.
    fn wanted_by_group(&self) -> IfSet
        ensures { InSource self.now (λ s g src. Shows result (wanted_by_group s g src)) }
    {
        let joined = self.star.joined.minus(self.pruned);
        let included = self.star.pim_include().minus(self.pim_exclude());
        joined.union(included)
    }

    /// inherited_olist(S,G,rpt).
    #[tactic(auto, unfolding(pim_model::specs::Sets::inherited_olist_rpt))]
    pub fn inherited_olist_rpt(&self) -> IfSet
        ensures { InSource self.now (λ s g src. Shows result (inherited_olist_rpt s g src)) }
    {
        let lost = self.star.lost_assert().union(self.lost_assert_rpt());
        self.wanted_by_group().minus(lost)
    }

    /// inherited_olist(S,G), with the register tunnel where it is in joins(S,G).
    #[tactic(auto, unfolding(pim_model::specs::Sets::inherited_olist))]
    pub fn inherited_olist(&self) -> IfSet
        ensures interfaces { InSource self.now (λ s g src. Shows result (inherited_olist s g src)) }
        ensures tunnel { InSource self.now (λ s g src. result.tunnel ≡ tunnel s g src) }
    {
        let mut olist = self
            .inherited_olist_rpt()
            .union(self.joined)
            .union(self.pim_include())
            .minus(self.lost_assert());
        olist.set_tunnel(self.tunnel);
        olist
    }

    /// The interfaces on which (S,G) is forwarded, without those that only receivers of this source want.
    #[tactic(auto, unfolding(pim_model::specs::AssertMacros::forwarding_set))]
    pub fn forwarding_set(&self) -> IfSet
        ensures { InSource self.now (λ s g src. Shows result (forwarding_set s g src)) }
    {
        self.wanted_by_group()
            .minus(self.star.lost_assert())
            .union(self.joined)
    }
}
