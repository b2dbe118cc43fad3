//! What the upstream machines compare (RFC 7761, sections 4.5.4 to 4.5.7).
ghost use Rattle.std.specs.Prelude.{◌≡◌};
ghost use Rattle.pim_macros.specs.Sights.{InSource, InStar};
ghost use Rattle.pim_model.specs.Upstream.{is_pruned_with_star, source_view, star_view};

use crate::desires::is_same_hop;
use crate::sight::{SourceSight, StarSight};
use pim_types::{SourceView, StarView};

impl StarSight {
    /// What the upstream machine of (*,G) compares.
    #[tactic(auto, unfolding(pim_model::specs::Upstream::star_view))]
    pub fn view(&self) -> StarView
        ensures { InStar self.now (λ s g. result ≡ star_view s g) }
    {
        StarView {
            is_desired: self.join_desired(),
            rp: self.rp,
            iface: self.rp_path.map(|path| path.iface),
            next_hop: self.next_hop,
            upstream: self.rpf_neighbour(),
        }
    }
}

impl SourceSight {
    /// What the upstream machines of (S,G) and (S,G,rpt) compare.
    #[tactic(auto, unfolding(pim_model::specs::Upstream::source_view))]
    pub fn view(&self) -> SourceView
        ensures { InSource self.now (λ s g src. result ≡ source_view s g src) }
    {
        SourceView {
            is_desired: self.join_desired(),
            iface: self.path.map(|path| path.iface),
            next_hop: self.next_hop,
            upstream: self.rpf_neighbour(),
            star_upstream: self.star.rpf_neighbour(),
            tree_upstream: self.rpf_neighbour_rpt(),
            tree: self.tree_state(),
        }
    }

    /// Whether a Join(*,G) prunes the source off the shared tree (RFC 7761, section 4.5.6).
    #[tactic(auto, unfolding(pim_model::specs::Upstream::is_pruned_with_star))]
    pub fn is_pruned_with_star(&self) -> bool
        ensures { InSource self.now (λ s g src. result ≡ is_pruned_with_star s g src) }
    {
        let star = self.star.rpf_neighbour();
        if self.spt {
            !is_same_hop(star, self.rpf_neighbour())
        } else {
            self.star.is_empty(self.inherited_olist_rpt())
                || !is_same_hop(star, self.rpf_neighbour_rpt())
        }
    }
}
