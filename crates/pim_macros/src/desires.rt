//! What the router wants of its upstream neighbours (RFC 7761, sections 4.5.4 to 4.5.7), and who they are (section
//! 4.1.5).
ghost use Rattle.std.specs.Prelude.{◌≡◌, ℕ, Bool};
ghost use Rattle.pim_state.specs.Shown.{Shows};
ghost use Rattle.pim_macros.specs.Sights.{InSource, InStar, IsStarSight};
ghost use Rattle.pim_model.specs.Desires.{is_immediate_empty, is_inherited_empty, join_desired, join_desired_star, prune_desired, rpf_rpt, rpf_source, rpf_star, tree_state};
ghost use Rattle.pim_model.specs.Sets.{is_empty};
ghost use Rattle.pim_model.specs.State.{State};
ghost use Rattle.pim_model.specs.Tables.{same_hop};

use crate::sight::{SourceSight, StarSight};
use pim_ifset::IfSet;
use pim_types::{Hop, TreeState};

/// Whether both are the same neighbour, or both none.
pub fn is_same_hop(first: Option<Hop>, second: Option<Hop>) -> bool
    ensures { result ≡ same_hop first second }
{
    match (first, second) {
        (None, None) => true,
        (Some(first), Some(second)) => first == second,
        _ => false,
    }
}

impl StarSight {
    /// Whether no configured interface is in the set. The register tunnel doesn't count.
    pub(crate) fn is_empty(&self, set: IfSet) -> bool
        ensures { (s : State) (test : ℕ → Bool) → IsStarSight s self.now → Shows set test → result ≡ is_empty s test }
    {
        set.intersection(self.configured).is_empty()
    }

    /// JoinDesired(*,G).
    #[tactic(auto, unfolding(pim_model::specs::Desires::join_desired_star))]
    pub fn join_desired(&self) -> bool
        ensures { InStar self.now (λ s g. result ≡ join_desired_star s g) }
    {
        !self.is_empty(self.immediate_olist())
    }

    /// RPTJoinDesired(G): it equals JoinDesired(*,G), since there is no (*,*,RP).
    pub fn rpt_join_desired(&self) -> bool
        ensures { InStar self.now (λ s g. result ≡ join_desired_star s g) }
    {
        self.join_desired()
    }

    /// RPF'(*,G).
    #[tactic(auto, unfolding(pim_model::specs::Desires::rpf_star))]
    pub fn rpf_neighbour(&self) -> Option<Hop>
        ensures { InStar self.now (λ s g. result ≡ rpf_star s g) }
    {
        self.winner.or(self.next_hop)
    }
}

impl SourceSight {
    /// Whether immediate_olist(S,G) is empty. The register tunnel counts as an interface in it.
    #[tactic(auto, unfolding(pim_model::specs::Desires::is_immediate_empty))]
    pub fn is_immediate_empty(&self) -> bool
        ensures { InSource self.now (λ s g src. result ≡ is_immediate_empty s g src) }
    {
        self.star.is_empty(self.immediate_olist()) && !self.tunnel
    }

    /// Whether inherited_olist(S,G) is empty. The register tunnel counts as an interface in it.
    #[tactic(auto, unfolding(pim_model::specs::Desires::is_inherited_empty))]
    pub fn is_inherited_empty(&self) -> bool
        ensures { InSource self.now (λ s g src. result ≡ is_inherited_empty s g src) }
    {
        self.star.is_empty(self.inherited_olist()) && !self.tunnel
    }

    /// JoinDesired(S,G).
    #[tactic(auto, unfolding(pim_model::specs::Desires::join_desired))]
    pub fn join_desired(&self) -> bool
        ensures { InSource self.now (λ s g src. result ≡ join_desired s g src) }
    {
        !self.is_immediate_empty() || (self.is_kept_alive && !self.is_inherited_empty())
    }

    /// RPF'(S,G,rpt).
    #[tactic(auto, unfolding(pim_model::specs::Desires::rpf_rpt))]
    pub fn rpf_neighbour_rpt(&self) -> Option<Hop>
        ensures { InSource self.now (λ s g src. result ≡ rpf_rpt s g src) }
    {
        self.tree_winner.or(self.star.rpf_neighbour())
    }

    /// RPF'(S,G).
    #[tactic(auto, unfolding(pim_model::specs::Desires::rpf_source))]
    pub fn rpf_neighbour(&self) -> Option<Hop>
        ensures { InSource self.now (λ s g src. result ≡ rpf_source s g src) }
    {
        self.winner.or(self.next_hop)
    }

    /// PruneDesired(S,G,rpt).
    #[tactic(auto, unfolding(pim_model::specs::Desires::prune_desired))]
    pub fn prune_desired(&self) -> bool
        ensures { InSource self.now (λ s g src. result ≡ prune_desired s g src) }
    {
        let is_elsewhere = !is_same_hop(self.star.rpf_neighbour(), self.rpf_neighbour());
        self.star.join_desired()
            && (self.star.is_empty(self.inherited_olist_rpt()) || (self.spt && is_elsewhere))
    }

    /// The upstream state of (S,G,rpt).
    #[tactic(auto, unfolding(pim_model::specs::Desires::tree_state))]
    pub fn tree_state(&self) -> TreeState
        ensures { InSource self.now (λ s g src. result ≡ tree_state s g src) }
    {
        if !self.star.join_desired() {
            TreeState::NotJoined
        } else if self.prune_desired() {
            TreeState::Pruned
        } else {
            TreeState::NotPruned
        }
    }
}
