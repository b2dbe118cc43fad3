//! The tree of a source, and the part of its group's shared tree that carries the source.
ghost use Rattle.pim_macros.specs.Sights.{InSource};
ghost use Rattle.pim_shown.specs.TreeMacros.{source_tree};
ghost use Rattle.std.specs.Prelude.{◌≡◌};

use crate::set::told;
use crate::upstream::{RpfCause, source_cause};
use pim_ifset::IfSet;
use pim_macros::SourceSight;
use pim_state::World;
use pim_trie::Meter;
use pim_types::{Addr, Hop, Path, SourceGroup, TreeState};

/// The macros of (S,G) and of (S,G,rpt) (RFC 7761, sections 4.1.5, 4.4.1, 4.5.5, 4.5.7 and 4.6.5). The register tunnel
/// is in no other set than `joins`, `immediate_olist` and `inherited_olist`, and in all three or none.
#[derive(Clone, Copy)]
pub struct SourceTree {
    pub group: Addr,
    pub source: Addr,
    /// The route to S, with RPF_interface(S); `None` where S is an address of the router.
    pub path: Option<Path>,
    /// RPF'(S,G).
    pub rpf_neighbour: Option<Hop>,
    /// Where RPF'(S,G) comes from, or why there is none.
    pub rpf_cause: RpfCause,
    /// RPF'(S,G,rpt).
    pub rpf_neighbour_rpt: Option<Hop>,
    /// joins(S,G).
    pub joins: IfSet,
    /// prunes(S,G,rpt).
    pub prunes: IfSet,
    /// local_receiver_include(S,G): where hosts want the source, and not its whole group, whichever router serves them.
    pub local_receiver_include: IfSet,
    /// local_receiver_exclude(S,G): where hosts want the group without the source.
    pub local_receiver_exclude: IfSet,
    /// pim_include(S,G).
    pub pim_include: IfSet,
    /// pim_exclude(S,G).
    pub pim_exclude: IfSet,
    /// lost_assert(S,G).
    pub lost_assert: IfSet,
    /// lost_assert(S,G,rpt).
    pub lost_assert_rpt: IfSet,
    /// Where AssertWinner(S,G,I) is the router.
    pub won_assert: IfSet,
    /// immediate_olist(S,G).
    pub immediate_olist: IfSet,
    /// inherited_olist(S,G).
    pub inherited_olist: IfSet,
    /// inherited_olist(S,G,rpt).
    pub inherited_olist_rpt: IfSet,
    /// SPTbit(S,G).
    pub spt_bit: bool,
    /// KeepaliveTimer(S,G) is running.
    pub is_kept_alive: bool,
    /// JoinDesired(S,G).
    pub join_desired: bool,
    /// PruneDesired(S,G,rpt).
    pub prune_desired: bool,
    /// The upstream state of (S,G,rpt).
    pub tree_state: TreeState,
    /// CouldRegister(S,G).
    pub could_register: bool,
}

// What a sight tells.
#[tactic(auto, unfolding(crate::specs::TreeMacros::source_tree))]
fn source_tree_of(sight: &SourceSight) -> SourceTree
    ensures { InSource sight.now (λ s g src. result ≡ source_tree s g src) }
{
    SourceTree {
        group: sight.star.group,
        source: sight.source,
        path: sight.path,
        rpf_neighbour: sight.rpf_neighbour(),
        rpf_cause: source_cause(sight),
        rpf_neighbour_rpt: sight.rpf_neighbour_rpt(),
        joins: told(sight.joins(), sight.tunnel),
        prunes: told(sight.prunes(), false),
        local_receiver_include: told(sight.local_receiver_include(), false),
        local_receiver_exclude: told(sight.local_receiver_exclude(), false),
        pim_include: told(sight.pim_include(), false),
        pim_exclude: told(sight.pim_exclude(), false),
        lost_assert: told(sight.lost_assert(), false),
        lost_assert_rpt: told(sight.lost_assert_rpt(), false),
        won_assert: told(sight.won, false),
        immediate_olist: told(sight.immediate_olist(), sight.tunnel),
        inherited_olist: told(sight.inherited_olist(), sight.tunnel),
        inherited_olist_rpt: told(sight.inherited_olist_rpt(), false),
        spt_bit: sight.spt,
        is_kept_alive: sight.is_kept_alive,
        join_desired: sight.join_desired(),
        prune_desired: sight.prune_desired(),
        tree_state: sight.tree_state(),
        could_register: sight.could_register(),
    }
}

impl SourceTree {
    /// The macros of (S,G) and of (S,G,rpt) in the present state. No memory is taken. The meter rises by the nodes
    /// visited.
    pub fn of(world: &World, name: SourceGroup, meter: &mut Meter) -> SourceTree
        ensures { result ≡ source_tree world.now name.group.bits name.source.bits }
    {
        let sight = SourceSight::with_star(world, name, meter);
        source_tree_of(&sight)
    }
}
