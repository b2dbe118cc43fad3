//! The shared tree of a group.
ghost use Rattle.pim_macros.specs.Sights.{InStar};
ghost use Rattle.pim_shown.specs.TreeMacros.{tree};
ghost use Rattle.std.specs.Prelude.{◌≡◌};

use crate::set::told;
use crate::upstream::{RpfCause, star_cause};
use pim_ifset::IfSet;
use pim_macros::StarSight;
use pim_state::World;
use pim_trie::Meter;
use pim_types::{Addr, Hop, Path};

/// The macros of (*,G) (RFC 7761, sections 4.1.5, 4.5.4 and 4.6.5). No set has the register tunnel.
#[derive(Clone, Copy)]
pub struct Tree {
    pub group: Addr,
    /// RP(G); `None` where no range has the group, and for an SSM group.
    pub rp: Option<Addr>,
    /// The route to RP(G), with RPF_interface(RP(G)); `None` where the router is the RP.
    pub rp_path: Option<Path>,
    /// RPF'(*,G).
    pub rpf_neighbour: Option<Hop>,
    /// Where RPF'(*,G) comes from, or why there is none.
    pub rpf_cause: RpfCause,
    /// joins(*,G).
    pub joins: IfSet,
    /// local_receiver_include(*,G): where hosts want the group, whichever router serves them.
    pub local_receiver_include: IfSet,
    /// pim_include(*,G).
    pub pim_include: IfSet,
    /// lost_assert(*,G).
    pub lost_assert: IfSet,
    /// Where AssertWinner(*,G,I) is the router.
    pub won_assert: IfSet,
    /// immediate_olist(*,G).
    pub immediate_olist: IfSet,
    /// JoinDesired(*,G).
    pub join_desired: bool,
}

// What a sight tells.
#[tactic(auto, unfolding(crate::specs::TreeMacros::tree))]
fn tree_of(star: &StarSight) -> Tree
    ensures { InStar star.now (λ s g. result ≡ tree s g) }
{
    Tree {
        group: star.group,
        rp: star.rp,
        rp_path: star.rp_path,
        rpf_neighbour: star.rpf_neighbour(),
        rpf_cause: star_cause(star),
        joins: told(star.joins(), false),
        local_receiver_include: told(star.local_receiver_include(), false),
        pim_include: told(star.pim_include(), false),
        lost_assert: told(star.lost_assert(), false),
        won_assert: told(star.won, false),
        immediate_olist: told(star.immediate_olist(), false),
        join_desired: star.join_desired(),
    }
}

impl Tree {
    /// The macros of (*,G) in the present state. No memory is taken. The meter rises by the nodes visited.
    pub fn of(world: &World, group: Addr, meter: &mut Meter) -> Tree
        ensures { result ≡ tree world.now group.bits }
    {
        let star = StarSight::of(world, group, meter);
        tree_of(&star)
    }
}
