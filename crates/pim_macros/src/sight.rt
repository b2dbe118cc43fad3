//! Sights: what the macros of a group, and of a source of it, read, gathered once.
ghost use Rattle.std.specs.Prelude.{◌≡◌};

use pim_ifset::IfSet;
use pim_types::{Addr, Hop, Path, SourceGroup};

/// What the macros of (*,G) read. Each set says only which of the interfaces below 120 are in it.
#[derive(Clone, Copy)]
pub struct StarSight {
    pub group: Addr,
    /// RP(G).
    pub rp: Option<Addr>,
    /// The route to RP(G).
    pub rp_path: Option<Path>,
    /// NBR of the next hop to RP(G).
    pub next_hop: Option<Hop>,
    /// The winner of the assert of (*,G) that the router lost on RPF_interface(RP(G)).
    pub winner: Option<Hop>,
    /// joins(*,G).
    pub joined: IfSet,
    /// The interfaces on which the router lost the assert of (*,G).
    pub lost: IfSet,
    /// The interfaces on which the router won the assert of (*,G).
    pub won: IfSet,
    /// local_receiver_include(*,G): where the group is in EXCLUDE mode.
    pub receivers: IfSet,
    /// I_am_DR.
    pub dr: IfSet,
    /// The configured interfaces.
    pub configured: IfSet,
    /// RP(G) is the router itself.
    pub is_own_rp: bool,
}

/// What the macros of (S,G) and of (S,G,rpt) read.
#[derive(Clone, Copy)]
pub struct SourceSight {
    pub star: StarSight,
    pub source: Addr,
    /// The route to S.
    pub path: Option<Path>,
    /// NBR of the next hop to S.
    pub next_hop: Option<Hop>,
    /// The winner of the assert of (S,G) that the router lost on RPF_interface(S).
    pub winner: Option<Hop>,
    /// The winner of the assert of (S,G) that the router lost on RPF_interface(RP(G)).
    pub tree_winner: Option<Hop>,
    /// joins(S,G) without the register tunnel.
    pub joined: IfSet,
    /// prunes(S,G,rpt).
    pub pruned: IfSet,
    /// The interfaces on which the router lost the assert of (S,G).
    pub lost: IfSet,
    /// The interfaces on which the router won the assert of (S,G).
    pub won: IfSet,
    /// The interfaces on which the winner of the assert of (S,G) is better than spt_assert_metric(S,I).
    pub beaten: IfSet,
    /// local_receiver_include(S,G).
    pub included: IfSet,
    /// local_receiver_exclude(S,G).
    pub excluded: IfSet,
    /// SPTbit(S,G).
    pub spt: bool,
    /// KAT(S,G) runs.
    pub is_kept_alive: bool,
    /// The register tunnel is in joins(S,G).
    pub tunnel: bool,
    /// S is one of the router's addresses.
    pub is_own: bool,
    /// The router is the DR of a link that S is on.
    pub is_dr: bool,
    /// SwitchToSptDesired(S,G), which is configured of the whole router.
    pub is_spt_wanted: bool,
}

impl SourceSight {
    /// The source and group that the sight is of.
    pub fn name(&self) -> SourceGroup
        ensures { result ≡ record { source = self.now.source; group = self.now.star.group } }
    {
        SourceGroup {
            source: self.source,
            group: self.star.group,
        }
    }
}
