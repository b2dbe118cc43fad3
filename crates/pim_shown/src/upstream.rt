//! Where an upstream neighbour comes from, or why there is none.
ghost use Rattle.pim_macros.specs.Sights.{InSource, InStar};
ghost use Rattle.pim_shown.specs.TreeMacros.{cause_of, source_cause, star_cause};
ghost use Rattle.std.specs.Prelude.{◌≡◌};

use pim_macros::{SourceSight, StarSight};
use pim_types::{Hop, Path};

/// Where RPF' comes from (RFC 7761, section 4.1.5), or why there is none. The root is RP(G) of RPF'(*,G), and S of
/// RPF'(S,G).
#[derive(Clone, Copy)]
pub enum RpfCause {
    /// The router lost an assert on the RPF interface: RPF' is the assert's winner.
    Winner,
    /// RPF' is the next hop of the route to the root.
    NextHop,
    /// No upstream neighbour: the root is on a link of the router, and is no neighbour.
    Connected,
    /// No upstream neighbour: the next hop of the route to the root is no neighbour.
    NoNeighbour,
    /// No upstream neighbour: there is no route to the root over an interface that is up.
    NoRoute,
    /// No upstream neighbour: the root is the router itself.
    Own,
    /// No upstream neighbour: the group has no RP.
    NoRp,
}

// By the winner of a lost assert, the neighbour that is the next hop, the route, and whether the root is the router.
#[tactic(auto, unfolding(crate::specs::TreeMacros::cause_of))]
fn cause_of(
    winner: Option<Hop>,
    next_hop: Option<Hop>,
    path: Option<Path>,
    is_own: bool,
) -> RpfCause
    ensures { result ≡ cause_of winner next_hop path is_own }
{
    if winner.is_some() {
        return RpfCause::Winner;
    }
    if next_hop.is_some() {
        return RpfCause::NextHop;
    }
    match path {
        Some(path) if path.is_connected => RpfCause::Connected,
        Some(_) => RpfCause::NoNeighbour,
        None if is_own => RpfCause::Own,
        None => RpfCause::NoRoute,
    }
}

/// Where RPF'(*,G) comes from.
#[tactic(auto, unfolding(crate::specs::TreeMacros::star_cause))]
pub(crate) fn star_cause(star: &StarSight) -> RpfCause
    ensures { InStar star.now (λ s g. result ≡ star_cause s g) }
{
    match star.rp {
        Some(_) => cause_of(star.winner, star.next_hop, star.rp_path, star.is_own_rp),
        None => RpfCause::NoRp,
    }
}

/// Where RPF'(S,G) comes from.
#[tactic(auto, unfolding(crate::specs::TreeMacros::source_cause))]
pub(crate) fn source_cause(sight: &SourceSight) -> RpfCause
    ensures { InSource sight.now (λ s g src. result ≡ source_cause s g src) }
{
    cause_of(sight.winner, sight.next_hop, sight.path, sight.is_own)
}
