//! Laws of the definitions, each the contract of a function with nothing to do.

ghost use Rattle.law_plane.specs.Late.{LateRouterIsSound, LateSplitIsSound};

/// A split data plane whose core hears late behaves as a router to which some packets come once more.
#[tactic(auto, using(crate::proofs::LateSplits::late_split_is_sound))]
pub fn late_split_is_sound()
    ensures { LateSplitIsSound }
{}

/// From the opening on, a split data plane whose core hears late behaves as a router to which some packets come once
/// more.
#[tactic(auto, using(crate::proofs::LateSplits::late_router_is_sound))]
pub fn late_router_is_sound()
    ensures { LateRouterIsSound }
{}
