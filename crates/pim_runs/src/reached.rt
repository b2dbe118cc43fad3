//! Worked runs of the reach of events.
#![tactic(auto, unfolding(crate::proofs::OnLiterals::machine_on_literals))]

ghost use Rattle.pim_runs.specs.Reached.{EndsReachNone, FirstAndLastReachIt, LongerRouteReachesOneSource, NeighboursAreNoReach, OneOfEightIsReached, OtherRpReachesItsGroups, TimeReachesOnceAFiring};

/// What only moves ends reaches no source.
pub fn ends_reach_none()
    ensures { EndsReachNone }
{}

/// The first packet of a joined source reaches it, and so does the last Prune.
pub fn first_and_last_reach_it()
    ensures { FirstAndLastReachIt }
{}

/// Of eight joined sources a Prune reaches its own.
pub fn one_of_eight_is_reached()
    ensures { OneOfEightIsReached }
{}

/// Time reaches a source once for each firing that changes a fact of it.
pub fn time_reaches_once_a_firing()
    ensures { TimeReachesOnceAFiring }
{}

/// A longer route reaches the sources that it takes over.
pub fn longer_route_reaches_one_source()
    ensures { LongerRouteReachesOneSource }
{}

/// Another RP reaches all sources of its groups.
pub fn other_rp_reaches_its_groups()
    ensures { OtherRpReachesItsGroups }
{}

/// A better DR, or an interface that goes down, is a change of neighbours.
pub fn neighbours_are_no_reach()
    ensures { NeighboursAreNoReach }
{}
