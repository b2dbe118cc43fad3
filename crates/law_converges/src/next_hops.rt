//! The next hop changes.

ghost use Rattle.law_converges.specs.NextHops.{JoinFollowsNextHop, NewNextHopTakesOver, OldNextHopIsPruned};

/// An event that isn't time, by which a router goes on to want a group, or a source, over another next hop, sends the
/// Join to this at once. RPF' is another neighbour than before, or was none, and the interface or the next hop of the
/// route is another one, or wasn't a neighbour: new routes or RP ranges, an interface that comes up or goes down, and a
/// Hello of the next hop do so. A change of RPF' that is due to an Assert alone isn't meant: there the Join leaves within
/// the override interval. A Join(*,G) prunes only sources that are to be pruned with it.
pub fn join_follows_next_hop()
    ensures { JoinFollowsNextHop }
{}

/// The same event sends a Prune to the next hop that it was, if that still is a neighbour.
pub fn old_next_hop_is_pruned()
    ensures { OldNextHopIsPruned }
{}

/// Across a link: the Join is on the link after that event, in a frame that wasn't there before. Whatever moves of the
/// network come next, with any time, its delivery to the new next hop, which is on the link, has the RP, knows the router
/// as a neighbour and has room, leaves that holding what is joined until 210 s after its present time, with no Prune
/// pending. Sources that a Join(*,G) prunes have to have addresses of hosts.
pub fn new_next_hop_takes_over()
    ensures { NewNextHopTakesOver }
{}
