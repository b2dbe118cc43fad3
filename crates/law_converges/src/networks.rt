//! All links and all Joins of a network at once.

ghost use Rattle.law_converges.specs.CarriedNetwork.{CarriedNetworkSettles};
ghost use Rattle.law_converges.specs.NetworkConverges.{NetworkConverges};
ghost use Rattle.law_converges.specs.Settles.{NetworkSettles};

/// However many links, routers, groups, Joins, ways, asserts and moves there are: from a bound on, whatever was before and
/// without end, each link has exactly one DR, and exactly one querier, each router of a link knows each group with a member
/// there, each next hop holds what is joined over it, with no Prune pending, also along ways of any length, of the routers
/// of a link none but the winner of an assert sends there what the assert is about, and that at most one copy for each packet
/// that comes to it, and no Prune(S,G,rpt) that is overridden has taken effect. It holds after each of any moves by which the
/// time at each router of the network is past the bound. The premises are those of `ExactlyOneDr`, `ExactlyOneQuerier`,
/// `MemberComesToBeKnown`, `AllComeToBeHeld`, `WayComesToBeJoined`, `AtMostOneComesToSend` and `OverriddenPruneHasNoEffect`
/// for each of these, with one d, which is below 37.5 s, and below 1.5 s where there is an assert, and one bound for all. So
/// each router that joins wants what it joins, and has its next hop as a neighbour, from the beginning on.
pub fn network_settles()
    ensures { NetworkSettles }
{}

/// The same where each link carries what is sent on it: each frame comes to all others of its routers within d of when it was
/// sent, and in the order in which they were sent, and no timer of any router is more than `late` ms late, which is at most
/// d, and with 2 d below the propagation delay where a Prune(S,G,rpt) is to be overridden. This is asked once for each link,
/// and of its routers what no delivery tells: that each can hear who sends, and has room, and that nothing ends sooner what
/// it has heard. To begin with no frame is under way.
pub fn carried_network_settles()
    ensures { CarriedNetworkSettles }
{}

/// A network converges: of any number of routers, links, members and moves, with all that these laws ask for at once. From the bound
/// on it has settled, as `CarriedNetworkSettles` says; from the limit on each of the members' links is served, as
/// `EachMemberIsServed` says: each packet that is brought to the RP is there in exactly one frame; and from when what was asked
/// before is over, and a way of Joins is, no link is brought a packet but for a host that asked within a known time, or for a
/// router on the source's link, as `LinksComeToLeadToHosts` says.
pub fn network_converges()
    ensures { NetworkConverges }
{}
