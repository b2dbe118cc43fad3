//! Ways that follow the routers' routes.

ghost use Rattle.law_converges.specs.LoserJoins.{LoserJoinsWinner};
ghost use Rattle.law_converges.specs.RoutedWays.{EveryWantIsServedOnce};
ghost use Rattle.law_converges.specs.RoutesToRp.{EveryWantIsHeldToRp, RoutesLeadToRp};

/// Where the routes of routers to the RP of a group, or to a source, lead over LANs and without a loop, a way leads there
/// from each of them: each next hop is `RPF'(*,G)`, or `RPF'(S,G)`, of the router before it, from a bound on. Without a loop they
/// are where a number, the distance, falls at each next hop, and the way has no more hops than that. The route of each router is
/// over a LAN. From the bound on it names the address of the next hop there, and the router hasn't lost the assert of the group,
/// or of the source; or the router has lost that to the next hop. The next hop hasn't lost it, and both have that RP. That they
/// are neighbours isn't asked: their Hellos come within d, which is below 37.5 s, and the next of each leaves 2 d before the
/// bound at the latest.
pub fn routes_lead_to_rp()
    ensures { RoutesLeadToRp }
{}

/// What such a router wants from a time on, each next hop of its way holds past a limit, without end: the limit is k hops of 84 s
/// + 2 d + 3 e later, where k is its distance, and no router's time is ever further than e ahead of another's. It wants it from 3
/// e + d after the bound on, or later; by then all that was sent before the bound has come. So no way has to be given. To begin
/// with each router's Join timer runs for at most 84 s, as it does after any events (`JoinTimersAreShort`); nobody prunes what is
/// joined, whoever joins over a router is another router of the LAN, and the router has room.
pub fn every_want_is_held_to_rp()
    ensures { EveryWantIsHeldToRp }
{}

/// A router that gives way to the winner of the assert of a group, or of a source, on a LAN has lost it from a bound on, without
/// end, whatever its way to the RP, or to the source, is; and where that is over the LAN, the winner is RPF', whomever the route
/// names. The winner asserts with one metric, and its next Assert is due 2 d before the bound at the latest; the LAN carries what
/// is sent on it; and the router gives way to each of these Asserts that comes, and nothing ends its loss sooner.
pub fn loser_joins_winner()
    ensures { LoserJoinsWinner }
{}

/// In a quiet plan over whose LANs the routes lead to the RP, each packet of a source that is brought to the RP, on a tree or
/// in a Register, comes from the limit on exactly once down the way of each router that wants the group from a time on, to the
/// link to which the router passes it on; and nothing else of the source comes there where no other router sends its packets on
/// the way's links. From the limit on the router itself passes them on; at no next hop the assert of the source is lost, or the
/// source pruned, on the LAN, and each has one interface there; each but the last has room for the source, doesn't have its
/// address, takes its packets on no other tree, and sends them on over another interface. That the next hops are on the
/// group's tree follows of the routes.
pub fn every_want_is_served_once()
    ensures { EveryWantIsServedOnce }
{}
