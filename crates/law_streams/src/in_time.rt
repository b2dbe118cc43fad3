//! What is sent in time keeps its tree joined, and its sender a neighbour. Laws of the definitions, each the contract of
//! a function with nothing to do.

ghost use Rattle.law_streams.specs.Adjacent.{NeighboursComeToBeKnown, NeighboursStay};
ghost use Rattle.law_streams.specs.Hellos.{HelloIsRead};
ghost use Rattle.law_streams.specs.InTimeJoins.{JoinsAreShared, JoinsComeToBeHeld, WayStaysJoined};
ghost use Rattle.law_streams.specs.InTimeStreams.{JoinsKeepStream};
ghost use Rattle.law_streams.specs.Neighbours.{EventKeepsNeighbour};
ghost use Rattle.law_streams.specs.OneDr.{AtLeastOneDr, AtMostOneDr};
ghost use Rattle.law_streams.specs.Shared.{FramesComeToBoth, JoinSuppresses};

/// Where what a router sends to its next hop comes within d, what it joins there, (*,G) or (S,G), never expires: after
/// each of any moves of the network the next hop has a row of it on that interface which expires later than its
/// present, with no Prune pending. A router's time is the time at which it started plus its present. All of this has to
/// hold throughout, while the lower router wants the group, or the source. Neither goes down: at the lower router the
/// next hop to RP(G), which is known, or to the source is the upper router, a live neighbour, and no assert of what is
/// joined is lost on that interface; the upper router's interface is up, and the lower router is a live neighbour
/// there; for a Join(*,G) they have the same RP; their addresses don't change. Its Joins come: each is delivered to the
/// upper router no sooner than it was sent, and while the upper one's time is at most d beyond that; it may come more
/// than once, or after a later one; there is room for what it names, and sources that a Join(*,G) prunes have addresses
/// of hosts. Here d is below 75 s, half of what the holdtime (210 s) is beyond the period (60 s). So do the Joins of
/// others for which it holds its own back (Join suppression): where it sees such a Join, d is below 42 s, a third of
/// what the holdtime is beyond the longest suppression (84 s), it sees the Join within d of its being sent, and before
/// the upper one's time is more than d beyond that, the upper one holds what is joined until 210 s after that. Its
/// timer is at most d late: neither router's time goes more than d beyond the expiry of the lower one's Join timer
/// before that timer has expired. Nobody takes it back: no Join/Prune to the upper router on that interface prunes what
/// is joined. To begin with the upper router holds what is joined until later than 2 d after the expiry of the lower
/// one's Join timer.
pub fn joins_are_shared()
    ensures { JoinsAreShared }
{}

/// What `JoinsAreShared` asks of others' Joins follows from their frames. Each Join to the upper router that a router sends on
/// the link, and that can be written, is delivered to the upper one, to which its sender is a live neighbour, no sooner
/// than it was sent, and while the upper one's time is at most d beyond that; there is room for what it names. The lower
/// router holds its own Join back for none but such a frame, which it is delivered no sooner, and while its own time and
/// the upper one's are at most d beyond that; where it is, d is below 42 s.
pub fn frames_come_to_both()
    ensures { FramesComeToBoth }
{}

/// Where the bytes of a Join of what a router joins, by a neighbour and to its own next hop, are delivered to the router, it
/// reads them as that Join, and holds its own back.
pub fn join_suppresses()
    ensures { JoinSuppresses }
{}

/// Whatever the next hop held before, under the other premises of `JoinsAreShared` it comes to hold what the router
/// joins, and then without end, from 2 d after the expiry of the router's present Join timer on.
pub fn joins_come_to_be_held()
    ensures { JoinsComeToBeHeld }
{}

/// Along a way of any length, to the RP or to the source, each router but the first holds what the one below joins,
/// without end, while the first wants the group, or the source. Of each two the premises of `JoinsAreShared` hold, and
/// the upper one loses no assert of what is joined where the Joins come. It wants what it holds, so that only the first
/// has to want it for another reason.
pub fn way_stays_joined()
    ensures { WayStaysJoined }
{}

/// A router that passes a stream to the link of a router below, which joins the group or the source as `JoinsAreShared`
/// says, goes on to pass it without end, until something of `ends_otherwise` ends it: an interface that goes down, an
/// assert that is lost, another way, where the group is joined a source that is pruned, and on the shared tree no room
/// for the source.
pub fn joins_keep_stream()
    ensures { JoinsKeepStream }
{}

/// From a settled state no event removes a neighbour before its holdtime, except a Down of the interface, and a Hello
/// of this neighbour whose holdtime is over sooner.
pub fn event_keeps_neighbour()
    ensures { EventKeepsNeighbour }
{}

/// The bytes of a Hello that a router sends are read as exactly that Hello by each router of the link that listens.
pub fn hello_is_read()
    ensures { HelloIsRead }
{}

/// A router whose Hellos come to another in time is its neighbour without end. Its interface is up on a link, and its
/// Hello timer is at most d late by its own time and the receiver's. Each of its Hellos is delivered to the receiver
/// there, no sooner than it was sent, and while the receiver's time is at most d beyond that; then the receiver's
/// interface is up, the address isn't the receiver's own, and there is room for a neighbour. Here d is below 37.5 s,
/// half of what the holdtime (105 s) is beyond the period (30 s). Neither interface begins or ends, no Hello of that
/// address ends sooner than the one before, and to begin with the receiver knows it until later than 2 d after its next
/// Hello.
pub fn neighbours_stay()
    ensures { NeighboursStay }
{}

/// Whatever was before, under the other premises of `NeighboursStay` the receiver comes to know the sender, and then
/// without end, from 2 d after the sender's next Hello on.
pub fn neighbours_come_to_be_known()
    ensures { NeighboursComeToBeKnown }
{}

/// Of two routers on a link, with two addresses, that know each other's address and DR priority, and agree on whether
/// all their neighbours there announce one, at most one is the DR.
pub fn at_most_one_dr()
    ensures { AtMostOneDr }
{}

/// Of the routers on a link that know nobody else there, and all of which announce a priority, at least one is the DR.
pub fn at_least_one_dr()
    ensures { AtLeastOneDr }
{}
