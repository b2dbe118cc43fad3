//! A host that requests a group is served, from hop to hop.

ghost use Rattle.law_streams.specs.Flows.{DataFlows};
ghost use Rattle.law_streams.specs.HostsServed.{HostAsks, WhoAsksIsServed};
ghost use Rattle.law_streams.specs.Joins.{JoinIsRead, JoinIsSeen, SourceJoinIsRepeated, SourceJoinIsTaken, SourceJoinLeaves, SourceJoinLeavesInTime, StarJoinIsRepeated, StarJoinIsTaken, StarJoinLeaves, StarJoinLeavesInTime};
ghost use Rattle.law_streams.specs.Lasts.{EventKeepsSource, EventKeepsStar, RunKeepsSource, RunKeepsStar};
ghost use Rattle.law_streams.specs.Roots.{RegisterIsBrought, RootSends};
ghost use Rattle.law_streams.specs.Timed.{FiringKeepsTimed, RunIsTimed, StepKeepsTimed};
ghost use Rattle.law_streams.specs.Ways.{JoinClimbs};
ghost use Rattle.law_streams.specs.Whole.{EachPacketIsServed};

/// Where an event that isn't time makes a group wanted, a Join(*,G) that names the RP leaves at once to RPF'(*,G), if
/// that is a neighbour. It prunes only sources that are to be pruned with it.
pub fn star_join_leaves()
    ensures { StarJoinLeaves }
{}

/// Where the expiry of a timer makes a group wanted, a Join(*,G) that names the RP leaves at once to RPF'(*,G), if that
/// is a neighbour. It prunes only sources that are to be pruned with it.
pub fn star_join_leaves_in_time()
    ensures { StarJoinLeavesInTime }
{}

/// A Join(*,G) to the router that names the RP of the group, with a holdtime above 0, in a message that doesn't also
/// prune (*,G), is held until its holdtime at least, with no Prune pending. Its interface is in immediate_olist(*,G),
/// the group is wanted, no assert of it is lost there, and no source is pruned there but those that the message prunes.
pub fn star_join_is_taken()
    ensures { StarJoinIsTaken }
{}

/// The bytes of a Join are read as exactly that Join by the router to which they go, on an interface that is up, where
/// the sender is a neighbour.
pub fn join_is_read()
    ensures { JoinIsRead }
{}

/// The bytes of a Join are read as exactly that Join by each other router of the link, on an interface that is up, where
/// the sender is a neighbour.
pub fn join_is_seen()
    ensures { JoinIsSeen }
{}

/// A Join(*,G) climbs a way of any length that has no router twice, by deliveries with nothing in between.
pub fn join_climbs()
    ensures { JoinClimbs }
{}

/// A packet comes down a way of any length that has no router twice, on the shared tree, by deliveries with nothing in
/// between, with a TTL lower by the number of routers. Where it begins a fact of its source at a router, the premises
/// of the next packet have to be shown again.
pub fn data_flows()
    ensures { DataFlows }
{}

/// The router that a group comes to be wanted at is served, a way of any length from the RP that has no router twice,
/// by deliveries with nothing in between.
pub fn who_asks_is_served()
    ensures { WhoAsksIsServed }
{}

/// A packet that comes to the last router of a way after that took the Join, on a tree or in a Register to the RP,
/// leaves on the link from which the Join came, where no assert of the source is lost.
pub fn root_sends()
    ensures { RootSends }
{}

/// A Register to the RP brings its packet to the last router of a way, where that is the RP, knows nothing of the
/// source, and has room for two facts.
pub fn register_is_brought()
    ensures { RegisterIsBrought }
{}

/// A host's report of a group from all sources, at its DR, is an event by which the group comes to be wanted there,
/// under the premises of `CanServeHost`.
pub fn host_asks()
    ensures { HostAsks }
{}

/// From a settled state no event removes a Join(*,G) that was taken, except a Prune(*,G) to the router there, a Down of
/// the interface, and time that reaches its holdtime.
pub fn event_keeps_star()
    ensures { EventKeepsStar }
{}

/// From a settled state no list of events removes a Join(*,G) that was taken, if it has no Prune(*,G) to the router
/// there, no Down of the interface, and doesn't reach its holdtime.
pub fn run_keeps_star()
    ensures { RunKeepsStar }
{}

/// The expiry of the Join timer of (*,G) sends the Join again, and the timer is set to 60 s, while the RP is known and
/// RPF'(*,G) is a neighbour.
pub fn star_join_is_repeated()
    ensures { StarJoinIsRepeated }
{}

/// A host's report comes to the DR of its link, and Joins(*,G) climb a way of at least two routers, by one delivery for
/// each. Where a packet of a source comes to the last router next, on a tree or in a Register, it comes down to the
/// host's link, by one delivery for each router. Between the Joins and the packet nothing happens at any router, and no
/// time passes. The premises, by `CanTake`, `CanGoOn`, `CanCarry`, `CanServeHost`, and `CanRegister` for a Register:
/// each router's next hop towards the RP is a live neighbour, and the router is one of that next hop; their interfaces
/// are up, and the one towards the RP is another than the one towards the host; all have the same RP for the group,
/// which is outside 224.0.0.0/24 and 232.0.0.0/8; the first is the DR of the host's link; none has the source as an
/// address; each but the last is settled and has room for two facts, the Join's or the report's and one of the source,
/// and the last has room for the Join's; the RP of a Register is settled, knows nothing of the source, and has room for
/// two facts; to each but the last the group is new (`IsNew`: nobody asked for it, no source of it is known, no assert
/// of it is lost); the last lost no assert of the source on its link of the way; and the packet's TTL, as it comes to
/// the last, is above the number of routers.
pub fn each_packet_is_served()
    ensures { EachPacketIsServed }
{}

/// Where an event that isn't time makes a source wanted, a Join(S,G) leaves at once to RPF'(S,G), if that is a
/// neighbour.
pub fn source_join_leaves()
    ensures { SourceJoinLeaves }
{}

/// Where the expiry of a timer makes a source wanted, a Join(S,G) leaves at once to RPF'(S,G), if that is a neighbour.
pub fn source_join_leaves_in_time()
    ensures { SourceJoinLeavesInTime }
{}

/// Every event leaves a state in which a Join timer runs exactly where its tree is wanted.
pub fn step_keeps_timed()
    ensures { StepKeepsTimed }
{}

/// The expiry of every timer leaves a state in which a Join timer runs exactly where its tree is wanted.
pub fn firing_keeps_timed()
    ensures { FiringKeepsTimed }
{}

/// In every run a Join timer runs exactly where its tree is wanted.
pub fn run_is_timed()
    ensures { RunIsTimed }
{}

/// A Join(S,G) to the router with a holdtime above 0, in a message that doesn't also prune (S,G), is held until its
/// holdtime at least, with no Prune pending. Its interface is in immediate_olist(S,G), the source is wanted, and no
/// assert of it is lost there.
pub fn source_join_is_taken()
    ensures { SourceJoinIsTaken }
{}

/// From a settled state no event removes a Join(S,G) that was taken, except a Prune(S,G) to the router there, a Down of
/// the interface, and time that reaches its holdtime.
pub fn event_keeps_source()
    ensures { EventKeepsSource }
{}

/// From a settled state no list of events removes a Join(S,G) that was taken, if it has no Prune(S,G) to the router
/// there, no Down of the interface, and doesn't reach its holdtime.
pub fn run_keeps_source()
    ensures { RunKeepsSource }
{}

/// The expiry of the Join timer of (S,G) sends a Join(S,G) again, and the timer is set to 60 s, while RPF'(S,G) is a
/// neighbour.
pub fn source_join_is_repeated()
    ensures { SourceJoinIsRepeated }
{}
