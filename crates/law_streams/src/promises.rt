//! What a user of a router wants to know, answered from the definitions: laws, each the contract of a function with
//! nothing to do.

ghost use Rattle.law_streams.specs.Addresses.{NoneIsAccepted, OthersAreOfInterfaces, OwnIsOffLink};
ghost use Rattle.law_streams.specs.Answers.{AnswersAreBounded, AssertGivesOne, DataGivesCopiesOrAssert, HelloAgainIsSilent, OneSourceFollows, OthersGiveNone, RecordAsksFew, RegisterGivesCopiesAndStop, SeenIsSilent};
ghost use Rattle.law_streams.specs.Bounded.{AddsWhatIsNeeded, AssertsStayBounded, CountedStayBounded, NothingNewAddsNone, RunStaysWithin, StepStaysWithin, TimeAddsNone};
ghost use Rattle.law_streams.specs.Brought.{PacketComesFromEvent};
ghost use Rattle.law_streams.specs.Copies.{CopiesReadLower, NeverBack, NeverTwice, TtlFalls};
ghost use Rattle.law_streams.specs.Data.{EachEmissionIsOfAKind, OnlyCopiesAreData};
ghost use Rattle.law_streams.specs.Hops.{HopsEnd};
ghost use Rattle.law_streams.specs.Independent.{OtherGroupsKeep, OtherGroupsOutlast};
ghost use Rattle.law_streams.specs.NetHops.{NetHopsEnd};
ghost use Rattle.law_streams.specs.Served.{ListIsServed, MemberIsServed, ServedHere, SourceIsServed};
ghost use Rattle.law_streams.specs.Uncounted.{AllStayBounded, EachIsShorter, EachJoinIsWanted, EachLiesUnder, EachOverrideEndsSoon, JoinTimersStayBounded, UncountedStayBounded};

/// The copies of an event are the same bytes on some of the router's interfaces, in ascending order: at most one on
/// each interface. Two routers on a link, or a Register and the tree, can still bring a packet twice.
pub fn never_twice()
    ensures { NeverTwice }
{}

/// No copy of a data packet goes back to the interface on which the packet came.
pub fn never_back()
    ensures { NeverBack }
{}

/// Each copy is the packet with the TTL one lower, and the packet's TTL was above 1.
pub fn ttl_falls()
    ensures { TtlFalls }
{}

/// The packet is the one that the event's bytes are read as, or the one inside the Register that they are read as.
pub fn packet_comes_from_event()
    ensures { PacketComesFromEvent }
{}

/// A copy of a packet that was read is read as that packet with the TTL one lower.
pub fn copies_read_lower()
    ensures { CopiesReadLower }
{}

/// What an event sends are messages that the router writes, then the copies of the packet, then a Register around it;
/// the packet in a copy, and in the Register, has the TTL one lower, and its TTL was above 1.
pub fn only_copies_are_data()
    ensures { OnlyCopiesAreData }
{}

/// Each packet that an event sends on a link is a message or one of the copies; each that it sends to an address is a
/// Register-Stop, a Null-Register, or a Register around the packet.
pub fn each_emission_is_of_a_kind()
    ensures { EachEmissionIsOfAKind }
{}

/// From router to router, in any states, a packet makes fewer hops than its TTL, as copies on links and in Registers,
/// whatever is lost, repeated or reordered. Nothing is said of a copy on a link that is handed to a router as a
/// unicast.
pub fn hops_end()
    ensures { HopsEnd }
{}

/// In a network whose frames are delivered any number of times and in any order, and whose routers have a link for each
/// interface, a packet makes fewer hops than its TTL. Nothing is said of a copy on a link that is handed to a router as
/// a unicast.
pub fn net_hops_end()
    ensures { NetHopsEnd }
{}

/// A data packet with a TTL above 1 that comes on its tree, on the shortest path tree with SPTbit or on the shared tree
/// without it, leaves on every other interface of that tree's list. SPTbit and the list are those after the packet has
/// renewed its source's facts (`renewed`).
pub fn list_is_served()
    ensures { ListIsServed }
{}

/// A data packet that comes on its tree, as `ListIsServed` says, leaves where a router joined the group, the source
/// isn't pruned, and this router lost no assert.
pub fn served_here()
    ensures { ServedHere }
{}

/// A data packet that comes on its tree, as `ListIsServed` says, leaves where a host requested the group and didn't
/// exclude the source, and this router is the DR of the link or won the group's assert, and lost none.
pub fn member_is_served()
    ensures { MemberIsServed }
{}

/// A data packet with a TTL above 1 that comes on the shortest path tree with SPTbit leaves where a router joined its
/// source, or a host requested it and this router is the DR of the link or won the source's assert; and where this
/// router lost no assert of the source.
pub fn source_is_served()
    ensures { SourceIsServed }
{}

/// Time that passes, whatever expires, adds no neighbour, membership record, downstream row or source.
pub fn time_adds_none()
    ensures { TimeAddsNone }
{}

/// An event adds at most as many neighbours, membership records, downstream rows and sources as the keys that it names
/// which have no row and under which it may make one.
pub fn adds_what_is_needed()
    ensures { AddsWhatIsNeeded }
{}

/// An event that names no new key adds no neighbour, membership record, downstream row or source.
pub fn nothing_new_adds_none()
    ensures { NothingNewAddsNone }
{}

/// Every event keeps neighbours, membership records, downstream rows and sources, taken together, within the limit.
pub fn step_stays_within()
    ensures { StepStaysWithin }
{}

/// After any events from the opening with an accepted configuration, neighbours, membership records, downstream rows
/// and sources, taken together, are within the limit.
pub fn run_stays_within()
    ensures { RunStaysWithin }
{}

/// Asserts may pass the limit: there are at most as many as the limit on each interface.
pub fn asserts_stay_bounded()
    ensures { AssertsStayBounded }
{}

/// All facts that count, asserts among them, are at most limit x (interfaces + 1), after any events from the opening
/// with an accepted configuration.
pub fn counted_stay_bounded()
    ensures { CountedStayBounded }
{}

/// Each fact that doesn't count is of an interface, or lies under a fact that counts: repeated queries under the
/// records of their group and sources, registers under sources.
pub fn each_lies_under()
    ensures { EachLiesUnder }
{}

/// Facts that lie under facts that count are no more than these.
pub fn each_is_shorter()
    ensures { EachIsShorter }
{}

/// All facts that don't count, without the Join and override timers, are at most twice the limit and two for each
/// interface.
pub fn uncounted_stay_bounded()
    ensures { UncountedStayBounded }
{}

/// Each Join timer runs for a (*,G) or (S,G) that is wanted.
pub fn each_join_is_wanted()
    ensures { EachJoinIsWanted }
{}

/// The Join timers are no more than the limit.
pub fn join_timers_stay_bounded()
    ensures { JoinTimersStayBounded }
{}

/// All facts but the override timers are at most limit x (interfaces + 4) + 2 x interfaces, after any events from the
/// opening with an accepted configuration.
pub fn all_stay_bounded()
    ensures { AllStayBounded }
{}

/// Each override timer expires within 65.535 s of the present time, after any events whose frames are of bytes.
pub fn each_override_ends_soon()
    ensures { EachOverrideEndsSoon }
{}

/// Data sends at most a copy on each interface and one Register, or else one Assert.
pub fn data_gives_copies_or_assert()
    ensures { DataGivesCopiesOrAssert }
{}

/// A Register to the router sends at most a copy on each interface and one Register-Stop.
pub fn register_gives_copies_and_stop()
    ensures { RegisterGivesCopiesAndStop }
{}

/// An Assert sends at most one Assert.
pub fn assert_gives_one()
    ensures { AssertGivesOne }
{}

/// A Hello, a Join/Prune, a query and a Register-Stop send nothing themselves.
pub fn others_give_none()
    ensures { OthersGiveNone }
{}

/// A record of a report makes the router send a few queries at most: one of the group, and for its sources two and one
/// more for each 366 of them.
pub fn record_asks_few()
    ensures { RecordAsksFew }
{}

/// From a quiet state, all that an event of known keys (`touched_by_event`) sends: what it sends itself; an
/// AssertCancel for each assert of these keys that the router won; a message upstream for each of their groups, and two
/// for each of their sources with a fact; and a Hello before each message whose interface owes one.
pub fn answers_are_bounded()
    ensures { AnswersAreBounded }
{}

/// For one source at most two messages upstream follow, and what is cancelled.
pub fn one_source_follows()
    ensures { OneSourceFollows }
{}

/// A Join/Prune between other routers sends nothing.
pub fn seen_is_silent()
    ensures { SeenIsSilent }
{}

/// The Hello of a neighbour that repeats its priority and its generation ID sends nothing.
pub fn hello_again_is_silent()
    ensures { HelloAgainIsSilent }
{}

/// From a quiet state an event that is answered Done and names one group leaves all answers of the macros about sources
/// of other groups unchanged.
pub fn other_groups_keep()
    ensures { OtherGroupsKeep }
{}

/// From a quiet state the expiry of a timer of one group, any but a neighbour's, leaves all answers of the macros about
/// sources of other groups unchanged.
pub fn other_groups_outlast()
    ensures { OtherGroupsOutlast }
{}

/// An own address of no interface, as a loopback's, lies on no link after any events, whichever interfaces are up, and no
/// route leads to it.
pub fn own_is_off_link()
    ensures { OwnIsOffLink }
{}

/// Where a router has no own address of no interface, its own addresses are those of its interfaces.
pub fn others_are_of_interfaces()
    ensures { OthersAreOfInterfaces }
{}

/// A configuration without own addresses of no interface isn't refused for them.
pub fn none_is_accepted()
    ensures { NoneIsAccepted }
{}
