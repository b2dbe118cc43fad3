//! A requested stream is served until one of a few things happens. Laws of the definitions, each the contract of a
//! function with nothing to do.

ghost use Rattle.law_streams.specs.Begun.{BegunStreamIsServed, EachOfBegunStreamIsServed, HostBeginsStream, JoinBeginsSending};
ghost use Rattle.law_streams.specs.Bits.{ChangeKeepsSptBit, FiringKeepsSptBit, JoinKeepsSptBit};
ghost use Rattle.law_streams.specs.Climbing.{FramesStay, JoinBeginsStream, JoinClimbsOver};
ghost use Rattle.law_streams.specs.InTime.{EventKeepsPassingUntil, JoinsInTimeKeepPassing};
ghost use Rattle.law_streams.specs.Passing.{EventKeepsPassing, PassingServes, RunKeepsPassing, SourceTreeHasRoom};
ghost use Rattle.law_streams.specs.Sources.{ConnectedIsBrought, DrRegisters};
ghost use Rattle.law_streams.specs.StreamRoots.{EachOfStreamIsServed, EachRegisterIsBrought, EventKeepsSending, RunKeepsSending};
ghost use Rattle.law_streams.specs.Streams.{MemberBeginsStream, StreamIsServed};

/// A frame that was sent can be delivered from then on, whatever is done in the network.
pub fn frames_stay()
    ensures { FramesStay }
{}

/// A Join(*,G) climbs a way with any moves of the network between its deliveries, each router as it is when the Join
/// comes.
pub fn join_climbs_over()
    ensures { JoinClimbsOver }
{}

/// A router that can forward packets of the source (`CanStream`) passes its stream to a link after the Join(*,G) that
/// it takes there.
pub fn join_begins_stream()
    ensures { JoinBeginsStream }
{}

/// A router on the shared tree that serves a member on a link passes the stream there.
pub fn member_begins_stream()
    ensures { MemberBeginsStream }
{}

/// An event ends a stream at a router only where the test `ends_passing` says so.
pub fn event_keeps_passing()
    ensures { EventKeepsPassing }
{}

/// On the source's tree a packet of the source needs no room, since the source has a fact.
pub fn source_tree_has_room()
    ensures { SourceTreeHasRoom }
{}

/// A list of events, none of which ends the stream, leaves the router passing it.
pub fn run_keeps_passing()
    ensures { RunKeepsPassing }
{}

/// While a router passes a stream, each packet of it that comes in leaves on the link.
pub fn passing_serves()
    ensures { PassingServes }
{}

/// After any moves that end nothing on the way, each packet above comes down to the requester.
pub fn stream_is_served()
    ensures { StreamIsServed }
{}

/// An event stops the last router from sending the stream only where the test `ends_sending` says so.
pub fn event_keeps_sending()
    ensures { EventKeepsSending }
{}

/// A list of events, of which none stops it, leaves the last router sending the stream.
pub fn run_keeps_sending()
    ensures { RunKeepsSending }
{}

/// Each Register to the RP, the first or a later one, brings its packet there, while SPTbit(S,G) isn't set at the RP,
/// and the RP has a fact of the source or room for one.
pub fn each_register_is_brought()
    ensures { EachRegisterIsBrought }
{}

/// Each packet that is brought to the last router comes down to the requester.
pub fn each_of_stream_is_served()
    ensures { EachOfStreamIsServed }
{}

/// A host's report to its DR begins the stream on the host's link, under the premises of `CanServeHost`, of which one
/// is that the group is new there.
pub fn host_begins_stream()
    ensures { HostBeginsStream }
{}

/// The last router of a way sends what comes to it on a link after the Join(*,G) that it takes there, if it lost no
/// assert of the source on it.
pub fn join_begins_sending()
    ensures { JoinBeginsSending }
{}

/// Where each router of a way began to pass the stream at some move, the DR by a host's report (`CanServeHost`) and the
/// others by the Join(*,G) of the one below that they took (`CanTake`, `CanStream`), in any order and with anything
/// between, and nothing ended it at one that had begun, each packet on the link above comes down to the requester, by
/// one delivery for each router, with a TTL lower by their number.
pub fn begun_stream_is_served()
    ensures { BegunStreamIsServed }
{}

/// Where each router of a way began as `BegunStreamIsServed` says, and nothing ended the stream at one that had begun,
/// each packet that is brought to the last router, on its tree or in a Register, comes down to the requester. On the
/// last router only the first four ends of a stream count (`ends_sending`).
pub fn each_of_begun_stream_is_served()
    ensures { EachOfBegunStreamIsServed }
{}

/// An event that `ends_in_time` doesn't list keeps a stream to a router that joined (*,G), and how long its Join holds.
pub fn event_keeps_passing_until()
    ensures { EventKeepsPassingUntil }
{}

/// While each Join(*,G) comes before the holdtime of the one before is over, and no event is one that `ends_in_time`
/// lists, a stream to the router that joins goes on, for any number of events.
pub fn joins_in_time_keep_passing()
    ensures { JoinsInTimeKeepPassing }
{}

/// What follows of a change clears no SPTbit while a router joins the source on an interface where no assert is lost.
pub fn join_keeps_spt_bit()
    ensures { JoinKeepsSptBit }
{}

/// No event's own change clears an SPTbit.
pub fn change_keeps_spt_bit()
    ensures { ChangeKeepsSptBit }
{}

/// The expiry of a timer clears no SPTbit by itself.
pub fn firing_keeps_spt_bit()
    ensures { FiringKeepsSptBit }
{}

/// A router that sends the stream on a link and has the source on another of its own links, such as a DR that is the
/// RP, is brought each packet of the source that it takes there, without any Register.
pub fn connected_is_brought()
    ensures { ConnectedIsBrought }
{}

/// Where the router is the DR of the source's link, RP(G) is known and is another router, and no Register-Stop holds
/// Registers back (no register state, or Join), each packet of the source with a TTL above 1 that it takes there leaves
/// in a Register to the RP, with a TTL one lower.
pub fn dr_registers()
    ensures { DrRegisters }
{}
