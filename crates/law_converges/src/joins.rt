//! What routers come to join; that a router joins only what it was asked for, and sends each Join and each Prune where it is due.

ghost use Rattle.law_converges.specs.JoinedWays.{JoinTimersAreShort, WayComesToBeJoined};
ghost use Rattle.law_converges.specs.JoinsAsked.{EachJoinIsAsked};
ghost use Rattle.law_converges.specs.LinkJoins.{AllComeToBeHeld};
ghost use Rattle.law_converges.specs.PassedOnce.{HeldIsPassedOnce};
ghost use Rattle.law_converges.specs.RpfJoins.{JoinsOverRpfAreHeld};
ghost use Rattle.law_converges.specs.SentUpstream.{EachMessageIsDue, EachMessageIsDueInTime};

/// What a router wants RPF' comes to hold, whether that is of its route or the winner of an assert that is lost on the link, as
/// long as it stays the same: from 2 d after the end of the router's present Join timer on, and without end, whatever it held
/// before. RPF' may go on for another reason, as where the assert is over and the route names the winner. The other premises are
/// those of `JoinsComeToBeHeld`, which asks that RPF' is of the route, and that no assert is lost there.
pub fn joins_over_rpf_are_held()
    ensures { JoinsOverRpfAreHeld }
{}

/// Of any number of routers, of one link or of several, that each want the group, or the source, and join it over their next
/// hops, each next hop holds it from a bound on, whatever it held before, and without end: after each of any moves by which
/// the time at each next hop is past the bound, each has a row of it on that interface which expires later than its present,
/// with no Prune pending. The bound is 2 d after the expiry of the present Join timer of each at the earliest. The next hop of
/// each is its RPF'; of both the other premises of `JoinsAreShared` hold, but not that to begin with the next hop holds it.
pub fn all_come_to_be_held()
    ensures { AllComeToBeHeld }
{}

/// While the first router of a way of any length wants the group, or the source, each of the others comes to hold it, whatever
/// it held before, and then without end: the first next hop from a bound on, and each further one 84 s + 2 d + 3 times the lag
/// after the one below it. It holds after each of any moves by which the time at each router of the network is past that. To
/// begin with the first router's time isn't past the bound, and its next Join is due 2 d before it at the latest. No router's
/// time is further than the lag ahead of another's. Each next hop is RPF' of the router before; of both the other premises of
/// `WayStaysJoined` hold, but not that to begin with the next hop holds it; a Join timer that runs to begin with runs for at
/// most 84 s, as long as another router's Join may hold a Join back.
pub fn way_comes_to_be_joined()
    ensures { WayComesToBeJoined }
{}

/// After any events of a router no Join timer runs for longer than 84 s, whatever the next hops are.
pub fn join_timers_are_short()
    ensures { JoinTimersAreShort }
{}

/// A next hop that comes to hold a group from a bound on, as `AllComeToBeHeld`, `WayComesToBeJoined` and `NetworkSettles` say,
/// passes on from then on each packet of a source that comes down the group's tree to it: the copy leaves on the link of the
/// router that joins over it, and on no interface does more than one copy of an event leave. The packet has a TTL above 1, and
/// comes on an interface that is the way to the RP, and where SPTbit is set to the source too. On the link neither the assert
/// of the group nor that of the source is lost, and no Prune of the source has taken effect; the router has room for the
/// source, and the source isn't the router itself. It says nothing of what comes on the source's own tree, or in Registers.
pub fn held_is_passed_once()
    ensures { HeldIsPassedOnce }
{}

/// A router joins only what it was asked for: after any events from its opening, each Join(*,G) that an event sends has a cause on an
/// interface of the router; and so has each Join(S,G), or S is in the subnet of one of its own interfaces: where the router registers
/// S as its DR, the register tunnel wants S too. The causes are those of `NothingFlowsUnasked`, for all sources of the group or for S,
/// among the events up to this one: a Join/Prune to the router whose holdtime isn't over, or a report whose Group Membership Interval
/// isn't, with no Down of the interface after it. They hold when the event comes; where the event is time that passes, that is when it
/// begins to. Nothing is said of a Join(S,G,rpt).
pub fn each_join_is_asked()
    ensures { EachJoinIsAsked }
{}

/// What a router sends upstream is due, in any state and by any event but time that passes: each Join(*,G) or Join(S,G) goes to RPF' of
/// what is wanted after the event, (*,G) with RP(G); each Prune(*,G) or Prune(S,G) goes to what was RPF' of what was wanted before it,
/// which is no longer wanted, or over another RPF' now. All else that the event sends has no such Join and no such Prune, or is a
/// copy or a Register. Nothing is said of (S,G,rpt).
pub fn each_message_is_due()
    ensures { EachMessageIsDue }
{}

/// So it is with what each expiry of a timer sends, where a Join Timer runs for what is wanted, as after any events
/// (`EachJoinIsWanted`): this timer's own Join goes to RPF' before it expires. A Prune-Pending Timer sends a Prune besides that names
/// the router itself, the PruneEcho.
pub fn each_message_is_due_in_time()
    ensures { EachMessageIsDueInTime }
{}
