//! A Prune(S,G,rpt) that another router of the link overrides.

ghost use Rattle.law_converges.specs.LinkRpt.{AnswerComes, JoinOverrides, OverrideLeaves, PruneWaits, PruneWaitsOn, SeenPruneIsAnswered, StarJoinOverrides, UnprunedStays};
ghost use Rattle.law_converges.specs.LinkRptOrder.{OverriddenPruneHasNoEffect};
ghost use Rattle.law_converges.specs.Unheard.{PruneEnds};

/// A Prune(S,G,rpt) that a router with several neighbours on an interface takes in state NoInfo is in Prune-Pending until
/// J/P_Override_Interval, which is Effective_Propagation_Delay and Effective_Override_Interval, after its present, and not
/// until sooner. The message has a holdtime above 0.
pub fn prune_waits()
    ensures { PruneWaits }
{}

/// A Join(S,G,rpt) that doesn't prune the source as well leaves NoInfo of (S,G,rpt), whatever the state was.
pub fn join_overrides()
    ensures { JoinOverrides }
{}

/// A Join(*,G) that doesn't prune the source leaves NoInfo of (S,G,rpt), whatever the state was.
pub fn star_join_overrides()
    ensures { StarJoinOverrides }
{}

/// While a Prune waits, each event leaves it waiting until the same timestamp, or NoInfo: but time that passes to that
/// timestamp, and a message that joins the source by a Join(S,G,rpt) and prunes it too.
pub fn prune_waits_on()
    ensures { PruneWaitsOn }
{}

/// Each event but a message to the router there that prunes the source leaves NoInfo.
pub fn unpruned_stays()
    ensures { UnprunedStays }
{}

/// A router that wants the source down the group's tree, and sees another router's Prune(S,G,rpt) to its upstream neighbour,
/// has its override timer end within Effective_Override_Interval of its present, and at least 1 ms, if it still wants the
/// source from that neighbour after the event.
pub fn seen_prune_is_answered()
    ensures { SeenPruneIsAnswered }
{}

/// The end of the override timer sends a Join(S,G,rpt) to the upstream neighbour.
pub fn override_leaves()
    ensures { OverrideLeaves }
{}

/// While the router wants the source from that neighbour, and sees no Join(S,G,rpt) of another router to it, no event, and no
/// time, has the override timer end later or not at all: or its Join(S,G,rpt) has left in that event.
pub fn answer_comes()
    ensures { AnswerComes }
{}

/// Across a link: the (S,G,rpt) state of the upper of two routers there is never Prune, after each of any moves, while the
/// lower one wants the source down the group's tree over it. To begin with it is NoInfo, and no Prune of the source is under
/// way. Each Prune that the upper one takes comes to the lower one too, and each Join(S,G,rpt) of the lower one, or of another
/// router that the lower one sees, to the upper one; these come to each of the two in the order in which they were sent, and
/// within `within` ms. The lower one's override timer is at most `late` ms late, and 2 `within` + `late` is below the
/// propagation delay. The upper router has several neighbours there, room, and a J/P_Override_Interval of at least the
/// propagation delay and the lower one's Effective_Override_Interval, or 1 ms. No message both joins the source by (S,G,rpt)
/// and prunes it. Where frames come out of order, or 2 `within` + `late` is above the propagation delay, it can be Prune: so in
/// the stored scenarios `override_before_prune` and `override_too_late`.
pub fn overridden_prune_has_no_effect()
    ensures { OverriddenPruneHasNoEffect }
{}

/// From when a Prune(S,G,rpt) expires on the source isn't pruned on the interface, while no message to the router prunes it there.
pub fn prune_ends()
    ensures { PruneEnds }
{}
