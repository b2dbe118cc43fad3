//! Two routers send the same packets on a link.

ghost use Rattle.law_converges.specs.Asserting.{DuplicateIsAnswered, InferiorIsAnswered};
ghost use Rattle.law_converges.specs.LinkAsserts.{GivesWayToAssert, OneWinnerIsLeft, WinnerAnswersAssert};
ghost use Rattle.law_converges.specs.LinkLosers.{EventKeepsLoss, LoserComesToStay, LoserStaysLoser};
ghost use Rattle.law_converges.specs.Unheard.{LostAssertEnds};
ghost use Rattle.law_converges.specs.OneSender.{AtMostOneComesToSend, AtMostOneSends, LoserSendsNone};
ghost use Rattle.law_converges.specs.OneSenderIsLeft.{OneOfAllIsLeft, OneSenderIsLeft, OtherComesToLose};
ghost use Rattle.law_converges.specs.TwoWinners.{OneWinnerGoes};

/// A router that gives way to an Assert has lost the assert to it until 180 s after its present time, or has no assert any
/// more, where it must go. A winner gives way to a better metric than that with which it won; a loser to a better one, and
/// to an acceptable one of its winner, of (S,G) with RPTbit clear. So each Assert of the winner keeps a loser for 180 s.
pub fn gives_way_to_assert()
    ensures { GivesWayToAssert }
{}

/// A winner answers an inferior Assert, which is no better than what it won with, by its own Assert, in the same event.
pub fn winner_answers_assert()
    ensures { WinnerAnswersAssert }
{}

/// Across a link: of two winners of an assert, the one that hears an inferior Assert, as the other's is whose metric is
/// worse, has its own on the link after that event, in a frame that wasn't there before. Whatever moves of the network come
/// next, with any time, the delivery of that frame to another router, which is on the link, knows the first one as a
/// neighbour, has room and gives way to it, leaves that router without what it won: it has lost the assert to the first one
/// until 180 s after its present time, or has no assert, where it must go. The group isn't link-local.
pub fn one_winner_is_left()
    ensures { OneWinnerIsLeft }
{}

/// A packet that comes on an interface on which the router itself sends its source's packets is answered by an Assert, in that event: of
/// (S,G) where SPTbit is set, else of (*,G). The packet's RPF check fails there, the interface is on the list, and the router could
/// assert there, and has no assert. It is the winner then for 177 s, or has no assert, where that must go. So of two routers that send
/// a source's packets on a link each that hears the other's asserts.
pub fn duplicate_is_answered()
    ensures { DuplicateIsAnswered }
{}

/// An Assert that is worse than the router's own is answered by that, in that event, where the router could assert and has no assert; as
/// by `WinnerAnswersAssert` where it is the winner. It is the winner then for 177 s, or has no assert, where that must go.
pub fn inferior_is_answered()
    ensures { InferiorIsAnswered }
{}

/// Two routers of a link aren't both the winner of an assert any longer than until 2 d after the Assert Timer of that with the better
/// metric expires: of each of any moves after which both are the winner, as after all before it, the other one's time is at most that.
/// All that is sent on the link comes to all of it within d, and no timer is more than d late; the other one hears the first one, and
/// has room. The timer of a winner runs for 177 s, after which it asserts again.
pub fn one_winner_goes()
    ensures { OneWinnerGoes }
{}

/// A router that has lost an assert until a timestamp at least still has after an event that leaves its present time before
/// that, unless the event ends the loss: by its own change, as the interface goes down, the winner says Hello with another
/// generation ID, a Join of the same comes to the router, or the winner, or a better one, asserts anything else; or since the
/// assert must go on the event's way, as the winner is no neighbour, the assert isn't tracked, the router's own metric is
/// better, or the interface stops being the RPF interface.
pub fn event_keeps_loss()
    ensures { EventKeepsLoss }
{}

/// Across a link: who has lost an assert until 2 d after the winner's Assert Timer expires stays the loser, however many
/// moves there are. The other router stays the winner, and asserts with the same metric; its timer is at most d late; each of
/// its Asserts comes within d, which is below 1500 ms, half of Assert_Override_Interval; the loser gives way to it, and no
/// event ends the loss there.
pub fn loser_stays_loser()
    ensures { LoserStaysLoser }
{}

/// With the same premises but that it has lost to begin with: the other router has lost from 2 d after the winner's Assert
/// Timer expires on, without end, whatever it was before, if it gives way to the Asserts.
pub fn loser_comes_to_stay()
    ensures { LoserComesToStay }
{}

/// A router sends no packet on an interface that a lost assert takes off the lists: of a source's assert none of the
/// source, where lost_assert(S,G,I) and lost_assert(S,G,rpt,I) hold; of a group's none that doesn't come on its source's tree,
/// where lost_assert(*,G,I) holds. The packet is one that comes on an interface.
pub fn loser_sends_none()
    ensures { LoserSendsNone }
{}

/// Across a link: while one router is the winner of an assert, as `LoserStaysLoser` says, another one that has lost sends none
/// of these packets on the link, so that at most one of both does. The link is neither its RPF interface to the RP, nor, of a
/// source's assert, to the source, to which its own metric is worse than the winner's.
pub fn at_most_one_sends()
    ensures { AtMostOneSends }
{}

/// So it is from 2 d after the winner's Assert Timer expires on, whatever the other one was before.
pub fn at_most_one_comes_to_send()
    ensures { AtMostOneComesToSend }
{}

/// Across a link: of two routers that both send a source's packets there, that with the worse metric has lost the assert to the other one, without
/// end, from a bound on. Where a packet comes to one of both that it sends there itself, and it has no assert, the bound is d after the event if
/// that is the one with the better metric, and 2 d if it is the other one; where one of both is the winner, 2 d after its Assert Timer expires, or
/// 3 d, whatever the other one has. All that is sent on the link comes to all of it within d, which is below 1500 ms, in order, and no timer is more
/// than d late. Whenever an Assert of one of both comes to the other one, that hears it and has room; the one with the better metric could assert,
/// and hasn't lost; the other one, where it has no assert, tracks it. From its first Assert on the one with the better metric stays the winner, and
/// nothing ends sooner what the other one has lost.
pub fn other_comes_to_lose()
    ensures { OtherComesToLose }
{}

/// So that one sends none of these packets on the link from the bound on, and at most one of both does, where the link is no RPF interface of it,
/// as `AtMostOneSends` says.
pub fn one_sender_is_left()
    ensures { OneSenderIsLeft }
{}

/// Of any number of routers that send a source's packets to a link, of each of which and that with the best metric this holds, none but that one
/// sends them there, past the bound, and that at most one copy for each packet that comes to it: as `NetworkSettles` says of a link's assert.
pub fn one_of_all_is_left()
    ensures { OneOfAllIsLeft }
{}

/// From the end of its Assert Timer on a lost assert is over, while no Assert comes by which its machine loses, or has lost for longer:
/// in NoInfo one that is acceptable, of (S,G) with RPTbit clear, where the assert is tracked; as the winner one that is better than
/// what it won with; as the loser one that is better than its winner's, or an acceptable one of its winner. The timer of a loser runs
/// for 180 s at most.
pub fn lost_assert_ends()
    ensures { LostAssertEnds }
{}
