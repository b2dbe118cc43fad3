//! Networks that meet the premises of the laws, computed by the kernel.
ghost use Rattle.law_converges.specs.AloneByAssertRun.{WinnerAloneOnPlan};
ghost use Rattle.law_converges.specs.AskedByMembersRun.{LineIsAsked, LineLeadsToHost, PairComesToLeadToHost, PairIsAsked, PlanComesToLeadToHosts, PlanIsAsked};
ghost use Rattle.law_converges.specs.AssertingRun.{ClaimIsWorse, NearerAsserts, PacketIsDuplicate};
ghost use Rattle.law_converges.specs.CarriedNetworkRun.{OverrideComesInOrder, PlanIsQuiet, PlanSettles, PruneHasNoEffect};
ghost use Rattle.law_converges.specs.CarriedWaysRun.{PlanBringsNothingElse, PlanIsOpen, PlanServesOnce};
ghost use Rattle.law_converges.specs.ComesOnceRun.{ChainForwards, ChainServesOnce};
ghost use Rattle.law_converges.specs.EachMemberRun.{BothAreReached, BothAreServed, NothingElseComesToBoth};
ghost use Rattle.law_converges.specs.JoinedWaysRun.{ChainComesInTime, ChainComesToBeJoined, ChainPassesOnce};
ghost use Rattle.law_converges.specs.JoinsAskedRun.{JoinIsPassedOn, ReportIsJoined};
ghost use Rattle.law_converges.specs.LeftGroupRun.{SilentGroupEnds};
ghost use Rattle.law_converges.specs.LeftLinksRun.{HostLeaves, HostStays};
ghost use Rattle.law_converges.specs.LinkAssertsRun.{FartherLoses, NearerAnswers};
ghost use Rattle.law_converges.specs.LinkDrRun.{BothGreet, OneComesToBeDr};
ghost use Rattle.law_converges.specs.LinkJoinsRun.{BothComeToBeHeld, BothJoinInTime};
ghost use Rattle.law_converges.specs.LinkLosersRun.{FartherComesToLose, FartherStaysLoser, NearerAssertsInTime};
ghost use Rattle.law_converges.specs.LinkMembersRun.{HostAnswersInTime, HostComesToBeKnown, HostStaysKnown};
ghost use Rattle.law_converges.specs.LinkQuerierRun.{OneComesToQuery, QueriesComeInTime};
ghost use Rattle.law_converges.specs.MemberLinksRun.{BothAreWanted, NoOthersSend, ServedPlanIsQuiet};
ghost use Rattle.law_converges.specs.OneSenderIsLeftRun.{BothAssert, BothSend, FartherIsSilent};
ghost use Rattle.law_converges.specs.OneSenderRun.{FartherSendsNone};
ghost use Rattle.law_converges.specs.NetworkConvergesRun.{PlanHasConverged, PlanIsConverging};
ghost use Rattle.law_converges.specs.NextHopRun.{OtherTakesOver, RouterTurns};
ghost use Rattle.law_converges.specs.RoutesToRpRun.{FartherIsHeldToRp, NearerIsServedOnce, RoutesLeadOnPlan};
ghost use Rattle.law_converges.specs.SourceActiveRun.{ActiveComes, ActiveIsNotSentBack, ActiveMakesKnown, ActiveRegisters, OtherActivesAreIgnored, OtherActivesCome, SetLeavesActive};
ghost use Rattle.law_converges.specs.SourceMemberRun.{SentComesOnce, SourceIsReached, SourceMemberIsServed};
ghost use Rattle.law_converges.specs.TwoWinnersRun.{BothWinAtFirst, FartherGoes};
ghost use Rattle.law_converges.specs.WinnerHopRun.{FirstYields, HostIsReached, HostIsServed, TwoLansAreQuiet, WinnerIsRpf};

/// The first router of the chain turns from one next hop to another.
pub fn router_turns()
    ensures { RouterTurns }
{}

/// The other one takes over by the delivery of its Join, and the old one is pruned.
pub fn other_takes_over()
    ensures { OtherTakesOver }
{}

/// A host asks for a group, and is silent from then on, so that the group is gone after 260 s.
pub fn silent_group_ends()
    ensures { SilentGroupEnds }
{}

/// So the source's packets are copied to its link for 260 s, and not from then on.
pub fn host_leaves()
    ensures { HostLeaves }
{}

/// Where it asks again after 200 s they still are, and it has asked for them within the last 260 s.
pub fn host_stays()
    ensures { HostStays }
{}

/// Two routers of the chain greet each other in time.
pub fn both_greet()
    ensures { BothGreet }
{}

/// So one of them is the DR of their link, and the other isn't.
pub fn one_comes_to_be_dr()
    ensures { OneComesToBeDr }
{}

/// The query of one of two routers, each of which takes itself for the querier of their link, comes to the other.
pub fn queries_come_in_time()
    ensures { QueriesComeInTime }
{}

/// So in the end it alone is the querier.
pub fn one_comes_to_query()
    ensures { OneComesToQuery }
{}

/// A host answers the query of the first of two routers at its link, as the second one hears.
pub fn host_answers_in_time()
    ensures { HostAnswersInTime }
{}

/// So the second one comes to know the group.
pub fn host_comes_to_be_known()
    ensures { HostComesToBeKnown }
{}

/// And from then on it goes on to know it, until 2 d after the next query at least.
pub fn host_stays_known()
    ensures { HostStaysKnown }
{}

/// Of two routers that won the assert of a group on their link the one nearer to the RP hears the other's Assert.
pub fn nearer_answers()
    ensures { NearerAnswers }
{}

/// So it answers, and by the delivery of its answer the other one has lost.
pub fn farther_loses()
    ensures { FartherLoses }
{}

/// The Joins of the first two routers of the chain come to the next hop of each in time.
pub fn both_join_in_time()
    ensures { BothJoinInTime }
{}

/// So each next hop comes to hold what is joined over it.
pub fn both_come_to_be_held()
    ensures { BothComeToBeHeld }
{}

/// A router in front of two others begins to want a group that neither holds, and what each joins comes in time.
pub fn chain_comes_in_time()
    ensures { ChainComesInTime }
{}

/// So in the end each of the two holds it.
pub fn chain_comes_to_be_joined()
    ensures { ChainComesToBeJoined }
{}

/// So what comes to the first next hop leaves on the link of the router in front of it, once.
pub fn chain_passes_once()
    ensures { ChainPassesOnce }
{}

/// The Join(S,G,rpt) of one router of a link comes to the RP there after another's Prune, and soon.
pub fn override_comes_in_order()
    ensures { OverrideComesInOrder }
{}

/// So the Prune never takes effect.
pub fn prune_has_no_effect()
    ensures { PruneHasNoEffect }
{}

/// A packet comes to the nearer one on the link to which it sends the group's packets itself.
pub fn packet_is_duplicate()
    ensures { PacketIsDuplicate }
{}

/// So does an Assert that is worse than its own.
pub fn claim_is_worse()
    ensures { ClaimIsWorse }
{}

/// By either it asserts.
pub fn nearer_asserts()
    ensures { NearerAsserts }
{}

/// The nearer one's next Assert comes to the farther one within a second.
pub fn nearer_asserts_in_time()
    ensures { NearerAssertsInTime }
{}

/// So the farther one, which took itself for the winner, has lost from then on.
pub fn farther_comes_to_lose()
    ensures { FartherComesToLose }
{}

/// And it stays the loser.
pub fn farther_stays_loser()
    ensures { FartherStaysLoser }
{}

/// So it sends a packet no longer that it sent before.
pub fn farther_sends_none()
    ensures { FartherSendsNone }
{}

/// On two LANs all that is sent comes to all in order, within 100 ms, while one of two routers wins an assert, both join over
/// the RP, and one of them prunes a source that the other overrides.
pub fn plan_is_quiet()
    ensures { PlanIsQuiet }
{}

/// So at the end each LAN has one DR and one querier, the host's group is known, the RP holds what is joined, none but the
/// winner sends what the assert is about, and the Prune has had no effect.
pub fn plan_settles()
    ensures { PlanSettles }
{}

/// The routes of both routers lead to the RP, each can join over it, and from the bound on none has lost the group's assert there.
pub fn routes_lead_on_plan()
    ensures { RoutesLeadOnPlan }
{}

/// So a way of the second router, which isn't in the plan, leads to the RP, and at the end its next hop holds what is joined.
pub fn farther_is_held_to_rp()
    ensures { FartherIsHeldToRp }
{}

/// The way of the first router, by the routes, is the one in the plan, and down it each packet comes once.
pub fn nearer_is_served_once()
    ensures { NearerIsServedOnce }
{}

/// A host's link, and the LAN of the RP, which has won the assert of the group there.
pub fn two_lans_are_quiet()
    ensures { TwoLansAreQuiet }
{}

/// The router of the host's link gives way to the RP's Asserts.
pub fn first_yields()
    ensures { FirstYields }
{}

/// So the RP is RPF'(\*,G), though the route names another router.
pub fn winner_is_rpf()
    ensures { WinnerIsRpf }
{}

/// Over the winner of the assert the routes lead to the RP.
pub fn host_is_reached()
    ensures { HostIsReached }
{}

/// So the host is served over it.
pub fn host_is_served()
    ensures { HostIsServed }
{}

/// From the bound on the RP and the winner of the assert forward the source's packets, and no other router sends them on the LANs.
pub fn plan_is_open()
    ensures { PlanIsOpen }
{}

/// So the source's next packet, which a Register brings to the RP, is on the host's LAN in exactly one frame.
pub fn plan_serves_once()
    ensures { PlanServesOnce }
{}

/// And nothing else of the source comes there.
pub fn plan_brings_nothing_else()
    ensures { PlanBringsNothingElse }
{}

/// The chain's routers forward the sender's packets once the group is joined all the way, and their links carry what is sent.
pub fn chain_forwards()
    ensures { ChainForwards }
{}

/// So a packet that a Register brings to the RP is on the host's link, two routers further, in exactly one frame.
pub fn chain_serves_once()
    ensures { ChainServesOnce }
{}

/// On the first of the two LANs both routers take themselves for the winner of the group's assert to begin with.
pub fn both_win_at_first()
    ensures { BothWinAtFirst }
{}

/// So one of them goes by 200 ms after the Assert Timer of the nearer one expires.
pub fn farther_goes()
    ensures { FartherGoes }
{}

/// Two routers send a packet of the group on the link of a router that joined over both, and hear each other's; neither has an assert.
pub fn both_send()
    ensures { BothSend }
{}

/// Each asserts, and the nearer one answers the Assert of the farther one.
pub fn both_assert()
    ensures { BothAssert }
{}

/// So 100 ms after the nearer one's first Assert the farther one has lost, and sends none of the next packet there.
pub fn farther_is_silent()
    ensures { FartherIsSilent }
{}

/// The assert's loser hears the packet on the other LAN, and the winner alone sends it on the host's.
pub fn winner_alone_on_plan()
    ensures { WinnerAloneOnPlan }
{}

/// With the second router's own link, on which a host asks it, too, all is as quiet.
pub fn served_plan_is_quiet()
    ensures { ServedPlanIsQuiet }
{}

/// The first LAN is served by the winner of the assert, and that link by its DR: so both routers want the group.
pub fn both_are_wanted()
    ensures { BothAreWanted }
{}

/// The loser of the assert isn't asked on the first LAN, nor either of both on the RP's LAN, which is their only way in.
pub fn no_others_send()
    ensures { NoOthersSend }
{}

/// By their routes the RP is the next hop of both routers that serve a receiver, and nothing that is sent keeps the packets from
/// there.
pub fn both_are_reached()
    ensures { BothAreReached }
{}

/// So both receivers are served without ways that are given, nor that the routers are neighbours to begin with.
pub fn both_are_served()
    ensures { BothAreServed }
{}

/// And nothing else of the source comes to either.
pub fn nothing_else_comes_to_both()
    ensures { NothingElseComesToBoth }
{}

/// An RP is told of a source by a peer's Source-Active message (MSDP), and may learn it.
pub fn active_comes()
    ensures { ActiveComes }
{}

/// So the message is taken as a Register of its source.
pub fn active_registers()
    ensures { ActiveRegisters }
{}

/// And the RP knows the source for 210 s.
pub fn active_makes_known()
    ensures { ActiveMakesKnown }
{}

/// It goes to none of a set of RPs that share the RP's address.
pub fn set_leaves_active()
    ensures { SetLeavesActive }
{}

/// Nor does the RP tell a peer of the source as its own.
pub fn active_is_not_sent_back()
    ensures { ActiveIsNotSentBack }
{}

/// Others come to an address that isn't the router's, of a group of the link, and to one of its own that isn't RP(G).
pub fn other_actives_come()
    ensures { OtherActivesCome }
{}

/// So the first two are ignored, and the third changes nothing of the state.
pub fn other_actives_are_ignored()
    ensures { OtherActivesAreIgnored }
{}

/// A host's report asks the first router of the chain for the group, and so this joins it over the second one.
pub fn report_is_joined()
    ensures { ReportIsJoined }
{}

/// That Join asks the second router for the group, and so this joins it over the RP.
pub fn join_is_passed_on()
    ensures { JoinIsPassedOn }
{}

/// A host of a source-specific group behind a router whose route leads to the source over another one, which has the source on a
/// link: the LAN between both carries what is sent there, and the first one serves the host.
pub fn source_is_reached()
    ensures { SourceIsReached }
{}

/// So the host is served on the source's own tree.
pub fn source_member_is_served()
    ensures { SourceMemberIsServed }
{}

/// As by a packet that the source sends: it is on the host's link in exactly one frame.
pub fn sent_comes_once()
    ensures { SentComesOnce }
{}

/// From the beginning of three routers in a line on a host asks the first one, the Joins go up to the RP, and a packet that a Register
/// brings there comes to each of the three links.
pub fn line_is_asked()
    ensures { LineIsAsked }
{}

/// So from each of these links a way of no more than three Joins leads to a host.
pub fn line_leads_to_host()
    ensures { LineLeadsToHost }
{}

/// A host's router and the RP go on for eleven minutes, in which the host asks again each minute. Then a packet comes to both links,
/// later than twice 260 s and a minute.
pub fn pair_is_asked()
    ensures { PairIsAsked }
{}

/// So from each of them a way of no more than two Joins leads to a host, which has asked since the beginning.
pub fn pair_comes_to_lead_to_host()
    ensures { PairComesToLeadToHost }
{}

/// On the two LANs each Join is sent by a router that is farther from the RP than the one that it comes to, and what was asked before
/// the moves is over after 351 s.
pub fn plan_is_asked()
    ensures { PlanIsAsked }
{}

/// So from 883.4 s on, if moves went on until then, their packets would go only to links from which a way of Joins leads to a host.
pub fn plan_comes_to_lead_to_hosts()
    ensures { PlanComesToLeadToHosts }
{}

/// The two LANs, the RP and both receivers meet all that `NetworkConverges` asks for.
pub fn plan_is_converging()
    ensures { PlanIsConverging }
{}

/// So this network has converged.
pub fn plan_has_converged()
    ensures { PlanHasConverged }
{}
