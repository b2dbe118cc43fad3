//! Links with a member of a group: who serves it there, and that each packet is there once and nothing else. And links that
//! nobody wants, or that all have left.

ghost use Rattle.law_converges.specs.AloneOnLink.{OneRouterSends};
ghost use Rattle.law_converges.specs.AskedByMembers.{CarriedJoinsAreSent, EachLinkLeadsToHosts, EachWayIsShort, LinksComeToLeadToHosts};
ghost use Rattle.law_converges.specs.EachMember.{EachMemberIsServed};
ghost use Rattle.law_converges.specs.LeftLinks.{LeftLinkIsQuiet, OnlyWantedIsBrought};
ghost use Rattle.law_converges.specs.MemberLinks.{MemberIsWanted};
ghost use Rattle.law_converges.specs.SilentRouters.{OnlyWayInIsTaken, UnaskedSendsNone};
ghost use Rattle.law_converges.specs.SourceWays.{EachSourceMemberIsServed};

/// Who asks is wanted: in a network that settles the router that serves a link with a member of a group wants the group
/// (JoinDesired), from the bound on. This is the link's DR, that with the highest priority, and of these with the highest
/// address; or the winner of the group's assert there. It knows the group, as each router of the link does by then. A premise is
/// that it loses no assert of the group there: the winner doesn't, nor who hears no better one, once what it had lost is over.
pub fn member_is_wanted()
    ensures { MemberIsWanted }
{}

/// Who isn't asked sends none: no router joined the group or the source over it on the interface, and it is neither the DR nor an
/// assert's winner there, or no host asks. This holds of data and of what comes out of Registers.
pub fn unasked_sends_none()
    ensures { UnaskedSendsNone }
{}

/// What a router sends of a source's packets came on its way to the RP, if no other interface is its way to the source, or if it
/// isn't on the source's own tree. So none of them is taken from a Register, or from another link.
pub fn only_way_in_is_taken()
    ensures { OnlyWayInIsTaken }
{}

/// One router alone: on a link of a network that settles no other one sends a source's packets, if each of those is another than
/// the DR, with nobody who joined over it there and no assert won; or has neither routers nor hosts there that ask; or takes them
/// from this link; or has lost an assert of the link that is about them.
pub fn one_router_sends()
    ensures { OneRouterSends }
{}

/// Each member is served: where the routes lead to the RP, neither a way has to be given nor who wants the group, nor that routers
/// are neighbours. In a network that settles each link with a member, whose router's routes lead to the RP, each over another link,
/// has a way of next hops to it, which come to hold the group: by one hop after what was sent before the bound has come, for each
/// of them. From then on each packet of a source that an event brings to the RP, on a tree or in a Register, is on the link in
/// exactly one frame. And each frame there that holds one of the source's packets comes, router by router, of a packet that an
/// event brought to the RP, or of a frame of before, where on each link of the way no other router sends them, for one of the
/// reasons of `OneRouterSends`, the link above is the only way in of each router of the way, and no host sends them to it.
///
/// That no assert is lost and no source pruned on the way follows of what is sent: no Assert of the group, or of the source, by which
/// the router loses, and no Prune(S,G,rpt) comes where the packets go, and what was before is over by the bound; or the router wins
/// the group's assert there. After an Assert by which it doesn't lose a router passes the packets on. A router that gives way to the
/// winner of the group's assert on the LAN of its route has that one as its next hop (`LoserJoinsWinner`). Other premises are those of
/// `EveryWantIsHeldToRp`; whoever is on a link is one of its routers; and of the routers of the way, from the limit on, that they
/// have room for the source, and that its packets come on no other tree.
pub fn each_member_is_served()
    ensures { EachMemberIsServed }
{}

/// A link is brought only what somebody there wants: from a time T after a bound on, at which the moves begin, each of a source's
/// packets that a move brings to the link is a copy that a router of the link puts there, which somebody there has asked for it
/// within the last T, by a Join(*,G), a Join(S,G) or a report of a host. T is any time by which all is over that comes to a router
/// there: the longest holdtime of a Join/Prune, 210 s as routers send it, and [Group Membership Interval], 260 s with the default
/// values; so it is with what the routers of the link have heard there since each one's opening, too. It holds of each link of any
/// network, whether it has settled or not, whoever is the DR, and whatever is lost. The group isn't link-local.
pub fn only_wanted_is_brought()
    ensures { OnlyWantedIsBrought }
{}

/// So none of a source's packets comes to a link, from T after the bound on, where from the bound on nobody asks a router for them.
pub fn left_link_is_quiet()
    ensures { LeftLinkIsQuiet }
{}

/// And to no other link: in a network in which nothing had happened, each of a source's packets that a move brings to a link is a copy
/// that a router of the link puts there, and over some number k of Joins a way leads from it to a host: the router was asked on the
/// link by a Join that another router of the link had sent, since it was asked on a link of its own, and so on, until a host's report;
/// or until a router with the source on a link of its own, which joins since it may register the source. Each Join of the way came within
/// d of when it was sent and was heard for no longer than T, as the report was, and nobody's time went on by more than a tick at once: so
/// the packet is less than T + k * (T + d + tick) after the report. T is as in `OnlyWantedIsBrought`. Each Join/Prune that comes to a
/// router is a frame that a router of the network sent. It holds of any routes, whatever is lost, repeated or out of order.
pub fn each_link_leads_to_hosts()
    ensures { EachLinkLeadsToHosts }
{}

/// Where each Join(*,G) that comes is of a router farther from the RP than the one that it comes to, and each Join(S,G) of one farther
/// from the source, by a distance that a premise gives, the way is no longer than the two greatest distances and one.
pub fn each_way_is_short()
    ensures { EachWayIsShort }
{}

/// So it is in any network, from when what its routers were asked before the moves is over, and as long after that as such a way
/// takes. None of the frames of before comes as a Join/Prune any more.
pub fn links_come_to_lead_to_hosts()
    ensures { LinksComeToLeadToHosts }
{}

/// What these ask of each Join/Prune follows where LANs carry all that is sent on them, in order and within d, as a quiet plan has it
/// (`CarriedNetworkSettles`), and each Join/Prune comes to one of their routers on its LAN.
pub fn carried_joins_are_sent()
    ensures { CarriedJoinsAreSent }
{}

/// Each member of a source-specific group is served, once: a router that serves a host's interface, as the DR or as the winner of
/// the source's assert, and knows that the host asks for the source, wants the source. So where the routes lead to the source, as
/// `EveryWantOfSourceIsServedOnce` asks, each packet of the source comes to the host's link exactly once.
pub fn each_source_member_is_served()
    ensures { EachSourceMemberIsServed }
{}
