//! What comes down a way.

ghost use Rattle.law_converges.specs.AloneByAssert.{WinnerIsAlone};
ghost use Rattle.law_converges.specs.CarriedWays.{CarriedNetworkBringsNothingElse, CarriedNetworkServesOnce};
ghost use Rattle.law_converges.specs.ComesOnce.{EachPacketComesOnce, FrameComesOfOne, NothingElseComes};
ghost use Rattle.law_converges.specs.SourceWays.{EveryWantOfSourceIsServedOnce, SentComesOnPath};

/// Down a way of any length, from when its routers forward a source's packets on: of each packet that an event brings to the
/// way's top router, its root, on a tree or in a Register, exactly one frame on the last link comes; where the way is of the
/// source's own tree, of each that comes on that, with SPTbit set by it at the latest. The root puts one copy on its link; each
/// further router takes the frame from the link above once, and puts one copy on the link below, within d of when the frame was
/// sent. The frame on the last link has the packet's payload, and its TTL is lower by one for each router; that it is above 0
/// there is a premise, and that the moves go so far. Each of the routers has one interface on the link below, and passes the
/// source's packets to it; the links carry all frames to all of their routers, in order and within d. It says nothing of what
/// others send there.
pub fn each_packet_comes_once()
    ensures { EachPacketComesOnce }
{}

/// No two packets share a frame: a frame on the last link comes, router by router, of one frame alone on the first link.
pub fn frame_comes_of_one()
    ensures { FrameComesOfOne }
{}

/// Nothing else of the source comes there: from when no other router sends its packets on the links of the way, each frame on the
/// last link that holds a packet of the source comes, router by router, of a packet that an event brought to the root, or of a
/// frame that was under way by then. What makes a router of the way send such a packet on the link below is a frame from the link
/// above. Of the routers that lost an assert on a link `NetworkSettles` says that they send none there of what it is about.
pub fn nothing_else_comes()
    ensures { NothingElseComes }
{}

/// The winner of an assert is the only router of the link that sends a source's packets there by a move, as `NothingElseComes`
/// asks, where the losers send none of what the assert is about, as `NetworkSettles` says from the bound on; where whoever is on
/// the link is the winner or one of these; and where each packet of the source that the move brings to a loser comes on a link,
/// and the assert is about it: of a source's assert it always is, of a group's where it doesn't come on the source's own tree.
pub fn winner_is_alone()
    ensures { WinnerIsAlone }
{}

/// So it is in a network that settles, as `CarriedNetworkSettles` says, with its premises: down each of its ways of a group each
/// packet of a source comes exactly once to the last LAN, from the bound on. The next hops hold the group by then. What is asked
/// besides is that each of them is on the group's tree, as `HeldIsPassedOnce` asks, but for the last, to which the packets are
/// brought; that each has one interface on the link; and that the first router of the way passes the packets on to the last LAN.
pub fn carried_network_serves_once()
    ensures { CarriedNetworkServesOnce }
{}

/// And nothing else of the source comes there, where no other router sends its packets on the links of the way, as
/// `NothingElseComes` asks.
pub fn carried_network_brings_nothing_else()
    ensures { CarriedNetworkBringsNothingElse }
{}

/// Down the source's own tree, too: in a network that settles, over whose LANs the routes lead to the source without a loop, each
/// router that wants the source from a time on has a way of next hops to it, which come to hold the source. From then on each packet
/// that comes to the way's last next hop on the way to the source comes exactly once to the link to which the router passes the
/// packets on, and nothing else of the source where no other router sends its packets on the links of the way. Asked is, besides,
/// that each router between takes the packets: the source isn't its own, there is room, and SPTbit is set, or the first packet may
/// set it, as it always may for a source-specific group; and that it has one interface on the LAN below.
pub fn every_want_of_source_is_served_once()
    ensures { EveryWantOfSourceIsServedOnce }
{}

/// Each packet that a source sends on its link comes so to a router there that has joined routers on another interface.
pub fn sent_comes_on_path()
    ensures { SentComesOnPath }
{}
