//! Networks that meet the premises of the laws of streams, computed by the kernel.
ghost use Rattle.pim_runs.specs.LastHop.{LastHopCanChange, LastHopChanges};
ghost use Rattle.pim_runs.specs.Registered.{SourceIsRegistered};
ghost use Rattle.pim_runs.specs.SourceChain.{SourceIsJoined, TreeBegins};
ghost use Rattle.pim_runs.specs.StreamChain.{BothRoutersPass, NothingEndsStream, RegisteredPacketIsServed, SecondRouterBegins};
ghost use Rattle.pim_runs.specs.Switch.{StreamChangesTree};

/// Two routers below the RP pass the stream, the first to a host and the second to a router.
pub fn both_routers_pass()
    ensures { BothRoutersPass }
{}

/// The second router begins to pass the stream with the Join that it takes.
pub fn second_router_begins()
    ensures { SecondRouterBegins }
{}

/// In 290 s of packets, repeated Joins and reports nothing ends the stream.
pub fn nothing_ends_stream()
    ensures { NothingEndsStream }
{}

/// The third Register of the stream brings its packet to the host, with a TTL that is just enough.
pub fn registered_packet_is_served()
    ensures { RegisteredPacketIsServed }
{}

/// The first packet on the tree of the source ends passing from the shared tree and begins it from that of the source.
pub fn stream_changes_tree()
    ensures { StreamChangesTree }
{}

/// At the first packet on the tree of the source the last hop can change to it.
pub fn last_hop_can_change()
    ensures { LastHopCanChange }
{}

/// At the first packet on the tree of the source the last hop changes to it, and goes on passing the stream to its
/// host.
pub fn last_hop_changes()
    ensures { LastHopChanges }
{}

/// A packet of the source comes in its DR's Register to the RP, and down to the host, with a TTL that is just enough.
pub fn source_is_registered()
    ensures { SourceIsRegistered }
{}

/// A Join(S,G) climbs to the router that has the source on a link, with two seconds between the deliveries.
pub fn source_is_joined()
    ensures { SourceIsJoined }
{}

/// The first packet of the source comes down, and sets SPTbit at each router below.
pub fn tree_begins()
    ensures { TreeBegins }
{}
