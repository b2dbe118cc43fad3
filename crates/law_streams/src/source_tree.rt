//! What is asked of a source's tree is served from it. Laws of the definitions, each the contract of a function with
//! nothing to do.

ghost use Rattle.law_streams.specs.LastHop.{LastHopSetsSptBit};
ghost use Rattle.law_streams.specs.Registered.{RegisterIsRead, RegisteredIsServed};
ghost use Rattle.law_streams.specs.Room.{OwnPacketKeepsRoom};
ghost use Rattle.law_streams.specs.SourceTreeClimbing.{SourceJoinClimbsOver};
ghost use Rattle.law_streams.specs.Turning.{PacketSetsSptBit, SourceTreeBegins};

/// A Join(S,G) climbs the way to its source with any moves of the network between its deliveries, each router as it is
/// when the Join comes to it. Each can take the Join (`CanTakeSource`): the sender is a live neighbour on an interface
/// that is up, and there is room for a row. Each but the last sends its own, if it didn't want the source, its next hop
/// to the source is a live neighbour, and no assert of (S,G) is lost on that interface (`CanGoOnToSource`).
pub fn source_join_climbs_over()
    ensures { SourceJoinClimbsOver }
{}

/// Where a router joined (S,G) on a link, and Update_SPTbit(S,G,iif) may set the bit (`CanTurn`), the first packet of
/// the source that comes in on RPF_interface(S) with a TTL above 1 leaves on that link, and after it the router passes
/// the stream there on the source's tree. The router has lost no assert of G or of (S,G) on the link (`GoesOut`), the
/// interface is up, and there is a fact of the source or room for one. The condition of the bit (`may_turn`) is that
/// the source is on a link of the router, or RPF_interface(S) is another interface than RPF_interface(RP(G)), or
/// inherited_olist(S,G,rpt) is empty, or RPF'(S,G) is RPF'(*,G), or the assert of (S,G) is lost on that interface.
pub fn packet_sets_spt_bit()
    ensures { PacketSetsSptBit }
{}

/// Along a way of any length whose routers each can do as `PacketSetsSptBit` says, the first packet of the source on
/// the upper link, with a TTL above the number of routers, comes down by one delivery for each router, and after these
/// each of them passes the stream on the source's tree.
pub fn source_tree_begins()
    ensures { SourceTreeBegins }
{}

/// The bytes of the Register of `DrRegisters`, where the addresses of the source and of the DR are those of hosts, are
/// read as a Register to the RP with the packet in it, whose TTL is one lower.
pub fn register_is_read()
    ensures { RegisterIsRead }
{}

/// A packet of the source that comes to its DR, which is no router of the way (`Registers`, `IsSent`), comes down to
/// the receivers of the RP's tree, by the delivery of the DR's Register to the RP and one for each router below. RP(G)
/// is an address of the RP, which has no SPTbit of the source, a fact of it or room for one, and sends the stream on a
/// link (`Sends`); each router below passes the stream, all of them as they are at that time; and the addresses of the
/// source and of the DR are those of hosts.
pub fn registered_is_served()
    ensures { RegisteredIsServed }
{}

/// Where no router joined the source, but a host asks for the group at the DR of its link, or a router joined the group
/// (`CanChange`), its keepalive timer of the source runs, and the condition of `PacketSetsSptBit` holds, the first
/// packet that comes in on RPF_interface(S) leaves on the link and sets SPTbit, and the router passes the stream there
/// on the source's tree.
pub fn last_hop_sets_spt_bit()
    ensures { LastHopSetsSptBit }
{}

/// A packet of a source on the shared tree makes its fact, or leaves room for it.
pub fn own_packet_keeps_room()
    ensures { OwnPacketKeepsRoom }
{}
