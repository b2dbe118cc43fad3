//! Packets that came on a link.
ghost use Rattle.std.specs.Prelude.{◌≡◌};
ghost use Rattle.pim_model.specs.Judging.{data_judged, frame_judged, packet_judged};

use crate::igmp::judge_igmp;
use crate::message::judge_pim;
use crate::plain::PlainWorld;
use pim_ip::{Addr, FRAME_LIMIT, Ipv4View, PROTOCOL_IGMP, PROTOCOL_PIM, Refusal, read_ipv4};
use pim_model::Accepted;
use pim_types::{IfaceId, Ignored, Stop};

// A packet of another protocol.
#[tactic(auto, unfolding(pim_model::specs::Judging::data_judged))]
fn judge_data<'a, W: PlainWorld>(
    world: &W,
    iface: IfaceId,
    packet: Ipv4View<'a>,
) -> Result<Accepted<'a>, Stop>
    ensures { result ≡ data_judged (W.state world.now) iface packet.entry }
{
    if world.interfaces().is_own(packet.source()) {
        return Err(Stop::Ignore(Ignored::Own));
    }
    if !packet.destination().is_multicast() {
        return Err(Stop::Ignore(Ignored::NotForMe));
    }
    if packet.destination().is_link_local() {
        return Err(Stop::Ignore(Ignored::LinkLocal));
    }
    Ok(Accepted::Data { iface, packet })
}

// A packet that was read.
#[tactic(auto, unfolding(pim_model::specs::Judging::packet_judged))]
fn judge_packet<'a, W: PlainWorld>(
    world: &W,
    iface: IfaceId,
    packet: Ipv4View<'a>,
) -> Result<Accepted<'a>, Stop>
    ensures { result ≡ packet_judged (W.state world.now) iface packet.entry }
{
    let protocol = packet.protocol();
    if protocol == PROTOCOL_PIM && packet.destination() == Addr::ALL_PIM_ROUTERS {
        return judge_pim(world, iface, &packet);
    }
    if protocol == PROTOCOL_IGMP {
        return judge_igmp(world, iface, &packet);
    }
    judge_data(world, iface, packet)
}

/// The tests of a packet that came on an interface.
#[tactic(auto, unfolding(pim_model::specs::Judging::frame_judged))]
pub fn judge_frame<'a, W: PlainWorld>(
    world: &W,
    iface: IfaceId,
    bytes: &'a [u8],
) -> Result<Accepted<'a>, Stop>
    ensures { result ≡ frame_judged (W.state world.now) iface bytes.now }
{
    if iface.number >= world.interfaces().count() {
        return Err(Stop::Refuse(Refusal::NoInterface));
    }
    if !world.interfaces().is_up(iface) {
        return Err(Stop::Refuse(Refusal::InterfaceDown));
    }
    if bytes.len() > FRAME_LIMIT {
        return Err(Stop::Refuse(Refusal::BadLength));
    }
    let packet = read_ipv4(bytes)?;
    judge_packet(world, iface, packet)
}
