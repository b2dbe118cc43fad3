//! IGMP messages on a link (RFC 3376, section 4).
ghost use Rattle.std.specs.Prelude.{◌≡◌};
ghost use Rattle.pim_model.specs.Judging.{igmp_accepted, igmp_message_judged};

use crate::plain::PlainWorld;
use igmp_wire::{IgmpView, read_igmp};
use pim_ip::{Addr, Ipv4View};
use pim_model::Accepted;
use pim_types::{IfaceId, Ignored, Stop};

// What the router acts on of a message.
fn accepted<'a>(iface: IfaceId, from: Addr, message: IgmpView<'a>) -> Accepted<'a>
    ensures { result ≡ igmp_accepted iface from.bits message.entry }
{
    match message {
        IgmpView::Query(query) => Accepted::Query { iface, from, query },
        IgmpView::Report(report) => Accepted::Report { iface, report },
    }
}

/// The IGMP message in a packet.
#[tactic(auto, unfolding(pim_model::specs::Judging::igmp_message_judged, pim_model::specs::Judging::igmp_judged))]
pub(crate) fn judge_igmp<'a, W: PlainWorld>(
    world: &W,
    iface: IfaceId,
    packet: &Ipv4View<'a>,
) -> Result<Accepted<'a>, Stop>
    ensures { result ≡ igmp_message_judged (W.state world.now) iface packet.now }
{
    let message = read_igmp(packet.payload())?;
    if world.interfaces().is_own(packet.source()) {
        return Err(Stop::Ignore(Ignored::Own));
    }
    if !packet.destination().is_multicast() {
        return Err(Stop::Ignore(Ignored::NotForMe));
    }
    Ok(accepted(iface, packet.source(), message))
}
