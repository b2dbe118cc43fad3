//! Packets to the router's own address.
ghost use Rattle.std.specs.Prelude.{◌≡◌};
ghost use Rattle.pim_intake.specs.Visits.{pim_to_me_nodes, register_stop_nodes, unicast_nodes, unicast_packet_nodes};
ghost use Rattle.pim_model.specs.Judging.{pim_to_me_judged, register_judged, register_stop_judged, unicast_judged, unicast_packet_judged};
ghost use Rattle.pim_trie.specs.Meter.{raised};

use pim_ip::{Addr, Ipv4View, PROTOCOL_PIM, read_ipv4};
use pim_model::Accepted;
use pim_state::World;
use pim_trie::Meter;
use pim_types::{Ignored, Stop};
use pim_wire::{PimView, RegisterStop, RegisterView, read_pim};

// The tests of a Register: its group isn't link-local.
#[tactic(auto, unfolding(pim_model::specs::Judging::register_judged))]
fn judge_register<'a>(
    packet: Ipv4View<'a>,
    register: RegisterView<'a>,
) -> Result<Accepted<'a>, Stop>
    ensures { result ≡ register_judged packet.entry register.entry }
{
    if register.group().is_link_local() {
        return Err(Stop::Ignore(Ignored::LinkLocal));
    }
    Ok(Accepted::Register { packet, register })
}

// The tests of a Register-Stop: it is of one group, and comes from RP(G). The meter rises by the nodes of RP(G).
#[tactic(auto, using(pim_state::proofs::Visits::raised_by_none), unfolding(pim_model::specs::Judging::register_stop_judged))]
fn judge_register_stop<'a>(
    world: &World,
    from: Addr,
    stop: RegisterStop,
    meter: &mut Meter,
) -> Result<Accepted<'a>, Stop>
    ensures judged { result ≡ register_stop_judged world.now from.bits stop }
    ensures visited { meter.new ≡ raised meter.old (register_stop_nodes world.now stop) }
{
    if stop.mask_length != 32 {
        return Err(Stop::Ignore(Ignored::Mask));
    }
    if world.rp(stop.group, meter) != Some(from) {
        return Err(Stop::Ignore(Ignored::NotRp));
    }
    Ok(Accepted::RegisterStop { from, stop })
}

// The tests of a PIM message to the router's address: a Register or a Register-Stop, and nothing else.
#[tactic(auto, using(pim_state::proofs::Visits::raised_by_none), unfolding(pim_model::specs::Judging::pim_to_me_judged))]
fn judge_message<'a>(
    world: &World,
    packet: Ipv4View<'a>,
    message: PimView<'a>,
    meter: &mut Meter,
) -> Result<Accepted<'a>, Stop>
    ensures judged { result ≡ pim_to_me_judged world.now packet.entry message.entry }
    ensures visited { meter.new ≡ raised meter.old (pim_to_me_nodes world.now message.entry) }
{
    match message {
        PimView::Register(register) => judge_register(packet, register),
        PimView::RegisterStop(stop) => judge_register_stop(world, packet.source(), stop, meter),
        _ => Err(Stop::Ignore(Ignored::NotForMe)),
    }
}

// The tests of a unicast packet: it is a PIM message to an address of the router.
#[tactic(auto, using(pim_state::proofs::Visits::raised_by_none), unfolding(pim_model::specs::Judging::unicast_packet_judged, crate::specs::Visits::unicast_packet_nodes))]
fn judge_packet<'a>(
    world: &World,
    packet: Ipv4View<'a>,
    meter: &mut Meter,
) -> Result<Accepted<'a>, Stop>
    ensures judged { result ≡ unicast_packet_judged world.now packet.entry }
    ensures visited { meter.new ≡ raised meter.old (unicast_packet_nodes world.now packet.entry) }
{
    if packet.protocol() != PROTOCOL_PIM {
        return Err(Stop::Ignore(Ignored::NotForMe));
    }
    let message = read_pim(packet.payload())?;
    if !world.interfaces().is_own(packet.destination()) {
        return Err(Stop::Ignore(Ignored::NotForMe));
    }
    judge_message(world, packet, message, meter)
}

/// A packet to the router's own address. The meter rises by the nodes that lead to the RP of a Register-Stop's group.
#[tactic(auto, using(pim_state::proofs::Visits::raised_by_none), unfolding(pim_model::specs::Judging::unicast_judged, crate::specs::Visits::unicast_nodes))]
pub(crate) fn judge_unicast<'a>(
    world: &World,
    bytes: &'a [u8],
    meter: &mut Meter,
) -> Result<Accepted<'a>, Stop>
    ensures judged { result ≡ unicast_judged world.now bytes.now }
    ensures visited { meter.new ≡ raised meter.old (unicast_nodes world.now bytes.now) }
{
    let packet = read_ipv4(bytes)?;
    judge_packet(world, packet, meter)
}
