//! Which packets are stopped.
ghost use Rattle.std.specs.Prelude.{◌≡◌};
ghost use Rattle.pim_guard.specs.Guard.{brings_control, is_control, is_forwarded_pim, is_frame_stopped, is_packet_stopped, is_unicast_stopped};

use pim_ip::{Ipv4View, PROTOCOL_IGMP, PROTOCOL_PIM, read_ipv4};
use pim_wire::{PimView, RegisterView, read_pim};

/// The place of the protocol number in a packet.
const PROTOCOL_PLACE: usize = 9;

// Whether a packet is IGMP, PIM, or for a link alone.
fn is_control(packet: &Ipv4View<'_>) -> bool
    ensures { result ≡ is_control packet.now }
{
    packet.protocol() == PROTOCOL_IGMP
        || packet.protocol() == PROTOCOL_PIM
        || packet.destination().is_link_local()
}

// Whether a Register brings such a packet.
fn brings_control(register: &RegisterView<'_>) -> bool
    ensures { result ≡ brings_control register.now }
{
    match register.inner() {
        Some(packet) => is_control(packet),
        None => false,
    }
}

// Whether a packet by unicast is a Register that brings such a packet.
#[tactic(auto, unfolding(crate::specs::Guard::is_packet_stopped))]
fn stops_packet(packet: &Ipv4View<'_>) -> bool
    ensures { result ≡ is_packet_stopped packet.now }
{
    if packet.protocol() != PROTOCOL_PIM {
        return false;
    }
    match read_pim(packet.payload()) {
        Ok(PimView::Register(register)) => brings_control(&register),
        _ => false,
    }
}

/// Whether a packet by unicast is stopped: a Register whose packet inside is of IGMP or PIM, or is for 224.0.0.0/24. A
/// Null-Register has none inside. Takes no memory.
#[tactic(auto, unfolding(crate::specs::Guard::is_unicast_stopped))]
pub fn stops_unicast(bytes: &[u8]) -> bool
    ensures { result ≡ is_unicast_stopped bytes.now }
{
    match read_ipv4(bytes) {
        Ok(packet) => stops_packet(&packet),
        Err(_) => false,
    }
}

// Whether a packet is PIM to a group that no message goes to.
fn is_forwarded_pim(packet: &Ipv4View<'_>) -> bool
    ensures { result ≡ is_forwarded_pim packet.now }
{
    let destination = packet.destination();
    packet.protocol() == PROTOCOL_PIM && destination.is_multicast() && !destination.is_link_local()
}

/// Whether a packet on a link is stopped: one of PIM to a group outside 224.0.0.0/24, which is no message to the router.
/// IGMP on a link is never forwarded. Takes no memory.
#[tactic(auto, using(crate::proofs::Passing::no_pim), unfolding(crate::specs::Guard::is_frame_stopped))]
pub fn stops_frame(bytes: &[u8]) -> bool
    ensures { result ≡ is_frame_stopped bytes.now }
{
    // Data pays for no more than this.
    if bytes.len() <= PROTOCOL_PLACE || bytes[PROTOCOL_PLACE] != PROTOCOL_PIM {
        return false;
    }
    match read_ipv4(bytes) {
        Ok(packet) => is_forwarded_pim(&packet),
        Err(_) => false,
    }
}
