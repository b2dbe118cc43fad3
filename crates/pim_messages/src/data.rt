//! Data packets as they leave: copies on links, and the Register round one.
ghost use Rattle.std.specs.Prelude.{◌≡◌, ◌+◌, ◌≤◌, length, IfOk};
ghost use Rattle.pim_ip.specs.Ipv4.{copy_text};
ghost use Rattle.pim_model.specs.Writing.{on_link, pim_to};
ghost use Rattle.pim_wire.specs.Registers.{register_text};

use crate::packet::pim_to;
use crate::room::Room;
use pim_ip::{Ipv4View, write_copy};
use pim_types::{Addr, Emission, IfaceId, Series};
use pim_wire::write_register;
use std::alloc::AllocError;

/// A copy of a packet as it leaves on a link, its TTL one lower.
pub fn copy_on_link(
    room: &mut Room,
    iface: IfaceId,
    packet: &Ipv4View<'_>,
) -> Result<Emission, AllocError>
    ensures { IfOk result (λ e. e ≡ on_link iface.number (copy_text packet.now)) }
{
    let mut copy = room.buffer_for(packet.total_length())?;
    write_copy(packet, &mut copy)?;
    let bytes = Series::from_vec(copy);
    Ok(Emission::Link { iface, bytes })
}

/// The Register of a packet (RFC 7761, section 4.9.3), from one of the router's addresses to an RP. The packet in it
/// has a TTL one lower.
#[tactic(auto, using(crate::proofs::Lengths::length_register_of_copy))]
pub fn register_of_copy(
    room: &mut Room,
    from: Addr,
    to: Addr,
    packet: &Ipv4View<'_>,
) -> Result<Emission, AllocError>
    ensures { IfOk result (λ e. e ≡ pim_to from.bits to.bits (register_text (copy_text packet.now))) }
{
    // For the proof: the packet is short.
    let _ = packet.total_length();
    let mut copy = room.buffer();
    write_copy(packet, &mut copy)?;
    let mut register = room.buffer();
    write_register(&copy, &mut register)?;
    let packet = pim_to(room, from, to, &register)?;
    room.give(copy);
    room.give(register);
    Ok(packet)
}
