//! What a router is given for a Source-Active message (SA).
ghost use Rattle.std.specs.Prelude.{◌≡◌, ◌<◌, ◌+◌, ◌^◌, ◌++◌, length, IfOk, OnOk};
ghost use Rattle.pim_msdp.specs.Actives.{active_message, active_text, is_packet_of};

use pim_ip::{FRAME_LIMIT, read_ipv4, write_pim_packet};
use pim_types::{Addr, SourceGroup};
use pim_wire::{write_null_register, write_register};
use std::alloc::{AllocError, Global};

/// The TTL of what the router is given.
const TIME_TO_LIVE: u8 = 1;

/// An SA of one source.
#[derive(Drop)]
pub struct SourceActive<'a> {
    /// The peer that sent it.
    pub peer: Addr,
    /// The router's own address that is the RP of the group.
    pub rp: Addr,
    pub name: SourceGroup,
    /// The packet that it encapsulates; empty where it has none.
    pub packet: &'a [u8],
}

// Whether bytes are a packet of a source to a group that a Register can bring.
#[tactic(auto, unfolding(crate::specs::Actives::is_packet_of))]
fn is_packet_of(name: SourceGroup, bytes: &[u8]) -> bool
    ensures { result ≡ is_packet_of name.group.bits name.source.bits bytes.now }
{
    if bytes.len() > FRAME_LIMIT {
        return false;
    }
    match read_ipv4(bytes) {
        Ok(packet) => packet.source() == name.source && packet.destination() == name.group,
        Err(_) => false,
    }
}

// The Register or the Null-Register of an SA.
#[tactic(auto, using(crate::proofs::Lengths::message_short), unfolding(crate::specs::Actives::active_message))]
fn active_message(alloc: Global, name: SourceGroup, bytes: &[u8]) -> Result<Vec<u8>, AllocError>
    ensures value { IfOk result (λ message. message.items ≡ active_message name.group.bits name.source.bits bytes.now) }
{
    let mut message = Vec::new(alloc);
    if is_packet_of(name, bytes) {
        write_register(bytes, &mut message)?;
    } else {
        write_null_register(name.source, name.group, &mut message)?;
    }
    Ok(message)
}

/// The packet in which a router is given an SA, as a Register of a DR to the router's own RP address. A packet that isn't of
/// the source to the group, or is longer than 1500 bytes, is left out. An `Err` is want of memory.
#[tactic(auto, using(crate::proofs::Lengths::message_short), unfolding(crate::specs::Actives::active_text))]
pub fn active_packet(alloc: Global, told: &SourceActive<'_>) -> Result<Vec<u8>, AllocError>
    ensures { IfOk result (λ packet. packet.items ≡ active_text told.now.peer.bits told.now.rp.bits
        told.now.name.group.bits told.now.name.source.bits told.now.packet.now) }
{
    let message = active_message(alloc, told.name, told.packet)?;
    let mut packet = Vec::new(alloc);
    write_pim_packet(TIME_TO_LIVE, told.peer, told.rp, &message, &mut packet)?;
    Ok(packet)
}
