//! A Bootstrap that came, before its BSR is weighed.
ghost use Rattle.std.specs.Prelude.{◌≡◌, ◌+◌, ◌^◌, ◌<◌, length, Ok};
ghost use Rattle.pim_bootstrap.specs.Bootstraps.{bootstrap_reading};
ghost use Rattle.pim_bsr.specs.Hearing.{is_bootstrap};
ghost use Rattle.pim_bsr.specs.Standing.{arrival_in};

use crate::heard::Heard;
use pim_bootstrap::{BootstrapView, read_bootstrap};
use pim_ip::{Addr, Ipv4View, PROTOCOL_PIM, read_ipv4};
use pim_types::IfaceId;
use std::marker::Model;

/// The type of a Bootstrap.
const BOOTSTRAP: u8 = 4;

/// The length of PIM's header.
const HEADER_LENGTH: usize = 4;

/// Whether a packet is PIM of the type of a Bootstrap, to all PIM routers.
pub(crate) fn is_bootstrap(packet: &Ipv4View<'_>) -> bool
    ensures { result ≡ is_bootstrap packet.now }
{
    if packet.protocol() != PROTOCOL_PIM || packet.destination() != Addr::ALL_PIM_ROUTERS {
        return false;
    }
    let message = packet.payload();
    message.len() >= HEADER_LENGTH && message[0] & 0x0F == BOOTSTRAP
}

/// A Bootstrap that was read, with the interface on which it came and its sender. It is borrowed from the packet's bytes.
#[derive(Drop)]
pub struct Arrived<'a> {
    iface: IfaceId,
    source: Addr,
    bytes: &'a [u8],
    message: BootstrapView<'a>,
}

impl<'a> Model for Arrived<'a> {
    ghost use Rattle.pim_bsr.specs.Standing.{Arrival};
    ghost use Rattle.pim_bsr.specs.Views.{IsArrived};

    ghost Value = { Arrival };

    ghost view = { λ a. record {
      iface = a.iface.number;
      source = a.source.bits;
      bytes = a.bytes.now;
      message = a.message;
    } };

    ghost invariant = { λ a. IsArrived a.bytes.now a.message };
}

/// Reads a packet that came on an interface, and that the router ignored as PIM of a type that it doesn't handle: the
/// Bootstrap in it, or what else it is.
#[tactic(auto, unfolding(crate::specs::Standing::arrival_in, crate::specs::Standing::arrival_packet))]
pub fn read_arrived(iface: IfaceId, bytes: &[u8]) -> Result<Arrived<'_>, Heard>
    ensures { result ≡ arrival_in iface.number bytes.now }
{
    let Ok(packet) = read_ipv4(bytes) else {
        return Err(Heard::Other);
    };
    if !is_bootstrap(&packet) {
        return Err(Heard::Other);
    }
    // It tells that the message fits into a packet.
    let _ = packet.total_length();
    match read_bootstrap(packet.payload()) {
        Ok(message) => Ok(Arrived {
            iface,
            source: packet.source(),
            bytes: packet.payload(),
            message,
        }),
        Err(refusal) => Err(Heard::Refused(refusal)),
    }
}

impl<'a> Arrived<'a> {
    /// The interface on which it came.
    pub(crate) fn iface(&self) -> IfaceId
        ensures { result.number ≡ self.now.iface }
    {
        self.iface
    }

    /// Its sender.
    pub(crate) fn source(&self) -> Addr
        ensures { result.bits ≡ self.now.source }
    {
        self.source
    }

    /// Its bytes, which fit into a packet.
    pub(crate) fn bytes(&self) -> &'a [u8]
        ensures value { result.now ≡ self.now.bytes }
        ensures fits { 20 + length self.now.bytes < 2 ^ 16 }
        ensures read { bootstrap_reading self.now.bytes ≡ Ok self.now.message }
    {
        self.bytes
    }

    /// The message.
    pub(crate) fn message(&self) -> &BootstrapView<'a>
        ensures { result.now ≡ self.now.message }
    {
        &self.message
    }

    /// The address of its BSR.
    pub fn bsr(&self) -> Addr
        ensures { result.bits ≡ self.now.message.bsr }
    {
        self.message.bsr()
    }

    /// The priority of its BSR; the higher number is preferred.
    pub fn priority(&self) -> u8
        ensures { result ≡ self.now.message.priority }
    {
        self.message.priority()
    }
}
