//! A sum of what was sent.
ghost use Rattle.pim_saved.specs.Crc.{after_bytes};
ghost use Rattle.pim_saver.specs.Records.{after_sent, emission_text, packet_text, sum_of};
ghost use Rattle.std.specs.Prelude.{◌≡◌};

use crate::{BEGUN, ended, with_byte, with_bytes};
use pim_types::Emission;

// The register after a packet: its letter, its interface or its destination, and its bytes.
fn with_packet(register: u32, letter: u8, place: u32, packet: &[u8]) -> u32
    ensures { result ≡ after_bytes register (packet_text letter place packet.now) }
{
    let register = with_byte(register, letter);
    let register = with_bytes(register, &place.to_be_bytes());
    let register = with_bytes(register, &(packet.len() as u64).to_be_bytes());
    with_bytes(register, packet)
}

fn with_emission(register: u32, emission: &Emission) -> u32
    ensures { result ≡ after_bytes register (emission_text emission.now) }
{
    match emission {
        Emission::Link { iface, bytes } => {
            with_packet(register, b'f', iface.number, bytes.as_slice())
        }
        Emission::Unicast { destination, bytes } => {
            with_packet(register, b'u', destination.bits, bytes.as_slice())
        }
    }
}

// The register after packets, one after the other.
fn with_emissions(register: u32, sent: &[Emission]) -> u32
    ensures { result ≡ after_sent register sent.now }
{
    let mut register = register;
    for emission in sent {
        register = with_emission(register, emission);
    }
    register
}

/// The sum of the packets, in their order.
pub fn sum_of(sent: &[Emission]) -> u32
    ensures { result ≡ sum_of sent.now }
{
    ended(with_emissions(BEGUN, sent))
}
