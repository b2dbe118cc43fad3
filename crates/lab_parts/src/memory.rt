//! A wire in memory.
ghost use Rattle.std.specs.Prelude.{[], ◌≡◌};

use crate::wire::Wire;
use pim_types::Fault;
use std::alloc::Global;
use std::marker::Model;

/// A wire in memory, which never fails. It keeps the packet that was sent last, until it is taken.
#[derive(Drop)]
pub struct MemoryWire {
    port: u32,
    packet: Vec<u8>,
}

impl Model for MemoryWire {
    ghost use Rattle.lab_parts.specs.Keeping.{KeptPacket};

    ghost Value = { KeptPacket };

    ghost view = { λ wire. record { port = wire.port; packet = wire.packet.items } };
}

impl MemoryWire {
    /// A wire on which nothing was sent.
    pub fn new(alloc: Global) -> MemoryWire
        ensures { result.packet ≡ [] }
    {
        MemoryWire {
            port: 0,
            packet: Vec::new(alloc),
        }
    }
}

impl Wire for MemoryWire {
    ghost use Rattle.std.specs.Prelude.{true, ◌≡◌};
    ghost use Rattle.lab_parts.specs.Keeping.{left_by, taken_by};

    ghost is_faithful = { true };

    ghost holds = { λ wire port packet. wire ≡ record { port = port; packet = packet } };

    ghost sends = { λ before port packet after. after ≡ record { port = port; packet = packet } };

    ghost gives = { λ before port room packet after. (packet ≡ taken_by before port room) × (after ≡ left_by before port) };

    ghost failures = { λ wire. 0 };

    fn send(&mut self, port: u32, bytes: &[u8]) -> Result<(), Fault> {
        self.packet.clear();
        self.packet.extend_from_slice(bytes)?;
        self.port = port;
        Ok(())
    }

    /// Takes the packet for the port. Where there is none, no bytes are received.
    fn recv(&mut self, port: u32, buffer: &mut [u8]) -> Result<usize, Fault> {
        if self.port != port {
            return Ok(0);
        }
        let taken = self.packet.len().min(buffer.len());
        buffer[..taken].copy_from_slice(&self.packet[..taken]);
        self.packet.clear();
        Ok(taken)
    }

    fn failures(&self) -> u64 {
        0
    }
}
