//! What carries packets between the ports of a network, whatever it is made of.
ghost use Rattle.lab_parts.specs.Carrying.{IsCarried};
ghost use Rattle.lab_parts.specs.Wires.{IsFaultOver, failures_after};
ghost use Rattle.std.specs.Prelude.{◌≡◌, ◌≤◌, IfErr, IfOk, OnOk, length, take, true};

use pim_types::{Fault, Series};
use std::alloc::Global;

/// What carries packets to the ports of a network.
pub trait Wire: Drop {
    ghost use Rattle.std.specs.Prelude.{Bool, List, ℕ};

    /// Whether each packet that was sent is received unchanged.
    ghost is_faithful: { Bool };

    /// The packet that the port returns next.
    ghost holds: { Self → ℕ → List ℕ → Type 0 };

    /// The wire after a packet was sent to a port.
    ghost sends: { Self → ℕ → List ℕ → Self → Type 0 };

    /// The bytes that a port returns to a buffer of a given length, and the wire afterwards.
    ghost gives: { Self → ℕ → ℕ → List ℕ → Self → Type 0 };

    /// The count of failures.
    ghost failures: { Self → ℕ };

    /// Sends a packet to a port. A fault is `Memory`, or `Wire` where the wire failed.
    fn send(&mut self, port: u32, bytes: &[u8]) -> Result<(), Fault>
        ensures held { is_faithful ≡ true → OnOk result (holds self.new port bytes.now) }
        ensures sent { OnOk result (sends self.old port bytes.now self.new) }
        ensures counted { failures self.new ≡ failures_after (failures self.old) result }
        ensures fault { IfErr result (IsFaultOver (failures self.old) (failures self.new)) };

    /// Takes the next packet of a port into the beginning of the buffer. The result is its number of bytes there, at
    /// most the buffer's length. A fault is `Memory`, or `Wire` where the wire failed.
    fn recv(&mut self, port: u32, buffer: &mut [u8]) -> Result<usize, Fault>
        ensures within { IfOk result (λ n. n ≤ length buffer.new) }
        ensures taken { is_faithful ≡ true → (packet : List ℕ) → holds self.old port packet
            → length packet ≤ length buffer.old → IfOk result (λ n. take n buffer.new ≡ packet) }
        ensures given { IfOk result (λ n. gives self.old port (length buffer.old) (take n buffer.new) self.new) }
        ensures counted { failures self.new ≡ failures_after (failures self.old) result }
        ensures fault { IfErr result (IsFaultOver (failures self.old) (failures self.new)) };

    /// How many calls have failed so far; 2^64 - 1 stands for that many or more.
    fn failures(&self) -> u64
        ensures { result ≡ failures self.now };
}

/// Sends bytes to a port, and takes what the wire returns there.
pub fn carry<W: Wire>(
    alloc: Global,
    wire: &mut W,
    port: u32,
    bytes: &[u8],
) -> Result<Series<u8>, Fault>
    ensures carried { IfOk result (λ given. IsCarried W.is_faithful W.sends W.gives
        wire.old port bytes.now given wire.new) }
    ensures counted { W.failures wire.new ≡ failures_after (W.failures wire.old) result }
    ensures fault { IfErr result (IsFaultOver (W.failures wire.old) (W.failures wire.new)) }
{
    wire.send(port, bytes)?;
    let mut packet = vec![in alloc; 0; bytes.len()]?;
    let taken = wire.recv(port, &mut packet)?;
    packet.truncate(taken);
    Ok(Series::from_vec(packet))
}
