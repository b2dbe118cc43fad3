//! A wire of UDP sockets on the loopback interface.
ghost use Rattle.lab_parts.specs.Wires as counts;
ghost use Rattle.lab_parts.specs.Wires.{IsWireOrMemory};
ghost use Rattle.pim_ip.specs.declared.fault.Fault.{Fault};
ghost use Rattle.std.specs.Prelude.{◌≡◌, ◌≤◌, IfErr, IfOk, length};

use crate::wire::Wire;
use pim_types::Fault;
use std::alloc::Global;
use std::io;
use std::marker::Model;
use std::net::{Net, SocketAddr, UdpSocket};
use std::time::Duration;

// How long a receive waits for a packet, in seconds.
const READ_TIMEOUT: u64 = 1;

// A socket with its address.
#[derive(Drop)]
struct Bound {
    port: u32,
    socket: UdpSocket,
    address: SocketAddr,
}

impl Bound {
    // A socket on the loopback interface, with a port number that the system picks. It is connected to itself, so the
    // system drops what others send it afterwards.
    fn open<R: Net>(net: &R, port: u32) -> io::Result<Bound> {
        let socket = UdpSocket::bind(net, "127.0.0.1:0")?;
        socket.set_read_timeout(Some(Duration::from_secs(READ_TIMEOUT)))?;
        let address = socket.local_addr()?;
        socket.connect(address)?;
        Ok(Bound {
            port,
            socket,
            address,
        })
    }

    // Takes a packet that the socket sent. Packets that others sent before it was connected are skipped: they are there
    // already, so this costs no wait.
    fn recv(&self, buffer: &mut [u8]) -> Result<usize, Fault>
        ensures within { IfOk result (λ n. n ≤ length buffer.new) }
        ensures wire { IfErr result (λ fault. fault ≡ Fault.Wire) }
    {
        for _ in 0..usize::MAX {
            match self.socket.recv_from(buffer) {
                Ok((taken, sender)) if sender == self.address => return Ok(taken),
                Ok(_) => {}
                Err(_) => return Err(Fault::Wire),
            }
        }
        Err(Fault::Wire)
    }
}

/// A wire of UDP sockets on the loopback interface, one for each port, bound when the port is first used. It takes what
/// its own sockets sent and drops what others send them. A receive waits one second for a packet.
#[derive(Drop)]
pub struct UdpWire<R> {
    net: R,
    sockets: Vec<Bound>,
    failures: u64,
}

/// A wire of sockets shows how often it failed.
impl<R> Model for UdpWire<R> {
    ghost use Rattle.std.specs.Prelude.{ℕ};

    ghost Value = { ℕ };

    ghost view = { λ wire. wire.failures };
}

impl<R: Net + Drop> UdpWire<R> {
    /// A wire without sockets yet, which binds them by this handle.
    pub fn new(alloc: Global, net: R) -> Self
        ensures { result ≡ 0 }
    {
        UdpWire {
            net,
            sockets: Vec::new(alloc),
            failures: 0,
        }
    }
}

/// The count of failures of a wire after a call.
pub fn failures_after<T>(before: u64, ended: &Result<T, Fault>) -> u64
    ensures { result ≡ counts.failures_after before ended.now }
{
    match ended {
        Err(Fault::Wire) => before.saturating_add(1),
        _ => before,
    }
}

// Binds the socket of a port that has none.
fn bind<R: Net>(net: &R, sockets: &mut Vec<Bound>, port: u32) -> Result<(), Fault>
    ensures fault { IfErr result IsWireOrMemory }
{
    if sockets.iter().any(|bound| bound.port == port) {
        return Ok(());
    }
    match Bound::open(net, port) {
        Ok(bound) => {
            sockets.push(bound)?;
            Ok(())
        }
        Err(_) => Err(Fault::Wire),
    }
}

// Sends the port's socket a packet.
fn send_to(sockets: &[Bound], port: u32, bytes: &[u8]) -> Result<(), Fault>
    ensures wire { IfErr result (λ fault. fault ≡ Fault.Wire) }
{
    for bound in sockets {
        if bound.port == port {
            return match bound.socket.send(bytes) {
                Ok(sent) if sent == bytes.len() => Ok(()),
                _ => Err(Fault::Wire),
            };
        }
    }
    Err(Fault::Wire)
}

// Takes a packet from the port's socket.
fn recv_from(sockets: &[Bound], port: u32, buffer: &mut [u8]) -> Result<usize, Fault>
    ensures within { IfOk result (λ n. n ≤ length buffer.new) }
    ensures wire { IfErr result (λ fault. fault ≡ Fault.Wire) }
{
    for bound in sockets {
        if bound.port == port {
            return bound.recv(buffer);
        }
    }
    Err(Fault::Wire)
}

impl<R: Net + Drop> Wire for UdpWire<R> {
    ghost use Rattle.std.specs.Prelude.{false};

    ghost is_faithful = { false };

    ghost holds = { λ wire port packet. Unit {0} };

    ghost sends = { λ before port packet after. Unit {0} };

    ghost gives = { λ before port room packet after. Unit {0} };

    ghost failures = { λ wire. wire };

    fn send(&mut self, port: u32, bytes: &[u8]) -> Result<(), Fault> {
        let sent = match bind(&self.net, &mut self.sockets, port) {
            Ok(()) => send_to(&self.sockets, port, bytes),
            Err(fault) => Err(fault),
        };
        self.failures = failures_after(self.failures, &sent);
        sent
    }

    fn recv(&mut self, port: u32, buffer: &mut [u8]) -> Result<usize, Fault> {
        let taken = match bind(&self.net, &mut self.sockets, port) {
            Ok(()) => recv_from(&self.sockets, port, buffer),
            Err(fault) => Err(fault),
        };
        self.failures = failures_after(self.failures, &taken);
        taken
    }

    fn failures(&self) -> u64 {
        self.failures
    }
}
