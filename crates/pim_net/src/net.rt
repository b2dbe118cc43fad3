//! A network over a wire: moves in, outcomes out.
ghost use Rattle.lab_parts.specs.Wires.{IsFaultOver, failures_after};
ghost use Rattle.pim_ip.specs.declared.fault.Fault.{Fault};
ghost use Rattle.pim_model.specs.Network.{network, network_ran, nodes_test};
ghost use Rattle.pim_model.specs.State.{State};
ghost use Rattle.pim_net.specs.Asked.{AreAsked, LeadOn};
ghost use Rattle.pim_net.specs.Carried.{HasMoved, IsPartWay, MovesTo, carried_packet, fetched};
ghost use Rattle.pim_net.specs.Ports.{first_ports};
ghost use Rattle.pim_net.specs.Reloading.{reloaded_at};
ghost use Rattle.pim_net.specs.Showing.{move_of, node_of, shown_state, with_bytes_at, with_sent_at, with_state_at};
ghost use Rattle.pim_net.specs.declared.moves.Move.{Move};
ghost use Rattle.pim_net.specs.declared.unrestored.Unrestored.{Unrestored};
ghost use Rattle.pim_saved.specs.Reading.{reading};
ghost use Rattle.pim_worlds.specs.Resuming.{restore_test};
ghost use Rattle.pim_worlds.specs.declared.refusal.RestoreRefusal.{RestoreRefusal};
ghost use Rattle.std.specs.Prelude.{Err, IfErr, IfNone, IfOk, IfSome, IsOk, IsOkUnless, IsSome, None, Ok, OnErr, OnOk, Some, [], get_or, is_some, map, option_map, true, ◌↔◌, ◌≡◌};

use crate::moves::Move;
use crate::network::{Network, bad_move};
use crate::node::{Node, Renewal};
use crate::unrestored::Unrestored;
use lab_parts::{Wire, carry};
use pim_router::Router;
use pim_types::{Emission, EventKind, Fault, IfaceId, Outcome, Refusal, Series};
use std::alloc::Global;
use std::marker::Model;

/// The outcomes of moves, one each.
pub type NetLog = Vec<Outcome>;

/// A network of routers, whose packets a wire carries. Every frame that was sent is kept, so it may come late, twice or
/// never.
#[derive(Drop)]
pub struct Net<W> {
    failed: bool,
    network: Network,
    // the first port of each router
    ports: Vec<u16>,
    wire: W,
}

impl<W> Model for Net<W> {
    ghost use Rattle.std.specs.Prelude.{None, false, if◌then◌else◌, is_some, true, ◌≡◌};
    ghost use Rattle.pim_net.specs.Showing.{Wired};

    ghost Value = { Wired W };

    ghost view = { λ n. record {
      network = if n.failed then None else n.network;
      ports = n.ports.items;
      wire = n.wire;
    } };

    ghost invariant = { λ n. n.failed ≡ false → is_some n.network ≡ true };
}

impl<W: Wire> Net<W> {
    /// The network of these nodes. It is refused as `BadScenario` where there are more than 64, or one hasn't a link
    /// for each of its interfaces. Then each configuration is tested, and the refusal is that of the first that fails.
    /// The fault is `Memory`.
    pub fn new(alloc: Global, nodes: Vec<Node>, wire: W) -> Result<Result<Net<W>, Refusal>, Fault>
        ensures accepted { IfOk result (λ made. IfOk made (λ net. (nodes_test (map node_of nodes.items) ≡ Ok tt)
            × (net.network ≡ Some (network (map node_of nodes.items))) × (net.ports ≡ first_ports nodes.items)
            × (net.wire ≡ wire))) }
        ensures refused { IfOk result (λ made. IfErr made (λ refusal.
            nodes_test (map node_of nodes.items) ≡ Err refusal)) }
        ensures memory { IfErr result (λ fault. fault ≡ Fault.Memory) }
    {
        match Network::open(alloc, nodes)? {
            Ok((network, ports)) => Ok(Ok(Net {
                failed: false,
                network,
                ports,
                wire,
            })),
            Err(refusal) => Ok(Err(refusal)),
        }
    }

    /// Does the moves one after the other, and returns the outcome of each. A move of an unknown router or frame, or to
    /// an interface that isn't on the frame's link, is refused as `BadMove`, and changes nothing. Any other delivery
    /// sends the frame's bytes to the receiver's port, and what the wire returns there is the packet that the router
    /// receives; there is no other call of the wire. Without moves no memory is taken, so there is no fault. A fault is
    /// `Memory`, after which the net answers `Failed` from then on; or `Wire`, where the wire failed: then the moves
    /// before it are done, and the net goes on working. After either the outcomes of the moves before it are lost. Over
    /// a wire that gives what was sent nothing flows unasked: whatever events, reloads and restored bytes led a router
    /// to its state, each copy of a packet has its cause among these and what came to the router in these moves before.
    /// With what came in these moves they lead to the state after it.
    pub fn run(&mut self, moves: &[Move]) -> Result<NetLog, Fault>
        ensures outcomes { W.is_faithful ≡ true → IfSome self.old.network (λ n. IfOk result (λ log.
            log.items ≡ (network_ran n (map move_of moves.now)).0)) }
        ensures network { W.is_faithful ≡ true → IfSome self.old.network (λ n. OnOk result
            (self.new.network ≡ Some (network_ran n (map move_of moves.now)).1)) }
        ensures moves { IfSome self.old.network (λ n. IfOk result (λ log. HasMoved W.is_faithful W.sends W.gives
            self.old.ports n self.old.wire moves.now log.items self.new.network self.new.wire)) }
        ensures asked { W.is_faithful ≡ true → IfSome self.old.network (λ n. IfOk result (λ log.
            AreAsked n (map move_of moves.now) log.items)) }
        ensures led { W.is_faithful ≡ true → IfSome self.old.network (λ n. OnOk result (IfSome self.new.network (λ after.
            LeadOn n (map move_of moves.now) after))) }
        ensures part_way { IfSome self.old.network (λ n. result ≡ Err Fault.Wire → IsPartWay W.is_faithful W.sends W.gives
            self.old.ports n self.old.wire moves.now self.new.network) }
        ensures ports { self.new.ports ≡ self.old.ports }
        ensures works { IfSome self.old.network (λ n. (result ≡ Err Fault.Memory) ↔ (self.new.network ≡ None)) }
        ensures failed { (result ≡ Err Fault.Failed) ↔ (self.old.network ≡ None) }
        ensures fails { self.old.network ≡ None → self.new ≡ self.old }
        ensures counted { W.failures self.new.wire ≡ failures_after (W.failures self.old.wire) result }
        ensures fault { IfSome self.old.network (λ n. IfErr result
            (IsFaultOver (W.failures self.old.wire) (W.failures self.new.wire))) }
        ensures sure { IfSome self.old.network (λ n. moves.now ≡ [] → IsOk result) }
    {
        if self.failed {
            return Err(Fault::Failed);
        }
        let ran = run_all(&mut self.network, &mut self.wire, &self.ports, moves);
        self.failed = matches!(ran, Err(Fault::Memory));
        ran
    }

    /// Sends a frame through the wire to an interface of a router on the frame's link, or without an interface to the
    /// router as a unicast: what the wire returns there is the packet that is to come to the router, as an event of it.
    /// There is none where `run` refuses such a delivery. The network is as it was, also after a fault.
    pub fn fetch(
        &mut self,
        router: usize,
        iface: Option<IfaceId>,
        frame: u32,
    ) -> Result<Option<Series<u8>>, Fault>
        ensures fetched { W.is_faithful ≡ true → IfSome self.old.network (λ n. IfOk result (λ packet.
            packet ≡ fetched n router iface frame)) }
        ensures same { (self.new.network ≡ self.old.network) × (self.new.ports ≡ self.old.ports) }
        ensures failed { self.old.network ≡ None → result ≡ Err Fault.Failed }
    {
        if self.failed {
            return Err(Fault::Failed);
        }
        match iface {
            Some(iface) => fetch(
                &self.network,
                &mut self.wire,
                &self.ports,
                (router, iface, frame),
            ),
            None => fetch_unicast(&self.network, &mut self.wire, &self.ports, (router, frame)),
        }
    }

    /// Puts other bytes in the place of those of a frame, by its number from 1: what stands before the router that sent
    /// it has it leave so. An unknown frame is left alone, as all is after a failure.
    pub fn replace(&mut self, frame: u32, bytes: Series<u8>)
        ensures network { self.new.network ≡ option_map (λ n. with_bytes_at n frame bytes) self.old.network }
        ensures rest { (self.new.ports ≡ self.old.ports) × (self.new.wire ≡ self.old.wire) }
    {
        if !self.failed {
            self.network.replace(frame, bytes);
        }
    }

    /// Adds packets at the end of the frames, as those of a router, counted from 0: what stands before it sends them. Where
    /// there is no such router nothing changes. A fault is `Memory`, after which the net answers `Failed` from then on.
    pub fn send(&mut self, router: usize, emissions: &[Emission]) -> Result<(), Fault>
        ensures network { IfSome self.old.network (λ n. OnOk result
            (self.new.network ≡ Some (with_sent_at n router emissions.now))) }
        ensures rest { (self.new.ports ≡ self.old.ports) × (self.new.wire ≡ self.old.wire) }
        ensures fails { OnErr result (self.new.network ≡ None) }
        ensures failed { (result ≡ Err Fault.Failed) ↔ (self.old.network ≡ None) }
        ensures fault { IfSome self.old.network (λ n. IsOkUnless result Fault.Memory) }
    {
        if self.failed {
            return Err(Fault::Failed);
        }
        self.failed = true;
        self.network.send(router, emissions)?;
        self.failed = false;
        Ok(())
    }

    /// Puts a router, counted from 0, into the state that these bytes say: they are those that a router saved that has as
    /// many interfaces. Its configuration is that of the state, and its links stay. All other routers, the frames, the
    /// ports and the wire are as they were, and so is the whole net after a fault and where the bytes aren't taken. The
    /// only fault of a net that works is want of memory.
    pub fn restore(&mut self, router: usize, bytes: &[u8]) -> Result<Result<(), Unrestored>, Fault>
        ensures restored { IfOk result (λ made. OnOk made ((s : State) × (reading bytes.now ≡ Ok s)
            × IfSome self.old.network (λ n. self.new ≡ record self.old { network = Some (with_state_at n router s) }))) }
        ensures tested { IfOk result (λ made. OnOk made (restore_test bytes.now ≡ Ok tt)) }
        ensures refused { IfOk result (λ made. IfErr made (λ why. (refusal : RestoreRefusal) → why ≡ Unrestored.Bytes refusal
            → restore_test bytes.now ≡ Err refusal)) }
        ensures same { IfOk result (λ made. OnErr made (self.new ≡ self.old)) }
        ensures fails { OnErr result (self.new ≡ self.old) }
        ensures fault { IfSome self.old.network (λ n. IfErr result (λ fault. fault ≡ Fault.Memory)) }
    {
        if self.failed {
            Err(Fault::Failed)
        } else {
            self.network.restore(router, bytes)
        }
    }

    /// Puts a router, counted from 0, under the configuration of a node: its interfaces are those of the node, by their
    /// numbers or by the map of places, and on the node's links. What the router sends by this leaves on the links that it
    /// had; it is the outcome, with no copies. An unknown router is refused as `BadMove`, a node that hasn't a link for
    /// each of its interfaces as `BadScenario`, a configuration as by `new`, and then a map of places as by
    /// `Router::reload_places`; then nothing changes. The ports stay: those of a router with more
    /// interfaces than it began with are also the next router's, which does no harm, since what is sent to a port is taken
    /// before anything else is sent. A fault is `Memory`, after which the net answers `Failed` from then on.
    pub fn reload(&mut self, router: usize, draw: u32, renewal: Renewal) -> Result<Outcome, Fault>
        ensures outcome { IfSome self.old.network (λ n. IfOk result (λ outcome.
            outcome ≡ (reloaded_at n router draw renewal.places (node_of renewal.node)).0)) }
        ensures network { IfSome self.old.network (λ n. OnOk result
            (self.new.network ≡ Some (reloaded_at n router draw renewal.places (node_of renewal.node)).1)) }
        ensures ports { self.new.ports ≡ self.old.ports }
        ensures wire { self.new.wire ≡ self.old.wire }
        ensures fails { OnErr result (self.new.network ≡ None) }
        ensures failed { (result ≡ Err Fault.Failed) ↔ (self.old.network ≡ None) }
        ensures fault { IfSome self.old.network (λ n. IsOkUnless result Fault.Memory) }
    {
        if self.failed {
            return Err(Fault::Failed);
        }
        self.failed = true;
        let outcome = self.network.reload(router, draw, renewal)?;
        self.failed = false;
        Ok(outcome)
    }

    /// Router `n`, counted from 0. `None` for an unknown one, and once an allocation failed in a run. Takes no memory.
    pub fn router(&self, n: usize) -> Option<&Router>
        ensures some { IfSome result (λ router. (option_map (λ r. r.state) router.now.standing ≡ shown_state self.now.network n)
            × IsSome router.now.standing) }
        ensures none { IfNone result (shown_state self.now.network n ≡ None) }
    {
        if self.failed {
            return None;
        }
        self.network.router(n)
    }
}

// Does the moves one after the other. After a failure of the wire those before it are done.
fn run_all<W: Wire>(
    network: &mut Network,
    wire: &mut W,
    ports: &[u16],
    moves: &[Move],
) -> Result<NetLog, Fault>
    ensures outcomes { W.is_faithful ≡ true → IfSome network.old (λ n. IfOk result (λ log.
        log.items ≡ (network_ran n (map move_of moves.now)).0)) }
    ensures network { W.is_faithful ≡ true → IfSome network.old (λ n. OnOk result
        (network.new ≡ Some (network_ran n (map move_of moves.now)).1)) }
    ensures moves { IfSome network.old (λ n. IfOk result (λ log. HasMoved W.is_faithful W.sends W.gives
        ports.now n wire.old moves.now log.items network.new wire.new)) }
    ensures part_way { IfSome network.old (λ n. IfErr result (λ fault. fault ≡ Fault.Wire
        → IsPartWay W.is_faithful W.sends W.gives ports.now n wire.old moves.now network.new)) }
    ensures works { IfSome network.old (λ n. IfErr result (λ fault. fault ≡ Fault.Wire → IsSome network.new)) }
    ensures goes_on { IfSome network.old (λ n. OnOk result (IsSome network.new)) }
    ensures counted { IfSome network.old (λ n. W.failures wire.new ≡ failures_after (W.failures wire.old) result) }
    ensures fault { IfSome network.old (λ n. IfErr result (IsFaultOver (W.failures wire.old) (W.failures wire.new))) }
    ensures sure { moves.now ≡ [] → IsOk result }
{
    let mut log = Vec::new(network.alloc());
    for one in moves {
        log.push(make(network, wire, ports, one)?)?;
    }
    Ok(log)
}

// Does a move. Where the wire fails, the network is unchanged.
fn make<W: Wire>(
    network: &mut Network,
    wire: &mut W,
    ports: &[u16],
    one: &Move,
) -> Result<Outcome, Fault>
    ensures moves { IfSome network.old (λ n. IfOk result (λ outcome. MovesTo W.is_faithful W.sends W.gives
        ports.now n wire.old one.now outcome network.new wire.new)) }
    ensures kept { IfSome network.old (λ n. IfErr result (λ fault. fault ≡ Fault.Wire
        → (network.new ≡ Some n) × IsSome (carried_packet n one.now))) }
    ensures counted { IfSome network.old (λ n. W.failures wire.new ≡ failures_after (W.failures wire.old) result) }
    ensures fault { IfSome network.old (λ n. IfErr result (IsFaultOver (W.failures wire.old) (W.failures wire.new))) }
{
    match one {
        Move::Event { router, event } => network.step(*router, event),
        Move::Deliver {
            router,
            iface,
            frame,
            draw,
        } => deliver(network, wire, ports, (*router, *iface, *frame), *draw),
        Move::DeliverUnicast {
            router,
            frame,
            draw,
        } => deliver_unicast(network, wire, ports, (*router, *frame), *draw),
    }
}

// Delivers a frame to an interface of a router.
fn deliver<W: Wire>(
    network: &mut Network,
    wire: &mut W,
    ports: &[u16],
    place: (usize, IfaceId, u32),
    draw: u32,
) -> Result<Outcome, Fault>
    ensures moves { IfSome network.old (λ n. IfOk result (λ outcome. MovesTo W.is_faithful W.sends W.gives
        ports.now n wire.old (Move.Deliver place.0 place.1 place.2 draw) outcome network.new wire.new)) }
    ensures kept { IfSome network.old (λ n. IfErr result (λ fault. fault ≡ Fault.Wire
        → (network.new ≡ Some n) × IsSome (carried_packet n (Move.Deliver place.0 place.1 place.2 draw)))) }
    ensures counted { IfSome network.old (λ n. W.failures wire.new ≡ failures_after (W.failures wire.old) result) }
    ensures fault { IfSome network.old (λ n. IfErr result (IsFaultOver (W.failures wire.old) (W.failures wire.new))) }
{
    let (router, iface, frame) = place;
    let Some(delivery) = network.to_interface(router, iface, frame) else {
        return Ok(bad_move(network.alloc()));
    };
    let port = u32::from(first_port(ports, router)) + delivery.place;
    let bytes = carry(network.alloc(), wire, port, delivery.bytes)?;
    network.receive(router, draw, EventKind::Frame { iface, bytes })
}

// Delivers a frame to a router's own address.
fn deliver_unicast<W: Wire>(
    network: &mut Network,
    wire: &mut W,
    ports: &[u16],
    place: (usize, u32),
    draw: u32,
) -> Result<Outcome, Fault>
    ensures moves { IfSome network.old (λ n. IfOk result (λ outcome. MovesTo W.is_faithful W.sends W.gives
        ports.now n wire.old (Move.DeliverUnicast place.0 place.1 draw) outcome network.new wire.new)) }
    ensures kept { IfSome network.old (λ n. IfErr result (λ fault. fault ≡ Fault.Wire
        → (network.new ≡ Some n) × IsSome (carried_packet n (Move.DeliverUnicast place.0 place.1 draw)))) }
    ensures counted { IfSome network.old (λ n. W.failures wire.new ≡ failures_after (W.failures wire.old) result) }
    ensures fault { IfSome network.old (λ n. IfErr result (IsFaultOver (W.failures wire.old) (W.failures wire.new))) }
{
    let (router, frame) = place;
    let Some(delivery) = network.to_router(router, frame) else {
        return Ok(bad_move(network.alloc()));
    };
    let port = u32::from(first_port(ports, router)) + delivery.place;
    let bytes = carry(network.alloc(), wire, port, delivery.bytes)?;
    network.receive(router, draw, EventKind::Unicast { bytes })
}

// What the wire gives of a frame that is sent to an interface of a router.
fn fetch<W: Wire>(
    network: &Network,
    wire: &mut W,
    ports: &[u16],
    place: (usize, IfaceId, u32),
) -> Result<Option<Series<u8>>, Fault>
    ensures { W.is_faithful ≡ true → IfSome network.now (λ n. IfOk result (λ packet.
        packet ≡ carried_packet n (Move.Deliver place.0 place.1 place.2 0))) }
{
    let (router, iface, frame) = place;
    let Some(delivery) = network.to_interface(router, iface, frame) else {
        return Ok(None);
    };
    let port = u32::from(first_port(ports, router)) + delivery.place;
    let bytes = carry(network.alloc(), wire, port, delivery.bytes)?;
    Ok(Some(bytes))
}

// What the wire gives of a frame that is sent to a router's own address.
fn fetch_unicast<W: Wire>(
    network: &Network,
    wire: &mut W,
    ports: &[u16],
    place: (usize, u32),
) -> Result<Option<Series<u8>>, Fault>
    ensures { W.is_faithful ≡ true → IfSome network.now (λ n. IfOk result (λ packet.
        packet ≡ carried_packet n (Move.DeliverUnicast place.0 place.1 0))) }
{
    let (router, frame) = place;
    let Some(delivery) = network.to_router(router, frame) else {
        return Ok(None);
    };
    let port = u32::from(first_port(ports, router)) + delivery.place;
    let bytes = carry(network.alloc(), wire, port, delivery.bytes)?;
    Ok(Some(bytes))
}

// The first port of a router; 0 where there is no such router.
fn first_port(ports: &[u16], router: usize) -> u16
    ensures { result ≡ get_or ports.now router 0 }
{
    ports.get(router).copied().unwrap_or(0)
}
