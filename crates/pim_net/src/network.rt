//! The routers of a network and every frame that they ever sent, without the wire.
ghost use Rattle.pim_ip.specs.declared.fault.Fault.{Fault};
ghost use Rattle.pim_ip.specs.declared.refusal.Refusal.{Refusal as RefusalValue};
ghost use Rattle.pim_model.specs.Limits.{most_ifaces};
ghost use Rattle.pim_model.specs.Network as written;
ghost use Rattle.pim_model.specs.Network.{Deliver, DeliverUnicast, configs_test, event_of, frame_at, is_node, most_routers, moved_at, network, nodes_test, sent_by, station_at, station_of};
ghost use Rattle.pim_model.specs.State.{State};
ghost use Rattle.pim_model.specs.Step.{outcome_of, step};
ghost use Rattle.pim_net.specs.Carried.{link_count};
ghost use Rattle.pim_net.specs.Ports.{first_ports};
ghost use Rattle.pim_net.specs.Reloading.{done_with, node_test, put_by, refused_as, reloaded_at};
ghost use Rattle.pim_net.specs.Showing.{brought_on, brought_to, node_of, shown_state, with_bytes_at, with_sent_at, with_state_at};
ghost use Rattle.pim_net.specs.declared.node.Node.{Node};
ghost use Rattle.pim_net.specs.declared.unrestored.Unrestored.{Unrestored};
ghost use Rattle.pim_saved.specs.Reading.{reading};
ghost use Rattle.pim_worlds.specs.Resuming.{restore_test};
ghost use Rattle.pim_worlds.specs.declared.refusal.RestoreRefusal.{RestoreRefusal};
ghost use Rattle.std.specs.List.{list_all};
ghost use Rattle.std.specs.Prelude.{Err, IfErr, IfNone, IfOk, IfSome, IsOkUnless, IsSome, None, Ok, OnErr, OnOk, Some, length, map, nat_le, option_copied, option_map, true, ℕ, ◌&&◌, ◌++◌, ◌≡◌, ◌≤◌};

use crate::node::{Node, Renewal};
use crate::station::{Frame, Station};
use crate::unrestored::Unrestored;
use pim_router::Router;
use pim_types::{Emission, Event, EventKind, Fault, IfaceId, Outcome, Refusal, Series, Verdict};
use std::alloc::Global;
use std::marker::Model;

/// A packet that is carried to a router's port, which is given by its place among the router's ports.
#[derive(Drop)]
pub(crate) struct Delivery<'a> {
    pub(crate) place: u32,
    pub(crate) bytes: &'a [u8],
}

/// The routers, and all frames that they ever sent, in their order.
#[derive(Drop)]
pub(crate) struct Network {
    alloc: Global,
    stations: Vec<Station>,
    frames: Vec<Frame>,
}

impl Model for Network {
    ghost use Rattle.std.specs.Prelude.{Option, option_map};
    ghost use Rattle.pim_model.specs.Network.{Network as NetworkValue};
    ghost use Rattle.pim_net.specs.Showing.{all_of};

    ghost Value = { Option NetworkValue };

    ghost view = { λ n. option_map (λ stations. record { stations = stations; frames = n.frames.items })
        (all_of n.stations.items) };
}

// The most routers of a network.
const MOST_ROUTERS: usize = 64;

impl Network {
    /// What its memory comes from.
    pub(crate) fn alloc(&self) -> Global {
        self.alloc
    }

    /// The network of these nodes, in which nothing was sent yet, and the first port of each.
    pub(crate) fn open(
        alloc: Global,
        nodes: Vec<Node>,
    ) -> Result<Result<(Network, Vec<u16>), Refusal>, Fault>
        ensures accepted { IfOk result (λ made. IfOk made (λ net. (nodes_test (map node_of nodes.items) ≡ Ok tt)
            × (net.0 ≡ Some (network (map node_of nodes.items))) × (net.1.items ≡ first_ports nodes.items))) }
        ensures refused { IfOk result (λ made. IfErr made (λ refusal.
            nodes_test (map node_of nodes.items) ≡ Err refusal)) }
        ensures memory { IfErr result (λ fault. fault ≡ Fault.Memory) }
    {
        if !are_lawful(&nodes) {
            return Ok(Err(Refusal::BadScenario));
        }
        match open_all(alloc, nodes)? {
            Ok((stations, ports)) => {
                let network = Network {
                    alloc,
                    stations,
                    frames: Vec::new(alloc),
                };
                Ok(Ok((network, ports)))
            }
            Err(refusal) => Ok(Err(refusal)),
        }
    }

    // A station by its number, from 0.
    fn station(&self, n: usize) -> Option<&Station>
        ensures some { IfSome self.now (λ net. IfSome result (λ station.
            (station.now ≡ station_at net n) × IsSome station.now)) }
        ensures none { IfSome self.now (λ net. IfNone result (station_at net n ≡ None)) }
    {
        self.stations.get(n)
    }

    /// A router, to be read.
    pub(crate) fn router(&self, n: usize) -> Option<&Router>
        ensures some { IfSome self.now (λ net. IfSome result (λ router.
            (option_map (λ r. r.state) router.now.standing ≡ shown_state (Some net) n) × IsSome router.now.standing)) }
        ensures none { IfSome self.now (λ net. IfNone result (shown_state (Some net) n ≡ None)) }
    {
        match self.station(n) {
            Some(station) => Some(station.router()),
            None => None,
        }
    }

    // A frame by its number, from 1.
    fn frame(&self, number: u32) -> Option<&Frame>
        ensures { IfSome self.now (λ net. option_copied result ≡ frame_at net number) }
    {
        match number.checked_sub(1) {
            Some(index) => self.frames.get(index as usize),
            None => None,
        }
    }

    /// What a delivery to an interface carries. None where router, interface or frame is unknown, or the interface
    /// isn't on the frame's link.
    pub(crate) fn to_interface(
        &self,
        router: usize,
        iface: IfaceId,
        frame: u32,
    ) -> Option<Delivery<'_>>
        ensures some { IfSome self.now (λ net. IfSome result (λ delivery. (w : ℕ) →
            event_of net (Deliver router iface.number frame w)
            ≡ Some (router, brought_on iface.number w delivery.bytes.now))) }
        ensures place { IfSome result (λ delivery. (delivery.place ≡ iface.number) × (delivery.place ≤ most_ifaces)) }
        ensures none { IfSome self.now (λ net. IfNone result ((w : ℕ) →
            event_of net (Deliver router iface.number frame w) ≡ None)) }
    {
        let station = self.station(router)?;
        let frame = self.frame(frame)?;
        let place = station.place_on_link_of(iface, frame)?;
        Some(Delivery {
            place,
            bytes: frame.bytes.as_slice(),
        })
    }

    /// What a delivery to a router's own address carries. None where router or frame is unknown.
    pub(crate) fn to_router(&self, router: usize, frame: u32) -> Option<Delivery<'_>>
        ensures some { IfSome self.now (λ net. IfSome result (λ delivery. (w : ℕ) →
            event_of net (DeliverUnicast router frame w) ≡ Some (router, brought_to w delivery.bytes.now))) }
        ensures place { IfSome self.now (λ net. IfSome result (λ delivery. delivery.place ≡ link_count net router)) }
        ensures within { IfSome result (λ delivery. delivery.place ≤ most_ifaces) }
        ensures none { IfSome self.now (λ net. IfNone result ((w : ℕ) →
            event_of net (DeliverUnicast router frame w) ≡ None)) }
    {
        let station = self.station(router)?;
        let frame = self.frame(frame)?;
        Some(Delivery {
            place: station.unicast_place(),
            bytes: frame.bytes.as_slice(),
        })
    }

    /// An event at a router; it is refused where there is no such router. The error is want of memory.
    pub(crate) fn step(&mut self, router: usize, event: &Event) -> Result<Outcome, Fault>
        ensures outcome { IfSome self.old (λ net. IfOk result (λ outcome.
            outcome ≡ (moved_at net (router, event.now)).0)) }
        ensures network { IfSome self.old (λ net. OnOk result (self.new ≡ Some (moved_at net (router, event.now)).1)) }
        ensures fault { IfSome self.old (λ net. IsOkUnless result Fault.Memory) }
    {
        if router >= self.stations.len() {
            return Ok(bad_move(self.alloc));
        }
        take(
            self.alloc,
            &mut self.stations[router],
            &mut self.frames,
            event,
        )
    }

    /// Puts a router into the state that these bytes say. The error is want of memory. After an error and where the bytes
    /// aren't taken the network is as it was.
    pub(crate) fn restore(
        &mut self,
        router: usize,
        bytes: &[u8],
    ) -> Result<Result<(), Unrestored>, Fault>
        ensures restored { IfOk result (λ made. OnOk made ((s : State) × (reading bytes.now ≡ Ok s)
            × IfSome self.old (λ net. self.new ≡ Some (with_state_at net router s)))) }
        ensures tested { IfOk result (λ made. OnOk made (restore_test bytes.now ≡ Ok tt)) }
        ensures refused { IfOk result (λ made. IfErr made (λ why. (refusal : RestoreRefusal) → why ≡ Unrestored.Bytes refusal
            → restore_test bytes.now ≡ Err refusal)) }
        ensures same { IfOk result (λ made. OnErr made (self.new ≡ self.old)) }
        ensures fails { OnErr result (self.new ≡ self.old) }
        ensures memory { IfErr result (λ fault. fault ≡ Fault.Memory) }
    {
        if router >= self.stations.len() {
            return Ok(Err(Unrestored::NoRouter));
        }
        self.stations[router].restore(self.alloc, bytes)
    }

    /// Puts other bytes in the place of those of a frame, by its number from 1. An unknown frame is left alone.
    pub(crate) fn replace(&mut self, frame: u32, bytes: Series<u8>)
        ensures { IfSome self.old (λ net. self.new ≡ Some (with_bytes_at net frame bytes)) }
    {
        let Some(place) = frame.checked_sub(1) else {
            return;
        };
        if let Some(sent) = self.frames.get_mut(place as usize) {
            sent.bytes = bytes;
        }
    }

    /// Adds packets at the end of the frames, as those that a router sent. Where there is no such router none are added.
    pub(crate) fn send(&mut self, router: usize, emissions: &[Emission]) -> Result<(), Fault>
        ensures sent { IfSome self.old (λ net. OnOk result (self.new ≡ Some (with_sent_at net router emissions.now))) }
        ensures memory { IfErr result (λ fault. fault ≡ Fault.Memory) }
    {
        match self.stations.get(router) {
            Some(station) => keep(self.alloc, station, emissions, &mut self.frames),
            None => Ok(()),
        }
    }

    /// Puts a router under the configuration of a node, with the node's links. It is refused where there is no such
    /// router, where the node hasn't a link for each interface, and where its configuration is refused; then the network
    /// is as it was. The error is want of memory.
    pub(crate) fn reload(
        &mut self,
        router: usize,
        draw: u32,
        renewal: Renewal,
    ) -> Result<Outcome, Fault>
        ensures outcome { IfSome self.old (λ net. IfOk result (λ outcome.
            outcome ≡ (reloaded_at net router draw renewal.places (node_of renewal.node)).0)) }
        ensures network { IfSome self.old (λ net. OnOk result
            (self.new ≡ Some (reloaded_at net router draw renewal.places (node_of renewal.node)).1)) }
        ensures fault { IfSome self.old (λ net. IsOkUnless result Fault.Memory) }
    {
        if router >= self.stations.len() {
            return Ok(bad_move(self.alloc));
        }
        put_under(
            self.alloc,
            &mut self.stations[router],
            &mut self.frames,
            draw,
            renewal,
        )
    }

    /// What comes to a router, as an event. The error is want of memory.
    pub(crate) fn receive(
        &mut self,
        router: usize,
        draw: u32,
        kind: EventKind,
    ) -> Result<Outcome, Fault>
        ensures outcome { IfSome self.old (λ net. IfOk result (λ outcome.
            outcome ≡ (moved_at net (router, record { draw = draw; kind = kind })).0)) }
        ensures network { IfSome self.old (λ net. OnOk result
            (self.new ≡ Some (moved_at net (router, record { draw = draw; kind = kind })).1)) }
        ensures fault { IfSome self.old (λ net. IsOkUnless result Fault.Memory) }
    {
        self.step(router, &Event { draw, kind })
    }
}

// Whether the nodes are few enough, and each has a link for each of its interfaces.
fn are_lawful(nodes: &[Node]) -> bool
    ensures { result ≡ (nat_le (length nodes.now) most_routers && list_all is_node (map node_of nodes.now)) }
{
    if nodes.len() > MOST_ROUTERS {
        return false;
    }
    for node in nodes {
        if !node.is_linked() {
            return false;
        }
    }
    true
}

// The routers of the nodes, and the first port of each. The refusal is that of the first that is refused.
fn open_all(
    alloc: Global,
    nodes: Vec<Node>,
) -> Result<Result<(Vec<Station>, Vec<u16>), Refusal>, Fault>
    requires links { list_all is_node (map node_of nodes.items) ≡ true }
    requires few { length nodes.items ≤ most_routers }
    ensures accepted { IfOk result (λ made. IfOk made (λ opened.
        (configs_test (map (λ (n : Node). n.config) nodes.items) ≡ Ok tt)
        × (opened.0.items ≡ map (λ n. Some (station_of (node_of n))) nodes.items)
        × (opened.1.items ≡ first_ports nodes.items))) }
    ensures refused { IfOk result (λ made. IfErr made (λ refusal.
        configs_test (map (λ (n : Node). n.config) nodes.items) ≡ Err refusal)) }
    ensures memory { IfErr result (λ fault. fault ≡ Fault.Memory) }
{
    let mut stations = Vec::new(alloc);
    let mut ports = Vec::new(alloc);
    let mut port = 0;
    for node in nodes {
        let links = node.links.len();
        match Station::open(alloc, node)? {
            Ok(station) => {
                stations.push(station)?;
                ports.push(port)?;
                port += links as u16 + 1;
            }
            Err(refusal) => return Ok(Err(refusal)),
        }
    }
    Ok(Ok((stations, ports)))
}

// An event at a station. What the station sends is added at the end of the frames.
fn take(
    alloc: Global,
    station: &mut Station,
    frames: &mut Vec<Frame>,
    event: &Event,
) -> Result<Outcome, Fault>
    ensures outcome { IfSome station.old (λ s. IfOk result (λ outcome.
        outcome ≡ outcome_of (step s.state event.now))) }
    ensures state { IfSome station.old (λ s. OnOk result
        (station.new ≡ Some (record s { state = (step s.state event.now).state }))) }
    ensures frames { IfSome station.old (λ s. OnOk result (frames.new.items
        ≡ frames.old.items ++ map (sent_by s.links) (step s.state event.now).emissions)) }
    ensures fault { IfSome station.old (λ s. IsOkUnless result Fault.Memory) }
{
    let outcome = station.step(alloc, event)?;
    keep(alloc, station, outcome.emissions.as_slice(), frames)?;
    Ok(outcome)
}

// Puts a station under the configuration of a node, with its links. What the station sends is added at the end of the
// frames, by the links that it had.
fn put_under(
    alloc: Global,
    station: &mut Station,
    frames: &mut Vec<Frame>,
    draw: u32,
    renewal: Renewal,
) -> Result<Outcome, Fault>
    ensures done { IfSome station.old (λ s. IfOk result (λ outcome.
        node_test renewal.places s.state (node_of renewal.node) ≡ Ok tt
        → outcome ≡ done_with (put_by renewal.places s.state renewal.node.config draw).1)) }
    ensures state { IfSome station.old (λ s. OnOk result (node_test renewal.places s.state (node_of renewal.node) ≡ Ok tt
        → station.new ≡ Some (record {
          links = renewal.node.links;
          state = (put_by renewal.places s.state renewal.node.config draw).0;
        }))) }
    ensures frames { IfSome station.old (λ s. OnOk result (node_test renewal.places s.state (node_of renewal.node) ≡ Ok tt
        → frames.new.items
        ≡ frames.old.items ++ map (sent_by s.links) (put_by renewal.places s.state renewal.node.config draw).1)) }
    ensures refused { IfSome station.old (λ s. IfOk result (λ outcome. (refusal : RefusalValue)
        → node_test renewal.places s.state (node_of renewal.node) ≡ Err refusal
        → (outcome ≡ refused_as refusal) × (station.new ≡ station.old) × (frames.new.items ≡ frames.old.items))) }
    ensures fault { IfSome station.old (λ s. IsOkUnless result Fault.Memory) }
{
    if !renewal.node.is_linked() {
        return Ok(refused(alloc, Refusal::BadScenario));
    }
    let Renewal { node, places } = renewal;
    let Node { config, links } = node;
    match station.reload(alloc, draw, &config, places.as_slice())? {
        Ok(sent) => {
            keep(alloc, station, &sent, frames)?;
            station.relink(links);
            Ok(Outcome {
                answer: Ok(Verdict::Done),
                emissions: Series::from_vec(sent),
                copies: 0,
            })
        }
        Err(refusal) => Ok(refused(alloc, refusal)),
    }
}

// Adds what a station sent at the end of the frames.
fn keep(
    alloc: Global,
    station: &Station,
    emissions: &[Emission],
    frames: &mut Vec<Frame>,
) -> Result<(), Fault>
    ensures kept { IfSome station.now (λ s. OnOk result
        (frames.new.items ≡ frames.old.items ++ map (sent_by s.links) emissions.now)) }
    ensures memory { IfErr result (λ fault. fault ≡ Fault.Memory) }
{
    for emission in emissions {
        frames.push(station.frame(alloc, emission)?)?;
    }
    Ok(())
}

/// The outcome of a move that is refused.
pub(crate) fn bad_move(alloc: Global) -> Outcome
    ensures { result ≡ written.bad_move }
{
    refused(alloc, Refusal::BadMove)
}

// The outcome of what is refused.
fn refused(alloc: Global, refusal: Refusal) -> Outcome
    ensures { result ≡ refused_as refusal }
{
    Outcome {
        answer: Err(refusal),
        emissions: Series::new(alloc),
        copies: 0,
    }
}
