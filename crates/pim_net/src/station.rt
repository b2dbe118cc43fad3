//! A frame that was sent, and a router with the links and ports of its interfaces.
ghost use Rattle.pim_ip.specs.declared.fault.Fault.{Fault};
ghost use Rattle.pim_model.specs.Limits.{config_test, most_ifaces};
ghost use Rattle.pim_model.specs.Network.{is_on_frame_link, sent_by, station_of};
ghost use Rattle.pim_model.specs.State.{State};
ghost use Rattle.pim_model.specs.Step.{outcome_of, step};
ghost use Rattle.pim_net.specs.Reloading.{put_by, put_test};
ghost use Rattle.pim_net.specs.Showing.{node_of};
ghost use Rattle.pim_net.specs.declared.unrestored.Unrestored.{Unrestored};
ghost use Rattle.pim_router.specs.Standing.{begun};
ghost use Rattle.pim_saved.specs.Reading.{reading};
ghost use Rattle.pim_worlds.specs.Resuming.{restore_test};
ghost use Rattle.pim_worlds.specs.declared.refusal.RestoreRefusal.{RestoreRefusal};
ghost use Rattle.std.specs.Prelude.{◌≡◌, ◌≤◌, ◌++◌, Err, IfErr, IfOk, IfSome, IsOkUnless, Ok, OnErr, OnOk, Some, is_some, length, option_map};

use crate::node::Node;
use crate::unrestored::Unrestored;
use pim_router::Router;
use pim_types::{Config, Emission, Event, Fault, IfaceId, Outcome, Refusal, Series};
use std::alloc::{AllocError, Global};
use std::marker::Model;

/// A packet that was sent, with its link; none for a unicast.
#[derive(Drop)]
pub(crate) struct Frame {
    pub(crate) link: Option<u32>,
    pub(crate) bytes: Series<u8>,
}

impl Model for Frame {
    ghost use Rattle.pim_model.specs.Network.{Sent};

    ghost Value = { Sent };

    ghost view = { λ f. record { link = f.link; bytes = f.bytes } };
}

/// A router with the links of its interfaces. Of its ports the first are the interfaces', in their order, and the last
/// is for unicasts.
#[derive(Drop)]
pub(crate) struct Station {
    router: Router,
    links: Series<u32>,
}

impl Model for Station {
    ghost use Rattle.std.specs.Prelude.{Option, length, option_map, ◌≤◌};
    ghost use Rattle.pim_model.specs.Limits.{most_ifaces};
    ghost use Rattle.pim_model.specs.Network.{Station as StationValue};
    ghost use Rattle.pim_router.specs.Standing.{Standing};

    ghost Value = { Option StationValue };

    ghost view = { λ s. option_map (λ (r : Standing). record { links = s.links; state = r.state }) s.router.standing };

    ghost invariant = { λ s. length s.links ≤ most_ifaces };
}

impl Station {
    /// The router of a node.
    pub(crate) fn open(alloc: Global, node: Node) -> Result<Result<Station, Refusal>, Fault>
        requires links { length node.links ≡ length node.config.interfaces }
        ensures accepted { IfOk result (λ made. IfOk made (λ station. (config_test node.config ≡ Ok tt)
            × (station ≡ Some (station_of (node_of node))))) }
        ensures refused { IfOk result (λ made. IfErr made (λ refusal. config_test node.config ≡ Err refusal)) }
        ensures memory { IfErr result (λ fault. fault ≡ Fault.Memory) }
    {
        let Node { config, links } = node;
        match Router::new(alloc, config)? {
            Ok(router) => Ok(Ok(Station { router, links })),
            Err(refusal) => Ok(Err(refusal)),
        }
    }

    /// The place among the router's ports of an interface that is on the frame's link, if it is.
    pub(crate) fn place_on_link_of(&self, iface: IfaceId, frame: &Frame) -> Option<u32>
        ensures on_link { IfSome self.now (λ s. is_some result ≡ is_on_frame_link s iface.number frame.now) }
        ensures place { IfSome result (λ place. (place ≡ iface.number) × (place ≤ most_ifaces)) }
    {
        match (self.links.as_slice().get(iface.number as usize), frame.link) {
            (Some(own), Some(link)) if *own == link => Some(iface.number),
            _ => None,
        }
    }

    /// The place among the router's ports of the one for unicasts.
    pub(crate) fn unicast_place(&self) -> u32
        ensures place { IfSome self.now (λ s. result ≡ length s.links) }
        ensures within { result ≤ most_ifaces }
    {
        self.links.len() as u32
    }

    /// The router, to be read.
    pub(crate) fn router(&self) -> &Router
        ensures { option_map (λ r. r.state) result.now.standing ≡ option_map (λ s. s.state) self.now }
    {
        &self.router
    }

    /// Takes one event.
    pub(crate) fn step(&mut self, alloc: Global, event: &Event) -> Result<Outcome, Fault>
        ensures outcome { IfSome self.old (λ s. IfOk result (λ outcome. outcome ≡ outcome_of (step s.state event.now))) }
        ensures state { IfSome self.old (λ s. OnOk result
            (self.new ≡ Some (record s { state = (step s.state event.now).state }))) }
        ensures fault { IfSome self.old (λ s. IsOkUnless result Fault.Memory) }
    {
        let mut emissions = Vec::new(alloc);
        let answer = self.router.step(event, &mut emissions)?;
        Ok(Outcome {
            answer,
            emissions: Series::from_vec(emissions),
            copies: self.router.copies(),
        })
    }

    /// Puts the router into the state that these bytes say, if a router is made of them and it has a link for each of its
    /// interfaces. Its configuration is that of the state. The error is want of memory. After an error and where the
    /// bytes aren't taken the station is as it was.
    pub(crate) fn restore(
        &mut self,
        alloc: Global,
        bytes: &[u8],
    ) -> Result<Result<(), Unrestored>, Fault>
        ensures restored { IfOk result (λ made. OnOk made ((s : State) × (reading bytes.now ≡ Ok s)
            × IfSome self.old (λ st. self.new ≡ Some (record st { state = s })))) }
        ensures tested { IfOk result (λ made. OnOk made (restore_test bytes.now ≡ Ok tt)) }
        ensures refused { IfOk result (λ made. IfErr made (λ why. (refusal : RestoreRefusal) → why ≡ Unrestored.Bytes refusal
            → restore_test bytes.now ≡ Err refusal)) }
        ensures same { IfOk result (λ made. OnErr made (self.new ≡ self.old)) }
        ensures fails { OnErr result (self.new ≡ self.old) }
        ensures memory { IfErr result (λ fault. fault ≡ Fault.Memory) }
    {
        match made_of(alloc, bytes, self.links.len())? {
            Ok(router) => {
                self.router = router;
                Ok(Ok(()))
            }
            Err(why) => Ok(Err(why)),
        }
    }

    /// Puts the router under another configuration, by a map of places where there is one. The links stay. The error is
    /// want of memory.
    #[tactic(auto, unfolding(crate::specs::Reloading::put_by, crate::specs::Reloading::put_test, pim_router::specs::Asked::places_test))]
    pub(crate) fn reload(
        &mut self,
        alloc: Global,
        draw: u32,
        config: &Config,
        places: &[Option<u32>],
    ) -> Result<Result<Vec<Emission>, Refusal>, Fault>
        ensures accepted { IfOk result (λ answer. OnOk answer (config_test config.now ≡ Ok tt)) }
        ensures tested { IfSome self.old (λ s. IfOk result (λ answer. OnOk answer
            (put_test places.now s.state config.now ≡ Ok tt))) }
        ensures state { IfSome self.old (λ s. IfOk result (λ answer. OnOk answer
            (self.new ≡ Some (record s { state = (put_by places.now s.state config.now draw).0 })))) }
        ensures sent { IfSome self.old (λ s. IfOk result (λ answer. IfOk answer (λ sent.
            sent.items ≡ (put_by places.now s.state config.now draw).1))) }
        ensures refused { IfSome self.old (λ s. IfOk result (λ answer. IfErr answer (λ refusal.
            (put_test places.now s.state config.now ≡ Err refusal) × (self.new ≡ self.old)))) }
        ensures fault { IfSome self.old (λ s. IsOkUnless result Fault.Memory) }
    {
        let mut emissions = Vec::new(alloc);
        let answer = if places.is_empty() {
            self.router.reload(draw, config, &mut emissions)?
        } else {
            self.router
                .reload_places(draw, config, places, &mut emissions)?
        };
        match answer {
            Ok(()) => Ok(Ok(emissions)),
            Err(refusal) => Ok(Err(refusal)),
        }
    }

    /// Puts the router's interfaces on other links.
    pub(crate) fn relink(&mut self, links: Series<u32>)
        requires few { length links ≤ most_ifaces }
        ensures { IfSome self.old (λ s. self.new ≡ Some (record s { links = links })) }
    {
        self.links = links;
    }

    /// An emission as a frame.
    pub(crate) fn frame(&self, alloc: Global, emission: &Emission) -> Result<Frame, AllocError>
        ensures { IfSome self.now (λ s. IfOk result (λ frame. frame ≡ sent_by s.links emission.now)) }
    {
        match emission {
            Emission::Link { iface, bytes } => Ok(Frame {
                link: self.links.as_slice().get(iface.number as usize).copied(),
                bytes: copied(alloc, bytes)?,
            }),
            Emission::Unicast { bytes, .. } => Ok(Frame {
                link: None,
                bytes: copied(alloc, bytes)?,
            }),
        }
    }
}

// The router that is in the state that these bytes say, if it has as many interfaces.
fn made_of(
    alloc: Global,
    bytes: &[u8],
    interfaces: usize,
) -> Result<Result<Router, Unrestored>, Fault>
    ensures made { IfOk result (λ made. IfOk made (λ router.
        (s : State) × (reading bytes.now ≡ Ok s) × (router ≡ begun s))) }
    ensures tested { IfOk result (λ made. OnOk made (restore_test bytes.now ≡ Ok tt)) }
    ensures refused { IfOk result (λ made. IfErr made (λ why. (refusal : RestoreRefusal) → why ≡ Unrestored.Bytes refusal
        → restore_test bytes.now ≡ Err refusal)) }
    ensures memory { IfErr result (λ fault. fault ≡ Fault.Memory) }
{
    match Router::restore(alloc, bytes)? {
        Ok(router) => {
            if router.interface_count() as usize == interfaces {
                Ok(Ok(router))
            } else {
                Ok(Err(Unrestored::OtherInterfaces))
            }
        }
        Err(refusal) => Ok(Err(Unrestored::Bytes(refusal))),
    }
}

// A copy of the bytes.
fn copied(alloc: Global, bytes: &Series<u8>) -> Result<Series<u8>, AllocError>
    ensures { IfOk result (λ same. same ≡ bytes.now) }
{
    Ok(Series::from_vec(bytes.as_slice().to_vec(alloc)?))
}
