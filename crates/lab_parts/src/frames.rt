//! The frames that the routers sent, as a settle takes and delivers them.
ghost use Rattle.lab_parts.specs.Settling.{deliveries_of, delivery_to, departure_of, link_of, next_delivery, owner_of};
ghost use Rattle.lab_parts.specs.Settling.{receives, to_interfaces, to_routers, with_sent};
ghost use Rattle.pim_ip.specs.declared.fault.Fault.{Fault};
ghost use Rattle.std.specs.List.{list_any, position};
ghost use Rattle.std.specs.Prelude.{◌≡◌, ◌+◌, ◌++◌, ◌==◌, [], IfOk, OnOk, OnErr, option_map};

use crate::station::Station;
use pim_scenario::Link;
use pim_types::{Addr, Emission, Fault, IfaceId};
use std::alloc::{AllocError, Global};
use std::collections::VecDeque;
use std::marker::Model;

/// Where a frame left.
#[derive(Clone, Copy)]
pub enum Departure {
    /// On an interface of a router.
    Interface { router: usize, iface: IfaceId },
    /// A packet routed to an address.
    Unicast { destination: Addr },
}

impl Departure {
    // Where a router's packet leaves.
    fn of(router: usize, emission: &Emission) -> Departure
        ensures { result ≡ departure_of router emission.now }
    {
        match emission {
            Emission::Link { iface, .. } => Departure::Interface {
                router,
                iface: *iface,
            },
            Emission::Unicast { destination, .. } => Departure::Unicast {
                destination: *destination,
            },
        }
    }
}

/// A frame that was sent.
#[derive(Clone, Copy)]
pub struct Frame {
    /// The frames of all routers are counted from 1, in order of sending.
    pub number: u32,
    pub departure: Departure,
}

/// A place to which a settle delivers a frame.
#[derive(Clone, Copy)]
pub struct Delivery {
    pub router: usize,
    /// `None` for a unicast.
    pub iface: Option<IfaceId>,
    pub frame: u32,
}

/// The frames that were sent. Those that no settle has taken wait for the next.
#[derive(Drop)]
pub struct Frames {
    sent: u32,
    begun: VecDeque<Delivery>,
    waiting: VecDeque<Frame>,
}

impl Model for Frames {
    ghost use Rattle.lab_parts.specs.Settling.{Queue};

    ghost Value = { Queue };

    ghost view = { λ f. record { sent = f.sent; begun = f.begun.items; waiting = f.waiting.items } };
}

impl Frames {
    /// A queue in which no frame was sent yet.
    pub fn new(alloc: Global) -> Frames
        ensures { result ≡ record { sent = 0; begun = []; waiting = [] } }
    {
        Frames {
            sent: 0,
            begun: VecDeque::new(alloc),
            waiting: VecDeque::new(alloc),
        }
    }

    /// Adds a packet that a router sent. The result is the number of the frame. Running out of numbers counts as want
    /// of memory, since all frames are kept.
    pub fn send(&mut self, router: usize, emission: &Emission) -> Result<u32, Fault>
        ensures number { IfOk result (λ number. number ≡ self.old.sent + 1) }
        ensures sent { OnOk result (self.new ≡ with_sent router emission.now self.old) }
    {
        let number = self.sent.checked_add(1).ok_or(Fault::Memory)?;
        let departure = Departure::of(router, emission);
        self.waiting.push_back(Frame { number, departure })?;
        self.sent = number;
        Ok(number)
    }

    /// The next delivery of a settle, until all that was sent is delivered: the next of the frame that is being
    /// delivered, or the first of the next frame that somebody receives.
    pub fn next(
        &mut self,
        alloc: Global,
        stations: &[Station],
    ) -> Result<Option<Delivery>, AllocError>
        ensures { IfOk result (λ next. (next, self.new)
            ≡ next_delivery stations.now self.old.sent self.old.waiting self.old.begun) }
    {
        while self.begun.is_empty() {
            let Some(frame) = self.waiting.pop_front() else {
                return Ok(None);
            };
            self.begun = deliveries(alloc, stations, frame)?;
        }
        Ok(self.begun.pop_front())
    }

    /// Ends a settle: deliveries of the current frame that are left aren't made.
    pub fn end_settle(&mut self)
        ensures { self.new ≡ record self.old { begun = [] } }
    {
        self.begun.clear();
    }
}

// Where a settle delivers a frame: to every other interface on its link, by router and interface, or to the
// first router with its address.
#[tactic(auto, unfolding(crate::specs::Settling::deliveries_of))]
fn deliveries(
    alloc: Global,
    stations: &[Station],
    frame: Frame,
) -> Result<VecDeque<Delivery>, AllocError>
    ensures { IfOk result (λ found. found.items ≡ deliveries_of stations.now frame.number frame.departure) }
{
    match frame.departure {
        Departure::Interface { router, iface } => match link_of(stations, router, iface) {
            Some(link) => {
                let frame = OnLink {
                    link,
                    frame: frame.number,
                    router,
                    iface,
                };
                frame.to_routers(alloc, stations)
            }
            None => Ok(VecDeque::new(alloc)),
        },
        Departure::Unicast { destination } => to_owner(alloc, stations, frame.number, destination),
    }
}

#[tactic(auto, unfolding(crate::specs::Settling::deliveries_of))]
fn to_owner(
    alloc: Global,
    stations: &[Station],
    frame: u32,
    address: Addr,
) -> Result<VecDeque<Delivery>, AllocError>
    ensures { IfOk result (λ found. found.items ≡ deliveries_of stations.now frame (Departure.Unicast address)) }
{
    let mut found = VecDeque::new(alloc);
    let Some(router) = owner_of(stations, address) else {
        return Ok(found);
    };
    found.push_back(Delivery {
        router,
        iface: None,
        frame,
    })?;
    Ok(found)
}

// The number of an interface's link.
fn link_of(stations: &[Station], router: usize, iface: IfaceId) -> Option<usize>
    ensures { result ≡ link_of stations.now router iface.number }
{
    let station = stations.get(router)?;
    let link = station.links.as_slice().get(iface.number as usize)?;
    Some(link.number)
}

// The first router with an address.
fn owner_of(stations: &[Station], address: Addr) -> Option<usize>
    ensures { result ≡ owner_of stations.now address.bits }
{
    stations
        .iter()
        .position(|station| is_among(station.addresses.as_slice(), address))
}

fn is_among(addresses: &[Addr], address: Addr) -> bool
    ensures { result ≡ list_any (λ a. a.bits == address.bits) addresses.now }
{
    for own in addresses {
        if own.bits == address.bits {
            return true;
        }
    }
    false
}

// A frame on a link, with the interface that it left on.
#[derive(Clone, Copy)]
struct OnLink {
    link: usize,
    frame: u32,
    router: usize,
    iface: IfaceId,
}

impl OnLink {
    // The deliveries to every other interface on the link, by router and interface.
    fn to_routers(
        self,
        alloc: Global,
        stations: &[Station],
    ) -> Result<VecDeque<Delivery>, AllocError>
        ensures { IfOk result (λ found. found.items ≡ to_routers self 0 stations.now) }
    {
        let mut found = VecDeque::new(alloc);
        for (router, station) in stations.iter().enumerate() {
            self.to_interfaces(router, station.links.as_slice(), &mut found)?;
        }
        Ok(found)
    }

    // The deliveries to every other interface on the link that one router has.
    fn to_interfaces(
        self,
        router: usize,
        links: &[Link],
        found: &mut VecDeque<Delivery>,
    ) -> Result<(), AllocError>
        ensures { OnOk result (found.new.items ≡ found.old.items ++ to_interfaces self router 0 links.now) }
    {
        for (place, link) in links.iter().enumerate() {
            if self.is_received(router, place, link) {
                found.push_back(self.delivery(router, place)?)?;
            }
        }
        Ok(())
    }

    // Whether the interface is on the link, and isn't the one that the frame left on.
    fn is_received(self, router: usize, place: usize, link: &Link) -> bool
        ensures { result ≡ receives self router place link.now }
    {
        let is_sender = router == self.router && place == self.iface.number as usize;
        link.number == self.link && !is_sender
    }

    // The delivery to an interface by its place. A place past all interface numbers counts as want of memory.
    fn delivery(self, router: usize, place: usize) -> Result<Delivery, AllocError>
        ensures { IfOk result (λ d. d ≡ delivery_to router (Some (record { number = place })) self.frame) }
    {
        let number = u32::try_from(place).map_err(|_| AllocError)?;
        Ok(Delivery {
            router,
            iface: Some(IfaceId { number }),
            frame: self.frame,
        })
    }
}
