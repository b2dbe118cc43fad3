//! The front before a router that shares addresses with others, and what it makes of packets by unicast.
ghost use Rattle.std.specs.Prelude.{◌≡◌, [], false, true, IfErr, IfOk, IsOk, option_copied, option_map};
ghost use Rattle.pim_anycast.specs.Passed.{group_passed, passed, passed_by, register_in};
ghost use Rattle.pim_anycast.specs.Sets.{are_rp_sets, set_for};
ghost use Rattle.pim_model.specs.Tables.{is_empty_list};
ghost use Rattle.pim_wire.specs.RegisterParts.{registered_group};

use crate::rendezvous::{OwnAddresses, Rendezvous};
use crate::set::{BadRpSet, RpSet, are_rp_sets, set_sharing};
use pim_ip::{Ipv4View, PROTOCOL_PIM, read_ipv4, write_pim_packet};
use pim_types::{Addr, Emission, Series};
use pim_wire::{PimView, read_pim};
use std::alloc::{AllocError, Global};
use std::marker::Model;

/// What becomes of a packet by unicast.
#[derive(Drop)]
pub enum Passed {
    /// The router is given the packet as it came, and nothing is sent on.
    AsItCame,
    /// The router is given the packet as it came. Copies of its Register leave to the others of the set.
    Copied(Series<Emission>),
    /// The router is given this packet in its place: a Register that another of the set sent on, as one to the shared
    /// address.
    Counted(Series<u8>),
}

/// The sets of a router. It has no facts.
pub struct Anycast {
    sets: Vec<RpSet>,
}

impl Model for Anycast {
    ghost use Rattle.std.specs.Prelude.{List};
    ghost use Rattle.pim_anycast.specs.declared.set.RpSet.{RpSet};

    ghost Value = { List RpSet };

    ghost view = { λ f. f.sets.items };
}

// Written out, so that it is proved once.
impl Drop for Anycast {
    fn drop(self) {
        let Anycast { sets: _ } = self;
    }
}

// The group of a packet's Register, if it brings one.
#[tactic(auto, unfolding(crate::specs::Passed::register_in))]
fn registered_group(packet: &Ipv4View<'_>) -> Option<Addr>
    ensures { option_map (λ group. group.bits) result ≡ option_map registered_group (register_in packet.now) }
{
    if packet.protocol() != PROTOCOL_PIM {
        return None;
    }
    match read_pim(packet.payload()) {
        Ok(PimView::Register(register)) => Some(register.group()),
        _ => None,
    }
}

// What a set makes of a packet that brings a Register of one of its groups.
#[tactic(auto, unfolding(crate::specs::Passed::passed_by, crate::specs::Passed::counted_text))]
fn pass_by(alloc: Global, set: &RpSet, packet: &Ipv4View<'_>) -> Result<Passed, AllocError>
    ensures value { IfOk result (λ told. told ≡ passed_by set.now packet.now) }
    ensures sure { passed_by set.now packet.now ≡ Passed.AsItCame → IsOk result }
{
    // For the proof: the message fits.
    let _ = packet.total_length();
    let is_from_other = set.is_other(packet.source());
    if packet.destination() == set.shared && !is_from_other && packet.time_to_live() > 1 {
        let copies = set.to_others(alloc, packet.time_to_live() - 1, packet.payload())?;
        return Ok(Passed::Copied(Series::from_vec(copies)));
    }
    if packet.destination() == set.own && is_from_other {
        let mut text = Vec::new(alloc);
        write_pim_packet(
            packet.time_to_live(),
            packet.source(),
            set.shared,
            packet.payload(),
            &mut text,
        )?;
        return Ok(Passed::Counted(Series::from_vec(text)));
    }
    Ok(Passed::AsItCame)
}

impl Anycast {
    ghost use Rattle.pim_anycast.specs.declared.front.Passed.{Passed};

    /// No set: the front changes nothing.
    pub fn new(alloc: Global) -> Anycast
        ensures { result ≡ [] }
    {
        Anycast {
            sets: Vec::new(alloc),
        }
    }

    /// A front with these sets, for a router with these addresses.
    pub fn of<A: OwnAddresses>(own: &A, sets: Vec<RpSet>) -> Result<Anycast, BadRpSet>
        ensures accepted { IfOk result (λ front. front ≡ sets.items) }
        ensures fits { IfOk result (λ front. are_rp_sets (A.configured own.now) sets.items ≡ true) }
        ensures refused { IfErr result (λ bad. are_rp_sets (A.configured own.now) sets.items ≡ false) }
    {
        if are_rp_sets(own, sets.as_slice()) {
            Ok(Anycast { sets })
        } else {
            Err(BadRpSet)
        }
    }

    /// Whether a router with these addresses can have the sets.
    pub fn fits<A: OwnAddresses>(&self, own: &A) -> bool
        ensures { result ≡ are_rp_sets (A.configured own.now) self.now }
    {
        are_rp_sets(own, self.sets.as_slice())
    }

    /// The sets, as they were given.
    pub fn sets(&self) -> &[RpSet]
        ensures { result.now ≡ self.now }
    {
        self.sets.as_slice()
    }

    // Whether there is no set.
    pub(crate) fn is_unset(&self) -> bool
        ensures { result ≡ is_empty_list self.now }
    {
        self.sets.is_empty()
    }

    // The set that shares the RP of a group.
    #[tactic(auto, unfolding(crate::specs::Sets::set_for))]
    pub(crate) fn set_for<R: Rendezvous>(&self, router: &R, group: Addr) -> Option<&RpSet>
        ensures { option_copied result ≡ set_for self.now (R.ranges router.now) group.bits }
    {
        let rp = router.rp(group)?;
        set_sharing(self.sets.as_slice(), rp)
    }

    // A packet that brings a Register of a group, if it brings one.
    fn take_register<R: Rendezvous>(
        &self,
        alloc: Global,
        router: &R,
        packet: &Ipv4View<'_>,
        group: Option<Addr>,
    ) -> Result<Passed, AllocError>
        ensures value { IfOk result (λ told. told
            ≡ group_passed self.now (R.ranges router.now) packet.now (option_map (λ g. g.bits) group)) }
        ensures sure { group_passed self.now (R.ranges router.now) packet.now (option_map (λ g. g.bits) group)
            ≡ Passed.AsItCame → IsOk result }
    {
        let Some(group) = group else {
            return Ok(Passed::AsItCame);
        };
        match self.set_for(router, group) {
            Some(set) => pass_by(alloc, set, packet),
            None => Ok(Passed::AsItCame),
        }
    }

    /// What becomes of a packet that came by unicast, before the router is given it. An `Err` is want of memory; a packet
    /// that is given as it came takes none.
    #[tactic(auto, using(crate::proofs::Unset::unset), unfolding(crate::specs::Passed::passed, crate::specs::Passed::packet_passed))]
    pub fn take_unicast<R: Rendezvous>(
        &self,
        alloc: Global,
        router: &R,
        bytes: &[u8],
    ) -> Result<Passed, AllocError>
        ensures value { IfOk result (λ told. told ≡ passed self.now (R.ranges router.now) bytes.now) }
        ensures sure { passed self.now (R.ranges router.now) bytes.now ≡ Passed.AsItCame → IsOk result }
    {
        if self.is_unset() {
            return Ok(Passed::AsItCame);
        }
        match read_ipv4(bytes) {
            Ok(packet) => self.take_register(alloc, router, &packet, registered_group(&packet)),
            Err(_) => Ok(Passed::AsItCame),
        }
    }
}
