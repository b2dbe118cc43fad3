//! Sets of RPs that share an address: what is configured, which settings are accepted, and what is sent to the others.
ghost use Rattle.std.specs.List.{list_all, list_any};
ghost use Rattle.std.specs.Prelude.{◌≡◌, ◌==◌, ◌+◌, ◌^◌, ◌<◌, [], IfOk, IsOk, find, length, map, option_copied};
ghost use Rattle.pim_anycast.specs.Sets.{are_rp_sets, is_member, is_other, is_rp_set, is_shared, set_sharing, to_others};
ghost use Rattle.pim_model.specs.Limits.{are_once};

use crate::rendezvous::OwnAddresses;
use pim_ip::write_pim_packet;
use pim_types::{Addr, Emission, Series};
use std::alloc::{AllocError, Global};
use std::fmt;
use thiserror::Error;

/// The most others of a set.
pub const MOST_OTHERS: usize = 16;

/// A set of routers that share an address, as one of them knows it.
pub struct RpSet {
    /// The address that all routers of the set have: the RP of its groups.
    pub shared: Addr,
    /// The address by which the others of the set know this router.
    pub own: Addr,
    /// The addresses of the others, at most 16.
    pub others: Series<Addr>,
}

// Written out, so that it is proved once.
impl Drop for RpSet {
    fn drop(self) {
        let RpSet {
            shared: _,
            own: _,
            others: _,
        } = self;
    }
}

/// Sets that a router can't have: an address that is shared, or the own one in a set, isn't the router's; the own one is
/// shared, in this set or another; one of the others is no host's address, or the router's, or is listed twice; a set has
/// more than 16 others; an address is shared in two sets.
#[derive(Clone, Copy, Debug, Error)]
pub struct BadRpSet;

impl BadRpSet {
    /// The number by which the refusal is known, beside those of [`pim_ip::Refusal`].
    pub const NUMBER: u8 = 74;
}

impl fmt::Display for BadRpSet {
    ghost use Rattle.std.specs.Prelude.{codes, Some};

    ghost output = { λ refusal. Some (codes "a set of RPs that share an address is wrong") };

    fn fmt<W: fmt::Write>(&self, f: &mut fmt::Formatter<W>) -> fmt::Result {
        f.write_str("a set of RPs that share an address is wrong")
    }
}

// Whether an address is listed.
pub(crate) fn is_listed(addresses: &[Addr], address: Addr) -> bool
    ensures { result ≡ list_any (λ other. other.bits == address.bits) addresses.now }
{
    for other in addresses {
        if *other == address {
            return true;
        }
    }
    false
}

// Whether no address is listed twice.
fn are_once(addresses: &[Addr]) -> bool
    ensures { result ≡ are_once addresses.now }
{
    for (number, address) in addresses.iter().enumerate() {
        if is_listed(&addresses[number + 1..], *address) {
            return false;
        }
    }
    true
}

// Whether each address is that of a host, and none of the router's.
fn are_members<A: OwnAddresses>(own: &A, addresses: &[Addr]) -> bool
    ensures { result ≡ list_all (is_member (A.configured own.now)) addresses.now }
{
    for address in addresses {
        if !address.is_unicast() || own.is_own(*address) {
            return false;
        }
    }
    true
}

// The set that shares an address.
#[tactic(auto, unfolding(crate::specs::Sets::set_sharing))]
pub(crate) fn set_sharing(sets: &[RpSet], shared: Addr) -> Option<&RpSet>
    ensures { option_copied result ≡ set_sharing sets.now shared.bits }
{
    for set in sets {
        if set.shared == shared {
            return Some(set);
        }
    }
    None
}

// Whether an address is shared in a set.
fn is_shared(sets: &[RpSet], address: Addr) -> bool
    ensures { result ≡ is_shared sets.now address.bits }
{
    for set in sets {
        if set.shared == address {
            return true;
        }
    }
    false
}

// Whether no address is shared in two sets.
fn are_shared_once(sets: &[RpSet]) -> bool
    ensures { result ≡ are_once (map (λ set. set.shared) sets.now) }
{
    for (number, set) in sets.iter().enumerate() {
        if is_shared(&sets[number + 1..], set.shared) {
            return false;
        }
    }
    true
}

// Whether each set is accepted among all of them.
fn are_each<A: OwnAddresses>(own: &A, sets: &[RpSet]) -> bool
    ensures { result ≡ list_all (is_rp_set (A.configured own.now) sets.now) sets.now }
{
    for set in sets {
        if !set.is_accepted(own, sets) {
            return false;
        }
    }
    true
}

/// Whether a router with these addresses can have these sets.
#[tactic(auto, unfolding(crate::specs::Sets::are_rp_sets))]
pub fn are_rp_sets<A: OwnAddresses>(own: &A, sets: &[RpSet]) -> bool
    ensures { result ≡ are_rp_sets (A.configured own.now) sets.now }
{
    are_each(own, sets) && are_shared_once(sets)
}

impl RpSet {
    // Whether the set is accepted among all sets of a router.
    #[tactic(auto, unfolding(crate::specs::Sets::is_rp_set))]
    fn is_accepted<A: OwnAddresses>(&self, own: &A, sets: &[RpSet]) -> bool
        ensures { result ≡ is_rp_set (A.configured own.now) sets.now self.now }
    {
        let members = self.others.as_slice();
        own.is_own(self.shared)
            && own.is_own(self.own)
            && !is_shared(sets, self.own)
            && members.len() <= MOST_OTHERS
            && are_members(own, members)
            && are_once(members)
    }

    /// Whether an address is that of another of the set.
    pub(crate) fn is_other(&self, address: Addr) -> bool
        ensures { result ≡ is_other self.now address.bits }
    {
        is_listed(self.others.as_slice(), address)
    }

    /// A PIM message to each of the others, in the order in which they are configured. An `Err` is want of memory; without
    /// others none is taken.
    #[tactic(auto, unfolding(crate::specs::Sets::to_others))]
    pub(crate) fn to_others(
        &self,
        alloc: Global,
        time_to_live: u8,
        message: &[u8],
    ) -> Result<Vec<Emission>, AllocError>
        requires { 20 + length message.now < 2 ^ 16 }
        ensures { IfOk result (λ sent. sent.items ≡ to_others self.now time_to_live message.now) }
    {
        let others = self.others.as_slice();
        let mut sent = Vec::new(alloc);
        for other in others {
            let mut packet = Vec::new(alloc);
            write_pim_packet(time_to_live, self.own, *other, message, &mut packet)?;
            sent.push(Emission::Unicast {
                destination: *other,
                bytes: Series::from_vec(packet),
            })?;
        }
        Ok(sent)
    }
}
