//! The sources of which an RP tells its peers.
ghost use Rattle.std.specs.Prelude.{◌≡◌, ◌&&◌, Some};
ghost use Rattle.pim_anycast.specs.Passed.{register_in};
ghost use Rattle.pim_anycast.specs.Sets.{is_other};
ghost use Rattle.pim_msdp.specs.Own.{is_of_dr, is_of_set, is_rp_here, registered, registered_by};

use pim_anycast::{OwnAddresses, Rendezvous, RpSet};
use pim_ip::{Ipv4View, PROTOCOL_PIM, read_ipv4};
use pim_types::{Addr, SourceGroup};
use pim_wire::{PimView, RegisterView, read_pim};

/// Whether a source is on a link of which the router is the DR, sends, and has the router as the RP of its group.
pub fn is_own_source<R: Rendezvous + OwnAddresses>(router: &R, name: SourceGroup) -> bool
    ensures { result ≡ (R.is_local router.now name.group.bits name.source.bits
        && is_rp_here (R.configured router.now) (R.ranges router.now) name.group.bits) }
{
    if !router.is_local(name) {
        return false;
    }
    match router.rp(name.group) {
        Some(rp) => router.is_own(rp),
        None => false,
    }
}

// Whether an address is that of another of a set.
fn is_other(set: &RpSet, address: Addr) -> bool
    ensures { result ≡ is_other set.now address.bits }
{
    for other in set.others.as_slice() {
        if *other == address {
            return true;
        }
    }
    false
}

// Whether an address is that of another of a set that shares the RP's address.
fn is_of_set(sets: &[RpSet], rp: Addr, address: Addr) -> bool
    ensures { result ≡ is_of_set sets.now rp.bits address.bits }
{
    for set in sets {
        if set.shared == rp && is_other(set, address) {
            return true;
        }
    }
    false
}

// Whether a packet with a Register of a group comes from a DR.
#[tactic(auto, unfolding(crate::specs::Own::is_of_dr))]
fn is_of_dr<R: Rendezvous + OwnAddresses>(
    sets: &[RpSet],
    router: &R,
    packet: &Ipv4View<'_>,
    group: Addr,
) -> bool
    ensures { result ≡ is_of_dr sets.now (R.configured router.now) (R.ranges router.now) packet.now group.bits }
{
    let to = packet.destination();
    if packet.time_to_live() <= 1 || !router.is_own(to) {
        return false;
    }
    match router.rp(group) {
        Some(rp) => rp == to && !is_of_set(sets, to, packet.source()),
        None => false,
    }
}

// The source that a packet registers.
#[tactic(auto, unfolding(pim_anycast::specs::Passed::register_in))]
fn registered_by<R: Rendezvous + OwnAddresses>(
    sets: &[RpSet],
    router: &R,
    packet: &Ipv4View<'_>,
) -> Option<SourceGroup>
    ensures { result ≡ registered_by sets.now (R.configured router.now) (R.ranges router.now) packet.now (register_in packet.now) }
{
    if packet.protocol() != PROTOCOL_PIM {
        return None;
    }
    match read_pim(packet.payload()) {
        Ok(PimView::Register(register)) => of_dr(sets, router, packet, &register),
        _ => None,
    }
}

// The source of a Register that a packet brings.
fn of_dr<R: Rendezvous + OwnAddresses>(
    sets: &[RpSet],
    router: &R,
    packet: &Ipv4View<'_>,
    register: &RegisterView<'_>,
) -> Option<SourceGroup>
    ensures { result ≡ registered_by sets.now (R.configured router.now) (R.ranges router.now) packet.now (Some register.now) }
{
    let group = register.group();
    if !is_of_dr(sets, router, packet, group) {
        return None;
    }
    Some(SourceGroup {
        source: register.source(),
        group,
    })
}

/// The source that a packet registers here, which came by unicast: a DR's Register to RP(G), an address of the router's,
/// that none of a set sent on which shares that. Takes no memory.
#[tactic(auto, unfolding(crate::specs::Own::registered))]
pub fn registered<R: Rendezvous + OwnAddresses>(
    sets: &[RpSet],
    router: &R,
    bytes: &[u8],
) -> Option<SourceGroup>
    ensures { result ≡ registered sets.now (R.configured router.now) (R.ranges router.now) bytes.now }
{
    match read_ipv4(bytes) {
        Ok(packet) => registered_by(sets, router, &packet),
        Err(_) => None,
    }
}
