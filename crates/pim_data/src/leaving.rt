//! The packets that leave.
ghost use Rattle.std.specs.Option.{option_map_or};
ghost use Rattle.std.specs.Prelude.{◌≡◌, ◌≤◌, ℕ, [], Bool, IfOk, OnOk, length, map};
ghost use Rattle.pim_ip.specs.Ipv4.{copy_text};
ghost use Rattle.pim_state.specs.Shown.{Shows};
ghost use Rattle.pim_model.specs.Forwarding.{Forwarded};
ghost use Rattle.pim_model.specs.State.{State, iface_count};
ghost use Rattle.pim_model.specs.Writing.{copies_of, leaves, on_link, register_of_packet, tunnel_of};
ghost use Rattle.pim_model.specs.Unicast.{rp_of};
ghost use Rattle.pim_register.specs.Outgoing.{LeavesOn};
ghost use Rattle.pim_types.specs.declared.config.IfaceId.{IfaceId as IfaceValue};

use pim_ifset::{IfSet, Iter};
use pim_ip::Ipv4View;
use pim_macros::interfaces::members;
use pim_messages::{Room, copy_on_link, register_of_copy};
use pim_register::registering_address;
use pim_state::{Meter, Turn, World};
use pim_types::{Addr, Emission};
use std::alloc::{AllocError, Global};

/// What leaves of a packet.
#[derive(Drop)]
pub struct Leaving {
    /// The packet's copies on links, in ascending order of interfaces: at most 120.
    pub copies: Vec<Emission>,
    /// The Register round it, if it goes through the tunnel.
    pub registered: Vec<Emission>,
}

impl Leaving {
    /// Nothing leaves; it takes no memory.
    pub fn nothing(alloc: Global) -> Leaving
        ensures copies { result.copies.items ≡ [] }
        ensures registered { result.registered.items ≡ [] }
    {
        Leaving {
            copies: Vec::new(alloc),
            registered: Vec::new(alloc),
        }
    }
}

// Whether the TTL lets the packet go on.
fn leaves(packet: &Ipv4View<'_>) -> bool
    ensures { result ≡ leaves packet.now }
{
    packet.time_to_live() > 1
}

// A copy of the packet on each of these interfaces. Memory for all of them is taken at once.
fn copies_on(
    room: &mut Room,
    count: usize,
    ifaces: Iter,
    packet: &Ipv4View<'_>,
) -> Result<Vec<Emission>, AllocError>
    ensures { IfOk result (λ copies. copies.items
        ≡ map (λ (iface : IfaceValue). on_link iface.number (copy_text packet.now)) ifaces) }
{
    let mut copies = room.list_for(count)?;
    for iface in ifaces {
        copies.push(copy_on_link(room, iface, packet)?)?;
    }
    Ok(copies)
}

/// The packet's copies on the links of the list, by ascending interface: none where its TTL has run out. The count is that
/// of the router's interfaces. An error is want of memory.
#[tactic(auto, unfolding(pim_model::specs::Writing::copies_of))]
pub fn copies(
    count: u32,
    room: &mut Room,
    packet: &Ipv4View<'_>,
    list: IfSet,
) -> Result<Vec<Emission>, AllocError>
    requires { count ≤ 120 }
    ensures copies { IfOk result (λ copies. (s : State) → count ≡ iface_count s → (test : ℕ → Bool) → Shows list test
        → copies.items ≡ copies_of s packet.now test) }
    ensures limit { IfOk result (λ copies. (s : State) → count ≡ iface_count s → length copies.items ≤ 120) }
{
    if !leaves(packet) {
        return Ok(room.list());
    }
    // For the proof: how many interfaces the list has.
    let list = list.without_tunnel();
    copies_on(room, list.len(), members(list, count), packet)
}

// The Register round the packet, from the router's address on RPF_interface(S) to the RP, where there is one.
#[tactic(auto, unfolding(pim_model::specs::Writing::register_of_packet))]
fn registered(
    world: &World,
    turn: &mut Turn,
    meter: &mut Meter,
    packet: &Ipv4View<'_>,
) -> Result<Vec<Emission>, AllocError>
    ensures registered { IfOk result (λ sent. sent.items
        ≡ option_map_or (register_of_packet world.now packet.now) (rp_of world.now packet.now.destination) []) }
    ensures silent { turn.new ≡ turn.old }
{
    let mut sent = turn.room.list();
    if let Some(rp) = world.rp(packet.destination(), meter) {
        let from = registering_address(world, meter, packet.source());
        sent.push(register_of_copy(&mut turn.room, from, rp, packet)?)?;
    }
    Ok(sent)
}

/// What leaves of a packet whose list of outgoing interfaces this is: nothing where its TTL has run out. The meter
/// rises by the nodes visited. An error is want of memory.
#[tactic(auto, unfolding(pim_model::specs::Writing::tunnel_of))]
pub fn leave(
    world: &World,
    turn: &mut Turn,
    meter: &mut Meter,
    packet: &Ipv4View<'_>,
    list: IfSet,
) -> Result<Leaving, AllocError>
    ensures copies { IfOk result (λ sent. (f : Forwarded) → LeavesOn list f
        → sent.copies.items ≡ copies_of world.now packet.now f.list) }
    ensures registered { IfOk result (λ sent. (f : Forwarded) → LeavesOn list f
        → sent.registered.items ≡ tunnel_of world.now packet.now f.to_tunnel) }
    ensures limit { IfOk result (λ sent. length sent.copies.items ≤ 120) }
    ensures silent { turn.new ≡ turn.old }
{
    let copies = copies(world.interfaces().count(), &mut turn.room, packet, list)?;
    if !(list.has_tunnel() && leaves(packet)) {
        return Ok(Leaving {
            copies,
            registered: Vec::new(turn.alloc),
        });
    }
    let registered = registered(world, turn, meter, packet)?;
    Ok(Leaving { copies, registered })
}
