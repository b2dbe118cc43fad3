//! Addresses that change: goodbyes from those of before, and the asserts that were won with them.
ghost use Rattle.law_states.specs.Reloading.{asserts_under, goodbye, goodbyes, is_readdressed, is_won_before, leaves_address};
ghost use Rattle.pim_model.specs.Tables.{drop_at, keys_in};
ghost use Rattle.std.specs.Prelude.{◌≡◌, ◌&&◌, ◌++◌, IfOk, OnOk, Some, filter, fold};

use pim_ip::write_pim_packet;
use pim_state::{Meter, World};
use pim_types::fact::{AssertRole, AssertRow};
use pim_types::{Addr, Emission, IfaceId, Key, Series};
use std::alloc::{AllocError, Global};

// A Hello with a holdtime of 0 s, and no other option (RFC 7761, sections 4.3.1 and 4.9.2).
const GOODBYE: [u8; 10] = [0x20, 0, 0xdf, 0xfc, 0, 1, 0, 2, 0, 0];

// The time to live of a message that stays on its link.
const LINK_TIME_TO_LIVE: u8 = 1;

// Whether the interface has another address in the next world.
fn is_readdressed(world: &World, next: &World, iface: IfaceId) -> bool
    ensures { result ≡ is_readdressed world.now next.now.configured iface.number }
{
    world.address(iface) != next.address(iface)
}

// The goodbye of the interface, from its address.
#[tactic(auto, unfolding(law_states::specs::Reloading::goodbye, pim_model::specs::Writing::pim_on_link))]
fn goodbye(world: &World, alloc: Global, iface: IfaceId) -> Result<Emission, AllocError>
    ensures { IfOk result (λ e. e ≡ goodbye world.now iface.number) }
{
    let source = world.address(iface);
    let mut packet = Vec::new(alloc);
    write_pim_packet(
        LINK_TIME_TO_LIVE,
        source,
        Addr::ALL_PIM_ROUTERS,
        &GOODBYE,
        &mut packet,
    )?;
    let bytes = Series::from_vec(packet);
    Ok(Emission::Link { iface, bytes })
}

// Whether the interface is up, and has another address in the next world.
#[tactic(auto, unfolding(law_states::specs::Reloading::leaves_address))]
fn leaves_address(world: &World, next: &World, iface: IfaceId) -> bool
    ensures { result ≡ leaves_address world.now next.now.configured iface.number }
{
    world.interfaces().is_up(iface) && is_readdressed(world, next, iface)
}

/// Puts a goodbye behind what is sent for each interface that is up and has another address in the next world. The error
/// is want of memory.
#[tactic(auto, unfolding(law_states::specs::Reloading::goodbyes))]
pub(crate) fn say_goodbye(
    world: &World,
    alloc: Global,
    next: &World,
    sent: &mut Vec<Emission>,
) -> Result<(), AllocError>
    ensures { OnOk result (sent.new.items ≡ sent.old.items ++ goodbyes world.now next.now.configured) }
{
    for number in 0..next.interfaces().count() {
        let iface = IfaceId { number };
        if leaves_address(world, next, iface) {
            sent.push(goodbye(world, alloc, iface)?)?;
        }
    }
    Ok(())
}

// Whether the assert was won on an interface that has another address in the next world.
#[tactic(auto, unfolding(law_states::specs::Reloading::is_won_before))]
fn is_won_before(world: &World, next: &World, key: Key, row: AssertRow) -> bool
    ensures { result ≡ is_won_before world.now next.now.configured (key, row) }
{
    matches!(row.role, AssertRole::Winner) && is_readdressed(world, next, key.iface)
}

/// The keys of the asserts that were won on interfaces that have another address in the next world, ascending. The error
/// is want of memory.
pub(crate) fn won_before(world: &World, alloc: Global, next: &World) -> Result<Vec<Key>, AllocError>
    ensures { IfOk result (λ keys. keys.items
        ≡ keys_in (filter (is_won_before world.now next.now.configured) world.now.asserts)) }
{
    let mut keys = Vec::new(alloc);
    for (key, row) in world.store().assert_rows() {
        if is_won_before(world, next, *key, *row) {
            keys.push(*key)?;
        }
    }
    Ok(keys)
}

/// Forgets the asserts under these keys. The meter rises by the nodes visited.
pub(crate) fn forget_asserts(world: &mut World, meter: &mut Meter, keys: &[Key])
    ensures { world.new ≡ record world.old { asserts = fold drop_at world.old.asserts keys.now } }
{
    for key in keys {
        world.store_mut().drop_assert(*key, meter);
    }
}
