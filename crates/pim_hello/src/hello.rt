//! A Hello that came from a neighbour, or from one that is new.
ghost use Rattle.std.specs.Prelude.{◌≡◌, ◌+◌, OnOk};
ghost use Rattle.pim_model.specs.Hellos.{hello_received, hello_triggered, neighbour_replaced, neighbour_restarted, triggered_hello_delay};
ghost use Rattle.pim_model.specs.Tables.{delay_in};

use crate::restarted::{asserts_lost_to, lower_timers, timers_towards};
use pim_neighbours::delay_in;
use pim_state::{Meter, Turn, World};
use pim_types::{Addr, Hop, IfaceId};
use pim_wire::Hello;
use std::alloc::AllocError;

// Triggered_Hello_Delay (RFC 7761, section 4.11), in ms.
const TRIGGERED_HELLO_DELAY: u32 = 5000;

/// Takes a Hello that came on an interface from an address, with a draw (RFC 7761, section 4.3.1). One from a new
/// neighbour, or from one that restarted, makes a Hello owed. Then the neighbour's row is as the Hello says. Where the
/// neighbour restarted, the asserts lost to it are removed, and the Join timers towards it are lowered. With holdtime 0
/// the neighbour is removed. The meter rises by the nodes visited. If an allocation fails, the Hello may be taken in
/// part.
#[tactic(auto, unfolding(pim_model::specs::Hellos::hello_received, pim_model::specs::Hellos::is_generation_changed))]
pub fn received(
    world: &mut World,
    turn: &mut Turn,
    meter: &mut Meter,
    iface: IfaceId,
    from: Addr,
    hello: &Hello,
) -> Result<(), AllocError>
    ensures state { OnOk result (world.new ≡ hello_received world.old iface.number from.bits hello.now turn.old.draw) }
    ensures silent { turn.new ≡ turn.old }
{
    if world.neighbours().is_generation_changed(iface, from, hello) {
        return restart(world, turn, meter, iface, from, hello);
    }
    if !world.neighbours().contains(iface, from) {
        trigger(world, iface, turn.draw)?;
    }
    world.replace_neighbour(iface, from, hello)
}

// A Hello is owed, and the Hello timer is lowered to the triggered delay.
#[tactic(auto, unfolding(pim_model::specs::Hellos::hello_triggered))]
fn trigger(world: &mut World, iface: IfaceId, draw: u32) -> Result<(), AllocError>
    ensures { OnOk result (world.new ≡ hello_triggered world.old iface.number draw) }
{
    let end = triggered_end(world, draw);
    world.owe_hello(iface, end)
}

/// When a Hello that is triggered at the present time leaves at the latest, in ms: after a delay up to
/// Triggered_Hello_Delay, which the number draws.
pub fn triggered_end(world: &World, draw: u32) -> u64
    ensures { result ≡ world.now.present + delay_in 1 triggered_hello_delay draw }
{
    world.present() + delay_in(1, TRIGGERED_HELLO_DELAY, draw)
}

// Takes a Hello of a neighbour that restarted.
#[tactic(auto, unfolding(pim_model::specs::Hellos::neighbour_restarted))]
fn restart(
    world: &mut World,
    turn: &mut Turn,
    meter: &mut Meter,
    iface: IfaceId,
    from: Addr,
    hello: &Hello,
) -> Result<(), AllocError>
    ensures state { OnOk result (world.new ≡ neighbour_restarted world.old iface.number from.bits turn.old.draw
        (neighbour_replaced (hello_triggered world.old iface.number turn.old.draw) iface.number from.bits hello.now)) }
    ensures silent { turn.new ≡ turn.old }
{
    let neighbour = Hop {
        iface,
        address: from,
    };
    // Which timers these are is judged by what was known of the neighbour, and what they are lowered to by what is
    // known after the Hello.
    let towards = timers_towards(world, turn.alloc, meter, neighbour)?;
    trigger(world, iface, turn.draw)?;
    world.replace_neighbour(iface, from, hello)?;
    // For the proof: the keys of asserts rise, so that each is listed once.
    world.proof_keyed();
    let lost = asserts_lost_to(world, turn, neighbour)?;
    world.store_mut().end_losses(&lost, meter);
    let end = world.present() + world.override_delay(iface, turn.draw);
    lower_timers(world, meter, &towards, end)?;
    Ok(())
}
