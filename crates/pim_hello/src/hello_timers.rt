//! Ends of the timers of neighbours and of Hellos.
ghost use Rattle.std.specs.Prelude.{◌≡◌, OnOk, true};
ghost use Rattle.pim_hello.specs.Ends.{is_hello_kind};
ghost use Rattle.pim_state.specs.Turns.{saying};
ghost use Rattle.pim_model.specs.Firing.{fire_row, fired};
ghost use Rattle.pim_model.specs.Hellos.{hello_due};

use pim_state::{Turn, World};
use pim_types::{Key, TimerKind};
use std::alloc::AllocError;

/// Takes the expiry of the timer of a neighbour, which is removed, or of a Hello timer (RFC 7761, section 4.3.1): a
/// Hello leaves, and the timer restarts. If an allocation fails, the expiry may be taken in part.
#[tactic(auto, unfolding(pim_model::specs::Firing::fired))]
pub fn fired(
    world: &mut World,
    turn: &mut Turn,
    kind: TimerKind,
    key: Key,
) -> Result<(), AllocError>
    requires { is_hello_kind kind ≡ true }
    ensures state { OnOk result (world.new ≡ (fired world.old kind key).0) }
    ensures messages { OnOk result (turn.new ≡ saying turn.old (fired world.old kind key).1) }
{
    match kind {
        TimerKind::Neighbour => {
            world.remove_neighbour(key);
            Ok(())
        }
        _ => restart_hello(world, turn, key),
    }
}

// Sends the Hello of the timer under the key, if there is one, and restarts the timer.
#[tactic(auto, unfolding(pim_model::specs::Firing::fire_row, pim_model::specs::Hellos::hello_due, pim_model::specs::Tables::has_row))]
fn restart_hello(world: &mut World, turn: &mut Turn, key: Key) -> Result<(), AllocError>
    ensures state { OnOk result (world.new ≡ (fire_row (λ s. s.interfaces) hello_due world.old key).0) }
    ensures messages { OnOk result (turn.new
        ≡ saying turn.old (fire_row (λ s. s.interfaces) hello_due world.old key).1) }
{
    if world.restart_hello(key)? {
        turn.out.hello(key.iface)?;
    }
    Ok(())
}
