//! The Hellos that leave at once where a configuration is replaced.
ghost use Rattle.law_states.specs.Reloading.{hellos_anew, says_other, says_same, tells_anew};
ghost use Rattle.std.specs.Prelude.{◌≡◌, ◌++◌, OnOk};

use pim_messages::Outbox;
use pim_state::World;
use pim_types::{IfaceId, InterfaceConfig};
use std::alloc::AllocError;

// Whether a Hello of the interface says the same by both configurations.
#[tactic(auto, unfolding(law_states::specs::Reloading::says_same))]
fn says_same(before: InterfaceConfig, after: InterfaceConfig) -> bool
    ensures { result ≡ says_same before after }
{
    before.address == after.address
        && before.priority == after.priority
        && before.propagation_delay == after.propagation_delay
        && before.override_interval == after.override_interval
}

// Whether an interface is in both configurations, and its Hello says something else by the second.
fn says_other(before: Option<InterfaceConfig>, after: Option<InterfaceConfig>) -> bool
    ensures { result ≡ says_other before after }
{
    match before {
        Some(before) => match after {
            Some(after) => !says_same(before, after),
            None => false,
        },
        None => false,
    }
}

// Whether the interface is up, and its Hello says something else by the configuration of the next world.
#[tactic(auto, unfolding(law_states::specs::Reloading::tells_anew, pim_model::specs::State::iface_config))]
fn tells_anew(world: &World, next: &World, iface: IfaceId) -> bool
    ensures { result ≡ tells_anew world.now next.now.configured iface.number }
{
    if !world.interfaces().is_up(iface) {
        return false;
    }
    says_other(
        world.interfaces().config(iface),
        next.interfaces().config(iface),
    )
}

/// Says the Hellos that leave at once by the configuration of the next world.
#[tactic(auto, unfolding(law_states::specs::Reloading::hellos_anew))]
pub(crate) fn tell(world: &World, out: &mut Outbox, next: &World) -> Result<(), AllocError>
    ensures { OnOk result (out.new ≡ out.old ++ hellos_anew world.now next.now.configured) }
{
    for number in 0..next.interfaces().count() {
        let iface = IfaceId { number };
        if tells_anew(world, next, iface) {
            out.hello(iface)?;
        }
    }
    Ok(())
}
