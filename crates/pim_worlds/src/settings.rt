//! Whether the settings that a world is under are accepted.
ghost use Rattle.law_states.specs.Reload.{config_of};
ghost use Rattle.pim_model.specs.Limits.{is_querier_config};
ghost use Rattle.pim_state.specs.Configurations.{settings_test};
ghost use Rattle.pim_worlds.specs.Resuming.{are_settings_accepted};
ghost use Rattle.std.specs.Prelude.{◌≡◌};

use pim_ifaces::{test_delays, test_interfaces};
use pim_state::World;
use pim_types::Refusal;

// The limit on counted facts is at most this.
const MOST_FACTS: u32 = 1_000_000;

// The longest query interval, in seconds, and response interval, in tenths of a second.
const LONGEST_INTERVAL: u32 = 31_744;

// Whether the querier's values are in their ranges.
#[tactic(auto, unfolding(pim_model::specs::Limits::is_querier_config, law_states::specs::Reload::config_of))]
fn has_querier_values(world: &World) -> bool
    ensures { result ≡ is_querier_config (config_of world.now) }
{
    let settings = world.settings();
    (2..=7).contains(&settings.robustness)
        && (1..=LONGEST_INTERVAL).contains(&settings.query_interval)
        && (1..=LONGEST_INTERVAL).contains(&settings.query_response_interval)
        && u64::from(settings.query_response_interval) < 10 * u64::from(settings.query_interval)
        && (1..=255).contains(&settings.last_member_query_interval)
}

// Tests the configuration that the world is under but for its routes and RP ranges: the refusal names the first test that
// fails.
#[tactic(auto, unfolding(pim_state::specs::Configurations::settings_test, pim_ifaces::specs::Interfaces::interfaces_test, pim_ifaces::specs::Interfaces::delays_test, law_states::specs::Reload::config_of))]
fn test_settings(world: &World) -> Result<(), Refusal>
    ensures { result ≡ settings_test (config_of world.now) }
{
    let configured = world.interfaces().configured();
    test_interfaces(configured)?;
    let limit = world.settings().limit;
    if limit < 1 || limit > MOST_FACTS {
        return Err(Refusal::BadLimit);
    }
    if !has_querier_values(world) {
        return Err(Refusal::BadQuerier);
    }
    test_delays(configured)
}

/// Whether the configuration that the world is under is accepted, but for its routes and RP ranges.
pub(crate) fn are_settings_accepted(world: &World) -> bool
    ensures { result ≡ are_settings_accepted world.now }
{
    test_settings(world).is_ok()
}
