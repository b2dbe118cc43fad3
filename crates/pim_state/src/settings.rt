//! What is configured of the whole router, and which configurations are accepted.
ghost use Rattle.std.specs.Prelude.{◌≡◌};
ghost use Rattle.pim_model.specs.Limits.{is_between, is_querier_config};
ghost use Rattle.pim_model.specs.State.{settings_of};
ghost use Rattle.pim_state.specs.Configurations.{settings_test};

use pim_ifaces::{test_delays, test_interfaces};
use pim_types::{Config, Refusal, Settings};

// The limit on counted facts is at most this.
const MOST_FACTS: u32 = 1_000_000;

// The longest query interval, in seconds, and response interval, in tenths of a second.
pub(crate) const LONGEST_INTERVAL: u32 = 31_744;

/// The settings of a configuration.
#[tactic(auto, unfolding(pim_model::specs::State::settings_of))]
pub(crate) fn settings_of(config: &Config) -> Settings
    ensures { result ≡ settings_of config.now }
{
    Settings {
        limit: config.limit,
        spt: config.spt,
        robustness: config.robustness,
        query_interval: config.query_interval,
        query_response_interval: config.query_response_interval,
        last_member_query_interval: config.last_member_query_interval,
    }
}

/// Tests a configuration but for its routes and RP ranges: the interfaces, the limit, the querier's values, the delays.
/// The refusal names the first test that fails.
#[tactic(auto, unfolding(crate::specs::Configurations::settings_test, pim_ifaces::specs::Interfaces::interfaces_test, pim_ifaces::specs::Interfaces::delays_test))]
pub fn test_settings(config: &Config) -> Result<(), Refusal>
    ensures { result ≡ settings_test config.now }
{
    test_interfaces(config.interfaces.as_slice())?;
    if config.limit < 1 || config.limit > MOST_FACTS {
        return Err(Refusal::BadLimit);
    }
    if !is_querier_config(config) {
        return Err(Refusal::BadQuerier);
    }
    test_delays(config.interfaces.as_slice())
}

// Whether the querier's values are in their ranges.
#[tactic(auto, unfolding(pim_model::specs::Limits::is_querier_config))]
fn is_querier_config(config: &Config) -> bool
    ensures { result ≡ is_querier_config config.now }
{
    (2..=7).contains(&config.robustness)
        && (1..=LONGEST_INTERVAL).contains(&config.query_interval)
        && (1..=LONGEST_INTERVAL).contains(&config.query_response_interval)
        && u64::from(config.query_response_interval) < 10 * u64::from(config.query_interval)
        && (1..=255).contains(&config.last_member_query_interval)
}
