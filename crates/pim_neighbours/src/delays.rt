//! The delays of a link, and delays that a number draws.
ghost use Rattle.std.specs.Prelude.{◌≡◌, ◌≤◌};
ghost use Rattle.pim_model.specs.Tables.{delay_in};

use pim_types::InterfaceConfig;

/// The delays of a link (RFC 7761, section 4.3.3), in ms.
#[derive(Clone, Copy)]
pub(crate) struct Delays {
    pub(crate) propagation_delay: u32,
    pub(crate) override_interval: u32,
}

impl Delays {
    /// The delays that count for a neighbour that announced none.
    pub(crate) const DEFAULT: Delays = Delays {
        propagation_delay: InterfaceConfig::DEFAULT_PROPAGATION_DELAY,
        override_interval: InterfaceConfig::DEFAULT_OVERRIDE_INTERVAL,
    };
}

/// The delay from `least` to `most` that the number draws, both in ms.
#[tactic(auto, unfolding(pim_model::specs::Tables::delay_in))]
pub fn delay_in(least: u32, most: u32, draw: u32) -> u64
    requires { least ≤ most }
    ensures value { result ≡ delay_in least most draw }
    ensures within { result ≤ most }
{
    let choices = u64::from(most - least) + 1;
    u64::from(least) + u64::from(draw) % choices
}
