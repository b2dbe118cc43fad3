//! Why a session's router isn't put under another configuration.
use pim_types::Refusal;

/// Why a session's router wasn't put under another configuration. Nothing has changed.
#[derive(Clone, Copy, Debug)]
pub enum ReloadRefusal {
    /// The configuration is refused, or the map of places.
    Configuration(Refusal),
    /// The sets of RPs that share an address don't fit the configuration's addresses.
    SetsDontFit,
}
