//! Why a router isn't put into a saved state.
use pim_worlds::RestoreRefusal;

/// Why a router of a network isn't put into a saved state.
#[derive(Clone, Copy, PartialEq, Eq, Debug)]
pub enum Unrestored {
    /// The network has no such router.
    NoRouter,
    /// No router is made of the bytes.
    Bytes(RestoreRefusal),
    /// The state is of a router with more or fewer interfaces.
    OtherInterfaces,
}
