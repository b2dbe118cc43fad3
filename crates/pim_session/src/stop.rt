//! Why a session takes no event.
use pim_types::Fault;

/// Why a session took no event.
#[derive(Clone, Copy, Debug)]
pub enum Stop {
    /// Packets of the event before are untaken. Nothing has changed.
    Untaken,
    /// The guard stopped it. The router's state is as it was, and nothing is sent.
    Guarded,
    /// The router has failed, at this event or at an earlier one.
    Fault(Fault),
}
