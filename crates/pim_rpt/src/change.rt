//! What becomes of a timer, as an upstream machine decides.

/// What becomes of a timer; timestamps in ms.
#[derive(Clone, Copy)]
pub enum Change {
    Keep,
    Cancel,
    SetTo(u64),
    /// The override timer is to expire at this timestamp at the latest; if it doesn't run, it starts.
    LowerTo(u64),
}
