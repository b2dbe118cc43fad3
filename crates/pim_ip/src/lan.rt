//! What a neighbour says of the delays on a LAN: read in its Hello, and kept of it.

/// The LAN Prune Delay option of a Hello (RFC 7761, section 4.9.2).
#[derive(Clone, Copy)]
pub struct LanDelay {
    /// The T bit: the neighbour can turn Join suppression off.
    pub can_track: bool,
    /// In ms, 15 bits.
    pub propagation_delay: u16,
    /// In ms.
    pub override_interval: u16,
}
