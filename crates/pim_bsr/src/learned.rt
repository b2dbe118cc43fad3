//! What is learned of Bootstraps.
use pim_bootstrap::CandidateRp;
use pim_ip::{Addr, Prefix};

/// An RP of a range, in force.
#[derive(Clone, Copy)]
pub struct Learned {
    pub prefix: Prefix,
    /// The length of the hash function's mask.
    pub hash_length: u8,
    pub rp: Addr,
    /// The lower number is preferred.
    pub priority: u8,
    /// When its holdtime is over, in ms.
    pub end: u64,
}

/// An RP of a range, of a message whose other fragments haven't come.
#[derive(Clone, Copy)]
pub struct Part {
    pub prefix: Prefix,
    pub rp: CandidateRp,
    /// The message's BSR.
    pub bsr: Addr,
    /// The message's fragment tag.
    pub tag: u16,
    /// When it is forgotten, in ms.
    pub until: u64,
}

/// The elected BSR.
#[derive(Clone, Copy)]
pub struct Elected {
    pub bsr: Addr,
    /// The higher number is preferred.
    pub priority: u8,
    /// When its timer expires, in ms.
    pub end: u64,
}
