//! The IGMP membership facts of the router: who queries on each interface, and which groups and sources have
//! receivers there.
#![tactic(auto)]

mod index;
mod listed;
pub mod membership;
mod records;
mod repeats;
mod sendings;
mod sources;
mod stale_queries;

pub use membership::{Membership, SourceReceivers};
