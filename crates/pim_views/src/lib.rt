//! The groups and sources that an event touches: what the machines compare of them before its own change and after it.
#![tactic(auto)]

pub mod after;
pub mod opening;
pub mod sources;

pub use after::{GroupAfter, SourceAfter};
pub use opening::{GroupOpening, Opening, SourceOpening, is_whole};
pub use sources::{is_whole as is_whole_by, sources_by_keys, touched_sources};
