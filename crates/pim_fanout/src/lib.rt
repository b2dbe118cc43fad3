//! Which rows of the forwarding cache an event evaluates again: of the touched sources, those whose fact, sight or
//! register state differs between the opening and the state after clearing. The cache itself is here too, with the
//! count of what this costs.
#![tactic(auto)]

pub mod before;
pub mod cache;
mod compare;
pub mod disturbed;
pub mod evaluates;
pub mod laws;
pub mod naming;
mod once;

pub use before::{Before, Gathered, KnownSource, SourceBefore};
pub use cache::Cache;
pub use compare::{is_same_address, is_same_path};
pub use disturbed::Disturbed;
pub use evaluates::Evaluates;
pub use naming::{named, named_by_sights};
