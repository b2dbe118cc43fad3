//! The plan of an event, made before its change: whether there is room for the facts that it names, which keys its change
//! touches, and what it is to do.
#![tactic(auto)]

pub mod act;
mod again;
mod joins;
pub mod plan;
mod reports;

pub use act::{Act, Control};
pub use plan::{Plan, Planning, planned};
