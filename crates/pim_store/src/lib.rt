//! All PIM facts of the router, by interface, group and source.
#![tactic(auto)]

mod changes;
mod entry;
mod index;
pub mod join_timers;
pub mod marks;
mod rare;
mod rows;
pub mod store;
mod telling;
pub mod walks;

pub use join_timers::{GroupJoinTimers, JoinTimerRows};
pub use marks::Marks;
pub use store::Store;
pub use walks::Sources;
