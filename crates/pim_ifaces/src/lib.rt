//! The configured interfaces of a router, and the rows of those that are up.
#![tactic(auto)]

mod configured;
pub mod interfaces;
pub mod limits;

pub use interfaces::Interfaces;
pub use limits::{MOST_INTERFACES, are_own_addresses, test_delays, test_interfaces};
