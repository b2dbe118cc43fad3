//! The unicast routes and the RP ranges of a router, found by longest match, and its candidate RPs.
#![tactic(auto)]

mod choice;
mod limits;
pub mod mrib;
mod prefix_list;

pub use choice::{hash_value, masked};
pub use mrib::Mrib;
