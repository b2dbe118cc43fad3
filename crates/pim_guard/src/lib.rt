//! A guard before a router: it stops what a router would forward as data though hosts and routers read it as IGMP or PIM.
#![tactic(auto)]

pub mod guard;
pub mod laws;

pub use guard::{stops_frame, stops_unicast};
