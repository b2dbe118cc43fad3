//! Anycast RP (RFC 4610) before a router: several routers are the RP of a group under one shared address, and each sends
//! the others the Registers that come to it, so that all know the group's sources.
//!
//! # What a program calls, in order
//!
//! [`Anycast`] keeps no facts: what it says follows of its sets and of the router's state. Without a set it gives
//! everything as it came, sends nothing and takes no memory. A guard stands before it, a front for older hosts beside it:
//! that one reads packets on links alone, and this one packets by unicast.
//!
//! - **A packet by unicast**: [`Anycast::take_unicast`] before the event. The router is given the packet as it came, or the
//!   one in [`Passed::Counted`]; the copies of [`Passed::Copied`] leave before what the router sends, whatever it answers.
//! - **A packet on a link**, and one that a data plane reports as seen: [`Anycast::is_announced`] for its source and its
//!   group before the event, and [`Anycast::announce_new`] with that answer after it. What it returns leaves after what the
//!   router sends.
//! - **Time**: the router's next timer and [`Anycast::next`] of the router's present time; whichever comes first is when
//!   the program gives the time. After the event [`Anycast::announce_due`], with the timestamp before it; what it returns
//!   leaves after what the router sends.
//! - **Settings**: [`Anycast::of`] makes another front of other sets, or refuses them, and then the old one stays.
//! - **A reload**: [`Anycast::fits`] of the new configuration's addresses, before it; where the sets don't fit, the reload is
//!   refused. A program that takes an address from its router sets other sets first.
//! - **A saved state** has nothing of the front. A restored router gets its sets by [`Anycast::of`], as it does at first.
#![tactic(auto)]

pub mod announce;
mod configured;
pub mod front;
pub mod laws;
pub mod members;
pub mod rendezvous;
pub mod set;

pub use announce::ANNOUNCEMENT_INTERVAL;
pub use front::{Anycast, Passed};
pub use rendezvous::{OwnAddresses, Rendezvous};
pub use set::{BadRpSet, MOST_OTHERS, RpSet, are_rp_sets};
