//! What follows of a change: registers, asserts and SPTbits that must go, messages upstream, and packets.
#![tactic(auto)]

pub mod settle;
