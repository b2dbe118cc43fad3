//! What follows from an event: from the keys that it touches, which sources it reaches and names, and which rows of
//! a forwarding cache change.
#![tactic(auto)]

pub mod kept;
pub mod named;
pub mod neighbours;
pub mod plain;
pub mod scope;
