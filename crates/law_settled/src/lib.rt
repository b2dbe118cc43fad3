//! What is proved of the specification for every state, and that every event keeps the state settled: tables are in the
//! order of their keys, and all timers expire later than the present time. Each law is the contract of a function with
//! nothing to do.
#![tactic(auto)]

pub mod choices;
pub mod laws;
pub mod settled;
