//! The upstream machine of (S,G,rpt) (RFC 7761, section 4.5.7), and what it has in common with those of (*,G) and (S,G)
//! (sections 4.5.4 and 4.5.5): what becomes of a timer, and a Join/Prune to an upstream neighbour.
#![tactic(auto)]

pub mod change;
pub mod machine;
pub mod message;
pub mod override_timer;

pub use change::Change;
pub use machine::changed;
pub use override_timer::fired;
