//! The downstream states (RFC 7761, sections 4.5.1 to 4.5.3). A Join/Prune to the router as one message: the keys that
//! it names, whether the rows that it would make pass the limit on facts, and the states after it. Also what the expiry
//! of their timers changes.
#![tactic(auto)]

pub mod downstream_timers;
pub mod effect;
pub mod entry;
pub mod full;
mod indexed;
pub mod message;
pub mod named;
pub mod row;
mod rpt;

pub use downstream_timers::fired;
pub use effect::{Change, Effect};
pub use entry::{is_accepted, is_used};
pub use full::is_full;
pub use message::{take_changes, to_me};
pub use named::Named;
