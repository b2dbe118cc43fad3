//! The upstream machines (RFC 7761, sections 4.5.4 to 4.5.7): the messages upstream after a change, the Join timers and
//! the override timers; what the expiry of a Join timer changes; and what a Join/Prune between other routers changes.
#![tactic(auto)]

mod compound;
pub mod join_timer;
pub mod laws;
pub mod overheard;
mod source;
mod star;
mod timer;
pub mod turns;

pub use join_timer::fired;
pub use overheard::seen;
pub use turns::{changed, changed_alone};
