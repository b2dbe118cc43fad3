//! Hellos (RFC 7761, section 4.3): what a received Hello changes, whether there is room for its neighbour, what depends
//! on a neighbour, and which timers expire.
#![tactic(auto)]

pub mod election;
pub mod full;
pub mod hello;
pub mod hello_timers;
mod restarted;
mod served;
pub mod towards;

pub use election::{end_keeps_dr, hello_keeps_dr};
pub use full::is_full;
pub use hello::{received, triggered_end};
pub use hello_timers::fired;
pub use restarted::asserts_lost_to;
pub use towards::{keys_of_end, keys_of_hello};
