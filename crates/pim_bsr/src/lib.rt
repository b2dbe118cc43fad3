//! What a router learns of RPs by Bootstraps (RFC 5059) in front of it: which messages count, what they say until when,
//! which RPs the router is given for that, and where the messages are sent on. Zones aren't built. [`Listener`] says the
//! calls that a program makes. What a candidate BSR asks of it, which is `pim_candidate`, is in [`listener`] too.
#![tactic(auto)]

pub mod arrived;
pub mod choice;
mod given;
pub mod heard;
pub mod laws;
pub mod learned;
pub mod listener;
mod reading;
pub mod refusal;
mod saved;
mod sound;
pub mod surroundings;
mod table;

pub use arrived::{Arrived, read_arrived};
pub use choice::Choice;
pub use heard::{Heard, Why};
pub use learned::{Elected, Learned, Part};
pub use listener::{Listener, MOST_RPS, send_own};
pub use refusal::ListenerRefusal;
pub use surroundings::Surroundings;
