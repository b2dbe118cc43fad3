//! One event, as the specification (pim_model) says: what it is to do, its change where there is room for its facts, and
//! what follows of the change.
#![tactic(auto)]

mod again;
pub mod change;
pub mod event;
mod hear;
mod known;
pub mod parts;
mod plain;
mod quiet;
mod rendezvous;
mod replaced;
pub mod time;

pub use event::take_in;
pub use parts::Core;
pub use replaced::Replaced;
