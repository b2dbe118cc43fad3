//! What the router sends: messages as its machines make them, in their order, and the packets that they become.
#![tactic(auto)]

pub mod data;
mod message;
pub mod outbox;
mod packet;
pub mod room;

pub use data::{copy_on_link, register_of_copy};
pub use outbox::{MOST_ENTRIES, MOST_SOURCES, Outbox};
pub use room::Room;
