//! A network of routers over a wire: events at one router, and deliveries of any packet that was ever sent.
#![tactic(auto)]

pub mod moves;
pub mod net;
mod network;
pub mod node;
mod station;
pub mod unrestored;

pub use lab_parts::{MemoryWire, UdpWire, Wire, failures_after};
pub use moves::Move;
pub use net::{Net, NetLog};
pub use node::{Node, Renewal};
pub use pim_router::Router;
pub use unrestored::Unrestored;
