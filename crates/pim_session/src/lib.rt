//! A router with the packets that it sent last, which are taken one by one before the next event, and the rows that were
//! read last. Hosts and routers of older versions of IGMP may be heard before it.
#![tactic(auto)]

mod asked;
mod behind;
pub mod front;
pub mod laws;
pub mod refused;
mod saved;
pub mod session;
mod shared;
mod sources;
pub mod stop;

pub use front::Front;
pub use refused::ReloadRefusal;
pub use session::Session;
pub use stop::Stop;
