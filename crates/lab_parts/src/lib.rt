//! What a lab has beside its routers: what carries packets between the ports of a network, the stations, the frames on
//! their way, and the lines of both.
#![tactic(auto)]

mod frames;
mod learned;
mod line;
mod lines;
pub mod memory;
mod names;
mod standing;
mod station;
mod table;
mod trouble;
pub mod udp;
pub mod wire;

pub use frames::{Delivery, Departure, Frame, Frames};
pub use learned::{ElectedLine, HeardLine, LearnedLine, Learning};
pub use line::{BadSetsLine, GuardedLine, MoveLine, PacketLine, Way};
pub use lines::Lines;
pub use memory::MemoryWire;
pub use names::Names;
pub use standing::{GoneLine, HeldLine, RoleLine, ToldLine, candidacy_of};
pub use station::{Fronts, Owed, Reloaded, Station, link_numbers};
pub use table::{OlderLine, RowLine};
pub use trouble::Trouble;
pub use udp::{UdpWire, failures_after};
pub use wire::{Wire, carry};
