//! All components of the router together: the whole state, the tables in it, and the changes that the machines make.
#![tactic(auto)]

pub mod facts;
pub mod groups;
pub mod hellos;
mod members;
mod parts;
pub mod querying;
pub mod routes;
pub mod sending;
pub mod settings;
pub mod sources;
pub mod time;
pub mod touched;
pub mod turn;
pub mod unicast;
pub mod world;

pub use pim_trie::Meter;
pub use touched::Touched;
pub use turn::Turn;
pub use world::World;
