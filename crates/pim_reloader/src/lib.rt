//! Another configuration in a router that works, as the specification (law_states) says.
#![tactic(auto)]

mod addresses;
mod hellos;
mod moved;
mod numbering;
mod places;
mod queriers;
mod remove;
mod replace;
mod same;
mod whole;

pub use places::reload_places;
pub use whole::reload;
