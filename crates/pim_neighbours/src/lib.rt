//! What a router knows of its PIM neighbours (RFC 7761, section 4.3): who they are, whether it is
//! the DR, and the delays of each link.
#![tactic(auto)]

pub mod delays;
pub mod neighbours;

pub use delays::delay_in;
pub use neighbours::{Neighbours, holdtime_end, is_better_dr, row_of_hello};
