//! Data packets (RFC 7761, section 4.2): what one that came changes, where it leaves, and as what.
#![tactic(auto)]

pub mod arrival;
pub mod leaving;
mod list;
mod source;

pub use arrival::arrived;
pub use leaving::{Leaving, copies, leave};
pub use list::is_on_list;
