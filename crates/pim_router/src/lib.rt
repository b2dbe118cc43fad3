//! The router: it takes events and sends packets, exactly as the specification (pim_model) says.
#![tactic(auto)]

mod plane;
mod probes;
pub mod router;

pub use pim_mfc::{Offered, OffloadRow};
pub use pim_rows::{Row, Table};
pub use pim_shown::{Link, Neighbour, RpfCause, SourceTree, Tree};
pub use pim_worlds::RestoreRefusal;
pub use router::Router;
