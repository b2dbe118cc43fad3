//! The querier of an interface (RFC 3376, sections 6 and 8): how it starts, and what the expiry of its timers changes.
//!
//! In names here and in `pim_filters`, `named` is what a record of a report names: its group, the sources that it
//! lists, and the keys of both. `asked` are the queries that a record requests, and `sent` is what a query lists.
#![tactic(auto)]

mod applying;
pub mod asked;
pub mod election;
pub mod firing;
pub mod intervals;
mod looked;
pub mod lowering;
mod moving;
pub mod named;
pub mod overheard;
pub mod place;
pub mod queries;
pub mod records;
pub mod repeats;
pub mod report;
pub mod sendings;
pub mod startup;

pub use firing::fired;
pub use moving::{all_keep_modes, moved_sources};
pub use named::{is_full, named_keys};
pub use overheard::query_seen;
pub use report::{is_skipped, report_seen};
pub use startup::up;
