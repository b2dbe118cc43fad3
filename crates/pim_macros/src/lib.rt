//! What the macros of RFC 7761, section 4.1.5, read of a group and of a source, gathered once from the whole state as a
//! sight. The sets and macros are methods of the sight.
#![tactic(auto)]

pub mod asserts;
pub mod desires;
pub mod forwarding;
pub mod gather;
pub mod interfaces;
pub mod registers;
pub mod rows;
pub mod sets;
pub mod sight;
pub mod updates;
pub mod views;

pub use gather::upstream_of;
pub use rows::{Evaluations, Made, SourceAnswers, row, row_by_sight};
pub use sight::{SourceSight, StarSight};
