//! The rows of the router's printed tables: their columns, and which rows a state has.
//!
//! Times are timestamps in milliseconds.
#![tactic(auto)]

pub mod table;

pub use table::{Row, Table};
