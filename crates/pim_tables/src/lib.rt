//! Tables of facts, each under its key, in the order of the keys. A table of facts with timers answers which timer
//! expires first.
#![tactic(auto, unfolding(pim_types::specs::Keys::key_cmp, pim_types::specs::Keys::addr_cmp, pim_model::specs::Tables::row_at, pim_model::specs::Tables::has_row, pim_model::specs::Tables::put, pim_model::specs::Tables::drop_at, pim_model::specs::Tables::drop_where, pim_model::specs::Tables::set_row, pim_model::specs::Tables::change_row, pim_model::specs::Tables::changed_entry, pim_model::specs::Tables::rows_on, pim_model::specs::Tables::keys_in))]

pub mod change;
pub mod end_queue;
mod ended;
pub mod ends;
pub mod facts;
pub mod first;
pub mod keeping;
pub mod law;
pub mod named;
pub mod placed;
mod row_ends;
pub mod rows_of;
pub mod timed;

pub use change::{Change, To};
pub use end_queue::EndQueue;
pub use ended::arm_row;
pub use ends::Ends;
pub use facts::Facts;
pub use first::earlier;
pub use keeping::{ReadRows, WriteRows};
pub use named::is_named;
pub use placed::{Placed, PlacedRows};
pub use rows_of::RowsOf;
pub use timed::Timed;
