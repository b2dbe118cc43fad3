//! PIM version 2 messages (RFC 7761, section 4.9): read as views that take no memory, and written.
#![tactic(auto)]

pub mod assert;
mod encoded;
pub mod hello;
pub mod join_prune;
pub mod register;
pub mod view;

pub use assert::{Assert, write_assert};
pub use hello::{DEFAULT_HOLDTIME, HOLDTIME_FOREVER, Hello, write_hello};
pub use join_prune::{
    Entries, Entry, EntryKind, GroupView, Groups, JoinPruneView, write_join_prune,
};
pub use register::{
    RegisterStop, RegisterView, write_null_register, write_register, write_register_stop,
};
pub use view::{PimView, read_pim};
