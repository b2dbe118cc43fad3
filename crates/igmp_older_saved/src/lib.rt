//! A router's saved state with its groups of older hosts: which rows of these are saved, their bytes in front of the
//! router's, and what is tested of bytes that are read.
#![tactic(auto)]

mod host;
mod hosts;
mod laws;
mod reading;
mod refusal;
mod runs;
mod writing;

pub use host::HostRow;
pub use hosts::{are_held, resumed_rows, saved_hosts};
pub use laws::{held_reading_is_text, held_text_is_read, hosts_are_resumed, saved_hosts_are_held};
pub use reading::open_saved;
pub use refusal::HeldRefusal;
pub use runs::{saved_host_has_bytes, saved_host_is_known};
pub use writing::write_saved;
