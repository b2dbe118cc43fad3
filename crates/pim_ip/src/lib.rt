//! IPv4 for the router: addresses, prefixes, packets read and written, the refusals and faults of all crates above, and
//! the delays of a LAN, which are part of messages and of facts.
#![tactic(auto)]

pub mod addr;
pub mod checksum;
pub mod fault;
pub mod ipv4;
pub mod lan;
pub mod refusal;
pub mod write;

pub use addr::{Addr, Prefix};
pub use checksum::{set_checksum, sum16};
pub use fault::Fault;
pub use ipv4::{
    FRAME_LIMIT, Ipv4View, PACKET_LIMIT, PROTOCOL_IGMP, PROTOCOL_PIM, read_ipv4, write_copy,
};
pub use lan::LanDelay;
pub use refusal::Refusal;
pub use write::{ControlHeader, write_header, write_igmp_packet, write_pim_packet};
