//! MSDP (RFC 3618) beside a router: what it is given for the Source-Active messages (SAs) of peers, and of which sources it
//! tells them. The sessions with peers are a program's.
//!
//! - **An SA of another RP**: [`given_active`] for each of its sources, with the router's own RP address. The router takes
//!   the packet that it answers as any that comes by unicast. A Register-Stop to the peer is among what leaves then, and isn't
//!   sent: the peer registers nothing.
//! - **A packet by unicast** that the router took: [`registered`] says of which source a DR's Register it is. An RP tells of
//!   it while Registers come.
//! - **A source with a fact**: [`is_own_source`] says whether it is on a link of which the RP is the DR.
#![tactic(auto)]

pub mod active;
pub mod laws;
pub mod own;

pub use active::{SourceActive, active_packet};
pub use own::{is_own_source, registered};
