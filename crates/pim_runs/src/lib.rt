//! Worked runs of the specification that no scenario prints, which the kernel checks by computing with the definitions:
//! of the forwarding cache, of causes, of networks that meet the premises of the laws, of a router beside a data plane,
//! and of one behind the front for older hosts. Each is the contract of a function with nothing to do.
#![tactic(auto)]

pub mod anycast;
pub mod cached;
pub mod causes;
pub mod histories;
pub mod in_time;
pub mod limits;
pub mod members;
pub mod membership;
pub mod older_held;
pub mod older_moved;
pub mod older_packets;
pub mod reached;
pub mod readings;
pub mod served;
pub mod split;
pub mod streams;
