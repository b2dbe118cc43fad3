//! The specification of the router (the machine of RFC 7761 and RFC 3376): its definitions are in `specs/`. The one
//! type here is the result of judging an event by them.
#![tactic(auto)]

pub mod accepted;

pub use accepted::Accepted;
