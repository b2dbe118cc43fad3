//! Sets of interfaces, with the register tunnel: the outgoing lists of RFC 7761, section 4.1.5, and
//! the sets that they are made of.
#![tactic(auto)]

pub mod iter;
pub mod law;
pub mod set;

pub use iter::Iter;
pub use set::IfSet;
