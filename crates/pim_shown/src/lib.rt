//! What the router shows: its facts as rows of printed tables; each macro of RFC 7761 of a group or of a source,
//! evaluated anew in the present state; and of an interface its DR, its querier and its neighbours.
#![tactic(auto)]

pub mod facts;
pub mod laws;
pub mod line;
pub mod link;
pub mod printed;
pub mod set;
pub mod shared;
pub mod source;
pub mod trees;
pub mod upstream;

pub use link::{Link, Neighbour};
pub use printed::rows;
pub use shared::Tree;
pub use source::SourceTree;
pub use upstream::RpfCause;
