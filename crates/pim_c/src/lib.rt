//! The router in other programs: a static library whose functions C calls. `include/viqeshor/viqeshor.h` describes each
//! of them.
#![tactic(auto)]

pub mod advertised;
pub mod bootstraps;
pub mod calls;
pub mod candidacies;
pub mod candidacy_place;
pub mod given;
pub mod handle;
pub mod learned;
pub mod listener_place;
pub mod listening;
pub mod place;
pub mod pointed;
pub mod recorded;
pub mod returned;
pub mod rows;
pub mod sources;
pub mod standing;
pub mod stands;
pub mod trees;
