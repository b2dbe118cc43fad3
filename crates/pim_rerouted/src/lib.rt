//! Which keys new routes and RP ranges touch, whether an interface that goes up or down may touch any, and whether keys
//! are so few that they are named one by one.
#![tactic(auto)]

mod changed;
pub mod few;
pub mod rerouted;
pub mod switched;

pub use few::{are_many, few_or_all};
pub use rerouted::{
    group_has_other_rp, has_other_route, is_group_moved, touched_by_routes, touched_by_rps,
};
pub use switched::{is_in_use, may_lead_over};
