//! What users ask of routers: what bounds answers, that nothing flows unasked, that who asks is served and stays
//! served, how the tree of a source is joined, and what comes in time. Laws of the definitions, each the contract of
//! a function with nothing to do.
#![tactic(auto)]

pub mod causes;
pub mod in_time;
pub mod promises;
pub mod served;
pub mod source_tree;
pub mod stream;
