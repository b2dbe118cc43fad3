//! What becomes of a network some time after the last change: on what the routers of a link agree, which groups each of
//! them knows, when a group that its hosts left is gone, what each next hop holds, which of several senders is left, how
//! long the loser of an assert stays one, whom a router joins over, that each packet comes once to each member's link, who
//! asked for what else comes, and which Prune of a source never takes effect. Laws of the definitions, each the contract
//! of a function with nothing to do.
#![tactic(auto)]

pub mod asserts;
pub mod elections;
pub mod joins;
pub mod members;
pub mod networks;
pub mod next_hops;
pub mod overrides;
pub mod routes;
pub mod runs;
pub mod served;
pub mod ways;
