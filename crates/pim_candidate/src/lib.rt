//! Candidate BSRs and candidate RPs (RFC 5059), beside a router that hears Bootstraps.
#![tactic(auto)]

pub mod advertising;
pub mod candidacy;
#[cfg(test)]
mod candidacy_tests;
pub mod election;
pub mod laws;
pub mod rp_set;
#[cfg(test)]
mod tests;

pub use advertising::{ADVERTISED_HOLDTIME, Advertising};
pub use candidacy::{Candidacy, CandidacyHeard, MOST_ADVERTISED_RANGES, StandsAsBsr, StandsAsRp};
pub use election::{Action, Bsr, Election, Outcome, Role};
pub use rp_set::{Gone, Held, RpSet};
