//! IGMPv3 group records: what is known of a group's sources on one link, and what the records of a
//! report change there (RFC 3376, section 6.4).
#![tactic(auto)]

pub mod asking;
mod case;
pub mod group_record;
pub mod member;
mod names;
mod rule;

pub use asking::Asking;
pub use group_record::GroupRecord;
pub use member::{Member, SourceState};
