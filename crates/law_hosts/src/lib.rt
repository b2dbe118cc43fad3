//! What hosts may count on: a group of an older host is held until its time, and a member of a group that answers the
//! querier keeps its record, over reloads too; a data plane whose router has a front for older hosts is sound.
#![tactic(auto)]

mod behind;
mod members;
pub mod older_hosts;

pub use behind::{
    plain_acts_behind_are_right, plane_behind_front_is_sound, telling_again_only_looks,
};
pub use members::member_keeps_its_record;
