//! What an event is judged to be, before anything changes: each refusal and each reason to ignore one, or what the
//! router is to act on.
#![tactic(auto)]

pub mod event;
pub mod frame;
mod igmp;
pub mod lent;
mod message;
pub mod plain;
mod unicast;

pub use event::judge;
pub use frame::judge_frame;
pub use lent::LentEvent;
pub use plain::PlainWorld;
