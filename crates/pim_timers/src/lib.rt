//! Timers: when each of them expires, and which of them is next. Timers with the same timestamp expire in the order of
//! their kinds, and those of one kind in the order of their keys. A queue holds only timestamps with their timers, for
//! callers that know when their timers expire (`Schedule`); `Timers` knows this by itself.
#![tactic(auto)]

mod dues;
pub mod law;
mod moments;
pub mod queue;
pub mod schedule;
pub mod sorted;
pub mod timers;
pub mod wheel;

pub use queue::Queue;
pub use schedule::Schedule;
pub use sorted::SortedTimers;
pub use timers::Timers;
pub use wheel::Wheel;
