//! The values of the router: its configuration, the events that it takes, its answers and packets, the rows of its
//! facts with their one key. There is no behaviour here.
//!
//! Times are timestamps in milliseconds, unless another unit is named.
#![tactic(auto)]

pub mod config;
pub mod event;
pub mod fact;
pub mod name;
pub mod outcome;
pub mod path;
pub mod series;
pub mod timer;
pub mod upstream;

pub use config::{
    Config, IfaceId, InterfaceConfig, Route, RpCandidate, RpRange, RpTable, Settings, SptSwitch,
};
pub use event::{Event, EventKind};
pub use fact::Key;
pub use name::SourceGroup;
pub use outcome::{Emission, Ignored, Outcome, Stop, Verdict};
pub use path::{Hop, Path};
pub use pim_ip::{Addr, Fault, LanDelay, Prefix, Refusal};
pub use series::{Lent, Series};
pub use timer::{Timer, TimerKind};
pub use upstream::{SourceView, StarView, TreeState};
