//! The kinds of timers, in the order in which they expire, and the timer of a fact.
use crate::fact::Key;

/// The kinds of timers. Timers with the same timestamp expire in this order.
#[derive(Clone, Copy, PartialEq, Eq, PartialOrd, Ord, Hash)]
pub enum TimerKind {
    Neighbour = 1,
    PrunePending = 2,
    DownstreamExpiry = 3,
    GroupRecord = 4,
    SourceRecord = 5,
    Assert = 6,
    Keepalive = 7,
    Register = 8,
    Override = 9,
    Join = 10,
    OtherQuerier = 11,
    GroupRepeat = 12,
    SourceRepeat = 13,
    GeneralQuery = 14,
    Hello = 15,
}

/// The timer of a fact. Timers compare by their kinds, and timers of one kind by their keys.
#[derive(Clone, Copy, PartialEq, Eq, PartialOrd, Ord, Hash)]
pub struct Timer {
    pub kind: TimerKind,
    pub key: Key,
}
