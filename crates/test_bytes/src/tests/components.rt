//! Parts by themselves: with memory their calls succeed.
use igmp_wire::RecordType;
use pim_filters::{Asking, GroupRecord, SourceState};
use pim_timers::{SortedTimers, Timers, Wheel};
use pim_types::{Addr, IfaceId, Key, Timer, TimerKind};
use std::alloc::AllocError;
use std::process::Abort;
use std::test::Fail;

const FIRST: Addr = Addr { bits: 0x0a00_0001 };

const SECOND: Addr = Addr { bits: 0x0a00_0002 };

fn timer(kind: TimerKind) -> Timer {
    let key = Key {
        iface: IfaceId { number: 0 },
        group: Addr { bits: 0xe101_0101 },
        source: None,
        rpt: false,
    };
    Timer { kind, key }
}

// What is compared stands in functions of its own: a body with many comparisons proves slowly.
fn pops<T: Timers>(rt: &impl Abort, timers: &mut T, now: u64, kind: Option<TimerKind>) {
    let want = match kind {
        Some(kind) => Some((now, timer(kind))),
        None => None,
    };
    assert!(rt; timers.pop_due(now) == want);
}

fn holds_three<T: Timers>(rt: &impl Abort, timers: &T) {
    assert_eq!(rt; timers.len(), 3);
    assert_eq!(rt; timers.get(timer(TimerKind::Join)), Some(5));
}

fn holds_the_last<T: Timers>(rt: &impl Abort, timers: &T) {
    assert!(rt; timers.next() == Some((1 << 62, timer(TimerKind::Neighbour))));
}

fn is_empty<T: Timers>(rt: &impl Abort, timers: &T) {
    assert!(rt; timers.is_empty());
}

fn set_three<T: Timers>(timers: &mut T) -> Result<(), AllocError> {
    timers.set(timer(TimerKind::Join), 5)?;
    timers.set(timer(TimerKind::GroupRecord), 5)?;
    timers.set(timer(TimerKind::Neighbour), 1 << 62)
}

fn fires_in_order<T: Timers>(rt: &impl Abort, timers: &mut T) -> Result<(), Fail> {
    set_three(timers)?;
    holds_three(rt, timers);
    pops(rt, timers, 4, None);
    pops(rt, timers, 5, Some(TimerKind::GroupRecord));
    pops(rt, timers, 5, Some(TimerKind::Join));
    pops(rt, timers, 5, None);
    holds_the_last(rt, timers);
    timers.cancel(timer(TimerKind::Neighbour));
    is_empty(rt, timers);
    Ok(())
}

#[test]
fn sorted_timers_fire_in_order(rt: HostRuntime) -> Result<(), Fail> {
    fires_in_order(&rt, &mut SortedTimers::new(rt.alloc()))
}

#[test]
fn a_wheel_fires_in_order(rt: HostRuntime) -> Result<(), Fail> {
    fires_in_order(&rt, &mut Wheel::new(rt.alloc())?)
}

fn report(record: &mut GroupRecord) -> Result<(), AllocError> {
    let mut asked = Asking::new();
    record.apply(RecordType::ToExclude, &[SECOND], 100_000, &mut asked)?;
    record.apply(RecordType::Allow, &[FIRST], 90_000, &mut asked)
}

fn has_taken_the_report(rt: &impl Abort, record: &GroupRecord) {
    assert_eq!(rt; record.timer(), Some(100_000));
    assert!(rt; record.source_state(FIRST) == SourceState::Included(90_000));
    assert!(rt; record.source_state(SECOND) == SourceState::Excluded);
}

#[test]
fn a_group_record_takes_a_report(rt: HostRuntime) -> Result<(), Fail> {
    let mut record = GroupRecord::new(rt.alloc());
    report(&mut record)?;
    has_taken_the_report(&rt, &record);
    Ok(())
}
