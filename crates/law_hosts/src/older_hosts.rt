//! What holds of the groups of older hosts after every event. Laws of the definitions, each the contract of a function
//! with nothing to do.
ghost use Rattle.law_hosts.specs.Held.{EventKeepsHeld, HeldIsServed, OlderBegins, RunKeepsHeld};
ghost use Rattle.law_hosts.specs.Staying.{EventKeepsOpen, EventKeepsTimer};
ghost use Rattle.law_hosts.specs.Sure.{NobodyIsSure, RunIsSure, StepIsSure, TimeForgets};

/// A group that is open stays open, but for what may close it.
#[tactic(auto, using(crate::proofs::Events::event_keeps_open))]
pub fn event_keeps_open()
    ensures { EventKeepsOpen }
{}

/// The group timer of a record is as it was, but for what may change it.
#[tactic(auto, using(crate::proofs::Stays::event_keeps_timer))]
pub fn event_keeps_timer()
    ensures { EventKeepsTimer }
{}

/// A group of an older host stays held, but for what may end that.
#[tactic(auto, using(crate::proofs::Held::event_keeps_held))]
pub fn event_keeps_held()
    ensures { EventKeepsHeld }
{}

/// A group that is held is held after any list of events of `MayHold`.
#[tactic(auto, using(crate::proofs::Held::run_keeps_held))]
pub fn run_keeps_held()
    ensures { RunKeepsHeld }
{}

/// A held group is served from every source.
#[tactic(auto, using(crate::proofs::Held::held_is_served))]
pub fn held_is_served()
    ensures { HeldIsServed }
{}

/// A report of an older host that the router takes holds its group.
#[tactic(auto, using(crate::proofs::Begins::older_begins))]
pub fn older_begins()
    ensures { OlderBegins }
{}

/// Where no older host is known, no row is looked at too late.
pub fn nobody_is_sure()
    ensures { NobodyIsSure }
{}

/// After every event the rows of older hosts are looked at in time.
pub fn step_is_sure()
    ensures { StepIsSure }
{}

/// After any list of events the rows of older hosts are looked at in time (`IsSure`).
pub fn run_is_sure()
    ensures { RunIsSure }
{}

/// A row of an older host goes when its timers have expired or its group has no record, and not before.
pub fn time_forgets()
    ensures { TimeForgets }
{}
