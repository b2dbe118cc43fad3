//! Laws of the definitions, each the contract of a function with nothing to do.

ghost use Rattle.law_events.specs.KeptLaws.{EventKeepsCache, FiringKeepsCache, HeldEmits, HeldFires, HeldIsCached, OpeningIsCached, PlainEventNamesNone, PlainLeavesRows, PlainNamesNone, RouterKeepsCache, RunKeepsCache, SameAnswersDecide, StepKeepsCache, StepStaysConfigured, TakenKeepsCache};

/// After an event other than Advance, whose named rows are evaluated again, all rows are those of the state.
#[tactic(auto, using(crate::proofs::RowsOfEvents::event_keeps_cache))]
pub fn event_keeps_cache()
    ensures { EventKeepsCache }
{}

/// After the expiry of a timer, whose named rows are evaluated again, all rows are those of the state.
#[tactic(auto, using(crate::proofs::RowsOfEvents::firing_keeps_cache))]
pub fn firing_keeps_cache()
    ensures { FiringKeepsCache }
{}

/// The states after each timer that expires one by one lead to the state after the Advance.
#[tactic(auto, using(crate::proofs::RowsOfSteps::held_fires))]
pub fn held_fires()
    ensures { HeldFires }
{}

/// The cache's rows are those of the state after each timer that expires in an Advance.
pub fn held_is_cached()
    ensures { HeldIsCached }
{}

/// The cache's rows are those of the state after any accepted event.
#[tactic(auto, using(crate::proofs::RowsOfSteps::taken_keeps_cache))]
pub fn taken_keeps_cache()
    ensures { TakenKeepsCache }
{}

/// The cache's rows are those of the state after any event.
#[tactic(auto, using(crate::proofs::RowsOfSteps::step_keeps_cache))]
pub fn step_keeps_cache()
    ensures { StepKeepsCache }
{}

/// No event changes what is configured.
#[tactic(auto, using(crate::proofs::RowsOfSteps::step_stays_configured))]
pub fn step_stays_configured()
    ensures { StepStaysConfigured }
{}

/// A new router's cache has no rows, as its state has no source.
#[tactic(auto, using(crate::proofs::RowsOfSteps::opening_is_cached))]
pub fn opening_is_cached()
    ensures { OpeningIsCached }
{}

/// A plain packet names no source.
#[tactic(auto, using(crate::proofs::PlainNames::plain_names_none))]
pub fn plain_names_none()
    ensures { PlainNamesNone }
{}

/// A plain packet leaves all rows unchanged.
pub fn plain_leaves_rows()
    ensures { PlainLeavesRows }
{}

/// The cache's rows are those of the state after any list of events.
#[tactic(auto, using(crate::proofs::RowsOfRuns::run_keeps_cache))]
pub fn run_keeps_cache()
    ensures { RunKeepsCache }
{}

/// A router's rows are those of its state from the opening on.
#[tactic(auto, using(crate::proofs::RowsOfRuns::router_keeps_cache))]
pub fn router_keeps_cache()
    ensures { RouterKeepsCache }
{}

/// Equal answers decide a packet alike.
#[tactic(auto, using(crate::proofs::Decides::decide_same))]
pub fn same_answers_decide()
    ensures { SameAnswersDecide }
{}

/// The packets of the timers that expire one by one are those of the Advance.
#[tactic(auto, using(crate::proofs::RowsOfSteps::held_emits))]
pub fn held_emits()
    ensures { HeldEmits }
{}

/// A plain event, by what it does, names no source.
#[tactic(auto, using(crate::proofs::RowsOfRuns::plain_event_names_none))]
pub fn plain_event_names_none()
    ensures { PlainEventNamesNone }
{}
