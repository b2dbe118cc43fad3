//! Nothing flows unasked: each copy of a packet on a link has its cause in an earlier event. Laws of the definitions,
//! each the contract of a function with nothing to do.

ghost use Rattle.law_streams.specs.Asked.{NothingFlowsUnasked, RunIsAsked};
ghost use Rattle.law_streams.specs.Networks.{NetworkIsAsked};
ghost use Rattle.law_streams.specs.Told.{CauseIsAnEarlierEvent};

/// After any events from the opening with an accepted configuration, each copy that an event makes on a link has its
/// cause in an earlier event.
#[tactic(auto, using(crate::proofs::Steps::nothing_flows_unasked))]
pub fn nothing_flows_unasked()
    ensures { NothingFlowsUnasked }
{}

/// In the outcomes of a run, event by event, each copy that an event makes on a link has its cause in an earlier event.
#[tactic(auto, using(crate::proofs::Steps::run_is_asked))]
pub fn run_is_asked()
    ensures { RunIsAsked }
{}

/// A cause is an earlier event, answered Done, that requests the copy; and the interface didn't go down after it.
#[tactic(auto, using(crate::proofs::CausesTold::cause_is_an_earlier_event))]
pub fn cause_is_an_earlier_event()
    ensures { CauseIsAnEarlierEvent }
{}

/// In the moves of a new network whose nodes are accepted each router's copies have their causes among the events that
/// came to it.
#[tactic(auto, using(crate::proofs::Networks::network_is_asked))]
pub fn network_is_asked()
    ensures { NetworkIsAsked }
{}
