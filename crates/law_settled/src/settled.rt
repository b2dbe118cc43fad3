//! Laws of the definitions, each the contract of a function with nothing to do.

ghost use Rattle.law_settled.specs.Ready.{FiringIsLawful, InstantIsLawful, OneFiringIsLawful, OpeningIsSettled, RunIsSettled, SettledIsLawful, SettlingIsLawful, StepIsSettled, StepStaysAhead};

/// With an accepted configuration the router's opening is settled.
pub fn opening_is_settled()
    ensures { OpeningIsSettled }
{}

/// Every event leaves a settled state settled.
pub fn step_is_settled()
    ensures { StepIsSettled }
{}

/// After any events from the opening with an accepted configuration the state is settled.
pub fn run_is_settled()
    ensures { RunIsSettled }
{}

/// What is settled is lawful.
pub fn settled_is_lawful()
    ensures { SettledIsLawful }
{}

/// What follows from a change of a lawful state leaves a lawful state.
pub fn settling_is_lawful()
    ensures { SettlingIsLawful }
{}

/// The expiry of one timer leaves a lawful state lawful.
pub fn one_firing_is_lawful()
    ensures { OneFiringIsLawful }
{}

/// The expiry of all timers that are due at a timestamp leaves a lawful state lawful.
pub fn instant_is_lawful()
    ensures { InstantIsLawful }
{}

/// The expiry of all timers that are due by a timestamp leaves a lawful state lawful.
pub fn firing_is_lawful()
    ensures { FiringIsLawful }
{}

/// After an event other than Advance all timers still expire later than the present time, which is unchanged.
pub fn step_stays_ahead()
    ensures { StepStaysAhead }
{}
