//! What led a router to its state, events and reloads, and what holds after any of them. Each law is the contract of a
//! function with nothing to do.
ghost use Rattle.law_states.specs.HistoryLaws.{CallIsAsked, CallsLeadOn, CountedStayWithinTheGreatest, EventsAloneAreARun, EventsAloneAreThePast, FactsStayWithinTheGreatest, LedStatesRest, NothingFlowsUnaskedOverReloads, ReadStateIsLedTo, RemovalsCopyNothing};

/// Without a reload the state is that of a run.
pub fn events_alone_are_a_run()
    ensures { EventsAloneAreARun }
{}

/// Without a reload the past is that of a run.
pub fn past_of_events()
    ensures { EventsAloneAreThePast }
{}

/// The events of a reload send no copy.
pub fn removals_copy_nothing()
    ensures { RemovalsCopyNothing }
{}

/// Over any events and reloads each copy has its cause in an earlier event.
pub fn nothing_flows_unasked_over_reloads()
    ensures { NothingFlowsUnaskedOverReloads }
{}

/// The facts that count, without the asserts, stay within the greatest limit so far.
pub fn facts_stay_within_the_greatest()
    ensures { FactsStayWithinTheGreatest }
{}

/// All facts that count stay within the greatest limit so far, once for each interface and once more.
pub fn counted_stay_within_the_greatest()
    ensures { CountedStayWithinTheGreatest }
{}

/// A router is at rest after any events and reloads.
pub fn led_states_rest()
    ensures { LedStatesRest }
{}

/// What one event sends is asked for by what led the router to its state.
pub fn call_is_asked()
    ensures { CallIsAsked }
{}

/// Calls go on with what led the router to its state.
pub fn calls_lead_on()
    ensures { CallsLeadOn }
{}

/// What is read of saved bytes was led to by what led to the state that was saved.
pub fn read_state_is_led_to()
    ensures { ReadStateIsLedTo }
{}
