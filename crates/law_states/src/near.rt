//! What holds of a router beside rest: how far ahead its timers expire at most, whose address a won assert names, and
//! beside what facts lie. Each law is the contract of a function with nothing to do.
ghost use Rattle.law_states.specs.Ends.{AssertsStayNear, HellosStayNear, RegistersStayNear};
ghost use Rattle.law_states.specs.Kinds.{NeighboursStayKeyed, SourcesStayGrouped};
ghost use Rattle.law_states.specs.NearStates.{LedStatesAreNear, NearStays};
ghost use Rattle.law_states.specs.Own.{LedOwnAreOfInterfaces, WonStayOwn};
ghost use Rattle.law_states.specs.Queries.{AppendedLeaveLed, DelaysLeaveLed, LedQueriesAreNear, NextQueryStaysNear, SameReloadLeavesLed};

/// Every event leaves the next general query within the query interval.
pub fn next_query_stays_near()
    ensures { NextQueryStaysNear }
{}

/// After any events and reloads the next general query is within the query interval.
pub fn led_queries_are_near()
    ensures { LedQueriesAreNear }
{}

/// The next Hello of each interface leaves within Hello_Period, after any events and reloads.
pub fn hellos_stay_near()
    ensures { HellosStayNear }
{}

/// Each Assert Timer expires within Assert_Time, after any events and reloads.
pub fn asserts_stay_near()
    ensures { AssertsStayNear }
{}

/// Each assert that the router won names the address of its interface, after any events and reloads.
pub fn won_stay_own()
    ensures { WonStayOwn }
{}

/// Where no configuration has an own address of no interface, an address is the router's exactly where it is that of an
/// interface, after any events and reloads.
pub fn led_own_are_of_interfaces()
    ensures { LedOwnAreOfInterfaces }
{}

/// What holds beside rest (`is_near`) every event, every reload and what a plane reports keep.
pub fn near_stays()
    ensures { NearStays }
{}

/// After any events, reloads and reports of a plane `is_near` holds.
pub fn led_states_are_near()
    ensures { LedStatesAreNear }
{}

/// After any events and reloads a reload with the configuration that there is changes nothing, and sends nothing.
pub fn same_reload_leaves_led()
    ensures { SameReloadLeavesLed }
{}

/// After any events and reloads interfaces that are appended move no fact, and nothing is sent.
pub fn appended_leave_led()
    ensures { AppendedLeaveLed }
{}

/// After any events and reloads other delays alone move no fact, and nothing is sent but their Hellos.
pub fn delays_leave_led()
    ensures { DelaysLeaveLed }
{}

/// The record of each source lies beside that of its group, after any events and reloads.
pub fn sources_stay_grouped()
    ensures { SourcesStayGrouped }
{}

/// Each Register-Stop Timer expires within 85 s, the longest that is drawn for it, after any events and reloads.
pub fn registers_stay_near()
    ensures { RegistersStayNear }
{}

/// Each neighbour is under the key of its interface and address, after any events and reloads.
pub fn neighbours_stay_keyed()
    ensures { NeighboursStayKeyed }
{}
