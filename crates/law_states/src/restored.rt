//! What holds of a state that was saved and is read again. Each law is the contract of a function with nothing to do.
ghost use Rattle.law_states.specs.Reload.{FreshSettingsKeepRest, ReloadIsAtRest, SameConfigurationChangesNothing};
ghost use Rattle.law_states.specs.Restart.{AcceptedStays, CandidatesStayAccepted, LaterRunIsAsked, LaterStateIsReached, RestartChangesNothing, RestartIsAsked, SavedCandidatesAreAccepted, SavedIsAccepted, SavedIsAtRest};
ghost use Rattle.law_states.specs.Resting.{NextTellsAhead, RestIsDecided};

/// The test of rest passes exactly where a state is at rest.
pub fn rest_is_decided()
    ensures { RestIsDecided }
{}

/// After any events of an accepted configuration the test passes.
pub fn saved_is_at_rest()
    ensures { SavedIsAtRest }
{}

/// A restart between two events changes no later outcome.
pub fn restart_changes_nothing()
    ensures { RestartChangesNothing }
{}

/// Other settings leave a state at rest.
pub fn fresh_settings_keep_rest()
    ensures { FreshSettingsKeepRest }
{}

/// What any accepted configuration leaves, once all that follows of it is done, is at rest.
pub fn reload_is_at_rest()
    ensures { ReloadIsAtRest }
{}

/// A reload with the configuration that there is changes nothing, and sends nothing.
pub fn same_configuration_changes_nothing()
    ensures { SameConfigurationChangesNothing }
{}

/// Each copy of a packet has its cause in an earlier event, also where a restart lies between.
pub fn restart_is_asked()
    ensures { RestartIsAsked }
{}

/// In the run of a state that earlier events led to, each copy has its cause in an earlier event.
pub fn later_run_is_asked()
    ensures { LaterRunIsAsked }
{}

/// What a restored state leads to, the opening leads to.
pub fn later_state_is_reached()
    ensures { LaterStateIsReached }
{}

/// All timers expire after the present time if and only if the next one does.
pub fn next_tells_ahead()
    ensures { NextTellsAhead }
{}

/// A state of a run is under a configuration that is accepted.
pub fn saved_is_accepted()
    ensures { SavedIsAccepted }
{}

/// The configuration of a router is accepted after each event.
pub fn accepted_stays()
    ensures { AcceptedStays }
{}

/// The candidates of a state of a run are accepted.
pub fn saved_candidates_are_accepted()
    ensures { SavedCandidatesAreAccepted }
{}

/// The candidates of a router are accepted after each event.
pub fn candidates_stay_accepted()
    ensures { CandidatesStayAccepted }
{}
