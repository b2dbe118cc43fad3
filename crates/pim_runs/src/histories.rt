//! Routers with a history of events, a plane's report and a reload, and of a reload by a map of places, computed by the
//! kernel.
ghost use Rattle.pim_runs.specs.History.{CopyIsMade, CopyIsAskedFor, HistoryLeads};
ghost use Rattle.pim_runs.specs.Placed.{CauseHasOldNumber, PlacedCopyIsAskedFor, PlacesLead, StreamGoesOn};

/// The history leads to a state in which the keepalive timer ends as the plane's report says.
pub fn history_leads()
    ensures { HistoryLeads }
{}

/// The packet that comes after the reload leaves as one copy, on the host's link.
pub fn copy_is_made()
    ensures { CopyIsMade }
{}

/// The copy after the reload is asked for by what came before it.
pub fn copy_is_asked_for()
    ensures { CopyIsAskedFor }
{}

/// A list without its first interface is accepted with a map of the places of the others.
pub fn places_lead()
    ensures { PlacesLead }
{}

/// The packet that comes after a reload by a map of places leaves on the host's link. Its link and the host's are a
/// place before.
pub fn stream_goes_on()
    ensures { StreamGoesOn }
{}

/// The cause of the copy after a reload by a map of places is the host's report, under the old number of its link.
pub fn cause_has_old_number()
    ensures { CauseHasOldNumber }
{}

/// The copy after a reload by a map of places is asked for by what came before it.
pub fn placed_copy_is_asked_for()
    ensures { PlacedCopyIsAskedFor }
{}
