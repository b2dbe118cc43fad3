//! Laws of which sources are named, and of the rows, each the contract of a function with nothing to do.

ghost use Rattle.pim_fanout.specs.Laws.{EventShowsRows, FiredNamesAreReached, ExpiryKeepsUnnamedSources, FiringShowsRows, NamesAreFew, NamesAreNamed, NamesAreReached, NamesRise, OpeningShowsRows, UnnamedSourcesKeepTheirAnswers, PlainShowsRows, PresentShowsRows, UntouchedIsUnnamed};

/// Each named source is listed once.
#[tactic(auto, using(crate::proofs::Opened::names_rise))]
pub fn names_rise()
    ensures { NamesRise }
{}

/// From a quiet state, the sources that are named among those that a change touches are those that are named among all.
#[tactic(auto, using(crate::proofs::Listed::names_are_named))]
pub fn names_are_named()
    ensures { NamesAreNamed }
{}

/// A source that a change doesn't touch isn't named, whether it has a fact or not, where routes and RP ranges are
/// unchanged.
pub fn untouched_is_unnamed()
    ensures { UntouchedIsUnnamed }
{}

/// No more sources are named among the touched ones than among all.
#[tactic(auto, using(crate::proofs::Few::names_are_few))]
pub fn names_are_few()
    ensures { NamesAreFew }
{}

/// Where no neighbour differs, a source that an event names is reached.
#[tactic(auto, using(crate::proofs::Few::names_are_reached))]
pub fn names_are_reached()
    ensures { NamesAreReached }
{}

/// A source that the expiry of a timer names is reached, where no neighbour differs.
#[tactic(auto, using(crate::proofs::Few::fired_names_are_reached))]
pub fn fired_names_are_reached()
    ensures { FiredNamesAreReached }
{}

/// A source with a fact that an event doesn't name keeps its answers to the macros.
#[tactic(auto, using(crate::proofs::Others::unnamed_sources_keep_their_answers))]
pub fn unnamed_sources_keep_their_answers()
    ensures { UnnamedSourcesKeepTheirAnswers }
{}

/// A source with a fact that the expiry of a timer doesn't name keeps its answers to the macros.
pub fn expiry_keeps_unnamed_sources()
    ensures { ExpiryKeepsUnnamedSources }
{}

/// A cache without rows is the cache of the opening.
#[tactic(auto, using(crate::proofs::Shown::opening_shows_rows))]
pub fn opening_shows_rows()
    ensures { OpeningShowsRows }
{}

/// Where the rows that an event names are evaluated again, all rows are those of the state after it.
pub fn event_shows_rows()
    ensures { EventShowsRows }
{}

/// Where the rows that the expiry of a timer names are evaluated again, all rows are those of the state after it.
pub fn firing_shows_rows()
    ensures { FiringShowsRows }
{}

/// The rows don't depend on the present time.
#[tactic(auto, using(crate::proofs::Shown::present_shows_rows))]
pub fn present_shows_rows()
    ensures { PresentShowsRows }
{}

/// A plain packet leaves all rows those of the state.
pub fn plain_shows_rows()
    ensures { PlainShowsRows }
{}
