//! Laws of the definitions, each the contract of a function with nothing to do.

ghost use Rattle.law_settled.specs.Laws.{AbsentIsUndesired, AdvancedIsAhead, AheadIsReady, AscendingAgain, ClearingGoesOn, ClearingIsComplete, FiringGoesOn, FiringGoesOnByOne, FiringIsAhead, FiringIsComplete, FiringStops, IgnoredEventChangesNothing, InstantGoesOn, InstantIsComplete, InstantStops, MembersTell, NextIsDue, NextIsFirst, NextIsLeast, NextIsNextEnding, OneFiringKeeps, OpeningIsAhead, ReadyAtPresent, RefusedEventChangesNothing};

/// After clearing no assert and no SPTbit is left that must go.
#[tactic(auto, using(crate::proofs::ClearingLaws::nothing_to_clear))]
pub fn clearing_is_complete()
    ensures { ClearingIsComplete }
{}

/// Clearing takes the first fact that must go, evaluates all macros anew, and goes on.
#[tactic(auto, using(crate::proofs::ClearingLaws::clear_unrolls))]
pub fn clearing_goes_on()
    ensures { ClearingGoesOn }
{}

/// An event that is refused changes no fact and sends nothing.
#[tactic(auto, using(crate::proofs::UnchangedLaws::refused_unchanged))]
pub fn refused_event_changes_nothing()
    ensures { RefusedEventChangesNothing }
{}

/// An event that is ignored changes no fact and sends nothing.
#[tactic(auto, using(crate::proofs::UnchangedLaws::ignored_unchanged))]
pub fn ignored_event_changes_nothing()
    ensures { IgnoredEventChangesNothing }
{}

/// Where every timer expires later than a timestamp, none expires earlier.
#[tactic(auto, using(crate::proofs::FiringLaws::ahead_is_ready))]
pub fn ahead_is_ready()
    ensures { AheadIsReady }
{}

/// A state that is ready at a timestamp is ready at its present time.
#[tactic(auto, using(crate::proofs::FiringLaws::ready_at_present))]
pub fn ready_at_present()
    ensures { ReadyAtPresent }
{}

/// The timer that an Advance to a timestamp fires next expires at that timestamp or before it.
#[tactic(auto, using(crate::proofs::FiringLaws::next_is_due))]
pub fn next_is_due()
    ensures { NextIsDue }
{}

/// No timer expires earlier than the next one.
#[tactic(auto, using(crate::proofs::FiringLaws::next_is_least))]
pub fn next_is_least()
    ensures { NextIsLeast }
{}

/// The timer that an Advance fires next is the one that expires first, if that one is due.
#[tactic(auto, using(crate::proofs::TimerLaws::next_due_is_next))]
pub fn next_is_next_ending()
    ensures { NextIsNextEnding }
{}

/// The timer that an Advance fires next is also the next one of an Advance that ends when it expires.
#[tactic(auto, using(crate::proofs::FiringLaws::next_is_first))]
pub fn next_is_first()
    ensures { NextIsFirst }
{}

/// The expiry of one timer within an instant leaves none that expires earlier.
pub fn one_firing_keeps()
    ensures { OneFiringKeeps }
{}

/// All timers that expire at one timestamp: the next one is fired, and then the others.
#[tactic(auto, using(crate::proofs::FiringLaws::instant_goes_on))]
pub fn instant_goes_on()
    ensures { InstantGoesOn }
{}

/// An instant at which nothing is due changes nothing.
#[tactic(auto, using(crate::proofs::FiringLaws::instant_stops))]
pub fn instant_stops()
    ensures { InstantStops }
{}

/// After an instant every timer expires later.
pub fn instant_is_complete()
    ensures { InstantIsComplete }
{}

/// Firing fires the next instant, and goes on.
#[tactic(auto, using(crate::proofs::FiringLaws::firing_goes_on))]
pub fn firing_goes_on()
    ensures { FiringGoesOn }
{}

/// Firing fires the next timer, and goes on.
#[tactic(auto, using(crate::proofs::FiringLaws::firing_goes_on_by_one))]
pub fn firing_goes_on_by_one()
    ensures { FiringGoesOnByOne }
{}

/// Where nothing is due, firing changes nothing.
#[tactic(auto, using(crate::proofs::FiringLaws::firing_stops))]
pub fn firing_stops()
    ensures { FiringStops }
{}

/// Firing leaves nothing that is due.
#[tactic(auto, using(crate::proofs::FiringLaws::firing_is_complete))]
pub fn firing_is_complete()
    ensures { FiringIsComplete }
{}

/// After firing every timer expires later than the timestamp.
#[tactic(auto, using(crate::proofs::FiringLaws::firing_is_ahead))]
pub fn firing_is_ahead()
    ensures { FiringIsAhead }
{}

/// After an Advance every timer expires later than the present time.
pub fn advanced_is_ahead()
    ensures { AdvancedIsAhead }
{}

/// Time can go on from the opening with an accepted configuration.
pub fn opening_is_ahead()
    ensures { OpeningIsAhead }
{}

/// Two ascending lists of numbers are equal where they have the same members.
#[tactic(auto, using(crate::proofs::Numbers::members_tell))]
pub fn members_tell()
    ensures { MembersTell }
{}

/// Ordering numbers a second time changes nothing.
#[tactic(auto, using(crate::proofs::Numbers::ascending_again))]
pub fn ascending_again()
    ensures { AscendingAgain }
{}

/// A group without facts isn't desired.
#[tactic(auto, using(crate::proofs::AbsentGroups::absent_is_undesired))]
pub fn absent_is_undesired()
    ensures { AbsentIsUndesired }
{}
