//! Locality: what the machines of (*,G), and those of a source of it, read of a state, so that the cost of an event
//! depends on what it concerns. Laws of the definitions, each the contract of a function with nothing to do.

ghost use Rattle.law_events.specs.Differing.{AgreedRowsAreSame, DifferingIsLeast, DifferingKeysCover, ChangedKeysSettle, NamedKeysCover, NewKeysDiffer, NothingFollows, SameButEndsSettles, SameButEndsTouchesNothing};
ghost use Rattle.law_events.specs.Events.{ChangeTouches, EventIsLocal, FiringIsLocal};
ghost use Rattle.law_events.specs.JoinPrunes.{JoinPruneAgain, JoinPruneIsLocal, JoinPruneTouchesMoved};
ghost use Rattle.law_events.specs.Locality.{AgreedSourceIsUntold, AgreedStarIsUntold, AssertsAreLocal, ClearingIsLocal, CouldRegisterIsLocal, NextToClearIsLocal, OpeningIsQuiet, PresentTouchesNone, QuietGoesOn, RegistersAreLocal, RowsElsewhereStay, SettlingClears, SettlingIsLocal, SettlingIsOwn, SettlingQuiets, SourceDesiresAreLocal, SourceViewsAreLocal, SourcesAreOwn, SourcesStandOnce, StarDesiresAreLocal, StarViewsAreLocal, TouchingIsClosed, TreeStatesAreLocal, UpstreamIsLocal, UpstreamIsOwn};
ghost use Rattle.law_events.specs.OwnEnds.{EventFollowsOfDiffering, EventOfEnds, EventTouchesDiffering, FiringFollowsOfDiffering, KeepaliveAgain, LosesAgain};
ghost use Rattle.law_events.specs.Rest.{FiringIsQuiet, InstantIsQuiet, OneFiringQuiets, OpeningIsAtRest, RunIsAtRest, StepIsAtRest, StepIsQuiet};
ghost use Rattle.law_events.specs.Touches.{AssertDueTouches, AssertTouches, GroupEndTouches, HelloAgainTouchesNone, JoinPruneTouches, PacketTouches, QueryTouchesNone, RegisterStopTouches, RegisterTouches, ReportTouches, SeenTouchesNone, SourceEndTouches, TimerTouches};

/// JoinDesired(*,G) reads the rows of (*,G) alone.
#[tactic(auto, using(crate::proofs::UntoldKeys::join_desired_star_at))]
pub fn star_desires_are_local()
    ensures { StarDesiresAreLocal }
{}

/// The upstream state of (S,G,rpt) reads the rows of (*,G) and of the source alone.
#[tactic(auto, using(crate::proofs::UntoldKeys::tree_state_at))]
pub fn tree_states_are_local()
    ensures { TreeStatesAreLocal }
{}

/// JoinDesired(S,G) reads the rows of (*,G) and of the source alone.
#[tactic(auto, using(crate::proofs::UntoldKeys::join_desired_at))]
pub fn source_desires_are_local()
    ensures { SourceDesiresAreLocal }
{}

/// What is compared of (*,G) before and after a change reads the rows of (*,G) alone.
#[tactic(auto, using(crate::proofs::UntoldKeys::star_view_at))]
pub fn star_views_are_local()
    ensures { StarViewsAreLocal }
{}

/// What is compared of a source reads the rows of (*,G) and of the source alone.
#[tactic(auto, using(crate::proofs::UntoldKeys::source_view_at))]
pub fn source_views_are_local()
    ensures { SourceViewsAreLocal }
{}

/// Whether a source can be registered depends on the rows that its key reads.
#[tactic(auto, using(crate::proofs::Asserts::could_register_here))]
pub fn could_register_is_local()
    ensures { CouldRegisterIsLocal }
{}

/// Nothing of (*,G) is sent upstream where the states agree on it.
#[tactic(auto, using(crate::proofs::UntoldKeys::star_untold_where_agreed))]
pub fn agreed_star_is_untold()
    ensures { AgreedStarIsUntold }
{}

/// Nothing of a source is sent upstream where the states agree on it.
#[tactic(auto, using(crate::proofs::UntoldKeys::source_untold_where_agreed))]
pub fn agreed_source_is_untold()
    ensures { AgreedSourceIsUntold }
{}

/// A key that reads the rows of a touched key is touched.
#[tactic(auto, using(crate::proofs::Touches::touching_is_closed))]
pub fn touching_is_closed()
    ensures { TouchingIsClosed }
{}

/// Where the opening and the state agree on all keys but the touched ones, all messages upstream are of touched keys.
#[tactic(auto, using(crate::proofs::TouchedUpstream::upstream_is_local))]
pub fn upstream_is_local()
    ensures { UpstreamIsLocal }
{}

/// Whether an assert must go depends on the rows that its key reads.
#[tactic(auto, using(crate::proofs::Asserts::assert_must_go_local))]
pub fn asserts_are_local()
    ensures { AssertsAreLocal }
{}

/// Setting a row under a key doesn't change what a key that doesn't read it sees.
#[tactic(auto, using(law_settled::proofs::RowChanges::set_elsewhere))]
pub fn rows_elsewhere_stay()
    ensures { RowsElsewhereStay }
{}

/// Where nothing had to go at the opening, the next fact that must go is of a touched key.
#[tactic(auto, using(crate::proofs::Clearing::to_clear_of_touched))]
pub fn next_to_clear_is_local()
    ensures { NextToClearIsLocal }
{}

/// Where nothing had to go at the opening, all facts that go are of touched keys.
#[tactic(auto, using(crate::proofs::TouchedClearing::clearing_is_local))]
pub fn clearing_is_local()
    ensures { ClearingIsLocal }
{}

/// Where all registers were settled at the opening, only those of touched sources are still to be settled.
#[tactic(auto, using(crate::proofs::Registers::registers_of_touched))]
pub fn registers_are_local()
    ensures { RegistersAreLocal }
{}

/// All that follows of a change follows of the keys that it touches.
#[tactic(auto, using(crate::proofs::Settling::settling_is_local))]
pub fn settling_is_local()
    ensures { SettlingIsLocal }
{}

/// A Join/Prune to the router touches the keys that it names.
#[tactic(auto, using(crate::proofs::Touches::join_prune_touches))]
pub fn join_prune_touches()
    ensures { JoinPruneTouches }
{}

/// The expiry of an assert timer touches the assert's key.
#[tactic(auto, using(crate::proofs::Events::assert_due_touches))]
pub fn assert_due_touches()
    ensures { AssertDueTouches }
{}

/// An Assert touches the keys that it names.
#[tactic(auto, using(crate::proofs::Events::assert_touches))]
pub fn assert_touches()
    ensures { AssertTouches }
{}

/// The expiry of a timer touches its key or its group; that of an upstream timer touches nothing.
#[tactic(auto, using(crate::proofs::SilentEvents::timer_touches))]
pub fn timer_touches()
    ensures { TimerTouches }
{}

/// A quiet state stays quiet where all keys agree.
pub fn quiet_goes_on()
    ensures { QuietGoesOn }
{}

/// After settling no fact must go.
pub fn settling_clears()
    ensures { SettlingClears }
{}

/// After settling, a change whose sources are listed once leaves a quiet state.
pub fn settling_quiets()
    ensures { SettlingQuiets }
{}

/// A packet touches its source, and its group where it may make an assert of (*,G).
#[tactic(auto, using(crate::proofs::Packets::packet_touches))]
pub fn packet_touches()
    ensures { PacketTouches }
{}

/// The expiry of a group timer touches its group.
#[tactic(auto, using(crate::proofs::Membership::group_end_here))]
pub fn group_end_touches()
    ensures { GroupEndTouches }
{}

/// The expiry of a source timer touches its group.
#[tactic(auto, using(crate::proofs::Membership::source_end_here))]
pub fn source_end_touches()
    ensures { SourceEndTouches }
{}

/// A report touches the groups that it names.
#[tactic(auto, using(crate::proofs::Membership::report_touches))]
pub fn report_touches()
    ensures { ReportTouches }
{}

/// A Join/Prune to another router touches nothing.
#[tactic(auto, using(crate::proofs::SilentEvents::seen_touches_none))]
pub fn seen_touches_none()
    ensures { SeenTouchesNone }
{}

/// The rows of a group name all its sources.
#[tactic(auto, using(crate::proofs::OwnKeys::own_sources))]
pub fn sources_are_own()
    ensures { SourcesAreOwn }
{}

/// The opening is quiet.
pub fn opening_is_quiet()
    ensures { OpeningIsQuiet }
{}

/// Setting the present time touches nothing.
#[tactic(auto, using(crate::proofs::OwnKeys::present_touches_none))]
pub fn present_touches_none()
    ensures { PresentTouchesNone }
{}

/// Sources whose keys rise are listed once.
pub fn sources_stand_once()
    ensures { SourcesStandOnce }
{}

/// Where the opening and the state agree on all keys but the given ones, the messages upstream are found by the rows of
/// the groups of these.
#[tactic(auto, using(crate::proofs::OwnKeys::upstream_is_own))]
pub fn upstream_is_own()
    ensures { UpstreamIsOwn }
{}

/// A Hello with the priority and the generation ID that its neighbour had touches nothing.
#[tactic(auto, using(crate::proofs::RefreshedNeighbours::hello_again_touches_none))]
pub fn hello_again_touches_none()
    ensures { HelloAgainTouchesNone }
{}

/// A query touches nothing.
#[tactic(auto, using(crate::proofs::OtherEvents::query_touches_none))]
pub fn query_touches_none()
    ensures { QueryTouchesNone }
{}

/// A Register-Stop touches its source, or its group where it names none.
#[tactic(auto, using(crate::proofs::OtherEvents::register_stop_touches))]
pub fn register_stop_touches()
    ensures { RegisterStopTouches }
{}

/// A Register touches its source.
#[tactic(auto, using(crate::proofs::OtherEvents::register_received_touches))]
pub fn register_touches()
    ensures { RegisterTouches }
{}

/// What follows of a change that touches some keys is found by the rows of their groups.
#[tactic(auto, using(crate::proofs::Settling::settling_is_own))]
pub fn settling_is_own()
    ensures { SettlingIsOwn }
{}

/// An event's own change touches no keys but those that `touched_by_event` lists.
#[tactic(auto, using(crate::proofs::EventLaws::change_touches))]
pub fn change_touches()
    ensures { ChangeTouches }
{}

/// From a quiet state all that follows of an event follows of the keys that it touches.
#[tactic(auto, using(crate::proofs::EventLaws::event_is_local))]
pub fn event_is_local()
    ensures { EventIsLocal }
{}

/// From a quiet state all that follows of the expiry of a timer follows of the keys that it touches.
#[tactic(auto, using(crate::proofs::EventLaws::firing_is_local))]
pub fn firing_is_local()
    ensures { FiringIsLocal }
{}

/// After one timer expired in a lawful state, the state is quiet.
pub fn one_firing_quiets()
    ensures { OneFiringQuiets }
{}

/// After all timers of an instant expired in a lawful, quiet state, the state is quiet.
pub fn instant_is_quiet()
    ensures { InstantIsQuiet }
{}

/// After all timers that are due by a timestamp expired in a lawful, quiet state, the state is quiet.
pub fn firing_is_quiet()
    ensures { FiringIsQuiet }
{}

/// Every event leaves a settled, quiet state quiet.
pub fn step_is_quiet()
    ensures { StepIsQuiet }
{}

/// With an accepted configuration the router's opening is at rest: quiet and settled.
pub fn opening_is_at_rest()
    ensures { OpeningIsAtRest }
{}

/// Every event leaves a router at rest that was at rest.
pub fn step_is_at_rest()
    ensures { StepIsAtRest }
{}

/// Any list of events leaves a router at rest that was at rest.
pub fn run_is_at_rest()
    ensures { RunIsAtRest }
{}

/// Keys cover a change where they touch each key under which a row differs in more than when a timer expires.
#[tactic(auto, using(crate::proofs::Differing::named_keys_cover))]
pub fn named_keys_cover()
    ensures { NamedKeysCover }
{}

/// The keys under which rows differ in more than when a timer expires that runs in both cover a change.
#[tactic(auto, using(crate::proofs::Differing::differing_keys_cover))]
pub fn differing_keys_cover()
    ensures { DifferingKeysCover }
{}

/// Where two states agree on a key, the rows that it reads are the same but for when timers expire.
#[tactic(auto, using(crate::proofs::Differing::agreed_rows_are_same))]
pub fn agreed_rows_are_same()
    ensures { AgreedRowsAreSame }
{}

/// The keys under which rows differ touch no key on which the states agree.
#[tactic(auto, using(crate::proofs::Differing::differing_is_least))]
pub fn differing_is_least()
    ensures { DifferingIsLeast }
{}

/// All that follows of a change follows of the keys under which rows differ.
#[tactic(auto, using(crate::proofs::Differing::changed_keys_settle))]
pub fn changed_keys_settle()
    ensures { ChangedKeysSettle }
{}

/// A change only of when timers expire, in whatever table, touches nothing.
#[tactic(auto, using(crate::proofs::Differing::same_but_ends_touches_nothing))]
pub fn same_but_ends_touches_nothing()
    ensures { SameButEndsTouchesNothing }
{}

/// Nothing follows of a change that touches nothing.
#[tactic(auto, using(crate::proofs::Differing::nothing_follows))]
pub fn nothing_follows()
    ensures { NothingFollows }
{}

/// Nothing follows of a change only of when timers expire.
#[tactic(auto, using(crate::proofs::Differing::same_but_ends_settles))]
pub fn same_but_ends_settles()
    ensures { SameButEndsSettles }
{}

/// An event touches no keys but those whose rows differ after it.
#[tactic(auto, using(crate::proofs::OwnEnds::event_touches_differing))]
pub fn event_touches_differing()
    ensures { EventTouchesDiffering }
{}

/// All that follows of an event follows of the keys whose rows differ after its own change.
#[tactic(auto, using(crate::proofs::OwnEnds::event_follows_of_differing))]
pub fn event_follows_of_differing()
    ensures { EventFollowsOfDiffering }
{}

/// Nothing follows of an event that changes only when timers expire.
#[tactic(auto, using(crate::proofs::OwnEnds::event_of_ends))]
pub fn event_of_ends()
    ensures { EventOfEnds }
{}

/// All that follows of the expiry of a timer follows of the keys whose rows differ after its own change.
#[tactic(auto, using(crate::proofs::OwnEnds::firing_follows_of_differing))]
pub fn firing_follows_of_differing()
    ensures { FiringFollowsOfDiffering }
{}

/// A Join/Prune touches no keys but those whose downstream rows it changes in more than when a timer expires, and those
/// whose lost asserts it removes.
#[tactic(auto, using(crate::proofs::JoinPrunes::join_prune_touches_moved))]
pub fn join_prune_touches_moved()
    ensures { JoinPruneTouchesMoved }
{}

/// All that follows of a Join/Prune follows of the keys that it touches by its own change.
#[tactic(auto, using(crate::proofs::JoinPrunes::join_prune_is_local))]
pub fn join_prune_is_local()
    ensures { JoinPruneIsLocal }
{}

/// Nothing follows of a Join/Prune that repeats what is known.
#[tactic(auto, using(crate::proofs::JoinPrunes::join_prune_again))]
pub fn join_prune_again()
    ensures { JoinPruneAgain }
{}

/// A new row is under a key at which rows differ.
#[tactic(auto, using(crate::proofs::NewKeys::new_keys_differ))]
pub fn new_keys_differ()
    ensures { NewKeysDiffer }
{}

/// Restarting a keepalive timer that runs touches nothing.
#[tactic(auto, using(crate::proofs::EndsAgain::keepalive_again))]
pub fn keepalive_again()
    ensures { KeepaliveAgain }
{}

/// A repeated Assert of the winner that the router lost to touches nothing.
#[tactic(auto, using(crate::proofs::EndsAgain::loses_again))]
pub fn loses_again()
    ensures { LosesAgain }
{}
