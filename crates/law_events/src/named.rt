//! The sources that an event reaches, and those that are named after it, whose rows are evaluated again. A change of
//! neighbours after which the router is the DR of the same interfaces names what depends on another neighbour. Laws of
//! the definitions, each the contract of a function with nothing to do.

ghost use Rattle.law_events.specs.Moved.{MovedGoes, MovedNames, MovedSettles, RoutesMove, RoutesReroute, RpsMove, RpsReroute};
ghost use Rattle.law_events.specs.Switched.{DownMovesNone, UpMovesNone};
ghost use Rattle.law_events.specs.NamedLaws.{EventFacts, EventIsCalm, EventKeeps, EventNamesFew, FiredAreFew, FiredIsReached, FiredNames, FiringFacts, FiringKeeps, NamedAreFew, NamedIsReached, RisingWithin, RoutesName, RpsName, SameMasks, ToldFires, TouchedAlone, TouchedNames, UnnamedKeeps, UnreachedIsSame, UnreachedSees};

/// Where nothing differs that counts for a source, its macros read the same.
#[tactic(auto, using(crate::proofs::Unreached::unreached_sees))]
pub fn unreached_sees()
    ensures { UnreachedSees }
{}

/// Where no neighbour differs, a source that an event names is reached.
pub fn named_is_reached()
    ensures { NamedIsReached }
{}

/// Where no neighbour differs after an accepted event, no more sources are named than are reached.
#[tactic(auto, using(crate::proofs::Few::named_are_few))]
pub fn named_are_few()
    ensures { NamedAreFew }
{}

/// Where no neighbour differs after an event, accepted or not, no more sources are named than are reached.
#[tactic(auto, using(crate::proofs::Few::event_names_few))]
pub fn event_names_few()
    ensures { EventNamesFew }
{}

/// Where no neighbour differs, a source that the expiry of a timer names is reached.
pub fn fired_is_reached()
    ensures { FiredIsReached }
{}

/// Where no neighbour differs, the expiry of a timer names no more sources than it reaches.
pub fn fired_are_few()
    ensures { FiredAreFew }
{}

/// A source that isn't named keeps its answers.
#[tactic(auto, using(crate::proofs::KeptSources::unnamed_keeps))]
pub fn unnamed_keeps()
    ensures { UnnamedKeeps }
{}

/// From a quiet state, the sources that are named among those that an event touches are all that it names.
#[tactic(auto, using(crate::proofs::Touched::event_alone))]
pub fn touched_names()
    ensures { TouchedNames }
{}

/// From a quiet state, the sources that are named among those that the expiry of a timer touches are all that it names.
#[tactic(auto, using(crate::proofs::Touched::firing_alone))]
pub fn fired_names()
    ensures { FiredNames }
{}

/// From a quiet state, new routes name no sources but those of which a route or the RP differs.
#[tactic(auto, using(crate::proofs::Rerouted::routes_name))]
pub fn routes_name()
    ensures { RoutesName }
{}

/// From a quiet state, new RP ranges name no sources but those of which a route or the RP differs.
#[tactic(auto, using(crate::proofs::Rerouted::rps_name))]
pub fn rps_name()
    ensures { RpsName }
{}

/// What is listed for each timer that expires in an Advance is listed by the states that these leave.
#[tactic(auto, using(crate::proofs::Advance::told_fires))]
pub fn told_fires()
    ensures { ToldFires }
{}

/// A source that no event reaches reads the same, and has the same facts but for when timers expire.
pub fn unreached_is_same()
    ensures { UnreachedIsSame }
{}

/// A source that an event doesn't name keeps its answers to the end of the event.
pub fn event_keeps()
    ensures { EventKeeps }
{}

/// A source that the expiry of a timer doesn't name keeps its answers.
pub fn firing_keeps()
    ensures { FiringKeeps }
{}

/// From a quiet state, the sources that are named among those that a change touches are all that it names.
#[tactic(auto, using(crate::proofs::Touched::touched_alone))]
pub fn touched_alone()
    ensures { TouchedAlone }
{}

/// Where no neighbour differs at the end of an event, none differs in between.
#[tactic(auto, using(crate::proofs::CalmFiring::calm_by_end))]
pub fn event_is_calm()
    ensures { EventIsCalm }
{}

/// The source facts at the end of an event are those that clearing leaves.
#[tactic(auto, using(crate::proofs::Calm::event_facts))]
pub fn event_facts()
    ensures { EventFacts }
{}

/// Keys that rise are no more than those of a list that has all of them.
#[tactic(auto, using(crate::proofs::Within::rising_within))]
pub fn rising_within()
    ensures { RisingWithin }
{}

/// The source facts after the expiry of a timer are those that clearing leaves.
#[tactic(auto, using(crate::proofs::Calm::firing_facts))]
pub fn firing_facts()
    ensures { FiringFacts }
{}

/// Two tests of interfaces that numbers have as bits are compared by the numbers.
#[tactic(auto, using(crate::proofs::Masks::same_masks))]
pub fn same_masks()
    ensures { SameMasks }
{}

/// New routes change the routes alone.
#[tactic(auto, using(crate::proofs::Rerouted::routes_reroute_alone))]
pub fn routes_reroute()
    ensures { RoutesReroute }
{}

/// New RP ranges change the RP ranges, and the registers of what they move.
#[tactic(auto, using(crate::proofs::Rerouted::rps_reroute_alone))]
pub fn rps_reroute()
    ensures { RpsReroute }
{}

/// What goes after a change of routes or RP ranges is of the keys of what is moved.
pub fn moved_goes()
    ensures { MovedGoes }
{}

/// All that follows of a change of routes or RP ranges follows of the keys of what is moved.
pub fn moved_settles()
    ensures { MovedSettles }
{}

/// A source with a fact that the keys of what is moved don't touch isn't named.
pub fn moved_names()
    ensures { MovedNames }
{}

/// New routes move only the groups whose RP has another route, and the sources that have another route.
#[tactic(auto, using(crate::proofs::MovedKeys::routes_move))]
pub fn routes_move()
    ensures { RoutesMove }
{}

/// New RP ranges move only the groups that have another RP.
#[tactic(auto, using(crate::proofs::MovedKeys::rps_move))]
pub fn rps_move()
    ensures { RpsMove }
{}

/// An interface that goes up moves nothing where nothing with facts may be routed over it.
#[tactic(auto, using(crate::proofs::Switched::up_moves_none))]
pub fn up_moves_none()
    ensures { UpMovesNone }
{}

/// An interface that goes down with nothing on it moves nothing where nothing with facts may be routed over it.
#[tactic(auto, using(crate::proofs::Switched::down_moves_none))]
pub fn down_moves_none()
    ensures { DownMovesNone }
{}
