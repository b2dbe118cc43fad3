//! When what a plane was offered of a source is unchanged, with a fact or without one. Laws of the definitions, each
//! the contract of a function with nothing to do.

ghost use Rattle.law_plane.specs.Staying.{EventKeepsRoutes, FiringKeepsRoutes, FiringSourceStays, KeepOfferStays, OfferStays, PlainOfferStays, StaysInTurn, TimeSourceStays, UnnamedSourceStays};

/// What is offered of a source is unchanged where its fact and its answers are, and there is room in both states or in
/// neither.
pub fn offer_stays()
    ensures { OfferStays }
{}

/// The fact and the answers of a source that an event doesn't name are unchanged.
pub fn unnamed_source_stays()
    ensures { UnnamedSourceStays }
{}

/// The fact and the answers of a source that the expiry of a timer doesn't name are unchanged.
pub fn firing_source_stays()
    ensures { FiringSourceStays }
{}

/// The fact and the answers of a source are unchanged where only the present time changes.
#[tactic(auto, using(crate::proofs::Staying::time_source_stays))]
pub fn time_source_stays()
    ensures { TimeSourceStays }
{}

/// A plain packet leaves what is offered of all sources unchanged.
pub fn plain_offer_stays()
    ensures { PlainOfferStays }
{}

/// `keep` leaves what is offered of all sources unchanged.
pub fn keep_offer_stays()
    ensures { KeepOfferStays }
{}

/// No event but new routes and new RP ranges changes routes or RP ranges.
pub fn event_keeps_routes()
    ensures { EventKeepsRoutes }
{}

/// The expiry of a timer changes no routes and no RP ranges.
pub fn firing_keeps_routes()
    ensures { FiringKeepsRoutes }
{}

/// What is unchanged from one state to a second, and from that to a third, is unchanged from the first to the third.
#[tactic(auto, using(crate::proofs::Staying::stays_in_turn))]
pub fn stays_in_turn()
    ensures { StaysInTurn }
{}
