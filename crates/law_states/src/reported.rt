//! A plane that reports a source's last packet by `keep`. Laws of the definitions, each the contract of a function with
//! nothing to do.

ghost use Rattle.law_states.specs.Anew.{DocumentedPlaneStaysSound, PlainStagesAreRight, ReloadRestoresRows, ReloadStaysFit, SoundPlaneStaysSound};
ghost use Rattle.law_states.specs.AtOnce.{AdvanceAtOnce, KeptAtOnce};
ghost use Rattle.law_states.specs.Documented.{DocumentedPlaneIsSound, PlainActsAreRight};
ghost use Rattle.law_states.specs.Guests.{SplitRouterByOffersIsSound};
ghost use Rattle.law_states.specs.Kept.{KeptInAnyOrder, KeptIsCaughtUp, SplitRouterByKeepIsSound};
ghost use Rattle.law_states.specs.Near.{EachKeepaliveIsNear};
ghost use Rattle.law_states.specs.Silent.{CatchesUpSilently};

/// Each keepalive timer that runs expires at most 210 s after the present time.
#[tactic(auto, using(crate::proofs::NearEnds::each_keepalive_is_near))]
pub fn each_keepalive_is_near()
    ensures { EachKeepaliveIsNear }
{}

/// What a plane reports by `keep` leaves the core in the state in which each packet at its own timestamp does.
#[tactic(auto, using(crate::proofs::KeptSplits::kept_is_caught_up))]
pub fn kept_is_caught_up()
    ensures { KeptIsCaughtUp }
{}

/// A router whose plane reports its notes by `keep` sends what a router sends that gets every packet as an event.
#[tactic(auto, using(crate::proofs::KeptSplits::split_router_by_keep_is_sound))]
pub fn split_router_by_keep_is_sound()
    ensures { SplitRouterByKeepIsSound }
{}

/// Notes that are reported by `keep` may come in any order, those that are reported as seen packets by their
/// timestamps.
#[tactic(auto, using(crate::proofs::KeptOrders::kept_in_any_order))]
pub fn kept_in_any_order()
    ensures { KeptInAnyOrder }
{}

/// A router whose plane keeps rows of sources without a fact until they may differ sends what a router sends that gets
/// every packet.
#[tactic(auto, using(crate::proofs::GuestSplits::split_router_by_offers_is_sound))]
pub fn split_router_by_offers_is_sound()
    ensures { SplitRouterByOffersIsSound }
{}

/// An Advance within which no timer expires, and a later one, are the later one alone.
#[tactic(auto, using(crate::proofs::AtOnce::advance_at_once))]
pub fn advance_at_once()
    ensures { AdvanceAtOnce }
{}

/// After its notes a plane may have the router advance past its next timer at once.
#[tactic(auto, using(crate::proofs::KeptAtOnces::kept_at_once))]
pub fn kept_at_once()
    ensures { KeptAtOnce }
{}

/// A plane as it is documented sends what a router alone sends.
#[tactic(auto, using(crate::proofs::DocumentedPlanes::documented_plane_is_sound))]
pub fn documented_plane_is_sound()
    ensures { DocumentedPlaneIsSound }
{}

/// Any list of events is one of a plane as it is documented.
pub fn plain_acts_are_right()
    ensures { PlainActsAreRight }
{}

/// Over events, reloads, by a map of places or without one, saves and restores a plane as it is documented and its router
/// send what the router alone sends.
pub fn documented_plane_stays_sound()
    ensures { DocumentedPlaneStaysSound }
{}

/// So they do from any state on in which events, reloads and reports leave a router, where each row that the plane holds
/// decides as the router's.
pub fn sound_plane_stays_sound()
    ensures { SoundPlaneStaysSound }
{}

/// Once the rows of all sources with a fact before or after a reload are read again, each row that the plane holds
/// decides as the router's.
#[tactic(auto, using(crate::proofs::SoundRows::reload_restores_rows))]
pub fn reload_restores_rows()
    ensures { ReloadRestoresRows }
{}

/// A reload leaves a state from which a sound plane stays sound.
pub fn reload_stays_fit()
    ensures { ReloadStaysFit }
{}

/// Any events, reloads, saves and restores are those of a plane as it is documented.
pub fn plain_stages_are_right()
    ensures { PlainStagesAreRight }
{}

/// While notes are reported the router sends nothing.
#[tactic(auto, using(crate::proofs::Silent::catches_up_silently))]
pub fn catches_up_silently()
    ensures { CatchesUpSilently }
{}
