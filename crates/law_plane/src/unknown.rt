//! Laws of the definitions, each the contract of a function with nothing to do.

ghost use Rattle.law_plane.specs.OffloadLaws.{UnknownIsRefused, UnknownIsStepped, UnknownNeedsRoom, UnknownStays, UnknownWithoutEffectIsForPlane};

/// A packet of a source without a fact needs room.
#[tactic(auto, using(crate::proofs::UnknownSources::unknown_needs_room))]
pub fn unknown_needs_room()
    ensures { UnknownNeedsRoom }
{}

/// A packet of a source without a fact is refused where there is no room for one.
#[tactic(auto, using(crate::proofs::UnknownSources::unknown_is_refused))]
pub fn unknown_is_refused()
    ensures { UnknownIsRefused }
{}

/// Where there is room, the row decides a packet of a source without a fact, and nothing changes.
#[tactic(auto, using(crate::proofs::UnknownSources::unknown_is_stepped))]
pub fn unknown_is_stepped()
    ensures { UnknownIsStepped }
{}

/// What the row decides of a source without a fact is unchanged where the answers are.
#[tactic(auto, using(crate::proofs::ToldRows::unknown_stays))]
pub fn unknown_stays()
    ensures { UnknownStays }
{}

/// A packet of a source without a fact that changes nothing at all is for the plane, not for the core.
#[tactic(auto, using(crate::proofs::UnknownChanges::unknown_without_effect_is_for_plane))]
pub fn unknown_without_effect_is_for_plane()
    ensures { UnknownWithoutEffectIsForPlane }
{}
