//! What a router offers to a plane of any source, and what a plane reports to its router. Laws of the definitions, each
//! the contract of a function with nothing to do.

ghost use Rattle.law_plane.specs.Keeping.{KeepChangesNoAnswer, KeepChangesNoRow, KeepEndsLater, KeepIsAPacket, KeepIsAtRest, KeepStartsNone};
ghost use Rattle.law_plane.specs.Offered.{KnownIsTold, OfferedIsHandled, UnknownRowDecides};
ghost use Rattle.law_plane.specs.Seen.{SeenIsStepped};

/// The row that is offered of a source without a fact gives what is decided of it.
#[tactic(auto, using(crate::proofs::OfferedRows::unknown_row_decides))]
pub fn unknown_row_decides()
    ensures { UnknownRowDecides }
{}

/// A packet is handled by what is offered as it is by the rows, or, for a source without a fact, by what is decided of
/// it.
#[tactic(auto, using(crate::proofs::OfferedRows::offered_is_handled))]
pub fn offered_is_handled()
    ensures { OfferedIsHandled }
{}

/// What is offered of a source with a fact is its row.
#[tactic(auto, using(crate::proofs::OfferedRows::known_is_told))]
pub fn known_is_told()
    ensures { KnownIsTold }
{}

/// A router at rest is at rest after `keep`.
#[tactic(auto, using(crate::proofs::Keeps::keep_is_at_rest))]
pub fn keep_is_at_rest()
    ensures { KeepIsAtRest }
{}

/// A report of forwarded data by `keep` changes no answer of the forwarding cache.
#[tactic(auto, using(crate::proofs::Keeps::keep_changes_no_answer))]
pub fn keep_changes_no_answer()
    ensures { KeepChangesNoAnswer }
{}

/// `keep` changes no row.
#[tactic(auto, using(crate::proofs::Keeps::keep_changes_no_row))]
pub fn keep_changes_no_row()
    ensures { KeepChangesNoRow }
{}

/// After `keep`, KAT(S,G) expires at the later of both timestamps.
#[tactic(auto, using(crate::proofs::Keeps::keep_ends_later))]
pub fn keep_ends_later()
    ensures { KeepEndsLater }
{}

/// `keep` starts no keepalive timer.
#[tactic(auto, using(crate::proofs::Keeps::keep_starts_none))]
pub fn keep_starts_none()
    ensures { KeepStartsNone }
{}

/// `keep` at the present time does what a plain packet does that sets KAT(S,G).
#[tactic(auto, using(crate::proofs::Keeps::keep_is_a_packet))]
pub fn keep_is_a_packet()
    ensures { KeepIsAPacket }
{}

/// The event of a packet given only by its source and its group has the state and the messages of any packet of them.
#[tactic(auto, using(crate::proofs::SeenPackets::seen_is_stepped))]
pub fn seen_is_stepped()
    ensures { SeenIsStepped }
{}
