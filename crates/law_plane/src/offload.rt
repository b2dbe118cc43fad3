//! Laws of the definitions, each the contract of a function with nothing to do.

ghost use Rattle.law_plane.specs.OffloadLaws.{CopiesShowWhere, DataIsHeard, EntryDecides, PlainIsPlane, PlaneIsPlain, PlaneIsStepped, RowDecides, RowDecidesAnyTtl, SpentPacketTells, StrayIsOutgoing, UnchangedIsSilent};

/// A row decides what the answers decide of a packet with a TTL above 1.
#[tactic(auto, using(crate::proofs::Decides::row_decides))]
pub fn row_decides()
    ensures { RowDecides }
{}

/// What a row decides, it decides for any TTL.
#[tactic(auto, using(crate::proofs::Decides::row_decides_any))]
pub fn row_decides_any_ttl()
    ensures { RowDecidesAnyTtl }
{}

/// An entry exists exactly where packets on the incoming interface are decided, and has their list of interfaces.
#[tactic(auto, using(crate::proofs::Decides::decides_by_entry))]
pub fn entry_decides()
    ensures { EntryDecides }
{}

/// On other interfaces than those of its trees, a source's packets go to the core only from outgoing interfaces.
#[tactic(auto, using(crate::proofs::Decides::stray_is_outgoing))]
pub fn stray_is_outgoing()
    ensures { StrayIsOutgoing }
{}

/// A packet that the plane forwards or drops is forwarded or dropped alike by the step.
#[tactic(auto, using(crate::proofs::Planes::plane_is_stepped))]
pub fn plane_is_stepped()
    ensures { PlaneIsStepped }
{}

/// A packet that the plane forwards or drops is plain.
#[tactic(auto, using(crate::proofs::Planes::plane_is_plain))]
pub fn plane_is_plain()
    ensures { PlaneIsPlain }
{}

/// The plane forwards or drops each packet that is plain and has a TTL above 1.
#[tactic(auto, using(crate::proofs::Planes::plain_is_plane))]
pub fn plain_is_plane()
    ensures { PlainIsPlane }
{}

/// Copies show on which interfaces they leave.
#[tactic(auto, using(crate::proofs::Planes::copies_show_where))]
pub fn copies_show_where()
    ensures { CopiesShowWhere }
{}

/// The plane drops each packet that changes nothing at all.
#[tactic(auto, using(crate::proofs::Planes::unchanged_is_silent))]
pub fn unchanged_is_silent()
    ensures { UnchangedIsSilent }
{}

/// A packet with an expired TTL has the same effect on the state as others of its source there, and sends nothing.
#[tactic(auto, using(crate::proofs::Planes::spent_packet_tells))]
pub fn spent_packet_tells()
    ensures { SpentPacketTells }
{}

/// What a plane has to test of a packet before it uses a row.
#[tactic(auto, using(crate::proofs::Planes::data_is_heard))]
pub fn data_is_heard()
    ensures { DataIsHeard }
{}
