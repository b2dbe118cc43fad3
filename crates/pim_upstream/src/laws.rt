//! Laws of the definitions, each the contract of a function with nothing to do.
ghost use Rattle.pim_upstream.specs.Laws.{UpstreamOfAllByOpening, UpstreamOfKeysByOpening, UpstreamByOpening};

/// The messages upstream by the keys that a change touches are those by what was opened of them, where a source that
/// has a fact had one or is named.
#[tactic(auto, using(crate::proofs::UpstreamLaws::upstream_of_keys))]
pub fn upstream_of_keys_by_opening()
    ensures { UpstreamOfKeysByOpening }
{}

/// The messages upstream are those of all groups and sources as they were, where no others get facts.
#[tactic(auto, using(crate::proofs::UpstreamLaws::upstream_of_all))]
pub fn upstream_of_all_by_opening()
    ensures { UpstreamOfAllByOpening }
{}

/// The messages upstream are those by what was opened, where that covers the change.
#[tactic(auto, using(crate::proofs::UpstreamLaws::upstream_of_opened))]
pub fn upstream_by_opening()
    ensures { UpstreamByOpening }
{}
