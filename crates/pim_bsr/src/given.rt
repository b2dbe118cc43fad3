//! The RP ranges and the candidates that the router is given.
ghost use Rattle.std.specs.List.{list_all};
ghost use Rattle.std.specs.Prelude.{◌≡◌, map, nat_le, not, take, true, IfOk};
ghost use Rattle.pim_bsr.specs.Table.{candidate_of, candidates_by, given_of, gives_by, has_candidate, has_range, is_configured, is_given, moves_by, range_of, ranges_by, same_candidate, same_candidates, same_range, same_ranges};
ghost use Rattle.pim_bsr.specs.Joined.{earlier, first_end, loses_by};
ghost use Rattle.pim_types.specs.declared.config.RpCandidate.{RpCandidate as CandidateValue};

use crate::choice::{Choice, is_chosen, same_prefix};
use crate::learned::Learned;
use pim_types::{RpCandidate, RpRange};
use std::alloc::{AllocError, Global};

/// Whether a configured range has the RP's prefix.
#[tactic(auto, unfolding(crate::specs::Table::is_configured))]
fn is_configured(configured: &[RpRange], learned: Learned) -> bool
    ensures { result ≡ is_configured configured.now learned }
{
    configured
        .iter()
        .any(|range| same_prefix(learned.prefix, range.prefix))
}

/// Whether the router is given an RP as that of its whole range.
fn is_given(configured: &[RpRange], rps: &[Learned], learned: Learned) -> bool
    ensures { result ≡ is_given configured.now rps.now learned }
{
    !is_configured(configured, learned) && is_chosen(rps, learned)
}

/// Whether the router is given an RP.
pub(crate) fn gives(
    choice: Choice,
    configured: &[RpRange],
    rps: &[Learned],
    learned: Learned,
) -> bool
    ensures { result ≡ gives_by choice configured.now rps.now learned }
{
    match choice {
        Choice::Range => is_given(configured, rps, learned),
        Choice::Group => true,
    }
}

/// The range of an RP.
pub(crate) fn range_of(learned: Learned) -> RpRange
    ensures { result ≡ range_of learned }
{
    RpRange {
        prefix: learned.prefix,
        rp: learned.rp,
    }
}

/// The configured ranges, and for each learned one that isn't configured the RP that is chosen of it.
#[tactic(auto, unfolding(crate::specs::Table::given_of))]
fn given_of(
    alloc: Global,
    configured: &[RpRange],
    rps: &[Learned],
) -> Result<Vec<RpRange>, AllocError>
    ensures { IfOk result (λ ranges. ranges.items ≡ given_of configured.now rps.now) }
{
    let mut ranges = Vec::from_slice(alloc, configured)?;
    for learned in rps {
        if is_given(configured, rps, *learned) {
            ranges.push(range_of(*learned))?;
        }
    }
    Ok(ranges)
}

/// The RP ranges that the router is given.
pub(crate) fn ranges_by(
    alloc: Global,
    choice: Choice,
    configured: &[RpRange],
    rps: &[Learned],
) -> Result<Vec<RpRange>, AllocError>
    ensures { IfOk result (λ ranges. ranges.items ≡ ranges_by choice configured.now rps.now) }
{
    match choice {
        Choice::Range => given_of(alloc, configured, rps),
        Choice::Group => Vec::from_slice(alloc, configured),
    }
}

/// An RP as a candidate.
fn candidate_of(learned: Learned) -> RpCandidate
    ensures value { result ≡ candidate_of learned }
    ensures priority { nat_le result.priority 255 ≡ true }
{
    RpCandidate {
        prefix: learned.prefix,
        rp: learned.rp,
        priority: u32::from(learned.priority),
        hash_length: u32::from(learned.hash_length),
    }
}

/// RPs as candidates.
fn candidates_of(alloc: Global, rps: &[Learned]) -> Result<Vec<RpCandidate>, AllocError>
    ensures given { IfOk result (λ candidates. candidates.items ≡ map candidate_of rps.now) }
    ensures priorities { IfOk result (λ candidates.
        list_all (λ (c : CandidateValue). nat_le c.priority 255) candidates.items ≡ true) }
{
    let mut candidates = Vec::new(alloc);
    for learned in rps {
        candidates.push(candidate_of(*learned))?;
    }
    Ok(candidates)
}

/// The candidates that the router is given.
pub(crate) fn candidates_by(
    alloc: Global,
    choice: Choice,
    rps: &[Learned],
) -> Result<Vec<RpCandidate>, AllocError>
    ensures given { IfOk result (λ candidates. candidates.items ≡ candidates_by choice rps.now) }
    ensures priorities { IfOk result (λ candidates.
        list_all (λ (c : CandidateValue). nat_le c.priority 255) candidates.items ≡ true) }
{
    match choice {
        Choice::Range => Ok(Vec::new(alloc)),
        Choice::Group => candidates_of(alloc, rps),
    }
}

/// Whether two ranges have the same prefix and the same RP.
fn same_range(first: RpRange, second: RpRange) -> bool
    ensures { result ≡ same_range first second }
{
    same_prefix(first.prefix, second.prefix) && first.rp.bits == second.rp.bits
}

/// Whether a list has a range.
#[tactic(auto, unfolding(crate::specs::Table::has_range))]
pub(crate) fn has_range(ranges: &[RpRange], range: RpRange) -> bool
    ensures { result ≡ has_range ranges.now range }
{
    ranges.iter().any(|other| same_range(range, *other))
}

/// Whether a list has each of other ranges.
fn has_ranges(ranges: &[RpRange], others: &[RpRange]) -> bool
    ensures { result ≡ list_all (has_range ranges.now) others.now }
{
    others.iter().all(|other| has_range(ranges, *other))
}

/// Whether two lists are as long, and the first has each range of the second.
#[tactic(auto, unfolding(crate::specs::Table::same_ranges))]
fn same_ranges(first: &[RpRange], second: &[RpRange]) -> bool
    ensures { result ≡ same_ranges first.now second.now }
{
    first.len() == second.len() && has_ranges(first, second)
}

/// Whether two RPs are the same candidate.
fn same_candidate(first: Learned, second: Learned) -> bool
    ensures { result ≡ same_candidate first second }
{
    same_prefix(first.prefix, second.prefix)
        && first.rp.bits == second.rp.bits
        && first.priority == second.priority
        && first.hash_length == second.hash_length
}

/// Whether a list has a candidate.
#[tactic(auto, unfolding(crate::specs::Table::has_candidate))]
fn has_candidate(rps: &[Learned], learned: Learned) -> bool
    ensures { result ≡ has_candidate rps.now learned }
{
    rps.iter().any(|other| same_candidate(learned, *other))
}

/// Whether a list has each of other candidates.
fn has_candidates(rps: &[Learned], others: &[Learned]) -> bool
    ensures { result ≡ list_all (has_candidate rps.now) others.now }
{
    others.iter().all(|other| has_candidate(rps, *other))
}

/// Whether two lists are as long, and the first has each candidate of the second.
#[tactic(auto, unfolding(crate::specs::Table::same_candidates))]
fn same_candidates(first: &[Learned], second: &[Learned]) -> bool
    ensures { result ≡ same_candidates first.now second.now }
{
    first.len() == second.len() && has_candidates(first, second)
}

/// Whether the router is to be given other ranges.
fn moves_ranges(
    alloc: Global,
    configured: &[RpRange],
    before: &[Learned],
    after: &[Learned],
) -> Result<bool, AllocError>
    ensures { IfOk result (λ moved. moved
        ≡ not (same_ranges (given_of configured.now before.now) (given_of configured.now after.now))) }
{
    let given = given_of(alloc, configured, before)?;
    let others = given_of(alloc, configured, after)?;
    Ok(!same_ranges(given.as_slice(), others.as_slice()))
}

/// Whether the router is to be given other RPs.
pub(crate) fn moves(
    alloc: Global,
    choice: Choice,
    configured: &[RpRange],
    before: &[Learned],
    after: &[Learned],
) -> Result<bool, AllocError>
    ensures { IfOk result (λ moved. moved ≡ moves_by choice configured.now before.now after.now) }
{
    match choice {
        Choice::Range => moves_ranges(alloc, configured, before, after),
        Choice::Group => Ok(!same_candidates(before, after)),
    }
}

/// Whether the router is to be given other candidates where there is room for so many RPs.
#[tactic(auto, using(crate::proofs::Ranges::lost_by_room))]
pub(crate) fn loses(choice: Choice, room: usize, rps: &[Learned]) -> bool
    ensures { result ≡ loses_by choice rps.now (take room rps.now) }
{
    match choice {
        Choice::Range => false,
        Choice::Group => room < rps.len(),
    }
}

/// Of two timestamps, if there are any, the earlier.
fn earlier(end: u64, other: Option<u64>) -> u64
    ensures { result ≡ earlier end other }
{
    match other {
        Some(other) => end.min(other),
        None => end,
    }
}

/// When the first of the RPs expires, in ms.
#[tactic(auto, unfolding(crate::specs::Joined::first_end))]
pub(crate) fn first_end(rps: &[Learned]) -> Option<u64>
    ensures { result ≡ first_end rps.now }
{
    let mut first: Option<u64> = None;
    for learned in rps {
        first = Some(earlier(learned.end, first));
    }
    first
}
