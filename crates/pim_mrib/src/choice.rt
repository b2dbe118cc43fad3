//! Which of several candidate RPs a group has (RFC 7761, sections 4.7.1 and 4.7.2), and whether a range is nearer.
ghost use Rattle.std.specs.Prelude.{◌≡◌, ◌<◌, ◌^◌, option_map};
ghost use Rattle.pim_model.specs.Candidates.{chosen, chosen_among, hash_value, is_chosen, masked};
ghost use Rattle.pim_model.specs.Unicast.{nearer_rp};

use pim_types::{Addr, RpCandidate, RpRange};

/// The first so many bits of a group; the rest are 0. More than 32 are all.
#[tactic(auto, unfolding(pim_model::specs::Candidates::masked))]
pub fn masked(length: u32, group: Addr) -> u64
    ensures value { result ≡ masked length group.bits }
    ensures small { result < 2 ^ 32 }
{
    let host = 1u64 << 32u32.saturating_sub(length);
    let group = u64::from(group.bits);
    group / host * host
}

/// The hash function's value for a group and an RP, with a mask of so many bits (RFC 7761, section 4.7.2).
#[tactic(auto, unfolding(pim_model::specs::Candidates::hash_value))]
pub fn hash_value(length: u32, group: Addr, rp: Addr) -> u32
    ensures { result ≡ hash_value length group.bits rp.bits }
{
    let first = 1_103_515_245 * masked(length, group) + 12_345;
    let mixed = u128::from(first ^ u64::from(rp.bits));
    ((1_103_515_245 * mixed + 12_345) % 0x8000_0000) as u32
}

// Whether the first of two candidates whose prefixes contain a group is chosen.
#[tactic(auto, unfolding(pim_model::specs::Candidates::is_chosen))]
fn is_chosen(group: Addr, first: RpCandidate, second: RpCandidate) -> bool
    ensures { result ≡ is_chosen group.bits first second }
{
    if first.prefix.length != second.prefix.length {
        return second.prefix.length < first.prefix.length;
    }
    if first.priority != second.priority {
        return first.priority < second.priority;
    }
    let value = hash_value(first.hash_length, group, first.rp);
    let other = hash_value(second.hash_length, group, second.rp);
    if value != other {
        return other < value;
    }
    second.rp.bits < first.rp.bits
}

// Of a candidate and another, if there is one, the one that is chosen.
#[tactic(auto, unfolding(pim_model::specs::Candidates::chosen))]
fn chosen(group: Addr, candidate: RpCandidate, best: Option<RpCandidate>) -> RpCandidate
    ensures { result ≡ chosen group.bits candidate best }
{
    match best {
        Some(other) if is_chosen(group, other, candidate) => other,
        _ => candidate,
    }
}

/// Of the candidates whose prefixes contain a group the one that is chosen. They are looked at one after the other.
pub(crate) fn chosen_among(candidates: &[RpCandidate], group: Addr) -> Option<RpCandidate>
    ensures { result ≡ chosen_among candidates.now group.bits }
{
    let mut best: Option<RpCandidate> = None;
    let mut left = candidates.len();
    while left > 0 {
        left -= 1;
        let candidate = candidates[left];
        if candidate.prefix.contains(group) {
            best = Some(chosen(group, candidate, best));
        }
    }
    best
}

/// The RP of a range and of a candidate for a group, if there are any: that of the longer prefix, of one prefix the
/// range's.
pub(crate) fn nearer_rp(range: Option<RpRange>, candidate: Option<RpCandidate>) -> Option<Addr>
    ensures { option_map (λ rp. rp.bits) result ≡ nearer_rp range candidate }
{
    match (range, candidate) {
        (Some(range), Some(candidate)) => {
            if range.prefix.length < candidate.prefix.length {
                Some(candidate.rp)
            } else {
                Some(range.rp)
            }
        }
        (Some(range), None) => Some(range.rp),
        (None, Some(candidate)) => Some(candidate.rp),
        (None, None) => None,
    }
}
