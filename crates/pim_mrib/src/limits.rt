//! Which routes, RP ranges and candidate RPs a router takes.
ghost use Rattle.std.specs.Prelude.{◌≡◌, ◌&&◌, length, nat_le};
ghost use Rattle.std.specs.List.{list_all, list_any};
ghost use Rattle.pim_model.specs.Limits.{are_distinct_candidates, is_candidate, is_route, is_rp_range, most_candidates, most_routes, most_rps, same_candidate};

use pim_ifaces::Interfaces;
use pim_trie::is_canonical;
use pim_types::{Route, RpCandidate, RpRange};

// The most routes, the most RP ranges, and the most candidates.
const MOST_ROUTES: usize = 100_000;

const MOST_RANGES: usize = 256;

const MOST_CANDIDATES: usize = 256;

// The greatest priority of a candidate, and the longest mask of the hash function.
const MOST_PRIORITY: u32 = 255;

const LONGEST_MASK: u32 = 32;

// The greatest preference of a route: the one above it is that of a router without a route.
const MOST_PREFERENCE: u32 = 0x7fff_fffe;

// Whether the routes are few enough, and each is one that the router takes.
pub(crate) fn each_is_route(interfaces: &Interfaces, routes: &[Route]) -> bool
    ensures { result ≡ (nat_le (length routes.now) most_routes && list_all (is_route interfaces.now.configured) routes.now) }
{
    if routes.len() > MOST_ROUTES {
        return false;
    }
    for route in routes {
        if !is_route(interfaces, *route) {
            return false;
        }
    }
    true
}

// Whether the route has a prefix that a trie can hold, and leads over a configured interface to
// another router's address.
#[tactic(auto, unfolding(pim_model::specs::Limits::is_route, pim_trie::specs::Entries::is_canonical))]
fn is_route(interfaces: &Interfaces, route: Route) -> bool
    ensures { result ≡ is_route interfaces.now.configured route }
{
    is_canonical(route.prefix)
        && route.iface.number < interfaces.count()
        && route.next_hop.is_unicast()
        && !interfaces.is_own(route.next_hop)
        && route.preference <= MOST_PREFERENCE
}

// Whether the RP ranges are few enough, and each is one that the router takes.
pub(crate) fn each_is_rp_range(ranges: &[RpRange]) -> bool
    ensures { result ≡ (nat_le (length ranges.now) most_rps && list_all is_rp_range ranges.now) }
{
    if ranges.len() > MOST_RANGES {
        return false;
    }
    for range in ranges {
        if !is_rp_range(*range) {
            return false;
        }
    }
    true
}

// Whether the range lies inside 224.0.0.0/4 and its RP is a unicast address.
#[tactic(auto, unfolding(pim_model::specs::Limits::is_rp_range, pim_trie::specs::Entries::is_canonical))]
fn is_rp_range(range: RpRange) -> bool
    ensures { result ≡ is_rp_range range }
{
    is_canonical(range.prefix)
        && range.prefix.address.is_multicast()
        && range.prefix.length >= 4
        && range.rp.is_unicast()
}

// Whether the candidates are few enough, and each is one that the router takes.
pub(crate) fn each_is_candidate(candidates: &[RpCandidate]) -> bool
    ensures { result ≡ (nat_le (length candidates.now) most_candidates && list_all is_candidate candidates.now) }
{
    if candidates.len() > MOST_CANDIDATES {
        return false;
    }
    for candidate in candidates {
        if !is_candidate(*candidate) {
            return false;
        }
    }
    true
}

// Whether the candidate's range lies inside 224.0.0.0/4, its RP is a unicast address, and its priority and its mask have a
// meaning.
#[tactic(auto, unfolding(pim_model::specs::Limits::is_candidate, pim_trie::specs::Entries::is_canonical))]
fn is_candidate(candidate: RpCandidate) -> bool
    ensures { result ≡ is_candidate candidate }
{
    is_canonical(candidate.prefix)
        && candidate.prefix.address.is_multicast()
        && candidate.prefix.length >= 4
        && candidate.rp.is_unicast()
        && candidate.priority <= MOST_PRIORITY
        && candidate.hash_length <= LONGEST_MASK
}

// Whether two candidates have the same prefix and the same RP.
fn is_same_candidate(first: RpCandidate, second: RpCandidate) -> bool
    ensures { result ≡ same_candidate first second }
{
    first.prefix.address.bits == second.prefix.address.bits
        && first.prefix.length == second.prefix.length
        && first.rp.bits == second.rp.bits
}

// Whether one of the candidates has the same prefix and the same RP.
fn is_listed(candidate: RpCandidate, candidates: &[RpCandidate]) -> bool
    ensures { result ≡ list_any (same_candidate candidate) candidates.now }
{
    for other in candidates {
        if is_same_candidate(candidate, *other) {
            return true;
        }
    }
    false
}

// Whether no RP is listed twice for a prefix.
pub(crate) fn are_distinct_candidates(candidates: &[RpCandidate]) -> bool
    ensures { result ≡ are_distinct_candidates candidates.now }
{
    let mut left = candidates.len();
    while left > 0 {
        left -= 1;
        if is_listed(candidates[left], &candidates[left + 1..]) {
            return false;
        }
    }
    true
}
