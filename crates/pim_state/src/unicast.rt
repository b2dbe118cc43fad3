//! Unicast routes and RPs in the present state (RFC 7761, section 4.1.5).
ghost use Rattle.std.specs.List.{list_any};
ghost use Rattle.std.specs.Prelude.{◌≡◌, ◌==◌, ℕ, option_map, true};
ghost use Rattle.pim_ip.specs.Prefixes.{contains};
ghost use Rattle.pim_model.specs.Limits.{are_candidates};
ghost use Rattle.pim_model.specs.Unicast.{any_rp, is_rp, route, rp_of, rp_route};
ghost use Rattle.pim_mrib.specs.Routes.{rp_nodes};
ghost use Rattle.pim_trie.specs.Meter.{raised};
ghost use Rattle.pim_state.specs.Short.{IsShort};

use crate::world::World;
use pim_ip::Prefix;
use pim_trie::Meter;
use pim_types::{Addr, IfaceId, Path, RpCandidate, RpRange};

impl World {
    /// RP(G): none of a source-specific group. The meter rises by the nodes visited, 33 at most.
    #[tactic(auto, unfolding(pim_model::specs::Unicast::rp_of))]
    pub fn rp(&self, group: Addr, meter: &mut Meter) -> Option<Addr>
        ensures value { option_map (λ a. a.bits) result ≡ rp_of self.now group.bits }
        ensures visited { meter.new ≡ raised meter.old (rp_nodes self.now.ranges group.bits) }
    {
        self.mrib.rp(group, meter)
    }

    /// Whether the address is RP(G). The meter rises by the nodes visited, 33 at most.
    pub fn is_rp(&self, group: Addr, address: Addr, meter: &mut Meter) -> bool
        ensures { result ≡ is_rp self.now group.bits address.bits }
    {
        match self.rp(group, meter) {
            Some(rp) => rp == address,
            None => false,
        }
    }

    /// The route to the address. The meter rises by the nodes visited, 33 at most.
    #[tactic(auto, unfolding(pim_model::specs::Unicast::route))]
    pub fn route(&self, address: Addr, meter: &mut Meter) -> Option<Path>
        ensures { result ≡ route self.now address.bits }
    {
        self.mrib.route(&self.interfaces, address, meter)
    }

    /// The route to the given RP(G). The meter rises by the nodes visited, 33 at most.
    #[tactic(auto, using(crate::proofs::Options::next_of_some, crate::proofs::Options::next_of_none), unfolding(pim_model::specs::Unicast::rp_route))]
    pub fn rp_route(&self, group: Addr, rp: Option<Addr>, meter: &mut Meter) -> Option<Path>
        requires { option_map (λ a. a.bits) rp ≡ rp_of self.now group.bits }
        ensures { result ≡ rp_route self.now group.bits }
    {
        match rp {
            Some(rp) => self.route(rp, meter),
            None => None,
        }
    }

    /// Whether a route has the address as its next hop.
    pub fn is_next_hop(&self, address: Addr) -> bool
        ensures { result ≡ list_any (λ route. route.next_hop.bits == address.bits) self.now.routes }
    {
        self.mrib.is_next_hop(address)
    }

    /// Whether the address is the RP of a range or a candidate.
    pub fn is_some_rp(&self, address: Addr) -> bool
        ensures { result ≡ any_rp (λ rp. rp == address.bits) self.now.ranges }
    {
        self.mrib.is_some_rp(address)
    }

    /// Whether a route is over the interface.
    pub fn has_route_over(&self, iface: IfaceId) -> bool
        ensures { result ≡ list_any (λ route. route.iface.number == iface.number) self.now.routes }
    {
        self.mrib.routes().iter().any(|route| route.iface == iface)
    }

    /// Whether a range or a candidate has its RP in the prefix.
    pub fn has_rp_in(&self, prefix: Prefix) -> bool
        ensures { result ≡ any_rp (contains prefix) self.now.ranges }
    {
        has_range_rp_in(self.mrib.static_ranges(), prefix)
            || has_candidate_rp_in(self.mrib.candidates(), prefix)
    }

    /// For the proof: the candidates are accepted.
    pub fn proof_candidates(&self)
        ensures { are_candidates self.now.ranges.candidates ≡ true }
    {
        self.mrib.proof_candidates();
    }

    /// For the proof: the preferences of all routes have 31 bits.
    pub fn proof_short_preferences(&self)
        ensures source { (address : ℕ) → IsShort (route self.now address) }
        ensures group { (group : ℕ) → IsShort (rp_route self.now group) }
    {
        self.mrib.proof_short_preferences();
    }
}

// Whether a range has its RP in the prefix.
fn has_range_rp_in(ranges: &[RpRange], prefix: Prefix) -> bool
    ensures { result ≡ list_any (λ range. contains prefix range.rp.bits) ranges.now }
{
    ranges.iter().any(|range| prefix.contains(range.rp))
}

// Whether a candidate has its RP in the prefix.
fn has_candidate_rp_in(candidates: &[RpCandidate], prefix: Prefix) -> bool
    ensures { result ≡ list_any (λ candidate. contains prefix candidate.rp.bits) candidates.now }
{
    candidates
        .iter()
        .any(|candidate| prefix.contains(candidate.rp))
}
