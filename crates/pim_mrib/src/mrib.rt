//! The unicast routes, the RP ranges and the candidate RPs of a router.
ghost use Rattle.std.specs.List.{list_any};
ghost use Rattle.std.specs.Prelude.{◌≡◌, ◌==◌, ◌<◌, ◌≤◌, ◌^◌, ◌↔◌, [], Ok, Err, IfOk, IfErr, IfSome, IsTrue, OnErr, OnOk, if◌then◌else◌, option_map, true, ℕ, List};
ghost use Rattle.pim_ip.specs.declared.fault.Fault.{Fault};
ghost use Rattle.pim_ip.specs.declared.refusal.Refusal.{Refusal};
ghost use Rattle.pim_trie.specs.Meter.{raised};
ghost use Rattle.pim_model.specs.Limits.{are_candidates, are_routes, are_rps};
ghost use Rattle.pim_model.specs.Unicast.{any_rp, link_path, route_among, route_path, rp_among, with_candidates, with_ranges};
ghost use Rattle.pim_mrib.specs.Hops.{AreNextHops};
ghost use Rattle.pim_mrib.specs.Routes.{route_nodes, rp_nodes, table_of};
ghost use Rattle.pim_model.specs.Tables.{Table};
ghost use Rattle.pim_model.specs.State.{Addressing};
ghost use Rattle.pim_types.specs.declared.fact.InterfaceRow.{InterfaceRow};

use crate::choice::{chosen_among, nearer_rp};
use crate::limits::{are_distinct_candidates, each_is_candidate, each_is_route, each_is_rp_range};
use crate::prefix_list::{PrefixList, Prefixed, are_same};
use pim_ifaces::Interfaces;
use pim_trie::Meter;
use pim_types::{
    Addr, Fault, IfaceId, Path, Prefix, Refusal, Route, RpCandidate, RpRange, RpTable, Series,
};
use std::alloc::{AllocError, Global};
use std::collections::BTreeSet;
use std::marker::Model;
use std::mem;

impl Prefixed for Route {
    ghost prefix_of = { λ route. route.prefix };

    fn prefix(&self) -> Prefix {
        self.prefix
    }

    fn is_same(&self, other: &Route) -> bool {
        is_same_prefix(self.prefix, other.prefix)
            && self.next_hop == other.next_hop
            && self.iface == other.iface
            && self.preference == other.preference
            && self.metric == other.metric
    }
}

impl Prefixed for RpRange {
    ghost prefix_of = { λ range. range.prefix };

    fn prefix(&self) -> Prefix {
        self.prefix
    }

    fn is_same(&self, other: &RpRange) -> bool {
        is_same_prefix(self.prefix, other.prefix) && self.rp == other.rp
    }
}

impl Prefixed for RpCandidate {
    ghost prefix_of = { λ candidate. candidate.prefix };

    fn prefix(&self) -> Prefix {
        self.prefix
    }

    fn is_same(&self, other: &RpCandidate) -> bool {
        is_same_prefix(self.prefix, other.prefix)
            && self.rp == other.rp
            && self.priority == other.priority
            && self.hash_length == other.hash_length
    }
}

/// The unicast routes, the RP ranges and the candidate RPs of a router, each in the order in which they were given.
pub struct Mrib {
    alloc: Global,
    routes: PrefixList<Route>,
    static_ranges: PrefixList<RpRange>,
    candidates: Vec<RpCandidate>,
    // The next hops of the routes, each once.
    hops: BTreeSet<Addr>,
}

// Written out, so that it is proved once (docs/PROOF_NOTES.md, Drops).
impl Drop for Mrib {
    fn drop(self) {
        let Mrib {
            alloc: _,
            routes: _,
            static_ranges: _,
            candidates: _,
            hops: _,
        } = self;
    }
}

impl Model for Mrib {
    ghost use Rattle.std.specs.Prelude.{◌≡◌, true};
    ghost use Rattle.pim_model.specs.Limits.{are_candidates};
    ghost use Rattle.pim_mrib.specs.Hops.{AreNextHops};
    ghost use Rattle.pim_mrib.specs.Routes.{RouteTable, are_preferred, table_of};

    ghost Value = { RouteTable };

    ghost view = { λ a. record { routes = a.routes; ranges = table_of a.static_ranges a.candidates.items } };

    ghost invariant = { λ a. (are_preferred a.routes ≡ true) × AreNextHops a.routes a.hops.keys
        × (are_candidates a.candidates.items ≡ true) };
}

impl Mrib {
    /// No routes, no ranges and no candidates; it takes no memory.
    #[tactic(auto, unfolding(pim_model::specs::Limits::are_candidates, pim_model::specs::Limits::are_distinct_candidates))]
    pub fn new(alloc: Global) -> Self
        ensures { result ≡ record { routes = []; ranges = table_of [] [] } }
    {
        Mrib {
            alloc,
            routes: PrefixList::new(alloc),
            static_ranges: PrefixList::new(alloc),
            candidates: Vec::new(alloc),
            hops: BTreeSet::new(alloc),
        }
    }

    /// Puts these routes in the place of the others, or refuses them, and then nothing has
    /// changed: there are at most 100,000, their prefixes are distinct with no host bit set, each is
    /// over a configured interface to another router's address, with a preference of at most
    /// 0x7FFFFFFE.
    #[tactic(auto, using(crate::proofs::Accepted::accepted))]
    pub fn replace(
        &mut self,
        interfaces: &Interfaces,
        routes: &[Route],
        meter: &mut Meter,
    ) -> Result<Result<(), Refusal>, Fault>
        ensures answer { IfOk result (λ answer. answer ≡ (if are_routes interfaces.now.configured routes.now then Ok tt else Err Refusal.BadRoutes)) }
        ensures new { IfOk result (λ _. self.new ≡ (if are_routes interfaces.now.configured routes.now then record self.old { routes = routes.now } else self.old)) }
        ensures err { OnErr result (self.new ≡ self.old) }
        ensures memory { IfErr result (λ fault. fault ≡ Fault.Memory) }
    {
        if !each_is_route(interfaces, routes) {
            return Ok(Err(Refusal::BadRoutes));
        }
        let hops = next_hops(self.alloc, routes)?;
        if !self.routes.replace(routes, meter)? {
            return Ok(Err(Refusal::BadRoutes));
        }
        self.hops = hops;
        Ok(Ok(()))
    }

    /// Puts these RP ranges in the place of the others, or refuses them, and then nothing has
    /// changed: there are at most 256, their prefixes are distinct, inside 224.0.0.0/4 with no host
    /// bit set, and each RP is a unicast address.
    #[tactic(auto, using(crate::proofs::Accepted::accepted))]
    pub fn replace_rps(
        &mut self,
        ranges: &[RpRange],
        meter: &mut Meter,
    ) -> Result<Result<(), Refusal>, Fault>
        ensures answer { IfOk result (λ answer. answer ≡ (if are_rps ranges.now then Ok tt else Err Refusal.BadRps)) }
        ensures new { IfOk result (λ _. self.new ≡ (if are_rps ranges.now then record self.old { ranges = with_ranges self.old.ranges ranges.now } else self.old)) }
        ensures err { OnErr result (self.new ≡ self.old) }
        ensures memory { IfErr result (λ fault. fault ≡ Fault.Memory) }
    {
        if !each_is_rp_range(ranges) {
            return Ok(Err(Refusal::BadRps));
        }
        if !self.static_ranges.replace(ranges, meter)? {
            return Ok(Err(Refusal::BadRps));
        }
        Ok(Ok(()))
    }

    /// Puts these candidate RPs in the place of the others, or refuses them, and then nothing has changed: there are at
    /// most 256, no RP is listed twice for a prefix, their prefixes are inside 224.0.0.0/4 with no host bit set, each RP
    /// is a unicast address, priorities are at most 255 and masks of the hash function at most 32.
    pub fn replace_candidates(
        &mut self,
        candidates: &[RpCandidate],
    ) -> Result<Result<(), Refusal>, Fault>
        ensures answer { IfOk result (λ answer. answer ≡ (if are_candidates candidates.now then Ok tt else Err Refusal.BadCandidates)) }
        ensures new { IfOk result (λ _. self.new ≡ (if are_candidates candidates.now
            then record self.old { ranges = with_candidates self.old.ranges candidates.now } else self.old)) }
        ensures err { OnErr result (self.new ≡ self.old) }
        ensures memory { IfErr result (λ fault. fault ≡ Fault.Memory) }
    {
        if !are_candidates(candidates) {
            return Ok(Err(Refusal::BadCandidates));
        }
        self.candidates = Vec::from_slice(self.alloc, candidates)?;
        Ok(Ok(()))
    }

    /// Puts the RP ranges of another in the place of its own.
    pub fn copy_ranges(&mut self, other: &Mrib, meter: &mut Meter) -> Result<(), AllocError>
        ensures new { OnOk result (self.new ≡ record self.old { ranges = with_ranges self.old.ranges other.now.ranges.static_ranges }) }
        ensures err { OnErr result (self.new ≡ self.old) }
    {
        self.static_ranges = other.static_ranges.copy(meter)?;
        Ok(())
    }

    /// Puts the candidate RPs of another in the place of its own.
    pub fn copy_candidates(&mut self, other: &Mrib) -> Result<(), AllocError>
        ensures new { OnOk result (self.new ≡ record self.old { ranges = with_candidates self.old.ranges other.now.ranges.candidates }) }
        ensures err { OnErr result (self.new ≡ self.old) }
    {
        self.candidates = Vec::from_slice(self.alloc, other.candidates.as_slice())?;
        Ok(())
    }

    /// The routes, in the order in which they were given.
    pub fn routes(&self) -> &[Route]
        ensures { result.now ≡ self.now.routes }
    {
        self.routes.as_slice()
    }

    /// The RP ranges, in the order in which they were given.
    pub fn static_ranges(&self) -> &[RpRange]
        ensures { result.now ≡ self.now.ranges.static_ranges }
    {
        self.static_ranges.as_slice()
    }

    /// The candidate RPs, in the order in which they were given.
    pub fn candidates(&self) -> &[RpCandidate]
        ensures { result.now ≡ self.now.ranges.candidates }
    {
        self.candidates.as_slice()
    }

    /// Whether these are its routes, in their order.
    pub fn has_routes(&self, routes: &[Route]) -> bool
        ensures { IsTrue result ↔ (self.now.routes ≡ routes.now) }
    {
        self.routes.are(routes)
    }

    /// Whether these are its RP ranges, in their order.
    pub fn has_static_ranges(&self, ranges: &[RpRange]) -> bool
        ensures { IsTrue result ↔ (self.now.ranges.static_ranges ≡ ranges.now) }
    {
        self.static_ranges.are(ranges)
    }

    /// Whether these are its candidate RPs, in their order.
    pub fn has_candidates(&self, candidates: &[RpCandidate]) -> bool
        ensures { IsTrue result ↔ (self.now.ranges.candidates ≡ candidates.now) }
    {
        are_same(self.candidates.as_slice(), candidates)
    }

    /// Whether these are its RP ranges and its candidate RPs, in their order.
    pub fn has_ranges(&self, ranges: &RpTable) -> bool
        ensures { IsTrue result ↔ (self.now.ranges ≡ ranges.now) }
    {
        self.has_static_ranges(ranges.static_ranges.as_slice())
            && self.has_candidates(ranges.candidates.as_slice())
    }

    /// Whether it has the RP ranges and the candidate RPs of the other, in their order.
    pub fn has_ranges_of(&self, other: &Mrib) -> bool
        ensures { IsTrue result ↔ (self.now.ranges ≡ other.now.ranges) }
    {
        self.has_static_ranges(other.static_ranges()) && self.has_candidates(other.candidates())
    }

    /// Its RP ranges and its candidate RPs, as lists of their own.
    pub fn copied_ranges(&self) -> Result<RpTable, AllocError>
        ensures { IfOk result (λ ranges. ranges ≡ self.now.ranges) }
    {
        let ranges = Vec::from_slice(self.alloc, self.static_ranges())?;
        let candidates = Vec::from_slice(self.alloc, self.candidates())?;
        Ok(RpTable {
            static_ranges: Series::from_vec(ranges),
            candidates: Series::from_vec(candidates),
        })
    }

    /// Whether a route has the address as its next hop.
    pub fn is_next_hop(&self, address: Addr) -> bool
        ensures { result ≡ list_any (λ route. route.next_hop.bits == address.bits) self.now.routes }
    {
        self.hops.contains(&address)
    }

    /// Whether the address is the RP of a range or a candidate.
    pub fn is_some_rp(&self, address: Addr) -> bool
        ensures { result ≡ any_rp (λ rp. rp == address.bits) self.now.ranges }
    {
        is_range_rp(self.static_ranges(), address) || is_candidate_rp(self.candidates(), address)
    }

    /// Takes the routes of another in the place of its own, and hands that one back with its own.
    pub fn take_routes(&mut self, other: Mrib) -> Mrib
        ensures new { self.new ≡ record self.old { routes = other.routes } }
        ensures back { result ≡ record other { routes = self.old.routes } }
    {
        let Mrib {
            alloc,
            routes,
            static_ranges,
            candidates,
            hops,
        } = other;
        Mrib {
            alloc,
            routes: mem::replace(&mut self.routes, routes),
            static_ranges,
            candidates,
            hops: mem::replace(&mut self.hops, hops),
        }
    }

    /// Takes the RP ranges and the candidate RPs of another in the place of its own, and hands that one back with its own.
    pub fn take_ranges(&mut self, other: Mrib) -> Mrib
        ensures new { self.new ≡ record self.old { ranges = other.ranges } }
        ensures back { result ≡ record other { ranges = self.old.ranges } }
    {
        let Mrib {
            alloc,
            routes,
            static_ranges,
            candidates,
            hops,
        } = other;
        Mrib {
            alloc,
            routes,
            static_ranges: mem::replace(&mut self.static_ranges, static_ranges),
            candidates: mem::replace(&mut self.candidates, candidates),
            hops,
        }
    }

    /// The route to the address: none to one of the router's own, over the first link that it lies
    /// on, or else the route with the longest prefix, none where its interface is down. The meter
    /// counts the trie nodes that were visited.
    #[tactic(auto, using(crate::proofs::Routed::routed))]
    pub fn route(&self, interfaces: &Interfaces, address: Addr, meter: &mut Meter) -> Option<Path>
        ensures value { result ≡ route_among interfaces.now.configured interfaces.now.rows self.now.routes address.bits }
        ensures visited { meter.new ≡ raised meter.old (route_nodes interfaces.now.configured interfaces.now.rows self.now.routes address.bits) }
        ensures at_most { route_nodes interfaces.now.configured interfaces.now.rows self.now.routes address.bits ≤ 33 }
    {
        if interfaces.is_own(address) {
            return None;
        }
        if let Some(iface) = interfaces.link_to(address) {
            return Some(link_path(iface, address));
        }
        let route = self.routes.longest(address, meter)?;
        if !interfaces.is_up(route.iface) {
            return None;
        }
        Some(route_path(route))
    }

    /// The preference of every route has 31 bits, whichever interfaces are up.
    pub fn proof_short_preferences(&self)
        ensures { (configured : Addressing) (up : Table InterfaceRow) (address : ℕ)
            → IfSome (route_among configured up self.now.routes address) (λ path. path.preference < 2 ^ 31) }
    {
        // For the proof: what is known of the routes.
        let _ = &self.routes;
    }

    /// For the proof: the candidates are accepted.
    pub fn proof_candidates(&self)
        ensures { are_candidates self.now.ranges.candidates ≡ true }
    {
        let _ = &self.candidates;
    }

    /// The RP of the group (RFC 7761, section 4.7): that of the range with the longest prefix, or of a candidate whose
    /// prefix is longer. A source-specific group has none. The meter counts the trie nodes that were visited.
    #[tactic(auto, using(crate::proofs::Routed::routed))]
    pub fn rp(&self, group: Addr, meter: &mut Meter) -> Option<Addr>
        ensures value { option_map (λ rp. rp.bits) result ≡ rp_among self.now.ranges group.bits }
        ensures visited { meter.new ≡ raised meter.old (rp_nodes self.now.ranges group.bits) }
        ensures at_most { rp_nodes self.now.ranges group.bits ≤ 33 }
    {
        if group.is_source_specific() {
            return None;
        }
        let range = self.static_ranges.longest(group, meter);
        nearer_rp(range, chosen_among(self.candidates.as_slice(), group))
    }
}

// Whether the candidates are accepted.
#[tactic(auto, unfolding(pim_model::specs::Limits::are_candidates))]
fn are_candidates(candidates: &[RpCandidate]) -> bool
    ensures { result ≡ are_candidates candidates.now }
{
    each_is_candidate(candidates) && are_distinct_candidates(candidates)
}

// Whether the address is the RP of a range.
fn is_range_rp(ranges: &[RpRange], address: Addr) -> bool
    ensures { result ≡ list_any (λ range. range.rp.bits == address.bits) ranges.now }
{
    ranges.iter().any(|range| range.rp == address)
}

// Whether the address is the RP of a candidate.
fn is_candidate_rp(candidates: &[RpCandidate], address: Addr) -> bool
    ensures { result ≡ list_any (λ candidate. candidate.rp.bits == address.bits) candidates.now }
{
    candidates.iter().any(|candidate| candidate.rp == address)
}

// The next hops of the routes, each once.
fn next_hops(alloc: Global, routes: &[Route]) -> Result<BTreeSet<Addr>, AllocError>
    ensures { IfOk result (λ hops. AreNextHops routes.now hops.keys) }
{
    let mut hops = BTreeSet::new(alloc);
    for route in routes {
        hops.insert(route.next_hop)?;
    }
    Ok(hops)
}

// Whether they are the same prefix.
fn is_same_prefix(first: Prefix, second: Prefix) -> bool
    ensures { IsTrue result ↔ (first ≡ second) }
{
    first.address == second.address && first.length == second.length
}

// The path to an address on a link.
fn link_path(iface: IfaceId, address: Addr) -> Path
    ensures { result ≡ link_path address.bits iface.number }
{
    Path {
        iface,
        next_hop: address,
        preference: 0,
        metric: 0,
        is_connected: true,
    }
}

// The path over a route.
fn route_path(route: Route) -> Path
    ensures { result ≡ route_path route }
{
    Path {
        iface: route.iface,
        next_hop: route.next_hop,
        preference: route.preference,
        metric: route.metric,
        is_connected: false,
    }
}
