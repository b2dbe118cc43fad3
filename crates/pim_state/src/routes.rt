//! Which routes, RP ranges and candidate RPs the router accepts, and how they become the router's: a table of them is made
//! to test them, and that table is used from then on.
ghost use Rattle.std.specs.Prelude.{◌≡◌, ◌↔◌, IfErr, IfOk, IsTrue, OnOk, false, true};
ghost use Rattle.pim_ip.specs.declared.fault.Fault.{Fault};
ghost use Rattle.pim_ip.specs.declared.refusal.Refusal.{Refusal};
ghost use Rattle.pim_model.specs.Limits.{are_candidates, are_routes, are_rps};
ghost use Rattle.pim_model.specs.Unicast.{with_candidates, with_ranges};

use crate::world::World;
use pim_mrib::Mrib;
use pim_trie::Meter;
use pim_types::{Fault, Refusal, Route, RpCandidate, RpRange, RpTable};
use std::alloc::{AllocError, Global};

impl World {
    /// A table of the routes that are to replace the present ones, if they pass their test: each is over a configured
    /// interface, and no prefix is listed twice. The meter rises by the nodes visited.
    pub fn table_of_routes(
        &self,
        alloc: Global,
        routes: &[Route],
        meter: &mut Meter,
    ) -> Result<Result<Mrib, Refusal>, Fault>
        ensures made { IfOk result (λ tested. IfOk tested (λ table.
            (are_routes self.now.configured routes.now ≡ true) × (table.routes ≡ routes.now))) }
        ensures refused { IfOk result (λ tested. IfErr tested (λ refusal.
            (are_routes self.now.configured routes.now ≡ false) × (refusal ≡ Refusal.BadRoutes))) }
        ensures memory { IfErr result (λ fault. fault ≡ Fault.Memory) }
    {
        let mut table = Mrib::new(alloc);
        match table.replace(&self.interfaces, routes, meter)? {
            Ok(()) => Ok(Ok(table)),
            Err(refusal) => Ok(Err(refusal)),
        }
    }

    /// The routes, in the order in which they were given.
    pub fn routes(&self) -> &[Route]
        ensures { result.now ≡ self.now.routes }
    {
        self.mrib.routes()
    }

    /// The RP ranges, in the order in which they were given.
    pub fn static_ranges(&self) -> &[RpRange]
        ensures { result.now ≡ self.now.ranges.static_ranges }
    {
        self.mrib.static_ranges()
    }

    /// The candidate RPs, in the order in which they were given.
    pub fn candidates(&self) -> &[RpCandidate]
        ensures { result.now ≡ self.now.ranges.candidates }
    {
        self.mrib.candidates()
    }

    /// Whether these are the present routes, in their order.
    pub fn has_routes(&self, routes: &[Route]) -> bool
        ensures { IsTrue result ↔ (self.now.routes ≡ routes.now) }
    {
        self.mrib.has_routes(routes)
    }

    /// Whether these are the present RP ranges, in their order.
    pub fn has_static_ranges(&self, ranges: &[RpRange]) -> bool
        ensures { IsTrue result ↔ (self.now.ranges.static_ranges ≡ ranges.now) }
    {
        self.mrib.has_static_ranges(ranges)
    }

    /// Whether these are the present RP ranges and candidates, in their order.
    pub fn has_ranges(&self, ranges: &RpTable) -> bool
        ensures { IsTrue result ↔ (self.now.ranges ≡ ranges.now) }
    {
        self.mrib.has_ranges(ranges)
    }

    /// Whether the table has the present RP ranges and candidates, in their order.
    pub fn has_ranges_of(&self, table: &Mrib) -> bool
        ensures { IsTrue result ↔ (self.now.ranges ≡ table.now.ranges) }
    {
        self.mrib.has_ranges_of(table)
    }

    /// Replaces the routes by those of another table, which comes back with the routes that were replaced.
    pub fn take_routes(&mut self, other: Mrib) -> Mrib
        ensures new { self.new ≡ record self.old { routes = other.routes } }
        ensures back { result.routes ≡ self.old.routes }
    {
        self.mrib.take_routes(other)
    }

    /// Replaces the RP ranges and the candidates by those of another table, which comes back with what was replaced.
    pub fn take_ranges(&mut self, other: Mrib) -> Mrib
        ensures new { self.new ≡ record self.old { ranges = other.ranges } }
        ensures back { result.ranges ≡ self.old.ranges }
    {
        self.mrib.take_ranges(other)
    }

    /// Puts the present candidates into another table.
    pub fn give_candidates(&self, table: &mut Mrib) -> Result<(), AllocError>
        ensures { OnOk result (table.new
            ≡ record table.old { ranges = with_candidates table.old.ranges self.now.ranges.candidates }) }
    {
        table.copy_candidates(&self.mrib)
    }

    /// A table of the RP ranges that are to replace the present ones, beside the present candidates, if they pass their
    /// test: each has an RP, and no prefix is listed twice. The meter rises by the nodes visited.
    pub fn table_of_ranges(
        &self,
        alloc: Global,
        ranges: &[RpRange],
        meter: &mut Meter,
    ) -> Result<Result<Mrib, Refusal>, Fault>
        ensures made { IfOk result (λ tested. IfOk tested (λ table.
            (are_rps ranges.now ≡ true) × (table.ranges ≡ with_ranges self.now.ranges ranges.now))) }
        ensures refused { IfOk result (λ tested. IfErr tested (λ refusal.
            (are_rps ranges.now ≡ false) × (refusal ≡ Refusal.BadRps))) }
        ensures memory { IfErr result (λ fault. fault ≡ Fault.Memory) }
    {
        let mut table = Mrib::new(alloc);
        if let Err(refusal) = table.replace_rps(ranges, meter)? {
            return Ok(Err(refusal));
        }
        self.give_candidates(&mut table)?;
        Ok(Ok(table))
    }

    /// A table of the candidates that are to replace the present ones, beside the present RP ranges, if they pass their
    /// test: no RP is listed twice for a prefix. The meter rises by the nodes visited.
    pub fn table_of_candidates(
        &self,
        alloc: Global,
        candidates: &[RpCandidate],
        meter: &mut Meter,
    ) -> Result<Result<Mrib, Refusal>, Fault>
        ensures made { IfOk result (λ tested. IfOk tested (λ table.
            (are_candidates candidates.now ≡ true) × (table.ranges ≡ with_candidates self.now.ranges candidates.now))) }
        ensures refused { IfOk result (λ tested. IfErr tested (λ refusal.
            (are_candidates candidates.now ≡ false) × (refusal ≡ Refusal.BadCandidates))) }
        ensures memory { IfErr result (λ fault. fault ≡ Fault.Memory) }
    {
        let mut table = Mrib::new(alloc);
        if let Err(refusal) = table.replace_candidates(candidates)? {
            return Ok(Err(refusal));
        }
        table.copy_ranges(&self.mrib, meter)?;
        Ok(Ok(table))
    }
}
