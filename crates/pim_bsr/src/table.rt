//! The RPs in force and those that wait for the rest of their message.
ghost use Rattle.std.specs.Prelude.{◌≡◌, ◌++◌, ◌^◌, ◌≤◌, [], filter, fold, map, min, IfOk, OnOk};
ghost use Rattle.pim_bsr.specs.Table.{at_time, completed, emptied, fitting, has_holdtime, is_tagged, kept_count, learned_of, masks_after, message_id, part_of, parts_after, range_prefix, runs, waiting, waits, with_mask, with_part, with_parts, with_range, with_ranges, without, without_parts};

use crate::choice::same_prefix;
use crate::learned::{Learned, Part};
use pim_bootstrap::{CandidateRp, Candidates, RangeView, Ranges};
use pim_ip::{Addr, Prefix};
use pim_mrib::masked;
use std::alloc::{AllocError, Global};
use std::marker::Model;

/// BS_Timeout (RFC 5059, section 5), in ms.
pub(crate) const BS_TIMEOUT: u64 = 130_000;

/// When a message came, in ms, and what all its ranges have.
#[derive(Clone, Copy)]
pub(crate) struct Arrival {
    pub(crate) moment: u64,
    pub(crate) bsr: Addr,
    pub(crate) tag: u16,
    pub(crate) hash_length: u8,
}

/// The prefix of a range.
fn range_prefix(range: &RangeView<'_>) -> Prefix
    ensures { result ≡ range_prefix range.now }
{
    let length = range.length();
    Prefix {
        address: Addr::from(masked(u32::from(length), range.group()) as u32),
        length: u32::from(length),
    }
}

/// An RP of a range as a part of a message.
fn part_of(arrival: Arrival, prefix: Prefix, rp: CandidateRp) -> Part
    requires { arrival.moment ≤ 2 ^ 62 }
    ensures { result ≡ part_of arrival.moment (message_id arrival.bsr.bits arrival.tag) prefix rp }
{
    Part {
        prefix,
        rp,
        bsr: arrival.bsr,
        tag: arrival.tag,
        until: arrival.moment + BS_TIMEOUT,
    }
}

/// A part in force.
fn learned_of(arrival: Arrival, part: Part) -> Learned
    requires { arrival.moment ≤ 2 ^ 62 }
    ensures { result ≡ learned_of arrival.moment arrival.hash_length part }
{
    Learned {
        prefix: part.prefix,
        hash_length: arrival.hash_length,
        rp: part.rp.address,
        priority: part.rp.priority,
        end: arrival.moment + 1000 * u64::from(part.rp.holdtime),
    }
}

/// Whether a part is of a range, and of the message of which a fragment came.
fn is_tagged(prefix: Prefix, arrival: Arrival, part: Part) -> bool
    ensures { result ≡ is_tagged prefix (message_id arrival.bsr.bits arrival.tag) part }
{
    same_prefix(prefix, part.prefix) && part.bsr.bits == arrival.bsr.bits && part.tag == arrival.tag
}

/// Puts a part in the place of that of the same RP.
fn put_part(parts: &mut Vec<Part>, part: Part) -> Result<(), AllocError>
    ensures { OnOk result (parts.new.items ≡ with_part parts.old.items part) }
{
    parts.retain(|old| old.rp.address.bits != part.rp.address.bits);
    parts.push(part)?;
    Ok(())
}

/// Puts the RPs of a fragment in the places of the same RPs.
fn put_parts(
    parts: &mut Vec<Part>,
    arrival: Arrival,
    prefix: Prefix,
    rps: Candidates<'_>,
) -> Result<(), AllocError>
    requires { arrival.moment ≤ 2 ^ 62 }
    ensures { OnOk result (parts.new.items
        ≡ fold with_part parts.old.items (map (part_of arrival.moment (message_id arrival.bsr.bits arrival.tag) prefix) rps.entry)) }
{
    for rp in rps {
        put_part(parts, part_of(arrival, prefix, rp))?;
    }
    Ok(())
}

/// The parts of a range that came before, of the message of which a fragment came.
fn tagged(
    alloc: Global,
    parts: &[Part],
    prefix: Prefix,
    arrival: Arrival,
) -> Result<Vec<Part>, AllocError>
    ensures { IfOk result (λ found. found.items ≡ filter (is_tagged prefix (message_id arrival.bsr.bits arrival.tag)) parts.now) }
{
    let mut found = Vec::from_slice(alloc, parts)?;
    found.retain(|part| is_tagged(prefix, arrival, *part));
    Ok(found)
}

/// The parts of a range after a fragment.
#[tactic(auto, unfolding(crate::specs::Table::parts_after))]
fn parts_after(
    alloc: Global,
    arrival: Arrival,
    parts: &[Part],
    range: &RangeView<'_>,
) -> Result<Vec<Part>, AllocError>
    requires { arrival.moment ≤ 2 ^ 62 }
    ensures { IfOk result (λ after. after.items ≡ parts_after arrival.moment (message_id arrival.bsr.bits arrival.tag) parts.now range.now) }
{
    let prefix = range_prefix(range);
    let mut after = tagged(alloc, parts, prefix, arrival)?;
    put_parts(&mut after, arrival, prefix, range.rps())?;
    Ok(after)
}

/// Takes the RPs of a range away.
fn drop_rps(rps: &mut Vec<Learned>, prefix: Prefix)
    ensures { rps.new.items ≡ without prefix rps.old.items }
{
    rps.retain(|learned| !same_prefix(prefix, learned.prefix));
}

/// Takes the parts of a range away.
fn drop_parts(parts: &mut Vec<Part>, prefix: Prefix)
    ensures { parts.new.items ≡ without_parts prefix parts.old.items }
{
    parts.retain(|part| !same_prefix(prefix, part.prefix));
}

/// Gives RPs another hash mask.
fn mask_rps(rps: &mut [Learned], hash_length: u8)
    ensures { rps.new ≡ map (with_mask hash_length) rps.old }
{
    for learned in rps.iter_mut() {
        learned.hash_length = hash_length;
    }
}

/// Adds the parts that have a holdtime, in force.
fn add_rps(rps: &mut Vec<Learned>, arrival: Arrival, parts: &[Part]) -> Result<(), AllocError>
    requires { arrival.moment ≤ 2 ^ 62 }
    ensures { OnOk result (rps.new.items ≡ rps.old.items
        ++ map (learned_of arrival.moment arrival.hash_length) (filter has_holdtime parts.now)) }
{
    for part in parts {
        if part.rp.holdtime != 0 {
            rps.push(learned_of(arrival, *part))?;
        }
    }
    Ok(())
}

/// The RPs in force and the parts of messages.
#[derive(Drop)]
pub(crate) struct Table {
    rps: Vec<Learned>,
    parts: Vec<Part>,
}

impl Model for Table {
    ghost use Rattle.pim_bsr.specs.Table.{Table};

    ghost Value = { Table };

    ghost view = { λ t. record { rps = t.rps.items; parts = t.parts.items } };
}

impl Table {
    /// A table without RPs.
    pub(crate) fn nothing(alloc: Global) -> Table
        ensures { result ≡ record { rps = []; parts = [] } }
    {
        Table {
            rps: Vec::new(alloc),
            parts: Vec::new(alloc),
        }
    }

    /// A table with these.
    pub(crate) fn of(rps: Vec<Learned>, parts: Vec<Part>) -> Table
        ensures { result ≡ record { rps = rps.items; parts = parts.items } }
    {
        Table { rps, parts }
    }

    /// The RPs in force.
    pub(crate) fn rps(&self) -> &[Learned]
        ensures { result.now ≡ self.now.rps }
    {
        self.rps.as_slice()
    }

    /// The parts of messages.
    pub(crate) fn parts(&self) -> &[Part]
        ensures { result.now ≡ self.now.parts }
    {
        self.parts.as_slice()
    }

    /// A table with the same.
    pub(crate) fn copy(&self, alloc: Global) -> Result<Table, AllocError>
        ensures { IfOk result (λ copy. copy ≡ self.now) }
    {
        Ok(Table {
            rps: Vec::from_slice(alloc, self.rps.as_slice())?,
            parts: Vec::from_slice(alloc, self.parts.as_slice())?,
        })
    }

    /// How many RPs are kept, in force and in parts.
    #[tactic(auto, unfolding(crate::specs::Table::kept_count))]
    pub(crate) fn kept_count(&self) -> u64
        ensures { result ≡ kept_count self.now }
    {
        self.rps.len() as u64 + self.parts.len() as u64
    }

    // No RPs of a range are left.
    fn empty(&mut self, prefix: Prefix)
        ensures { self.new ≡ emptied prefix self.old }
    {
        drop_rps(&mut self.rps, prefix);
        drop_parts(&mut self.parts, prefix);
    }

    // All parts of a range have come.
    fn complete(
        &mut self,
        arrival: Arrival,
        prefix: Prefix,
        parts: &[Part],
    ) -> Result<(), AllocError>
        requires { arrival.moment ≤ 2 ^ 62 }
        ensures { OnOk result (self.new ≡ completed arrival.moment arrival.hash_length prefix self.old parts.now) }
    {
        drop_rps(&mut self.rps, prefix);
        add_rps(&mut self.rps, arrival, parts)?;
        drop_parts(&mut self.parts, prefix);
        Ok(())
    }

    // Other parts of a range haven't come.
    fn wait(&mut self, prefix: Prefix, parts: &[Part]) -> Result<(), AllocError>
        ensures { OnOk result (self.new ≡ waiting prefix self.old parts.now) }
    {
        drop_parts(&mut self.parts, prefix);
        self.parts.extend_from_slice(parts)?;
        Ok(())
    }

    // The parts of a range, of which as many are to come.
    fn put(
        &mut self,
        arrival: Arrival,
        prefix: Prefix,
        count: u8,
        parts: &[Part],
    ) -> Result<(), AllocError>
        requires { arrival.moment ≤ 2 ^ 62 }
        ensures { OnOk result (self.new
            ≡ with_parts arrival.moment arrival.hash_length prefix count self.old parts.now) }
    {
        if usize::from(count) <= parts.len() {
            return self.complete(arrival, prefix, parts);
        }
        self.wait(prefix, parts)
    }

    // A range of a message.
    #[tactic(auto, unfolding(crate::specs::Table::with_range))]
    fn learn_range(
        &mut self,
        alloc: Global,
        arrival: Arrival,
        range: &RangeView<'_>,
    ) -> Result<(), AllocError>
        requires { arrival.moment ≤ 2 ^ 62 }
        ensures { OnOk result (self.new
            ≡ with_range arrival.moment (message_id arrival.bsr.bits arrival.tag) arrival.hash_length self.old range.now) }
    {
        if range.is_bidir() {
            return Ok(());
        }
        let prefix = range_prefix(range);
        let count = range.rp_count();
        if count == 0 {
            self.empty(prefix);
            return Ok(());
        }
        let parts = parts_after(alloc, arrival, self.parts.as_slice(), range)?;
        self.put(arrival, prefix, count, parts.as_slice())
    }

    /// RPs of all ranges have the hash mask of a message, if it says a range.
    pub(crate) fn mask(&mut self, hash_length: u8, ranges: Ranges<'_>)
        ensures { self.new ≡ masks_after hash_length ranges.entry self.old }
    {
        let mut ranges = ranges;
        if ranges.next().is_some() {
            mask_rps(self.rps.as_mut_slice(), hash_length);
        }
    }

    /// The ranges of a message that came. After an `Err`, which is want of memory, some may be learned.
    #[tactic(auto, unfolding(crate::specs::Table::with_ranges))]
    pub(crate) fn learn(
        &mut self,
        alloc: Global,
        arrival: Arrival,
        ranges: Ranges<'_>,
    ) -> Result<(), AllocError>
        requires { arrival.moment ≤ 2 ^ 62 }
        ensures { OnOk result (self.new
            ≡ with_ranges arrival.moment (message_id arrival.bsr.bits arrival.tag) arrival.hash_length self.old ranges.entry) }
    {
        for range in ranges {
            self.learn_range(alloc, arrival, &range)?;
        }
        Ok(())
    }

    /// Forgets what has an end that isn't past a timestamp in ms.
    pub(crate) fn forget(&mut self, moment: u64)
        ensures { self.new ≡ record { rps = filter (runs moment) self.old.rps; parts = filter (waits moment) self.old.parts } }
    {
        self.rps.retain(|learned| moment < learned.end);
        self.parts.retain(|part| moment < part.until);
    }

    /// Forgets those for which there is no room: the newest first, and parts before RPs in force.
    pub(crate) fn fit(&mut self, room: usize)
        ensures { self.new ≡ fitting room self.old }
    {
        self.rps.truncate(room);
        self.parts.truncate(room - self.rps.len());
    }
}
