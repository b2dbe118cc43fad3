//! The candidate RPs that an elected BSR knows by their advertisements, and the ranges that it says for them (RFC 5059,
//! section 3.3).
ghost use Rattle.std.specs.Prelude.{◌≡◌, ◌+◌, ◌^◌, ◌<◌, ◌≤◌, ◌++◌, filter, fold, length, map, not, IfOk, OnErr, OnOk};
ghost use Rattle.std.specs.List.{All, list_all};
ghost use Rattle.pim_model.specs.Limits.{same_prefix};
ghost use Rattle.pim_bootstrap.specs.Bootstraps.{bootstrap_text};
ghost use Rattle.pim_bootstrap.specs.Fragments.{fragments};
ghost use Rattle.pim_bootstrap.specs.FragmentTexts.{IsWritable, range_rps};
ghost use Rattle.pim_candidate.specs.Candidacy.{IsSendable};
ghost use Rattle.pim_candidate.specs.RpSet.{IsShort, advertised, advertised_rp, earlier, empty, firsts, first_end, gone_after, gone_from, gone_prefix, has_held, has_rp, held_after, held_from, held_prefix, is_lost, is_mapping, is_of, passed, replaced, runs, said, said_gone, said_range, said_rp, said_value, same_held, same_rps, stays_gone, with_range, without};

use crate::election::BS_TIMEOUT;
use pim_bootstrap::{
    AdvertisedRange, AdvertisedRanges, AdvertisementView, BootstrapHead, CandidateRp, GroupRange,
    write_bootstrap,
};
use pim_ip::{Addr, Prefix};
use std::alloc::{AllocError, Global};
use std::marker::Model;

/// An RP of a range, advertised.
#[derive(Clone, Copy)]
pub struct Held {
    pub group: Addr,
    /// The length of the range's mask.
    pub length: u8,
    pub rp: CandidateRp,
    /// When its holdtime is over, in ms.
    pub end: u64,
}

/// A range whose last RP went.
#[derive(Clone, Copy)]
pub struct Gone {
    pub group: Addr,
    /// The length of the range's mask.
    pub length: u8,
    /// Until when it is said without RPs, in ms.
    pub until: u64,
}

/// The least holdtime that is said, in seconds: two and a half times BS_Period.
const LEAST_HOLDTIME: u16 = 150;

/// Whether two prefixes are equal.
fn same_prefix(first: Prefix, second: Prefix) -> bool
    ensures { result ≡ same_prefix first second }
{
    first.address.bits == second.address.bits && first.length == second.length
}

impl Held {
    /// The RP of a range until its holdtime is over.
    fn from(now: u64, rp: CandidateRp, range: AdvertisedRange) -> Held
        requires { now ≤ 2 ^ 62 }
        ensures { result ≡ held_from now rp range }
    {
        Held {
            group: range.prefix().address,
            length: range.length,
            rp,
            end: now + 1000 * u64::from(rp.holdtime),
        }
    }

    /// Its range.
    fn prefix(self) -> Prefix
        ensures { result ≡ held_prefix self }
    {
        Prefix {
            address: self.group,
            length: u32::from(self.length),
        }
    }

    /// Whether another one is the same RP of the same range.
    fn is_mapping(self, other: Held) -> bool
        ensures { result ≡ is_mapping self other }
    {
        same_prefix(self.prefix(), other.prefix()) && self.rp.address.bits == other.rp.address.bits
    }

    /// Whether another one differs in its end alone.
    fn is_same(self, other: Held) -> bool
        ensures { result ≡ same_held self other }
    {
        self.is_mapping(other)
            && self.rp.holdtime == other.rp.holdtime
            && self.rp.priority == other.rp.priority
    }

    /// The RP as it is said.
    fn said(self) -> CandidateRp
        ensures { result ≡ said_rp self }
    {
        CandidateRp {
            address: self.rp.address,
            holdtime: self.rp.holdtime.max(LEAST_HOLDTIME),
            priority: self.rp.priority,
        }
    }
}

impl Gone {
    /// The range.
    fn prefix(self) -> Prefix
        ensures { result ≡ gone_prefix self }
    {
        Prefix {
            address: self.group,
            length: u32::from(self.length),
        }
    }
}

/// Whether a range has an RP.
fn has_rp(held: &[Held], prefix: Prefix) -> bool
    ensures { result ≡ has_rp held.now prefix }
{
    held.iter().any(|one| same_prefix(prefix, one.prefix()))
}

/// Takes an RP of a range away.
fn drop_rp(held: &mut Vec<Held>, one: Held)
    ensures value { held.new.items ≡ without one held.old.items }
    ensures less { length held.new.items ≤ length held.old.items }
{
    held.retain(|old| !one.is_mapping(*old));
}

/// Puts the RP of an advertisement into one of its ranges.
#[tactic(auto, unfolding(crate::specs::RpSet::with_range))]
fn put_range(
    held: &mut Vec<Held>,
    now: u64,
    limit: usize,
    rp: CandidateRp,
    range: AdvertisedRange,
) -> Result<(), AllocError>
    requires { now ≤ 2 ^ 62 }
    ensures value { OnOk result (held.new.items ≡ with_range now limit rp held.old.items range) }
    ensures few { length held.old.items < 2 ^ 8 → limit < 2 ^ 8 → length held.new.items < 2 ^ 8 }
{
    if range.bidir {
        return Ok(());
    }
    let one = Held::from(now, rp, range);
    drop_rp(held, one);
    if rp.holdtime == 0 {
        return Ok(());
    }
    if held.len() >= limit {
        return Ok(());
    }
    held.push(one)?;
    Ok(())
}

/// Puts the RP of an advertisement into its ranges.
fn put_ranges(
    held: &mut Vec<Held>,
    now: u64,
    limit: usize,
    rp: CandidateRp,
    ranges: AdvertisedRanges<'_>,
) -> Result<(), AllocError>
    requires { now ≤ 2 ^ 62 }
    ensures value { OnOk result (held.new.items ≡ fold (with_range now limit rp) held.old.items ranges.entry) }
    ensures few { length held.old.items < 2 ^ 8 → limit < 2 ^ 8 → length held.new.items < 2 ^ 8 }
{
    for range in ranges {
        put_range(held, now, limit, rp, range)?;
    }
    Ok(())
}

/// Takes away the RPs whose holdtime is over.
fn drop_expired(held: &mut Vec<Held>, now: u64)
    ensures value { held.new.items ≡ filter (runs now) held.old.items }
    ensures less { length held.new.items ≤ length held.old.items }
{
    held.retain(|one| now < one.end);
}

/// The first RP of each range.
#[tactic(auto, unfolding(crate::specs::RpSet::firsts))]
fn firsts(alloc: Global, held: &[Held]) -> Result<Vec<Held>, AllocError>
    ensures { IfOk result (λ found. found.items ≡ firsts held.now) }
{
    let mut found = Vec::new(alloc);
    for one in held {
        if !has_rp(&found, one.prefix()) {
            found.push(*one)?;
        }
    }
    Ok(found)
}

/// Whether an RP is among others.
#[tactic(auto, unfolding(crate::specs::RpSet::has_held))]
fn has_held(held: &[Held], one: Held) -> bool
    ensures { result ≡ has_held held.now one }
{
    held.iter().any(|other| one.is_same(*other))
}

/// Whether each of some RPs is among others.
fn has_all_held(held: &[Held], others: &[Held]) -> bool
    ensures { result ≡ list_all (has_held held.now) others.now }
{
    others.iter().all(|one| has_held(held, *one))
}

/// Whether the same RPs are there as before.
#[tactic(auto, unfolding(crate::specs::RpSet::same_rps))]
fn same_rps(before: &[Held], after: &[Held]) -> bool
    ensures { result ≡ same_rps before.now after.now }
{
    before.len() == after.len() && has_all_held(before, after)
}

/// Takes away the ranges that aren't said without RPs any more.
fn drop_gone(gone: &mut Vec<Gone>, now: u64, held: &[Held])
    ensures { gone.new.items ≡ filter (stays_gone now held.now) gone.old.items }
{
    gone.retain(|range| now < range.until && !has_rp(held, range.prefix()));
}

/// Adds the ranges that have no RP any more, by their first ones.
fn add_gone(
    gone: &mut Vec<Gone>,
    now: u64,
    firsts: &[Held],
    held: &[Held],
) -> Result<(), AllocError>
    requires { now ≤ 2 ^ 62 }
    ensures { OnOk result (gone.new.items
        ≡ gone.old.items ++ map (gone_from now) (filter (is_lost held.now) firsts.now)) }
{
    for one in firsts {
        if !has_rp(held, one.prefix()) {
            gone.push(Gone {
                group: one.group,
                length: one.length,
                until: now + BS_TIMEOUT,
            })?;
        }
    }
    Ok(())
}

/// The ranges that are said without RPs, after others were held.
#[tactic(auto, unfolding(crate::specs::RpSet::gone_after))]
fn gone_after(
    alloc: Global,
    now: u64,
    gone: &[Gone],
    before: &[Held],
    after: &[Held],
) -> Result<Vec<Gone>, AllocError>
    requires { now ≤ 2 ^ 62 }
    ensures { IfOk result (λ left. left.items ≡ gone_after now gone.now before.now after.now) }
{
    let mut left = Vec::from_slice(alloc, gone)?;
    drop_gone(&mut left, now, after);
    let firsts = firsts(alloc, before)?;
    add_gone(&mut left, now, &firsts, after)?;
    Ok(left)
}

/// The RPs of a range as they are said.
fn said_rps(alloc: Global, held: &[Held], prefix: Prefix) -> Result<Vec<CandidateRp>, AllocError>
    ensures value { IfOk result (λ rps. rps.items ≡ map said_rp (filter (is_of prefix) held.now)) }
    ensures few { IfOk result (λ rps. length rps.items ≤ length held.now) }
{
    let mut rps = Vec::new(alloc);
    for one in held {
        if same_prefix(prefix, one.prefix()) {
            rps.push(one.said())?;
        }
    }
    Ok(rps)
}

/// Of two timestamps, if there are any, the earlier.
fn earlier(end: Option<u64>, one: Held) -> Option<u64>
    ensures { result ≡ earlier end one }
{
    match end {
        Some(end) => Some(end.min(one.end)),
        None => Some(one.end),
    }
}

/// When the first timer expires.
#[tactic(auto, unfolding(crate::specs::RpSet::first_end))]
fn first_end(held: &[Held]) -> Option<u64>
    ensures { result ≡ first_end held.now }
{
    let mut first = None;
    for one in held {
        first = earlier(first, *one);
    }
    first
}

/// A range with its RPs as they are said.
#[derive(Drop)]
struct Said {
    group: Addr,
    length: u8,
    rps: Vec<CandidateRp>,
}

/// Adds the ranges of RPs, by their first ones.
fn add_said(
    alloc: Global,
    said: &mut Vec<Said>,
    firsts: &[Held],
    held: &[Held],
) -> Result<(), AllocError>
    requires { length held.now < 2 ^ 8 }
    ensures value { OnOk result (map said_value said.new.items
        ≡ map said_value said.old.items ++ map (said_range held.now) firsts.now) }
    ensures short { OnOk result (All IsShort said.old.items → All IsShort said.new.items) }
{
    for one in firsts {
        said.push(Said {
            group: one.group,
            length: one.length,
            rps: said_rps(alloc, held, one.prefix())?,
        })?;
    }
    Ok(())
}

/// Adds the ranges without RPs.
fn add_said_gone(alloc: Global, said: &mut Vec<Said>, gone: &[Gone]) -> Result<(), AllocError>
    ensures value { OnOk result (map said_value said.new.items
        ≡ map said_value said.old.items ++ map said_gone gone.now) }
    ensures short { OnOk result (All IsShort said.old.items → All IsShort said.new.items) }
{
    for range in gone {
        said.push(Said {
            group: range.group,
            length: range.length,
            rps: Vec::new(alloc),
        })?;
    }
    Ok(())
}

/// The ranges as they are written.
fn to_write<'a>(alloc: Global, said: &'a [Said]) -> Result<Vec<GroupRange<'a>>, AllocError>
    requires { All IsShort said.now }
    ensures value { IfOk result (λ ranges. map range_rps ranges.items ≡ map said_value said.now) }
    ensures writable { IfOk result (λ ranges. All IsWritable ranges.items) }
{
    let mut ranges = Vec::new(alloc);
    for range in said {
        ranges.push(GroupRange {
            prefix: Prefix {
                address: range.group,
                length: u32::from(range.length),
            },
            rps: range.rps.as_slice(),
        })?;
    }
    Ok(ranges)
}

/// The messages that say ranges; each fits into a packet.
fn written(
    alloc: Global,
    head: BootstrapHead,
    ranges: &[GroupRange<'_>],
) -> Result<Vec<Vec<u8>>, AllocError>
    requires { All IsWritable ranges.now }
    ensures value { IfOk result (λ messages. map (λ bytes. bytes.items) messages.items
        ≡ map bootstrap_text (fragments head (map range_rps ranges.now))) }
    ensures fits { IfOk result (λ messages. All IsSendable messages.items) }
{
    write_bootstrap(alloc, head, ranges)
}

/// The candidate RPs that an elected BSR knows by their advertisements, at most 255. Times are in ms.
#[derive(Drop)]
pub struct RpSet {
    held: Vec<Held>,
    gone: Vec<Gone>,
}

impl Model for RpSet {
    ghost use Rattle.std.specs.Prelude.{◌^◌, ◌<◌, length};
    ghost use Rattle.pim_candidate.specs.RpSet.{RpSet};

    ghost Value = { RpSet };

    ghost view = { λ s. record { held = s.held.items; gone = s.gone.items } };

    ghost invariant = { λ s. length s.held.items < 2 ^ 8 };
}

impl RpSet {
    /// No RP is known.
    pub fn new(alloc: Global) -> RpSet
        ensures { result ≡ empty }
    {
        RpSet {
            held: Vec::new(alloc),
            gone: Vec::new(alloc),
        }
    }

    /// The same, in memory of its own.
    pub(crate) fn copy(&self, alloc: Global) -> Result<RpSet, AllocError>
        ensures { IfOk result (λ copy. copy ≡ self.now) }
    {
        Ok(RpSet {
            held: Vec::from_slice(alloc, self.held.as_slice())?,
            gone: Vec::from_slice(alloc, self.gone.as_slice())?,
        })
    }

    /// The RPs of ranges.
    pub fn held(&self) -> &[Held]
        ensures { result.now ≡ self.now.held }
    {
        self.held.as_slice()
    }

    /// The ranges that are said without RPs.
    pub fn gone(&self) -> &[Gone]
        ensures { result.now ≡ self.now.gone }
    {
        self.gone.as_slice()
    }

    /// When the first holdtime is over, in ms.
    pub fn first_end(&self) -> Option<u64>
        ensures { result ≡ first_end self.now.held }
    {
        first_end(&self.held)
    }

    /// Puts other RPs in the place of those that are there, and tells whether they differ in more than their ends.
    fn replace(&mut self, alloc: Global, now: u64, held: Vec<Held>) -> Result<bool, AllocError>
        requires now { now ≤ 2 ^ 62 }
        requires few { length held.items < 2 ^ 8 }
        ensures value { OnOk result (self.new ≡ replaced now self.old held.items) }
        ensures moved { IfOk result (λ moved. moved ≡ not (same_rps self.old.held held.items)) }
        ensures err { OnErr result (self.new ≡ self.old) }
    {
        let gone = gone_after(alloc, now, &self.gone, &self.held, &held)?;
        let moved = !same_rps(&self.held, &held);
        self.held = held;
        self.gone = gone;
        Ok(moved)
    }

    /// An advertisement that came at a timestamp. A new RP of a range counts where there are less than `limit` others; with
    /// holdtime 0 one goes. The answer tells whether routers are to be told at once (3.3). An `Err` is want of memory, and
    /// changes nothing.
    pub fn advertise(
        &mut self,
        alloc: Global,
        now: u64,
        limit: usize,
        advertisement: &AdvertisementView<'_>,
    ) -> Result<bool, AllocError>
        requires now { now ≤ 2 ^ 62 }
        requires limit { limit < 2 ^ 8 }
        ensures value { OnOk result (self.new ≡ advertised now limit self.old advertisement.now) }
        ensures moved { IfOk result (λ moved. moved ≡ not (same_rps self.old.held self.new.held)) }
        ensures err { OnErr result (self.new ≡ self.old) }
    {
        let mut held = Vec::from_slice(alloc, self.held.as_slice())?;
        let rp = CandidateRp {
            address: advertisement.rp(),
            holdtime: advertisement.holdtime(),
            priority: advertisement.priority(),
        };
        put_ranges(&mut held, now, limit, rp, advertisement.ranges())?;
        self.replace(alloc, now, held)
    }

    /// Time passed to a timestamp. The answer tells whether routers are to be told at once. An `Err` is want of memory, and
    /// changes nothing.
    pub fn pass_to(&mut self, alloc: Global, now: u64) -> Result<bool, AllocError>
        requires { now ≤ 2 ^ 62 }
        ensures value { OnOk result (self.new ≡ passed now self.old) }
        ensures moved { IfOk result (λ moved. moved ≡ not (same_rps self.old.held self.new.held)) }
        ensures err { OnErr result (self.new ≡ self.old) }
    {
        let mut held = Vec::from_slice(alloc, self.held.as_slice())?;
        drop_expired(&mut held, now);
        self.replace(alloc, now, held)
    }

    /// The messages that say the RPs, each with its checksum.
    #[tactic(auto, unfolding(crate::specs::RpSet::said))]
    pub fn write(&self, alloc: Global, head: BootstrapHead) -> Result<Vec<Vec<u8>>, AllocError>
        ensures value { IfOk result (λ messages. map (λ bytes. bytes.items) messages.items
            ≡ map bootstrap_text (fragments head (said self.now))) }
        ensures fits { IfOk result (λ messages. All IsSendable messages.items) }
    {
        let firsts = firsts(alloc, &self.held)?;
        let mut said = Vec::new(alloc);
        add_said(alloc, &mut said, &firsts, &self.held)?;
        add_said_gone(alloc, &mut said, &self.gone)?;
        let ranges = to_write(alloc, &said)?;
        written(alloc, head, &ranges)
    }
}
