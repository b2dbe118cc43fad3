//! Bootstraps, read (RFC 5059, section 4.1).
ghost use Rattle.std.specs.Prelude.{◌≡◌, ◌+◌, ◌-◌, ◌*◌, ◌≤◌, length, OnOk};
ghost use Rattle.pim_bootstrap.specs.Bootstraps.{after_range, bootstrap_of, bootstrap_test, bootstrap_reading, candidate_at, candidate_test, candidates_at, candidates_test, part_count_at, range_test, ranges_test};

use crate::encoded::{
    HEADER_LENGTH, UNICAST_LENGTH, address_at, check_field, check_group, check_unicast, u16_at,
    unicast_at,
};
use pim_ip::{Addr, Refusal};
use std::marker::Model;

/// A candidate RP of a range, as a Bootstrap says it.
#[derive(Clone, Copy)]
pub struct CandidateRp {
    pub address: Addr,
    /// In seconds; 0 takes the RP away.
    pub holdtime: u16,
    /// The lower number is preferred.
    pub priority: u8,
}

/// The length of an RP in a Bootstrap.
pub(crate) const CANDIDATE_LENGTH: usize = 10;

/// The length of a range's group and counts.
pub(crate) const RANGE_HEADER: usize = 12;

/// The place of the first range.
const FIRST_RANGE: usize = 14;

/// Whether there is an RP at a place.
#[tactic(auto, unfolding(crate::specs::Bootstraps::candidate_test))]
fn check_candidate(bytes: &[u8], place: usize) -> Result<(), Refusal>
    requires { place ≤ length bytes.now }
    ensures value { result ≡ candidate_test bytes.now place }
    ensures there { OnOk result (place + 10 ≤ length bytes.now) }
{
    check_unicast(bytes, place)?;
    if !unicast_at(bytes, place).is_unicast() {
        return Err(Refusal::BadAddress);
    }
    check_field(bytes, place + UNICAST_LENGTH, 4)
}

/// The RP at a place.
fn candidate_at(bytes: &[u8], place: usize) -> CandidateRp
    requires { place + 10 ≤ length bytes.now }
    ensures { result ≡ candidate_at bytes.now place }
{
    CandidateRp {
        address: unicast_at(bytes, place),
        holdtime: u16_at(bytes, place + UNICAST_LENGTH),
        priority: bytes[place + 8],
    }
}

/// Whether there are `count` RPs from a place on.
fn check_candidates(bytes: &[u8], place: usize, count: usize) -> Result<(), Refusal>
    requires { place ≤ length bytes.now }
    ensures value { result ≡ candidates_test bytes.now place count }
    ensures there { OnOk result (place + 10 * count ≤ length bytes.now) }
{
    for index in 0..count {
        check_candidate(bytes, place + CANDIDATE_LENGTH * index)?;
    }
    Ok(())
}

/// Whether there is a range with its RPs at a place.
#[tactic(auto, unfolding(crate::specs::Bootstraps::range_test))]
fn check_range(bytes: &[u8], place: usize) -> Result<(), Refusal>
    requires { place ≤ length bytes.now }
    ensures value { result ≡ range_test bytes.now place }
    ensures there { OnOk result (after_range bytes.now place ≤ length bytes.now) }
{
    check_group(bytes, place)?;
    let mask = bytes[place + 3];
    if mask < 4 || mask > 32 {
        return Err(Refusal::BadLength);
    }
    check_field(bytes, place + 8, 4)?;
    check_candidates(bytes, place + RANGE_HEADER, usize::from(bytes[place + 9]))
}

/// The place after the range at a place.
fn after_range(bytes: &[u8], place: usize) -> usize
    requires { after_range bytes.now place ≤ length bytes.now }
    ensures { result ≡ after_range bytes.now place }
{
    place + RANGE_HEADER + CANDIDATE_LENGTH * usize::from(bytes[place + 9])
}

/// Whether there are ranges from a place on, to the end.
fn check_ranges(bytes: &[u8], first: usize) -> Result<(), Refusal>
    requires { first ≤ length bytes.now }
    ensures { result ≡ ranges_test bytes.now first (length bytes.now - first) }
{
    let mut place = first;
    while place < bytes.len() {
        check_range(bytes, place)?;
        place = after_range(bytes, place);
    }
    Ok(())
}

/// RPs of a range, in their order in the message.
#[derive(Drop)]
pub struct Candidates<'a> {
    message: &'a [u8],
    place: usize,
    left: usize,
}

impl<'a> Model for Candidates<'a> {
    ghost use Rattle.std.specs.Prelude.{List};
    ghost use Rattle.pim_bootstrap.specs.declared.bootstrap.CandidateRp.{CandidateRp};

    ghost Value = { List CandidateRp };

    ghost use Rattle.pim_bootstrap.specs.Bootstraps.{candidates_at};
    ghost use Rattle.pim_bootstrap.specs.Views.{HasCandidates};

    ghost view = { λ a. candidates_at a.message.now a.place a.left };

    ghost invariant = { λ a. HasCandidates a.message.now a.place a.left };
}

impl<'a> Iterator for Candidates<'a> {
    ghost use Rattle.std.specs.Iterator.{YieldsFirst, item_count};

    type Item = CandidateRp;

    ghost next_gives = { YieldsFirst (λ rps. rps) };

    ghost remaining = { item_count (λ rps. rps) };

    fn next(&mut self) -> Option<CandidateRp> {
        if self.left == 0 {
            return None;
        }
        let candidate = candidate_at(self.message, self.place);
        self.place += CANDIDATE_LENGTH;
        self.left -= 1;
        Some(candidate)
    }
}

/// A range of a Bootstrap.
#[derive(Drop)]
pub struct RangeView<'a> {
    message: &'a [u8],
    place: usize,
}

impl<'a> Model for RangeView<'a> {
    ghost use Rattle.pim_bootstrap.specs.Bootstraps.{BootstrapRange, range_at};
    ghost use Rattle.pim_bootstrap.specs.Views.{HasRange};

    ghost Value = { BootstrapRange };

    ghost view = { λ a. range_at a.message.now a.place };

    ghost invariant = { λ a. HasRange a.message.now a.place };
}

impl<'a> RangeView<'a> {
    /// The range's address.
    pub fn group(&self) -> Addr
        ensures { result.bits ≡ self.now.group }
    {
        address_at(self.message, self.place)
    }

    /// The length of the range's mask, 4 to 32.
    pub fn length(&self) -> u8
        ensures { result ≡ self.now.length }
    {
        self.message[self.place + 3]
    }

    /// The B bit: the range is for BIDIR (RFC 5015).
    pub fn is_bidir(&self) -> bool
        ensures { result ≡ self.now.bidir }
    {
        self.message[self.place + 2] >= 0x80
    }

    /// The Z bit: the range is an admin scope zone.
    pub fn is_zone(&self) -> bool
        ensures { result ≡ self.now.zone }
    {
        self.message[self.place + 2] % 2 == 1
    }

    /// How many RPs the range has in all fragments.
    pub fn rp_count(&self) -> u8
        ensures { result ≡ self.now.rp_count }
    {
        self.message[self.place + 8]
    }

    /// The range's RPs in this fragment.
    pub fn rps(&self) -> Candidates<'a>
        ensures { result ≡ self.now.rps }
    {
        Candidates {
            message: self.message,
            place: self.place + RANGE_HEADER,
            left: usize::from(self.message[self.place + 9]),
        }
    }
}

/// The ranges of a Bootstrap, in their order in the message.
#[derive(Drop)]
pub struct Ranges<'a> {
    message: &'a [u8],
    place: usize,
}

impl<'a> Model for Ranges<'a> {
    ghost use Rattle.std.specs.Prelude.{List, ◌-◌, length};
    ghost use Rattle.pim_bootstrap.specs.Bootstraps.{BootstrapRange, ranges_at};
    ghost use Rattle.pim_bootstrap.specs.Views.{HasRanges};

    ghost Value = { List BootstrapRange };

    ghost view = { λ a. ranges_at a.message.now a.place (length a.message.now - a.place) };

    ghost invariant = { λ a. HasRanges a.message.now a.place };
}

impl<'a> Iterator for Ranges<'a> {
    ghost use Rattle.std.specs.Iterator.{YieldsFirst, item_count};

    type Item = RangeView<'a>;

    ghost next_gives = { YieldsFirst (λ ranges. ranges) };

    ghost remaining = { item_count (λ ranges. ranges) };

    fn next(&mut self) -> Option<RangeView<'a>> {
        if self.place >= self.message.len() {
            return None;
        }
        let range = RangeView {
            message: self.message,
            place: self.place,
        };
        self.place = after_range(self.message, self.place);
        Some(range)
    }
}

/// A Bootstrap that was read, borrowed from its bytes.
#[derive(Drop)]
pub struct BootstrapView<'a> {
    message: &'a [u8],
}

impl<'a> Model for BootstrapView<'a> {
    ghost use Rattle.pim_bootstrap.specs.Bootstraps.{Bootstrap, bootstrap_of};
    ghost use Rattle.pim_bootstrap.specs.Views.{HasRanges};

    ghost Value = { Bootstrap };

    ghost view = { λ a. bootstrap_of a.message.now };

    ghost invariant = { λ a. HasRanges a.message.now 14 };
}

impl<'a> BootstrapView<'a> {
    /// The No-Forward bit.
    #[tactic(auto, unfolding(crate::specs::Bootstraps::bootstrap_of))]
    pub fn is_no_forward(&self) -> bool
        ensures { result ≡ self.now.no_forward }
    {
        self.message[1] >= 0x80
    }

    /// The fragment tag.
    #[tactic(auto, unfolding(crate::specs::Bootstraps::bootstrap_of))]
    pub fn tag(&self) -> u16
        ensures { result ≡ self.now.tag }
    {
        u16_at(self.message, 4)
    }

    /// The length of the hash function's mask, at most 32.
    #[tactic(auto, unfolding(crate::specs::Bootstraps::bootstrap_of))]
    pub fn hash_length(&self) -> u8
        ensures { result ≡ self.now.hash_length }
    {
        self.message[6]
    }

    /// The BSR's priority; the higher number is preferred.
    #[tactic(auto, unfolding(crate::specs::Bootstraps::bootstrap_of))]
    pub fn priority(&self) -> u8
        ensures { result ≡ self.now.priority }
    {
        self.message[7]
    }

    /// The BSR's address.
    #[tactic(auto, unfolding(crate::specs::Bootstraps::bootstrap_of))]
    pub fn bsr(&self) -> Addr
        ensures { result.bits ≡ self.now.bsr }
    {
        unicast_at(self.message, 8)
    }

    /// The ranges.
    #[tactic(auto, using(crate::proofs::Walks::value_all), unfolding(crate::specs::Bootstraps::bootstrap_of))]
    pub fn ranges(&self) -> Ranges<'a>
        ensures { result ≡ self.now.ranges }
    {
        Ranges {
            message: self.message,
            place: FIRST_RANGE,
        }
    }
}

/// Reads a Bootstrap: the fields behind PIM's header, from first to last. The error is that of the first test that fails.
/// The header's own tests are those of `pim_wire::read_pim`.
#[tactic(auto, using(crate::proofs::Walks::tests_all), unfolding(crate::specs::Bootstraps::bootstrap_test))]
pub fn read_bootstrap(message: &[u8]) -> Result<BootstrapView<'_>, Refusal>
    ensures { result ≡ bootstrap_reading message.now }
{
    if message.len() < HEADER_LENGTH {
        return Err(Refusal::Short);
    }
    check_field(message, HEADER_LENGTH, 4)?;
    if message[6] > 32 {
        return Err(Refusal::BadLength);
    }
    check_unicast(message, 8)?;
    if !unicast_at(message, 8).is_unicast() {
        return Err(Refusal::BadAddress);
    }
    check_ranges(message, FIRST_RANGE)?;
    Ok(BootstrapView { message })
}
