//! As what a router stands, as a program passes it in.
ghost use Rattle.std.specs.List.{list_all};
ghost use Rattle.std.specs.Prelude.{◌≡◌, ◌≤◌, IfOk, OnErr, Some, map, option_map};
ghost use Rattle.pim_candidate.specs.Candidacy.{rp_standing};
ghost use Rattle.pim_c.specs.Candidacies.{as_bsr_of, as_rp_of, can_be_bsr, can_be_rp, can_stand, is_groups, prefix_of, stands_as_rp};

use pim_candidate::{Bsr, MOST_ADVERTISED_RANGES, StandsAsBsr, StandsAsRp};
use pim_types::{Addr, Prefix};
use std::alloc::{AllocError, Global};

/// As what a router stands. What is of a role in which it doesn't stand isn't read.
#[repr(C)]
#[derive(Drop)]
pub struct GivenCandidacy {
    pub is_bsr: bool,
    pub bsr: u32,
    /// The higher is preferred.
    pub bsr_priority: u32,
    pub hash_length: u32,
    /// The most RPs of ranges that it holds.
    pub limit: u32,
    pub is_rp: bool,
    pub rp: u32,
    /// The lower is preferred.
    pub rp_priority: u32,
}

/// A prefix of groups.
#[repr(C)]
#[derive(Drop)]
pub struct GivenPrefix {
    pub prefix: u32,
    pub length: u32,
}

const MOST_PRIORITY: u32 = 255;

const MOST_HASH_LENGTH: u32 = 32;

const MOST_HELD: u32 = 255;

// Whether an address is a host's, and a priority a byte.
fn can_stand(address: u32, priority: u32) -> bool
    ensures { result ≡ can_stand address priority }
{
    Addr { bits: address }.is_unicast() && priority <= MOST_PRIORITY
}

// Whether what a candidate BSR is given is in its ranges.
fn can_be_bsr(given: &GivenCandidacy) -> bool
    ensures { result ≡ can_be_bsr given.now }
{
    can_stand(given.bsr, given.bsr_priority)
        && given.hash_length <= MOST_HASH_LENGTH
        && 1 <= given.limit
        && given.limit <= MOST_HELD
}

// A number up to 255 as a byte.
fn byte(number: u32) -> u8
    requires { number ≤ 255 }
    ensures { result ≡ number }
{
    number as u8
}

/// A candidate BSR, or none; `None` where a value is out of its range.
pub fn as_bsr(given: &GivenCandidacy) -> Option<Option<StandsAsBsr>>
    ensures { result ≡ as_bsr_of given.now }
{
    if !given.is_bsr {
        return Some(None);
    }
    if !can_be_bsr(given) {
        return None;
    }
    Some(Some(StandsAsBsr {
        bsr: Bsr {
            address: Addr { bits: given.bsr },
            priority: byte(given.bsr_priority),
        },
        hash_length: byte(given.hash_length),
        limit: given.limit as usize,
    }))
}

// A prefix that C gives.
fn prefix(given: &GivenPrefix) -> Prefix
    ensures { result ≡ prefix_of given.now }
{
    Prefix {
        address: Addr { bits: given.prefix },
        length: given.length,
    }
}

// Whether a prefix is one of groups.
fn is_groups(given: &GivenPrefix) -> bool
    ensures { result ≡ is_groups given.now }
{
    let prefix = prefix(given);
    prefix.address.is_multicast()
        && 4 <= given.length
        && given.length <= 32
        && prefix.is_host_clear()
}

// Whether each of some prefixes is one of groups.
fn are_groups(given: &[GivenPrefix]) -> bool
    ensures { result ≡ list_all is_groups given.now }
{
    given.iter().all(|one| is_groups(one))
}

// Whether what a candidate RP is given is in its ranges.
fn can_be_rp(given: &GivenCandidacy, ranges: &[GivenPrefix]) -> bool
    ensures { result ≡ can_be_rp given.now ranges.now }
{
    can_stand(given.rp, given.rp_priority)
        && 1 <= ranges.len()
        && ranges.len() <= MOST_ADVERTISED_RANGES
        && are_groups(ranges)
}

// Prefixes that C gives.
fn prefixes(alloc: Global, given: &[GivenPrefix]) -> Result<Vec<Prefix>, AllocError>
    ensures { IfOk result (λ all. all.items ≡ map prefix_of given.now) }
{
    let mut all = Vec::new(alloc);
    for one in given {
        all.push(prefix(one))?;
    }
    Ok(all)
}

/// A candidate RP, or none; `None` where a value is out of its range. An `Err` is want of memory.
pub fn as_rp(
    alloc: Global,
    given: &GivenCandidacy,
    ranges: &[GivenPrefix],
) -> Result<Option<Option<StandsAsRp>>, AllocError>
    ensures value { IfOk result (λ stands. option_map (option_map rp_standing) stands ≡ as_rp_of given.now ranges.now) }
    ensures memory { OnErr result (as_rp_of given.now ranges.now ≡ Some (Some (stands_as_rp given.now ranges.now))) }
{
    if !given.is_rp {
        return Ok(Some(None));
    }
    if !can_be_rp(given, ranges) {
        return Ok(None);
    }
    Ok(Some(Some(StandsAsRp {
        address: Addr { bits: given.rp },
        priority: byte(given.rp_priority),
        ranges: prefixes(alloc, ranges)?,
    })))
}
