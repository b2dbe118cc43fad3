//! Which RPs a listener can keep.
ghost use Rattle.std.specs.List.{list_all};
ghost use Rattle.std.specs.Prelude.{◌≡◌, map, IfOk};
ghost use Rattle.pim_model.specs.Limits.{is_rp_range};
ghost use Rattle.pim_bsr.specs.Reading.{are_sound, is_sound};
ghost use Rattle.pim_bsr.specs.Sound.{are_apart, has_mask};
ghost use Rattle.pim_bsr.specs.Table.{part_range, range_of};
ghost use Rattle.pim_bsr.specs.Views.{known_view};

use crate::given::{has_range, range_of};
use crate::learned::{Learned, Part};
use crate::listener::room_beside;
use crate::reading::SavedKnown;
use pim_types::RpRange;
use std::alloc::{AllocError, Global};

// Whether a router takes the range.
#[tactic(auto, unfolding(pim_model::specs::Limits::is_rp_range))]
fn is_rp_range(range: RpRange) -> bool
    ensures { result ≡ is_rp_range range }
{
    range.prefix.length <= 32
        && range.prefix.is_host_clear()
        && range.prefix.address.is_multicast()
        && range.prefix.length >= 4
        && range.rp.is_unicast()
}

// Whether a router takes each of the ranges.
fn are_rp_ranges(ranges: &[RpRange]) -> bool
    ensures { result ≡ list_all is_rp_range ranges.now }
{
    ranges.iter().all(|range| is_rp_range(*range))
}

// Whether no RP of a range stands twice.
fn are_apart(ranges: &[RpRange]) -> bool
    ensures { result ≡ are_apart ranges.now }
{
    for (place, range) in ranges.iter().enumerate() {
        if has_range(&ranges[place + 1..], *range) {
            return false;
        }
    }
    true
}

// Whether a router takes each of the ranges, and no RP of one stands twice.
fn are_sound(ranges: &[RpRange]) -> bool
    ensures { result ≡ are_sound ranges.now }
{
    are_rp_ranges(ranges) && are_apart(ranges)
}

// The ranges of RPs in force.
fn ranges_of(alloc: Global, rps: &[Learned]) -> Result<Vec<RpRange>, AllocError>
    ensures { IfOk result (λ ranges. ranges.items ≡ map range_of rps.now) }
{
    let mut ranges = Vec::new(alloc);
    for learned in rps {
        ranges.push(range_of(*learned))?;
    }
    Ok(ranges)
}

// The range of a part.
fn part_range(part: Part) -> RpRange
    ensures { result ≡ part_range part }
{
    RpRange {
        prefix: part.prefix,
        rp: part.rp.address,
    }
}

// The ranges of parts.
fn part_ranges(alloc: Global, parts: &[Part]) -> Result<Vec<RpRange>, AllocError>
    ensures { IfOk result (λ ranges. ranges.items ≡ map part_range parts.now) }
{
    let mut ranges = Vec::new(alloc);
    for part in parts {
        ranges.push(part_range(*part))?;
    }
    Ok(ranges)
}

// Whether an address can have the hash mask of each of the RPs.
fn have_masks(rps: &[Learned]) -> bool
    ensures { result ≡ list_all has_mask rps.now }
{
    rps.iter().all(|learned| learned.hash_length <= 32)
}

/// Whether there is room for the RPs that are kept, and each is one that a message can say, and stands once.
#[tactic(auto, unfolding(crate::specs::Reading::is_sound))]
pub(crate) fn is_sound(alloc: Global, known: &SavedKnown) -> Result<bool, AllocError>
    ensures { IfOk result (λ sound. sound ≡ is_sound (known_view known.now)) }
{
    let table = &known.learned.table;
    let limit = known.configured.limit as usize;
    let room = room_beside(limit, known.configured.ranges.as_slice());
    if table.kept_count() > room as u64 || !have_masks(table.rps()) {
        return Ok(false);
    }
    let rps = ranges_of(alloc, table.rps())?;
    let parts = part_ranges(alloc, table.parts())?;
    Ok(are_sound(rps.as_slice()) && are_sound(parts.as_slice()))
}
