//! What a listener knew, read of bytes.
ghost use Rattle.pim_bsr.specs.Reading.{at_end, configured_at, known_reading, last_at, said_at, known_of, parts_at, table_at, tag_at, version_at};
ghost use Rattle.pim_bsr.specs.Text.{version_of};
ghost use Rattle.pim_bsr.specs.Views.{known_view};
ghost use Rattle.pim_saved.specs.Reading.{made, undamaged};
ghost use Rattle.pim_saver.specs.Read.{Gives, read};
ghost use Rattle.std.specs.Prelude.{◌≡◌};

use crate::choice::Choice;
use crate::saved::Election;
use crate::table::Table;
use pim_saved::SavedRefusal;
use pim_saver::{ReadFault, Saved, crc32, read_list};
use pim_types::RpRange;
use std::alloc::Global;

/// The first four bytes of a saved listener: `VIQB`.
pub(crate) const TAG: u32 = 0x5649_5142;

/// The version of its format, which tells what an RP is chosen for.
pub(crate) fn version_of(choice: Choice) -> u16
    ensures { result ≡ version_of choice }
{
    match choice {
        Choice::Range => 1,
        Choice::Group => 2,
    }
}

/// The configured ranges and the limit.
#[derive(Drop)]
pub(crate) struct SavedRanges {
    pub(crate) ranges: Vec<RpRange>,
    pub(crate) limit: u64,
}

/// What messages said.
#[derive(Drop)]
pub(crate) struct SavedSaid {
    pub(crate) election: Election,
    pub(crate) table: Table,
}

/// The last message, and until when, in ms, the same bytes are a repetition of it.
#[derive(Drop)]
pub(crate) struct SavedMessage {
    pub(crate) bytes: Vec<u8>,
    pub(crate) end: u64,
}

/// What a listener knew.
#[derive(Drop)]
pub(crate) struct SavedKnown {
    pub(crate) choice: Choice,
    pub(crate) configured: SavedRanges,
    pub(crate) learned: SavedSaid,
    pub(crate) last: SavedMessage,
}

// Reads the configured ranges and the limit.
#[tactic(auto, unfolding(crate::specs::Reading::configured_at))]
fn read_configured(alloc: Global, bytes: &[u8]) -> Result<(SavedRanges, &[u8]), ReadFault>
    ensures { Gives (λ x. ((x.0.ranges.items, x.0.limit), x.1.now)) result (configured_at bytes.now) }
{
    let (ranges, rest) = read_list(alloc, bytes)?;
    let (limit, rest) = u64::read(rest)?;
    Ok((SavedRanges { ranges, limit }, rest))
}

// Reads the RPs in force and the parts of messages.
#[tactic(auto, unfolding(crate::specs::Reading::table_at))]
fn read_table(alloc: Global, bytes: &[u8]) -> Result<(Table, &[u8]), ReadFault>
    ensures { Gives (λ x. (x.0, x.1.now)) result (table_at bytes.now) }
{
    let (rps, rest) = read_list(alloc, bytes)?;
    let (parts, rest) = read_list(alloc, rest)?;
    Ok((Table::of(rps, parts), rest))
}

// Reads what messages said.
#[tactic(auto, unfolding(crate::specs::Reading::said_at))]
fn read_said(alloc: Global, bytes: &[u8]) -> Result<(SavedSaid, &[u8]), ReadFault>
    ensures { Gives (λ x. ((x.0.election, x.0.table), x.1.now)) result (said_at bytes.now) }
{
    let (election, rest) = Election::read(bytes)?;
    let (table, rest) = read_table(alloc, rest)?;
    Ok((SavedSaid { election, table }, rest))
}

// Reads the last message.
#[tactic(auto, unfolding(crate::specs::Reading::last_at))]
fn read_last(alloc: Global, bytes: &[u8]) -> Result<(SavedMessage, &[u8]), ReadFault>
    ensures { Gives (λ x. ((x.0.bytes.items, x.0.end), x.1.now)) result (last_at bytes.now) }
{
    let (message, rest) = read_list(alloc, bytes)?;
    let (end, rest) = u64::read(rest)?;
    let message = SavedMessage {
        bytes: message,
        end,
    };
    Ok((message, rest))
}

// Reads what a listener knew, behind the version.
#[tactic(auto, unfolding(crate::specs::Reading::parts_at))]
fn read_parts(alloc: Global, choice: Choice, bytes: &[u8]) -> Result<(SavedKnown, &[u8]), ReadFault>
    ensures { Gives (λ x. (known_view x.0, x.1.now)) result (made (known_of choice) parts_at bytes.now) }
{
    let (configured, rest) = read_configured(alloc, bytes)?;
    let (learned, rest) = read_said(alloc, rest)?;
    let (last, rest) = read_last(alloc, rest)?;
    let known = SavedKnown {
        choice,
        configured,
        learned,
        last,
    };
    Ok((known, rest))
}

// Reads the four bytes with which each saved listener begins.
fn read_tag(bytes: &[u8]) -> Result<(u32, &[u8]), SavedRefusal>
    ensures { read result ≡ tag_at bytes.now }
{
    let (tag, rest) = u32::read(bytes)?;
    if tag != TAG {
        return Err(SavedRefusal::NotOurs);
    }
    Ok((tag, rest))
}

// Reads the version: what an RP is chosen for.
fn read_version(bytes: &[u8]) -> Result<(Choice, &[u8]), SavedRefusal>
    ensures { read result ≡ version_at bytes.now }
{
    let (version, rest) = u16::read(bytes)?;
    if version == version_of(Choice::Range) {
        return Ok((Choice::Range, rest));
    }
    if version == version_of(Choice::Group) {
        return Ok((Choice::Group, rest));
    }
    Err(SavedRefusal::OtherVersion)
}

// Whether the last four bytes are the sum of those before them.
#[tactic(auto, unfolding(pim_saved::specs::Reading::undamaged))]
fn check_sum(bytes: &[u8]) -> Result<(), SavedRefusal>
    ensures { result ≡ undamaged bytes.now }
{
    let (front, last) = bytes.split_at(bytes.len().saturating_sub(4));
    let (sum, _) = u32::read(last)?;
    if sum != crc32(front) {
        return Err(SavedRefusal::Damaged);
    }
    Ok(())
}

// What was known, where no bytes are left over.
fn finished(known: SavedKnown, rest: &[u8]) -> Result<SavedKnown, ReadFault>
    ensures { Gives (λ k. known_view k) result (at_end (known_view known) rest.now) }
{
    match rest {
        [] => Ok(known),
        [_, ..] => Err(ReadFault::Refused(SavedRefusal::LeftOver)),
    }
}

/// What a listener knew by all of the bytes. The sum is compared behind the version; else a refusal is the first fault from
/// the left. Memory is taken as rows are met, and not by a list's count.
#[tactic(auto, unfolding(crate::specs::Reading::known_reading))]
pub(crate) fn read_known(alloc: Global, bytes: &[u8]) -> Result<SavedKnown, ReadFault>
    ensures { Gives (λ k. known_view k) result (known_reading bytes.now) }
{
    let (_, rest) = read_tag(bytes)?;
    let (choice, rest) = read_version(rest)?;
    check_sum(bytes)?;
    let (known, rest) = read_parts(alloc, choice, rest)?;
    let (_, rest) = u32::read(rest)?;
    finished(known, rest)
}
