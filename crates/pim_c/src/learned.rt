//! What a listener learned of Bootstraps, as C reads it.
ghost use Rattle.pim_c.specs.Bootstraps.{elected_of, learned_row_of, part_row_of, told_range};
ghost use Rattle.pim_c.specs.Written.{ValueWritten};
ghost use Rattle.std.specs.List.{slice_get};
ghost use Rattle.std.specs.Prelude.{◌≡◌};

use crate::given::GivenRange;
use pim_bsr::{Elected, Learned, Listener, Part};
use pim_types::RpRange;

/// The elected BSR.
#[repr(C)]
#[derive(Drop)]
pub struct CElected {
    pub bsr: u32,
    /// The higher is preferred.
    pub priority: u32,
    /// When its timer expires, in ms.
    pub end: u64,
}

/// An RP of a range, in force.
#[repr(C)]
#[derive(Drop)]
pub struct LearnedRow {
    pub prefix: u32,
    pub length: u32,
    pub rp: u32,
    /// The lower is preferred.
    pub priority: u32,
    /// Of the hash function's mask.
    pub hash_length: u32,
    /// The router is given it: as the one that is chosen of its range, which isn't configured, or as a candidate.
    pub is_given: bool,
    /// When its holdtime is over, in ms.
    pub end: u64,
}

/// An RP of a range, of a message whose other fragments haven't come.
#[repr(C)]
#[derive(Drop)]
pub struct PartRow {
    pub prefix: u32,
    pub length: u32,
    pub rp: u32,
    /// The lower is preferred.
    pub priority: u32,
    /// In seconds.
    pub holdtime: u32,
    /// Of the message.
    pub bsr: u32,
    /// The message's fragment tag.
    pub tag: u32,
    /// When it is forgotten, in ms.
    pub end: u64,
}

// The elected BSR, as C reads it.
fn c_elected(elected: Elected) -> CElected
    ensures { result ≡ elected_of elected }
{
    CElected {
        bsr: elected.bsr.bits,
        priority: u32::from(elected.priority),
        end: elected.end,
    }
}

// An RP in force of a listener, as C reads it.
fn learned_row(listener: &Listener, learned: Learned) -> LearnedRow
    ensures { result ≡ learned_row_of listener.now learned }
{
    LearnedRow {
        prefix: learned.prefix.address.bits,
        length: learned.prefix.length,
        rp: learned.rp.bits,
        priority: u32::from(learned.priority),
        hash_length: u32::from(learned.hash_length),
        is_given: listener.is_given(learned),
        end: learned.end,
    }
}

// A part of a message, as C reads it.
fn part_row(part: Part) -> PartRow
    ensures { result ≡ part_row_of part }
{
    PartRow {
        prefix: part.prefix.address.bits,
        length: part.prefix.length,
        rp: part.rp.address.bits,
        priority: u32::from(part.rp.priority),
        holdtime: u32::from(part.rp.holdtime),
        bsr: part.bsr.bits,
        tag: u32::from(part.tag),
        end: part.until,
    }
}

// A range, as C reads it.
fn c_range(range: RpRange) -> GivenRange
    ensures { result ≡ told_range range }
{
    GivenRange {
        prefix: range.prefix.address.bits,
        length: range.prefix.length,
        rp: range.rp.bits,
    }
}

/// Writes out one of the configured ranges, if it exists.
pub(crate) fn write_range(ranges: &[RpRange], index: usize, out: &mut GivenRange) -> bool
    ensures { ValueWritten told_range (slice_get ranges.now index) result out.old out.new }
{
    match ranges.get(index) {
        Some(range) => {
            *out = c_range(*range);
            true
        }
        None => false,
    }
}

/// Writes out the elected BSR, if one is elected.
pub(crate) fn write_elected(elected: Option<Elected>, out: &mut CElected) -> bool
    ensures { ValueWritten elected_of elected result out.old out.new }
{
    match elected {
        Some(elected) => {
            *out = c_elected(elected);
            true
        }
        None => false,
    }
}

/// Writes out one of the RPs in force, if it exists.
pub(crate) fn write_learned(listener: &Listener, index: usize, out: &mut LearnedRow) -> bool
    ensures { ValueWritten (learned_row_of listener.now) (slice_get listener.now.table.rps index) result out.old out.new }
{
    match listener.rps().get(index) {
        Some(learned) => {
            *out = learned_row(listener, *learned);
            true
        }
        None => false,
    }
}

/// Writes out one of the parts of messages, if it exists.
pub(crate) fn write_part(parts: &[Part], index: usize, out: &mut PartRow) -> bool
    ensures { ValueWritten part_row_of (slice_get parts.now index) result out.old out.new }
{
    match parts.get(index) {
        Some(part) => {
            *out = part_row(*part);
            true
        }
        None => false,
    }
}
