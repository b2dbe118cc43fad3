//! Rows of older hosts read, and the router's bytes behind them.
ghost use Rattle.igmp_older_saved.specs.Reading.{before_sum, hosts_at, is_tagged, opened};
ghost use Rattle.igmp_older_saved.specs.Slices.{bytes_of};
ghost use Rattle.pim_saver.specs.Read.{Gives};
ghost use Rattle.std.specs.Prelude.{◌≡◌};

use crate::host::HostRow;
use crate::writing::TAG;
use pim_saved::SavedRefusal;
use pim_saver::{ReadFault, Saved, crc32, read_table};
use pim_types::Key;
use std::alloc::Global;

// Whether rows of older hosts stand in front of the router's bytes.
fn is_tagged(bytes: &[u8]) -> bool
    ensures { result ≡ is_tagged bytes.now }
{
    match u32::read(bytes) {
        Ok((word, _)) => word == TAG,
        Err(_) => false,
    }
}

// The bytes before the last four, where these are their sum.
#[tactic(auto, unfolding(pim_saved::specs::Reading::undamaged, crate::specs::Reading::before_sum))]
fn before_sum(bytes: &[u8]) -> Result<&[u8], SavedRefusal>
    ensures { bytes_of result ≡ before_sum bytes.now }
{
    let (front, last) = bytes.split_at(bytes.len().saturating_sub(4));
    let (sum, _) = u32::read(last)?;
    if sum != crc32(front) {
        return Err(SavedRefusal::Damaged);
    }
    Ok(front)
}

// The rows behind their tag, of which there is at least one, and the router's bytes.
#[tactic(auto, unfolding(crate::specs::Reading::hosts_at))]
fn read_hosts(alloc: Global, bytes: &[u8]) -> Result<(Vec<(Key, HostRow)>, &[u8]), ReadFault>
    ensures { Gives (λ x. (x.0.items, x.1.now)) result (hosts_at bytes.now) }
{
    let (_, rest) = u32::read(bytes)?;
    let (hosts, rest) = read_table(alloc, rest)?;
    if hosts.is_empty() {
        return Err(ReadFault::Refused(SavedRefusal::OutOfRange));
    }
    Ok((hosts, rest))
}

/// The rows of older hosts that bytes say, none where they are a router's alone, and the router's bytes. The sum of all is
/// compared before a row is read; else a refusal is the first fault from the left. Memory is taken as rows are met.
#[tactic(auto, unfolding(crate::specs::Reading::opened))]
pub fn open_saved(alloc: Global, bytes: &[u8]) -> Result<(Vec<(Key, HostRow)>, &[u8]), ReadFault>
    ensures { Gives (λ x. (x.0.items, x.1.now)) result (opened bytes.now) }
{
    if !is_tagged(bytes) {
        return Ok((Vec::new(alloc), bytes));
    }
    let front = before_sum(bytes)?;
    read_hosts(alloc, front)
}
