//! Which RP of a range is chosen, and what one is chosen for.
ghost use Rattle.std.specs.List.{list_any};
ghost use Rattle.std.specs.Prelude.{◌≡◌};
ghost use Rattle.pim_model.specs.Limits.{same_prefix};
ghost use Rattle.pim_bsr.specs.Choice.{is_beaten_by, is_better, is_chosen, range_value};

use crate::learned::Learned;
use pim_ip::Prefix;
use pim_mrib::hash_value;

/// What an RP is chosen for, of several that a range has.
#[derive(Clone, Copy, PartialEq, Eq, Debug)]
pub enum Choice {
    /// For the range: all its groups have one RP, which the router is given in an RP range.
    Range,
    /// For each group (RFC 7761, section 4.7.2): the router is given all RPs as candidates, and chooses itself.
    Group,
}

/// Whether two prefixes are equal.
pub(crate) fn same_prefix(first: Prefix, second: Prefix) -> bool
    ensures { result ≡ same_prefix first second }
{
    first.address.bits == second.address.bits && first.length == second.length
}

/// The value of an RP at the address of its range.
#[tactic(auto, unfolding(crate::specs::Choice::range_value))]
fn range_value(learned: Learned) -> u32
    ensures { result ≡ range_value learned }
{
    hash_value(
        u32::from(learned.hash_length),
        learned.prefix.address,
        learned.rp,
    )
}

/// Whether the first of two RPs of a range is better.
#[tactic(auto, unfolding(crate::specs::Choice::is_better))]
fn is_better(first: Learned, second: Learned) -> bool
    ensures { result ≡ is_better first second }
{
    if first.priority != second.priority {
        return first.priority < second.priority;
    }
    let value = range_value(first);
    let other = range_value(second);
    if other != value {
        return other < value;
    }
    second.rp.bits < first.rp.bits
}

/// Whether another RP is better, of the same range.
fn is_beaten_by(learned: Learned, other: Learned) -> bool
    ensures { result ≡ is_beaten_by learned other }
{
    same_prefix(learned.prefix, other.prefix) && is_better(other, learned)
}

/// Whether any of the RPs of its range is better.
fn is_beaten(rps: &[Learned], learned: Learned) -> bool
    ensures { result ≡ list_any (is_beaten_by learned) rps.now }
{
    rps.iter().any(|other| is_beaten_by(learned, *other))
}

/// Whether none of the RPs of its range is better.
#[tactic(auto, unfolding(crate::specs::Choice::is_chosen))]
pub(crate) fn is_chosen(rps: &[Learned], learned: Learned) -> bool
    ensures { result ≡ is_chosen rps.now learned }
{
    !is_beaten(rps, learned)
}
