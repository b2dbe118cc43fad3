//! Which Join/Prunes repeat what the router knows: they change no more than when the rows expire that they join. That is
//! told before their effect is found.
ghost use Rattle.pim_model.specs.Sets.{is_loser};
ghost use Rattle.pim_model.specs.Tables.{row_at};
ghost use Rattle.pim_plan.specs.Rejoining.{ends_none, is_again, is_extended, is_no_later, repeats};
ghost use Rattle.std.specs.Prelude.{◌≡◌, IfOk};

use pim_downstream::Named;
use pim_neighbours::holdtime_end;
use pim_state::{Turn, World};
use pim_types::Key;
use pim_types::fact::{AssertRole, DownstreamRow};
use std::alloc::{AllocError, Global};

// Whether a timestamp isn't later than another. `None` is never: both are never, or neither is.
fn is_no_later(first: Option<u64>, second: Option<u64>) -> bool
    ensures { result ≡ is_no_later first second }
{
    match (first, second) {
        (None, None) => true,
        (Some(first), Some(second)) => first <= second,
        _ => false,
    }
}

// Whether a Join that expires at this timestamp takes a row to it, and changes nothing else of the row.
#[tactic(auto, unfolding(crate::specs::Rejoining::is_extended))]
fn is_extended(end: Option<u64>, row: Option<DownstreamRow>) -> bool
    ensures { result ≡ is_extended end row }
{
    match row {
        Some(row) => row.pending.is_none() && is_no_later(row.expiry, end),
        None => false,
    }
}

// Whether the router lost the assert under the key.
fn is_lost(world: &World, key: Key) -> bool
    ensures { result ≡ is_loser (row_at world.now.asserts key) }
{
    match world.store().assert_at(key) {
        Some(row) => matches!(row.role, AssertRole::Loser),
        None => false,
    }
}

// Whether a Join of the key ends no row of (S,G,rpt): only one of (*,G) does.
#[tactic(auto, unfolding(crate::specs::Rejoining::rpt_keys_at))]
fn ends_none(world: &World, alloc: Global, key: Key) -> Result<bool, AllocError>
    ensures { IfOk result (λ none. none ≡ ends_none world.now key) }
{
    if key.source.is_some() {
        return Ok(true);
    }
    let mut ended = Vec::new(alloc);
    world
        .store()
        .push_rpt_keys_at(key.iface, key.group, &mut ended)?;
    Ok(ended.is_empty())
}

// Whether a Join of the key that expires at this timestamp changes no more than when its row expires.
#[tactic(auto, unfolding(crate::specs::Rejoining::is_again))]
fn is_again(world: &World, alloc: Global, end: Option<u64>, key: Key) -> Result<bool, AllocError>
    ensures { IfOk result (λ again. again ≡ is_again world.now end key) }
{
    if key.rpt || !is_extended(end, world.store().downstream(key)) {
        return Ok(false);
    }
    if is_lost(world, key) {
        return Ok(false);
    }
    ends_none(world, alloc, key)
}

/// Whether a message with these keys and a holdtime, in seconds, repeats what is known: it prunes nothing, and changes no
/// more than when the rows expire that it joins. The first key of another kind ends the search. The error is want of
/// memory.
#[tactic(auto, unfolding(crate::specs::Rejoining::repeats))]
pub(crate) fn repeats(
    world: &World,
    turn: &Turn,
    holdtime: u16,
    named: &Named,
) -> Result<bool, AllocError>
    ensures { IfOk result (λ again. again ≡ repeats world.now holdtime named.now.joined.items named.now.pruned.items) }
{
    if !named.pruned.is_empty() {
        return Ok(false);
    }
    let end = holdtime_end(world.present(), holdtime);
    for key in &named.joined {
        if !is_again(world, turn.alloc, end, *key)? {
            return Ok(false);
        }
    }
    Ok(true)
}
