//! The limit on facts.
ghost use Rattle.std.specs.Prelude.{◌≡◌, ◌++◌, ◌+◌, ◌==◌, ◌&&◌, IfOk, OnOk, filter, length, not};
ghost use Rattle.pim_model.specs.Full.{distinct, keys_are_full, makeable_keys, once_more, passes_limit};
ghost use Rattle.pim_model.specs.Tables.{has_row, same_bool};

use crate::named::Named;
use pim_state::{Turn, World};
use pim_tables::is_named;
use pim_types::Key;
use std::alloc::{AllocError, Global};

// Puts the key behind the others, if it isn't among them.
#[tactic(auto, unfolding(pim_model::specs::Full::once_more))]
fn push_once(found: &mut Vec<Key>, key: Key) -> Result<(), AllocError>
    ensures { OnOk result (found.new.items ≡ once_more found.old.items key) }
{
    if is_named(found, key) {
        return Ok(());
    }
    found.push(key)?;
    Ok(())
}

// The keys, each once.
#[tactic(auto, unfolding(pim_model::specs::Full::distinct))]
fn distinct(alloc: Global, keys: &[Key]) -> Result<Vec<Key>, AllocError>
    ensures { IfOk result (λ found. found.items ≡ distinct keys.now) }
{
    let mut found = Vec::new(alloc);
    for key in keys {
        push_once(&mut found, *key)?;
    }
    Ok(found)
}

// The keys whose rows the message may make: its joins of (*,G) and (S,G), its prunes of (S,G,rpt).
#[tactic(auto, unfolding(pim_model::specs::Full::makeable_keys))]
fn makeable(alloc: Global, named: &Named) -> Result<Vec<Key>, AllocError>
    ensures { IfOk result (λ keys. keys.items ≡ makeable_keys named.now.joined.items named.now.pruned.items) }
{
    let mut keys = Vec::new(alloc);
    push_where(&mut keys, &named.joined, false)?;
    push_where(&mut keys, &named.pruned, true)?;
    Ok(keys)
}

// Puts those of the keys that are of (S,G,rpt), or those that aren't, behind the others.
fn push_where(found: &mut Vec<Key>, keys: &[Key], is_rpt: bool) -> Result<(), AllocError>
    ensures { OnOk result (found.new.items ≡ found.old.items ++ filter (λ k. same_bool is_rpt k.rpt) keys.now) }
{
    for key in keys {
        if key.rpt == is_rpt {
            found.push(*key)?;
        }
    }
    Ok(())
}

// How many of the keys have no row.
fn missing(world: &World, keys: &[Key]) -> usize
    ensures { result ≡ length (filter (λ k. not (has_row world.now.downstream k)) keys.now) }
{
    keys.iter()
        .filter(|key| !world.store().has_downstream(**key))
        .count()
}

// Whether a row of each of the keys would pass the limit on facts, were none there.
fn may_be_full(world: &World, holdtime: u16, named: &Named) -> bool
    ensures { result ≡ (not (holdtime == 0)
        && passes_limit world.now (length named.now.joined.items + length named.now.pruned.items)) }
{
    holdtime != 0 && world.passes_limit(named.joined.len() + named.pruned.len())
}

/// Whether the rows that a message with these keys and a holdtime, in seconds, would make pass the limit on facts. No
/// key is looked up where there is room for all of them.
#[tactic(auto, unfolding(pim_model::specs::Full::keys_are_full, pim_model::specs::Full::needed))]
pub fn is_full(world: &World, turn: &Turn, holdtime: u16, named: &Named) -> Result<bool, AllocError>
    ensures { IfOk result (λ full. full
        ≡ keys_are_full world.now holdtime named.now.joined.items named.now.pruned.items) }
{
    if !may_be_full(world, holdtime, named) {
        return Ok(false);
    }
    let makeable = makeable(turn.alloc, named)?;
    let keys = distinct(turn.alloc, &makeable)?;
    Ok(holdtime != 0 && world.passes_limit(missing(world, &keys)))
}
