//! The effect of a message, found before its change: the rows after it, and the keys of which it changes more than when
//! a timer expires.
ghost use Rattle.law_events.specs.JoinPrunes.{moved_among, moves_end};
ghost use Rattle.pim_downstream.specs.Naming.{change_after, changes_after};
ghost use Rattle.pim_model.specs.Rows.{same_both, same_downstream, same_end};
ghost use Rattle.pim_model.specs.Sets.{is_loser};
ghost use Rattle.pim_model.specs.Tables.{row_at};
ghost use Rattle.std.specs.Prelude.{◌≡◌, ◌++◌, [], ◌∷◌, IfOk, OnOk, filter, if◌then◌else◌, map, not};

use crate::indexed::Indexed;
use crate::named::Named;
use crate::row::row_after;
use crate::rpt::push_rpt_rows;
use pim_state::{Turn, World};
use pim_types::fact::{AssertRole, AssertRow, DownstreamRow};
use pim_types::{IfaceId, Key, Series};
use std::alloc::{AllocError, Global};

/// A key with its row after a message.
#[derive(Clone, Copy)]
pub struct Change {
    pub key: Key,
    pub row: Option<DownstreamRow>,
}

/// The effect of a message to the router: the row after it of each key whose row it can change, and the keys of which
/// it changes more than when a timer expires.
#[derive(Drop)]
pub struct Effect {
    pub changes: Vec<Change>,
    pub moved: Series<Key>,
}

// Whether a timer runs in both rows, or in neither.
fn same_end(first: Option<u64>, second: Option<u64>) -> bool
    ensures { result ≡ same_end first second }
{
    match (first, second) {
        (None, None) | (Some(_), Some(_)) => true,
        _ => false,
    }
}

// Whether both rows are there and the same but for when timers expire, or neither is there.
fn same_row(before: Option<DownstreamRow>, after: Option<DownstreamRow>) -> bool
    ensures { result ≡ same_both same_downstream before after }
{
    match (before, after) {
        (None, None) => true,
        (Some(before), Some(after)) => {
            same_end(before.expiry, after.expiry) && same_end(before.pending, after.pending)
        }
        _ => false,
    }
}

// An assert that the router lost.
fn is_loser(row: Option<AssertRow>) -> bool
    ensures { result ≡ is_loser row }
{
    match row {
        Some(row) => matches!(row.role, AssertRole::Loser),
        None => false,
    }
}

// Whether a message changes at most when the timers of the key's row expire, and the key loses no assert by it, where
// this is the row before the message and the change has that after it.
#[tactic(auto, unfolding(law_events::specs::JoinPrunes::moves_end))]
fn moves_end(
    world: &World,
    iface: IfaceId,
    holdtime: u16,
    named: &Indexed<'_>,
    before: Option<DownstreamRow>,
    change: Change,
) -> bool
    requires before { before ≡ row_at world.now.downstream change.key }
    requires after { change ≡ change_after world.now iface.number holdtime named.now.joined.items named.now.pruned.items change.key }
    ensures { result
        ≡ moves_end world.now iface.number holdtime named.now.joined.items named.now.pruned.items change.key }
{
    same_row(before, change.row)
        && !(is_loser(world.store().assert_at(change.key)) && named.joins(change.key))
}

// The row of the key after the message: its row is looked up once. The key is added to the list if the message changes
// more of it than when a timer expires.
fn judge_key(
    world: &World,
    iface: IfaceId,
    holdtime: u16,
    named: &Indexed<'_>,
    key: Key,
    moved: &mut Vec<Key>,
) -> Result<Change, AllocError>
    ensures change { IfOk result (λ change. change
        ≡ change_after world.now iface.number holdtime named.now.joined.items named.now.pruned.items key) }
    ensures moved { OnOk result (moved.new.items ≡ moved.old.items ++ (if moves_end world.now iface.number holdtime
        named.now.joined.items named.now.pruned.items key then [] else key ∷ [])) }
{
    let before = world.store().downstream(key);
    let row = row_after(world, iface, holdtime, named, key, before);
    let change = Change { key, row };
    if !moves_end(world, iface, holdtime, named, before, change) {
        moved.push(key)?;
    }
    Ok(change)
}

// Adds the rows of these keys after the message to a list, and to another the keys of which it changes more than when a
// timer expires.
fn judge_keys(
    world: &World,
    iface: IfaceId,
    holdtime: u16,
    named: &Indexed<'_>,
    keys: &[Key],
    changes: &mut Vec<Change>,
    moved: &mut Vec<Key>,
) -> Result<(), AllocError>
    ensures changes { OnOk result (changes.new.items ≡ changes.old.items ++ map (change_after world.now iface.number holdtime
        named.now.joined.items named.now.pruned.items) keys.now) }
    ensures moved { OnOk result (moved.new.items ≡ moved.old.items ++ filter (λ k. not (moves_end world.now iface.number
        holdtime named.now.joined.items named.now.pruned.items k)) keys.now) }
{
    for key in keys {
        let change = judge_key(world, iface, holdtime, named, *key, moved)?;
        changes.push(change)?;
    }
    Ok(())
}

impl Effect {
    /// The effect of a message on an interface that names these keys and has a holdtime, in seconds: what becomes of
    /// each key depends on the whole message, and on the state that it finds.
    pub fn of(
        world: &World,
        turn: &Turn,
        iface: IfaceId,
        holdtime: u16,
        named: &Named,
    ) -> Result<Effect, AllocError>
        ensures changes { IfOk result (λ effect. effect.changes.items
            ≡ changes_after world.now iface.number holdtime named.now.joined.items named.now.pruned.items) }
        ensures moved { IfOk result (λ effect. effect.moved
            ≡ moved_among world.now iface.number holdtime named.now.joined.items named.now.pruned.items) }
    {
        let indexed = Indexed::of(turn.alloc, named)?;
        let mut changes = Vec::new(turn.alloc);
        let mut moved = Vec::new(turn.alloc);
        let (joined, pruned) = (&named.joined, &named.pruned);
        judge_keys(
            world,
            iface,
            holdtime,
            &indexed,
            joined,
            &mut changes,
            &mut moved,
        )?;
        judge_keys(
            world,
            iface,
            holdtime,
            &indexed,
            pruned,
            &mut changes,
            &mut moved,
        )?;
        let mut others = Vec::new(turn.alloc);
        push_rpt_rows(turn.alloc, world, iface, joined, &mut others)?;
        judge_keys(
            world,
            iface,
            holdtime,
            &indexed,
            &others,
            &mut changes,
            &mut moved,
        )?;
        Ok(Effect {
            changes,
            moved: Series::from_vec(moved),
        })
    }
}
