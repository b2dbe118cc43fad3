//! The keys that a Join/Prune names.
ghost use Rattle.std.specs.Prelude.{◌≡◌, ◌++◌, IfOk, OnOk};
ghost use Rattle.pim_downstream.specs.Naming.{entry_keys, is_counted};
ghost use Rattle.pim_model.specs.Downstream.{is_used, joined_keys, key_by, pruned_keys};

use crate::entry::{is_counted, is_used};
use pim_state::{Meter, Turn, World};
use pim_types::{Addr, IfaceId, Key};
use pim_wire::{Entry, EntryKind, GroupView, JoinPruneView};
use std::alloc::{AllocError, Global};

/// The keys that the entries of a message name, in its order: those that it joins, and those that it prunes. Entries
/// that don't count aren't among them.
#[derive(Drop)]
pub struct Named {
    pub joined: Vec<Key>,
    pub pruned: Vec<Key>,
}

// The key of an entry of a group on an interface.
fn key_by(iface: IfaceId, group: Addr, entry: Entry) -> Key
    ensures { result ≡ key_by iface.number group.bits entry.address.bits entry.kind }
{
    match entry.kind {
        EntryKind::Star => Key::star(iface, group),
        EntryKind::Source => Key::source(iface, group, entry.address),
        EntryKind::SourceRpt => Key::source_rpt(iface, group, entry.address),
    }
}

// Puts the keys of a group's joins behind the others.
fn push_joined(
    world: &World,
    meter: &mut Meter,
    iface: IfaceId,
    group: &GroupView<'_>,
    keys: &mut Vec<Key>,
) -> Result<(), AllocError>
    ensures { OnOk result (keys.new.items
        ≡ keys.old.items ++ entry_keys (is_counted world.now) iface.number group.now.group group.now.joins) }
{
    let address = group.group();
    for join in group.joins() {
        if is_counted(world, address, join, meter) {
            keys.push(key_by(iface, address, join))?;
        }
    }
    Ok(())
}

// Puts the keys of a group's prunes behind the others.
fn push_pruned(iface: IfaceId, group: &GroupView<'_>, keys: &mut Vec<Key>) -> Result<(), AllocError>
    ensures { OnOk result (keys.new.items
        ≡ keys.old.items ++ entry_keys is_used iface.number group.now.group group.now.prunes) }
{
    let address = group.group();
    for prune in group.prunes() {
        if is_used(address, prune) {
            keys.push(key_by(iface, address, prune))?;
        }
    }
    Ok(())
}

impl Named {
    /// The keys that the message names on an interface. The meter rises by the nodes visited.
    pub fn of(
        world: &World,
        turn: &Turn,
        meter: &mut Meter,
        iface: IfaceId,
        message: &JoinPruneView<'_>,
    ) -> Result<Named, AllocError>
        ensures joined { IfOk result (λ named. named.joined.items ≡ joined_keys world.now iface.number message.now) }
        ensures pruned { IfOk result (λ named. named.pruned.items ≡ pruned_keys iface.number message.now) }
    {
        let mut joined = Vec::new(turn.alloc);
        let mut pruned = Vec::new(turn.alloc);
        for group in message.groups() {
            push_joined(world, meter, iface, &group, &mut joined)?;
            push_pruned(iface, &group, &mut pruned)?;
        }
        Ok(Named { joined, pruned })
    }
}
