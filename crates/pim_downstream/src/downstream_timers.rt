//! What the expiry of a downstream state's timers changes (RFC 7761, sections 4.5.1 to 4.5.3).
ghost use Rattle.std.specs.Prelude.{◌≡◌, ◌∷◌, [], OnOk, true};
ghost use Rattle.pim_types.specs.Keys.{group_in, iface_in};
ghost use Rattle.pim_types.specs.declared.timer.TimerKind.{TimerKind};
ghost use Rattle.pim_model.specs.Downstream.{entry_kind, prune_echo};
ghost use Rattle.pim_model.specs.Firing.{fired};
ghost use Rattle.pim_model.specs.Messages.{Message, entry};
ghost use Rattle.pim_model.specs.State.{my_address};
ghost use Rattle.pim_state.specs.Turns.{saying};
ghost use Rattle.pim_downstream.specs.Ends.{is_downstream_kind};

use pim_state::{Turn, World};
use pim_trie::Meter;
use pim_types::fact::DownstreamRow;
use pim_types::{Addr, Hop, Key, TimerKind};
use pim_wire::{Entry, EntryKind};
use std::alloc::AllocError;

// The kind of the entry that names the key.
fn entry_kind(key: Key) -> EntryKind
    ensures { result ≡ entry_kind key }
{
    if key.source.is_none() {
        EntryKind::Star
    } else if key.rpt {
        EntryKind::SourceRpt
    } else {
        EntryKind::Source
    }
}

// A Prune of the key by this address, to the router itself.
fn echo_of(world: &World, turn: &mut Turn, key: Key, address: Addr) -> Result<(), AllocError>
    ensures { OnOk result (turn.new ≡ saying turn.old (Message.JoinPrune (iface_in key)
        (my_address world.now (iface_in key)) (group_in key) [] (entry (entry_kind key) address.bits ∷ []) ∷ [])) }
{
    let own = Hop {
        iface: key.iface,
        address: world.address(key.iface),
    };
    let prune = Entry {
        kind: entry_kind(key),
        address,
    };
    turn.out.join_prune(own, key.group, &[], &[prune])
}

// The PruneEcho: a Prune to the router itself, for a neighbour on the link that still wants the traffic and lost the
// Prune that came. There is none of (*,G) without an RP.
#[tactic(auto, unfolding(pim_model::specs::Downstream::prune_echo))]
fn echo(world: &World, turn: &mut Turn, meter: &mut Meter, key: Key) -> Result<(), AllocError>
    ensures { OnOk result (turn.new ≡ saying turn.old (prune_echo world.now key)) }
{
    let address = match key.source {
        Some(source) => Some(source),
        None => world.rp(key.group, meter),
    };
    match address {
        Some(address) => echo_of(world, turn, key, address),
        None => Ok(()),
    }
}

// The Prune-Pending timer expires: (S,G,rpt) is pruned from then on; (*,G) and (S,G) are removed with a PruneEcho.
#[tactic(auto, unfolding(pim_model::specs::Firing::fired, pim_model::specs::Firing::fire_row, pim_model::specs::Downstream::prune_pending_due))]
fn prune_pending_due(
    world: &mut World,
    turn: &mut Turn,
    meter: &mut Meter,
    key: Key,
) -> Result<(), AllocError>
    ensures state { OnOk result (world.new ≡ (fired world.old TimerKind.PrunePending key).0) }
    ensures messages { OnOk result (turn.new ≡ saying turn.old (fired world.old TimerKind.PrunePending key).1) }
{
    let Some(row) = world.store().downstream(key) else {
        return Ok(());
    };
    if key.rpt {
        let pruned = DownstreamRow {
            pending: None,
            ..row
        };
        return world.store_mut().change_downstream(key, pruned, meter);
    }
    echo(world, turn, meter, key)?;
    world.store_mut().drop_downstream(key, meter);
    Ok(())
}

// The state expires.
#[tactic(auto, unfolding(pim_model::specs::Firing::fired, pim_model::specs::Downstream::downstream_expired))]
fn expired(world: &mut World, meter: &mut Meter, key: Key)
    ensures { world.new ≡ (fired world.old TimerKind.DownstreamExpiry key).0 }
{
    world.store_mut().drop_downstream(key, meter);
}

/// What the expiry of a Prune-Pending timer, or of an expiry timer, changes. When the Prune-Pending timer expires,
/// (S,G,rpt) is pruned from then on, and (*,G) and (S,G) are removed with a PruneEcho. When an expiry timer does, its
/// state is removed without a message. The meter rises by the nodes visited. The error is want of memory.
#[tactic(auto, unfolding(pim_model::specs::Firing::fired))]
pub fn fired(
    world: &mut World,
    turn: &mut Turn,
    meter: &mut Meter,
    kind: TimerKind,
    key: Key,
) -> Result<(), AllocError>
    requires { is_downstream_kind kind ≡ true }
    ensures state { OnOk result (world.new ≡ (fired world.old kind key).0) }
    ensures messages { OnOk result (turn.new ≡ saying turn.old (fired world.old kind key).1) }
{
    match kind {
        TimerKind::PrunePending => prune_pending_due(world, turn, meter, key),
        TimerKind::DownstreamExpiry => {
            expired(world, meter, key);
            Ok(())
        }
        _ => unreachable!(),
    }
}
