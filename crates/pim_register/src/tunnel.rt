//! What a Register-Stop and new RP ranges change of the tunnels (RFC 7761, section 4.4.1).
ghost use Rattle.std.specs.Prelude.{◌≡◌, ◌==◌, IfOk, OnOk, filter, not, option_map};
ghost use Rattle.law_settled.specs.Rows.{all_changed};
ghost use Rattle.pim_model.specs.Registers.{register_stop_seen, state_after_stop};
ghost use Rattle.pim_model.specs.Step.{rps_replaced};
ghost use Rattle.pim_model.specs.Tables.{change_row, keys_in, same_option};
ghost use Rattle.pim_register.specs.Tunnel.{is_rp_changed, joining, stopping};
ghost use Rattle.pim_types.specs.Keys.{is_of_group};

use pim_mrib::Mrib;
use pim_neighbours::delay_in;
use pim_state::{Meter, Turn, World};
use pim_types::fact::{RegisterRow, RegisterState};
use pim_types::{Addr, Key, SourceGroup};
use std::alloc::AllocError;

// 0.5 to 1.5 times Register_Suppression_Time, less Register_Probe_Time (RFC 7761, section 4.4.1), in ms.
const LEAST_SUPPRESSION: u32 = 25_000;

const MOST_SUPPRESSION: u32 = 85_000;

// The keys of the registers of the group.
fn keys_of(world: &World, turn: &Turn, group: Addr) -> Result<Vec<Key>, AllocError>
    ensures { IfOk result (λ keys. keys.items ≡ keys_in (filter (λ e. is_of_group group.bits e.0) world.now.registers)) }
{
    let mut keys = Vec::new(turn.alloc);
    for (key, _) in world.store().registers_of(group) {
        keys.push(*key)?;
    }
    Ok(keys)
}

// A register in Prune until the timestamp, in ms, unless it is in Prune already.
fn stopped(row: RegisterRow, end: u64) -> RegisterRow
    ensures { result ≡ record { state = state_after_stop end row.state } }
{
    match row.state {
        RegisterState::Prune { .. } => row,
        _ => RegisterRow {
            state: RegisterState::Prune { end },
        },
    }
}

// Sets a register, if there is one, to Prune until the timestamp, in ms, unless it is in Prune already.
fn stop(world: &mut World, meter: &mut Meter, key: Key, end: u64) -> Result<(), AllocError>
    ensures { OnOk result (world.new
        ≡ record world.old { registers = change_row (stopping end) key world.old.registers }) }
{
    // For the proof: the registers' keys rise, so that the key is listed once.
    world.proof_keyed();
    let Some(row) = world.store().register(key) else {
        return Ok(());
    };
    world
        .store_mut()
        .change_register(key, stopped(row, end), meter)
}

// Sets the registers under the keys to Prune until the timestamp, in ms, unless they are in Prune already.
fn stop_all(world: &mut World, meter: &mut Meter, keys: &[Key], end: u64) -> Result<(), AllocError>
    ensures { OnOk result (world.new
        ≡ record world.old { registers = all_changed (stopping end) world.old.registers keys.now }) }
{
    for key in keys {
        stop(world, meter, *key, end)?;
    }
    Ok(())
}

// Whether the source is 0.0.0.0, which stands for all sources of a group.
fn is_any(source: Addr) -> bool
    ensures { result ≡ (source.bits == 0) }
{
    source == Addr::NONE
}

/// Takes a Register-Stop for a source of a group, or for all its sources where the source is 0.0.0.0: for a time that
/// the draw gives nothing of them is registered. The meter rises by the nodes visited. An error is want of memory.
#[tactic(auto, unfolding(pim_model::specs::Registers::register_stop_seen))]
pub fn stop_seen(
    world: &mut World,
    turn: &mut Turn,
    meter: &mut Meter,
    name: SourceGroup,
) -> Result<(), AllocError>
    ensures state { OnOk result (world.new ≡ register_stop_seen world.old turn.old.draw name.group.bits name.source.bits) }
    ensures silent { turn.new ≡ turn.old }
{
    // For the proof: each register is under the key of its source.
    world.proof_keyed();
    let end = world.present() + delay_in(LEAST_SUPPRESSION, MOST_SUPPRESSION, turn.draw);
    if is_any(name.source) {
        let keys = keys_of(world, turn, name.group)?;
        return stop_all(world, meter, &keys, end);
    }
    stop(world, meter, name.key(), end)
}

// Whether the RPs differ, where both or either may be none.
fn is_other_rp(first: Option<Addr>, second: Option<Addr>) -> bool
    ensures { result ≡ not (same_option (option_map (λ a. a.bits) first) (option_map (λ a. a.bits) second)) }
{
    match (first, second) {
        (None, None) => false,
        (Some(first), Some(second)) => first != second,
        _ => true,
    }
}

// The keys of the registers whose RP is another one by the next table.
fn keys_with_new_rp(
    world: &World,
    turn: &mut Turn,
    meter: &mut Meter,
    next: &Mrib,
) -> Result<Vec<Key>, AllocError>
    ensures keys { IfOk result (λ keys. keys.items
        ≡ keys_in (filter (λ e. is_rp_changed world.now next.now.ranges e.0) world.now.registers)) }
    ensures silent { turn.new ≡ turn.old }
{
    let mut keys = Vec::new(turn.alloc);
    for (key, _) in world.store().register_rows() {
        let before = world.rp(key.group, meter);
        let after = next.rp(key.group, meter);
        if is_other_rp(before, after) {
            keys.push(*key)?;
        }
    }
    Ok(keys)
}

// Sets the registers under the keys to Join.
fn join_all(world: &mut World, meter: &mut Meter, keys: &[Key]) -> Result<(), AllocError>
    ensures { OnOk result (world.new
        ≡ record world.old { registers = all_changed joining world.old.registers keys.now }) }
{
    for key in keys {
        let row = RegisterRow {
            state: RegisterState::Join,
        };
        world.store_mut().change_register(*key, row, meter)?;
    }
    Ok(())
}

/// Replaces the RP ranges by those of the next table, which comes back with the ranges that were replaced. Where the RP
/// of a group changes, its registers start again in Join. The meter rises by the nodes visited. The error is want of
/// memory.
pub fn rps_replaced(
    world: &mut World,
    turn: &mut Turn,
    meter: &mut Meter,
    next: Mrib,
) -> Result<Mrib, AllocError>
    ensures state { OnOk result (world.new ≡ rps_replaced world.old next.ranges) }
    ensures back { IfOk result (λ before. before.ranges ≡ world.old.ranges) }
    ensures silent { turn.new ≡ turn.old }
{
    let keys = keys_with_new_rp(world, turn, meter, &next)?;
    let before = world.take_ranges(next);
    join_all(world, meter, &keys)?;
    Ok(before)
}
