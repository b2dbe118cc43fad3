//! A world written as a saved state.
ghost use Rattle.pim_saved.specs.Fits.{FitsEntry, FitsGround, FitsJoinTimer, FitsLink, FitsList, FitsRecord, FitsSource, FitsState, FitsTree};
ghost use Rattle.pim_saved.specs.Parts.{ground_of, links_of, records_of, trees_of};
ghost use Rattle.pim_saved.specs.Text.{entry_text, front_text, ground_text, join_timer_text, links_text, records_text, source_text, table_text, text, trees_text};
ghost use Rattle.std.specs.List.{AllByRecursion, flat_map};
ghost use Rattle.std.specs.Prelude.{◌≡◌, ◌++◌, OnOk};

use pim_saver::{MAGIC, Saved, write_entry, write_head, write_list, write_sum, write_table};
use pim_state::{Meter, World};
use pim_store::{JoinTimerRows, Store};
use pim_tables::PlacedRows;
use pim_types::Key;
use pim_types::fact::{JoinTimerRow, SourceRow};
use std::alloc::AllocError;

// Puts the world's configuration and present time at the end.
#[tactic(auto, unfolding(pim_saved::specs::Text::ground_text))]
fn write_ground(world: &World, out: &mut Vec<u8>) -> Result<(), AllocError>
    ensures ok { OnOk result (out.new.items ≡ out.old.items ++ ground_text (ground_of world.now)) }
    ensures fitting { OnOk result (FitsGround (ground_of world.now)) }
{
    world.settings().write(out)?;
    write_list(world.interfaces().configured(), out)?;
    world.present().write(out)?;
    write_list(world.routes(), out)?;
    write_list(world.static_ranges(), out)?;
    Ok(())
}

// Puts the facts of the world's interfaces at the end: interfaces, neighbours, queriers.
#[tactic(auto, unfolding(pim_saved::specs::Text::links_text))]
fn write_links(world: &World, out: &mut Vec<u8>) -> Result<(), AllocError>
    ensures ok { OnOk result (out.new.items ≡ out.old.items ++ links_text (links_of world.now)) }
    ensures fitting { OnOk result (FitsLink (links_of world.now)) }
{
    // For the proof: `len` and `proof_rising` tell that the keys rise.
    let _ = world.neighbours().len();
    world.membership().proof_rising();
    write_table(world.interfaces().rows(), out)?;
    write_table(world.neighbours().iter(), out)?;
    write_table(world.membership().querier_rows(), out)?;
    Ok(())
}

// Puts IGMP's facts of the world at the end.
#[tactic(auto, unfolding(pim_saved::specs::Text::records_text))]
fn write_records(world: &World, out: &mut Vec<u8>) -> Result<(), AllocError>
    ensures ok { OnOk result (out.new.items ≡ out.old.items ++ records_text (records_of world.now)) }
    ensures fitting { OnOk result (FitsRecord (records_of world.now)) }
{
    let membership = world.membership();
    membership.proof_rising();
    write_table(membership.group_record_rows(), out)?;
    write_table(membership.source_record_rows(), out)?;
    write_table(membership.group_repeat_rows(), out)?;
    write_table(membership.source_repeat_rows(), out)?;
    write_table(membership.sending_rows(), out)?;
    Ok(())
}

// Puts the bytes of each Join timer at the end, under its key.
fn write_each_join_timer(rows: JoinTimerRows<'_>, out: &mut Vec<u8>) -> Result<(), AllocError>
    ensures ok { OnOk result (out.new.items ≡ out.old.items ++ flat_map (entry_text join_timer_text) rows.entry) }
    ensures fitting { OnOk result (AllByRecursion (FitsEntry FitsJoinTimer) rows.entry) }
{
    for (key, row) in rows {
        write_entry(key, row, out)?;
    }
    Ok(())
}

// Puts the table of Join timers behind the others.
fn write_join_timers(store: &Store, out: &mut Vec<u8>, meter: &mut Meter) -> Result<(), AllocError>
    ensures ok { OnOk result (out.new.items ≡ out.old.items ++ table_text join_timer_text store.now.join_timers) }
    ensures fitting { OnOk result (FitsList (FitsEntry FitsJoinTimer) store.now.join_timers) }
{
    let count = store.join_timer_count() as u64;
    count.write(out)?;
    write_each_join_timer(store.join_timer_rows(meter), out)?;
    Ok(())
}

// Puts the bytes of each source's row at the end, under its key.
fn write_each_source(rows: PlacedRows<'_, SourceRow>, out: &mut Vec<u8>) -> Result<(), AllocError>
    ensures ok { OnOk result (out.new.items ≡ out.old.items ++ flat_map (entry_text source_text) rows.entry) }
    ensures fitting { OnOk result (AllByRecursion (FitsEntry FitsSource) rows.entry) }
{
    for (key, row) in rows {
        write_entry(*key, *row, out)?;
    }
    Ok(())
}

// Puts the table of sources behind the others.
fn write_sources(store: &Store, out: &mut Vec<u8>) -> Result<(), AllocError>
    ensures ok { OnOk result (out.new.items ≡ out.old.items ++ table_text source_text store.now.sources) }
    ensures fitting { OnOk result (FitsList (FitsEntry FitsSource) store.now.sources) }
{
    let count = store.source_count() as u64;
    count.write(out)?;
    write_each_source(store.source_rows(), out)?;
    Ok(())
}

// Puts PIM's facts of the world at the end.
#[tactic(auto, unfolding(pim_saved::specs::Text::trees_text))]
fn write_trees(world: &World, out: &mut Vec<u8>, meter: &mut Meter) -> Result<(), AllocError>
    ensures ok { OnOk result (out.new.items ≡ out.old.items ++ trees_text (trees_of world.now)) }
    ensures fitting { OnOk result (FitsTree (trees_of world.now)) }
{
    let store = world.store();
    store.proof_rising();
    write_table(store.downstream_rows(), out)?;
    write_table(store.assert_rows(), out)?;
    write_join_timers(store, out, meter)?;
    write_table(store.override_timer_rows(), out)?;
    write_sources(store, out)?;
    write_table(store.register_rows(), out)?;
    Ok(())
}

// Puts all bytes of the state but for their sum at the end.
#[tactic(auto, unfolding(pim_saved::specs::Text::front_text, pim_saved::specs::Text::body_text))]
fn write_front(world: &World, out: &mut Vec<u8>, meter: &mut Meter) -> Result<(), AllocError>
    ensures ok { OnOk result (out.new.items ≡ out.old.items ++ front_text world.now) }
    ensures fitting { OnOk result (FitsState world.now) }
{
    MAGIC.write(out)?;
    write_head(world.candidates(), world.interfaces().addresses(), out)?;
    write_ground(world, out)?;
    write_links(world, out)?;
    write_records(world, out)?;
    write_trees(world, out, meter)?;
    Ok(())
}

/// Puts the one text of the state behind the others; its numbers fit their words, so that it is read again as this state.
/// The meter rises by the nodes visited. An error is want of memory, and leaves behind what was written before it.
#[tactic(auto, unfolding(pim_saved::specs::Text::text))]
pub fn write_world(world: &World, out: &mut Vec<u8>, meter: &mut Meter) -> Result<(), AllocError>
    ensures ok { OnOk result (out.new.items ≡ out.old.items ++ text world.now) }
    ensures fitting { OnOk result (FitsState world.now) }
{
    let begin = out.len();
    write_front(world, out, meter)?;
    write_sum(begin, out)?;
    Ok(())
}
