//! A world with the facts of another at other places, under another configuration.
ghost use Rattle.law_states.specs.Placing.{placed_under};
ghost use Rattle.law_states.specs.Reload.{config_of};
ghost use Rattle.pim_ip.specs.declared.fault.Fault.{Fault};
ghost use Rattle.pim_model.specs.Limits.{config_test};
ghost use Rattle.pim_model.specs.State.{iface_count};
ghost use Rattle.pim_saver.specs.Views.{ground_view, links_view, records_view, state_view, trees_view};
ghost use Rattle.pim_worlds.specs.Leading.{LeadWithin, placed_links, placed_records, placed_trees, with_ground};
ghost use Rattle.std.specs.Prelude.{◌≡◌, IfErr, IfOk, Ok, length};

use crate::rows::{copied, listed, listed_at, listed_sources, listed_timers};
use crate::world_of;
use pim_saver::{SavedGround, SavedHead, SavedLinks, SavedRecords, SavedState, SavedTrees};
use pim_state::{Meter, World};
use pim_types::Fault;
use std::alloc::{AllocError, Global};

// The configuration of the next world, with the present of this one.
fn ground_of(alloc: Global, world: &World, next: &World) -> Result<SavedGround, AllocError>
    ensures { IfOk result (λ made. ground_view made ≡ with_ground world.now next.now) }
{
    Ok(SavedGround {
        settings: next.settings(),
        configured: copied(alloc, next.interfaces().configured())?,
        present: world.present(),
        routes: copied(alloc, next.routes())?,
        ranges: copied(alloc, next.static_ranges())?,
    })
}

// The facts of the interfaces that are up, at their places.
fn links_at(alloc: Global, world: &World, places: &[u32]) -> Result<SavedLinks, AllocError>
    ensures { IfOk result (λ links. links_view links ≡ placed_links world.now places.now) }
{
    Ok(SavedLinks {
        interfaces: listed_at(alloc, places, world.interfaces().rows())?,
        neighbours: listed_at(alloc, places, world.neighbours().iter())?,
        queriers: listed_at(alloc, places, world.membership().querier_rows())?,
    })
}

// IGMP's facts at their places.
fn records_at(alloc: Global, world: &World, places: &[u32]) -> Result<SavedRecords, AllocError>
    ensures { IfOk result (λ records. records_view records ≡ placed_records world.now places.now) }
{
    let facts = world.membership();
    Ok(SavedRecords {
        group_records: listed_at(alloc, places, facts.group_record_rows())?,
        source_records: listed_at(alloc, places, facts.source_record_rows())?,
        group_repeats: listed_at(alloc, places, facts.group_repeat_rows())?,
        source_repeats: listed_at(alloc, places, facts.source_repeat_rows())?,
        sendings: listed_at(alloc, places, facts.sending_rows())?,
    })
}

// PIM's facts: those of interfaces at their places, those of the whole router as they are.
fn trees_at(
    alloc: Global,
    world: &World,
    places: &[u32],
    meter: &mut Meter,
) -> Result<SavedTrees, AllocError>
    ensures { IfOk result (λ trees. trees_view trees ≡ placed_trees world.now places.now) }
{
    let facts = world.store();
    Ok(SavedTrees {
        downstream: listed_at(alloc, places, facts.downstream_rows())?,
        asserts: listed_at(alloc, places, facts.assert_rows())?,
        join_timers: listed_timers(alloc, facts.join_timer_rows(meter))?,
        override_timers: listed(alloc, facts.override_timer_rows())?,
        sources: listed_sources(alloc, facts.source_rows())?,
        registers: listed(alloc, facts.register_rows())?,
    })
}

// All of it.
#[tactic(auto, unfolding(law_states::specs::Placing::placed_under, law_states::specs::Reload::config_of, pim_model::specs::State::settings_of))]
fn state_at(
    alloc: Global,
    world: &World,
    next: &World,
    places: &[u32],
    meter: &mut Meter,
) -> Result<SavedState, AllocError>
    ensures { IfOk result (λ state. state_view state ≡ placed_under world.now places.now (config_of next.now)) }
{
    Ok(SavedState {
        head: SavedHead {
            candidates: copied(alloc, world.candidates())?,
            addresses: copied(alloc, next.interfaces().addresses())?,
        },
        ground: ground_of(alloc, world, next)?,
        links: links_at(alloc, world, places)?,
        records: records_at(alloc, world, places)?,
        trees: trees_at(alloc, world, places, meter)?,
    })
}

/// The world with the facts of a world at other places, under the configuration of the next one; the present time is that
/// of the first. The places lead to interfaces of that configuration. The meter rises by the nodes visited. The fault is
/// want of memory.
pub fn world_at(
    alloc: Global,
    world: &World,
    next: &World,
    places: &[u32],
    meter: &mut Meter,
) -> Result<World, Fault>
    requires accepted { config_test (config_of next.now) ≡ Ok tt }
    requires lead { LeadWithin places.now (iface_count world.now) (length next.now.configured.interfaces) }
    ensures placed { IfOk result (λ made. made ≡ placed_under world.now places.now (config_of next.now)) }
    ensures memory { IfErr result (λ fault. fault ≡ Fault.Memory) }
{
    // For the proof: in what order and of what kind the keys of the rows are.
    world.interfaces().proof_kinds();
    world.membership().proof_kinds();
    world.store().proof_kinds();
    world.store().proof_rising();
    world.proof_candidates();
    let _ = world.present();
    let _ = next.settings();
    let state = state_at(alloc, world, next, places, meter)?;
    match world_of(alloc, &state, meter)? {
        Some(made) => Ok(made),
        None => unreachable!(),
    }
}
