//! A configuration replaced: the change, what follows of it, and the rows of the forwarding cache.
ghost use Rattle.law_events.specs.Rest.{IsAtRest};
ghost use Rattle.law_states.specs.Reload.{config_of};
ghost use Rattle.law_states.specs.Reloading.{hellos_anew, queriers_under, replaced, under};
ghost use Rattle.pim_fanout.specs.Named.{keys_of};
ghost use Rattle.pim_ip.specs.declared.fault.Fault.{Fault};
ghost use Rattle.pim_mfc.specs.Laws.{ShowsRows};
ghost use Rattle.pim_model.specs.Cache.{cached};
ghost use Rattle.pim_reloader.specs.Listing.{AreListed, sources_in};
ghost use Rattle.pim_reloader.specs.Same.{DifferInSettings};
ghost use Rattle.pim_state.specs.Turns.{saying};
ghost use Rattle.pim_state.specs.declared.touched.Touched.{Touched as TouchedValue};
ghost use Rattle.pim_types.specs.Keys.{group_in, iface_in, key_cmp, source_in, source_key};
ghost use Rattle.std.specs.List.Sorted.{IsStrictlySortedBy};
ghost use Rattle.std.specs.List.{list_all};
ghost use Rattle.std.specs.Prelude.{◌≡◌, ◌++◌, [], IfOk, IsOkUnless, OnOk, length, map, nat_lt, true};

use crate::addresses::{forget_asserts, won_before};
use crate::hellos::tell;
use crate::queriers;
use crate::same::differ_in_settings;
use pim_event::Core;
use pim_fanout::Gathered;
use pim_settling::settle::settle;
use pim_state::{Meter, Touched, Turn, World};
use pim_tables::PlacedRows;
use pim_types::fact::SourceRow;
use pim_types::{Emission, Fault, Series, SourceGroup};
use std::alloc::{AllocError, Global};

// Puts the world under the configuration of the next one, and says the Hellos that leave at once. All facts stay but what
// queriers go by, and asserts that were won from addresses of before. The candidates stay.
#[tactic(auto, unfolding(law_states::specs::Reloading::under, law_states::specs::Reload::config_of, pim_model::specs::State::settings_of))]
fn reconfigure(
    world: &mut World,
    turn: &mut Turn,
    meter: &mut Meter,
    next: World,
) -> Result<(), AllocError>
    requires below { list_all (λ e. nat_lt (iface_in e.0) (length next.configured.interfaces)) world.old.interfaces ≡ true }
    ensures state { OnOk result (world.new ≡ under world.old (config_of next)) }
    ensures messages { OnOk result (turn.new ≡ saying turn.old (hellos_anew world.old next.configured)) }
{
    tell(world, &mut turn.out, &next)?;
    // For the proof: each assert is listed once.
    world.proof_keyed();
    let won = won_before(world, turn.alloc, &next)?;
    forget_asserts(world, meter, &won);
    let mut ranges = world.reconfigure(next);
    world.give_candidates(&mut ranges)?;
    queriers::put_all_under(world, turn.alloc)?;
    pim_register::rps_replaced(world, turn, meter, ranges)?;
    Ok(())
}

// Puts the world under the settings of the next one, which has no other interfaces, routes and RP ranges. All facts stay
// but what queriers go by.
fn put_settings(world: &mut World, alloc: Global, next: World) -> Result<(), AllocError>
    requires below { list_all (λ e. nat_lt (iface_in e.0) (length next.configured.interfaces)) world.old.interfaces ≡ true }
    requires same { DifferInSettings world.old next }
    ensures { OnOk result (world.new ≡ record world.old {
      settings = next.settings;
      queriers = queriers_under world.old next.settings;
    }) }
{
    world.reconfigure(next);
    queriers::put_all_under(world, alloc)?;
    Ok(())
}

// Puts the world under the configuration of the next one, and does what follows: nothing where only the settings differ.
// The result is what is sent.
#[tactic(auto, unfolding(law_states::specs::Reloading::replaced))]
fn follow(
    world: &mut World,
    turn: &mut Turn,
    meter: &mut Meter,
    next: World,
) -> Result<Vec<Emission>, Fault>
    requires rest { IsAtRest world.old }
    requires begun { turn.old.messages ≡ [] }
    requires below { list_all (λ e. nat_lt (iface_in e.0) (length next.configured.interfaces)) world.old.interfaces ≡ true }
    ensures state { OnOk result (world.new ≡ (replaced world.old (config_of next) turn.old.draw).0) }
    ensures sent { IfOk result (λ sent. sent.items ≡ (replaced world.old (config_of next) turn.old.draw).1) }
    ensures fault { IsOkUnless result Fault.Memory }
{
    if differ_in_settings(world, &next) {
        put_settings(world, turn.alloc, next)?;
        return Ok(Vec::new(turn.alloc));
    }
    let gathered = Gathered::of(world, turn.alloc, &Touched::All, None, meter)?;
    reconfigure(world, turn, meter, next)?;
    // For the proof: asserts, sources and registers are under keys of their kind.
    world.proof_keyed();
    let mut sent = Vec::new(turn.alloc);
    let mut last = None;
    settle(world, turn, meter, &gathered, &mut sent, &mut last)?;
    Ok(sent)
}

// Adds the names of these sources at the end of the names.
fn add_names(
    names: &mut Vec<SourceGroup>,
    rows: PlacedRows<'_, SourceRow>,
) -> Result<(), AllocError>
    ensures { OnOk result (keys_of names.new.items
        ≡ keys_of names.old.items ++ map (λ e. source_key 0 (group_in e.0) (source_in e.0)) rows.entry) }
{
    for (key, _) in rows {
        names.push(key.name())?;
    }
    Ok(())
}

/// Adds the names of all sources with a fact at the end of the names.
pub(crate) fn add_sources(names: &mut Vec<SourceGroup>, world: &World) -> Result<(), AllocError>
    ensures { OnOk result (keys_of names.new.items ≡ keys_of names.old.items ++ sources_in world.now) }
{
    add_names(names, world.store().source_rows())
}

/// Puts a world at rest under the configuration of the next one, and does what follows: the Hellos leave that say
/// something else, and the rows of the forwarding cache are evaluated again. Only interfaces of that configuration may be
/// up. All facts stay for which its routes and RPs have a use. The given sources, and all with a fact before or after,
/// are listed as changed, and all sources as disturbed. The result is what is sent. The fault is want of memory.
pub(crate) fn replace(
    core: &mut Core,
    turn: &mut Turn,
    meter: &mut Meter,
    next: World,
    mut names: Vec<SourceGroup>,
) -> Result<Vec<Emission>, Fault>
    requires rest { IsAtRest core.old.world }
    requires shown { ShowsRows core.old.cache.mfc.rows (cached core.old.world) }
    requires begun { turn.old.messages ≡ [] }
    requires below { list_all (λ e. nat_lt (iface_in e.0) (length next.configured.interfaces)) core.old.world.interfaces ≡ true }
    ensures state { OnOk result (core.new.world ≡ (replaced core.old.world (config_of next) turn.old.draw).0) }
    ensures sent { IfOk result (λ sent. sent.items ≡ (replaced core.old.world (config_of next) turn.old.draw).1) }
    ensures shown { OnOk result (ShowsRows core.new.cache.mfc.rows (cached core.new.world)) }
    ensures listed { OnOk result (AreListed (keys_of names.items) core.old.world core.new.world core.old.cache.changed
        core.new.cache.changed) }
    ensures once { OnOk result (IsStrictlySortedBy key_cmp core.new.cache.changed) }
    ensures disturbed { OnOk result (core.new.cache.disturbed ≡ TouchedValue.All) }
    ensures kept { OnOk result (core.new.replaced ≡ core.old.replaced) }
    ensures fault { IsOkUnless result Fault.Memory }
{
    add_sources(&mut names, &core.world)?;
    let sent = follow(&mut core.world, turn, meter, next)?;
    add_sources(&mut names, &core.world)?;
    core.cache.refresh(
        &core.world,
        meter,
        Series::from_vec(names),
        Touched::All,
        &None,
    )?;
    core.cache.list_once();
    Ok(sent)
}
