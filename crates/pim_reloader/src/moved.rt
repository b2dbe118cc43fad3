//! Facts that go to other places, with the neighbours that some of these lose, and what follows of that.
ghost use Rattle.law_states.specs.Placing.{moved, without_neighbours};
ghost use Rattle.law_states.specs.Reload.{config_of};
ghost use Rattle.pim_event.specs.Replacing.{NoneReplaced};
ghost use Rattle.pim_fanout.specs.Named.{keys_of};
ghost use Rattle.pim_ip.specs.declared.fault.Fault.{Fault};
ghost use Rattle.pim_mfc.specs.Laws.{ShowsRows};
ghost use Rattle.pim_model.specs.Cache.{cached};
ghost use Rattle.pim_model.specs.Firing.{settled};
ghost use Rattle.pim_model.specs.Limits.{config_test};
ghost use Rattle.pim_model.specs.State.{iface_count};
ghost use Rattle.pim_model.specs.Tables.{drop_at, is_among, keys_in};
ghost use Rattle.pim_reloader.specs.Listing.{AreListed};
ghost use Rattle.pim_reloader.specs.Reloads.{LeadsTo};
ghost use Rattle.pim_state.specs.declared.touched.Touched.{Touched as TouchedValue};
ghost use Rattle.pim_types.specs.Keys.{iface_in, key_cmp};
ghost use Rattle.pim_worlds.specs.Leading.{LeadWithin};
ghost use Rattle.std.specs.List.Sorted.{IsStrictlySortedBy};
ghost use Rattle.std.specs.Prelude.{◌≡◌, [], IfOk, IsOkUnless, Ok, OnOk, filter, fold, length};

use crate::replace::add_sources;
use pim_event::Core;
use pim_fanout::Gathered;
use pim_settling::settle::settle;
use pim_state::{Meter, Touched, Turn, World};
use pim_types::{Emission, Fault, Key, Series, SourceGroup};
use pim_worlds::{is_among, world_at};
use std::alloc::{AllocError, Global};

// The keys of the neighbours of these places.
fn neighbours_at(world: &World, alloc: Global, places: &[u32]) -> Result<Vec<Key>, AllocError>
    ensures { IfOk result (λ keys. keys.items
        ≡ keys_in (filter (λ e. is_among (iface_in e.0) places.now) world.now.neighbours)) }
{
    let mut keys = Vec::new(alloc);
    for (key, _) in world.neighbours().iter() {
        if is_among(places, key.iface.number) {
            keys.push(*key)?;
        }
    }
    Ok(keys)
}

// Removes the neighbours under these keys.
fn remove_neighbours(world: &mut World, keys: &[Key])
    ensures { world.new ≡ record world.old { neighbours = fold drop_at world.old.neighbours keys.now } }
{
    for key in keys {
        world.remove_neighbour(*key);
    }
}

// Removes the neighbours of these places.
#[tactic(auto, unfolding(law_states::specs::Placing::without_neighbours))]
fn part(world: &mut World, alloc: Global, places: &[u32]) -> Result<(), AllocError>
    ensures { OnOk result (world.new ≡ without_neighbours places.now world.old) }
{
    // For the proof: `len` tells that the keys rise.
    let _ = world.neighbours().len();
    let keys = neighbours_at(world, alloc, places)?;
    remove_neighbours(world, &keys);
    Ok(())
}

// Removes the neighbours of these places, and does what follows. The result is what is sent.
fn settle_parted(
    world: &mut World,
    turn: &mut Turn,
    meter: &mut Meter,
    apart: &[u32],
) -> Result<Vec<Emission>, Fault>
    requires { turn.old.messages ≡ [] }
    ensures state { OnOk result (world.new ≡ (settled world.old (without_neighbours apart.now world.old, []) turn.old.draw).0) }
    ensures sent { IfOk result (λ sent. sent.items
        ≡ (settled world.old (without_neighbours apart.now world.old, []) turn.old.draw).1) }
    ensures fault { IsOkUnless result Fault.Memory }
{
    let gathered = Gathered::of(world, turn.alloc, &Touched::All, None, meter)?;
    part(world, turn.alloc, apart)?;
    // For the proof: asserts, sources and registers are under keys of their kind.
    world.proof_keyed();
    let mut sent = Vec::new(turn.alloc);
    let mut last = None;
    settle(world, turn, meter, &gathered, &mut sent, &mut last)?;
    Ok(sent)
}

// Lets the facts go to their places, and does what follows, in a turn that begins.
fn move_in_turn(
    core: &mut Core,
    turn: &mut Turn,
    meter: &mut Meter,
    next: &World,
    places: &[u32],
    apart: &[u32],
) -> Result<Vec<Emission>, Fault>
    requires accepted { config_test (config_of next.now) ≡ Ok tt }
    requires lead { LeadWithin places.now (iface_count core.old.world) (length next.now.configured.interfaces) }
    requires begun { turn.old.messages ≡ [] }
    ensures state { OnOk result (core.new.world
        ≡ (moved core.old.world places.now (config_of next.now) apart.now turn.old.draw).0) }
    ensures sent { IfOk result (λ sent. sent.items
        ≡ (moved core.old.world places.now (config_of next.now) apart.now turn.old.draw).1) }
    ensures kept { (core.new.cache ≡ core.old.cache) × (core.new.replaced ≡ core.old.replaced) }
    ensures fault { IsOkUnless result Fault.Memory }
{
    core.world = world_at(turn.alloc, &core.world, next, places, meter)?;
    let sent = settle_parted(&mut core.world, turn, meter, apart)?;
    Ok(sent)
}

/// Lets the facts go to their places under the configuration of the next world, removes the neighbours of some of these
/// places, and does what follows; the rows of the forwarding cache are those of the new state. The given sources, and all
/// with a fact before or after, are listed as changed, and all sources as disturbed. The result is what is sent. The fault
/// is want of memory.
pub(crate) fn move_facts(
    core: &mut Core,
    meter: &mut Meter,
    draw: u32,
    next: &World,
    places: &[u32],
    apart: &[u32],
    mut names: Vec<SourceGroup>,
) -> Result<Vec<Emission>, Fault>
    requires shown { ShowsRows core.old.cache.mfc.rows (cached core.old.world) }
    requires accepted { config_test (config_of next.now) ≡ Ok tt }
    requires lead { LeadWithin places.now (iface_count core.old.world) (length next.now.configured.interfaces) }
    ensures leads { LeadsTo (moved core.old.world places.now (config_of next.now) apart.now draw) result core.new }
    ensures listed { OnOk result (AreListed (keys_of names.items) core.old.world core.new.world [] core.new.cache.changed) }
    ensures once { OnOk result (IsStrictlySortedBy key_cmp core.new.cache.changed) }
    ensures disturbed { OnOk result (core.new.cache.disturbed ≡ TouchedValue.All) }
    ensures replaced { OnOk result (core.new.replaced ≡ NoneReplaced) }
{
    core.cache.reset();
    core.replaced.clear();
    add_sources(&mut names, &core.world)?;
    let mut turn = Turn::new(core.room.taken(), draw);
    let sent = move_in_turn(core, &mut turn, meter, next, places, apart)?;
    core.room = turn.room;
    add_sources(&mut names, &core.world)?;
    core.cache.refresh(
        &core.world,
        meter,
        Series::from_vec(names),
        Touched::All,
        &None,
    )?;
    core.cache.list_once();
    Ok(sent)
}
