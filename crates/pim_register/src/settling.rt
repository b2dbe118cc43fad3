//! Registers, settled after an event's own change.
ghost use Rattle.std.specs.Prelude.{◌≡◌, ◌∷◌, [], IsTrue, OnOk, fold, map};
ghost use Rattle.pim_types.specs.Keys.{source_key};
ghost use Rattle.pim_model.specs.Registers.{settle_register};
ghost use Rattle.pim_macros.specs.Sights.{IsSourceSight, IsStarSight};
ghost use Rattle.pim_views.specs.After.{AreAfter, AreGathered, IsAfter, opened_in, opening_in, openings_in};
ghost use Rattle.pim_register.specs.Settling.{registers_by};
ghost use Rattle.pim_register.specs.Steps.{source_keys};

use pim_macros::{SourceSight, StarSight};
use pim_state::{Meter, World};
use pim_types::Addr;
use pim_types::fact::{RegisterRow, RegisterState};
use pim_views::{GroupAfter, GroupOpening, Opening, SourceAfter, SourceOpening};
use std::alloc::AllocError;

/// Settles the register of one source: NoInfo becomes Join where CouldRegister(S,G) holds, and any state becomes NoInfo
/// where it doesn't. The sight is true of the state before, and then of the state after. The meter rises by the nodes
/// visited. The error is want of memory.
pub fn settle_register(
    world: &mut World,
    meter: &mut Meter,
    sight: &mut SourceSight,
) -> Result<(), AllocError>
    requires { IsSourceSight world.old sight.old }
    ensures state { OnOk result (world.new
        ≡ settle_register world.old (source_key 0 sight.old.star.group.bits sight.old.source.bits)) }
    ensures sight { OnOk result (IsSourceSight world.new sight.new) }
    ensures star { OnOk result (sight.new.star ≡ sight.old.star) }
    ensures source { OnOk result (sight.new.source ≡ sight.old.source) }
{
    let name = sight.name();
    if !sight.could_register() {
        world.store_mut().set_register(name, None, meter)?;
        *sight = sight.with_tunnel(false);
        return Ok(());
    }
    if world.store().register(name.key()).is_some() {
        return Ok(());
    }
    let row = RegisterRow {
        state: RegisterState::Join,
    };
    world.store_mut().set_register(name, Some(row), meter)?;
    *sight = sight.with_tunnel(true);
    Ok(())
}

// Settles the register of a source of a group.
fn settle_source(
    world: &mut World,
    meter: &mut Meter,
    star: &StarSight,
    source: Addr,
) -> Result<(), AllocError>
    requires { IsStarSight world.old star.now }
    ensures { OnOk result (world.new
        ≡ settle_register world.old (source_key 0 star.now.group.bits source.bits)) }
{
    let mut sight = SourceSight::of(world, *star, source, meter);
    settle_register(world, meter, &mut sight)
}

// Settles the registers of the given sources of a group, one after the other.
fn settle_sources(
    world: &mut World,
    meter: &mut Meter,
    star: &StarSight,
    sources: &[SourceOpening],
) -> Result<(), AllocError>
    requires { IsStarSight world.old star.now }
    ensures { OnOk result (world.new
        ≡ fold settle_register world.old (source_keys star.now.group.bits sources.now)) }
{
    for opened in sources {
        settle_source(world, meter, star, opened.source)?;
    }
    Ok(())
}

// The opened sources of a group.
fn settle_group(
    world: &mut World,
    meter: &mut Meter,
    opened: &GroupOpening,
) -> Result<(), AllocError>
    ensures { OnOk result (world.new
        ≡ fold settle_register world.old (source_keys opened.now.group.bits opened.now.sources)) }
{
    let star = StarSight::of(world, opened.group, meter);
    settle_sources(world, meter, &star, opened.sources.as_slice())
}

/// Registers are settled: an opened source for which CouldRegister(S,G) holds has a register, in Join if it had none;
/// no other opened source has one. The meter rises by the nodes visited. An error is want of memory.
pub fn changed(world: &mut World, meter: &mut Meter, opening: &Opening) -> Result<(), AllocError>
    ensures { OnOk result (world.new ≡ registers_by opening.now world.old) }
{
    for opened in opening.groups() {
        settle_group(world, meter, opened)?;
    }
    Ok(())
}

// Whether the register of the source is settled: it has one if and only if CouldRegister(S,G) holds.
fn is_settled(world: &World, sight: &SourceSight) -> bool
    requires { IsSourceSight world.now sight.now }
    ensures { IsTrue result
        → settle_register world.now (source_key 0 sight.now.star.group.bits sight.now.source.bits) ≡ world.now }
{
    let key = sight.name().key();
    let is_registered = world.store().register(key).is_some();
    if sight.could_register() {
        is_registered
    } else {
        !is_registered
    }
}

// Whether those of these sources of a group do.
fn are_settled_among(world: &World, star: &StarSight, sources: &[SourceAfter]) -> bool
    requires { AreAfter world.now star.now sources.now }
    ensures { IsTrue result
        → fold settle_register world.now (source_keys star.now.group.bits (map opened_in sources.now)) ≡ world.now }
{
    for after in sources {
        if !is_settled(world, &after.sight) {
            return false;
        }
    }
    true
}

// Whether the registers of a group's touched sources are settled already, by what was gathered of them.
fn are_settled_of(world: &World, after: &GroupAfter) -> bool
    requires { IsAfter world.now after.now }
    ensures { IsTrue result → registers_by (opening_in after.now ∷ []) world.now ≡ world.now }
{
    are_settled_among(world, &after.star, after.sources.as_slice())
}

/// Whether the registers of all touched sources are settled already, by what was gathered of their groups. If so,
/// `changed` would change nothing.
pub fn are_settled(world: &World, seen: &[GroupAfter]) -> bool
    requires { AreGathered world.now seen.now }
    ensures { IsTrue result → registers_by (openings_in seen.now) world.now ≡ world.now }
{
    for after in seen {
        if !are_settled_of(world, after) {
            return false;
        }
    }
    true
}
