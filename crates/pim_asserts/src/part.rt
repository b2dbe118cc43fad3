//! The asserts of a group, or of a source, that must go: one after the other.
ghost use Rattle.std.specs.Prelude.{◌≡◌, ◌<◌, ◌∷◌, [], IfOk, OnOk, false, if◌then◌else◌, is_some};
ghost use Rattle.pim_state.specs.Turns.{saying};
ghost use Rattle.pim_model.specs.Asserts.{assert_cancel, assert_forgotten};
ghost use Rattle.pim_model.specs.Sets.{is_winner};
ghost use Rattle.pim_model.specs.Tables.{row_at};
ghost use Rattle.pim_macros.specs.Rows.{number_of};
ghost use Rattle.pim_asserts.specs.Going.{clear_once, first_below, goes_at, part_key, source_bits};
ghost use Rattle.pim_asserts.specs.Opened.{clear_unneeded_asserts, part_to_clear};

use crate::going::{first_of_source, first_of_star};
use pim_macros::asserts::infinite;
use pim_macros::{SourceSight, StarSight};
use pim_state::{Meter, Turn, World};
use pim_types::fact::AssertRole;
use pim_types::{Addr, IfaceId, Key};
use std::alloc::AllocError;

/// The asserts of (*,G), where there is no source, or of (S,G).
#[derive(Clone, Copy)]
pub(crate) struct Part {
    pub(crate) group: Addr,
    pub(crate) source: Option<Addr>,
    /// RPF_interface(RP(G)), or RPF_interface(S), at the opening.
    pub(crate) was: Option<IfaceId>,
}

// The first interface on which the assert must go.
fn first_to_go(world: &World, meter: &mut Meter, part: Part) -> Option<IfaceId>
    ensures { number_of result
        ≡ first_below (goes_at part.was part.group.bits (source_bits part.source) world.now) }
{
    let star = StarSight::of(world, part.group, meter);
    match part.source {
        None => first_of_star(world, &star, part.was),
        Some(source) => {
            let sight = SourceSight::of(world, star, source, meter);
            first_of_source(world, &sight, part.was)
        }
    }
}

// Forgets the assert on the interface; a winner cancels it.
#[tactic(auto, unfolding(pim_model::specs::Asserts::assert_forgotten, pim_model::specs::Tables::set_row, pim_model::specs::Asserts::assert_message))]
fn forget(
    world: &mut World,
    turn: &mut Turn,
    meter: &mut Meter,
    part: Part,
    iface: IfaceId,
) -> Result<(), AllocError>
    requires { iface.number < 120 }
    ensures state { OnOk result (world.new
        ≡ assert_forgotten world.old (part_key part.group.bits (source_bits part.source) iface.number)) }
    ensures messages { OnOk result (turn.new ≡ saying turn.old
        (if is_winner (row_at world.old.asserts (part_key part.group.bits (source_bits part.source) iface.number))
        then assert_cancel (part_key part.group.bits (source_bits part.source) iface.number) ∷ [] else [])) }
{
    let row = world.store().assert_at(Key {
        iface,
        group: part.group,
        source: part.source,
        rpt: false,
    });
    world
        .store_mut()
        .set_assert(iface, part.group, part.source, None, meter)?;
    if row.is_some_and(|row| matches!(row.role, AssertRole::Winner)) {
        turn.out.assert(iface, part.group, part.source, infinite())?;
    }
    Ok(())
}

// Clears the first assert that must go, and tells whether there was one.
#[tactic(auto, unfolding(crate::specs::Going::clear_once))]
fn clear_next(
    world: &mut World,
    turn: &mut Turn,
    meter: &mut Meter,
    part: Part,
) -> Result<bool, AllocError>
    ensures more { IfOk result (λ more. more
        ≡ is_some (part_to_clear part.was part.group.bits (source_bits part.source) world.old)) }
    ensures state { IfOk result (λ more. world.new
        ≡ (clear_once part.was part.group.bits (source_bits part.source) world.old).0) }
    ensures messages { IfOk result (λ more. turn.new ≡ saying turn.old
        (clear_once part.was part.group.bits (source_bits part.source) world.old).1) }
{
    // For the proof: asserts are under keys of their kind, each of which is listed once.
    world.proof_keyed();
    let Some(iface) = first_to_go(world, meter, part) else {
        return Ok(false);
    };
    forget(world, turn, meter, part, iface)?;
    Ok(true)
}

/// Clears what must go of these asserts, in the order of interfaces; all macros are evaluated anew after each.
pub(crate) fn clear_unneeded_asserts(
    world: &mut World,
    turn: &mut Turn,
    meter: &mut Meter,
    part: Part,
) -> Result<(), AllocError>
    ensures state { OnOk result (world.new
        ≡ (clear_unneeded_asserts part.was part.group.bits (source_bits part.source) world.old).0) }
    ensures messages { OnOk result (turn.new ≡ saying turn.old
        (clear_unneeded_asserts part.was part.group.bits (source_bits part.source) world.old).1) }
{
    while clear_next(world, turn, meter, part)? {}
    Ok(())
}
