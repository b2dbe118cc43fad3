//! What must go after a change: asserts, and SPTbits with the asserts that they kept.
ghost use Rattle.std.specs.Prelude.{◌≡◌, ◌∷◌, [], IsTrue, OnOk, Some, false, map};
ghost use Rattle.pim_macros.specs.Sights.{IsSourceSight, IsStarSight};
ghost use Rattle.pim_views.specs.After.{AreAfter, AreGathered, IsAfter, opened_in, opening_in, openings_in};
ghost use Rattle.pim_state.specs.Turns.{saying};
ghost use Rattle.pim_model.specs.Asserts.{without_spt_bit};
ghost use Rattle.pim_model.specs.Querier.{each_in_turn};
ghost use Rattle.pim_model.specs.Desires.{join_desired};
ghost use Rattle.pim_model.specs.State.{State};
ghost use Rattle.pim_model.specs.Tables.{row_at};
ghost use Rattle.pim_types.specs.Keys.{source_key};
ghost use Rattle.pim_asserts.specs.Opened.{clear_asserts, clear_bit, clear_bits, clear_by, clear_source, clear_star};
ghost use Rattle.pim_asserts.specs.Passes.{group_pass, source_pass};

use crate::going::{first_of_source, first_of_star};
use crate::part::{Part, clear_unneeded_asserts};
use pim_macros::{SourceSight, StarSight};
use pim_state::{Meter, Turn, World};
use pim_types::fact::SourceRow;
use pim_types::{Addr, SourceGroup};
use pim_views::{GroupAfter, GroupOpening, Opening, SourceAfter, SourceOpening};
use std::alloc::AllocError;

/// What is cleared of all that was opened before the next is.
#[derive(Clone, Copy)]
pub(crate) enum Pass {
    /// The asserts that must go.
    Asserts,
    /// The SPTbits that must go, each with the asserts that must go without it.
    Bits,
}

// The asserts of (*,G), where all of the group was opened.
#[tactic(auto, unfolding(crate::specs::Opened::clear_star))]
fn clear_star(
    world: &mut World,
    turn: &mut Turn,
    meter: &mut Meter,
    opened: &GroupOpening,
) -> Result<(), AllocError>
    ensures state { OnOk result (world.new ≡ (clear_star world.old opened.now).0) }
    ensures messages { OnOk result (turn.new ≡ saying turn.old (clear_star world.old opened.now).1) }
{
    if !opened.is_whole {
        return Ok(());
    }
    let part = Part {
        group: opened.group,
        source: None,
        was: opened.star.iface,
    };
    clear_unneeded_asserts(world, turn, meter, part)
}

// The asserts of a source.
#[tactic(auto, unfolding(crate::specs::Opened::clear_source))]
fn clear_source(
    world: &mut World,
    turn: &mut Turn,
    meter: &mut Meter,
    group: Addr,
    opened: SourceOpening,
) -> Result<(), AllocError>
    ensures state { OnOk result (world.new ≡ (clear_source group.bits world.old opened).0) }
    ensures messages { OnOk result (turn.new ≡ saying turn.old (clear_source group.bits world.old opened).1) }
{
    let part = Part {
        group,
        source: Some(opened.source),
        was: opened.view.iface,
    };
    clear_unneeded_asserts(world, turn, meter, part)
}

// Clears SPTbit(S,G), which is set; the source's row is kept while its keepalive timer runs.
fn forget_spt_bit(
    world: &mut World,
    meter: &mut Meter,
    name: SourceGroup,
    row: SourceRow,
) -> Result<(), AllocError>
    requires { row_at world.old.sources (source_key 0 name.group.bits name.source.bits) ≡ Some row }
    ensures { OnOk result (world.new
        ≡ without_spt_bit world.old (source_key 0 name.group.bits name.source.bits)) }
{
    // For the proof: a key is listed once.
    world.proof_keyed();
    let left = row
        .keepalive
        .is_some()
        .then_some(SourceRow { spt: false, ..row });
    world.store_mut().set_source(name, left, meter)
}

// An SPTbit that JoinDesired(S,G) doesn't keep, and the asserts that must go without it.
#[tactic(auto, unfolding(crate::specs::Opened::clear_bit, pim_model::specs::Sets::spt_bit))]
fn clear_bit(
    world: &mut World,
    turn: &mut Turn,
    meter: &mut Meter,
    group: Addr,
    opened: SourceOpening,
) -> Result<(), AllocError>
    ensures state { OnOk result (world.new ≡ (clear_bit group.bits world.old opened).0) }
    ensures messages { OnOk result (turn.new ≡ saying turn.old (clear_bit group.bits world.old opened).1) }
{
    let name = SourceGroup {
        source: opened.source,
        group,
    };
    let Some(row) = world.store().source(name.key()) else {
        return Ok(());
    };
    if !row.spt || is_joined(world, meter, name) {
        return Ok(());
    }
    forget_spt_bit(world, meter, name, row)?;
    clear_source(world, turn, meter, group, opened)
}

// JoinDesired(S,G).
fn is_joined(world: &World, meter: &mut Meter, name: SourceGroup) -> bool
    ensures { result ≡ join_desired world.now name.group.bits name.source.bits }
{
    SourceSight::with_star(world, name, meter).join_desired()
}

// What goes of a source in the pass.
fn clear_source_in_pass(
    world: &mut World,
    turn: &mut Turn,
    meter: &mut Meter,
    pass: Pass,
    group: Addr,
    opened: SourceOpening,
) -> Result<(), AllocError>
    ensures state { OnOk result (world.new ≡ (source_pass pass group.bits world.old opened).0) }
    ensures messages { OnOk result (turn.new ≡ saying turn.old (source_pass pass group.bits world.old opened).1) }
{
    match pass {
        Pass::Asserts => clear_source(world, turn, meter, group, opened),
        Pass::Bits => clear_bit(world, turn, meter, group, opened),
    }
}

// What goes of a group's sources in the pass, one source after the other.
fn clear_sources_in_pass(
    world: &mut World,
    turn: &mut Turn,
    meter: &mut Meter,
    pass: Pass,
    opened: &GroupOpening,
) -> Result<(), AllocError>
    ensures state { OnOk result (world.new
        ≡ (each_in_turn (source_pass pass opened.now.group.bits) world.old opened.now.sources).0) }
    ensures messages { OnOk result (turn.new ≡ saying turn.old
        (each_in_turn (source_pass pass opened.now.group.bits) world.old opened.now.sources).1) }
{
    for source in opened.sources.as_slice() {
        clear_source_in_pass(world, turn, meter, pass, opened.group, *source)?;
    }
    Ok(())
}

// The asserts of a group.
#[tactic(auto, unfolding(crate::specs::Opened::clear_asserts))]
fn clear_asserts(
    world: &mut World,
    turn: &mut Turn,
    meter: &mut Meter,
    opened: &GroupOpening,
) -> Result<(), AllocError>
    ensures state { OnOk result (world.new ≡ (clear_asserts world.old opened.now).0) }
    ensures messages { OnOk result (turn.new ≡ saying turn.old (clear_asserts world.old opened.now).1) }
{
    clear_star(world, turn, meter, opened)?;
    clear_sources_in_pass(world, turn, meter, Pass::Asserts, opened)
}

// What goes of a group in the pass.
fn clear_group_in_pass(
    world: &mut World,
    turn: &mut Turn,
    meter: &mut Meter,
    pass: Pass,
    opened: &GroupOpening,
) -> Result<(), AllocError>
    ensures state { OnOk result (world.new ≡ (group_pass pass world.old opened.now).0) }
    ensures messages { OnOk result (turn.new ≡ saying turn.old (group_pass pass world.old opened.now).1) }
{
    match pass {
        Pass::Asserts => clear_asserts(world, turn, meter, opened),
        Pass::Bits => clear_sources_in_pass(world, turn, meter, Pass::Bits, opened),
    }
}

// What goes of these groups in the pass, one group after the other.
fn clear_groups_in_pass(
    world: &mut World,
    turn: &mut Turn,
    meter: &mut Meter,
    pass: Pass,
    groups: &[GroupOpening],
) -> Result<(), AllocError>
    ensures state { OnOk result (world.new ≡ (each_in_turn (group_pass pass) world.old groups.now).0) }
    ensures messages { OnOk result (turn.new ≡ saying turn.old (each_in_turn (group_pass pass) world.old groups.now).1) }
{
    for opened in groups {
        clear_group_in_pass(world, turn, meter, pass, opened)?;
    }
    Ok(())
}

/// Clears what must go of what was opened: group after group the asserts of (*,G) and of its sources, then source after
/// source the SPTbit and the asserts that must go with it; all macros are evaluated anew after each. The meter rises by
/// the nodes visited. The error is want of memory.
#[tactic(auto, unfolding(crate::specs::Opened::clear_by))]
pub fn clear(
    world: &mut World,
    turn: &mut Turn,
    meter: &mut Meter,
    opening: &Opening,
) -> Result<(), AllocError>
    ensures state { OnOk result (world.new ≡ (clear_by opening.now world.old).0) }
    ensures messages { OnOk result (turn.new ≡ saying turn.old (clear_by opening.now world.old).1) }
{
    clear_groups_in_pass(world, turn, meter, Pass::Asserts, opening.groups())?;
    clear_groups_in_pass(world, turn, meter, Pass::Bits, opening.groups())
}

// Whether none of the source's asserts must go.
fn keeps_asserts(world: &World, opened: SourceOpening, sight: &SourceSight) -> bool
    requires sight { IsSourceSight world.now sight.now }
    requires source { sight.now.source ≡ opened.source }
    ensures { IsTrue result → clear_source sight.now.star.group.bits world.now opened ≡ (world.now, []) }
{
    // For the proof: asserts are under keys of their kind, each of which is listed once.
    world.proof_keyed();
    let Some(_) = first_of_source(world, sight, opened.view.iface) else {
        return true;
    };
    false
}

// Whether the source's SPTbit isn't set, or needn't go.
fn keeps_bit(opened: SourceOpening, sight: &SourceSight) -> bool
    requires { sight.now.source ≡ opened.source }
    ensures { IsTrue result → (s : State) → IsSourceSight s sight.now
        → clear_bit sight.now.star.group.bits s opened ≡ (s, []) }
{
    if !sight.spt {
        return true;
    }
    sight.join_desired()
}

// Whether nothing must go of a source in the pass, by its sight.
fn stays(world: &World, pass: Pass, opened: SourceOpening, sight: &SourceSight) -> bool
    requires sight { IsSourceSight world.now sight.now }
    requires source { sight.now.source ≡ opened.source }
    ensures { IsTrue result → source_pass pass sight.now.star.group.bits world.now opened ≡ (world.now, []) }
{
    match pass {
        Pass::Asserts => keeps_asserts(world, opened, sight),
        Pass::Bits => keeps_bit(opened, sight),
    }
}

// What goes of the sight's source in the pass. The sight is true of the state before, and then of the state after.
fn clear_by_sight(
    world: &mut World,
    turn: &mut Turn,
    meter: &mut Meter,
    pass: Pass,
    opened: SourceOpening,
    sight: &mut SourceSight,
) -> Result<(), AllocError>
    requires sight { IsSourceSight world.old sight.old }
    requires source { sight.old.source ≡ opened.source }
    ensures state { OnOk result (world.new ≡ (source_pass pass sight.old.star.group.bits world.old opened).0) }
    ensures messages { OnOk result (turn.new
        ≡ saying turn.old (source_pass pass sight.old.star.group.bits world.old opened).1) }
    ensures sight { OnOk result (IsSourceSight world.new sight.new) }
    ensures group { OnOk result (sight.new.star.group ≡ sight.old.star.group) }
    ensures source { OnOk result (sight.new.source ≡ sight.old.source) }
{
    if stays(world, pass, opened, sight) {
        return Ok(());
    }
    clear_source_in_pass(world, turn, meter, pass, sight.star.group, opened)?;
    *sight = sight.gathered_again(world, meter);
    Ok(())
}

/// Clears what must go where one source alone was opened, by its sight, which is gathered again only where something
/// goes: it is true of the state before, and then of the state after. The meter rises by the nodes visited. The error is
/// want of memory.
#[tactic(auto, unfolding(crate::specs::Opened::clear_by, crate::specs::Opened::clear_asserts, crate::specs::Opened::clear_star, crate::specs::Opened::clear_bits))]
pub fn clear_alone(
    world: &mut World,
    turn: &mut Turn,
    meter: &mut Meter,
    group: &GroupOpening,
    opened: SourceOpening,
    sight: &mut SourceSight,
) -> Result<(), AllocError>
    requires whole { group.now.is_whole ≡ false }
    requires alone { group.now.sources ≡ opened ∷ [] }
    requires sight { IsSourceSight world.old sight.old }
    requires group { sight.old.star.group ≡ group.now.group }
    requires source { sight.old.source ≡ opened.source }
    ensures state { OnOk result (world.new ≡ (clear_by (group.now ∷ []) world.old).0) }
    ensures messages { OnOk result (turn.new ≡ saying turn.old (clear_by (group.now ∷ []) world.old).1) }
    ensures sight { OnOk result (IsSourceSight world.new sight.new) }
    ensures group { OnOk result (sight.new.star.group ≡ sight.old.star.group) }
    ensures source { OnOk result (sight.new.source ≡ sight.old.source) }
{
    clear_by_sight(world, turn, meter, Pass::Asserts, opened, sight)?;
    clear_by_sight(world, turn, meter, Pass::Bits, opened, sight)
}

// Whether nothing must go of the asserts of (*,G), where all of the group was opened.
#[tactic(auto, unfolding(crate::specs::Opened::clear_star))]
fn is_clear_star(world: &World, after: &GroupAfter) -> bool
    requires { IsStarSight world.now after.now.star }
    ensures { IsTrue result → clear_star world.now (opening_in after.now) ≡ (world.now, []) }
{
    // For the proof: asserts are under keys of their kind, each of which is listed once.
    world.proof_keyed();
    if !after.is_whole {
        return true;
    }
    let Some(_) = first_of_star(world, &after.star, after.was.iface) else {
        return true;
    };
    false
}

// Whether nothing must go of these sources of a group.
fn are_clear_among(world: &World, star: &StarSight, sources: &[SourceAfter]) -> bool
    requires { AreAfter world.now star.now sources.now }
    ensures asserts { IsTrue result
        → each_in_turn (clear_source star.now.group.bits) world.now (map opened_in sources.now) ≡ (world.now, []) }
    ensures bits { IsTrue result
        → each_in_turn (clear_bit star.now.group.bits) world.now (map opened_in sources.now) ≡ (world.now, []) }
{
    for after in sources {
        if !keeps_asserts(world, after.opened, &after.sight) {
            return false;
        }
        if !keeps_bit(after.opened, &after.sight) {
            return false;
        }
    }
    true
}

// Whether nothing must go of a touched group and of its touched sources, by what was gathered of them.
fn is_clear(world: &World, after: &GroupAfter) -> bool
    requires { IsAfter world.now after.now }
    ensures asserts { IsTrue result → clear_asserts world.now (opening_in after.now) ≡ (world.now, []) }
    ensures bits { IsTrue result → clear_bits world.now (opening_in after.now) ≡ (world.now, []) }
{
    if !is_clear_star(world, after) {
        return false;
    }
    are_clear_among(world, &after.star, after.sources.as_slice())
}

/// Whether nothing must go of the touched groups and of their touched sources, by what was gathered of them. Where it
/// answers yes, `clear` would change nothing, and send nothing.
pub fn are_clear(world: &World, seen: &[GroupAfter]) -> bool
    requires { AreGathered world.now seen.now }
    ensures { IsTrue result → clear_by (openings_in seen.now) world.now ≡ (world.now, []) }
{
    for after in seen {
        if !is_clear(world, after) {
            return false;
        }
    }
    true
}
