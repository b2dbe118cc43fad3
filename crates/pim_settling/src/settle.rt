//! What follows of an event's own change: registers, asserts and SPTbits that must go, and messages upstream.
ghost use Rattle.std.specs.Prelude.{◌≡◌, ◌++◌, ◌∷◌, [], IfOk, IfSome, IsOkUnless, IsTrue, None, OnOk, false};
ghost use Rattle.pim_fanout.specs.Named.{keys_of};
ghost use Rattle.pim_ip.specs.declared.fault.Fault.{Fault};
ghost use Rattle.pim_macros.specs.Sights.{IsSourceSight};
ghost use Rattle.pim_register.specs.Settling.{registers_by};
ghost use Rattle.pim_views.specs.After.{AreGathered, openings_in};
ghost use Rattle.pim_settling.specs.Settling.{AreNamed, cleared_by, followed_by, settled_by};
ghost use Rattle.pim_state.specs.Turns.{saying};

use pim_fanout::{Before, Gathered, named, named_by_sights};
use pim_macros::{SourceSight, StarSight};
use pim_state::{Meter, Turn, World};
use pim_types::{Emission, Fault, Series, SourceGroup};
use pim_views::{GroupAfter, GroupOpening, Opening, SourceAfter, SourceOpening};
use std::alloc::{AllocError, Global};

// The source as it was opened, with its sight.
fn seen_alone(opened: SourceOpening, sight: &SourceSight) -> SourceAfter
    ensures { result ≡ record { opened = opened; sight = sight.now } }
{
    SourceAfter {
        opened,
        sight: *sight,
    }
}

// Does what follows where one source alone was opened: its sight is gathered once, and updated by what is cleared.
#[tactic(auto, unfolding(crate::specs::Settling::followed_by))]
fn follow_source(
    world: &mut World,
    turn: &mut Turn,
    meter: &mut Meter,
    group: &GroupOpening,
    opened: SourceOpening,
    before: &Before,
    last: &mut Option<SourceSight>,
) -> Result<Series<SourceGroup>, AllocError>
    requires whole { group.now.is_whole ≡ false }
    requires alone { group.now.sources ≡ opened ∷ [] }
    ensures state { OnOk result (world.new ≡ (followed_by (group.now ∷ []) world.old turn.old.draw).0) }
    ensures messages { OnOk result (turn.new
        ≡ saying turn.old (followed_by (group.now ∷ []) world.old turn.old.draw).1) }
    ensures named { IfOk result (λ names. AreNamed before.now (cleared_by (group.now ∷ []) world.old).0 (keys_of names)) }
    ensures last { OnOk result (IfSome last.new (IsSourceSight world.new)) }
{
    let star = StarSight::of(world, group.group, meter);
    let mut sight = SourceSight::of(world, star, opened.source, meter);
    pim_register::settle_register(world, meter, &mut sight)?;
    pim_asserts::clear_alone(world, turn, meter, group, opened, &mut sight)?;
    let seen = [seen_alone(opened, &sight)];
    let names = named_by_sights(world, turn.alloc, meter, before, &sight.star, &seen)?;
    pim_upstream::changed_alone(world, turn, meter, group, opened, &sight)?;
    *last = Some(sight);
    Ok(names)
}

// Settles the registers. The opened groups are gathered once, and again only where a register wasn't settled.
fn settle_groups(
    world: &mut World,
    alloc: Global,
    meter: &mut Meter,
    opening: &Opening,
) -> Result<Vec<GroupAfter>, AllocError>
    ensures state { OnOk result (world.new ≡ registers_by opening.now world.old) }
    ensures opening { IfOk result (λ seen. openings_in seen.items ≡ opening.now) }
    ensures seen { IfOk result (λ seen. AreGathered world.new seen.items) }
{
    let groups = opening.groups();
    let seen = GroupAfter::all_of(world, alloc, groups, meter)?;
    if pim_register::are_settled(world, seen.as_slice()) {
        return Ok(seen);
    }
    pim_register::changed(world, meter, opening)?;
    GroupAfter::all_of(world, alloc, groups, meter)
}

// Settles the registers, then clears the asserts and SPTbits that must go. Where none goes, what was gathered stands.
#[tactic(auto, unfolding(crate::specs::Settling::cleared_by))]
fn clear_groups(
    world: &mut World,
    turn: &mut Turn,
    meter: &mut Meter,
    opening: &Opening,
) -> Result<Vec<GroupAfter>, AllocError>
    ensures state { OnOk result (world.new ≡ (cleared_by opening.now world.old).0) }
    ensures messages { OnOk result (turn.new ≡ saying turn.old (cleared_by opening.now world.old).1) }
    ensures opening { IfOk result (λ seen. openings_in seen.items ≡ opening.now) }
    ensures seen { IfOk result (λ seen. AreGathered world.new seen.items) }
{
    let seen = settle_groups(world, turn.alloc, meter, opening)?;
    if pim_asserts::are_clear(world, seen.as_slice()) {
        return Ok(seen);
    }
    pim_asserts::clear(world, turn, meter, opening)?;
    GroupAfter::all_of(world, turn.alloc, opening.groups(), meter)
}

// Does what follows where any groups were opened. Which sources are named, and what is sent upstream, is decided by what
// was gathered once.
fn follow_groups(
    world: &mut World,
    turn: &mut Turn,
    meter: &mut Meter,
    opening: &Opening,
    before: &Before,
) -> Result<Series<SourceGroup>, AllocError>
    ensures state { OnOk result (world.new ≡ (followed_by opening.now world.old turn.old.draw).0) }
    ensures messages { OnOk result (turn.new ≡ saying turn.old (followed_by opening.now world.old turn.old.draw).1) }
    ensures named { IfOk result (λ names. AreNamed before.now (cleared_by opening.now world.old).0 (keys_of names)) }
{
    let seen = clear_groups(world, turn, meter, opening)?;
    let groups = seen.as_slice();
    let names = named(world, turn.alloc, meter, before, groups)?;
    pim_upstream::changed(world, turn, meter, groups)?;
    Ok(names)
}

// Leaves no sight. Where there is none already, nothing is written: a sight is large.
fn forget(last: &mut Option<SourceSight>)
    ensures { last.new ≡ None }
{
    if let Some(_) = last {
        *last = None;
    }
}

// Does what follows, by comparison with the opening: first the registers, then what must go, then the messages
// upstream.
fn follow(
    world: &mut World,
    turn: &mut Turn,
    meter: &mut Meter,
    opening: &Opening,
    before: &Before,
    last: &mut Option<SourceSight>,
) -> Result<Series<SourceGroup>, AllocError>
    ensures state { OnOk result (world.new ≡ (followed_by opening.now world.old turn.old.draw).0) }
    ensures messages { OnOk result (turn.new ≡ saying turn.old (followed_by opening.now world.old turn.old.draw).1) }
    ensures named { IfOk result (λ names. AreNamed before.now (cleared_by opening.now world.old).0 (keys_of names)) }
    ensures last { OnOk result (IfSome last.new (IsSourceSight world.new)) }
{
    if let Some((group, opened)) = opening.only_source() {
        return follow_source(world, turn, meter, group, opened, before, last);
    }
    forget(last);
    follow_groups(world, turn, meter, opening, before)
}

/// Settles a change: does what follows of it, and then writes the packets of all messages after the emissions, those of
/// the change first. The result is the sources whose rows of the forwarding cache are to be evaluated again; the last
/// sight is that of the source that alone was opened, where it is so.
#[tactic(auto, unfolding(crate::specs::Settling::settled_by))]
pub fn settle(
    world: &mut World,
    turn: &mut Turn,
    meter: &mut Meter,
    gathered: &Gathered,
    emissions: &mut Vec<Emission>,
    last: &mut Option<SourceSight>,
) -> Result<Series<SourceGroup>, Fault>
    ensures state { OnOk result (world.new ≡ (settled_by gathered.now.opening world.old turn.old.messages turn.old.draw).0) }
    ensures sent { OnOk result (emissions.new.items ≡ emissions.old.items
        ++ (settled_by gathered.now.opening world.old turn.old.messages turn.old.draw).1) }
    ensures named { IfOk result (λ names. AreNamed gathered.now.before (cleared_by gathered.now.opening world.old).0 (keys_of names)) }
    ensures last { OnOk result (IfSome last.new (IsSourceSight world.new)) }
    ensures draw { OnOk result (turn.new.draw ≡ turn.old.draw) }
    ensures fault { IsOkUnless result Fault.Memory }
{
    let names = follow(
        world,
        turn,
        meter,
        &gathered.opening,
        &gathered.before,
        last,
    )?;
    world.write(&mut turn.room, &turn.out, emissions)?;
    Ok(names)
}
