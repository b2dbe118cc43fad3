//! The messages upstream of (*,G) (RFC 7761, section 4.5.4).
ghost use Rattle.std.specs.Prelude.{◌≡◌, [], IfOk, OnOk, if◌then◌else◌, is_none};
ghost use Rattle.pim_model.specs.Upstream.{join_star_to, prune_star_to, star_stays, star_told};
ghost use Rattle.pim_macros.specs.Sights.{IsStarSight};
ghost use Rattle.pim_state.specs.Turns.{saying};
ghost use Rattle.pim_rpt.specs.Changes.{change_of};

use crate::compound::pruned_with_star;
use pim_macros::StarSight;
use pim_macros::desires::is_same_hop;
use pim_rpt::Change;
use pim_rpt::message::{if_neighbour, is_due_to_assert, override_end, say};
use pim_state::{Meter, Turn, World};
use pim_types::{Addr, Hop, StarView};
use pim_wire::{Entry, EntryKind};
use std::alloc::AllocError;

// The entry that names the RP.
fn entry(rp: Addr) -> Entry
    ensures { result ≡ record { kind = EntryKind.Star; address = rp } }
{
    Entry {
        kind: EntryKind::Star,
        address: rp,
    }
}

/// Join(*,G) to a neighbour, with the sources that it prunes. Without an RP or a neighbour there is nothing to join.
#[tactic(auto, unfolding(pim_model::specs::Upstream::join_star_to, pim_model::specs::Upstream::join_prune_to))]
pub(crate) fn join(
    world: &World,
    turn: &mut Turn,
    meter: &mut Meter,
    star: &StarSight,
    rp: Option<Addr>,
    upstream: Option<Hop>,
) -> Result<(), AllocError>
    requires { IsStarSight world.now star.now }
    ensures { OnOk result (turn.new ≡ saying turn.old
        (join_star_to world.now rp upstream star.now.group.bits)) }
{
    match (rp, upstream) {
        (Some(rp), Some(_)) => {
            let prunes = pruned_with_star(world, turn.alloc, meter, star)?;
            say(turn, upstream, star.group, &[entry(rp)], prunes.as_slice())
        }
        _ => Ok(()),
    }
}

// Prune(*,G) to a neighbour, if it still is one.
#[tactic(auto, unfolding(pim_model::specs::Upstream::prune_star_to))]
fn prune(
    world: &World,
    turn: &mut Turn,
    rp: Option<Addr>,
    upstream: Option<Hop>,
    group: Addr,
) -> Result<(), AllocError>
    ensures { OnOk result (turn.new ≡ saying turn.old (prune_star_to world.now rp upstream group.bits)) }
{
    match rp {
        Some(rp) => say(
            turn,
            if_neighbour(world, upstream),
            group,
            &[],
            &[entry(rp)],
        ),
        None => Ok(()),
    }
}

// (*,G) was desired, and is.
#[tactic(auto, unfolding(pim_model::specs::Upstream::star_stays, pim_rpt::specs::Changes::change_of))]
fn stay(
    world: &World,
    turn: &mut Turn,
    meter: &mut Meter,
    star: &StarSight,
    old: StarView,
    new: StarView,
) -> Result<Change, AllocError>
    requires { IsStarSight world.now star.now }
    ensures timer { IfOk result (λ change. change_of change
        ≡ (star_stays world.now turn.old.draw star.now.group.bits old new).timer) }
    ensures messages { OnOk result (turn.new ≡ saying turn.old
        (star_stays world.now turn.old.draw star.now.group.bits old new).messages) }
{
    if !is_same_hop(old.upstream, new.upstream) {
        if is_due_to_assert(old.iface, new.iface, old.next_hop, new.next_hop) {
            return Ok(Change::LowerTo(override_end(world, turn.draw, new.iface)));
        }
        join(world, turn, meter, star, new.rp, new.upstream)?;
        prune(world, turn, new.rp, old.upstream, star.group)?;
        return Ok(Change::SetTo(world.periodic_end()));
    }
    if old.rp == new.rp {
        return Ok(Change::Keep);
    }
    join(world, turn, meter, star, new.rp, new.upstream)?;
    Ok(Change::SetTo(world.periodic_end()))
}

// (*,G) was desired, and isn't after the change. Without an RP there is nothing to prune.
fn cease(
    world: &World,
    turn: &mut Turn,
    group: Addr,
    old: StarView,
    new: StarView,
) -> Result<(), AllocError>
    ensures { OnOk result (turn.new ≡ saying turn.old
        (if is_none new.rp then [] else prune_star_to world.now old.rp old.upstream group.bits)) }
{
    if new.rp.is_some() {
        return prune(world, turn, old.rp, old.upstream, group);
    }
    Ok(())
}

/// Sends what follows of the views of a group before and after a change, and returns what becomes of its Join timer.
#[tactic(auto, unfolding(pim_model::specs::Upstream::star_told, pim_rpt::specs::Changes::change_of))]
pub(crate) fn send_change(
    world: &World,
    turn: &mut Turn,
    meter: &mut Meter,
    star: &StarSight,
    old: StarView,
    new: StarView,
) -> Result<Change, AllocError>
    requires { IsStarSight world.now star.now }
    ensures timer { IfOk result (λ change. change_of change
        ≡ (star_told world.now turn.old.draw star.now.group.bits old new).timer) }
    ensures messages { OnOk result (turn.new ≡ saying turn.old
        (star_told world.now turn.old.draw star.now.group.bits old new).messages) }
{
    match (old.is_desired, new.is_desired) {
        (false, false) => Ok(Change::Keep),
        (true, false) => {
            cease(world, turn, star.group, old, new)?;
            Ok(Change::Cancel)
        }
        (true, true) => stay(world, turn, meter, star, old, new),
        (false, true) => {
            join(world, turn, meter, star, new.rp, new.upstream)?;
            Ok(Change::SetTo(world.periodic_end()))
        }
    }
}
