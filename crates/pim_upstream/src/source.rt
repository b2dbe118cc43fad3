//! The messages upstream of (S,G) (RFC 7761, section 4.5.5).
ghost use Rattle.std.specs.Prelude.{◌≡◌, IfOk, OnOk};
ghost use Rattle.pim_model.specs.Upstream.{join_source_to, prune_source_to, source_stays, source_told};
ghost use Rattle.pim_state.specs.Turns.{saying};
ghost use Rattle.pim_rpt.specs.Changes.{change_of};

use pim_macros::desires::is_same_hop;
use pim_rpt::Change;
use pim_rpt::message::{if_neighbour, is_due_to_assert, override_end, say};
use pim_state::{Turn, World};
use pim_types::{Addr, Hop, SourceGroup, SourceView};
use pim_wire::{Entry, EntryKind};
use std::alloc::AllocError;

// The entry that names the source.
fn entry(source: Addr) -> Entry
    ensures { result ≡ record { kind = EntryKind.Source; address = source } }
{
    Entry {
        kind: EntryKind::Source,
        address: source,
    }
}

/// Join(S,G) to a neighbour.
pub(crate) fn join(
    turn: &mut Turn,
    upstream: Option<Hop>,
    name: SourceGroup,
) -> Result<(), AllocError>
    ensures { OnOk result (turn.new
        ≡ saying turn.old (join_source_to upstream name.group.bits name.source.bits)) }
{
    say(turn, upstream, name.group, &[entry(name.source)], &[])
}

// Prune(S,G) to a neighbour, if it still is one.
fn prune(
    world: &World,
    turn: &mut Turn,
    upstream: Option<Hop>,
    name: SourceGroup,
) -> Result<(), AllocError>
    ensures { OnOk result (turn.new
        ≡ saying turn.old (prune_source_to world.now upstream name.group.bits name.source.bits)) }
{
    say(
        turn,
        if_neighbour(world, upstream),
        name.group,
        &[],
        &[entry(name.source)],
    )
}

// (S,G) was desired, and is.
#[tactic(auto, unfolding(pim_model::specs::Upstream::source_stays, pim_rpt::specs::Changes::change_of))]
fn stay(
    world: &World,
    turn: &mut Turn,
    name: SourceGroup,
    old: SourceView,
    new: SourceView,
) -> Result<Change, AllocError>
    ensures timer { IfOk result (λ change. change_of change
        ≡ (source_stays world.now turn.old.draw name.group.bits name.source.bits old new).timer) }
    ensures messages { OnOk result (turn.new ≡ saying turn.old
        (source_stays world.now turn.old.draw name.group.bits name.source.bits old new).messages) }
{
    if is_same_hop(old.upstream, new.upstream) {
        return Ok(Change::Keep);
    }
    if is_due_to_assert(old.iface, new.iface, old.next_hop, new.next_hop) {
        return Ok(Change::LowerTo(override_end(world, turn.draw, new.iface)));
    }
    join(turn, new.upstream, name)?;
    prune(world, turn, old.upstream, name)?;
    Ok(Change::SetTo(world.periodic_end()))
}

/// Sends what follows of the views of a source before and after a change, and returns what becomes of the Join timer of
/// (S,G).
#[tactic(auto, unfolding(pim_model::specs::Upstream::source_told, pim_rpt::specs::Changes::change_of))]
pub(crate) fn send_change(
    world: &World,
    turn: &mut Turn,
    name: SourceGroup,
    old: SourceView,
    new: SourceView,
) -> Result<Change, AllocError>
    ensures timer { IfOk result (λ change. change_of change
        ≡ (source_told world.now turn.old.draw name.group.bits name.source.bits old new).timer) }
    ensures messages { OnOk result (turn.new ≡ saying turn.old
        (source_told world.now turn.old.draw name.group.bits name.source.bits old new).messages) }
{
    match (old.is_desired, new.is_desired) {
        (false, false) => Ok(Change::Keep),
        (true, false) => {
            prune(world, turn, old.upstream, name)?;
            Ok(Change::Cancel)
        }
        (true, true) => stay(world, turn, name, old, new),
        (false, true) => {
            join(turn, new.upstream, name)?;
            Ok(Change::SetTo(world.periodic_end()))
        }
    }
}
