//! The messages of (S,G,rpt) (RFC 7761, section 4.5.7).
ghost use Rattle.std.specs.Prelude.{◌≡◌, IfOk, OnOk};
ghost use Rattle.pim_model.specs.Upstream.{becomes_star, rpt_told};
ghost use Rattle.pim_macros.specs.Sights.{IsStarSight};
ghost use Rattle.pim_state.specs.Turns.{saying};
ghost use Rattle.pim_rpt.specs.Changes.{change_of};

use crate::change::Change;
use crate::message::{override_end, say};
use pim_macros::StarSight;
use pim_macros::desires::is_same_hop;
use pim_state::{Turn, World};
use pim_types::{Addr, SourceView, TreeState};
use pim_wire::{Entry, EntryKind};
use std::alloc::AllocError;

/// The entry that names the source on the shared tree.
pub(crate) fn entry(source: Addr) -> Entry
    ensures { result ≡ record { kind = EntryKind.SourceRpt; address = source } }
{
    Entry {
        kind: EntryKind::SourceRpt,
        address: source,
    }
}

// Whether RPF'(S,G,rpt) becomes RPF'(*,G).
#[tactic(auto, unfolding(pim_model::specs::Upstream::becomes_star))]
fn becomes_star(old: SourceView, new: SourceView) -> bool
    ensures { result ≡ becomes_star old new }
{
    new.tree_upstream.is_some()
        && is_same_hop(new.tree_upstream, new.star_upstream)
        && !is_same_hop(old.tree_upstream, old.star_upstream)
}

/// Sends what follows of the views of a source before and after a change, and returns what becomes of the override
/// timer of (S,G,rpt).
#[tactic(auto, unfolding(pim_model::specs::Upstream::rpt_told, pim_model::specs::Upstream::rpt_told_from, crate::specs::Changes::change_of))]
pub fn changed(
    world: &World,
    turn: &mut Turn,
    star: &StarSight,
    source: Addr,
    old: SourceView,
    new: SourceView,
) -> Result<Change, AllocError>
    requires { IsStarSight world.now star.now }
    ensures timer { IfOk result (λ change. change_of change
        ≡ (rpt_told world.now turn.old.draw star.now.group.bits source.bits old new).timer) }
    ensures messages { OnOk result (turn.new ≡ saying turn.old
        (rpt_told world.now turn.old.draw star.now.group.bits source.bits old new).messages) }
{
    match (old.tree, new.tree) {
        (TreeState::NotPruned, TreeState::Pruned) => {
            say(turn, new.tree_upstream, star.group, &[], &[entry(source)])?;
            Ok(Change::Cancel)
        }
        (TreeState::Pruned, TreeState::NotPruned) => {
            say(turn, new.tree_upstream, star.group, &[entry(source)], &[])?;
            Ok(Change::Keep)
        }
        (TreeState::NotPruned, TreeState::NotPruned) => {
            if becomes_star(old, new) {
                let iface = star.rp_path.map(|path| path.iface);
                return Ok(Change::LowerTo(override_end(world, turn.draw, iface)));
            }
            Ok(Change::Keep)
        }
        (TreeState::NotPruned, TreeState::NotJoined) => Ok(Change::Cancel),
        _ => Ok(Change::Keep),
    }
}
