//! A message as a whole.
ghost use Rattle.std.specs.List.{list_all};
ghost use Rattle.std.specs.Prelude.{◌≡◌, ◌<◌, OnOk, true};
ghost use Rattle.pim_types.specs.Keys.{is_on};
ghost use Rattle.pim_downstream.specs.Naming.{are_on, changes_after, rows_set};
ghost use Rattle.pim_model.specs.Downstream.{keys_taken};

use crate::effect::{Change, Effect};
use crate::named::Named;
use pim_state::{Turn, World};
use pim_trie::Meter;
use pim_types::IfaceId;
use std::alloc::AllocError;

// Sets the rows of an interface, one after the other.
#[tactic(auto, unfolding(crate::specs::Naming::row_set, crate::specs::Naming::rows_set))]
fn set_rows(
    world: &mut World,
    meter: &mut Meter,
    iface: IfaceId,
    changes: &[Change],
) -> Result<(), AllocError>
    requires within { iface.number < 120 }
    requires on { list_all (λ change. is_on iface.number change.key) changes.now ≡ true }
    ensures { OnOk result (world.new ≡ rows_set world.old changes.now) }
{
    for change in changes {
        world
            .store_mut()
            .set_downstream(change.key, change.row, meter)?;
    }
    Ok(())
}

/// Takes a Join/Prune to the router that came on an interface and names keys on it, as one message: what becomes of
/// each key depends on the whole message, and on the state that it finds. The meter rises by the nodes visited. If an
/// allocation fails, some keys may be taken and others not.
pub fn to_me(
    world: &mut World,
    turn: &Turn,
    meter: &mut Meter,
    iface: IfaceId,
    holdtime: u16,
    named: &Named,
) -> Result<(), AllocError>
    requires within { iface.number < 120 }
    requires joined { are_on iface.number named.now.joined.items ≡ true }
    requires pruned { are_on iface.number named.now.pruned.items ≡ true }
    ensures { OnOk result (world.new
        ≡ keys_taken world.old iface.number holdtime named.now.joined.items named.now.pruned.items) }
{
    let Effect { changes, .. } = Effect::of(world, turn, iface, holdtime, named)?;
    take_changes(world, meter, iface, holdtime, named, changes.as_slice())
}

/// Takes a Join/Prune of which it is known what it comes to (`Effect`): else as `to_me`.
pub fn take_changes(
    world: &mut World,
    meter: &mut Meter,
    iface: IfaceId,
    holdtime: u16,
    named: &Named,
    changes: &[Change],
) -> Result<(), AllocError>
    requires within { iface.number < 120 }
    requires joined { are_on iface.number named.now.joined.items ≡ true }
    requires pruned { are_on iface.number named.now.pruned.items ≡ true }
    requires changes { changes.now
        ≡ changes_after world.old iface.number holdtime named.now.joined.items named.now.pruned.items }
    ensures { OnOk result (world.new
        ≡ keys_taken world.old iface.number holdtime named.now.joined.items named.now.pruned.items) }
{
    set_rows(world, meter, iface, changes)?;
    world.store_mut().end_losses(&named.joined, meter);
    Ok(())
}
