//! Which entries of a Join/Prune count.
ghost use Rattle.std.specs.Prelude.{◌≡◌};
ghost use Rattle.pim_ip.specs.Ipv4.{is_link_local, is_source_specific};
ghost use Rattle.pim_model.specs.Downstream.{is_accepted, is_kind, is_used};
ghost use Rattle.pim_downstream.specs.Naming.{is_counted};

use pim_state::World;
use pim_trie::Meter;
use pim_types::Addr;
use pim_wire::{Entry, EntryKind};

/// Whether an entry of the group is used: groups of 224.0.0.0/24 are skipped, and of a source-specific
/// group all entries but those of (S,G).
pub fn is_used(group: Addr, entry: Entry) -> bool
    ensures { result ≡ is_used (group.bits, entry) }
{
    !group.is_link_local()
        && (!group.is_source_specific() || matches!(entry.kind, EntryKind::Source))
}

/// Whether a join of the group is accepted: one of (*,G) has to name RP(G). The meter rises by the nodes visited.
#[tactic(auto, unfolding(pim_model::specs::Downstream::is_accepted))]
pub fn is_accepted(world: &World, group: Addr, join: Entry, meter: &mut Meter) -> bool
    ensures { result ≡ is_accepted world.now (group.bits, join) }
{
    !matches!(join.kind, EntryKind::Star) || world.is_rp(group, join.address, meter)
}

/// Whether a join of the group counts: it is used and accepted. The meter rises by the nodes visited.
pub fn is_counted(world: &World, group: Addr, join: Entry, meter: &mut Meter) -> bool
    ensures { result ≡ is_counted world.now (group.bits, join) }
{
    is_used(group, join) && is_accepted(world, group, join, meter)
}
