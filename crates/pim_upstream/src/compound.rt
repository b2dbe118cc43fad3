//! The sources that a Join(*,G) prunes off the shared tree (RFC 7761, section 4.5.6).
ghost use Rattle.std.specs.Prelude.{◌≡◌, ◌≤◌, IfOk, length};
ghost use Rattle.pim_macros.specs.Sights.{IsStarSight};
ghost use Rattle.pim_model.specs.Upstream.{is_pruned_with_star, pruned_with_star};

use pim_macros::{SourceSight, StarSight};
use pim_state::{Meter, World};
use pim_types::Addr;
use pim_wire::{Entry, EntryKind};
use std::alloc::{AllocError, Global};

// The most sources that one Join prunes.
const MOST_PRUNED: usize = 160;

// Whether a Join(*,G) prunes the source.
fn is_pruned(world: &World, meter: &mut Meter, star: &StarSight, source: Addr) -> bool
    requires { IsStarSight world.now star.now }
    ensures { result ≡ is_pruned_with_star world.now star.now.group.bits source.bits }
{
    let sight = SourceSight::of(world, *star, source, meter);
    sight.is_pruned_with_star()
}

/// The entries of the sources that a Join(*,G) prunes: the lowest 160 of them, ascending.
pub(crate) fn pruned_with_star(
    world: &World,
    alloc: Global,
    meter: &mut Meter,
    star: &StarSight,
) -> Result<Vec<Entry>, AllocError>
    requires { IsStarSight world.now star.now }
    ensures pruned { IfOk result (λ pruned. pruned.items ≡ pruned_with_star world.now star.now.group.bits) }
    ensures most { IfOk result (λ pruned. length pruned.items ≤ 160) }
{
    let sources = world.sources(alloc, star.group, meter)?;
    let mut pruned = Vec::new(alloc);
    let mut room = MOST_PRUNED;
    for (source, ()) in sources.iter() {
        if room == 0 {
            return Ok(pruned);
        }
        if is_pruned(world, meter, star, *source) {
            pruned.push(Entry {
                kind: EntryKind::SourceRpt,
                address: *source,
            })?;
            room -= 1;
        }
    }
    Ok(pruned)
}
