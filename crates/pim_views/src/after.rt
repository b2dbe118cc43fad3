//! A touched group after a change: gathered once, for all that follows.
ghost use Rattle.std.specs.Prelude.{◌≡◌, IfOk, map};
ghost use Rattle.pim_macros.specs.Sights.{IsStarSight};
ghost use Rattle.pim_views.specs.After.{AreAfter, AreGathered, IsAfter, IsSourceAfter, opened_in, opening_in, openings_in};

use crate::opening::{GroupOpening, SourceOpening};
use pim_macros::{SourceSight, StarSight};
use pim_state::{Meter, World};
use pim_types::{Series, StarView};
use std::alloc::{AllocError, Global};

/// A touched source: as it was at the opening, and what its macros read after the change.
#[derive(Clone, Copy)]
pub struct SourceAfter {
    pub opened: SourceOpening,
    pub sight: SourceSight,
}

/// A touched group, as it was and as it is after the change, and its touched sources, ascending.
#[derive(Drop)]
pub struct GroupAfter {
    /// All of it is touched.
    pub is_whole: bool,
    /// What the machine of (*,G) compares, at the opening.
    pub was: StarView,
    pub star: StarSight,
    pub sources: Series<SourceAfter>,
}

impl GroupAfter {
    /// What was opened, with what is read of it in the present state. The meter rises by the nodes visited.
    pub fn of(
        world: &World,
        alloc: Global,
        opened: &GroupOpening,
        meter: &mut Meter,
    ) -> Result<GroupAfter, AllocError>
        ensures opening { IfOk result (λ after. opening_in after ≡ opened.now) }
        ensures after { IfOk result (λ after. IsAfter world.now after) }
    {
        let star = StarSight::of(world, opened.group, meter);
        let sources = sources_after(world, alloc, &star, opened.sources.as_slice(), meter)?;
        Ok(GroupAfter {
            is_whole: opened.is_whole,
            was: opened.star,
            star,
            sources: Series::from_vec(sources),
        })
    }

    /// Gathers touched groups after a change, each with its touched sources, in their order. The meter rises by the
    /// nodes visited. The error is want of memory.
    pub fn all_of(
        world: &World,
        alloc: Global,
        opened: &[GroupOpening],
        meter: &mut Meter,
    ) -> Result<Vec<GroupAfter>, AllocError>
        ensures opening { IfOk result (λ seen. openings_in seen.items ≡ opened.now) }
        ensures after { IfOk result (λ seen. AreGathered world.now seen.items) }
    {
        let mut seen = Vec::new(alloc);
        for group in opened {
            let after = GroupAfter::of(world, alloc, group, meter)?;
            seen.push(after)?;
        }
        Ok(seen)
    }
}

// The given sources of a group.
fn sources_after(
    world: &World,
    alloc: Global,
    star: &StarSight,
    sources: &[SourceOpening],
    meter: &mut Meter,
) -> Result<Vec<SourceAfter>, AllocError>
    requires { IsStarSight world.now star.now }
    ensures opened { IfOk result (λ after. map opened_in after.items ≡ sources.now) }
    ensures after { IfOk result (λ after. AreAfter world.now star.now after.items) }
{
    let mut after = Vec::new(alloc);
    for opened in sources {
        after.push(source_after(world, star, *opened, meter))?;
    }
    Ok(after)
}

// A source of a group.
fn source_after(
    world: &World,
    star: &StarSight,
    opened: SourceOpening,
    meter: &mut Meter,
) -> SourceAfter
    requires { IsStarSight world.now star.now }
    ensures opened { result.opened ≡ opened }
    ensures after { IsSourceAfter world.now star.now result }
{
    let sight = SourceSight::of(world, *star, opened.source, meter);
    SourceAfter { opened, sight }
}
