//! The upstream (S,G,rpt) states.
ghost use Rattle.pim_macros.specs.Sights.{IsStarSight};
ghost use Rattle.pim_model.specs.Desires.{tree_state};
ghost use Rattle.pim_rows.specs.Printed.{tree_line, tree_lines};
ghost use Rattle.pim_shown.specs.Trees.{lines_of_group};
ghost use Rattle.std.specs.Prelude.{◌≡◌, ◌++◌, IfOk, OnOk, flat_map};

use pim_macros::{SourceSight, StarSight};
use pim_rows::Row;
use pim_state::World;
use pim_trie::Meter;
use pim_types::{Addr, TreeState};
use std::alloc::{AllocError, Global};

/// The (S,G,rpt) states of the sources with a fact, where their group is joined. The meter rises by the nodes visited.
#[tactic(auto, unfolding(pim_rows::specs::Printed::tree_lines, crate::specs::Trees::lines_of_group))]
pub fn trees(world: &World, alloc: Global, meter: &mut Meter) -> Result<Vec<Row>, AllocError>
    ensures { IfOk result (λ rows. rows.items ≡ tree_lines world.now) }
{
    let mut rows = Vec::new(alloc);
    for (group, ()) in world.groups(alloc, meter)?.iter() {
        push_group(world, alloc, *group, meter, &mut rows)?;
    }
    Ok(rows)
}

// Adds the rows of a group.
#[tactic(auto, unfolding(crate::specs::Trees::lines_of_group))]
fn push_group(
    world: &World,
    alloc: Global,
    group: Addr,
    meter: &mut Meter,
    rows: &mut Vec<Row>,
) -> Result<(), AllocError>
    ensures { OnOk result (rows.new.items ≡ rows.old.items ++ lines_of_group world.now group.bits) }
{
    let star = StarSight::of(world, group, meter);
    for (source, ()) in world.sources(alloc, group, meter)?.iter() {
        push_source(world, &star, *source, meter, rows)?;
    }
    Ok(())
}

// Adds the row of a source.
fn push_source(
    world: &World,
    star: &StarSight,
    source: Addr,
    meter: &mut Meter,
    rows: &mut Vec<Row>,
) -> Result<(), AllocError>
    requires { IsStarSight world.now star.now }
    ensures { OnOk result (rows.new.items ≡ rows.old.items
        ++ tree_line star.now.group.bits source.bits (tree_state world.now star.now.group.bits source.bits)) }
{
    let sight = SourceSight::of(world, *star, source, meter);
    let is_pruned = match sight.tree_state() {
        TreeState::NotJoined => return Ok(()),
        TreeState::Pruned => true,
        TreeState::NotPruned => false,
    };
    Ok(rows.push(Row::Tree {
        group: star.group,
        source,
        is_pruned,
    })?)
}
