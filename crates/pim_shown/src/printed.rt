//! The rows of a table.
ghost use Rattle.pim_rows.specs.Printed.{rows};
ghost use Rattle.std.specs.Prelude.{◌≡◌, IfOk};

use crate::facts::{active, lines, timer_lines};
use crate::trees::trees;
use pim_rows::{Row, Table};
use pim_state::World;
use pim_trie::Meter;
use std::alloc::{AllocError, Global};

/// The rows of a table, ascending by their keys. The meter rises by the nodes visited. An error is want of memory.
#[tactic(auto, unfolding(pim_rows::specs::Printed::rows))]
pub fn rows(
    world: &World,
    alloc: Global,
    table: Table,
    meter: &mut Meter,
) -> Result<Vec<Row>, AllocError>
    ensures { IfOk result (λ found. found.items ≡ rows world.now table) }
{
    match table {
        Table::Neighbours => lines(world.neighbours().iter(), alloc),
        Table::Groups => lines(world.membership().group_record_rows(), alloc),
        Table::Sources => lines(world.membership().source_record_rows(), alloc),
        Table::Downstream => lines(world.store().downstream_rows(), alloc),
        Table::Asserts => lines(world.store().assert_rows(), alloc),
        Table::Upstream => timer_lines(world.store().join_timer_rows(meter), alloc),
        Table::Trees => trees(world, alloc, meter),
        Table::Active => active(world, alloc),
    }
}
