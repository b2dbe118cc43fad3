//! The neighbours of saved rows.
ghost use Rattle.pim_store.specs.PimTables.{Rises};
ghost use Rattle.pim_worlds.specs.Refilled.{refilled};
ghost use Rattle.std.specs.Prelude.{◌≡◌, IfOk, OnOk};

use pim_neighbours::Neighbours;
use pim_types::Key;
use pim_types::fact::NeighbourRow;
use std::alloc::{AllocError, Global};

// Puts row after row.
fn put_neighbours(
    neighbours: &mut Neighbours,
    rows: &[(Key, NeighbourRow)],
) -> Result<(), AllocError>
    ensures { OnOk result (neighbours.new ≡ refilled neighbours.old rows.now) }
{
    for row in rows {
        neighbours.put(row.0, row.1)?;
    }
    Ok(())
}

/// Neighbours with these rows. An error is want of memory.
#[tactic(auto, using(crate::proofs::Filled::filled))]
pub(crate) fn neighbours_of(
    alloc: Global,
    rows: &[(Key, NeighbourRow)],
) -> Result<Neighbours, AllocError>
    ensures { IfOk result (λ neighbours. Rises rows.now → neighbours ≡ rows.now) }
{
    let mut neighbours = Neighbours::new(alloc);
    put_neighbours(&mut neighbours, rows)?;
    Ok(neighbours)
}
