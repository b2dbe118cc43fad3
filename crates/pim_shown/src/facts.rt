//! A row for each fact of a table.
ghost use Rattle.pim_rows.specs.Printed.{active_line, register_name, upstream_line};
ghost use Rattle.std.specs.Prelude.{◌≡◌, IfOk, map};

use crate::line::Printed;
use pim_rows::Row;
use pim_rows::table::RegisterName;
use pim_state::World;
use pim_store::JoinTimerRows;
use pim_types::Key;
use pim_types::fact::{RegisterRow, RegisterState, SourceRow};
use std::alloc::{AllocError, Global};
use std::collections::btree_map::Iter;

/// The rows of facts, in their order.
pub fn lines<R: Printed>(facts: Iter<'_, Key, R>, alloc: Global) -> Result<Vec<Row>, AllocError>
    ensures { IfOk result (λ rows. rows.items ≡ map R.line facts.entry) }
{
    let mut rows = Vec::new(alloc);
    for (key, row) in facts {
        rows.push(row.line(*key))?;
    }
    Ok(rows)
}

/// The rows of the Join timers that are left, in their order. An error is want of memory.
pub fn timer_lines(timers: JoinTimerRows<'_>, alloc: Global) -> Result<Vec<Row>, AllocError>
    ensures { IfOk result (λ rows. rows.items ≡ map upstream_line timers.entry) }
{
    let mut rows = Vec::new(alloc);
    for (key, row) in timers {
        rows.push(row.line(key))?;
    }
    Ok(rows)
}

// The name of a register's state.
fn register_name(row: RegisterRow) -> RegisterName
    ensures { result ≡ register_name row.state }
{
    match row.state {
        RegisterState::Join => RegisterName::Join,
        RegisterState::JoinPending { .. } => RegisterName::JoinPending,
        RegisterState::Prune { .. } => RegisterName::Prune,
    }
}

// The row of a source.
#[tactic(auto, unfolding(pim_rows::specs::Printed::active_line))]
fn active_row(world: &World, key: Key, row: &SourceRow) -> Row
    ensures { result ≡ active_line world.now (key, row.now) }
{
    let name = key.name();
    let register = match world.store().register(name.key()) {
        Some(register) => Some(register_name(register)),
        None => None,
    };
    Row::Active {
        group: name.group,
        source: name.source,
        keepalive: row.keepalive,
        spt: row.spt,
        register,
    }
}

/// The rows of the sources, with their registers.
pub fn active(world: &World, alloc: Global) -> Result<Vec<Row>, AllocError>
    ensures { IfOk result (λ rows. rows.items ≡ map (active_line world.now) world.now.sources) }
{
    let mut rows = Vec::new(alloc);
    for (key, row) in world.store().source_rows() {
        rows.push(active_row(world, *key, row))?;
    }
    Ok(rows)
}
