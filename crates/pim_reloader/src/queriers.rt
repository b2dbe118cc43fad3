//! Queriers under other settings.
ghost use Rattle.igmp_membership.specs.MembershipTables.{is_querier_key};
ghost use Rattle.law_settled.specs.Rows.{all_changed};
ghost use Rattle.law_states.specs.Reloading.{queriers_under, row_under};
ghost use Rattle.pim_model.specs.Tables.{change_row, keys_in};
ghost use Rattle.pim_reloader.specs.Asking.{asking};
ghost use Rattle.std.specs.List.{list_all};
ghost use Rattle.std.specs.Prelude.{◌≡◌, ◌≤◌, IfOk, IsTrue, OnOk};

use pim_state::World;
use pim_types::Key;
use pim_types::fact::{QuerierRole, QuerierRow};
use std::alloc::{AllocError, Global};

// The row of a querier under the settings of the world.
fn row_under(world: &World, row: QuerierRow) -> QuerierRow
    ensures row { result ≡ row_under world.now.present world.now.settings row row.role }
    ensures robust { row.robustness ≤ 7 → result.robustness ≤ 7 }
{
    let settings = world.settings();
    let robustness = settings.robustness as u8;
    match row.role {
        QuerierRole::NonQuerier { .. } => row,
        QuerierRole::Querier {
            next_query,
            startup_left,
        } => QuerierRow {
            role: QuerierRole::Querier {
                next_query: next_query.min(
                    world.present() + 1000 * u64::from(settings.query_interval),
                ),
                startup_left: startup_left.min(robustness),
            },
            robustness,
            query_interval: settings.query_interval as u16,
        },
    }
}

// Puts the querier under the key, which is that of an interface, under the settings of the world, if there is one.
fn put_under(world: &mut World, key: Key) -> Result<(), AllocError>
    requires { IsTrue (is_querier_key key) }
    ensures { OnOk result (world.new
        ≡ record world.old { queriers = change_row (asking world.old) key world.old.queriers }) }
{
    // For the proof: each querier is listed once.
    world.membership().proof_rising();
    let Some(row) = world.membership().querier(key.iface) else {
        return Ok(());
    };
    let after = row_under(world, row);
    world.membership_mut().change_querier(key.iface, after)
}

// The keys of all queriers, ascending.
fn keys_of(world: &World, alloc: Global) -> Result<Vec<Key>, AllocError>
    ensures { IfOk result (λ keys. keys.items ≡ keys_in world.now.queriers) }
{
    let mut keys = Vec::new(alloc);
    for (key, _) in world.membership().querier_rows() {
        keys.push(*key)?;
    }
    Ok(keys)
}

// Puts the queriers under these keys under the settings of the world.
fn put_each_under(world: &mut World, keys: &[Key]) -> Result<(), AllocError>
    requires { IsTrue (list_all is_querier_key keys.now) }
    ensures { OnOk result (world.new
        ≡ record world.old { queriers = all_changed (asking world.old) world.old.queriers keys.now }) }
{
    for key in keys {
        put_under(world, *key)?;
    }
    Ok(())
}

/// Puts all queriers under the settings of the world (RFC 3376, sections 8.1 and 8.2): where the router is the querier,
/// its next general query leaves within the query interval. The error is want of memory.
pub(crate) fn put_all_under(world: &mut World, alloc: Global) -> Result<(), AllocError>
    ensures { OnOk result (world.new
        ≡ record world.old { queriers = queriers_under world.old world.old.settings }) }
{
    // For the proof: each querier is under the key of an interface.
    world.membership().proof_kinds();
    let keys = keys_of(world, alloc)?;
    put_each_under(world, &keys)
}
