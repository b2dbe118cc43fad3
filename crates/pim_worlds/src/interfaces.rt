//! The interfaces of saved rows.
ghost use Rattle.pim_ifaces.specs.Interfaces.{interfaces_test, is_up_key};
ghost use Rattle.pim_model.specs.Limits.{are_own_addresses};
ghost use Rattle.pim_model.specs.Tables.{put};
ghost use Rattle.pim_store.specs.PimTables.{Rises};
ghost use Rattle.pim_worlds.specs.Refilled.{refilled};
ghost use Rattle.std.specs.List.{list_all};
ghost use Rattle.std.specs.Prelude.{◌≡◌, ◌&&◌, IfOk, IfSome, IsTrue, is_ok, is_some, length};

use pim_ifaces::{Interfaces, are_own_addresses, test_interfaces};
use pim_types::fact::InterfaceRow;
use pim_types::{Addr, InterfaceConfig, Key};
use std::alloc::{AllocError, Global};

// Puts one; or answers no where it is of no configured interface.
fn put_up(interfaces: &mut Interfaces, key: Key, row: InterfaceRow) -> Result<bool, AllocError>
    ensures test { IfOk result (λ fits. fits ≡ is_up_key (length interfaces.old.configured.interfaces) key) }
    ensures put { IfOk result (λ fits. IsTrue fits → interfaces.new ≡ record interfaces.old { rows = put interfaces.old.rows key row }) }
{
    if key.rpt || key.source.is_some() || key.group.bits != 0 {
        return Ok(false);
    }
    if key.iface.number >= interfaces.count() {
        return Ok(false);
    }
    interfaces.set_up(key.iface, row)?;
    Ok(true)
}

// Puts row after row; or answers no where one is of no configured interface.
fn put_ups(interfaces: &mut Interfaces, rows: &[(Key, InterfaceRow)]) -> Result<bool, AllocError>
    ensures test { IfOk result (λ fits. fits ≡ list_all (λ e. is_up_key (length interfaces.old.configured.interfaces) e.0) rows.now) }
    ensures put { IfOk result (λ fits. IsTrue fits
        → interfaces.new ≡ record interfaces.old { rows = refilled interfaces.old.rows rows.now }) }
{
    for row in rows {
        if !put_up(interfaces, row.0, row.1)? {
            return Ok(false);
        }
    }
    Ok(true)
}

/// Configured interfaces with the given rows, and own addresses of no interface; none where a row can't be held.
pub(crate) fn interfaces_of(
    alloc: Global,
    configured: &[InterfaceConfig],
    addresses: &[Addr],
    rows: &[(Key, InterfaceRow)],
) -> Result<Option<Interfaces>, AllocError>
    ensures made { IfOk result (λ made. IfSome made (λ interfaces. Rises rows.now
        → interfaces ≡ record {
          configured = record { interfaces = configured.now; addresses = addresses.now };
          rows = rows.now;
        })) }
    ensures shown { IfOk result (λ made. IfSome made (λ interfaces. interfaces.configured
        ≡ record { interfaces = configured.now; addresses = addresses.now })) }
    ensures none { IfOk result (λ made. is_some made
        ≡ ((is_ok (interfaces_test configured.now)
        && are_own_addresses (record { interfaces = configured.now; addresses = addresses.now })) && list_all (λ e. is_up_key (length configured.now) e.0) rows.now)) }
{
    if test_interfaces(configured).is_err() || !are_own_addresses(configured, addresses) {
        return Ok(None);
    }
    let mut interfaces = Interfaces::new(alloc, configured, addresses)?;
    if !put_ups(&mut interfaces, rows)? {
        return Ok(None);
    }
    Ok(Some(interfaces))
}
