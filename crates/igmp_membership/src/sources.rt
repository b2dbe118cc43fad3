//! The sources of a group that facts name.
ghost use Rattle.std.specs.List.{AllByRecursion, list_any};
ghost use Rattle.std.specs.List.Sorted.{IsStrictlySortedBy};
ghost use Rattle.std.specs.Prelude.{◌≡◌, ◌≤◌, ◌<◌, ◌^◌, ◌+◌, ◌||◌, ℕ, OnOk};
ghost use Rattle.pim_model.specs.Tables.{keys_in};
ghost use Rattle.pim_types.specs.Keys.{iface_in, key_cmp};
ghost use Rattle.igmp_membership.specs.Sources.{has_number, is_of_source};

use pim_ip::Addr;
use pim_tables::RowsOf;
use pim_types::{IfaceId, Key};
use std::alloc::{AllocError, Global};
use std::collections::BTreeMap;
use std::collections::btree_map::Iter;

// Adds the sources of the facts to a set of sources.
pub(crate) fn gather<R>(
    facts: RowsOf<'_, R>,
    found: &mut BTreeMap<Addr, (), Global>,
) -> Result<(), AllocError>
    ensures { OnOk result ((n : ℕ) → has_number n found.new.entries
        ≡ (has_number n found.old.entries || list_any (λ e. is_of_source n e.0) facts.entry)) }
{
    for (key, _) in facts {
        let Some(source) = key.source else {
            continue;
        };
        found.insert(source, ())?;
    }
    Ok(())
}

// The number after that of the interface.
fn next_number(iface: IfaceId) -> u64
    ensures next { result ≡ iface.number + 1 }
    ensures within { result ≤ 2 ^ 32 }
{
    u64::from(iface.number) + 1
}

// A number above those of all interfaces that the facts are on, whose keys rise.
pub(crate) fn above_interfaces<R>(mut facts: Iter<'_, Key, R>) -> u64
    requires { IsStrictlySortedBy key_cmp (keys_in facts) }
    ensures above { AllByRecursion (λ e. iface_in e.0 < result) facts.entry }
    ensures within { result ≤ 2 ^ 32 }
{
    match facts.next_back() {
        Some((key, _)) => next_number(key.iface),
        None => 0,
    }
}
