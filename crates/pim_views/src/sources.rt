//! The sources that an event touches.
ghost use Rattle.std.specs.List.{list_any};
ghost use Rattle.std.specs.Prelude.{◌≡◌, IfOk, OnOk};
ghost use Rattle.pim_state.specs.Groups.{gathered, numbers_of};
ghost use Rattle.pim_state.specs.Sources.{sources_among};
ghost use Rattle.pim_model.specs.Upstream.{sources_of};
ghost use Rattle.pim_views.specs.Openings.{facts_of_whole, is_of_all, touched_sources};
ghost use Rattle.pim_state.specs.declared.touched.Touched.{Touched as TouchedKeys};

use pim_state::sources::gather_source;
use pim_state::{Meter, Touched, World};
use pim_types::{Addr, Key};
use std::alloc::{AllocError, Global};
use std::collections::BTreeMap;

// Whether the key touches all of the group: that of (*,G), or of source 0.0.0.0.
fn is_of_all(key: Key, group: Addr) -> bool
    ensures { result ≡ is_of_all group.bits key }
{
    key.group == group && key.address() == Addr::NONE
}

/// Whether one of the keys touches all of the group.
pub fn is_whole(keys: &[Key], group: Addr) -> bool
    ensures { result ≡ list_any (is_of_all group.bits) keys.now }
{
    for key in keys {
        if is_of_all(*key, group) {
            return true;
        }
    }
    false
}

// Puts the sources that the keys name of the group into a set of sources.
fn gather_named(
    keys: &[Key],
    group: Addr,
    found: &mut BTreeMap<Addr, (), Global>,
) -> Result<(), AllocError>
    ensures { OnOk result (numbers_of found.new.entries
        ≡ gathered (sources_among group.bits keys.now) (numbers_of found.old.entries)) }
{
    for key in keys {
        gather_source(*key, group, found)?;
    }
    Ok(())
}

// The sources that the keys touch because they touch all of the group: those that have any fact, or none. The meter
// rises by the nodes visited.
fn sources_of_whole(
    alloc: Global,
    world: &World,
    keys: &[Key],
    group: Addr,
    meter: &mut Meter,
) -> Result<BTreeMap<Addr, (), Global>, AllocError>
    ensures { IfOk result (λ found. numbers_of found.entries
        ≡ sources_of group.bits (facts_of_whole world.now keys.now group.bits)) }
{
    if is_whole(keys, group) {
        return world.sources(alloc, group, meter);
    }
    Ok(BTreeMap::new(alloc))
}

/// The sources of the group that the keys touch, ascending: those that they name, and, where they touch all of the
/// group, those that have any fact. The meter rises by the nodes visited.
pub fn sources_by_keys(
    alloc: Global,
    world: &World,
    keys: &[Key],
    group: Addr,
    meter: &mut Meter,
) -> Result<BTreeMap<Addr, (), Global>, AllocError>
    ensures { IfOk result (λ found. numbers_of found.entries
        ≡ touched_sources world.now (TouchedKeys.Keys keys.now) group.bits) }
{
    let mut found = sources_of_whole(alloc, world, keys, group, meter)?;
    gather_named(keys, group, &mut found)?;
    Ok(found)
}

/// The sources of the group that are touched, ascending: those of the touched keys, and, where all of the group is
/// touched, those that have any fact. The meter rises by the nodes visited.
pub fn touched_sources(
    alloc: Global,
    world: &World,
    touched: &Touched,
    group: Addr,
    meter: &mut Meter,
) -> Result<BTreeMap<Addr, (), Global>, AllocError>
    ensures { IfOk result (λ found. numbers_of found.entries ≡ touched_sources world.now touched.now group.bits) }
{
    match touched {
        Touched::All => {
            let found = world.sources(alloc, group, meter)?;
            Ok(found)
        }
        Touched::Keys(keys) => {
            let found = sources_by_keys(alloc, world, keys.as_slice(), group, meter)?;
            Ok(found)
        }
    }
}
