//! A query of another router (RFC 3376, sections 6.6.1 and 6.6.2).
ghost use Rattle.std.specs.Prelude.{◌≡◌, IfOk, OnOk};
ghost use Rattle.pim_model.specs.Querier.{is_lower_querier, lower_queried, querier_elected, query_seen};
ghost use Rattle.igmp_wire.specs.Codes.{code_value};
ghost use Rattle.igmp_wire.specs.Written.{bits_of};

use crate::election::querier_elected;
use crate::intervals::query_end;
use crate::lowering::lower_sources;
use crate::place::IfaceGroup;
use igmp_wire::{QueryView, code_value};
use pim_state::{Meter, Turn, World};
use pim_types::{Addr, IfaceId};
use std::alloc::{AllocError, Global};

// The sources that the query names, in its order.
fn sources_of(alloc: Global, query: &QueryView<'_>) -> Result<Vec<Addr>, AllocError>
    ensures { IfOk result (λ sources. bits_of sources.items ≡ query.now.sources) }
{
    let mut sources = Vec::new(alloc);
    for source in query.sources() {
        sources.push(source)?;
    }
    Ok(sources)
}

// Whether the query is of a router with a lower address than the router's own.
fn is_lower_querier(world: &World, iface: IfaceId, from: Addr) -> bool
    ensures { result ≡ is_lower_querier world.now iface.number from.bits }
{
    from.bits > 0 && from.bits < world.address(iface).bits
}

// Lowers the timers of the query's group, or of its sources, unless S is set; by a general query none.
#[tactic(auto, unfolding(pim_model::specs::Querier::lower_queried))]
fn lower_queried(
    world: &mut World,
    meter: &mut Meter,
    alloc: Global,
    iface: IfaceId,
    query: &QueryView<'_>,
) -> Result<(), AllocError>
    ensures { OnOk result (world.new ≡ lower_queried world.old iface.number query.now) }
{
    let group = query.group();
    if query.is_suppress() || group.bits == 0 {
        return Ok(());
    }
    let end = query_end(world, iface);
    let sources = sources_of(alloc, query)?;
    if sources.is_empty() {
        return world.lower_group(iface, group, end, meter);
    }
    lower_sources(world, meter, IfaceGroup { iface, group }, &sources, end)
}

// Takes the router that sent the query for the querier.
fn elect(world: &mut World, iface: IfaceId, query: &QueryView<'_>) -> Result<(), AllocError>
    ensures { OnOk result (world.new ≡ querier_elected world.old iface.number query.now.robustness
        (code_value query.now.interval_code)) }
{
    let interval = code_value(query.interval_code());
    querier_elected(world, iface, query.robustness(), interval)
}

/// Takes a query that came on an interface from an address. A router with a lower address than the router's own becomes
/// the querier, and its values are adopted. With S clear the query lowers the timers of what it queries. The meter rises
/// by the nodes visited.
#[tactic(auto, unfolding(pim_model::specs::Querier::query_seen))]
pub fn query_seen(
    world: &mut World,
    turn: &mut Turn,
    meter: &mut Meter,
    iface: IfaceId,
    from: Addr,
    query: &QueryView<'_>,
) -> Result<(), AllocError>
    ensures state { OnOk result (world.new ≡ query_seen world.old iface.number from.bits query.now) }
    ensures silent { turn.new ≡ turn.old }
{
    if is_lower_querier(world, iface, from) {
        elect(world, iface, query)?;
    }
    lower_queried(world, meter, turn.alloc, iface, query)
}
