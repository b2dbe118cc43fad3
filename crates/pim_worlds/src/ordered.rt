//! A configuration in an order of its interfaces.
ghost use Rattle.law_states.specs.Placing.{in_order, interfaces_at, route_in_order};
ghost use Rattle.law_states.specs.Reload.{config_of};
ghost use Rattle.pim_ip.specs.declared.fault.Fault.{Fault};
ghost use Rattle.pim_model.specs.Limits.{config_test};
ghost use Rattle.pim_model.specs.State.{opening};
ghost use Rattle.std.specs.Prelude.{◌≡◌, ◌≤◌, IfErr, IfOk, Ok, length, map, slice_get};

use crate::numbers::index_of;
use crate::rows::copied;
use pim_state::{Meter, World};
use pim_types::{Config, Fault, IfaceId, InterfaceConfig, Route, Series};
use std::alloc::{AllocError, Global};

// The interface at a place, if there is one.
fn interface_at(configured: &[InterfaceConfig], place: u32) -> Option<InterfaceConfig>
    ensures { result ≡ slice_get configured.now place }
{
    configured.get(place as usize).copied()
}

// The interfaces at these places, in their order.
fn interfaces_at(
    alloc: Global,
    configured: &[InterfaceConfig],
    order: &[u32],
) -> Result<Vec<InterfaceConfig>, AllocError>
    ensures { IfOk result (λ made. made.items ≡ interfaces_at configured.now order.now) }
{
    let mut made = Vec::new(alloc);
    for place in order {
        if let Some(interface) = interface_at(configured, *place) {
            made.push(interface)?;
        }
    }
    Ok(made)
}

// A route whose interface has its index in the order.
fn route_in_order(order: &[u32], route: Route) -> Route
    requires { length order.now ≤ 120 }
    ensures { result ≡ route_in_order order.now route }
{
    let iface = IfaceId {
        number: index_of(order, route.iface.number),
    };
    Route { iface, ..route }
}

// Routes whose interfaces have their indices in the order.
fn routes_in_order(alloc: Global, order: &[u32], routes: &[Route]) -> Result<Vec<Route>, AllocError>
    requires { length order.now ≤ 120 }
    ensures { IfOk result (λ made. made.items ≡ map (route_in_order order.now) routes.now) }
{
    let mut made = Vec::new(alloc);
    for route in routes {
        made.push(route_in_order(order, *route))?;
    }
    Ok(made)
}

// The configuration of a world with its interfaces in the order.
#[tactic(auto, unfolding(law_states::specs::Placing::in_order, law_states::specs::Reload::config_of))]
fn in_order(alloc: Global, order: &[u32], world: &World) -> Result<Config, AllocError>
    requires { length order.now ≤ 120 }
    ensures { IfOk result (λ config. config ≡ in_order order.now (config_of world.now)) }
{
    let interfaces = interfaces_at(alloc, world.interfaces().configured(), order)?;
    let routes = routes_in_order(alloc, order, world.routes())?;
    let rps = copied(alloc, world.static_ranges())?;
    let addresses = copied(alloc, world.interfaces().addresses())?;
    let settings = world.settings();
    Ok(Config {
        interfaces: Series::from_vec(interfaces),
        limit: settings.limit,
        spt: settings.spt,
        robustness: settings.robustness,
        query_interval: settings.query_interval,
        query_response_interval: settings.query_response_interval,
        last_member_query_interval: settings.last_member_query_interval,
        routes: Series::from_vec(routes),
        rps: Series::from_vec(rps),
        addresses: Series::from_vec(addresses),
    })
}

/// The world that opens with the configuration of another, its interfaces in the order. The fault is want of memory.
pub fn world_in_order(
    alloc: Global,
    order: &[u32],
    world: &World,
    meter: &mut Meter,
) -> Result<World, Fault>
    requires few { length order.now ≤ 120 }
    requires accepted { config_test (in_order order.now (config_of world.now)) ≡ Ok tt }
    ensures opens { IfOk result (λ made. made ≡ opening (in_order order.now (config_of world.now))) }
    ensures memory { IfErr result (λ fault. fault ≡ Fault.Memory) }
{
    let config = in_order(alloc, order, world)?;
    match World::new(alloc, &config, meter)? {
        Ok(made) => Ok(made),
        Err(_) => unreachable!(),
    }
}
