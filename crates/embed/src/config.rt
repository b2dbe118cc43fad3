//! The configurations of the routers, and their routes.
use pim_types::{
    Addr, Config, IfaceId, InterfaceConfig, Prefix, Route, RpRange, Series, SptSwitch,
};
use std::alloc::{AllocError, Global};

/// The addresses of the interfaces, each of 24 bits' length.
const ADDRESSES: [[u8; 4]; 3] = [[10, 0, 0, 2], [10, 0, 1, 1], [10, 0, 2, 1]];

/// 10.0.0.2/24, on the way to the RP and to the sources.
pub const ABOVE: IfaceId = IfaceId { number: 0 };

/// 10.0.1.1/24, where 10.0.1.2 joins.
pub const BELOW: IfaceId = IfaceId { number: 1 };

/// 10.0.2.1/24.
pub const BESIDE: IfaceId = IfaceId { number: 2 };

/// Two interfaces, without routes; 10.0.0.1 is the RP of all groups.
pub fn small(alloc: Global) -> Result<Config, AllocError> {
    config(alloc, &ADDRESSES[..2], [10, 0, 0, 1], Series::new(alloc))
}

/// Three interfaces, with routes; 10.9.9.9 is the RP of all groups.
pub fn routed(alloc: Global) -> Result<Config, AllocError> {
    config(alloc, &ADDRESSES, [10, 9, 9, 9], routes(alloc)?)
}

fn config(
    alloc: Global,
    addresses: &[[u8; 4]],
    rp: [u8; 4],
    routes: Series<Route>,
) -> Result<Config, AllocError> {
    let mut interfaces = Series::new(alloc);
    for octets in addresses {
        interfaces.push(InterfaceConfig {
            address: Addr::from(*octets),
            length: 24,
            priority: InterfaceConfig::DEFAULT_PRIORITY,
            propagation_delay: InterfaceConfig::DEFAULT_PROPAGATION_DELAY,
            override_interval: InterfaceConfig::DEFAULT_OVERRIDE_INTERVAL,
        })?;
    }
    let mut rps = Series::new(alloc);
    rps.push(RpRange {
        prefix: prefix([224, 0, 0, 0], 4),
        rp: Addr::from(rp),
    })?;
    Ok(Config {
        interfaces,
        limit: Config::DEFAULT_LIMIT,
        spt: SptSwitch::Always,
        robustness: Config::DEFAULT_ROBUSTNESS,
        query_interval: Config::DEFAULT_QUERY_INTERVAL,
        query_response_interval: Config::DEFAULT_QUERY_RESPONSE_INTERVAL,
        last_member_query_interval: Config::DEFAULT_LAST_MEMBER_QUERY_INTERVAL,
        routes,
        rps,
        addresses: Series::new(alloc),
    })
}

fn prefix(octets: [u8; 4], length: u32) -> Prefix {
    Prefix {
        address: Addr::from(octets),
        length,
    }
}

/// The routes to the RP and to the sources, by 10.0.0.1.
pub fn routes(alloc: Global) -> Result<Series<Route>, AllocError> {
    let mut routes = Series::new(alloc);
    for (octets, length) in [
        ([10, 9, 9, 0], 24),
        ([10, 0, 3, 0], 24),
        ([10, 64, 0, 0], 16),
    ] {
        routes.push(Route {
            prefix: prefix(octets, length),
            next_hop: Addr::from([10, 0, 0, 1]),
            iface: ABOVE,
            preference: 110,
            metric: 20,
        })?;
    }
    Ok(routes)
}

/// The routes of the play, and one more by 10.0.2.9.
pub fn routes_with(alloc: Global, beside: Prefix) -> Result<Series<Route>, AllocError> {
    let mut routes = routes(alloc)?;
    routes.push(Route {
        prefix: beside,
        next_hop: Addr::from([10, 0, 2, 9]),
        iface: BESIDE,
        preference: 110,
        metric: 20,
    })?;
    Ok(routes)
}
