//! What a program passes in: the parts of a configuration, and events.
ghost use Rattle.std.specs.Prelude.{◌≡◌, IfOk, map};
ghost use Rattle.pim_ip.specs.Addr.{addr};
ghost use Rattle.pim_c.specs.Given.{candidate_of, config_of, given_event, interface_of, place_of, range_of, route_of, rp_set_of};
ghost use Rattle.pim_types.specs.declared.event.EventKind.{EventKind};

use pim_anycast::RpSet;
use pim_types::{
    Addr, Config, Event, EventKind, IfaceId, InterfaceConfig, Prefix, Route, RpCandidate, RpRange,
    Series, SptSwitch,
};
use std::alloc::{AllocError, Global};

/// An interface. The ranges of its values are those of `pim_types::InterfaceConfig`.
#[repr(C)]
#[derive(Drop)]
pub struct GivenInterface {
    pub address: u32,
    pub length: u32,
    pub priority: u32,
    /// In ms.
    pub propagation_delay: u32,
    /// In ms.
    pub override_interval: u32,
}

/// A unicast route.
#[repr(C)]
#[derive(Drop)]
pub struct GivenRoute {
    pub prefix: u32,
    pub length: u32,
    pub next_hop: u32,
    pub iface: u32,
    pub preference: u32,
    pub metric: u32,
}

/// A range of groups and its RP.
#[repr(C)]
#[derive(Drop)]
pub struct GivenRange {
    pub prefix: u32,
    pub length: u32,
    pub rp: u32,
}

/// An RP of a range of groups, which may have several. The ranges of its values are those of `pim_types::RpCandidate`.
#[repr(C)]
#[derive(Drop)]
pub struct GivenCandidate {
    pub prefix: u32,
    pub length: u32,
    pub rp: u32,
    pub priority: u32,
    pub hash_length: u32,
}

/// A set of RPs that share an address. Which are accepted says `pim_anycast::BadRpSet`.
#[repr(C)]
#[derive(Drop)]
pub struct GivenRpSet<'a> {
    pub shared: u32,
    pub own: u32,
    pub others: &'a [u32],
}

/// A configuration without its lists, as C's settings begin. The ranges of its values are those of `pim_types::Config`.
#[repr(C)]
#[derive(Drop)]
pub struct GivenSettings {
    pub limit: u32,
    pub robustness: u32,
    /// In seconds.
    pub query_interval: u32,
    /// In tenths of a second.
    pub query_response_interval: u32,
    /// In tenths of a second.
    pub last_member_query_interval: u32,
    pub stays_on_shared_tree: bool,
}

/// A configuration: the settings, and the lists that stand beside them.
#[repr(C)]
#[derive(Drop)]
pub struct GivenConfiguration<'a> {
    pub settings: GivenSettings,
    /// The own addresses of no interface.
    pub addresses: &'a [u32],
    pub interfaces: &'a [GivenInterface],
    pub routes: &'a [GivenRoute],
    pub ranges: &'a [GivenRange],
}

// An interface of the configuration that C gives.
fn interface(given: &GivenInterface) -> InterfaceConfig
    ensures { result ≡ interface_of given.now }
{
    InterfaceConfig {
        address: Addr {
            bits: given.address,
        },
        length: given.length,
        priority: given.priority,
        propagation_delay: given.propagation_delay,
        override_interval: given.override_interval,
    }
}

// A route that C gives.
fn route(given: &GivenRoute) -> Route
    ensures { result ≡ route_of given.now }
{
    Route {
        prefix: Prefix {
            address: Addr { bits: given.prefix },
            length: given.length,
        },
        next_hop: Addr {
            bits: given.next_hop,
        },
        iface: IfaceId {
            number: given.iface,
        },
        preference: given.preference,
        metric: given.metric,
    }
}

// An RP range that C gives.
fn range(given: &GivenRange) -> RpRange
    ensures { result ≡ range_of given.now }
{
    RpRange {
        prefix: Prefix {
            address: Addr { bits: given.prefix },
            length: given.length,
        },
        rp: Addr { bits: given.rp },
    }
}

// A candidate RP that C gives.
fn candidate(given: &GivenCandidate) -> RpCandidate
    ensures { result ≡ candidate_of given.now }
{
    RpCandidate {
        prefix: Prefix {
            address: Addr { bits: given.prefix },
            length: given.length,
        },
        rp: Addr { bits: given.rp },
        priority: given.priority,
        hash_length: given.hash_length,
    }
}

// Addresses that C gives: the router's own of no interface, or those of others of a set.
fn addresses(alloc: Global, given: &[u32]) -> Result<Series<Addr>, AllocError>
    ensures { IfOk result (λ all. all ≡ map addr given.now) }
{
    let mut all = Series::new(alloc);
    for one in given {
        all.push(Addr { bits: *one })?;
    }
    Ok(all)
}

// The interfaces of the configuration that C gives.
fn interfaces(
    alloc: Global,
    given: &[GivenInterface],
) -> Result<Series<InterfaceConfig>, AllocError>
    ensures { IfOk result (λ all. all ≡ map interface_of given.now) }
{
    let mut all = Series::new(alloc);
    for one in given {
        all.push(interface(one))?;
    }
    Ok(all)
}

/// Unicast routes.
pub fn routes(alloc: Global, given: &[GivenRoute]) -> Result<Series<Route>, AllocError>
    ensures { IfOk result (λ all. all ≡ map route_of given.now) }
{
    let mut all = Series::new(alloc);
    for one in given {
        all.push(route(one))?;
    }
    Ok(all)
}

/// RP ranges.
pub fn ranges(alloc: Global, given: &[GivenRange]) -> Result<Series<RpRange>, AllocError>
    ensures { IfOk result (λ all. all ≡ map range_of given.now) }
{
    let mut all = Series::new(alloc);
    for one in given {
        all.push(range(one))?;
    }
    Ok(all)
}

/// Candidate RPs.
pub fn candidates(
    alloc: Global,
    given: &[GivenCandidate],
) -> Result<Series<RpCandidate>, AllocError>
    ensures { IfOk result (λ all. all ≡ map candidate_of given.now) }
{
    let mut all = Series::new(alloc);
    for one in given {
        all.push(candidate(one))?;
    }
    Ok(all)
}

// A set of RPs that C gives.
fn rp_set(alloc: Global, given: &GivenRpSet<'_>) -> Result<RpSet, AllocError>
    ensures { IfOk result (λ set. set ≡ rp_set_of given.now) }
{
    Ok(RpSet {
        shared: Addr { bits: given.shared },
        own: Addr { bits: given.own },
        others: addresses(alloc, given.others)?,
    })
}

/// Sets of RPs.
pub fn rp_sets(alloc: Global, given: &[GivenRpSet<'_>]) -> Result<Vec<RpSet>, AllocError>
    ensures { IfOk result (λ all. all.items ≡ map rp_set_of given.now) }
{
    let mut all = Vec::new(alloc);
    for one in given {
        all.push(rp_set(alloc, one)?)?;
    }
    Ok(all)
}

/// The number that stands for no place.
pub const NO_PLACE: u32 = 0xFFFF_FFFF;

// Where an old interface goes, by a number.
fn place(given: u32) -> Option<u32>
    ensures { result ≡ place_of given }
{
    if given == NO_PLACE {
        return None;
    }
    Some(given)
}

/// Where the old interfaces go, by their numbers.
pub fn places(alloc: Global, given: &[u32]) -> Result<Vec<Option<u32>>, AllocError>
    ensures { IfOk result (λ all. all.items ≡ map place_of given.now) }
{
    let mut all = Vec::new(alloc);
    for one in given {
        all.push(place(*one))?;
    }
    Ok(all)
}

/// The configuration that a given one describes.
pub fn config(alloc: Global, given: &GivenConfiguration<'_>) -> Result<Config, AllocError>
    ensures { IfOk result (λ config. config ≡ config_of given.now) }
{
    let interfaces = interfaces(alloc, given.interfaces)?;
    let addresses = addresses(alloc, given.addresses)?;
    let routes = routes(alloc, given.routes)?;
    let rps = ranges(alloc, given.ranges)?;
    let settings = &given.settings;
    let spt = if settings.stays_on_shared_tree {
        SptSwitch::Never
    } else {
        SptSwitch::Always
    };
    Ok(Config {
        interfaces,
        addresses,
        limit: settings.limit,
        spt,
        robustness: settings.robustness,
        query_interval: settings.query_interval,
        query_response_interval: settings.query_response_interval,
        last_member_query_interval: settings.last_member_query_interval,
        routes,
        rps,
    })
}

/// New unicast routes.
pub fn new_routes(alloc: Global, draw: u32, given: &[GivenRoute]) -> Result<Event, AllocError>
    ensures { IfOk result (λ event. event ≡ given_event draw (EventKind.Routes (map route_of given.now))) }
{
    let kind = EventKind::Routes {
        routes: routes(alloc, given)?,
    };
    Ok(Event { draw, kind })
}

/// New RP ranges.
pub fn new_ranges(alloc: Global, draw: u32, given: &[GivenRange]) -> Result<Event, AllocError>
    ensures { IfOk result (λ event. event ≡ given_event draw (EventKind.Rps (map range_of given.now))) }
{
    let kind = EventKind::Rps {
        rps: ranges(alloc, given)?,
    };
    Ok(Event { draw, kind })
}

/// New candidate RPs.
pub fn new_candidates(
    alloc: Global,
    draw: u32,
    given: &[GivenCandidate],
) -> Result<Event, AllocError>
    ensures { IfOk result (λ event. event ≡ given_event draw (EventKind.RpCandidates (map candidate_of given.now))) }
{
    let kind = EventKind::RpCandidates {
        candidates: candidates(alloc, given)?,
    };
    Ok(Event { draw, kind })
}
