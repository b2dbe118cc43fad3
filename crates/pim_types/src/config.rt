//! The configuration of a router, its routes and its RP ranges.
use crate::series::Series;
use pim_ip::{Addr, Prefix};

/// An interface of a router, by its place in the configuration, counted from 0.
#[derive(Clone, Copy, PartialEq, Eq, PartialOrd, Ord, Hash)]
pub struct IfaceId {
    pub number: u32,
}

impl IfaceId {
    /// The interface in a key of the whole router. It is the number of interface 0, and no fact can be taken for
    /// another by it: each table has facts of interfaces only, or, as Join timers, override timers, sources and
    /// registers, facts of the whole router only. Where keys of both are in one list (the keys that a change touches),
    /// only their groups and sources are read.
    pub const NONE: IfaceId = IfaceId { number: 0 };
}

/// What is configured of an interface.
#[derive(Clone, Copy)]
pub struct InterfaceConfig {
    /// The router's address on the link.
    pub address: Addr,
    /// The length of the subnet's prefix, 1 to 31.
    pub length: u32,
    /// The DR priority that is announced.
    pub priority: u32,
    /// The propagation delay that is announced, in ms, at most 32767.
    pub propagation_delay: u32,
    /// The override interval that is announced, in ms, at most 65535.
    pub override_interval: u32,
}

impl InterfaceConfig {
    /// The configuration that is read for an interface that isn't configured.
    pub const UNCONFIGURED: InterfaceConfig = InterfaceConfig {
        address: Addr { bits: 0 },
        length: 0,
        priority: 0,
        propagation_delay: 0,
        override_interval: 0,
    };

    /// The announced DR priority where none is configured.
    pub const DEFAULT_PRIORITY: u32 = 1;
    /// The announced propagation delay where none is configured, in ms.
    pub const DEFAULT_PROPAGATION_DELAY: u32 = 500;
    /// The announced override interval where none is configured, in ms.
    pub const DEFAULT_OVERRIDE_INTERVAL: u32 = 2500;
}

/// The value of a place for an interface before one is put there.
impl Default for InterfaceConfig {
    fn default() -> Self {
        Self::UNCONFIGURED
    }
}

/// Whether the router leaves the shared tree for the shortest path tree: `SwitchToSptDesired(S,G)`
/// of RFC 7761, section 4.2.1.
#[derive(Clone, Copy)]
pub enum SptSwitch {
    Always,
    Never,
}

/// A unicast route.
#[derive(Clone, Copy)]
pub struct Route {
    pub prefix: Prefix,
    pub next_hop: Addr,
    pub iface: IfaceId,
    /// The preference of the protocol that the route comes from, at most 0x7FFFFFFE; the lower is
    /// better.
    pub preference: u32,
    pub metric: u32,
}

/// A range of groups and its RP.
#[derive(Clone, Copy)]
pub struct RpRange {
    pub prefix: Prefix,
    pub rp: Addr,
}

/// An RP of a range of groups, where several may be RPs of one range: for each group one of them is chosen (RFC 7761,
/// section 4.7.1).
#[derive(Clone, Copy)]
pub struct RpCandidate {
    pub prefix: Prefix,
    pub rp: Addr,
    /// The RP's priority for the range, at most 255; the lower number is preferred.
    pub priority: u32,
    /// The length of the mask of the hash function (section 4.7.2), at most 32.
    pub hash_length: u32,
}

/// What RP(G) is chosen from.
pub struct RpTable {
    /// The RP ranges, each of which has one RP.
    pub static_ranges: Series<RpRange>,
    pub candidates: Series<RpCandidate>,
}

// Written out, so that it is proved once (docs/PROOF_NOTES.md, Drops).
impl Drop for RpTable {
    fn drop(self) {
        let RpTable {
            static_ranges: _,
            candidates: _,
        } = self;
    }
}

/// The configuration that a router is made of.
pub struct Config {
    /// The interfaces in the order of their numbers, 1 to 120.
    pub interfaces: Series<InterfaceConfig>,
    /// The limit on counted facts, 1 to 1,000,000.
    pub limit: u32,
    pub spt: SptSwitch,
    /// The robustness variable of IGMP, 2 to 7.
    pub robustness: u32,
    /// The query interval, in seconds, 1 to 31744.
    pub query_interval: u32,
    /// The query response interval, in tenths of a second, 1 to 31744 and below the query interval.
    pub query_response_interval: u32,
    /// IGMP's last member query interval (RFC 3376, section 8.8), in tenths of a second, 1 to 255.
    pub last_member_query_interval: u32,
    pub routes: Series<Route>,
    pub rps: Series<RpRange>,
    /// The router's own addresses that are of no interface, as a loopback's: at most 16, none twice, none in the subnet
    /// of an interface.
    pub addresses: Series<Addr>,
}

// Written out, so that it is proved once (docs/PROOF_NOTES.md, Drops).
impl Drop for Config {
    fn drop(self) {
        let Config {
            interfaces: _,
            limit: _,
            spt: _,
            robustness: _,
            query_interval: _,
            query_response_interval: _,
            last_member_query_interval: _,
            routes: _,
            rps: _,
            addresses: _,
        } = self;
    }
}

/// A configuration without its lists.
#[derive(Clone, Copy)]
pub struct Settings {
    /// The limit on counted facts, 1 to 1,000,000.
    pub limit: u32,
    pub spt: SptSwitch,
    /// The robustness variable of IGMP, 2 to 7.
    pub robustness: u32,
    /// The query interval, in seconds, 1 to 31744.
    pub query_interval: u32,
    /// The query response interval, in tenths of a second, 1 to 31744 and below the query interval.
    pub query_response_interval: u32,
    /// IGMP's last member query interval (RFC 3376, section 8.8), in tenths of a second, 1 to 255.
    pub last_member_query_interval: u32,
}

impl Config {
    pub const DEFAULT_LIMIT: u32 = 65536;

    pub const DEFAULT_ROBUSTNESS: u32 = 2;
    /// In seconds.
    pub const DEFAULT_QUERY_INTERVAL: u32 = 125;
    /// In tenths of a second.
    pub const DEFAULT_QUERY_RESPONSE_INTERVAL: u32 = 100;
    /// In tenths of a second.
    pub const DEFAULT_LAST_MEMBER_QUERY_INTERVAL: u32 = 10;
}
