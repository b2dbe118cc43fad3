//! The key of all facts and timers, and the row of each kind of fact.
ghost use Rattle.std.specs.Prelude.{◌≡◌, ◌<◌, ◌^◌};
ghost use Rattle.std.proofs.Common.{refl};
ghost use Rattle.std.specs.Cmp.{partial_order_from_agreeing_total};
ghost use Rattle.std.specs.Ordering.{as_partial_cmp};
ghost use Rattle.pim_types.specs.FieldOrder.{fields_cmp, fields_tied, fields_total};
ghost use Rattle.pim_types.specs.Keys.{iface_key, neighbour_key, rpt_key, source_in, source_key, star_key};
ghost use Rattle.pim_types.specs.Packed.{lower, source_number, upper};

use crate::config::IfaceId;
use crate::name::SourceGroup;
use crate::path::Hop;
use pim_ip::{Addr, LanDelay};
use std::cmp::Ordering;

/// The key of every fact and of every timer. A field that a fact doesn't have is 0, or `None`: a fact of the whole
/// router has interface 0, and a fact of an interface has group 0.0.0.0. `source: None` is (*,G). A neighbour's address
/// is in `source`. Keys compare by these fields in this order.
#[derive(Clone, Copy, PartialEq, Eq, Hash)]
pub struct Key {
    pub iface: IfaceId,
    pub group: Addr,
    pub source: Option<Addr>,
    /// (S,G,rpt) in place of (S,G).
    pub rpt: bool,
}

impl PartialOrd for Key {
    ghost partial_cmp = { as_partial_cmp fields_cmp };

    ghost laws = { partial_order_from_agreeing_total fields_cmp fields_total (λ k q. refl) fields_tied };

    fn partial_cmp(&self, other: &Key) -> Option<Ordering> {
        Some(self.cmp(other))
    }
}

// A look-up in an ordered table compares about ten keys, and two numbers are compared faster than four fields.
impl Ord for Key {
    ghost cmp = { fields_cmp };

    ghost total = { fields_total };

    ghost matches_partial_cmp = { λ k q. refl };

    ghost matches_eq = { fields_tied };

    fn cmp(&self, other: &Key) -> Ordering {
        let (one, two) = (self.upper(), other.upper());
        if one != two {
            return one.cmp(&two);
        }
        self.lower().cmp(&other.lower())
    }
}

impl Key {
    // The interface and the group, as one number.
    fn upper(self) -> u64
        ensures number { result ≡ upper self }
        ensures in_range { self.group.bits < 2 ^ 32 }
    {
        u64::from(self.iface.number) << 32 | u64::from(self.group.bits)
    }

    // The source and whether the state is (S,G,rpt), as one number.
    fn lower(self) -> u64
        ensures { result ≡ lower self }
    {
        source_number(self.source) << 1 | u64::from(self.rpt)
    }

    /// The key of (*,G) on an interface.
    pub fn star(iface: IfaceId, group: Addr) -> Key
        ensures { result ≡ star_key iface.number group.bits }
    {
        Key {
            iface,
            group,
            source: None,
            rpt: false,
        }
    }

    /// The key of (S,G) on an interface.
    pub fn source(iface: IfaceId, group: Addr, source: Addr) -> Key
        ensures { result ≡ source_key iface.number group.bits source.bits }
    {
        Key {
            iface,
            group,
            source: Some(source),
            rpt: false,
        }
    }

    /// The key of (S,G,rpt) on an interface.
    pub fn source_rpt(iface: IfaceId, group: Addr, source: Addr) -> Key
        ensures { result ≡ rpt_key iface.number group.bits source.bits }
    {
        Key {
            iface,
            group,
            source: Some(source),
            rpt: true,
        }
    }

    /// The key of an interface.
    pub fn iface(iface: IfaceId) -> Key
        ensures { result ≡ iface_key iface.number }
    {
        Key::star(iface, Addr::NONE)
    }

    /// The key of a neighbour on an interface.
    pub fn neighbour(iface: IfaceId, address: Addr) -> Key
        ensures { result ≡ neighbour_key iface.number address.bits }
    {
        Key::source(iface, Addr::NONE, address)
    }

    /// The key of (*,G) of the whole router.
    pub fn group(group: Addr) -> Key
        ensures { result ≡ star_key 0 group.bits }
    {
        Key::star(IfaceId::NONE, group)
    }

    /// The source, or a neighbour's address; 0.0.0.0 for a key with neither.
    pub fn address(self) -> Addr
        ensures { result.bits ≡ source_in self }
    {
        self.source.unwrap_or(Addr::NONE)
    }

    /// The source and the group of a key of (S,G) or (S,G,rpt). A key of (*,G) has 0.0.0.0 as its source.
    pub fn name(self) -> SourceGroup
        ensures source { result.source.bits ≡ source_in self }
        ensures group { result.group ≡ self.group }
    {
        SourceGroup {
            source: self.address(),
            group: self.group,
        }
    }

    /// The neighbour that the key of a neighbour's row names: its interface and address.
    pub fn hop(self) -> Hop
        ensures iface { result.iface ≡ self.iface }
        ensures address { result.address.bits ≡ source_in self }
    {
        Hop {
            iface: self.iface,
            address: self.address(),
        }
    }
}

// A source as a number: no source is 0, and below all others.
fn source_number(source: Option<Addr>) -> u64
    ensures number { result ≡ source_number source }
    ensures bound { result < 2 ^ 33 }
{
    match source {
        Some(source) => 1 << 32 | u64::from(source.bits),
        None => 0,
    }
}

/// An interface that is up.
#[derive(Clone, Copy)]
pub struct InterfaceRow {
    /// The generation ID that the router announces.
    pub generation: u32,
    /// When the next Hello leaves, in ms.
    pub hello_end: u64,
    /// Whether a Hello goes before the next Join/Prune or Assert.
    pub is_hello_owed: bool,
}

/// A neighbour, by its last Hello.
#[derive(Clone, Copy)]
pub struct NeighbourRow {
    /// When its holdtime expires, in ms; `None` never expires.
    pub end: Option<u64>,
    pub lan_delay: Option<LanDelay>,
    pub priority: Option<u32>,
    pub generation: Option<u32>,
}

/// Whether the router queries on an interface (RFC 3376, section 6.6.2).
#[derive(Clone, Copy)]
pub enum QuerierRole {
    /// The router queries: when the next general query leaves, in ms, and how many of the startup queries are still to
    /// leave with it.
    Querier { next_query: u64, startup_left: u8 },
    /// Another router queries. The router takes over at this timestamp, in ms, unless it hears a query before.
    NonQuerier { end: u64 },
}

/// The querier's state on an interface that is up.
#[derive(Clone, Copy)]
pub struct QuerierRow {
    pub role: QuerierRole,
    /// The robustness variable in force.
    pub robustness: u8,
    /// The query interval in force, in seconds.
    pub query_interval: u16,
}

/// A group record. It is in EXCLUDE mode exactly while its timer runs.
#[derive(Clone, Copy)]
pub struct GroupRecordRow {
    pub end: Option<u64>,
}

/// A source of a group record. A source without a running timer is excluded.
#[derive(Clone, Copy)]
pub struct SourceRecordRow {
    pub end: Option<u64>,
}

/// Repeats of a group-specific query that are still to leave.
#[derive(Clone, Copy)]
pub struct GroupRepeatRow {
    pub next: u64,
    pub left: u32,
}

/// When the sources of a group with sendings left are queried again.
#[derive(Clone, Copy)]
pub struct SourceRepeatRow {
    pub next: u64,
}

/// How often a source is still to be named in a group-and-source-specific query, at least once.
#[derive(Clone, Copy)]
pub struct SendingRow {
    pub left: u32,
}

/// A downstream state (RFC 7761, sections 4.5.1 to 4.5.3). With a pending end it is Prune-Pending. Without one it is
/// Join, or Prune for (S,G,rpt).
#[derive(Clone, Copy)]
pub struct DownstreamRow {
    /// When its expiry timer expires, in ms; `None` never expires.
    pub expiry: Option<u64>,
    pub pending: Option<u64>,
}

/// The metric of an Assert (RFC 7761, section 4.6.3).
#[derive(Clone, Copy)]
pub struct AssertMetric {
    /// The R bit: the data came on the shared tree.
    pub rpt: bool,
    pub preference: u32,
    pub metric: u32,
    pub address: Addr,
}

/// Who forwards on the link.
#[derive(Clone, Copy)]
pub enum AssertRole {
    Winner,
    Loser,
}

/// A decided assert: the winner's metric, which is the router's own where it is the winner.
#[derive(Clone, Copy)]
pub struct AssertRow {
    pub role: AssertRole,
    pub winner: AssertMetric,
    pub end: u64,
}

/// When the next Join of an upstream state leaves, in ms.
#[derive(Clone, Copy)]
pub struct JoinTimerRow {
    pub end: u64,
}

/// When a Join(S,G,rpt) leaves that overrides another router's Prune, in ms.
#[derive(Clone, Copy)]
pub struct OverrideTimerRow {
    pub end: u64,
}

/// A source whose keepalive timer runs, or whose SPTbit is set.
#[derive(Clone, Copy)]
pub struct SourceRow {
    pub keepalive: Option<u64>,
    pub spt: bool,
}

/// A source that the router registers with the RP (RFC 7761, section 4.4.1).
#[derive(Clone, Copy)]
pub enum RegisterState {
    Join,
    JoinPending { end: u64 },
    Prune { end: u64 },
}

#[derive(Clone, Copy)]
pub struct RegisterRow {
    pub state: RegisterState,
}
