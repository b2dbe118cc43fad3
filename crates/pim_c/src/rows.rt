//! Rows of tables as C reads them: the columns of each kind of row in a value of their own.
ghost use Rattle.std.specs.Prelude.{◌≡◌, Some};
ghost use Rattle.pim_rows.specs.declared.table.Row.{Row};
ghost use Rattle.pim_c.specs.Rows.{blank, downstream_number, is_loser_role, register_number, row_of};
ghost use Rattle.pim_c.specs.Returned.{source_or_zero};
ghost use Rattle.pim_c.specs.Written.{ValueWritten};
ghost use Rattle.std.specs.List.{slice_get};

use crate::returned::NEVER;
use pim_rows::Row;
use pim_rows::table::{DownstreamState, RegisterName};
use pim_types::fact::AssertRole;
use pim_types::{Addr, IfaceId, Key};

/// A neighbour.
#[repr(C)]
#[derive(Drop)]
pub struct NeighbourColumns {
    pub iface: u32,
    /// The neighbour's.
    pub address: u32,
    /// When its holdtime expires, in ms, or `NEVER`.
    pub end: u64,
}

/// A group record.
#[repr(C)]
#[derive(Drop)]
pub struct GroupColumns {
    pub iface: u32,
    pub group: u32,
    /// Every source but those that they exclude; else only the sources of the rows of S.
    pub is_exclude: bool,
    /// When EXCLUDE mode ends, in ms; `NEVER` in INCLUDE mode.
    pub end: u64,
}

/// A source record.
#[repr(C)]
#[derive(Drop)]
pub struct SourceColumns {
    pub iface: u32,
    pub group: u32,
    pub source: u32,
    /// Until when they want it, in ms; `NEVER` where they exclude it.
    pub end: u64,
}

/// A downstream state.
#[repr(C)]
#[derive(Drop)]
pub struct DownstreamColumns {
    pub iface: u32,
    pub group: u32,
    /// 0 for (*,G).
    pub source: u32,
    /// Of (S,G,rpt); else of (*,G) or (S,G).
    pub is_rpt: bool,
    /// VIQ_JOINED, VIQ_PRUNE_PENDING or VIQ_PRUNED.
    pub state: u32,
    /// When the Expiry Timer expires, in ms, or `NEVER`.
    pub end: u64,
    /// When the Prune-Pending Timer expires, in ms; `NEVER` in another state.
    pub pending: u64,
}

/// An assert.
#[repr(C)]
#[derive(Drop)]
pub struct AssertColumns {
    pub iface: u32,
    pub group: u32,
    /// 0 for (*,G).
    pub source: u32,
    /// The router lost it; else it won.
    pub is_loser: bool,
    /// The winner's address: the router's own where it won.
    pub winner: u32,
    /// When the Assert Timer expires, in ms.
    pub end: u64,
}

/// An upstream state that is joined.
#[repr(C)]
#[derive(Drop)]
pub struct UpstreamColumns {
    pub group: u32,
    /// 0 for (*,G).
    pub source: u32,
    /// When the next Join leaves, in ms.
    pub next_join: u64,
}

/// An upstream (S,G,rpt) state of a joined group.
#[repr(C)]
#[derive(Drop)]
pub struct RptColumns {
    pub group: u32,
    pub source: u32,
    /// The router pruned it off the shared tree.
    pub is_pruned: bool,
}

/// A source with its register.
#[repr(C)]
#[derive(Drop)]
pub struct ActiveColumns {
    pub group: u32,
    pub source: u32,
    /// When the keepalive timer expires, in ms; `NEVER` where it doesn't run.
    pub keepalive: u64,
    /// SPTbit(S,G).
    pub spt_bit: bool,
    /// Of the register at the source's DR, VIQ_REGISTER_..; VIQ_REGISTER_NONE elsewhere.
    pub register_state: u32,
}

/// A row of a table. The columns of other kinds than the row's are 0.
#[repr(C)]
#[derive(Drop)]
pub struct CRow {
    /// The letter of the table.
    pub table: u32,
    pub neighbour: NeighbourColumns,
    pub group: GroupColumns,
    pub source: SourceColumns,
    pub downstream: DownstreamColumns,
    pub asserted: AssertColumns,
    pub upstream: UpstreamColumns,
    pub rpt: RptColumns,
    pub active: ActiveColumns,
}

// The source of a row as C reads it: 0 for (*,G).
fn source_or_zero(source: Option<Addr>) -> u32
    ensures { result ≡ source_or_zero source }
{
    match source {
        Some(address) => address.bits,
        None => 0,
    }
}

// A downstream state as C reads it.
fn downstream_number(state: DownstreamState) -> u32
    ensures { result ≡ downstream_number state }
{
    match state {
        DownstreamState::Join => 1,
        DownstreamState::PrunePending => 2,
        DownstreamState::Prune => 3,
    }
}

// A register state as C reads it; 0 is NoInfo.
fn register_number(register: Option<RegisterName>) -> u32
    ensures { result ≡ register_number register }
{
    match register {
        None => 0,
        Some(RegisterName::Join) => 1,
        Some(RegisterName::JoinPending) => 2,
        Some(RegisterName::Prune) => 3,
    }
}

// Whether the role in an assert is that of the loser.
fn is_loser(role: AssertRole) -> bool
    ensures { result ≡ is_loser_role role }
{
    match role {
        AssertRole::Winner => false,
        AssertRole::Loser => true,
    }
}

// A row of the table of the letter, with no columns yet.
fn blank(letter: u8) -> CRow
    ensures { result ≡ blank letter }
{
    CRow {
        table: u32::from(letter),
        neighbour: NeighbourColumns {
            iface: 0,
            address: 0,
            end: 0,
        },
        group: GroupColumns {
            iface: 0,
            group: 0,
            is_exclude: false,
            end: 0,
        },
        source: SourceColumns {
            iface: 0,
            group: 0,
            source: 0,
            end: 0,
        },
        downstream: DownstreamColumns {
            iface: 0,
            group: 0,
            source: 0,
            is_rpt: false,
            state: 0,
            end: 0,
            pending: 0,
        },
        asserted: AssertColumns {
            iface: 0,
            group: 0,
            source: 0,
            is_loser: false,
            winner: 0,
            end: 0,
        },
        upstream: UpstreamColumns {
            group: 0,
            source: 0,
            next_join: 0,
        },
        rpt: RptColumns {
            group: 0,
            source: 0,
            is_pruned: false,
        },
        active: ActiveColumns {
            group: 0,
            source: 0,
            keepalive: 0,
            spt_bit: false,
            register_state: 0,
        },
    }
}

// A neighbour's row as C reads it.
fn neighbour_row(iface: IfaceId, address: Addr, end: Option<u64>) -> CRow
    ensures { result ≡ row_of (Row.Neighbour iface address end) }
{
    let neighbour = NeighbourColumns {
        iface: iface.number,
        address: address.bits,
        end: end.unwrap_or(NEVER),
    };
    CRow {
        neighbour,
        ..blank(b'N')
    }
}

// A group record's row as C reads it.
fn group_row(iface: IfaceId, group: Addr, is_exclude: bool, end: Option<u64>) -> CRow
    ensures { result ≡ row_of (Row.Group iface group is_exclude end) }
{
    let group = GroupColumns {
        iface: iface.number,
        group: group.bits,
        is_exclude,
        end: end.unwrap_or(NEVER),
    };
    CRow {
        group,
        ..blank(b'G')
    }
}

// A source record's row as C reads it.
fn source_row(iface: IfaceId, group: Addr, source: Addr, end: Option<u64>) -> CRow
    ensures { result ≡ row_of (Row.Source iface group source end) }
{
    let source = SourceColumns {
        iface: iface.number,
        group: group.bits,
        source: source.bits,
        end: end.unwrap_or(NEVER),
    };
    CRow {
        source,
        ..blank(b'S')
    }
}

// A downstream state's row as C reads it.
fn downstream_row(key: Key, state: DownstreamState, end: Option<u64>, pending: Option<u64>) -> CRow
    ensures { result ≡ row_of (Row.Downstream key state end pending) }
{
    let downstream = DownstreamColumns {
        iface: key.iface.number,
        group: key.group.bits,
        source: source_or_zero(key.source),
        is_rpt: key.rpt,
        state: downstream_number(state),
        end: end.unwrap_or(NEVER),
        pending: pending.unwrap_or(NEVER),
    };
    CRow {
        downstream,
        ..blank(b'D')
    }
}

// An assert's row as C reads it.
fn asserted_row(key: Key, role: AssertRole, winner: Addr, end: u64) -> CRow
    ensures { result ≡ row_of (Row.Assert key role winner end) }
{
    let asserted = AssertColumns {
        iface: key.iface.number,
        group: key.group.bits,
        source: source_or_zero(key.source),
        is_loser: is_loser(role),
        winner: winner.bits,
        end,
    };
    CRow {
        asserted,
        ..blank(b'A')
    }
}

// An upstream state's row as C reads it.
fn upstream_row(group: Addr, source: Option<Addr>, next_join: u64) -> CRow
    ensures { result ≡ row_of (Row.Upstream group source next_join) }
{
    let upstream = UpstreamColumns {
        group: group.bits,
        source: source_or_zero(source),
        next_join,
    };
    CRow {
        upstream,
        ..blank(b'U')
    }
}

// An (S,G,rpt) upstream state's row as C reads it.
fn rpt_row(group: Addr, source: Addr, is_pruned: bool) -> CRow
    ensures { result ≡ row_of (Row.Tree group source is_pruned) }
{
    let rpt = RptColumns {
        group: group.bits,
        source: source.bits,
        is_pruned,
    };
    CRow { rpt, ..blank(b'R') }
}

// A source's row, with its register, as C reads it.
fn active_row(
    group: Addr,
    source: Addr,
    keepalive: Option<u64>,
    spt: bool,
    register: Option<RegisterName>,
) -> CRow
    ensures { result ≡ row_of (Row.Active group source keepalive spt register) }
{
    let active = ActiveColumns {
        group: group.bits,
        source: source.bits,
        keepalive: keepalive.unwrap_or(NEVER),
        spt_bit: spt,
        register_state: register_number(register),
    };
    CRow {
        active,
        ..blank(b'F')
    }
}

/// A row as C reads it. Each column of each kind is named, so that none is left out.
pub fn c_row(row: &Row) -> CRow
    ensures { result ≡ row_of row.now }
{
    match *row {
        Row::Neighbour {
            iface,
            address,
            end,
        } => neighbour_row(iface, address, end),
        Row::Group {
            iface,
            group,
            is_exclude,
            end,
        } => group_row(iface, group, is_exclude, end),
        Row::Source {
            iface,
            group,
            source,
            end,
        } => source_row(iface, group, source, end),
        Row::Downstream {
            key,
            state,
            end,
            pending,
        } => downstream_row(key, state, end, pending),
        Row::Assert {
            key,
            role,
            winner,
            end,
        } => asserted_row(key, role, winner, end),
        Row::Upstream {
            group,
            source,
            next_join,
        } => upstream_row(group, source, next_join),
        Row::Tree {
            group,
            source,
            is_pruned,
        } => rpt_row(group, source, is_pruned),
        Row::Active {
            group,
            source,
            keepalive,
            spt,
            register,
        } => active_row(group, source, keepalive, spt, register),
    }
}

/// Writes out one of the rows, if it exists.
pub fn write_row(rows: &[Row], index: usize, out: &mut CRow) -> bool
    ensures { ValueWritten row_of (slice_get rows.now index) result out.old out.new }
{
    match rows.get(index) {
        Some(found) => {
            *out = c_row(found);
            true
        }
        None => false,
    }
}
