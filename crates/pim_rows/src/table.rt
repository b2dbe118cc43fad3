//! The rows of printed tables.
use pim_types::fact::AssertRole;
use pim_types::{Addr, IfaceId, Key};

/// A table of facts as it is printed, by the letter of its lines.
#[derive(Clone, Copy)]
pub enum Table {
    /// `N`: the neighbours.
    Neighbours,
    /// `G`: the group records.
    Groups,
    /// `S`: the source records.
    Sources,
    /// `D`: the downstream states.
    Downstream,
    /// `A`: the asserts.
    Asserts,
    /// `U`: the upstream states that are joined.
    Upstream,
    /// `R`: the upstream (S,G,rpt) states of joined groups.
    Trees,
    /// `F`: the sources, with their registers.
    Active,
}

/// A downstream state as it is printed.
#[derive(Clone, Copy)]
pub enum DownstreamState {
    Join,
    PrunePending,
    Prune,
}

/// A register state as it is printed.
#[derive(Clone, Copy)]
pub enum RegisterName {
    Join,
    JoinPending,
    Prune,
}

/// A row of a printed table: the columns of its line. A timer's `None` never expires, or isn't there.
#[derive(Clone, Copy)]
pub enum Row {
    Neighbour {
        iface: IfaceId,
        address: Addr,
        end: Option<u64>,
    },
    Group {
        iface: IfaceId,
        group: Addr,
        is_exclude: bool,
        end: Option<u64>,
    },
    Source {
        iface: IfaceId,
        group: Addr,
        source: Addr,
        end: Option<u64>,
    },
    Downstream {
        key: Key,
        state: DownstreamState,
        end: Option<u64>,
        pending: Option<u64>,
    },
    Assert {
        key: Key,
        role: AssertRole,
        winner: Addr,
        end: u64,
    },
    Upstream {
        group: Addr,
        source: Option<Addr>,
        next_join: u64,
    },
    Tree {
        group: Addr,
        source: Addr,
        is_pruned: bool,
    },
    Active {
        group: Addr,
        source: Addr,
        keepalive: Option<u64>,
        spt: bool,
        register: Option<RegisterName>,
    },
}
