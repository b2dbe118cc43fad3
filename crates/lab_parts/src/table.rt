//! The lines of printed tables.
use igmp_older::{Mode, OlderRow};
use pim_rows::Row;
use pim_rows::table::{DownstreamState, RegisterName};
use pim_types::fact::AssertRole;
use pim_types::{Addr, IfaceId, Key};
use std::fmt;

/// A row of a table.
#[derive(Clone, Copy)]
pub struct RowLine {
    pub row: Row,
}

// Each kind of row is written by a function of its own: one body that borrows the values of all kinds is slow to prove.
impl fmt::Display for RowLine {
    fn fmt<W: fmt::Write>(&self, f: &mut fmt::Formatter<W>) -> fmt::Result {
        match self.row {
            Row::Neighbour {
                iface,
                address,
                end,
            } => write_neighbour(f, iface, address, End(end)),
            Row::Group {
                iface,
                group,
                is_exclude,
                end,
            } => write_group(f, iface, group, is_exclude, End(end)),
            Row::Source {
                iface,
                group,
                source,
                end,
            } => write_source(f, iface, group, source, Absent(end)),
            Row::Downstream {
                key,
                state,
                end,
                pending,
            } => write_downstream(f, key, state, End(end), Absent(pending)),
            Row::Assert {
                key,
                role,
                winner,
                end,
            } => write_assert(f, key, role, winner, end),
            Row::Upstream {
                group,
                source,
                next_join,
            } => write_upstream(f, group, Source(source), next_join),
            Row::Tree {
                group,
                source,
                is_pruned,
            } => write_tree(f, group, source, is_pruned),
            Row::Active {
                group,
                source,
                keepalive,
                spt,
                register,
            } => write_active(f, group, source, Absent(keepalive), spt, register),
        }
    }
}

/// A group in an older mode.
#[derive(Clone, Copy)]
pub struct OlderLine {
    pub row: OlderRow,
}

impl fmt::Display for OlderLine {
    fn fmt<W: fmt::Write>(&self, f: &mut fmt::Formatter<W>) -> fmt::Result {
        let iface = self.row.iface.number;
        let group = self.row.group;
        let mode = mode_name(self.row.mode);
        let one_end = Absent(self.row.one_end);
        let two_end = Absent(self.row.two_end);
        write!(f, "O {iface} {group} {mode} {one_end} {two_end}")
    }
}

fn mode_name(mode: Mode) -> &'static str {
    match mode {
        Mode::One => "v1",
        Mode::Two => "v2",
        Mode::Three => "v3",
    }
}

fn write_neighbour<W: fmt::Write>(
    f: &mut fmt::Formatter<W>,
    iface: IfaceId,
    address: Addr,
    end: End,
) -> fmt::Result {
    let iface = iface.number;
    write!(f, "N {iface} {address} {end}")
}

fn write_group<W: fmt::Write>(
    f: &mut fmt::Formatter<W>,
    iface: IfaceId,
    group: Addr,
    is_exclude: bool,
    end: End,
) -> fmt::Result {
    let iface = iface.number;
    let mode = if is_exclude { "exclude" } else { "include" };
    write!(f, "G {iface} {group} {mode} {end}")
}

fn write_source<W: fmt::Write>(
    f: &mut fmt::Formatter<W>,
    iface: IfaceId,
    group: Addr,
    source: Addr,
    end: Absent,
) -> fmt::Result {
    let iface = iface.number;
    write!(f, "S {iface} {group} {source} {end}")
}

fn write_downstream<W: fmt::Write>(
    f: &mut fmt::Formatter<W>,
    key: Key,
    state: DownstreamState,
    end: End,
    pending: Absent,
) -> fmt::Result {
    let place = Place(key);
    let kind = kind_of(key);
    let state = downstream_name(state);
    write!(f, "D {place} {kind} {state} {end} {pending}")
}

fn write_assert<W: fmt::Write>(
    f: &mut fmt::Formatter<W>,
    key: Key,
    role: AssertRole,
    winner: Addr,
    end: u64,
) -> fmt::Result {
    let place = Place(key);
    let role = role_name(role);
    write!(f, "A {place} {role} {winner} {end}")
}

fn write_upstream<W: fmt::Write>(
    f: &mut fmt::Formatter<W>,
    group: Addr,
    source: Source,
    next_join: u64,
) -> fmt::Result {
    write!(f, "U {group} {source} {next_join}")
}

fn write_tree<W: fmt::Write>(
    f: &mut fmt::Formatter<W>,
    group: Addr,
    source: Addr,
    is_pruned: bool,
) -> fmt::Result {
    let state = if is_pruned { "pruned" } else { "notpruned" };
    write!(f, "R {group} {source} {state}")
}

fn write_active<W: fmt::Write>(
    f: &mut fmt::Formatter<W>,
    group: Addr,
    source: Addr,
    keepalive: Absent,
    spt: bool,
    register: Option<RegisterName>,
) -> fmt::Result {
    let spt = if spt { "spt" } else { "-" };
    let register = register_name(register);
    write!(f, "F {group} {source} {keepalive} {spt} {register}")
}

// A timestamp in ms, printed as never where there is none.
#[derive(Clone, Copy)]
struct End(Option<u64>);

impl fmt::Display for End {
    fn fmt<W: fmt::Write>(&self, f: &mut fmt::Formatter<W>) -> fmt::Result {
        match self.0 {
            Some(end) => write!(f, "{end}"),
            None => write!(f, "never"),
        }
    }
}

// A timestamp in ms that may be absent.
#[derive(Clone, Copy)]
struct Absent(Option<u64>);

impl fmt::Display for Absent {
    fn fmt<W: fmt::Write>(&self, f: &mut fmt::Formatter<W>) -> fmt::Result {
        match self.0 {
            Some(end) => write!(f, "{end}"),
            None => write!(f, "-"),
        }
    }
}

// A source, or all.
#[derive(Clone, Copy)]
struct Source(Option<Addr>);

impl fmt::Display for Source {
    fn fmt<W: fmt::Write>(&self, f: &mut fmt::Formatter<W>) -> fmt::Result {
        match self.0 {
            Some(source) => write!(f, "{source}"),
            None => write!(f, "*"),
        }
    }
}

// Interface, group and source of a key.
#[derive(Clone, Copy)]
struct Place(Key);

impl fmt::Display for Place {
    fn fmt<W: fmt::Write>(&self, f: &mut fmt::Formatter<W>) -> fmt::Result {
        let iface = self.0.iface.number;
        let group = self.0.group;
        let source = Source(self.0.source);
        write!(f, "{iface} {group} {source}")
    }
}

fn kind_of(key: Key) -> &'static str {
    match key.source {
        None => "g",
        Some(_) if key.rpt => "rpt",
        Some(_) => "sg",
    }
}

fn downstream_name(state: DownstreamState) -> &'static str {
    match state {
        DownstreamState::Join => "join",
        DownstreamState::PrunePending => "pending",
        DownstreamState::Prune => "prune",
    }
}

fn role_name(role: AssertRole) -> &'static str {
    match role {
        AssertRole::Winner => "winner",
        AssertRole::Loser => "loser",
    }
}

fn register_name(register: Option<RegisterName>) -> &'static str {
    match register {
        Some(RegisterName::Join) => "join",
        Some(RegisterName::JoinPending) => "pending",
        Some(RegisterName::Prune) => "prune",
        None => "-",
    }
}
