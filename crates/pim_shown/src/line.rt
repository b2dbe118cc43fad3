//! The row of a fact in its printed table.
ghost use Rattle.pim_rows.specs.Printed.{assert_line, downstream_line, downstream_state, group_line, neighbour_line, source_line, upstream_line};
ghost use Rattle.pim_rows.specs.declared.table.Row.{Row};
ghost use Rattle.pim_types.specs.declared.fact.Key.{Key};
ghost use Rattle.std.specs.Prelude.{◌≡◌};

use pim_rows::Row;
use pim_rows::table::DownstreamState;
use pim_types::Key;
use pim_types::fact::{
    AssertRow, DownstreamRow, GroupRecordRow, JoinTimerRow, NeighbourRow, SourceRecordRow,
};

/// A fact whose row in its printed table depends only on its key and itself.
pub trait Printed {
    /// The row of a fact under its key.
    ghost line: { Key × Self → Row };

    /// The row of the fact under that key.
    fn line(&self, key: Key) -> Row
        ensures { result ≡ line (key, self.now) };
}

impl Printed for NeighbourRow {
    ghost line = { neighbour_line };

    fn line(&self, key: Key) -> Row {
        Row::Neighbour {
            iface: key.iface,
            address: key.address(),
            end: self.end,
        }
    }
}

impl Printed for GroupRecordRow {
    ghost line = { group_line };

    fn line(&self, key: Key) -> Row {
        Row::Group {
            iface: key.iface,
            group: key.group,
            is_exclude: self.end.is_some(),
            end: self.end,
        }
    }
}

impl Printed for SourceRecordRow {
    ghost line = { source_line };

    fn line(&self, key: Key) -> Row {
        Row::Source {
            iface: key.iface,
            group: key.group,
            source: key.address(),
            end: self.end,
        }
    }
}

// The state's name.
fn downstream_state(key: Key, row: &DownstreamRow) -> DownstreamState
    ensures { result ≡ downstream_state key row.now }
{
    if row.pending.is_some() {
        DownstreamState::PrunePending
    } else if key.rpt {
        DownstreamState::Prune
    } else {
        DownstreamState::Join
    }
}

impl Printed for DownstreamRow {
    ghost line = { downstream_line };

    fn line(&self, key: Key) -> Row {
        Row::Downstream {
            key,
            state: downstream_state(key, self),
            end: self.expiry,
            pending: self.pending,
        }
    }
}

impl Printed for AssertRow {
    ghost line = { assert_line };

    fn line(&self, key: Key) -> Row {
        Row::Assert {
            key,
            role: self.role,
            winner: self.winner.address,
            end: self.end,
        }
    }
}

impl Printed for JoinTimerRow {
    ghost line = { upstream_line };

    fn line(&self, key: Key) -> Row {
        Row::Upstream {
            group: key.group,
            source: key.source,
            next_join: self.end,
        }
    }
}
