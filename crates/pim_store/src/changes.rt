//! Changes of a row that exists.
ghost use Rattle.std.specs.Prelude.{Some, min};

use pim_tables::Change;
use pim_types::fact::{JoinTimerRow, SourceRow};

// Sets when KAT(S,G) expires, in ms.
#[derive(Clone, Copy)]
pub(crate) struct KeepAlive {
    pub(crate) end: u64,
}

impl Change<SourceRow> for KeepAlive {
    ghost after = { λ change before. record before { keepalive = Some change.end } };

    fn after(self, before: SourceRow) -> SourceRow {
        SourceRow {
            keepalive: Some(self.end),
            ..before
        }
    }
}

// Lowers when a Join timer expires, in ms.
#[derive(Clone, Copy)]
pub(crate) struct Lowering {
    pub(crate) end: u64,
}

impl Change<JoinTimerRow> for Lowering {
    ghost after = { λ l before. record { end = min before.end l.end } };

    fn after(self, before: JoinTimerRow) -> JoinTimerRow {
        JoinTimerRow {
            end: before.end.min(self.end),
        }
    }
}
