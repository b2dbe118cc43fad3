//! Which marks the rows of each table set for their groups and sources.
ghost use Rattle.std.specs.Prelude.{◌≡◌, ◌<◌, ◌&&◌, ℕ, Bool, IsTrue};
ghost use Rattle.pim_types.specs.declared.fact.Key.{Key as KeyValue};
ghost use Rattle.pim_store.specs.Said.{is_about, is_of_iface, is_plain_of_iface, is_rpt_of_router, is_source_of_router};
ghost use Rattle.pim_store.specs.Telling.{assert_says, assert_table, downstream_says, downstream_table, is_set_by_either, is_there, is_told_by, override_timer_table, register_table, source_table};
ghost use Rattle.pim_store.specs.declared.marks.Mark.{Mark as MarkValue};

use crate::marks::Mark;
use pim_tables::Ends;
use pim_types::Key;
use pim_types::fact::{
    AssertRole, AssertRow, DownstreamRow, OverrideTimerRow, RegisterRow, SourceRow,
};

// A row that sets marks for its group, or for its source.
pub(crate) trait TellsMarks: Ends {
    // Which marks the rows of the table set.
    ghost tells: { MarkValue → Bool };

    // Whether a row sets a mark.
    ghost says: { MarkValue → Self → Bool };

    // Which keys the rows have.
    ghost fits: { KeyValue → Bool };

    // The one or two marks that the row under the key can set.
    fn told(key: Key) -> (Mark, Option<Mark>)
        requires { IsTrue (fits key) }
        ensures marks { (x : MarkValue) (i : ℕ)
            → (tells x && is_about x i key) ≡ is_set_by_either result key.iface.number x i }
        ensures near { key.iface.number < 120 };

    // Whether the row sets the mark.
    fn says(self, mark: Mark) -> bool
        ensures { result ≡ says mark self };
}

impl TellsMarks for DownstreamRow {
    ghost tells = { is_told_by downstream_table };

    ghost says = { downstream_says };

    ghost fits = { is_of_iface };

    fn told(key: Key) -> (Mark, Option<Mark>) {
        if key.rpt {
            (Mark::Branched, Some(Mark::Pruned))
        } else {
            (Mark::Joined, None)
        }
    }

    fn says(self, mark: Mark) -> bool {
        match mark {
            Mark::Pruned => self.pending.is_none(),
            _ => true,
        }
    }
}

impl TellsMarks for AssertRow {
    ghost tells = { is_told_by assert_table };

    ghost says = { assert_says };

    ghost fits = { is_plain_of_iface };

    fn told(_key: Key) -> (Mark, Option<Mark>) {
        (Mark::Lost, Some(Mark::Won))
    }

    fn says(self, mark: Mark) -> bool {
        match mark {
            Mark::Lost => matches!(self.role, AssertRole::Loser),
            Mark::Won => matches!(self.role, AssertRole::Winner),
            _ => false,
        }
    }
}

impl TellsMarks for OverrideTimerRow {
    ghost tells = { is_told_by override_timer_table };

    ghost says = { is_there };

    ghost fits = { is_rpt_of_router };

    fn told(_key: Key) -> (Mark, Option<Mark>) {
        (Mark::HasOverrideTimer, None)
    }

    fn says(self, _mark: Mark) -> bool {
        true
    }
}

impl TellsMarks for SourceRow {
    ghost tells = { is_told_by source_table };

    ghost says = { is_there };

    ghost fits = { is_source_of_router };

    fn told(_key: Key) -> (Mark, Option<Mark>) {
        (Mark::HasSource, None)
    }

    fn says(self, _mark: Mark) -> bool {
        true
    }
}

impl TellsMarks for RegisterRow {
    ghost tells = { is_told_by register_table };

    ghost says = { is_there };

    ghost fits = { is_source_of_router };

    fn told(_key: Key) -> (Mark, Option<Mark>) {
        (Mark::HasRegister, None)
    }

    fn says(self, _mark: Mark) -> bool {
        true
    }
}
