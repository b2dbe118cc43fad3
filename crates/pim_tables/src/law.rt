//! How the timers of the rows are those of the specification (pim_model).
ghost use Rattle.std.specs.Prelude.{◌≡◌, ◌++◌};
ghost use Rattle.pim_model.specs.Clearing.{first_by};
ghost use Rattle.pim_model.specs.State.{State};
ghost use Rattle.pim_model.specs.Timers.{is_ending_first, next_ending};
ghost use Rattle.pim_tables.specs.Ends.{row_endings};

use crate::ends::Ends;
use pim_types::fact::{
    AssertRow, DownstreamRow, GroupRecordRow, GroupRepeatRow, InterfaceRow, JoinTimerRow,
    NeighbourRow, OverrideTimerRow, QuerierRow, RegisterRow, SourceRecordRow, SourceRepeatRow,
    SourceRow,
};

/// The first timer of the specification's state is the first of the timers of all tables' rows.
pub fn rows_end_as_written()
    ensures { (s : State) → next_ending s ≡ first_by is_ending_first (
        row_endings ⟦<NeighbourRow as Ends>⟧.kinds ⟦<NeighbourRow as Ends>⟧.ends s.neighbours
        ++ row_endings ⟦<DownstreamRow as Ends>⟧.kinds ⟦<DownstreamRow as Ends>⟧.ends s.downstream
        ++ row_endings ⟦<GroupRecordRow as Ends>⟧.kinds ⟦<GroupRecordRow as Ends>⟧.ends s.group_records
        ++ row_endings ⟦<SourceRecordRow as Ends>⟧.kinds ⟦<SourceRecordRow as Ends>⟧.ends s.source_records
        ++ row_endings ⟦<AssertRow as Ends>⟧.kinds ⟦<AssertRow as Ends>⟧.ends s.asserts
        ++ row_endings ⟦<SourceRow as Ends>⟧.kinds ⟦<SourceRow as Ends>⟧.ends s.sources
        ++ row_endings ⟦<RegisterRow as Ends>⟧.kinds ⟦<RegisterRow as Ends>⟧.ends s.registers
        ++ row_endings ⟦<OverrideTimerRow as Ends>⟧.kinds ⟦<OverrideTimerRow as Ends>⟧.ends s.override_timers
        ++ row_endings ⟦<JoinTimerRow as Ends>⟧.kinds ⟦<JoinTimerRow as Ends>⟧.ends s.join_timers
        ++ row_endings ⟦<QuerierRow as Ends>⟧.kinds ⟦<QuerierRow as Ends>⟧.ends s.queriers
        ++ row_endings ⟦<GroupRepeatRow as Ends>⟧.kinds ⟦<GroupRepeatRow as Ends>⟧.ends s.group_repeats
        ++ row_endings ⟦<SourceRepeatRow as Ends>⟧.kinds ⟦<SourceRepeatRow as Ends>⟧.ends s.source_repeats
        ++ row_endings ⟦<InterfaceRow as Ends>⟧.kinds ⟦<InterfaceRow as Ends>⟧.ends s.interfaces) }
{}
