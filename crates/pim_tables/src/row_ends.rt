//! When the timers of the rows of each table expire.
ghost use Rattle.std.specs.Prelude.{Some, None};
ghost use Rattle.pim_model.specs.Timers.{next_query, other_querier_end, register_end};
ghost use Rattle.pim_types.specs.declared.timer.TimerKind.{TimerKind as Kind};
ghost use Rattle.pim_tables.specs.RowKinds.{general_not_other, no_second, pending_not_expiry};

use crate::ends::Ends;
use pim_types::TimerKind;
use pim_types::fact::{
    AssertRow, DownstreamRow, GroupRecordRow, GroupRepeatRow, InterfaceRow, JoinTimerRow,
    NeighbourRow, OverrideTimerRow, QuerierRole, QuerierRow, RegisterRow, RegisterState,
    SourceRecordRow, SourceRepeatRow, SourceRow,
};

impl Ends for NeighbourRow {
    ghost kinds = { (Kind.Neighbour, None) };

    ghost ends = { λ r. (r.end, None) };

    ghost apart = { no_second Kind.Neighbour };

    fn kinds() -> (TimerKind, Option<TimerKind>) {
        (TimerKind::Neighbour, None)
    }

    fn ends(self) -> (Option<u64>, Option<u64>) {
        (self.end, None)
    }
}

impl Ends for DownstreamRow {
    ghost kinds = { (Kind.PrunePending, Some Kind.DownstreamExpiry) };

    ghost ends = { λ r. (r.pending, r.expiry) };

    ghost apart = { pending_not_expiry };

    fn kinds() -> (TimerKind, Option<TimerKind>) {
        (TimerKind::PrunePending, Some(TimerKind::DownstreamExpiry))
    }

    fn ends(self) -> (Option<u64>, Option<u64>) {
        (self.pending, self.expiry)
    }
}

impl Ends for GroupRecordRow {
    ghost kinds = { (Kind.GroupRecord, None) };

    ghost ends = { λ r. (r.end, None) };

    ghost apart = { no_second Kind.GroupRecord };

    fn kinds() -> (TimerKind, Option<TimerKind>) {
        (TimerKind::GroupRecord, None)
    }

    fn ends(self) -> (Option<u64>, Option<u64>) {
        (self.end, None)
    }
}

impl Ends for SourceRecordRow {
    ghost kinds = { (Kind.SourceRecord, None) };

    ghost ends = { λ r. (r.end, None) };

    ghost apart = { no_second Kind.SourceRecord };

    fn kinds() -> (TimerKind, Option<TimerKind>) {
        (TimerKind::SourceRecord, None)
    }

    fn ends(self) -> (Option<u64>, Option<u64>) {
        (self.end, None)
    }
}

impl Ends for AssertRow {
    ghost kinds = { (Kind.Assert, None) };

    ghost ends = { λ r. (Some r.end, None) };

    ghost apart = { no_second Kind.Assert };

    fn kinds() -> (TimerKind, Option<TimerKind>) {
        (TimerKind::Assert, None)
    }

    fn ends(self) -> (Option<u64>, Option<u64>) {
        (Some(self.end), None)
    }
}

impl Ends for SourceRow {
    ghost kinds = { (Kind.Keepalive, None) };

    ghost ends = { λ r. (r.keepalive, None) };

    ghost apart = { no_second Kind.Keepalive };

    fn kinds() -> (TimerKind, Option<TimerKind>) {
        (TimerKind::Keepalive, None)
    }

    fn ends(self) -> (Option<u64>, Option<u64>) {
        (self.keepalive, None)
    }
}

impl Ends for RegisterRow {
    ghost kinds = { (Kind.Register, None) };

    ghost ends = { λ r. (register_end r.state, None) };

    ghost apart = { no_second Kind.Register };

    fn kinds() -> (TimerKind, Option<TimerKind>) {
        (TimerKind::Register, None)
    }

    fn ends(self) -> (Option<u64>, Option<u64>) {
        match self.state {
            RegisterState::Join => (None, None),
            RegisterState::JoinPending { end } => (Some(end), None),
            RegisterState::Prune { end } => (Some(end), None),
        }
    }
}

impl Ends for OverrideTimerRow {
    ghost kinds = { (Kind.Override, None) };

    ghost ends = { λ r. (Some r.end, None) };

    ghost apart = { no_second Kind.Override };

    fn kinds() -> (TimerKind, Option<TimerKind>) {
        (TimerKind::Override, None)
    }

    fn ends(self) -> (Option<u64>, Option<u64>) {
        (Some(self.end), None)
    }
}

impl Ends for JoinTimerRow {
    ghost kinds = { (Kind.Join, None) };

    ghost ends = { λ r. (Some r.end, None) };

    ghost apart = { no_second Kind.Join };

    fn kinds() -> (TimerKind, Option<TimerKind>) {
        (TimerKind::Join, None)
    }

    fn ends(self) -> (Option<u64>, Option<u64>) {
        (Some(self.end), None)
    }
}

impl Ends for QuerierRow {
    ghost kinds = { (Kind.OtherQuerier, Some Kind.GeneralQuery) };

    ghost ends = { λ r. (other_querier_end r.role, next_query r.role) };

    ghost apart = { general_not_other };

    fn kinds() -> (TimerKind, Option<TimerKind>) {
        (TimerKind::OtherQuerier, Some(TimerKind::GeneralQuery))
    }

    fn ends(self) -> (Option<u64>, Option<u64>) {
        match self.role {
            QuerierRole::Querier { next_query, .. } => (None, Some(next_query)),
            QuerierRole::NonQuerier { end } => (Some(end), None),
        }
    }
}

impl Ends for GroupRepeatRow {
    ghost kinds = { (Kind.GroupRepeat, None) };

    ghost ends = { λ r. (Some r.next, None) };

    ghost apart = { no_second Kind.GroupRepeat };

    fn kinds() -> (TimerKind, Option<TimerKind>) {
        (TimerKind::GroupRepeat, None)
    }

    fn ends(self) -> (Option<u64>, Option<u64>) {
        (Some(self.next), None)
    }
}

impl Ends for SourceRepeatRow {
    ghost kinds = { (Kind.SourceRepeat, None) };

    ghost ends = { λ r. (Some r.next, None) };

    ghost apart = { no_second Kind.SourceRepeat };

    fn kinds() -> (TimerKind, Option<TimerKind>) {
        (TimerKind::SourceRepeat, None)
    }

    fn ends(self) -> (Option<u64>, Option<u64>) {
        (Some(self.next), None)
    }
}

impl Ends for InterfaceRow {
    ghost kinds = { (Kind.Hello, None) };

    ghost ends = { λ r. (Some r.hello_end, None) };

    ghost apart = { no_second Kind.Hello };

    fn kinds() -> (TimerKind, Option<TimerKind>) {
        (TimerKind::Hello, None)
    }

    fn ends(self) -> (Option<u64>, Option<u64>) {
        (Some(self.hello_end), None)
    }
}
