//! Keys and rows.
ghost use Rattle.pim_saved.specs.Fits.{FitsAssert, FitsDownstream, FitsGroupRecord, FitsGroupRepeat, FitsJoinTimer, FitsLanDelay, FitsMetric, FitsNeighbour, FitsOverrideTimer, FitsQuerier, FitsRegister, FitsSending, FitsSource, FitsSourceRecord, FitsSourceRepeat, FitsUp};
ghost use Rattle.pim_saved.specs.Reading.{assert_at, downstream_at, group_record_at, group_repeat_at, join_timer_at, lan_delay_at, metric_at, neighbour_at, override_timer_at, querier_at, register_at, sending_at, source_at, source_record_at, source_repeat_at, up_at};
ghost use Rattle.pim_saved.specs.Text.{assert_text, downstream_text, group_record_text, group_repeat_text, join_timer_text, lan_delay_text, metric_text, neighbour_text, override_timer_text, querier_text, register_text, sending_text, source_record_text, source_repeat_text, source_text, up_text};
ghost use Rattle.std.specs.Prelude.{◌≡◌, ◌++◌, OnOk};

use crate::option::{read_option, write_option};
use crate::saved::Saved;
use pim_ip::{Addr, LanDelay};
use pim_saved::SavedRefusal;
use pim_types::fact::{
    AssertMetric, AssertRole, AssertRow, DownstreamRow, GroupRecordRow, GroupRepeatRow,
    InterfaceRow, JoinTimerRow, NeighbourRow, OverrideTimerRow, QuerierRole, QuerierRow,
    RegisterRow, RegisterState, SendingRow, SourceRecordRow, SourceRepeatRow, SourceRow,
};
use std::alloc::AllocError;

impl Saved for LanDelay {
    ghost text = { lan_delay_text };

    ghost reading = { lan_delay_at };

    ghost fits = { FitsLanDelay };

    #[tactic(auto, unfolding(pim_saved::specs::Text::lan_delay_text))]
    fn write(self, out: &mut Vec<u8>) -> Result<(), AllocError> {
        self.can_track.write(out)?;
        self.propagation_delay.write(out)?;
        self.override_interval.write(out)?;
        Ok(())
    }

    #[tactic(auto, unfolding(pim_saved::specs::Reading::lan_delay_at))]
    fn read(bytes: &[u8]) -> Result<(LanDelay, &[u8]), SavedRefusal> {
        let (can_track, rest) = bool::read(bytes)?;
        let (propagation_delay, rest) = u16::read(rest)?;
        let (override_interval, rest) = u16::read(rest)?;
        Ok((
            LanDelay {
                can_track,
                propagation_delay,
                override_interval,
            },
            rest,
        ))
    }
}

impl Saved for InterfaceRow {
    ghost text = { up_text };

    ghost reading = { up_at };

    ghost fits = { FitsUp };

    #[tactic(auto, unfolding(pim_saved::specs::Text::up_text))]
    fn write(self, out: &mut Vec<u8>) -> Result<(), AllocError> {
        self.generation.write(out)?;
        self.hello_end.write(out)?;
        self.is_hello_owed.write(out)?;
        Ok(())
    }

    #[tactic(auto, unfolding(pim_saved::specs::Reading::up_at))]
    fn read(bytes: &[u8]) -> Result<(InterfaceRow, &[u8]), SavedRefusal> {
        let (generation, rest) = u32::read(bytes)?;
        let (hello_end, rest) = u64::read(rest)?;
        let (is_hello_owed, rest) = bool::read(rest)?;
        Ok((
            InterfaceRow {
                generation,
                hello_end,
                is_hello_owed,
            },
            rest,
        ))
    }
}

impl Saved for NeighbourRow {
    ghost text = { neighbour_text };

    ghost reading = { neighbour_at };

    ghost fits = { FitsNeighbour };

    #[tactic(auto, unfolding(pim_saved::specs::Text::neighbour_text))]
    fn write(self, out: &mut Vec<u8>) -> Result<(), AllocError> {
        write_option(self.end, out)?;
        write_option(self.lan_delay, out)?;
        write_option(self.priority, out)?;
        write_option(self.generation, out)?;
        Ok(())
    }

    #[tactic(auto, unfolding(pim_saved::specs::Reading::neighbour_at))]
    fn read(bytes: &[u8]) -> Result<(NeighbourRow, &[u8]), SavedRefusal> {
        let (end, rest) = read_option(bytes)?;
        let (lan_delay, rest) = read_option(rest)?;
        let (priority, rest) = read_option(rest)?;
        let (generation, rest) = read_option(rest)?;
        Ok((
            NeighbourRow {
                end,
                lan_delay,
                priority,
                generation,
            },
            rest,
        ))
    }
}

impl Saved for QuerierRow {
    ghost text = { querier_text };

    ghost reading = { querier_at };

    ghost fits = { FitsQuerier };

    #[tactic(auto, unfolding(pim_saved::specs::Text::querier_text))]
    fn write(self, out: &mut Vec<u8>) -> Result<(), AllocError> {
        self.role.write(out)?;
        self.robustness.write(out)?;
        self.query_interval.write(out)?;
        Ok(())
    }

    #[tactic(auto, unfolding(pim_saved::specs::Reading::querier_at))]
    fn read(bytes: &[u8]) -> Result<(QuerierRow, &[u8]), SavedRefusal> {
        let (role, rest) = QuerierRole::read(bytes)?;
        let (robustness, rest) = u8::read(rest)?;
        let (query_interval, rest) = u16::read(rest)?;
        Ok((
            QuerierRow {
                role,
                robustness,
                query_interval,
            },
            rest,
        ))
    }
}

impl Saved for GroupRecordRow {
    ghost text = { group_record_text };

    ghost reading = { group_record_at };

    ghost fits = { FitsGroupRecord };

    fn write(self, out: &mut Vec<u8>) -> Result<(), AllocError> {
        write_option(self.end, out)?;
        Ok(())
    }

    fn read(bytes: &[u8]) -> Result<(GroupRecordRow, &[u8]), SavedRefusal> {
        let (end, rest) = read_option(bytes)?;
        Ok((GroupRecordRow { end }, rest))
    }
}

impl Saved for SourceRecordRow {
    ghost text = { source_record_text };

    ghost reading = { source_record_at };

    ghost fits = { FitsSourceRecord };

    fn write(self, out: &mut Vec<u8>) -> Result<(), AllocError> {
        write_option(self.end, out)?;
        Ok(())
    }

    fn read(bytes: &[u8]) -> Result<(SourceRecordRow, &[u8]), SavedRefusal> {
        let (end, rest) = read_option(bytes)?;
        Ok((SourceRecordRow { end }, rest))
    }
}

impl Saved for GroupRepeatRow {
    ghost text = { group_repeat_text };

    ghost reading = { group_repeat_at };

    ghost fits = { FitsGroupRepeat };

    #[tactic(auto, unfolding(pim_saved::specs::Text::group_repeat_text))]
    fn write(self, out: &mut Vec<u8>) -> Result<(), AllocError> {
        self.next.write(out)?;
        self.left.write(out)?;
        Ok(())
    }

    #[tactic(auto, unfolding(pim_saved::specs::Reading::group_repeat_at))]
    fn read(bytes: &[u8]) -> Result<(GroupRepeatRow, &[u8]), SavedRefusal> {
        let (next, rest) = u64::read(bytes)?;
        let (left, rest) = u32::read(rest)?;
        Ok((GroupRepeatRow { next, left }, rest))
    }
}

impl Saved for SourceRepeatRow {
    ghost text = { source_repeat_text };

    ghost reading = { source_repeat_at };

    ghost fits = { FitsSourceRepeat };

    fn write(self, out: &mut Vec<u8>) -> Result<(), AllocError> {
        self.next.write(out)?;
        Ok(())
    }

    fn read(bytes: &[u8]) -> Result<(SourceRepeatRow, &[u8]), SavedRefusal> {
        let (next, rest) = u64::read(bytes)?;
        Ok((SourceRepeatRow { next }, rest))
    }
}

impl Saved for SendingRow {
    ghost text = { sending_text };

    ghost reading = { sending_at };

    ghost fits = { FitsSending };

    fn write(self, out: &mut Vec<u8>) -> Result<(), AllocError> {
        self.left.write(out)?;
        Ok(())
    }

    fn read(bytes: &[u8]) -> Result<(SendingRow, &[u8]), SavedRefusal> {
        let (left, rest) = u32::read(bytes)?;
        Ok((SendingRow { left }, rest))
    }
}

impl Saved for DownstreamRow {
    ghost text = { downstream_text };

    ghost reading = { downstream_at };

    ghost fits = { FitsDownstream };

    #[tactic(auto, unfolding(pim_saved::specs::Text::downstream_text))]
    fn write(self, out: &mut Vec<u8>) -> Result<(), AllocError> {
        write_option(self.expiry, out)?;
        write_option(self.pending, out)?;
        Ok(())
    }

    #[tactic(auto, unfolding(pim_saved::specs::Reading::downstream_at))]
    fn read(bytes: &[u8]) -> Result<(DownstreamRow, &[u8]), SavedRefusal> {
        let (expiry, rest) = read_option(bytes)?;
        let (pending, rest) = read_option(rest)?;
        Ok((DownstreamRow { expiry, pending }, rest))
    }
}

impl Saved for AssertMetric {
    ghost text = { metric_text };

    ghost reading = { metric_at };

    ghost fits = { FitsMetric };

    #[tactic(auto, unfolding(pim_saved::specs::Text::metric_text))]
    fn write(self, out: &mut Vec<u8>) -> Result<(), AllocError> {
        self.rpt.write(out)?;
        self.preference.write(out)?;
        self.metric.write(out)?;
        self.address.write(out)?;
        Ok(())
    }

    #[tactic(auto, unfolding(pim_saved::specs::Reading::metric_at))]
    fn read(bytes: &[u8]) -> Result<(AssertMetric, &[u8]), SavedRefusal> {
        let (rpt, rest) = bool::read(bytes)?;
        let (preference, rest) = u32::read(rest)?;
        let (metric, rest) = u32::read(rest)?;
        let (address, rest) = Addr::read(rest)?;
        Ok((
            AssertMetric {
                rpt,
                preference,
                metric,
                address,
            },
            rest,
        ))
    }
}

impl Saved for AssertRow {
    ghost text = { assert_text };

    ghost reading = { assert_at };

    ghost fits = { FitsAssert };

    #[tactic(auto, unfolding(pim_saved::specs::Text::assert_text))]
    fn write(self, out: &mut Vec<u8>) -> Result<(), AllocError> {
        self.role.write(out)?;
        self.winner.write(out)?;
        self.end.write(out)?;
        Ok(())
    }

    #[tactic(auto, unfolding(pim_saved::specs::Reading::assert_at))]
    fn read(bytes: &[u8]) -> Result<(AssertRow, &[u8]), SavedRefusal> {
        let (role, rest) = AssertRole::read(bytes)?;
        let (winner, rest) = AssertMetric::read(rest)?;
        let (end, rest) = u64::read(rest)?;
        Ok((AssertRow { role, winner, end }, rest))
    }
}

impl Saved for JoinTimerRow {
    ghost text = { join_timer_text };

    ghost reading = { join_timer_at };

    ghost fits = { FitsJoinTimer };

    fn write(self, out: &mut Vec<u8>) -> Result<(), AllocError> {
        self.end.write(out)?;
        Ok(())
    }

    fn read(bytes: &[u8]) -> Result<(JoinTimerRow, &[u8]), SavedRefusal> {
        let (end, rest) = u64::read(bytes)?;
        Ok((JoinTimerRow { end }, rest))
    }
}

impl Saved for OverrideTimerRow {
    ghost text = { override_timer_text };

    ghost reading = { override_timer_at };

    ghost fits = { FitsOverrideTimer };

    fn write(self, out: &mut Vec<u8>) -> Result<(), AllocError> {
        self.end.write(out)?;
        Ok(())
    }

    fn read(bytes: &[u8]) -> Result<(OverrideTimerRow, &[u8]), SavedRefusal> {
        let (end, rest) = u64::read(bytes)?;
        Ok((OverrideTimerRow { end }, rest))
    }
}

impl Saved for SourceRow {
    ghost text = { source_text };

    ghost reading = { source_at };

    ghost fits = { FitsSource };

    #[tactic(auto, unfolding(pim_saved::specs::Text::source_text))]
    fn write(self, out: &mut Vec<u8>) -> Result<(), AllocError> {
        write_option(self.keepalive, out)?;
        self.spt.write(out)?;
        Ok(())
    }

    #[tactic(auto, unfolding(pim_saved::specs::Reading::source_at))]
    fn read(bytes: &[u8]) -> Result<(SourceRow, &[u8]), SavedRefusal> {
        let (keepalive, rest) = read_option(bytes)?;
        let (spt, rest) = bool::read(rest)?;
        Ok((SourceRow { keepalive, spt }, rest))
    }
}

impl Saved for RegisterRow {
    ghost text = { register_text };

    ghost reading = { register_at };

    ghost fits = { FitsRegister };

    fn write(self, out: &mut Vec<u8>) -> Result<(), AllocError> {
        self.state.write(out)?;
        Ok(())
    }

    fn read(bytes: &[u8]) -> Result<(RegisterRow, &[u8]), SavedRefusal> {
        let (state, rest) = RegisterState::read(bytes)?;
        Ok((RegisterRow { state }, rest))
    }
}
