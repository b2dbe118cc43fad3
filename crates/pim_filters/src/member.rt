//! A source of a group record, with its timer.
ghost use Rattle.std.specs.Option.{option_map_or};
ghost use Rattle.std.specs.Prelude.{◌≡◌, None, false, nat_lt};
ghost use Rattle.pim_filters.specs.Members.{source_state_at, source_state_of, is_named_source, with_end_lowered, without_end};
ghost use Rattle.pim_filters.specs.Rules.{kept_or};
ghost use Rattle.pim_model.specs.Querier.{lowered};
ghost use Rattle.pim_model.specs.Records.{is_running};

use pim_ip::Addr;
use smallvec::SmallVec;

/// Members in one place: a host seldom names more than four sources, which need no allocation.
pub(crate) type Members = SmallVec<Member, 4>;

/// A source of a group record. Until its timer expires, in ms, its packets are wanted; without a timer it is excluded.
#[derive(Clone, Copy)]
pub struct Member {
    pub source: Addr,
    pub end: Option<u64>,
}

impl Default for Member {
    ghost is_default = { λ m. (m.source.bits ≡ 0) × (m.end ≡ None) };

    fn default() -> Member {
        Member {
            source: Addr { bits: 0 },
            end: None,
        }
    }
}

/// What a group record says of a source.
#[derive(Clone, Copy, PartialEq, Eq)]
pub enum SourceState {
    /// The record doesn't have the source.
    Absent,
    /// The source has no timer: its packets are refused.
    Excluded,
    /// The source's timer runs until this timestamp, in ms.
    Included(u64),
}

impl SourceState {
    /// The state, or another in place of `Absent`.
    pub(crate) fn or(self, fresh: SourceState) -> SourceState
        ensures { source_state_of result ≡ kept_or (source_state_of fresh) (source_state_of self) }
    {
        match self {
            SourceState::Absent => fresh,
            SourceState::Excluded | SourceState::Included(_) => self,
        }
    }

    /// Whether the source's timer runs.
    pub fn is_running(self) -> bool
        ensures { result ≡ is_running (source_state_of self) }
    {
        matches!(self, SourceState::Included(_))
    }
}

impl Member {
    /// What the record says of the source.
    pub fn source_state(self) -> SourceState
        ensures { result ≡ source_state_at self.end }
    {
        match self.end {
            Some(end) => SourceState::Included(end),
            None => SourceState::Excluded,
        }
    }

    /// The member, without a timer if it is of this source.
    pub(crate) fn without_end(self, source: Addr) -> Member
        ensures { result ≡ without_end source.bits self }
    {
        if self.source == source {
            return Member { end: None, ..self };
        }
        self
    }

    /// The member, with its timer lowered to the timestamp if its source is named.
    pub(crate) fn with_end_lowered(self, sources: &[Addr], moment: u64) -> Member
        ensures { result ≡ with_end_lowered sources.now moment self }
    {
        if is_named_source(self.source, sources) {
            let end = lowered_end(self.end, moment);
            return Member { end, ..self };
        }
        self
    }

    /// Whether the timer runs past the timestamp.
    pub(crate) fn runs_past(self, moment: u64) -> bool
        ensures { result ≡ option_map_or (nat_lt moment) self.end false }
    {
        self.end.is_some_and(|end| moment < end)
    }
}

/// When a timer expires that is lowered to a timestamp if it runs.
pub(crate) fn lowered_end(end: Option<u64>, moment: u64) -> Option<u64>
    ensures { result ≡ lowered moment end }
{
    end.map(|end| end.min(moment))
}

/// Whether the source is named.
fn is_named_source(source: Addr, sources: &[Addr]) -> bool
    ensures { result ≡ is_named_source source.bits sources.now }
{
    sources.iter().any(|named| named.bits == source.bits)
}
