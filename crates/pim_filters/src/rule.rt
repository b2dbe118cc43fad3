//! The record table of RFC 3376, section 6.4: what each type of record does to each source.
ghost use Rattle.std.specs.Option.{option_map};
ghost use Rattle.std.specs.Prelude.{◌≡◌, IfOk, filter, filter_map, map};
ghost use Rattle.pim_filters.specs.Asking.{asked_in_order};
ghost use Rattle.pim_filters.specs.Cases.{cases_in};
ghost use Rattle.pim_filters.specs.Changes.{asked_after, entry_after, is_case_asked};
ghost use Rattle.pim_filters.specs.Members.{member_entries, member_entry, source_state_of};
ghost use Rattle.pim_filters.specs.Rules.{asks_group, asks_sources, source_state_after, fresh_source_state, is_asked, kept_or, timer_after};

use crate::asking::Asking;
use crate::case::{Case, Cases};
use crate::member::{Member, Members, SourceState};
use igmp_wire::RecordType;
use pim_ip::Addr;
use smallvec::SmallVec;
use std::alloc::{AllocError, Global};

/// What a record of a message does to the sources of a group (RFC 3376, section 6.4).
#[derive(Clone, Copy)]
pub(crate) struct Rule {
    pub(crate) record_type: RecordType,
    /// When the group timer expires, in EXCLUDE.
    pub(crate) timer: Option<u64>,
    /// When a timer expires that is set to the group membership interval.
    pub(crate) full: u64,
}

impl Rule {
    /// When the group timer expires afterwards.
    pub(crate) fn timer_after(self) -> Option<u64>
        ensures { result ≡ timer_after self.full self.timer self.record_type }
    {
        match self.record_type {
            RecordType::IsExclude | RecordType::ToExclude => Some(self.full),
            _ => self.timer,
        }
    }

    /// The state of a source that the group's record didn't have.
    fn fresh_source_state(self) -> SourceState
        ensures { source_state_of result ≡ fresh_source_state self.full self.timer self.record_type }
    {
        match (self.timer, self.record_type) {
            (None, _) => SourceState::Excluded,
            (Some(_), RecordType::IsExclude) => SourceState::Included(self.full),
            (Some(end), _) => SourceState::Included(end),
        }
    }

    /// What becomes of a source.
    fn source_state_after(self, case: Case) -> SourceState
        ensures { source_state_of result ≡ source_state_after self.full self.timer self.record_type (source_state_of case.before) case.named }
    {
        let before = case.before;
        match (self.record_type, case.named) {
            (RecordType::IsExclude | RecordType::ToExclude, false) => SourceState::Absent,
            (RecordType::IsExclude | RecordType::ToExclude, true) => before.or(
                self.fresh_source_state(),
            ),
            (RecordType::Block, true) if self.timer.is_some() => before.or(
                self.fresh_source_state(),
            ),
            (RecordType::Block, _) => before,
            (RecordType::IsInclude | RecordType::Allow | RecordType::ToInclude, false) => before,
            (RecordType::IsInclude | RecordType::Allow | RecordType::ToInclude, true) => {
                SourceState::Included(self.full)
            }
        }
    }

    /// The source as a member afterwards.
    fn member_after(self, case: Case) -> Option<Member>
        ensures { option_map member_entry result ≡ entry_after self case }
    {
        let source = case.source;
        match self.source_state_after(case) {
            SourceState::Absent => None,
            SourceState::Excluded => Some(Member { source, end: None }),
            SourceState::Included(end) => Some(Member {
                source,
                end: Some(end),
            }),
        }
    }

    /// The members afterwards, of the members before and the named addresses, both ascending.
    pub(crate) fn members_after(
        self,
        alloc: Global,
        members: &[Member],
        names: &[u32],
    ) -> Result<Members, AllocError>
        ensures { IfOk result (λ after. member_entries after.items ≡ filter_map (entry_after self) (cases_in members.now names.now)) }
    {
        let mut after = SmallVec::new(alloc);
        for case in (Cases { members, names }) {
            if let Some(member) = self.member_after(case) {
                after.push(member)?;
            }
        }
        Ok(after)
    }

    /// Whether the query of sources names the source.
    fn is_asked(self, case: Case) -> bool
        ensures { result ≡ is_case_asked self case }
    {
        match self.record_type {
            RecordType::ToInclude => case.before.is_running() && !case.named,
            _ if self.timer.is_some() => case.named && case.before != SourceState::Excluded,
            _ => case.named && case.before.is_running(),
        }
    }

    /// The sources that a query names, ascending.
    fn sources_asked(
        self,
        alloc: Global,
        members: &[Member],
        names: &[u32],
    ) -> Result<Vec<Addr>, AllocError>
        ensures { IfOk result (λ sources. sources.items ≡ map (λ c. c.source) (filter (is_case_asked self) (cases_in members.now names.now))) }
    {
        let mut asked = Vec::new(alloc);
        for case in (Cases { members, names }) {
            if self.is_asked(case) {
                asked.push(case.source)?;
            }
        }
        Ok(asked)
    }

    /// Whether the record makes the router query sources, though it may name none.
    fn asks_sources(self) -> bool
        ensures { result ≡ asks_sources self.record_type }
    {
        matches!(
            self.record_type,
            RecordType::Block | RecordType::ToExclude | RecordType::ToInclude
        )
    }

    /// Whether the record makes the router query the group.
    fn asks_group(self) -> bool
        ensures { result ≡ asks_group self.timer self.record_type }
    {
        matches!(self.record_type, RecordType::ToInclude) && self.timer.is_some()
    }

    /// The queries that the querier is to send, by the members before and the named addresses, both ascending.
    pub(crate) fn asking(
        self,
        alloc: Global,
        members: &[Member],
        names: &[u32],
    ) -> Result<Asking, AllocError>
        ensures { IfOk result (λ asking. asking ≡ asked_after self (cases_in members.now names.now)) }
    {
        if !self.asks_sources() {
            return Ok(Asking::new());
        }
        let sources = self.sources_asked(alloc, members, names)?;
        Ok(Asking::with(Some(sources), self.asks_group()))
    }
}
