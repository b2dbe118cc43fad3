//! A group record: what a record of a report and the expiry of timers make of it.
ghost use Rattle.std.specs.Option.{option_map_or};
ghost use Rattle.std.specs.Prelude.{◌≡◌, ◌==◌, false, filter, find, map, nat_lt, not};
ghost use Rattle.pim_filters.specs.Members.{bits_of, with_end_lowered, without_end};

use crate::asking::Asking;
use crate::member::{Member, Members, SourceState, lowered_end};
use crate::names::ascending;
use crate::rule::Rule;
use igmp_wire::RecordType;
use pim_ip::Addr;
use smallvec::SmallVec;
use std::alloc::{AllocError, Global};
use std::marker::Model;

/// What is known of one group on one interface (RFC 3376, section 6.2.1): INCLUDE of the sources
/// whose timers run, or, while the group timer runs, EXCLUDE of the sources that have no timer.
pub struct GroupRecord {
    timer: Option<u64>,
    members: Members,
}

// Written out, so that it is proved once (docs/PROOF_NOTES.md, Drops).
impl Drop for GroupRecord {
    fn drop(self) {
        let GroupRecord {
            timer: _,
            members: _,
        } = self;
    }
}

impl Model for GroupRecord {
    ghost use Rattle.pim_model.specs.Records.{GroupRecord as Record};

    ghost Value = { Record };

    ghost use Rattle.pim_filters.specs.Members.{member_entries, IsAscending};

    ghost view = { λ a. record { timer = a.timer; members = member_entries a.members.items } };

    ghost invariant = { λ a. IsAscending (member_entries a.members.items) };
}

impl GroupRecord {
    ghost use Rattle.std.specs.Prelude.{◌≡◌, IfOk, OnErr, OnOk, is_some};
    ghost use Rattle.pim_filters.specs.Lowering.{group_lowered, sources_lowered};
    ghost use Rattle.pim_filters.specs.Members.{IsAscending, member_entries, source_state_of};
    ghost use Rattle.pim_model.specs.Records.{apply_record, source_state_in, group_expired, is_no_record, no_record, source_expired};

    /// No record of the group.
    pub fn new(alloc: Global) -> GroupRecord
        ensures { result ≡ no_record }
    {
        GroupRecord {
            timer: None,
            members: SmallVec::new(alloc),
        }
    }

    /// The record whose group timer expires at the timestamp, in ms, if it runs, and which has these sources, in
    /// ascending order.
    pub fn with(
        alloc: Global,
        timer: Option<u64>,
        members: &[Member],
    ) -> Result<GroupRecord, AllocError>
        requires { IsAscending (member_entries members.now) }
        ensures { IfOk result (λ made. made ≡ record { timer = timer; members = member_entries members.now }) }
    {
        let members = SmallVec::from_slice(alloc, members)?;
        Ok(GroupRecord { timer, members })
    }

    /// Whether there is no record: INCLUDE of no source.
    pub fn is_no_record(&self) -> bool
        ensures { result ≡ is_no_record self.now }
    {
        self.timer.is_none() && self.members.is_empty()
    }

    /// When the group timer expires, in ms, in EXCLUDE.
    pub fn timer(&self) -> Option<u64>
        ensures { result ≡ self.now.timer }
    {
        self.timer
    }

    /// Whether the record is in EXCLUDE.
    pub fn is_exclude(&self) -> bool
        ensures { result ≡ is_some self.now.timer }
    {
        self.timer.is_some()
    }

    /// The record's sources, ascending by their addresses.
    pub fn members(&self) -> &[Member]
        ensures members { member_entries result.now ≡ self.now.members }
        ensures ascending { IsAscending self.now.members }
    {
        self.members.as_slice()
    }

    /// What the record says of a source.
    pub fn source_state(&self, source: Addr) -> SourceState
        ensures { source_state_of result ≡ source_state_in self.now source.bits }
    {
        match member_of(self.members(), source) {
            Some(member) => member.source_state(),
            None => SourceState::Absent,
        }
    }

    /// The record after a record of a message (RFC 3376, sections 6.4.1 and 6.4.2), and the queries that this requests.
    /// The sources may come in any order and more than once. `full` is when a timer expires that is set to the group
    /// membership interval, in ms. The error is want of memory, and then nothing changes.
    pub fn apply(
        &mut self,
        record_type: RecordType,
        sources: &[Addr],
        full: u64,
        asked: &mut Asking,
    ) -> Result<(), AllocError>
        ensures record_after { OnOk result (self.new ≡ (apply_record full self.old record_type (bits_of sources.now)).0) }
        ensures asked_after { OnOk result (asked.new ≡ (apply_record full self.old record_type (bits_of sources.now)).1) }
        ensures record_kept { OnErr result (self.new ≡ self.old) }
        ensures asked_kept { OnErr result (asked.new ≡ asked.old) }
    {
        let alloc = *self.members.allocator();
        let rule = Rule {
            record_type,
            timer: self.timer,
            full,
        };
        let names = ascending(alloc, sources)?;
        let members = self.members.as_slice();
        let asking = rule.asking(alloc, members, names.as_slice())?;
        self.members = rule.members_after(alloc, members, names.as_slice())?;
        self.timer = rule.timer_after();
        *asked = asking;
        Ok(())
    }

    /// The group timer has expired: INCLUDE of the sources whose timers run past the timestamp.
    pub fn group_expired(&mut self, now: u64)
        ensures { self.new ≡ group_expired now self.old }
    {
        self.timer = None;
        keep_running(&mut self.members, now);
    }

    /// The timer of a source has expired: in INCLUDE the source is deleted, in EXCLUDE it is excluded from then on.
    pub fn source_expired(&mut self, source: Addr)
        ensures { self.new ≡ source_expired source.bits self.old }
    {
        if self.is_exclude() {
            exclude(self.members.as_mut_slice(), source);
        } else {
            remove(&mut self.members, source);
        }
    }

    /// Lowers the group timer to the timestamp, where it runs and expires later.
    pub fn lower_group(&mut self, end: u64)
        ensures { self.new ≡ group_lowered end self.old }
    {
        self.timer = lowered_end(self.timer, end);
    }

    /// Lowers the timers of the named sources to the timestamp, where they run and expire later.
    pub fn lower_sources(&mut self, sources: &[Addr], end: u64)
        ensures { self.new ≡ sources_lowered (bits_of sources.now) end self.old }
    {
        lower(self.members.as_mut_slice(), sources, end);
    }
}

/// The member of a source.
fn member_of(members: &[Member], source: Addr) -> Option<Member>
    ensures { result ≡ find (λ m. m.source.bits == source.bits) members.now }
{
    members
        .iter()
        .copied()
        .find(|member| member.source.bits == source.bits)
}

/// Excludes a source, if it is a member.
fn exclude(members: &mut [Member], source: Addr)
    ensures { members.new ≡ map (without_end source.bits) members.old }
{
    for member in members.iter_mut() {
        *member = member.without_end(source);
    }
}

/// Lowers the timers of the named sources to the timestamp.
fn lower(members: &mut [Member], sources: &[Addr], end: u64)
    ensures { members.new ≡ map (with_end_lowered sources.now end) members.old }
{
    for member in members.iter_mut() {
        *member = member.with_end_lowered(sources, end);
    }
}

/// Keeps the members whose timers run past the timestamp.
fn keep_running(members: &mut Members, moment: u64)
    ensures { members.new.items ≡ filter (λ m. option_map_or (nat_lt moment) m.end false) members.old.items }
{
    members.retain(|member| member.runs_past(moment));
}

/// Takes a source out.
fn remove(members: &mut Members, source: Addr)
    ensures { members.new.items ≡ filter (λ m. not (m.source.bits == source.bits)) members.old.items }
{
    members.retain(|member| member.source.bits != source.bits);
}
