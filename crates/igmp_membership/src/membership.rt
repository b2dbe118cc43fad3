//! The membership facts.
ghost use Rattle.std.specs.Prelude.{◌≡◌, ◌<◌, ◌≤◌, ◌+◌, ◌^◌, ◌&&◌, ℕ, None, Some, IfOk, IfSome, IsTrue, OnOk, Option, false, filter, length, not, map, nat_lt, option_map, true};
ghost use Rattle.std.specs.List.{AllByRecursion, list_all, list_any};
ghost use Rattle.std.specs.List.Sorted.{IsStrictlySortedBy};
ghost use Rattle.std.specs.Ordering.{nat_cmp};
ghost use Rattle.pim_ifset.specs.Members.{has};
ghost use Rattle.law_settled.specs.Laws.{is_under_source};
ghost use Rattle.pim_model.specs.Clearing.{first_by};
ghost use Rattle.pim_model.specs.Receivers.{is_exclude_among, local_receiver_exclude_among, local_receiver_include_among};
ghost use Rattle.pim_model.specs.Records.{is_at_group};
ghost use Rattle.pim_model.specs.Tables.{change_row, drop_at, drop_where, has_row, keys_in, put, row_at, set_row};
ghost use Rattle.pim_model.specs.Timers.{is_ending_first};
ghost use Rattle.pim_model.specs.Upstream.{sources_of};
ghost use Rattle.pim_tables.specs.Ends.{due_of};
ghost use Rattle.pim_types.specs.Keys.{iface_in, iface_key, is_on, key_cmp, names_source, source_in, source_key, star_key};
ghost use Rattle.pim_types.specs.declared.fact.GroupRecordRow.{GroupRecordRow as GroupRecord};
ghost use Rattle.pim_types.specs.declared.fact.SourceRecordRow.{SourceRecordRow as SourceRecord};
ghost use Rattle.igmp_membership.specs.MembershipTables.{AllRise, are_of_kind, counted_records, membership_endings, membership_keys, no_membership};
ghost use Rattle.igmp_membership.specs.Sources.{NameNone};

use crate::records::Records;
use crate::repeats::Repeats;
use crate::sendings::Sendings;
use crate::stale_queries::{StaleQueries, would_lack};
use pim_ifset::IfSet;
use pim_ip::Addr;
use pim_source_trie::Meter;
use pim_tables::{RowsOf, Timed, earlier};
use pim_types::fact::{
    GroupRecordRow, GroupRepeatRow, QuerierRow, SendingRow, SourceRecordRow, SourceRepeatRow,
};
use pim_types::{IfaceId, Key, SourceGroup, Timer};
use std::alloc::{AllocError, Global};
use std::collections::BTreeMap;
use std::collections::btree_map::Iter;
use std::marker::Model;

/// The interfaces with receivers of a source of a group.
#[derive(Clone, Copy)]
pub struct SourceReceivers {
    /// The group is in INCLUDE mode there, and lists the source.
    pub included: IfSet,
    /// The group is in EXCLUDE mode there, and the source is excluded.
    pub excluded: IfSet,
}

/// The IGMP membership facts of the router (RFC 3376, sections 4 and 6). After want of memory in a call that changes
/// them, nothing is promised of their values, but all that is stated of every membership still holds. A call that is
/// lent a meter raises it by the trie nodes that it visits.
pub struct Membership {
    queriers: Timed<QuerierRow>,
    group_records: Records<GroupRecordRow>,
    source_records: Records<SourceRecordRow>,
    group_repeats: Repeats<GroupRepeatRow>,
    source_repeats: Repeats<SourceRepeatRow>,
    sendings: Sendings,
    // Which of the sendings may be of a source without a record.
    stale_queries: StaleQueries,
}

// Written out, so that it is proved once (docs/PROOF_NOTES.md, Drops).
impl Drop for Membership {
    fn drop(self) {
        let Membership {
            queriers: _,
            group_records: _,
            source_records: _,
            group_repeats: _,
            source_repeats: _,
            sendings: _,
            stale_queries: _,
        } = self;
    }
}

impl Model for Membership {
    ghost use Rattle.igmp_membership.specs.MembershipTables.{MembershipTables};

    ghost Value = { MembershipTables };

    ghost view = { λ m. record {
      queriers = m.queriers;
      group_records = m.group_records;
      source_records = m.source_records;
      group_repeats = m.group_repeats;
      source_repeats = m.source_repeats;
      sendings = m.sendings;
    } };

    ghost use Rattle.igmp_membership.specs.MembershipTables.{AreHeld};
    ghost use Rattle.igmp_membership.specs.StaleQueries.{HaveRecords};

    ghost invariant = { λ m. AreHeld m.queriers × HaveRecords m.stale_queries m.source_records m.sendings };
}

impl Membership {
    /// Membership without facts. Takes no memory.
    pub fn new(alloc: Global) -> Membership
        ensures { result ≡ no_membership }
    {
        Membership {
            queriers: Timed::new(alloc),
            group_records: Records::new(alloc),
            source_records: Records::new(alloc),
            group_repeats: Repeats::new(alloc),
            source_repeats: Repeats::new(alloc),
            sendings: Sendings::new(alloc),
            stale_queries: StaleQueries::Empty,
        }
    }

    /// The querier of the interface.
    pub fn querier(&self, iface: IfaceId) -> Option<QuerierRow>
        ensures row { result ≡ row_at self.now.queriers (iface_key iface.number) }

        // This holds of every querier: its robustness variable has 3 bits.
        ensures robust { IfSome result (λ row. row.robustness ≤ 7) }
    {
        self.queriers.get(Key::iface(iface))
    }

    /// The querier under the key.
    pub fn querier_at(&self, key: Key) -> Option<QuerierRow>
        ensures { result ≡ row_at self.now.queriers key }
    {
        self.queriers.get(key)
    }

    /// The queriers, by rising key.
    pub fn querier_rows(&self) -> Iter<'_, Key, QuerierRow>
        ensures { result ≡ self.now.queriers }
    {
        self.queriers.rows().iter()
    }

    /// Sets the querier of the interface; its robustness variable has 3 bits. The error is want of memory.
    pub fn put_querier(&mut self, iface: IfaceId, row: QuerierRow) -> Result<(), AllocError>
        requires { row.robustness ≤ 7 }
        ensures { OnOk result (self.new
            ≡ record self.old { queriers = put self.old.queriers (iface_key iface.number) row }) }
    {
        self.queriers.put(Key::iface(iface), row)
    }

    /// Replaces the querier of the interface, if it has one; the new robustness variable has 3 bits. The error is want
    /// of memory.
    pub fn change_querier(&mut self, iface: IfaceId, row: QuerierRow) -> Result<(), AllocError>
        requires { row.robustness ≤ 7 }
        ensures { OnOk result (self.new ≡ record self.old {
          queriers = change_row (λ _. Some row) (iface_key iface.number) self.old.queriers;
        }) }
    {
        self.queriers.change(Key::iface(iface), row)
    }

    /// The group record of the group on the interface.
    pub fn group_record(&self, iface: IfaceId, group: Addr) -> Option<GroupRecordRow>
        ensures { result ≡ row_at self.now.group_records (star_key iface.number group.bits) }
    {
        self.group_records.get(Key::star(iface, group))
    }

    /// Whether there is a group record under the key.
    pub fn has_group_record(&self, key: Key) -> bool
        ensures { result ≡ has_row self.now.group_records key }
    {
        self.group_records.contains(key)
    }

    /// The group records, by rising key; each is of an interface below 120.
    pub fn group_record_rows(&self) -> Iter<'_, Key, GroupRecordRow>
        ensures rows { result ≡ self.now.group_records }
        ensures below { IsTrue (list_all (λ e. nat_lt (iface_in e.0) 120) result) }
    {
        self.group_records.iter()
    }

    /// Sets the record of the group on the interface, or removes it. The error is want of memory.
    pub fn set_group_record(
        &mut self,
        iface: IfaceId,
        group: Addr,
        row: Option<GroupRecordRow>,
        meter: &mut Meter,
    ) -> Result<(), AllocError>
        requires { iface.number < 120 }
        ensures { OnOk result (self.new ≡ record self.old {
          group_records = set_row self.old.group_records (star_key iface.number group.bits) row;
        }) }
    {
        self.group_records.set(iface, group, None, row, meter)
    }

    /// Removes the group's record on the interface.
    pub fn remove_group_record(&mut self, iface: IfaceId, group: Addr, meter: &mut Meter)
        ensures { self.new ≡ record self.old {
          group_records = drop_at self.old.group_records (star_key iface.number group.bits);
        } }
    {
        self.group_records.remove(iface, group, None, meter);
    }

    /// Replaces the group's record on the interface, if there is one. The error is want of memory.
    pub fn change_group_record(
        &mut self,
        iface: IfaceId,
        group: Addr,
        row: GroupRecordRow,
        meter: &mut Meter,
    ) -> Result<(), AllocError>
        ensures to { OnOk result (self.new ≡ record self.old {
          group_records = change_row (λ _. Some row) (star_key iface.number group.bits) self.old.group_records;
        }) }
        ensures by { OnOk result ((change : GroupRecord → Option GroupRecord)
            → IfSome (row_at self.old.group_records (star_key iface.number group.bits))
            (λ before. change before ≡ Some row)
            → self.new ≡ record self.old {
              group_records = change_row change (star_key iface.number group.bits) self.old.group_records;
            }) }
    {
        self.group_records
            .change(Key::star(iface, group), row, meter)
    }

    /// The record of the source of the group on the interface.
    pub fn source_record(
        &self,
        iface: IfaceId,
        group: Addr,
        source: Addr,
    ) -> Option<SourceRecordRow>
        ensures { result ≡ row_at self.now.source_records (source_key iface.number group.bits source.bits) }
    {
        self.source_records.get(Key::source(iface, group, source))
    }

    /// The source records, by rising key; each is of an interface below 120.
    pub fn source_record_rows(&self) -> Iter<'_, Key, SourceRecordRow>
        ensures rows { result ≡ self.now.source_records }
        ensures below { IsTrue (list_all (λ e. nat_lt (iface_in e.0) 120) result) }
    {
        self.source_records.iter()
    }

    /// Whether there is a source record under the key.
    pub fn has_source_record(&self, key: Key) -> bool
        ensures { result ≡ has_row self.now.source_records key }
    {
        self.source_records.contains(key)
    }

    /// The source records of the group on the interface, by rising key; where there is one, the interface is below 120.
    pub fn source_records_at(&self, iface: IfaceId, group: Addr) -> RowsOf<'_, SourceRecordRow>
        ensures rows { result ≡ filter (λ e. is_at_group iface.number group.bits e.0) self.now.source_records }
        ensures near { 0 < length result → iface.number < 120 }

        // Each record is under the key of a source, so the sources rise too.
        ensures rising { IsStrictlySortedBy nat_cmp (map (λ e. source_in e.0) result) }
    {
        // For the proof: how the keys are made, and that they rise.
        self.source_records.proof_kind();
        self.source_records.proof_rising();
        self.source_records.rows_at(iface, group)
    }

    /// Sets the record of the source of the group on the interface, or removes it. The error is want of memory.
    pub fn set_source_record(
        &mut self,
        iface: IfaceId,
        group: Addr,
        source: Addr,
        row: Option<SourceRecordRow>,
        meter: &mut Meter,
    ) -> Result<(), AllocError>
        requires { iface.number < 120 }
        ensures { OnOk result (self.new ≡ record self.old {
          source_records = set_row self.old.source_records (source_key iface.number group.bits source.bits) row;
        }) }
    {
        let key = Key::source(iface, group, source);
        let stale_queries = self.stale_queries.with_key(key, row.is_none());
        // After want of memory any record may be gone.
        self.stale_queries = StaleQueries::Any;
        self.source_records
            .set(iface, group, Some(source), row, meter)?;
        self.stale_queries = stale_queries;
        Ok(())
    }

    /// Removes the record of the source of the group on the interface.
    pub fn remove_source_record(
        &mut self,
        iface: IfaceId,
        group: Addr,
        source: Addr,
        meter: &mut Meter,
    )
        ensures { self.new ≡ record self.old {
          source_records = drop_at self.old.source_records (source_key iface.number group.bits source.bits);
        } }
    {
        let key = Key::source(iface, group, source);
        self.source_records
            .remove(iface, group, Some(source), meter);
        self.stale_queries = self.stale_queries.with_key(key, true);
    }

    /// Replaces the source record under the key, if there is one. The error is want of memory.
    pub fn change_source_record(
        &mut self,
        key: Key,
        row: SourceRecordRow,
        meter: &mut Meter,
    ) -> Result<(), AllocError>
        ensures { OnOk result (self.new ≡ record self.old {
          source_records = change_row (λ _. Some row) key self.old.source_records;
        }) }
    {
        let stale_queries = self.stale_queries;
        // After want of memory any record may be gone.
        self.stale_queries = StaleQueries::Any;
        self.source_records.change(key, row, meter)?;
        self.stale_queries = stale_queries;
        Ok(())
    }

    /// For the proof: source records are under keys that rise. Does nothing when it runs.
    pub fn proof_rising_source_records(&self)
        ensures { IsStrictlySortedBy key_cmp (keys_in self.now.source_records) }
    {
        self.source_records.proof_rising();
    }

    /// For the proof: the keys of each table rise. Does nothing when it runs.
    pub fn proof_rising(&self)
        ensures { AllRise self.now }
    {
        self.queriers.proof_rising();
        self.group_records.proof_rising();
        self.source_records.proof_rising();
        self.group_repeats.proof_rising();
        self.source_repeats.proof_rising();
        self.sendings.proof_rising();
    }

    /// For the proof: each fact is under a key of its kind, and the robustness variable of each querier has 3 bits. Does
    /// nothing when it runs.
    pub fn proof_kinds(&self)
        ensures { IsTrue (are_of_kind self.now) }
    {
        self.group_records.proof_kind();
        self.source_records.proof_kind();
        self.group_repeats.proof_kind();
        self.source_repeats.proof_kind();
        self.sendings.proof_kind();
    }

    /// For the proof: source records are each under the key of a source of a group. Does nothing when it runs.
    pub fn proof_keyed_source_records(&self)
        ensures { AllByRecursion (λ e. is_under_source e ≡ true) self.now.source_records }
    {
        self.source_records.proof_kind();
    }

    /// Removes the source records of the group on the interface.
    pub fn drop_source_records(&mut self, iface: IfaceId, group: Addr, meter: &mut Meter)
        ensures { self.new ≡ record self.old {
          source_records = drop_where (is_at_group iface.number group.bits) self.old.source_records;
        } }
    {
        self.source_records.drop_group(iface, group, meter);
        self.stale_queries = self.stale_queries.with_group(iface, group);
    }

    /// The repeats of a group-specific query that are still to leave, under the key.
    pub fn group_repeat_at(&self, key: Key) -> Option<GroupRepeatRow>
        ensures { result ≡ row_at self.now.group_repeats key }
    {
        self.group_repeats.get(key)
    }

    /// The repeats of group-specific queries, by rising key.
    pub fn group_repeat_rows(&self) -> Iter<'_, Key, GroupRepeatRow>
        ensures { result ≡ self.now.group_repeats }
    {
        self.group_repeats.iter()
    }

    /// Sets when and how often the group-specific query is repeated on the interface, or stops its repeats. The error
    /// is want of memory.
    pub fn set_group_repeat(
        &mut self,
        iface: IfaceId,
        group: Addr,
        row: Option<GroupRepeatRow>,
    ) -> Result<(), AllocError>
        ensures { OnOk result (self.new ≡ record self.old {
          group_repeats = set_row self.old.group_repeats (star_key iface.number group.bits) row;
        }) }
    {
        self.group_repeats.set(iface, group, row)
    }

    /// Stops the repeats of the group-specific query on the interface.
    pub fn remove_group_repeat(&mut self, iface: IfaceId, group: Addr)
        ensures { self.new ≡ record self.old {
          group_repeats = drop_at self.old.group_repeats (star_key iface.number group.bits);
        } }
    {
        self.group_repeats.remove(iface, group);
    }

    /// Changes when and how often the group-specific query is repeated on the interface, if it is, or stops its
    /// repeats. The error is want of memory.
    pub fn change_group_repeat(
        &mut self,
        iface: IfaceId,
        group: Addr,
        row: Option<GroupRepeatRow>,
    ) -> Result<(), AllocError>
        ensures { OnOk result (self.new ≡ record self.old {
          group_repeats = change_row (λ _. row) (star_key iface.number group.bits) self.old.group_repeats;
        }) }
    {
        self.group_repeats.change(iface, group, row)
    }

    /// The repeats of group-and-source-specific queries, by rising key.
    pub fn source_repeat_rows(&self) -> Iter<'_, Key, SourceRepeatRow>
        ensures { result ≡ self.now.source_repeats }
    {
        self.source_repeats.iter()
    }

    /// Sets when the group's sources on the interface are queried again, or stops that. The error is want of memory.
    pub fn set_source_repeat(
        &mut self,
        iface: IfaceId,
        group: Addr,
        row: Option<SourceRepeatRow>,
    ) -> Result<(), AllocError>
        ensures { OnOk result (self.new ≡ record self.old {
          source_repeats = set_row self.old.source_repeats (star_key iface.number group.bits) row;
        }) }
    {
        self.source_repeats.set(iface, group, row)
    }

    /// Stops the repeated queries of the group's sources on the interface.
    pub fn remove_source_repeat(&mut self, iface: IfaceId, group: Addr)
        ensures { self.new ≡ record self.old {
          source_repeats = drop_at self.old.source_repeats (star_key iface.number group.bits);
        } }
    {
        self.source_repeats.remove(iface, group);
    }

    /// Changes when the group's sources on the interface are queried again, if they are, or stops that. The error is
    /// want of memory.
    pub fn change_source_repeat(
        &mut self,
        iface: IfaceId,
        group: Addr,
        row: Option<SourceRepeatRow>,
    ) -> Result<(), AllocError>
        ensures { OnOk result (self.new ≡ record self.old {
          source_repeats = change_row (λ _. row) (star_key iface.number group.bits) self.old.source_repeats;
        }) }
    {
        self.source_repeats.change(iface, group, row)
    }

    /// The sendings, by rising key: how often each source is still to be named in queries.
    pub fn sending_rows(&self) -> Iter<'_, Key, SendingRow>
        ensures { result ≡ self.now.sendings }
    {
        self.sendings.iter()
    }

    /// The sendings of the group's sources on the interface, by rising key.
    pub fn sendings_at(&self, iface: IfaceId, group: Addr) -> RowsOf<'_, SendingRow>
        ensures { result ≡ filter (λ e. is_at_group iface.number group.bits e.0) self.now.sendings }
    {
        self.sendings.rows_at(iface, group)
    }

    /// Sets how often the source of the group is still to be named in queries on the interface, or stops that. The
    /// error is want of memory.
    pub fn set_sending(
        &mut self,
        iface: IfaceId,
        group: Addr,
        source: Addr,
        row: Option<SendingRow>,
    ) -> Result<(), AllocError>
        ensures { OnOk result (self.new ≡ record self.old {
          sendings = set_row self.old.sendings (source_key iface.number group.bits source.bits) row;
        }) }
    {
        let key = Key::source(iface, group, source);
        let is_lacking = would_lack(&self.source_records, key, row);
        let stale_queries = self.stale_queries.with_key(key, is_lacking);
        // After want of memory any sending may be left.
        self.stale_queries = StaleQueries::Any;
        self.sendings.set(iface, group, source, row)?;
        self.stale_queries = stale_queries;
        Ok(())
    }

    /// Changes the sending under the key, if there is one, or removes it.
    pub fn change_sending(&mut self, key: Key, row: Option<SendingRow>)
        ensures { self.new ≡ record self.old { sendings = change_row (λ _. row) key self.old.sendings } }
    {
        self.sendings.change(key, row);
    }

    /// Removes the sendings of those of the group's sources on the interface that have no record. If since the last
    /// such call at most one record was removed, and none together with the others of its group, only the sending of
    /// that source is looked at. The error is want of memory.
    pub fn drop_unrecorded(
        &mut self,
        alloc: Global,
        iface: IfaceId,
        group: Addr,
    ) -> Result<(), AllocError>
        ensures { OnOk result (self.new ≡ record self.old {
          sendings = drop_where (λ k. is_at_group iface.number group.bits k && not (has_row self.old.source_records k))
              self.old.sendings;
        }) }
    {
        self.stale_queries.discard(
            &self.source_records,
            &mut self.sendings,
            alloc,
            iface,
            group,
        )?;
        self.stale_queries = self.stale_queries.without(iface, group);
        Ok(())
    }

    /// For the proof: sendings are under keys that rise. Does nothing when it runs.
    pub fn proof_rising_sendings(&self)
        ensures { IsStrictlySortedBy key_cmp (keys_in self.now.sendings) }
    {
        self.sendings.proof_rising();
    }

    /// Whether a fact of a group or a source is of the interface.
    #[tactic(auto, using(crate::proofs::Found::any_of_five), unfolding(crate::specs::MembershipTables::membership_keys))]
    pub fn has_on(&self, iface: IfaceId) -> bool
        ensures { result ≡ list_any (is_on iface.number) (membership_keys self.now) }
    {
        self.group_records.has_on(iface)
            || self.source_records.has_on(iface)
            || self.group_repeats.has_on(iface)
            || self.source_repeats.has_on(iface)
            || self.sendings.has_on(iface)
    }

    /// Removes all facts of the interface.
    pub fn drop_on(&mut self, iface: IfaceId, meter: &mut Meter)
        ensures { self.new ≡ record {
          queriers = drop_where (is_on iface.number) self.old.queriers;
          group_records = drop_where (is_on iface.number) self.old.group_records;
          source_records = drop_where (is_on iface.number) self.old.source_records;
          group_repeats = drop_where (is_on iface.number) self.old.group_repeats;
          source_repeats = drop_where (is_on iface.number) self.old.source_repeats;
          sendings = drop_where (is_on iface.number) self.old.sendings;
        } }
    {
        self.queriers.drop_on(iface);
        self.group_records.drop_on(iface, meter);
        self.source_records.drop_on(iface, meter);
        // This isn't a call of `drop_repeats_on`: the sendings are of sources without a record until they are removed
        // too.
        self.group_repeats.drop_on(iface);
        self.source_repeats.drop_on(iface);
        self.sendings.drop_on(iface);
    }

    /// Removes the repeats and the sendings of the interface, where another router is the querier.
    pub fn drop_repeats_on(&mut self, iface: IfaceId)
        ensures { self.new ≡ record self.old {
          group_repeats = drop_where (is_on iface.number) self.old.group_repeats;
          source_repeats = drop_where (is_on iface.number) self.old.source_repeats;
          sendings = drop_where (is_on iface.number) self.old.sendings;
        } }
    {
        self.group_repeats.drop_on(iface);
        self.source_repeats.drop_on(iface);
        self.sendings.drop_on(iface);
    }

    /// The sources of the group with any fact, ascending. Of other groups one sending on each interface is read. The
    /// error is want of memory.
    pub fn sources_of(
        &self,
        alloc: Global,
        group: Addr,
        meter: &mut Meter,
    ) -> Result<BTreeMap<Addr, (), Global>, AllocError>
        ensures { IfOk result (λ found. map (λ e. (e.0).bits) found.entries
            ≡ sources_of group.bits (membership_keys self.now)) }
    {
        // For the proof: no other fact is of a source.
        self.proof_keyed();
        let mut found = BTreeMap::new(alloc);
        self.source_records
            .gather_sources(group, &mut found, meter)?;
        self.sendings.gather_sources(group, &mut found)?;
        // For the proof: the sources rise.
        let _ = found.len();
        Ok(found)
    }

    // For the proof: no fact but source records and sendings is of a source. Does nothing when it runs.
    fn proof_keyed(&self)
        ensures records { NameNone self.now.group_records }
        ensures group_repeats { NameNone self.now.group_repeats }
        ensures source_repeats { NameNone self.now.source_repeats }
    {
        self.group_records.proof_kind();
        self.group_repeats.proof_no_source();
        self.source_repeats.proof_no_source();
    }

    /// Whether there is any fact of the source of the group. The meter rises by 66 nodes at most.
    pub fn has_facts(&self, name: SourceGroup, meter: &mut Meter) -> bool
        ensures any { result ≡ list_any (names_source name.group.bits name.source.bits) (membership_keys self.now) }
        ensures at_most { meter.new ≤ meter.old + 66 }
    {
        // For the proof: no other fact is of a source.
        self.proof_keyed();
        self.source_records.has_source(name, meter) || self.sendings.has_source(name)
    }

    /// How many facts count: the group records and the source records.
    #[tactic(auto, unfolding(crate::specs::MembershipTables::counted_records))]
    pub fn count(&self) -> u128
        ensures count { result ≡ counted_records self.now }
        ensures within { result < 2 ^ 65 }
    {
        self.group_records.len() as u128 + self.source_records.len() as u128
    }

    /// Which timer expires first, and when, in ms: the least by timestamp, then by kind, then by key. `None` where no
    /// timer runs.
    pub fn next(&self) -> Option<(u64, Timer)>
        ensures { result ≡ option_map due_of (first_by is_ending_first (membership_endings self.now)) }
    {
        let records = earlier(self.group_records.next(), self.source_records.next());
        let queries = earlier(records, self.queriers.next());
        earlier(
            earlier(queries, self.group_repeats.next()),
            self.source_repeats.next(),
        )
    }

    /// The interfaces on which the group is in EXCLUDE mode: it has receivers of all its sources but the excluded ones.
    /// The meter rises by 33 nodes at most.
    pub fn receivers_star(&self, group: Addr, meter: &mut Meter) -> IfSet
        ensures interfaces { (i : ℕ) → has result i ≡ is_exclude_among self.now.group_records group.bits i }
        ensures tunnel { result.tunnel ≡ false }
        ensures at_most { meter.new ≤ meter.old + 33 }
    {
        self.group_records
            .listed(group, None, meter)
            .running
            .without_tunnel()
    }

    /// The interfaces with receivers that ask for this source of the group, and those with receivers that exclude it.
    /// The group and the source are each looked up once: the meter rises by 99 nodes at most.
    pub fn receivers_of(&self, name: SourceGroup, meter: &mut Meter) -> SourceReceivers
        ensures included { (i : ℕ) → has result.included i ≡ local_receiver_include_among self.now.group_records
            self.now.source_records name.group.bits name.source.bits i }
        ensures excluded { (i : ℕ) → has result.excluded i ≡ local_receiver_exclude_among self.now.group_records
            self.now.source_records name.group.bits name.source.bits i }
        ensures tunnel { (result.included.tunnel ≡ false) × (result.excluded.tunnel ≡ false) }
        ensures at_most { meter.new ≤ meter.old + 99 }
    {
        let groups = self.group_records.listed(name.group, None, meter);
        let sources = self
            .source_records
            .listed(name.group, Some(name.source), meter);
        let include = groups.there.minus(groups.running);
        let stopped = sources.there.minus(sources.running);
        SourceReceivers {
            included: include.intersection(sources.there).without_tunnel(),
            excluded: groups.running.intersection(stopped).without_tunnel(),
        }
    }
}
