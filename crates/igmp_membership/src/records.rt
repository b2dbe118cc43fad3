//! The records of one kind, of groups or of their sources, with the interfaces that have them.
ghost use Rattle.std.specs.Prelude.{◌≡◌, ◌<◌, ◌≤◌, ◌+◌, [], refl, length, ℕ, Bool, None, Option, Some, IfOk, IfSome, IsTrue, OnErr, OnOk, false, true, filter, is_some, nat_lt, option_map};
ghost use Rattle.std.specs.List.{AllByRecursion, list_all, list_any};
ghost use Rattle.std.specs.List.Sorted.{IsStrictlySortedBy};
ghost use Rattle.std.specs.Option.{option_map_or};
ghost use Rattle.pim_model.specs.Clearing.{first_by};
ghost use Rattle.pim_model.specs.Records.{is_at_group};
ghost use Rattle.pim_model.specs.Tables.{change_row, drop_at, drop_where, has_row, keys_in, put, row_at, rows_on, set_row};
ghost use Rattle.pim_model.specs.Timers.{is_ending_first};
ghost use Rattle.pim_tables.specs.Ends.{due_of, row_endings};
ghost use Rattle.pim_tables.specs.RowsOf.{first_key};
ghost use Rattle.pim_types.specs.Keys.{iface_in, is_on, key_cmp, names_source};
ghost use Rattle.pim_ifset.specs.Members.{has};
ghost use Rattle.igmp_membership.specs.Sources.{Gathers};
ghost use Rattle.igmp_membership.specs.Listing.{IsListed, Lists, is_listed_anew, is_record_key, record_key};

use crate::index::Index;
use crate::listed::Listed;
use pim_ip::Addr;
use pim_source_trie::Meter;
use pim_tables::{Ends, RowsOf, Timed, To};
use pim_types::fact::{GroupRecordRow, SourceRecordRow};
use pim_types::{IfaceId, Key, SourceGroup, Timer};
use std::alloc::{AllocError, Global};
use std::collections::BTreeMap;
use std::collections::btree_map::Iter;
use std::marker::Model;

// A row with a timer that may run.
pub(crate) trait Record: Ends {
    // Whether a row's timer runs.
    ghost runs: { Self → Bool };

    // Whether the rows are of sources of groups, and not of the groups.
    ghost of_sources: { Bool };

    // Whether the row's timer runs.
    fn is_running(self) -> bool
        ensures { result ≡ runs self };

    // A record has one timer: its kind of row has no second one.
    ghost one_end: { Self.kinds.1 ≡ None };
}

impl Record for GroupRecordRow {
    ghost runs = { λ r. is_some r.end };

    ghost of_sources = { false };

    fn is_running(self) -> bool {
        self.end.is_some()
    }

    ghost one_end = { refl };
}

impl Record for SourceRecordRow {
    ghost runs = { λ r. is_some r.end };

    ghost of_sources = { true };

    fn is_running(self) -> bool {
        self.end.is_some()
    }

    ghost one_end = { refl };
}

// The records of one kind.
pub(crate) struct Records<R: Record> {
    rows: Timed<R>,
    index: Index,
}

// Written out, so that it is proved once (docs/PROOF_NOTES.md, Drops).
impl<R: Record> Drop for Records<R> {
    fn drop(self) {
        let Records { rows: _, index: _ } = self;
    }
}

impl<R: Record> Model for Records<R> {
    ghost use Rattle.pim_model.specs.Tables.{Table};
    ghost use Rattle.igmp_membership.specs.Sources.{Gathers};
    ghost use Rattle.igmp_membership.specs.Listing.{IsListed};

    ghost Value = { Table R };

    ghost view = { λ a. a.rows };

    ghost invariant = { λ a. IsListed R.runs R.of_sources a.index a.rows };
}

impl<R: Record> Records<R> {
    // A table without records. Takes no memory.
    pub(crate) fn new(alloc: Global) -> Records<R>
        ensures { result ≡ [] }
    {
        Records {
            rows: Timed::new(alloc),
            index: Index::new(alloc),
        }
    }

    // How many records there are.
    pub(crate) fn len(&self) -> usize
        ensures { result ≡ length self.now }
    {
        self.rows.len()
    }

    // For the proof: the records are under keys that rise. Does nothing when it runs.
    pub(crate) fn proof_rising(&self)
        ensures { IsStrictlySortedBy key_cmp (keys_in self.now) }
    {
        self.rows.proof_rising();
    }

    // For the proof: each record is under a key of its kind, and of no (S,G,rpt). Does nothing when it runs.
    pub(crate) fn proof_kind(&self)
        ensures fit { AllByRecursion (λ e. is_record_key e.0 ≡ true) self.now }
        ensures kind { AllByRecursion (λ e. is_some (e.0).source ≡ R.of_sources) self.now }
    {
        self.rows.proof_rising();
    }

    // The records, by rising key; each is of an interface below 120.
    pub(crate) fn iter(&self) -> Iter<'_, Key, R>
        ensures rows { result ≡ self.now }
        ensures below { IsTrue (list_all (λ e. nat_lt (iface_in e.0) 120) result) }
    {
        self.rows.rows().iter()
    }

    // The records of a group on an interface, by rising key; if there is one, the interface is below 120.
    pub(crate) fn rows_at(&self, iface: IfaceId, group: Addr) -> RowsOf<'_, R>
        ensures rows { result ≡ filter (λ e. is_at_group iface.number group.bits e.0) self.now }
        ensures near { 0 < length result → iface.number < 120 }
    {
        self.rows.rows().rows_at(iface, group)
    }

    // The record under the key.
    pub(crate) fn get(&self, key: Key) -> Option<R>
        ensures { result ≡ row_at self.now key }
    {
        self.rows.get(key)
    }

    // Whether there is a record under the key.
    pub(crate) fn contains(&self, key: Key) -> bool
        ensures { result ≡ has_row self.now key }
    {
        self.rows.contains(key)
    }

    // Which record's timer expires first, and when, in ms.
    pub(crate) fn next(&self) -> Option<(u64, Timer)>
        ensures { result ≡ option_map due_of (first_by is_ending_first (row_endings R.kinds R.ends self.now)) }
    {
        self.rows.next()
    }

    // The interfaces with a record of the group, where `source` is `None`, or of its source.
    pub(crate) fn listed(&self, group: Addr, source: Option<Addr>, meter: &mut Meter) -> Listed
        ensures there { (i : ℕ) → has result.there i ≡ has_row self.now (record_key i group source) }
        ensures running { (i : ℕ)
            → has result.running i ≡ option_map_or R.runs (row_at self.now (record_key i group source)) false }
        ensures at_most { meter.new ≤ meter.old + 66 }
        ensures star_at_most { source ≡ None → meter.new ≤ meter.old + 33 }
    {
        self.index.get(group, source, meter)
    }

    // Whether the source of the group has a record, on any interface.
    pub(crate) fn has_source(&self, name: SourceGroup, meter: &mut Meter) -> bool
        ensures any { result ≡ list_any (names_source name.group.bits name.source.bits) (keys_in self.now) }
        ensures at_most { meter.new ≤ meter.old + 66 }
    {
        // For the proof: the keys rise, and what form they have.
        self.proof_rising();
        self.proof_kind();
        let listed = self.listed(name.group, Some(name.source), meter);
        !listed.there.without_tunnel().is_empty()
    }

    // Adds the group's sources that have a record, on any interface, to a set of sources. The error is want of memory.
    pub(crate) fn gather_sources(
        &self,
        group: Addr,
        found: &mut BTreeMap<Addr, (), Global>,
        meter: &mut Meter,
    ) -> Result<(), AllocError>
        ensures { OnOk result (Gathers found.old.entries found.new.entries group.bits self.now) }
    {
        // For the proof: the keys rise, and what form they have.
        self.proof_rising();
        self.proof_kind();
        self.index.proof_keyed();
        for (key, marked) in self.index.walk(group, meter) {
            let Some(source) = key.source else {
                continue;
            };
            if !marked.there.without_tunnel().is_empty() {
                found.insert(source, ())?;
            }
        }
        Ok(())
    }

    // Sets the record of a group, where `source` is `None`, or of its source, on the interface, or removes it. The
    // error is want of memory.
    #[tactic(auto, unfolding(pim_model::specs::Tables::set_row))]
    pub(crate) fn set(
        &mut self,
        iface: IfaceId,
        group: Addr,
        source: Option<Addr>,
        row: Option<R>,
        meter: &mut Meter,
    ) -> Result<(), AllocError>
        requires below { iface.number < 120 }
        requires kind { is_some source ≡ R.of_sources }
        ensures { OnOk result (self.new ≡ set_row self.old (record_key iface.number group source) row) }
    {
        match row {
            Some(row) => self.put(record_key(iface, group, source), row, meter),
            None => {
                self.remove(iface, group, source, meter);
                Ok(())
            }
        }
    }

    // Puts the record under the key, replacing one that is there. The error is want of memory.
    fn put(&mut self, key: Key, row: R, meter: &mut Meter) -> Result<(), AllocError>
        requires fit { IsTrue (is_record_key key) }
        requires kind { is_some key.source ≡ R.of_sources }
        ensures { OnOk result (self.new ≡ put self.old key row) }
    {
        // For the proof: what is put under a key with a record takes the place of that record.
        self.proof_rising();
        if self.update(key, row, meter)? {
            return Ok(());
        }
        self.add(key, row, meter)
    }

    // Replaces the record under the key, if there is one. The result is whether there is one. It is looked up once. The
    // error is want of memory.
    fn update(&mut self, key: Key, row: R, meter: &mut Meter) -> Result<bool, AllocError>
        ensures changed { OnOk result (self.new ≡ change_row (λ _. Some row) key self.old) }
        ensures there { IfOk result (λ there. there ≡ has_row self.old key) }
    {
        // For the proof: a key is listed once.
        self.rows.proof_rising();
        let Some(before) = self.rows.update(None, key, To { row })? else {
            return Ok(false);
        };
        if !is_listed_anew(before, row) {
            return Ok(true);
        }
        if let Err(refused) = list_record(&mut self.index, key, row, meter) {
            // The index lists the record as it was before.
            drop_listed(&mut self.rows, &mut self.index, key, meter);
            return Err(refused);
        }
        Ok(true)
    }

    // Puts a record under a key that has none. An error is want of memory.
    fn add(&mut self, key: Key, row: R, meter: &mut Meter) -> Result<(), AllocError>
        requires fit { IsTrue (is_record_key key) }
        requires kind { is_some key.source ≡ R.of_sources }
        requires absent { row_at self.old key ≡ None }
        ensures { OnOk result (self.new ≡ put self.old key row) }
    {
        list_record(&mut self.index, key, row, meter)?;
        if let Err(refused) = self.rows.add(key, row) {
            drop_listed(&mut self.rows, &mut self.index, key, meter);
            return Err(refused);
        }
        Ok(())
    }

    // Removes the record.
    pub(crate) fn remove(
        &mut self,
        iface: IfaceId,
        group: Addr,
        source: Option<Addr>,
        meter: &mut Meter,
    )
        ensures { self.new ≡ drop_at self.old (record_key iface.number group source) }
    {
        self.rows.remove(record_key(iface, group, source));
        self.index.unlist(iface, group, source, meter);
    }

    // Replaces the record under the key, if there is one. The error is want of memory.
    pub(crate) fn change(&mut self, key: Key, row: R, meter: &mut Meter) -> Result<(), AllocError>
        ensures to { OnOk result (self.new ≡ change_row (λ _. Some row) key self.old) }
        ensures by { OnOk result ((change : R → Option R)
            → IfSome (row_at self.old key) (λ before. change before ≡ Some row)
            → self.new ≡ change_row change key self.old) }
    {
        // For the proof: a key is listed once.
        self.proof_rising();
        self.update(key, row, meter)?;
        Ok(())
    }

    // The key of the first record of the group on the interface.
    fn first_of_group(&self, iface: IfaceId, group: Addr) -> Option<Key>
        ensures first { result ≡ first_key (filter (λ e. is_at_group iface.number group.bits e.0) self.now) }
        ensures kind { IfSome result (λ key. IsTrue (is_record_key key)) }
    {
        self.rows.proof_rising();
        let (key, _) = self.rows.rows().rows_at(iface, group).next()?;
        Some(*key)
    }

    // The key of the interface's first record.
    fn first_on(&self, iface: IfaceId) -> Option<Key>
        ensures first { result ≡ first_key (rows_on iface.number self.now) }
        ensures kind { IfSome result (λ key. IsTrue (is_record_key key)) }
    {
        self.rows.proof_rising();
        let (key, _) = self.rows.rows().rows_on(iface).next()?;
        Some(*key)
    }

    // Whether a record is of the interface.
    pub(crate) fn has_on(&self, iface: IfaceId) -> bool
        ensures { result ≡ list_any (is_on iface.number) (keys_in self.now) }
    {
        self.rows.rows().has_on(iface)
    }

    // Removes the group's records on the interface.
    pub(crate) fn drop_group(&mut self, iface: IfaceId, group: Addr, meter: &mut Meter)
        ensures { self.new ≡ drop_where (is_at_group iface.number group.bits) self.old }
    {
        while let Some(key) = self.first_of_group(iface, group) {
            self.remove(key.iface, key.group, key.source, meter);
        }
    }

    // Removes the interface's records.
    pub(crate) fn drop_on(&mut self, iface: IfaceId, meter: &mut Meter)
        ensures { self.new ≡ drop_where (is_on iface.number) self.old }
    {
        while let Some(key) = self.first_on(iface) {
            self.remove(key.iface, key.group, key.source, meter);
        }
    }
}

// The key of a record of the group, where `source` is `None`, or of its source.
fn record_key(iface: IfaceId, group: Addr, source: Option<Addr>) -> Key
    ensures { result ≡ record_key iface.number group source }
{
    Key {
        iface,
        group,
        source,
        rpt: false,
    }
}

// Whether the row is listed differently from the one before.
fn is_listed_anew<R: Record>(before: R, row: R) -> bool
    ensures { result ≡ is_listed_anew R.runs before row }
{
    before.is_running() != row.is_running()
}

// Lists the interface of the key as the row under the key has it. The error is want of memory, and then nothing has
// changed.
fn list_record<R: Record>(
    index: &mut Index,
    key: Key,
    row: R,
    meter: &mut Meter,
) -> Result<(), AllocError>
    requires { IsTrue (is_record_key key) }
    ensures ok { OnOk result (Lists index.old index.new key (Some (R.runs row))) }
    ensures err { OnErr result (index.new ≡ index.old) }
{
    index.list(key.iface, key.group, key.source, row.is_running(), meter)
}

// Removes the record under the key, and its interface from the index.
fn drop_listed<R: Record>(rows: &mut Timed<R>, index: &mut Index, key: Key, meter: &mut Meter)
    requires { IsTrue (is_record_key key) }
    ensures removed { rows.new ≡ drop_at rows.old key }
    ensures unlisted { Lists index.old index.new key None }
{
    rows.remove(key);
    index.unlist(key.iface, key.group, key.source, meter);
}
