//! The PIM facts.
ghost use Rattle.std.specs.Prelude.{◌≡◌, ◌<◌, ◌≤◌, ◌+◌, ◌^◌, ◌==◌, ◌++◌, ◌&&◌, ℕ, None, Some, IsTrue, IfOk, OnOk, false, filter, is_some, length, nat_lt, not, option_map, true};
ghost use Rattle.std.specs.List.{list_all, list_any};
ghost use Rattle.pim_ifset.specs.Members.{has};
ghost use Rattle.pim_model.specs.Clearing.{first_by};
ghost use Rattle.pim_model.specs.Downstream.{is_named};
ghost use Rattle.pim_model.specs.Sets.{is_loser, is_winner};
ghost use Rattle.pim_model.specs.Tables.{change_row, drop_at, drop_where, has_row, keys_in, put, row_at, set_row};
ghost use Rattle.pim_model.specs.Timers.{is_ending_first};
ghost use Rattle.pim_model.specs.Upstream.{groups_of, sources_of};
ghost use Rattle.pim_tables.specs.Ends.{due_of};
ghost use Rattle.pim_types.specs.Keys.{group_in, iface_in, is_of_group, is_on, names_source, rpt_key, same_key, source_key};
ghost use Rattle.pim_store.specs.Bare.{IsWithoutTunnel};
ghost use Rattle.pim_store.specs.PimTables.{AllRise, AreKeyed, are_of_kind, counted_facts, fact_key, is_prune, kept_alive, lowered_join_timer, no_facts, stored_endings, stored_keys};

use crate::changes::{KeepAlive, Lowering};
use crate::entry::Entry;
use crate::index::{Index, row_says};
use crate::join_timers::{GroupJoinTimers, JoinTimerRows};
use crate::marks::{Mark, Marks};
use crate::rows::{
    add_row, change_row, drop_row, drop_rows_on, put_row, remove_row, set_row, update_row,
};
use crate::walks::Sources;
use pim_ip::Addr;
use pim_source_trie::{Groups, Meter};
use pim_tables::{Placed, PlacedRows, RowsOf, Timed, To, earlier};
use pim_types::fact::{
    AssertRow, DownstreamRow, JoinTimerRow, OverrideTimerRow, RegisterRow, SourceRow,
};
use pim_types::{IfaceId, Key, SourceGroup, Timer};
use std::alloc::{AllocError, Global};
use std::collections::BTreeSet;
use std::collections::btree_map::Iter;
use std::marker::Model;

/// The PIM facts of the router. After want of memory in a call that changes them, nothing is promised of their values,
/// but all that is stated of every store still holds. A call that is lent a meter raises it by the trie nodes that it
/// visits. The marks of a group, or of a source, are in a trie, and the Join timer with them.
pub struct Store {
    downstream: Timed<DownstreamRow>,
    asserts: Timed<AssertRow>,
    override_timers: Timed<OverrideTimerRow>,
    sources: Timed<SourceRow, Placed<SourceRow>>,
    registers: Timed<RegisterRow>,
    index: Index,
}

// Written out, so that it is proved once (docs/PROOF_NOTES.md, Drops).
impl Drop for Store {
    fn drop(self) {
        let Store {
            downstream: _,
            asserts: _,
            override_timers: _,
            sources: _,
            registers: _,
            index: _,
        } = self;
    }
}

impl Model for Store {
    ghost use Rattle.pim_store.specs.PimTables.{PimTables};

    ghost Value = { PimTables };

    ghost use Rattle.pim_store.specs.Stored.{IsIndexed, tables_of};

    ghost view = { tables_of };

    ghost invariant = { λ s. IsIndexed s.index (tables_of s) };
}

// The key of (*,G), where `source` is `None`, or of (S,G), of the whole router.
fn plain_key(group: Addr, source: Option<Addr>) -> Key
    ensures { result ≡ fact_key 0 group source false }
{
    Key {
        iface: IfaceId::NONE,
        group,
        source,
        rpt: false,
    }
}

impl Store {
    /// A store without facts. The error is want of memory.
    pub fn new(alloc: Global) -> Result<Store, AllocError>
        ensures { IfOk result (λ store. store ≡ no_facts) }
    {
        Ok(Store {
            downstream: Timed::new(alloc),
            asserts: Timed::new(alloc),
            override_timers: Timed::new(alloc),
            sources: Timed::new(alloc),
            registers: Timed::new(alloc),
            index: Index::new(alloc),
        })
    }

    /// The downstream states, by rising key; each is of an interface below 120.
    pub fn downstream_rows(&self) -> Iter<'_, Key, DownstreamRow>
        ensures rows { result ≡ self.now.downstream }
        ensures below { IsTrue (list_all (λ e. nat_lt (iface_in e.0) 120) result) }
    {
        self.downstream.rows().iter()
    }

    /// The asserts, by rising key; each is of an interface below 120.
    pub fn assert_rows(&self) -> Iter<'_, Key, AssertRow>
        ensures rows { result ≡ self.now.asserts }
        ensures below { IsTrue (list_all (λ e. nat_lt (iface_in e.0) 120) result) }
    {
        self.asserts.rows().iter()
    }

    /// The Join timers, by rising key.
    pub fn join_timer_rows<'a>(&'a self, meter: &'a mut Meter) -> JoinTimerRows<'a>
        ensures { result ≡ self.now.join_timers }
    {
        self.index.timers(meter)
    }

    /// The override timers, by rising key.
    pub fn override_timer_rows(&self) -> Iter<'_, Key, OverrideTimerRow>
        ensures { result ≡ self.now.override_timers }
    {
        self.override_timers.rows().iter()
    }

    /// The sources, by rising key.
    pub fn source_rows(&self) -> PlacedRows<'_, SourceRow>
        ensures { result ≡ self.now.sources }
    {
        self.sources.rows().iter()
    }

    /// The registers, by rising key.
    pub fn register_rows(&self) -> Iter<'_, Key, RegisterRow>
        ensures { result ≡ self.now.registers }
    {
        self.registers.rows().iter()
    }

    /// The downstream state under the key.
    pub fn downstream(&self, key: Key) -> Option<DownstreamRow>
        ensures { result ≡ row_at self.now.downstream key }
    {
        self.downstream.get(key)
    }

    /// Whether there is a downstream state under the key.
    pub fn has_downstream(&self, key: Key) -> bool
        ensures { result ≡ has_row self.now.downstream key }
    {
        self.downstream.contains(key)
    }

    /// The assert under the key.
    pub fn assert_at(&self, key: Key) -> Option<AssertRow>
        ensures { result ≡ row_at self.now.asserts key }
    {
        self.asserts.get(key)
    }

    /// The Join timer of (*,G), where `source` is `None`, or of (S,G). The meter rises by 66 nodes at most.
    pub fn join_timer(
        &self,
        group: Addr,
        source: Option<Addr>,
        meter: &mut Meter,
    ) -> Option<JoinTimerRow>
        ensures timer { result ≡ row_at self.now.join_timers (fact_key 0 group source false) }
        ensures at_most { meter.new ≤ meter.old + 66 }
    {
        self.index.timer(plain_key(group, source), meter)
    }

    /// The override timer under the key.
    pub fn override_timer(&self, key: Key) -> Option<OverrideTimerRow>
        ensures { result ≡ row_at self.now.override_timers key }
    {
        self.override_timers.get(key)
    }

    /// The source under the key.
    pub fn source(&self, key: Key) -> Option<SourceRow>
        ensures { result ≡ row_at self.now.sources key }
    {
        self.sources.get(key)
    }

    /// The place of the source's row, if it has one. It is valid as long as the row is there, as a hint for
    /// `keep_alive`.
    pub fn source_place(&self, name: SourceGroup) -> Option<usize>
        ensures { is_some result ≡ has_row self.now.sources (source_key 0 name.group.bits name.source.bits) }
    {
        self.sources.rows().place(name.key())
    }

    /// The register under the key.
    pub fn register(&self, key: Key) -> Option<RegisterRow>
        ensures { result ≡ row_at self.now.registers key }
    {
        self.registers.get(key)
    }

    /// Puts this downstream state under the key, or removes the one that is there. The error is want of memory.
    pub fn set_downstream(
        &mut self,
        key: Key,
        row: Option<DownstreamRow>,
        meter: &mut Meter,
    ) -> Result<(), AllocError>
        requires { key.iface.number < 120 }
        ensures { OnOk result (self.new ≡ record self.old { downstream = set_row self.old.downstream key row }) }
    {
        set_row(&mut self.downstream, &mut self.index, key, row, meter)
    }

    /// Sets the assert of (*,G), where `source` is `None`, or of (S,G), on the interface, or removes it. The error is
    /// want of memory.
    pub fn set_assert(
        &mut self,
        iface: IfaceId,
        group: Addr,
        source: Option<Addr>,
        row: Option<AssertRow>,
        meter: &mut Meter,
    ) -> Result<(), AllocError>
        requires { iface.number < 120 }
        ensures { OnOk result (self.new ≡ record self.old {
          asserts = set_row self.old.asserts (fact_key iface.number group source false) row;
        }) }
    {
        let key = Key {
            iface,
            group,
            source,
            rpt: false,
        };
        set_row(&mut self.asserts, &mut self.index, key, row, meter)
    }

    /// Sets the Join timer of (*,G), where `source` is `None`, or of (S,G), or removes it. The error is want of memory.
    pub fn set_join_timer(
        &mut self,
        group: Addr,
        source: Option<Addr>,
        row: Option<JoinTimerRow>,
        meter: &mut Meter,
    ) -> Result<(), AllocError>
        ensures { OnOk result (self.new ≡ record self.old {
          join_timers = set_row self.old.join_timers (fact_key 0 group source false) row;
        }) }
    {
        self.index.set_timer(plain_key(group, source), row, meter)
    }

    /// Sets the override timer of (S,G,rpt), or removes it. The error is want of memory.
    pub fn set_override_timer(
        &mut self,
        name: SourceGroup,
        row: Option<OverrideTimerRow>,
        meter: &mut Meter,
    ) -> Result<(), AllocError>
        ensures { OnOk result (self.new ≡ record self.old {
          override_timers = set_row self.old.override_timers (rpt_key 0 name.group.bits name.source.bits) row;
        }) }
    {
        let key = name.rpt_key();
        set_row(&mut self.override_timers, &mut self.index, key, row, meter)
    }

    /// Sets the row of the source of the group, or removes it. The error is want of memory.
    pub fn set_source(
        &mut self,
        name: SourceGroup,
        row: Option<SourceRow>,
        meter: &mut Meter,
    ) -> Result<(), AllocError>
        ensures { OnOk result (self.new ≡ record self.old {
          sources = set_row self.old.sources (source_key 0 name.group.bits name.source.bits) row;
        }) }
    {
        let key = name.key();
        set_row(&mut self.sources, &mut self.index, key, row, meter)
    }

    /// Sets when the keepalive timer of the source of the group expires, in ms, and gives the source a row if it has
    /// none. A row that is there is looked up once, or not at all where the hint is its place (`source_place`); either
    /// way the meter is unchanged. The result doesn't depend on the hint. The error is want of memory.
    pub fn keep_alive(
        &mut self,
        name: SourceGroup,
        end: u64,
        hint: Option<usize>,
        meter: &mut Meter,
    ) -> Result<(), AllocError>
        ensures state { OnOk result (self.new ≡ record self.old {
          sources = put self.old.sources (source_key 0 name.group.bits name.source.bits)
              (kept_alive end (row_at self.old.sources (source_key 0 name.group.bits name.source.bits)));
        }) }
        ensures kept { OnOk result (IsTrue (has_row self.old.sources (source_key 0 name.group.bits name.source.bits))
            → meter.new ≡ meter.old) }
    {
        // For the proof: a key is listed once.
        self.sources.proof_rising();
        let key = name.key();
        let change = KeepAlive { end };
        if update_row(&mut self.sources, &mut self.index, hint, key, change, meter)? {
            return Ok(());
        }
        let row = SourceRow {
            keepalive: Some(end),
            spt: false,
        };
        add_row(&mut self.sources, &mut self.index, key, row, meter)
    }

    /// Sets the register state of the source of the group, or removes it. The error is want of memory.
    pub fn set_register(
        &mut self,
        name: SourceGroup,
        row: Option<RegisterRow>,
        meter: &mut Meter,
    ) -> Result<(), AllocError>
        ensures { OnOk result (self.new ≡ record self.old {
          registers = set_row self.old.registers (source_key 0 name.group.bits name.source.bits) row;
        }) }
    {
        let key = name.key();
        set_row(&mut self.registers, &mut self.index, key, row, meter)
    }

    /// If there is a downstream state under the key, replaces it. The error is want of memory.
    pub fn change_downstream(
        &mut self,
        key: Key,
        row: DownstreamRow,
        meter: &mut Meter,
    ) -> Result<(), AllocError>
        ensures { OnOk result (self.new
            ≡ record self.old { downstream = change_row (λ before. Some row) key self.old.downstream }) }
    {
        change_row(&mut self.downstream, &mut self.index, key, Some(row), meter)
    }

    /// Removes the downstream state under the key, if there is one.
    pub fn drop_downstream(&mut self, key: Key, meter: &mut Meter)
        ensures { self.new ≡ record self.old { downstream = drop_at self.old.downstream key } }
    {
        drop_row(&mut self.downstream, &mut self.index, key, meter);
    }

    /// If there is an assert under the key, replaces it. The error is want of memory.
    pub fn change_assert(
        &mut self,
        key: Key,
        row: AssertRow,
        meter: &mut Meter,
    ) -> Result<(), AllocError>
        ensures { OnOk result (self.new
            ≡ record self.old { asserts = change_row (λ before. Some row) key self.old.asserts }) }
    {
        change_row(&mut self.asserts, &mut self.index, key, Some(row), meter)
    }

    /// Removes the assert under the key, if there is one.
    pub fn drop_assert(&mut self, key: Key, meter: &mut Meter)
        ensures { self.new ≡ record self.old { asserts = drop_at self.old.asserts key } }
    {
        drop_row(&mut self.asserts, &mut self.index, key, meter);
    }

    /// If there is a source under the key, replaces its row or removes it. The error is want of memory.
    pub fn change_source(
        &mut self,
        key: Key,
        row: Option<SourceRow>,
        meter: &mut Meter,
    ) -> Result<(), AllocError>
        ensures { OnOk result (self.new
            ≡ record self.old { sources = change_row (λ before. row) key self.old.sources }) }
    {
        change_row(&mut self.sources, &mut self.index, key, row, meter)
    }

    /// If there is a register under the key, replaces it. The error is want of memory.
    pub fn change_register(
        &mut self,
        key: Key,
        row: RegisterRow,
        meter: &mut Meter,
    ) -> Result<(), AllocError>
        ensures { OnOk result (self.new
            ≡ record self.old { registers = change_row (λ before. Some row) key self.old.registers }) }
    {
        change_row(&mut self.registers, &mut self.index, key, Some(row), meter)
    }

    /// If there is a Join timer under the key, replaces it. The error is want of memory.
    pub fn change_join_timer(
        &mut self,
        key: Key,
        row: JoinTimerRow,
        meter: &mut Meter,
    ) -> Result<(), AllocError>
        ensures { OnOk result (self.new
            ≡ record self.old { join_timers = change_row (λ before. Some row) key self.old.join_timers }) }
    {
        self.index.change_timer(key, To { row }, meter)
    }

    /// Removes the override timer under the key, if there is one.
    pub fn drop_override_timer(&mut self, key: Key, meter: &mut Meter)
        ensures { self.new ≡ record self.old { override_timers = drop_at self.old.override_timers key } }
    {
        drop_row(&mut self.override_timers, &mut self.index, key, meter);
    }

    /// Lowers the Join timer under the key, if there is one, to this timestamp, in ms. The error is want of memory.
    pub fn lower_join_timer(
        &mut self,
        key: Key,
        end: u64,
        meter: &mut Meter,
    ) -> Result<(), AllocError>
        ensures { OnOk result (self.new
            ≡ record self.old { join_timers = change_row (lowered_join_timer end) key self.old.join_timers }) }
    {
        self.index.change_timer(key, Lowering { end }, meter)
    }

    /// Removes those asserts under the given keys that the router lost.
    pub fn end_losses(&mut self, keys: &[Key], meter: &mut Meter)
        ensures { self.new ≡ record self.old {
          asserts = filter (λ e. not (is_loser (Some e.1) && is_named keys.now e.0)) self.old.asserts;
        } }
    {
        for key in keys {
            self.end_loss(*key, meter);
        }
    }

    // Removes the assert under the key, if the router lost it.
    fn end_loss(&mut self, key: Key, meter: &mut Meter)
        ensures { self.new ≡ record self.old {
          asserts = filter (λ e. not (is_loser (Some e.1) && same_key e.0 key)) self.old.asserts;
        } }
    {
        // For the proof: the key is listed once.
        self.asserts.proof_rising();
        if row_says(self.asserts.get(key), Mark::Lost) {
            remove_row(&mut self.asserts, &mut self.index, key, meter);
        }
    }

    /// Whether a downstream state or an assert is of the interface.
    #[tactic(auto, using(crate::proofs::Walked::any_of_both))]
    pub fn has_on(&self, iface: IfaceId) -> bool
        ensures { result ≡ list_any (is_on iface.number) (keys_in self.now.downstream ++ keys_in self.now.asserts) }
    {
        self.downstream.rows().has_on(iface) || self.asserts.rows().has_on(iface)
    }

    /// Removes the downstream states and the asserts of the interface.
    pub fn drop_on(&mut self, iface: IfaceId, meter: &mut Meter)
        ensures { self.new ≡ record self.old {
          downstream = drop_where (is_on iface.number) self.old.downstream;
          asserts = drop_where (is_on iface.number) self.old.asserts;
        } }
    {
        drop_rows_on(&mut self.downstream, &mut self.index, iface, meter);
        drop_rows_on(&mut self.asserts, &mut self.index, iface, meter);
    }

    /// The groups with any fact, ascending.
    pub fn groups(&self, meter: &mut Meter) -> Groups<'_, Entry>
        ensures { result ≡ groups_of (stored_keys self.now) }
    {
        self.index.groups(meter)
    }

    /// The sources of the group with any fact, ascending. The meter rises by the nodes that lead to the group, and by
    /// all that lead on to its sources.
    pub fn sources_of(&self, group: Addr, meter: &mut Meter) -> Sources<'_>
        ensures { result ≡ sources_of group.bits (stored_keys self.now) }
    {
        Sources::among(self.index.walk(group, meter))
    }

    /// Adds the keys of the (S,G,rpt) downstream states of the given groups on the interface at the end of the list, by
    /// rising key. Of other groups only one state after each of the given ones is read.
    pub fn push_rpt_keys(
        &self,
        iface: IfaceId,
        groups: &BTreeSet<Addr>,
        keys: &mut Vec<Key>,
    ) -> Result<(), AllocError>
        ensures { OnOk result (keys.new.items ≡ keys.old.items
            ++ filter (λ k. is_on iface.number k && k.rpt && list_any (λ a. group_in k == a.bits) groups.now.keys)
            (keys_in self.now.downstream)) }
    {
        self.downstream.rows().push_rpt_keys(iface, groups, keys)
    }

    /// Adds the keys of the (S,G,rpt) downstream states of one group on the interface at the end of the list, by rising
    /// key. Of other groups only the next state is read.
    pub fn push_rpt_keys_at(
        &self,
        iface: IfaceId,
        group: Addr,
        keys: &mut Vec<Key>,
    ) -> Result<(), AllocError>
        ensures { OnOk result (keys.new.items ≡ keys.old.items
            ++ filter (λ k. is_on iface.number k && k.rpt && is_of_group group.bits k) (keys_in self.now.downstream)) }
    {
        self.downstream.rows().push_rpt_keys_at(iface, group, keys)
    }

    /// The Join timers of the group, by rising key: that of (*,G), then those of its sources. All its sources are gone
    /// through. The meter rises by the nodes that lead to the group, and by all that lead on to its sources.
    pub fn join_timers_of(&self, group: Addr, meter: &mut Meter) -> GroupJoinTimers<'_>
        ensures { result ≡ filter (λ e. is_of_group group.bits e.0) self.now.join_timers }
    {
        GroupJoinTimers::among(self.index.walk(group, meter))
    }

    /// The registers of the group, ascending by source. Of other groups only the next register is read.
    pub fn registers_of(&self, group: Addr) -> RowsOf<'_, RegisterRow>
        ensures { result ≡ filter (λ e. is_of_group group.bits e.0) self.now.registers }
    {
        self.registers.rows().rows_at(IfaceId::NONE, group)
    }

    /// Whether there is a fact of the source of the group. The meter rises by 66 nodes at most.
    pub fn has_facts(&self, name: SourceGroup, meter: &mut Meter) -> bool
        ensures has { result ≡ list_any (names_source name.group.bits name.source.bits) (stored_keys self.now) }
        ensures at_most { meter.new ≤ meter.old + 66 }
    {
        self.index.contains(name.group, name.source, meter)
    }

    /// For the proof: asserts, sources and registers are under keys of their kind, which rise.
    pub fn proof_keyed(&self)
        ensures { AreKeyed self.now }
    {
        self.asserts.proof_rising();
        self.sources.proof_rising();
        self.registers.proof_rising();
    }

    /// For the proof: the keys of each table rise. Does nothing when it runs.
    pub fn proof_rising(&self)
        ensures { AllRise self.now }
    {
        self.downstream.proof_rising();
        self.asserts.proof_rising();
        self.index.proof_keyed_timers();
        self.override_timers.proof_rising();
        self.sources.proof_rising();
        self.registers.proof_rising();
    }

    /// For the proof: each fact is under a key of its kind. Does nothing when it runs.
    pub fn proof_kinds(&self)
        ensures { IsTrue (are_of_kind self.now) }
    {
        self.index.proof_keyed_timers();
    }

    /// How many Join timers there are.
    pub fn join_timer_count(&self) -> usize
        ensures { result ≡ length self.now.join_timers }
    {
        self.index.timer_count()
    }

    /// How many sources there are.
    pub fn source_count(&self) -> usize
        ensures { result ≡ length self.now.sources }
    {
        self.sources.len()
    }

    /// How many facts count: the downstream states, the asserts and the sources.
    #[tactic(auto, unfolding(crate::specs::PimTables::counted_facts))]
    pub fn count(&self) -> u128
        ensures count { result ≡ counted_facts self.now }
        ensures within { result < 2 ^ 66 }
    {
        let states = self.downstream.len() as u128 + self.asserts.len() as u128;
        states + self.sources.len() as u128
    }

    /// Which timer expires first, and when, in ms: the least by timestamp, then by kind, then by key. `None` where no
    /// timer runs.
    pub fn next(&self) -> Option<(u64, Timer)>
        ensures { result ≡ option_map due_of (first_by is_ending_first (stored_endings self.now)) }
    {
        let states = earlier(self.downstream.next(), self.asserts.next());
        let sources = earlier(earlier(states, self.sources.next()), self.registers.next());
        earlier(
            earlier(sources, self.override_timers.next()),
            self.index.next_timer(),
        )
    }

    /// The marks of (*,G), where `source` is `None`, or of (S,G) with its (S,G,rpt): the interfaces that have
    /// downstream states and asserts, and which other facts there are. The meter rises by 33 nodes at most for (*,G),
    /// and by 66 for (S,G).
    pub fn marks(&self, group: Addr, source: Option<Addr>, meter: &mut Meter) -> Marks
        ensures joined { (i : ℕ) → has result.joined i ≡ has_row self.now.downstream (fact_key i group source false) }
        ensures branched { (i : ℕ)
            → has result.branched i ≡ has_row self.now.downstream (fact_key i group source true) }
        ensures pruned { (i : ℕ)
            → has result.pruned i ≡ is_prune (row_at self.now.downstream (fact_key i group source true)) }
        ensures lost { (i : ℕ)
            → has result.lost i ≡ is_loser (row_at self.now.asserts (fact_key i group source false)) }
        ensures won { (i : ℕ)
            → has result.won i ≡ is_winner (row_at self.now.asserts (fact_key i group source false)) }
        ensures join_timer { result.join_timer ≡ row_at self.now.join_timers (fact_key 0 group source false) }
        ensures override_timer { result.has_override_timer
            ≡ has_row self.now.override_timers (fact_key 0 group source true) }
        ensures source { result.has_source ≡ has_row self.now.sources (fact_key 0 group source false) }
        ensures register { result.has_register ≡ has_row self.now.registers (fact_key 0 group source false) }
        ensures tunnels { IsWithoutTunnel result }
        ensures at_most { meter.new ≤ meter.old + 66 }
        ensures star_at_most { source ≡ None → meter.new ≤ meter.old + 33 }
    {
        self.index.get(group, source, meter)
    }
}
