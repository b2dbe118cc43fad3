//! The marks of all groups and sources.
ghost use Rattle.std.specs.Prelude.{◌≡◌, ◌≤◌, ◌+◌, ◌&&◌, [], ℕ, IsTrue, None, Some, OnOk, OnErr, cond, false, filter, length, map, option_map};
ghost use Rattle.std.specs.List.{list_all};
ghost use Rattle.std.specs.List.Sorted.{IsStrictlySortedBy};
ghost use Rattle.pim_model.specs.Tables.{ascending, change_row, has_row, keys_in, row_at, set_row};
ghost use Rattle.pim_model.specs.Clearing.{first_by};
ghost use Rattle.pim_model.specs.Timers.{is_ending_first};
ghost use Rattle.pim_tables.specs.Ends.{due_of, row_endings};
ghost use Rattle.pim_types.specs.Keys.{group_in, is_of_group, key_cmp};
ghost use Rattle.pim_source_trie.specs.Entries.{entry_key};
ghost use Rattle.pim_store.specs.Entry.{with_plain};
ghost use Rattle.pim_store.specs.JoinTimers.{AreTimersBeside, AreTimersInStep, GivesBeside, IsThere, IsTimerArmed};
ghost use Rattle.pim_store.specs.PimTables.{is_plain_key};
ghost use Rattle.pim_store.specs.Said.{AreEntries, SetsMarks, KeepsMarks, Writes, WritesTimer, is_about, row_says, said, seen, source_bits, timer_in, timers_in, tunnel_in};
ghost use Rattle.pim_store.specs.declared.marks.Mark.{Mark as MarkValue};
ghost use Rattle.pim_store.specs.declared.marks.Marks.{Marks as MarksValue};

use crate::entry::{Entry, Marking, Unmarking};
use crate::join_timers::{JoinTimerRows, Lent, count_after, counted, is_placed, timer_key};
use crate::marks::{Mark, Marks};
use crate::telling::TellsMarks;
use pim_ip::Addr;
use pim_source_trie::{Entries, Groups, Meter, SourceTrie};
use pim_tables::{Change, EndQueue, Ends};
use pim_types::fact::JoinTimerRow;
use pim_types::{Key, Timer};
use std::alloc::{AllocError, Global};
use std::marker::Model;

// The marks of the groups and sources that have any.
#[derive(Drop)]
pub(crate) struct Index {
    alloc: Global,
    entries: SourceTrie<Entry>,
    ends: EndQueue<JoinTimerRow>,
    timers: usize,
}

impl Model for Index {
    ghost use Rattle.pim_model.specs.Tables.{Table};
    ghost use Rattle.pim_store.specs.declared.marks.Marks.{Marks};
    ghost use Rattle.pim_store.specs.JoinTimers.{AreKept};

    ghost Value = { Table Marks };

    ghost view = { λ a. a.entries };

    ghost invariant = { λ a. AreKept a.entries a.ends a.timers };
}

// Whether the row sets the mark; no row sets none.
pub(crate) fn row_says<R: TellsMarks>(row: Option<R>, mark: Mark) -> bool
    ensures { result ≡ row_says R.tells R.says mark row }
{
    match row {
        Some(row) => row.says(mark),
        None => false,
    }
}

// The marks of the key's group, or of its source, with those that the row under the key sets.
fn marked<R: TellsMarks>(marks: Marks, key: Key, row: Option<R>) -> Marks
    requires { IsTrue (R.fits key) }
    ensures marks { (x : MarkValue) (i : ℕ)
        → seen x result i ≡ cond (R.tells x && is_about x i key) (row_says R.tells R.says x row) (seen x marks i) }
    ensures tunnels { (x : MarkValue) → tunnel_in x result ≡ tunnel_in x marks }
    ensures timer { result.join_timer ≡ marks.join_timer }
{
    let (first, second) = R::told(key);
    let changed = marks.with(first, key.iface, row_says(row, first));
    match second {
        Some(second) => changed.with(second, key.iface, row_says(row, second)),
        None => changed,
    }
}

// Replaces the entry of a group, or of a source. The error is want of memory, and then nothing has changed.
fn write(
    alloc: Global,
    entries: &mut SourceTrie<Entry>,
    group: Addr,
    source: Option<Addr>,
    marks: Marks,
    meter: &mut Meter,
) -> Result<(), AllocError>
    requires bare { (x : MarkValue) → tunnel_in x marks ≡ false }
    requires entries { AreEntries entries.old }
    ensures ok { OnOk result (Writes entries.old entries.new (entry_key group source) marks) }
    ensures timers { OnOk result (WritesTimer entries.old entries.new (entry_key group source) marks.join_timer) }
    ensures err { OnErr result (entries.new ≡ entries.old) }
    ensures entries { AreEntries entries.new }
{
    if marks.is_empty() {
        entries.remove(group, source, meter);
        return Ok(());
    }
    let entry = Entry::of(alloc, marks)?;
    entries.put(group, source, entry, meter)
}

// Arms the timer queue for the Join timer that is to run under the key, if one is; the earlier timer's entry is kept.
// The error is want of memory.
fn arm_timer(
    ends: &mut EndQueue<JoinTimerRow>,
    key: Key,
    before: Option<JoinTimerRow>,
    after: Option<JoinTimerRow>,
) -> Result<(), AllocError>
    requires { IsTimerArmed ends.old key before }
    ensures ok { OnOk result (IsTimerArmed ends.new key after) }
    ensures before { IsTimerArmed ends.new key before }
    ensures beside { GivesBeside ends.old ends.new key }
{
    match after {
        Some(row) => ends.arm(key, before, row),
        None => Ok(()),
    }
}

// Arms the timer queue for the Join timer in the marks, if there is one, keeping the earlier timer's entry, and
// replaces the entry of the key's group, or of its source; the queue is still to be settled. The error is want of
// memory, and then no entry has changed.
fn write_armed(
    alloc: Global,
    entries: &mut SourceTrie<Entry>,
    ends: &mut EndQueue<JoinTimerRow>,
    key: Key,
    before: Option<JoinTimerRow>,
    marks: Marks,
    meter: &mut Meter,
) -> Result<(), AllocError>
    requires bare { (x : MarkValue) → tunnel_in x marks ≡ false }
    requires entries { AreEntries entries.old }
    requires placed { key ≡ entry_key key.group key.source }
    requires before { before ≡ row_at (timers_in entries.old) key }
    requires in_step { AreTimersInStep ends.old entries.old }
    ensures ok { OnOk result (Writes entries.old entries.new key marks) }
    ensures set { OnOk result (timers_in entries.new ≡ set_row (timers_in entries.old) key marks.join_timer) }
    ensures err { OnErr result (entries.new ≡ entries.old) }
    ensures entries { AreEntries entries.new }
    ensures rise { IsStrictlySortedBy key_cmp (keys_in (timers_in entries.old)) }
    ensures beside { AreTimersBeside ends.new entries.new key }
{
    // For the proof: the keys rise.
    let _ = entries.is_empty();
    arm_timer(ends, key, before, marks.join_timer)?;
    let written = write(alloc, entries, key.group, key.source, marks, meter);
    // For the proof: the keys still rise.
    let _ = entries.is_empty();
    written
}

impl Index {
    // An index without marks. Takes no memory.
    pub(crate) fn new(alloc: Global) -> Index
        ensures { result ≡ [] }
    {
        Index {
            alloc,
            entries: SourceTrie::new(alloc),
            ends: EndQueue::new(alloc),
            timers: 0,
        }
    }

    // The groups that have marks, or a source with some, ascending.
    pub(crate) fn groups(&self, meter: &mut Meter) -> Groups<'_, Entry>
        ensures groups { result ≡ ascending (map group_in (keys_in self.now)) }

        // This holds of every index.
        ensures entries { AreEntries self.now }
    {
        self.entries.groups(meter)
    }

    // The entries of a group, by rising key.
    pub(crate) fn walk(&self, group: Addr, meter: &mut Meter) -> Entries<'_, Entry>
        ensures entries { result ≡ filter (λ e. is_of_group group.bits e.0) self.now }

        // This holds of every index.
        ensures ascending { IsStrictlySortedBy key_cmp (keys_in self.now) }
        ensures all { AreEntries self.now }
    {
        // For the proof: the keys rise.
        let _ = self.entries.is_empty();
        self.entries.walk(group, meter)
    }

    // The marks of (*,G), where `source` is `None`, or of a source of the group.
    #[tactic(auto, unfolding(pim_trie::specs::Meter::raised))]
    pub(crate) fn get(&self, group: Addr, source: Option<Addr>, meter: &mut Meter) -> Marks
        ensures marks { (x : MarkValue) (i : ℕ) → seen x result i ≡ said self.now x i group.bits (source_bits source) }
        ensures bare { (x : MarkValue) → tunnel_in x result ≡ false }
        ensures timer { result.join_timer ≡ timer_in (row_at self.now (entry_key group source)) }
        ensures row { result.join_timer ≡ row_at (timers_in self.now) (entry_key group source) }
        ensures at_most { meter.new ≤ meter.old + 66 }
        ensures star_at_most { source ≡ None → meter.new ≤ meter.old + 33 }

        // This holds of every index.
        ensures ascending { IsStrictlySortedBy key_cmp (keys_in self.now) }
        ensures entries { AreEntries self.now }
    {
        // For the proof: the keys rise.
        let _ = self.entries.is_empty();
        match self.entries.get(group, source, meter) {
            Some(entry) => entry.marks(),
            None => Marks::none(),
        }
    }

    // Whether there are marks of the source of the group.
    #[tactic(auto, unfolding(pim_model::specs::Tables::has_row, pim_trie::specs::Meter::raised))]
    pub(crate) fn contains(&self, group: Addr, source: Addr, meter: &mut Meter) -> bool
        ensures found { result ≡ has_row self.now (entry_key group (Some source)) }
        ensures at_most { meter.new ≤ meter.old + 66 }

        // This holds of every index.
        ensures entries { AreEntries self.now }
    {
        match self.entries.get(group, Some(source), meter) {
            Some(_) => true,
            None => false,
        }
    }

    // Replaces the entry of the key's group, or of its source, whose Join timer is unchanged. The error is want of
    // memory, and then nothing has changed.
    fn keep(&mut self, key: Key, marks: Marks, meter: &mut Meter) -> Result<(), AllocError>
        requires bare { (x : MarkValue) → tunnel_in x marks ≡ false }
        requires timer { marks.join_timer ≡ timer_in (row_at self.old (entry_key key.group key.source)) }
        ensures ok { OnOk result (Writes self.old self.new (entry_key key.group key.source) marks) }
        ensures timers { timers_in self.new ≡ timers_in self.old }
        ensures err { OnErr result (self.new ≡ self.old) }
    {
        // For the proof: the keys rise.
        let _ = self.entries.is_empty();
        let written = write(
            self.alloc,
            &mut self.entries,
            key.group,
            key.source,
            marks,
            meter,
        );
        // For the proof: the keys still rise.
        let _ = self.entries.is_empty();
        written
    }

    // Sets or clears a mark of the key's group, or of its source, if that has an entry and every entry has room for the
    // mark. The result is whether there is an entry.
    fn set_plain(&mut self, key: Key, mark: Mark, is_set: bool, meter: &mut Meter) -> bool
        ensures there { result ≡ has_row self.old (entry_key key.group key.source) }
        ensures marks { (m : MarksValue) → row_at self.old (entry_key key.group key.source) ≡ Some m
            → Writes self.old self.new (entry_key key.group key.source) (with_plain mark key.iface.number is_set m) }
        ensures absent { result ≡ false → self.new ≡ self.old }
        ensures timers { timers_in self.new ≡ timers_in self.old }
    {
        // For the proof: the keys rise.
        let _ = self.entries.is_empty();
        let marking = Marking {
            mark,
            iface: key.iface,
            is_set,
        };
        self.entries.alter(key.group, key.source, marking, meter)
    }

    // Sets the marks that the row sets. The error is want of memory, and then nothing has changed. A mark that not
    // every entry has room for may need memory: the entry is then made anew.
    pub(crate) fn mark<R: TellsMarks>(
        &mut self,
        key: Key,
        row: R,
        meter: &mut Meter,
    ) -> Result<(), AllocError>
        requires { IsTrue (R.fits key) }
        ensures ok { OnOk result (SetsMarks R.tells R.says self.old self.new key (Some row)) }
        ensures timers { timers_in self.new ≡ timers_in self.old }
        ensures err { OnErr result (self.new ≡ self.old) }
    {
        let (first, second) = R::told(key);
        if second.is_some() || !first.is_plain() {
            let marks = self.get(key.group, key.source, meter);
            return self.keep(key, marked(marks, key, Some(row)), meter);
        }
        if self.set_plain(key, first, row.says(first), meter) {
            return Ok(());
        }
        let marks = marked(Marks::none(), key, Some(row));
        self.keep(key, marks, meter)
    }

    // Clears the marks that a row under the key set. Takes no memory.
    pub(crate) fn unmark<R: TellsMarks>(&mut self, key: Key, meter: &mut Meter)
        requires { IsTrue (R.fits key) }
        ensures marks { SetsMarks R.tells R.says self.old self.new key None }
        ensures timers { timers_in self.new ≡ timers_in self.old }
    {
        let (first, second) = R::told(key);
        // For the proof: the keys rise.
        let _ = self.entries.is_empty();
        let unmarking = Unmarking {
            first,
            second,
            iface: key.iface,
        };
        let _ = self.entries.alter(key.group, key.source, unmarking, meter);
    }

    // The Join timer of the key's group, or of its source.
    pub(crate) fn timer(&self, key: Key, meter: &mut Meter) -> Option<JoinTimerRow>
        ensures timer { result ≡ row_at (timers_in self.now) (entry_key key.group key.source) }
        ensures at_most { meter.new ≤ meter.old + 66 }
    {
        let marks = self.get(key.group, key.source, meter);
        marks.join_timer
    }

    // Which Join timer expires first, and when, in ms.
    pub(crate) fn next_timer(&self) -> Option<(u64, Timer)>
        ensures { result ≡ option_map due_of (first_by is_ending_first
            (row_endings ⟦<JoinTimerRow as Ends>⟧.kinds ⟦<JoinTimerRow as Ends>⟧.ends (timers_in self.now))) }
    {
        // For the proof: the keys rise.
        let _ = self.entries.is_empty();
        self.ends.first()
    }

    // All Join timers, by rising key.
    pub(crate) fn timers<'a>(&'a self, meter: &'a mut Meter) -> JoinTimerRows<'a>
        ensures { result ≡ timers_in self.now }
    {
        JoinTimerRows::among(self.entries.iter(meter))
    }

    // How many Join timers there are.
    pub(crate) fn timer_count(&self) -> usize
        ensures { result ≡ length (timers_in self.now) }
    {
        self.timers
    }

    // For the proof: the Join timers are under keys of (*,G) and (S,G), which rise. Does nothing when it runs.
    pub(crate) fn proof_keyed_timers(&self)
        ensures kind { IsTrue (list_all (λ e. is_plain_key e.0) (timers_in self.now)) }
        ensures rising { IsStrictlySortedBy key_cmp (keys_in (timers_in self.now)) }
    {
        // The contract of `is_empty` says that the keys of all entries rise.
        let _ = self.entries.is_empty();
    }

    // Sets or removes the Join timer of the key's group, or of its source, whose entry is given. The error is want of
    // memory, and then no timer has changed.
    fn set_known(
        &mut self,
        key: Key,
        marks: Marks,
        row: Option<JoinTimerRow>,
        meter: &mut Meter,
    ) -> Result<(), AllocError>
        requires { IsThere self.old key marks }
        ensures set { OnOk result (timers_in self.new
            ≡ set_row (timers_in self.old) (entry_key key.group key.source) row) }
        ensures marks { KeepsMarks self.old self.new }
        ensures err { OnErr result (self.new ≡ self.old) }
    {
        let key = timer_key(key);
        let Some(count) = counted(self.timers, marks.join_timer, row) else {
            return Err(AllocError);
        };
        let marks_after = Marks {
            join_timer: row,
            ..marks
        };
        let set = write_armed(
            self.alloc,
            &mut self.entries,
            &mut self.ends,
            key,
            marks.join_timer,
            marks_after,
            meter,
        );
        self.timers = count_after(&set, count, self.timers);
        self.ends
            .settle(&Lent::of(&self.entries, self.timers), key, meter);
        set
    }

    // Sets or removes the Join timer of the key's group, or of its source. The error is want of memory, and then no
    // timer has changed.
    pub(crate) fn set_timer(
        &mut self,
        key: Key,
        row: Option<JoinTimerRow>,
        meter: &mut Meter,
    ) -> Result<(), AllocError>
        ensures set { OnOk result (timers_in self.new
            ≡ set_row (timers_in self.old) (entry_key key.group key.source) row) }
        ensures marks { KeepsMarks self.old self.new }
    {
        let marks = self.get(key.group, key.source, meter);
        self.set_known(key, marks, row, meter)
    }

    // Changes the Join timer under the key, if there is one. The error is want of memory, and then no timer has
    // changed.
    pub(crate) fn change_timer<C: Change<JoinTimerRow>>(
        &mut self,
        key: Key,
        change: C,
        meter: &mut Meter,
    ) -> Result<(), AllocError>
        ensures changed { OnOk result (timers_in self.new
            ≡ change_row (λ before. Some (C.after change before)) key (timers_in self.old)) }
        ensures marks { KeepsMarks self.old self.new }
    {
        let marks = self.get(key.group, key.source, meter);
        let Some(before) = marks.join_timer else {
            return Ok(());
        };
        if !is_placed(key) {
            return Ok(());
        }
        self.set_known(key, marks, Some(change.after(before)), meter)
    }
}
