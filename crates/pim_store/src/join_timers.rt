//! The Join timers: they are in the entries of the index, and a queue has when they expire.
ghost use Rattle.std.specs.Prelude.{◌≡◌, ◌+◌, IfSome, OnErr, OnOk, cond, is_some};
ghost use Rattle.std.specs.Iterator.{YieldsFirst, item_count};
ghost use Rattle.pim_source_trie.specs.Entries.{entry_key};
ghost use Rattle.pim_types.specs.Keys.{same_key};
ghost use Rattle.pim_store.specs.JoinTimers.{AreLent};
ghost use Rattle.pim_store.specs.Said.{timers_in};

use crate::entry::Entry;
use pim_source_trie::{AllEntries, Entries, Meter, SourceTrie};
use pim_tables::{ReadRows, arm_row};
use pim_timers::Queue;
use pim_types::fact::JoinTimerRow;
use pim_types::{IfaceId, Key};
use std::alloc::AllocError;
use std::marker::Model;

/// The Join timers that are left, by rising key.
pub struct JoinTimerRows<'a> {
    entries: AllEntries<'a, Entry>,
}

// Written out, so that it is proved once (docs/PROOF_NOTES.md, Drops).
impl<'a> Drop for JoinTimerRows<'a> {
    fn drop(self) {
        let JoinTimerRows { entries: _ } = self;
    }
}

impl<'a> Model for JoinTimerRows<'a> {
    ghost use Rattle.pim_model.specs.Tables.{Table};
    ghost use Rattle.pim_store.specs.Said.{timers_in};
    ghost use Rattle.pim_types.specs.declared.fact.JoinTimerRow.{JoinTimerRow as RowValue};

    ghost Value = { Table RowValue };

    ghost view = { λ w. timers_in w.entries };
}

impl<'a> JoinTimerRows<'a> {
    // The Join timers of all entries.
    pub(crate) fn among(entries: AllEntries<'a, Entry>) -> Self
        ensures { result ≡ timers_in entries.entry }
    {
        JoinTimerRows { entries }
    }
}

impl<'a> Iterator for JoinTimerRows<'a> {
    type Item = (Key, JoinTimerRow);

    ghost next_gives = { YieldsFirst (λ rest. rest) };

    ghost remaining = { item_count (λ rest. rest) };

    #[tactic(auto, unfolding(crate::specs::Said::timers_in, pim_tables::specs::RowsIn::rows_in))]
    fn next(&mut self) -> Option<(Key, JoinTimerRow)> {
        while let Some((key, entry)) = self.entries.next() {
            if let Some(row) = entry.join_timer() {
                return Some((key, row));
            }
        }
        None
    }
}

/// The Join timers of a group that are left, by rising key.
pub struct GroupJoinTimers<'a> {
    entries: Entries<'a, Entry>,
}

// Written out, so that it is proved once (docs/PROOF_NOTES.md, Drops).
impl<'a> Drop for GroupJoinTimers<'a> {
    fn drop(self) {
        let GroupJoinTimers { entries: _ } = self;
    }
}

impl<'a> Model for GroupJoinTimers<'a> {
    ghost use Rattle.pim_model.specs.Tables.{Table};
    ghost use Rattle.pim_store.specs.Said.{timers_in};
    ghost use Rattle.pim_types.specs.declared.fact.JoinTimerRow.{JoinTimerRow as RowValue};

    ghost Value = { Table RowValue };

    ghost view = { λ w. timers_in w.entries };
}

impl<'a> GroupJoinTimers<'a> {
    // The Join timers of the entries of a group.
    pub(crate) fn among(entries: Entries<'a, Entry>) -> Self
        ensures { result ≡ timers_in entries.entry }
    {
        GroupJoinTimers { entries }
    }
}

impl<'a> Iterator for GroupJoinTimers<'a> {
    type Item = (Key, JoinTimerRow);

    ghost next_gives = { YieldsFirst (λ rest. rest) };

    ghost remaining = { item_count (λ rest. rest) };

    #[tactic(auto, unfolding(crate::specs::Said::timers_in, pim_tables::specs::RowsIn::rows_in))]
    fn next(&mut self) -> Option<(Key, JoinTimerRow)> {
        while let Some((key, entry)) = self.entries.next() {
            if let Some(row) = entry.join_timer() {
                return Some((key, row));
            }
        }
        None
    }
}

// The key of the Join timer of the key's group, or of its source.
pub(crate) fn timer_key(key: Key) -> Key
    ensures { result ≡ entry_key key.group key.source }
{
    Key {
        iface: IfaceId::NONE,
        rpt: false,
        ..key
    }
}

// Whether the key is one of the whole router, of a group or of a source.
pub(crate) fn is_placed(key: Key) -> bool
    ensures { result ≡ same_key key (entry_key key.group key.source) }
{
    key == timer_key(key)
}

// The Join timers in the entries, as the queue of their expiries looks them up.
pub(crate) struct Lent<'a> {
    entries: &'a SourceTrie<Entry>,
    count: usize,
}

// Written out, so that it is proved once (docs/PROOF_NOTES.md, Drops).
impl<'a> Drop for Lent<'a> {
    fn drop(self) {
        let Lent {
            entries: _,
            count: _,
        } = self;
    }
}

impl<'a> Model for Lent<'a> {
    ghost use Rattle.pim_model.specs.Tables.{Table};
    ghost use Rattle.pim_store.specs.JoinTimers.{AreLent};
    ghost use Rattle.pim_store.specs.Said.{timers_in};
    ghost use Rattle.pim_types.specs.declared.fact.JoinTimerRow.{JoinTimerRow as RowValue};

    ghost Value = { Table RowValue };

    ghost view = { λ l. timers_in l.entries.now };

    ghost invariant = { λ l. AreLent l.entries.now l.count };
}

impl<'a> Lent<'a> {
    // The Join timers of the entries, `count` of them.
    pub(crate) fn of(entries: &'a SourceTrie<Entry>, count: usize) -> Self
        requires { AreLent entries.now count }
        ensures { result ≡ timers_in entries.now }
    {
        Lent { entries, count }
    }
}

impl<'a> ReadRows<JoinTimerRow> for Lent<'a> {
    type Count = Meter;

    ghost table = { λ l. l };

    fn count(&self) -> usize {
        self.count
    }

    fn proof_rise(&self) {
        // For the proof: the keys rise.
        let _ = self.entries.is_empty();
    }

    fn has(&self, key: Key, meter: &mut Meter) -> bool {
        ReadRows::<JoinTimerRow>::get(self, key, meter).is_some()
    }

    fn get(&self, key: Key, meter: &mut Meter) -> Option<JoinTimerRow> {
        // For the proof: the keys rise.
        let _ = self.entries.is_empty();
        if !is_placed(key) {
            return None;
        }
        match self.entries.get(key.group, key.source, meter) {
            Some(entry) => entry.join_timer(),
            None => None,
        }
    }

    fn arm_all(&self, queue: &mut Queue, meter: &mut Meter) {
        for (key, row) in JoinTimerRows::among(self.entries.iter(meter)) {
            arm_row(queue, key, row);
        }
    }
}

// How many timers there are after one was removed, if there was one, and one added, if there is one; `None` where they
// are too many to count.
pub(crate) fn counted(
    count: usize,
    before: Option<JoinTimerRow>,
    after: Option<JoinTimerRow>,
) -> Option<usize>
    ensures { IfSome result (λ n. n + cond (is_some before) 1 0 ≡ count + cond (is_some after) 1 0) }
{
    let left = if before.is_some() {
        count.checked_sub(1)?
    } else {
        count
    };
    if after.is_some() {
        left.checked_add(1)
    } else {
        Some(left)
    }
}

// The count after a call that may have been refused.
pub(crate) fn count_after(set: &Result<(), AllocError>, after: usize, before: usize) -> usize
    ensures ok { OnOk set.now (result ≡ after) }
    ensures err { OnErr set.now (result ≡ before) }
{
    match set {
        Ok(()) => after,
        Err(_) => before,
    }
}
