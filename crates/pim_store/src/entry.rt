//! The entry of a group, or of one of its sources.
ghost use Rattle.std.specs.Prelude.{◌≡◌, IfOk, false};
ghost use Rattle.pim_store.specs.Entry.{are_none, kept, with_mark, with_plain, without_either};

use crate::marks::{Mark, Marks, is_empty_set, put};
use crate::rare::{Rare, clear};
use pim_ifset::IfSet;
use pim_source_trie::Alter;
use pim_types::IfaceId;
use pim_types::fact::JoinTimerRow;
use std::alloc::{AllocError, Global};
use std::marker::Model;

// The entry of (*,G), or of (S,G) with its (S,G,rpt). Most entries have no block.
pub struct Entry {
    joined: IfSet,
    rare: Option<Box<Rare>>,
    join_timer: Option<JoinTimerRow>,
    has_override_timer: bool,
    has_source: bool,
    has_register: bool,
}

// Written out, so that it is proved once (docs/PROOF_NOTES.md, Drops).
impl Drop for Entry {
    fn drop(self) {
        let Entry {
            joined: _,
            rare: _,
            join_timer: _,
            has_override_timer: _,
            has_source: _,
            has_register: _,
        } = self;
    }
}

impl Model for Entry {
    ghost use Rattle.pim_store.specs.Entry.{IsNeeded, marks_of};
    ghost use Rattle.pim_store.specs.declared.marks.Marks.{Marks};

    ghost Value = { Marks };

    ghost view = { marks_of };

    ghost invariant = { λ e. IsNeeded e.rare };
}

impl Entry {
    // An entry with these marks. The error is want of memory.
    pub(crate) fn of(alloc: Global, marks: Marks) -> Result<Entry, AllocError>
        ensures { IfOk result (λ entry. entry ≡ marks) }
    {
        let sets = Rare::of(marks);
        let mut rare = None;
        if !sets.is_empty() {
            rare = Some(Box::new(alloc, sets)?);
        }
        Ok(Entry {
            joined: marks.joined,
            rare,
            join_timer: marks.join_timer,
            has_override_timer: marks.has_override_timer,
            has_source: marks.has_source,
            has_register: marks.has_register,
        })
    }

    // The marks of the entry.
    pub(crate) fn marks(&self) -> Marks
        ensures { result ≡ self.now }
    {
        let rare = Rare::within(&self.rare);
        Marks {
            joined: self.joined,
            branched: rare.branched,
            pruned: rare.pruned,
            lost: rare.lost,
            won: rare.won,
            join_timer: self.join_timer,
            has_override_timer: self.has_override_timer,
            has_source: self.has_source,
            has_register: self.has_register,
        }
    }

    // The Join timer of the entry.
    pub(crate) fn join_timer(&self) -> Option<JoinTimerRow>
        ensures { result ≡ (self.now).join_timer }
    {
        self.join_timer
    }

    // Whether no mark is set, and no Join timer runs.
    pub(crate) fn is_empty(&self) -> bool
        ensures { result ≡ are_none self.now }
    {
        let is_timed = self.join_timer.is_some() || self.has_override_timer;
        let has_flags = is_timed || self.has_source || self.has_register;
        is_empty_set(self.joined) && self.rare.is_none() && !has_flags
    }

    // Sets or clears the mark, if it is one that every entry has room for, on the interface or for the whole router.
    fn set(&mut self, mark: Mark, iface: IfaceId, is_set: bool)
        ensures { self.new ≡ with_plain mark iface.number is_set self.old }
    {
        match mark {
            Mark::Joined => self.joined = put(self.joined, iface, is_set),
            Mark::HasOverrideTimer => self.has_override_timer = is_set,
            Mark::HasSource => self.has_source = is_set,
            Mark::HasRegister => self.has_register = is_set,
            _ => {}
        }
    }

    // Clears the mark on the interface, or for the whole router.
    fn clear(&mut self, mark: Mark, iface: IfaceId)
        ensures { self.new ≡ with_mark mark iface.number false self.old }
    {
        if mark.is_plain() {
            self.set(mark, iface, false);
            return;
        }
        clear(&mut self.rare, mark, iface);
    }
}

// Sets or clears a mark that every entry has room for.
#[derive(Clone, Copy)]
pub(crate) struct Marking {
    pub(crate) mark: Mark,
    pub(crate) iface: IfaceId,
    pub(crate) is_set: bool,
}

impl Alter<Entry> for Marking {
    ghost after = { λ c m. kept (with_plain c.mark c.iface.number c.is_set m) };

    fn alter(self, entry: &mut Entry) -> bool {
        entry.set(self.mark, self.iface, self.is_set);
        !entry.is_empty()
    }
}

// Clears one mark of an entry, or two.
#[derive(Clone, Copy)]
pub(crate) struct Unmarking {
    pub(crate) first: Mark,
    pub(crate) second: Option<Mark>,
    pub(crate) iface: IfaceId,
}

impl Alter<Entry> for Unmarking {
    ghost after = { λ c m. kept (without_either c.first c.second c.iface.number m) };

    fn alter(self, entry: &mut Entry) -> bool {
        entry.clear(self.first, self.iface);
        if let Some(second) = self.second {
            entry.clear(second, self.iface);
        }
        !entry.is_empty()
    }
}
