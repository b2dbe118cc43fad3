//! What is marked of a group, or of one of its sources.
ghost use Rattle.std.specs.Prelude.{◌≡◌, ◌||◌, ℕ, None, false, is_some};
ghost use Rattle.pim_store.specs.Entry.{are_none, empty_set, is_empty_set, is_plain, with_iface, with_mark};
ghost use Rattle.pim_store.specs.Said.{seen, tunnel_in};
ghost use Rattle.pim_store.specs.declared.marks.Mark.{Mark as MarkValue};

use crate::rare::Rare;
use pim_ifset::IfSet;
use pim_types::IfaceId;
use pim_types::fact::JoinTimerRow;

/// The marks of (*,G), or of (S,G) with its (S,G,rpt). No set has the register tunnel.
#[derive(Clone, Copy)]
pub struct Marks {
    /// The interfaces with a downstream state of (*,G), or of (S,G): joins(*,G), joins(S,G).
    pub joined: IfSet,
    /// The interfaces with a downstream state of (S,G,rpt).
    pub branched: IfSet,
    /// The interfaces whose downstream state of (S,G,rpt) is Prune: prunes(S,G,rpt).
    pub pruned: IfSet,
    /// The interfaces with an assert that was lost.
    pub lost: IfSet,
    /// The interfaces with an assert that was won.
    pub won: IfSet,
    /// The Join timer.
    pub join_timer: Option<JoinTimerRow>,
    pub has_override_timer: bool,
    /// Whether the source has a row: its keepalive timer runs, or its SPTbit is set.
    pub has_source: bool,
    pub has_register: bool,
}

/// What an entry may say of its group or source: that it has a fact of this kind.
#[derive(Clone, Copy)]
pub enum Mark {
    Joined,
    Branched,
    Pruned,
    Lost,
    Won,
    HasOverrideTimer,
    HasSource,
    HasRegister,
}

impl Mark {
    // Whether every entry has room for the mark.
    pub(crate) fn is_plain(self) -> bool
        ensures { result ≡ is_plain self }
    {
        match self {
            Mark::Branched => false,
            Mark::Pruned => false,
            Mark::Lost => false,
            Mark::Won => false,
            _ => true,
        }
    }
}

// The empty set.
pub(crate) fn empty_set() -> IfSet
    ensures { result ≡ empty_set }
{
    IfSet::new()
}

// Whether nothing is in the set.
pub(crate) fn is_empty_set(set: IfSet) -> bool
    ensures { result ≡ is_empty_set set }
{
    set.is_empty()
}

// The set with the interface, if a set can hold it, or without it.
pub(crate) fn put(set: IfSet, iface: IfaceId, is_in: bool) -> IfSet
    ensures { result ≡ with_iface iface.number is_in set }
{
    let mut changed = set;
    if is_in && iface.number < IfSet::LIMIT {
        changed.insert(iface);
    } else {
        changed.remove(iface);
    }
    changed
}

impl Marks {
    // Marks of which none is set.
    pub(crate) fn none() -> Marks
        ensures silent { (x : MarkValue) (i : ℕ) → seen x result i ≡ false }
        ensures bare { (x : MarkValue) → tunnel_in x result ≡ false }
        ensures timer { result.join_timer ≡ None }
    {
        let none = IfSet::new();
        Marks {
            joined: none,
            branched: none,
            pruned: none,
            lost: none,
            won: none,
            join_timer: None,
            has_override_timer: false,
            has_source: false,
            has_register: false,
        }
    }

    // Whether a mark of the whole router is set.
    fn is_of_router(&self) -> bool
        ensures { result ≡ (is_some (self.now).join_timer || (self.now).has_override_timer
            || (self.now).has_source || (self.now).has_register) }
    {
        let is_timed = self.join_timer.is_some() || self.has_override_timer;
        is_timed || self.has_source || self.has_register
    }

    // Whether no mark is set, and no set has the tunnel.
    pub(crate) fn is_empty(&self) -> bool
        ensures { result ≡ are_none self.now }
    {
        is_empty_set(self.joined) && Rare::of(*self).is_empty() && !self.is_of_router()
    }

    // The marks with one set, or cleared, on the interface or for the whole router.
    pub(crate) fn with(self, mark: Mark, iface: IfaceId, is_set: bool) -> Marks
        ensures { result ≡ with_mark mark iface.number is_set self }
    {
        let mut changed = self;
        match mark {
            Mark::Joined => changed.joined = put(self.joined, iface, is_set),
            Mark::Branched => changed.branched = put(self.branched, iface, is_set),
            Mark::Pruned => changed.pruned = put(self.pruned, iface, is_set),
            Mark::Lost => changed.lost = put(self.lost, iface, is_set),
            Mark::Won => changed.won = put(self.won, iface, is_set),
            Mark::HasOverrideTimer => changed.has_override_timer = is_set,
            Mark::HasSource => changed.has_source = is_set,
            Mark::HasRegister => changed.has_register = is_set,
        }
        changed
    }
}
