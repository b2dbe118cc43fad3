//! The sets of interfaces that few groups and sources have.
ghost use Rattle.std.specs.Prelude.{◌≡◌};
ghost use Rattle.pim_store.specs.Entry.{IsNeeded, is_no_rare, no_rare, rare_in, rare_of, without_rare};

use crate::marks::{Mark, Marks, empty_set, is_empty_set, put};
use pim_ifset::IfSet;
use pim_types::IfaceId;

// The interfaces with a downstream state of (S,G,rpt), or with an assert.
#[derive(Clone, Copy)]
pub(crate) struct Rare {
    pub(crate) branched: IfSet,
    pub(crate) pruned: IfSet,
    pub(crate) lost: IfSet,
    pub(crate) won: IfSet,
}

impl Rare {
    // The rarely used sets of an entry, all empty.
    fn none() -> Rare
        ensures { result ≡ no_rare }
    {
        Rare {
            branched: empty_set(),
            pruned: empty_set(),
            lost: empty_set(),
            won: empty_set(),
        }
    }

    // The sets of the marks.
    pub(crate) fn of(marks: Marks) -> Rare
        ensures { result ≡ rare_in marks }
    {
        Rare {
            branched: marks.branched,
            pruned: marks.pruned,
            lost: marks.lost,
            won: marks.won,
        }
    }

    // The sets of a block; all empty where there is none.
    pub(crate) fn within(block: &Option<Box<Rare>>) -> Rare
        ensures { result ≡ rare_of block.now }
    {
        match block {
            Some(rare) => **rare,
            None => Rare::none(),
        }
    }

    // Whether all sets are empty.
    pub(crate) fn is_empty(self) -> bool
        ensures { result ≡ is_no_rare self }
    {
        let states = is_empty_set(self.branched) && is_empty_set(self.pruned);
        states && is_empty_set(self.lost) && is_empty_set(self.won)
    }

    // Clears the mark on the interface, if these sets have it.
    fn clear(&mut self, mark: Mark, iface: IfaceId)
        ensures { self.new ≡ without_rare mark iface.number self.old }
    {
        match mark {
            Mark::Branched => self.branched = put(self.branched, iface, false),
            Mark::Pruned => self.pruned = put(self.pruned, iface, false),
            Mark::Lost => self.lost = put(self.lost, iface, false),
            Mark::Won => self.won = put(self.won, iface, false),
            _ => {}
        }
    }
}

// Clears the mark on the interface in a block, if there is one. A block whose sets are then all empty is freed.
pub(crate) fn clear(block: &mut Option<Box<Rare>>, mark: Mark, iface: IfaceId)
    ensures same { rare_of block.new ≡ without_rare mark iface.number (rare_of block.old) }
    ensures needed { IsNeeded block.new }
{
    let Some(rare) = block else {
        return;
    };
    rare.clear(mark, iface);
    if rare.is_empty() {
        *block = None;
    }
}
