//! Ends as one ordered set.
ghost use Rattle.std.specs.Prelude.{◌≡◌, ◌&&◌, ◌||◌, [], not, OnOk, OnErr};
ghost use Rattle.pim_timers.specs.Dues.{Due, IsFirst, is_among, same_due};

use pim_types::Timer;
use std::alloc::{AllocError, Global};
use std::collections::BTreeSet;
use std::marker::Model;

/// Timestamps (ms), each with a timer that expires then, in one ordered set.
#[derive(Drop)]
pub struct Dues {
    set: BTreeSet<(u64, Timer)>,
}

impl Model for Dues {
    ghost use Rattle.std.specs.Prelude.{List};
    ghost use Rattle.pim_timers.specs.Dues.{Due};

    ghost Value = { List Due };

    ghost view = { λ a. a.set.keys };
}

impl Dues {
    /// A list without entries. Takes no memory.
    pub fn new(alloc: Global) -> Self
        ensures { result ≡ [] }
    {
        Dues {
            set: BTreeSet::new(alloc),
        }
    }

    /// Puts one in. An error is want of memory, and then they are as they were.
    pub fn insert(&mut self, due: (u64, Timer)) -> Result<(), AllocError>
        ensures ok { OnOk result ((d : Due) → is_among self.new d ≡ (same_due d due || is_among self.old d)) }
        ensures err { OnErr result ((d : Due) → is_among self.new d ≡ is_among self.old d) }
    {
        self.set.insert(due)?;
        Ok(())
    }

    /// Takes the timer with its timestamp out of the set, where it is in.
    pub fn remove(&mut self, due: (u64, Timer))
        ensures { (d : Due) → is_among self.new d ≡ (not (same_due d due) && is_among self.old d) }
    {
        self.set.remove(&due);
    }

    /// The first entry: the least by timestamp, then by the kind and the key of its timer.
    pub fn first(&self) -> Option<(u64, Timer)>
        ensures { IsFirst (is_among self.now) result }
    {
        self.set.first().copied()
    }
}
