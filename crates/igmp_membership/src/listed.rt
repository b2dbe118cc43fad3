//! Which interfaces are listed for a group, or for a source.
ghost use Rattle.std.specs.Prelude.{◌≡◌, ◌<◌, ◌==◌, ℕ, IsTrue, None, Some, cond, false};
ghost use Rattle.igmp_membership.specs.Listing.{Side, in_side, told_of};

use pim_ifset::IfSet;
use pim_types::IfaceId;

// The interfaces with a record of a group, or of a source. No set has the register tunnel.
#[derive(Clone, Copy)]
pub(crate) struct Listed {
    // The interfaces with a record of the group, or of the source.
    pub(crate) there: IfSet,
    // The interfaces where the record's timer runs.
    pub(crate) running: IfSet,
}

impl Listed {
    // A list of no interface.
    pub(crate) fn none() -> Listed
        ensures { (x : Side) (i : ℕ) → in_side x result i ≡ false }
    {
        Listed {
            there: IfSet::new(),
            running: IfSet::new(),
        }
    }

    // Whether no interface is listed.
    pub(crate) fn is_empty(&self) -> bool
        ensures { IsTrue result → (x : Side) (i : ℕ) → in_side x self.now i ≡ false }
    {
        self.there.is_empty() && self.running.is_empty()
    }

    // The list with the interface, where the record's timer runs or doesn't.
    pub(crate) fn with(self, iface: IfaceId, is_running: bool) -> Listed
        requires { iface.number < 120 }
        ensures { (x : Side) (i : ℕ)
            → in_side x result i ≡ cond (i == iface.number) (told_of x (Some is_running)) (in_side x self i) }
    {
        let mut changed = self.without(iface);
        changed.there.insert(iface);
        if is_running {
            changed.running.insert(iface);
        }
        changed
    }

    // The list without the interface.
    pub(crate) fn without(self, iface: IfaceId) -> Listed
        ensures { (x : Side) (i : ℕ)
            → in_side x result i ≡ cond (i == iface.number) (told_of x None) (in_side x self i) }
    {
        let mut changed = self;
        changed.there.remove(iface);
        changed.running.remove(iface);
        changed
    }
}
