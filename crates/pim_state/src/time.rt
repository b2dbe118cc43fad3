//! Which timer expires first, when a Join is sent again, and what time does to neighbours, Hello timers and interfaces
//! that go down.
ghost use Rattle.std.specs.Prelude.{◌≡◌, ◌≤◌, ◌^◌, IfOk, OnOk, option_map};
ghost use Rattle.pim_model.specs.Firing.{fire_row};
ghost use Rattle.pim_model.specs.Hellos.{hello_due, neighbour_due};
ghost use Rattle.pim_model.specs.Step.{iface_down};
ghost use Rattle.pim_model.specs.Tables.{has_row};
ghost use Rattle.pim_model.specs.Timers.{next_ending};
ghost use Rattle.pim_model.specs.Upstream.{periodic_end};
ghost use Rattle.pim_tables.specs.Ends.{due_of};

use crate::members::with_member;
use crate::world::World;
use pim_tables::earlier;
use pim_trie::Meter;
use pim_types::fact::InterfaceRow;
use pim_types::{IfaceId, Key, Timer};
use std::alloc::AllocError;

// Hello_Period (RFC 7761, section 4.11), in ms.
const HELLO_PERIOD: u64 = 30_000;

// t_periodic (RFC 7761, section 4.11), in ms.
const JOIN_PERIOD: u64 = 60_000;

impl World {
    /// Which timer expires first, and when, in ms: the least by timestamp, then by kind, then by key. `None` where no
    /// timer runs.
    pub fn next(&self) -> Option<(u64, Timer)>
        ensures { result ≡ option_map due_of (next_ending self.now) }
    {
        match self.next {
            Some(due) => Some(due),
            None => self.find_next(),
        }
    }

    // Which timer expires first, by the first of each table.
    fn find_next(&self) -> Option<(u64, Timer)>
        ensures { result ≡ option_map due_of (next_ending self.now) }
    {
        let pim = earlier(self.neighbours.next(), self.store.next());
        earlier(earlier(pim, self.membership.next()), self.interfaces.next())
    }

    /// Keeps which timer expires first: `next` looks at no table until one with timers is lent or changed.
    pub fn keep_next(&mut self)
        ensures { self.new ≡ self.old }
    {
        self.next = self.next();
    }

    /// Sets the present time, in ms.
    pub fn set_present(&mut self, moment: u64)
        requires { moment ≤ 2 ^ 62 }
        ensures { self.new ≡ record self.old { present = moment } }
    {
        self.present = moment;
    }

    /// When a Join that is sent at the present time is sent again, in ms: after t_periodic.
    pub fn periodic_end(&self) -> u64
        ensures { result ≡ periodic_end self.now }
    {
        self.present + JOIN_PERIOD
    }

    /// Sets the interface down: all that is known on it is removed. Without neighbours there the router is the DR. The
    /// meter rises by the nodes visited.
    #[tactic(auto, unfolding(pim_model::specs::Step::iface_down))]
    pub fn set_down(&mut self, iface: IfaceId, meter: &mut Meter)
        ensures { self.new ≡ iface_down self.old iface.number }
    {
        self.next = None;
        self.interfaces.set_down(iface);
        self.neighbours.drop_on(iface);
        self.membership.drop_on(iface, meter);
        self.store.drop_on(iface, meter);
        self.dr = with_member(self.dr, iface, true);
    }

    /// Removes the neighbour under the key, whose holdtime has expired (RFC 7761, section 4.3.2).
    #[tactic(auto, unfolding(pim_model::specs::Hellos::neighbour_due))]
    pub fn remove_neighbour(&mut self, key: Key)
        ensures { self.new ≡ neighbour_due self.old key }
    {
        let own = self.own(key.iface);
        self.next = None;
        self.neighbours.remove_at(key);
        let is_dr = self.neighbours.is_dr(key.iface, &own);
        self.dr = with_member(self.dr, key.iface, is_dr);
    }

    /// Restarts the Hello timer under the key, if there is one (RFC 7761, section 4.3.1). The result is whether there
    /// is one. The error is want of memory.
    #[tactic(auto, unfolding(pim_model::specs::Firing::fire_row, pim_model::specs::Hellos::hello_due, pim_model::specs::Tables::has_row))]
    pub fn restart_hello(&mut self, key: Key) -> Result<bool, AllocError>
        ensures told { IfOk result (λ is_there. is_there ≡ has_row self.old.interfaces key) }
        ensures state { OnOk result (self.new ≡ (fire_row (λ s. s.interfaces) hello_due self.old key).0) }
    {
        let Some(row) = self.interfaces.row_at(key) else {
            return Ok(false);
        };
        let restarted = InterfaceRow {
            hello_end: self.present + HELLO_PERIOD,
            ..row
        };
        self.next = None;
        self.interfaces.change(key, restarted)?;
        Ok(true)
    }
}
