//! What neighbours decide, and what a Hello changes (RFC 7761, section 4.3).
ghost use Rattle.std.specs.Prelude.{◌≡◌, ◌<◌, ◌≤◌, ◌^◌, OnOk, true};
ghost use Rattle.pim_model.specs.Downstream.{prune_pending_end};
ghost use Rattle.pim_model.specs.Hellos.{hellos_triggered, neighbour_replaced};
ghost use Rattle.pim_model.specs.Neighbours.{is_dr, t_override};
ghost use Rattle.pim_neighbours.specs.Refreshed.{is_refreshed};
ghost use Rattle.pim_state.specs.Shown.{Shows};
ghost use Rattle.pim_model.specs.State.{my_address, my_override_interval, my_priority, my_propagation_delay};

use crate::members::with_member;
use crate::world::World;
use pim_ifset::IfSet;
use pim_types::{Addr, IfaceId, InterfaceConfig};
use pim_wire::Hello;
use std::alloc::AllocError;

impl World {
    // What is configured of the interface.
    pub(crate) fn own(&self, iface: IfaceId) -> InterfaceConfig
        ensures address { result.address.bits ≡ my_address self.now iface.number }
        ensures priority { result.priority ≡ my_priority self.now iface.number }
        ensures override_interval { result.override_interval ≡ my_override_interval self.now iface.number }
        ensures propagation_delay { result.propagation_delay ≡ my_propagation_delay self.now iface.number }
    {
        self.interfaces
            .config(iface)
            .unwrap_or(InterfaceConfig::UNCONFIGURED)
    }

    /// I_am_DR(I) (RFC 7761, section 4.3.2).
    #[tactic(auto, unfolding(pim_model::specs::Neighbours::is_dr))]
    pub fn is_dr(&self, iface: IfaceId) -> bool
        ensures { result ≡ is_dr self.now iface.number }
    {
        self.neighbours.is_dr(iface, &self.own(iface))
    }

    /// The interfaces below 120 on which I_am_DR holds.
    pub fn dr(&self) -> IfSet
        ensures { Shows result (is_dr self.now) }
    {
        self.dr
    }

    /// `t_override` on the interface (RFC 7761, section 4.11), in ms, as the drawn number gives it.
    #[tactic(auto, unfolding(pim_model::specs::Neighbours::t_override))]
    pub fn override_delay(&self, iface: IfaceId, draw: u32) -> u64
        ensures delay { result ≡ t_override self.now iface.number draw }
        ensures within { result < 2 ^ 32 }
    {
        self.neighbours
            .override_delay(iface, &self.own(iface), draw)
    }

    /// When a Prune that comes at the present time takes effect on the interface, in ms: after J/P_Override_Interval.
    /// `None`, at once, where the interface has at most one neighbour.
    #[tactic(auto, unfolding(pim_model::specs::Downstream::prune_pending_end, pim_model::specs::Neighbours::join_prune_override_interval, pim_model::specs::Neighbours::effective_propagation_delay, pim_model::specs::Neighbours::effective_override_interval))]
    pub fn prune_pending_end(&self, iface: IfaceId) -> Option<u64>
        ensures { result ≡ prune_pending_end self.now iface.number }
    {
        if self.neighbours.count_on(iface) <= 1 {
            return None;
        }
        let interval = self
            .neighbours
            .join_prune_override_interval(iface, &self.own(iface));
        Some(self.present + interval.max(1))
    }

    /// Marks that a Hello is owed on the interface, and lowers its Hello timer to this timestamp, in ms.
    pub fn owe_hello(&mut self, iface: IfaceId, end: u64) -> Result<(), AllocError>
        ensures { OnOk result (self.new
            ≡ record self.old { interfaces = hellos_triggered iface.number end self.old.interfaces }) }
    {
        self.next = None;
        self.interfaces.owe_hello(iface, end)
    }

    // Sets when the neighbour expires, of which its Hello says nothing else. No election is held.
    #[tactic(auto, unfolding(pim_model::specs::Hellos::neighbour_replaced))]
    fn refresh_neighbour(
        &mut self,
        iface: IfaceId,
        from: Addr,
        hello: &Hello,
    ) -> Result<(), AllocError>
        requires { is_refreshed self.old.neighbours iface.number from.bits hello.now ≡ true }
        ensures { OnOk result (self.new ≡ neighbour_replaced self.old iface.number from.bits hello.now) }
    {
        // For the proof: the keys of neighbours rise.
        let _ = self.neighbours.len();
        self.next = None;
        self.neighbours.hello(iface, from, hello, self.present)?;
        Ok(())
    }

    /// Keeps the neighbour as its Hello says, or drops it where the holdtime is 0.
    #[tactic(auto, unfolding(pim_model::specs::Hellos::neighbour_replaced))]
    pub fn replace_neighbour(
        &mut self,
        iface: IfaceId,
        from: Addr,
        hello: &Hello,
    ) -> Result<(), AllocError>
        ensures { OnOk result (self.new ≡ neighbour_replaced self.old iface.number from.bits hello.now) }
    {
        if self.neighbours.is_refreshed(iface, from, hello) {
            return self.refresh_neighbour(iface, from, hello);
        }
        let own = self.own(iface);
        self.next = None;
        self.neighbours.hello(iface, from, hello, self.present)?;
        let is_dr = self.neighbours.is_dr(iface, &own);
        self.dr = with_member(self.dr, iface, is_dr);
        Ok(())
    }
}
