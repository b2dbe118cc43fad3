//! How messages leave.
ghost use Rattle.std.specs.Prelude.{◌≡◌, ◌++◌, OnOk, IsOkUnless};
ghost use Rattle.pim_ip.specs.declared.fault.Fault.{Fault};
ghost use Rattle.pim_model.specs.Writing.{write_all};

use crate::world::World;
use pim_messages::{Outbox, Room};
use pim_types::{Emission, Fault};

impl World {
    /// Adds the packets of all messages, in their order, at the end of the emissions. A Hello that is owed goes
    /// directly before the next Join/Prune or Assert on its interface. The packets are written into the memory of the
    /// room.
    #[tactic(auto, unfolding(pim_model::specs::Writing::write_all))]
    pub fn write(
        &mut self,
        room: &mut Room,
        out: &Outbox,
        emissions: &mut Vec<Emission>,
    ) -> Result<(), Fault>
        ensures state { OnOk result (self.new ≡ (write_all self.old out.now).0) }
        ensures sent { OnOk result (emissions.new.items ≡ emissions.old.items ++ (write_all self.old out.now).1) }
        ensures fault { IsOkUnless result Fault.Memory }
    {
        self.next = None;
        out.write(room, &mut self.interfaces, emissions)
    }
}
