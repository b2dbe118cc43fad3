//! A router's state as bytes, and a router made of them.
ghost use Rattle.pim_ip.specs.declared.fault.Fault.{Fault};
ghost use Rattle.pim_model.specs.State.{State};
ghost use Rattle.pim_router.specs.Standing.{begun};
ghost use Rattle.pim_router.specs.Stepped.{Faults};
ghost use Rattle.pim_saved.specs.Fits.{FitsState};
ghost use Rattle.pim_saved.specs.Reading.{reading};
ghost use Rattle.pim_saved.specs.Text.{text};
ghost use Rattle.pim_worlds.specs.Resuming.{IsResumable, restore_test};
ghost use Rattle.std.specs.Prelude.{◌≡◌, ◌++◌, Err, IfErr, IfOk, IfSome, Ok, OnErr, OnOk};

use super::Router;
use crate::probes::Probes;
use pim_event::{Core, Replaced};
use pim_messages::Room;
use pim_types::Fault;
use pim_worlds::{RestoreRefusal, Resumed, proof_resumable, resume, write_world};
use std::alloc::Global;

impl Router {
    /// Adds the bytes of the router's state after those that are there: the one text of the state, of which `restore`
    /// makes a router that is in this state. After a fault the bytes are as they were. The only fault of a router that
    /// hasn't failed is want of memory.
    pub fn save(&self, out: &mut Vec<u8>) -> Result<(), Fault>
        ensures saved { IfSome self.now.standing (λ r. OnOk result (out.new.items ≡ out.old.items ++ text r.state)) }
        ensures fitting { IfSome self.now.standing (λ r. OnOk result (FitsState r.state)) }
        ensures resumable { IfSome self.now.standing (λ r. IsResumable r.state) }
        ensures silent { OnErr result (out.new.items ≡ out.old.items) }
        ensures faults { Faults result self.now.standing }
    {
        if self.failed {
            return Err(Fault::Failed);
        }
        proof_resumable(&self.core.world);
        let mut outside = self.probes.outside();
        let mut bytes = Vec::new(self.core.room.alloc);
        write_world(&self.core.world, &mut bytes, &mut outside.meter)?;
        out.append(&mut bytes)?;
        Ok(())
    }

    /// The router that is in the state that these bytes say: they are those of `save`, and of a router that hasn't
    /// failed. It goes on as that one would: it begins no event and sends nothing. `copies`, `probes`, `touched` and
    /// `changed` are those of a new router. Other bytes are refused for the first test that fails. The fault is want of
    /// memory.
    pub fn restore(alloc: Global, bytes: &[u8]) -> Result<Result<Router, RestoreRefusal>, Fault>
        ensures restored { IfOk result (λ made. IfOk made (λ router. (s : State) → reading bytes.now ≡ Ok s
            → router ≡ begun s)) }
        ensures tested { IfOk result (λ made. IfOk made (λ router. restore_test bytes.now ≡ Ok tt)) }
        ensures refused { IfOk result (λ made. IfErr made (λ refusal. restore_test bytes.now ≡ Err refusal)) }
        ensures memory { IfErr result (λ fault. fault ≡ Fault.Memory) }
    {
        let probes = Probes::new();
        let made = {
            let mut outside = probes.outside();
            resume(alloc, bytes, &mut outside.meter)?
        };
        match made {
            Ok(Resumed { world, cache }) => Ok(Ok(Router {
                failed: false,
                core: Core {
                    world,
                    cache,
                    replaced: Replaced::none(),
                    room: Room::new(alloc),
                },
                copies: 0,
                probes,
            })),
            Err(refusal) => Ok(Err(refusal)),
        }
    }
}
