//! The session as bytes, and a session made of them.
ghost use Rattle.igmp_older_saved.specs.Reading.{held_reading, held_restore_test};
ghost use Rattle.igmp_older_saved.specs.Text.{Held, held_text, FitsHeld};
ghost use Rattle.pim_ip.specs.declared.fault.Fault.{Fault};
ghost use Rattle.pim_router.specs.Standing.{begun};
ghost use Rattle.pim_router.specs.Stepped.{Faults};
ghost use Rattle.pim_session.specs.Leaving.{GoesOnFrom};
ghost use Rattle.pim_session.specs.Saved.{front_resumed, saved_parts};
ghost use Rattle.pim_worlds.specs.Resuming.{IsResumable};
ghost use Rattle.std.specs.Prelude.{◌≡◌, ◌++◌, [], Err, IfErr, IfOk, IfSome, Ok, OnErr, OnOk, true};

use super::Session;
use crate::saved;
use igmp_older_saved::{HeldRefusal, write_saved};
use pim_types::Fault;
use std::alloc::Global;

impl Session {
    /// A session of the router that is in the state that these bytes say, as `Router::restore` makes it, behind a front that
    /// has the rows of older hosts in them. Nobody is heard until `set_older_hosts` says otherwise, the router is in no
    /// set of RPs, and no packets and no rows are kept. The fault is want of memory.
    pub fn restore(alloc: Global, bytes: &[u8]) -> Result<Result<Session, HeldRefusal>, Fault>
        ensures restored { IfOk result (λ made. IfOk made (λ s. (h : Held) → held_reading bytes.now ≡ Ok h
            → (s.router ≡ begun h.state) × (s.front ≡ front_resumed h.state h.hosts))) }
        ensures led { IfOk result (λ made. IfOk made (λ s. IfSome s.router.standing (λ r. GoesOnFrom bytes.now r.state))) }
        ensures tested { IfOk result (λ made. IfOk made (λ s. held_restore_test bytes.now ≡ Ok tt)) }
        ensures rest { IfOk result (λ made. IfOk made (λ s. (s.sets ≡ []) × (s.guard ≡ true) × (s.sent ≡ []) × (s.rows ≡ [])
            × (s.older_rows ≡ []))) }
        ensures refused { IfOk result (λ made. IfErr made (λ refusal. held_restore_test bytes.now ≡ Err refusal)) }
        ensures memory { IfErr result (λ fault. fault ≡ Fault.Memory) }
    {
        match saved::restore(alloc, bytes)? {
            Ok((router, front)) => Ok(Ok(Session::of(alloc, Box::new(alloc, router)?, front))),
            Err(refusal) => Ok(Err(refusal)),
        }
    }

    /// Adds the bytes of the router's state after those that are there, with the rows of older hosts that the router's
    /// front has; without any they are those of `Router::save`. What is set of interfaces and of the guard isn't in them,
    /// nor are the sets of RPs, and the packets and the rows that are kept. After a fault the bytes are as they were.
    pub fn save(&self, out: &mut Vec<u8>) -> Result<(), Fault>
        ensures saved { IfSome self.now.router.standing (λ r. OnOk result
            (out.new.items ≡ out.old.items ++ held_text (saved_parts r.state self.now.front))) }
        ensures fitting { IfSome self.now.router.standing (λ r. OnOk result (FitsHeld (saved_parts r.state self.now.front))) }
        ensures resumable { IfSome self.now.router.standing (λ r. IsResumable r.state) }
        ensures silent { OnErr result (out.new.items ≡ out.old.items) }
        ensures faults { Faults result self.now.router.standing }
    {
        if self.is_lost {
            return Err(Fault::Failed);
        }
        let alloc = *out.allocator();
        let mut own = Vec::new(alloc);
        self.router.save(&mut own)?;
        let hosts = saved::hosts_of(alloc, &self.router, &self.front)?;
        write_saved(&hosts, &own, out)?;
        Ok(())
    }
}
