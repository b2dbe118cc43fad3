//! Bootstraps (RFC 5059), which a listener in front of the session hears.
ghost use Rattle.std.specs.Prelude.{◌≡◌, Err, IfErr, IfOk, IfSome, IsOk, OnErr, OnOk, false};
ghost use Rattle.pim_bsr.specs.Hearing.{takes_memory};
ghost use Rattle.pim_ip.specs.declared.fault.Fault.{Fault};
ghost use Rattle.pim_session.specs.Heard.{heard_at};
ghost use Rattle.pim_session.specs.Untaken.{IsMemoryAlone, Stops, has_untaken};

use super::Session;
use crate::asked::Asked;
use crate::stop::Stop;
use pim_bsr::{Heard, Listener};
use pim_types::{Fault, IfaceId};
use std::alloc::Global;

impl Session {
    /// Has a listener hear a packet that came on an interface, and that the session ignored as of a type that the router
    /// doesn't handle: `Listener` says what follows. What the listener sends on is kept, in place of the packets kept
    /// before. While packets are untaken the answer is `Untaken`. Neither that nor a fault changes anything. A packet that
    /// doesn't count takes no memory, but where there is no room for what it says.
    pub fn hear(
        &mut self,
        alloc: Global,
        listener: &mut Listener,
        iface: IfaceId,
        bytes: &[u8],
    ) -> Result<Heard, Stop>
        ensures answer { IfSome self.old.router.standing (λ r. IfOk result (λ answer.
            answer ≡ (heard_at r.state listener.old iface.number bytes.now).answer)) }
        ensures known { IfSome self.old.router.standing (λ r. OnOk result
            (listener.new ≡ (heard_at r.state listener.old iface.number bytes.now).known)) }
        ensures sent { IfSome self.old.router.standing (λ r. OnOk result
            (self.new.sent ≡ (heard_at r.state listener.old iface.number bytes.now).sent)) }
        ensures still { OnErr result ((listener.new ≡ listener.old) × (self.new.sent ≡ self.old.sent)) }
        ensures stops { Stops result self.old }
        ensures fault { IfSome self.old.router.standing (λ r. IfErr result IsMemoryAlone) }
        ensures sure { IfSome self.old.router.standing (λ r. has_untaken self.old ≡ false
            → takes_memory (heard_at r.state listener.old iface.number bytes.now).answer ≡ false → IsOk result) }
        ensures rest { (self.new.router ≡ self.old.router) × (self.new.front ≡ self.old.front) × (self.new.sets ≡ self.old.sets)
            × (self.new.guard ≡ self.old.guard) × (self.new.rows ≡ self.old.rows) × (self.new.older_rows ≡ self.old.older_rows) }
    {
        if self.is_lost {
            return Err(Stop::Fault(Fault::Failed));
        }
        if self.has_untaken() {
            return Err(Stop::Untaken);
        }
        let mut sent = Vec::new(alloc);
        match listener.hear(alloc, &Asked::of(&self.router), iface, bytes, &mut sent) {
            Ok(heard) => {
                self.keep_sent(sent);
                Ok(heard)
            }
            Err(_) => Err(Stop::Fault(Fault::Memory)),
        }
    }
}
