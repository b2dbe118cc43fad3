//! The guard before the session's router.
ghost use Rattle.std.specs.Prelude.{◌≡◌, ◌↔◌, Err, IfErr, IsSome, None, OnErr, OnOk};
ghost use Rattle.pim_guard.specs.Guard.{is_stopped};
ghost use Rattle.pim_ip.specs.declared.fault.Fault.{Fault};
ghost use Rattle.pim_session.specs.Untaken.{IsStill};
ghost use Rattle.pim_session.specs.declared.stop.Stop.{Stop as StopValue};

use super::Session;
use crate::stop::Stop;
use pim_guard::{stops_frame, stops_unicast};
use pim_intake::LentEvent;
use pim_intake::lent::LentKind;
use pim_types::Fault;

impl Session {
    /// Sets whether the guard is on from then on: it stops what would be forwarded as data though hosts and routers read
    /// it as IGMP or PIM, as `pim_guard` says. The fault is `Failed`.
    pub fn set_guard(&mut self, is_on: bool) -> Result<(), Fault>
        ensures set { OnOk result (self.new.guard ≡ is_on) }
        ensures silent { OnErr result (self.new.guard ≡ self.old.guard) }
        ensures failed { (result ≡ Err Fault.Failed) ↔ (self.old.router.standing ≡ None) }
        ensures fault { IfErr result (λ fault. fault ≡ Fault.Failed) }
        ensures rest { (self.new.router ≡ self.old.router) × (self.new.front ≡ self.old.front) × (self.new.sets ≡ self.old.sets)
            × (self.new.sent ≡ self.old.sent) × (self.new.rows ≡ self.old.rows)
            × (self.new.older_rows ≡ self.old.older_rows) }
    {
        if self.is_lost {
            return Err(Fault::Failed);
        }
        self.guard = is_on;
        Ok(())
    }

    /// Whether the guard stops an event.
    #[tactic(auto, unfolding(pim_intake::specs::Lent::event_kind))]
    pub(super) fn stops(&self, event: &LentEvent<'_>) -> bool
        ensures { result ≡ is_stopped self.now.guard event.now.kind }
    {
        if !self.guard {
            return false;
        }
        match event.kind() {
            LentKind::Frame { bytes, .. } => stops_frame(bytes.as_slice()),
            LentKind::Unicast { bytes } => stops_unicast(bytes.as_slice()),
            LentKind::Advance { .. }
            | LentKind::Up { .. }
            | LentKind::Down { .. }
            | LentKind::Routes { .. }
            | LentKind::Rps { .. }
            | LentKind::RpCandidates { .. } => false,
        }
    }

    /// Gives the router an empty packet in the place of an event that the guard stops. It refuses this without memory.
    pub(super) fn stay(&mut self, draw: u32) -> Stop
        requires { IsSome self.old.router.standing }
        ensures stop { result ≡ StopValue.Guarded }
        ensures still { IsStill self.old.router self.new.router }
        ensures rest { (self.new.front ≡ self.old.front) × (self.new.sets ≡ self.old.sets) × (self.new.guard ≡ self.old.guard)
            × (self.new.sent ≡ self.old.sent) × (self.new.rows ≡ self.old.rows)
            × (self.new.older_rows ≡ self.old.older_rows) }
    {
        let mut sent = Vec::new(self.router.alloc());
        match self
            .router
            .step_lent(&LentEvent::unicast(draw, &[]), &mut sent)
        {
            Ok(_) => Stop::Guarded,
            Err(fault) => {
                self.is_lost = true;
                Stop::Fault(fault)
            }
        }
    }
}
