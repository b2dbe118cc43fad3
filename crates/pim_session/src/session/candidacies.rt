//! Candidacies (RFC 5059), which stand beside a listener in front of the session.
ghost use Rattle.std.specs.Prelude.{◌≡◌, ◌≤◌, ◌^◌, IfErr, IfOk, IfSome, OnErr, OnOk};
ghost use Rattle.pim_bsr.specs.Table.{moves};
ghost use Rattle.pim_candidate.specs.Candidacy.{left_for_good};
ghost use Rattle.pim_router.specs.Stepped.{Faults};
ghost use Rattle.pim_session.specs.Candidacies.{passed_at, stood_at, told_at};
ghost use Rattle.pim_session.specs.Untaken.{IsMemoryAlone, Stops};

use super::Session;
use crate::asked::Asked;
use crate::stop::Stop;
use pim_bsr::Listener;
use pim_candidate::{Candidacy, CandidacyHeard};
use pim_types::{Fault, IfaceId};
use std::alloc::Global;

impl Session {
    /// Has a candidacy hear a packet that came on an interface, and that the session ignored as of a type that the router
    /// doesn't handle, in the place of the listener: `Candidacy` says what follows. What is sent on, or originated, is
    /// kept, in place of the packets kept before. While packets are untaken the answer is `Untaken`. Neither that nor a
    /// fault changes anything.
    pub fn hear_standing(
        &mut self,
        alloc: Global,
        candidacy: &mut Candidacy,
        listener: &mut Listener,
        iface: IfaceId,
        bytes: &[u8],
        draw: u32,
    ) -> Result<CandidacyHeard, Stop>
        ensures answer { IfSome self.old.router.standing (λ r. IfOk result (λ answer.
            answer ≡ (stood_at r.state candidacy.old listener.old iface.number bytes.now draw).answer)) }
        ensures candidacy { IfSome self.old.router.standing (λ r. OnOk result
            (candidacy.new ≡ (stood_at r.state candidacy.old listener.old iface.number bytes.now draw).left.candidacy)) }
        ensures known { IfSome self.old.router.standing (λ r. OnOk result
            (listener.new ≡ (stood_at r.state candidacy.old listener.old iface.number bytes.now draw).left.known)) }
        ensures sent { IfSome self.old.router.standing (λ r. OnOk result
            (self.new.sent ≡ (stood_at r.state candidacy.old listener.old iface.number bytes.now draw).left.sent)) }
        ensures still { OnErr result ((candidacy.new ≡ candidacy.old) × (listener.new ≡ listener.old)
            × (self.new.sent ≡ self.old.sent)) }
        ensures stops { Stops result self.old }
        ensures fault { IfSome self.old.router.standing (λ r. IfErr result IsMemoryAlone) }
        ensures rest { (self.new.router ≡ self.old.router) × (self.new.front ≡ self.old.front) × (self.new.sets ≡ self.old.sets)
            × (self.new.guard ≡ self.old.guard) × (self.new.rows ≡ self.old.rows) × (self.new.older_rows ≡ self.old.older_rows) }
    {
        if self.is_lost {
            return Err(Stop::Fault(Fault::Failed));
        }
        if self.has_untaken() {
            return Err(Stop::Untaken);
        }
        let mut sent = Vec::new(alloc);
        match candidacy.hear(
            alloc,
            listener,
            &Asked::of(&self.router),
            iface,
            bytes,
            draw,
            &mut sent,
        ) {
            Ok(heard) => {
                self.keep_sent(sent);
                Ok(heard)
            }
            Err(_) => Err(Stop::Fault(Fault::Memory)),
        }
    }

    /// Has a candidacy hear a packet to one of the router's addresses, which the session ignored as not for the router.
    /// Nothing of the session changes, and packets may be untaken. A fault changes nothing.
    pub fn hear_unicast(
        &self,
        alloc: Global,
        candidacy: &mut Candidacy,
        bytes: &[u8],
    ) -> Result<CandidacyHeard, Fault>
        ensures answer { IfSome self.now.router.standing (λ r. IfOk result (λ answer.
            answer ≡ (told_at r.state candidacy.old bytes.now).answer)) }
        ensures candidacy { IfSome self.now.router.standing (λ r. OnOk result
            (candidacy.new ≡ (told_at r.state candidacy.old bytes.now).candidacy)) }
        ensures still { OnErr result (candidacy.new ≡ candidacy.old) }
        ensures faults { Faults result self.now.router.standing }
    {
        if self.is_lost {
            return Err(Fault::Failed);
        }
        match candidacy.hear_unicast(alloc, &Asked::of(&self.router), bytes) {
            Ok(heard) => Ok(heard),
            Err(_) => Err(Fault::Memory),
        }
    }

    /// Time passed to a timestamp in ms, to which the router went, in the place of the listener's: what is due of a
    /// candidacy and its listener happens. What is originated is kept, in place of the packets kept before. True where the
    /// router is to be given other RPs. While packets are untaken the answer is `Untaken`. Neither that nor a fault changes
    /// anything.
    pub fn pass_standing(
        &mut self,
        alloc: Global,
        candidacy: &mut Candidacy,
        listener: &mut Listener,
        moment: u64,
        draw: u32,
    ) -> Result<bool, Stop>
        requires { moment ≤ 2 ^ 62 }
        ensures moved { IfSome self.old.router.standing (λ r. IfOk result (λ moved.
            moved ≡ moves listener.old (passed_at r.state candidacy.old listener.old moment draw).known)) }
        ensures candidacy { IfSome self.old.router.standing (λ r. OnOk result
            (candidacy.new ≡ (passed_at r.state candidacy.old listener.old moment draw).candidacy)) }
        ensures known { IfSome self.old.router.standing (λ r. OnOk result
            (listener.new ≡ (passed_at r.state candidacy.old listener.old moment draw).known)) }
        ensures sent { IfSome self.old.router.standing (λ r. OnOk result
            (self.new.sent ≡ (passed_at r.state candidacy.old listener.old moment draw).sent)) }
        ensures still { OnErr result ((candidacy.new ≡ candidacy.old) × (listener.new ≡ listener.old)
            × (self.new.sent ≡ self.old.sent)) }
        ensures stops { Stops result self.old }
        ensures fault { IfSome self.old.router.standing (λ r. IfErr result IsMemoryAlone) }
        ensures rest { (self.new.router ≡ self.old.router) × (self.new.front ≡ self.old.front) × (self.new.sets ≡ self.old.sets)
            × (self.new.guard ≡ self.old.guard) × (self.new.rows ≡ self.old.rows) × (self.new.older_rows ≡ self.old.older_rows) }
    {
        if self.is_lost {
            return Err(Stop::Fault(Fault::Failed));
        }
        if self.has_untaken() {
            return Err(Stop::Untaken);
        }
        let mut originated = Vec::new(alloc);
        match candidacy.pass_to(
            alloc,
            listener,
            &Asked::of(&self.router),
            moment,
            draw,
            &mut originated,
        ) {
            Ok(moved) => {
                self.keep_sent(originated);
                Ok(moved)
            }
            Err(_) => Err(Stop::Fault(Fault::Memory)),
        }
    }

    /// Has a candidacy say that its RP goes. What it sends is kept, in place of the packets kept before. While packets are
    /// untaken the answer is `Untaken`. Neither that nor a fault changes anything.
    pub fn leave_standing(
        &mut self,
        alloc: Global,
        candidacy: &Candidacy,
        listener: &Listener,
    ) -> Result<(), Stop>
        ensures sent { OnOk result (self.new.sent ≡ left_for_good candidacy.now listener.now) }
        ensures still { OnErr result (self.new.sent ≡ self.old.sent) }
        ensures stops { Stops result self.old }
        ensures fault { IfSome self.old.router.standing (λ r. IfErr result IsMemoryAlone) }
        ensures rest { (self.new.router ≡ self.old.router) × (self.new.front ≡ self.old.front) × (self.new.sets ≡ self.old.sets)
            × (self.new.guard ≡ self.old.guard) × (self.new.rows ≡ self.old.rows) × (self.new.older_rows ≡ self.old.older_rows) }
    {
        if self.is_lost {
            return Err(Stop::Fault(Fault::Failed));
        }
        if self.has_untaken() {
            return Err(Stop::Untaken);
        }
        let mut said = Vec::new(alloc);
        match candidacy.leave(alloc, listener, &mut said) {
            Ok(()) => {
                self.keep_sent(said);
                Ok(())
            }
            Err(_) => Err(Stop::Fault(Fault::Memory)),
        }
    }
}
