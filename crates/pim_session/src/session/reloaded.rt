//! Another configuration in the session's router.
ghost use Rattle.law_states.specs.History.{Given};
ghost use Rattle.law_states.specs.Reloading.{reload};
ghost use Rattle.pim_ip.specs.declared.fault.Fault.{Fault};
ghost use Rattle.pim_model.specs.Limits.{config_test};
ghost use Rattle.pim_router.specs.Asked.{LeadsOn};
ghost use Rattle.pim_router.specs.Stepped.{PutUnder};
ghost use Rattle.pim_session.specs.Front.{emissions_leaving};
ghost use Rattle.pim_session.specs.Reloaded.{front_reloaded};
ghost use Rattle.pim_session.specs.Shared.{reload_tested};
ghost use Rattle.pim_session.specs.Untaken.{IsMemoryAlone, SettingsStay, Stopped, Stops};
ghost use Rattle.std.specs.Prelude.{◌≡◌, [], Err, IfErr, IfOk, IfSome, IsOkUnless, None, Ok, OnErr, OnOk, Some};

use super::Session;
use crate::behind::times_in;
use crate::front::Front;
use crate::refused::ReloadRefusal;
use crate::stop::Stop;
use pim_router::Router;
use pim_types::{Config, Emission, Fault, Refusal};
use std::alloc::AllocError;
use std::mem;

impl Session {
    /// Puts the router under another configuration, as `Router::reload` does, and keeps the packets that leave. Where
    /// something stands before the router, queries leave as the versions of the interfaces say; after that the first
    /// interfaces keep their settings and what they heard, and one that is added hears nobody and queries in version 3. As
    /// many older hosts are remembered as the new limit says, or as are remembered already if these are more. Rows that
    /// were read are dropped. A configuration whose addresses the sets of RPs don't fit is refused before all else, and a
    /// refusal changes nothing. While packets of the event before are untaken the answer is `Untaken`, and nothing changes. After a fault the rows are
    /// unchanged, and the session answers `Failed` from then on.
    #[tactic(auto, unfolding(crate::specs::Shared::reload_tested))]
    pub fn reload(&mut self, draw: u32, config: &Config) -> Result<Result<(), ReloadRefusal>, Stop>
        ensures accepted { IfSome self.old.router.standing (λ r. IfOk result (λ answer. OnOk answer
            (reload_tested self.old.sets config.now (config_test config.now) ≡ Ok tt))) }
        ensures put { IfSome self.old.router.standing (λ r. IfOk result (λ answer. OnOk answer
            (PutUnder r.state (reload r.state config.now draw).0 self.new.router))) }
        ensures sent { IfSome self.old.router.standing (λ r. IfOk result (λ answer. OnOk answer
            (self.new.sent ≡ emissions_leaving self.old.front (reload r.state config.now draw).1))) }
        ensures led { IfSome self.old.router.standing (λ r. IfOk result (λ answer. OnOk answer (IfSome self.new.router.standing (λ after.
            LeadsOn r.state (Given.Reload config.now draw) after.state)))) }
        ensures front { IfSome self.old.router.standing (λ r. IfOk result (λ answer. OnOk answer
            (self.new.front ≡ front_reloaded (reload r.state config.now draw).0 self.old.front))) }
        ensures settings { SettingsStay self.old self.new }
        ensures rows { IfOk result (λ answer. OnOk answer ((self.new.rows ≡ []) × (self.new.older_rows ≡ []))) }
        ensures refused { IfOk result (λ answer. IfErr answer (λ refusal. (reload_tested self.old.sets config.now (config_test config.now) ≡ Err refusal)
            × (self.new ≡ self.old))) }
        ensures stops { Stops result self.old }
        ensures stopped { IfErr result (λ stop. Stopped stop self.old self.new) }
        ensures silent { OnErr result ((self.new.sent ≡ self.old.sent) × (self.new.rows ≡ self.old.rows)
            × (self.new.older_rows ≡ self.old.older_rows)) }
        ensures fault { IfSome self.old.router.standing (λ r. IfErr result IsMemoryAlone) }
    {
        if self.is_lost {
            return Err(Stop::Fault(Fault::Failed));
        }
        if self.has_untaken() {
            return Err(Stop::Untaken);
        }
        if !self.fits(config) {
            return Ok(Err(ReloadRefusal::SetsDontFit));
        }
        match reload(self.router.as_mut(), &mut self.front, draw, config) {
            Ok(Ok(sent)) => {
                self.keep_sent(sent);
                self.rows = Vec::new(self.router.alloc());
                self.older_rows = Vec::new(self.router.alloc());
                Ok(Ok(()))
            }
            Ok(Err(refusal)) => Ok(Err(ReloadRefusal::Configuration(refusal))),
            Err(fault) => {
                self.is_lost = true;
                Err(Stop::Fault(fault))
            }
        }
    }
}

// What leaves of what the router sent, and what stands before it under another configuration, if anything does.
#[tactic(auto, unfolding(crate::specs::Front::emissions_leaving, crate::specs::Reloaded::front_reloaded))]
fn follow(
    router: &Router,
    front: Option<Front>,
    sent: Vec<Emission>,
) -> Result<(Vec<Emission>, Option<Front>), AllocError>
    ensures left { IfOk result (λ told. told.0.items ≡ emissions_leaving front sent.items) }
    ensures front { IfSome router.now.standing (λ r. IfOk result (λ told. told.1 ≡ front_reloaded r.state front)) }
{
    let Some(mut standing) = front else {
        return Ok((sent, None));
    };
    let left = standing.emissions_leaving(router.alloc(), sent)?;
    standing.resize(router.limit(), router.interface_count(), times_in(router))?;
    Ok((left, Some(standing)))
}

// Puts a router under another configuration, and what stands before it. The result is what leaves. What stands before the
// router is lost by a fault.
fn reload(
    router: &mut Router,
    front: &mut Option<Front>,
    draw: u32,
    config: &Config,
) -> Result<Result<Vec<Emission>, Refusal>, Fault>
    ensures accepted { IfSome router.old.standing (λ r. IfOk result (λ answer. OnOk answer (config_test config.now ≡ Ok tt))) }
    ensures put { IfSome router.old.standing (λ r. IfOk result (λ answer. OnOk answer
        (PutUnder r.state (reload r.state config.now draw).0 router.new))) }
    ensures sent { IfSome router.old.standing (λ r. IfOk result (λ answer. IfOk answer (λ sent.
        sent.items ≡ emissions_leaving front.old (reload r.state config.now draw).1))) }
    ensures led { IfSome router.old.standing (λ r. IfOk result (λ answer. OnOk answer (IfSome router.new.standing (λ after.
        LeadsOn r.state (Given.Reload config.now draw) after.state)))) }
    ensures front { IfSome router.old.standing (λ r. IfOk result (λ answer. OnOk answer
        (front.new ≡ front_reloaded (reload r.state config.now draw).0 front.old))) }
    ensures refused { IfOk result (λ answer. IfErr answer (λ refusal. (config_test config.now ≡ Err refusal)
        × (router.new ≡ router.old) × (front.new ≡ front.old))) }
    ensures fault { IfSome router.old.standing (λ r. IsOkUnless result Fault.Memory) }
{
    let mut sent = Vec::new(router.alloc());
    match router.reload(draw, config, &mut sent)? {
        Ok(()) => {
            let (left, after) = follow(router, mem::replace(front, None), sent)?;
            *front = after;
            Ok(Ok(left))
        }
        Err(refusal) => Ok(Err(refusal)),
    }
}
