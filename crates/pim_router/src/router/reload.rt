//! Another configuration in a running router.
ghost use Rattle.law_states.specs.History.{Given};
ghost use Rattle.law_states.specs.Reloading.{reload};
ghost use Rattle.pim_ip.specs.declared.fault.Fault.{Fault};
ghost use Rattle.pim_model.specs.Limits.{config_test};
ghost use Rattle.pim_model.specs.State.{opening};
ghost use Rattle.pim_reloader.specs.Reloads.{Reloads};
ghost use Rattle.pim_router.specs.Asked.{LeadsOn};
ghost use Rattle.pim_router.specs.Standing.{nothing_shown};
ghost use Rattle.pim_router.specs.Stepped.{Faults, PutUnder};
ghost use Rattle.pim_router.specs.Stepping.{Stands};
ghost use Rattle.std.specs.Prelude.{◌≡◌, ◌++◌, Err, IfErr, IfOk, IfSome, IsOkUnless, Ok, OnErr, OnOk};

use super::{Router, hand_over};
use crate::probes::Probes;
use pim_event::Core;
use pim_state::World;
use pim_types::{Config, Emission, Fault, Refusal};

impl Router {
    /// Puts the router under another configuration, and adds the packets that leave at the end of `emissions`, in their
    /// order. Interfaces are numbered in the order of the configuration: those past its last one go down first, as by an
    /// event `Down`, those that it adds are down, and the others stay as they are. Then routes, RP ranges and all else
    /// are those of the configuration, and what follows is done as after an event: what leaves first is a Hello on each
    /// interface that is up and whose address, DR priority or delays are other ones. No fact goes only because the limit
    /// is below the number of facts: an event that needs new ones is refused until there is room. A configuration is
    /// refused as by `new`, and then nothing changes. After a fault `emissions` are unchanged, and the router answers
    /// `Failed` from then on; the only fault of a router that hasn't failed is want of memory. `copies` answers 0 after
    /// a reload, `changed` lists all sources with a fact before or after it, and `may_differ` answers yes for all.
    pub fn reload(
        &mut self,
        draw: u32,
        config: &Config,
        emissions: &mut Vec<Emission>,
    ) -> Result<Result<(), Refusal>, Fault>
        ensures accepted { IfOk result (λ answer. OnOk answer (config_test config.now ≡ Ok tt)) }
        ensures put { IfSome self.old.standing (λ r. IfOk result (λ answer. OnOk answer
            (PutUnder r.state (reload r.state config.now draw).0 self.new))) }
        ensures sent { IfSome self.old.standing (λ r. IfOk result (λ answer. OnOk answer
            (emissions.new.items ≡ emissions.old.items ++ (reload r.state config.now draw).1))) }
        ensures led { IfSome self.old.standing (λ r. IfOk result (λ answer. OnOk answer (IfSome self.new.standing (λ after.
            LeadsOn r.state (Given.Reload config.now draw) after.state)))) }
        ensures refused { IfOk result (λ answer. IfErr answer (λ refusal. (config_test config.now ≡ Err refusal)
            × (self.new ≡ self.old) × (emissions.new.items ≡ emissions.old.items))) }
        ensures failing { OnErr result (self.new ≡ nothing_shown) }
        ensures silent { OnErr result (emissions.new.items ≡ emissions.old.items) }
        ensures faults { Faults result self.old.standing }
    {
        self.take_config(draw, config, emissions)
    }

    // Puts the router under another configuration.
    fn take_config(
        &mut self,
        draw: u32,
        config: &Config,
        emissions: &mut Vec<Emission>,
    ) -> Result<Result<(), Refusal>, Fault>
        ensures accepted { IfOk result (λ answer. OnOk answer (config_test config.now ≡ Ok tt)) }
        ensures put { IfSome self.old.standing (λ r. IfOk result (λ answer. OnOk answer
            (PutUnder r.state (reload r.state config.now draw).0 self.new))) }
        ensures sent { IfSome self.old.standing (λ r. IfOk result (λ answer. OnOk answer
            (emissions.new.items ≡ emissions.old.items ++ (reload r.state config.now draw).1))) }
        ensures refused { IfOk result (λ answer. IfErr answer (λ refusal. (config_test config.now ≡ Err refusal)
            × (self.new ≡ self.old) × (emissions.new.items ≡ emissions.old.items))) }
        ensures failing { OnErr result (self.new ≡ nothing_shown) }
        ensures silent { OnErr result (emissions.new.items ≡ emissions.old.items) }
        ensures faults { Faults result self.old.standing }
    {
        if self.failed {
            return Err(Fault::Failed);
        }
        self.failed = true;
        let answer = reload_world(&mut self.core, &mut self.probes, draw, config)?;
        match answer {
            Ok(sent) => {
                hand_over(sent, emissions)?;
                self.copies = 0;
                self.failed = false;
                Ok(Ok(()))
            }
            Err(refusal) => {
                self.failed = false;
                Ok(Err(refusal))
            }
        }
    }
}

// Puts a world at rest under another configuration, by the world that opens with it. The result is what is sent.
fn reload_next(
    core: &mut Core,
    probes: &mut Probes,
    draw: u32,
    config: &Config,
    next: World,
) -> Result<Vec<Emission>, Fault>
    requires stands { Stands core.old }
    requires accepted { config_test config.now ≡ Ok tt }
    requires opens { next ≡ opening config.now }
    ensures stands { OnOk result (Stands core.new) }
    ensures reloads { Reloads core.old (reload core.old.world config.now draw) result core.new }
{
    let _ = config;
    probes.begin();
    pim_reloader::reload(core, &mut probes.meter, draw, next)
}

// Puts a world at rest under another configuration. The result is what is sent, or for which test the configuration is
// refused, and then nothing has changed.
fn reload_world(
    core: &mut Core,
    probes: &mut Probes,
    draw: u32,
    config: &Config,
) -> Result<Result<Vec<Emission>, Refusal>, Fault>
    requires { Stands core.old }
    ensures accepted { IfOk result (λ answer. OnOk answer (config_test config.now ≡ Ok tt)) }
    ensures stands { IfOk result (λ answer. OnOk answer (Stands core.new)) }
    ensures reloads { IfOk result (λ answer. IfOk answer (λ sent. Reloads core.old (reload core.old.world config.now draw) (Ok sent) core.new)) }
    ensures refused { IfOk result (λ answer. IfErr answer (λ refusal. config_test config.now ≡ Err refusal)) }
    ensures unchanged { IfOk result (λ answer. IfErr answer (λ refusal. (core.new ≡ core.old)
        × (probes.new.meter ≡ probes.old.meter))) }
    ensures fault { IsOkUnless result Fault.Memory }
{
    let made = {
        let mut outside = probes.outside();
        World::new(core.room.alloc, config, &mut outside.meter)?
    };
    match made {
        Ok(next) => {
            let sent = reload_next(core, probes, draw, config, next)?;
            Ok(Ok(sent))
        }
        Err(refusal) => Ok(Err(refusal)),
    }
}
