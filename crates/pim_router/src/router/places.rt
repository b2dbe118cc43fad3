//! Another configuration in a running router, by a map of places.
ghost use Rattle.law_states.specs.History.{Given};
ghost use Rattle.law_states.specs.Placing.{are_places, reload_by};
ghost use Rattle.pim_ip.specs.declared.fault.Fault.{Fault};
ghost use Rattle.pim_model.specs.Limits.{config_test};
ghost use Rattle.pim_model.specs.State.{iface_count, opening};
ghost use Rattle.pim_reloader.specs.Reloads.{Reloads};
ghost use Rattle.pim_router.specs.Asked.{LeadsOn, places_test};
ghost use Rattle.pim_router.specs.Standing.{nothing_shown};
ghost use Rattle.pim_router.specs.Stepped.{Faults, PutUnder};
ghost use Rattle.pim_router.specs.Stepping.{Stands};
ghost use Rattle.std.specs.Prelude.{◌≡◌, ◌++◌, Err, IfErr, IfOk, IfSome, IsOkUnless, Ok, OnErr, OnOk, length, true};

use super::{Router, hand_over};
use crate::probes::Probes;
use pim_event::Core;
use pim_state::World;
use pim_types::{Config, Emission, Fault, Refusal};
use pim_worlds::are_places;
use std::alloc::AllocError;

impl Router {
    /// Puts the router under another configuration by a map of places, and adds the packets that leave at the end of
    /// `emissions`, in their order. For each interface of before, by its number, the map says which number the interface of
    /// its link has in the configuration, counted from 0; `None` where the configuration has none. Facts go with their
    /// link: an interface that stays takes those of its old number along, without its neighbours where its address, or the
    /// length of its subnet, is another one, and an interface that has no number goes down first, as by an event `Down`.
    /// All else is as after `reload`. Packets leave on the interfaces that had their links before, by their old numbers.
    /// A configuration is refused as by `new`, and then a map that has not one line for each interface of before, or that
    /// names a number twice or one that the configuration doesn't have, as `PlacesDontFit`; then nothing changes. After a
    /// fault `emissions` are unchanged, and the router answers `Failed` from then on; the only fault of a router that
    /// hasn't failed is want of memory. `copies`, `changed` and `may_differ` answer as after `reload`.
    pub fn reload_places(
        &mut self,
        draw: u32,
        config: &Config,
        places: &[Option<u32>],
        emissions: &mut Vec<Emission>,
    ) -> Result<Result<(), Refusal>, Fault>
        ensures accepted { IfOk result (λ answer. OnOk answer (config_test config.now ≡ Ok tt)) }
        ensures fit { IfSome self.old.standing (λ r. IfOk result (λ answer. OnOk answer
            (are_places (iface_count r.state) (length config.now.interfaces) places.now ≡ true))) }
        ensures put { IfSome self.old.standing (λ r. IfOk result (λ answer. OnOk answer
            (PutUnder r.state (reload_by r.state places.now config.now draw).0 self.new))) }
        ensures sent { IfSome self.old.standing (λ r. IfOk result (λ answer. OnOk answer
            (emissions.new.items ≡ emissions.old.items ++ (reload_by r.state places.now config.now draw).1))) }
        ensures led { IfSome self.old.standing (λ r. IfOk result (λ answer. OnOk answer (IfSome self.new.standing (λ after.
            LeadsOn r.state (Given.Placed places.now config.now draw) after.state)))) }
        ensures refused { IfSome self.old.standing (λ r. IfOk result (λ answer. IfErr answer (λ refusal.
            (places_test r.state places.now config.now ≡ Err refusal)
            × (self.new ≡ self.old) × (emissions.new.items ≡ emissions.old.items)))) }
        ensures failing { OnErr result (self.new ≡ nothing_shown) }
        ensures silent { OnErr result (emissions.new.items ≡ emissions.old.items) }
        ensures faults { Faults result self.old.standing }
    {
        self.take_places(draw, config, places, emissions)
    }

    // Puts the router under another configuration, by a map of places.
    fn take_places(
        &mut self,
        draw: u32,
        config: &Config,
        places: &[Option<u32>],
        emissions: &mut Vec<Emission>,
    ) -> Result<Result<(), Refusal>, Fault>
        ensures accepted { IfOk result (λ answer. OnOk answer (config_test config.now ≡ Ok tt)) }
        ensures fit { IfSome self.old.standing (λ r. IfOk result (λ answer. OnOk answer
            (are_places (iface_count r.state) (length config.now.interfaces) places.now ≡ true))) }
        ensures put { IfSome self.old.standing (λ r. IfOk result (λ answer. OnOk answer
            (PutUnder r.state (reload_by r.state places.now config.now draw).0 self.new))) }
        ensures sent { IfSome self.old.standing (λ r. IfOk result (λ answer. OnOk answer
            (emissions.new.items ≡ emissions.old.items ++ (reload_by r.state places.now config.now draw).1))) }
        ensures refused { IfSome self.old.standing (λ r. IfOk result (λ answer. IfErr answer (λ refusal.
            (places_test r.state places.now config.now ≡ Err refusal)
            × (self.new ≡ self.old) × (emissions.new.items ≡ emissions.old.items)))) }
        ensures failing { OnErr result (self.new ≡ nothing_shown) }
        ensures silent { OnErr result (emissions.new.items ≡ emissions.old.items) }
        ensures faults { Faults result self.old.standing }
    {
        if self.failed {
            return Err(Fault::Failed);
        }
        self.failed = true;
        let answer = reload_world_by(&mut self.core, &mut self.probes, draw, config, places)?;
        match answer {
            Ok(sent) => {
                hand_over(sent, emissions)?;
                self.copies = 0;
                self.failed = false;
                Ok(Ok(()))
            }
            Err(refusal) => {
                self.failed = false;
                Ok(Err(refusal))
            }
        }
    }
}

// Puts a world at rest under another configuration by a map of places, by the world that opens with it. The result is what
// is sent.
fn place_next(
    core: &mut Core,
    probes: &mut Probes,
    draw: u32,
    config: &Config,
    next: &World,
    places: &[Option<u32>],
) -> Result<Vec<Emission>, Fault>
    requires stands { Stands core.old }
    requires accepted { config_test config.now ≡ Ok tt }
    requires opens { next.now ≡ opening config.now }
    requires fit { are_places (iface_count core.old.world) (length config.now.interfaces) places.now ≡ true }
    ensures stands { OnOk result (Stands core.new) }
    ensures reloads { Reloads core.old (reload_by core.old.world places.now config.now draw) result core.new }
{
    let _ = config;
    probes.begin();
    pim_reloader::reload_places(core, &mut probes.meter, draw, next, places)
}

// Puts a world at rest under another configuration by a map of places. The result is what is sent, or for which test the
// configuration or the map is refused, and then nothing has changed.
#[tactic(auto, unfolding(crate::specs::Asked::places_test, pim_model::specs::State::opening))]
fn reload_world_by(
    core: &mut Core,
    probes: &mut Probes,
    draw: u32,
    config: &Config,
    places: &[Option<u32>],
) -> Result<Result<Vec<Emission>, Refusal>, Fault>
    requires { Stands core.old }
    ensures accepted { IfOk result (λ answer. OnOk answer (config_test config.now ≡ Ok tt)) }
    ensures fit { IfOk result (λ answer. OnOk answer
        (are_places (iface_count core.old.world) (length config.now.interfaces) places.now ≡ true)) }
    ensures stands { IfOk result (λ answer. OnOk answer (Stands core.new)) }
    ensures reloads { IfOk result (λ answer. IfOk answer (λ sent.
        Reloads core.old (reload_by core.old.world places.now config.now draw) (Ok sent) core.new)) }
    ensures refused { IfOk result (λ answer. IfErr answer (λ refusal.
        places_test core.old.world places.now config.now ≡ Err refusal)) }
    ensures unchanged { IfOk result (λ answer. IfErr answer (λ refusal. (core.new ≡ core.old)
        × (probes.new.meter ≡ probes.old.meter))) }
    ensures fault { IsOkUnless result Fault.Memory }
{
    let made = {
        let mut outside = probes.outside();
        World::new(core.room.alloc, config, &mut outside.meter)?
    };
    match made {
        Ok(next) => {
            if !do_fit(core, &next, places)? {
                return Ok(Err(Refusal::PlacesDontFit));
            }
            let sent = place_next(core, probes, draw, config, &next, places)?;
            Ok(Ok(sent))
        }
        Err(refusal) => Ok(Err(refusal)),
    }
}

// Whether the map is one of the world's interfaces to those of the next one. The error is want of memory.
fn do_fit(core: &Core, next: &World, places: &[Option<u32>]) -> Result<bool, AllocError>
    ensures { IfOk result (λ fit. fit ≡ are_places (iface_count core.now.world) (length next.now.configured.interfaces) places.now) }
{
    let old = core.world.interfaces().count();
    let new = next.interfaces().count();
    are_places(core.room.alloc, old, new, places)
}
