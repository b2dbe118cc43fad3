//! The world and the forwarding cache of saved bytes.
ghost use Rattle.law_events.specs.Rest.{IsAtRest};
ghost use Rattle.law_settled.specs.Ready.{IsOrdered};
ghost use Rattle.law_states.specs.NearStates.{is_near};
ghost use Rattle.law_states.specs.Reload.{config_of};
ghost use Rattle.pim_fanout.specs.Refreshing.{IsUncounted};
ghost use Rattle.pim_ip.specs.declared.fault.Fault.{Fault};
ghost use Rattle.pim_mfc.specs.Laws.{ShowsRows};
ghost use Rattle.pim_model.specs.Cache.{cached};
ghost use Rattle.pim_model.specs.Limits.{config_test};
ghost use Rattle.pim_saved.specs.Reading.{reading};
ghost use Rattle.pim_saver.specs.Views.{state_view};
ghost use Rattle.pim_worlds.specs.Resuming.{IsResumable, restore_test, resume_test};
ghost use Rattle.std.specs.Prelude.{◌≡◌, Err, IfErr, IfOk, Ok, true};

use crate::near::is_near;
use crate::quiet::is_quiet;
use crate::refusal::RestoreRefusal;
use crate::settings::are_settings_accepted;
use crate::{is_settled, proof_held, world_of};
use pim_fanout::Cache;
use pim_saver::{ReadFault, SavedState, read_state};
use pim_state::{Meter, World};
use pim_types::Fault;
use std::alloc::Global;

/// What a router keeps of its state: its world, and the forwarding cache with a row for each source that has a fact.
#[derive(Drop)]
pub struct Resumed {
    pub world: World,
    pub cache: Cache,
}

// The world of a state that was read, where it passes all tests; or the first test that fails.
#[tactic(auto, unfolding(crate::specs::Resuming::resume_test))]
fn tested_world(
    alloc: Global,
    state: &SavedState,
    meter: &mut Meter,
) -> Result<Result<World, RestoreRefusal>, Fault>
    ensures made { IfOk result (λ made. IfOk made (λ world. IsOrdered (state_view state.now)
        → (world ≡ state_view state.now) × (resume_test (state_view state.now) ≡ Ok tt))) }
    ensures refused { IfOk result (λ made. IfErr made (λ refusal. IsOrdered (state_view state.now)
        → resume_test (state_view state.now) ≡ Err refusal)) }
    ensures memory { IfErr result (λ fault. fault ≡ Fault.Memory) }
{
    let Some(world) = world_of(alloc, state, meter)? else {
        return Ok(Err(RestoreRefusal::NotHeld));
    };
    if !are_settings_accepted(&world) {
        return Ok(Err(RestoreRefusal::NotHeld));
    }
    if !is_settled(&world) {
        return Ok(Err(RestoreRefusal::NotSettled));
    }
    if !is_quiet(&world, meter) {
        return Ok(Err(RestoreRefusal::NotQuiet));
    }
    if !is_near(&world) {
        return Ok(Err(RestoreRefusal::NotNear));
    }
    Ok(Ok(world))
}

/// The world that a saved state's bytes say, with its forwarding cache, where that state passes all tests; or the first
/// test that fails. The meter rises by the nodes visited. The fault is want of memory.
pub fn resume(
    alloc: Global,
    bytes: &[u8],
    meter: &mut Meter,
) -> Result<Result<Resumed, RestoreRefusal>, Fault>
    ensures world { IfOk result (λ made. IfOk made (λ r. reading bytes.now ≡ Ok r.world)) }
    ensures tested { IfOk result (λ made. IfOk made (λ r. restore_test bytes.now ≡ Ok tt)) }
    ensures resumable { IfOk result (λ made. IfOk made (λ r. IsResumable r.world)) }
    ensures shown { IfOk result (λ made. IfOk made (λ r. ShowsRows r.cache.mfc.rows (cached r.world))) }
    ensures uncounted { IfOk result (λ made. IfOk made (λ r. IsUncounted r.cache)) }
    ensures refused { IfOk result (λ made. IfErr made (λ refusal. restore_test bytes.now ≡ Err refusal)) }
    ensures memory { IfErr result (λ fault. fault ≡ Fault.Memory) }
{
    let state = match read_state(alloc, bytes) {
        Ok(state) => state,
        Err(ReadFault::Memory) => return Err(Fault::Memory),
        Err(ReadFault::Refused(refusal)) => return Ok(Err(RestoreRefusal::Bytes(refusal))),
    };
    let world = match tested_world(alloc, &state, meter)? {
        Ok(world) => world,
        Err(refusal) => return Ok(Err(refusal)),
    };
    let cache = Cache::of(alloc, &world, meter)?;
    Ok(Ok(Resumed { world, cache }))
}

/// For the proof: a world at rest under an accepted configuration for which `is_near` holds is in a state that passes all
/// tests. Does nothing when it runs.
pub fn proof_resumable(world: &World)
    requires accepted { config_test (config_of world.now) ≡ Ok tt }
    requires rest { IsAtRest world.now }
    requires near { is_near world.now ≡ true }
    ensures { IsResumable world.now }
{
    proof_held(world);
}
