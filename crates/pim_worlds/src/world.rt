//! A world made of saved rows.
ghost use Rattle.law_settled.specs.Ready.{IsOrdered};
ghost use Rattle.law_states.specs.Reload.{config_of};
ghost use Rattle.pim_ip.specs.declared.fault.Fault.{Fault};
ghost use Rattle.pim_model.specs.Limits.{are_candidates, are_routes, are_rps, config_test};
ghost use Rattle.pim_mrib.specs.Routes.{table_of};
ghost use Rattle.pim_saver.specs.Views.{state_view};
ghost use Rattle.pim_worlds.specs.Rows.{StateRises, can_hold};
ghost use Rattle.std.specs.Prelude.{◌≡◌, ◌&&◌, IfErr, IfOk, IfSome, IsTrue, Ok, is_some};

use crate::interfaces::interfaces_of;
use crate::membership::membership_of;
use crate::neighbours::neighbours_of;
use crate::store::store_of;
use pim_ifaces::Interfaces;
use pim_mrib::Mrib;
use pim_saver::SavedState;
use pim_state::{Meter, World};
use pim_types::{Fault, Route, RpCandidate, RpRange};
use std::alloc::Global;

// The routes, the RP ranges and the candidates; or none where they aren't accepted.
fn mrib_of(
    alloc: Global,
    interfaces: &Interfaces,
    routes: &[Route],
    ranges: &[RpRange],
    candidates: &[RpCandidate],
    meter: &mut Meter,
) -> Result<Option<Mrib>, Fault>
    ensures made { IfOk result (λ made. IfSome made (λ mrib. mrib
        ≡ record { routes = routes.now; ranges = table_of ranges.now candidates.now })) }
    ensures none { IfOk result (λ made. is_some made ≡ (are_routes interfaces.now.configured routes.now
        && (are_rps ranges.now && are_candidates candidates.now))) }
    ensures memory { IfErr result (λ fault. fault ≡ Fault.Memory) }
{
    let mut mrib = Mrib::new(alloc);
    if mrib.replace(interfaces, routes, meter)?.is_err() {
        return Ok(None);
    }
    if mrib.replace_rps(ranges, meter)?.is_err() {
        return Ok(None);
    }
    if mrib.replace_candidates(candidates)?.is_err() {
        return Ok(None);
    }
    Ok(Some(mrib))
}

// The world with the rows of a saved state; none where a row can't be held.
fn world_of_rows(
    alloc: Global,
    state: &SavedState,
    meter: &mut Meter,
) -> Result<Option<World>, Fault>
    ensures made { IfOk result (λ made. IfSome made (λ world. StateRises (state_view state.now) → world ≡ state_view state.now)) }
    ensures none { IfOk result (λ made. is_some made ≡ can_hold (state_view state.now)) }
    ensures memory { IfErr result (λ fault. fault ≡ Fault.Memory) }
{
    let ground = &state.ground;
    let links = &state.links;
    let Some(interfaces) = interfaces_of(
        alloc,
        &ground.configured,
        &state.head.addresses,
        &links.interfaces,
    )?
    else {
        return Ok(None);
    };
    let Some(mrib) = mrib_of(
        alloc,
        &interfaces,
        &ground.routes,
        &ground.ranges,
        &state.head.candidates,
        meter,
    )?
    else {
        return Ok(None);
    };
    let neighbours = neighbours_of(alloc, &links.neighbours)?;
    let Some(membership) = membership_of(alloc, &links.queriers, &state.records, meter)? else {
        return Ok(None);
    };
    let Some(store) = store_of(alloc, &state.trees, meter)? else {
        return Ok(None);
    };
    Ok(World::of_parts(
        ground.settings,
        ground.present,
        interfaces,
        mrib,
        neighbours,
        membership,
        store,
    ))
}

/// The world of a state that was read, whose keys rise; or none where its configuration isn't accepted, or a row stands
/// under a key of another kind. An error is want of memory.
pub fn world_of(
    alloc: Global,
    state: &SavedState,
    meter: &mut Meter,
) -> Result<Option<World>, Fault>
    ensures made { IfOk result (λ made. IfSome made (λ world. IsOrdered (state_view state.now) → world ≡ state_view state.now)) }
    ensures none { IfOk result (λ made. is_some made ≡ can_hold (state_view state.now)) }
    ensures memory { IfErr result (λ fault. fault ≡ Fault.Memory) }
{
    world_of_rows(alloc, state, meter)
}

/// For the proof: a world under an accepted configuration can be made again of its rows, by `world_of`. Does nothing when
/// it runs.
pub fn proof_held(world: &World)
    ensures { config_test (config_of world.now) ≡ Ok tt → IsTrue (can_hold world.now) }
{
    world.interfaces().proof_kinds();
    world.membership().proof_kinds();
    world.store().proof_kinds();
    world.proof_candidates();
    // For the proof: `settings` and `present` tell the ranges of their values.
    let _ = world.settings();
    let _ = world.present();
}
