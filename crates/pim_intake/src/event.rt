//! The tests of an event, by its kind.
ghost use Rattle.std.specs.Prelude.{◌≡◌, IfErr, IfOk, IsOk, OnOk, Some, false, option_map, true};
ghost use Rattle.pim_ip.specs.declared.fault.Fault.{Fault};
ghost use Rattle.pim_intake.specs.Brought.{IsTableOf};
ghost use Rattle.pim_intake.specs.Memory.{is_frame, is_tested_in_memory};
ghost use Rattle.pim_intake.specs.Visits.{judged_nodes};
ghost use Rattle.pim_model.specs.Judging.{advance_judged, candidates_judged, down_judged, judged, routes_judged, rps_judged, up_judged};
ghost use Rattle.pim_model.specs.Unicast.{with_candidates, with_ranges};
ghost use Rattle.pim_model.specs.declared.accepted.Accepted.{Accepted as AcceptedValue};
ghost use Rattle.pim_trie.specs.Meter.{raised};

use crate::frame::judge_frame;
use crate::lent::{LentEvent, LentKind};
use crate::unicast::judge_unicast;
use pim_model::Accepted;
use pim_mrib::Mrib;
use pim_state::World;
use pim_trie::Meter;
use pim_types::{Fault, IfaceId, Ignored, Lent, Refusal, Route, RpCandidate, RpRange, Stop};
use std::alloc::Global;

// The latest timestamp of an event, in ms.
const LAST_MOMENT: u64 = 1 << 62;

// The tests of an Advance: its timestamp isn't before the present one, nor past the latest.
#[tactic(auto, unfolding(pim_model::specs::Judging::advance_judged))]
fn judge_advance<'a>(world: &World, moment: u64) -> Result<Accepted<'a>, Stop>
    ensures { result ≡ advance_judged world.now moment }
{
    if moment < world.present() {
        return Err(Stop::Refuse(Refusal::MomentBack));
    }
    if moment > LAST_MOMENT {
        return Err(Stop::Refuse(Refusal::MomentFar));
    }
    Ok(Accepted::Advance { moment })
}

// The tests of an event by which an interface goes up.
#[tactic(auto, unfolding(pim_model::specs::Judging::up_judged))]
fn judge_up<'a>(world: &World, iface: IfaceId) -> Result<Accepted<'a>, Stop>
    ensures { result ≡ up_judged world.now iface }
{
    if iface.number >= world.interfaces().count() {
        return Err(Stop::Refuse(Refusal::NoInterface));
    }
    if world.interfaces().is_up(iface) {
        return Err(Stop::Ignore(Ignored::Already));
    }
    Ok(Accepted::Up { iface })
}

// The tests of an event by which an interface goes down.
#[tactic(auto, unfolding(pim_model::specs::Judging::down_judged))]
fn judge_down<'a>(world: &World, iface: IfaceId) -> Result<Accepted<'a>, Stop>
    ensures { result ≡ down_judged world.now iface }
{
    if iface.number >= world.interfaces().count() {
        return Err(Stop::Refuse(Refusal::NoInterface));
    }
    if !world.interfaces().is_up(iface) {
        return Err(Stop::Ignore(Ignored::Already));
    }
    Ok(Accepted::Down { iface })
}

// The tests of new routes. The table that is made of them is put in a place that is lent.
#[tactic(auto, unfolding(pim_model::specs::Judging::routes_judged))]
fn judge_routes<'a>(
    alloc: Global,
    world: &World,
    routes: &'a [Route],
    brought: &mut Option<Box<Mrib>>,
    meter: &mut Meter,
) -> Result<Result<Accepted<'a>, Stop>, Fault>
    ensures value { IfOk result (λ judgement. judgement ≡ routes_judged world.now routes.now) }
    ensures table { IfOk result (λ judgement. IfOk judgement (λ accepted.
        option_map (λ t. t.value.routes) brought.new ≡ Some routes.now)) }
    ensures memory { IfErr result (λ fault. fault ≡ Fault.Memory) }
{
    match world.table_of_routes(alloc, routes, meter)? {
        Ok(table) => {
            *brought = Some(Box::new(alloc, table)?);
            Ok(Ok(Accepted::Routes {
                routes: Lent::of(routes),
            }))
        }
        Err(refusal) => Ok(Err(Stop::Refuse(refusal))),
    }
}

// Accepts RP ranges and candidates by the table that was made of them, which is put in a place that is lent.
fn accept_ranges<'a>(
    alloc: Global,
    table: Mrib,
    brought: &mut Option<Box<Mrib>>,
) -> Result<Accepted<'a>, Fault>
    ensures value { IfOk result (λ accepted. accepted ≡ AcceptedValue.Rps table.ranges) }
    ensures table { OnOk result (option_map (λ t. t.value.ranges) brought.new ≡ Some table.ranges) }
    ensures memory { IfErr result (λ fault. fault ≡ Fault.Memory) }
{
    let ranges = table.copied_ranges()?;
    *brought = Some(Box::new(alloc, table)?);
    Ok(Accepted::Rps { ranges })
}

// The tests of new RP ranges. The table that is made of them is put in a place that is lent.
#[tactic(auto, unfolding(pim_model::specs::Judging::rps_judged))]
fn judge_rps<'a>(
    alloc: Global,
    world: &World,
    ranges: &[RpRange],
    brought: &mut Option<Box<Mrib>>,
    meter: &mut Meter,
) -> Result<Result<Accepted<'a>, Stop>, Fault>
    ensures value { IfOk result (λ judgement. judgement ≡ rps_judged world.now ranges.now) }
    ensures table { IfOk result (λ judgement. IfOk judgement (λ accepted.
        option_map (λ t. t.value.ranges) brought.new ≡ Some (with_ranges world.now.ranges ranges.now))) }
    ensures memory { IfErr result (λ fault. fault ≡ Fault.Memory) }
{
    match world.table_of_ranges(alloc, ranges, meter)? {
        Ok(table) => Ok(Ok(accept_ranges(alloc, table, brought)?)),
        Err(refusal) => Ok(Err(Stop::Refuse(refusal))),
    }
}

// The tests of new candidate RPs. The table that is made of them is put in a place that is lent.
#[tactic(auto, unfolding(pim_model::specs::Judging::candidates_judged))]
fn judge_candidates<'a>(
    alloc: Global,
    world: &World,
    candidates: &[RpCandidate],
    brought: &mut Option<Box<Mrib>>,
    meter: &mut Meter,
) -> Result<Result<Accepted<'a>, Stop>, Fault>
    ensures value { IfOk result (λ judgement. judgement ≡ candidates_judged world.now candidates.now) }
    ensures table { IfOk result (λ judgement. IfOk judgement (λ accepted.
        option_map (λ t. t.value.ranges) brought.new ≡ Some (with_candidates world.now.ranges candidates.now))) }
    ensures memory { IfErr result (λ fault. fault ≡ Fault.Memory) }
{
    match world.table_of_candidates(alloc, candidates, meter)? {
        Ok(table) => Ok(Ok(accept_ranges(alloc, table, brought)?)),
        Err(refusal) => Ok(Err(Stop::Refuse(refusal))),
    }
}

/// Judges an event: what the router is to act on, or the first test that fails. Only routes, RP ranges and candidates are
/// tested in memory: a table is made of them, its nodes are counted, and it is put in the place that is lent, which else
/// stays as it is: a table is large, and most events bring none. Else the meter rises by the nodes that lead to the RP of
/// the group of a Register-Stop to the router; for a packet that came on a link nothing is looked up.
#[tactic(auto, using(pim_state::proofs::Visits::raised_by_none), unfolding(pim_model::specs::Judging::judged, crate::specs::Lent::event_kind))]
pub fn judge<'a>(
    alloc: Global,
    world: &World,
    event: &LentEvent<'a>,
    brought: &mut Option<Box<Mrib>>,
    meter: &mut Meter,
) -> Result<Result<Accepted<'a>, Stop>, Fault>
    ensures value { IfOk result (λ judgement. judgement ≡ judged world.now event.now.kind) }
    ensures table { IfOk result (λ judgement. IfOk judgement (λ accepted. IsTableOf world.now event.now.kind brought.new)) }
    ensures memory { IfErr result (λ fault. fault ≡ Fault.Memory) }
    ensures sure { is_tested_in_memory event.now.kind ≡ false → IsOk result }
    ensures uncounted { is_frame event.now.kind ≡ true → meter.new ≡ meter.old }
    ensures visited { is_tested_in_memory event.now.kind ≡ false
        → meter.new ≡ raised meter.old (judged_nodes world.now event.now.kind) }
{
    match &event.kind {
        LentKind::Advance { moment } => Ok(judge_advance(world, *moment)),
        LentKind::Frame { iface, bytes } => Ok(judge_frame(world, *iface, bytes.as_slice())),
        LentKind::Unicast { bytes } => Ok(judge_unicast(world, bytes.as_slice(), meter)),
        LentKind::Up { iface } => Ok(judge_up(world, *iface)),
        LentKind::Down { iface } => Ok(judge_down(world, *iface)),
        LentKind::Routes { routes } => judge_routes(
            alloc,
            world,
            routes.as_slice(),
            brought,
            meter,
        ),
        LentKind::Rps { rps } => judge_rps(alloc, world, rps.as_slice(), brought, meter),
        LentKind::RpCandidates { candidates } => judge_candidates(
            alloc,
            world,
            candidates.as_slice(),
            brought,
            meter,
        ),
    }
}
