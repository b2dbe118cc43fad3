//! One event: its tests, its change where there is room for its facts, and what follows of the change.
ghost use Rattle.law_events.specs.Rest.{IsAtRest};
ghost use Rattle.law_plane.specs.Staying.{is_rerouting};
ghost use Rattle.pim_event.specs.AtRp.{IsKnown};
ghost use Rattle.pim_event.specs.Hearing.{IsUndecided};
ghost use Rattle.pim_event.specs.Replacing.{replaced_after};
ghost use Rattle.pim_event.specs.Staying.{OffersStay, moves_all, moves_dr};
ghost use Rattle.pim_event.specs.Stepping.{Accepts, Begins, BeginsTurn, Steps, StepsInTurn, Turns, TurnsUnlessFull};
ghost use Rattle.pim_event.specs.Stops.{stop_outcome};
ghost use Rattle.pim_fanout.specs.Laws.{names_of};
ghost use Rattle.pim_fanout.specs.Named.{keys_of};
ghost use Rattle.pim_fanout.specs.Refreshing.{touches, touches_in};
ghost use Rattle.pim_intake.specs.Memory.{is_frame};
ghost use Rattle.pim_ip.specs.declared.fault.Fault.{Fault};
ghost use Rattle.pim_macros.specs.Sights.{IsSourceSight};
ghost use Rattle.pim_model.specs.Judging.{judged};
ghost use Rattle.pim_model.specs.Sets.{is_kept_alive};
ghost use Rattle.pim_model.specs.State.{State};
ghost use Rattle.pim_model.specs.Step.{change, outcome_of, step, taken};
ghost use Rattle.pim_model.specs.Sure.{needs_no_memory};
ghost use Rattle.pim_model.specs.Tables.{same_bool};
ghost use Rattle.pim_model.specs.declared.accepted.Accepted.{Accepted as AcceptedValue};
ghost use Rattle.pim_plan.specs.Acting.{HasRead, control_event, act_event};
ghost use Rattle.pim_plan.specs.Naming.{Brings, IsConfigured};
ghost use Rattle.pim_plan.specs.Planning.{Fits};
ghost use Rattle.pim_settling.specs.Settling.{AreNames};
ghost use Rattle.pim_state.specs.declared.touched.Touched.{Touched as TouchedValue};
ghost use Rattle.pim_trie.specs.Meter.{raised};
ghost use Rattle.pim_types.specs.declared.event.EventKind.{EventKind as EventValue};
ghost use Rattle.pim_types.specs.declared.outcome.Verdict.{Verdict as VerdictValue};
ghost use Rattle.pim_wire.specs.RegisterParts.{registered_group, registered_source};
ghost use Rattle.std.specs.Prelude.{◌≡◌, ◌≤◌, [], IfOk, IfSome, IsOk, IsOkUnless, IsTrue, None, Ok, OnOk, false, if◌then◌else◌, length, not, true};

use crate::again::{take_again, take_renewed};
use crate::change::apply;
use crate::hear::{Heard, hear};
use crate::known::known_source;
use crate::parts::Core;
use crate::plain::take_plain;
use crate::quiet::{change_quietly, is_nothing};
use crate::rendezvous::SourceAtRp;
use crate::replaced::Replaced;
use crate::time::advance;
use pim_data::Leaving;
use pim_fanout::Gathered;
use pim_hello::hello_keeps_dr;
use pim_intake::{LentEvent, judge};
use pim_ip::Ipv4View;
use pim_macros::SourceSight;
use pim_messages::Room;
use pim_model::Accepted;
use pim_mrib::Mrib;
use pim_plan::{Act, Control, Plan, Planning, planned};
use pim_settling::settle::settle;
use pim_state::{Touched, Turn, World};
use pim_trie::Meter;
use pim_types::{Fault, IfaceId, Outcome, Refusal, Series, SourceGroup, Stop, Verdict};
use pim_wire::RegisterView;
use std::alloc::Global;

// The outcome of an event that was done, of which nothing is sent.
fn done_silently(alloc: Global) -> Outcome
    ensures { result ≡ record { answer = Ok VerdictValue.Done; emissions = []; copies = 0 } }
{
    Outcome {
        answer: Ok(Verdict::Done),
        emissions: Series::new(alloc),
        copies: 0,
    }
}

// The outcome of an event that changes nothing.
fn stopped(alloc: Global, stop: Stop) -> Outcome
    ensures { result ≡ stop_outcome stop }
{
    let answer = match stop {
        Stop::Refuse(refusal) => Err(refusal),
        Stop::Ignore(reason) => Ok(Verdict::Ignored(reason)),
    };
    Outcome {
        answer,
        emissions: Series::new(alloc),
        copies: 0,
    }
}

// What became of an event, and the sources whose rows of the forwarding cache are to be evaluated again.
#[derive(Drop)]
struct Changed {
    outcome: Outcome,
    names: Series<SourceGroup>,
}

// The sight that was gathered for the plan, if the event is a packet of data.
fn planned_sight<'a>(act: &'a Act<'_>) -> Option<&'a SourceSight>
    ensures { (s : State) → HasRead s act.now → IfSome result (λ sight. IsSourceSight s sight.now) }
{
    match act {
        Act::Data { sight, .. } => Some(&**sight),
        Act::Register { .. } => None,
        Act::Control(_) => None,
    }
}

// What an event does: its own change, what follows of that, and last the packets that are forwarded.
fn change_world(
    world: &mut World,
    turn: &mut Turn,
    meter: &mut Meter,
    replaced: &mut Replaced,
    touched: &Touched,
    act: Act<'_>,
    last: &mut Option<SourceSight>,
) -> Result<Changed, Fault>
    requires rest { IsAtRest world.old }
    requires begun { turn.old.messages ≡ [] }
    requires configured { IsConfigured world.old (act_event act) }
    requires plan { Fits world.old (act_event act) (record { touched = touched.now; act = act }) }
    requires none { last.old ≡ None }
    ensures outcome { IfOk result (λ changed. changed.outcome
        ≡ outcome_of (taken world.old turn.old.draw (act_event act.entry))) }
    ensures state { OnOk result (world.new ≡ (taken world.old turn.old.draw (act_event act.entry)).state) }
    ensures names { IfOk result (λ changed. AreNames world.old (change world.old turn.old.draw (act_event act.entry)).state
        touched.now (keys_of changed.names)) }
    ensures last { OnOk result (IfSome last.new (IsSourceSight world.new)) }
    ensures replaced { OnOk result (replaced.new ≡ replaced_after world.old (act_event act.entry) replaced.old) }
    ensures fault { IsOkUnless result Fault.Memory }
{
    if is_nothing(touched) {
        let outcome = change_quietly(world, turn, meter, replaced, act, None)?;
        let names = Series::new(turn.alloc);
        return Ok(Changed { outcome, names });
    }
    let given = planned_sight(&act);
    let gathered = Gathered::of(world, turn.alloc, touched, given, meter)?;
    let Leaving {
        mut copies,
        mut registered,
    } = apply(world, turn, meter, replaced, act, None)?;
    // For the proof: asserts, sources and registers are under keys of their kind.
    world.proof_keyed();
    let count = copies.len() as u32;
    let mut emissions = Vec::new(turn.alloc);
    let names = settle(world, turn, meter, &gathered, &mut emissions, last)?;
    emissions.append(&mut copies)?;
    emissions.append(&mut registered)?;
    let outcome = Outcome {
        answer: Ok(Verdict::Done),
        emissions: Series::from_vec(emissions),
        copies: count,
    };
    Ok(Changed { outcome, names })
}

// Whether an event that forwards no packet brings new routes or RP ranges.
fn control_reroutes(control: &Control<'_>) -> bool
    ensures { result ≡ is_rerouting (control_event control.now) }
{
    match control {
        Control::Routes { .. } => true,
        Control::Ranges { .. } => true,
        Control::Up { .. } => false,
        Control::Down { .. } => false,
        Control::Hello { .. } => false,
        Control::JoinPruneToMe { .. } => false,
        Control::JoinPruneSeen { .. } => false,
        Control::Assert { .. } => false,
        Control::Query { .. } => false,
        Control::Report { .. } => false,
        Control::RegisterStop { .. } => false,
    }
}

// Whether the event brings new routes or RP ranges.
fn is_rerouting(act: &Act<'_>) -> bool
    ensures { result ≡ is_rerouting (act_event act.now) }
{
    match act {
        Act::Data { .. } => false,
        Act::Register { .. } => false,
        Act::Control(control) => control_reroutes(control),
    }
}

// Whether an event that forwards no packet may change of which interfaces the router is the DR.
#[tactic(auto, unfolding(crate::specs::Staying::moves_dr))]
fn control_moves_dr(world: &World, control: &Control<'_>) -> bool
    ensures { result ≡ moves_dr world.now (control_event control.now) }
{
    match control {
        Control::Up { .. } => true,
        Control::Down { .. } => true,
        Control::Hello { iface, from, hello } => !hello_keeps_dr(world, *iface, *from, hello),
        Control::Routes { .. } => false,
        Control::Ranges { .. } => false,
        Control::JoinPruneToMe { .. } => false,
        Control::JoinPruneSeen { .. } => false,
        Control::Assert { .. } => false,
        Control::Query { .. } => false,
        Control::Report { .. } => false,
        Control::RegisterStop { .. } => false,
    }
}

// Whether the event may change of which interfaces the router is the DR.
#[tactic(auto, unfolding(crate::specs::Staying::moves_dr))]
fn moves_dr(world: &World, act: &Act<'_>) -> bool
    ensures { result ≡ moves_dr world.now (act_event act.now) }
{
    match act {
        Act::Data { .. } => false,
        Act::Register { .. } => false,
        Act::Control(control) => control_moves_dr(world, control),
    }
}

// Whether the event may move sources without facts.
fn moves_all(world: &World, act: &Act<'_>) -> bool
    ensures { result ≡ moves_all world.now (act_event act.now) }
{
    is_rerouting(act) || moves_dr(world, act)
}

// What a change touches of what is offered: all sources where it may move those without facts; else what it touches.
fn disturbed_where(moves_all: bool, touched: Touched) -> Touched
    ensures { result ≡ (if moves_all then TouchedValue.All else touched) }
{
    if moves_all { Touched::All } else { touched }
}

// Makes a change, and then evaluates the rows of the named sources again.
fn change_and_refresh(
    core: &mut Core,
    turn: &mut Turn,
    meter: &mut Meter,
    plan: Plan<'_>,
) -> Result<Outcome, Fault>
    requires begun { BeginsTurn core.old turn.old (act_event plan.act) }
    requires plan { Fits core.old.world (act_event plan.act) plan }
    ensures turn { Turns core.old turn.old.draw (act_event plan.entry.act) result core.new }
    ensures touched { OnOk result (touches core.new.cache ≡ raised (touches core.old.cache) (touches_in core.new.world
        (names_of core.old.world (change core.old.world turn.old.draw (act_event plan.entry.act)).state
        plan.entry.touched))) }
{
    // For the proof: there are at most 120 interfaces.
    core.world.interfaces().proof_few();
    let Plan { touched, act } = plan;
    let moves = moves_all(&core.world, &act);
    let mut last = None;
    let Changed { outcome, names } = change_world(
        &mut core.world,
        turn,
        meter,
        &mut core.replaced,
        &touched,
        act,
        &mut last,
    )?;
    core.cache.refresh(
        &core.world,
        meter,
        names,
        disturbed_where(moves, touched),
        &last,
    )?;
    Ok(outcome)
}

// Takes an accepted event: an Advance lets time pass, a Join/Prune, a Hello or a report that repeats what is known moves
// ends of rows, and any other event is refused where there is no room for the facts that it names.
fn plan_and_act(
    core: &mut Core,
    turn: &mut Turn,
    meter: &mut Meter,
    accepted: Accepted<'_>,
    table: Option<Box<Mrib>>,
) -> Result<Outcome, Fault>
    requires begun { BeginsTurn core.old turn.old accepted }
    requires table { Brings accepted table }
    ensures { TurnsUnlessFull core.old turn.old.draw accepted.entry result core.new }
{
    let planning = planned(&core.world, turn, meter, accepted, table)?;
    match planning {
        Planning::Time { moment } => advance(core, turn, meter, moment),
        Planning::Full => Ok(stopped(turn.alloc, Stop::Refuse(Refusal::Full))),
        Planning::Again {
            iface,
            holdtime,
            named,
        } => {
            // For the proof: the interface is below 120.
            core.world.interfaces().proof_few();
            take_again(&mut core.world, meter, iface, holdtime, &named)?;
            Ok(done_silently(turn.alloc))
        }
        Planning::Refreshed { iface, from, hello } => {
            // For the proof: there are at most 120 interfaces.
            core.world.interfaces().proof_few();
            core.world.replace_neighbour(iface, from, &hello)?;
            // For the proof: asserts, sources and registers are under keys of their kind.
            core.world.proof_keyed();
            Ok(done_silently(turn.alloc))
        }
        Planning::Renewed { iface, report } => {
            // For the proof: the interface is below 120.
            core.world.interfaces().proof_few();
            take_renewed(&mut core.world, meter, iface, &report)?;
            // For the proof: asserts, sources and registers are under keys of their kind.
            core.world.proof_keyed();
            Ok(done_silently(turn.alloc))
        }
        Planning::Change(plan) => change_and_refresh(core, turn, meter, plan),
    }
}

// Takes a Register to the RP of its group, by what is known of its source, whose keepalive timer runs. It touches nothing.
fn act_on_known_source(
    core: &mut Core,
    turn: &mut Turn,
    meter: &mut Meter,
    packet: Ipv4View<'_>,
    register: RegisterView<'_>,
    source: SourceAtRp,
) -> Result<Outcome, Fault>
    requires begun { BeginsTurn core.old turn.old (AcceptedValue.Register packet register) }
    requires known { IsKnown core.old.world packet register source }
    requires kept { is_kept_alive core.old.world (registered_group register) (registered_source register) ≡ true }
    ensures { TurnsUnlessFull core.old turn.old.draw (AcceptedValue.Register packet.entry register.entry) result core.new }
{
    // For the proof: there are at most 120 interfaces.
    core.world.interfaces().proof_few();
    change_quietly(
        &mut core.world,
        turn,
        meter,
        &mut core.replaced,
        Act::Register { packet, register },
        Some(source),
    )
}

// Takes a Register.
fn act_on_register(
    core: &mut Core,
    turn: &mut Turn,
    meter: &mut Meter,
    packet: Ipv4View<'_>,
    register: RegisterView<'_>,
) -> Result<Outcome, Fault>
    requires { BeginsTurn core.old turn.old (AcceptedValue.Register packet register) }
    ensures { TurnsUnlessFull core.old turn.old.draw (AcceptedValue.Register packet.entry register.entry) result core.new }
{
    match known_source(&core.world, core.cache.mfc(), meter, &packet, &register) {
        Some(source) => act_on_known_source(core, turn, meter, packet, register, source),
        None => plan_and_act(
            core,
            turn,
            meter,
            Accepted::Register { packet, register },
            None,
        ),
    }
}

// Takes an accepted event.
fn act_on_accepted(
    core: &mut Core,
    turn: &mut Turn,
    meter: &mut Meter,
    accepted: Accepted<'_>,
    table: Option<Box<Mrib>>,
) -> Result<Outcome, Fault>
    requires begun { BeginsTurn core.old turn.old accepted }
    requires table { Brings accepted table }
    ensures { TurnsUnlessFull core.old turn.old.draw accepted.entry result core.new }
{
    match accepted {
        Accepted::Register { packet, register } => {
            act_on_register(core, turn, meter, packet, register)
        }
        accepted => plan_and_act(core, turn, meter, accepted, table),
    }
}

// Whether there was room for one more fact and is none after the event, or the other way round: without room each
// packet of a source that has no fact is refused.
fn has_room_changed(was_full: bool, is_full: bool) -> bool
    ensures { result ≡ not (same_bool was_full is_full) }
{
    was_full != is_full
}

// Takes an accepted event in a turn of its own.
#[tactic(auto, unfolding(pim_model::specs::Step::step))]
fn act_in_own_turn(
    core: &mut Core,
    event: &LentEvent<'_>,
    accepted: Accepted<'_>,
    table: Option<Box<Mrib>>,
    meter: &mut Meter,
) -> Result<Outcome, Fault>
    requires { Accepts core.old event.now accepted table }
    ensures { StepsInTurn core.old event.now result core.new meter.new }
{
    let mut turn = Turn::new(core.room.taken(), event.draw());
    let was_full = core.world.passes_limit(1);
    let outcome = act_on_accepted(core, &mut turn, meter, accepted, table)?;
    let is_full = core.world.passes_limit(1);
    let has_changed = has_room_changed(was_full, is_full);
    core.cache.disturb_all_if(has_changed);
    core.replaced.clear_if(has_changed);
    core.room = turn.room;
    Ok(outcome)
}

// Takes an event as what it was judged to be, where no row decides it: in a turn of its own where it is accepted.
fn act_on_judgement(
    core: &mut Core,
    event: &LentEvent<'_>,
    judgement: Result<Accepted<'_>, Stop>,
    table: Option<Box<Mrib>>,
    meter: &mut Meter,
) -> Result<Outcome, Fault>
    requires begun { Begins core.old }
    requires heard { judgement ≡ judged core.old.world event.now.kind }
    requires table { IfOk judgement (λ accepted. Brings accepted table) }
    requires undecided { IsUndecided core.old.world event.now }
    ensures steps { Steps core.old event.now result core.new meter.new }
    ensures sure { IsTrue (needs_no_memory (step core.old.world event.now).answer) → IsOk result }
{
    match judgement {
        Ok(accepted) => act_in_own_turn(core, event, accepted, table, meter),
        Err(stop) => Ok(stopped(core.room.alloc, stop)),
    }
}

// Takes a packet on a link.
fn hear_packet(
    core: &mut Core,
    event: &LentEvent<'_>,
    iface: IfaceId,
    bytes: &[u8],
    meter: &mut Meter,
) -> Result<Outcome, Fault>
    requires begun { Begins core.old }
    requires few { length core.old.world.configured.interfaces ≤ 120 }
    requires frame { event.now.kind ≡ EventValue.Frame iface bytes.now }
    requires unvisited { meter.old ≡ 0 }
    ensures steps { Steps core.old event.now result core.new meter.new }
    ensures sure { IsTrue (needs_no_memory (step core.old.world event.now).answer) → IsOk result }
{
    let rows = core.cache.mfc();
    match hear(&core.world, rows, iface, bytes, meter) {
        Heard::Plain { packet, forward } => {
            take_plain(&mut core.room, &mut core.world, &packet, forward, meter)
        }
        Heard::Other(judgement) => act_on_judgement(core, event, judgement, None, meter),
    }
}

// Takes an event that is no packet on a link.
fn judge_event(core: &mut Core, event: &LentEvent<'_>, meter: &mut Meter) -> Result<Outcome, Fault>
    requires begun { Begins core.old }
    requires other { is_frame event.now.kind ≡ false }
    ensures steps { Steps core.old event.now result core.new meter.new }
    ensures sure { IsTrue (needs_no_memory (step core.old.world event.now).answer) → IsOk result }
{
    let mut table = None;
    let judgement = judge(core.room.alloc, &core.world, event, &mut table, meter)?;
    act_on_judgement(core, event, judgement, table, meter)
}

/// Takes an event. The meter counts the trie nodes that it visits, the cache counts the rows that it touches and lists
/// their sources, and the routes or RP ranges that it replaces are kept. The cache's counts and lists begin empty, and
/// nothing is kept yet; the meter begins at 0 where the event is a frame. The error is want of memory.
#[tactic(auto, unfolding(pim_model::specs::Step::step))]
pub fn take_in(core: &mut Core, event: &LentEvent<'_>, meter: &mut Meter) -> Result<Outcome, Fault>
    requires begun { Begins core.old }
    requires unvisited { is_frame event.now.kind ≡ true → meter.old ≡ 0 }
    ensures steps { Steps core.old event.now result core.new meter.new }
    ensures rest { OnOk result (IsAtRest core.new.world) }
    ensures stays { OnOk result (OffersStay (record { touched = core.new.cache.disturbed; replaced = core.new.replaced })
        core.old.world core.new.world) }
    ensures sure { IsTrue (needs_no_memory (step core.old.world event.now).answer) → IsOk result }
{
    // For the proof: there are at most 120 interfaces.
    core.world.interfaces().proof_few();
    match event.as_frame() {
        Some((iface, bytes)) => hear_packet(core, event, iface, bytes, meter),
        None => judge_event(core, event, meter),
    }
}
