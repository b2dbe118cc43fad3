//! Time that passes: timers expire one after the other, and what follows of each is settled before the next.
ghost use Rattle.law_events.specs.Locality.{IsQuiet};
ghost use Rattle.law_events.specs.Named.{named_by};
ghost use Rattle.law_events.specs.Rest.{IsAtRest};
ghost use Rattle.law_settled.specs.Laws.{IsReady, ends_from};
ghost use Rattle.law_settled.specs.Ready.{IsLawful};
ghost use Rattle.pim_event.specs.Caching.{CacheFollows};
ghost use Rattle.pim_event.specs.Disturbing.{ended_all, ended_instant, joined_all, disturbed_at};
ghost use Rattle.pim_event.specs.Ends.{disturbed_by_end, end_moves_dr, ending_of, has_other_sources, keeps_group, touched_by_end, touched_by_neighbour, touched_by_source};
ghost use Rattle.pim_event.specs.Stepping.{TurnsInTime};
ghost use Rattle.pim_fanout.specs.Disturbed.{joined};
ghost use Rattle.pim_fanout.specs.Laws.{names_of};
ghost use Rattle.pim_fanout.specs.Named.{keys_of};
ghost use Rattle.pim_fanout.specs.Refreshing.{touches, touches_in};
ghost use Rattle.pim_ip.specs.declared.fault.Fault.{Fault};
ghost use Rattle.pim_macros.specs.Sights.{IsSourceSight};
ghost use Rattle.pim_mfc.specs.Laws.{ShowsRows};
ghost use Rattle.pim_model.specs.Cache.{cached};
ghost use Rattle.pim_model.specs.Firing.{fire_all, fire_instant, fire_once, fired};
ghost use Rattle.pim_model.specs.Reach.{own_firing, told_all, told_instant};
ghost use Rattle.pim_model.specs.Step.{advanced};
ghost use Rattle.pim_model.specs.Timers.{next_due};
ghost use Rattle.pim_settling.specs.Settling.{AreNames};
ghost use Rattle.pim_state.specs.Turns.{saying};
ghost use Rattle.pim_state.specs.declared.touched.Touched.{Touched as TouchedValue};
ghost use Rattle.pim_tables.specs.Ends.{due_of};
ghost use Rattle.pim_trie.specs.Meter.{raised};
ghost use Rattle.std.specs.Prelude.{◌≡◌, ◌≤◌, ◌^◌, ◌++◌, [], IfOk, IfSome, IsOkUnless, OnOk, if◌then◌else◌, option_map, true};

use crate::parts::Core;
use pim_fanout::{Cache, Gathered};
use pim_hello::{end_keeps_dr, keys_of_end};
use pim_macros::SourceSight;
use pim_messages::Outbox;
use pim_rerouted::few_or_all;
use pim_settling::settle::settle;
use pim_state::{Meter, Touched, Turn, World};
use pim_types::{
    Emission, Fault, IfaceId, Key, Outcome, Series, SourceGroup, Timer, TimerKind, Verdict,
};
use std::alloc::AllocError;

// The timer that expires first, with its timestamp in ms, if it is due by the given timestamp.
fn next_due(world: &World, moment: u64) -> Option<(u64, Timer)>
    ensures { result ≡ option_map due_of (next_due moment world.now) }
{
    let due = world.next()?;
    if due.0 <= moment { Some(due) } else { None }
}

// Whether the record of the group on the interface has a source other than this one.
#[tactic(auto, unfolding(crate::specs::Ends::has_other_sources))]
fn has_other_sources(world: &World, iface: IfaceId, name: SourceGroup) -> bool
    ensures { result ≡ has_other_sources world.now iface.number name.group.bits name.source.bits }
{
    for (key, _) in world.membership().source_records_at(iface, name.group) {
        if key.address() != name.source {
            return true;
        }
    }
    false
}

// Whether the row of the group itself is unchanged where the timer of this source expires.
#[tactic(auto, unfolding(crate::specs::Ends::keeps_group))]
fn keeps_group(world: &World, iface: IfaceId, name: SourceGroup) -> bool
    ensures { result ≡ keeps_group world.now iface.number name.group.bits name.source.bits }
{
    world.group_end(iface, name.group).is_some() || has_other_sources(world, iface, name)
}

// The key that the expiry of a source's timer touches: that of the source, or of its group where no other source is
// left.
#[tactic(auto, unfolding(crate::specs::Ends::touched_by_source))]
fn touched_by_source(world: &World, key: Key) -> Key
    ensures { result ≡ touched_by_source world.now key }
{
    let name = key.name();
    if keeps_group(world, key.iface, name) {
        name.key()
    } else {
        Key::group(key.group)
    }
}

// What the expiry of the neighbour with this key touches: what depends on the neighbour, and what asks whether the router
// is the DR of its interface, where that changes.
fn touched_by_neighbour(
    world: &World,
    turn: &Turn,
    meter: &mut Meter,
    key: Key,
) -> Result<Touched, AllocError>
    ensures { IfOk result (λ touched. touched ≡ touched_by_neighbour world.now key) }
{
    let keys = keys_of_end(world, turn, meter, key)?;
    Ok(few_or_all(keys))
}

// Whether the router becomes the DR of an interface by the expiry of the timer, or is no more.
#[tactic(auto, unfolding(crate::specs::Ends::end_moves_dr))]
fn end_moves_dr(world: &World, timer: Timer) -> bool
    ensures { result ≡ end_moves_dr world.now timer.kind timer.key }
{
    match timer.kind {
        TimerKind::Neighbour => !end_keeps_dr(world, timer.key),
        _ => false,
    }
}

// What the expiry of a timer disturbs: all sources where the router becomes the DR, or is no more; else what it touches.
fn disturbed_where(moves_dr: bool, touched: Touched) -> Touched
    ensures { result ≡ (if moves_dr then TouchedValue.All else touched) }
{
    if moves_dr { Touched::All } else { touched }
}

// The keys that the expiry of a timer touches.
fn touched_by_end(
    world: &World,
    turn: &Turn,
    meter: &mut Meter,
    timer: Timer,
) -> Result<Touched, AllocError>
    ensures { IfOk result (λ touched. touched ≡ touched_by_end world.now timer.kind timer.key) }
{
    let key = match timer.kind {
        TimerKind::Neighbour => return touched_by_neighbour(world, turn, meter, timer.key),
        TimerKind::PrunePending
        | TimerKind::DownstreamExpiry
        | TimerKind::Assert
        | TimerKind::Keepalive
        | TimerKind::Register => timer.key,
        TimerKind::GroupRecord => Key::group(timer.key.group),
        TimerKind::SourceRecord => touched_by_source(world, timer.key),
        TimerKind::Hello
        | TimerKind::Override
        | TimerKind::Join
        | TimerKind::OtherQuerier
        | TimerKind::GroupRepeat
        | TimerKind::SourceRepeat
        | TimerKind::GeneralQuery => return Ok(Touched::Keys(Series::new(turn.alloc))),
    };
    let mut keys = Vec::new(turn.alloc);
    keys.push(key)?;
    Ok(Touched::Keys(Series::from_vec(keys)))
}

// The change that the expiry of a timer makes.
fn fired(
    world: &mut World,
    turn: &mut Turn,
    meter: &mut Meter,
    timer: Timer,
) -> Result<(), AllocError>
    ensures state { OnOk result (world.new ≡ (fired world.old timer.kind timer.key).0) }
    ensures messages { OnOk result (turn.new ≡ saying turn.old (fired world.old timer.kind timer.key).1) }
{
    let Timer { kind, key } = timer;
    match kind {
        TimerKind::Neighbour | TimerKind::Hello => pim_hello::fired(world, turn, kind, key),
        TimerKind::PrunePending | TimerKind::DownstreamExpiry => {
            pim_downstream::fired(world, turn, meter, kind, key)
        }
        TimerKind::Assert => pim_asserts::fired(world, turn, meter, key),
        TimerKind::Keepalive => pim_register::keepalive_due(world, meter, key),
        TimerKind::Register => pim_register::fired(world, turn, meter, key),
        TimerKind::Override => pim_rpt::fired(world, turn, meter, key),
        TimerKind::Join => pim_upstream::fired(world, turn, meter, key),
        TimerKind::GroupRecord
        | TimerKind::SourceRecord
        | TimerKind::OtherQuerier
        | TimerKind::GroupRepeat
        | TimerKind::SourceRepeat
        | TimerKind::GeneralQuery => pim_querier::fired(world, turn, meter, kind, key),
    }
}

// Lets a timer expire, and does what follows. The result is the sources whose rows of the forwarding cache are to be
// evaluated again; the last sight is that of the source that alone was opened, where it is so.
fn fire_world(
    world: &mut World,
    turn: &mut Turn,
    meter: &mut Meter,
    due: (u64, Timer),
    touched: &Touched,
    emissions: &mut Vec<Emission>,
    last: &mut Option<SourceSight>,
) -> Result<Series<SourceGroup>, Fault>
    requires touched { touched.now ≡ touched_by_end world.old due.1.kind due.1.key }
    requires lawful { IsLawful world.old }
    requires quiet { IsQuiet world.old }
    requires begun { turn.old.messages ≡ [] }
    requires within { due.0 ≤ 2 ^ 62 }
    ensures state { OnOk result (world.new ≡ (fire_once turn.old.draw world.old (ending_of due)).0) }
    ensures sent { OnOk result (emissions.new.items
        ≡ emissions.old.items ++ (fire_once turn.old.draw world.old (ending_of due)).1) }
    ensures names { IfOk result (λ names. AreNames world.old (own_firing world.old (ending_of due))
        (touched_by_end world.old due.1.kind due.1.key) (keys_of names)) }
    ensures last { OnOk result (IfSome last.new (IsSourceSight world.new)) }
    ensures draw { OnOk result (turn.new.draw ≡ turn.old.draw) }
    ensures fault { IsOkUnless result Fault.Memory }
{
    // For the proof: sources and registers are under keys of sources.
    world.proof_keyed();
    let gathered = Gathered::of(world, turn.alloc, touched, None, meter)?;
    world.set_present(due.0);
    fired(world, turn, meter, due.1)?;
    // For the proof: asserts, sources and registers are under keys of their kind.
    world.proof_keyed();
    let names = settle(world, turn, meter, &gathered, emissions, last)?;
    world.keep_next();
    Ok(names)
}

// Lets a timer expire, and then evaluates the rows of the named sources again. Messages of an earlier turn are dropped
// first.
fn fire_once(
    core: &mut Core,
    turn: &mut Turn,
    meter: &mut Meter,
    due: (u64, Timer),
    emissions: &mut Vec<Emission>,
) -> Result<(), Fault>
    requires lawful { IsLawful core.old.world }
    requires quiet { IsQuiet core.old.world }
    requires shown { ShowsRows core.old.cache.mfc.rows (cached core.old.world) }
    requires within { due.0 ≤ 2 ^ 62 }
    ensures state { OnOk result (core.new.world ≡ (fire_once turn.old.draw core.old.world (ending_of due)).0) }
    ensures sent { OnOk result (emissions.new.items
        ≡ emissions.old.items ++ (fire_once turn.old.draw core.old.world (ending_of due)).1) }
    ensures cache { OnOk result (CacheFollows core.old.world core.new.world
        (named_by core.old.world (own_firing core.old.world (ending_of due))) core.old.cache core.new.cache) }
    ensures disturbed { OnOk result (core.new.cache.disturbed
        ≡ joined core.old.cache.disturbed (disturbed_by_end core.old.world due.1.kind due.1.key)) }
    ensures touched { OnOk result (touches core.new.cache ≡ raised (touches core.old.cache) (touches_in core.new.world
        (names_of core.old.world (own_firing core.old.world (ending_of due)) (touched_by_end core.old.world due.1.kind due.1.key)))) }
    ensures draw { OnOk result (turn.new.draw ≡ turn.old.draw) }
    ensures kept { OnOk result (core.new.replaced ≡ core.old.replaced) }
    ensures fault { IsOkUnless result Fault.Memory }
{
    // For the proof: there are at most 120 interfaces.
    core.world.interfaces().proof_few();
    turn.out = Outbox::new(turn.alloc);
    let touched = touched_by_end(&core.world, turn, meter, due.1)?;
    let moves_dr = end_moves_dr(&core.world, due.1);
    let mut last = None;
    let names = fire_world(
        &mut core.world,
        turn,
        meter,
        due,
        &touched,
        emissions,
        &mut last,
    )?;
    core.cache.refresh(
        &core.world,
        meter,
        names,
        disturbed_where(moves_dr, touched),
        &last,
    )?;
    Ok(())
}

// Lets all timers expire that are due at the timestamp of one that is due.
fn fire_instant(
    core: &mut Core,
    turn: &mut Turn,
    meter: &mut Meter,
    first: (u64, Timer),
    emissions: &mut Vec<Emission>,
) -> Result<(), Fault>
    requires lawful { IsLawful core.old.world }
    requires quiet { IsQuiet core.old.world }
    requires shown { ShowsRows core.old.cache.mfc.rows (cached core.old.world) }
    requires from { ends_from first.0 core.old.world ≡ true }
    requires within { first.0 ≤ 2 ^ 62 }
    ensures state { OnOk result (core.new.world ≡ (fire_instant turn.old.draw core.old.world (ending_of first)).0) }
    ensures sent { OnOk result (emissions.new.items
        ≡ emissions.old.items ++ (fire_instant turn.old.draw core.old.world (ending_of first)).1) }
    ensures cache { OnOk result (CacheFollows core.old.world core.new.world
        (told_instant named_by turn.old.draw core.old.world (ending_of first)).1 core.old.cache core.new.cache) }
    ensures disturbed { OnOk result (core.new.cache.disturbed ≡ joined core.old.cache.disturbed
        (joined_all (ended_instant disturbed_at turn.old.draw core.old.world (ending_of first)).1)) }
    ensures draw { OnOk result (turn.new.draw ≡ turn.old.draw) }
    ensures kept { OnOk result (core.new.replaced ≡ core.old.replaced) }
    ensures fault { IsOkUnless result Fault.Memory }
{
    'firings: while let Some(due) = next_due(&core.world, first.0) {
        fire_once(core, turn, meter, due, emissions)?;
    }
    Ok(())
}

// Lets all timers expire that are due by a timestamp, one instant after another.
fn fire_all(
    core: &mut Core,
    turn: &mut Turn,
    meter: &mut Meter,
    moment: u64,
    emissions: &mut Vec<Emission>,
) -> Result<(), Fault>
    requires lawful { IsLawful core.old.world }
    requires quiet { IsQuiet core.old.world }
    requires shown { ShowsRows core.old.cache.mfc.rows (cached core.old.world) }
    requires ready { IsReady core.old.world.present core.old.world }
    requires within { moment ≤ 2 ^ 62 }
    ensures state { OnOk result (core.new.world ≡ (fire_all turn.old.draw moment core.old.world).0) }
    ensures sent { OnOk result (emissions.new.items
        ≡ emissions.old.items ++ (fire_all turn.old.draw moment core.old.world).1) }
    ensures cache { OnOk result (CacheFollows core.old.world core.new.world
        (told_all named_by turn.old.draw moment core.old.world).1 core.old.cache core.new.cache) }
    ensures disturbed { OnOk result (core.new.cache.disturbed ≡ joined core.old.cache.disturbed
        (joined_all (ended_all disturbed_at turn.old.draw moment core.old.world).1)) }
    ensures kept { OnOk result (core.new.replaced ≡ core.old.replaced) }
    ensures fault { IsOkUnless result Fault.Memory }
{
    'instants: while let Some(first) = next_due(&core.world, moment) {
        fire_instant(core, turn, meter, first, emissions)?;
    }
    Ok(())
}

/// Lets time pass until a timestamp (ms): all timers that are due by then expire in their order.
#[tactic(auto, unfolding(pim_model::specs::Step::advanced, law_events::specs::Named::named_of))]
pub(crate) fn advance(
    core: &mut Core,
    turn: &mut Turn,
    meter: &mut Meter,
    moment: u64,
) -> Result<Outcome, Fault>
    requires rest { IsAtRest core.old.world }
    requires shown { ShowsRows core.old.cache.mfc.rows (cached core.old.world) }
    requires within { moment ≤ 2 ^ 62 }
    ensures { TurnsInTime core.old turn.old.draw moment result core.new }
{
    let mut emissions = Vec::new(turn.alloc);
    core.world.keep_next();
    fire_all(core, turn, meter, moment, &mut emissions)?;
    // Several of the timers may have named the same source.
    core.cache.list_once();
    // For the proof: there are at most 120 interfaces.
    core.world.interfaces().proof_few();
    core.world.set_present(moment);
    Ok(Outcome {
        answer: Ok(Verdict::Done),
        emissions: Series::from_vec(emissions),
        copies: 0,
    })
}
