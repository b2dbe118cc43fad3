//! The plan of an event, made before its change: whether there is room for the facts that it names, what its change
//! touches, and what it is to do. Each kind of event says all three in one place.
ghost use Rattle.law_events.specs.Rest.{IsAtRest};
ghost use Rattle.law_events.specs.Touches.{packet_keys};
ghost use Rattle.pim_macros.specs.Sights.{IsSourceSight};
ghost use Rattle.pim_model.specs.State.{iface_count};
ghost use Rattle.pim_model.specs.declared.accepted.Accepted.{Accepted as AcceptedValue};
ghost use Rattle.pim_plan.specs.Naming.{Brings, IsConfigured};
ghost use Rattle.pim_plan.specs.Planning.{IsPlanned};
ghost use Rattle.pim_plan.specs.Repeats.{keys_of_packet};
ghost use Rattle.pim_plan.specs.Tunnels.{is_stoppable, keys_of_stop, stoppable_keys};
ghost use Rattle.pim_plan.specs.declared.act.Act.{Act as ActValue};
ghost use Rattle.pim_plan.specs.declared.act.Control.{Control as ControlValue};
ghost use Rattle.pim_plan.specs.declared.plan.Planning.{Planning as PlanningValue};
ghost use Rattle.pim_state.specs.declared.touched.Touched.{Touched as TouchedValue};
ghost use Rattle.pim_types.specs.Keys.{is_star};
ghost use Rattle.pim_wire.specs.RegisterParts.{registered_group, registered_source};
ghost use Rattle.std.specs.Prelude.{◌≡◌, ◌<◌, ◌∷◌, [], IfOk, filter, not};

use crate::act::{Act, Control};
use crate::again::{
    is_assert_known, is_direct, is_kept_alive, moved_asserts, moves_at_most_the_keepalive_end,
};
use crate::joins::repeats;
use crate::reports::all_renew;
use igmp_wire::{QueryView, ReportView};
use pim_downstream::{Effect, Named};
use pim_hello::keys_of_hello;
use pim_ip::Ipv4View;
use pim_macros::{SourceSight, StarSight};
use pim_model::Accepted;
use pim_mrib::Mrib;
use pim_register::source_is_full;
use pim_rerouted::{
    are_many, few_or_all, is_in_use, may_lead_over, touched_by_routes, touched_by_rps,
};
use pim_state::{Meter, Touched, Turn, World};
use pim_types::fact::RegisterState;
use pim_types::{Addr, IfaceId, Key, Route, RpTable, Series, SourceGroup};
use pim_wire::{Assert, Hello, JoinPruneView, RegisterStop, RegisterView};
use std::alloc::{AllocError, Global};

/// The plan of an event that there is room for: what it touches, and what it is to do.
#[derive(Drop)]
pub struct Plan<'a> {
    /// The keys that the change of the event touches, or all.
    pub touched: Touched,
    /// What the event is to do.
    pub act: Act<'a>,
}

/// What is planned of an event.
#[derive(Drop)]
pub enum Planning<'a> {
    /// Time passes until this timestamp (ms). The expiry of each timer is planned by itself.
    Time {
        moment: u64,
    },
    /// The event names facts for which there is no room.
    Full,
    /// The event is a Join/Prune with these keys and this holdtime, in seconds, that repeats what is known: it changes no
    /// more than when the rows expire that it joins.
    Again {
        iface: IfaceId,
        holdtime: u16,
        named: Named,
    },
    /// The event is a Hello of the neighbour with the address `from`, which it changes no more than when the neighbour
    /// expires.
    Refreshed {
        iface: IfaceId,
        from: Addr,
        hello: Hello,
    },
    /// The event is a report that changes no more than when the timers of its groups expire.
    Renewed {
        iface: IfaceId,
        report: ReportView<'a>,
    },
    /// The event has a change of its own.
    Change(Plan<'a>),
}

impl<'a> Planning<'a> {
    // The plan of an event that makes no facts and may touch all.
    fn of_all(act: Act<'a>) -> Planning<'a>
        ensures { result ≡ PlanningValue.Change (record { touched = TouchedValue.All; act = act.entry }) }
    {
        Planning::Change(Plan {
            touched: Touched::All,
            act,
        })
    }

    // The plan of an event that touches nothing.
    fn of_nothing(alloc: Global, act: Act<'a>) -> Planning<'a>
        ensures { result ≡ PlanningValue.Change (record { touched = TouchedValue.Keys []; act = act.entry }) }
    {
        Planning::of_keys(Series::new(alloc), act)
    }

    // The plan of an event that touches the given keys.
    fn of_keys(keys: Series<Key>, act: Act<'a>) -> Planning<'a>
        ensures { result ≡ PlanningValue.Change (record { touched = TouchedValue.Keys keys; act = act.entry }) }
    {
        Planning::Change(Plan {
            touched: Touched::Keys(keys),
            act,
        })
    }
}

// The keys, of those given, that name a source.
fn of_sources(alloc: Global, keys: &[Key]) -> Result<Series<Key>, AllocError>
    ensures { IfOk result (λ found. found ≡ filter (λ k. not (is_star k)) keys.now) }
{
    let mut found = Vec::new(alloc);
    for key in keys {
        if key.source.is_some() {
            found.push(*key)?;
        }
    }
    Ok(Series::from_vec(found))
}

// A list of one key.
fn only(alloc: Global, key: Key) -> Result<Series<Key>, AllocError>
    ensures { IfOk result (λ keys. keys ≡ key ∷ []) }
{
    let mut keys = Vec::new(alloc);
    keys.push(key)?;
    Ok(Series::from_vec(keys))
}

// Plans a Hello. One that changes only when its neighbour expires touches nothing, and needs no room. Any other touches
// what depends on the neighbour, and what asks whether the router is the DR there, where that changes.
fn plan_hello<'a>(
    world: &World,
    turn: &Turn,
    meter: &mut Meter,
    iface: IfaceId,
    from: Addr,
    hello: Hello,
) -> Result<Planning<'a>, AllocError>
    requires { IsAtRest world.now }
    ensures { IfOk result (λ planning. IsPlanned world.now (AcceptedValue.Hello iface from hello) planning) }
{
    if world.neighbours().is_refreshed(iface, from, &hello) {
        return Ok(Planning::Refreshed { iface, from, hello });
    }
    if pim_hello::is_full(world, iface, from, &hello) {
        return Ok(Planning::Full);
    }
    // For the proof: sources and registers are under keys of sources.
    world.proof_keyed();
    let touched = few_or_all(keys_of_hello(world, turn, meter, iface, from, &hello)?);
    let act = Act::Control(Control::Hello { iface, from, hello });
    Ok(Planning::Change(Plan { touched, act }))
}

// Plans a Join/Prune to the router: it touches the keys of which it changes more than when a timer expires. One that
// repeats what is known touches none, and makes no fact.
fn plan_join_prune<'a>(
    world: &World,
    turn: &Turn,
    meter: &mut Meter,
    iface: IfaceId,
    message: JoinPruneView<'a>,
) -> Result<Planning<'a>, AllocError>
    requires { IsAtRest world.now }
    ensures { IfOk result (λ planning. IsPlanned world.now (AcceptedValue.JoinPruneToMe iface message.entry) planning) }
{
    let named = Named::of(world, turn, meter, iface, &message)?;
    let holdtime = message.holdtime();
    if repeats(world, turn, holdtime, &named)? {
        return Ok(Planning::Again {
            iface,
            holdtime,
            named,
        });
    }
    if pim_downstream::is_full(world, turn, holdtime, &named)? {
        return Ok(Planning::Full);
    }
    let Effect { changes, moved } = Effect::of(world, turn, iface, holdtime, &named)?;
    let control = Control::JoinPruneToMe {
        iface,
        message,
        named,
        changes,
    };
    Ok(Planning::of_keys(moved, Act::Control(control)))
}

// Plans a Join/Prune to another router: it makes no more than override timers, which may be the first facts of the
// sources that it prunes.
fn plan_seen<'a>(
    world: &World,
    turn: &Turn,
    meter: &mut Meter,
    iface: IfaceId,
    message: JoinPruneView<'a>,
) -> Result<Planning<'a>, AllocError>
    ensures { IfOk result (λ planning. IsPlanned world.now (AcceptedValue.JoinPruneSeen iface message.entry) planning) }
{
    let named = Named::of(world, turn, meter, iface, &message)?;
    let keys = of_sources(turn.alloc, &named.pruned)?;
    let control = Control::JoinPruneSeen {
        iface,
        message,
        named,
    };
    Ok(Planning::of_keys(keys, Act::Control(control)))
}

// What an Assert does.
fn assert_act<'a>(iface: IfaceId, from: Addr, assert: Assert) -> Act<'a>
    ensures { result ≡ ActValue.Control (ControlValue.Assert iface from assert) }
{
    Act::Control(Control::Assert {
        iface,
        from,
        assert,
    })
}

// Plans an Assert: it touches the keys of the asserts that it names and may move, or none where it repeats the metric of
// the known winner.
fn plan_assert<'a>(
    world: &World,
    turn: &Turn,
    iface: IfaceId,
    from: Addr,
    assert: Assert,
) -> Result<Planning<'a>, AllocError>
    requires { IsAtRest world.now }
    ensures { IfOk result (λ planning. IsPlanned world.now (AcceptedValue.Assert iface from assert) planning) }
{
    if pim_asserts::is_full(world, iface, &assert) {
        return Ok(Planning::Full);
    }
    if is_assert_known(world, iface, from, &assert) {
        return Ok(Planning::of_nothing(turn.alloc, assert_act(iface, from, assert)));
    }
    let keys = moved_asserts(world, turn.alloc, iface, from, &assert)?;
    Ok(Planning::of_keys(keys, assert_act(iface, from, assert)))
}

// Plans a query: it touches nothing and makes no facts, since the timers that it lowers run on.
fn plan_query<'a>(
    world: &World,
    turn: &Turn,
    iface: IfaceId,
    from: Addr,
    query: QueryView<'a>,
) -> Planning<'a>
    ensures { IsPlanned world.now (AcceptedValue.Query iface from query.entry) result }
{
    Planning::of_nothing(
        turn.alloc,
        Act::Control(Control::Query { iface, from, query }),
    )
}

// Plans a report. One that changes only when the timers of its groups expire touches nothing. One whose groups keep their
// modes touches the sources that it moves. Any other touches the groups and the sources that it names.
fn plan_report<'a>(
    world: &World,
    turn: &Turn,
    iface: IfaceId,
    report: ReportView<'a>,
) -> Result<Planning<'a>, AllocError>
    requires { IsAtRest world.now }
    ensures { IfOk result (λ planning. IsPlanned world.now (AcceptedValue.Report iface report.entry) planning) }
{
    if pim_querier::is_full(world, turn.alloc, iface, &report)? {
        return Ok(Planning::Full);
    }
    if all_renew(world, iface, &report) {
        return Ok(Planning::Renewed { iface, report });
    }
    if pim_querier::all_keep_modes(world, iface, &report) {
        let moved = pim_querier::moved_sources(world, turn.alloc, iface, &report)?;
        return Ok(Planning::of_keys(moved, Act::Control(Control::Report { iface, report })));
    }
    let keys = pim_querier::named_keys(turn.alloc, iface, &report)?;
    Ok(Planning::of_keys(keys, Act::Control(Control::Report { iface, report })))
}

// The source that a sight is of.
fn name_of(sight: &SourceSight) -> SourceGroup
    ensures group { result.group ≡ sight.now.star.group }
    ensures source { result.source ≡ sight.now.source }
{
    SourceGroup {
        source: sight.source,
        group: sight.star.group,
    }
}

// The keys that a packet of data may touch: its source, and its group where it may make an assert of (*,G).
#[tactic(auto, unfolding(law_events::specs::Touches::packet_keys))]
fn packet_keys(
    world: &World,
    alloc: Global,
    iface: IfaceId,
    sight: &SourceSight,
) -> Result<Series<Key>, AllocError>
    requires { IsSourceSight world.now sight.now }
    ensures { IfOk result (λ keys. keys
        ≡ packet_keys world.now sight.now.star.group.bits sight.now.source.bits iface.number) }
{
    let mut keys = Vec::new(alloc);
    keys.push(name_of(sight).key())?;
    if !(sight.star.is_rpf_interface(iface) || sight.spt) {
        keys.push(Key::group(sight.star.group))?;
    }
    Ok(Series::from_vec(keys))
}

// The keys that a packet of data touches: none where it changes at most when the keepalive timer of its source expires,
// and its source alone where it comes by the tree of that source.
fn keys_of_packet(
    world: &World,
    alloc: Global,
    iface: IfaceId,
    sight: &SourceSight,
) -> Result<Series<Key>, AllocError>
    requires sight { IsSourceSight world.now sight.now }
    requires below { iface.number < 120 }
    ensures { IfOk result (λ keys. keys
        ≡ keys_of_packet world.now sight.now.star.group.bits sight.now.source.bits iface.number) }
{
    if moves_at_most_the_keepalive_end(world, sight, iface) {
        return Ok(Series::new(alloc));
    }
    if is_direct(world, sight, iface) {
        return only(alloc, name_of(sight).key());
    }
    packet_keys(world, alloc, iface, sight)
}

// Plans a packet of data, by the sight of its source.
fn plan_data<'a>(
    world: &World,
    turn: &Turn,
    meter: &mut Meter,
    iface: IfaceId,
    packet: Ipv4View<'a>,
) -> Result<Planning<'a>, AllocError>
    requires rest { IsAtRest world.now }
    requires configured { iface.number < iface_count world.now }
    ensures { IfOk result (λ planning. IsPlanned world.now (AcceptedValue.Data iface packet.entry) planning) }
{
    let (group, source) = (packet.destination(), packet.source());
    if source_is_full(world, SourceGroup { source, group }) {
        return Ok(Planning::Full);
    }
    // For the proof: the interface is below 120.
    world.interfaces().proof_few();
    let star = StarSight::of(world, group, meter);
    let sight = SourceSight::of(world, star, source, meter);
    let keys = keys_of_packet(world, turn.alloc, iface, &sight)?;
    let act = Act::Data {
        iface,
        packet,
        sight: Box::new(turn.alloc, sight)?,
    };
    Ok(Planning::of_keys(keys, act))
}

// The source that a Register names.
fn registered_name(register: &RegisterView<'_>) -> SourceGroup
    ensures group { result.group.bits ≡ registered_group register.now }
    ensures source { result.source.bits ≡ registered_source register.now }
{
    SourceGroup {
        source: register.source(),
        group: register.group(),
    }
}

// Plans a Register: it touches the source of its packet, or nothing where the keepalive timer of that source runs.
fn plan_register<'a>(
    world: &World,
    turn: &Turn,
    meter: &mut Meter,
    packet: Ipv4View<'a>,
    register: RegisterView<'a>,
) -> Result<Planning<'a>, AllocError>
    requires { IsAtRest world.now }
    ensures { IfOk result (λ planning. IsPlanned world.now (AcceptedValue.Register packet.entry register.entry) planning) }
{
    if pim_register::is_full(world, meter, &packet, &register) {
        return Ok(Planning::Full);
    }
    let name = registered_name(&register);
    if is_kept_alive(world, name) {
        return Ok(Planning::of_nothing(turn.alloc, Act::Register { packet, register }));
    }
    let keys = only(turn.alloc, name.key())?;
    Ok(Planning::of_keys(keys, Act::Register { packet, register }))
}

// Whether a Register-Stop changes a register in this state: not one in Prune.
fn is_stoppable(state: RegisterState) -> bool
    ensures { result ≡ is_stoppable state }
{
    !matches!(state, RegisterState::Prune { .. })
}

// The keys of those of the group's registers that a Register-Stop changes.
#[tactic(auto, unfolding(pim_model::specs::Tables::keys_in, crate::specs::Tunnels::stoppable_keys))]
fn stoppable_keys(world: &World, alloc: Global, group: Addr) -> Result<Vec<Key>, AllocError>
    ensures { IfOk result (λ keys. keys.items ≡ stoppable_keys world.now group.bits) }
{
    let mut keys = Vec::new(alloc);
    for (key, row) in world.store().registers_of(group) {
        if is_stoppable(row.state) {
            keys.push(*key)?;
        }
    }
    Ok(keys)
}

// The keys that a Register-Stop touches.
fn keys_of_stop(
    world: &World,
    alloc: Global,
    stopped: SourceGroup,
) -> Result<Series<Key>, AllocError>
    ensures { IfOk result (λ keys. keys ≡ keys_of_stop world.now stopped.group.bits stopped.source.bits) }
{
    if stopped.source == Addr::NONE {
        let keys = stoppable_keys(world, alloc, stopped.group)?;
        if !are_many(&keys) {
            return Ok(Series::from_vec(keys));
        }
    }
    only(alloc, stopped.key())
}

// Plans a Register-Stop: it touches the source that it names, or the registers of its group that it changes where it
// names 0.0.0.0, and makes no facts.
fn plan_register_stop<'a>(
    world: &World,
    turn: &Turn,
    from: Addr,
    stop: RegisterStop,
) -> Result<Planning<'a>, AllocError>
    ensures { IfOk result (λ planning. IsPlanned world.now (AcceptedValue.RegisterStop from stop) planning) }
{
    let stopped = SourceGroup {
        source: stop.source,
        group: stop.group,
    };
    let keys = keys_of_stop(world, turn.alloc, stopped)?;
    Ok(Planning::of_keys(keys, Act::Control(Control::RegisterStop { from, stop })))
}

// Plans that an interface goes up: it touches nothing where nothing with facts may be routed over it.
fn plan_up<'a>(world: &World, turn: &Turn, meter: &mut Meter, iface: IfaceId) -> Planning<'a>
    ensures { IsPlanned world.now (AcceptedValue.Up iface) result }
{
    let act = Act::Control(Control::Up { iface });
    if may_lead_over(world, meter, iface) {
        return Planning::of_all(act);
    }
    Planning::of_nothing(turn.alloc, act)
}

// Plans that an interface goes down: it touches nothing where it isn't in use.
fn plan_down<'a>(world: &World, turn: &Turn, meter: &mut Meter, iface: IfaceId) -> Planning<'a>
    ensures { IsPlanned world.now (AcceptedValue.Down iface) result }
{
    let act = Act::Control(Control::Down { iface });
    if is_in_use(world, meter, iface) {
        return Planning::of_all(act);
    }
    Planning::of_nothing(turn.alloc, act)
}

// Plans new routes: they touch what they move, and make no facts. If they equal the present routes, nothing is looked
// up.
fn plan_routes<'a>(
    world: &World,
    turn: &Turn,
    meter: &mut Meter,
    routes: &[Route],
    table: Box<Mrib>,
) -> Result<Planning<'a>, AllocError>
    requires { table.value.routes ≡ routes.now }
    ensures plan { IfOk result (λ planning. IsPlanned world.now (AcceptedValue.Routes routes.now) planning) }
    ensures same { world.now.routes ≡ routes.now → meter.new ≡ meter.old }
{
    if world.has_routes(routes) {
        let act = Act::Control(Control::Routes { table });
        return Ok(Planning::of_nothing(turn.alloc, act));
    }
    let touched = touched_by_routes(world, turn.alloc, meter, &table)?;
    let act = Act::Control(Control::Routes { table });
    Ok(Planning::Change(Plan { touched, act }))
}

// Plans new RP ranges, or new candidates: they touch what they move, and make no facts. If they equal the present ones,
// nothing is looked up.
fn plan_rps<'a>(
    world: &World,
    turn: &Turn,
    meter: &mut Meter,
    ranges: &RpTable,
    table: Box<Mrib>,
) -> Result<Planning<'a>, AllocError>
    requires { table.value.ranges ≡ ranges.now }
    ensures plan { IfOk result (λ planning. IsPlanned world.now (AcceptedValue.Rps ranges.now) planning) }
    ensures same { world.now.ranges ≡ ranges.now → meter.new ≡ meter.old }
{
    if world.has_ranges(ranges) {
        let act = Act::Control(Control::Ranges { table });
        return Ok(Planning::of_nothing(turn.alloc, act));
    }
    let touched = touched_by_rps(world, turn.alloc, meter, &table)?;
    let act = Act::Control(Control::Ranges { table });
    Ok(Planning::Change(Plan { touched, act }))
}

/// The plan of an event whose bytes and interface passed their tests, with the table of the routes or RP ranges that it
/// brings. For the plan the world is only read; the meter rises by the trie nodes that are looked up.
///
/// # Errors
///
/// Memory ran out.
pub fn planned<'a>(
    world: &World,
    turn: &Turn,
    meter: &mut Meter,
    accepted: Accepted<'a>,
    table: Option<Box<Mrib>>,
) -> Result<Planning<'a>, AllocError>
    requires rest { IsAtRest world.now }
    requires configured { IsConfigured world.now accepted }
    requires table { Brings accepted table }
    ensures { IfOk result (λ planning. IsPlanned world.now accepted.entry planning) }
{
    match accepted {
        Accepted::Advance { moment } => Ok(Planning::Time { moment }),
        Accepted::Up { iface } => Ok(plan_up(world, turn, meter, iface)),
        Accepted::Down { iface } => Ok(plan_down(world, turn, meter, iface)),
        Accepted::Routes { routes } => plan_routes(
            world,
            turn,
            meter,
            routes.as_slice(),
            table.unwrap(),
        ),
        Accepted::Rps { ranges } => plan_rps(world, turn, meter, &ranges, table.unwrap()),
        Accepted::Hello { iface, from, hello } => plan_hello(
            world, turn, meter, iface, from, hello,
        ),
        Accepted::JoinPruneToMe { iface, message } => plan_join_prune(
            world, turn, meter, iface, message,
        ),
        Accepted::JoinPruneSeen { iface, message } => plan_seen(world, turn, meter, iface, message),
        Accepted::Assert {
            iface,
            from,
            assert,
        } => plan_assert(world, turn, iface, from, assert),
        Accepted::Query { iface, from, query } => {
            Ok(plan_query(world, turn, iface, from, query))
        }
        Accepted::Report { iface, report } => plan_report(world, turn, iface, report),
        Accepted::Data { iface, packet } => plan_data(world, turn, meter, iface, packet),
        Accepted::Register { packet, register } => plan_register(
            world, turn, meter, packet, register,
        ),
        Accepted::RegisterStop { from, stop } => plan_register_stop(world, turn, from, stop),
    }
}
