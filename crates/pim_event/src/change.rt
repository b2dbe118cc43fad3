//! The change that an event makes by itself, before anything follows of it.
ghost use Rattle.std.specs.Prelude.{◌≡◌, ◌<◌, IfOk, IfSome, OnOk};
ghost use Rattle.pim_state.specs.Turns.{saying};
ghost use Rattle.pim_wire.specs.RegisterParts.{is_null, registered_group, registered_source};
ghost use Rattle.pim_model.specs.Forwarding.{forwarded, register_received};
ghost use Rattle.pim_model.specs.State.{iface_count};
ghost use Rattle.pim_model.specs.Step.{change, decapsulated, iface_up, packet_forwarded, rps_replaced};
ghost use Rattle.pim_plan.specs.Acting.{HasHeard, HasRead, IsSightOf, control_event, act_event};
ghost use Rattle.pim_plan.specs.Naming.{IsConfigured};
ghost use Rattle.pim_event.specs.AtRp.{IsKnown, IsKnownIn};
ghost use Rattle.pim_event.specs.Replacing.{RangesReplaced, RoutesReplaced, replaced_after};
ghost use Rattle.pim_event.specs.Sending.{Sends};

use crate::rendezvous::{SourceAtRp, register_seen};
use crate::replaced::Replaced;
use pim_data::{Leaving, arrived, leave};
use pim_downstream::take_changes;
use pim_hello::triggered_end;
use pim_ip::Ipv4View;
use pim_macros::SourceSight;
use pim_mrib::Mrib;
use pim_plan::{Act, Control};
use pim_state::{Meter, Turn, World};
use pim_types::fact::InterfaceRow;
use pim_types::{IfaceId, SourceGroup};
use pim_wire::RegisterView;
use std::alloc::AllocError;

// The interface goes up: its first Hello is due, and its IGMP querier starts.
#[tactic(auto, unfolding(pim_model::specs::Step::iface_up))]
fn go_up(world: &mut World, turn: &mut Turn, iface: IfaceId) -> Result<(), AllocError>
    requires { iface.number < iface_count world.old }
    ensures state { OnOk result (world.new ≡ (iface_up world.old turn.old.draw iface.number).0) }
    ensures messages { OnOk result (turn.new ≡ saying turn.old (iface_up world.old turn.old.draw iface.number).1) }
{
    let row = InterfaceRow {
        generation: turn.draw,
        hello_end: triggered_end(world, turn.draw),
        is_hello_owed: true,
    };
    world.set_up(iface, row)?;
    pim_querier::up(world, turn, iface)
}

// Forwards a packet of data.
fn forward(
    world: &mut World,
    turn: &mut Turn,
    meter: &mut Meter,
    iface: IfaceId,
    packet: &Ipv4View<'_>,
    sight: SourceSight,
) -> Result<Leaving, AllocError>
    requires below { iface.number < 120 }
    requires sight { IsSightOf world.old packet.now.destination packet.now.source sight }
    ensures { IfOk result (λ leaving. Sends leaving world.new turn.old turn.new (packet_forwarded packet.now
        (forwarded world.old packet.now.destination packet.now.source iface.number))) }
{
    let list = arrived(world, turn, meter, iface, sight)?;
    leave(world, turn, meter, packet, list)
}

// Forwards the packet inside a Register.
fn decapsulate(
    world: &mut World,
    turn: &mut Turn,
    meter: &mut Meter,
    packet: &Ipv4View<'_>,
    register: &RegisterView<'_>,
    known: Option<SourceAtRp>,
) -> Result<Leaving, AllocError>
    requires { IfSome known (IsKnown world.old packet.now register.now) }
    ensures { IfOk result (λ leaving. Sends leaving world.new turn.old turn.new (decapsulated register.now
        (register_received world.old packet.now (registered_group register.now) (registered_source register.now)
        (is_null register.now)))) }
{
    let list = register_seen(world, turn, meter, packet, register, known)?;
    match register.inner() {
        Some(inner) => leave(world, turn, meter, inner, list),
        None => Ok(Leaving::nothing(turn.alloc)),
    }
}

// Replaces the routes by those of the table, and keeps those that were replaced.
fn take_routes(world: &mut World, replaced: &mut Replaced, next: Mrib)
    ensures state { world.new ≡ record world.old { routes = next.routes } }
    ensures replaced { replaced.new ≡ RoutesReplaced world.old.routes }
{
    let before = world.take_routes(next);
    replaced.keep_routes(before);
}

// Replaces the RP ranges and candidates by those of the table, and keeps those that were replaced. If they are the same, no RP is
// looked up.
fn take_ranges(
    world: &mut World,
    turn: &mut Turn,
    meter: &mut Meter,
    replaced: &mut Replaced,
    next: Mrib,
) -> Result<(), AllocError>
    ensures state { OnOk result (world.new ≡ rps_replaced world.old next.ranges) }
    ensures replaced { OnOk result (replaced.new ≡ RangesReplaced world.old.ranges) }
    ensures silent { turn.new ≡ turn.old }
{
    if world.has_ranges_of(&next) {
        replaced.keep_ranges(next);
        return Ok(());
    }
    let before = pim_register::rps_replaced(world, turn, meter, next)?;
    replaced.keep_ranges(before);
    Ok(())
}

/// Does what an event is to do, and returns what leaves of its packet, if it has one. What is known of the source of a
/// Register isn't gathered. The routes or RP ranges that it replaces are kept. If an allocation fails, the state may be
/// changed in part.
pub(crate) fn apply(
    world: &mut World,
    turn: &mut Turn,
    meter: &mut Meter,
    replaced: &mut Replaced,
    act: Act<'_>,
    known: Option<SourceAtRp>,
) -> Result<Leaving, AllocError>
    requires configured { IsConfigured world.old (act_event act) }
    requires read { HasRead world.old act }
    requires known { IfSome known (IsKnownIn world.old (act_event act)) }
    ensures sends { IfOk result (λ leaving. Sends leaving world.new turn.old turn.new
        (change world.old turn.old.draw (act_event act.entry))) }
    ensures replaced { OnOk result (replaced.new ≡ replaced_after world.old (act_event act.entry) replaced.old) }
{
    match act {
        Act::Data {
            iface,
            packet,
            sight,
        } => {
            // For the proof: the interface is below 120.
            world.interfaces().proof_few();
            forward(world, turn, meter, iface, &packet, Box::into_inner(sight))
        }
        Act::Register { packet, register } => {
            decapsulate(world, turn, meter, &packet, &register, known)
        }
        Act::Control(control) => {
            apply_control(world, turn, meter, replaced, control)?;
            Ok(Leaving::nothing(turn.alloc))
        }
    }
}

// Does what an event is to do that forwards no packet.
#[tactic(auto, unfolding(pim_model::specs::Step::change, pim_model::specs::Downstream::to_me))]
fn apply_control(
    world: &mut World,
    turn: &mut Turn,
    meter: &mut Meter,
    replaced: &mut Replaced,
    control: Control<'_>,
) -> Result<(), AllocError>
    requires configured { IsConfigured world.old (control_event control) }
    requires heard { HasHeard world.old control }
    ensures state { OnOk result (world.new
        ≡ (change world.old turn.old.draw (control_event control.entry)).state) }
    ensures messages { OnOk result (turn.new
        ≡ saying turn.old (change world.old turn.old.draw (control_event control.entry)).messages) }
    ensures replaced { OnOk result (replaced.new
        ≡ replaced_after world.old (control_event control.entry) replaced.old) }
{
    match control {
        Control::Up { iface } => go_up(world, turn, iface),
        Control::Down { iface } => {
            world.set_down(iface, meter);
            Ok(())
        }
        Control::Routes { table } => {
            take_routes(world, replaced, Box::into_inner(table));
            Ok(())
        }
        Control::Ranges { table } => {
            take_ranges(world, turn, meter, replaced, Box::into_inner(table))
        }
        Control::Hello { iface, from, hello } => {
            pim_hello::received(world, turn, meter, iface, from, &hello)
        }
        Control::JoinPruneToMe {
            iface,
            message,
            named,
            changes,
        } => {
            // For the proof: the interface is below 120.
            world.interfaces().proof_few();
            take_changes(world, meter, iface, message.holdtime(), &named, &changes)
        }
        Control::JoinPruneSeen {
            iface,
            message,
            named,
        } => pim_upstream::seen(world, turn, meter, iface, &message, &named),
        Control::Assert {
            iface,
            from,
            assert,
        } => {
            world.interfaces().proof_few();
            pim_asserts::received(world, turn, meter, iface, from, &assert)
        }
        Control::Query { iface, from, query } => {
            pim_querier::query_seen(world, turn, meter, iface, from, &query)
        }
        Control::Report { iface, report } => {
            // For the proof: the interface is below 120.
            world.interfaces().proof_few();
            pim_querier::report_seen(world, turn, meter, iface, &report)
        }
        Control::RegisterStop { stop, .. } => {
            let name = SourceGroup {
                source: stop.source,
                group: stop.group,
            };
            pim_register::stop_seen(world, turn, meter, name)
        }
    }
}
