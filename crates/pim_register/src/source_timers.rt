//! What the expiry of register timers and of keepalive timers changes (RFC 7761, sections 4.4.1 and 4.2).
ghost use Rattle.std.specs.Prelude.{◌≡◌, ◌∷◌, [], OnOk, Some, unwrap_or};
ghost use Rattle.pim_types.specs.Keys.{group_in, source_in};
ghost use Rattle.pim_types.specs.declared.timer.TimerKind.{TimerKind};
ghost use Rattle.pim_model.specs.Firing.{fired};
ghost use Rattle.pim_model.specs.Messages.{Message};
ghost use Rattle.pim_model.specs.Registers.{registering_address};
ghost use Rattle.pim_model.specs.Unicast.{rp_of};
ghost use Rattle.pim_state.specs.Turns.{saying};

use pim_state::{Meter, Turn, World};
use pim_types::fact::{RegisterRow, RegisterState, SourceRow};
use pim_types::{Addr, Key};
use std::alloc::AllocError;

// Register_Probe_Time (RFC 7761, section 4.11), in ms.
const REGISTER_PROBE_TIME: u64 = 5_000;

/// The router's address on RPF_interface(S), from which it registers the source; 0.0.0.0 without a route. The meter
/// rises by the nodes visited.
#[tactic(auto, unfolding(pim_model::specs::Unicast::rpf_interface))]
pub fn registering_address(world: &World, meter: &mut Meter, source: Addr) -> Addr
    ensures { result.bits ≡ registering_address world.now source.bits }
{
    match world.route(source, meter) {
        Some(path) => world.address(path.iface),
        None => Addr::NONE,
    }
}

// RP(G), or 0.0.0.0.
fn rp_or_none(world: &World, meter: &mut Meter, group: Addr) -> Addr
    ensures { result.bits ≡ unwrap_or (rp_of world.now group.bits) 0 }
{
    world.rp(group, meter).unwrap_or(Addr::NONE)
}

// Sends a Null-Register, by which the RP is probed: it answers if it still wants no Registers of the key's source.
fn probe(world: &World, turn: &mut Turn, meter: &mut Meter, key: Key) -> Result<(), AllocError>
    ensures { OnOk result (turn.new ≡ saying turn.old (Message.NullRegister
        (registering_address world.now (source_in key)) (unwrap_or (rp_of world.now (group_in key)) 0)
        (source_in key) (group_in key) ∷ [])) }
{
    let name = key.name();
    let from = registering_address(world, meter, name.source);
    let to = rp_or_none(world, meter, key.group);
    turn.out.null_register(from, to, name)
}

/// What the expiry of a register timer changes: in Prune the RP is probed by a Null-Register; without an answer in
/// Register_Probe_Time the tunnel opens again. The meter rises by the nodes visited. The error is want of memory.
#[tactic(auto, unfolding(pim_model::specs::Firing::fired, pim_model::specs::Firing::fire_row, pim_model::specs::Registers::register_due))]
pub fn fired(
    world: &mut World,
    turn: &mut Turn,
    meter: &mut Meter,
    key: Key,
) -> Result<(), AllocError>
    ensures state { OnOk result (world.new ≡ (fired world.old TimerKind.Register key).0) }
    ensures messages { OnOk result (turn.new ≡ saying turn.old (fired world.old TimerKind.Register key).1) }
{
    let Some(row) = world.store().register(key) else {
        return Ok(());
    };
    let state = match row.state {
        RegisterState::Prune { .. } => {
            probe(world, turn, meter, key)?;
            RegisterState::JoinPending {
                end: world.present() + REGISTER_PROBE_TIME,
            }
        }
        _ => RegisterState::Join,
    };
    world
        .store_mut()
        .change_register(key, RegisterRow { state }, meter)
}

/// What the expiry of KAT(S,G) changes: the source's row is removed, unless SPTbit(S,G) is set. The meter rises by the
/// nodes visited. The error is want of memory.
#[tactic(auto, unfolding(pim_model::specs::Firing::fired, pim_model::specs::Firing::fire_row, pim_model::specs::Firing::keepalive_due))]
pub fn keepalive_due(world: &mut World, meter: &mut Meter, key: Key) -> Result<(), AllocError>
    ensures { OnOk result (world.new ≡ (fired world.old TimerKind.Keepalive key).0) }
{
    let Some(row) = world.store().source(key) else {
        return Ok(());
    };
    let left = row.spt.then_some(SourceRow {
        keepalive: None,
        ..row
    });
    world.store_mut().change_source(key, left, meter)
}
