//! Interfaces that are removed go down.
ghost use Rattle.law_states.specs.Reload.{config_of};
ghost use Rattle.law_states.specs.Reloading.{down_event, removals};
ghost use Rattle.pim_event.specs.Stepping.{Rests};
ghost use Rattle.pim_ifaces.specs.Interfaces.{is_up_key};
ghost use Rattle.pim_ip.specs.declared.fault.Fault.{Fault};
ghost use Rattle.pim_model.specs.State.{iface_count};
ghost use Rattle.pim_model.specs.Step.{step};
ghost use Rattle.pim_reloader.specs.Reloads.{Removes};
ghost use Rattle.pim_types.specs.Keys.{iface_in};
ghost use Rattle.std.specs.List.{list_all, range_with_len};
ghost use Rattle.std.specs.Prelude.{◌≡◌, ◌-◌, IfOk, IsOkUnless, OnOk, length, map, nat_lt, true};

use pim_event::{Core, take_in};
use pim_intake::LentEvent;
use pim_state::{Meter, World};
use pim_types::{Emission, Event, EventKind, Fault, IfaceId};

// Lets an interface go down. The result is what is sent.
fn take_down(
    core: &mut Core,
    meter: &mut Meter,
    draw: u32,
    iface: IfaceId,
) -> Result<Vec<Emission>, Fault>
    requires { Rests core.old }
    ensures state { OnOk result (core.new.world ≡ (step core.old.world (down_event draw iface.number)).state) }
    ensures sent { IfOk result (λ sent. sent.items ≡ (step core.old.world (down_event draw iface.number)).emissions) }
    ensures rests { OnOk result (Rests core.new) }
    ensures fault { IsOkUnless result Fault.Memory }
{
    core.cache.reset();
    core.replaced.clear();
    let event = Event {
        draw,
        kind: EventKind::Down { iface },
    };
    let outcome = take_in(core, &LentEvent::of(&event), meter)?;
    Ok(outcome.emissions.into_vec())
}

/// Lets the interfaces go down from the first to the last of so many, one after the other. The result is what is sent.
pub(crate) fn take_all_down(
    core: &mut Core,
    meter: &mut Meter,
    draw: u32,
    first: u32,
    count: u32,
) -> Result<Vec<Emission>, Fault>
    requires { Rests core.old }
    ensures { Removes core.old (map (down_event draw) (range_with_len first (count - first))) result core.new }
{
    let mut sent = Vec::new(core.room.alloc);
    for number in first..count {
        let mut more = take_down(core, meter, draw, IfaceId { number })?;
        sent.append(&mut more)?;
    }
    Ok(sent)
}

/// How many interfaces are configured.
pub(crate) fn count_of(world: &World) -> u32
    ensures { result ≡ iface_count world.now }
{
    world.interfaces().count()
}

/// For the proof: each row is under the key of an interface that is configured. Does nothing when it runs.
pub(crate) fn proof_kinds(world: &World)
    ensures { list_all (λ e. is_up_key (iface_count world.now) e.0) world.now.interfaces ≡ true }
{
    world.interfaces().proof_kinds();
}

/// Lets the interfaces go down that the next world doesn't have. The result is what is sent.
pub(crate) fn remove(
    core: &mut Core,
    meter: &mut Meter,
    draw: u32,
    next: &World,
) -> Result<Vec<Emission>, Fault>
    requires { Rests core.old }
    ensures removes { Removes core.old (removals core.old.world (config_of next.now) draw) result core.new }
    ensures below { OnOk result (list_all (λ e. nat_lt (iface_in e.0) (length next.now.configured.interfaces)) core.new.world.interfaces
        ≡ true) }
{
    proof_kinds(&core.world);
    let first = count_of(next);
    let count = count_of(&core.world);
    let sent = take_all_down(core, meter, draw, first, count)?;
    proof_kinds(&core.world);
    Ok(sent)
}
