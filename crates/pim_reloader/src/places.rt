//! A reload by a map of places: facts go to an order between, interfaces that have no place go down, the configuration is
//! replaced, and facts go to their places.
ghost use Rattle.law_states.specs.Placing.{are_places, gone_on, is_resubnetted, keeps_subnet, reload_by, resubnetted};
ghost use Rattle.law_states.specs.Reload.{config_of};
ghost use Rattle.pim_event.specs.Stepping.{Rests};
ghost use Rattle.pim_model.specs.Limits.{config_test};
ghost use Rattle.pim_model.specs.State.{iface_count};
ghost use Rattle.pim_reloader.specs.Reloads.{AreReady, LeadsTo, Reloads, halfway};
ghost use Rattle.std.specs.Prelude.{◌≡◌, ◌≤◌, IfOk, Ok, length, true};

use crate::addresses::say_goodbye;
use crate::moved::move_facts;
use crate::numbering::{leave_by_indices, leave_by_numbers};
use crate::remove::{count_of, proof_kinds, take_all_down};
use crate::replace::{add_sources, replace};
use pim_event::Core;
use pim_state::{Meter, Turn, World};
use pim_types::{Emission, Fault, InterfaceConfig};
use pim_worlds::{Orders, push_where, world_in_order};
use std::alloc::{AllocError, Global};

// Whether an interface is in both configurations, with the same address and the same subnet.
fn keeps_subnet(before: Option<InterfaceConfig>, after: Option<InterfaceConfig>) -> bool
    ensures { result ≡ keeps_subnet before after }
{
    match before {
        Some(before) => match after {
            Some(after) => before.address == after.address && before.length == after.length,
            None => false,
        },
        None => false,
    }
}

// Whether the interface at the place has another address, or a subnet of another length, by the second list.
#[tactic(auto, unfolding(law_states::specs::Placing::is_resubnetted))]
fn is_resubnetted(old: &[InterfaceConfig], new: &[InterfaceConfig], place: u32) -> bool
    ensures { result ≡ is_resubnetted old.now new.now place }
{
    let before = old.get(place as usize).copied();
    let after = new.get(place as usize).copied();
    !keeps_subnet(before, after)
}

// Those of the first places.
#[tactic(auto, unfolding(law_states::specs::Placing::resubnetted))]
fn resubnetted(
    alloc: Global,
    count: u32,
    old: &[InterfaceConfig],
    new: &[InterfaceConfig],
) -> Result<Vec<u32>, AllocError>
    ensures { IfOk result (λ places. places.items ≡ resubnetted count old.now new.now) }
{
    let mut places = Vec::new(alloc);
    push_where(&mut places, count, |place| is_resubnetted(old, new, place))?;
    Ok(places)
}

// Lets the interfaces go down from a number on, and then puts the world under the configuration of the next one. The
// result is what is sent.
fn go_on(
    core: &mut Core,
    meter: &mut Meter,
    draw: u32,
    kept: u32,
    next: World,
) -> Result<Vec<Emission>, Fault>
    requires rest { Rests core.old }
    requires few { kept ≤ iface_count core.old.world }
    requires within { kept ≤ length next.configured.interfaces }
    ensures { LeadsTo (gone_on core.old.world kept (iface_count core.old.world) (config_of next) draw) result core.new }
{
    proof_kinds(&core.world);
    let count = count_of(&core.world);
    let mut sent = take_all_down(core, meter, draw, kept, count)?;
    proof_kinds(&core.world);
    say_goodbye(&core.world, core.room.alloc, &next, &mut sent)?;
    core.cache.reset();
    core.replaced.clear();
    let mut turn = Turn::new(core.room.taken(), draw);
    let names = Vec::new(core.room.alloc);
    let mut later = replace(core, &mut turn, meter, next, names)?;
    core.room = turn.room;
    sent.append(&mut later)?;
    Ok(sent)
}

// Lets the facts go to the order between, and from there on to the configuration of the next world in that order. The
// result is what is sent, numbered by that order.
#[tactic(auto, unfolding(crate::specs::Reloads::halfway))]
fn go_between(
    core: &mut Core,
    meter: &mut Meter,
    draw: u32,
    next: &World,
    orders: &Orders,
) -> Result<Vec<Emission>, Fault>
    requires rest { Rests core.old }
    requires ready { AreReady core.old.world next.now orders.now }
    ensures { LeadsTo (halfway core.old.world orders.now (config_of next.now) draw) result core.new }
{
    let alloc = core.room.alloc;
    let old = world_in_order(alloc, orders.old.as_slice(), &core.world, meter)?;
    let new = world_in_order(alloc, orders.new.as_slice(), next, meter)?;
    let apart = resubnetted(
        alloc,
        orders.kept,
        old.interfaces().configured(),
        new.interfaces().configured(),
    )?;
    let places = orders.to.as_slice();
    let none = Vec::new(alloc);
    let mut sent = move_facts(core, meter, draw, &old, places, apart.as_slice(), none)?;
    let mut more = go_on(core, meter, draw, orders.kept, new)?;
    sent.append(&mut more)?;
    Ok(sent)
}

/// Puts a world at rest under the configuration of the next one by a map of places: as `reload_by` of the specification
/// says. The rows of the forwarding cache are those of the new state; all sources with a fact before or after are listed as
/// changed, and all sources count as disturbed. The result is what is sent. The fault is want of memory.
pub fn reload_places(
    core: &mut Core,
    meter: &mut Meter,
    draw: u32,
    next: &World,
    places: &[Option<u32>],
) -> Result<Vec<Emission>, Fault>
    requires rest { Rests core.old }
    requires accepted { config_test (config_of core.old.world) ≡ Ok tt }
    requires next_accepted { config_test (config_of next.now) ≡ Ok tt }
    requires places { are_places (iface_count core.old.world) (length next.now.configured.interfaces) places.now ≡ true }
    ensures { Reloads core.old (reload_by core.old.world places.now (config_of next.now) draw) result core.new }
{
    // For the proof: at most 120 interfaces are configured.
    core.world.interfaces().proof_few();
    let alloc = core.room.alloc;
    let orders = Orders::of(alloc, places, next.interfaces().count())?;
    let mut names = Vec::new(alloc);
    add_sources(&mut names, &core.world)?;
    let mut sent = go_between(core, meter, draw, next, &orders)?;
    let order = orders.new.as_slice();
    let mut last = move_facts(core, meter, draw, next, order, &[], names)?;
    leave_by_indices(order, last.as_mut_slice());
    sent.append(&mut last)?;
    leave_by_numbers(orders.old.as_slice(), sent.as_mut_slice());
    Ok(sent)
}
