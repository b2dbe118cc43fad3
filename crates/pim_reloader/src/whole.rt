//! A reload: interfaces that are removed go down, then the configuration is replaced.
ghost use Rattle.law_states.specs.Reload.{config_of};
ghost use Rattle.law_states.specs.Reloading.{reload};
ghost use Rattle.pim_event.specs.Stepping.{Rests};
ghost use Rattle.pim_reloader.specs.Reloads.{Reloads};

use crate::addresses::say_goodbye;
use crate::remove::remove;
use crate::replace::{add_sources, replace};
use pim_event::Core;
use pim_state::{Meter, Turn, World};
use pim_types::{Emission, Fault};

/// Lets the interfaces go down that the next world doesn't have, and then puts a world at rest under its configuration:
/// as `reload` of the specification says. The rows of the forwarding cache are those of the new state; all sources with a
/// fact before or after are listed as changed, and all sources count as disturbed. The result is what is sent. The fault
/// is want of memory.
#[tactic(auto, unfolding(law_states::specs::Reloading::reload))]
pub fn reload(
    core: &mut Core,
    meter: &mut Meter,
    draw: u32,
    next: World,
) -> Result<Vec<Emission>, Fault>
    requires { Rests core.old }
    ensures { Reloads core.old (reload core.old.world (config_of next) draw) result core.new }
{
    let mut names = Vec::new(core.room.alloc);
    add_sources(&mut names, &core.world)?;
    let mut sent = remove(core, meter, draw, &next)?;
    say_goodbye(&core.world, core.room.alloc, &next, &mut sent)?;
    core.cache.reset();
    core.replaced.clear();
    let mut turn = Turn::new(core.room.taken(), draw);
    let mut later = replace(core, &mut turn, meter, next, names)?;
    core.room = turn.room;
    sent.append(&mut later)?;
    Ok(sent)
}
