//! A change that touches nothing: it moves only when timers expire, or forwards a packet. Nothing is opened before it,
//! and nothing follows of it.
ghost use Rattle.law_events.specs.Rest.{IsAtRest};
ghost use Rattle.pim_event.specs.AtRp.{IsKnownIn};
ghost use Rattle.pim_event.specs.Replacing.{replaced_after};
ghost use Rattle.pim_ip.specs.declared.fault.Fault.{Fault};
ghost use Rattle.pim_model.specs.Step.{outcome_of, taken};
ghost use Rattle.pim_plan.specs.Acting.{act_event};
ghost use Rattle.pim_plan.specs.Naming.{IsConfigured};
ghost use Rattle.pim_plan.specs.Planning.{Fits};
ghost use Rattle.pim_state.specs.declared.touched.Touched.{Touched as TouchedValue};
ghost use Rattle.std.specs.Prelude.{◌≡◌, [], IfOk, IfSome, IsOkUnless, IsTrue, OnOk};

use crate::change::apply;
use crate::rendezvous::SourceAtRp;
use crate::replaced::Replaced;
use pim_data::Leaving;
use pim_plan::Act;
use pim_state::{Meter, Touched, Turn, World};
use pim_types::{Fault, Outcome, Series, Verdict};

/// Whether nothing is touched.
pub(crate) fn is_nothing(touched: &Touched) -> bool
    ensures { IsTrue result → touched.now ≡ TouchedValue.Keys [] }
{
    let Touched::Keys(keys) = touched else {
        return false;
    };
    match keys.as_slice() {
        [] => true,
        _ => false,
    }
}

/// Makes the change of an event that touches nothing, by what is known of its source if it is a Register. What leaves are
/// the packets of its messages, and then those that are forwarded.
pub(crate) fn change_quietly(
    world: &mut World,
    turn: &mut Turn,
    meter: &mut Meter,
    replaced: &mut Replaced,
    act: Act<'_>,
    known: Option<SourceAtRp>,
) -> Result<Outcome, Fault>
    requires rest { IsAtRest world.old }
    requires begun { turn.old.messages ≡ [] }
    requires configured { IsConfigured world.old (act_event act) }
    requires plan { Fits world.old (act_event act) (record { touched = TouchedValue.Keys []; act = act }) }
    requires known { IfSome known (IsKnownIn world.old (act_event act)) }
    ensures outcome { IfOk result (λ outcome. outcome
        ≡ outcome_of (taken world.old turn.old.draw (act_event act.entry))) }
    ensures state { OnOk result (world.new ≡ (taken world.old turn.old.draw (act_event act.entry)).state) }
    ensures replaced { OnOk result (replaced.new ≡ replaced_after world.old (act_event act.entry) replaced.old) }
    ensures fault { IsOkUnless result Fault.Memory }
{
    let Leaving {
        mut copies,
        mut registered,
    } = apply(world, turn, meter, replaced, act, known)?;
    // For the proof: asserts, sources and registers are under keys of their kind.
    world.proof_keyed();
    let count = copies.len() as u32;
    let mut emissions = Vec::new(turn.alloc);
    world.write(&mut turn.room, &turn.out, &mut emissions)?;
    emissions.append(&mut copies)?;
    emissions.append(&mut registered)?;
    Ok(Outcome {
        answer: Ok(Verdict::Done),
        emissions: Series::from_vec(emissions),
        copies: count,
    })
}
