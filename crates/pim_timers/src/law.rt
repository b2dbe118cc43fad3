//! Laws of what is next, and of the order of timers.
ghost use Rattle.std.specs.Prelude.{◌≡◌};
ghost use Rattle.pim_types.specs.declared.timer.Timer.{Timer as TimerValue};
ghost use Rattle.pim_types.specs.Timers.{timer_cmp};
ghost use Rattle.pim_timers.specs.Next.{OneIsNext};

use pim_types::Timer;

/// At most one timer is the next to expire.
#[tactic(auto, using(crate::proofs::Least::next_is_one))]
pub fn one_timer_is_next()
    ensures { OneIsNext }
{}

/// Timers compare by the ranks of their kinds, and those of one kind by their keys.
#[tactic(auto, using(crate::proofs::Ranks::timer_order))]
pub fn timers_compare_by_rank_and_key()
    ensures { (first second : TimerValue) → ⟦<Timer as Ord>⟧.cmp first second ≡ timer_cmp first second }
{}
