//! The timer that expires first, of several tables.
ghost use Rattle.std.specs.Prelude.{◌≡◌, ◌++◌, List, option_map};
ghost use Rattle.std.specs.Ordering.{is_lt};
ghost use Rattle.pim_model.specs.Clearing.{first_by};
ghost use Rattle.pim_model.specs.Timers.{Ending, is_ending_first};
ghost use Rattle.pim_timers.specs.Order.{due_cmp};
ghost use Rattle.pim_tables.specs.Ends.{due_of};

use pim_types::Timer;

// Whether the first timer comes before the second: by timestamp, then by kind, then by key.
fn comes_before(first: (u64, Timer), second: (u64, Timer)) -> bool
    ensures { result ≡ is_lt (due_cmp first second) }
{
    first.cmp(&second).is_lt()
}

/// Which timer expires first in two tables, by the first of each, if there is one: a timestamp in ms, and the timer.
pub fn earlier(one: Option<(u64, Timer)>, other: Option<(u64, Timer)>) -> Option<(u64, Timer)>
    ensures { (xs ys : List Ending) → one ≡ option_map due_of (first_by is_ending_first xs)
        → other ≡ option_map due_of (first_by is_ending_first ys)
        → result ≡ option_map due_of (first_by is_ending_first (xs ++ ys)) }
{
    match (one, other) {
        (Some(first), Some(second)) if comes_before(second, first) => other,
        (Some(_), _) => one,
        (None, _) => other,
    }
}
