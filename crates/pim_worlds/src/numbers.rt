//! Numbers in lists: where one stands, which one stands at an index, and those that pass a test.
ghost use Rattle.law_states.specs.Placing.{index_of, number_at};
ghost use Rattle.pim_model.specs.Tables.{below, is_among};
ghost use Rattle.std.specs.Prelude.{◌≡◌, ◌≤◌, ◌++◌, ℕ, Bool, OnOk, filter, length};

use std::alloc::AllocError;

/// The number that stands in the list at an index; past its end, the index itself.
#[tactic(auto, unfolding(law_states::specs::Placing::number_at))]
pub fn number_at(numbers: &[u32], index: u32) -> u32
    ensures { result ≡ number_at numbers.now index }
{
    match numbers.get(index as usize) {
        Some(number) => *number,
        None => index,
    }
}

/// Where a number stands in the list first, counted from 0; where it doesn't, the number itself.
#[tactic(auto, unfolding(law_states::specs::Placing::index_of))]
pub fn index_of(numbers: &[u32], number: u32) -> u32
    requires { length numbers.now ≤ 120 }
    ensures { result ≡ index_of numbers.now number }
{
    for (index, other) in numbers.iter().enumerate() {
        if *other == number {
            return index as u32;
        }
    }
    number
}

/// Whether the number is in the list.
#[tactic(auto, unfolding(pim_model::specs::Tables::is_among))]
pub fn is_among(numbers: &[u32], number: u32) -> bool
    ensures { result ≡ is_among number numbers.now }
{
    for other in numbers {
        if *other == number {
            return true;
        }
    }
    false
}

/// Adds the numbers below a count that pass the test at the end, ascending. The error is want of memory.
pub fn push_where<F: Fn(u32) -> bool>(
    out: &mut Vec<u32>,
    count: u32,
    test: F,
) -> Result<(), AllocError>
    requires { F.IsAlwaysCallable test }
    ensures { (p : ℕ → Bool) → ((i : ℕ) (b : Bool) → F.post test i b → b ≡ p i)
        → OnOk result (out.new.items ≡ out.old.items ++ filter p (below count)) }
{
    for number in 0..count {
        if test(number) {
            out.push(number)?;
        }
    }
    Ok(())
}
