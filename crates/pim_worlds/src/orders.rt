//! The orders that a map of places gives.
ghost use Rattle.law_states.specs.Placing.{are_once, are_places, index_of, is_kept, is_left_out, is_new, kept_places, new_order, old_order};
ghost use Rattle.pim_model.specs.Tables.{below};
ghost use Rattle.pim_worlds.specs.Ordered.{AreOrders};
ghost use Rattle.std.specs.List.{list_all};
ghost use Rattle.std.specs.Prelude.{◌≡◌, ◌≤◌, ◌++◌, IfOk, filter, length, map, nat_lt};

use crate::numbers::{index_of, is_among, push_where};
use std::alloc::{AllocError, Global};

/// The orders by which facts go to an order between, and from there to their places.
#[derive(Drop)]
pub struct Orders {
    /// The old places in the order between: those that stay, then those that go.
    pub old: Vec<u32>,
    /// The place in that order of each old place.
    pub to: Vec<u32>,
    /// The new places in that order: those to which old ones go, then the others.
    pub new: Vec<u32>,
    /// How many old places stay.
    pub kept: u32,
}

// The new places to which old ones go, in the order of the old ones.
fn kept_places(alloc: Global, places: &[Option<u32>]) -> Result<Vec<u32>, AllocError>
    ensures { IfOk result (λ kept. kept.items ≡ kept_places places.now) }
{
    let mut kept = Vec::new(alloc);
    for place in places {
        if let Some(number) = place {
            kept.push(*number)?;
        }
    }
    Ok(kept)
}

// Whether each number is below the bound.
fn are_below(numbers: &[u32], bound: u32) -> bool
    ensures { result ≡ list_all (λ j. nat_lt j bound) numbers.now }
{
    for number in numbers {
        if *number >= bound {
            return false;
        }
    }
    true
}

// Whether no number is listed twice.
fn are_once(numbers: &[u32]) -> bool
    ensures { result ≡ are_once numbers.now }
{
    for (index, number) in numbers.iter().enumerate() {
        if is_among(&numbers[index + 1..], *number) {
            return false;
        }
    }
    true
}

/// Whether this is a map of so many old places to so many new ones: it has a line for each old place, and names each new
/// one at most once. The error is want of memory.
#[tactic(auto, unfolding(law_states::specs::Placing::are_places))]
pub fn are_places(
    alloc: Global,
    old: u32,
    new: u32,
    places: &[Option<u32>],
) -> Result<bool, AllocError>
    ensures { IfOk result (λ are. are ≡ are_places old new places.now) }
{
    if places.len() != old as usize {
        return Ok(false);
    }
    let kept = kept_places(alloc, places)?;
    Ok(are_below(kept.as_slice(), new) && are_once(kept.as_slice()))
}

// Whether the interface of an old place has a place in the other configuration.
#[tactic(auto, unfolding(law_states::specs::Placing::is_kept))]
fn is_kept(places: &[Option<u32>], number: u32) -> bool
    ensures { result ≡ is_kept places.now number }
{
    match places.get(number as usize) {
        Some(place) => place.is_some(),
        None => false,
    }
}

// Whether it has none.
#[tactic(auto, unfolding(law_states::specs::Placing::is_left_out))]
fn is_left_out(places: &[Option<u32>], number: u32) -> bool
    ensures { result ≡ is_left_out places.now number }
{
    !is_kept(places, number)
}

// Whether no old place goes to the new one.
#[tactic(auto, unfolding(law_states::specs::Placing::is_new))]
fn is_new(kept: &[u32], number: u32) -> bool
    ensures { result ≡ is_new kept.now number }
{
    !is_among(kept, number)
}

// The old places that stay, then those that go.
fn old_order(alloc: Global, places: &[Option<u32>]) -> Result<Vec<u32>, AllocError>
    requires { length places.now ≤ 120 }
    ensures { IfOk result (λ order. order.items ≡ old_order places.now) }
{
    let count = places.len() as u32;
    let mut order = Vec::new(alloc);
    push_where(&mut order, count, |number| is_kept(places, number))?;
    push_where(&mut order, count, |number| is_left_out(places, number))?;
    Ok(order)
}

// The new places of interfaces that stay, then the others.
fn new_order(alloc: Global, kept: &[u32], new: u32) -> Result<Vec<u32>, AllocError>
    ensures { IfOk result (λ order. order.items ≡ kept.now ++ filter (is_new kept.now) (below new)) }
{
    let mut order = Vec::new(alloc);
    order.extend_from_slice(kept)?;
    push_where(&mut order, new, |number| is_new(kept, number))?;
    Ok(order)
}

// Where each of so many old places stands in the order.
fn indices(alloc: Global, order: &[u32], count: u32) -> Result<Vec<u32>, AllocError>
    requires { length order.now ≤ 120 }
    ensures { IfOk result (λ indices. indices.items ≡ map (index_of order.now) (below count)) }
{
    let mut indices = Vec::new(alloc);
    for number in 0..count {
        indices.push(index_of(order, number))?;
    }
    Ok(indices)
}

impl Orders {
    /// The orders of a map of places, where the other configuration has so many interfaces. The error is want of memory.
    pub fn of(alloc: Global, places: &[Option<u32>], new: u32) -> Result<Orders, AllocError>
        requires { length places.now ≤ 120 }
        ensures { IfOk result (AreOrders places.now new) }
    {
        let kept = kept_places(alloc, places)?;
        let old = old_order(alloc, places)?;
        let to = indices(alloc, old.as_slice(), places.len() as u32)?;
        let stay = kept.as_slice();
        let new = new_order(alloc, stay, new)?;
        let kept = stay.len() as u32;
        Ok(Orders { old, to, new, kept })
    }
}
