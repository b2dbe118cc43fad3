//! Packets that leave on a link, by another numbering of the interfaces.
ghost use Rattle.law_states.specs.Placing.{index_of, leaving_on, number_at};
ghost use Rattle.std.specs.Prelude.{◌≡◌, ◌≤◌, length, map};

use pim_types::Emission;
use pim_worlds::{index_of, number_at};

// Lets a packet leave on the interface whose number has the index of its own.
fn leave_by_number(numbers: &[u32], emission: &mut Emission)
    ensures { emission.new ≡ leaving_on (number_at numbers.now) emission.old }
{
    if let Emission::Link { iface, .. } = emission {
        iface.number = number_at(numbers, iface.number);
    }
}

// Lets a packet leave on the interface of the index that the number of its own has.
fn leave_by_index(numbers: &[u32], emission: &mut Emission)
    requires { length numbers.now ≤ 120 }
    ensures { emission.new ≡ leaving_on (index_of numbers.now) emission.old }
{
    if let Emission::Link { iface, .. } = emission {
        iface.number = index_of(numbers, iface.number);
    }
}

/// Lets each packet leave on the interface whose number has the index of its own.
pub(crate) fn leave_by_numbers(numbers: &[u32], sent: &mut [Emission])
    ensures { sent.new ≡ map (leaving_on (number_at numbers.now)) sent.old }
{
    for emission in sent.iter_mut() {
        leave_by_number(numbers, emission);
    }
}

/// Lets each packet leave on the interface of the index that the number of its own has.
pub(crate) fn leave_by_indices(numbers: &[u32], sent: &mut [Emission])
    requires { length numbers.now ≤ 120 }
    ensures { sent.new ≡ map (leaving_on (index_of numbers.now)) sent.old }
{
    for emission in sent.iter_mut() {
        leave_by_index(numbers, emission);
    }
}
