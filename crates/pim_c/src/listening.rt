//! A handle of a listener for Bootstraps, and the numbers of its answers.
ghost use Rattle.pim_bsr.specs.Hearing.{is_moved};
ghost use Rattle.pim_c.specs.Bootstraps.{choice_number, choice_of, heard_number, limit_of, unheard_number, why_number};
ghost use Rattle.std.specs.Prelude.{◌≡◌, ◌⊎◌, MatchOption, None, Some, is_some};

use crate::listener_place::ListenerPlace;
use crate::returned::{DONE, GUARDED, MEMORY, UNTAKEN, ignored_number};
use pim_bsr::{Choice, Heard, Listener, MOST_RPS, Why};
use pim_session::Stop;
use pim_types::{Ignored, Refusal};
use std::alloc::Global;
use std::mem::replace;

/// A handle that C keeps: a listener or none. A handle that is all zeros has none.
#[repr(C)]
pub struct ListenerHandle {
    pub place: ListenerPlace,
    is_there: bool,
    ghost written: { is_there ≡ is_some place.inside },
}

impl ListenerHandle {
    /// The listener, taken out.
    pub fn take(&mut self, alloc: Global) -> Option<Box<Listener>>
        ensures left { self.new.place.inside ≡ None }
        ensures taken { MatchOption result (self.old.place.inside ≡ None) (λ listener. self.old.place.inside ≡ Some listener.value) }
    {
        if !self.is_there {
            return None;
        }
        self.is_there = false;
        Some(replace(&mut self.place, ListenerPlace::none(alloc)).take())
    }

    /// Puts a listener in. A listener that was there is leaked.
    pub fn put(&mut self, listener: Box<Listener>)
        ensures { self.new.place.inside ≡ Some listener.value }
    {
        self.place = ListenerPlace::put(listener);
        self.is_there = true;
    }

    /// Puts a listener in, in place of the one in the handle, which is freed. The result is the number of the answer:
    /// done, or want of memory.
    pub fn renew(&mut self, alloc: Global, made: Listener) -> u32
        ensures { ((result ≡ 0) × (self.new.place.inside ≡ Some made))
            ⊎ ((result ≡ 40) × (self.new.place.inside ≡ self.old.place.inside)) }
    {
        let Ok(held) = Box::new(alloc, made) else {
            return MEMORY;
        };
        let _ended = self.take(alloc);
        self.put(held);
        DONE
    }
}

/// A limit on the RPs that a listener keeps, by a number.
pub fn limit(number: u32) -> Option<usize>
    ensures { result ≡ limit_of number }
{
    let limit = number as usize;
    if limit == 0 || MOST_RPS < limit {
        return None;
    }
    Some(limit)
}

/// What an RP is chosen for, by its number.
pub fn choice(number: u32) -> Option<Choice>
    ensures { result ≡ choice_of number }
{
    match number {
        0 => Some(Choice::Range),
        1 => Some(Choice::Group),
        _ => None,
    }
}

/// The number of what an RP is chosen for.
pub fn choice_number(choice: Choice) -> u32
    ensures { result ≡ choice_number choice }
{
    match choice {
        Choice::Range => 0,
        Choice::Group => 1,
    }
}

/// The number of why a Bootstrap doesn't count.
pub(crate) fn why_number(why: Why) -> u32
    ensures { result ≡ why_number why }
{
    match why {
        Why::NoNeighbour => ignored_number(Ignored::NoNeighbour),
        Why::NoRoom => Refusal::Full.number().into(),
        Why::OwnBsr => 110,
        Why::Scoped => 111,
        Why::LateRefresh => 112,
        Why::NotFromRpf => 113,
        Why::NotPreferred => 114,
    }
}

/// The number of what became of a packet.
pub fn heard_number(heard: Heard) -> u32
    ensures { result ≡ heard_number heard }
{
    match heard {
        Heard::Other => ignored_number(Ignored::OtherType),
        Heard::Refused(refusal) => u32::from(refusal.number()),
        Heard::Ignored(why) => why_number(why),
        Heard::Taken(_) => DONE,
    }
}

/// Whether the router is to be given other RPs for a packet.
pub fn is_moved(heard: Heard) -> bool
    ensures { result ≡ is_moved heard }
{
    match heard {
        Heard::Taken(moved) => moved,
        Heard::Other => false,
        Heard::Refused(_) => false,
        Heard::Ignored(_) => false,
    }
}

/// The number of why a packet wasn't heard, where nothing changed.
pub fn unheard_number(stop: Stop) -> u32
    ensures { result ≡ unheard_number stop }
{
    match stop {
        Stop::Untaken => UNTAKEN,
        Stop::Guarded => GUARDED,
        Stop::Fault(fault) => u32::from(fault.number()),
    }
}
