//! A handle of a candidacy, and the numbers of its answers.
ghost use Rattle.pim_c.specs.Candidacies.{candidacy_heard_number, moves_rps, told_number};
ghost use Rattle.std.specs.Prelude.{◌≡◌, ◌⊎◌, MatchOption, None, Some, is_some};

use crate::candidacy_place::CandidacyPlace;
use crate::listening::why_number;
use crate::returned::{DONE, MEMORY, NOT_ELECTED, ignored_number};
use pim_candidate::{Candidacy, CandidacyHeard};
use pim_types::{Fault, Ignored};
use std::alloc::Global;
use std::mem::replace;

/// A handle that C keeps: a candidacy or none. A handle that is all zeros has none.
#[repr(C)]
pub struct CandidacyHandle {
    pub place: CandidacyPlace,
    is_there: bool,
    ghost written: { is_there ≡ is_some place.inside },
}

impl CandidacyHandle {
    /// The candidacy, taken out.
    pub fn take(&mut self, alloc: Global) -> Option<Box<Candidacy>>
        ensures left { self.new.place.inside ≡ None }
        ensures taken { MatchOption result (self.old.place.inside ≡ None) (λ candidacy. self.old.place.inside ≡ Some candidacy.value) }
    {
        if !self.is_there {
            return None;
        }
        self.is_there = false;
        Some(replace(&mut self.place, CandidacyPlace::none(alloc)).take())
    }

    /// Puts a candidacy in. A candidacy that was there is leaked.
    pub fn put(&mut self, candidacy: Box<Candidacy>)
        ensures { self.new.place.inside ≡ Some candidacy.value }
    {
        self.place = CandidacyPlace::put(candidacy);
        self.is_there = true;
    }

    /// Puts a candidacy in, in place of the one in the handle, which is freed. The result is the number of the answer:
    /// done, or want of memory.
    pub fn renew(&mut self, alloc: Global, made: Candidacy) -> u32
        ensures { ((result ≡ 0) × (self.new.place.inside ≡ Some made))
            ⊎ ((result ≡ 40) × (self.new.place.inside ≡ self.old.place.inside)) }
    {
        let Ok(held) = Box::new(alloc, made) else {
            return MEMORY;
        };
        let _ended = self.take(alloc);
        self.put(held);
        DONE
    }
}

/// The number of what became of a packet.
pub fn candidacy_number(heard: CandidacyHeard) -> u32
    ensures { result ≡ candidacy_heard_number heard }
{
    match heard {
        CandidacyHeard::Other => ignored_number(Ignored::OtherType),
        CandidacyHeard::Refused(refusal) => u32::from(refusal.number()),
        CandidacyHeard::Ignored(why) => why_number(why),
        CandidacyHeard::NotElected => NOT_ELECTED,
        CandidacyHeard::Taken(_) => DONE,
        CandidacyHeard::PassedOn => DONE,
        CandidacyHeard::Answered(_) => DONE,
        CandidacyHeard::Advertised => DONE,
    }
}

/// Whether the router is to be given other RPs for a packet.
pub fn moves_rps(heard: CandidacyHeard) -> bool
    ensures { result ≡ moves_rps heard }
{
    match heard {
        CandidacyHeard::Taken(moved) => moved,
        CandidacyHeard::Answered(moved) => moved,
        CandidacyHeard::Other => false,
        CandidacyHeard::Refused(_) => false,
        CandidacyHeard::Ignored(_) => false,
        CandidacyHeard::NotElected => false,
        CandidacyHeard::PassedOn => false,
        CandidacyHeard::Advertised => false,
    }
}

/// The number of what became of a packet to one of the router's addresses, or of why it wasn't heard.
pub fn told_number(answer: Result<CandidacyHeard, Fault>) -> u32
    ensures { result ≡ told_number answer }
{
    match answer {
        Ok(heard) => candidacy_number(heard),
        Err(fault) => u32::from(fault.number()),
    }
}
