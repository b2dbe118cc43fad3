//! A handle of a router, and what several calls do to it.
ghost use Rattle.pim_c.specs.Called.{Refused, Stepped, refused_number};
ghost use Rattle.pim_session.specs.Untaken.{has_untaken};
ghost use Rattle.std.specs.Prelude.{◌≡◌, ◌⊎◌, MatchOption, None, Some, is_some};

use crate::place::Place;
use crate::returned::{DONE, FAILED, MEMORY, NO_ROUTER, UNTAKEN, answer_number};
use pim_intake::LentEvent;
use pim_session::Session;
use std::alloc::Global;
use std::mem::replace;

/// A handle that C keeps: a router or none. A handle that is all zeros has none.
#[repr(C)]
pub struct Handle {
    pub place: Place,
    is_there: bool,
    ghost written: { is_there ≡ is_some place.inside },
}

impl Handle {
    /// The session, taken out.
    pub fn take(&mut self, alloc: Global) -> Option<Box<Session>>
        ensures left { self.new.place.inside ≡ None }
        ensures taken { MatchOption result (self.old.place.inside ≡ None) (λ session. self.old.place.inside ≡ Some session.value) }
    {
        if !self.is_there {
            return None;
        }
        self.is_there = false;
        Some(replace(&mut self.place, Place::none(alloc)).take())
    }

    /// Puts a session in. A session that was there is leaked.
    pub fn put(&mut self, session: Box<Session>)
        ensures { self.new.place.inside ≡ Some session.value }
    {
        self.place = Place::put(session);
        self.is_there = true;
    }

    /// Puts a session in, in place of the one in the handle, which is freed. The result is the number of the answer: done,
    /// or want of memory.
    pub fn renew(&mut self, alloc: Global, made: Session) -> u32
        ensures { ((result ≡ 0) × (self.new.place.inside ≡ Some made))
            ⊎ ((result ≡ 40) × (self.new.place.inside ≡ self.old.place.inside)) }
    {
        let Ok(held) = Box::new(alloc, made) else {
            return MEMORY;
        };
        let _ended = self.take(alloc);
        self.put(held);
        DONE
    }

    /// Has the router take an event. The result is the number of the answer.
    pub fn step(&mut self, alloc: Global, event: &LentEvent<'_>) -> u32
        ensures { Stepped self.old.place.inside event.now result self.new.place.inside }
    {
        let Some(mut session) = self.take(alloc) else {
            return NO_ROUTER;
        };
        let answer = answer_number(session.step(event));
        self.put(session);
        answer
    }

    /// Refuses what couldn't be copied for want of memory: nothing changes. The result is the number of the answer.
    pub fn refuse(&mut self, alloc: Global) -> u32
        ensures { Refused self.old.place.inside result self.new.place.inside }
    {
        let Some(session) = self.take(alloc) else {
            return NO_ROUTER;
        };
        let answer = refused_number(&session);
        self.put(session);
        answer
    }
}

// The number of an answer where an event couldn't be copied.
fn refused_number(session: &Session) -> u32
    ensures { result ≡ refused_number session.now.router.standing (has_untaken session.now) }
{
    if session.has_failed() {
        return FAILED;
    }
    if session.has_untaken() {
        UNTAKEN
    } else {
        MEMORY
    }
}
