//! A session by its pointer, or nothing: the content of a handle that C keeps. The functions that use the pointer are
//! proved by hand.
ghost use Rattle.std.specs.Prelude.{◌≡◌, Option, IsSome, None, Some};
ghost use Rattle.pim_session.specs.Session.{ShownSession};

use crate::pointed::Pointed;
use pim_session::Session;
use std::alloc::Global;
use std::marker::Model;
use std::ptr::null_mut;

/// A session by its pointer, or nothing. It has no type parameter, since C can't be given a type that has one.
// Only `take` frees the session of a place: a place that is dropped with a session in it leaks the session.
#[repr(C)]
#[derive(Drop)]
pub struct Place {
    at: *mut u8,
    alloc: Global,
    pub ghost inside: { Option ShownSession },
}

impl Model for Place {
    ghost use Rattle.pim_c.specs.Kept.{kept};
    ghost use Rattle.pim_session.specs.contracts.session.Session.{the_row as session};
    ghost use Rattle.std.specs.contracts.impls.GlobalAllocator.TheImpl.{ghosts};
    ghost use Rattle.std_alloc.specs.Box.Ownership.{box_owns};

    ghost also_owns = { λ p. kept (λ s. box_owns (ghosts.dealloc_token p.alloc) session p.at s) p.inside };
}

impl Place {
    /// Nothing.
    pub fn none(alloc: Global) -> Place
        ensures { result.inside ≡ None }
    {
        Place {
            at: null_mut(),
            alloc,
        }
    }

    fn of(pointed: Pointed<Session, Global>) -> Place
        ensures { result.inside ≡ Some pointed.value }
    {
        let Pointed { at, alloc } = pointed;
        Place {
            at: at as *mut u8,
            alloc,
        }
    }

    fn into_pointed(self) -> Pointed<Session, Global>
        requires { IsSome self.inside }
        ensures { self.inside ≡ Some result.value }
    {
        let Place { at, alloc } = self;
        Pointed {
            at: at as *mut Session,
            alloc,
        }
    }

    /// The place that holds the session of the box.
    pub fn put(session: Box<Session>) -> Place
        ensures { result.inside ≡ Some session.value }
    {
        Place::of(Pointed::of(session))
    }

    /// The box of the session.
    pub fn take(self) -> Box<Session>
        requires { IsSome self.inside }
        ensures { self.inside ≡ Some result.value }
    {
        self.into_pointed().into_box()
    }
}
