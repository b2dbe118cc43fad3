//! A listener for Bootstraps by its pointer, or nothing: the content of a handle that C keeps. The functions that use the
//! pointer are proved by hand.
ghost use Rattle.std.specs.Prelude.{◌≡◌, Option, IsSome, None, Some};
ghost use Rattle.pim_bsr.specs.Table.{Known};

use crate::pointed::Pointed;
use pim_bsr::Listener;
use std::alloc::Global;
use std::marker::Model;
use std::ptr::null_mut;

/// A listener by its pointer, or nothing. It has no type parameter, since C can't be given a type that has one.
// Only `take` frees the listener of a place: a place that is dropped with a listener in it leaks the listener.
#[repr(C)]
#[derive(Drop)]
pub struct ListenerPlace {
    at: *mut u8,
    alloc: Global,
    pub ghost inside: { Option Known },
}

impl Model for ListenerPlace {
    ghost use Rattle.pim_c.specs.Kept.{kept};
    ghost use Rattle.pim_bsr.specs.contracts.listener.Listener.{the_row as listener};
    ghost use Rattle.std.specs.contracts.impls.GlobalAllocator.TheImpl.{ghosts};
    ghost use Rattle.std_alloc.specs.Box.Ownership.{box_owns};

    ghost also_owns = { λ p. kept (λ k. box_owns (ghosts.dealloc_token p.alloc) listener p.at k) p.inside };
}

impl ListenerPlace {
    /// Nothing.
    pub fn none(alloc: Global) -> ListenerPlace
        ensures { result.inside ≡ None }
    {
        ListenerPlace {
            at: null_mut(),
            alloc,
        }
    }

    fn of(pointed: Pointed<Listener, Global>) -> ListenerPlace
        ensures { result.inside ≡ Some pointed.value }
    {
        let Pointed { at, alloc } = pointed;
        ListenerPlace {
            at: at as *mut u8,
            alloc,
        }
    }

    fn into_pointed(self) -> Pointed<Listener, Global>
        requires { IsSome self.inside }
        ensures { self.inside ≡ Some result.value }
    {
        let ListenerPlace { at, alloc } = self;
        Pointed {
            at: at as *mut Listener,
            alloc,
        }
    }

    /// The place that holds the listener of the box.
    pub fn put(listener: Box<Listener>) -> ListenerPlace
        ensures { result.inside ≡ Some listener.value }
    {
        ListenerPlace::of(Pointed::of(listener))
    }

    /// The box of the listener.
    pub fn take(self) -> Box<Listener>
        requires { IsSome self.inside }
        ensures { self.inside ≡ Some result.value }
    {
        self.into_pointed().into_box()
    }
}
