//! A candidacy by its pointer, or nothing: the content of a handle that C keeps. The functions that use the
//! pointer are proved by hand.
ghost use Rattle.std.specs.Prelude.{◌≡◌, Option, IsSome, None, Some};
ghost use Rattle.pim_candidate.specs.Candidacy.{Candidacy as Shown};

use crate::pointed::Pointed;
use pim_candidate::Candidacy;
use std::alloc::Global;
use std::marker::Model;
use std::ptr::null_mut;

/// A candidacy by its pointer, or nothing. It has no type parameter, since C can't be given a type that has one.
// Only `take` frees the candidacy of a place: a place that is dropped with a candidacy in it leaks the candidacy.
#[repr(C)]
#[derive(Drop)]
pub struct CandidacyPlace {
    at: *mut u8,
    alloc: Global,
    pub ghost inside: { Option Shown },
}

impl Model for CandidacyPlace {
    ghost use Rattle.pim_c.specs.Kept.{kept};
    ghost use Rattle.pim_candidate.specs.contracts.candidacy.Candidacy.{the_row as candidacy};
    ghost use Rattle.std.specs.contracts.impls.GlobalAllocator.TheImpl.{ghosts};
    ghost use Rattle.std_alloc.specs.Box.Ownership.{box_owns};

    ghost also_owns = { λ p. kept (λ k. box_owns (ghosts.dealloc_token p.alloc) candidacy p.at k) p.inside };
}

impl CandidacyPlace {
    /// Nothing.
    pub fn none(alloc: Global) -> CandidacyPlace
        ensures { result.inside ≡ None }
    {
        CandidacyPlace {
            at: null_mut(),
            alloc,
        }
    }

    fn of(pointed: Pointed<Candidacy, Global>) -> CandidacyPlace
        ensures { result.inside ≡ Some pointed.value }
    {
        let Pointed { at, alloc } = pointed;
        CandidacyPlace {
            at: at as *mut u8,
            alloc,
        }
    }

    fn into_pointed(self) -> Pointed<Candidacy, Global>
        requires { IsSome self.inside }
        ensures { self.inside ≡ Some result.value }
    {
        let CandidacyPlace { at, alloc } = self;
        Pointed {
            at: at as *mut Candidacy,
            alloc,
        }
    }

    /// The place that holds the candidacy of the box.
    pub fn put(candidacy: Box<Candidacy>) -> CandidacyPlace
        ensures { result.inside ≡ Some candidacy.value }
    {
        CandidacyPlace::of(Pointed::of(candidacy))
    }

    /// The box of the candidacy.
    pub fn take(self) -> Box<Candidacy>
        requires { IsSome self.inside }
        ensures { self.inside ≡ Some result.value }
    {
        self.into_pointed().into_box()
    }
}
