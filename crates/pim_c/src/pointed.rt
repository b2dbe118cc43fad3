//! A box as its pointer, for code that isn't Rattle to keep. The two calls that make and consume a raw pointer are
//! proved by hand.
ghost use Rattle.std.specs.Prelude.{◌≡◌};

use std::alloc::Allocator;
use std::marker::Model;

/// The parts of a box: its pointer and its allocator.
pub struct Pointed<T, A: Allocator> {
    pub at: *mut T,
    pub alloc: A,
    pub ghost value: { T },
}

impl<T, A: Allocator> Model for Pointed<T, A> {
    ghost use Rattle.std_alloc.specs.Box.Ownership.{box_owns};

    ghost also_owns = { λ p. box_owns (A.dealloc_token p.alloc) T.row p.at p.value };
}

impl<T: Drop, A: Allocator> Pointed<T, A> {
    /// The box's pointer, with what it points to.
    pub fn of(held: Box<T, A>) -> Self
        ensures { result.value ≡ held.value }
    {
        let (at, alloc) = Box::into_raw_with_allocator(held);
        Pointed { at, alloc }
    }

    /// The box of the pointer and the allocator.
    pub fn into_box(self) -> Box<T, A>
        ensures { result.value ≡ self.value }
    {
        let Pointed { at, alloc } = self;
        unsafe { Box::from_raw(alloc, at) }
    }
}
