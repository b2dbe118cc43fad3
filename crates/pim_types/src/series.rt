//! Lists, borrowed and owned, that clauses see as their items.
ghost use Rattle.std.specs.Prelude.{◌≡◌, ◌↔◌, [], ◌∷◌, ◌++◌, OnOk, OnErr, IsTrue, length};

use std::alloc::{AllocError, Global};
use std::marker::Model;

/// Borrowed values, which a clause sees as a list.
#[derive(Drop)]
pub struct Lent<'a, T> {
    items: &'a [T],
}

impl<'a, T> Model for Lent<'a, T> {
    ghost use Rattle.std.specs.Prelude.{List};

    ghost Value = { List T };

    ghost view = { λ a. a.items.now };
}

impl<'a, T> Lent<'a, T> {
    /// The given values.
    pub fn of(items: &'a [T]) -> Self
        ensures { result ≡ items.now }
    {
        Lent { items }
    }

    /// The values, to be read.
    pub fn as_slice(&self) -> &'a [T]
        ensures { result.now ≡ self.now }
    {
        self.items
    }
}

/// Owned values in order, which a clause sees as a list.
pub struct Series<T> {
    items: Vec<T>,
}

// Written out, so that it is proved once (docs/PROOF_NOTES.md, Drops).
impl<T: Drop> Drop for Series<T> {
    fn drop(self) {
        let Series { items: _ } = self;
    }
}

impl<T> Model for Series<T> {
    ghost use Rattle.std.specs.Prelude.{List};

    ghost Value = { List T };

    ghost view = { λ a. a.items.items };
}

impl<T: Drop> Series<T> {
    /// The empty series. It takes no memory until something is put in.
    pub fn new(alloc: Global) -> Self
        ensures { result ≡ [] }
    {
        Series {
            items: Vec::new(alloc),
        }
    }

    /// The values of a vector, in the same order.
    pub fn from_vec(items: Vec<T>) -> Self
        ensures { result ≡ items.items }
    {
        Series { items }
    }

    /// The values, to be read.
    pub fn as_slice(&self) -> &[T]
        ensures { result.now ≡ self.now }
    {
        self.items.as_slice()
    }

    /// How many values there are.
    pub fn len(&self) -> usize
        ensures { result ≡ length self.now }
    {
        self.items.len()
    }

    /// Whether there is no value.
    pub fn is_empty(&self) -> bool
        ensures { IsTrue result ↔ (self.now ≡ []) }
    {
        self.items.is_empty()
    }

    /// Puts a value at the end. The error is want of memory, and then the series is unchanged.
    pub fn push(&mut self, item: T) -> Result<(), AllocError>
        ensures ok { OnOk result (self.new ≡ self.old ++ item ∷ []) }
        ensures err { OnErr result (self.new ≡ self.old) }
    {
        self.items.push(item)?;
        Ok(())
    }

    /// The values as a vector.
    pub fn into_vec(self) -> Vec<T>
        ensures { result.items ≡ self }
    {
        let Series { items } = self;
        items
    }
}
