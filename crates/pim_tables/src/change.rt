//! Changes of a row that exists.
ghost use Rattle.std.specs.Prelude.{◌≡◌};

/// What becomes of a row that exists.
pub trait Change<R>: Copy {
    /// The row after the change, by the one before.
    ghost after: { Self → R → R };

    /// The row after the change, by the one before.
    fn after(self, before: R) -> R
        ensures { result ≡ after self before };
}

/// The change that replaces a row, whatever it was.
#[derive(Clone, Copy)]
pub struct To<R> {
    /// The row.
    pub row: R,
}

impl<R: Copy> Change<R> for To<R> {
    ghost after = { λ to before. to.row };

    fn after(self, _before: R) -> R {
        self.row
    }
}
