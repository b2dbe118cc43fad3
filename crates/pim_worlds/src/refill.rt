//! Rows of a saved table, put one after the other where each can be held.
ghost use Rattle.std.specs.List.{list_all};
ghost use Rattle.std.specs.Prelude.{◌≡◌, ◌∷◌, [], Bool, IfOk, IsTrue};

use pim_state::Meter;
use pim_types::Key;
use std::alloc::AllocError;

/// A row that was saved, and that `T` holds under keys of its kind.
pub(crate) trait Refills<T>: Copy {
    ghost use Rattle.pim_model.specs.Tables.{Table};
    ghost use Rattle.pim_types.specs.declared.fact.Key.{Key};

    /// Whether the row can be held under the key.
    ghost fits: { Key × Self → Bool };

    /// What holds its table, with these rows put into it.
    ghost refill: { T → Table Self → T };

    /// With no rows it stays.
    ghost none: { (t : T) → refill t [] ≡ t };

    /// The rows are put one after the other.
    ghost next: { (t : T) (e : Key × Self) (rows : Table Self) → refill (refill t (e ∷ [])) rows ≡ refill t (e ∷ rows) };

    /// Puts the row; or answers no where it can't be held.
    fn put_if_fits(self, key: Key, into: &mut T, meter: &mut Meter) -> Result<bool, AllocError>
        ensures test { IfOk result (λ held. held ≡ fits (key, self)) }
        ensures put { IfOk result (λ held. IsTrue held → into.new ≡ refill into.old ((key, self) ∷ [])) };
}

/// Puts row after row; or answers no where one can't be held.
pub(crate) fn put_rows<T, R: Refills<T>>(
    into: &mut T,
    rows: &[(Key, R)],
    meter: &mut Meter,
) -> Result<bool, AllocError>
    ensures test { IfOk result (λ held. held ≡ list_all R.fits rows.now) }
    ensures put { IfOk result (λ held. IsTrue held → into.new ≡ R.refill into.old rows.now) }
{
    for row in rows {
        if !row.1.put_if_fits(row.0, into, meter)? {
            return Ok(false);
        }
    }
    Ok(true)
}
