//! The walk over the interfaces of a set.
use pim_types::IfaceId;
use std::marker::Model;

/// The interfaces of a set that are still to come, ascending.
#[derive(Drop)]
pub struct Iter {
    mask: u128,
}

impl Model for Iter {
    ghost use Rattle.std.specs.Prelude.{◌<◌, ◌^◌, List, false};
    ghost use Rattle.pim_types.specs.declared.config.IfaceId.{IfaceId};
    ghost use Rattle.pim_ifset.specs.Members.{interfaces};

    ghost Value = { List IfaceId };

    ghost view = { λ a. interfaces (record { mask = a.mask; tunnel = false }) };

    ghost invariant = { λ a. a.mask < 2 ^ 120 };
}

impl Iter {
    ghost use Rattle.std.specs.Prelude.{◌≡◌, ◌<◌, ◌^◌, false};
    ghost use Rattle.pim_ifset.specs.Members.{interfaces};

    /// The interfaces whose bits are set.
    pub(crate) fn over(mask: u128) -> Iter
        requires { mask < 2 ^ 120 }
        ensures { result ≡ interfaces (record { mask = mask; tunnel = false }) }
    {
        Iter { mask }
    }
}

impl Iterator for Iter {
    ghost use Rattle.std.specs.Iterator.{YieldsFirst, item_count};

    type Item = IfaceId;

    ghost next_gives = { YieldsFirst (λ s. s) };

    ghost remaining = { item_count (λ s. s) };

    fn next(&mut self) -> Option<IfaceId> {
        if self.mask == 0 {
            return None;
        }
        let number = self.mask.trailing_zeros();
        self.mask &= !(1 << number);
        Some(IfaceId { number })
    }
}
