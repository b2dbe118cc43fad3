//! Sets of interfaces as they are told.
ghost use Rattle.pim_ifset.specs.Members.{set_of};
ghost use Rattle.pim_state.specs.Shown.{Shows};
ghost use Rattle.std.specs.Prelude.{◌≡◌, ℕ, Bool};

use pim_ifset::IfSet;

/// The interfaces of the set, with the register tunnel or without it.
pub(crate) fn told(set: IfSet, tunnel: bool) -> IfSet
    ensures { (test : ℕ → Bool) → Shows set test → result ≡ set_of test tunnel }
{
    let mut whole = set.without_tunnel();
    whole.set_tunnel(tunnel);
    whole
}
