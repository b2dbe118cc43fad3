//! Sets of interfaces: those that pass a test, and the configured ones of a set.
ghost use Rattle.std.specs.Prelude.{◌≡◌, ◌<◌, ◌≤◌, map, ℕ, Bool};
ghost use Rattle.pim_macros.specs.Sights.{is_interface_of};
ghost use Rattle.pim_model.specs.Sets.{members};
ghost use Rattle.pim_model.specs.State.{State, iface_count};
ghost use Rattle.pim_types.specs.declared.config.IfaceId.{IfaceId as IfaceValue};
ghost use Rattle.pim_state.specs.Shown.{Shows};

use pim_ifset::{IfSet, Iter};
use pim_types::{IfaceId, Path};

/// The interfaces below 120 that pass the test; each is tested once.
pub(crate) fn interfaces_where<F: Fn(IfaceId) -> bool>(test: F) -> IfSet
    requires { F.IsAlwaysCallable test }
    ensures { (p : ℕ → Bool)
        → ((i : ℕ) (b : Bool) → i < 120 → F.post test (record { number = i }) b → b ≡ p i) → Shows result p }
{
    let mut set = IfSet::new();
    for number in 0..IfSet::LIMIT {
        let iface = IfaceId { number };
        if test(iface) {
            set.insert(iface);
        }
    }
    set
}

/// The interface of a route, or none.
pub(crate) fn interface_of(path: Option<Path>) -> IfSet
    ensures { Shows result (is_interface_of path) }
{
    let mut set = IfSet::new();
    if let Some(path) = path {
        if path.iface.number < IfSet::LIMIT {
            set.insert(path.iface);
        }
    }
    set
}

/// Whether a route is over the interface.
pub fn is_over(path: Option<Path>, iface: IfaceId) -> bool
    ensures { result ≡ is_interface_of path iface.number }
{
    path.is_some_and(|path| path.iface == iface)
}

/// The configured interfaces in the set, in ascending order, where `count` are configured: at most 120.
pub fn members(set: IfSet, count: u32) -> Iter
    requires { count ≤ 120 }
    ensures { (s : State) (test : ℕ → Bool) → count ≡ iface_count s → Shows set test
        → map (λ (iface : IfaceValue). iface.number) result ≡ members s test }
{
    let configured = IfSet::below(count);
    set.intersection(configured).iter()
}
