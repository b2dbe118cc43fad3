//! A set of interfaces with one added or removed.
ghost use Rattle.std.specs.Prelude.{◌≡◌, ◌==◌, ◌&&◌, if◌then◌else◌, nat_lt, ℕ};
ghost use Rattle.pim_ifset.specs.Members.{has};

use pim_ifset::IfSet;
use pim_types::IfaceId;

/// The set with the interface in it, or without it. No interface from 120 on is in a set.
pub(crate) fn with_member(set: IfSet, iface: IfaceId, is_in: bool) -> IfSet
    ensures { (i : ℕ) → has result i ≡ (if iface.number == i then nat_lt i 120 && is_in else has set i) }
{
    let mut changed = set;
    if is_in && iface.number < IfSet::LIMIT {
        changed.insert(iface);
    } else {
        changed.remove(iface);
    }
    changed
}
