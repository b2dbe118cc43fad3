//! A set of interfaces and of the register tunnel, as one number: a bit for each interface, and the highest for the
//! tunnel.
ghost use Rattle.std.specs.Prelude.{◌≡◌, ◌↔◌, ◌+◌, ◌<◌, ◌≤◌, ◌==◌, ◌&&◌, ◌||◌, ℕ, Bool, true, false, not, length, nat_lt, IsTrue, if◌then◌else◌};
ghost use Rattle.std.specs.List.{list_all};

use crate::iter::Iter;
use pim_types::IfaceId;
use std::marker::Model;

/// A set of interfaces, by their numbers 0 to 119, and of the register tunnel.
#[derive(Clone, Copy, Default)]
pub struct IfSet {
    // The register tunnel is the highest bit.
    mask: u128,
}

// The bit of the register tunnel.
const TUNNEL: u128 = 1 << 127;

impl Model for IfSet {
    ghost use Rattle.pim_ifset.specs.Members.{Members};
    ghost use Rattle.pim_ifset.specs.Packed.{IsPacked, packed, unpacked};

    ghost Value = { Members };

    ghost view = { λ a. unpacked a.mask };

    ghost invariant = { λ a. IsPacked a.mask };

    ghost inverse = { λ s. record { mask = packed s } };

    ghost inverse_ok = { λ a held i. record { mask = held.0 i } };
}

impl IfSet {
    ghost use Rattle.pim_ifset.specs.Members.{has, interfaces};

    /// How many interfaces a set can have.
    pub const LIMIT: u32 = 120;

    /// The empty set.
    pub fn new() -> IfSet
        ensures interfaces { (q : ℕ) → has result q ≡ false }
        ensures tunnel { result.tunnel ≡ false }
    {
        IfSet::default()
    }

    /// The interfaces below a number.
    pub fn below(number: u32) -> IfSet
        requires { number ≤ 120 }
        ensures interfaces { (q : ℕ) → has result q ≡ nat_lt q number }
        ensures tunnel { result.tunnel ≡ false }
    {
        let mask = (1 << number) - 1;
        IfSet { mask }
    }

    /// Whether the interface is in the set; none above 119 is.
    pub fn contains(self, iface: IfaceId) -> bool
        ensures { result ≡ has self iface.number }
    {
        iface.number < IfSet::LIMIT && self.mask >> iface.number & 1 == 1
    }

    /// Puts the interface in.
    pub fn insert(&mut self, iface: IfaceId)
        requires { iface.number < 120 }
        ensures interfaces { (q : ℕ) → has self.new q ≡ (q == iface.number || has self.old q) }
        ensures tunnel { self.new.tunnel ≡ self.old.tunnel }
    {
        self.mask |= 1 << iface.number;
    }

    /// Takes the interface out, where it is in.
    pub fn remove(&mut self, iface: IfaceId)
        ensures interfaces { (q : ℕ) → has self.new q ≡ (has self.old q && not (q == iface.number)) }
        ensures tunnel { self.new.tunnel ≡ self.old.tunnel }
    {
        if iface.number < IfSet::LIMIT {
            self.mask &= !(1 << iface.number);
        }
    }

    /// The interfaces, and the tunnel, that are in either set.
    pub fn union(self, other: IfSet) -> IfSet
        ensures interfaces { (q : ℕ) → has result q ≡ (has self q || has other q) }
        ensures tunnel { result.tunnel ≡ (self.tunnel || other.tunnel) }
    {
        IfSet {
            mask: self.mask | other.mask,
        }
    }

    /// The interfaces, and the tunnel, that are in this set and not in the other.
    pub fn minus(self, other: IfSet) -> IfSet
        ensures interfaces { (q : ℕ) → has result q ≡ (has self q && not (has other q)) }
        ensures tunnel { result.tunnel ≡ (self.tunnel && not other.tunnel) }
    {
        IfSet {
            mask: self.mask & !other.mask,
        }
    }

    /// The interfaces, and the tunnel, that are in both sets.
    pub fn intersection(self, other: IfSet) -> IfSet
        ensures interfaces { (q : ℕ) → has result q ≡ (has self q && has other q) }
        ensures tunnel { result.tunnel ≡ (self.tunnel && other.tunnel) }
    {
        IfSet {
            mask: self.mask & other.mask,
        }
    }

    /// Whether there is nothing in the set, neither an interface nor the tunnel.
    pub fn is_empty(self) -> bool
        ensures { IsTrue result ↔ (((q : ℕ) → has self q ≡ false) × (self.tunnel ≡ false)) }
    {
        self.mask == 0
    }

    /// How many members the set has: its interfaces, and the tunnel where it is in.
    pub fn len(self) -> usize
        ensures { result ≡ length (interfaces self) + (if self.tunnel then 1 else 0) }
    {
        self.mask.count_ones() as usize
    }

    /// The interfaces in the set, ascending.
    pub fn iter(self) -> Iter
        ensures members { result ≡ interfaces self }
        ensures limit { length result ≤ 120 }
        ensures each { IsTrue (list_all (λ iface. nat_lt iface.number 120 && has self iface.number) result) }
    {
        Iter::over(self.mask & !TUNNEL)
    }

    /// Whether the register tunnel is in the set.
    pub fn has_tunnel(self) -> bool
        ensures { result ≡ self.tunnel }
    {
        self.mask & TUNNEL != 0
    }

    /// Puts the register tunnel in, or takes it out.
    pub fn set_tunnel(&mut self, tunnel: bool)
        ensures interfaces { (q : ℕ) → has self.new q ≡ has self.old q }
        ensures tunnel { self.new.tunnel ≡ tunnel }
    {
        if tunnel {
            self.mask |= TUNNEL;
        } else {
            self.mask &= !TUNNEL;
        }
    }

    /// The interfaces of the set, without the register tunnel.
    pub fn without_tunnel(self) -> IfSet
        ensures interfaces { (q : ℕ) → has result q ≡ has self q }
        ensures tunnel { result.tunnel ≡ false }

        // This holds of every set: its interfaces are below the limit.
        ensures limit { (q : ℕ) → has result q ≡ (nat_lt q 120 && has self q) }
    {
        IfSet {
            mask: self.mask & !TUNNEL,
        }
    }
}
