//! What the front asks of the router behind it.
ghost use Rattle.std.specs.Prelude.{◌≡◌, ℕ, Bool, IfOk, List, option_map};
ghost use Rattle.pim_anycast.specs.Announced.{keys_named};
ghost use Rattle.pim_model.specs.State.{Addressing, is_own_among};
ghost use Rattle.pim_model.specs.Unicast.{rp_among};
ghost use Rattle.pim_types.specs.declared.config.RpTable.{RpTable};
ghost use Rattle.pim_types.specs.declared.fact.Key.{Key};

use pim_types::{Addr, SourceGroup};
use std::alloc::{AllocError, Global};

/// The addresses of a router, by which sets are accepted.
pub trait OwnAddresses {
    /// What is configured of the router's addresses.
    ghost configured: { Self → Addressing };

    /// Whether an address is one of the router's.
    fn is_own(&self, address: Addr) -> bool
        ensures { result ≡ is_own_among (configured self.now) address.bits };
}

/// The router behind the front.
pub trait Rendezvous {
    /// The router's present timestamp, in ms.
    ghost present: { Self → ℕ };

    /// The router's RP ranges.
    ghost ranges: { Self → RpTable };

    /// Whether a source of a group is local: it is on a link of which the router is the DR, and its keepalive timer runs.
    ghost is_local: { Self → ℕ → ℕ → Bool };

    /// The keys of the local sources.
    ghost local_keys: { Self → List Key };

    /// The router's present timestamp, in ms.
    fn present_moment(&self) -> u64
        ensures { result ≡ present self.now };

    /// The RP of a group.
    fn rp(&self, group: Addr) -> Option<Addr>
        ensures { option_map (λ rp. rp.bits) result ≡ rp_among (ranges self.now) group.bits };

    /// Whether a source is local.
    fn is_local(&self, name: SourceGroup) -> bool
        ensures { result ≡ is_local self.now name.group.bits name.source.bits };

    /// The local sources, in the order of their keys. An `Err` is want of memory.
    fn local_sources(&self, alloc: Global) -> Result<Vec<SourceGroup>, AllocError>
        ensures { IfOk result (λ names. keys_named names.items ≡ local_keys self.now) };
}
