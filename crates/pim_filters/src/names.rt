//! The addresses that a message names, ascending.
ghost use Rattle.std.specs.Prelude.{◌≡◌, IfOk};
ghost use Rattle.pim_filters.specs.Members.{bits_of};
ghost use Rattle.pim_model.specs.Tables.{ascending};

use pim_ip::Addr;
use smallvec::SmallVec;
use std::alloc::{AllocError, Global};

/// The addresses that a message names, as numbers; a few of them need no allocation.
pub(crate) type Names = SmallVec<u32, 8>;

/// The bits of the addresses, in their order.
fn bits_of(alloc: Global, addresses: &[Addr]) -> Result<Names, AllocError>
    ensures { IfOk result (λ bits. bits.items ≡ bits_of addresses.now) }
{
    let mut bits = SmallVec::with_capacity(alloc, addresses.len())?;
    for address in addresses {
        bits.push(address.bits)?;
    }
    Ok(bits)
}

/// The bits of the addresses, ascending and each once.
pub(crate) fn ascending(alloc: Global, addresses: &[Addr]) -> Result<Names, AllocError>
    ensures { IfOk result (λ names. names.items ≡ ascending (bits_of addresses.now)) }
{
    let mut names = bits_of(alloc, addresses)?;
    names.as_mut_slice().sort_unstable();
    names.dedup();
    Ok(names)
}
