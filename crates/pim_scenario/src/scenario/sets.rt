//! Sets of RPs that share an address: the texts of the list `anycast`.
ghost use Rattle.std.specs.Prelude.{map};
ghost use Rattle.std.specs.List.{AllZip};
ghost use Rattle.toml.specs.View.{view};
ghost use Rattle.pim_scenario.specs.Scenario.{AreSetWords, IsText};
ghost use Rattle.pim_scenario.specs.Texts.{IsAddressText, ReadsExactly};

use super::{Unread, address, field, words};
use pim_anycast::RpSet;
use pim_types::{Addr, Series};
use std::alloc::Global;
use toml::Value;

/// The sets that texts write.
pub(super) fn sets_in(alloc: Global, texts: &[Value]) -> Result<Series<RpSet>, Unread>
    ensures { ReadsExactly (AllZip (IsText AreSetWords) (map view texts.now)) result }
{
    let mut sets = Series::new(alloc);
    for text in texts {
        let words = words::split(alloc, field::text_of(text)?)?;
        sets.push(read_set(alloc, words.as_slice())?)?;
    }
    Ok(sets)
}

/// A set: `shared own other ..`.
fn read_set(alloc: Global, words: &[&str]) -> Result<RpSet, Unread>
    ensures { ReadsExactly (AreSetWords (map (λ w. w.now) words.now)) result }
{
    let [shared, own, others @ ..] = words else {
        return Err(Unread::Wrong);
    };
    Ok(RpSet {
        shared: address::read_address(shared)?,
        own: address::read_address(own)?,
        others: read_addresses(alloc, others)?,
    })
}

/// The addresses that words write.
fn read_addresses(alloc: Global, words: &[&str]) -> Result<Series<Addr>, Unread>
    ensures { ReadsExactly (AllZip IsAddressText (map (λ w. w.now) words.now)) result }
{
    let mut addresses = Series::new(alloc);
    for word in words {
        addresses.push(address::read_address(word)?)?;
    }
    Ok(addresses)
}
