//! Numbers, addresses and prefixes as a scenario writes them.
ghost use Rattle.std.specs.Net.Grammar.{Parses};
ghost use Rattle.pim_scenario.specs.Texts.{IsNumberText, IsAddressText, IsPrefixText};

use super::Wrong;
use pim_types::{Addr, Prefix};
use std::net::Ipv4Addr;

/// A number below 2^32 in decimal digits, without a sign.
pub(super) fn read_number(text: &str) -> Result<u32, Wrong>
    ensures { Parses IsNumberText text.now result }
{
    if text.starts_with('+') {
        return Err(Wrong);
    }
    text.parse::<u32>().map_err(|_| Wrong)
}

/// An address: four numbers with dots between them, none above 255, without leading zeros.
pub(super) fn read_address(text: &str) -> Result<Addr, Wrong>
    ensures { Parses IsAddressText text.now result }
{
    match text.parse::<Ipv4Addr>() {
        Ok(address) => Ok(Addr::from(address.octets())),
        Err(_) => Err(Wrong),
    }
}

/// A prefix: an address, a slash and the length, which may be any number below 2^32.
pub(super) fn read_prefix(text: &str) -> Result<Prefix, Wrong>
    ensures { Parses IsPrefixText text.now result }
{
    let (address, length) = text.split_once('/').ok_or(Wrong)?;
    Ok(Prefix {
        address: read_address(address)?,
        length: read_number(length)?,
    })
}
