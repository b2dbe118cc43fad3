//! As what a router stands in an election of RFC 5059: the tables at `candidate_bsr` and `candidate_rp`.
ghost use Rattle.std.specs.Prelude.{◌≡◌, codes, map};
ghost use Rattle.std.specs.List.{AllZip, list_any};
ghost use Rattle.std.specs.Net.Grammar.{Parses};
ghost use Rattle.std.specs.Result.{result_ok};
ghost use Rattle.toml.specs.View.{view, table_view};
ghost use Rattle.pim_scenario.specs.Fields.{optional_table};
ghost use Rattle.pim_scenario.specs.Standing.{AreRanges, IsBsr, IsOwnAddress, IsRp, IsStanding, IsRangeText, IsThatOf, WritesRange, has_address, is_range, owns, writes};
ghost use Rattle.pim_scenario.specs.Texts.{ReadsExactly};

use super::{BsrText, RpText, StandingText, Unread, Wrong, address, field, router};
use pim_types::{Addr, Prefix, Series};
use std::alloc::Global;
use toml::{Table, Value};

/// The most ranges of a candidate RP: so many are said in a packet of 1,500 bytes.
const MOST_RANGES: usize = 183;

/// As what the router of a table stands.
pub(super) fn standing_in(alloc: Global, table: &Table) -> Result<StandingText, Unread>
    ensures { ReadsExactly (IsStanding (table_view table.now)) result }
{
    Ok(StandingText {
        bsr: optional_bsr(table)?,
        rp: optional_rp(alloc, table)?,
    })
}

fn optional_bsr(router: &Table) -> Result<Option<BsrText>, Unread>
    ensures { ReadsExactly (IsThatOf (IsBsr (table_view router.now)) (optional_table (codes "candidate_bsr") (table_view router.now))) result }
{
    match field::optional_table(router, "candidate_bsr")? {
        Some(table) => Ok(Some(bsr_in(router, table)?)),
        None => Ok(None),
    }
}

fn optional_rp(alloc: Global, router: &Table) -> Result<Option<RpText>, Unread>
    ensures { ReadsExactly (IsThatOf (IsRp (table_view router.now)) (optional_table (codes "candidate_rp") (table_view router.now))) result }
{
    match field::optional_table(router, "candidate_rp")? {
        Some(table) => Ok(Some(rp_in(alloc, router, table)?)),
        None => Ok(None),
    }
}

/// The candidate BSR of a table of the router's.
fn bsr_in(router: &Table, table: &Table) -> Result<BsrText, Unread>
    ensures { ReadsExactly (IsBsr (table_view router.now) (table_view table.now)) result }
{
    field::only(table, &["address", "priority", "hash_length", "limit"])?;
    Ok(BsrText {
        address: own_address_in(router, table)?,
        priority: field::number_between(table, "priority", 0, 255, 64)?,
        hash_length: field::number_between(table, "hash_length", 0, 32, 30)?,
        limit: field::number_between(table, "limit", 1, 255, 255)?,
    })
}

/// The candidate RP of a table of the router's.
fn rp_in(alloc: Global, router: &Table, table: &Table) -> Result<RpText, Unread>
    ensures { ReadsExactly (IsRp (table_view router.now) (table_view table.now)) result }
{
    field::only(table, &["address", "priority", "ranges"])?;
    Ok(RpText {
        address: own_address_in(router, table)?,
        priority: field::number_between(table, "priority", 0, 255, 192)?,
        ranges: ranges_in(alloc, field::list(table, "ranges")?)?,
    })
}

/// The ranges of groups that texts write, from 1 to 183.
fn ranges_in(alloc: Global, texts: &[Value]) -> Result<Series<Prefix>, Unread>
    ensures { ReadsExactly (AreRanges (map view texts.now)) result }
{
    if texts.is_empty() || texts.len() > MOST_RANGES {
        return Err(Unread::Wrong);
    }
    each_range_in(alloc, texts)
}

/// The ranges of groups that texts write.
fn each_range_in(alloc: Global, texts: &[Value]) -> Result<Series<Prefix>, Unread>
    ensures { ReadsExactly (AllZip WritesRange (map view texts.now)) result }
{
    let mut ranges = Series::new(alloc);
    for text in texts {
        ranges.push(read_range(field::text_of(text)?)?)?;
    }
    Ok(ranges)
}

/// A prefix of groups.
fn read_range(text: &str) -> Result<Prefix, Wrong>
    ensures { Parses IsRangeText text.now result }
{
    let range = address::read_prefix(text)?;
    if !is_range(range) {
        return Err(Wrong);
    }
    Ok(range)
}

/// Whether a prefix is of groups, with a mask as an advertisement has it.
fn is_range(prefix: Prefix) -> bool
    ensures { result ≡ is_range prefix }
{
    prefix.address.is_multicast() && (prefix.length >= 4 && prefix.length <= 32)
}

/// The address of a candidate, one of the router's own, where the router hears Bootstraps.
fn own_address_in(router: &Table, table: &Table) -> Result<Addr, Unread>
    ensures { ReadsExactly (IsOwnAddress (table_view router.now) (table_view table.now)) result }
{
    let text = field::text(table, "address")?;
    if !router::bsr_in(router)? || !owns(router, text)? {
        return Err(Unread::Wrong);
    }
    Ok(address::read_address(text)?)
}

/// Whether a text writes one of a router's own addresses.
fn owns(router: &Table, text: &str) -> Result<bool, Wrong>
    ensures { result_ok result ≡ owns (table_view router.now) text.now }
{
    let interfaces = field::list(router, "iface")?;
    let addresses = field::list_or_empty(router, "addresses")?;
    Ok(is_on_interface(interfaces, text) || is_listed(addresses, text))
}

/// Whether a text writes the address of one of these interfaces.
fn is_on_interface(interfaces: &[Value], text: &str) -> bool
    ensures { result ≡ list_any (has_address text.now) (map view interfaces.now) }
{
    for interface in interfaces {
        if has_address(interface, text) {
            return true;
        }
    }
    false
}

/// Whether a text writes the address of an interface.
fn has_address(interface: &Value, text: &str) -> bool
    ensures { result ≡ has_address text.now (view interface.now) }
{
    let Ok(table) = field::table_of(interface) else {
        return false;
    };
    let Ok(subnet) = field::text(table, "address") else {
        return false;
    };
    match subnet.split_once('/') {
        Some((address, _)) => address == text,
        None => false,
    }
}

/// Whether a text is one of these.
fn is_listed(addresses: &[Value], text: &str) -> bool
    ensures { result ≡ list_any (writes text.now) (map view addresses.now) }
{
    for address in addresses {
        if writes(address, text) {
            return true;
        }
    }
    false
}

/// Whether a value is a text.
fn writes(value: &Value, text: &str) -> bool
    ensures { result ≡ writes text.now (view value.now) }
{
    match field::text_of(value) {
        Ok(written) => written == text,
        Err(_) => false,
    }
}
