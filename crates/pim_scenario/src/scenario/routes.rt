//! Own addresses, routes, RP ranges and candidate RPs: the texts of the lists `addresses`, `routes` and `rps`, and of
//! moves.
ghost use Rattle.std.specs.Prelude.{map};
ghost use Rattle.std.specs.List.{AllZip};
ghost use Rattle.toml.specs.View.{view};
ghost use Rattle.pim_scenario.specs.Scenario.{AreCandidateWords, AreRouteWords, AreRpWords, IsText, WritesAddress};
ghost use Rattle.pim_scenario.specs.Texts.{ReadsExactly};

use super::{Unread, address, field, words};
use pim_types::{Addr, IfaceId, Route, RpCandidate, RpRange, Series};
use std::alloc::Global;
use toml::Value;

/// The addresses that texts write.
pub(super) fn addresses_in(alloc: Global, texts: &[Value]) -> Result<Series<Addr>, Unread>
    ensures { ReadsExactly (AllZip WritesAddress (map view texts.now)) result }
{
    let mut addresses = Series::new(alloc);
    for text in texts {
        addresses.push(address::read_address(field::text_of(text)?)?)?;
    }
    Ok(addresses)
}

/// The routes that texts write.
pub(super) fn routes_in(alloc: Global, texts: &[Value]) -> Result<Series<Route>, Unread>
    ensures { ReadsExactly (AllZip (IsText AreRouteWords) (map view texts.now)) result }
{
    let mut routes = Series::new(alloc);
    for text in texts {
        let words = words::split(alloc, field::text_of(text)?)?;
        routes.push(read_route(words.as_slice())?)?;
    }
    Ok(routes)
}

/// The RP ranges that texts write.
pub(super) fn rps_in(alloc: Global, texts: &[Value]) -> Result<Series<RpRange>, Unread>
    ensures { ReadsExactly (AllZip (IsText AreRpWords) (map view texts.now)) result }
{
    let mut rps = Series::new(alloc);
    for text in texts {
        let words = words::split(alloc, field::text_of(text)?)?;
        rps.push(read_rp(words.as_slice())?)?;
    }
    Ok(rps)
}

/// The candidate RPs that texts write.
pub(super) fn candidates_in(alloc: Global, texts: &[Value]) -> Result<Series<RpCandidate>, Unread>
    ensures { ReadsExactly (AllZip (IsText AreCandidateWords) (map view texts.now)) result }
{
    let mut candidates = Series::new(alloc);
    for text in texts {
        let words = words::split(alloc, field::text_of(text)?)?;
        candidates.push(read_candidate(words.as_slice())?)?;
    }
    Ok(candidates)
}

/// A route: `prefix nexthop iface preference metric`.
fn read_route(words: &[&str]) -> Result<Route, Unread>
    ensures { ReadsExactly (AreRouteWords (map (λ w. w.now) words.now)) result }
{
    let [prefix, next_hop, iface, preference, metric] = words else {
        return Err(Unread::Wrong);
    };
    Ok(Route {
        prefix: address::read_prefix(prefix)?,
        next_hop: address::read_address(next_hop)?,
        iface: IfaceId {
            number: address::read_number(iface)?,
        },
        preference: address::read_number(preference)?,
        metric: address::read_number(metric)?,
    })
}

/// An RP range: `prefix rp`.
fn read_rp(words: &[&str]) -> Result<RpRange, Unread>
    ensures { ReadsExactly (AreRpWords (map (λ w. w.now) words.now)) result }
{
    let [prefix, rp] = words else {
        return Err(Unread::Wrong);
    };
    Ok(RpRange {
        prefix: address::read_prefix(prefix)?,
        rp: address::read_address(rp)?,
    })
}

/// A candidate RP: `prefix rp priority mask`.
fn read_candidate(words: &[&str]) -> Result<RpCandidate, Unread>
    ensures { ReadsExactly (AreCandidateWords (map (λ w. w.now) words.now)) result }
{
    let [prefix, rp, priority, mask] = words else {
        return Err(Unread::Wrong);
    };
    Ok(RpCandidate {
        prefix: address::read_prefix(prefix)?,
        rp: address::read_address(rp)?,
        priority: address::read_number(priority)?,
        hash_length: address::read_number(mask)?,
    })
}
