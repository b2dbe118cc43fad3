//! Where two lists of routes differ: an address outside of the routes that stand between a common beginning and a common end
//! is routed alike by both.
ghost use Rattle.pim_ip.specs.Prefixes.{contains};
ghost use Rattle.std.specs.List.{list_any};
ghost use Rattle.std.specs.Prelude.{◌≡◌, ◌≤◌, ◌-◌, ◌↔◌, IsTrue, drop, length, take};
ghost use Rattle.pim_rerouted.specs.Between.{Carries, LeavesBoth};

use pim_mrib::Mrib;
use pim_types::{Addr, Route};

// The most routes to which an address is compared.
const MOST_COMPARED: usize = 16;

/// The next table of routes, and what its list and the present one have between a common beginning and a common end.
#[derive(Drop)]
pub(crate) struct NextRoutes<'a> {
    pub(crate) table: &'a Mrib,
    before: &'a [Route],
    after: &'a [Route],
}

// Whether they are the same route.
fn is_same_route(first: &Route, second: &Route) -> bool
    ensures { IsTrue result ↔ (first.now ≡ second.now) }
{
    first.prefix.address == second.prefix.address
        && first.prefix.length == second.prefix.length
        && first.next_hop == second.next_hop
        && first.iface == second.iface
        && first.preference == second.preference
        && first.metric == second.metric
}

// With how many routes both lists begin.
fn same_heads(first: &[Route], second: &[Route]) -> usize
    ensures within { (result ≤ length first.now) × (result ≤ length second.now) }
    ensures same { take result first.now ≡ take result second.now }
{
    let most = first.len().min(second.len());
    for index in 0..most {
        if !is_same_route(&first[index], &second[index]) {
            return index;
        }
    }
    most
}

// With how many routes both lists end.
fn same_tails(first: &[Route], second: &[Route]) -> usize
    ensures within { (result ≤ length first.now) × (result ≤ length second.now) }
    ensures same { drop (length first.now - result) first.now ≡ drop (length second.now - result) second.now }
{
    let most = first.len().min(second.len());
    for count in 0..most {
        if !is_same_route(
            &first[first.len() - 1 - count],
            &second[second.len() - 1 - count],
        ) {
            return count;
        }
    }
    most
}

// What stands in both lists between the routes with which both begin and those with which both end.
fn between<'a>(first: &'a [Route], second: &'a [Route]) -> (&'a [Route], &'a [Route])
    ensures { Carries result.0.now result.1.now first.now second.now }
{
    let heads = same_heads(first, second);
    let (first, second) = (&first[heads..], &second[heads..]);
    let tails = same_tails(first, second);
    (
        &first[..first.len() - tails],
        &second[..second.len() - tails],
    )
}

// Whether a route of the list contains the address.
fn has(routes: &[Route], address: Addr) -> bool
    ensures { result ≡ list_any (λ route. contains route.prefix address.bits) routes.now }
{
    routes.iter().any(|route| route.prefix.contains(address))
}

impl<'a> NextRoutes<'a> {
    /// The routes of the table, which take the place of these.
    pub(crate) fn of(present: &'a [Route], table: &'a Mrib) -> NextRoutes<'a>
        ensures table { result.table.now ≡ table.now }
        ensures carries { Carries result.before.now result.after.now present.now table.now.routes }
    {
        let (before, after) = between(present, table.routes());
        NextRoutes {
            table,
            before,
            after,
        }
    }

    /// Whether no route that differs contains the address. Where many routes differ this isn't told.
    #[tactic(auto, using(crate::proofs::Between::left_by_both))]
    pub(crate) fn leave(&self, address: Addr) -> bool
        ensures { IsTrue result → LeavesBoth self.now.before.now self.now.after.now address.bits }
    {
        self.before.len().saturating_add(self.after.len()) <= MOST_COMPARED
            && !has(self.before, address)
            && !has(self.after, address)
    }
}
