//! Two sights of one source, compared field by field. What is configured never changes, and isn't compared.
ghost use Rattle.std.specs.Prelude.{◌≡◌};
ghost use Rattle.pim_fanout.specs.Same.{same_asserts, same_beside, same_common, same_members, same_routes, same_sight, same_source, same_star, same_star_routes};
ghost use Rattle.pim_model.specs.Rows.{same_both, same_path, same_register_state};
ghost use Rattle.pim_model.specs.Tables.{same_address};

use crate::before::KnownSource;
use pim_ifset::IfSet;
use pim_macros::desires::is_same_hop;
use pim_macros::{SourceSight, StarSight};
use pim_types::fact::RegisterState;
use pim_types::{Addr, Path};

/// Whether both are the same address, or both none.
pub fn is_same_address(before: Option<Addr>, after: Option<Addr>) -> bool
    ensures { result ≡ same_address before after }
{
    match (before, after) {
        (None, None) => true,
        (Some(before), Some(after)) => before == after,
        _ => false,
    }
}

/// Whether both are the same route, or both none.
pub fn is_same_path(before: Option<Path>, after: Option<Path>) -> bool
    ensures { result ≡ same_both same_path before after }
{
    match (before, after) {
        (None, None) => true,
        (Some(before), Some(after)) => {
            before.iface == after.iface
                && before.next_hop == after.next_hop
                && before.preference == after.preference
                && before.metric == after.metric
                && before.is_connected == after.is_connected
        }
        _ => false,
    }
}

// Whether both are the same register state, or both none. When its timer expires isn't compared.
fn is_same_register(before: Option<RegisterState>, after: Option<RegisterState>) -> bool
    ensures { result ≡ same_both same_register_state before after }
{
    match (before, after) {
        (None, None)
        | (Some(RegisterState::Join), Some(RegisterState::Join))
        | (Some(RegisterState::JoinPending { .. }), Some(RegisterState::JoinPending { .. }))
        | (Some(RegisterState::Prune { .. }), Some(RegisterState::Prune { .. })) => true,
        _ => false,
    }
}

// Whether both have the same interfaces. The register tunnel isn't compared.
fn is_same_set(before: IfSet, after: IfSet) -> bool
    ensures { result ≡ same_members before after }
{
    let (before, after) = (before.without_tunnel(), after.without_tunnel());
    before.minus(after).union(after.minus(before)).is_empty()
}

// Whether both pairs of sets have the same interfaces in common.
fn has_same_common(before: IfSet, among: IfSet, after: IfSet, among_after: IfSet) -> bool
    ensures { result ≡ same_common before among after among_after }
{
    let common = before.intersection(among).without_tunnel();
    let common_after = after.intersection(among_after).without_tunnel();
    is_same_set(common, common_after)
}

// Whether RP(G), the route to it and the neighbours there are the same.
#[tactic(auto, unfolding(crate::specs::Same::same_star_routes))]
fn has_same_star_routes(before: &StarSight, after: &StarSight) -> bool
    ensures { result ≡ same_star_routes before.now after.now }
{
    is_same_address(before.rp, after.rp)
        && is_same_path(before.rp_path, after.rp_path)
        && is_same_hop(before.next_hop, after.next_hop)
        && is_same_hop(before.winner, after.winner)
}

// Whether the macros of (*,G) read the same. Whether the router is the DR they read where a receiver of (*,G) is.
#[tactic(auto, unfolding(crate::specs::Same::same_star))]
fn is_same_star(before: &StarSight, after: &StarSight) -> bool
    ensures { result ≡ same_star before.now after.now }
{
    has_same_star_routes(before, after)
        && is_same_set(before.joined, after.joined)
        && is_same_set(before.lost, after.lost)
        && is_same_set(before.won, after.won)
        && is_same_set(before.receivers, after.receivers)
        && has_same_common(before.dr, before.receivers, after.dr, after.receivers)
}

// Whether what is read of the group, the route to S and the neighbours on it are the same.
#[tactic(auto, unfolding(crate::specs::Same::same_routes))]
fn has_same_routes(before: &SourceSight, after: &SourceSight) -> bool
    ensures { result ≡ same_routes before.now after.now }
{
    is_same_star(&before.star, &after.star)
        && is_same_path(before.path, after.path)
        && is_same_hop(before.next_hop, after.next_hop)
        && is_same_hop(before.winner, after.winner)
        && is_same_hop(before.tree_winner, after.tree_winner)
}

// Whether the group's part, the routes, and the joins, prunes and asserts of S are the same.
#[tactic(auto, unfolding(crate::specs::Same::same_asserts))]
fn has_same_asserts(before: &SourceSight, after: &SourceSight) -> bool
    ensures { result ≡ same_asserts before.now after.now }
{
    has_same_routes(before, after)
        && is_same_set(before.joined, after.joined)
        && is_same_set(before.pruned, after.pruned)
        && is_same_set(before.lost, after.lost)
        && is_same_set(before.won, after.won)
}

// Whether the macros of (S,G) and of (S,G,rpt) read the same, but for KAT(S,G) and the register tunnel. Whether the router
// is the DR they read where a receiver of (*,G) or of S is.
#[tactic(auto, unfolding(crate::specs::Same::same_sight))]
fn is_same_sight(before: &SourceSight, after: &SourceSight) -> bool
    ensures { result ≡ same_sight before.now after.now }
{
    has_same_asserts(before, after)
        && is_same_set(before.beaten, after.beaten)
        && is_same_set(before.included, after.included)
        && is_same_set(before.excluded, after.excluded)
        && has_same_common(
            before.star.dr,
            before.included,
            after.star.dr,
            after.included,
        )
        && before.spt == after.spt
}

// Whether CouldRegister(S,G), without KAT(S,G) and with it, the register state and JoinDesired(S,G) are the same.
#[tactic(auto, unfolding(crate::specs::Same::same_beside))]
fn is_same_beside(before: &KnownSource, after: &KnownSource) -> bool
    ensures { result ≡ same_beside before.now after.now }
{
    before.may_register == after.may_register
        && before.could_register == after.could_register
        && is_same_register(before.register, after.register)
        && before.is_desired == after.is_desired
}

/// Whether all that is compared of a source is the same.
#[tactic(auto, unfolding(crate::specs::Same::same_source))]
pub(crate) fn is_same_source(before: &KnownSource, after: &KnownSource) -> bool
    ensures { result ≡ same_source before.now after.now }
{
    is_same_sight(&before.sight, &after.sight) && is_same_beside(before, after)
}
