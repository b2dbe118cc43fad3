//! Sights, gathered from the present state.
ghost use Rattle.std.specs.Option.{option_map_or};
ghost use Rattle.std.specs.Prelude.{◌≡◌, ℕ, false, option_map};
ghost use Rattle.pim_ifset.specs.Members.{has};
ghost use Rattle.pim_macros.specs.Sights.{IsSourceSight, IsStarSight};
ghost use Rattle.pim_model.specs.Desires.{winner_hop};
ghost use Rattle.pim_model.specs.Hellos.{upstream_of};
ghost use Rattle.pim_model.specs.Neighbours.{nbr};
ghost use Rattle.pim_model.specs.Receivers.{is_exclude, local_receiver_exclude, local_receiver_include};
ghost use Rattle.pim_model.specs.Registers.{is_dr_of_path};
ghost use Rattle.pim_model.specs.Sets.{is_beaten};
ghost use Rattle.pim_model.specs.State.{is_own};
ghost use Rattle.pim_model.specs.Tables.{has_row, row_at};
ghost use Rattle.pim_model.specs.Unicast.{route};
ghost use Rattle.pim_types.specs.Keys.{source_key};
ghost use Rattle.pim_types.specs.declared.path.Path.{Path as PathValue};
ghost use Rattle.pim_state.specs.Shown.{Shows};

use crate::asserts::{is_better, route_metric};
use crate::interfaces::interfaces_where;
use crate::sight::{SourceSight, StarSight};
use igmp_membership::SourceReceivers;
use pim_ifset::IfSet;
use pim_state::World;
use pim_trie::Meter;
use pim_types::fact::{AssertRole, RegisterState};
use pim_types::{Addr, Hop, IfaceId, Key, Path, SourceGroup, SptSwitch};

// The winner of the assert that the router lost on the interface of a route, of the key's group and source.
fn winner_along(world: &World, path: Option<Path>, key: Key) -> Option<Hop>
    ensures { result ≡ winner_hop (option_map (λ (p : PathValue). p.iface.number) path)
        (λ i. row_at world.now.asserts (record key { iface = record { number = i } })) }
{
    let iface = path?.iface;
    let row = world.store().assert_at(Key { iface, ..key })?;
    match row.role {
        AssertRole::Loser => Some(Hop {
            iface,
            address: row.winner.address,
        }),
        AssertRole::Winner => None,
    }
}

// NBR(I, A) of the next hop of a route.
#[tactic(auto, unfolding(pim_model::specs::Neighbours::nbr))]
fn nbr(world: &World, path: Option<Path>) -> Option<Hop>
    ensures { result ≡ nbr world.now path }
{
    world.neighbours().nbr(path)
}

// local_receiver_include(*,G).
fn receivers(world: &World, group: Addr, meter: &mut Meter) -> IfSet
    ensures { Shows result (is_exclude world.now group.bits) }
{
    world
        .membership()
        .receivers_star(group, meter)
        .without_tunnel()
}

// local_receiver_include(S,G) and local_receiver_exclude(S,G).
fn receivers_of(world: &World, name: SourceGroup, meter: &mut Meter) -> SourceReceivers
    ensures included { Shows result.included (local_receiver_include world.now name.group.bits name.source.bits) }
    ensures excluded { Shows result.excluded (local_receiver_exclude world.now name.group.bits name.source.bits) }
{
    let found = world.membership().receivers_of(name, meter);
    SourceReceivers {
        included: found.included.without_tunnel(),
        excluded: found.excluded.without_tunnel(),
    }
}

// Whether the winner of the assert of (S,G) on the interface is better than spt_assert_metric(S,I).
#[tactic(auto, unfolding(pim_model::specs::Sets::is_beaten, pim_model::specs::Sets::spt_metric))]
fn is_beaten(world: &World, iface: IfaceId, name: SourceGroup, path: Option<Path>) -> bool
    requires { path ≡ route world.now name.source.bits }
    ensures { result ≡ is_beaten world.now name.group.bits name.source.bits iface.number }
{
    let key = Key::source(iface, name.group, name.source);
    match world.store().assert_at(key) {
        Some(row) => {
            let is_own = world.interfaces().is_own(name.source);
            is_better(
                row.winner,
                route_metric(false, world.address(iface), is_own, path),
            )
        }
        None => false,
    }
}

// The interfaces with an assert on which the winner of the assert of (S,G) is better than spt_assert_metric(S,I).
fn beaten(world: &World, asserted: IfSet, name: SourceGroup, path: Option<Path>) -> IfSet
    requires asserted { (i : ℕ) → has asserted i
        ≡ has_row world.now.asserts (source_key i name.group.bits name.source.bits) }
    requires path { path ≡ route world.now name.source.bits }
    ensures { Shows result (is_beaten world.now name.group.bits name.source.bits) }
{
    if asserted.is_empty() {
        return IfSet::new();
    }
    interfaces_where(|iface| asserted.contains(iface) && is_beaten(world, iface, name, path))
}

// Whether the address, which may be RP(G), is one of the router's.
fn is_own(world: &World, rp: Option<Addr>) -> bool
    ensures { result ≡ option_map_or (is_own world.now) (option_map (λ a. a.bits) rp) false }
{
    rp.is_some_and(|rp| world.interfaces().is_own(rp))
}

// Whether the router is the DR of a link that the address is on.
fn is_dr_of_path(world: &World, path: Option<Path>) -> bool
    ensures { result ≡ option_map_or (is_dr_of_path world.now) path false }
{
    path.is_some_and(|path| path.is_connected && world.is_dr(path.iface))
}

impl StarSight {
    /// What the macros of (*,G) read. The meter rises by the nodes visited.
    pub fn of(world: &World, group: Addr, meter: &mut Meter) -> StarSight
        ensures sight { IsStarSight world.now result }
        ensures group { result.group ≡ group }
    {
        // For the proof: preferences have 31 bits.
        world.proof_short_preferences();
        let rp = world.rp(group, meter);
        let rp_path = world.rp_route(group, rp, meter);
        let marks = world.store().marks(group, None, meter);
        StarSight {
            group,
            rp,
            rp_path,
            next_hop: nbr(world, rp_path),
            winner: winner_along(world, rp_path, Key::group(group)),
            joined: marks.joined.without_tunnel(),
            lost: marks.lost.without_tunnel(),
            won: marks.won.without_tunnel(),
            receivers: receivers(world, group, meter),
            dr: world.dr(),
            configured: IfSet::below(world.interfaces().count()),
            is_own_rp: is_own(world, rp),
        }
    }
}

impl SourceSight {
    /// What the macros of (S,G) and of (S,G,rpt) read, with what those of (*,G) read, which is given. The meter rises
    /// by the nodes visited.
    #[tactic(auto, unfolding(pim_model::specs::Sets::spt_bit, pim_model::specs::Sets::is_kept_alive, pim_model::specs::Sets::tunnel))]
    pub fn of(world: &World, star: StarSight, source: Addr, meter: &mut Meter) -> SourceSight
        requires { IsStarSight world.now star }
        ensures sight { IsSourceSight world.now result }
        ensures star { result.star ≡ star }
        ensures source { result.source ≡ source }
    {
        // For the proof: preferences have 31 bits.
        world.proof_short_preferences();
        let name = SourceGroup {
            source,
            group: star.group,
        };
        let key = name.key();
        let path = world.route(source, meter);
        let marks = world.store().marks(star.group, Some(source), meter);
        let asserted = marks.lost.union(marks.won);
        let hosts = receivers_of(world, name, meter);
        let row = world.store().source(key);
        let register = world.store().register(key);
        SourceSight {
            star,
            source,
            path,
            next_hop: nbr(world, path),
            winner: winner_along(world, path, key),
            tree_winner: winner_along(world, star.rp_path, key),
            joined: marks.joined.without_tunnel(),
            pruned: marks.pruned.without_tunnel(),
            lost: marks.lost.without_tunnel(),
            won: marks.won.without_tunnel(),
            beaten: beaten(world, asserted, name, path),
            included: hosts.included,
            excluded: hosts.excluded,
            spt: row.is_some_and(|row| row.spt),
            is_kept_alive: row.is_some_and(|row| row.keepalive.is_some()),
            tunnel: register.is_some_and(|row| matches!(row.state, RegisterState::Join)),
            is_own: world.interfaces().is_own(source),
            is_dr: is_dr_of_path(world, path),
            is_spt_wanted: matches!(world.settings().spt, SptSwitch::Always),
        }
    }
}

impl SourceSight {
    /// What the macros of a source of a group read, with what those of the group read, gathered together. The meter
    /// rises by the nodes visited.
    pub fn with_star(world: &World, name: SourceGroup, meter: &mut Meter) -> SourceSight
        ensures sight { IsSourceSight world.now result }
        ensures group { result.star.group ≡ name.group }
        ensures source { result.source ≡ name.source }
    {
        let star = StarSight::of(world, name.group, meter);
        SourceSight::of(world, star, name.source, meter)
    }

    /// What the macros of the same source read, gathered again from the present state. The meter rises by the nodes
    /// visited.
    pub fn gathered_again(&self, world: &World, meter: &mut Meter) -> SourceSight
        ensures sight { IsSourceSight world.now result }
        ensures group { result.star.group ≡ self.now.star.group }
        ensures source { result.source ≡ self.now.source }
    {
        SourceSight::with_star(world, self.name(), meter)
    }
}

/// The upstream neighbour of the key's Join timer: RPF'(*,G), or RPF'(S,G). The meter rises by the nodes visited.
#[tactic(auto, unfolding(pim_model::specs::Hellos::upstream_of))]
pub fn upstream_of(world: &World, key: Key, meter: &mut Meter) -> Option<Hop>
    ensures { result ≡ upstream_of world.now key }
{
    let star = StarSight::of(world, key.group, meter);
    match key.source {
        None => star.rpf_neighbour(),
        Some(source) => SourceSight::of(world, star, source, meter).rpf_neighbour(),
    }
}
