//! What a front for RPs that share an address asks of the router.
ghost use Rattle.law_events.specs.Adjacent.{has_link_dr};
ghost use Rattle.pim_fanout.specs.Named.{keys_of};
ghost use Rattle.pim_model.specs.Sets.{is_kept_alive};
ghost use Rattle.pim_model.specs.State.{is_own};
ghost use Rattle.pim_model.specs.Tables.{keys_in};
ghost use Rattle.pim_model.specs.Unicast.{route, rp_of};
ghost use Rattle.pim_reloader.specs.Listing.{sources_in};
ghost use Rattle.pim_types.specs.Keys.{group_in, source_in};
ghost use Rattle.std.specs.Option.{option_map_or};
ghost use Rattle.std.specs.Prelude.{◌≡◌, ◌&&◌, [], IfOk, false, filter, option_and_then, option_map};

use super::Router;
use pim_state::{Meter, World};
use pim_types::{Addr, SourceGroup};
use std::alloc::{AllocError, Global};

// Whether the router is the DR of the link of a source, and the source's keepalive timer runs. The meter rises by the
// nodes visited.
#[tactic(auto, unfolding(pim_model::specs::Sets::is_kept_alive))]
fn is_local(world: &World, name: SourceGroup, meter: &mut Meter) -> bool
    ensures { result ≡ (has_link_dr world.now (route world.now name.source.bits)
        && is_kept_alive world.now name.group.bits name.source.bits) }
{
    let is_link_dr = match world.route(name.source, meter) {
        Some(path) => path.is_connected && world.is_dr(path.iface),
        None => false,
    };
    let is_kept_alive = match world.store().source(name.key()) {
        Some(row) => row.keepalive.is_some(),
        None => false,
    };
    is_link_dr && is_kept_alive
}

// The local sources, in the order in which they are listed. The meter rises by the nodes visited.
fn local_names(
    alloc: Global,
    world: &World,
    meter: &mut Meter,
) -> Result<Vec<SourceGroup>, AllocError>
    ensures { IfOk result (λ names. keys_of names.items
        ≡ filter (λ k. has_link_dr world.now (route world.now (source_in k))
        && is_kept_alive world.now (group_in k) (source_in k)) (sources_in world.now)) }
{
    let mut names = Vec::new(alloc);
    for (key, _) in world.store().source_rows() {
        let name = key.name();
        if is_local(world, name, meter) {
            names.push(name)?;
        }
    }
    Ok(names)
}

// The local sources, in the order of their keys. The meter rises by the nodes visited.
fn local_sources(
    alloc: Global,
    world: &World,
    meter: &mut Meter,
) -> Result<Vec<SourceGroup>, AllocError>
    ensures { IfOk result (λ names. keys_of names.items
        ≡ filter (λ k. has_link_dr world.now (route world.now (source_in k))
        && is_kept_alive world.now (group_in k) (source_in k)) (keys_in world.now.sources)) }
{
    // For the proof: each source is under the key of its name.
    world.proof_keyed();
    let names = local_names(alloc, world, meter)?;
    Ok(names)
}

impl Router {
    /// Whether an address is one of the router's: an interface's, which may be up or not, or one of no interface; false
    /// where the router has failed. No memory is taken.
    pub fn is_own(&self, address: Addr) -> bool
        ensures { result ≡ option_map_or (λ r. is_own r.state address.bits) self.now.standing false }
    {
        if self.failed {
            return false;
        }
        self.core.world.interfaces().is_own(address)
    }

    /// RP(G): none of a source-specific group, of one in no range, and where the router has failed. No memory is taken.
    pub fn rp(&self, group: Addr) -> Option<Addr>
        ensures { option_map (λ rp. rp.bits) result ≡ option_and_then (λ r. rp_of r.state group.bits) self.now.standing }
    {
        if self.failed {
            return None;
        }
        let mut outside = self.probes.outside();
        self.core.world.rp(group, &mut outside.meter)
    }

    /// Whether a source of a group is local: the router is the DR of a link that the source is on, and KeepaliveTimer(S,G)
    /// runs, as for CouldRegister(S,G) (RFC 7761, section 4.4.1), whoever the RP is. False where the router has failed. No
    /// memory is taken.
    pub fn is_local(&self, name: SourceGroup) -> bool
        ensures { result ≡ option_map_or (λ r. has_link_dr r.state (route r.state name.source.bits)
            && is_kept_alive r.state name.group.bits name.source.bits) self.now.standing false }
    {
        if self.failed {
            return false;
        }
        let mut outside = self.probes.outside();
        is_local(&self.core.world, name, &mut outside.meter)
    }

    /// The local sources, as `is_local` says of each, ascending by group and then by source; none where the router has
    /// failed. An `Err` is want of memory.
    pub fn local_sources(&self, alloc: Global) -> Result<Vec<SourceGroup>, AllocError>
        ensures { IfOk result (λ names. keys_of names.items ≡ option_map_or (λ r.
            filter (λ k. has_link_dr r.state (route r.state (source_in k))
            && is_kept_alive r.state (group_in k) (source_in k)) (keys_in r.state.sources)) self.now.standing []) }
    {
        if self.failed {
            return Ok(Vec::new(alloc));
        }
        let mut outside = self.probes.outside();
        local_sources(alloc, &self.core.world, &mut outside.meter)
    }
}
