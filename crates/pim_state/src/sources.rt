//! The sources of a group that have any fact, and whether any fact's source is in a prefix.
ghost use Rattle.std.specs.List.{list_any};
ghost use Rattle.std.specs.Prelude.{◌≡◌, [], ◌∷◌, IfOk, OnOk};
ghost use Rattle.pim_types.specs.Keys.{is_of_group, names_source};
ghost use Rattle.pim_model.specs.Upstream.{fact_keys, sources_of};
ghost use Rattle.pim_state.specs.Groups.{gathered, numbers_of};
ghost use Rattle.igmp_membership.specs.MembershipTables.{membership_keys};
ghost use Rattle.pim_model.specs.Tables.{keys_in};
ghost use Rattle.pim_store.specs.PimTables.{stored_keys};
ghost use Rattle.pim_state.specs.Sources.{is_from, is_within, has_source_on_subnet, sources_among};

use crate::world::World;
use igmp_membership::Membership;
use pim_ip::Prefix;
use pim_store::{JoinTimerRows, Sources, Store};
use pim_tables::PlacedRows;
use pim_trie::Meter;
use pim_types::{Addr, IfaceId, Key, SourceGroup};
use std::alloc::{AllocError, Global};
use std::collections::BTreeMap;
use std::collections::btree_map::Iter;

impl World {
    /// The sources of the group that have any fact, ascending. The meter rises by the nodes visited.
    pub fn sources(
        &self,
        alloc: Global,
        group: Addr,
        meter: &mut Meter,
    ) -> Result<BTreeMap<Addr, (), Global>, AllocError>
        ensures { IfOk result (λ found. numbers_of found.entries ≡ sources_of group.bits (fact_keys self.now)) }
    {
        let mut found = self.membership.sources_of(alloc, group, meter)?;
        gather_all(self.store.sources_of(group, meter), &mut found)?;
        Ok(found)
    }

    /// Whether there is a fact of the source of the group. The meter rises by the nodes visited.
    #[tactic(auto, using(crate::proofs::GatheredSources::any_fact), unfolding(igmp_membership::specs::MembershipTables::membership_keys, pim_store::specs::PimTables::stored_keys))]
    pub fn has_facts(&self, name: SourceGroup, meter: &mut Meter) -> bool
        ensures { result ≡ list_any (names_source name.group.bits name.source.bits) (fact_keys self.now) }
    {
        self.membership.has_facts(name, meter) || self.store.has_facts(name, meter)
    }

    /// Whether a fact of any group names a source in the prefix. The keys of all facts are gone through. The meter rises
    /// by the nodes visited.
    #[tactic(auto, using(crate::proofs::Named::any_within), unfolding(igmp_membership::specs::MembershipTables::membership_keys, pim_store::specs::PimTables::stored_keys))]
    pub fn has_source_in(&self, prefix: Prefix, meter: &mut Meter) -> bool
        ensures { result ≡ list_any (is_within prefix) (fact_keys self.now) }
    {
        is_among_members(&self.membership, prefix) || is_among_stored(&self.store, prefix, meter)
    }

    /// Whether a fact of any group names the address as its source. The keys of all facts are gone through. The meter
    /// rises by the nodes visited.
    #[tactic(auto, using(crate::proofs::Named::within_host))]
    pub fn is_source(&self, address: Addr, meter: &mut Meter) -> bool
        ensures { result ≡ list_any (is_from address.bits) (fact_keys self.now) }
    {
        let host = Prefix {
            address,
            length: 32,
        };
        self.has_source_in(host, meter)
    }

    /// Whether a fact's source is in the subnet of the interface. The keys of all facts are gone through. The meter rises
    /// by the nodes visited.
    #[tactic(auto, unfolding(crate::specs::Sources::has_source_on_subnet))]
    pub fn has_source_on_subnet(&self, iface: IfaceId, meter: &mut Meter) -> bool
        ensures { result ≡ has_source_on_subnet self.now iface.number }
    {
        match self.interfaces.config(iface) {
            Some(config) => {
                let subnet = Prefix {
                    address: config.address,
                    length: config.length,
                };
                self.has_source_in(subnet, meter)
            }
            None => false,
        }
    }
}

// Whether a fact of IGMP names a source in the prefix.
#[tactic(auto, using(igmp_membership::proofs::Found::any_of_five), unfolding(igmp_membership::specs::MembershipTables::membership_keys))]
fn is_among_members(membership: &Membership, prefix: Prefix) -> bool
    ensures { result ≡ list_any (is_within prefix) (membership_keys membership.now) }
{
    is_among(membership.group_record_rows(), prefix)
        || is_among(membership.source_record_rows(), prefix)
        || is_among(membership.group_repeat_rows(), prefix)
        || is_among(membership.source_repeat_rows(), prefix)
        || is_among(membership.sending_rows(), prefix)
}

// Whether a fact of PIM names a source in the prefix.
#[tactic(auto, using(crate::proofs::Named::any_of_six), unfolding(pim_store::specs::PimTables::stored_keys))]
fn is_among_stored(store: &Store, prefix: Prefix, meter: &mut Meter) -> bool
    ensures { result ≡ list_any (is_within prefix) (stored_keys store.now) }
{
    is_among(store.downstream_rows(), prefix)
        || is_among(store.assert_rows(), prefix)
        || is_among_timers(store.join_timer_rows(meter), prefix)
        || is_among(store.override_timer_rows(), prefix)
        || is_among_placed(store.source_rows(), prefix)
        || is_among(store.register_rows(), prefix)
}

// Whether the key names a source in the prefix.
fn is_within(key: Key, prefix: Prefix) -> bool
    ensures { result ≡ is_within prefix key }
{
    match key.source {
        Some(source) => prefix.contains(source),
        None => false,
    }
}

// Whether the key of one of the Join timers names a source in the prefix.
fn is_among_timers(timers: JoinTimerRows<'_>, prefix: Prefix) -> bool
    ensures { result ≡ list_any (is_within prefix) (keys_in timers.entry) }
{
    for (key, _) in timers {
        if is_within(key, prefix) {
            return true;
        }
    }
    false
}

// Whether the key of one of the facts names a source in the prefix.
fn is_among<R>(facts: Iter<'_, Key, R>, prefix: Prefix) -> bool
    ensures { result ≡ list_any (is_within prefix) (keys_in facts.entry) }
{
    for (key, _) in facts {
        if is_within(*key, prefix) {
            return true;
        }
    }
    false
}

// Whether the key of one of the facts, which keep their places, names a source in the prefix.
fn is_among_placed<R>(facts: PlacedRows<'_, R>, prefix: Prefix) -> bool
    ensures { result ≡ list_any (is_within prefix) (keys_in facts.entry) }
{
    for (key, _) in facts {
        if is_within(*key, prefix) {
            return true;
        }
    }
    false
}

// Adds the sources to a set of sources.
fn gather_all(
    sources: Sources<'_>,
    found: &mut BTreeMap<Addr, (), Global>,
) -> Result<(), AllocError>
    ensures { OnOk result (numbers_of found.new.entries ≡ gathered sources.entry (numbers_of found.old.entries)) }
{
    for source in sources {
        found.insert(source, ())?;
    }
    Ok(())
}

/// Adds the source of the key to a set of sources, if the key is of the group.
pub fn gather_source(
    key: Key,
    group: Addr,
    found: &mut BTreeMap<Addr, (), Global>,
) -> Result<(), AllocError>
    ensures { OnOk result (numbers_of found.new.entries
        ≡ gathered (sources_among group.bits (key ∷ [])) (numbers_of found.old.entries)) }
{
    if !is_of_group(key, group) {
        return Ok(());
    }
    match key.source {
        Some(source) => {
            found.insert(source, ())?;
            Ok(())
        }
        None => Ok(()),
    }
}

// Whether the key is of the group.
fn is_of_group(key: Key, group: Addr) -> bool
    ensures { result ≡ is_of_group group.bits key }
{
    key.group == group
}
