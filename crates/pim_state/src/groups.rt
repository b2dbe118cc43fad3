//! The groups that have any fact, and those that a change touches.
ghost use Rattle.std.specs.Prelude.{◌≡◌, IfOk, OnOk, map};
ghost use Rattle.pim_model.specs.Upstream.{fact_keys, groups_of};
ghost use Rattle.pim_model.specs.Tables.{keys_in};
ghost use Rattle.igmp_membership.specs.MembershipTables.{membership_keys};
ghost use Rattle.pim_store.specs.PimTables.{stored_keys};
ghost use Rattle.pim_types.specs.Keys.{group_in};
ghost use Rattle.pim_state.specs.Groups.{numbers_of, gathered};
ghost use Rattle.pim_state.specs.Touches.{concerned_keys};

use crate::touched::Touched;
use crate::world::World;
use igmp_membership::Membership;
use pim_store::Store;
use pim_trie::Meter;
use pim_types::{Addr, Key};
use std::alloc::{AllocError, Global};
use std::collections::BTreeMap;
use std::collections::btree_map::Iter;

impl World {
    /// The groups that have any fact, ascending. The meter rises by the nodes visited.
    #[tactic(auto, unfolding(pim_model::specs::Upstream::groups_of, pim_model::specs::Tables::ascending, crate::specs::Groups::gathered))]
    pub fn groups(
        &self,
        alloc: Global,
        meter: &mut Meter,
    ) -> Result<BTreeMap<Addr, (), Global>, AllocError>
        ensures { IfOk result (λ found. numbers_of found.entries ≡ groups_of (fact_keys self.now)) }
    {
        let mut found = BTreeMap::new(alloc);
        self.gather_touched(&Touched::All, &mut found, meter)?;
        Ok(found)
    }

    /// Adds the touched groups to a set of groups. The meter rises by the nodes visited.
    pub fn gather_touched(
        &self,
        touched: &Touched,
        found: &mut BTreeMap<Addr, (), Global>,
        meter: &mut Meter,
    ) -> Result<(), AllocError>
        ensures { OnOk result (numbers_of found.new.entries
            ≡ gathered (map group_in (concerned_keys self.now touched.now)) (numbers_of found.old.entries)) }
    {
        match touched {
            Touched::All => self.gather_groups(found, meter),
            Touched::Keys(keys) => gather_named(keys.as_slice(), found),
        }
    }

    // Adds the groups that have any fact to a set of groups.
    fn gather_groups(
        &self,
        found: &mut BTreeMap<Addr, (), Global>,
        meter: &mut Meter,
    ) -> Result<(), AllocError>
        ensures { OnOk result (numbers_of found.new.entries ≡ gathered (map group_in (fact_keys self.now)) (numbers_of found.old.entries)) }
    {
        gather_members(&self.membership, found)?;
        gather_stored(&self.store, found, meter)
    }
}

// Adds the groups of the IGMP facts to a set of groups.
fn gather_members(
    membership: &Membership,
    found: &mut BTreeMap<Addr, (), Global>,
) -> Result<(), AllocError>
    ensures { OnOk result (numbers_of found.new.entries
        ≡ gathered (map group_in (membership_keys membership.now)) (numbers_of found.old.entries)) }
{
    gather(membership.group_record_rows(), found)?;
    gather(membership.source_record_rows(), found)?;
    gather(membership.group_repeat_rows(), found)?;
    gather(membership.source_repeat_rows(), found)?;
    gather(membership.sending_rows(), found)
}

// Adds the groups of the PIM facts, which the store lists, to a set of groups.
fn gather_stored(
    store: &Store,
    found: &mut BTreeMap<Addr, (), Global>,
    meter: &mut Meter,
) -> Result<(), AllocError>
    ensures { OnOk result (numbers_of found.new.entries
        ≡ gathered (map group_in (stored_keys store.now)) (numbers_of found.old.entries)) }
{
    // For the proof: the groups of the set rise.
    let _ = found.len();
    for group in store.groups(meter) {
        found.insert(group, ())?;
    }
    Ok(())
}

// Adds the groups of facts to a set of groups.
fn gather<R>(
    facts: Iter<'_, Key, R>,
    found: &mut BTreeMap<Addr, (), Global>,
) -> Result<(), AllocError>
    ensures { OnOk result (numbers_of found.new.entries ≡ gathered (map group_in (keys_in facts.entry)) (numbers_of found.old.entries)) }
{
    for (key, _) in facts {
        found.insert(key.group, ())?;
    }
    Ok(())
}

// Adds the groups of keys to a set of groups.
fn gather_named(keys: &[Key], found: &mut BTreeMap<Addr, (), Global>) -> Result<(), AllocError>
    ensures { OnOk result (numbers_of found.new.entries ≡ gathered (map group_in keys.now) (numbers_of found.old.entries)) }
{
    for key in keys {
        found.insert(key.group, ())?;
    }
    Ok(())
}
