//! How often sources are still to be named in group-and-source-specific queries.
ghost use Rattle.std.specs.List.{list_any};
ghost use Rattle.std.specs.List.Sorted.{IsStrictlySortedBy};
ghost use Rattle.std.specs.Prelude.{◌≡◌, [], OnOk, filter};
ghost use Rattle.pim_model.specs.Records.{is_at_group};
ghost use Rattle.pim_model.specs.Tables.{change_row, drop_at, drop_where, keys_in, set_row};
ghost use Rattle.pim_types.specs.Keys.{is_on, key_cmp, names_source, source_key};
ghost use Rattle.igmp_membership.specs.Sources.{AreSourceKind, Gathers};

use crate::sources::{above_interfaces, gather};
use pim_ip::Addr;
use pim_tables::{Facts, RowsOf};
use pim_types::fact::SendingRow;
use pim_types::{IfaceId, Key, SourceGroup};
use std::alloc::{AllocError, Global};
use std::collections::BTreeMap;
use std::collections::btree_map::Iter;
use std::marker::Model;

// The sendings; each is of a source of a group on an interface, and of no (S,G,rpt).
pub(crate) struct Sendings {
    rows: Facts<SendingRow>,
}

// Written out, so that it is proved once (docs/PROOF_NOTES.md, Drops).
impl Drop for Sendings {
    fn drop(self) {
        let Sendings { rows: _ } = self;
    }
}

impl Model for Sendings {
    ghost use Rattle.pim_model.specs.Tables.{Table};
    ghost use Rattle.pim_types.specs.declared.fact.SendingRow.{SendingRow};
    ghost use Rattle.igmp_membership.specs.Sources.{AreSourceKind};

    ghost Value = { Table SendingRow };

    ghost view = { λ a. a.rows };

    ghost invariant = { λ a. AreSourceKind a.rows };
}

impl Sendings {
    // A table without sendings. Takes no memory.
    pub(crate) fn new(alloc: Global) -> Sendings
        ensures { result ≡ [] }
    {
        Sendings {
            rows: Facts::new(alloc),
        }
    }

    // For the proof: the sendings are under keys that rise. Does nothing when it runs.
    pub(crate) fn proof_rising(&self)
        ensures { IsStrictlySortedBy key_cmp (keys_in self.now) }
    {
        self.rows.proof_rising();
    }

    // For the proof: each is under the key of a source of a group. Does nothing when it runs.
    pub(crate) fn proof_kind(&self)
        ensures { AreSourceKind self.now }
    {
        let _ = &self.rows;
    }

    // The sendings, by rising key.
    pub(crate) fn iter(&self) -> Iter<'_, Key, SendingRow>
        ensures { result ≡ self.now }
    {
        self.rows.iter()
    }

    // The sendings of a group on an interface, by rising key.
    pub(crate) fn rows_at(&self, iface: IfaceId, group: Addr) -> RowsOf<'_, SendingRow>
        ensures { result ≡ filter (λ e. is_at_group iface.number group.bits e.0) self.now }
    {
        self.rows.rows_at(iface, group)
    }

    // Whether the source of the group has a sending, on any interface.
    pub(crate) fn has_source(&self, name: SourceGroup) -> bool
        ensures { result ≡ list_any (names_source name.group.bits name.source.bits) (keys_in self.now) }
    {
        // For the proof: the keys rise.
        self.proof_rising();
        for number in 0..above_interfaces(self.rows.iter()) {
            let iface = IfaceId {
                number: number as u32,
            };
            if self
                .rows
                .contains(Key::source(iface, name.group, name.source))
            {
                return true;
            }
        }
        false
    }

    // Adds the group's sources that have a sending, on any interface, to a set of sources. The error is want of memory.
    pub(crate) fn gather_sources(
        &self,
        group: Addr,
        found: &mut BTreeMap<Addr, (), Global>,
    ) -> Result<(), AllocError>
        ensures { OnOk result (Gathers found.old.entries found.new.entries group.bits self.now) }
    {
        // For the proof: the keys rise.
        self.proof_rising();
        for number in 0..above_interfaces(self.rows.iter()) {
            let iface = IfaceId {
                number: number as u32,
            };
            gather(self.rows.rows_at(iface, group), found)?;
        }
        Ok(())
    }

    // Sets how often the source of the group is still to be named on the interface, or removes that. The error is want
    // of memory.
    pub(crate) fn set(
        &mut self,
        iface: IfaceId,
        group: Addr,
        source: Addr,
        row: Option<SendingRow>,
    ) -> Result<(), AllocError>
        ensures { OnOk result (self.new ≡ set_row self.old (source_key iface.number group.bits source.bits) row) }
    {
        self.rows.set(Key::source(iface, group, source), row)
    }

    // Changes the sending under the key, if there is one, or removes it.
    pub(crate) fn change(&mut self, key: Key, row: Option<SendingRow>)
        ensures { self.new ≡ change_row (λ _. row) key self.old }
    {
        match row {
            Some(row) => self.rows.change(key, row),
            None => self.rows.remove(key),
        }
    }

    // Removes the sending under the key.
    pub(crate) fn remove(&mut self, key: Key)
        ensures { self.new ≡ drop_at self.old key }
    {
        self.rows.remove(key);
    }

    // Whether a sending is of the interface.
    pub(crate) fn has_on(&self, iface: IfaceId) -> bool
        ensures { result ≡ list_any (is_on iface.number) (keys_in self.now) }
    {
        self.rows.has_on(iface)
    }

    // Removes the sendings on the interface.
    pub(crate) fn drop_on(&mut self, iface: IfaceId)
        ensures { self.new ≡ drop_where (is_on iface.number) self.old }
    {
        self.rows.drop_on(iface);
    }
}
