//! The queriers of the interfaces, and what they know of groups and sources (RFC 3376, section 6).
ghost use Rattle.std.specs.List.{list_any};
ghost use Rattle.std.specs.Prelude.{◌≡◌, ◌≤◌, OnOk};
ghost use Rattle.pim_model.specs.Querier.{group_end, is_sending, lower_group, lowered, querier_row, querying, querying_on, source_end};
ghost use Rattle.pim_model.specs.Tables.{drop_where, has_row, put};
ghost use Rattle.pim_types.specs.Keys.{iface_key, is_on, star_key};

use crate::world::World;
use pim_trie::Meter;
use pim_types::fact::{GroupRecordRow, QuerierRole, QuerierRow};
use pim_types::{Addr, IfaceId};
use std::alloc::AllocError;

/// When a timer expires that is lowered to a timestamp if it runs; both in ms.
pub fn lowered(end: Option<u64>, moment: u64) -> Option<u64>
    ensures { result ≡ lowered moment end }
{
    end.map(|end| end.min(moment))
}

impl World {
    // A row of a querier with the configured values. `next_query` is when it sends its next general query, in ms.
    #[tactic(auto, unfolding(pim_model::specs::Querier::querier_row))]
    fn querier_row(&self, next_query: u64, startup_left: u8) -> QuerierRow
        ensures row { result ≡ querier_row self.now next_query startup_left }
        ensures robust { result.robustness ≤ 7 }
    {
        QuerierRow {
            role: QuerierRole::Querier {
                next_query,
                startup_left,
            },
            robustness: self.settings.robustness as u8,
            query_interval: self.settings.query_interval as u16,
        }
    }

    /// Makes the router the querier of the interface, with the configured values. The next general query leaves at the
    /// timestamp, in ms, and the given number of startup queries is still to leave.
    #[tactic(auto, unfolding(pim_model::specs::Querier::querying))]
    pub fn start_querying(
        &mut self,
        iface: IfaceId,
        next_query: u64,
        startup_left: u8,
    ) -> Result<(), AllocError>
        ensures { OnOk result (self.new ≡ querying self.old iface.number next_query startup_left) }
    {
        let row = self.querier_row(next_query, startup_left);
        self.next = None;
        self.membership.put_querier(iface, row)
    }

    /// Updates the querier of an interface that has one: its next general query and its startup queries left. On
    /// another interface nothing changes.
    #[tactic(auto, unfolding(pim_model::specs::Querier::querying_on))]
    pub fn update_querier(
        &mut self,
        iface: IfaceId,
        next_query: u64,
        startup_left: u8,
    ) -> Result<(), AllocError>
        ensures { OnOk result (self.new ≡ querying_on self.old iface.number next_query startup_left) }
    {
        let row = self.querier_row(next_query, startup_left);
        self.next = None;
        self.membership.change_querier(iface, row)
    }

    /// Makes another router the querier of the interface. Its robustness variable has 3 bits. What was to be repeated
    /// there is dropped.
    pub fn elect(&mut self, iface: IfaceId, row: QuerierRow) -> Result<(), AllocError>
        requires { row.robustness ≤ 7 }
        ensures { OnOk result (self.new ≡ record self.old {
          queriers = put self.old.queriers (iface_key iface.number) row;
          group_repeats = drop_where (is_on iface.number) self.old.group_repeats;
          source_repeats = drop_where (is_on iface.number) self.old.source_repeats;
          sendings = drop_where (is_on iface.number) self.old.sendings;
        }) }
    {
        self.next = None;
        self.membership.put_querier(iface, row)?;
        self.membership.drop_repeats_on(iface);
        Ok(())
    }

    /// When the group timer expires on the interface, in ms, if it runs.
    pub fn group_end(&self, iface: IfaceId, group: Addr) -> Option<u64>
        ensures { result ≡ group_end self.now iface.number group.bits }
    {
        match self.membership.group_record(iface, group) {
            Some(row) => row.end,
            None => None,
        }
    }

    /// When the source timer expires on the interface, in ms, if it runs.
    pub fn source_end(&self, iface: IfaceId, group: Addr, source: Addr) -> Option<u64>
        ensures { result ≡ source_end self.now iface.number group.bits source.bits }
    {
        match self.membership.source_record(iface, group, source) {
            Some(row) => row.end,
            None => None,
        }
    }

    /// Whether there is a record of the group on the interface.
    #[tactic(auto, unfolding(pim_model::specs::Tables::has_row))]
    pub fn has_group_record(&self, iface: IfaceId, group: Addr) -> bool
        ensures { result ≡ has_row self.now.group_records (star_key iface.number group.bits) }
    {
        self.membership.group_record(iface, group).is_some()
    }

    /// Lowers the group timer on the interface to this timestamp, in ms, if it runs and expires later. The meter rises by
    /// the nodes visited.
    #[tactic(auto, unfolding(pim_model::specs::Querier::lower_group))]
    pub fn lower_group(
        &mut self,
        iface: IfaceId,
        group: Addr,
        end: u64,
        meter: &mut Meter,
    ) -> Result<(), AllocError>
        ensures { OnOk result (self.new ≡ lower_group self.old iface.number group.bits end) }
    {
        let Some(row) = self.membership.group_record(iface, group) else {
            return Ok(());
        };
        let lowered = GroupRecordRow {
            end: lowered(row.end, end),
        };
        self.next = None;
        self.membership
            .change_group_record(iface, group, lowered, meter)
    }

    /// Whether a query of a source of the group is still to be repeated on the interface.
    pub fn has_sendings(&self, iface: IfaceId, group: Addr) -> bool
        ensures { result ≡ list_any (is_sending iface.number group.bits) self.now.sendings }
    {
        self.membership.sendings_at(iface, group).next().is_some()
    }
}
