//! What is remembered of groups while the records of a report are taken: which of their sources have timers that expire
//! later than a query lets them. So a record that asks for sources that it doesn't name goes over those of its group
//! once, however often the report has such a record.
ghost use Rattle.std.specs.Prelude.{◌≡◌, ◌==◌, ◌&&◌, ◌++◌, ◌↔◌, [], ℕ, IfOk, IsTrue, OnOk, filter, map};
ghost use Rattle.pim_filters.specs.Members.{is_named_source, member_entries};
ghost use Rattle.pim_model.specs.Querier.{exceeds};
ghost use Rattle.pim_model.specs.Records.{is_at_group, record_of};
ghost use Rattle.pim_model.specs.Tables.{Table};
ghost use Rattle.pim_querier.specs.Looking.{GrowsLate, ListsLate, source_keys};
ghost use Rattle.pim_types.specs.Keys.{source_in};
ghost use Rattle.pim_types.specs.declared.fact.SourceRecordRow.{SourceRecordRow};
ghost use Rattle.igmp_wire.specs.Written.{bits_of};

use crate::place::IfaceGroup;
use pim_filters::Member;
use pim_state::World;
use pim_types::{Addr, Key};
use std::alloc::{AllocError, Global};

// The most sources of a group that are listed where they were found.
const MOST_LISTED: usize = 64;

/// The groups that are remembered, and the keys of their sources whose timers may expire late.
#[derive(Drop)]
pub struct Looked {
    // Whether a record went over the sources of its group.
    is_begun: bool,
    // The timestamp after which a timer expires late, in ms.
    end: u64,
    groups: Vec<Addr>,
    late: Vec<Key>,
}

// Whether the group is one of these.
fn is_among(group: Addr, groups: &[Addr]) -> bool
    ensures { result ≡ is_named_source group.bits groups.now }
{
    for other in groups {
        if *other == group {
            return true;
        }
    }
    false
}

// Puts the keys of these sources of the group behind others.
fn put_keys(keys: &mut Vec<Key>, place: IfaceGroup, sources: &[Addr]) -> Result<(), AllocError>
    ensures { OnOk result (keys.new.items
        ≡ keys.old.items ++ source_keys place.iface.number place.group.bits (bits_of sources.now)) }
{
    for source in sources {
        keys.push(Key::source(place.iface, place.group, *source))?;
    }
    Ok(())
}

// Puts the keys of these members of the group's record behind others.
fn put_members(keys: &mut Vec<Key>, place: IfaceGroup, members: &[Member]) -> Result<(), AllocError>
    ensures { OnOk result (keys.new.items ≡ keys.old.items
        ++ source_keys place.iface.number place.group.bits (map (λ m. m.0) (member_entries members.now))) }
{
    for member in members {
        keys.push(Key::source(place.iface, place.group, member.source))?;
    }
    Ok(())
}

impl Looked {
    /// Nothing is remembered.
    pub(crate) fn new(alloc: Global) -> Looked
        ensures { (i : ℕ) (rows : Table SourceRecordRow)
            → ListsLate i result.end result.groups.items result.late.items rows }
    {
        Looked {
            is_begun: false,
            end: 0,
            groups: Vec::new(alloc),
            late: Vec::new(alloc),
        }
    }

    /// Whether those sources of the group are listed whose timers expire after the timestamp, in ms.
    pub(crate) fn lists(&self, group: Addr, moment: u64) -> bool
        ensures { result ≡ ((self.now.end == moment) && is_named_source group.bits self.now.groups.items) }
    {
        self.end == moment && is_among(group, self.groups.as_slice())
    }

    /// The sources that are listed of the group on the interface.
    pub(crate) fn sources_of(
        &self,
        alloc: Global,
        place: IfaceGroup,
    ) -> Result<Vec<Addr>, AllocError>
        ensures { IfOk result (λ found. bits_of found.items
            ≡ map source_in (filter (is_at_group place.iface.number place.group.bits) self.now.late.items)) }
    {
        let mut found = Vec::new(alloc);
        for key in self.late.as_slice() {
            if key.iface == place.iface && key.group == place.group {
                found.push(key.address())?;
            }
        }
        Ok(found)
    }

    // Whether no group is remembered.
    fn is_empty(&self) -> bool
        ensures { IsTrue result ↔ (self.now.groups.items ≡ []) }
    {
        self.groups.is_empty()
    }

    // Whether timers expire late after this timestamp, in ms.
    fn is_at(&self, moment: u64) -> bool
        ensures { result ≡ (self.now.end == moment) }
    {
        self.end == moment
    }

    // Has timers expire late after this timestamp, in ms, where no group is remembered.
    fn start(&mut self, moment: u64)
        ensures { (i : ℕ) (rows : Table SourceRecordRow)
            → ListsLate i self.old.end self.old.groups.items self.old.late.items rows
            → ListsLate i self.new.end self.new.groups.items self.new.late.items rows }
    {
        if !self.is_empty() {
            return;
        }
        self.end = moment;
    }

    // Remembers the group, of which these members have timers that expire after the timestamp, in ms, and no others.
    fn add(
        &mut self,
        world: &World,
        place: IfaceGroup,
        moment: u64,
        members: &[Member],
    ) -> Result<(), AllocError>
        requires late { member_entries members.now
            ≡ filter (λ m. exceeds moment m.1) (record_of world.now place.iface.number place.group.bits).members }
        requires known { ListsLate place.iface.number self.old.end self.old.groups.items self.old.late.items
            world.now.source_records }
        ensures { OnOk result (ListsLate place.iface.number self.new.end self.new.groups.items self.new.late.items
            world.now.source_records) }
    {
        // For the proof: each is under the key of a source.
        world.membership().proof_keyed_source_records();
        self.start(moment);
        if !self.is_at(moment) {
            return Ok(());
        }
        self.groups.push(place.group)?;
        put_members(&mut self.late, place, members)
    }

    /// Remembers the group, of which these members have timers that expire after the timestamp, in ms, and no others,
    /// where they are few, and a record asked for such sources before: most reports have one such record.
    pub(crate) fn remember(
        &mut self,
        world: &World,
        place: IfaceGroup,
        moment: u64,
        members: &[Member],
    ) -> Result<(), AllocError>
        requires late { member_entries members.now
            ≡ filter (λ m. exceeds moment m.1) (record_of world.now place.iface.number place.group.bits).members }
        requires known { ListsLate place.iface.number self.old.end self.old.groups.items self.old.late.items
            world.now.source_records }
        ensures { OnOk result (ListsLate place.iface.number self.new.end self.new.groups.items self.new.late.items
            world.now.source_records) }
    {
        if !self.is_begun {
            self.is_begun = true;
            return Ok(());
        }
        if members.len() > MOST_LISTED {
            return Ok(());
        }
        self.add(world, place, moment, members)
    }

    /// Lists these sources of the group on the interface, whose timers a record may set.
    pub(crate) fn name(&mut self, place: IfaceGroup, sources: &[Addr]) -> Result<(), AllocError>
        ensures { OnOk result ((before after : Table SourceRecordRow)
            → ListsLate place.iface.number self.old.end self.old.groups.items self.old.late.items before
            → GrowsLate place.iface.number place.group.bits (bits_of sources.now) before after
            → ListsLate place.iface.number self.new.end self.new.groups.items self.new.late.items after) }
    {
        if self.is_empty() {
            return Ok(());
        }
        put_keys(&mut self.late, place, sources)
    }
}
