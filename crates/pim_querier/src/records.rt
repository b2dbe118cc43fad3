//! The record of a group, and what the expiry of its timers changes (RFC 3376, sections 6.2, 6.3 and 6.5).
ghost use Rattle.std.specs.List.{list_any};
ghost use Rattle.std.specs.Prelude.{◌≡◌, ◌<◌, IfOk, OnOk, length};
ghost use Rattle.pim_filters.specs.Members.{IsAscending, member_entries};
ghost use Rattle.pim_model.specs.Querier.{group_record_due, source_record_due};
ghost use Rattle.pim_model.specs.Records.{is_at_group, record_of, with_members, with_record, with_repeats_of_rows};
ghost use Rattle.pim_querier.specs.Changes.{members_put, with_excluded, without_empty, without_group_repeat, without_source_record, without_source_repeat};

use crate::place::IfaceGroup;
use pim_filters::{GroupRecord, Member};
use pim_state::{Meter, World};
use pim_types::fact::{GroupRecordRow, SourceRecordRow};
use pim_types::{Addr, Key};
use std::alloc::{AllocError, Global};

// ---- the sources of a record

// The sources of the group's record on the interface, by rising key. Where there is one, the interface is below 120.
#[tactic(auto, unfolding(pim_model::specs::Records::record_of, pim_model::specs::Records::members_of))]
fn members_at(world: &World, alloc: Global, place: IfaceGroup) -> Result<Vec<Member>, AllocError>
    ensures members { IfOk result (λ members. member_entries members.items
        ≡ (record_of world.now place.iface.number place.group.bits).members) }
    ensures near { IfOk result (λ members. 0 < length (member_entries members.items) → place.iface.number < 120) }
    ensures ascending { IfOk result (λ members. IsAscending (member_entries members.items)) }
{
    let mut members = Vec::new(alloc);
    for (key, row) in world
        .membership()
        .source_records_at(place.iface, place.group)
    {
        members.push(Member {
            source: key.address(),
            end: row.end,
        })?;
    }
    Ok(members)
}

// ---- the rows of a record

// Puts the records of the given sources of the group, in place of those that they have.
#[tactic(auto, unfolding(crate::specs::Changes::members_put, crate::specs::Changes::member_put, pim_model::specs::Tables::set_row))]
pub(crate) fn put_members(
    world: &mut World,
    meter: &mut Meter,
    place: IfaceGroup,
    members: &[Member],
) -> Result<(), AllocError>
    requires { 0 < length members.now → place.iface.number < 120 }
    ensures { OnOk result (world.new ≡ members_put place.iface.number place.group.bits world.old members.now) }
{
    for member in members {
        let row = SourceRecordRow { end: member.end };
        world
            .membership_mut()
            .set_source_record(place.iface, place.group, member.source, Some(row), meter)?;
    }
    Ok(())
}

// Removes the group's record, where it says no more than none would: INCLUDE of no source.
pub(crate) fn drop_empty(world: &mut World, meter: &mut Meter, place: IfaceGroup, is_none: bool)
    ensures { world.new ≡ without_empty is_none place.iface.number place.group.bits world.old }
{
    if is_none {
        world
            .membership_mut()
            .remove_group_record(place.iface, place.group, meter);
    }
}

// Queries the group's sources no more, where none has sendings left.
fn drop_source_repeat(world: &mut World, place: IfaceGroup)
    ensures { world.new ≡ without_source_repeat place.iface.number place.group.bits world.old }
{
    if !world.has_sendings(place.iface, place.group) {
        world
            .membership_mut()
            .remove_source_repeat(place.iface, place.group);
    }
}

// Queries the group no more, where it has no record.
fn drop_group_repeat(world: &mut World, place: IfaceGroup)
    ensures { world.new ≡ without_group_repeat place.iface.number place.group.bits world.old }
{
    if !world.has_group_record(place.iface, place.group) {
        world
            .membership_mut()
            .remove_group_repeat(place.iface, place.group);
    }
}

// Stops the repeated queries of sources and of the group, if they have no record any more. If only one source may have
// lost its record, no other is read.
pub(crate) fn drop_repeats(
    world: &mut World,
    alloc: Global,
    place: IfaceGroup,
) -> Result<(), AllocError>
    ensures { OnOk result (world.new ≡ with_repeats_of_rows world.old place.iface.number place.group.bits) }
{
    world
        .membership_mut()
        .drop_unrecorded(alloc, place.iface, place.group)?;
    drop_source_repeat(world, place);
    drop_group_repeat(world, place);
    Ok(())
}

// Gives the group's record on the interface the sources of this one, whose timer it has. It goes with the last of them
// in INCLUDE.
fn set_members(
    world: &mut World,
    meter: &mut Meter,
    alloc: Global,
    place: IfaceGroup,
    known: &GroupRecord,
) -> Result<(), AllocError>
    requires { 0 < length known.now.members → place.iface.number < 120 }
    ensures { OnOk result (world.new ≡ with_members world.old place.iface.number place.group.bits known.now) }
{
    drop_empty(world, meter, place, known.is_no_record());
    world
        .membership_mut()
        .drop_source_records(place.iface, place.group, meter);
    put_members(world, meter, place, known.members())?;
    drop_repeats(world, alloc, place)
}

/// The group's record on the interface. Where it has sources, the interface is below 120.
#[tactic(auto, unfolding(pim_model::specs::Records::record_of))]
pub fn record_of(world: &World, alloc: Global, place: IfaceGroup) -> Result<GroupRecord, AllocError>
    ensures known { IfOk result (λ known. known ≡ record_of world.now place.iface.number place.group.bits) }
    ensures near { IfOk result (λ known. 0 < length known.members → place.iface.number < 120) }
{
    let members = members_at(world, alloc, place)?;
    GroupRecord::with(alloc, world.group_end(place.iface, place.group), &members)
}

/// Gives the group this record on the interface. The meter rises by the nodes visited.
#[tactic(auto, unfolding(pim_model::specs::Records::with_record, pim_model::specs::Tables::set_row))]
pub fn set_record(
    world: &mut World,
    meter: &mut Meter,
    alloc: Global,
    place: IfaceGroup,
    known: &GroupRecord,
) -> Result<(), AllocError>
    requires { place.iface.number < 120 }
    ensures { OnOk result (world.new ≡ with_record world.old place.iface.number place.group.bits known.now) }
{
    let row = GroupRecordRow { end: known.timer() };
    world
        .membership_mut()
        .set_group_record(place.iface, place.group, Some(row), meter)?;
    set_members(world, meter, alloc, place, known)
}

// ---- the expiry of a group's timers

/// The group timer expired: INCLUDE of the sources whose timers run on (RFC 3376, section 6.5). The meter rises by the
/// nodes visited.
#[tactic(auto, unfolding(pim_model::specs::Querier::group_record_due))]
pub fn group_record_due(
    world: &mut World,
    meter: &mut Meter,
    alloc: Global,
    place: IfaceGroup,
) -> Result<(), AllocError>
    ensures { OnOk result (world.new ≡ group_record_due world.old place.iface.number place.group.bits) }
{
    let mut known = record_of(world, alloc, place)?;
    known.group_expired(world.present());
    world.membership_mut().change_group_record(
        place.iface,
        place.group,
        GroupRecordRow { end: None },
        meter,
    )?;
    set_members(world, meter, alloc, place, &known)
}

// Whether a source of the group has a record on the interface.
pub(crate) fn has_sources(world: &World, place: IfaceGroup) -> bool
    ensures { result ≡ list_any (λ e. is_at_group place.iface.number place.group.bits e.0) world.now.source_records }
{
    world
        .membership()
        .source_records_at(place.iface, place.group)
        .next()
        .is_some()
}

// Takes the source's record away, and that of the group with the last of them.
fn drop_source(world: &mut World, meter: &mut Meter, place: IfaceGroup, source: Addr)
    ensures { world.new ≡ without_source_record place.iface.number place.group.bits source.bits world.old }
{
    world
        .membership_mut()
        .remove_source_record(place.iface, place.group, source, meter);
    let is_none = !has_sources(world, place);
    drop_empty(world, meter, place, is_none);
}

// Excludes the source from then on, if it has a record.
#[tactic(auto, unfolding(crate::specs::Changes::with_excluded))]
fn exclude_source(
    world: &mut World,
    meter: &mut Meter,
    place: IfaceGroup,
    source: Addr,
) -> Result<(), AllocError>
    ensures { OnOk result (world.new
        ≡ with_excluded place.iface.number place.group.bits source.bits world.old) }
{
    let key = Key::source(place.iface, place.group, source);
    world
        .membership_mut()
        .change_source_record(key, SourceRecordRow { end: None }, meter)
}

// Changes the records as the expiry of the source timer does; repeated queries of the source are still to be stopped.
fn end_source(
    world: &mut World,
    meter: &mut Meter,
    place: IfaceGroup,
    source: Addr,
) -> Result<(), AllocError>
    ensures { OnOk result (with_repeats_of_rows world.new place.iface.number place.group.bits
        ≡ source_record_due world.old place.iface.number place.group.bits source.bits) }
{
    // For the proof: each source has one record, under its own key.
    world.membership().proof_rising_source_records();
    world.membership().proof_keyed_source_records();
    if world.group_end(place.iface, place.group).is_some() {
        return exclude_source(world, meter, place, source);
    }
    drop_source(world, meter, place, source);
    Ok(())
}

/// The source timer expired: in INCLUDE the source is deleted, in EXCLUDE it is excluded from then on (RFC 3376,
/// section 6.3). Records and queries of other sources aren't read. The meter rises by the nodes visited.
pub fn source_record_due(
    world: &mut World,
    meter: &mut Meter,
    alloc: Global,
    place: IfaceGroup,
    source: Addr,
) -> Result<(), AllocError>
    ensures { OnOk result (world.new
        ≡ source_record_due world.old place.iface.number place.group.bits source.bits) }
{
    end_source(world, meter, place, source)?;
    drop_repeats(world, alloc, place)
}
