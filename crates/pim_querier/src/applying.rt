//! A record of a report, applied to what is known of its group (RFC 3376, section 6.4).
ghost use Rattle.std.specs.List.{list_any};
ghost use Rattle.std.specs.Prelude.{◌≡◌, ◌<◌, ◌&&◌, ◌==◌, ℕ, IfOk, OnOk, false, filter, if◌then◌else◌, is_none, not, option_map, true};
ghost use Rattle.pim_filters.specs.Members.{IsAscending, member_entries, member_entry, is_named_source};
ghost use Rattle.pim_model.specs.Querier.{exceeds, group_end};
ghost use Rattle.pim_model.specs.Records.{Absent, apply_record, source_state_in, is_at_group, record_of, with_record};
ghost use Rattle.pim_model.specs.Tables.{is_among};
ghost use Rattle.pim_querier.specs.Changes.{beside};
ghost use Rattle.pim_querier.specs.Looking.{ListsLate};
ghost use Rattle.igmp_wire.specs.Written.{bits_of};
ghost use Rattle.pim_querier.specs.Reports.{AsksAlike, asks_named, keeps_others, known_member, known_members, record_named};

use crate::intervals::{exceeds, query_end};
use crate::looked::Looked;
use crate::place::IfaceGroup;
use crate::records::{drop_empty, drop_repeats, has_sources, put_members, record_of, set_record};
use igmp_wire::RecordType;
use pim_filters::{Asking, GroupRecord, Member};
use pim_state::{Meter, World};
use pim_types::Addr;
use pim_types::fact::GroupRecordRow;
use std::alloc::{AllocError, Global};
use std::collections::BTreeSet;

/// A record of a report that came on an interface (RFC 3376, section 4.2.4), but for the sources that it names.
#[derive(Clone, Copy)]
pub struct SeenRecord {
    pub place: IfaceGroup,
    pub record_type: RecordType,
    /// Until when the timers run that it sets, in ms.
    pub full: u64,
}

// ---- what is known of the sources that are named

// The sources as a set.
fn set_of(alloc: Global, sources: &[Addr]) -> Result<BTreeSet<Addr>, AllocError>
    ensures { IfOk result (λ set. (n : ℕ) → is_named_source n set.keys ≡ is_named_source n sources.now) }
{
    let mut set = BTreeSet::new(alloc);
    for source in sources {
        set.insert(*source)?;
    }
    Ok(set)
}

// What the group's record says of the source, where it has it.
fn member_of(world: &World, place: IfaceGroup, source: Addr) -> Option<Member>
    ensures { option_map member_entry result
        ≡ known_member place.iface.number place.group.bits world.now.source_records source.bits }
{
    let row = world
        .membership()
        .source_record(place.iface, place.group, source)?;
    Some(Member {
        source,
        end: row.end,
    })
}

// The sources of the group's record among the given ones, by rising source.
fn members_among(
    world: &World,
    alloc: Global,
    place: IfaceGroup,
    sources: &BTreeSet<Addr>,
) -> Result<Vec<Member>, AllocError>
    ensures members { IfOk result (λ members. member_entries members.items
        ≡ known_members place.iface.number place.group.bits world.now.source_records (bits_of sources.now.keys)) }
    ensures ascending { IfOk result (λ members. IsAscending (member_entries members.items)) }
{
    // For the proof: the sources rise.
    let _ = sources.len();
    let mut members = Vec::new(alloc);
    for source in sources.iter() {
        if let Some(member) = member_of(world, place, *source) {
            members.push(member)?;
        }
    }
    Ok(members)
}

// The group's record on the interface, with those of its sources alone that are named.
fn named_record(
    world: &World,
    alloc: Global,
    place: IfaceGroup,
    sources: &[Addr],
) -> Result<GroupRecord, AllocError>
    ensures timer { IfOk result (λ known. known.timer ≡ group_end world.now place.iface.number place.group.bits) }
    ensures ascending { IfOk result (λ known. IsAscending known.members) }
    ensures source_states { IfOk result (λ known. (src : ℕ) → source_state_in known src
        ≡ (if is_among src (bits_of sources.now)
        then source_state_in (record_of world.now place.iface.number place.group.bits) src else Absent)) }
    ensures named { IfOk result (λ known. known
        ≡ record_named world.now place.iface.number place.group.bits (bits_of sources.now)) }
{
    // For the proof: each is under the key of a source.
    world.membership().proof_keyed_source_records();
    let named = set_of(alloc, sources)?;
    // For the proof: the sources rise.
    let _ = named.len();
    let members = members_among(world, alloc, place, &named)?;
    GroupRecord::with(alloc, world.group_end(place.iface, place.group), &members)
}

// ---- what is known of the sources that a query lowers

// The sources of the group's record on the interface whose timers expire after the timestamp, in ms, by rising source.
#[tactic(auto, unfolding(pim_model::specs::Records::record_of, pim_model::specs::Records::members_of))]
fn members_past(
    world: &World,
    alloc: Global,
    place: IfaceGroup,
    moment: u64,
) -> Result<Vec<Member>, AllocError>
    ensures members { IfOk result (λ members. member_entries members.items
        ≡ filter (λ m. exceeds moment m.1) (record_of world.now place.iface.number place.group.bits).members) }
    ensures ascending { IfOk result (λ members. IsAscending (member_entries members.items)) }
{
    let mut members = Vec::new(alloc);
    for (key, row) in world
        .membership()
        .source_records_at(place.iface, place.group)
    {
        if exceeds(moment, row.end) {
            members.push(Member {
                source: key.address(),
                end: row.end,
            })?;
        }
    }
    Ok(members)
}

// Those of these members whose timers expire after the timestamp, in ms.
fn past(alloc: Global, members: &[Member], moment: u64) -> Result<Vec<Member>, AllocError>
    ensures { IfOk result (λ late. member_entries late.items
        ≡ filter (λ m. exceeds moment m.1) (member_entries members.now)) }
{
    let mut late = Vec::new(alloc);
    for member in members {
        if exceeds(moment, member.end) {
            late.push(*member)?;
        }
    }
    Ok(late)
}

// Those sources of the group's record on the interface whose timers expire after the timestamp, in ms, where they are
// listed.
fn listed_past(
    world: &World,
    alloc: Global,
    place: IfaceGroup,
    moment: u64,
    looked: &Looked,
) -> Result<Vec<Member>, AllocError>
    requires listed { ((looked.now.end == moment) && is_named_source place.group.bits looked.now.groups.items) ≡ true }
    requires known { ListsLate place.iface.number looked.now.end looked.now.groups.items looked.now.late.items
        world.now.source_records }
    ensures members { IfOk result (λ members. member_entries members.items
        ≡ filter (λ m. exceeds moment m.1) (record_of world.now place.iface.number place.group.bits).members) }
    ensures ascending { IfOk result (λ members. IsAscending (member_entries members.items)) }
{
    // For the proof: each is under the key of a source, and the sources rise.
    world.membership().proof_keyed_source_records();
    let _ = world
        .membership()
        .source_records_at(place.iface, place.group);
    let listed = looked.sources_of(alloc, place)?;
    let sources = set_of(alloc, &listed)?;
    // For the proof: the sources rise.
    let _ = sources.len();
    let members = members_among(world, alloc, place, &sources)?;
    past(alloc, &members, moment)
}

// Those sources of the group's record on the interface whose timers expire after the timestamp, in ms: of the listed
// ones, where the group was gone over before.
fn late_members(
    world: &World,
    alloc: Global,
    place: IfaceGroup,
    moment: u64,
    looked: &mut Looked,
) -> Result<Vec<Member>, AllocError>
    requires { ListsLate place.iface.number looked.old.end looked.old.groups.items looked.old.late.items
        world.now.source_records }
    ensures members { IfOk result (λ members. member_entries members.items
        ≡ filter (λ m. exceeds moment m.1) (record_of world.now place.iface.number place.group.bits).members) }
    ensures ascending { IfOk result (λ members. IsAscending (member_entries members.items)) }
    ensures known { OnOk result (ListsLate place.iface.number looked.new.end looked.new.groups.items
        looked.new.late.items world.now.source_records) }
{
    if looked.lists(place.group, moment) {
        return listed_past(world, alloc, place, moment, looked);
    }
    let members = members_past(world, alloc, place, moment)?;
    looked.remember(world, place, moment, &members)?;
    Ok(members)
}

// The group's record on the interface, with those of its sources alone whose timers expire after the timestamp, in ms.
fn record_past(
    world: &World,
    alloc: Global,
    place: IfaceGroup,
    moment: u64,
    looked: &mut Looked,
) -> Result<GroupRecord, AllocError>
    requires { ListsLate place.iface.number looked.old.end looked.old.groups.items looked.old.late.items
        world.now.source_records }
    ensures timer { IfOk result (λ known. known.timer ≡ group_end world.now place.iface.number place.group.bits) }
    ensures members { IfOk result (λ known. known.members
        ≡ filter (λ m. exceeds moment m.1) (record_of world.now place.iface.number place.group.bits).members) }
    ensures ascending { IfOk result (λ known. IsAscending known.members) }
    ensures known { OnOk result (ListsLate place.iface.number looked.new.end looked.new.groups.items
        looked.new.late.items world.now.source_records) }
{
    let members = late_members(world, alloc, place, moment, looked)?;
    GroupRecord::with(alloc, world.group_end(place.iface, place.group), &members)
}

// ---- what is written

// Whether a group with this timer and its sources as they are has no record: INCLUDE of no source.
fn is_none_left(world: &World, place: IfaceGroup, timer: Option<u64>) -> bool
    ensures { result ≡ (is_none timer
        && not (list_any (λ e. is_at_group place.iface.number place.group.bits e.0) world.now.source_records)) }
{
    timer.is_none() && !has_sources(world, place)
}

// Gives the group's record the timer of this one, and adds its sources to those that it has. The record is removed
// where it is then empty.
fn write_beside(
    world: &mut World,
    meter: &mut Meter,
    alloc: Global,
    place: IfaceGroup,
    known: &GroupRecord,
) -> Result<(), AllocError>
    requires { place.iface.number < 120 }
    ensures { OnOk result (world.new ≡ beside place.iface.number place.group.bits world.old known.now) }
{
    let end = known.timer();
    let row = GroupRecordRow { end };
    world
        .membership_mut()
        .set_group_record(place.iface, place.group, Some(row), meter)?;
    put_members(world, meter, place, known.members())?;
    let is_none = is_none_left(world, place, end);
    drop_empty(world, meter, place, is_none);
    drop_repeats(world, alloc, place)
}

// Applies a record of a report that leaves the sources that it doesn't name unchanged: their records aren't read. The
// queries that it requests are returned if they are only about named sources.
fn apply_to_named(
    world: &mut World,
    meter: &mut Meter,
    alloc: Global,
    seen: SeenRecord,
    sources: &[Addr],
) -> Result<Asking, AllocError>
    requires near { seen.place.iface.number < 120 }
    requires keeps { keeps_others seen.record_type ≡ true }
    ensures state { OnOk result (world.new ≡ with_record world.old seen.place.iface.number seen.place.group.bits
        (apply_record seen.full (record_of world.old seen.place.iface.number seen.place.group.bits) seen.record_type
        (bits_of sources.now)).0) }
    ensures asked { asks_named seen.record_type ≡ true → IfOk result (λ asked. asked
        ≡ (apply_record seen.full (record_of world.old seen.place.iface.number seen.place.group.bits) seen.record_type
        (bits_of sources.now)).1) }
{
    // For the proof: each source has one record, under its own key, and the sources rise.
    world.membership().proof_rising_source_records();
    world.membership().proof_keyed_source_records();
    let _ = world
        .membership()
        .source_records_at(seen.place.iface, seen.place.group);
    let mut known = named_record(world, alloc, seen.place, sources)?;
    let mut asked = Asking::new();
    known.apply(seen.record_type, sources, seen.full, &mut asked)?;
    write_beside(world, meter, alloc, seen.place, &known)?;
    Ok(asked)
}

// The queries that a record of a report requests, by those of its group's sources whose timers expire later than a query
// lets them: of the others none is queried. Those sources are read alone that are to be queried.
fn asked_of_running(
    world: &World,
    alloc: Global,
    seen: SeenRecord,
    sources: &[Addr],
    looked: &mut Looked,
) -> Result<Asking, AllocError>
    requires keeps { keeps_others seen.record_type ≡ true }
    requires others { asks_named seen.record_type ≡ false }
    requires known { ListsLate seen.place.iface.number looked.old.end looked.old.groups.items looked.old.late.items
        world.now.source_records }
    ensures asked { IfOk result (λ asked. AsksAlike world.now seen.place.iface.number seen.place.group.bits
        (apply_record seen.full (record_of world.now seen.place.iface.number seen.place.group.bits) seen.record_type
        (bits_of sources.now)) asked) }
    ensures known { OnOk result (ListsLate seen.place.iface.number looked.new.end looked.new.groups.items
        looked.new.late.items world.now.source_records) }
{
    // For the proof: each source has one record, under its own key, and the sources rise.
    world.membership().proof_rising_source_records();
    world.membership().proof_keyed_source_records();
    let _ = world
        .membership()
        .source_records_at(seen.place.iface, seen.place.group);
    let end = query_end(world, seen.place.iface);
    let mut known = record_past(world, alloc, seen.place, end, looked)?;
    let mut asked = Asking::new();
    known.apply(seen.record_type, sources, seen.full, &mut asked)?;
    Ok(asked)
}

// Applies a record of a report that may delete any of the group's sources.
fn apply_to_all(
    world: &mut World,
    meter: &mut Meter,
    alloc: Global,
    seen: SeenRecord,
    sources: &[Addr],
) -> Result<Asking, AllocError>
    requires { seen.place.iface.number < 120 }
    ensures state { OnOk result (world.new ≡ with_record world.old seen.place.iface.number seen.place.group.bits
        (apply_record seen.full (record_of world.old seen.place.iface.number seen.place.group.bits) seen.record_type
        (bits_of sources.now)).0) }
    ensures asked { IfOk result (λ asked. asked
        ≡ (apply_record seen.full (record_of world.old seen.place.iface.number seen.place.group.bits) seen.record_type
        (bits_of sources.now)).1) }
{
    let mut known = record_of(world, alloc, seen.place)?;
    let mut asked = Asking::new();
    known.apply(seen.record_type, sources, seen.full, &mut asked)?;
    set_record(world, meter, alloc, seen.place, &known)?;
    Ok(asked)
}

// Whether sources that the record doesn't name are unchanged.
pub(crate) fn keeps_others(record_type: RecordType) -> bool
    ensures { result ≡ keeps_others record_type }
{
    !matches!(record_type, RecordType::IsExclude | RecordType::ToExclude)
}

// Whether the queries that the record requests are only about sources that it names.
fn asks_named(record_type: RecordType) -> bool
    ensures { result ≡ asks_named record_type }
{
    matches!(
        record_type,
        RecordType::IsInclude | RecordType::Allow | RecordType::Block
    )
}

/// Applies a record of a report, on an interface below 120, with when its timers expire, in ms, if they are set. The
/// result is the queries that the record requests, if the router sends them, perhaps without sources that are then not
/// queried, since their timers expire soon enough. If the record deletes no source, the records of sources that it
/// doesn't name aren't written, and they aren't read but for such queries, where no earlier record of the report read
/// them. The meter rises by the nodes visited.
pub fn apply(
    world: &mut World,
    meter: &mut Meter,
    alloc: Global,
    seen: SeenRecord,
    sources: &[Addr],
    queries: bool,
    looked: &mut Looked,
) -> Result<Asking, AllocError>
    requires below { seen.place.iface.number < 120 }
    requires known { ListsLate seen.place.iface.number looked.old.end looked.old.groups.items looked.old.late.items
        world.old.source_records }
    ensures state { OnOk result (world.new ≡ with_record world.old seen.place.iface.number seen.place.group.bits
        (apply_record seen.full (record_of world.old seen.place.iface.number seen.place.group.bits) seen.record_type
        (bits_of sources.now)).0) }
    ensures asked { queries ≡ true → IfOk result (λ asked. AsksAlike world.old seen.place.iface.number
        seen.place.group.bits
        (apply_record seen.full (record_of world.old seen.place.iface.number seen.place.group.bits) seen.record_type
        (bits_of sources.now)) asked) }
    ensures known { OnOk result (ListsLate seen.place.iface.number looked.new.end looked.new.groups.items
        looked.new.late.items world.old.source_records) }
{
    if !keeps_others(seen.record_type) {
        return apply_to_all(world, meter, alloc, seen, sources);
    }
    if asks_named(seen.record_type) || !queries {
        return apply_to_named(world, meter, alloc, seen, sources);
    }
    let asked = asked_of_running(world, alloc, seen, sources, looked)?;
    apply_to_named(world, meter, alloc, seen, sources)?;
    Ok(asked)
}
