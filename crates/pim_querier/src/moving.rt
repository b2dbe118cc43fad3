//! Which sources a report moves (RFC 3376, section 6.4): those that are added, removed or change sides, where no group
//! changes its mode. Of others at most the timers are set.
ghost use Rattle.std.specs.Prelude.{◌≡◌, ◌++◌, [], ◌∷◌, IfOk, OnOk, filter, map};
ghost use Rattle.pim_model.specs.Records.{is_at_group};
ghost use Rattle.pim_querier.specs.Reports.{all_keep_modes, keeps_mode, moved_named, moved_others, moved_sources, stays};
ghost use Rattle.pim_model.specs.Cause.{is_including};

use crate::applying::keeps_others;
use crate::place::IfaceGroup;
use crate::records::has_sources;
use crate::report::is_skipped;
use igmp_wire::{RecordType, RecordView, ReportView};
use pim_state::World;
use pim_types::fact::SourceRecordRow;
use pim_types::{IfaceId, Key, Series};
use std::alloc::{AllocError, Global};

// Whether the sources that a record of this type names are included afterwards.
fn is_including(record_type: RecordType) -> bool
    ensures { result ≡ is_including record_type }
{
    matches!(
        record_type,
        RecordType::IsInclude | RecordType::Allow | RecordType::ToInclude
    )
}

// Whether a source that the record names still has a row after it, on the same side, by its row before.
fn stays(record_type: RecordType, row: Option<SourceRecordRow>) -> bool
    ensures { result ≡ stays record_type row }
{
    match row {
        Some(row) => !is_including(record_type) || row.end.is_some(),
        None => false,
    }
}

// Whether the record's group keeps its mode, which may be INCLUDE without a record.
#[tactic(auto, unfolding(crate::specs::Reports::keeps_mode))]
fn keeps_mode(world: &World, iface: IfaceId, group_record: &RecordView<'_>) -> bool
    ensures { result ≡ keeps_mode world.now iface.number group_record.now }
{
    let place = IfaceGroup {
        iface,
        group: group_record.group(),
    };
    if world.group_end(place.iface, place.group).is_some() {
        return true;
    }
    keeps_others(group_record.record_type())
        && world.has_group_record(place.iface, place.group) == has_sources(world, place)
}

/// Whether the groups of all records of the report that aren't skipped keep their modes.
#[tactic(auto, unfolding(crate::specs::Reports::all_keep_modes))]
pub fn all_keep_modes(world: &World, iface: IfaceId, report: &ReportView<'_>) -> bool
    ensures { result ≡ all_keep_modes world.now iface.number report.now }
{
    for group_record in report.records() {
        if !is_skipped(&group_record) && !keeps_mode(world, iface, &group_record) {
            return false;
        }
    }
    true
}

// Puts the keys of the named sources that come or change sides behind the others.
fn push_named(
    world: &World,
    iface: IfaceId,
    group_record: &RecordView<'_>,
    keys: &mut Vec<Key>,
) -> Result<(), AllocError>
    ensures { OnOk result (keys.new.items
        ≡ keys.old.items ++ moved_named world.now.source_records iface.number group_record.now) }
{
    let (group, record_type) = (group_record.group(), group_record.record_type());
    for source in group_record.sources() {
        let row = world.membership().source_record(iface, group, source);
        if !stays(record_type, row) {
            keys.push(Key::source(iface, group, source))?;
        }
    }
    Ok(())
}

// Puts the keys of all sources of the group that have records behind the others.
fn push_sources_at(world: &World, place: IfaceGroup, keys: &mut Vec<Key>) -> Result<(), AllocError>
    ensures { OnOk result (keys.new.items ≡ keys.old.items ++ map (λ e. e.0)
        (filter (λ e. is_at_group place.iface.number place.group.bits e.0) world.now.source_records)) }
{
    for (key, _) in world
        .membership()
        .source_records_at(place.iface, place.group)
    {
        keys.push(*key)?;
    }
    Ok(())
}

// Adds the sources of the group that a record of this type deletes where it doesn't name them.
fn push_others(
    world: &World,
    iface: IfaceId,
    group_record: &RecordView<'_>,
    keys: &mut Vec<Key>,
) -> Result<(), AllocError>
    ensures { OnOk result (keys.new.items
        ≡ keys.old.items ++ moved_others world.now.source_records iface.number group_record.now) }
{
    if keeps_others(group_record.record_type()) {
        return Ok(());
    }
    let place = IfaceGroup {
        iface,
        group: group_record.group(),
    };
    push_sources_at(world, place, keys)
}

// Puts the keys of the sources that the record moves behind the others, unless it is skipped.
#[tactic(auto, unfolding(crate::specs::Reports::moved_sources))]
fn push_moved(
    world: &World,
    iface: IfaceId,
    group_record: &RecordView<'_>,
    keys: &mut Vec<Key>,
) -> Result<(), AllocError>
    ensures { OnOk result (keys.new.items
        ≡ keys.old.items ++ moved_sources world.now iface.number (group_record.now ∷ [])) }
{
    if is_skipped(group_record) {
        return Ok(());
    }
    push_named(world, iface, group_record, keys)?;
    push_others(world, iface, group_record, keys)
}

/// The keys of the sources that a report moves: of those that its records name the ones that come or change sides, and
/// of a group of which a record deletes what it doesn't name all that are there.
pub fn moved_sources(
    world: &World,
    alloc: Global,
    iface: IfaceId,
    report: &ReportView<'_>,
) -> Result<Series<Key>, AllocError>
    ensures { IfOk result (λ keys. keys ≡ moved_sources world.now iface.number report.now) }
{
    let mut keys = Vec::new(alloc);
    for group_record in report.records() {
        push_moved(world, iface, &group_record, &mut keys)?;
    }
    Ok(Series::from_vec(keys))
}
