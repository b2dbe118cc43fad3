//! The keys that a report names, and whether there is room for its facts.
ghost use Rattle.std.specs.Prelude.{◌≡◌, ◌++◌, ◌+◌, ◌<◌, ◌^◌, [], ◌∷◌, IfOk, IfSome, OnOk, false, map};
ghost use Rattle.pim_model.specs.State.{State};
ghost use Rattle.pim_model.specs.Tables.{Table, has_row};
ghost use Rattle.pim_model.specs.Full.{needed, passes_limit, report_is_full, reported_groups, reported_sources};
ghost use Rattle.pim_querier.specs.Reports.{named_count};
ghost use Rattle.pim_types.specs.Keys.{source_key};

use crate::report::is_skipped;
use igmp_wire::{RecordView, ReportView};
use pim_state::World;
use pim_types::fact::{GroupRecordRow, SourceRecordRow};
use pim_types::{IfaceId, Key, Series};
use std::alloc::{AllocError, Global};
use std::collections::BTreeSet;

// The keys of the groups, and of their sources, that the group records of a report name, in its order. Those that are
// skipped name none.
#[derive(Drop)]
struct ReportedKeys {
    groups: Vec<Key>,
    sources: Vec<Key>,
}

// Puts the keys of the group record's sources behind the others.
fn push_sources(
    iface: IfaceId,
    group_record: &RecordView<'_>,
    keys: &mut Vec<Key>,
) -> Result<(), AllocError>
    ensures { OnOk result (keys.new.items ≡ keys.old.items
        ++ map (source_key iface.number group_record.now.group) group_record.now.sources) }
{
    let group = group_record.group();
    for source in group_record.sources() {
        keys.push(Key::source(iface, group, source))?;
    }
    Ok(())
}

// Puts what the group record names behind the others, unless it is skipped.
#[tactic(auto, unfolding(pim_model::specs::Full::reported_groups, pim_model::specs::Full::reported_sources))]
fn push_named(
    iface: IfaceId,
    group_record: &RecordView<'_>,
    groups: &mut Vec<Key>,
    sources: &mut Vec<Key>,
) -> Result<(), AllocError>
    ensures groups { OnOk result (groups.new.items
        ≡ groups.old.items ++ reported_groups iface.number (group_record.now ∷ [])) }
    ensures sources { OnOk result (sources.new.items
        ≡ sources.old.items ++ reported_sources iface.number (group_record.now ∷ [])) }
{
    if is_skipped(group_record) {
        return Ok(());
    }
    groups.push(Key::star(iface, group_record.group()))?;
    push_sources(iface, group_record, sources)
}

// What the report names on an interface.
fn reported(
    alloc: Global,
    iface: IfaceId,
    report: &ReportView<'_>,
) -> Result<ReportedKeys, AllocError>
    ensures groups { IfOk result (λ keys. keys.groups.items ≡ reported_groups iface.number report.now) }
    ensures sources { IfOk result (λ keys. keys.sources.items ≡ reported_sources iface.number report.now) }
{
    let mut groups = Vec::new(alloc);
    let mut sources = Vec::new(alloc);
    for group_record in report.records() {
        push_named(iface, &group_record, &mut groups, &mut sources)?;
    }
    Ok(ReportedKeys { groups, sources })
}

/// The keys that a report names on an interface: of the groups of its records, and of their sources.
pub fn named_keys(
    alloc: Global,
    iface: IfaceId,
    report: &ReportView<'_>,
) -> Result<Series<Key>, AllocError>
    ensures { IfOk result (λ keys. keys
        ≡ reported_groups iface.number report.now ++ reported_sources iface.number report.now) }
{
    let ReportedKeys {
        mut groups,
        sources,
    } = reported(alloc, iface, report)?;
    groups.extend_from_slice(&sources)?;
    Ok(Series::from_vec(groups))
}

// A record that a report makes where there is none.
trait Made {
    // The table of the records of one kind.
    ghost rows: { State → Table Self };

    // Whether a record of the kind is under the key.
    fn is_there(world: &World, key: Key) -> bool
        ensures { result ≡ has_row (rows world.now) key };
}

impl Made for GroupRecordRow {
    ghost rows = { λ s. s.group_records };

    fn is_there(world: &World, key: Key) -> bool {
        world.membership().has_group_record(key)
    }
}

impl Made for SourceRecordRow {
    ghost rows = { λ s. s.source_records };

    fn is_there(world: &World, key: Key) -> bool {
        world.membership().has_source_record(key)
    }
}

// How many of the keys have no such record, each counted once.
fn missing<R: Made>(world: &World, alloc: Global, keys: &[Key]) -> Result<usize, AllocError>
    ensures missing { IfOk result (λ missing. missing ≡ needed (R.rows world.now) keys.now) }
    ensures small { IfOk result (λ missing. missing < 2 ^ 63) }
{
    let mut missing = BTreeSet::new(alloc);
    for key in keys {
        if !R::is_there(world, *key) {
            missing.insert(*key)?;
        }
    }
    Ok(missing.len())
}

// How many keys a group record names, counted on from those that were named before it; none where that would pass the
// limit.
#[tactic(auto, unfolding(crate::specs::Reports::named_count))]
fn count_named(group_record: &RecordView<'_>, before: u32, limit: u32) -> Option<u32>
    ensures { IfSome result (λ named. named ≡ before + named_count (group_record.now ∷ [])) }
{
    if is_skipped(group_record) {
        return Some(before);
    }
    let mut named = before;
    for _source in group_record.sources() {
        if named >= limit {
            return None;
        }
        named += 1;
    }
    if named >= limit {
        return None;
    }
    Some(named + 1)
}

// How many keys a report names; none where they pass the limit.
#[tactic(auto, unfolding(crate::specs::Reports::named_count))]
fn count_all_named(report: &ReportView<'_>, limit: u32) -> Option<u32>
    ensures { IfSome result (λ named. named ≡ named_count report.now) }
{
    let mut named = 0;
    for group_record in report.records() {
        named = count_named(&group_record, named, limit)?;
    }
    Some(named)
}

// Whether a record for each key that the report names would pass the limit on facts, were none there.
fn may_be_full(world: &World, report: &ReportView<'_>) -> bool
    ensures { result ≡ false → passes_limit world.now (named_count report.now) ≡ false }
{
    match count_all_named(report, world.settings().limit) {
        Some(named) => world.passes_limit(named as usize),
        None => true,
    }
}

/// Whether the records that a report would make on an interface pass the limit on facts. None is looked up where there
/// is room for all that it names.
#[tactic(auto, unfolding(pim_model::specs::Full::report_is_full))]
pub fn is_full(
    world: &World,
    alloc: Global,
    iface: IfaceId,
    report: &ReportView<'_>,
) -> Result<bool, AllocError>
    ensures { IfOk result (λ full. full ≡ report_is_full world.now iface.number report.now) }
{
    if !may_be_full(world, report) {
        return Ok(false);
    }
    let reported = reported(alloc, iface, report)?;
    let groups = missing::<GroupRecordRow>(world, alloc, &reported.groups)?;
    let sources = missing::<SourceRecordRow>(world, alloc, &reported.sources)?;
    Ok(world.passes_limit(groups + sources))
}
