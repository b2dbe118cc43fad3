//! A report of a host (RFC 3376, sections 4.2 and 6.4).
ghost use Rattle.std.specs.Prelude.{◌≡◌, ◌<◌, IfOk, OnOk, true};
ghost use Rattle.pim_state.specs.Turns.{saying};
ghost use Rattle.pim_model.specs.Querier.{is_skipped, record_seen, report_seen};
ghost use Rattle.pim_model.specs.Records.{with_record};
ghost use Rattle.pim_model.specs.Tables.{Table};
ghost use Rattle.pim_querier.specs.Changes.{applied};
ghost use Rattle.pim_querier.specs.Looking.{GrowsLate, ListsLate};
ghost use Rattle.pim_types.specs.declared.fact.SourceRecordRow.{SourceRecordRow};
ghost use Rattle.pim_querier.specs.Reports.{AsksAlike};
ghost use Rattle.igmp_wire.specs.Written.{bits_of};

use crate::applying::{SeenRecord, apply};
use crate::asked::query_asked;
use crate::election::is_querier;
use crate::intervals::group_membership_interval;
use crate::looked::Looked;
use crate::place::IfaceGroup;
use igmp_wire::{RecordType, RecordView, ReportView};
use pim_filters::Asking;
use pim_state::{Meter, Turn, World};
use pim_types::{Addr, IfaceId};
use std::alloc::{AllocError, Global};

// The sources that the group record names, in its order.
fn sources_of(alloc: Global, group_record: &RecordView<'_>) -> Result<Vec<Addr>, AllocError>
    ensures { IfOk result (λ sources. bits_of sources.items ≡ group_record.now.sources) }
{
    let mut sources = Vec::new(alloc);
    for source in group_record.sources() {
        sources.push(source)?;
    }
    Ok(sources)
}

// Changes the group's record on the interface by a record of a report, whose timers are set to [Group Membership
// Interval] (RFC 3376, sections 6.4.1 and 6.4.2). The result is the queries that are requested, if the router sends them.
fn apply_record(
    world: &mut World,
    meter: &mut Meter,
    alloc: Global,
    iface: IfaceId,
    group_record: &RecordView<'_>,
    queries: bool,
    looked: &mut Looked,
) -> Result<Asking, AllocError>
    requires below { iface.number < 120 }
    requires known { ListsLate iface.number looked.old.end looked.old.groups.items looked.old.late.items
        world.old.source_records }
    ensures state { OnOk result (world.new ≡ with_record world.old iface.number group_record.now.group
        (applied world.old iface.number group_record.now).0) }
    ensures asked { queries ≡ true → IfOk result (λ asked. AsksAlike world.old iface.number group_record.now.group
        (applied world.old iface.number group_record.now) asked) }
    ensures known { OnOk result ((after : Table SourceRecordRow)
        → GrowsLate iface.number group_record.now.group group_record.now.sources world.old.source_records after
        → ListsLate iface.number looked.new.end looked.new.groups.items looked.new.late.items after) }
{
    let full = world.present() + group_membership_interval(world, iface);
    let sources = sources_of(alloc, group_record)?;
    let seen = SeenRecord {
        place: IfaceGroup {
            iface,
            group: group_record.group(),
        },
        record_type: group_record.record_type(),
        full,
    };
    let asked = apply(world, meter, alloc, seen, &sources, queries, looked)?;
    looked.name(seen.place, &sources)?;
    Ok(asked)
}

// Takes a group record; the queries that it requests are sent, if the router is the querier.
fn record_seen(
    world: &mut World,
    turn: &mut Turn,
    meter: &mut Meter,
    iface: IfaceId,
    group_record: &RecordView<'_>,
    looked: &mut Looked,
) -> Result<(), AllocError>
    requires below { iface.number < 120 }
    requires known { ListsLate iface.number looked.old.end looked.old.groups.items looked.old.late.items
        world.old.source_records }
    ensures state { OnOk result (world.new ≡ (record_seen iface.number world.old group_record.now).0) }
    ensures messages { OnOk result (turn.new
        ≡ saying turn.old (record_seen iface.number world.old group_record.now).1) }
    ensures known { OnOk result (ListsLate iface.number looked.new.end looked.new.groups.items
        looked.new.late.items world.new.source_records) }
{
    // For the proof: each is under the key of a source.
    world.membership().proof_keyed_source_records();
    let queries = is_querier(world, iface);
    let asked = apply_record(
        world,
        meter,
        turn.alloc,
        iface,
        group_record,
        queries,
        looked,
    )?;
    if !queries {
        return Ok(());
    }
    let place = IfaceGroup {
        iface,
        group: group_record.group(),
    };
    query_asked(world, turn, meter, place, &asked)
}

/// Whether a group record is skipped: one that would exclude sources of a source-specific group (RFC 4604, section
/// 2.2).
pub fn is_skipped(group_record: &RecordView<'_>) -> bool
    ensures { result ≡ is_skipped group_record.now }
{
    group_record.group().is_source_specific()
        && matches!(
            group_record.record_type(),
            RecordType::IsExclude | RecordType::ToExclude
        )
}

/// Takes a report that came on an interface below 120: its group records in their order, without those that are
/// skipped. Each changes what is known of its group. If the router is the querier, it sends the queries that the record
/// requests, and lowers the timers of what it queries. The meter rises by the nodes visited.
#[tactic(auto, unfolding(pim_model::specs::Querier::report_seen))]
pub fn report_seen(
    world: &mut World,
    turn: &mut Turn,
    meter: &mut Meter,
    iface: IfaceId,
    report: &ReportView<'_>,
) -> Result<(), AllocError>
    requires { iface.number < 120 }
    ensures state { OnOk result (world.new ≡ (report_seen world.old iface.number report.now).0) }
    ensures messages { OnOk result (turn.new ≡ saying turn.old (report_seen world.old iface.number report.now).1) }
{
    let mut looked = Looked::new(turn.alloc);
    for group_record in report.records() {
        if !is_skipped(&group_record) {
            record_seen(world, turn, meter, iface, &group_record, &mut looked)?;
        }
    }
    Ok(())
}
