//! Which reports change no more than when the timers of their groups expire (RFC 3376, section 6.4.1).
ghost use Rattle.pim_model.specs.Records.{is_at_group};
ghost use Rattle.pim_model.specs.Tables.{is_empty_list};
ghost use Rattle.pim_plan.specs.Renewing.{all_renew, excludes_none, renews};
ghost use Rattle.std.specs.List.{list_any};
ghost use Rattle.std.specs.Prelude.{◌≡◌};

use igmp_wire::{RecordType, RecordView, ReportView};
use pim_state::World;
use pim_types::{Addr, IfaceId};

// Whether a record names no source.
fn names_none(group_record: &RecordView<'_>) -> bool
    ensures { result ≡ is_empty_list group_record.now.sources }
{
    group_record.sources().next().is_none()
}

// Whether a record is IS_EX of no source, of a group that isn't source-specific.
#[tactic(auto, unfolding(crate::specs::Renewing::excludes_none))]
fn excludes_none(group_record: &RecordView<'_>) -> bool
    ensures { result ≡ excludes_none group_record.now }
{
    matches!(group_record.record_type(), RecordType::IsExclude)
        && names_none(group_record)
        && !group_record.group().is_source_specific()
}

// Whether a source of the group has a record on the interface.
fn has_sources(world: &World, iface: IfaceId, group: Addr) -> bool
    ensures { result ≡ list_any (λ e. is_at_group iface.number group.bits e.0) world.now.source_records }
{
    world
        .membership()
        .source_records_at(iface, group)
        .next()
        .is_some()
}

// Whether a record excludes none of a group in EXCLUDE of which no source has a record, and none is to be queried.
#[tactic(auto, unfolding(crate::specs::Renewing::renews))]
fn renews(world: &World, iface: IfaceId, group_record: &RecordView<'_>) -> bool
    ensures { result ≡ renews world.now iface.number group_record.now }
{
    let group = group_record.group();
    excludes_none(group_record)
        && world.group_end(iface, group).is_some()
        && !has_sources(world, iface, group)
        && !world.has_sendings(iface, group)
}

/// Whether all records of the report are such. The first other one ends the search.
#[tactic(auto, unfolding(crate::specs::Renewing::all_renew))]
pub(crate) fn all_renew(world: &World, iface: IfaceId, report: &ReportView<'_>) -> bool
    ensures { result ≡ all_renew world.now iface.number report.now }
{
    for group_record in report.records() {
        if !renews(world, iface, &group_record) {
            return false;
        }
    }
    true
}
