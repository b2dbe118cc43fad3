//! A Join/Prune or a report that repeats what is known, taken in place: the ends of the rows are moved that it names.
ghost use Rattle.law_settled.specs.Ready.{IsOrdered};
ghost use Rattle.pim_downstream.specs.Naming.{are_on};
ghost use Rattle.pim_model.specs.Downstream.{keys_taken};
ghost use Rattle.pim_model.specs.Querier.{group_membership_interval};
ghost use Rattle.pim_model.specs.Tables.{put};
ghost use Rattle.pim_plan.specs.Rejoining.{repeats, rows_put};
ghost use Rattle.pim_plan.specs.Renewing.{group_renewed, groups_renewed};
ghost use Rattle.pim_types.specs.Keys.{star_key};
ghost use Rattle.std.specs.Prelude.{◌≡◌, ◌+◌, ◌<◌, OnOk, Some, true};

use igmp_wire::{RecordView, ReportView};
use pim_downstream::Named;
use pim_neighbours::holdtime_end;
use pim_querier::intervals::group_membership_interval;
use pim_state::{Meter, World};
use pim_types::fact::{DownstreamRow, GroupRecordRow};
use pim_types::{IfaceId, Key};
use std::alloc::AllocError;

// Puts the row under each of the keys.
#[tactic(auto, unfolding(pim_plan::specs::Rejoining::row_put, pim_plan::specs::Rejoining::rows_put))]
fn put_rows(
    world: &mut World,
    meter: &mut Meter,
    iface: IfaceId,
    keys: &[Key],
    row: DownstreamRow,
) -> Result<(), AllocError>
    requires within { iface.number < 120 }
    requires on { are_on iface.number keys.now ≡ true }
    ensures { OnOk result (world.new ≡ rows_put row world.old keys.now) }
{
    for key in keys {
        world.store_mut().set_downstream(*key, Some(row), meter)?;
    }
    Ok(())
}

/// Takes a Join/Prune to the router that names these keys, has a holdtime, in seconds, and repeats what is known. If an
/// allocation fails, some ends may be moved and others not.
pub(crate) fn take_again(
    world: &mut World,
    meter: &mut Meter,
    iface: IfaceId,
    holdtime: u16,
    named: &Named,
) -> Result<(), AllocError>
    requires within { iface.number < 120 }
    requires ordered { IsOrdered world.old }
    requires joined { are_on iface.number named.now.joined.items ≡ true }
    requires again { repeats world.old holdtime named.now.joined.items named.now.pruned.items ≡ true }
    ensures { OnOk result (world.new
        ≡ keys_taken world.old iface.number holdtime named.now.joined.items named.now.pruned.items) }
{
    let row = DownstreamRow {
        expiry: holdtime_end(world.present(), holdtime),
        pending: None,
    };
    put_rows(world, meter, iface, &named.joined, row)
}

// Sets the timer of the record's group until a timestamp, in ms.
#[tactic(auto, unfolding(pim_model::specs::Tables::set_row))]
fn set_group_end(
    world: &mut World,
    meter: &mut Meter,
    iface: IfaceId,
    group_record: &RecordView<'_>,
    end: u64,
) -> Result<(), AllocError>
    requires { iface.number < 120 }
    ensures { OnOk result (world.new ≡ record world.old {
      group_records = put world.old.group_records (star_key iface.number group_record.now.group) (record { end = Some end });
    }) }
{
    let row = GroupRecordRow { end: Some(end) };
    world
        .membership_mut()
        .set_group_record(iface, group_record.group(), Some(row), meter)
}

// Renews the record's group until a timestamp, in ms.
#[tactic(auto, unfolding(pim_plan::specs::Renewing::group_renewed))]
fn renew(
    world: &mut World,
    meter: &mut Meter,
    iface: IfaceId,
    group_record: &RecordView<'_>,
    end: u64,
) -> Result<(), AllocError>
    requires { iface.number < 120 }
    ensures { OnOk result (world.new ≡ group_renewed iface.number end world.old group_record.now) }
{
    set_group_end(world, meter, iface, group_record, end)?;
    world
        .membership_mut()
        .remove_source_repeat(iface, group_record.group());
    Ok(())
}

/// Takes a report that changes no more than when the timers of its groups expire. If an allocation fails, some timers may
/// be set and others not.
#[tactic(auto, unfolding(pim_plan::specs::Renewing::groups_renewed))]
pub(crate) fn take_renewed(
    world: &mut World,
    meter: &mut Meter,
    iface: IfaceId,
    report: &ReportView<'_>,
) -> Result<(), AllocError>
    requires { iface.number < 120 }
    ensures { OnOk result (world.new ≡ groups_renewed iface.number
        (world.old.present + group_membership_interval world.old iface.number) world.old report.now) }
{
    let end = world.present() + group_membership_interval(world, iface);
    for group_record in report.records() {
        renew(world, meter, iface, &group_record, end)?;
    }
    Ok(())
}
