//! A downstream state as a message leaves it.
ghost use Rattle.std.specs.Prelude.{◌≡◌, true};
ghost use Rattle.pim_model.specs.Downstream.{joined_row, prune_pending_end, pruned_row, pruned_rpt_row, row_after};
ghost use Rattle.pim_model.specs.Tables.{later_end, row_at};

use crate::indexed::Indexed;
use pim_neighbours::holdtime_end;
use pim_state::World;
use pim_types::fact::DownstreamRow;
use pim_types::{IfaceId, Key};

/// The later of two timestamps, in ms. `None` never expires.
pub fn later_end(first: Option<u64>, second: Option<u64>) -> Option<u64>
    ensures { result ≡ later_end first second }
{
    match (first, second) {
        (Some(first), Some(second)) => Some(first.max(second)),
        _ => None,
    }
}

/// (*,G) or (S,G) after a Join that expires at this timestamp, in ms, and has this holdtime, in seconds. A row that is
/// there takes the later timestamp, and is no more in Prune-Pending. Where there is none the Join makes it, unless its
/// holdtime is 0.
pub fn joined_row(
    end: Option<u64>,
    holdtime: u16,
    row: Option<DownstreamRow>,
) -> Option<DownstreamRow>
    ensures { result ≡ joined_row end holdtime row }
{
    let expiry = match row {
        Some(row) => later_end(row.expiry, end),
        None if holdtime == 0 => return None,
        None => end,
    };
    Some(DownstreamRow {
        expiry,
        pending: None,
    })
}

/// (*,G) or (S,G) after a Prune. A row in Join waits for an override until this timestamp, in ms; without one it is
/// removed.
pub fn pruned_row(pending: Option<u64>, row: Option<DownstreamRow>) -> Option<DownstreamRow>
    ensures { result ≡ pruned_row pending row }
{
    let row = row?;
    if row.pending.is_some() {
        return Some(row);
    }
    match pending {
        Some(_) => Some(DownstreamRow { pending, ..row }),
        None => None,
    }
}

/// (S,G,rpt) after a Prune. A row that is there takes the later timestamp. Where there is none the Prune makes it,
/// unless its holdtime is 0.
pub fn pruned_rpt_row(
    end: Option<u64>,
    holdtime: u16,
    pending: Option<u64>,
    row: Option<DownstreamRow>,
) -> Option<DownstreamRow>
    ensures { result ≡ pruned_rpt_row end holdtime pending row }
{
    match row {
        Some(row) => Some(DownstreamRow {
            expiry: later_end(row.expiry, end),
            ..row
        }),
        None if holdtime == 0 => None,
        None => Some(DownstreamRow {
            expiry: end,
            pending,
        }),
    }
}

// (S,G,rpt) after a message with these keys and a holdtime, in seconds, where this is its row. When a Prune takes effect
// is found only where there is one.
#[tactic(auto, unfolding(pim_model::specs::Downstream::row_after))]
fn rpt_row_after(
    world: &World,
    iface: IfaceId,
    holdtime: u16,
    named: &Indexed<'_>,
    key: Key,
    row: Option<DownstreamRow>,
) -> Option<DownstreamRow>
    requires row { row ≡ row_at world.now.downstream key }
    requires rpt { key.rpt ≡ true }
    ensures { result ≡ row_after world.now iface.number holdtime named.now.joined.items named.now.pruned.items key }
{
    let left = if named.joins(key) { None } else { row };
    if named.prunes(key) {
        let end = holdtime_end(world.present(), holdtime);
        return pruned_rpt_row(end, holdtime, world.prune_pending_end(iface), left);
    }
    if named.joins(Key::star(iface, key.group)) {
        return None;
    }
    left
}

/// The row of a key after a message with these keys and a holdtime, in seconds, where this is its row. When a Prune
/// takes effect is found only where there is one.
#[tactic(auto, unfolding(pim_model::specs::Downstream::row_after))]
pub(crate) fn row_after(
    world: &World,
    iface: IfaceId,
    holdtime: u16,
    named: &Indexed<'_>,
    key: Key,
    row: Option<DownstreamRow>,
) -> Option<DownstreamRow>
    requires { row ≡ row_at world.now.downstream key }
    ensures { result ≡ row_after world.now iface.number holdtime named.now.joined.items named.now.pruned.items key }
{
    if key.rpt {
        return rpt_row_after(world, iface, holdtime, named, key, row);
    }
    let joined = if named.joins(key) {
        joined_row(holdtime_end(world.present(), holdtime), holdtime, row)
    } else {
        row
    };
    if named.prunes(key) {
        pruned_row(world.prune_pending_end(iface), joined)
    } else {
        joined
    }
}
