//! How querying starts, and goes on.
ghost use Rattle.std.specs.Prelude.{◌≡◌, ◌<◌, ◌^◌, OnOk, if◌then◌else◌, nat_lt};
ghost use Rattle.pim_model.specs.Querier.{general_query_due, querier_up, query_interval, startup_query_interval};
ghost use Rattle.pim_state.specs.Turns.{saying};

use crate::intervals::{query_interval, startup_query_interval};
use crate::queries::general_query;
use pim_state::{Turn, World};
use pim_types::IfaceId;
use std::alloc::AllocError;

// [Startup Query Interval] is a quarter of the query interval, in ms here.
const STARTUP_SHARE: u64 = 1000 / 4;

/// Starts querying on an interface that goes up (RFC 3376, sections 6.6.2 and 8.6): a general query is
/// to leave at once, the first of [Startup Query Count] ones, and the next in the startup query interval.
pub fn up(world: &mut World, turn: &mut Turn, iface: IfaceId) -> Result<(), AllocError>
    ensures state { OnOk result (world.new ≡ (querier_up world.old iface.number).0) }
    ensures messages { OnOk result (turn.new ≡ saying turn.old (querier_up world.old iface.number).1) }
{
    let settings = world.settings();
    let next_query = world.present() + STARTUP_SHARE * u64::from(settings.query_interval);
    world.start_querying(iface, next_query, settings.robustness as u8 - 1)?;
    turn.out.query(iface, &general_query(world, iface), &[])
}

// How long the router waits after a general query, in ms, if `startup_left` of the startup queries were to leave with
// it.
fn interval_after(world: &World, iface: IfaceId, startup_left: u8) -> u64
    ensures value { result ≡ (if nat_lt 1 startup_left then startup_query_interval world.now iface.number
        else query_interval world.now iface.number) }
    ensures within { result < 2 ^ 26 }
{
    if startup_left > 1 {
        startup_query_interval(world, iface)
    } else {
        query_interval(world, iface)
    }
}

/// A general query is due, with which `startup_left` of the startup queries are still to leave (RFC 3376, sections
/// 6.6.2, 8.2 and 8.6).
#[tactic(auto, unfolding(pim_model::specs::Querier::general_query_due))]
pub fn general_query_due(
    world: &mut World,
    turn: &mut Turn,
    iface: IfaceId,
    startup_left: u8,
) -> Result<(), AllocError>
    ensures state { OnOk result (world.new ≡ (general_query_due world.old iface.number startup_left).0) }
    ensures messages { OnOk result (turn.new
        ≡ saying turn.old (general_query_due world.old iface.number startup_left).1) }
{
    let query = general_query(world, iface);
    let next_query = world.present() + interval_after(world, iface, startup_left);
    world.update_querier(iface, next_query, startup_left.saturating_sub(1))?;
    turn.out.query(iface, &query, &[])
}
