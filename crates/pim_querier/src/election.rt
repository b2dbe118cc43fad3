//! Which router queries (RFC 3376, section 6.6.2).
ghost use Rattle.std.specs.Prelude.{◌≡◌, ◌≤◌, ℕ, OnOk};
ghost use Rattle.pim_model.specs.Querier.{given_or, is_querier, other_querier_gone, querier_elected};
ghost use Rattle.pim_state.specs.Turns.{saying};

use crate::queries::general_query;
use pim_state::{Turn, World};
use pim_types::IfaceId;
use pim_types::fact::{QuerierRole, QuerierRow};
use std::alloc::AllocError;

/// Whether the router is the querier of the interface.
#[tactic(auto, unfolding(pim_model::specs::Querier::is_querier))]
pub fn is_querier(world: &World, iface: IfaceId) -> bool
    ensures { result ≡ is_querier world.now iface.number }
{
    match world.membership().querier(iface) {
        Some(row) => matches!(row.role, QuerierRole::Querier { .. }),
        None => false,
    }
}

/// The Other-Querier-Present timer expires (RFC 3376, section 6.6.2): the router queries again, with the configured
/// values.
pub fn other_querier_gone(
    world: &mut World,
    turn: &mut Turn,
    iface: IfaceId,
) -> Result<(), AllocError>
    ensures state { OnOk result (world.new ≡ (other_querier_gone world.old iface.number).0) }
    ensures messages { OnOk result (turn.new ≡ saying turn.old (other_querier_gone world.old iface.number).1) }
{
    let interval = 1000 * u64::from(world.settings().query_interval);
    world.update_querier(iface, world.present() + interval, 0)?;
    turn.out.query(iface, &general_query(world, iface), &[])
}

// The given value, or the configured one where it is 0.
fn given_or(given: u32, configured: u32) -> u32
    ensures value { result ≡ given_or given configured }
    ensures within { (most : ℕ) → given ≤ most → configured ≤ most → result ≤ most }
{
    if given == 0 { configured } else { given }
}

/// A router with a lower address becomes the querier of the interface (RFC 3376, section 6.6.2). Its values are adopted
/// (the interval in seconds), or the configured ones where they are 0. Queries that the router was to repeat there are
/// dropped.
pub fn querier_elected(
    world: &mut World,
    iface: IfaceId,
    robustness: u8,
    interval: u32,
) -> Result<(), AllocError>
    requires robust { robustness ≤ 7 }
    requires interval { interval ≤ 31744 }
    ensures { OnOk result (world.new ≡ querier_elected world.old iface.number robustness interval) }
{
    let settings = world.settings();
    let robustness = given_or(u32::from(robustness), settings.robustness);
    let interval = given_or(interval, settings.query_interval);
    let silent = u64::from(robustness) * (1000 * u64::from(interval))
        + 50 * u64::from(settings.query_response_interval);
    let row = QuerierRow {
        role: QuerierRole::NonQuerier {
            end: world.present() + silent,
        },
        robustness: robustness as u8,
        query_interval: interval as u16,
    };
    world.elect(iface, row)
}
