//! The values of an interface's querier that are in force (RFC 3376, section 8), and the intervals that follow of them.
ghost use Rattle.std.specs.Prelude.{◌≡◌, ◌≤◌, ◌<◌, ◌^◌};
ghost use Rattle.pim_model.specs.Querier.{exceeds, group_membership_interval, last_member_query_interval, query_end, query_interval, robustness, startup_query_interval};

use pim_state::World;
use pim_types::IfaceId;

/// [Robustness Variable] (RFC 3376, section 8.1): that of the querier, which is adopted, or the configured one.
#[tactic(auto, unfolding(pim_model::specs::Querier::robustness))]
pub fn robustness(world: &World, iface: IfaceId) -> u8
    ensures value { result ≡ robustness world.now iface.number }
    ensures within { result ≤ 7 }
{
    let settings = world.settings();
    match world.membership().querier(iface) {
        Some(row) => row.robustness,
        None => settings.robustness as u8,
    }
}

/// [Query Interval] (RFC 3376, section 8.2), in ms: that of the querier, which is adopted, or the configured one.
#[tactic(auto, unfolding(pim_model::specs::Querier::query_interval))]
pub fn query_interval(world: &World, iface: IfaceId) -> u64
    ensures value { result ≡ query_interval world.now iface.number }
    ensures within { result < 2 ^ 26 }
{
    let settings = world.settings();
    match world.membership().querier(iface) {
        Some(row) => 1000 * u64::from(row.query_interval),
        None => 1000 * u64::from(settings.query_interval),
    }
}

/// [Group Membership Interval] (RFC 3376, section 8.4), in ms.
#[tactic(auto, unfolding(pim_model::specs::Querier::group_membership_interval))]
pub fn group_membership_interval(world: &World, iface: IfaceId) -> u64
    ensures value { result ≡ group_membership_interval world.now iface.number }
    ensures within { result < 2 ^ 40 }
{
    let response = 100 * u64::from(world.settings().query_response_interval);
    u64::from(robustness(world, iface)) * query_interval(world, iface) + response
}

/// [Startup Query Interval] (RFC 3376, section 8.6), in ms.
#[tactic(auto, unfolding(pim_model::specs::Querier::startup_query_interval))]
pub fn startup_query_interval(world: &World, iface: IfaceId) -> u64
    ensures value { result ≡ startup_query_interval world.now iface.number }
    ensures within { result < 2 ^ 26 }
{
    query_interval(world, iface) / 4
}

/// [Last Member Query Interval] (RFC 3376, section 8.8), in ms: always the configured one.
pub fn last_member_query_interval(world: &World) -> u64
    ensures value { result ≡ last_member_query_interval world.now }
    ensures within { result < 2 ^ 39 }
{
    100 * u64::from(world.settings().last_member_query_interval)
}

/// The timestamp to which a query lowers timers, in ms: [Last Member Query Time] from the present time (RFC 3376,
/// sections 6.6.3 and 8.8).
#[tactic(auto, unfolding(pim_model::specs::Querier::last_member_query_time))]
pub fn query_end(world: &World, iface: IfaceId) -> u64
    ensures { result ≡ query_end world.now iface.number }
{
    world.present() + last_member_query_interval(world) * u64::from(robustness(world, iface))
}

/// Whether a timer runs, and expires later than this timestamp, in ms.
pub fn exceeds(moment: u64, end: Option<u64>) -> bool
    ensures { result ≡ exceeds moment end }
{
    end.is_some_and(|end| moment < end)
}
