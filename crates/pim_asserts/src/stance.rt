//! The stance of the router in an assert machine (RFC 7761, sections 4.6.1 to 4.6.3).
ghost use Rattle.std.specs.Prelude.{◌≡◌, ◌<◌, false};
ghost use Rattle.pim_types.specs.Keys.{source_key, star_key};
ghost use Rattle.pim_macros.specs.Sights.{IsSourceSight, IsStarSight};
ghost use Rattle.pim_asserts.specs.Receiving.{stance_at};

use pim_macros::{SourceSight, StarSight};
use pim_state::{Meter, World};
use pim_types::fact::AssertMetric;
use pim_types::{IfaceId, Key};

/// What the transitions read of the router's state.
#[derive(Clone, Copy)]
pub(crate) struct Stance {
    /// The machine is that of (*,G).
    pub(crate) is_star: bool,
    pub(crate) could_assert: bool,
    /// AssertTrackingDesired.
    pub(crate) is_tracked: bool,
    /// my_assert_metric.
    pub(crate) metric: AssertMetric,
    /// A loser that was in NoInfo sets SPTbit(S,G): the interface is RPF_interface(S), and JoinDesired(S,G).
    pub(crate) switches: bool,
}

/// The stance of the machine of (*,G) on an interface.
pub(crate) fn star_stance(world: &World, star: &StarSight, iface: IfaceId) -> Stance
    requires sight { IsStarSight world.now star.now }
    requires below { iface.number < 120 }
    ensures { result ≡ stance_at world.now (star_key iface.number star.now.group.bits) }
{
    Stance {
        is_star: true,
        could_assert: star.could_assert().contains(iface),
        is_tracked: star.tracking_desired().contains(iface),
        metric: star.my_metric(iface, world.address(iface)),
        switches: false,
    }
}

/// The stance of the machine of (S,G) on an interface.
pub(crate) fn source_stance(world: &World, sight: &SourceSight, iface: IfaceId) -> Stance
    requires sight { IsSourceSight world.now sight.now }
    requires below { iface.number < 120 }
    ensures { result ≡ stance_at world.now (source_key iface.number sight.now.star.group.bits sight.now.source.bits) }
{
    Stance {
        is_star: false,
        could_assert: sight.could_assert().contains(iface),
        is_tracked: sight.tracking_desired().contains(iface),
        metric: sight.my_metric(iface, world.address(iface)),
        switches: sight.is_rpf_interface(iface) && sight.join_desired(),
    }
}

/// The stance of the router in the machine of a key.
pub(crate) fn stance_of(world: &World, meter: &mut Meter, key: Key) -> Stance
    requires plain { key.rpt ≡ false }
    requires below { key.iface.number < 120 }
    ensures { result ≡ stance_at world.now key }
{
    let star = StarSight::of(world, key.group, meter);
    match key.source {
        None => star_stance(world, &star, key.iface),
        Some(source) => {
            let sight = SourceSight::of(world, star, source, meter);
            source_stance(world, &sight, key.iface)
        }
    }
}
