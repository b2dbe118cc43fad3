//! The macros of the assert machines (RFC 7761, sections 4.6.1 to 4.6.3).
ghost use Rattle.std.specs.Prelude.{◌≡◌, ◌<◌, ◌^◌, ℕ};
ghost use Rattle.pim_state.specs.Shown.{Shows};
ghost use Rattle.pim_macros.specs.Sights.{InSource, InStar, IsSourceSight, IsStarSight, is_tracked_upstream};
ghost use Rattle.pim_model.specs.AssertMacros.{could_assert, could_assert_star, infinite, is_infinite, is_tracking_desired, is_tracking_desired_star, my_metric, my_metric_star};
ghost use Rattle.pim_model.specs.Sets.{is_better, route_metric, rpt_metric, spt_metric};
ghost use Rattle.pim_model.specs.State.{State, my_address};

use crate::interfaces::interface_of;
use crate::sight::{SourceSight, StarSight};
use pim_ifset::IfSet;
use pim_types::fact::AssertMetric;
use pim_types::{Addr, IfaceId, Path};

// The metric preference where there is no route: worse than every route, and not infinite.
const UNREACHABLE_PREFERENCE: u32 = 0x7FFF_FFFF;

const UNREACHABLE_METRIC: u32 = 0xFFFF_FFFE;

// The metric of infinite_assert_metric.
const INFINITE_METRIC: u32 = 0xFFFF_FFFF;

/// infinite_assert_metric.
pub fn infinite() -> AssertMetric
    ensures { result ≡ infinite }
{
    AssertMetric {
        rpt: true,
        preference: UNREACHABLE_PREFERENCE,
        metric: INFINITE_METRIC,
        address: Addr::NONE,
    }
}

/// Whether the metric is infinite, whoever announced it.
#[tactic(auto, unfolding(pim_model::specs::AssertMacros::is_infinite))]
pub fn is_infinite(metric: AssertMetric) -> bool
    ensures { result ≡ is_infinite metric }
{
    metric.rpt && metric.preference == UNREACHABLE_PREFERENCE && metric.metric == INFINITE_METRIC
}

/// Whether the first metric wins over the second: by the lower R bit, then the lower preference, the lower metric, the
/// higher address (RFC 7761, section 4.6.3).
#[tactic(auto, unfolding(pim_model::specs::Sets::is_better))]
pub fn is_better(first: AssertMetric, second: AssertMetric) -> bool
    ensures { result ≡ is_better first second }
{
    if first.rpt != second.rpt {
        return second.rpt;
    }
    if first.preference != second.preference {
        return first.preference < second.preference;
    }
    if first.metric != second.metric {
        return first.metric < second.metric;
    }
    second.address.bits < first.address.bits
}

// The metric of a route from the address; to one of the router's own it is 0.
#[tactic(auto, unfolding(pim_model::specs::Sets::route_metric))]
pub(crate) fn route_metric(
    rpt: bool,
    address: Addr,
    is_own: bool,
    path: Option<Path>,
) -> AssertMetric
    ensures { result ≡ route_metric rpt address.bits is_own path }
{
    let (preference, metric) = match path {
        Some(path) => (path.preference, path.metric),
        None if is_own => (0, 0),
        None => (UNREACHABLE_PREFERENCE, UNREACHABLE_METRIC),
    };
    AssertMetric {
        rpt,
        preference,
        metric,
        address,
    }
}

impl StarSight {
    /// rpt_assert_metric(G,I), by the router's address on the interface.
    #[tactic(auto, using(crate::proofs::Short::metric_is_short), unfolding(pim_model::specs::Sets::rpt_metric))]
    pub fn metric(&self, address: Addr) -> AssertMetric
        ensures metric { (s : State) (i : ℕ) → IsStarSight s self.now → address.bits ≡ my_address s i
            → result ≡ rpt_metric s self.now.group.bits i }
        ensures within { (s : State) → IsStarSight s self.now → result.preference < 2 ^ 31 }
    {
        route_metric(true, address, self.is_own_rp, self.rp_path)
    }

    /// The interfaces on which CouldAssert(*,G,I) holds.
    #[tactic(auto, unfolding(pim_model::specs::AssertMacros::could_assert_star, pim_model::specs::Unicast::rpf_interface_rp))]
    pub fn could_assert(&self) -> IfSet
        ensures { InStar self.now (λ s g. Shows result (could_assert_star s g)) }
    {
        self.joined
            .union(self.pim_include())
            .minus(interface_of(self.rp_path))
    }

    /// my_assert_metric(*,G,I), by the router's address on the interface.
    #[tactic(auto, unfolding(pim_model::specs::AssertMacros::my_metric_star))]
    pub fn my_metric(&self, iface: IfaceId, address: Addr) -> AssertMetric
        requires { iface.number < 120 }
        ensures { (s : State) → IsStarSight s self.now → address.bits ≡ my_address s iface.number
            → result ≡ my_metric_star s self.now.group.bits iface.number }
    {
        if self.could_assert().contains(iface) {
            self.metric(address)
        } else {
            infinite()
        }
    }

    /// The interfaces on which AssertTrackingDesired(*,G,I) holds.
    #[tactic(auto, unfolding(pim_model::specs::AssertMacros::is_tracking_desired_star, pim_model::specs::Unicast::rpf_interface_rp))]
    pub fn tracking_desired(&self) -> IfSet
        ensures { InStar self.now (λ s g. Shows result (is_tracking_desired_star s g)) }
    {
        let served = self.receivers.intersection(self.dr.union(self.won));
        let tracked = self.could_assert().union(served);
        if self.join_desired() {
            tracked.union(interface_of(self.rp_path))
        } else {
            tracked
        }
    }
}

impl SourceSight {
    /// spt_assert_metric(S,I), by the router's address on the interface.
    #[tactic(auto, using(crate::proofs::Short::metric_is_short), unfolding(pim_model::specs::Sets::spt_metric))]
    pub fn metric(&self, address: Addr) -> AssertMetric
        ensures metric { (s : State) (i : ℕ) → IsSourceSight s self.now → address.bits ≡ my_address s i
            → result ≡ spt_metric s self.now.source.bits i }
        ensures within { (s : State) → IsSourceSight s self.now → result.preference < 2 ^ 31 }
    {
        route_metric(false, address, self.is_own, self.path)
    }

    /// The interfaces on which CouldAssert(S,G,I) holds.
    #[tactic(auto, unfolding(pim_model::specs::AssertMacros::could_assert, pim_model::specs::Unicast::rpf_interface))]
    pub fn could_assert(&self) -> IfSet
        ensures { InSource self.now (λ s g src. Shows result (could_assert s g src)) }
    {
        if !self.spt {
            return IfSet::new();
        }
        self.forwarding_set()
            .union(self.pim_include())
            .minus(interface_of(self.path))
    }

    /// my_assert_metric(S,G,I), by the router's address on the interface.
    #[tactic(auto, unfolding(pim_model::specs::AssertMacros::my_metric))]
    pub fn my_metric(&self, iface: IfaceId, address: Addr) -> AssertMetric
        requires { iface.number < 120 }
        ensures { (s : State) → IsSourceSight s self.now → address.bits ≡ my_address s iface.number
            → result ≡ my_metric s self.now.star.group.bits self.now.source.bits iface.number }
    {
        if self.could_assert().contains(iface) {
            self.metric(address)
        } else {
            self.star.my_metric(iface, address)
        }
    }

    /// The interfaces on which AssertTrackingDesired(S,G,I) holds.
    #[tactic(auto, unfolding(pim_model::specs::AssertMacros::is_tracking_desired, pim_model::specs::Unicast::rpf_interface, pim_model::specs::Unicast::rpf_interface_rp))]
    pub fn tracking_desired(&self) -> IfSet
        ensures { InSource self.now (λ s g src. Shows result (is_tracking_desired s g src)) }
    {
        let served = self.included.intersection(self.star.dr.union(self.won));
        self.forwarding_set()
            .union(served)
            .union(self.upstream_interfaces())
    }

    // The upstream interfaces on which the assert of (S,G) is tracked.
    #[tactic(auto, unfolding(pim_model::specs::Unicast::rpf_interface, pim_model::specs::Unicast::rpf_interface_rp))]
    fn upstream_interfaces(&self) -> IfSet
        ensures { InSource self.now (λ s g src. Shows result (is_tracked_upstream s g src)) }
    {
        let mut tracked = IfSet::new();
        if self.join_desired() {
            tracked = interface_of(self.path);
        }
        if !self.spt && self.star.join_desired() {
            tracked = tracked.union(interface_of(self.star.rp_path));
        }
        tracked
    }
}
