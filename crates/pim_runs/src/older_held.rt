//! A host of IGMPv2 behind the front, which meets the premises of the laws of older hosts, computed by the kernel.
#![tactic(auto, unfolding(crate::proofs::OnLiterals::machine_on_literals, crate::proofs::OlderHost::front_on_literals))]

ghost use Rattle.pim_runs.specs.Behind.{HostBehindPlane};
ghost use Rattle.pim_runs.specs.OlderHeld.{OlderHostBegins, OlderHostIsHeld};

/// The first report of a host of IGMPv2 holds its group for as long as the Older Host Present Interval.
pub fn older_host_begins()
    ensures { OlderHostBegins }
{}

/// Time and another report leave the group of a host of IGMPv2 held, until just before its interval is over.
pub fn older_host_is_held()
    ensures { OlderHostIsHeld }
{}

/// Behind a front a plane forwards a packet to a host of IGMPv2 itself, and what it does meets the premises of the law.
pub fn host_behind_plane()
    ensures { HostBehindPlane }
{}
