//! A data plane whose router has a front for older hosts. Each law is the contract of a function with nothing to do.
ghost use Rattle.law_hosts.specs.Behind.{PlainActsBehindAreRight, PlaneBehindFrontIsSound, TellingAgainOnlyLooks};

/// Being told the present time again sends nothing, and has the front look at its rows.
pub fn telling_again_only_looks()
    ensures { TellingAgainOnlyLooks }
{}

/// A plane and its router, with a front for older hosts before the router, send what a front and a router alone send that
/// are told the present time again before each event.
pub fn plane_behind_front_is_sound()
    ensures { PlaneBehindFrontIsSound }
{}

/// Any list of events is one of a plane as it is documented, with a front before its router.
pub fn plain_acts_behind_are_right()
    ensures { PlainActsBehindAreRight }
{}
