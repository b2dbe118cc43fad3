//! Worked runs of the querier's values and of group membership.
#![tactic(auto, unfolding(crate::proofs::OnLiterals::machine_on_literals))]

ghost use Rattle.pim_runs.specs.Membership.{MembershipLastsAsAdopted, NewSourceGetsTheGroupTimer, NewSourceThatEndsSoonIsNotAskedFor};

/// A membership lasts as the values of another querier say, which the router adopted.
pub fn membership_lasts_as_adopted()
    ensures { MembershipLastsAsAdopted }
{}

/// A source that is new in EXCLUDE mode gets the timestamp of the group timer, and is queried.
pub fn new_source_gets_the_group_timer()
    ensures { NewSourceGetsTheGroupTimer }
{}

/// A source whose timer expires soon enough isn't queried.
pub fn new_source_that_ends_soon_is_not_asked_for()
    ensures { NewSourceThatEndsSoonIsNotAskedFor }
{}
