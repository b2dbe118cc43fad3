//! Laws of the definitions, each the contract of a function with nothing to do.

ghost use Rattle.law_plane.specs.SplitLaws.{CatchesUpInCopies, LateIsOnceMore, PlainInAnyOrder, PlainOnceIsEnough, QuietBeforeNext, SplitCatchesUp, SplitIsTold, SplitOwesOneEach, SplitRouterIsSound, SplitSends};

/// A split data plane sends what a router sends that gets every packet as an event.
#[tactic(auto, using(crate::proofs::Splits::split_sends))]
pub fn split_sends()
    ensures { SplitSends }
{}

/// The core of a split data plane can catch up to the state of a router that gets every packet as an event.
#[tactic(auto, using(crate::proofs::Splits::split_catches_up))]
pub fn split_catches_up()
    ensures { SplitCatchesUp }
{}

/// The plane of a split data plane has the rows of the core's state.
#[tactic(auto, using(crate::proofs::Splits::split_is_told))]
pub fn split_is_told()
    ensures { SplitIsTold }
{}

/// From the opening on, a split data plane sends what a router sends, and its core can catch up to the router's state.
#[tactic(auto, using(crate::proofs::Splits::split_router_is_sound))]
pub fn split_router_is_sound()
    ensures { SplitRouterIsSound }
{}

/// At most one notice of each source is owed.
#[tactic(auto, using(crate::proofs::Owing::split_owes_one_each))]
pub fn split_owes_one_each()
    ensures { SplitOwesOneEach }
{}

/// No timer expires by a timestamp that is before the core's next.
#[tactic(auto, using(crate::proofs::Owing::quiet_before_next))]
pub fn quiet_before_next()
    ensures { QuietBeforeNext }
{}

/// A core that hears late is in the state of one to which the packets came once more.
#[tactic(auto, using(crate::proofs::Orders::late_is_once_more))]
pub fn late_is_once_more()
    ensures { LateIsOnceMore }
{}

/// Plain packets with one timestamp may come in any order.
#[tactic(auto, using(crate::proofs::Orders::plain_in_any_order))]
pub fn plain_in_any_order()
    ensures { PlainInAnyOrder }
{}

/// Of plain packets of one source with one timestamp the last is enough.
#[tactic(auto, using(crate::proofs::Orders::plain_once_is_enough))]
pub fn plain_once_is_enough()
    ensures { PlainOnceIsEnough }
{}

/// What the core sends as it catches up are copies, which the plane has sent.
#[tactic(auto, using(crate::proofs::Orders::catches_up_in_copies))]
pub fn catches_up_in_copies()
    ensures { CatchesUpInCopies }
{}
