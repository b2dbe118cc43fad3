//! Laws of the definitions, each the contract of a function with nothing to do.

ghost use Rattle.law_plane.specs.ToldLaws.{FiringAnswersStay, MoreMayBeTold, RouterKeepsTold, StepKeepsTold, TimeAnswersStay, UnnamedAnswersStay, UnnamedRowStays};

/// The row of a source that isn't named decides alike after an event.
#[tactic(auto, using(crate::proofs::ToldRows::unnamed_row_stays))]
pub fn unnamed_row_stays()
    ensures { UnnamedRowStays }
{}

/// Where the named rows are given to the plane again, it has all rows.
#[tactic(auto, using(crate::proofs::ToldRows::step_keeps_told))]
pub fn step_keeps_told()
    ensures { StepKeepsTold }
{}

/// From the opening on, the plane has all rows where the named ones are given to it again.
#[tactic(auto, using(crate::proofs::ToldRows::router_keeps_told))]
pub fn router_keeps_told()
    ensures { RouterKeepsTold }
{}

/// The answers of any source that an event doesn't name are unchanged.
#[tactic(auto, using(crate::proofs::ToldRows::unnamed_answers_stay))]
pub fn unnamed_answers_stay()
    ensures { UnnamedAnswersStay }
{}

/// The answers of any source that the expiry of a timer doesn't name are unchanged.
#[tactic(auto, using(crate::proofs::ToldRows::firing_answers_stay))]
pub fn firing_answers_stay()
    ensures { FiringAnswersStay }
{}

/// The answers of any source are unchanged where only the present time changes.
#[tactic(auto, using(crate::proofs::ToldRows::time_answers_stay))]
pub fn time_answers_stay()
    ensures { TimeAnswersStay }
{}

/// Giving the plane more rows than the named ones again does no harm.
#[tactic(auto, using(crate::proofs::ToldRows::more_may_be_told))]
pub fn more_may_be_told()
    ensures { MoreMayBeTold }
{}
