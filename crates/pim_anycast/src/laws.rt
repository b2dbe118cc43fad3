//! Laws of the definitions, each the contract of a function with nothing to do.
ghost use Rattle.pim_anycast.specs.Laws.{CopyIsTaken, JoinedIsRun, NextIsDue, NoneSentBack, WithoutSettingNothingChanges};

/// A Register that one router of a set sends to another is taken there as a Register to the shared address.
#[tactic(auto, using(crate::proofs::Taken::copy_is_taken))]
pub fn copy_is_taken()
    ensures { CopyIsTaken }
{}

/// What came from another of the set goes to none of them.
#[tactic(auto, using(crate::proofs::Taken::none_sent_back))]
pub fn none_sent_back()
    ensures { NoneSentBack }
{}

/// Announcements are due from the timestamp on that [`crate::Anycast::next`] tells, and not before.
#[tactic(auto, using(crate::proofs::Due::next_is_due))]
pub fn next_is_due()
    ensures { NextIsDue }
{}

/// A router behind the front is the specification's router, fed what the front gives, with what the front sends beside it.
#[tactic(auto, using(crate::proofs::JoinedLaws::joined_is_run))]
pub fn joined_is_run()
    ensures { JoinedIsRun }
{}

/// Without a set the front changes nothing.
#[tactic(auto, using(crate::proofs::JoinedLaws::without_setting))]
pub fn without_setting_nothing_changes()
    ensures { WithoutSettingNothingChanges }
{}
