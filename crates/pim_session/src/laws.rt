//! Laws of the definitions, each the contract of a function with nothing to do.
ghost use Rattle.pim_session.specs.Laws.{GuardedSessionCopiesData, SessionIsJoined, SharedSessionIsJoined, SharedSessionIsRun, StoppedEventChangesNothing, WithoutFrontNothingChanges, WithoutGuardSessionStays, WithoutSetsNothingChanges};

/// A session before whose router nothing stands is the router.
#[tactic(auto, using(crate::proofs::FrontLaws::without_front))]
pub fn without_front_nothing_changes()
    ensures { WithoutFrontNothingChanges }
{}

/// A session before whose router a front for older hosts stands alone is the joined machine.
#[tactic(auto, using(crate::proofs::FrontLaws::session_is_joined))]
pub fn session_is_joined()
    ensures { SessionIsJoined }
{}

/// A session without a set is what it is without the front for sets.
#[tactic(auto, using(crate::proofs::SetLaws::without_sets))]
pub fn without_sets_nothing_changes()
    ensures { WithoutSetsNothingChanges }
{}

/// A session with sets, and without a front for older hosts, is the joined machine of RPs that share an address.
#[tactic(auto, using(crate::proofs::SetLaws::shared_session_is_joined))]
pub fn shared_session_is_joined()
    ensures { SharedSessionIsJoined }
{}

/// A session with sets is the machine that it is without them, fed what the front for sets gives, with what this sends
/// beside it.
#[tactic(auto, using(crate::proofs::SetLaws::shared_session_is_run))]
pub fn shared_session_is_run()
    ensures { SharedSessionIsRun }
{}

/// Behind the guard each copy that a session's router sends is of data.
#[tactic(auto, using(crate::proofs::Guarding::guarded_session_copies_data))]
pub fn guarded_session_copies_data()
    ensures { GuardedSessionCopiesData }
{}

/// An event that the guard stops changes nothing.
#[tactic(auto, using(crate::proofs::Guarding::stopped_event_changes_nothing))]
pub fn stopped_event_changes_nothing()
    ensures { StoppedEventChangesNothing }
{}

/// Without the guard each event comes to the session as it is.
#[tactic(auto, using(crate::proofs::Guarding::without_guard_session_stays))]
pub fn without_guard_session_stays()
    ensures { WithoutGuardSessionStays }
{}
