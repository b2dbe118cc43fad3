//! What holds behind the guard.
ghost use Rattle.pim_guard.specs.Laws.{GuardedCopiesAreData, WithoutGuardNothingChanges};

/// A copy of data that a guarded router sends is neither IGMP nor PIM, and doesn't go to 224.0.0.0/24.
pub fn guarded_copies_are_data()
    ensures { GuardedCopiesAreData }
{}

/// Where the guard is off each event goes to the router as it came.
#[tactic(auto, using(crate::proofs::Guarded::without_guard_nothing_changes))]
pub fn without_guard_nothing_changes()
    ensures { WithoutGuardNothingChanges }
{}
