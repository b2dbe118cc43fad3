//! What is proved of saved states that a router goes on from. Each law is the contract of a function with nothing to do.
ghost use Rattle.pim_worlds.specs.Resuming.{ResumableIsDecided, SavedIsResumed};

/// Where the keys of each table rise, the tests pass exactly where a router goes on from the state.
pub fn resumable_is_decided()
    ensures { ResumableIsDecided }
{}

/// What a router saves is restored.
pub fn saved_is_resumed()
    ensures { SavedIsResumed }
{}
