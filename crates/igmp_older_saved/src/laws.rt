//! What is proved of saved states with groups of older hosts. Each law is the contract of a function with nothing to do.
ghost use Rattle.igmp_older_saved.specs.Laws.{HeldReadingIsText, HeldTextIsRead, HostsAreResumed, SavedHostsAreHeld};

/// Each state whose fields fit is read of its text, with its groups of older hosts.
pub fn held_text_is_read()
    ensures { HeldTextIsRead }
{}

/// What is read has the bytes as its one text, and its fields fit.
pub fn held_reading_is_text()
    ensures { HeldReadingIsText }
{}

/// The groups of older hosts that are saved with a state pass all tests.
pub fn saved_hosts_are_held()
    ensures { SavedHostsAreHeld }
{}

/// The groups of older hosts that were saved are resumed.
pub fn hosts_are_resumed()
    ensures { HostsAreResumed }
{}
