//! Laws of the definitions, each the contract of a function with nothing to do.

ghost use Rattle.law_events.specs.PlainLaws.{AnswersAtRest, AnswersOfSame, CacheOfSame, DecidedIsPlain, KeepingChangesNoAnswer, KnownIsNotFull, PlainIsDecided, PlainIsStepped, PlainIsTaken, PlainKeepsCache, RegisteredWhereItCould};

/// A packet that its source's answers decide is forwarded as they say, and nothing follows of it.
pub fn plain_is_taken()
    ensures { PlainIsTaken }
{}

/// A source with a fact needs no room.
#[tactic(auto, using(crate::proofs::PlainPackets::known_is_not_full))]
pub fn known_is_not_full()
    ensures { KnownIsNotFull }
{}

/// The step of a packet that its source's answers decide is what they say.
#[tactic(auto, using(crate::proofs::PlainPackets::plain_is_stepped))]
pub fn plain_is_stepped()
    ensures { PlainIsStepped }
{}

/// A packet that its source's answers decide leaves the cache unchanged.
pub fn plain_keeps_cache()
    ensures { PlainKeepsCache }
{}

/// An event that the answers decide is plain.
pub fn decided_is_plain()
    ensures { DecidedIsPlain }
{}

/// A plain event is decided by the answers.
pub fn plain_is_decided()
    ensures { PlainIsDecided }
{}

/// Setting the keepalive timer of a source with a fact changes no answer.
pub fn keeping_changes_no_answer()
    ensures { KeepingChangesNoAnswer }
{}

/// Where a source's macros read the same, and it is desired and registered alike, its answers are the same.
#[tactic(auto, using(crate::proofs::SameAnswers::answers_same))]
pub fn answers_of_same()
    ensures { AnswersOfSame }
{}

/// At rest a source with a fact is registered if and only if it could be.
pub fn registered_where_it_could()
    ensures { RegisteredWhereItCould }
{}

/// At rest a source's answers are the same where its macros read the same and CouldRegister(S,G) is the same.
#[tactic(auto, using(crate::proofs::KeptAlive::answers_at_rest))]
pub fn answers_at_rest()
    ensures { AnswersAtRest }
{}

/// At rest the cache has the same row of a source with a fact whose macros read the same.
#[tactic(auto, using(crate::proofs::KeptAlive::cache_of_same))]
pub fn cache_of_same()
    ensures { CacheOfSame }
{}
