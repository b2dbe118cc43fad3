//! What the routers of a set know of each other's sources. Laws of the definitions, each the contract of a function with
//! nothing to do.
ghost use Rattle.pim_anycast.specs.Members.{HeardIsTold, KnownStays, MemberLearns, MembersKnow, RegisterIsKnown};

/// A Register that the RP takes makes its source known for Keepalive_Period, 210 s.
pub fn register_is_known()
    ensures { RegisterIsKnown }
{}

/// A source that is known stays known until its keepalive timer expires.
pub fn known_stays()
    ensures { KnownStays }
{}

/// A router that is sent a Register by another of its set knows the source then.
pub fn member_learns()
    ensures { MemberLearns }
{}

/// A router of a set that hears of a source tells each of the others.
pub fn heard_is_told()
    ensures { HeardIsTold }
{}

/// Each router of a set knows a source that another heard from a delivery after that until Keepalive_Period, 210 s, after it.
pub fn members_know()
    ensures { MembersKnow }
{}
