//! A member of a group that answers the querier keeps its record, over reloads too. Each law is the contract of a function
//! with nothing to do.
ghost use Rattle.law_hosts.specs.Members.{MemberKeepsItsRecord};

/// A member that answers each general query within the query's Query Response Interval and a delivery time keeps the
/// record of its group over any events, and reloads without a map of places, while nobody leaves the group, no other
/// router queries, and the interface stays up. A reload may make that interval longer while an answer still comes before
/// the record is over that the last report set (RFC 3376, 8.4).
pub fn member_keeps_its_record()
    ensures { MemberKeepsItsRecord }
{}
