//! A group that its hosts ask for, and one that they left.

ghost use Rattle.law_converges.specs.LeftGroups.{LeftGroupEnds};
ghost use Rattle.law_converges.specs.LinkMembers.{MemberComesToBeKnown, MemberStaysKnown};

/// A group that no report names on an interface has no receivers of all its sources there
/// (local_receiver_include(*,G,I)) from the end of its group timer on, which is at most [Group Membership Interval] after
/// the last report: 260 s with the default values. No event but such a report makes the timer end later, from a settled
/// state on.
pub fn left_group_ends()
    ensures { LeftGroupEnds }
{}

/// A group with a member that answers the querier of the link in time stays known to each router of the link, the
/// querier itself or another, without end: after each of any moves it has receivers of all its sources there
/// (local_receiver_include(*,G,I)). A router's time is the time at which it started plus its present. A report that asks
/// for the group and doesn't leave it (IS_EX or TO_EX) comes to the router after each general query of the querier, no
/// sooner than the query was sent, and before the router's time is more than d beyond that; the querier's timer is at
/// most d late. By such a report the router takes the group for asked for at least a time that is above [Query Interval]
/// + 2 d: [Group Membership Interval], 260 s with the default values, so that d, which has room for the Query Response
/// Interval of 10 s, is below 67.5 s. The querier's interface neither begins nor ends, and no query of a lower address
/// comes to it. At the router the interface doesn't go down, no query of the group with S clear comes there, no report
/// leaves the group, and none that asks for it ends sooner than the one before. To begin with its group timer runs until
/// later than 2 d after the next general query.
pub fn member_stays_known()
    ensures { MemberStaysKnown }
{}

/// Whatever the router knew before, under the other premises of `MemberStaysKnown` it comes to know the group, and then
/// without end, from 2 d after the querier's next general query on.
pub fn member_comes_to_be_known()
    ensures { MemberComesToBeKnown }
{}
