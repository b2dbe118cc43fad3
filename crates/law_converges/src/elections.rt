//! On what the routers of a link agree.

ghost use Rattle.law_converges.specs.LinkDr.{ExactlyOneDr};
ghost use Rattle.law_converges.specs.LinkQuerier.{ExactlyOneQuerier};

/// Of the routers of a link, whose Hellos come to each other in time, exactly one is the DR from a bound on, and without
/// end: after each of any moves by which the time at each is past the bound. A router's time is the time at which it
/// started plus its present. The bound is 2 d after the next Hello of each at the earliest, and no earlier than each of
/// them forgets who else it knows there, or by another priority: when the holdtime of the last such Hello is over, 105 s
/// after it by RFC 7761. All announce their DR priorities, no two have the same address, each is up throughout, and no
/// Hello of others comes to them there. Of each two the premises of `NeighboursComeToBeKnown` hold: Hellos come within d,
/// which is below 37.5 s.
pub fn exactly_one_dr()
    ensures { ExactlyOneDr }
{}

/// Of the routers of a link that of the lowest address is the querier from a bound on, and no other, without end: after
/// each of any moves by which the time at each is past the bound. The bound is 2 d after the next general query of that
/// router, or after it takes another querier for gone, at the earliest: after 255 s and 2 d with the default values, which
/// any querier before had too. Where that router is the querier to begin with it goes by its own values, which stay, and
/// its robustness is below 8. Its general queries come to each of the others within d, and its timer is at most d late;
/// for none of them a query of a lower address than its own ends another querier's presence sooner than the one before;
/// and no query of a lower address comes to that router. The others take its query for at least a time that is above
/// [Query Interval] + 2 d: 255 s with the default values, so that d is below 65 s. The interfaces neither begin nor end.
pub fn exactly_one_querier()
    ensures { ExactlyOneQuerier }
{}
