//! A network that meets the premises of the laws of Joins and Hellos in time, computed by the kernel.
ghost use Rattle.pim_runs.specs.HellosInTime.{HellosAreInTime, NeighbourStays, OneIsDr};
ghost use Rattle.pim_runs.specs.InTime.{JoinStaysHeld, JoinsAreInTime, StreamGoesOn};
ghost use Rattle.pim_runs.specs.OnLink.{JoinIsOverheardInTime, JoinIsSuppressed, SharedStaysHeld};
ghost use Rattle.pim_runs.specs.WayInTime.{ChainJoinsInTime, WayStaysHeld};

/// The Join of the first router of the chain is repeated in time, move after move.
pub fn joins_are_in_time()
    ensures { JoinsAreInTime }
{}

/// The second router of the chain holds the first one's repeated Join all the while.
pub fn join_stays_held()
    ensures { JoinStaysHeld }
{}

/// The second router of the chain passes the stream to the first all the while.
pub fn stream_goes_on()
    ensures { StreamGoesOn }
{}

/// Of two routers on a link below a third, the Join of the one comes to the third, and the other sees it.
pub fn join_is_overheard_in_time()
    ensures { JoinIsOverheardInTime }
{}

/// Of two routers on a link the one that sees the other's Join holds its own back.
pub fn join_is_suppressed()
    ensures { JoinIsSuppressed }
{}

/// The router above two on a link holds what both join, all the while, though one holds its Join back.
pub fn shared_stays_held()
    ensures { SharedStaysHeld }
{}

/// The first two routers of the chain repeat their Joins in time, move after move.
pub fn chain_joins_in_time()
    ensures { ChainJoinsInTime }
{}

/// Of the chain each router above another that joins holds the group all the while.
pub fn way_stays_held()
    ensures { WayStaysHeld }
{}

/// The Hello of a router of the chain comes to the next in time, move after move.
pub fn hellos_are_in_time()
    ensures { HellosAreInTime }
{}

/// The next router of the chain has the first as a neighbour all the while.
pub fn neighbour_stays()
    ensures { NeighbourStays }
{}

/// Two routers of a link that know each other alone have one of them as its DR.
pub fn one_is_dr()
    ensures { OneIsDr }
{}
