//! Worked runs of the forwarding cache.
#![tactic(auto, unfolding(crate::proofs::OnLiterals::machine_on_literals))]

ghost use Rattle.pim_runs.specs.Cached.{BetterDrEmptiesTheRow, DownEmptiesTheRow, JoinedSourceIsCached, LongerRouteMovesOneRow, OpeningIsNotPlain, OthersMakeNoRow, PlainPacketMovesItsTimer, PlainPacketStartsTheTimer, RegisteredIsNotPlain, SptBitIsSetOnce, StrayOfTheGroupIsNotPlain, StrayOfTheSourceIsNotPlain, UnknownIsNotPlain, WatchedIsPlain};

/// The row of a joined source sends its packets to the link that joined it.
pub fn joined_source_is_cached()
    ensures { JoinedSourceIsCached }
{}

/// A plain packet moves the end of its source's keepalive timer.
pub fn plain_packet_moves_its_timer()
    ensures { PlainPacketMovesItsTimer }
{}

/// A plain packet may start the keepalive timer of a source that has only its SPTbit.
pub fn plain_packet_starts_the_timer()
    ensures { PlainPacketStartsTheTimer }
{}

/// Packets that nobody wants make no row.
pub fn others_make_no_row()
    ensures { OthersMakeNoRow }
{}

/// A longer route moves the rows of the sources that it takes over.
pub fn longer_route_moves_one_row()
    ensures { LongerRouteMovesOneRow }
{}

/// A better DR empties the row of a source that receivers on its link requested.
pub fn better_dr_empties_the_row()
    ensures { BetterDrEmptiesTheRow }
{}

/// An interface that goes down is gone from all rows.
pub fn down_empties_the_row()
    ensures { DownEmptiesTheRow }
{}

/// A packet of a source without a fact isn't plain.
pub fn unknown_is_not_plain()
    ensures { UnknownIsNotPlain }
{}

/// The packet that moves the last hop to the source tree isn't plain, and the one after it is.
pub fn spt_bit_is_set_once()
    ensures { SptBitIsSetOnce }
{}

/// A packet that leaves in a Register isn't plain.
pub fn registered_is_not_plain()
    ensures { RegisteredIsNotPlain }
{}

/// A packet that opens the register tunnel isn't plain.
pub fn opening_is_not_plain()
    ensures { OpeningIsNotPlain }
{}

/// A packet on a link that its source is forwarded to isn't plain, where the router hasn't won the assert.
pub fn stray_of_the_source_is_not_plain()
    ensures { StrayOfTheSourceIsNotPlain }
{}

/// A packet of the group on a link to which the group is forwarded isn't plain.
pub fn stray_of_the_group_is_not_plain()
    ensures { StrayOfTheGroupIsNotPlain }
{}

/// A packet on the shared tree is plain, and sets the keepalive timer of a watched source.
pub fn watched_is_plain()
    ensures { WatchedIsPlain }
{}
