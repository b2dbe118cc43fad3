//! Worked runs of a split data plane.
#![tactic(auto, unfolding(crate::proofs::SplitLiterals::split_on_literals))]

ghost use Rattle.pim_runs.specs.Plane.{PlaneGoesOn, PlaneOwesANote};
ghost use Rattle.pim_runs.specs.Split.{CoreCatchesUp, DrNamesWhatItServes, EachLinkIsHandled, HostIsHeardOf, LastPacketIsOwed, UnknownIsForwarded};

/// What the row of a joined source says of a packet on each link.
pub fn each_link_is_handled()
    ensures { EachLinkIsHandled }
{}

/// Packets that the plane forwards: the last one is owed, and the core has stood still.
pub fn last_packet_is_owed()
    ensures { LastPacketIsOwed }
{}

/// An event of the core's own: it catches up, and names its source.
pub fn core_catches_up()
    ensures { CoreCatchesUp }
{}

/// A packet of a source without a fact, on the shared tree.
pub fn unknown_is_forwarded()
    ensures { UnknownIsForwarded }
{}

/// A neighbour that becomes the DR of a link, with a host that asks for the group and without one.
pub fn dr_names_what_it_serves()
    ensures { DrNamesWhatItServes }
{}

/// A host whose DR is another router.
pub fn host_is_heard_of()
    ensures { HostIsHeardOf }
{}

/// A plane as it is documented owes a note of the second packet, and none after the next event of the router's own.
pub fn plane_owes_a_note()
    ensures { PlaneOwesANote }
{}

/// A plane as it is documented forwards a packet itself after a reload, and after a restore.
pub fn plane_goes_on()
    ensures { PlaneGoesOn }
{}
