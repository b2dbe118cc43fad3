//! A network in which who asks is served: the premises of the law are met.
ghost use Rattle.pim_runs.specs.ServedChain.{ChainIsServed, PacketIsServed};

/// A host three links from the RP.
pub fn chain_is_served()
    ensures { ChainIsServed }
{}

/// A packet that comes to the RP in a Register, with a TTL that is just enough.
pub fn packet_is_served()
    ensures { PacketIsServed }
{}
