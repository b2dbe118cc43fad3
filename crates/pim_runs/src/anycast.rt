//! Sets of RPs that share an address, and two such RPs that meet the premises of the law that each knows the sources
//! that the other hears, computed by the kernel.
#![tactic(auto, unfolding(crate::proofs::OnLiterals::machine_on_literals, crate::proofs::AnycastRun::front_on_literals))]

ghost use Rattle.pim_runs.specs.Anycast.{SecondKnows, SetsAreTested};

/// Which sets a router can have.
pub fn sets_are_tested()
    ensures { SetsAreTested }
{}

/// The second knows the source that a DR registers with the first.
pub fn second_knows()
    ensures { SecondKnows }
{}
