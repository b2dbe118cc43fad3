//! How many interfaces a router can have.
#![tactic(auto, unfolding(crate::proofs::OnLiterals::machine_on_literals))]

ghost use Rattle.pim_runs.specs.Limits.{InterfacesAreLimited};

/// A router has at most 120 interfaces.
pub fn interfaces_are_limited()
    ensures { InterfacesAreLimited }
{}
