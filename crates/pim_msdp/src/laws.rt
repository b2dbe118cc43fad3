//! Laws of the definitions, each the contract of a function with nothing to do.
ghost use Rattle.pim_msdp.specs.Laws.{ActiveIsKnown, ActiveIsTaken, LinkLocalIsIgnored, NoneSentBack, OtherAddressIsIgnored, OtherRpChangesNothing, SetsLeaveActives};

/// What the router is given for an SA to an address of its own is taken as if a DR had sent it.
#[tactic(auto, using(crate::proofs::Taking::active_is_taken))]
pub fn active_is_taken()
    ensures { ActiveIsTaken }
{}

/// It goes to none of a set of RPs that share an address.
#[tactic(auto, using(crate::proofs::Taking::sets_leave_actives))]
pub fn sets_leave_actives()
    ensures { SetsLeaveActives }
{}

/// An SA makes its source known to the RP for Keepalive_Period, 210 s.
#[tactic(auto, using(crate::proofs::Taking::active_is_known))]
pub fn active_is_known()
    ensures { ActiveIsKnown }
{}

/// An SA to an address that isn't the router's is ignored.
#[tactic(auto, using(crate::proofs::Taking::other_address_is_ignored))]
pub fn other_address_is_ignored()
    ensures { OtherAddressIsIgnored }
{}

/// An SA of a link-local group is ignored.
#[tactic(auto, using(crate::proofs::Taking::link_local_is_ignored))]
pub fn link_local_is_ignored()
    ensures { LinkLocalIsIgnored }
{}

/// An SA to an address that isn't the group's RP changes nothing of the state.
#[tactic(auto, using(crate::proofs::Taking::other_rp_changes_nothing))]
pub fn other_rp_changes_nothing()
    ensures { OtherRpChangesNothing }
{}

/// A source that is known by an SA alone is never told on as the RP's own.
pub fn none_sent_back()
    ensures { NoneSentBack }
{}
