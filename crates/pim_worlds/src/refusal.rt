//! Why no router is made of bytes.
use pim_saved::SavedRefusal;

/// Why no router is made of bytes: the first test that fails.
#[derive(Clone, Copy, PartialEq, Eq, Debug)]
pub enum RestoreRefusal {
    /// The bytes are no saved state of this version.
    Bytes(SavedRefusal),
    /// The configuration isn't accepted, or a fact is under a key of another kind.
    NotHeld,
    /// A timer has expired, or a fact is of an interface that is down.
    NotSettled,
    /// An assert or an SPTbit must go, or a register isn't settled.
    NotQuiet,
    /// A timer ends later than its period allows, an assert was won by an address that isn't the interface's, a neighbour
    /// has a group, or a source has no record of its group.
    NotNear,
}

impl RestoreRefusal {
    ghost use Rattle.std.specs.Prelude.{◌≡◌};
    ghost use Rattle.pim_worlds.specs.Refused.{restore_refusal_number};

    /// The number of the refusal, which is none of [`pim_ip::Refusal`]: 60 to 65 and 69 for bytes, 66 to 68 and
    /// 72 for a state.
    #[tactic(auto, unfolding(crate::specs::Refused::restore_refusal_number))]
    pub fn number(self) -> u8
        ensures { result ≡ restore_refusal_number self }
    {
        match self {
            RestoreRefusal::Bytes(refusal) => refusal.number(),
            RestoreRefusal::NotHeld => 66,
            RestoreRefusal::NotSettled => 67,
            RestoreRefusal::NotQuiet => 68,
            RestoreRefusal::NotNear => 72,
        }
    }
}
