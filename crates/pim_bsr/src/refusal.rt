//! Why no listener is made of bytes.
use pim_saved::SavedRefusal;

/// Why no listener is made of bytes: the first test that fails.
#[derive(Clone, Copy, PartialEq, Eq, Debug)]
pub enum ListenerRefusal {
    /// The bytes are no saved listener of this version.
    Bytes(SavedRefusal),
    /// There are more RPs than a listener keeps, one is of no range that a router takes, or has a hash mask that no
    /// address can have, or one stands twice.
    RpsNotHeld,
}

impl ListenerRefusal {
    ghost use Rattle.std.specs.Prelude.{◌≡◌};
    ghost use Rattle.pim_bsr.specs.Refused.{listener_refusal_number};

    /// The number of the refusal, which is none of [`pim_ip::Refusal`]: 75 for the RPs, else that of [`SavedRefusal`].
    #[tactic(auto, unfolding(crate::specs::Refused::listener_refusal_number))]
    pub fn number(self) -> u8
        ensures { result ≡ listener_refusal_number self }
    {
        match self {
            ListenerRefusal::Bytes(refusal) => refusal.number(),
            ListenerRefusal::RpsNotHeld => 75,
        }
    }
}
