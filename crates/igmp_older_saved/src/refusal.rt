//! Why no router with its groups of older hosts is made of bytes.
use pim_worlds::RestoreRefusal;

/// Why no router with its groups of older hosts is made of bytes: the first test that fails.
#[derive(Clone, Copy, PartialEq, Eq, Debug)]
pub enum HeldRefusal {
    /// No router is made of the router's bytes.
    Router(RestoreRefusal),
    /// The rows of older hosts aren't read, or a router in this state has none such.
    HostsNotHeld,
}

impl HeldRefusal {
    ghost use Rattle.std.specs.Prelude.{◌≡◌};
    ghost use Rattle.igmp_older_saved.specs.Refused.{held_refusal_number};

    /// The number of the refusal, which is none of [`pim_ip::Refusal`]: 71 for the rows of older hosts, else that of
    /// [`RestoreRefusal`].
    #[tactic(auto, unfolding(crate::specs::Refused::held_refusal_number))]
    pub fn number(self) -> u8
        ensures { result ≡ held_refusal_number self }
    {
        match self {
            HeldRefusal::Router(refusal) => refusal.number(),
            HeldRefusal::HostsNotHeld => 71,
        }
    }
}
