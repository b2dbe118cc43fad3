//! Registering with the RP (RFC 7761, sections 4.4.1 and 4.4.2).
ghost use Rattle.std.specs.Prelude.{◌≡◌};
ghost use Rattle.pim_macros.specs.Sights.{InSource, InStar};
ghost use Rattle.pim_model.specs.Registers.{could_register, has_other_rp};

use crate::sight::{SourceSight, StarSight};

impl StarSight {
    /// Whether RP(G) is known, and another router.
    #[tactic(auto, using(crate::proofs::OtherRp::other_where_known), unfolding(pim_model::specs::Registers::has_other_rp))]
    pub fn has_other_rp(&self) -> bool
        ensures { InStar self.now (λ s g. result ≡ has_other_rp s g) }
    {
        self.rp.is_some() && !self.is_own_rp
    }
}

impl SourceSight {
    /// CouldRegister(S,G).
    #[tactic(auto, unfolding(pim_model::specs::Registers::could_register))]
    pub fn could_register(&self) -> bool
        ensures { InSource self.now (λ s g src. result ≡ could_register s g src) }
    {
        self.is_dr && self.is_kept_alive && self.star.has_other_rp()
    }
}
