//! What a sight becomes where the machines change what it shows: the source's own row, or its register state.
ghost use Rattle.std.specs.Prelude.{◌≡◌};
ghost use Rattle.pim_macros.specs.Sights.{InSource, IsSourceSight};
ghost use Rattle.pim_model.specs.Asserts.{with_spt_bit};
ghost use Rattle.pim_model.specs.Registers.{with_keepalive};
ghost use Rattle.pim_model.specs.Sets.{tunnel};
ghost use Rattle.pim_model.specs.State.{State};
ghost use Rattle.pim_model.specs.Tables.{Table};
ghost use Rattle.pim_types.specs.declared.fact.RegisterRow.{RegisterRow};

use crate::sight::SourceSight;

impl SourceSight {
    /// The sight with KAT(S,G) set, and all else unchanged.
    pub fn kept_alive(self) -> SourceSight
        ensures sight { InSource self (λ s g src. IsSourceSight (with_keepalive s g src) result) }
        ensures star { result.star ≡ self.star }
        ensures source { result.source ≡ self.source }
    {
        SourceSight {
            is_kept_alive: true,
            ..self
        }
    }

    /// The sight with SPTbit(S,G) set, and all else unchanged.
    pub fn with_spt_bit(self) -> SourceSight
        ensures sight { InSource self (λ s g src. IsSourceSight (with_spt_bit s g src) result) }
        ensures star { result.star ≡ self.star }
        ensures source { result.source ≡ self.source }
    {
        SourceSight { spt: true, ..self }
    }

    /// The sight with the register tunnel in joins(S,G) or not, and all else unchanged.
    pub fn with_tunnel(self, is_joined: bool) -> SourceSight
        ensures sight { (s : State) (t : Table RegisterRow) → IsSourceSight s self
            → let new : State = record s { registers = t } in
            is_joined ≡ tunnel new self.star.group.bits self.source.bits → IsSourceSight new result }
        ensures star { result.star ≡ self.star }
        ensures source { result.source ≡ self.source }
    {
        SourceSight {
            tunnel: is_joined,
            ..self
        }
    }
}
