//! What a front remembers goes with its interfaces, computed by the kernel.
#![tactic(auto, unfolding(crate::proofs::OnLiterals::machine_on_literals, crate::proofs::OlderHost::front_on_literals))]

ghost use Rattle.pim_runs.specs.OlderMoved.{RememberedRowsMove, SettingsMove};

/// Rows are at the new numbers of their interfaces, and one whose interface is left out is gone.
#[tactic(auto, unfolding(pim_types::specs::Keys::addr_cmp, pim_types::specs::Keys::key_cmp, pim_model::specs::Tables::keys_in, pim_model::specs::Tables::put, pim_model::specs::Tables::row_at, igmp_older::specs::Placed::new_place, igmp_older::specs::Placed::placed_rows))]
pub fn remembered_rows_move()
    ensures { RememberedRowsMove }
{}

/// Settings are at the new numbers of their interfaces, and an interface to which none goes is unset.
#[tactic(auto, unfolding(igmp_older::specs::Placed::old_place, igmp_older::specs::Placed::setting_placed))]
pub fn settings_move()
    ensures { SettingsMove }
{}
