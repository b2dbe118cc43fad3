//! What holds of what is told, in every state.
ghost use Rattle.pim_model.specs.Desires.{rpf_source, rpf_star};
ghost use Rattle.pim_model.specs.Neighbours.{is_dr, neighbours_on};
ghost use Rattle.pim_model.specs.State.{State, my_address};
ghost use Rattle.pim_shown.specs.Links.{dr};
ghost use Rattle.pim_shown.specs.TreeMacros.{has_neighbour, source_cause, star_cause};
ghost use Rattle.pim_types.specs.Keys.{source_in};
ghost use Rattle.std.specs.List.{list_any};
ghost use Rattle.std.specs.Prelude.{◌≡◌, ◌==◌, false, is_some, true, ℕ};

/// DR(I) is the router's own address where I_am_DR(I) holds, and else the address of a neighbour on the interface.
pub fn the_dr_is_elected()
    ensures own { (s : State) (i : ℕ) → is_dr s i ≡ true → dr s i ≡ my_address s i }
    ensures other { (s : State) (i : ℕ) → is_dr s i ≡ false
        → list_any (λ e. source_in e.0 == dr s i) (neighbours_on s i) ≡ true }
{}

/// RPF' is a neighbour exactly where it is said to come from an assert or from the next hop.
pub fn there_is_a_neighbour_as_told()
    ensures star { (s : State) (g : ℕ) → has_neighbour (star_cause s g) ≡ is_some (rpf_star s g) }
    ensures source { (s : State) (g src : ℕ) → has_neighbour (source_cause s g src) ≡ is_some (rpf_source s g src) }
{}
