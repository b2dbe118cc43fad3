//! What makes two sets the same.
ghost use Rattle.std.specs.Prelude.{◌≡◌, ◌&&◌, ℕ, Bool, nat_lt};
ghost use Rattle.pim_ifset.specs.Members.{Members, has, set_of};

/// Two sets with the same interfaces that agree on the tunnel are the same.
#[tactic(auto, using(crate::proofs::Sets::same_members))]
pub fn same_members_make_one_set()
    ensures { (s t : Members) → ((q : ℕ) → has s q ≡ has t q) → s.tunnel ≡ t.tunnel → s ≡ t }
{}

/// The set of the interfaces that pass a test has those below 120 that pass.
#[tactic(auto, using(crate::proofs::Sets::has_set_of), unfolding(crate::specs::Members::set_of))]
pub fn set_of_has_those_that_pass()
    ensures interfaces { (p : ℕ → Bool) (tunnel : Bool) (q : ℕ) → has (set_of p tunnel) q ≡ (nat_lt q 120 && p q) }
    ensures tunnel { (p : ℕ → Bool) (tunnel : Bool) → (set_of p tunnel).tunnel ≡ tunnel }
{}
