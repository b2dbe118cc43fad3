//! The sets of RPs that share an address, of which the session's router is one.
ghost use Rattle.std.specs.Prelude.{◌≡◌, ◌↔◌, Err, IfErr, IfOk, IfSome, None, OnErr, OnOk, false, true};
ghost use Rattle.pim_anycast.specs.Sets.{are_rp_sets};
ghost use Rattle.pim_ip.specs.declared.fault.Fault.{Fault};
ghost use Rattle.pim_model.specs.State.{addressing_of};

use super::Session;
use crate::asked::Asked;
use pim_anycast::{Anycast, BadRpSet, RpSet};
use pim_types::{Config, Fault};

impl Session {
    /// Sets of which RPs that share an address the router is one from then on (RFC 4610), in place of those set before. Sets
    /// that a router with its addresses can't have are refused, and those set before stay. No memory is taken. The fault is
    /// `Failed`.
    pub fn set_rp_sets(&mut self, sets: Vec<RpSet>) -> Result<Result<(), BadRpSet>, Fault>
        ensures accepted { IfSome self.old.router.standing (λ r. IfOk result (λ answer. OnOk answer
            (are_rp_sets r.state.configured sets.items ≡ true))) }
        ensures set { IfOk result (λ answer. OnOk answer (self.new.sets ≡ sets.items)) }
        ensures refused { IfSome self.old.router.standing (λ r. IfOk result (λ answer. OnErr answer
            (are_rp_sets r.state.configured sets.items ≡ false))) }
        ensures stay { IfOk result (λ answer. OnErr answer (self.new.sets ≡ self.old.sets)) }
        ensures silent { OnErr result (self.new.sets ≡ self.old.sets) }
        ensures failed { (result ≡ Err Fault.Failed) ↔ (self.old.router.standing ≡ None) }
        ensures fault { IfErr result (λ fault. fault ≡ Fault.Failed) }
        ensures rest { (self.new.router ≡ self.old.router) × (self.new.front ≡ self.old.front) × (self.new.guard ≡ self.old.guard)
            × (self.new.sent ≡ self.old.sent) × (self.new.rows ≡ self.old.rows)
            × (self.new.older_rows ≡ self.old.older_rows) }
    {
        if self.is_lost {
            return Err(Fault::Failed);
        }
        match Anycast::of(&Asked::of(&self.router), sets) {
            Ok(anycast) => {
                self.anycast = anycast;
                Ok(Ok(()))
            }
            Err(bad) => Ok(Err(bad)),
        }
    }

    /// Whether a router with the addresses of a configuration can have the sets.
    pub(super) fn fits(&self, config: &Config) -> bool
        ensures { result ≡ are_rp_sets (addressing_of config.now) self.now.sets }
    {
        self.anycast.fits(config)
    }

    /// The sets of RPs that share an address, of which the router is one, as they were set; none in a new session.
    pub fn rp_sets(&self) -> &[RpSet]
        ensures { result.now ≡ self.now.sets }
    {
        self.anycast.sets()
    }
}
