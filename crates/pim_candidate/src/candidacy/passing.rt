//! Time passes.
ghost use Rattle.std.specs.Prelude.{◌≡◌, ◌++◌, ◌^◌, ◌≤◌, false, true, IfOk, IsOk, None, OnErr, OnOk};
ghost use Rattle.pim_bsr.specs.Joined.{first_end, is_due};
ghost use Rattle.pim_bsr.specs.Table.{moves};
ghost use Rattle.pim_candidate.specs.Candidacy.{advertising_passed, election_passed, expired_as, originating, set_passed, tells_by, time_passed, told_itself};
ghost use Rattle.pim_candidate.specs.Election.{expired};

use super::hear::{send_all, take_all};
use super::telling::is_itself;
use super::{Candidacy, StandingBsr};
use crate::advertising::ADVERTISED_HOLDTIME;
use crate::election::Action;
use pim_bsr::{Listener, Surroundings};
use pim_ip::Addr;
use pim_types::Emission;
use std::alloc::{AllocError, Global};

impl Candidacy {
    /// Time passed to a timestamp in ms: of the listener, and one step of each timer here that is due. Where
    /// [`Candidacy::first_end`] is due then, time passes to the timestamp again. True where the router is to be given other
    /// RPs. The draw delays an advertisement to a BSR that is new. What is to be sent is added to `out`. An `Err` is want of
    /// memory, and changes nothing here and of what the listener knows; a part of what is to be sent may be in `out` then. A
    /// router that stands as nothing takes memory as the listener does.
    #[tactic(auto, using(crate::proofs::Standing::passes))]
    pub fn pass_to<S: Surroundings>(
        &mut self,
        alloc: Global,
        listener: &mut Listener,
        around: &S,
        moment: u64,
        draw: u32,
        out: &mut Vec<Emission>,
    ) -> Result<bool, AllocError>
        requires { moment ≤ 2 ^ 62 }
        ensures moved { IfOk result (λ moved. moved
            ≡ moves listener.old (time_passed (S.around around.now) self.old listener.old moment draw).known) }
        ensures candidacy { OnOk result (self.new
            ≡ (time_passed (S.around around.now) self.old listener.old moment draw).candidacy) }
        ensures known { OnOk result (listener.new
            ≡ (time_passed (S.around around.now) self.old listener.old moment draw).known) }
        ensures sent { OnOk result (out.new.items ≡ out.old.items
            ++ (time_passed (S.around around.now) self.old listener.old moment draw).sent) }
        ensures err { OnErr result (self.new ≡ self.old) }
        ensures err_known { OnErr result (listener.new ≡ listener.old) }
        ensures sure { self.old.bsr ≡ None → self.old.rp ≡ None → is_due (first_end listener.old.table.rps) moment ≡ false
            → IsOk result }
    {
        if self.is_nothing() {
            return listener.pass_to(alloc, moment);
        }
        self.pass_standing(alloc, listener, around, moment, draw, out)
    }

    // Whether it stands as nothing.
    fn is_nothing(&self) -> bool
        ensures bsr { result ≡ true → self.now.bsr ≡ None }
        ensures rp { result ≡ true → self.now.rp ≡ None }
        ensures nothing { self.now.bsr ≡ None → self.now.rp ≡ None → result ≡ true }
    {
        let None = self.bsr else {
            return false;
        };
        let None = &self.rp else {
            return false;
        };
        true
    }

    // Time passed, on copies, so that an `Err` changes nothing.
    #[tactic(auto, unfolding(crate::specs::Candidacy::time_passed))]
    fn pass_standing<S: Surroundings>(
        &mut self,
        alloc: Global,
        listener: &mut Listener,
        around: &S,
        moment: u64,
        draw: u32,
        out: &mut Vec<Emission>,
    ) -> Result<bool, AllocError>
        requires { moment ≤ 2 ^ 62 }
        ensures moved { IfOk result (λ moved. moved
            ≡ moves listener.old (time_passed (S.around around.now) self.old listener.old moment draw).known) }
        ensures candidacy { OnOk result (self.new
            ≡ (time_passed (S.around around.now) self.old listener.old moment draw).candidacy) }
        ensures known { OnOk result (listener.new
            ≡ (time_passed (S.around around.now) self.old listener.old moment draw).known) }
        ensures sent { OnOk result (out.new.items ≡ out.old.items
            ++ (time_passed (S.around around.now) self.old listener.old moment draw).sent) }
        ensures err { OnErr result (self.new ≡ self.old) }
        ensures err_known { OnErr result (listener.new ≡ listener.old) }
    {
        let mut next = listener.copy(alloc)?;
        let mut after = self.copy(alloc)?;
        let _ = next.pass_to(alloc, moment)?;
        after.pass_set(alloc, moment)?;
        after.pass_election(alloc, &mut next, around, moment, out)?;
        after.follow(&next, draw, moment);
        after.pass_advertising(alloc, moment, draw, out)?;
        let moved = next.moves_from(alloc, listener)?;
        *listener = next;
        *self = after;
        Ok(moved)
    }

    // The RPs of which the holdtime is over go.
    #[tactic(auto, unfolding(crate::specs::Candidacy::set_passed))]
    fn pass_set(&mut self, alloc: Global, moment: u64) -> Result<(), AllocError>
        requires { moment ≤ 2 ^ 62 }
        ensures { OnOk result (self.new ≡ set_passed moment self.old) }
    {
        let Some(bsr) = self.bsr else {
            return Ok(());
        };
        let moved = self.rp_set.pass_to(alloc, moment)?;
        self.bsr = Some(bsr.hastened(moved, moment));
        Ok(())
    }

    // The Bootstrap Timer ends, where it is time.
    #[tactic(auto, unfolding(crate::specs::Candidacy::election_passed))]
    fn pass_election<S: Surroundings>(
        &mut self,
        alloc: Global,
        listener: &mut Listener,
        around: &S,
        moment: u64,
        out: &mut Vec<Emission>,
    ) -> Result<(), AllocError>
        requires { moment ≤ 2 ^ 62 }
        ensures candidacy { OnOk result (self.new
            ≡ (election_passed (S.around around.now) moment self.old listener.old).candidacy) }
        ensures known { OnOk result (listener.new
            ≡ (election_passed (S.around around.now) moment self.old listener.old).known) }
        ensures sent { OnOk result (out.new.items ≡ out.old.items
            ++ (election_passed (S.around around.now) moment self.old listener.old).sent) }
    {
        let Some(bsr) = self.bsr else {
            return Ok(());
        };
        if bsr.election.end > moment {
            return Ok(());
        }
        self.expire(alloc, listener, around, moment, bsr, out)
    }

    // The Bootstrap Timer's end.
    #[tactic(auto, unfolding(crate::specs::Candidacy::originates))]
    fn expire<S: Surroundings>(
        &mut self,
        alloc: Global,
        listener: &mut Listener,
        around: &S,
        moment: u64,
        bsr: StandingBsr,
        out: &mut Vec<Emission>,
    ) -> Result<(), AllocError>
        requires moment { moment ≤ 2 ^ 62 }
        requires due { bsr.election.end ≤ moment }
        ensures candidacy { OnOk result (self.new
            ≡ (expired_as (expired bsr.election) (S.around around.now) moment self.old bsr listener.old).candidacy) }
        ensures known { OnOk result (listener.new
            ≡ (expired_as (expired bsr.election) (S.around around.now) moment self.old bsr listener.old).known) }
        ensures sent { OnOk result (out.new.items ≡ out.old.items
            ++ (expired_as (expired bsr.election) (S.around around.now) moment self.old bsr listener.old).sent) }
    {
        let outcome = bsr.election.expire();
        match outcome.action {
            Action::Nothing | Action::Take | Action::PassOn => {
                self.elect(bsr, outcome.left);
                Ok(())
            }
            Action::Originate => {
                let bsr = bsr.under_next_tag(outcome.left);
                self.originate(alloc, listener, around, moment, bsr, out)
            }
        }
    }

    // A Bootstrap is originated, under the candidate's tag.
    fn originate<S: Surroundings>(
        &mut self,
        alloc: Global,
        listener: &mut Listener,
        around: &S,
        moment: u64,
        bsr: StandingBsr,
        out: &mut Vec<Emission>,
    ) -> Result<(), AllocError>
        requires { moment ≤ 2 ^ 62 }
        ensures candidacy { OnOk result (self.new
            ≡ (originating (S.around around.now) moment self.old bsr listener.old).candidacy) }
        ensures known { OnOk result (listener.new
            ≡ (originating (S.around around.now) moment self.old bsr listener.old).known) }
        ensures sent { OnOk result (out.new.items ≡ out.old.items
            ++ (originating (S.around around.now) moment self.old bsr listener.old).sent) }
    {
        let messages = self.own_messages(alloc, bsr)?;
        send_all(alloc, around, messages.as_slice(), out)?;
        take_all(alloc, listener, moment, messages.as_slice())?;
        self.bsr = Some(bsr);
        Ok(())
    }

    // The candidate RP tells the elected BSR, where it is time.
    #[tactic(auto, unfolding(crate::specs::Candidacy::advertising_passed))]
    fn pass_advertising(
        &mut self,
        alloc: Global,
        moment: u64,
        draw: u32,
        out: &mut Vec<Emission>,
    ) -> Result<(), AllocError>
        requires { moment ≤ 2 ^ 62 }
        ensures candidacy { OnOk result (self.new ≡ (advertising_passed moment draw self.old).candidacy) }
        ensures sent { OnOk result (out.new.items ≡ out.old.items ++ (advertising_passed moment draw self.old).sent) }
    {
        let Some(_) = &self.rp else {
            return Ok(());
        };
        let Some(bsr) = self.advertising.bsr else {
            return Ok(());
        };
        if self.advertising.end > moment {
            return Ok(());
        }
        let later = self.advertising.sent(u64::from(draw));
        self.tell(alloc, moment, bsr, out)?;
        self.advertising = later;
        Ok(())
    }

    // A BSR is told of the candidate RP.
    #[tactic(auto, unfolding(crate::specs::Candidacy::tells))]
    fn tell(
        &mut self,
        alloc: Global,
        moment: u64,
        bsr: Addr,
        out: &mut Vec<Emission>,
    ) -> Result<(), AllocError>
        requires { moment ≤ 2 ^ 62 }
        ensures candidacy { OnOk result (self.new ≡ (tells_by self.old.rp moment self.old bsr).candidacy) }
        ensures sent { OnOk result (out.new.items ≡ out.old.items ++ (tells_by self.old.rp moment self.old bsr).sent) }
    {
        let Some(rp) = &self.rp else {
            return Ok(());
        };
        if !is_itself(self.bsr, bsr) {
            return rp.tell(alloc, ADVERTISED_HOLDTIME, bsr, out);
        }
        if !rp.is_advertised() {
            return Ok(());
        }
        let message = rp.advertisement(alloc, ADVERTISED_HOLDTIME)?;
        self.tell_itself(alloc, moment, message.as_slice())
    }

    // An advertisement that the router gives itself.
    fn tell_itself(&mut self, alloc: Global, moment: u64, message: &[u8]) -> Result<(), AllocError>
        requires { moment ≤ 2 ^ 62 }
        ensures { OnOk result (self.new ≡ told_itself self.old.bsr moment self.old message.now) }
    {
        let Some(bsr) = self.bsr else {
            return Ok(());
        };
        self.take_advertisement(alloc, moment, bsr, message)?;
        Ok(())
    }
}
