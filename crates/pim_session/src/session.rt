//! A router in a box, with what stands before it, and what its last calls returned.
ghost use Rattle.law_plane.specs.Keeping.{keep};
ghost use Rattle.law_plane.specs.Offered.{offered};
ghost use Rattle.law_plane.specs.Seen.{seen_event};
ghost use Rattle.law_states.specs.History.{Given};
ghost use Rattle.pim_event.specs.Replacing.{may_differ};
ghost use Rattle.pim_fanout.specs.Named.{keys_of};
ghost use Rattle.pim_guard.specs.Guard.{is_stopped};
ghost use Rattle.pim_ip.specs.declared.fault.Fault.{Fault};
ghost use Rattle.pim_macros.specs.Rows.{number_of};
ghost use Rattle.pim_mfc.specs.Laws.{TellsRow};
ghost use Rattle.pim_mfc.specs.Shown.{TellsOffload};
ghost use Rattle.pim_model.specs.Cache.{cached};
ghost use Rattle.pim_model.specs.Judging.{last_moment};
ghost use Rattle.pim_model.specs.Limits.{config_test};
ghost use Rattle.pim_model.specs.Sets.{is_kept_alive};
ghost use Rattle.pim_model.specs.State.{opening};
ghost use Rattle.pim_model.specs.Step.{step};
ghost use Rattle.pim_model.specs.Unicast.{rpf_interface_rp};
ghost use Rattle.pim_router.specs.Asked.{LeadsOn};
ghost use Rattle.pim_router.specs.Standing.{begun, nothing_shown, with_state};
ghost use Rattle.pim_router.specs.Stepped.{Faults, TookEvent};
ghost use Rattle.pim_rows.specs.Printed.{rows};
ghost use Rattle.pim_session.specs.Front.{hosts_set, interface_test, older_rows, version_set};
ghost use Rattle.pim_session.specs.Leaving.{LeftIsAsked};
ghost use Rattle.pim_session.specs.Shared.{event_in, front_in, is_sure_in, leaving, left_in, next_in, seen_in, seen_leaving, sooner};
ghost use Rattle.pim_session.specs.Untaken.{IsAnswered, IsMemoryAlone, IsMemoryUnless, SettingsStay, Stopped, Stops, has_untaken, is_guarded};
ghost use Rattle.pim_session.specs.declared.stop.Stop.{Stop as StopValue};
ghost use Rattle.pim_types.specs.Keys.{key_cmp};
ghost use Rattle.std.specs.List.Sorted.{IsStrictlySortedBy};
ghost use Rattle.std.specs.Option.{option_map_or};
ghost use Rattle.std.specs.Prelude.{◌≡◌, ◌↔◌, [], Err, IfErr, IfOk, IfSome, IsSome, IsTrue, None, Ok, OnErr, OnOk, Some, drop, min, true};

mod bootstraps;
mod candidacies;
mod guarded;
mod placed;
mod reloaded;
mod saved;
mod sets;
mod sources;
mod trees;

use crate::front::Front;
use crate::stop::Stop;
use crate::{behind, shared};
use igmp_older::{OlderHosts, OlderRow, QueryVersion};
use pim_anycast::Anycast;
use pim_intake::LentEvent;
use pim_mfc::{CacheRow, Offered};
use pim_router::Router;
use pim_rows::{Row, Table};
use pim_types::{Addr, Config, Emission, Fault, IfaceId, Refusal, SourceGroup, Verdict};
use std::alloc::Global;
use std::marker::Model;
use std::mem;

/// A router, what stands before it for hosts and routers of older versions of IGMP and for RPs that share an address, the
/// packets of the last event, and the rows that were read last. The packets are taken one by one, or cleared: until then
/// the session takes no event. A new session's router refuses each message of an older version, and is in no set of RPs.
/// Before it stands a guard, which stops what would be forwarded as data though hosts and routers read it as IGMP or PIM,
/// as `pim_guard` says.
pub struct Session {
    router: Box<Router>,
    // Whether an allocation failed, and with it the session.
    is_lost: bool,
    front: Option<Front>,
    anycast: Anycast,
    guard: bool,
    sent: Vec<Emission>,
    // How many of the packets were taken.
    taken: usize,
    rows: Vec<Row>,
    older_rows: Vec<OlderRow>,
}

impl Model for Session {
    ghost use Rattle.std.specs.Prelude.{◌≡◌, IsSome, None, drop, false, if◌then◌else◌};
    ghost use Rattle.pim_router.specs.Standing.{nothing_shown};
    ghost use Rattle.pim_session.specs.Session.{ShownSession};

    ghost Value = { ShownSession };

    ghost view = { λ s. record {
      router = if s.is_lost then nothing_shown else s.router.value;
      front = if s.is_lost then None else s.front;
      sets = s.anycast;
      guard = s.guard;
      sent = drop s.taken s.sent.items;
      rows = s.rows.items;
      older_rows = s.older_rows.items;
    } };

    ghost invariant = { λ s. s.is_lost ≡ false → IsSome s.router.value.standing };
}

// Called at each exit of an owner, where a derived drop would be spelled out and proved anew.
impl Drop for Session {
    fn drop(self) {
        let Session {
            router: _,
            is_lost: _,
            front: _,
            anycast: _,
            guard: _,
            sent: _,
            taken: _,
            rows: _,
            older_rows: _,
        } = self;
    }
}

// The sooner of two timestamps, in ms.
fn sooner(first: Option<u64>, other: Option<u64>) -> Option<u64>
    ensures { result ≡ sooner first other }
{
    match (first, other) {
        (Some(first), Some(other)) => Some(first.min(other)),
        (Some(first), None) => Some(first),
        (None, other) => other,
    }
}

impl Session {
    /// A router with this configuration, at timestamp 0 and with all its interfaces down, as `Router::new` makes it.
    /// The fault is want of memory.
    pub fn new(alloc: Global, config: Config) -> Result<Result<Session, Refusal>, Fault>
        ensures accepted { IfOk result (λ made. IfOk made (λ s. (config_test config ≡ Ok tt)
            × (s.router ≡ begun (opening config)) × (s.front ≡ None) × (s.sets ≡ []) × (s.guard ≡ true) × (s.sent ≡ []) × (s.rows ≡ [])
            × (s.older_rows ≡ []))) }
        ensures refused { IfOk result (λ made. IfErr made (λ refusal. config_test config ≡ Err refusal)) }
        ensures memory { IfErr result (λ fault. fault ≡ Fault.Memory) }
    {
        match Router::new(alloc, config)? {
            Ok(router) => Ok(Ok(Session::of(alloc, Box::new(alloc, router)?, None))),
            Err(refusal) => Ok(Err(refusal)),
        }
    }

    fn of(alloc: Global, router: Box<Router>, front: Option<Front>) -> Session
        requires { IsSome router.value.standing }
        ensures { (result.router ≡ router.value) × (result.front ≡ front) × (result.sets ≡ []) × (result.guard ≡ true) × (result.sent ≡ []) × (result.rows ≡ [])
            × (result.older_rows ≡ []) }
    {
        Session {
            router,
            is_lost: false,
            front,
            anycast: Anycast::new(alloc),
            guard: true,
            sent: Vec::new(alloc),
            taken: 0,
            rows: Vec::new(alloc),
            older_rows: Vec::new(alloc),
        }
    }

    /// Takes one event, as `Router::step_lent` does, and keeps its packets. Where something stands before the router, the
    /// router is given what that makes of a packet, and its queries leave as the versions of the interfaces say. Where it
    /// is in a set of RPs that share an address, what it sends to the others of the set leaves too: copies of a Register
    /// before all else, and Null-Registers after all else. While packets of the event before are untaken the answer is
    /// `Untaken`, and nothing changes. Else, where the guard stops the event, the answer is `Guarded`: the router is given
    /// an empty packet in its place, which it refuses, so that it stays as it is, and lists nothing as changed. After a
    /// fault the session answers `Failed` from then on. A session that hasn't failed, and has no untaken packets, answers
    /// an event that is stopped or ignored, or is refused for its bytes, its timestamp or its interface, if its packet was
    /// given to the router as it came.
    pub fn step(&mut self, event: &LentEvent<'_>) -> Result<Result<Verdict, Refusal>, Stop>
        ensures took { IfSome self.old.router.standing (λ r. IfOk result (λ answer.
            TookEvent r.state (event_in self.old r.state event.now) answer self.new.router)) }
        ensures sent { IfSome self.old.router.standing (λ r. OnOk result (self.new.sent
            ≡ leaving self.old r.state event.now)) }
        ensures asked { IfSome self.old.router.standing (λ r. IfOk result (λ answer. IfSome self.new.router.standing (λ after.
            LeftIsAsked (left_in self.old r.state event.now) r.state (event_in self.old r.state event.now) answer self.new.sent after.copies))) }
        ensures led { IfSome self.old.router.standing (λ r. OnOk result (IfSome self.new.router.standing (λ after.
            LeadsOn r.state (Given.Happening (event_in self.old r.state event.now)) after.state))) }
        ensures front { IfSome self.old.router.standing (λ r. OnOk result
            (self.new.front ≡ front_in self.old r.state event.now)) }
        ensures stops { Stops result self.old }
        ensures stopped { IfErr result (λ stop. Stopped stop self.old self.new) }
        ensures silent { OnErr result (self.new.sent ≡ self.old.sent) }
        ensures guarded { IfSome self.old.router.standing (λ r.
            (result ≡ Err StopValue.Guarded) ↔ IsTrue (is_guarded self.old event.now.kind)) }
        ensures settings { SettingsStay self.old self.new }
        ensures fault { IfSome self.old.router.standing (λ r.
            IfErr result (IsMemoryUnless (is_stopped self.old.guard event.now.kind))) }
        ensures sure { IfSome self.old.router.standing (λ r. self.old.sent ≡ []
            → IsTrue (is_sure_in self.old r.state event.now)
            → IsAnswered (is_stopped self.old.guard event.now.kind) result) }
        ensures rows { (self.new.rows ≡ self.old.rows) × (self.new.older_rows ≡ self.old.older_rows) }
    {
        if self.is_lost {
            return Err(Stop::Fault(Fault::Failed));
        }
        if self.has_untaken() {
            return Err(Stop::Untaken);
        }
        if self.stops(event) {
            return Err(self.stay(event.draw()));
        }
        match shared::step(self.router.as_mut(), &mut self.front, &self.anycast, event) {
            Ok((answer, sent)) => {
                self.keep_sent(sent);
                Ok(answer)
            }
            Err(fault) => {
                self.is_lost = true;
                Err(Stop::Fault(fault))
            }
        }
    }

    /// A data plane saw a packet of (S,G) on the interface, as `Router::packet_seen` says. What leaves is kept,
    /// with Null-Registers to the others of a set of RPs after all else, as `step` says of a packet. While
    /// packets of the event before are untaken the answer is `Untaken`, and nothing changes. After a fault the session
    /// answers `Failed` from then on.
    pub fn packet_seen(
        &mut self,
        draw: u32,
        iface: IfaceId,
        name: SourceGroup,
    ) -> Result<Result<Verdict, Refusal>, Stop>
        ensures took { IfSome self.old.router.standing (λ r. IfOk result (λ answer.
            TookEvent r.state (seen_event draw iface name.group.bits name.source.bits) answer self.new.router)) }
        ensures sent { IfSome self.old.router.standing (λ r. OnOk result
            (self.new.sent ≡ seen_leaving self.old r.state (seen_event draw iface name.group.bits name.source.bits) name.group.bits name.source.bits)) }
        ensures asked { IfSome self.old.router.standing (λ r. IfOk result (λ answer. IfSome self.new.router.standing (λ after.
            LeftIsAsked (seen_in self.old r.state (seen_event draw iface name.group.bits name.source.bits) name.group.bits name.source.bits) r.state
            (seen_event draw iface name.group.bits name.source.bits) answer self.new.sent after.copies))) }
        ensures led { IfSome self.old.router.standing (λ r. OnOk result (IfSome self.new.router.standing (λ after.
            LeadsOn r.state (Given.Happening (seen_event draw iface name.group.bits name.source.bits)) after.state))) }
        ensures stops { Stops result self.old }
        ensures stopped { IfErr result (λ stop. Stopped stop self.old self.new) }
        ensures front { OnOk result (self.new.front ≡ self.old.front) }
        ensures settings { SettingsStay self.old self.new }
        ensures silent { OnErr result (self.new.sent ≡ self.old.sent) }
        ensures fault { IfSome self.old.router.standing (λ r. IfErr result IsMemoryAlone) }
        ensures rows { (self.new.rows ≡ self.old.rows) × (self.new.older_rows ≡ self.old.older_rows) }
    {
        if self.is_lost {
            return Err(Stop::Fault(Fault::Failed));
        }
        if self.has_untaken() {
            return Err(Stop::Untaken);
        }
        match shared::see(self.router.as_mut(), &self.anycast, draw, iface, name) {
            Ok((answer, sent)) => {
                self.keep_sent(sent);
                Ok(answer)
            }
            Err(fault) => {
                self.is_lost = true;
                Err(Stop::Fault(fault))
            }
        }
    }

    /// A data plane forwarded its last packet of (S,G) at this timestamp, in ms, as `Router::keep` says. The result is
    /// whether KAT(S,G) runs. After a fault the session answers `Failed` from then on.
    pub fn keep(&mut self, source: Addr, group: Addr, moment: u64) -> Result<bool, Fault>
        ensures runs { IfSome self.old.router.standing (λ r. IfOk result (λ runs.
            runs ≡ is_kept_alive r.state group.bits source.bits)) }
        ensures state { IfSome self.old.router.standing (λ r. OnOk result (self.new.router
            ≡ with_state self.old.router r (keep r.state group.bits source.bits (min moment last_moment)))) }
        ensures led { IfSome self.old.router.standing (λ r. OnOk result (IfSome self.new.router.standing (λ after.
            LeadsOn r.state (Given.Kept group.bits source.bits (min moment last_moment)) after.state))) }
        ensures failing { OnErr result ((self.new.router ≡ nothing_shown) × (self.new.front ≡ None)) }
        ensures front { OnOk result (self.new.front ≡ self.old.front) }
        ensures faults { Faults result self.old.router.standing }
        ensures rest { (self.new.guard ≡ self.old.guard) × (self.new.sets ≡ self.old.sets) × (self.new.sent ≡ self.old.sent) × (self.new.rows ≡ self.old.rows)
            × (self.new.older_rows ≡ self.old.older_rows) }
    {
        if self.is_lost {
            return Err(Fault::Failed);
        }
        match self.router.keep(source, group, moment) {
            Ok(runs) => Ok(runs),
            Err(fault) => {
                self.is_lost = true;
                Err(fault)
            }
        }
    }

    // Keeps packets that were sent in place of those kept before, whose memory goes back to the router.
    fn keep_sent(&mut self, sent: Vec<Emission>)
        ensures sent { self.new.sent ≡ sent.items }
        ensures rest { (self.new.router ≡ self.old.router) × (self.new.guard ≡ self.old.guard) × (self.new.sets ≡ self.old.sets) × (self.new.front ≡ self.old.front) × (self.new.rows ≡ self.old.rows)
            × (self.new.older_rows ≡ self.old.older_rows) }
    {
        let done = mem::replace(&mut self.sent, sent);
        self.taken = 0;
        self.router.take_back(done);
    }

    /// Whether an allocation failed in an event: the session answers `Failed` from then on.
    pub fn has_failed(&self) -> bool
        ensures { IsTrue result ↔ (self.now.router.standing ≡ None) }
    {
        self.is_lost
    }

    /// Reads the rows of a table, as `Router::rows` does, and keeps them in place of the rows kept before. After a
    /// fault the kept rows are unchanged.
    pub fn read(&mut self, table: Table) -> Result<(), Fault>
        ensures rows { IfSome self.old.router.standing (λ r. OnOk result (self.new.rows ≡ rows r.state table)) }
        ensures silent { OnErr result (self.new.rows ≡ self.old.rows) }
        ensures faults { Faults result self.old.router.standing }
        ensures rest { (self.new.router ≡ self.old.router) × (self.new.guard ≡ self.old.guard) × (self.new.sets ≡ self.old.sets) × (self.new.front ≡ self.old.front)
            × (self.new.sent ≡ self.old.sent) × (self.new.older_rows ≡ self.old.older_rows) }
    {
        if self.is_lost {
            return Err(Fault::Failed);
        }
        self.rows = self.router.rows(table)?;
        Ok(())
    }

    /// Sets which hosts of older versions an interface hears from then on, and forgets what it heard before. An interface
    /// on which nobody was heard keeps of what was restored what it hears from then on. The refusal is `NoInterface`. A
    /// fault changes nothing.
    #[tactic(auto, unfolding(crate::specs::Front::hosts_set))]
    pub fn set_older_hosts(
        &mut self,
        iface: IfaceId,
        hosts: OlderHosts,
    ) -> Result<Result<(), Refusal>, Fault>
        ensures answer { IfSome self.old.router.standing (λ r. IfOk result (λ answer. answer
            ≡ interface_test r.state iface.number)) }
        ensures front { IfSome self.old.router.standing (λ r. OnOk result
            (self.new.front ≡ hosts_set r.state self.old.front iface.number hosts)) }
        ensures silent { OnErr result (self.new.front ≡ self.old.front) }
        ensures faults { Faults result self.old.router.standing }
        ensures rest { (self.new.router ≡ self.old.router) × (self.new.guard ≡ self.old.guard) × (self.new.sets ≡ self.old.sets) × (self.new.sent ≡ self.old.sent) × (self.new.rows ≡ self.old.rows)
            × (self.new.older_rows ≡ self.old.older_rows) }
    {
        if self.is_lost {
            return Err(Fault::Failed);
        }
        if let Err(refusal) = behind::test_interface(&self.router, iface) {
            return Ok(Err(refusal));
        }
        let before = mem::replace(&mut self.front, None);
        let mut front = behind::front_of(&self.router, before)?;
        front.set_hosts(iface, hosts);
        self.front = Some(front);
        Ok(Ok(()))
    }

    /// Sets the version in which an interface queries: in version 2 its queries leave cut behind their group. The refusal
    /// is `NoInterface`. A fault changes nothing.
    #[tactic(auto, unfolding(crate::specs::Front::version_set))]
    pub fn set_query_version(
        &mut self,
        iface: IfaceId,
        version: QueryVersion,
    ) -> Result<Result<(), Refusal>, Fault>
        ensures answer { IfSome self.old.router.standing (λ r. IfOk result (λ answer. answer
            ≡ interface_test r.state iface.number)) }
        ensures front { IfSome self.old.router.standing (λ r. OnOk result
            (self.new.front ≡ version_set r.state self.old.front iface.number version)) }
        ensures silent { OnErr result (self.new.front ≡ self.old.front) }
        ensures faults { Faults result self.old.router.standing }
        ensures rest { (self.new.router ≡ self.old.router) × (self.new.guard ≡ self.old.guard) × (self.new.sets ≡ self.old.sets) × (self.new.sent ≡ self.old.sent) × (self.new.rows ≡ self.old.rows)
            × (self.new.older_rows ≡ self.old.older_rows) }
    {
        if self.is_lost {
            return Err(Fault::Failed);
        }
        if let Err(refusal) = behind::test_interface(&self.router, iface) {
            return Ok(Err(refusal));
        }
        let before = mem::replace(&mut self.front, None);
        let mut front = behind::front_of(&self.router, before)?;
        front.set_version(iface, version);
        self.front = Some(front);
        Ok(Ok(()))
    }

    /// Reads the groups that are in an older mode, and keeps them in place of those kept before. After a fault the kept
    /// rows are unchanged.
    pub fn read_older(&mut self) -> Result<(), Fault>
        ensures rows { IfSome self.old.router.standing (λ r. OnOk result
            (self.new.older_rows ≡ older_rows self.old.front r.state)) }
        ensures silent { OnErr result (self.new.older_rows ≡ self.old.older_rows) }
        ensures faults { Faults result self.old.router.standing }
        ensures rest { (self.new.router ≡ self.old.router) × (self.new.guard ≡ self.old.guard) × (self.new.sets ≡ self.old.sets) × (self.new.front ≡ self.old.front)
            × (self.new.sent ≡ self.old.sent) × (self.new.rows ≡ self.old.rows) }
    {
        if self.is_lost {
            return Err(Fault::Failed);
        }
        self.older_rows = behind::older_rows(&self.router, &self.front)?;
        Ok(())
    }

    /// The packets of the last event that are untaken, in their order.
    pub fn sent(&self) -> &[Emission]
        ensures { result.now ≡ self.now.sent }
    {
        if self.has_untaken() {
            return &self.sent.as_slice()[self.taken..];
        }
        &[]
    }

    /// Whether packets of the last event are untaken.
    pub fn has_untaken(&self) -> bool
        ensures { result ≡ has_untaken self.now }
    {
        self.taken < self.sent.len()
    }

    /// Takes the first of the untaken packets away, if there is one.
    pub fn remove_first(&mut self)
        ensures sent { self.new.sent ≡ drop 1 self.old.sent }
        ensures rest { (self.new.router ≡ self.old.router) × (self.new.guard ≡ self.old.guard) × (self.new.sets ≡ self.old.sets) × (self.new.front ≡ self.old.front) × (self.new.rows ≡ self.old.rows)
            × (self.new.older_rows ≡ self.old.older_rows) }
    {
        if self.has_untaken() {
            self.taken += 1;
        }
    }

    /// Takes all untaken packets away.
    pub fn clear(&mut self)
        ensures sent { self.new.sent ≡ [] }
        ensures rest { (self.new.router ≡ self.old.router) × (self.new.guard ≡ self.old.guard) × (self.new.sets ≡ self.old.sets) × (self.new.front ≡ self.old.front) × (self.new.rows ≡ self.old.rows)
            × (self.new.older_rows ≡ self.old.older_rows) }
    {
        self.taken = self.sent.len();
    }

    /// The rows that were read last, in ascending order of their keys.
    pub fn rows(&self) -> &[Row]
        ensures { result.now ≡ self.now.rows }
    {
        self.rows.as_slice()
    }

    /// The groups in an older mode that were read last, in ascending order of their interfaces and groups.
    pub fn older_rows(&self) -> &[OlderRow]
        ensures { result.now ≡ self.now.older_rows }
    {
        self.older_rows.as_slice()
    }

    /// The timestamp, in ms, at which the next timer of the router expires, or sources on its links are to be announced to
    /// the others of a set, whichever is sooner; `None` where neither is so, and after a fault.
    #[tactic(auto, unfolding(crate::specs::Shared::next_in))]
    pub fn next_moment(&self) -> Option<u64>
        ensures { result ≡ next_in self.now }
    {
        if self.is_lost {
            return None;
        }
        sooner(
            self.router.next_moment(),
            self.anycast.next(self.router.present_moment()),
        )
    }

    /// How many copies of a data packet the last event sent on links; 0 after a fault.
    pub fn copies(&self) -> u32
        ensures { result ≡ option_map_or (λ r. r.copies) self.now.router.standing 0 }
    {
        if self.is_lost {
            return 0;
        }
        self.router.copies()
    }

    /// The row of the forwarding cache of a source, as `Router::cached` returns it; `None` after a fault.
    pub fn cached(&self, source: Addr, group: Addr) -> Option<CacheRow>
        ensures cached { IfSome self.now.router.standing (λ r. TellsRow result (cached r.state group.bits source.bits)) }
        ensures failed { self.now.router.standing ≡ None → result ≡ None }
    {
        if self.is_lost {
            return None;
        }
        self.router.cached(source, group)
    }

    /// RPF_interface(RP(G)) of any group, as `Router::rp_interface` returns it; `None` after a fault.
    pub fn rp_interface(&self, group: Addr) -> Option<IfaceId>
        ensures rpf { IfSome self.now.router.standing (λ r. number_of result ≡ rpf_interface_rp r.state group.bits) }
        ensures failed { self.now.router.standing ≡ None → result ≡ None }
    {
        if self.is_lost {
            return None;
        }
        self.router.rp_interface(group)
    }

    /// What a data plane may do with the packets of (S,G), as `Router::offload` returns it; `None` after a fault.
    pub fn offload(&self, source: Addr, group: Addr) -> Option<Offered>
        ensures told { IfSome self.now.router.standing (λ r. TellsOffload result (offered r.state group.bits source.bits)) }
        ensures failed { self.now.router.standing ≡ None → result ≡ None }
    {
        if self.is_lost {
            return None;
        }
        self.router.offload(source, group)
    }

    /// The sources that the last event listed as changed, each once, as `Router::changed` lists them; none after a fault.
    pub fn changed(&self) -> &[SourceGroup]
        ensures names { keys_of result.now ≡ self.now.router.changed }
        ensures once { IsStrictlySortedBy key_cmp self.now.router.changed }
        ensures none { self.now.router.touched ≡ 0 → result.now ≡ [] }
    {
        if self.is_lost {
            return &[];
        }
        self.router.changed()
    }

    /// Whether what is offered of (S,G) may have changed in the last event, as `Router::may_differ` answers; true after
    /// a fault.
    pub fn may_differ(&self, source: Addr, group: Addr) -> bool
        ensures { result ≡ option_map_or (λ r. may_differ self.now.router.disturbed r.state group.bits source.bits)
            self.now.router.standing true }
    {
        if self.is_lost {
            return true;
        }
        self.router.may_differ(source, group)
    }

    /// By how much the meter rose in the last event, in trie nodes, as `Router::probes` counts; 0 after a fault.
    pub fn probes(&self) -> u64
        ensures { result ≡ self.now.router.probes }
    {
        if self.is_lost {
            return 0;
        }
        self.router.probes()
    }

    /// The rows of the forwarding cache that the last event touched, as `Router::touched` counts them; 0 after a fault.
    pub fn touched(&self) -> u64
        ensures { result ≡ self.now.router.touched }
    {
        if self.is_lost {
            return 0;
        }
        self.router.touched()
    }
}
