//! The router, as its users call it.
ghost use Rattle.law_events.specs.Rest.{IsAtRest};
ghost use Rattle.law_plane.specs.Keeping.{keep};
ghost use Rattle.law_plane.specs.Offered.{offered};
ghost use Rattle.law_plane.specs.Seen.{seen_event};
ghost use Rattle.law_states.specs.History.{Given, IsLedTo, greatest_count, greatest_limit, past_given};
ghost use Rattle.law_states.specs.Reload.{config_of};
ghost use Rattle.law_streams.specs.Bounded.{counted_beside_asserts};
ghost use Rattle.pim_event.specs.Replacing.{may_differ};
ghost use Rattle.pim_event.specs.Staying.{OffersStay};
ghost use Rattle.pim_event.specs.Stepping.{Steps};
ghost use Rattle.pim_fanout.specs.Named.{keys_of};
ghost use Rattle.pim_fanout.specs.Refreshing.{touches};
ghost use Rattle.pim_ip.specs.declared.fault.Fault.{Fault};
ghost use Rattle.pim_macros.specs.Rows.{number_of};
ghost use Rattle.pim_mfc.specs.Laws.{ShowsRows, TellsRow};
ghost use Rattle.pim_mfc.specs.Shown.{TellsOffload};
ghost use Rattle.pim_model.specs.Cache.{cached};
ghost use Rattle.pim_model.specs.Cause.{OutcomesAreAsked};
ghost use Rattle.pim_model.specs.Full.{counted};
ghost use Rattle.pim_model.specs.Judging.{last_moment};
ghost use Rattle.pim_model.specs.Limits.{config_test};
ghost use Rattle.pim_model.specs.Sets.{is_kept_alive};
ghost use Rattle.pim_model.specs.State.{opening};
ghost use Rattle.pim_model.specs.Step.{run, step};
ghost use Rattle.pim_model.specs.Sure.{needs_no_memory};
ghost use Rattle.pim_model.specs.Timers.{next_moment};
ghost use Rattle.pim_model.specs.Unicast.{rpf_interface_rp};
ghost use Rattle.pim_router.specs.Asked.{LeadsOn, SentIsAsked};
ghost use Rattle.pim_router.specs.Standing.{begun, nothing_shown, last_copies, standing_after, with_state};
ghost use Rattle.pim_router.specs.Stepped.{Faults, Stepped, TellsLast};
ghost use Rattle.pim_router.specs.Stepping.{RunsTo, Stands, disturbance};
ghost use Rattle.pim_rows.specs.Printed.{rows};
ghost use Rattle.pim_types.specs.Keys.{key_cmp};
ghost use Rattle.pim_types.specs.declared.config.Config.{Config as ConfigValue};
ghost use Rattle.pim_types.specs.declared.outcome.Emission.{Emission as EmissionValue};
ghost use Rattle.std.specs.List.Sorted.{IsStrictlySortedBy};
ghost use Rattle.std.specs.Option.{option_map_or};
ghost use Rattle.std.specs.Prelude.{◌≡◌, ◌*◌, ◌+◌, ◌<◌, ◌≤◌, ◌++◌, [], Err, IfErr, IfOk, IfSome, IsOk, IsTrue, List, None, Ok, OnErr, OnOk, Some, length, min, option_and_then, true};
ghost use Rattle.std.specs.Vec.{vec_capacity, vec_len};

mod bootstraps;
mod hosts;
mod places;
mod reload;
mod rendezvous;
mod saved;
mod trees;

use crate::plane::{bare_packet, keep, offer};
use crate::probes::Probes;
use pim_event::{Core, Replaced, take_in};
use pim_fanout::Cache;
use pim_intake::LentEvent;
use pim_messages::Room;
use pim_mfc::{CacheRow, Offered};
use pim_rows::{Row, Table};
use pim_state::{Meter, World};
use pim_types::{
    Addr, Config, Emission, Event, Fault, IfaceId, Outcome, Refusal, SourceGroup, Verdict,
};
use std::alloc::{AllocError, Global};
use std::marker::Model;

// The latest timestamp that an event may have, in ms.
const LAST_MOMENT: u64 = 1 << 62;

/// A router. Once an allocation was refused in an event it has failed: it has no state any more, and answers `Failed`.
#[derive(Drop)]
pub struct Router {
    failed: bool,
    // All facts, the forwarding cache, what the last event replaced, and the memory of packets.
    core: Core,
    // How many copies of a data packet the last event sent on links.
    copies: u32,
    probes: Probes,
}

impl Model for Router {
    ghost use Rattle.std.specs.List.Sorted.{IsStrictlySortedBy};
    ghost use Rattle.std.specs.Prelude.{Ok, Some, false, if◌then◌else◌, true, ◌≡◌};
    ghost use Rattle.pim_fanout.specs.Refreshing.{touches};
    ghost use Rattle.law_events.specs.Rest.{IsAtRest};
    ghost use Rattle.pim_mfc.specs.Laws.{ShowsRows};
    ghost use Rattle.pim_model.specs.Cache.{cached};
    ghost use Rattle.pim_model.specs.Full.{counted};
    ghost use Rattle.pim_model.specs.Limits.{config_test};
    ghost use Rattle.law_states.specs.NearStates.{is_near};
    ghost use Rattle.law_states.specs.Reload.{config_of};
    ghost use Rattle.pim_router.specs.Standing.{Shown, nothing_shown};
    ghost use Rattle.pim_types.specs.Keys.{key_cmp};

    ghost Value = { Shown };

    ghost view = { λ r. if r.failed then nothing_shown else record {
      standing = Some (record { state = r.core.world; copies = r.copies });
      probes = r.probes.meter;
      touched = touches r.core.cache;
      changed = r.core.cache.changed;
      disturbed = record { touched = r.core.cache.disturbed; replaced = r.core.replaced };
    } };

    ghost invariant = { λ r. r.failed ≡ false → IsAtRest r.core.world
        × ShowsRows r.core.cache.mfc.rows (cached r.core.world) × IsStrictlySortedBy key_cmp r.core.cache.changed
        × (config_test (config_of r.core.world) ≡ Ok tt) × (is_near r.core.world ≡ true) };
}

impl Router {
    /// A router with this configuration at timestamp 0, all its interfaces down. A configuration is refused for the
    /// first test that fails, in this order: the interfaces, the limit, the querier's values, the delays, the routes
    /// and the RP ranges. The fault is want of memory.
    #[tactic(auto, unfolding(pim_fanout::specs::Refreshing::touches, pim_meter::specs::Meter::raised))]
    pub fn new(alloc: Global, config: Config) -> Result<Result<Router, Refusal>, Fault>
        ensures accepted { IfOk result (λ made. IfOk made (λ router. (config_test config ≡ Ok tt)
            × (router ≡ begun (opening config)))) }
        ensures refused { IfOk result (λ made. IfErr made (λ refusal. config_test config ≡ Err refusal)) }
        ensures memory { IfErr result (λ fault. fault ≡ Fault.Memory) }
    {
        let probes = Probes::new();
        let made = {
            let mut outside = probes.outside();
            World::new(alloc, &config, &mut outside.meter)?
        };
        match made {
            Ok(world) => Ok(Ok(Router {
                failed: false,
                core: Core {
                    world,
                    cache: Cache::new(alloc),
                    replaced: Replaced::none(),
                    room: Room::new(alloc),
                },
                copies: 0,
                probes,
            })),
            Err(refusal) => Ok(Err(refusal)),
        }
    }

    /// What the router's memory comes from.
    pub fn alloc(&self) -> Global {
        self.core.room.alloc
    }

    /// The timestamp, in ms, at which the next timer expires: an `Advance` to it lets that timer expire. `None` where
    /// no timer runs, and where the router has failed. Takes no memory.
    pub fn next_moment(&self) -> Option<u64>
        ensures { result ≡ option_and_then (λ r. next_moment r.state) self.now.standing }
    {
        if self.failed {
            return None;
        }
        match self.core.world.next() {
            Some(due) => Some(due.0),
            None => None,
        }
    }

    /// How many copies of a data packet the last event sent on links: 0 before the first event, and where the router
    /// has failed. They are the last packets that the event sent on links. Takes no memory.
    pub fn copies(&self) -> u32
        ensures { result ≡ option_map_or (λ r. r.copies) self.now.standing 0 }
    {
        if self.failed {
            return 0;
        }
        self.copies
    }

    /// The row of the forwarding cache of a source with a fact. It equals what the macros of RFC 7761 give when each is
    /// evaluated anew in the present state. `None` where the source has no fact, and where the router has failed.
    /// Takes no memory.
    pub fn cached(&self, source: Addr, group: Addr) -> Option<CacheRow>
        ensures cached { IfSome self.now.standing (λ r. TellsRow result (cached r.state group.bits source.bits)) }
        ensures failed { self.now.standing ≡ None → result ≡ None }
    {
        if self.failed {
            return None;
        }
        let mut outside = self.probes.outside();
        self.core
            .cache
            .mfc()
            .cached(SourceGroup { source, group }, &mut outside.meter)
    }

    /// RPF_interface(RP(G)) of any group, evaluated anew in the present state. `None` where the group has no RP, where
    /// the router is the RP or has no route to it, and where the router has failed. Takes no memory.
    #[tactic(auto, unfolding(pim_model::specs::Unicast::rpf_interface_rp))]
    pub fn rp_interface(&self, group: Addr) -> Option<IfaceId>
        ensures rpf { IfSome self.now.standing (λ r. number_of result ≡ rpf_interface_rp r.state group.bits) }
        ensures failed { self.now.standing ≡ None → result ≡ None }
    {
        if self.failed {
            return None;
        }
        let mut outside = self.probes.outside();
        let rp = self.core.world.rp(group, &mut outside.meter);
        let path = self.core.world.rp_route(group, rp, &mut outside.meter);
        path.map(|path| path.iface)
    }

    /// By how much the meter rose in the last event, in trie nodes: 0 before the first event, and where the router has
    /// failed. It is at least 1 and at most 66 after a plain packet of data, however many facts there are. Takes no
    /// memory.
    pub fn probes(&self) -> u64
        ensures { result ≡ self.now.probes }
    {
        if self.failed {
            return 0;
        }
        self.probes.meter.count()
    }

    /// How many rows of the forwarding cache the last event evaluated, put in and took out: 0 before the first event,
    /// and where the router has failed. Takes no memory.
    pub fn touched(&self) -> u64
        ensures { result ≡ self.now.touched }
    {
        if self.failed {
            return 0;
        }
        self.core.cache.touched()
    }

    /// The sources whose rows of the forwarding cache the last event may have changed: the rows of all other sources
    /// are unchanged. Each source is listed once, ascending by group and then by source. After an `Advance` they are
    /// those of all timers that expired. A plain packet of data, and an event that is ignored or refused, list none. The
    /// list is empty before the first event, and where the router has failed. Takes no memory.
    pub fn changed(&self) -> &[SourceGroup]
        ensures names { keys_of result.now ≡ self.now.changed }
        ensures once { IsStrictlySortedBy key_cmp self.now.changed }
        ensures none { self.now.touched ≡ 0 → result.now ≡ [] }
    {
        if self.failed {
            return &[];
        }
        self.core.cache.changed()
    }

    /// What a data plane, which forwards by rows that it was given, may do with the packets of (S,G). For a source with
    /// a fact this decides the same until `changed` lists the source; for any other source, until `may_differ` answers
    /// yes. `None` where the source has no fact and there is no room for one (the router takes all its packets), and
    /// where the router has failed. Takes no memory.
    pub fn offload(&self, source: Addr, group: Addr) -> Option<Offered>
        ensures told { IfSome self.now.standing (λ r. TellsOffload result (offered r.state group.bits source.bits)) }
        ensures failed { self.now.standing ≡ None → result ≡ None }
    {
        if self.failed {
            return None;
        }
        let mut outside = self.probes.outside();
        let name = SourceGroup { source, group };
        offer(&self.core.world, &self.core.cache, name, &mut outside.meter)
    }

    /// Whether the answer of `offload` for (S,G) may differ from its answer before the last event, whether the source
    /// has a fact or not. If this is false, the answer decides the same of each packet. It is true exactly for the
    /// sources that the event's change, or the expiry of one of its timers, touched, and for all sources of a group
    /// that it touched whole; after new routes or RP ranges, for the sources for which RP(G), the route to it or the
    /// route to S has changed; for all sources after an interface went up or down; after a Hello, or the expiry of a
    /// neighbour, that changes whether the router is the DR or touches more than 256 keys; after an event that took the
    /// last room for a fact or made room again; and where the router has failed. Takes no memory.
    pub fn may_differ(&self, source: Addr, group: Addr) -> bool
        ensures { result ≡ option_map_or (λ r. may_differ self.now.disturbed r.state group.bits source.bits)
            self.now.standing true }
    {
        if self.failed {
            return true;
        }
        let mut outside = self.probes.outside();
        let name = SourceGroup { source, group };
        self.core.replaced.may_differ(
            self.core.cache.disturbed(),
            &self.core.world,
            name,
            &mut outside.meter,
        )
    }

    /// The rows of a printed table, in ascending order of their keys. The only fault of a router that hasn't failed is
    /// want of memory.
    pub fn rows(&self, table: Table) -> Result<Vec<Row>, Fault>
        ensures rows { IfSome self.now.standing (λ r. IfOk result (λ found. found.items ≡ rows r.state table)) }
        ensures faults { Faults result self.now.standing }
    {
        if self.failed {
            return Err(Fault::Failed);
        }
        let mut outside = self.probes.outside();
        let alloc = self.core.room.alloc;
        Ok(pim_shown::rows(&self.core.world, alloc, table, &mut outside.meter)?)
    }

    /// Takes one event: it is done, ignored or refused. The packets that leave are added at the end of `emissions`, in
    /// their order. After a fault `emissions` are unchanged, and the router answers `Failed` from then on. A router
    /// that hasn't failed takes no memory and has no fault where the event is ignored, or is refused for its bytes, its
    /// timestamp or its interface. For a plain packet of data the meter rises by at most 66 nodes, and an event touches
    /// at most three rows of the forwarding cache for each source that it reaches.
    pub fn step(
        &mut self,
        event: &Event,
        emissions: &mut Vec<Emission>,
    ) -> Result<Result<Verdict, Refusal>, Fault>
        ensures stepped { IfSome self.old.standing (λ r. IfOk result (λ answer.
            Stepped r.state event.now emissions.old.items answer self.new emissions.new.items)) }
        ensures failing { OnErr result (self.new ≡ nothing_shown) }
        ensures silent { OnErr result (emissions.new.items ≡ emissions.old.items) }
        ensures faults { Faults result self.old.standing }
        ensures sure { IfSome self.old.standing (λ r. IsTrue (needs_no_memory (step r.state event.now).answer)
            → IsOk result) }
    {
        self.step_lent(&LentEvent::of(event), emissions)
    }

    /// Takes one event whose packet, routes or ranges are borrowed, and copies none of them. All else is as `step`
    /// says. Whatever events, reloads and reports of a plane led to the router's state, each copy among the packets that
    /// leave has its cause among them.
    pub fn step_lent(
        &mut self,
        event: &LentEvent<'_>,
        emissions: &mut Vec<Emission>,
    ) -> Result<Result<Verdict, Refusal>, Fault>
        ensures stepped { IfSome self.old.standing (λ r. IfOk result (λ answer.
            Stepped r.state event.now emissions.old.items answer self.new emissions.new.items)) }
        ensures failing { OnErr result (self.new ≡ nothing_shown) }
        ensures silent { OnErr result (emissions.new.items ≡ emissions.old.items) }
        ensures faults { Faults result self.old.standing }
        ensures asked { IfSome self.old.standing (λ r. IfOk result (λ answer. IfSome self.new.standing (λ after.
            (sent : List EmissionValue) → emissions.new.items ≡ emissions.old.items ++ sent
            → SentIsAsked r.state event.now answer sent after.copies))) }
        ensures led { IfSome self.old.standing (λ r. OnOk result (IfSome self.new.standing (λ after.
            LeadsOn r.state (Given.Happening event.now) after.state))) }
        ensures sure { IfSome self.old.standing (λ r. IsTrue (needs_no_memory (step r.state event.now).answer)
            → IsOk result) }
    {
        self.take_lent(event, emissions)
    }

    // Takes one event whose packet, routes or ranges are borrowed.
    fn take_lent(
        &mut self,
        event: &LentEvent<'_>,
        emissions: &mut Vec<Emission>,
    ) -> Result<Result<Verdict, Refusal>, Fault>
        ensures stepped { IfSome self.old.standing (λ r. IfOk result (λ answer.
            Stepped r.state event.now emissions.old.items answer self.new emissions.new.items)) }
        ensures failing { OnErr result (self.new ≡ nothing_shown) }
        ensures silent { OnErr result (emissions.new.items ≡ emissions.old.items) }
        ensures faults { Faults result self.old.standing }
        ensures sure { IfSome self.old.standing (λ r. IsTrue (needs_no_memory (step r.state event.now).answer)
            → IsOk result) }
    {
        if self.failed {
            return Err(Fault::Failed);
        }
        self.failed = true;
        self.probes.begin();
        let outcome = take_next(&mut self.core, event, &mut self.probes.meter)?;
        hand_over(outcome.emissions.into_vec(), emissions)?;
        self.copies = outcome.copies;
        self.failed = false;
        Ok(outcome.answer)
    }

    /// A data plane saw a packet of (S,G) on the interface, and reports no more of it than this. The router does what
    /// `step` does with a frame that brings such a packet with a TTL of 1: its state and its messages are those of any
    /// packet of (S,G) there, but no copy and no Register leaves.
    pub fn packet_seen(
        &mut self,
        draw: u32,
        iface: IfaceId,
        name: SourceGroup,
        emissions: &mut Vec<Emission>,
    ) -> Result<Result<Verdict, Refusal>, Fault>
        ensures stepped { IfSome self.old.standing (λ r. IfOk result (λ answer.
            Stepped r.state (seen_event draw iface name.group.bits name.source.bits) emissions.old.items answer self.new
            emissions.new.items)) }
        ensures asked { IfSome self.old.standing (λ r. IfOk result (λ answer. IfSome self.new.standing (λ after.
            (sent : List EmissionValue) → emissions.new.items ≡ emissions.old.items ++ sent
            → SentIsAsked r.state (seen_event draw iface name.group.bits name.source.bits) answer sent after.copies))) }
        ensures led { IfSome self.old.standing (λ r. OnOk result (IfSome self.new.standing (λ after.
            LeadsOn r.state (Given.Happening (seen_event draw iface name.group.bits name.source.bits)) after.state))) }
        ensures failing { OnErr result (self.new ≡ nothing_shown) }
        ensures silent { OnErr result (emissions.new.items ≡ emissions.old.items) }
        ensures faults { Faults result self.old.standing }
    {
        if self.failed {
            return Err(Fault::Failed);
        }
        let Ok(packet) = bare_packet(&mut self.core.room, name) else {
            self.failed = true;
            return Err(Fault::Memory);
        };
        let answer = self.step_lent(&LentEvent::frame(draw, iface, &packet), emissions);
        self.core.room.give(packet);
        answer
    }

    /// A data plane forwarded its last packet of (S,G) at this timestamp, in ms. KAT(S,G), if it runs, expires 210 s
    /// after that, or when it was to expire if that is later. The result is whether the timer runs: one that doesn't
    /// run isn't started. A timestamp past the latest that an event may have counts as the latest. What `copies`,
    /// `probes`, `touched`, `changed`, `may_differ` and `offload` answer is unchanged.
    pub fn keep(&mut self, source: Addr, group: Addr, moment: u64) -> Result<bool, Fault>
        ensures runs { IfSome self.old.standing (λ r. IfOk result (λ runs.
            runs ≡ is_kept_alive r.state group.bits source.bits)) }
        ensures state { IfSome self.old.standing (λ r. OnOk result (self.new
            ≡ with_state self.old r (keep r.state group.bits source.bits (min moment last_moment)))) }
        ensures led { IfSome self.old.standing (λ r. OnOk result (IfSome self.new.standing (λ after.
            LeadsOn r.state (Given.Kept group.bits source.bits (min moment last_moment)) after.state))) }
        ensures failing { OnErr result (self.new ≡ nothing_shown) }
        ensures faults { Faults result self.old.standing }
    {
        self.keep_later(source, group, moment)
    }

    // Sets the keepalive timer of (S,G), if it runs, to a later end.
    fn keep_later(&mut self, source: Addr, group: Addr, moment: u64) -> Result<bool, Fault>
        ensures runs { IfSome self.old.standing (λ r. IfOk result (λ runs.
            runs ≡ is_kept_alive r.state group.bits source.bits)) }
        ensures state { IfSome self.old.standing (λ r. OnOk result (self.new
            ≡ with_state self.old r (keep r.state group.bits source.bits (min moment last_moment)))) }
        ensures failing { OnErr result (self.new ≡ nothing_shown) }
        ensures faults { Faults result self.old.standing }
    {
        if self.failed {
            return Err(Fault::Failed);
        }
        self.failed = true;
        let runs = keep(
            &mut self.core.world,
            SourceGroup { source, group },
            moment.min(LAST_MOMENT),
            &mut self.probes.meter,
        )?;
        self.failed = false;
        Ok(runs)
    }

    /// Takes back packets that were sent and aren't needed: later packets are written into their memory. Nothing of
    /// what the router shows changes, and it does no harm where an allocation is refused here.
    pub fn take_back(&mut self, packets: Vec<Emission>)
        ensures { self.new ≡ self.old }
    {
        self.core.room.take_back(packets);
    }

    /// Takes events one after the other, and returns the outcome of each. After a fault the router answers `Failed`
    /// from then on, and the outcomes of the events before the fault are lost: who is to send what these sent calls
    /// `step` for each event. Without events no memory is taken, so there is no fault. Where earlier events, reloads
    /// and reports of a plane, or none, led from the opening of an accepted configuration to the router's state,
    /// nothing flows unasked: each copy of a packet has its cause in an earlier event, of this run or before it. After
    /// such a run the facts that count, without the asserts, are within the greatest limit of the configurations so
    /// far; with the asserts they are at most that limit once for each interface of the configuration that had the
    /// most, and once more.
    pub fn run(&mut self, events: &[Event]) -> Result<Vec<Outcome>, Fault>
        ensures outcomes { IfSome self.old.standing (λ r. IfOk result (λ outcomes. outcomes.items ≡ run r.state events.now)) }
        ensures state { IfSome self.old.standing (λ r. OnOk result (self.new.standing ≡ Some (standing_after r events.now))) }
        ensures asked { IfSome self.old.standing (λ r. IfOk result (λ outcomes. (c : ConfigValue) (before : List Given)
            → IsLedTo c before r.state → OutcomesAreAsked (past_given [] (opening c) before) r.state events.now outcomes.items)) }
        ensures within { IfSome self.old.standing (λ r. (c : ConfigValue) (before : List Given)
            → IsLedTo c before r.state → IfSome self.new.standing (λ after.
            counted_beside_asserts after.state ≤ greatest_limit c.limit before)) }
        ensures bounded { IfSome self.old.standing (λ r. (c : ConfigValue) (before : List Given)
            → IsLedTo c before r.state → IfSome self.new.standing (λ after. counted after.state
            ≤ greatest_limit c.limit before * (greatest_count (length c.interfaces) before + 1))) }
        ensures last { IfSome self.old.standing (λ r. OnOk result (TellsLast r.state events.now self.new)) }
        ensures failing { OnErr result (self.new ≡ nothing_shown) }
        ensures faults { Faults result self.old.standing }
        ensures sure { IfSome self.old.standing (λ r. events.now ≡ [] → IsOk result) }
    {
        if self.failed {
            return Err(Fault::Failed);
        }
        self.failed = true;
        let outcomes = run_world(&mut self.core, events, &mut self.probes)?;
        self.copies = last_copies(self.copies, &outcomes);
        self.failed = false;
        Ok(outcomes)
    }
}

// Adds what was sent after the packets that are there; if there are none, what was sent takes their place. The error is
// want of memory, and changes nothing.
fn hand_over(mut sent: Vec<Emission>, emissions: &mut Vec<Emission>) -> Result<(), AllocError>
    ensures ok { OnOk result (emissions.new.items ≡ emissions.old.items ++ sent.items) }
    ensures err { OnErr result (emissions.new.items ≡ emissions.old.items) }
    ensures full { OnErr result (vec_capacity emissions.old < vec_len emissions.old + vec_len sent) }
{
    if emissions.is_empty() {
        *emissions = sent;
        return Ok(());
    }
    emissions.append(&mut sent)
}

// The copies of the last of these outcomes; if there are none, the copies of the event before.
#[tactic(auto, unfolding(crate::specs::Standing::last_copies))]
fn last_copies(before: u32, outcomes: &[Outcome]) -> u32
    ensures { result ≡ last_copies before outcomes.now }
{
    let mut copies = before;
    for outcome in outcomes {
        copies = outcome.copies;
    }
    copies
}

// Takes an event. It starts from 0 the count of the rows of the cache that it touches, and the list of the sources of
// these rows. What the event before it replaced is let go. Its one meter is lent to it: it has no auditor that could make
// another one.
fn take_next(core: &mut Core, event: &LentEvent<'_>, meter: &mut Meter) -> Result<Outcome, Fault>
    requires stands { Stands core.old }
    requires unvisited { meter.old ≡ 0 }
    ensures stands { OnOk result (Stands core.new) }
    ensures steps { Steps core.old event.now result core.new meter.new }
    ensures stays { OnOk result (OffersStay (disturbance core.new) core.old.world core.new.world) }
    ensures sure { IsTrue (needs_no_memory (step core.old.world event.now).answer) → IsOk result }
{
    core.cache.reset();
    core.replaced.clear();
    take_in(core, event, meter)
}

// Takes events one after the other.
fn run_world(core: &mut Core, events: &[Event], probes: &mut Probes) -> Result<Vec<Outcome>, Fault>
    requires stands { Stands core.old }
    requires once { IsStrictlySortedBy key_cmp core.old.cache.changed }
    ensures runs { RunsTo core.old events.now result core.new probes.new.meter }
    ensures sure { events.now ≡ [] → IsOk result }
{
    let mut outcomes = Vec::new(core.room.alloc);
    for event in events {
        probes.begin();
        outcomes.push(take_next(core, &LentEvent::of(event), &mut probes.meter)?)?;
    }
    Ok(outcomes)
}
