//! Routers as their fronts ask them, and behind those for hosts of versions 1 and 2 of IGMP (RFC 3376, section 7.3.2).
ghost use Rattle.std.specs.Prelude.{◌≡◌, ◌∷◌, [], IfOk, OnErr, OnOk, Some};
ghost use Rattle.igmp_older.specs.Joined.{event_given, joined_step, rows_of};
ghost use Rattle.igmp_older.specs.Presence.{hosts_on};
ghost use Rattle.igmp_older.specs.Translation.{translation, Gives};
ghost use Rattle.pim_model.specs.Network.{Network, Station, moved_at, station_at};
ghost use Rattle.pim_model.specs.State.{State};
ghost use Rattle.pim_types.specs.declared.event.EventKind.{EventKind as Kind};
ghost use Rattle.pim_types.specs.declared.outcome.Outcome.{Outcome as OutcomeValue};
ghost use Rattle.pim_lab.specs.Fronts.{IsMarkOf, Stands, behind, marked};

use igmp_older::{Given, Presence, Querier, note_answered, translate};
use pim_anycast::{OwnAddresses, Rendezvous};
use pim_bsr::Surroundings;
use pim_net::{Move, Net, NetLog, Router, Wire};
use pim_types::fact::GroupRecordRow;
use pim_types::{
    Addr, Event, EventKind, Fault, Hop, IfaceId, Outcome, Refusal, Series, SourceGroup, Verdict,
};
use std::alloc::{AllocError, Global};

/// A router, as its front asks it.
#[derive(Clone, Copy)]
pub(crate) struct Asked<'a> {
    pub(crate) router: &'a Router,
}

impl Querier for Asked<'_> {
    ghost use Rattle.std.specs.Option.{option_map_or};
    ghost use Rattle.std.specs.Prelude.{[]};

    ghost present = { λ a. option_map_or (λ r. r.state.present) a.router.now.standing 0 };

    ghost group_records = { λ a. option_map_or (λ r. r.state.group_records) a.router.now.standing [] };

    fn present_moment(&self) -> u64 {
        self.router.present_moment()
    }

    fn has_group_record(&self, iface: IfaceId, group: Addr) -> bool {
        self.router.has_group_record(iface, group)
    }

    fn group_record(&self, iface: IfaceId, group: Addr) -> Option<GroupRecordRow> {
        self.router.group_record(iface, group)
    }
}

impl OwnAddresses for Asked<'_> {
    ghost use Rattle.std.specs.Option.{option_map_or};
    ghost use Rattle.std.specs.Prelude.{[]};

    ghost configured = { λ a. option_map_or (λ r. r.state.configured) a.router.now.standing (record { interfaces = []; addresses = [] }) };

    fn is_own(&self, address: Addr) -> bool {
        self.router.is_own(address)
    }
}

impl Rendezvous for Asked<'_> {
    ghost use Rattle.pim_anycast.specs.Announced.{is_local, local_keys};
    ghost use Rattle.pim_model.specs.Unicast.{no_ranges};
    ghost use Rattle.std.specs.Option.{option_map_or};
    ghost use Rattle.std.specs.Prelude.{[], false};

    ghost present = { λ a. option_map_or (λ r. r.state.present) a.router.now.standing 0 };

    ghost ranges = { λ a. option_map_or (λ r. r.state.ranges) a.router.now.standing no_ranges };

    ghost is_local = { λ a g src. option_map_or (λ r. is_local r.state g src) a.router.now.standing false };

    ghost local_keys = { λ a. option_map_or (λ r. local_keys r.state) a.router.now.standing [] };

    fn present_moment(&self) -> u64 {
        self.router.present_moment()
    }

    fn rp(&self, group: Addr) -> Option<Addr> {
        self.router.rp(group)
    }

    #[tactic(auto, unfolding(pim_anycast::specs::Announced::is_local))]
    fn is_local(&self, name: SourceGroup) -> bool {
        self.router.is_local(name)
    }

    #[tactic(auto, unfolding(pim_anycast::specs::Announced::is_local, pim_anycast::specs::Announced::local_keys))]
    fn local_sources(&self, alloc: Global) -> Result<Vec<SourceGroup>, AllocError> {
        self.router.local_sources(alloc)
    }
}

impl Surroundings for Asked<'_> {
    ghost use Rattle.pim_lab.specs.Fronts.{around_in};

    ghost around = { λ a. around_in a.router.now.standing };

    fn present_moment(&self) -> u64 {
        self.router.present_moment()
    }

    fn is_own(&self, address: Addr) -> bool {
        self.router.is_own(address)
    }

    fn is_neighbour(&self, iface: IfaceId, address: Addr) -> bool {
        self.router.is_neighbour(iface, address)
    }

    #[tactic(auto, unfolding(pim_bsr::specs::Hearing::rpf_hop))]
    fn rpf_neighbour(&self, address: Addr) -> Option<Hop> {
        self.router.rpf_neighbour(address)
    }

    fn interface_count(&self) -> u32 {
        self.router.interface_count()
    }

    fn has_neighbours(&self, iface: IfaceId) -> bool {
        self.router.has_neighbours(iface)
    }

    fn address(&self, iface: IfaceId) -> Addr {
        self.router.address(iface)
    }
}

/// What becomes of the rows of older hosts once the router has answered.
#[derive(Clone, Copy)]
pub(crate) enum Mark {
    /// The older message that a packet on the interface was is remembered until a timestamp, in ms, and the groups that
    /// any other names are looked at when time passes.
    Note {
        iface: IfaceId,
        given: Given,
        end: u64,
    },
    /// Time passed to a timestamp, in ms.
    Forget {
        moment: u64,
    },
    /// The rows of the interface go.
    Leave {
        iface: IfaceId,
    },
    Stay,
}

impl Mark {
    // Changes the rows by the router's answer, which this router gave, to a packet if it was one.
    #[tactic(auto, using(crate::proofs::Fronts::asked_records), unfolding(crate::specs::Fronts::marked))]
    fn keep(
        self,
        presence: &mut Presence,
        router: &Router,
        packet: &[u8],
        answer: Result<Verdict, Refusal>,
    ) -> Result<(), AllocError>
        ensures ok { (s : State) → Stands router.now.standing s
            → OnOk result (presence.new ≡ marked presence.old s.group_records self packet.now answer) }
        ensures err { OnErr result (presence.new ≡ presence.old) }
    {
        match (self, answer) {
            (Mark::Note { iface, given, end }, answer) => {
                note_answered(presence, iface, given, packet, answer, end)
            }
            (Mark::Forget { moment }, Ok(Verdict::Done)) => {
                presence.forget(&Asked { router }, moment);
                Ok(())
            }
            (Mark::Leave { iface }, Ok(Verdict::Done)) => {
                presence.leave(iface);
                Ok(())
            }
            _ => Ok(()),
        }
    }

    // Keeps what is known of older hosts after an event at a router of the network, which has a log of one outcome.
    fn keep_logged<W: Wire>(
        self,
        presence: &mut Presence,
        net: &Net<W>,
        router: usize,
        packet: &[u8],
        log: &[Outcome],
    ) -> Result<(), AllocError>
        ensures ok { (n : Network) (st : Station) (o : OutcomeValue) → net.now.network ≡ Some n
            → station_at n router ≡ Some st → log.now ≡ o ∷ []
            → OnOk result (presence.new ≡ marked presence.old st.state.group_records self packet.now o.answer) }
        ensures err { OnErr result (presence.new ≡ presence.old) }
    {
        let Some(asked) = net.router(router) else {
            return Ok(());
        };
        let Some(outcome) = log.first() else {
            return Ok(());
        };
        self.keep(presence, asked, packet, outcome.answer)
    }
}

/// An event as the router is given it, and a packet in it once more.
#[derive(Drop)]
struct Passed {
    event: Event,
    mark: Mark,
    packet: Vec<u8>,
}

impl Passed {
    // An event that isn't a packet on a link, given to the router as it came.
    fn same(alloc: Global, draw: u32, kind: EventKind, mark: Mark) -> Passed
        ensures event { result.event ≡ record { draw = draw; kind = kind } }
        ensures mark { result.mark ≡ mark }
    {
        Passed {
            event: Event { draw, kind },
            mark,
            packet: Vec::new(alloc),
        }
    }
}

// What the router is to be given in the place of a packet that came on an interface, added at the end of `written`.
fn translate_for(
    alloc: Global,
    presence: &Presence,
    router: &Router,
    iface: IfaceId,
    bytes: &[u8],
    written: &mut Vec<u8>,
) -> Result<Given, AllocError>
    ensures { (s : State) → Stands router.now.standing s → IfOk result (λ given. Gives given
        (translation (rows_of (behind presence.now s)) s.present iface.number (hosts_on presence.now iface.number) bytes.now)
        written.old.items written.new.items) }
{
    translate(alloc, presence, &Asked { router }, iface, bytes, written)
}

// A packet that came on an interface, as its router is given it.
fn pass_packet(
    alloc: Global,
    presence: &Presence,
    router: &Router,
    draw: u32,
    iface: IfaceId,
    bytes: Series<u8>,
) -> Result<Passed, AllocError>
    ensures event { (s : State) → Stands router.now.standing s → IfOk result (λ passed. passed.event
        ≡ event_given (behind presence.now s) (record { draw = draw; kind = Kind.Frame iface bytes })) }
    ensures mark { (s : State) → Stands router.now.standing s → IfOk result (λ passed.
        IsMarkOf (behind presence.now s) (Kind.Frame iface bytes) passed.mark passed.packet.items) }
{
    let end = router.membership_end(iface);
    let mut written = Vec::new(alloc);
    let given = translate_for(
        alloc,
        presence,
        router,
        iface,
        bytes.as_slice(),
        &mut written,
    )?;
    let mark = Mark::Note { iface, given, end };
    let mut packet = Vec::new(alloc);
    match given {
        Given::Same => {
            packet.extend_from_slice(bytes.as_slice())?;
            Ok(Passed {
                event: Event {
                    draw,
                    kind: EventKind::Frame { iface, bytes },
                },
                mark,
                packet,
            })
        }
        Given::Rewritten(_) => {
            packet.extend_from_slice(&written)?;
            Ok(Passed {
                event: Event {
                    draw,
                    kind: EventKind::Frame {
                        iface,
                        bytes: Series::from_vec(written),
                    },
                },
                mark,
                packet,
            })
        }
    }
}

// An event as its router is given it.
#[tactic(auto, unfolding(igmp_older::specs::Joined::event_given, igmp_older::specs::Joined::kind_given, igmp_older::specs::Joined::known_if, igmp_older::specs::Joined::known_after, crate::specs::Fronts::marked))]
fn pass(
    alloc: Global,
    presence: &Presence,
    router: &Router,
    event: Event,
) -> Result<Passed, AllocError>
    ensures event { (s : State) → Stands router.now.standing s
        → IfOk result (λ passed. passed.event ≡ event_given (behind presence.now s) event) }
    ensures mark { (s : State) → Stands router.now.standing s
        → IfOk result (λ passed. IsMarkOf (behind presence.now s) event.kind passed.mark passed.packet.items) }
{
    let Event { draw, kind } = event;
    match kind {
        EventKind::Frame { iface, bytes } => {
            pass_packet(alloc, presence, router, draw, iface, bytes)
        }
        EventKind::Advance { moment } => {
            let kind = EventKind::Advance { moment };
            Ok(Passed::same(alloc, draw, kind, Mark::Forget { moment }))
        }
        EventKind::Down { iface } => {
            let kind = EventKind::Down { iface };
            Ok(Passed::same(alloc, draw, kind, Mark::Leave { iface }))
        }
        EventKind::Unicast { bytes } => {
            let kind = EventKind::Unicast { bytes };
            Ok(Passed::same(alloc, draw, kind, Mark::Stay))
        }
        EventKind::Up { iface } => Ok(Passed::same(
            alloc,
            draw,
            EventKind::Up { iface },
            Mark::Stay,
        )),
        EventKind::Routes { routes } => {
            let kind = EventKind::Routes { routes };
            Ok(Passed::same(alloc, draw, kind, Mark::Stay))
        }
        EventKind::Rps { rps } => Ok(Passed::same(alloc, draw, EventKind::Rps { rps }, Mark::Stay)),
        EventKind::RpCandidates { candidates } => {
            let kind = EventKind::RpCandidates { candidates };
            Ok(Passed::same(alloc, draw, kind, Mark::Stay))
        }
    }
}

/// One event at a router of a network, behind the router's front. After a fault the rows of older hosts are as they were.
pub(crate) fn run_behind<W: Wire>(
    alloc: Global,
    net: &mut Net<W>,
    router: usize,
    presence: &mut Presence,
    event: Event,
) -> Result<NetLog, Fault>
    ensures outcome { (n : Network) (st : Station) → net.old.network ≡ Some n → station_at n router ≡ Some st
        → IfOk result (λ log. log.items ≡ (joined_step (behind presence.old st.state) event).0 ∷ []) }
    ensures network { (n : Network) (st : Station) → net.old.network ≡ Some n → station_at n router ≡ Some st
        → OnOk result (net.new.network
        ≡ Some (moved_at n (router, event_given (behind presence.old st.state) event)).1) }
    ensures presence { (n : Network) (st : Station) → net.old.network ≡ Some n → station_at n router ≡ Some st
        → OnOk result (presence.new ≡ (joined_step (behind presence.old st.state) event).1.present) }
    ensures fault { OnErr result (presence.new ≡ presence.old) }
{
    let Some(asked) = net.router(router) else {
        return net.run(&[Move::Event { router, event }]);
    };
    let Passed {
        event,
        mark,
        packet,
    } = pass(alloc, presence, asked, event)?;
    let log = net.run(&[Move::Event { router, event }])?;
    mark.keep_logged(presence, net, router, &packet, &log)?;
    Ok(log)
}
