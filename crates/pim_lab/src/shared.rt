//! Routers behind their fronts for RPs that share an address (RFC 4610, section 3), and then those for older hosts.
ghost use Rattle.pim_anycast.specs.Joined.{event_given, sent_before};
ghost use Rattle.pim_lab.specs.Fronts.{Stands, behind};
ghost use Rattle.pim_lab.specs.Shared.{IsWatchOf, beside, came_behind, shared_network, shared_outcome, watched};
ghost use Rattle.pim_lab.specs.Stops.{next_stop, stops_on};
ghost use Rattle.pim_lab.specs.declared.shared.Watch.{Watch};
ghost use Rattle.pim_model.specs.Network.{Network, Station as StationValue, station_at};
ghost use Rattle.pim_model.specs.State.{State};
ghost use Rattle.pim_types.specs.declared.event.EventKind.{EventKind as Kind};
ghost use Rattle.pim_types.specs.declared.outcome.Outcome.{Outcome as OutcomeValue};
ghost use Rattle.std.specs.Prelude.{◌≡◌, ◌∷◌, [], IfOk, OnOk, Some};

use crate::front::{Asked, run_behind};
use lab_parts::Station;
use pim_anycast::{Anycast, Passed};
use pim_ip::read_ipv4;
use pim_net::{Net, NetLog, Router, Wire};
use pim_types::{Emission, Event, EventKind, Fault, IfaceId, Outcome, Series, SourceGroup};
use std::alloc::{AllocError, Global};

/// How often announcements may be due while time passes and no packet comes, after which no source is known: a keepalive
/// timer lasts 210 s at most.
const MOST_STOPS: usize = 4;

/// The latest timestamp that an event may have, in ms.
pub(crate) const LAST_MOMENT: u64 = 1 << 62;

/// What a router's sets are asked once the router has answered.
#[derive(Clone, Copy)]
pub(crate) enum Watch {
    /// A packet of a source came on a link; the source was announced before it, or wasn't.
    Source { name: SourceGroup, before: bool },
    /// Time passed from a timestamp, in ms.
    Since { moment: u64 },
    Nothing,
}

impl Watch {
    // What is watched of a packet that came on a link.
    #[tactic(auto, using(crate::proofs::Sharing::packet_watch, crate::proofs::Sharing::no_packet, crate::proofs::Sharing::asked_before))]
    fn of_packet(anycast: &Anycast, router: &Router, iface: IfaceId, bytes: &[u8]) -> Watch
        ensures { (s : State) → Stands router.now.standing s
            → IsWatchOf anycast.now s (Kind.Frame iface bytes.now) result }
    {
        match read_ipv4(bytes) {
            Ok(packet) => {
                let name = SourceGroup {
                    source: packet.source(),
                    group: packet.destination(),
                };
                let before = anycast.is_announced(&Asked { router }, name);
                Watch::Source { name, before }
            }
            Err(_) => Watch::Nothing,
        }
    }

    // The Null-Registers that leave after what the router sent, when this router has answered.
    #[tactic(auto, using(crate::proofs::Sharing::asked_new, crate::proofs::Sharing::asked_due))]
    fn announce(
        self,
        alloc: Global,
        anycast: &Anycast,
        router: &Router,
    ) -> Result<Vec<Emission>, AllocError>
        ensures { (t : State) → Stands router.now.standing t
            → IfOk result (λ sent. sent.items ≡ watched anycast.now t self) }
    {
        match self {
            Watch::Source { name, before } => {
                anycast.announce_new(alloc, &Asked { router }, name, before)
            }
            Watch::Since { moment } => anycast.announce_due(alloc, &Asked { router }, moment),
            Watch::Nothing => Ok(Vec::new(alloc)),
        }
    }
}

/// An event as the next front is given it, what leaves before what the router sends, and what is watched.
#[derive(Drop)]
struct Shared {
    event: Event,
    copies: Series<Emission>,
    watch: Watch,
}

impl Shared {
    // An event that is given as it came, and has no copies.
    fn same(alloc: Global, draw: u32, kind: EventKind, watch: Watch) -> Shared
        ensures event { result.event ≡ record { draw = draw; kind = kind } }
        ensures copies { result.copies ≡ [] }
        ensures watch { result.watch ≡ watch }
    {
        Shared {
            event: Event { draw, kind },
            copies: Series::new(alloc),
            watch,
        }
    }
}

// A packet that came by unicast.
#[tactic(auto, using(crate::proofs::Sharing::asked_passed, crate::proofs::Sharing::unicast_given, crate::proofs::Sharing::unicast_before))]
fn share_unicast(
    alloc: Global,
    anycast: &Anycast,
    router: &Router,
    draw: u32,
    bytes: Series<u8>,
) -> Result<Shared, AllocError>
    ensures event { (s : State) → Stands router.now.standing s → IfOk result (λ shared. shared.event
        ≡ event_given anycast.now s (record { draw = draw; kind = Kind.Unicast bytes })) }
    ensures copies { (s : State) → Stands router.now.standing s → IfOk result (λ shared. shared.copies
        ≡ sent_before anycast.now s (Kind.Unicast bytes)) }
    ensures watch { IfOk result (λ shared. shared.watch ≡ Watch.Nothing) }
{
    match anycast.take_unicast(alloc, &Asked { router }, bytes.as_slice())? {
        Passed::AsItCame => {
            let kind = EventKind::Unicast { bytes };
            Ok(Shared::same(alloc, draw, kind, Watch::Nothing))
        }
        Passed::Copied(copies) => Ok(Shared {
            event: Event {
                draw,
                kind: EventKind::Unicast { bytes },
            },
            copies,
            watch: Watch::Nothing,
        }),
        Passed::Counted(bytes) => {
            let kind = EventKind::Unicast { bytes };
            Ok(Shared::same(alloc, draw, kind, Watch::Nothing))
        }
    }
}

// An event as the next front is given it.
#[tactic(auto, using(crate::proofs::Sharing::asked_present), unfolding(pim_anycast::specs::Joined::event_given, pim_anycast::specs::Joined::kind_given))]
fn share(
    alloc: Global,
    anycast: &Anycast,
    router: &Router,
    event: Event,
) -> Result<Shared, AllocError>
    ensures event { (s : State) → Stands router.now.standing s
        → IfOk result (λ shared. shared.event ≡ event_given anycast.now s event) }
    ensures copies { (s : State) → Stands router.now.standing s
        → IfOk result (λ shared. shared.copies ≡ sent_before anycast.now s event.kind) }
    ensures watch { (s : State) → Stands router.now.standing s
        → IfOk result (λ shared. IsWatchOf anycast.now s event.kind shared.watch) }
{
    let Event { draw, kind } = event;
    match kind {
        EventKind::Unicast { bytes } => share_unicast(alloc, anycast, router, draw, bytes),
        EventKind::Frame { iface, bytes } => {
            let watch = Watch::of_packet(anycast, router, iface, bytes.as_slice());
            let kind = EventKind::Frame { iface, bytes };
            Ok(Shared::same(alloc, draw, kind, watch))
        }
        EventKind::Advance { moment } => {
            let watch = Watch::Since {
                moment: router.present_moment(),
            };
            let kind = EventKind::Advance { moment };
            Ok(Shared::same(alloc, draw, kind, watch))
        }
        EventKind::Up { iface } => {
            let kind = EventKind::Up { iface };
            Ok(Shared::same(alloc, draw, kind, Watch::Nothing))
        }
        EventKind::Down { iface } => {
            let kind = EventKind::Down { iface };
            Ok(Shared::same(alloc, draw, kind, Watch::Nothing))
        }
        EventKind::Routes { routes } => {
            let kind = EventKind::Routes { routes };
            Ok(Shared::same(alloc, draw, kind, Watch::Nothing))
        }
        EventKind::Rps { rps } => {
            let kind = EventKind::Rps { rps };
            Ok(Shared::same(alloc, draw, kind, Watch::Nothing))
        }
        EventKind::RpCandidates { candidates } => {
            let kind = EventKind::RpCandidates { candidates };
            Ok(Shared::same(alloc, draw, kind, Watch::Nothing))
        }
    }
}

// The outcome of a log that has one.
fn only_outcome(log: NetLog) -> Option<Outcome>
    ensures { (o : OutcomeValue) → log.items ≡ o ∷ [] → result ≡ Some o }
{
    log.into_iter().next()
}

// An outcome with packets before and after those that are there.
pub(crate) fn with_beside(
    before: Series<Emission>,
    outcome: Outcome,
    after: Vec<Emission>,
) -> Result<Outcome, AllocError>
    ensures { IfOk result (λ both. both ≡ beside before outcome after.items) }
{
    let Outcome {
        answer,
        emissions,
        copies,
    } = outcome;
    let mut after = after;
    let mut sent = before.into_vec();
    sent.append(&mut emissions.into_vec())?;
    sent.append(&mut after)?;
    Ok(Outcome {
        answer,
        emissions: Series::from_vec(sent),
        copies,
    })
}

/// One event at a router of a network, behind both fronts of its station. What the fronts send is a frame as any other.
pub(crate) fn run_shared<W: Wire>(
    alloc: Global,
    net: &mut Net<W>,
    router: usize,
    station: &mut Station,
    event: Event,
) -> Result<Outcome, Fault>
    ensures outcome { (n : Network) (st : StationValue) → net.old.network ≡ Some n → station_at n router ≡ Some st
        → IfOk result (λ outcome. outcome
        ≡ shared_outcome station.old.anycast (behind station.old.presence st.state) event) }
    ensures network { (n : Network) (st : StationValue) → net.old.network ≡ Some n → station_at n router ≡ Some st
        → OnOk result (net.new.network
        ≡ Some (shared_network n router station.old.anycast (behind station.old.presence st.state) event)) }
    ensures station { (n : Network) (st : StationValue) → net.old.network ≡ Some n → station_at n router ≡ Some st
        → OnOk result (station.new ≡ record station.old {
          presence = (came_behind station.old.anycast (behind station.old.presence st.state) event).1.present;
        }) }
{
    let Some(asked) = net.router(router) else {
        return Err(Fault::Failed);
    };
    let Shared {
        event,
        copies,
        watch,
    } = share(alloc, &station.anycast, asked, event)?;
    net.send(router, copies.as_slice())?;
    let log = run_behind(alloc, net, router, &mut station.presence, event)?;
    let Some(answered) = net.router(router) else {
        return Err(Fault::Failed);
    };
    let announced = watch.announce(alloc, &station.anycast, answered)?;
    net.send(router, &announced)?;
    let Some(outcome) = only_outcome(log) else {
        return Err(Fault::Failed);
    };
    Ok(with_beside(copies, outcome, announced)?)
}

// When announcements are due next, if that is before a timestamp, in ms.
#[tactic(auto, unfolding(crate::specs::Stops::next_stop))]
fn next_stop(anycast: &Anycast, present: u64, moment: u64) -> Option<u64>
    ensures { result ≡ next_stop anycast.now moment present }
{
    match anycast.next(present) {
        Some(next) if next < moment => Some(next),
        _ => None,
    }
}

// The timestamps, in ms, at which announcements are due on the way from one to another.
#[tactic(auto, unfolding(crate::specs::Stops::stops_on))]
fn stops_on_the_way(
    alloc: Global,
    anycast: &Anycast,
    present: u64,
    moment: u64,
) -> Result<Vec<u64>, AllocError>
    ensures { IfOk result (λ found. found.items ≡ stops_on anycast.now present moment) }
{
    let mut found = Vec::new(alloc);
    if moment > LAST_MOMENT {
        return Ok(found);
    }
    let mut passed = present;
    'announcements: for _ in 0..MOST_STOPS {
        let Some(next) = next_stop(anycast, passed, moment) else {
            return Ok(found);
        };
        found.push(next)?;
        passed = next;
    }
    Ok(found)
}

// The timestamps, in ms, at which announcements are due on the way of an event.
fn stops_of<W: Wire>(
    alloc: Global,
    net: &Net<W>,
    router: usize,
    anycast: &Anycast,
    kind: &EventKind,
) -> Result<Vec<u64>, AllocError> {
    match (kind, net.router(router)) {
        (EventKind::Advance { moment }, Some(asked)) => {
            stops_on_the_way(alloc, anycast, asked.present_moment(), *moment)
        }
        _ => Ok(Vec::new(alloc)),
    }
}

/// An event at a router of a network, behind both fronts of its station. Where time passes the router is given each
/// timestamp too at which announcements are due; what it sends by these leaves before the rest.
pub(crate) fn run<W: Wire>(
    alloc: Global,
    net: &mut Net<W>,
    router: usize,
    station: &mut Station,
    event: Event,
) -> Result<Outcome, Fault> {
    let mut sent = Vec::new(alloc);
    for moment in stops_of(alloc, net, router, &station.anycast, &event.kind)? {
        let on_the_way = Event {
            draw: event.draw,
            kind: EventKind::Advance { moment },
        };
        let outcome = run_shared(alloc, net, router, station, on_the_way)?;
        sent.append(&mut outcome.emissions.into_vec())?;
    }
    let outcome = run_shared(alloc, net, router, station, event)?;
    Ok(with_beside(Series::from_vec(sent), outcome, Vec::new(alloc))?)
}
