//! Routers behind listeners for Bootstraps (RFC 5059) and what they stand as beside these, and then behind the other
//! fronts of their stations.
ghost use Rattle.pim_lab.specs.Learned.{is_moved_by};
ghost use Rattle.pim_bsr.specs.Joined.{is_done, is_other_type};
ghost use Rattle.pim_bsr.specs.Table.{Known, configured};
ghost use Rattle.std.specs.Prelude.{◌≡◌, ◌^◌, ◌≤◌, IfOk, IfSome, None, Some, false, if◌then◌else◌, ◌++◌};

use crate::front::Asked;
use crate::shared;
use lab_parts::{Owed, Station};
use pim_bsr::{Choice, Surroundings};
use pim_candidate::CandidacyHeard;
use pim_net::{Net, Router, Wire};
use pim_types::{
    Emission, Event, EventKind, Fault, IfaceId, Ignored, Outcome, Refusal, RpRange, Series, Verdict,
};
use std::alloc::{AllocError, Global};

/// What became of an event, and of a packet in it that the router's listener heard, or the candidate beside it.
#[derive(Drop)]
pub(crate) struct Told {
    pub(crate) outcome: Outcome,
    pub(crate) heard: Option<CandidacyHeard>,
}

impl Told {
    // What became of an event of which the listener heard nothing.
    fn of(outcome: Outcome) -> Told
        ensures { result ≡ record { outcome = outcome; heard = None } }
    {
        Told {
            outcome,
            heard: None,
        }
    }
}

/// A packet on a link, with the draw of its event.
#[derive(Drop)]
struct Arrived {
    draw: u32,
    iface: IfaceId,
    bytes: Series<u8>,
}

/// A packet on a link that a listener hears, with the draw of its event.
#[derive(Clone, Copy)]
struct Packet<'a> {
    draw: u32,
    iface: IfaceId,
    bytes: &'a [u8],
}

/// A timestamp to which time passes, in ms, with the draw of its event.
#[derive(Clone, Copy)]
struct Passing {
    draw: u32,
    moment: u64,
}

/// Other configured RP ranges, with the draw of their event.
#[derive(Drop)]
struct Replaced {
    draw: u32,
    ranges: Series<RpRange>,
}

/// One event at a router of a network, behind the listener of its station, if it has one, and its other fronts.
pub(crate) fn run<W: Wire>(
    alloc: Global,
    net: &mut Net<W>,
    router: usize,
    station: &mut Station,
    event: Event,
) -> Result<Told, Fault> {
    if station.listener.is_none() {
        return run_behind(alloc, net, router, station, event);
    }
    let Event { draw, kind } = event;
    match kind {
        EventKind::Frame { iface, bytes } => {
            let arrived = Arrived { draw, iface, bytes };
            run_frame(alloc, net, router, station, arrived)
        }
        EventKind::Unicast { bytes } => run_unicast(alloc, net, router, station, draw, bytes),
        EventKind::Advance { moment } => {
            let passing = Passing { draw, moment };
            run_time(alloc, net, router, station, passing)
        }
        EventKind::Rps { rps } => {
            let replaced = Replaced { draw, ranges: rps };
            let outcome = run_ranges(alloc, net, router, station, replaced)?;
            Ok(Told::of(outcome))
        }
        kind => run_behind(alloc, net, router, station, Event { draw, kind }),
    }
}

// An event that goes to the router behind the other fronts as it came.
fn run_behind<W: Wire>(
    alloc: Global,
    net: &mut Net<W>,
    router: usize,
    station: &mut Station,
    event: Event,
) -> Result<Told, Fault> {
    let outcome = shared::run(alloc, net, router, station, event)?;
    Ok(Told::of(outcome))
}

// A packet that came on a link. Where the router ignores it for its type the listener hears it, and then the router is
// given other RPs where they are others.
fn run_frame<W: Wire>(
    alloc: Global,
    net: &mut Net<W>,
    router: usize,
    station: &mut Station,
    arrived: Arrived,
) -> Result<Told, Fault> {
    let Arrived { draw, iface, bytes } = arrived;
    let packet = bytes.as_slice().to_vec(alloc)?;
    let kind = EventKind::Frame { iface, bytes };
    let outcome = shared::run_shared(alloc, net, router, station, Event { draw, kind })?;
    if !is_other_type(outcome.answer) {
        return Ok(Told::of(outcome));
    }
    let packet = Packet {
        draw,
        iface,
        bytes: &packet,
    };
    let Overheard { heard, sent } = hear(alloc, net, router, station, packet)?;
    let given = if is_moved(heard) {
        give(alloc, net, router, station, draw)?
    } else {
        Vec::new(alloc)
    };
    Ok(Told {
        outcome: with_both(outcome, sent, given)?,
        heard: Some(heard),
    })
}

// A packet that came by unicast. Where the router ignores it as not for it, the candidate beside the listener hears it.
fn run_unicast<W: Wire>(
    alloc: Global,
    net: &mut Net<W>,
    router: usize,
    station: &mut Station,
    draw: u32,
    bytes: Series<u8>,
) -> Result<Told, Fault> {
    let packet = bytes.as_slice().to_vec(alloc)?;
    let kind = EventKind::Unicast { bytes };
    let outcome = shared::run_shared(alloc, net, router, station, Event { draw, kind })?;
    if !is_not_for_me(outcome.answer) {
        return Ok(Told::of(outcome));
    }
    let Some(asked) = net.router(router) else {
        return Err(Fault::Failed);
    };
    let heard = station
        .candidacy
        .hear_unicast(alloc, &Asked { router: asked }, &packet)?;
    Ok(Told {
        outcome,
        heard: if_heard(heard),
    })
}

// Whether the router ignored a packet as not for it.
fn is_not_for_me(answer: Result<Verdict, Refusal>) -> bool {
    matches!(answer, Ok(Verdict::Ignored(Ignored::NotForMe)))
}

// What became of a packet by unicast, if a candidate heard it.
fn if_heard(heard: CandidacyHeard) -> Option<CandidacyHeard> {
    match heard {
        CandidacyHeard::Other => None,
        heard => Some(heard),
    }
}

// Whether the router ignored a packet for its type.
fn is_other_type(answer: Result<Verdict, Refusal>) -> bool
    ensures { result ≡ is_other_type answer }
{
    matches!(answer, Ok(Verdict::Ignored(Ignored::OtherType)))
}

// Whether a router is to be given other RPs.
fn is_moved(heard: CandidacyHeard) -> bool
    ensures { result ≡ is_moved_by heard }
{
    matches!(
        heard,
        CandidacyHeard::Taken(true) | CandidacyHeard::Answered(true)
    )
}

// An outcome with packets behind those that are there.
fn with_both(
    outcome: Outcome,
    sent: Vec<Emission>,
    given: Vec<Emission>,
) -> Result<Outcome, AllocError>
    ensures { IfOk result (λ both. both
        ≡ record outcome { emissions = outcome.emissions ++ (sent.items ++ given.items) }) }
{
    let Outcome {
        answer,
        emissions,
        copies,
    } = outcome;
    let mut sent = sent;
    let mut given = given;
    sent.append(&mut given)?;
    let mut all = emissions.into_vec();
    all.append(&mut sent)?;
    Ok(Outcome {
        answer,
        emissions: Series::from_vec(all),
        copies,
    })
}

/// What was heard of a packet, and the packets that leave by it.
#[derive(Drop)]
struct Overheard {
    heard: CandidacyHeard,
    sent: Vec<Emission>,
}

// Has the listener of a station, with what stands beside it, hear a packet that came on an interface. What leaves by it is
// a frame as any other.
fn hear<W: Wire>(
    alloc: Global,
    net: &mut Net<W>,
    router: usize,
    station: &mut Station,
    packet: Packet<'_>,
) -> Result<Overheard, Fault> {
    let Packet { draw, iface, bytes } = packet;
    let Some(asked) = net.router(router) else {
        return Err(Fault::Failed);
    };
    let Some(listener) = &mut station.listener else {
        return Err(Fault::Failed);
    };
    let around = Asked { router: asked };
    let mut sent = Vec::new(alloc);
    let heard = station
        .candidacy
        .hear(alloc, listener, &around, iface, bytes, draw, &mut sent)?;
    net.send(router, &sent)?;
    Ok(Overheard { heard, sent })
}

// The router is given the RPs of its listener: what leaves by this.
fn give<W: Wire>(
    alloc: Global,
    net: &mut Net<W>,
    router: usize,
    station: &mut Station,
    draw: u32,
) -> Result<Vec<Emission>, Fault> {
    let Some(listener) = &station.listener else {
        return Err(Fault::Failed);
    };
    let kind = listener.rps_event(alloc)?;
    let outcome = shared::run_shared(alloc, net, router, station, Event { draw, kind })?;
    Ok(outcome.emissions.into_vec())
}

// Time passes to each end on the way, of an RP in force or of a timer beside the listener, and then to its timestamp, unless
// the router refuses that.
fn run_time<W: Wire>(
    alloc: Global,
    net: &mut Net<W>,
    router: usize,
    station: &mut Station,
    passing: Passing,
) -> Result<Told, Fault> {
    let Some(asked) = net.router(router) else {
        return Err(Fault::Failed);
    };
    if is_refused_moment(asked, passing.moment) {
        let event = time_event(passing);
        return run_behind(alloc, net, router, station, event);
    }
    let sent = pass_ends(alloc, net, router, station, passing)?;
    let outcome = pass_to(alloc, net, router, station, passing)?;
    let outcome = shared::with_beside(Series::from_vec(sent), outcome, Vec::new(alloc))?;
    Ok(Told::of(outcome))
}

// Whether a router refuses a timestamp, in ms.
fn is_refused_moment(router: &Router, moment: u64) -> bool
    ensures { result ≡ false → moment ≤ 2 ^ 62 }
{
    moment < router.present_moment() || moment > shared::LAST_MOMENT
}

// An event by which time passes.
fn time_event(passing: Passing) -> Event {
    Event {
        draw: passing.draw,
        kind: EventKind::Advance {
            moment: passing.moment,
        },
    }
}

// When the next RP in force ends, or the next timer beside the listener, in ms.
fn first_end(station: &Station) -> Option<u64> {
    let listened = station.listener.as_ref()?.first_end();
    match (listened, station.candidacy.first_end()) {
        (Some(end), Some(other)) => Some(end.min(other)),
        (Some(end), None) => Some(end),
        (None, end) => end,
    }
}

// The same, if it isn't past a timestamp.
fn next_end(station: &Station, moment: u64) -> Option<u64>
    ensures { IfSome result (λ end. end ≤ moment) }
{
    match first_end(station) {
        Some(end) if end <= moment => Some(end),
        _ => None,
    }
}

// Time passes to each end that isn't past a timestamp, in their order: what leaves by this.
fn pass_ends<W: Wire>(
    alloc: Global,
    net: &mut Net<W>,
    router: usize,
    station: &mut Station,
    passing: Passing,
) -> Result<Vec<Emission>, Fault>
    requires { passing.moment ≤ 2 ^ 62 }
{
    let mut sent = Vec::new(alloc);
    'ends: for _ in 0..u64::MAX {
        let Some(end) = next_end(station, passing.moment) else {
            return Ok(sent);
        };
        let to_end = Passing {
            draw: passing.draw,
            moment: end,
        };
        let outcome = pass_to(alloc, net, router, station, to_end)?;
        sent.append(&mut outcome.emissions.into_vec())?;
    }
    Ok(sent)
}

// Time passes to a timestamp before which nothing ends. Then the router is given other RPs where they are others.
fn pass_to<W: Wire>(
    alloc: Global,
    net: &mut Net<W>,
    router: usize,
    station: &mut Station,
    passing: Passing,
) -> Result<Outcome, Fault>
    requires { passing.moment ≤ 2 ^ 62 }
{
    let outcome = shared::run(alloc, net, router, station, time_event(passing))?;
    let Passed { moved, sent } = pass_beside(alloc, net, router, station, passing)?;
    let given = if moved {
        give(alloc, net, router, station, passing.draw)?
    } else {
        Vec::new(alloc)
    };
    Ok(with_both(outcome, sent, given)?)
}

/// Whether a router is to be given other RPs as time passed, and the packets that leave by that.
#[derive(Drop)]
struct Passed {
    moved: bool,
    sent: Vec<Emission>,
}

// Time passed for the listener of a station and what stands beside it.
fn pass_beside<W: Wire>(
    alloc: Global,
    net: &mut Net<W>,
    router: usize,
    station: &mut Station,
    passing: Passing,
) -> Result<Passed, Fault>
    requires { passing.moment ≤ 2 ^ 62 }
{
    let Some(asked) = net.router(router) else {
        return Err(Fault::Failed);
    };
    let Some(listener) = &mut station.listener else {
        return Err(Fault::Failed);
    };
    let around = Asked { router: asked };
    let Passing { draw, moment } = passing;
    let mut sent = Vec::new(alloc);
    let moved = station
        .candidacy
        .pass_to(alloc, listener, &around, moment, draw, &mut sent)?;
    net.send(router, &sent)?;
    Ok(Passed { moved, sent })
}

// Other configured RP ranges: the router is given those that are learned beside them, and other candidates where there is
// no room for all. What it refuses isn't configured.
fn run_ranges<W: Wire>(
    alloc: Global,
    net: &mut Net<W>,
    router: usize,
    station: &mut Station,
    replaced: Replaced,
) -> Result<Outcome, Fault> {
    let Replaced { draw, ranges } = replaced;
    let Some(listener) = &station.listener else {
        return Err(Fault::Failed);
    };
    let given = listener.given_beside(alloc, listener.limit(), ranges.as_slice())?;
    let loses = listener.loses_beside(listener.limit(), ranges.as_slice());
    let kind = EventKind::Rps {
        rps: Series::from_vec(given),
    };
    let outcome = shared::run_shared(alloc, net, router, station, Event { draw, kind })?;
    let is_taken = is_done(outcome.answer);
    configure_if(is_taken, station, ranges);
    if !(is_taken && loses) {
        return Ok(outcome);
    }
    let given = give(alloc, net, router, station, draw)?;
    Ok(with_both(outcome, Vec::new(alloc), given)?)
}

// Whether the router took an event.
fn is_done(answer: Result<Verdict, Refusal>) -> bool
    ensures { result ≡ is_done answer }
{
    matches!(answer, Ok(Verdict::Done))
}

// Puts the listener of a station beside other configured ranges, if the router took them.
fn configure_if(is_taken: bool, station: &mut Station, ranges: Series<RpRange>)
    ensures { (k : Known) → station.old.listener ≡ Some k → station.new
        ≡ record station.old { listener = Some (if is_taken then configured k.limit ranges k else k) } }
{
    let Some(listener) = &mut station.listener else {
        return;
    };
    if is_taken {
        let limit = listener.limit();
        listener.configure(limit, ranges.into_vec());
    }
}

/// The router is given what it is owed once another configuration is kept: what leaves by this.
pub(crate) fn give_owed<W: Wire>(
    alloc: Global,
    net: &mut Net<W>,
    router: usize,
    station: &mut Station,
    draw: u32,
    owed: Owed,
) -> Result<Vec<Emission>, Fault> {
    match owed {
        Owed::Nothing => Ok(Vec::new(alloc)),
        Owed::Rps => give(alloc, net, router, station, draw),
        Owed::Choice => {
            let mut sent = give(alloc, net, router, station, draw)?;
            sent.append(&mut take_back(alloc, net, router, station, draw)?)?;
            Ok(sent)
        }
        Owed::NoCandidates => {
            let kind = no_candidates(alloc);
            let outcome = shared::run_shared(alloc, net, router, station, Event { draw, kind })?;
            Ok(outcome.emissions.into_vec())
        }
    }
}

// No candidates of ranges.
fn no_candidates(alloc: Global) -> EventKind {
    EventKind::RpCandidates {
        candidates: Series::new(alloc),
    }
}

// What another choice gave the router is taken back.
fn take_back<W: Wire>(
    alloc: Global,
    net: &mut Net<W>,
    router: usize,
    station: &mut Station,
    draw: u32,
) -> Result<Vec<Emission>, Fault> {
    let Some(listener) = &station.listener else {
        return Err(Fault::Failed);
    };
    let kind = match listener.choice() {
        Choice::Range => no_candidates(alloc),
        Choice::Group => EventKind::Rps {
            rps: Series::from_vec(listener.given(alloc)?),
        },
    };
    let outcome = shared::run_shared(alloc, net, router, station, Event { draw, kind })?;
    Ok(outcome.emissions.into_vec())
}
