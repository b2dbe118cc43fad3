//! A router with what stands before it takes an event.
ghost use Rattle.std.specs.Prelude.{◌≡◌, IfOk, IfSome, IsOk, IsOkUnless, IsTrue, None, OnErr, Some, true};
ghost use Rattle.pim_ip.specs.declared.fault.Fault.{Fault};
ghost use Rattle.pim_model.specs.Step.{step};
ghost use Rattle.pim_model.specs.Sure.{needs_no_memory};
ghost use Rattle.pim_router.specs.Stepped.{Stepped};
ghost use Rattle.pim_types.specs.declared.event.EventKind.{EventKind};
ghost use Rattle.igmp_older.specs.Joined.{rows_of};
ghost use Rattle.igmp_older.specs.Presence.{hosts_on};
ghost use Rattle.igmp_older.specs.Translation.{translation};
ghost use Rattle.pim_session.specs.Behind.{SteppedBehind, Took, frame_event, is_done, is_plain, packet_of};
ghost use Rattle.pim_session.specs.Front.{both, event_queried, front_of, given, interface_test, is_sure, older_rows, times_in};

use crate::asked::Asked;
use crate::front::Front;
use igmp_older::{Given, OlderRow, ResponseTimes, translate_query};
use pim_intake::LentEvent;
use pim_intake::lent::LentKind;
use pim_router::Router;
use pim_types::{Emission, Fault, IfaceId, Refusal, Verdict};
use std::alloc::AllocError;
use std::mem;

// Whether an event was done.
fn is_done(answer: Result<Verdict, Refusal>) -> bool
    ensures { result ≡ is_done answer }
{
    matches!(answer, Ok(Verdict::Done))
}

// The packet that the router is given: as it came, or as it was written in its place.
fn packet_of<'a>(given: Given, bytes: &'a [u8], written: &'a [u8]) -> &'a [u8]
    ensures { result.now ≡ packet_of given bytes.now written.now }
{
    match given {
        Given::Same => bytes,
        Given::Rewritten(_) => written,
    }
}

// The router takes an event; what leaves is added to what was sent.
fn give(
    router: &mut Router,
    event: &LentEvent<'_>,
    sent: &mut Vec<Emission>,
) -> Result<Result<Verdict, Refusal>, Fault>
    ensures stepped { IfSome router.old.standing (λ r. IfOk result (λ answer.
        Stepped r.state event.now sent.old.items answer router.new sent.new.items)) }
    ensures fault { IfSome router.old.standing (λ r. IsOkUnless result Fault.Memory) }
    ensures sure { IfSome router.old.standing (λ r. IsTrue (needs_no_memory (step r.state event.now).answer)
        → IsOk result) }
{
    let answer = router.step_lent(event, sent)?;
    Ok(answer)
}

// A packet that came on an interface, in which no older query is left.
fn take_packet(
    router: &mut Router,
    front: &mut Front,
    draw: u32,
    iface: IfaceId,
    bytes: &[u8],
    sent: &mut Vec<Emission>,
) -> Result<Result<Verdict, Refusal>, Fault>
    ensures took { IfSome router.old.standing (λ r. IfOk result (λ answer.
        Took front.old r.state (frame_event draw iface bytes.now) sent.old.items answer router.new sent.new.items front.new)) }
    ensures fault { IfSome router.old.standing (λ r. IsOkUnless result Fault.Memory) }
    ensures sure { IfSome router.old.standing (λ r.
        translation (rows_of (both front.old r.state)) r.state.present iface.number (hosts_on front.old.present iface.number)
        bytes.now ≡ None
        → IsTrue (needs_no_memory (step r.state (frame_event draw iface bytes.now)).answer) → IsOk result) }
{
    let end = router.membership_end(iface);
    let alloc = router.alloc();
    let mut written = Vec::new(alloc);
    let given = front.translate(alloc, &Asked::of(router), iface, bytes, &mut written)?;
    let packet = packet_of(given, bytes, written.as_slice());
    let answer = give(router, &LentEvent::frame(draw, iface, packet), sent)?;
    front.note(iface, given, packet, answer, end)?;
    Ok(answer)
}

// A packet that came on an interface.
fn take_frame(
    router: &mut Router,
    front: &mut Front,
    draw: u32,
    iface: IfaceId,
    bytes: &[u8],
    sent: &mut Vec<Emission>,
) -> Result<Result<Verdict, Refusal>, Fault>
    ensures took { IfSome router.old.standing (λ r. IfOk result (λ answer.
        Took front.old r.state (event_queried front.old (frame_event draw iface bytes.now)) sent.old.items answer router.new
        sent.new.items front.new)) }
    ensures fault { IfSome router.old.standing (λ r. IsOkUnless result Fault.Memory) }
    ensures sure { IfSome router.old.standing (λ r.
        IsTrue (is_sure (Some front.old) r.state (frame_event draw iface bytes.now)) → IsOk result) }
{
    if !front.hears_queries(iface) {
        return take_packet(router, front, draw, iface, bytes, sent);
    }
    let alloc = router.alloc();
    let mut query = Vec::new(alloc);
    if translate_query(alloc, bytes, &mut query)? {
        return take_packet(router, front, draw, iface, query.as_slice(), sent);
    }
    take_packet(router, front, draw, iface, bytes, sent)
}

// Time passes: whose timers expired by then is forgotten, and the groups without a record.
fn advance(
    router: &mut Router,
    front: &mut Front,
    event: &LentEvent<'_>,
    moment: u64,
    sent: &mut Vec<Emission>,
) -> Result<Result<Verdict, Refusal>, Fault>
    requires { event.now.kind ≡ EventKind.Advance moment }
    ensures took { IfSome router.old.standing (λ r. IfOk result (λ answer.
        Took front.old r.state (event_queried front.old event.now) sent.old.items answer router.new sent.new.items front.new)) }
    ensures fault { IfSome router.old.standing (λ r. IsOkUnless result Fault.Memory) }
    ensures sure { IfSome router.old.standing (λ r. IsTrue (is_sure (Some front.old) r.state event.now) → IsOk result) }
{
    let answer = give(router, event, sent)?;
    if is_done(answer) {
        front.forget(&Asked::of(router), moment);
    }
    Ok(answer)
}

// An interface goes down: whom it heard is forgotten.
fn go_down(
    router: &mut Router,
    front: &mut Front,
    event: &LentEvent<'_>,
    iface: IfaceId,
    sent: &mut Vec<Emission>,
) -> Result<Result<Verdict, Refusal>, Fault>
    requires { event.now.kind ≡ EventKind.Down iface }
    ensures took { IfSome router.old.standing (λ r. IfOk result (λ answer.
        Took front.old r.state (event_queried front.old event.now) sent.old.items answer router.new sent.new.items front.new)) }
    ensures fault { IfSome router.old.standing (λ r. IsOkUnless result Fault.Memory) }
    ensures sure { IfSome router.old.standing (λ r. IsTrue (is_sure (Some front.old) r.state event.now) → IsOk result) }
{
    let answer = give(router, event, sent)?;
    if is_done(answer) {
        front.leave(iface);
    }
    Ok(answer)
}

// An event of which nothing is heard or forgotten.
fn pass(
    router: &mut Router,
    front: &Front,
    event: &LentEvent<'_>,
    sent: &mut Vec<Emission>,
) -> Result<Result<Verdict, Refusal>, Fault>
    requires { is_plain event.now.kind ≡ true }
    ensures took { IfSome router.old.standing (λ r. IfOk result (λ answer.
        Took front.now r.state (event_queried front.now event.now) sent.old.items answer router.new sent.new.items front.now)) }
    ensures fault { IfSome router.old.standing (λ r. IsOkUnless result Fault.Memory) }
    ensures sure { IfSome router.old.standing (λ r. IsTrue (is_sure (Some front.now) r.state event.now) → IsOk result) }
{
    let _ = front;
    let answer = give(router, event, sent)?;
    Ok(answer)
}

// Any event.
#[tactic(auto, unfolding(pim_intake::specs::Lent::event_kind))]
fn take(
    router: &mut Router,
    front: &mut Front,
    event: &LentEvent<'_>,
    sent: &mut Vec<Emission>,
) -> Result<Result<Verdict, Refusal>, Fault>
    ensures took { IfSome router.old.standing (λ r. IfOk result (λ answer.
        Took front.old r.state (event_queried front.old event.now) sent.old.items answer router.new sent.new.items front.new)) }
    ensures fault { IfSome router.old.standing (λ r. IsOkUnless result Fault.Memory) }
    ensures sure { IfSome router.old.standing (λ r. IsTrue (is_sure (Some front.old) r.state event.now) → IsOk result) }
{
    match event.kind() {
        LentKind::Frame { iface, bytes } => take_frame(
            router,
            front,
            event.draw(),
            *iface,
            bytes.as_slice(),
            sent,
        ),
        LentKind::Advance { moment } => advance(router, front, event, *moment, sent),
        LentKind::Down { iface } => go_down(router, front, event, *iface, sent),
        LentKind::Unicast { .. }
        | LentKind::Up { .. }
        | LentKind::Routes { .. }
        | LentKind::Rps { .. }
        | LentKind::RpCandidates { .. } => pass(router, front, event, sent),
    }
}

// Any event, before which something stands; with the answer comes what leaves.
fn step_behind(
    router: &mut Router,
    front: &mut Front,
    event: &LentEvent<'_>,
) -> Result<(Result<Verdict, Refusal>, Vec<Emission>), Fault>
    ensures took { IfSome router.old.standing (λ r. IfOk result (λ told.
        SteppedBehind (Some front.old) r.state event.now told.0 router.new told.1.items (Some front.new))) }
    ensures fault { IfSome router.old.standing (λ r. IsOkUnless result Fault.Memory) }
    ensures sure { IfSome router.old.standing (λ r. IsTrue (is_sure (Some front.old) r.state event.now) → IsOk result) }
{
    let mut sent = Vec::new(router.alloc());
    let answer = take(router, front, event, &mut sent)?;
    let left = front.emissions_leaving(router.alloc(), sent)?;
    Ok((answer, left))
}

/// Has a router take an event; with the answer comes what leaves. What stands before the router is lost by a fault.
pub(crate) fn step(
    router: &mut Router,
    front: &mut Option<Front>,
    event: &LentEvent<'_>,
) -> Result<(Result<Verdict, Refusal>, Vec<Emission>), Fault>
    ensures took { IfSome router.old.standing (λ r. IfOk result (λ told.
        SteppedBehind front.old r.state event.now told.0 router.new told.1.items front.new)) }
    ensures fault { IfSome router.old.standing (λ r. IsOkUnless result Fault.Memory) }
    ensures sure { IfSome router.old.standing (λ r. IsTrue (is_sure front.old r.state event.now) → IsOk result) }
{
    let Some(mut standing) = mem::replace(front, None) else {
        let mut sent = Vec::new(router.alloc());
        let answer = give(router, event, &mut sent)?;
        return Ok((answer, sent));
    };
    let told = step_behind(router, &mut standing, event)?;
    *front = Some(standing);
    Ok(told)
}

/// The times in which hosts answer the router's queries.
pub(crate) fn times_in(router: &Router) -> ResponseTimes
    ensures { IfSome router.now.standing (λ r. result ≡ times_in r.state) }
{
    ResponseTimes {
        general: router.query_response_interval(),
        specific: router.last_member_query_interval(),
    }
}

/// What stands before a router: what stood there, or what is made. Only the latter may fail for want of memory.
pub(crate) fn front_of(router: &Router, front: Option<Front>) -> Result<Front, AllocError>
    ensures made { IfSome router.now.standing (λ r. IfOk result (λ made. made ≡ front_of r.state front)) }
    ensures none { OnErr result (front ≡ None) }
{
    match front {
        Some(front) => Ok(front),
        None => Front::new(
            router.alloc(),
            router.limit(),
            router.interface_count(),
            times_in(router),
        ),
    }
}

/// Whether an interface is configured, so that it has settings.
pub(crate) fn test_interface(router: &Router, iface: IfaceId) -> Result<(), Refusal>
    ensures { IfSome router.now.standing (λ r. result ≡ interface_test r.state iface.number) }
{
    if iface.number < router.interface_count() {
        Ok(())
    } else {
        Err(Refusal::NoInterface)
    }
}

/// The groups in an older mode.
#[tactic(auto, unfolding(crate::specs::Front::older_rows))]
pub(crate) fn older_rows(
    router: &Router,
    front: &Option<Front>,
) -> Result<Vec<OlderRow>, AllocError>
    ensures { IfSome router.now.standing (λ r. IfOk result (λ rows. rows.items ≡ older_rows front.now r.state)) }
{
    match front {
        Some(front) => {
            let rows = front.older_rows(router.alloc(), &Asked::of(router))?;
            Ok(rows)
        }
        None => Ok(Vec::new(router.alloc())),
    }
}
