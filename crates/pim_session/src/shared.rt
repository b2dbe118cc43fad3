//! A router takes an event behind all that stands before it: the sets of RPs that share an address, and then what is known
//! of older hosts.
ghost use Rattle.std.specs.Prelude.{◌≡◌, ◌++◌, ◌||◌, ◌⊎◌, [], IfOk, IfSome, IsOk, IsOkUnless, IsTrue, true};
ghost use Rattle.law_plane.specs.Seen.{seen_event};
ghost use Rattle.pim_anycast.specs.Announced.{is_announced, is_local};
ghost use Rattle.pim_anycast.specs.Passed.{bytes_given, copies_of};
ghost use Rattle.pim_ip.specs.declared.fault.Fault.{Fault};
ghost use Rattle.pim_model.specs.Step.{step};
ghost use Rattle.pim_model.specs.Tables.{is_empty_list};
ghost use Rattle.pim_session.specs.Front.{given, is_sure};
ghost use Rattle.pim_session.specs.Shared.{Beside, BringsFrame, Reached, Saw, is_advance, is_sure_behind, is_unshared, name_announced, unicast_event};

use crate::asked::Asked;
use crate::behind;
use crate::front::Front;
use pim_anycast::{Anycast, Passed};
use pim_intake::LentEvent;
use pim_intake::lent::LentKind;
use pim_ip::read_ipv4;
use pim_router::Router;
use pim_types::{Emission, Fault, IfaceId, Refusal, SourceGroup, Verdict};
use std::alloc::{AllocError, Global};

// The one after the other. Where there is no other no memory is taken.
fn joined(mut first: Vec<Emission>, mut other: Vec<Emission>) -> Result<Vec<Emission>, AllocError>
    ensures joined { IfOk result (λ both. both.items ≡ first.items ++ other.items) }
    ensures sure { other.items ≡ [] → IsOk result }
{
    if other.is_empty() {
        return Ok(first);
    }
    if first.is_empty() {
        return Ok(other);
    }
    first.append(&mut other)?;
    Ok(first)
}

// The packet that the router is given.
fn packet_of<'a>(passed: &'a Passed, bytes: &'a [u8]) -> &'a [u8]
    ensures { result.now ≡ bytes_given passed.now bytes.now }
{
    match passed {
        Passed::AsItCame | Passed::Copied(_) => bytes,
        Passed::Counted(text) => text.as_slice(),
    }
}

// What leaves to the others of a set.
fn copies_of(alloc: Global, passed: Passed) -> Vec<Emission>
    ensures { result.items ≡ copies_of passed }
{
    match passed {
        Passed::AsItCame | Passed::Counted(_) => Vec::new(alloc),
        Passed::Copied(copies) => copies.into_vec(),
    }
}

// A packet by unicast, which the sets may give in another form, or copy to others.
fn take_unicast(
    router: &mut Router,
    front: &mut Option<Front>,
    anycast: &Anycast,
    draw: u32,
    bytes: &[u8],
) -> Result<(Result<Verdict, Refusal>, Vec<Emission>), Fault>
    ensures took { IfSome router.old.standing (λ r. IfOk result (λ told.
        Reached anycast.now front.old r.state (unicast_event draw bytes.now) told.0 router.new told.1.items front.new)) }
    ensures fault { IfSome router.old.standing (λ r. IsOkUnless result Fault.Memory) }
    ensures sure { IfSome router.old.standing (λ r.
        IsTrue (is_sure_behind anycast.now front.old r.state (unicast_event draw bytes.now)) → IsOk result) }
{
    let passed = anycast.take_unicast(router.alloc(), &Asked::of(router), bytes)?;
    let (answer, sent) = behind::step(
        router,
        front,
        &LentEvent::unicast(draw, packet_of(&passed, bytes)),
    )?;
    let left = joined(copies_of(router.alloc(), passed), sent)?;
    Ok((answer, left))
}

// A packet of a source that came on an interface: the source is announced, if it is from then on.
fn take_named(
    router: &mut Router,
    front: &mut Option<Front>,
    anycast: &Anycast,
    event: &LentEvent<'_>,
    name: SourceGroup,
) -> Result<(Result<Verdict, Refusal>, Vec<Emission>), Fault>
    ensures took { IfSome router.old.standing (λ r. IfOk result (λ told.
        Beside [] (name_announced anycast.now r.state (step r.state (given front.old r.state event.now)).state name.group.bits
        name.source.bits) front.old r.state event.now told.0 router.new told.1.items front.new)) }
    ensures fault { IfSome router.old.standing (λ r. IsOkUnless result Fault.Memory) }
    ensures sure { IfSome router.old.standing (λ r. IsTrue (is_sure front.old r.state event.now) → IsOk result) }
{
    let before = anycast.is_announced(&Asked::of(router), name);
    let (answer, sent) = behind::step(router, front, event)?;
    let more = anycast.announce_new(router.alloc(), &Asked::of(router), name, before)?;
    let left = joined(sent, more)?;
    Ok((answer, left))
}

// A packet that came on an interface.
fn take_frame(
    router: &mut Router,
    front: &mut Option<Front>,
    anycast: &Anycast,
    event: &LentEvent<'_>,
    bytes: &[u8],
) -> Result<(Result<Verdict, Refusal>, Vec<Emission>), Fault>
    requires { BringsFrame bytes.now event.now.kind }
    ensures took { IfSome router.old.standing (λ r. IfOk result (λ told.
        Reached anycast.now front.old r.state event.now told.0 router.new told.1.items front.new)) }
    ensures fault { IfSome router.old.standing (λ r. IsOkUnless result Fault.Memory) }
    ensures sure { IfSome router.old.standing (λ r. IsTrue (is_sure_behind anycast.now front.old r.state event.now)
        → IsOk result) }
{
    match read_ipv4(bytes) {
        Ok(packet) => {
            let name = SourceGroup {
                source: packet.source(),
                group: packet.destination(),
            };
            let (answer, left) = take_named(router, front, anycast, event, name)?;
            Ok((answer, left))
        }
        Err(_) => {
            let (answer, sent) = behind::step(router, front, event)?;
            Ok((answer, sent))
        }
    }
}

// Time passes: the local sources are announced, if they are due.
fn advance(
    router: &mut Router,
    front: &mut Option<Front>,
    anycast: &Anycast,
    event: &LentEvent<'_>,
) -> Result<(Result<Verdict, Refusal>, Vec<Emission>), Fault>
    requires { is_advance event.now.kind ≡ true }
    ensures took { IfSome router.old.standing (λ r. IfOk result (λ told.
        Reached anycast.now front.old r.state event.now told.0 router.new told.1.items front.new)) }
    ensures fault { IfSome router.old.standing (λ r. IsOkUnless result Fault.Memory) }
    ensures sure { IfSome router.old.standing (λ r. IsTrue (is_sure_behind anycast.now front.old r.state event.now)
        → IsOk result) }
{
    let before = router.present_moment();
    let (answer, sent) = behind::step(router, front, event)?;
    let more = anycast.announce_due(router.alloc(), &Asked::of(router), before)?;
    let left = joined(sent, more)?;
    Ok((answer, left))
}

// Whether there is no set.
fn is_unset(anycast: &Anycast) -> bool
    ensures { result ≡ is_empty_list anycast.now }
{
    anycast.sets().is_empty()
}

// An event about which the sets change nothing.
fn pass(
    router: &mut Router,
    front: &mut Option<Front>,
    anycast: &Anycast,
    event: &LentEvent<'_>,
) -> Result<(Result<Verdict, Refusal>, Vec<Emission>), Fault>
    requires { (is_empty_list anycast.now || is_unshared event.now.kind) ≡ true }
    ensures took { IfSome router.old.standing (λ r. IfOk result (λ told.
        Reached anycast.now front.old r.state event.now told.0 router.new told.1.items front.new)) }
    ensures fault { IfSome router.old.standing (λ r. IsOkUnless result Fault.Memory) }
    ensures sure { IfSome router.old.standing (λ r. IsTrue (is_sure_behind anycast.now front.old r.state event.now)
        → IsOk result) }
{
    let _ = anycast;
    let (answer, sent) = behind::step(router, front, event)?;
    Ok((answer, sent))
}

/// Has a router take an event; with the answer comes what leaves. What is known of older hosts is lost by a fault.
#[tactic(auto, unfolding(pim_intake::specs::Lent::event_kind))]
pub(crate) fn step(
    router: &mut Router,
    front: &mut Option<Front>,
    anycast: &Anycast,
    event: &LentEvent<'_>,
) -> Result<(Result<Verdict, Refusal>, Vec<Emission>), Fault>
    ensures took { IfSome router.old.standing (λ r. IfOk result (λ told.
        Reached anycast.now front.old r.state event.now told.0 router.new told.1.items front.new)) }
    ensures fault { IfSome router.old.standing (λ r. IsOkUnless result Fault.Memory) }
    ensures sure { IfSome router.old.standing (λ r. IsTrue (is_sure_behind anycast.now front.old r.state event.now)
        → IsOk result) }
{
    if is_unset(anycast) {
        return pass(router, front, anycast, event);
    }
    match event.kind() {
        LentKind::Unicast { bytes } => {
            take_unicast(router, front, anycast, event.draw(), bytes.as_slice())
        }
        LentKind::Frame { bytes, .. } => {
            take_frame(router, front, anycast, event, bytes.as_slice())
        }
        LentKind::Advance { .. } => advance(router, front, anycast, event),
        LentKind::Up { .. }
        | LentKind::Down { .. }
        | LentKind::Routes { .. }
        | LentKind::Rps { .. }
        | LentKind::RpCandidates { .. } => pass(router, front, anycast, event),
    }
}

// Whether nothing is to be announced for a packet of a source: it is announced before it, or there is no set, so that
// nothing is looked up.
fn is_settled(router: &Router, anycast: &Anycast, name: SourceGroup) -> bool
    ensures { IfSome router.now.standing (λ r.
        (result ≡ is_announced anycast.now r.state.ranges (is_local r.state name.group.bits name.source.bits) name.group.bits)
        ⊎ (is_empty_list anycast.now ≡ true)) }
{
    if is_unset(anycast) {
        return true;
    }
    anycast.is_announced(&Asked::of(router), name)
}

/// A data plane saw a packet of a source on an interface; with the answer comes what leaves.
pub(crate) fn see(
    router: &mut Router,
    anycast: &Anycast,
    draw: u32,
    iface: IfaceId,
    name: SourceGroup,
) -> Result<(Result<Verdict, Refusal>, Vec<Emission>), Fault>
    ensures took { IfSome router.old.standing (λ r. IfOk result (λ told.
        Saw anycast.now r.state (seen_event draw iface name.group.bits name.source.bits) name.group.bits name.source.bits
        told.0 router.new told.1.items)) }
    ensures fault { IfSome router.old.standing (λ r. IsOkUnless result Fault.Memory) }
{
    let before = is_settled(router, anycast, name);
    let mut sent = Vec::new(router.alloc());
    let answer = router.packet_seen(draw, iface, name, &mut sent)?;
    let more = anycast.announce_new(router.alloc(), &Asked::of(router), name, before)?;
    let left = joined(sent, more)?;
    Ok((answer, left))
}
