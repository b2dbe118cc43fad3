//! PIM messages on a link (RFC 7761, section 4.9).
ghost use Rattle.std.specs.Prelude.{◌≡◌, ◌==◌};
ghost use Rattle.pim_model.specs.Judging.{assert_judged, hello_judged, join_prune_judged, pim_judged, pim_message_judged};
ghost use Rattle.pim_model.specs.State.{my_address};

use crate::plain::PlainWorld;
use pim_ip::{Addr, Ipv4View};
use pim_model::Accepted;
use pim_types::{IfaceId, Ignored, Stop};
use pim_wire::{Assert, DEFAULT_HOLDTIME, Hello, JoinPruneView, PimView, read_pim};

// The tests of a Hello: one with holdtime 0 has to be of a known neighbour (RFC 7761, section 4.3.2).
#[tactic(auto, unfolding(pim_model::specs::Judging::hello_judged))]
fn judge_hello<'a, W: PlainWorld>(
    world: &W,
    iface: IfaceId,
    from: Addr,
    hello: Hello,
) -> Result<Accepted<'a>, Stop>
    ensures { result ≡ hello_judged (W.state world.now) iface from.bits hello }
{
    let holdtime = hello.holdtime.unwrap_or(DEFAULT_HOLDTIME);
    if holdtime == 0 && !world.neighbours().contains(iface, from) {
        return Err(Stop::Ignore(Ignored::NoNeighbour));
    }
    Ok(Accepted::Hello { iface, from, hello })
}

// Whether the address is the router's on the interface.
fn is_mine<W: PlainWorld>(world: &W, iface: IfaceId, address: Addr) -> bool
    ensures { result ≡ (address.bits == my_address (W.state world.now) iface.number) }
{
    world.address(iface) == address
}

// The tests of a Join/Prune: its sender is a neighbour (RFC 7761, section 4.5); it is to the router or only seen by it.
#[tactic(auto, unfolding(pim_model::specs::Judging::join_prune_judged))]
fn judge_join_prune<'a, W: PlainWorld>(
    world: &W,
    iface: IfaceId,
    from: Addr,
    message: JoinPruneView<'a>,
) -> Result<Accepted<'a>, Stop>
    ensures { result ≡ join_prune_judged (W.state world.now) iface from.bits message.entry }
{
    if !world.neighbours().contains(iface, from) {
        return Err(Stop::Ignore(Ignored::NoNeighbour));
    }
    if is_mine(world, iface, message.upstream()) {
        return Ok(Accepted::JoinPruneToMe { iface, message });
    }
    Ok(Accepted::JoinPruneSeen { iface, message })
}

// The tests of an Assert: its mask is that of one group, its group isn't link-local, and its sender is a neighbour.
#[tactic(auto, unfolding(pim_model::specs::Judging::assert_judged))]
fn judge_assert<'a, W: PlainWorld>(
    world: &W,
    iface: IfaceId,
    from: Addr,
    assert: Assert,
) -> Result<Accepted<'a>, Stop>
    ensures { result ≡ assert_judged (W.state world.now) iface from.bits assert }
{
    if assert.mask_length != 32 {
        return Err(Stop::Ignore(Ignored::Mask));
    }
    if assert.group.is_link_local() {
        return Err(Stop::Ignore(Ignored::LinkLocal));
    }
    if !world.neighbours().contains(iface, from) {
        return Err(Stop::Ignore(Ignored::NoNeighbour));
    }
    Ok(Accepted::Assert {
        iface,
        from,
        assert,
    })
}

// A message that came from an address on an interface.
#[tactic(auto, unfolding(pim_model::specs::Judging::pim_judged))]
fn judge_message<'a, W: PlainWorld>(
    world: &W,
    iface: IfaceId,
    from: Addr,
    message: PimView<'a>,
) -> Result<Accepted<'a>, Stop>
    ensures { result ≡ pim_judged (W.state world.now) iface from.bits message.entry }
{
    match message {
        PimView::Hello(hello) => judge_hello(world, iface, from, hello),
        PimView::JoinPrune(message) => judge_join_prune(world, iface, from, message),
        PimView::Assert(assert) => judge_assert(world, iface, from, assert),
        PimView::Other => Err(Stop::Ignore(Ignored::OtherType)),
        PimView::Register(_) | PimView::RegisterStop(_) => Err(Stop::Ignore(Ignored::NotForMe)),
    }
}

/// The PIM message in a packet.
#[tactic(auto, unfolding(pim_model::specs::Judging::pim_message_judged))]
pub(crate) fn judge_pim<'a, W: PlainWorld>(
    world: &W,
    iface: IfaceId,
    packet: &Ipv4View<'a>,
) -> Result<Accepted<'a>, Stop>
    ensures { result ≡ pim_message_judged (W.state world.now) iface packet.now }
{
    let message = read_pim(packet.payload())?;
    if world.interfaces().is_own(packet.source()) {
        return Err(Stop::Ignore(Ignored::Own));
    }
    judge_message(world, iface, packet.source(), message)
}
