//! Registers that came to one of the router's addresses (RFC 7761, section 4.4.2).
ghost use Rattle.std.specs.Prelude.{◌≡◌, ◌&&◌, ◌||◌, ℕ, IfOk, IfSome, OnOk, false, if◌then◌else◌};
ghost use Rattle.pim_state.specs.Shown.{Shows};
ghost use Rattle.pim_macros.specs.Rows.{ShowsAnswers};
ghost use Rattle.pim_macros.specs.Sights.{InSource};
ghost use Rattle.pim_state.specs.Turns.{saying};
ghost use Rattle.pim_wire.specs.RegisterParts.{is_null, registered_group, registered_source};
ghost use Rattle.pim_model.specs.Cache.{answers};
ghost use Rattle.pim_model.specs.Desires.{is_inherited_empty};
ghost use Rattle.pim_model.specs.Forwarding.{no_interface, register_at_rp, register_received, register_stop_to};
ghost use Rattle.pim_model.specs.Registers.{is_spt_wanted};
ghost use Rattle.pim_model.specs.Sets.{inherited_olist_rpt, spt_bit};
ghost use Rattle.pim_model.specs.State.{State};
ghost use Rattle.pim_event.specs.AtRp.{IsKnown, IsRead};
ghost use Rattle.pim_register.specs.Outgoing.{LeavesOn};

use pim_ifset::IfSet;
use pim_ip::Ipv4View;
use pim_macros::{SourceAnswers, SourceSight};
use pim_state::{Meter, Turn, World};
use pim_types::{SourceGroup, SptSwitch};
use pim_wire::RegisterView;
use std::alloc::AllocError;

// A Register-Stop, from the address that the Register came to back to where it came from.
fn stop_registering(
    turn: &mut Turn,
    packet: &Ipv4View<'_>,
    name: SourceGroup,
) -> Result<(), AllocError>
    ensures { OnOk result (turn.new ≡ saying turn.old (register_stop_to packet.now name.group.bits name.source.bits)) }
{
    turn.out
        .register_stop(packet.destination(), packet.source(), name)
}

// The source whose packet a Register has.
pub(crate) fn registered(register: &RegisterView<'_>) -> SourceGroup
    ensures group { result.group.bits ≡ registered_group register.now }
    ensures source { result.source.bits ≡ registered_source register.now }
{
    SourceGroup {
        source: register.source(),
        group: register.group(),
    }
}

// SwitchToSptDesired(S,G).
fn is_spt_wanted(world: &World) -> bool
    ensures { result ≡ is_spt_wanted world.now }
{
    matches!(world.settings().spt, SptSwitch::Always)
}

/// What the RP of a group reads of a source whose Register comes (RFC 7761, section 4.4.2).
#[derive(Clone, Copy)]
pub(crate) struct SourceAtRp {
    /// SPTbit(S,G).
    spt: bool,
    /// SwitchToSptDesired(S,G).
    is_spt_wanted: bool,
    /// inherited_olist(S,G) isn't empty.
    flows: bool,
    /// inherited_olist(S,G,rpt), without the register tunnel.
    inherited_rpt: IfSet,
    /// A hint for `keep_alive` of `World`.
    place: Option<usize>,
}

impl SourceAtRp {
    // What the sight of the source shows of it.
    fn of_sight(sight: &SourceSight) -> SourceAtRp
        ensures { InSource sight.now (λ s g src. IsRead s g src result) }
    {
        SourceAtRp {
            spt: sight.spt,
            is_spt_wanted: sight.is_spt_wanted,
            flows: !sight.is_inherited_empty(),
            inherited_rpt: sight.inherited_olist_rpt().without_tunnel(),
            place: None,
        }
    }

    /// What its row of the forwarding cache says of it.
    pub(crate) fn of_row(world: &World, row: &SourceAnswers) -> SourceAtRp
        ensures { (g src : ℕ) → ShowsAnswers row.now (answers world.now g src) → IsRead world.now g src result }
    {
        SourceAtRp {
            spt: row.spt,
            is_spt_wanted: is_spt_wanted(world),
            flows: row.flows,
            inherited_rpt: row.inherited_rpt,
            place: row.place,
        }
    }

    // Whether the RP wants no more Registers of the source.
    fn is_stopped(&self) -> bool
        ensures { (s : State) (g src : ℕ) → IsRead s g src self.now
            → result ≡ (spt_bit s g src || (is_spt_wanted s && is_inherited_empty s g src)) }
    {
        self.spt || self.is_spt_wanted && !self.flows
    }

    // The interfaces on which the packet of a Register leaves: those of the shared tree; none for a Null-Register, and
    // none where SPTbit(S,G) is set.
    fn list(&self, is_null: bool) -> IfSet
        ensures interfaces { (s : State) (g src : ℕ) → IsRead s g src self.now
            → Shows result (if spt_bit s g src || is_null then no_interface else inherited_olist_rpt s g src) }
        ensures tunnel { (s : State) (g src : ℕ) → IsRead s g src self.now → result.tunnel ≡ false }
    {
        if self.spt || is_null {
            IfSet::new()
        } else {
            self.inherited_rpt
        }
    }
}

// A Register at the RP, which reads this of its source: its packet goes down the shared tree, unless SPTbit(S,G) is set.
#[tactic(auto, unfolding(pim_model::specs::Forwarding::register_at_rp))]
fn register_at_rp(
    world: &mut World,
    turn: &mut Turn,
    meter: &mut Meter,
    packet: &Ipv4View<'_>,
    register: &RegisterView<'_>,
    source: &SourceAtRp,
) -> Result<IfSet, AllocError>
    requires { IsRead world.old (registered_group register.now) (registered_source register.now) source.now }
    ensures list { IfOk result (λ list. LeavesOn list (register_at_rp world.old packet.now
        (registered_group register.now) (registered_source register.now) (is_null register.now))) }
    ensures state { OnOk result (world.new ≡ (register_at_rp world.old packet.now
        (registered_group register.now) (registered_source register.now) (is_null register.now)).state) }
    ensures messages { OnOk result (turn.new ≡ saying turn.old (register_at_rp world.old packet.now
        (registered_group register.now) (registered_source register.now) (is_null register.now)).messages) }
{
    let name = registered(register);
    let list = source.list(register.is_null());
    if source.spt || source.is_spt_wanted {
        world.keep_alive(name, source.place, meter)?;
    }
    if source.is_stopped() {
        stop_registering(turn, packet, name)?;
    }
    Ok(list)
}

/// Takes a Register that came in this packet. At the RP of its group its packet goes down the shared tree and the
/// keepalive timer of its source is set; a Register-Stop is sent where the source comes without Registers, or nobody
/// wants it. Any other router sends a Register-Stop. What is known of the source at the RP isn't gathered. The result is
/// the interfaces on which the packet leaves, without the tunnel; none for a Null-Register. The meter rises by the nodes
/// visited. The error is want of memory.
#[tactic(auto, unfolding(pim_model::specs::Forwarding::register_received))]
pub(crate) fn register_seen(
    world: &mut World,
    turn: &mut Turn,
    meter: &mut Meter,
    packet: &Ipv4View<'_>,
    register: &RegisterView<'_>,
    known: Option<SourceAtRp>,
) -> Result<IfSet, AllocError>
    requires { IfSome known (IsKnown world.old packet.now register.now) }
    ensures list { IfOk result (λ list. LeavesOn list (register_received world.old packet.now
        (registered_group register.now) (registered_source register.now) (is_null register.now))) }
    ensures state { OnOk result (world.new ≡ (register_received world.old packet.now
        (registered_group register.now) (registered_source register.now) (is_null register.now)).state) }
    ensures messages { OnOk result (turn.new ≡ saying turn.old (register_received world.old packet.now
        (registered_group register.now) (registered_source register.now) (is_null register.now)).messages) }
{
    if let Some(source) = known {
        return register_at_rp(world, turn, meter, packet, register, &source);
    }
    let name = registered(register);
    if world.is_rp(name.group, packet.destination(), meter) {
        let sight = SourceSight::with_star(world, name, meter);
        let gathered = SourceAtRp::of_sight(&sight);
        return register_at_rp(world, turn, meter, packet, register, &gathered);
    }
    stop_registering(turn, packet, name)?;
    Ok(IfSet::new())
}
