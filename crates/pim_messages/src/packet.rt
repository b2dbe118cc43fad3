//! Each message as the packet that leaves.
ghost use Rattle.std.specs.Prelude.{◌≡◌, ◌+◌, ◌%◌, ◌^◌, ◌<◌, ◌≤◌, length, IfOk};
ghost use Rattle.pim_messages.specs.Sendable.{message_of, AssertFits, IsSendable, JoinPruneFits, QueryFits};
ghost use Rattle.pim_model.specs.State.{address_among, value_among};
ghost use Rattle.pim_model.specs.Writing.{emission_of, hello_emission, pim_on_link, pim_to, query_destination};
ghost use Rattle.pim_wire.specs.Registers.{null_register_text, register_stop_text};

use crate::message::{Assert, JoinPrune, Message, Query, RegisterMessage};
use crate::room::Room;
use igmp_wire::write_query;
use pim_ifaces::Interfaces;
use pim_ip::{write_igmp_packet, write_pim_packet};
use pim_types::fact::AssertMetric;
use pim_types::{Addr, Emission, IfaceId, InterfaceConfig, Series};
use pim_wire::{
    write_assert, write_hello, write_join_prune, write_null_register, write_register_stop,
};
use std::alloc::AllocError;

/// The time to live of a PIM message that stays on its link.
const LINK_TIME_TO_LIVE: u8 = 1;

/// The time to live of a PIM message to an address.
const UNICAST_TIME_TO_LIVE: u8 = 64;

/// What is configured of the interface.
fn config_of(interfaces: &Interfaces, iface: IfaceId) -> InterfaceConfig
    ensures address { result.address.bits ≡ address_among interfaces.now.configured iface.number }
    ensures priority { result.priority ≡ value_among (λ c. c.priority) interfaces.now.configured iface.number }
    ensures propagation_delay { result.propagation_delay
        ≡ value_among (λ c. c.propagation_delay) interfaces.now.configured iface.number }
    ensures override_interval { result.override_interval
        ≡ value_among (λ c. c.override_interval) interfaces.now.configured iface.number }
{
    interfaces
        .config(iface)
        .unwrap_or(InterfaceConfig::UNCONFIGURED)
}

/// A PIM message to all routers of the link.
#[tactic(auto, unfolding(pim_model::specs::Writing::pim_on_link))]
fn pim_on_link(
    room: &mut Room,
    interfaces: &Interfaces,
    iface: IfaceId,
    text: &[u8],
) -> Result<Emission, AllocError>
    requires { 20 + length text.now < 2 ^ 16 }
    ensures { IfOk result (λ e. e ≡ pim_on_link interfaces.now iface.number text.now) }
{
    let source = config_of(interfaces, iface).address;
    let mut packet = room.buffer();
    write_pim_packet(
        LINK_TIME_TO_LIVE,
        source,
        Addr::ALL_PIM_ROUTERS,
        text,
        &mut packet,
    )?;
    let bytes = Series::from_vec(packet);
    Ok(Emission::Link { iface, bytes })
}

/// A PIM message to an address.
#[tactic(auto, unfolding(pim_model::specs::Writing::pim_to))]
pub(crate) fn pim_to(
    room: &mut Room,
    from: Addr,
    to: Addr,
    text: &[u8],
) -> Result<Emission, AllocError>
    requires { 20 + length text.now < 2 ^ 16 }
    ensures { IfOk result (λ e. e ≡ pim_to from.bits to.bits text.now) }
{
    let mut packet = room.buffer();
    write_pim_packet(UNICAST_TIME_TO_LIVE, from, to, text, &mut packet)?;
    let bytes = Series::from_vec(packet);
    Ok(Emission::Unicast {
        destination: to,
        bytes,
    })
}

/// A delay in ms as a Hello announces it, in 16 bits: a configured one has no more.
fn announced_delay(delay: u32) -> u16
    ensures { result ≡ delay % 65536 }
{
    (delay % 65536) as u16
}

/// The Hello of the interface.
#[tactic(auto, using(crate::proofs::Lengths::text_lengths, crate::proofs::Delays::hello_text_low_bits), unfolding(pim_model::specs::Writing::hello_emission))]
pub(crate) fn hello_packet(
    room: &mut Room,
    interfaces: &Interfaces,
    iface: IfaceId,
) -> Result<Emission, AllocError>
    ensures { IfOk result (λ e. e ≡ hello_emission interfaces.now iface.number) }
{
    let config = config_of(interfaces, iface);
    let generation = interfaces.row(iface).map_or(0, |row| row.generation);
    let propagation_delay = announced_delay(config.propagation_delay);
    let override_interval = announced_delay(config.override_interval);
    let mut text = room.buffer();
    write_hello(
        propagation_delay,
        override_interval,
        config.priority,
        generation,
        &mut text,
    )?;
    let packet = pim_on_link(room, interfaces, iface, &text)?;
    room.give(text);
    Ok(packet)
}

// The packet of a Join/Prune, to ALL-PIM-ROUTERS on its interface.
#[tactic(auto, using(crate::proofs::Lengths::text_lengths), unfolding(pim_model::specs::Writing::emission_of))]
fn join_prune_packet(
    room: &mut Room,
    interfaces: &Interfaces,
    message: &JoinPrune,
) -> Result<Emission, AllocError>
    requires { JoinPruneFits message.now }
    ensures { IfOk result
        (λ e. e ≡ emission_of interfaces.now (message_of (Message.JoinPrune message.now))) }
{
    let joins = message.joins.as_slice();
    let prunes = message.prunes.as_slice();
    let mut text = room.buffer();
    write_join_prune(
        message.upstream.address,
        message.group,
        joins,
        prunes,
        &mut text,
    )?;
    let packet = pim_on_link(room, interfaces, message.upstream.iface, &text)?;
    room.give(text);
    Ok(packet)
}

// The packet of an Assert, to ALL-PIM-ROUTERS on its interface.
#[tactic(auto, using(crate::proofs::Lengths::text_lengths), unfolding(pim_model::specs::Writing::emission_of))]
fn assert_packet(
    room: &mut Room,
    interfaces: &Interfaces,
    message: &Assert,
) -> Result<Emission, AllocError>
    requires { AssertFits message.now }
    ensures { IfOk result
        (λ e. e ≡ emission_of interfaces.now (message_of (Message.Assert message.now))) }
{
    let AssertMetric {
        rpt,
        preference,
        metric,
        ..
    } = message.metric;
    let source = message.source.unwrap_or(Addr::NONE);
    let mut text = room.buffer();
    write_assert(message.group, source, rpt, preference, metric, &mut text)?;
    let packet = pim_on_link(room, interfaces, message.iface, &text)?;
    room.give(text);
    Ok(packet)
}

/// Where a query for the group goes: one for all groups, 0.0.0.0, to all systems, any other to its group.
fn query_destination(group: Addr) -> Addr
    ensures { result.bits ≡ query_destination group.bits }
{
    if group.bits == 0 {
        Addr::ALL_SYSTEMS
    } else {
        group
    }
}

// The packet of an IGMPv3 query, to all systems or to its group, on its interface.
#[tactic(auto, using(crate::proofs::Lengths::text_lengths), unfolding(pim_model::specs::Writing::emission_of))]
fn query_packet(
    room: &mut Room,
    interfaces: &Interfaces,
    message: &Query,
) -> Result<Emission, AllocError>
    requires { QueryFits message.now }
    ensures { IfOk result
        (λ e. e ≡ emission_of interfaces.now (message_of (Message.Query message.now))) }
{
    let mut text = room.buffer();
    write_query(&mut text, &message.header, message.sources.as_slice())?;
    let source = config_of(interfaces, message.iface).address;
    let destination = query_destination(message.header.group);
    let mut packet = room.buffer();
    write_igmp_packet(source, destination, &text, &mut packet)?;
    room.give(text);
    Ok(Emission::Link {
        iface: message.iface,
        bytes: Series::from_vec(packet),
    })
}

// The unicast packet of a Register-Stop, to the router that sent the Register.
#[tactic(auto, using(crate::proofs::Lengths::text_lengths))]
fn register_stop_packet(room: &mut Room, message: &RegisterMessage) -> Result<Emission, AllocError>
    ensures { IfOk result (λ e. e ≡ pim_to message.now.from.bits message.now.to.bits
        (register_stop_text message.now.name.group.bits message.now.name.source.bits)) }
{
    let mut text = room.buffer();
    write_register_stop(message.name.group, message.name.source, &mut text)?;
    let packet = pim_to(room, message.from, message.to, &text)?;
    room.give(text);
    Ok(packet)
}

// The unicast packet of a Null-Register, to RP(G).
#[tactic(auto, using(crate::proofs::Lengths::text_lengths))]
fn null_register_packet(room: &mut Room, message: &RegisterMessage) -> Result<Emission, AllocError>
    ensures { IfOk result (λ e. e ≡ pim_to message.now.from.bits message.now.to.bits
        (null_register_text message.now.name.source.bits message.now.name.group.bits)) }
{
    let mut text = room.buffer();
    write_null_register(message.name.source, message.name.group, &mut text)?;
    let packet = pim_to(room, message.from, message.to, &text)?;
    room.give(text);
    Ok(packet)
}

/// The message as a packet.
#[tactic(auto, unfolding(pim_model::specs::Writing::emission_of))]
pub(crate) fn packet_of(
    room: &mut Room,
    interfaces: &Interfaces,
    message: &Message,
) -> Result<Emission, AllocError>
    requires { IsSendable message.now }
    ensures { IfOk result (λ e. e ≡ emission_of interfaces.now (message_of message.now)) }
{
    match message {
        Message::Hello(iface) => hello_packet(room, interfaces, *iface),
        Message::JoinPrune(message) => join_prune_packet(room, interfaces, message),
        Message::Assert(message) => assert_packet(room, interfaces, message),
        Message::Query(message) => query_packet(room, interfaces, message),
        Message::RegisterStop(message) => register_stop_packet(room, message),
        Message::NullRegister(message) => null_register_packet(room, message),
    }
}
