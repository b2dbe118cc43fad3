//! The messages of one event, in their order, and how they leave.
ghost use Rattle.std.specs.Prelude.{◌≡◌, ◌↔◌, ◌+◌, ◌^◌, ◌<◌, ◌≤◌, [], ◌∷◌, ◌++◌, length, take, map, All, IsTrue, IsOkUnless, IfOk, OnOk, OnErr};
ghost use Rattle.std.specs.Option.{option_map_or};
ghost use Rattle.igmp_wire.specs.Written.{query_with};
ghost use Rattle.pim_model.specs.Messages.{Message as ModelMessage};
ghost use Rattle.pim_model.specs.Writing.{all_written, is_hello_owed, written};
ghost use Rattle.pim_messages.specs.Sendable.{message_of, messages_of, IsSendable};

use crate::message::{Assert, JoinPrune, Message, Query, RegisterMessage};
use crate::packet::{hello_packet, packet_of};
use crate::room::Room;
use igmp_wire::QueryHeader;
use pim_ifaces::Interfaces;
use pim_types::fact::AssertMetric;
use pim_types::{Addr, Emission, Fault, Hop, IfaceId, Series, SourceGroup};
use pim_wire::Entry;
use std::alloc::{AllocError, Global};
use std::marker::Model;

/// The most entries of a Join/Prune, joins and prunes together: with them its packet has 1494 bytes,
/// and a link carries 1500.
pub const MOST_ENTRIES: usize = 181;

/// The most sources of a query: with them its packet has 1500 bytes.
pub const MOST_SOURCES: usize = 366;

/// Messages that are to be sent, in their order.
#[derive(Drop)]
pub struct Outbox {
    alloc: Global,
    messages: Vec<Message>,
}

impl Model for Outbox {
    ghost use Rattle.std.specs.Prelude.{List, All};
    ghost use Rattle.pim_model.specs.Messages.{Message};

    ghost Value = { List Message };

    ghost use Rattle.pim_messages.specs.Sendable.{messages_of, IsSendable};

    ghost view = { λ o. messages_of o.messages.items };

    ghost invariant = { λ o. All IsSendable o.messages.items };
}

impl Outbox {
    /// No messages; it takes no memory until one is put in.
    pub fn new(alloc: Global) -> Outbox
        ensures { result ≡ [] }
    {
        Outbox {
            alloc,
            messages: Vec::new(alloc),
        }
    }

    /// Whether there is no message.
    pub fn is_empty(&self) -> bool
        ensures { IsTrue result ↔ (self.now ≡ []) }
    {
        self.messages.is_empty()
    }

    fn push(&mut self, message: Message) -> Result<(), AllocError>
        requires { IsSendable message }
        ensures ok { OnOk result (self.new ≡ self.old ++ message_of message ∷ []) }
        ensures err { OnErr result (self.new ≡ self.old) }
    {
        self.messages.push(message)?;
        Ok(())
    }

    /// Puts a Hello on the interface at the end. An `Err` changes nothing.
    pub fn hello(&mut self, iface: IfaceId) -> Result<(), AllocError>
        ensures ok { OnOk result (self.new ≡ self.old ++ ModelMessage.Hello iface.number ∷ []) }
        ensures err { OnErr result (self.new ≡ self.old) }
    {
        self.push(Message::Hello(iface))
    }

    /// Puts a Join/Prune to the neighbour, for one group, at the end: at most 181 joins and prunes
    /// together, in their order. An `Err` changes nothing.
    pub fn join_prune(
        &mut self,
        upstream: Hop,
        group: Addr,
        joins: &[Entry],
        prunes: &[Entry],
    ) -> Result<(), AllocError>
        requires { length joins.now + length prunes.now ≤ MOST_ENTRIES }
        ensures ok { OnOk result (self.new ≡ self.old
            ++ ModelMessage.JoinPrune upstream.iface.number upstream.address.bits group.bits joins.now prunes.now ∷ []) }
        ensures err { OnErr result (self.new ≡ self.old) }
    {
        let joins = Series::from_vec(Vec::from_slice(self.alloc, joins)?);
        let prunes = Series::from_vec(Vec::from_slice(self.alloc, prunes)?);
        self.push(Message::JoinPrune(JoinPrune {
            upstream,
            group,
            joins,
            prunes,
        }))
    }

    /// Puts an Assert about the source, or without one about the group, at the end. The preference has
    /// 31 bits. An `Err` changes nothing.
    pub fn assert(
        &mut self,
        iface: IfaceId,
        group: Addr,
        source: Option<Addr>,
        metric: AssertMetric,
    ) -> Result<(), AllocError>
        requires { metric.preference < 2 ^ 31 }
        ensures ok { OnOk result (self.new ≡ self.old
            ++ ModelMessage.Assert iface.number group.bits (option_map_or (λ a. a.bits) source 0) metric ∷ []) }
        ensures err { OnErr result (self.new ≡ self.old) }
    {
        self.push(Message::Assert(Assert {
            iface,
            group,
            source,
            metric,
        }))
    }

    /// Puts a query on the interface at the end: with a robustness variable below 8 and at most 366 sources, in their
    /// order. One for group 0.0.0.0 queries all groups. An `Err` changes nothing.
    pub fn query(
        &mut self,
        iface: IfaceId,
        header: &QueryHeader,
        sources: &[Addr],
    ) -> Result<(), AllocError>
        requires robustness { header.now.robustness < 8 }
        requires sources { length sources.now ≤ MOST_SOURCES }
        ensures ok { OnOk result (self.new ≡ self.old
            ++ ModelMessage.Query iface.number (query_with header.now sources.now) ∷ []) }
        ensures err { OnErr result (self.new ≡ self.old) }
    {
        let sources = Series::from_vec(Vec::from_slice(self.alloc, sources)?);
        self.push(Message::Query(Query {
            iface,
            header: *header,
            sources,
        }))
    }

    /// Puts a Register-Stop at the end, from one of the router's addresses to a DR. An `Err` changes
    /// nothing.
    pub fn register_stop(
        &mut self,
        from: Addr,
        to: Addr,
        name: SourceGroup,
    ) -> Result<(), AllocError>
        ensures ok { OnOk result (self.new ≡ self.old
            ++ ModelMessage.RegisterStop from.bits to.bits name.group.bits name.source.bits ∷ []) }
        ensures err { OnErr result (self.new ≡ self.old) }
    {
        self.push(Message::RegisterStop(RegisterMessage { from, to, name }))
    }

    /// Puts a Null-Register at the end, from one of the router's addresses to an RP. An `Err` changes
    /// nothing.
    pub fn null_register(
        &mut self,
        from: Addr,
        to: Addr,
        name: SourceGroup,
    ) -> Result<(), AllocError>
        ensures ok { OnOk result (self.new ≡ self.old
            ++ ModelMessage.NullRegister from.bits to.bits name.source.bits name.group.bits ∷ []) }
        ensures err { OnErr result (self.new ≡ self.old) }
    {
        self.push(Message::NullRegister(RegisterMessage { from, to, name }))
    }

    /// Puts the packets of all messages, in their order, at the end of the emissions. A Hello that is owed goes
    /// directly before the next Join/Prune or Assert on its interface, and any Hello counts as the owed one. After an
    /// `Err` some of the packets are there, and some Hellos may count as sent. What is configured is unchanged.
    pub fn write(
        &self,
        room: &mut Room,
        interfaces: &mut Interfaces,
        emissions: &mut Vec<Emission>,
    ) -> Result<(), Fault>
        ensures sent { OnOk result (emissions.new.items ≡ emissions.old.items ++ (all_written interfaces.old self.now).1) }
        ensures paid { OnOk result (interfaces.new ≡ (all_written interfaces.old self.now).0) }
        ensures configured { interfaces.new.configured ≡ interfaces.old.configured }
        ensures fault { IsOkUnless result Fault.Memory }
    {
        write_each(room, &self.messages, interfaces, emissions)?;
        Ok(())
    }
}

/// Puts the packets of messages at the end.
fn write_each(
    room: &mut Room,
    messages: &[Message],
    interfaces: &mut Interfaces,
    emissions: &mut Vec<Emission>,
) -> Result<(), AllocError>
    requires { All IsSendable messages.now }
    ensures sent { OnOk result (emissions.new.items
        ≡ emissions.old.items ++ (all_written interfaces.old (messages_of messages.now)).1) }
    ensures paid { OnOk result (interfaces.new ≡ (all_written interfaces.old (messages_of messages.now)).0) }
    ensures configured { interfaces.new.configured ≡ interfaces.old.configured }
{
    for message in messages {
        write_message(room, message, interfaces, emissions)?;
    }
    Ok(())
}

/// Puts the packet of a message at the end, with the Hello that is owed before it.
#[tactic(auto, unfolding(pim_model::specs::Writing::written, pim_model::specs::Writing::with_owed_hello, pim_model::specs::Writing::hello_paid, pim_model::specs::Writing::emission_of))]
fn write_message(
    room: &mut Room,
    message: &Message,
    interfaces: &mut Interfaces,
    emissions: &mut Vec<Emission>,
) -> Result<(), AllocError>
    requires { IsSendable message.now }
    ensures sent { OnOk result (emissions.new.items
        ≡ emissions.old.items ++ (written interfaces.old (message_of message.now)).1) }
    ensures paid { OnOk result (interfaces.new ≡ (written interfaces.old (message_of message.now)).0) }
    ensures configured { interfaces.new.configured ≡ interfaces.old.configured }
{
    let packet = packet_of(room, interfaces, message)?;
    if let Some(iface) = message.announced_on()
        && is_hello_owed(interfaces, iface)
    {
        emissions.push(hello_packet(room, interfaces, iface)?)?;
        interfaces.pay_hello(iface)?;
    }
    emissions.push(packet)?;
    if let Message::Hello(iface) = message {
        interfaces.pay_hello(*iface)?;
    }
    Ok(())
}

/// Whether a Hello goes before the next Join/Prune or Assert on the interface.
fn is_hello_owed(interfaces: &Interfaces, iface: IfaceId) -> bool
    ensures { result ≡ is_hello_owed interfaces.now iface.number }
{
    interfaces.row(iface).is_some_and(|row| row.is_hello_owed)
}
