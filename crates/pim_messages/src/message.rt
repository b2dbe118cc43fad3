//! The messages that machines send, before they are bytes.
use igmp_wire::QueryHeader;
use pim_types::fact::AssertMetric;
use pim_types::{Addr, Hop, IfaceId, Series, SourceGroup};
use pim_wire::Entry;

/// A Join/Prune to a neighbour for one group (RFC 7761, section 4.9.5).
#[derive(Drop)]
pub(crate) struct JoinPrune {
    pub(crate) upstream: Hop,
    pub(crate) group: Addr,
    pub(crate) joins: Series<Entry>,
    pub(crate) prunes: Series<Entry>,
}

/// An Assert about a source, or without one about the group (RFC 7761, section 4.9.6).
#[derive(Clone, Copy)]
pub(crate) struct Assert {
    pub(crate) iface: IfaceId,
    pub(crate) group: Addr,
    pub(crate) source: Option<Addr>,
    pub(crate) metric: AssertMetric,
}

/// A membership query (RFC 3376, section 4.1).
#[derive(Drop)]
pub(crate) struct Query {
    pub(crate) iface: IfaceId,
    pub(crate) header: QueryHeader,
    pub(crate) sources: Series<Addr>,
}

/// A Register-Stop (RFC 7761, section 4.9.4) or a Null-Register (section 4.9.3) between the RP and
/// the DR of a source.
#[derive(Clone, Copy)]
pub(crate) struct RegisterMessage {
    pub(crate) from: Addr,
    pub(crate) to: Addr,
    pub(crate) name: SourceGroup,
}

/// A message that is to be sent.
#[derive(Drop)]
pub(crate) enum Message {
    /// A Hello on an interface (RFC 7761, section 4.9.2).
    Hello(IfaceId),
    JoinPrune(JoinPrune),
    Assert(Assert),
    Query(Query),
    RegisterStop(RegisterMessage),
    NullRegister(RegisterMessage),
}

impl Message {
    ghost use Rattle.std.specs.Prelude.{◌≡◌};
    ghost use Rattle.pim_messages.specs.Sendable.{announced_on};

    /// The interface whose owed Hello goes before the message.
    pub(crate) fn announced_on(&self) -> Option<IfaceId>
        ensures { result ≡ announced_on self.now }
    {
        match self {
            Message::JoinPrune(message) => Some(message.upstream.iface),
            Message::Assert(message) => Some(message.iface),
            _ => None,
        }
    }
}
