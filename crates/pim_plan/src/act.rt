//! What an event is to do, with all that this needs: what came with the event, and what was read for it when it was
//! planned.
use igmp_wire::{QueryView, ReportView};
use pim_downstream::{Change, Named};
use pim_ip::Ipv4View;
use pim_macros::SourceSight;
use pim_mrib::Mrib;
use pim_types::{Addr, IfaceId};
use pim_wire::{Assert, Hello, JoinPruneView, RegisterStop, RegisterView};

/// What an event does that forwards no packet. A table is in a box, so that the acts of other events are moved at little
/// cost.
#[derive(Drop)]
pub enum Control<'a> {
    /// An interface goes up.
    Up {
        iface: IfaceId,
    },
    /// An interface goes down.
    Down {
        iface: IfaceId,
    },
    /// New routes: those of the table replace the routes of the router.
    Routes {
        table: Box<Mrib>,
    },
    /// New RP ranges or candidates: those of the table replace those of the router.
    Ranges {
        table: Box<Mrib>,
    },
    /// A Hello of the neighbour with the address `from`.
    Hello {
        iface: IfaceId,
        from: Addr,
        hello: Hello,
    },
    /// A Join/Prune to the router, with the keys that it names, and what becomes of their rows.
    JoinPruneToMe {
        iface: IfaceId,
        message: JoinPruneView<'a>,
        named: Named,
        changes: Vec<Change>,
    },
    /// A Join/Prune to another router, with the keys that it names.
    JoinPruneSeen {
        iface: IfaceId,
        message: JoinPruneView<'a>,
        named: Named,
    },
    /// An Assert of the router with the address `from`.
    Assert {
        iface: IfaceId,
        from: Addr,
        assert: Assert,
    },
    /// An IGMP query of the router with the address `from`.
    Query {
        iface: IfaceId,
        from: Addr,
        query: QueryView<'a>,
    },
    /// An IGMP report.
    Report {
        iface: IfaceId,
        report: ReportView<'a>,
    },
    /// A Register-Stop of the RP with the address `from`.
    RegisterStop {
        from: Addr,
        stop: RegisterStop,
    },
}

/// What an event does.
#[derive(Drop)]
pub enum Act<'a> {
    /// A packet of data is forwarded, by what the macros of its source read. That is large, and so in a
    /// box.
    Data {
        iface: IfaceId,
        packet: Ipv4View<'a>,
        sight: Box<SourceSight>,
    },
    /// The packet inside a Register is forwarded, if there is one.
    Register {
        packet: Ipv4View<'a>,
        register: RegisterView<'a>,
    },
    /// No packet is forwarded.
    Control(Control<'a>),
}
