//! The result of judging an event: what the router is to act on.
use igmp_wire::{QueryView, ReportView};
use pim_ip::{Addr, Ipv4View};
use pim_types::{IfaceId, Lent, Route, RpTable};
use pim_wire::{Assert, Hello, JoinPruneView, RegisterStop, RegisterView};

/// An event that passed its tests, but for that of the limit on facts, with what was read of its packet. A view borrows
/// from the event.
#[derive(Drop)]
pub enum Accepted<'a> {
    Advance {
        moment: u64,
    },
    Up {
        iface: IfaceId,
    },
    Down {
        iface: IfaceId,
    },
    Routes {
        routes: Lent<'a, Route>,
    },
    /// New RP ranges beside the candidates that there are, or new candidates beside the ranges.
    Rps {
        ranges: RpTable,
    },
    Hello {
        iface: IfaceId,
        from: Addr,
        hello: Hello,
    },
    /// A Join/Prune from a neighbour to the router.
    JoinPruneToMe {
        iface: IfaceId,
        message: JoinPruneView<'a>,
    },
    /// A Join/Prune from a neighbour to another router.
    JoinPruneSeen {
        iface: IfaceId,
        message: JoinPruneView<'a>,
    },
    Assert {
        iface: IfaceId,
        from: Addr,
        assert: Assert,
    },
    Query {
        iface: IfaceId,
        from: Addr,
        query: QueryView<'a>,
    },
    Report {
        iface: IfaceId,
        report: ReportView<'a>,
    },
    /// A packet of data.
    Data {
        iface: IfaceId,
        packet: Ipv4View<'a>,
    },
    /// A Register, with the packet that it came in.
    Register {
        packet: Ipv4View<'a>,
        register: RegisterView<'a>,
    },
    RegisterStop {
        from: Addr,
        stop: RegisterStop,
    },
}
