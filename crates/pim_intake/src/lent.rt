//! Events whose packets, routes, ranges and candidates are borrowed.
ghost use Rattle.std.specs.Prelude.{◌≡◌, IfSome, None, false};
ghost use Rattle.pim_intake.specs.Lent.{event_kind};
ghost use Rattle.pim_intake.specs.Memory.{is_frame};
ghost use Rattle.pim_types.specs.declared.event.EventKind.{EventKind as EventValue};

use pim_types::{Event, EventKind, IfaceId, Lent, Route, RpCandidate, RpRange};
use std::marker::Model;

/// What happens to a router in one step, and what it brings.
#[derive(Drop)]
pub enum LentKind<'a> {
    Advance { moment: u64 },
    Frame { iface: IfaceId, bytes: Lent<'a, u8> },
    Unicast { bytes: Lent<'a, u8> },
    Up { iface: IfaceId },
    Down { iface: IfaceId },
    Routes { routes: Lent<'a, Route> },
    Rps { rps: Lent<'a, RpRange> },
    RpCandidates { candidates: Lent<'a, RpCandidate> },
}

/// An event that owns nothing: a clause sees the event that it stands for.
#[derive(Drop)]
pub struct LentEvent<'a> {
    draw: u32,
    pub(crate) kind: LentKind<'a>,
}

impl<'a> Model for LentEvent<'a> {
    ghost use Rattle.pim_intake.specs.Lent.{event_kind};
    ghost use Rattle.pim_types.specs.declared.event.Event.{Event};

    ghost Value = { Event };

    ghost view = { λ e. record { draw = e.draw; kind = event_kind e.kind } };
}

impl<'a> LentEvent<'a> {
    /// The event itself.
    #[tactic(auto, unfolding(crate::specs::Lent::event_kind))]
    pub fn of(event: &'a Event) -> LentEvent<'a>
        ensures { result ≡ event.now }
    {
        let kind = match &event.kind {
            EventKind::Advance { moment } => LentKind::Advance { moment: *moment },
            EventKind::Frame { iface, bytes } => LentKind::Frame {
                iface: *iface,
                bytes: Lent::of(bytes.as_slice()),
            },
            EventKind::Unicast { bytes } => LentKind::Unicast {
                bytes: Lent::of(bytes.as_slice()),
            },
            EventKind::Up { iface } => LentKind::Up { iface: *iface },
            EventKind::Down { iface } => LentKind::Down { iface: *iface },
            EventKind::Routes { routes } => LentKind::Routes {
                routes: Lent::of(routes.as_slice()),
            },
            EventKind::Rps { rps } => LentKind::Rps {
                rps: Lent::of(rps.as_slice()),
            },
            EventKind::RpCandidates { candidates } => LentKind::RpCandidates {
                candidates: Lent::of(candidates.as_slice()),
            },
        };
        LentEvent {
            draw: event.draw,
            kind,
        }
    }

    /// A packet that came on an interface.
    #[tactic(auto, unfolding(crate::specs::Lent::event_kind))]
    pub fn frame(draw: u32, iface: IfaceId, packet: &'a [u8]) -> LentEvent<'a>
        ensures { result ≡ record { draw = draw; kind = EventValue.Frame iface packet.now } }
    {
        let bytes = Lent::of(packet);
        LentEvent {
            draw,
            kind: LentKind::Frame { iface, bytes },
        }
    }

    /// A packet that came for an address of the router.
    #[tactic(auto, unfolding(crate::specs::Lent::event_kind))]
    pub fn unicast(draw: u32, packet: &'a [u8]) -> LentEvent<'a>
        ensures { result ≡ record { draw = draw; kind = EventValue.Unicast packet.now } }
    {
        let bytes = Lent::of(packet);
        LentEvent {
            draw,
            kind: LentKind::Unicast { bytes },
        }
    }

    /// The interface and the bytes of a packet that came on a link, if the event is one.
    #[tactic(auto, unfolding(crate::specs::Lent::event_kind))]
    pub fn as_frame(&self) -> Option<(IfaceId, &'a [u8])>
        ensures frame { IfSome result (λ frame. self.now.kind ≡ EventValue.Frame frame.0 frame.1.now) }
        ensures other { result ≡ None → is_frame self.now.kind ≡ false }
    {
        match &self.kind {
            LentKind::Frame { iface, bytes } => Some((*iface, bytes.as_slice())),
            _ => None,
        }
    }

    /// What happens, and what it brings.
    pub fn kind(&self) -> &LentKind<'a>
        ensures { event_kind result.now ≡ self.now.kind }
    {
        &self.kind
    }

    /// The number from which its random delays are drawn.
    pub fn draw(&self) -> u32
        ensures { result ≡ self.now.draw }
    {
        self.draw
    }
}
