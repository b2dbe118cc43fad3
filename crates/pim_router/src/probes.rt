//! The meter of events, and meters for what is read outside of events.
ghost use Rattle.std.specs.Prelude.{◌≡◌};

use pim_meter::{Auditor, Meter, close};

/// The one meter of a router's events. The auditor stays with the router: no event is lent it, so that an event can
/// neither make a meter nor set one back.
pub(crate) struct Probes {
    auditor: Auditor,
    /// The nodes that the last event visited.
    pub(crate) meter: Meter,
}

// Drops probes by ending the meter with the auditor and closing the auditor, since neither may be dropped itself.
impl Drop for Probes {
    fn drop(self) {
        let Probes { auditor, meter } = self;
        auditor.end(meter);
        close(auditor);
    }
}

impl Probes {
    /// No event was taken: the count is 0.
    pub(crate) fn new() -> Probes
        ensures { result.meter ≡ 0 }
    {
        let auditor = Auditor::new();
        let meter = auditor.meter();
        Probes { auditor, meter }
    }

    /// An event begins: none of its nodes is visited.
    pub(crate) fn begin(&mut self)
        ensures { self.new.meter ≡ 0 }
    {
        self.auditor.begin(&mut self.meter);
    }

    /// A meter for what is read outside of events.
    pub(crate) fn outside(&self) -> Outside<'_> {
        Outside {
            auditor: &self.auditor,
            meter: self.auditor.meter(),
        }
    }
}

/// A meter for what is read outside of events. It ends where this is dropped, and no user sees its count.
pub(crate) struct Outside<'a> {
    auditor: &'a Auditor,
    pub(crate) meter: Meter,
}

impl Drop for Outside<'_> {
    fn drop(self) {
        let Outside { auditor, meter } = self;
        auditor.end(meter);
    }
}
