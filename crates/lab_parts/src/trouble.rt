//! What ends a run early, with its status and its message.
use pim_scenario::{ScenarioRefusal, fault, refused};
use pim_types::{Fault, Refusal};
use std::alloc::{AllocError, AllocFailed};
use std::io::{self, Write};

/// What ends a run before its last move.
#[derive(Clone, Copy)]
pub enum Trouble {
    Refused(ScenarioRefusal),
    Fault(Fault),
}

impl Trouble {
    ghost use Rattle.lab_parts.specs.Troubles.{complaint_of};
    ghost use Rattle.pim_scenario.specs.Complaints.{IsTold};

    /// Writes the message, and returns the status of the program.
    pub fn tell<E: Write>(self, err: &mut E) -> u8
        ensures { IsTold (complaint_of self) result (E.contents err.old) (E.contents err.new) }
    {
        match self {
            Trouble::Refused(refusal) => refused(err, refusal),
            Trouble::Fault(what) => fault(err, what),
        }
    }
}

impl From<Refusal> for Trouble {
    ghost use Rattle.std.specs.Prelude.{◌≡◌};
    ghost use Rattle.lab_parts.specs.declared.trouble.Trouble.{Trouble};
    ghost use Rattle.pim_scenario.specs.declared.complaint.ScenarioRefusal.{ScenarioRefusal};

    ghost from_gives = { λ refusal trouble. trouble ≡ Trouble.Refused (ScenarioRefusal.Tested refusal) };

    fn from(refusal: Refusal) -> Trouble {
        Trouble::Refused(ScenarioRefusal::Tested(refusal))
    }
}

impl From<Fault> for Trouble {
    ghost use Rattle.std.specs.Prelude.{◌≡◌};
    ghost use Rattle.lab_parts.specs.declared.trouble.Trouble.{Trouble};

    ghost from_gives = { λ fault trouble. trouble ≡ Trouble.Fault fault };

    fn from(fault: Fault) -> Trouble {
        Trouble::Fault(fault)
    }
}

impl From<AllocError> for Trouble {
    ghost use Rattle.pim_ip.specs.declared.fault.Fault.{Fault};
    ghost use Rattle.std.specs.Prelude.{◌≡◌};
    ghost use Rattle.lab_parts.specs.declared.trouble.Trouble.{Trouble};

    ghost from_gives = { λ _ trouble. trouble ≡ Trouble.Fault Fault.Memory };

    fn from(_refused: AllocError) -> Trouble {
        Trouble::Fault(Fault::Memory)
    }
}

impl<T: Drop> From<AllocFailed<T>> for Trouble {
    ghost use Rattle.pim_ip.specs.declared.fault.Fault.{Fault};
    ghost use Rattle.std.specs.Prelude.{◌≡◌};
    ghost use Rattle.lab_parts.specs.declared.trouble.Trouble.{Trouble};

    ghost from_gives = { λ _ trouble. trouble ≡ Trouble.Fault Fault.Memory };

    fn from(_refused: AllocFailed<T>) -> Trouble {
        Trouble::Fault(Fault::Memory)
    }
}

impl From<io::Error> for Trouble {
    ghost use Rattle.pim_ip.specs.declared.fault.Fault.{Fault};
    ghost use Rattle.std.specs.Prelude.{◌≡◌};
    ghost use Rattle.lab_parts.specs.declared.trouble.Trouble.{Trouble};

    ghost from_gives = { λ _ trouble. trouble ≡ Trouble.Fault Fault.Wire };

    // A line that can't be written counts as a fault of the wire.
    fn from(_unwritten: io::Error) -> Trouble {
        Trouble::Fault(Fault::Wire)
    }
}
