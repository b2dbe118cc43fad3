//! The message where something went wrong: one line on standard error, and the status.
ghost use Rattle.std.specs.Prelude.{◌≡◌, Some, OnOk};
ghost use Rattle.std.specs.Io.KnownBytes.{Appends};
ghost use Rattle.pim_scenario.specs.Complaints.{IsTold, line_of, scenario_refusal_number, status_of};
ghost use Rattle.pim_scenario.specs.declared.complaint.Complaint.{Complaint};

use pim_anycast::BadRpSet;
use pim_types::{Fault, Refusal};
use std::io::Write;
use std::{fmt, io};

/// Why a scenario is refused.
#[derive(Clone, Copy)]
pub enum ScenarioRefusal {
    /// Its text, or a configuration in it, fails a test.
    Tested(Refusal),
    /// A router can't have its sets of RPs that share an address.
    RpSets,
}

impl ScenarioRefusal {
    /// The number by which the refusal is known in printed lines.
    pub fn number(self) -> u8
        ensures { result ≡ scenario_refusal_number self }
    {
        match self {
            ScenarioRefusal::Tested(refusal) => refusal.number(),
            ScenarioRefusal::RpSets => BadRpSet::NUMBER,
        }
    }
}

/// What went wrong.
#[derive(Clone, Copy)]
pub enum Complaint<'a> {
    /// The command line has a mistake.
    CommandLine,
    /// The file of this name can't be read, or is no text.
    File(&'a str),
    /// The file of this name can't be written.
    Unwritten(&'a str),
    /// The scenario has no router of this name.
    Router(&'a str),
    /// The scenario is refused.
    Scenario(ScenarioRefusal),
    Fault(Fault),
}

impl Complaint<'_> {
    /// The status with which the program ends: 2 where its input is refused, 3 after a fault of the
    /// wire and where a file can't be written, 4 for want of memory.
    pub fn status(self) -> u8
        ensures { result ≡ status_of self.entry }
    {
        match self {
            Complaint::Fault(Fault::Wire) | Complaint::Unwritten(_) => 3,
            Complaint::Fault(Fault::Memory | Fault::Failed) => 4,
            Complaint::CommandLine
            | Complaint::File(_)
            | Complaint::Router(_)
            | Complaint::Scenario(_) => 2,
        }
    }

    /// Writes the line. Where writing fails a part of it may have been written.
    pub fn write_line<W: Write>(self, err: &mut W) -> io::Result<()>
        ensures { OnOk result (Appends (W.contents err.old) (W.contents err.new) (line_of self.entry)) }
    {
        err.writeln(self)
    }

    /// Writes the line and returns the status. A line that can't be written counts as a fault of the wire, whatever it
    /// was to say.
    pub fn tell<W: Write>(self, err: &mut W) -> u8
        ensures { IsTold self.entry result (W.contents err.old) (W.contents err.new) }
    {
        match self.write_line(err) {
            Ok(()) => self.status(),
            Err(_) => Complaint::Fault(Fault::Wire).status(),
        }
    }
}

impl fmt::Display for Complaint<'_> {
    ghost use Rattle.pim_scenario.specs.Complaints.{complaint_text};

    ghost output = { λ complaint. Some (complaint_text complaint) };

    fn fmt<W: fmt::Write>(&self, f: &mut fmt::Formatter<W>) -> fmt::Result {
        match self {
            Complaint::CommandLine => write!(f, "pimlab: command line refused"),
            Complaint::File(name) => write!(f, "pimlab: cannot read {name}"),
            Complaint::Unwritten(name) => write!(f, "pimlab: cannot write {name}"),
            Complaint::Router(name) => write!(f, "pimlab: no router {name}"),
            Complaint::Scenario(refusal) => {
                let number = refusal.number();
                write!(f, "pimlab: scenario refused: {number}")
            }
            Complaint::Fault(Fault::Wire) => write!(f, "pimlab: wire fault"),
            Complaint::Fault(Fault::Memory | Fault::Failed) => write!(f, "pimlab: no memory"),
        }
    }
}

/// Reports that a scenario is refused, and returns the status: 2, or as [`Complaint::tell`] says.
pub fn refused<W: Write>(err: &mut W, refusal: ScenarioRefusal) -> u8
    ensures { IsTold (Complaint.Scenario refusal) result (W.contents err.old) (W.contents err.new) }
{
    Complaint::Scenario(refusal).tell(err)
}

/// Reports a fault, and returns the status: 3 for the wire, and 4 for memory. As with [`Complaint::tell`], a line that
/// can't be written counts as a fault of the wire.
pub fn fault<W: Write>(err: &mut W, fault: Fault) -> u8
    ensures { IsTold (Complaint.Fault fault) result (W.contents err.old) (W.contents err.new) }
{
    Complaint::Fault(fault).tell(err)
}
