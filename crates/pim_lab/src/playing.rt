//! Scenarios played from their text.
ghost use Rattle.pim_ip.specs.declared.fault.Fault.{Fault};
ghost use Rattle.pim_lab.specs.Statuses.{IsAccepted, IsFault, IsRefused, Stops};
ghost use Rattle.pim_scenario.specs.Complaints.{line_of};
ghost use Rattle.pim_scenario.specs.Scenario.{IsReadFrom};
ghost use Rattle.pim_scenario.specs.declared.complaint.Complaint.{Complaint};
ghost use Rattle.pim_scenario.specs.declared.complaint.ScenarioRefusal.{ScenarioRefusal};
ghost use Rattle.std.specs.Io.KnownBytes.{Appends};
ghost use Rattle.std.specs.Prelude.{◌≡◌, ◌⊎◌, IfErr, IfOk, OnOk, codes};

use crate::lab::Lab;
use lab_parts::{Lines, Trouble};
use pim_net::{MemoryWire, Wire};
use pim_scenario::{Scenario, ScenarioMove, Tables, fault, read_scenario};
use pim_types::{Fault, Series};
use std::alloc::Global;
use std::io::{self, Write};

/// Does the moves of a scenario over its routers, whose frames this wire carries. For each move its answer is printed,
/// and then each packet that left; at the end the routers' tables, if they are requested. The status is 0; 2 where the
/// text or a configuration is refused; 3 after a fault of the wire or where a line can't be written; 4 for want of
/// memory. What went wrong is written to `err`.
pub fn play<W: Wire, O: Write, E: Write>(
    alloc: Global,
    text: &str,
    wire: W,
    tables: bool,
    out: &mut O,
    err: &mut E,
) -> u8
    ensures status { (result ≡ 0) ⊎ (result ≡ 2) ⊎ (result ≡ 3) ⊎ (result ≡ 4) }
    ensures done { result ≡ 0 → IsAccepted text.now × (err.new ≡ err.old) }
    ensures refused { result ≡ 2 → (r : ScenarioRefusal) × IsRefused text.now r
        × Appends (E.contents err.old) (E.contents err.new) (line_of (Complaint.Scenario r)) }
    ensures memory { result ≡ 4
        → Appends (E.contents err.old) (E.contents err.new) (line_of (Complaint.Fault Fault.Memory)) }
    ensures silent { (IsAccepted text.now → ⊥) → out.new ≡ out.old }
{
    let tables = Tables {
        after_each: false,
        at_end: tables,
    };
    play_with(alloc, text, wire, tables, out, err)
}

/// Plays a scenario as [`play`], with tables: after each answer and its packets those of the router that answered; at
/// the end those of all routers; both, or none.
pub fn play_with<W: Wire, O: Write, E: Write>(
    alloc: Global,
    text: &str,
    wire: W,
    tables: Tables,
    out: &mut O,
    err: &mut E,
) -> u8
    ensures status { (result ≡ 0) ⊎ (result ≡ 2) ⊎ (result ≡ 3) ⊎ (result ≡ 4) }
    ensures done { result ≡ 0 → IsAccepted text.now × (err.new ≡ err.old) }
    ensures refused { result ≡ 2 → (r : ScenarioRefusal) × IsRefused text.now r
        × Appends (E.contents err.old) (E.contents err.new) (line_of (Complaint.Scenario r)) }
    ensures memory { result ≡ 4
        → Appends (E.contents err.old) (E.contents err.new) (line_of (Complaint.Fault Fault.Memory)) }
    ensures silent { (IsAccepted text.now → ⊥) → out.new ≡ out.old }
{
    let Opened { lab, moves } = match open_scenario(alloc, text, wire, tables.after_each) {
        Ok(opened) => opened,
        Err(trouble) => return trouble.tell(err),
    };
    match run(alloc, lab, moves, tables.at_end, out) {
        Ok(()) => 0,
        Err(trouble) => trouble.tell(err),
    }
}

/// Reads a scenario, makes its routers, and prints `ok`. The status is as that of [`play`].
pub fn check_text<O: Write, E: Write>(alloc: Global, text: &str, out: &mut O, err: &mut E) -> u8
    ensures status { (result ≡ 0) ⊎ (result ≡ 2) ⊎ (result ≡ 3) ⊎ (result ≡ 4) }
    ensures done { result ≡ 0 → IsAccepted text.now
        × Appends (O.contents out.old) (O.contents out.new) (codes "ok\n") × (err.new ≡ err.old) }
    ensures refused { result ≡ 2 → (r : ScenarioRefusal) × IsRefused text.now r
        × Appends (E.contents err.old) (E.contents err.new) (line_of (Complaint.Scenario r)) × (out.new ≡ out.old) }
    ensures memory { result ≡ 4 → Appends (E.contents err.old) (E.contents err.new)
        (line_of (Complaint.Fault Fault.Memory)) × (out.new ≡ out.old) }
    ensures silent { (IsAccepted text.now → ⊥) → out.new ≡ out.old }
{
    if let Err(trouble) = check(alloc, text) {
        return trouble.tell(err);
    }
    match write_ok(out) {
        Ok(()) => 0,
        Err(_) => fault(err, Fault::Wire),
    }
}

// Prints `ok`, and flushes it.
fn write_ok<O: Write>(out: &mut O) -> io::Result<()>
    ensures { OnOk result (Appends (O.contents out.old) (O.contents out.new) (codes "ok\n")) }
{
    out.writeln("ok")?;
    out.flush()
}

// Whether a scenario is accepted, over a wire in memory that nothing uses.
fn check(alloc: Global, text: &str) -> Result<(), Trouble>
    ensures accepted { OnOk result (IsAccepted text.now) }
    ensures trouble { IfErr result (λ t. Stops text.now t) }
{
    open_scenario(alloc, text, MemoryWire::new(alloc), false)?;
    Ok(())
}

/// The routers and the moves of a scenario that is accepted.
#[derive(Drop)]
pub(crate) struct Opened<W> {
    pub(crate) lab: Lab<W>,
    pub(crate) moves: Series<ScenarioMove>,
}

pub(crate) fn open_scenario<W: Wire>(
    alloc: Global,
    text: &str,
    wire: W,
    tables_each: bool,
) -> Result<Opened<W>, Trouble>
    ensures accepted { OnOk result (IsAccepted text.now) }
    ensures trouble { IfErr result (λ t. Stops text.now t) }
{
    let Scenario { routers, moves } = read(alloc, text)?;
    let lab = Lab::open(alloc, routers, wire, tables_each)?;
    Ok(Opened { lab, moves })
}

fn read(alloc: Global, text: &str) -> Result<Scenario, Trouble>
    ensures read { IfOk result (λ s. IsReadFrom text.now s) }
    ensures trouble { IfErr result (λ t. Stops text.now t) }
{
    Ok(read_scenario(alloc, text)??)
}

// Does the moves, one after the other, and prints the tables. What can fail borrows the lab, so the lab is dropped in
// one place.
fn run<W: Wire, O: Write>(
    alloc: Global,
    lab: Lab<W>,
    moves: Series<ScenarioMove>,
    tables: bool,
    out: &mut O,
) -> Result<(), Trouble>
    ensures { IfErr result (λ t. IsFault t) }
{
    let mut lab = lab;
    let mut lines = Lines::new(alloc);
    play_moves(&mut lab, moves, &mut lines, out)?;
    if tables {
        print_tables(&lab, &mut lines, out)?;
    }
    Ok(())
}

pub(crate) fn play_moves<W: Wire, O: Write>(
    lab: &mut Lab<W>,
    moves: Series<ScenarioMove>,
    lines: &mut Lines,
    out: &mut O,
) -> Result<(), Trouble>
    ensures { IfErr result (λ t. IsFault t) }
{
    for (place, step) in moves.into_vec().into_iter().enumerate() {
        make_move(lab, place.saturating_add(1), step, lines, out)?;
    }
    Ok(())
}

// Does a move. Its lines are written before the next move begins, and before an early end is reported.
fn make_move<W: Wire, O: Write>(
    lab: &mut Lab<W>,
    number: usize,
    step: ScenarioMove,
    lines: &mut Lines,
    out: &mut O,
) -> Result<(), Trouble>
    ensures { IfErr result (λ t. IsFault t) }
{
    let made = lab.make(number, step, lines);
    lines.write_to(out)?;
    made
}

pub(crate) fn print_tables<W: Wire, O: Write>(
    lab: &Lab<W>,
    lines: &mut Lines,
    out: &mut O,
) -> Result<(), Trouble>
    ensures { IfErr result (λ t. IsFault t) }
{
    let printed = lab.print_tables(lines);
    lines.write_to(out)?;
    printed
}
