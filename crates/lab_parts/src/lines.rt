//! The lines of a move, which are written together.
ghost use Rattle.std.specs.Io.KnownBytes.{Appends};
ghost use Rattle.std.specs.Prelude.{◌≡◌, [], OnOk};

use std::alloc::{AllocError, Global};
use std::fmt;
use std::io::{self, Write};
use std::marker::Model;

/// Whole lines that aren't written yet.
#[derive(Drop)]
pub struct Lines {
    bytes: Vec<u8>,
}

/// Lines show their text.
impl Model for Lines {
    ghost use Rattle.std.specs.Prelude.{List, ℕ};

    ghost Value = { List ℕ };

    ghost view = { λ lines. lines.bytes.items };
}

impl Lines {
    /// No lines yet.
    pub fn new(alloc: Global) -> Lines
        ensures { result ≡ [] }
    {
        Lines {
            bytes: Vec::new(alloc),
        }
    }

    /// Adds a line at the end. The error is want of memory; what was written of the line is then removed.
    pub fn push<L: fmt::Display + Drop>(&mut self, line: L) -> Result<(), AllocError> {
        let whole = self.bytes.len();
        match self.bytes.writeln(line) {
            Ok(()) => Ok(()),
            Err(_) => {
                self.bytes.truncate(whole);
                Err(AllocError)
            }
        }
    }

    /// Writes all lines, and keeps none.
    pub fn write_to<O: Write>(&mut self, out: &mut O) -> io::Result<()>
        ensures written { OnOk result (Appends (O.contents out.old) (O.contents out.new) self.old) }
        ensures none { OnOk result (self.new ≡ []) }
    {
        out.write_all(&self.bytes)?;
        self.bytes.clear();
        out.flush()
    }
}
