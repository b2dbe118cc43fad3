//! What a call answered.
ghost use Rattle.pim_saver.specs.Fits.{FitsAnswered};
ghost use Rattle.pim_saver.specs.Reading.{answered_at};
ghost use Rattle.pim_saver.specs.Records.{answered_text};
ghost use Rattle.std.specs.Prelude.{◌≡◌, ◌++◌, OnOk};

use crate::Saved;
use pim_saved::SavedRefusal;
use std::alloc::AllocError;

/// What a call answered.
#[derive(Clone, Copy)]
pub struct Answered {
    /// The number of the answer.
    pub answer: u32,
    /// The sum of the packets that are to be sent.
    pub sum: u32,
}

impl Saved for Answered {
    ghost text = { answered_text };

    ghost reading = { answered_at };

    ghost fits = { FitsAnswered };

    fn write(self, out: &mut Vec<u8>) -> Result<(), AllocError> {
        self.answer.write(out)?;
        self.sum.write(out)?;
        Ok(())
    }

    fn read(bytes: &[u8]) -> Result<(Answered, &[u8]), SavedRefusal> {
        let (answer, rest) = u32::read(bytes)?;
        let (sum, rest) = u32::read(rest)?;
        Ok((Answered { answer, sum }, rest))
    }
}
