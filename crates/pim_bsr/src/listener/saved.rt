//! A listener as bytes, and one made of them.
ghost use Rattle.std.specs.Prelude.{◌≡◌, ◌++◌, [], IfOk, Ok, OnErr, OnOk};
ghost use Rattle.pim_bsr.specs.Reading.{is_sound, restored, restored_if};
ghost use Rattle.pim_bsr.specs.Text.{configured_of, configured_text, front_text, known_text, last_of, last_text, said_of, said_text, FitsConfigured, FitsKnown, FitsLast, FitsSaid};
ghost use Rattle.pim_bsr.specs.Views.{known_view};

use super::Listener;
use crate::reading::{
    SavedKnown, SavedMessage, SavedRanges, SavedSaid, TAG, read_known, version_of,
};
use crate::refusal::ListenerRefusal;
use crate::saved::Election;
use crate::sound::is_sound;
use pim_saver::{ReadFault, Saved, write_list, write_sum};
use std::alloc::{AllocError, Global};

impl Listener {
    // Puts the configured ranges and the limit at the end.
    #[tactic(auto, unfolding(crate::specs::Text::configured_text))]
    fn write_configured(&self, out: &mut Vec<u8>) -> Result<(), AllocError>
        ensures ok { OnOk result (out.new.items ≡ out.old.items ++ configured_text (configured_of self.now)) }
        ensures fitting { OnOk result (FitsConfigured (configured_of self.now)) }
    {
        let limit = self.limit as u64;
        write_list(self.configured.as_slice(), out)?;
        limit.write(out)?;
        Ok(())
    }

    // Puts what messages said at the end.
    #[tactic(auto, unfolding(crate::specs::Text::said_text, crate::specs::Text::table_text))]
    fn write_said(&self, out: &mut Vec<u8>) -> Result<(), AllocError>
        ensures ok { OnOk result (out.new.items ≡ out.old.items ++ said_text (said_of self.now)) }
        ensures fitting { OnOk result (FitsSaid (said_of self.now)) }
    {
        let election = Election {
            elected: self.elected,
            heard: self.heard,
            refresh_end: self.refresh_end,
        };
        election.write(out)?;
        write_list(self.table.rps(), out)?;
        write_list(self.table.parts(), out)?;
        Ok(())
    }

    // Puts the last message at the end.
    #[tactic(auto, unfolding(crate::specs::Text::last_text))]
    fn write_last(&self, out: &mut Vec<u8>) -> Result<(), AllocError>
        ensures ok { OnOk result (out.new.items ≡ out.old.items ++ last_text (last_of self.now)) }
        ensures fitting { OnOk result (FitsLast (last_of self.now)) }
    {
        write_list(self.last.as_slice(), out)?;
        self.last_end.write(out)?;
        Ok(())
    }

    // Puts all bytes but for their sum at the end.
    #[tactic(auto, unfolding(crate::specs::Text::front_text, crate::specs::Text::body_text))]
    fn write_front(&self, out: &mut Vec<u8>) -> Result<(), AllocError>
        ensures ok { OnOk result (out.new.items ≡ out.old.items ++ front_text self.now) }
        ensures fitting { OnOk result (FitsKnown self.now) }
    {
        TAG.write(out)?;
        version_of(self.choice).write(out)?;
        self.write_configured(out)?;
        self.write_said(out)?;
        self.write_last(out)?;
        Ok(())
    }

    /// Adds the bytes of all that the listener knows after those that are there. A listener that is made of them knows the
    /// same. An `Err` is want of memory, and changes nothing.
    #[tactic(auto, unfolding(crate::specs::Text::known_text))]
    pub fn save(&self, out: &mut Vec<u8>) -> Result<(), AllocError>
        ensures saved { OnOk result (out.new.items ≡ out.old.items ++ known_text self.now) }
        ensures again { OnOk result (restored (known_text self.now) ≡ Ok self.now) }
        ensures err { OnErr result (out.new.items ≡ out.old.items) }
    {
        // It tells that what is known is sound.
        let _ = &self.limit;
        let mut bytes = Vec::new(*out.allocator());
        self.write_front(&mut bytes)?;
        write_sum(0, &mut bytes)?;
        out.append(&mut bytes)?;
        Ok(())
    }

    // A listener that knows what was read, where it can.
    fn of_saved(
        alloc: Global,
        known: SavedKnown,
    ) -> Result<Result<Listener, ListenerRefusal>, AllocError>
        ensures { IfOk result (λ made. made ≡ restored_if (is_sound (known_view known)) (known_view known)) }
    {
        if !is_sound(alloc, &known)? {
            return Ok(Err(ListenerRefusal::RpsNotHeld));
        }
        let SavedKnown {
            choice,
            configured: SavedRanges { ranges, limit },
            learned: SavedSaid { election, table },
            last: SavedMessage { bytes, end },
        } = known;
        let listener = Listener {
            configured: ranges,
            limit: limit as usize,
            choice,
            elected: election.elected,
            heard: election.heard,
            refresh_end: election.refresh_end,
            table,
            last: bytes,
            last_end: end,
        };
        Ok(Ok(listener))
    }

    /// A listener that knows what the one knew whose bytes these are, its configured ranges too. What expired meanwhile is
    /// forgotten when time passes. Other bytes are refused, by the first fault from the left but for the sum, which is
    /// compared behind the version. An `Err` is want of memory.
    #[tactic(auto, unfolding(crate::specs::Reading::restored))]
    pub fn restore(
        alloc: Global,
        bytes: &[u8],
    ) -> Result<Result<Listener, ListenerRefusal>, AllocError>
        ensures { IfOk result (λ made. made ≡ restored bytes.now) }
    {
        match read_known(alloc, bytes) {
            Ok(known) => Listener::of_saved(alloc, known),
            Err(ReadFault::Memory) => Err(AllocError),
            Err(ReadFault::Refused(refusal)) => Ok(Err(ListenerRefusal::Bytes(refusal))),
        }
    }
}
