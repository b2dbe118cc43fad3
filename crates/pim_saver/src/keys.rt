//! The key of every fact.
ghost use Rattle.pim_saved.specs.Fits.{FitsKey};
ghost use Rattle.pim_saved.specs.Reading.{key_at};
ghost use Rattle.pim_saved.specs.Text.{key_text};
ghost use Rattle.std.specs.Prelude.{◌≡◌, ◌++◌, OnOk};

use crate::option::{read_option, write_option};
use crate::saved::Saved;
use pim_ip::Addr;
use pim_saved::SavedRefusal;
use pim_types::{IfaceId, Key};
use std::alloc::AllocError;

impl Saved for Key {
    ghost text = { key_text };

    ghost reading = { key_at };

    ghost fits = { FitsKey };

    #[tactic(auto, unfolding(pim_saved::specs::Text::key_text))]
    fn write(self, out: &mut Vec<u8>) -> Result<(), AllocError> {
        self.iface.write(out)?;
        self.group.write(out)?;
        write_option(self.source, out)?;
        self.rpt.write(out)?;
        Ok(())
    }

    #[tactic(auto, unfolding(pim_saved::specs::Reading::key_at))]
    fn read(bytes: &[u8]) -> Result<(Key, &[u8]), SavedRefusal> {
        let (iface, rest) = IfaceId::read(bytes)?;
        let (group, rest) = Addr::read(rest)?;
        let (source, rest) = read_option(rest)?;
        let (rpt, rest) = bool::read(rest)?;
        Ok((
            Key {
                iface,
                group,
                source,
                rpt,
            },
            rest,
        ))
    }
}
