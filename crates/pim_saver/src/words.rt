//! Numbers, flags and addresses.
ghost use Rattle.pim_saved.specs.Fits.{FitsAddress, FitsByte, FitsHalf, FitsMoment, FitsWord, Always};
ghost use Rattle.pim_saved.specs.Reading.{address_at, byte_at, flag_at, half_at, iface_at, moment_at, word_at};
ghost use Rattle.pim_saved.specs.Text.{address_text, byte_text, flag_text, half_text, moment_text, word_text};
ghost use Rattle.pim_saver.specs.Read.{iface_text, FitsIface};
ghost use Rattle.std.specs.Prelude.{◌≡◌, ◌<◌, ◌^◌, ◌++◌, OnOk};

use crate::saved::Saved;
use pim_ip::Addr;
use pim_saved::SavedRefusal;
use pim_types::IfaceId;
use std::alloc::AllocError;

impl Saved for u8 {
    ghost text = { byte_text };

    ghost reading = { byte_at };

    ghost fits = { FitsByte };

    fn write(self, out: &mut Vec<u8>) -> Result<(), AllocError> {
        out.push(self)?;
        Ok(())
    }

    fn read(bytes: &[u8]) -> Result<(u8, &[u8]), SavedRefusal> {
        match bytes {
            [] => Err(SavedRefusal::CutShort),
            [byte, rest @ ..] => Ok((*byte, rest)),
        }
    }
}

impl Saved for u16 {
    ghost text = { half_text };

    ghost reading = { half_at };

    ghost fits = { FitsHalf };

    fn write(self, out: &mut Vec<u8>) -> Result<(), AllocError> {
        out.extend_from_slice(&self.to_be_bytes())?;
        Ok(())
    }

    fn read(bytes: &[u8]) -> Result<(u16, &[u8]), SavedRefusal> {
        if bytes.len() < 2 {
            return Err(SavedRefusal::CutShort);
        }
        let (front, rest) = bytes.split_at(2);
        Ok((u16::from_be_bytes([front[0], front[1]]), rest))
    }
}

impl Saved for u32 {
    ghost text = { word_text };

    ghost reading = { word_at };

    ghost fits = { FitsWord };

    fn write(self, out: &mut Vec<u8>) -> Result<(), AllocError> {
        out.extend_from_slice(&self.to_be_bytes())?;
        Ok(())
    }

    fn read(bytes: &[u8]) -> Result<(u32, &[u8]), SavedRefusal> {
        if bytes.len() < 4 {
            return Err(SavedRefusal::CutShort);
        }
        let (front, rest) = bytes.split_at(4);
        Ok((
            u32::from_be_bytes([front[0], front[1], front[2], front[3]]),
            rest,
        ))
    }
}

impl Saved for u64 {
    ghost text = { moment_text };

    ghost reading = { moment_at };

    ghost fits = { FitsMoment };

    fn write(self, out: &mut Vec<u8>) -> Result<(), AllocError> {
        out.extend_from_slice(&self.to_be_bytes())?;
        Ok(())
    }

    fn read(bytes: &[u8]) -> Result<(u64, &[u8]), SavedRefusal> {
        if bytes.len() < 8 {
            return Err(SavedRefusal::CutShort);
        }
        let (front, rest) = bytes.split_at(8);
        let number = u64::from_be_bytes([
            front[0], front[1], front[2], front[3], front[4], front[5], front[6], front[7],
        ]);
        Ok((number, rest))
    }
}

impl Saved for bool {
    ghost text = { flag_text };

    ghost reading = { flag_at };

    ghost fits = { Always };

    fn write(self, out: &mut Vec<u8>) -> Result<(), AllocError> {
        if self {
            out.push(1)?;
        } else {
            out.push(0)?;
        }
        Ok(())
    }

    fn read(bytes: &[u8]) -> Result<(bool, &[u8]), SavedRefusal> {
        match bytes {
            [] => Err(SavedRefusal::CutShort),
            [0, rest @ ..] => Ok((false, rest)),
            [1, rest @ ..] => Ok((true, rest)),
            [_, ..] => Err(SavedRefusal::OutOfRange),
        }
    }
}

impl Saved for Addr {
    ghost text = { address_text };

    ghost reading = { address_at };

    ghost fits = { FitsAddress };

    fn write(self, out: &mut Vec<u8>) -> Result<(), AllocError> {
        self.bits.write(out)?;
        Ok(())
    }

    fn read(bytes: &[u8]) -> Result<(Addr, &[u8]), SavedRefusal> {
        let (bits, rest) = u32::read(bytes)?;
        Ok((Addr { bits }, rest))
    }
}

impl Saved for IfaceId {
    ghost text = { iface_text };

    ghost reading = { iface_at };

    ghost fits = { FitsIface };

    fn write(self, out: &mut Vec<u8>) -> Result<(), AllocError> {
        self.number.write(out)?;
        Ok(())
    }

    fn read(bytes: &[u8]) -> Result<(IfaceId, &[u8]), SavedRefusal> {
        let (number, rest) = u32::read(bytes)?;
        Ok((IfaceId { number }, rest))
    }
}
