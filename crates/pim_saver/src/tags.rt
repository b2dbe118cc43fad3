//! Values of a few kinds, each behind its tag.
ghost use Rattle.pim_saved.specs.Fits.{Always, FitsQuerierRole, FitsRegisterState};
ghost use Rattle.pim_saved.specs.Reading.{assert_role_of, flag_at, made, querier_role_at, register_state_at, spt_of};
ghost use Rattle.pim_saved.specs.Text.{assert_role_text, querier_role_text, register_state_text, spt_text};
ghost use Rattle.std.specs.Prelude.{◌≡◌, ◌++◌, OnOk};

use crate::saved::Saved;
use pim_saved::SavedRefusal;
use pim_types::SptSwitch;
use pim_types::fact::{AssertRole, QuerierRole, RegisterState};
use std::alloc::AllocError;

impl Saved for SptSwitch {
    ghost text = { spt_text };

    ghost reading = { made spt_of flag_at };

    ghost fits = { Always };

    fn write(self, out: &mut Vec<u8>) -> Result<(), AllocError> {
        match self {
            SptSwitch::Always => out.push(0)?,
            SptSwitch::Never => out.push(1)?,
        }
        Ok(())
    }

    fn read(bytes: &[u8]) -> Result<(SptSwitch, &[u8]), SavedRefusal> {
        let (is_never, rest) = bool::read(bytes)?;
        if is_never {
            return Ok((SptSwitch::Never, rest));
        }
        Ok((SptSwitch::Always, rest))
    }
}

impl Saved for AssertRole {
    ghost text = { assert_role_text };

    ghost reading = { made assert_role_of flag_at };

    ghost fits = { Always };

    fn write(self, out: &mut Vec<u8>) -> Result<(), AllocError> {
        match self {
            AssertRole::Winner => out.push(0)?,
            AssertRole::Loser => out.push(1)?,
        }
        Ok(())
    }

    fn read(bytes: &[u8]) -> Result<(AssertRole, &[u8]), SavedRefusal> {
        let (is_loser, rest) = bool::read(bytes)?;
        if is_loser {
            return Ok((AssertRole::Loser, rest));
        }
        Ok((AssertRole::Winner, rest))
    }
}

impl Saved for QuerierRole {
    ghost text = { querier_role_text };

    ghost reading = { querier_role_at };

    ghost fits = { FitsQuerierRole };

    fn write(self, out: &mut Vec<u8>) -> Result<(), AllocError> {
        match self {
            QuerierRole::Querier {
                next_query,
                startup_left,
            } => {
                out.push(0)?;
                next_query.write(out)?;
                startup_left.write(out)
            }
            QuerierRole::NonQuerier { end } => {
                out.push(1)?;
                end.write(out)
            }
        }
    }

    fn read(bytes: &[u8]) -> Result<(QuerierRole, &[u8]), SavedRefusal> {
        match bytes {
            [] => Err(SavedRefusal::CutShort),
            [0, rest @ ..] => {
                let (next_query, rest) = u64::read(rest)?;
                let (startup_left, rest) = u8::read(rest)?;
                Ok((
                    QuerierRole::Querier {
                        next_query,
                        startup_left,
                    },
                    rest,
                ))
            }
            [1, rest @ ..] => {
                let (end, rest) = u64::read(rest)?;
                Ok((QuerierRole::NonQuerier { end }, rest))
            }
            [_, ..] => Err(SavedRefusal::OutOfRange),
        }
    }
}

impl Saved for RegisterState {
    ghost text = { register_state_text };

    ghost reading = { register_state_at };

    ghost fits = { FitsRegisterState };

    fn write(self, out: &mut Vec<u8>) -> Result<(), AllocError> {
        match self {
            RegisterState::Join => {
                out.push(0)?;
                Ok(())
            }
            RegisterState::JoinPending { end } => {
                out.push(1)?;
                end.write(out)
            }
            RegisterState::Prune { end } => {
                out.push(2)?;
                end.write(out)
            }
        }
    }

    fn read(bytes: &[u8]) -> Result<(RegisterState, &[u8]), SavedRefusal> {
        match bytes {
            [] => Err(SavedRefusal::CutShort),
            [0, rest @ ..] => Ok((RegisterState::Join, rest)),
            [1, rest @ ..] => {
                let (end, rest) = u64::read(rest)?;
                Ok((RegisterState::JoinPending { end }, rest))
            }
            [2, rest @ ..] => {
                let (end, rest) = u64::read(rest)?;
                Ok((RegisterState::Prune { end }, rest))
            }
            [_, ..] => Err(SavedRefusal::OutOfRange),
        }
    }
}
