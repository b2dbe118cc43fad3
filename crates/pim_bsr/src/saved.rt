//! What is learned of Bootstraps, as it is saved.
ghost use Rattle.pim_bsr.specs.Reading.{candidate_at, elected_at, election_at, learned_at, part_at};
ghost use Rattle.pim_bsr.specs.Text.{candidate_text, elected_text, election_text, learned_text, part_text, FitsCandidate, FitsElected, FitsElection, FitsLearned, FitsPart};
ghost use Rattle.pim_saved.specs.Fits.{FitsOption};
ghost use Rattle.pim_saved.specs.Reading.{option_at};
ghost use Rattle.pim_saved.specs.Text.{option_text};
ghost use Rattle.pim_saver.specs.Read.{read};
ghost use Rattle.std.specs.Prelude.{◌≡◌, ◌++◌, OnOk};

use crate::learned::{Elected, Learned, Part};
use pim_bootstrap::CandidateRp;
use pim_ip::{Addr, Prefix};
use pim_saved::SavedRefusal;
use pim_saver::Saved;
use std::alloc::AllocError;

/// Which messages may count: the elected BSR; whether one was accepted, and until when, in ms, one with the No-Forward bit
/// may be.
#[derive(Clone, Copy)]
pub(crate) struct Election {
    pub(crate) elected: Option<Elected>,
    pub(crate) heard: bool,
    pub(crate) refresh_end: u64,
}

impl Saved for Learned {
    ghost text = { learned_text };

    ghost reading = { learned_at };

    ghost fits = { FitsLearned };

    #[tactic(auto, unfolding(crate::specs::Text::learned_text))]
    fn write(self, out: &mut Vec<u8>) -> Result<(), AllocError> {
        self.prefix.write(out)?;
        self.hash_length.write(out)?;
        self.rp.write(out)?;
        self.priority.write(out)?;
        self.end.write(out)?;
        Ok(())
    }

    #[tactic(auto, unfolding(crate::specs::Reading::learned_at))]
    fn read(bytes: &[u8]) -> Result<(Learned, &[u8]), SavedRefusal> {
        let (prefix, rest) = Prefix::read(bytes)?;
        let (hash_length, rest) = u8::read(rest)?;
        let (rp, rest) = Addr::read(rest)?;
        let (priority, rest) = u8::read(rest)?;
        let (end, rest) = u64::read(rest)?;
        let learned = Learned {
            prefix,
            hash_length,
            rp,
            priority,
            end,
        };
        Ok((learned, rest))
    }
}

// Puts a candidate RP at the end.
#[tactic(auto, unfolding(crate::specs::Text::candidate_text))]
fn write_candidate(candidate: CandidateRp, out: &mut Vec<u8>) -> Result<(), AllocError>
    ensures ok { OnOk result (out.new.items ≡ out.old.items ++ candidate_text candidate) }
    ensures fitting { OnOk result (FitsCandidate candidate) }
{
    candidate.address.write(out)?;
    candidate.holdtime.write(out)?;
    candidate.priority.write(out)?;
    Ok(())
}

// Reads a candidate RP.
#[tactic(auto, unfolding(crate::specs::Reading::candidate_at))]
fn read_candidate(bytes: &[u8]) -> Result<(CandidateRp, &[u8]), SavedRefusal>
    ensures { read result ≡ candidate_at bytes.now }
{
    let (address, rest) = Addr::read(bytes)?;
    let (holdtime, rest) = u16::read(rest)?;
    let (priority, rest) = u8::read(rest)?;
    let candidate = CandidateRp {
        address,
        holdtime,
        priority,
    };
    Ok((candidate, rest))
}

impl Saved for Part {
    ghost text = { part_text };

    ghost reading = { part_at };

    ghost fits = { FitsPart };

    #[tactic(auto, unfolding(crate::specs::Text::part_text))]
    fn write(self, out: &mut Vec<u8>) -> Result<(), AllocError> {
        self.prefix.write(out)?;
        write_candidate(self.rp, out)?;
        self.bsr.write(out)?;
        self.tag.write(out)?;
        self.until.write(out)?;
        Ok(())
    }

    #[tactic(auto, unfolding(crate::specs::Reading::part_at))]
    fn read(bytes: &[u8]) -> Result<(Part, &[u8]), SavedRefusal> {
        let (prefix, rest) = Prefix::read(bytes)?;
        let (rp, rest) = read_candidate(rest)?;
        let (bsr, rest) = Addr::read(rest)?;
        let (tag, rest) = u16::read(rest)?;
        let (until, rest) = u64::read(rest)?;
        let part = Part {
            prefix,
            rp,
            bsr,
            tag,
            until,
        };
        Ok((part, rest))
    }
}

impl Saved for Elected {
    ghost text = { elected_text };

    ghost reading = { elected_at };

    ghost fits = { FitsElected };

    #[tactic(auto, unfolding(crate::specs::Text::elected_text))]
    fn write(self, out: &mut Vec<u8>) -> Result<(), AllocError> {
        let Elected { bsr, priority, end } = self;
        bsr.write(out)?;
        priority.write(out)?;
        end.write(out)?;
        Ok(())
    }

    #[tactic(auto, unfolding(crate::specs::Reading::elected_at))]
    fn read(bytes: &[u8]) -> Result<(Elected, &[u8]), SavedRefusal> {
        let (bsr, rest) = Addr::read(bytes)?;
        let (priority, rest) = u8::read(rest)?;
        let (end, rest) = u64::read(rest)?;
        Ok((Elected { bsr, priority, end }, rest))
    }
}

// Puts the elected BSR at the end, if there is one.
fn write_elected(elected: Option<Elected>, out: &mut Vec<u8>) -> Result<(), AllocError>
    ensures ok { OnOk result (out.new.items ≡ out.old.items ++ option_text elected_text elected) }
    ensures fitting { OnOk result (FitsOption FitsElected elected) }
{
    match elected {
        None => out.push(0)?,
        Some(elected) => {
            out.push(1)?;
            elected.write(out)?;
        }
    }
    Ok(())
}

// Reads the elected BSR, if there is one.
fn read_elected(bytes: &[u8]) -> Result<(Option<Elected>, &[u8]), SavedRefusal>
    ensures { read result ≡ option_at elected_at bytes.now }
{
    match bytes {
        [] => Err(SavedRefusal::CutShort),
        [0, rest @ ..] => Ok((None, rest)),
        [1, rest @ ..] => {
            let (elected, rest) = Elected::read(rest)?;
            Ok((Some(elected), rest))
        }
        [_, ..] => Err(SavedRefusal::OutOfRange),
    }
}

impl Saved for Election {
    ghost text = { election_text };

    ghost reading = { election_at };

    ghost fits = { FitsElection };

    #[tactic(auto, unfolding(crate::specs::Text::election_text))]
    fn write(self, out: &mut Vec<u8>) -> Result<(), AllocError> {
        write_elected(self.elected, out)?;
        self.heard.write(out)?;
        self.refresh_end.write(out)?;
        Ok(())
    }

    #[tactic(auto, unfolding(crate::specs::Reading::election_at))]
    fn read(bytes: &[u8]) -> Result<(Election, &[u8]), SavedRefusal> {
        let (elected, rest) = read_elected(bytes)?;
        let (heard, rest) = bool::read(rest)?;
        let (refresh_end, rest) = u64::read(rest)?;
        let election = Election {
            elected,
            heard,
            refresh_end,
        };
        Ok((election, rest))
    }
}
