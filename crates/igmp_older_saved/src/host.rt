//! The row of a group of older hosts as it is saved.
ghost use Rattle.igmp_older.specs.Modes.{running};
ghost use Rattle.igmp_older_saved.specs.Hosts.{host_told, is_ahead, is_running, resumed_row};
ghost use Rattle.igmp_older_saved.specs.Reading.{host_at};
ghost use Rattle.igmp_older_saved.specs.Text.{host_text, FitsHost};
ghost use Rattle.pim_saved.specs.Fits.{FitsEnd};
ghost use Rattle.pim_saved.specs.Reading.{end_at};
ghost use Rattle.pim_saved.specs.Text.{end_text};
ghost use Rattle.pim_saver.specs.Read.{read};
ghost use Rattle.std.specs.Prelude.{◌≡◌, ◌++◌, OnOk};

use igmp_older::PresentRow;
use pim_saved::SavedRefusal;
use pim_saver::Saved;
use std::alloc::AllocError;

/// [Older Host Present Interval] (RFC 3376, section 8.13) is at most this, in ms: 7 times a query interval of 31,744 s, and
/// a response interval of 3,174.4 s.
const LONGEST_INTERVAL: u64 = 225_382_400;

/// Which of a group's Older Version Host Present timers run, by when they expire, in ms.
#[derive(Clone, Copy)]
pub struct HostRow {
    pub one_end: Option<u64>,
    pub two_end: Option<u64>,
}

// Puts an expiry at the end, if there is one.
fn write_end(end: Option<u64>, out: &mut Vec<u8>) -> Result<(), AllocError>
    ensures ok { OnOk result (out.new.items ≡ out.old.items ++ end_text end) }
    ensures fitting { OnOk result (FitsEnd end) }
{
    match end {
        None => out.push(0)?,
        Some(end) => {
            out.push(1)?;
            end.write(out)?;
        }
    }
    Ok(())
}

// Reads an expiry, if there is one.
fn read_end(bytes: &[u8]) -> Result<(Option<u64>, &[u8]), SavedRefusal>
    ensures { read result ≡ end_at bytes.now }
{
    match bytes {
        [] => Err(SavedRefusal::CutShort),
        [0, rest @ ..] => Ok((None, rest)),
        [1, rest @ ..] => {
            let (end, rest) = u64::read(rest)?;
            Ok((Some(end), rest))
        }
        [_, ..] => Err(SavedRefusal::OutOfRange),
    }
}

impl Saved for HostRow {
    ghost text = { host_text };

    ghost reading = { host_at };

    ghost fits = { FitsHost };

    #[tactic(auto, unfolding(crate::specs::Text::host_text))]
    fn write(self, out: &mut Vec<u8>) -> Result<(), AllocError> {
        write_end(self.one_end, out)?;
        write_end(self.two_end, out)?;
        Ok(())
    }

    #[tactic(auto, unfolding(crate::specs::Reading::host_at))]
    fn read(bytes: &[u8]) -> Result<(HostRow, &[u8]), SavedRefusal> {
        let (one_end, rest) = read_end(bytes)?;
        let (two_end, rest) = read_end(rest)?;
        Ok((HostRow { one_end, two_end }, rest))
    }
}

// When a timer expires, if it runs at a timestamp.
fn running(moment: u64, end: u64) -> Option<u64>
    ensures { result ≡ running moment end }
{
    if moment < end { Some(end) } else { None }
}

// Whether a timer, if it runs, expires later than a timestamp, and no later than in the longest interval.
fn is_ahead(moment: u64, end: Option<u64>) -> bool
    ensures { result ≡ is_ahead moment end }
{
    match end {
        None => true,
        Some(end) => moment < end && end - moment <= LONGEST_INTERVAL,
    }
}

impl HostRow {
    /// What is saved of a group's timers at a timestamp.
    pub(crate) fn told(moment: u64, row: PresentRow) -> HostRow
        ensures { result ≡ host_told moment row }
    {
        HostRow {
            one_end: running(moment, row.one_end),
            two_end: running(moment, row.two_end),
        }
    }

    /// Whether a timer runs at a timestamp, and none that runs has expired or expires too late.
    #[tactic(auto, unfolding(crate::specs::Hosts::is_running))]
    pub(crate) fn is_running(self, moment: u64) -> bool
        ensures { result ≡ is_running moment self }
    {
        if self.one_end.is_none() && self.two_end.is_none() {
            return false;
        }
        is_ahead(moment, self.one_end) && is_ahead(moment, self.two_end)
    }

    /// The timers that run from then on. The row is looked at when time passes.
    pub(crate) fn resumed(self) -> PresentRow
        ensures { result ≡ resumed_row self }
    {
        PresentRow {
            one_end: self.one_end.unwrap_or(0),
            two_end: self.two_end.unwrap_or(0),
            look: 0,
        }
    }
}
