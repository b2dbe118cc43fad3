//! What a router learned of Bootstraps, and what it is to be given for it.
ghost use Rattle.std.specs.Prelude.{◌≡◌, filter, false, true, IfOk, IsOk, OnErr, OnOk};
ghost use Rattle.pim_model.specs.Limits.{are_candidates, are_rps};
ghost use Rattle.pim_bsr.specs.Joined.{first_end, is_due, loses, rps_event};
ghost use Rattle.pim_bsr.specs.Table.{at_time, candidates, choosing, configured, elected_at, given, gives, moves, new_known, room_beside, runs};

mod hear;
mod saved;
mod standing;

use crate::choice::Choice;
use crate::given::{candidates_by, first_end, gives, loses, moves, ranges_by};
use crate::learned::{Elected, Learned, Part};
use crate::table::Table;
use pim_types::{EventKind, RpCandidate, RpRange, Series};
pub use standing::send_own;
use std::alloc::{AllocError, Global};
use std::marker::Model;

/// The most RP ranges that a router takes.
pub const MOST_RPS: usize = 256;

/// What a router learned of Bootstraps (RFC 5059), beside its configured RP ranges.
///
/// A program that has a router behind a listener makes these calls, in this order:
///
/// - A packet on a link goes to the router. Where the router ignores it as PIM of a type that it doesn't handle, it is
///   given to [`Listener::hear`]. The packets that this adds leave first. Where it answers `Heard::Taken(true)`, the router
///   then takes [`Listener::rps_event`], with the draw of the packet's event.
/// - Time goes to a moment that the router takes: while [`Listener::first_end`] isn't later than the moment, the router
///   takes `Advance` to that end, then [`Listener::pass_to`] the end, and where that answers true the router takes
///   [`Listener::rps_event`]. Then the router takes `Advance` to the moment, and [`Listener::pass_to`] the moment. The next
///   timestamp at which time is to pass is the sooner one of the router's and [`Listener::first_end`].
/// - Other configured ranges: the router takes `Rps` with [`Listener::given_beside`] them; where it is done,
///   [`Listener::configure`] takes them. Where it [`Listener::loses_beside`] them, the router then takes
///   [`Listener::rps_event`]. A reload gives the router a configuration whose ranges are [`Listener::given_beside`] the new
///   ones, and then [`Listener::configure`] takes these as above.
/// - Another choice: after [`Listener::choose`] the router takes [`Listener::rps_event`], and then what the former choice
///   gave it is taken back: for each group by `Rps` with [`Listener::given`], for a range by `RpCandidates` with none.
/// - [`Listener::save`] gives the bytes that are saved with the router's, and [`Listener::restore`] a listener for the router
///   that is made of these. That router has the ranges and the candidates that this listener gives it. Another configuration
///   is then taken as above.
/// - A listener that goes leaves the router `Rps` with the configured ranges alone, and no candidates. One that comes is made
///   of the ranges that the router has.
#[derive(Drop)]
pub struct Listener {
    configured: Vec<RpRange>,
    limit: usize,
    choice: Choice,
    elected: Option<Elected>,
    heard: bool,
    refresh_end: u64,
    table: Table,
    last: Vec<u8>,
    last_end: u64,
}

impl Model for Listener {
    ghost use Rattle.pim_bsr.specs.Sound.{IsSoundTable};
    ghost use Rattle.pim_bsr.specs.Table.{Known};

    ghost Value = { Known };

    ghost view = { λ l. record {
      static = l.configured.items;
      limit = l.limit;
      choice = l.choice;
      elected = l.elected;
      heard = l.heard;
      refresh_end = l.refresh_end;
      table = l.table;
      last = l.last.items;
      last_end = l.last_end;
    } };

    ghost invariant = { λ l. IsSoundTable l.configured.items l.limit l.table };
}

/// For how many RPs there is room beside configured ranges.
pub(crate) fn room_beside(limit: usize, configured: &[RpRange]) -> usize
    ensures { result ≡ room_beside limit configured.now }
{
    limit.min(MOST_RPS.saturating_sub(configured.len()))
}

/// The RPs whose end is past a timestamp in ms.
fn running(alloc: Global, rps: &[Learned], moment: u64) -> Result<Vec<Learned>, AllocError>
    ensures { IfOk result (λ left. left.items ≡ filter (runs moment) rps.now) }
{
    let mut left = Vec::from_slice(alloc, rps)?;
    left.retain(|learned| moment < learned.end);
    Ok(left)
}

/// Whether there is an end, no later than a timestamp in ms.
fn is_due(end: Option<u64>, moment: u64) -> bool
    ensures { result ≡ is_due end moment }
{
    match end {
        Some(end) => end <= moment,
        None => false,
    }
}

/// The elected BSR, until its timer expires.
fn elected_at(moment: u64, elected: Option<Elected>) -> Option<Elected>
    ensures { result ≡ elected_at moment elected }
{
    match elected {
        Some(elected) if moment < elected.end => Some(elected),
        _ => None,
    }
}

impl Listener {
    /// No message came yet. At most as many RPs are kept as the limit says, and as fit beside the configured ranges into
    /// the 256 that a router takes. Until a timestamp in ms, 60 s after the router's start, one message with the No-Forward
    /// bit may count. One RP is chosen for a whole range.
    pub fn new(alloc: Global, limit: usize, configured: Vec<RpRange>, refresh_end: u64) -> Listener
        ensures { result ≡ new_known limit configured.items refresh_end }
    {
        let listener = Listener {
            configured,
            limit,
            choice: Choice::Range,
            elected: None,
            heard: false,
            refresh_end,
            table: Table::nothing(alloc),
            last: Vec::new(alloc),
            last_end: 0,
        };
        listener
    }

    /// The configured ranges.
    pub fn configured(&self) -> &[RpRange]
        ensures { result.now ≡ self.now.static }
    {
        self.configured.as_slice()
    }

    /// The RPs in force.
    pub fn rps(&self) -> &[Learned]
        ensures { result.now ≡ self.now.table.rps }
    {
        self.table.rps()
    }

    /// The RPs of messages whose other fragments haven't come.
    pub fn parts(&self) -> &[Part]
        ensures { result.now ≡ self.now.table.parts }
    {
        self.table.parts()
    }

    /// The limit on RPs that are kept.
    pub fn limit(&self) -> usize
        ensures { result ≡ self.now.limit }
    {
        self.limit
    }

    /// What an RP is chosen for.
    pub fn choice(&self) -> Choice
        ensures { result ≡ self.now.choice }
    {
        self.choice
    }

    /// Has an RP chosen for something else.
    pub fn choose(&mut self, choice: Choice)
        ensures { self.new ≡ choosing choice self.old }
    {
        self.choice = choice;
    }

    /// The elected BSR.
    pub fn elected(&self) -> Option<Elected>
        ensures { result ≡ self.now.elected }
    {
        self.elected
    }

    /// Whether the router is given an RP. Where one is chosen for a range, it is the one that is chosen of its range, which
    /// isn't configured; where one is chosen for each group, every RP is given.
    pub fn is_given(&self, learned: Learned) -> bool
        ensures { result ≡ gives self.now learned }
    {
        gives(
            self.choice,
            self.configured.as_slice(),
            self.table.rps(),
            learned,
        )
    }

    /// The RP ranges that the router is given: the configured ones, and where an RP is chosen for a range, of each learned
    /// one that isn't configured the RP that is chosen. The router takes them where it takes the configured ones alone. An
    /// `Err` is want of memory.
    pub fn given(&self, alloc: Global) -> Result<Vec<RpRange>, AllocError>
        ensures given { IfOk result (λ ranges. ranges.items ≡ given self.now) }
        ensures accepted { are_rps (given self.now) ≡ are_rps self.now.static }
    {
        ranges_by(
            alloc,
            self.choice,
            self.configured.as_slice(),
            self.table.rps(),
        )
    }

    /// The candidates that the router is given: where an RP is chosen for each group all RPs in force, else none. The router
    /// takes them. An `Err` is want of memory.
    pub fn candidates(&self, alloc: Global) -> Result<Vec<RpCandidate>, AllocError>
        ensures given { IfOk result (λ given. given.items ≡ candidates self.now) }
        ensures accepted { OnOk result (are_candidates (candidates self.now) ≡ true) }
    {
        candidates_by(alloc, self.choice, self.table.rps())
    }

    /// What brings the router the RPs that it is given: `Rps` where one is chosen for a range, `RpCandidates` where one is
    /// chosen for each group. An `Err` is want of memory.
    pub fn rps_event(&self, alloc: Global) -> Result<EventKind, AllocError>
        ensures { IfOk result (λ kind. kind ≡ rps_event self.now) }
    {
        match self.choice {
            Choice::Range => {
                let rps = Series::from_vec(self.given(alloc)?);
                Ok(EventKind::Rps { rps })
            }
            Choice::Group => {
                let candidates = Series::from_vec(self.candidates(alloc)?);
                Ok(EventKind::RpCandidates { candidates })
            }
        }
    }

    /// The RP ranges that the router is to be given beside other configured ones, under another limit. The router takes
    /// them where it takes these alone. An `Err` is want of memory.
    #[tactic(auto, using(crate::proofs::Ranges::first_of_both), unfolding(crate::specs::Table::configured))]
    pub fn given_beside(
        &self,
        alloc: Global,
        limit: usize,
        ranges: &[RpRange],
    ) -> Result<Vec<RpRange>, AllocError>
        ensures given { IfOk result (λ answer. answer.items ≡ given (configured limit ranges.now self.now)) }
        ensures accepted { are_rps (given (configured limit ranges.now self.now)) ≡ are_rps ranges.now }
    {
        let _ = &self.limit;
        let rps = self.table.rps();
        let count = rps.len().min(room_beside(limit, ranges));
        ranges_by(alloc, self.choice, ranges, &rps[..count])
    }

    /// Whether the router is to be given other candidates beside other configured ranges, under another limit: there is no
    /// room for all.
    #[tactic(auto, unfolding(crate::specs::Table::configured))]
    pub fn loses_beside(&self, limit: usize, ranges: &[RpRange]) -> bool
        ensures { result ≡ loses self.now (configured limit ranges.now self.now) }
    {
        loses(self.choice, room_beside(limit, ranges), self.table.rps())
    }

    /// Takes other configured ranges, and another limit. RPs for which there is no room are forgotten, the newest first.
    #[tactic(auto, unfolding(crate::specs::Table::configured))]
    pub fn configure(&mut self, limit: usize, ranges: Vec<RpRange>)
        ensures { self.new ≡ configured limit ranges.items self.old }
    {
        self.table.fit(room_beside(limit, ranges.as_slice()));
        self.limit = limit;
        self.configured = ranges;
    }

    /// When the first of the RPs in force expires, in ms.
    pub fn first_end(&self) -> Option<u64>
        ensures { result ≡ first_end self.now.table.rps }
    {
        first_end(self.table.rps())
    }

    // Forgets what expired by a timestamp in ms.
    #[tactic(auto, unfolding(crate::specs::Table::at_time))]
    fn forget(&mut self, moment: u64)
        ensures { self.new ≡ at_time moment self.old }
    {
        self.table.forget(moment);
        self.elected = elected_at(moment, self.elected);
    }

    // Whether the router is to be given other RPs when time passed to a timestamp in ms.
    #[tactic(auto, unfolding(crate::specs::Table::at_time))]
    fn moves_by(&self, alloc: Global, moment: u64) -> Result<bool, AllocError>
        ensures { IfOk result (λ moved. moved ≡ moves self.now (at_time moment self.now)) }
    {
        let rps = running(alloc, self.table.rps(), moment)?;
        moves(
            alloc,
            self.choice,
            self.configured.as_slice(),
            self.table.rps(),
            rps.as_slice(),
        )
    }

    /// Time passed to a timestamp in ms: what expired is forgotten. True where the router is to be given other RPs. An
    /// `Err` is want of memory, and changes nothing. Where no RP in force expired no memory is taken.
    #[tactic(auto, using(crate::proofs::Ranges::not_moved))]
    pub fn pass_to(&mut self, alloc: Global, moment: u64) -> Result<bool, AllocError>
        ensures passed { OnOk result (self.new ≡ at_time moment self.old) }
        ensures moved { IfOk result (λ moved. moved ≡ moves self.old (at_time moment self.old)) }
        ensures err { OnErr result (self.new ≡ self.old) }
        ensures sure { is_due (first_end self.old.table.rps) moment ≡ false → IsOk result }
    {
        if !is_due(self.first_end(), moment) {
            self.forget(moment);
            return Ok(false);
        }
        let moved = self.moves_by(alloc, moment)?;
        self.forget(moment);
        Ok(moved)
    }
}
