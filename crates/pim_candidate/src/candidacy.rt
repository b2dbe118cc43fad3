//! A router that stands as a BSR, as an RP, or as both (RFC 5059), beside a listener.
ghost use Rattle.std.specs.Prelude.{◌≡◌, ◌^◌, ◌≤◌, not, option_copied, option_map, IfOk};
ghost use Rattle.pim_bsr.specs.Laws.{is_taken};
ghost use Rattle.pim_candidate.specs.Candidacy.{bsr_end, bsr_of, candidacy_end, election_of, followed, head_of, hastened_if, most_held, new_candidacy, of_heard, rp_end, rp_standing, sooner, stands_of, stood, under_next_tag, with_election};

mod hear;
mod passing;
mod telling;

use crate::advertising::Advertising;
use crate::election::{Bsr, Election};
use crate::rp_set::{Gone, Held, RpSet};
use pim_bootstrap::BootstrapHead;
use pim_bsr::{Elected, Heard, Listener, Why};
use pim_ip::{Addr, Prefix, Refusal};
use std::alloc::{AllocError, Global};
use std::marker::Model;

/// A candidate BSR.
#[derive(Clone, Copy)]
pub struct StandsAsBsr {
    /// An address of the router, and the priority; the higher number is preferred.
    pub bsr: Bsr,
    /// The length of the hash function's mask that is said, 0 to 32.
    pub hash_length: u8,
    /// How many RPs of ranges it holds, 1 to 255.
    pub limit: usize,
}

/// A candidate RP.
#[derive(Drop)]
pub struct StandsAsRp {
    /// An address of the router.
    pub address: Addr,
    /// The lower number is preferred.
    pub priority: u8,
    /// The ranges of groups, 1 to [`MOST_ADVERTISED_RANGES`], each within 224.0.0.0/4 and without host bits. With others no
    /// BSR takes the advertisement.
    pub ranges: Vec<Prefix>,
}

/// The most ranges of a candidate RP: so many are said in a packet of 1,500 bytes.
pub const MOST_ADVERTISED_RANGES: usize = 183;

/// What became of a packet.
#[derive(Clone, Copy, PartialEq, Eq, Debug)]
pub enum CandidacyHeard {
    /// It is no message that is heard.
    Other,
    /// It can't be read as one.
    Refused(Refusal),
    /// It is a Bootstrap that doesn't count.
    Ignored(Why),
    /// It is an advertisement, and the router isn't the elected BSR.
    NotElected,
    /// It is a Bootstrap that counts. True where the router is to be given other RPs.
    Taken(bool),
    /// It is a Bootstrap of less weight, which is sent on: no BSR is elected yet.
    PassedOn,
    /// It is a Bootstrap of less weight, and the router says that it is the BSR. True where the router is to be given other
    /// RPs.
    Answered(bool),
    /// It is an advertisement that is taken.
    Advertised,
}

/// A candidate BSR with its machine, and the tag of the last Bootstrap that it originated.
#[derive(Clone, Copy)]
pub struct StandingBsr {
    pub stands: StandsAsBsr,
    pub election: Election,
    pub tag: u16,
}

/// What the listener answers.
fn of_heard(heard: Heard) -> CandidacyHeard
    ensures { result ≡ of_heard heard }
{
    match heard {
        Heard::Other => CandidacyHeard::Other,
        Heard::Refused(refusal) => CandidacyHeard::Refused(refusal),
        Heard::Ignored(why) => CandidacyHeard::Ignored(why),
        Heard::Taken(moved) => CandidacyHeard::Taken(moved),
    }
}

/// Whether a message counts.
fn is_taken(heard: Heard) -> bool
    ensures { result ≡ is_taken heard }
{
    matches!(heard, Heard::Taken(_))
}

impl StandingBsr {
    /// It begins at a timestamp in ms.
    fn new(stands: StandsAsBsr, now: u64) -> StandingBsr
        requires { now ≤ 2 ^ 62 }
        ensures { result ≡ stood now stands }
    {
        StandingBsr {
            stands,
            election: Election::new(stands.bsr, now),
            tag: (now % 0x1_0000) as u16,
        }
    }

    /// Its machine after an event.
    fn with_election(self, election: Election) -> StandingBsr
        ensures { result ≡ record self { election = election } }
    {
        StandingBsr {
            stands: self.stands,
            election,
            tag: self.tag,
        }
    }

    /// The same under the next tag.
    fn under_next_tag(self, election: Election) -> StandingBsr
        ensures { result ≡ under_next_tag self election }
    {
        StandingBsr {
            stands: self.stands,
            election,
            tag: self.tag.wrapping_add(1),
        }
    }

    /// What its Bootstraps have in common.
    fn head(self) -> BootstrapHead
        ensures { result ≡ head_of self }
    {
        BootstrapHead {
            no_forward: false,
            tag: self.tag,
            hash_length: self.stands.hash_length,
            priority: self.stands.bsr.priority,
            bsr: self.stands.bsr.address,
        }
    }

    /// Its machine after the RPs that it holds are others, or the same.
    fn hastened(self, moved: bool, now: u64) -> StandingBsr
        ensures { result ≡ record self { election = hastened_if (not moved) self.election now } }
    {
        if moved {
            self.with_election(self.election.hasten(now))
        } else {
            self
        }
    }

    /// How many RPs of ranges it holds.
    fn most_held(self) -> usize
        ensures value { result ≡ most_held self }
        ensures few { result ≤ 255 }
    {
        self.stands.limit.min(255)
    }
}

/// Of two ends, if there are any, the earlier.
fn sooner(first: Option<u64>, second: Option<u64>) -> Option<u64>
    ensures { result ≡ sooner first second }
{
    match (first, second) {
        (Some(first), Some(second)) => Some(first.min(second)),
        (Some(first), None) => Some(first),
        (None, second) => second,
    }
}

/// A router that stands as a BSR, as an RP, or as both, or as neither, beside a [`Listener`]. Times are in ms.
///
/// A program that has a router behind a listener makes these calls beside those of the listener, in this order:
///
/// - A packet on a link that the router ignores as PIM of a type that it doesn't handle is given to [`Candidacy::hear`], in
///   the place of [`Listener::hear`]. Where it answers `Taken(true)` or `Answered(true)`, the router then takes
///   [`Listener::rps_event`].
/// - A packet to one of the router's addresses that the router ignores as not for it is given to
///   [`Candidacy::hear_unicast`].
/// - Time goes to a moment: while the sooner of [`Listener::first_end`] and [`Candidacy::first_end`] isn't later than the
///   moment, the router takes `Advance` to that end, then [`Candidacy::pass_to`] the end, and where that answers true the
///   router takes [`Listener::rps_event`]. Then the router takes `Advance` to the moment, and [`Candidacy::pass_to`] the
///   moment. It stands in the place of [`Listener::pass_to`].
/// - A router that stops makes [`Candidacy::leave`], and what that adds leaves.
#[derive(Drop)]
pub struct Candidacy {
    bsr: Option<StandingBsr>,
    rp_set: RpSet,
    rp: Option<StandsAsRp>,
    advertising: Advertising,
}

impl Model for Candidacy {
    ghost use Rattle.std.specs.Prelude.{option_map};
    ghost use Rattle.pim_candidate.specs.Candidacy.{Candidacy, rp_standing};

    ghost Value = { Candidacy };

    ghost view = { λ c. record {
      bsr = c.bsr;
      rp_set = c.rp_set;
      rp = option_map rp_standing c.rp;
      advertising = c.advertising;
    } };
}

impl StandsAsRp {
    /// The same, in memory of its own.
    fn copy(&self, alloc: Global) -> Result<StandsAsRp, AllocError>
        ensures { IfOk result (λ copy. rp_standing copy ≡ rp_standing self.now) }
    {
        Ok(StandsAsRp {
            address: self.address,
            priority: self.priority,
            ranges: Vec::from_slice(alloc, self.ranges.as_slice())?,
        })
    }
}

/// The same candidate RP, in memory of its own.
fn copy_rp(alloc: Global, rp: &Option<StandsAsRp>) -> Result<Option<StandsAsRp>, AllocError>
    ensures { IfOk result (λ copy. option_map rp_standing copy ≡ option_map rp_standing rp.now) }
{
    match rp {
        Some(rp) => Ok(Some(rp.copy(alloc)?)),
        None => Ok(None),
    }
}

/// A candidate BSR, if the router stands as one, that begins at a timestamp in ms.
fn standing_bsr(as_bsr: Option<StandsAsBsr>, now: u64) -> Option<StandingBsr>
    requires { now ≤ 2 ^ 62 }
    ensures { result ≡ option_map (stood now) as_bsr }
{
    match as_bsr {
        Some(stands) => Some(StandingBsr::new(stands, now)),
        None => None,
    }
}

/// The address of the BSR that is elected.
fn bsr_of(elected: Option<Elected>) -> Option<Addr>
    ensures { result ≡ bsr_of elected }
{
    match elected {
        Some(elected) => Some(elected.bsr),
        None => None,
    }
}

impl Candidacy {
    /// The router begins at a timestamp in ms. It stands as a BSR, as an RP, as both, or as neither.
    pub fn new(
        alloc: Global,
        as_bsr: Option<StandsAsBsr>,
        as_rp: Option<StandsAsRp>,
        now: u64,
    ) -> Candidacy
        requires { now ≤ 2 ^ 62 }
        ensures { result ≡ new_candidacy as_bsr (option_map rp_standing as_rp) now }
    {
        Candidacy {
            bsr: standing_bsr(as_bsr, now),
            rp_set: RpSet::new(alloc),
            rp: as_rp,
            advertising: Advertising::new(),
        }
    }

    /// As what BSR it stands.
    pub fn as_bsr(&self) -> Option<StandsAsBsr>
        ensures { result ≡ option_map stands_of self.now.bsr }
    {
        match self.bsr {
            Some(bsr) => Some(bsr.stands),
            None => None,
        }
    }

    /// As what RP it stands.
    pub fn as_rp(&self) -> Option<&StandsAsRp>
        ensures { option_map rp_standing (option_copied result) ≡ self.now.rp }
    {
        self.rp.as_ref()
    }

    /// The machine of the candidate BSR.
    pub fn election(&self) -> Option<Election>
        ensures { result ≡ option_map election_of self.now.bsr }
    {
        match self.bsr {
            Some(bsr) => Some(bsr.election),
            None => None,
        }
    }

    /// The RPs of ranges that the candidate BSR holds.
    pub fn held(&self) -> &[Held]
        ensures { result.now ≡ self.now.rp_set.held }
    {
        self.rp_set.held()
    }

    /// The ranges that it says without RPs.
    pub fn gone(&self) -> &[Gone]
        ensures { result.now ≡ self.now.rp_set.gone }
    {
        self.rp_set.gone()
    }

    /// When the candidate RP advertises itself next, and to which BSR.
    pub fn advertising(&self) -> Advertising
        ensures { result ≡ self.now.advertising }
    {
        self.advertising
    }

    /// When the first of its timers ends, in ms. Those of the listener are [`Listener::first_end`].
    #[tactic(auto, unfolding(crate::specs::Candidacy::candidacy_end))]
    pub fn first_end(&self) -> Option<u64>
        ensures { result ≡ candidacy_end self.now }
    {
        sooner(self.bsr_end(), self.rp_end())
    }

    // When the first timer of the candidate BSR ends.
    fn bsr_end(&self) -> Option<u64>
        ensures { result ≡ bsr_end self.now.bsr self.now.rp_set }
    {
        match self.bsr {
            Some(bsr) => sooner(Some(bsr.election.end), self.rp_set.first_end()),
            None => None,
        }
    }

    // When the candidate RP advertises itself.
    fn rp_end(&self) -> Option<u64>
        ensures { result ≡ rp_end self.now.rp self.now.advertising.bsr self.now.advertising.end }
    {
        let Some(_) = &self.rp else {
            return None;
        };
        match self.advertising.bsr {
            Some(_) => Some(self.advertising.end),
            None => None,
        }
    }

    // The same, in memory of its own.
    fn copy(&self, alloc: Global) -> Result<Candidacy, AllocError>
        ensures { IfOk result (λ copy. copy ≡ self.now) }
    {
        Ok(Candidacy {
            bsr: self.bsr,
            rp_set: self.rp_set.copy(alloc)?,
            rp: copy_rp(alloc, &self.rp)?,
            advertising: self.advertising,
        })
    }

    // The machine of the candidate BSR after an event.
    fn elect(&mut self, bsr: StandingBsr, election: Election)
        ensures { self.new ≡ with_election self.old bsr election }
    {
        self.bsr = Some(bsr.with_election(election));
    }

    // The candidate RP follows which BSR the listener has elected.
    #[tactic(auto, unfolding(crate::specs::Candidacy::followed))]
    fn follow(&mut self, listener: &Listener, draw: u32, now: u64)
        requires { now ≤ 2 ^ 62 }
        ensures { self.new ≡ followed draw now listener.now self.old }
    {
        let Some(_) = &self.rp else {
            return;
        };
        let bsr = bsr_of(listener.elected());
        self.advertising = self.advertising.with_bsr(bsr, u64::from(draw), now);
    }
}
