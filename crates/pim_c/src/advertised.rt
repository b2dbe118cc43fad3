//! How a candidacy stands, and what it knows by advertisements, as C reads it.
ghost use Rattle.pim_c.specs.Candidacies.{advertised_row_of, election_end, role_number, role_of, state_of, told_end, told_of};
ghost use Rattle.pim_c.specs.Written.{ValueWritten};
ghost use Rattle.std.specs.List.{slice_get};
ghost use Rattle.std.specs.Prelude.{◌≡◌};

use crate::returned::NEVER;
use pim_candidate::{Advertising, Candidacy, Election, Held, Role};

/// How a candidacy stands.
#[repr(C)]
#[derive(Drop)]
pub struct CandidacyState {
    /// As candidate BSR: 0 it is none, 1 another one is the BSR, 2 none is, 3 it is.
    pub role: u32,
    /// When the Bootstrap Timer expires, in ms.
    pub end: u64,
    /// The BSR that is told of the RP, or 0.
    pub told: u32,
    /// When it is told next, in ms.
    pub told_end: u64,
}

/// An RP of a range, which advertised itself.
#[repr(C)]
#[derive(Drop)]
pub struct AdvertisedRow {
    pub prefix: u32,
    pub length: u32,
    pub rp: u32,
    /// The lower is preferred.
    pub priority: u32,
    /// In seconds.
    pub holdtime: u32,
    /// When its holdtime is over, in ms.
    pub end: u64,
}

// The number of a candidate BSR's role.
fn role_number(role: Role) -> u32
    ensures { result ≡ role_number role }
{
    match role {
        Role::Candidate => 1,
        Role::Pending => 2,
        Role::Elected => 3,
    }
}

// The role of a candidate BSR, if there is one.
fn role_of(election: Option<Election>) -> u32
    ensures { result ≡ role_of election }
{
    match election {
        Some(election) => role_number(election.role),
        None => 0,
    }
}

// When a candidate BSR's timer expires, in ms.
fn election_end(election: Option<Election>) -> u64
    ensures { result ≡ election_end election }
{
    match election {
        Some(election) => election.end,
        None => NEVER,
    }
}

// The BSR that is told of the RP.
fn told(advertising: Advertising) -> u32
    ensures { result ≡ told_of advertising }
{
    match advertising.bsr {
        Some(bsr) => bsr.bits,
        None => 0,
    }
}

// When it is told next, in ms.
fn told_end(advertising: Advertising) -> u64
    ensures { result ≡ told_end advertising }
{
    match advertising.bsr {
        Some(_) => advertising.end,
        None => NEVER,
    }
}

// How a candidacy stands, as C reads it.
fn state(candidacy: &Candidacy) -> CandidacyState
    ensures { result ≡ state_of candidacy.now }
{
    let advertising = candidacy.advertising();
    let election = candidacy.election();
    CandidacyState {
        role: role_of(election),
        end: election_end(election),
        told: told(advertising),
        told_end: told_end(advertising),
    }
}

// An RP of a range, as C reads it.
fn advertised_row(held: Held) -> AdvertisedRow
    ensures { result ≡ advertised_row_of held }
{
    AdvertisedRow {
        prefix: held.group.bits,
        length: u32::from(held.length),
        rp: held.rp.address.bits,
        priority: u32::from(held.rp.priority),
        holdtime: u32::from(held.rp.holdtime),
        end: held.end,
    }
}

/// Writes out how a candidacy stands.
pub(crate) fn write_state(candidacy: &Candidacy, out: &mut CandidacyState)
    ensures { out.new ≡ state_of candidacy.now }
{
    *out = state(candidacy);
}

/// Writes out one of the RPs of ranges that advertised themselves, if it exists.
pub(crate) fn write_advertised(held: &[Held], index: usize, out: &mut AdvertisedRow) -> bool
    ensures { ValueWritten advertised_row_of (slice_get held.now index) result out.old out.new }
{
    match held.get(index) {
        Some(held) => {
            *out = advertised_row(*held);
            true
        }
        None => false,
    }
}
