//! Routers of a scenario that stand as BSRs or as RPs (RFC 5059), and the lines of what they know.
ghost use Rattle.lab_parts.specs.Standing.{bsr_of, rp_of, standing_as};
ghost use Rattle.pim_candidate.specs.Candidacy.{rp_standing};
ghost use Rattle.std.specs.Prelude.{◌≡◌, ◌^◌, ◌≤◌, option_copied, option_map, IfOk};

use pim_candidate::{Bsr, Candidacy, Gone, Held, Role, StandsAsBsr, StandsAsRp};
use pim_scenario::{BsrText, RpText, StandingText};
use pim_types::{Addr, Prefix};
use std::alloc::{AllocError, Global};
use std::fmt;

/// A router that begins at a timestamp, in ms, to stand as what its scenario says.
pub fn candidacy_of(
    alloc: Global,
    standing: &StandingText,
    moment: u64,
) -> Result<Candidacy, AllocError>
    requires { moment ≤ 2 ^ 62 }
    ensures { IfOk result (λ candidacy. candidacy ≡ standing_as standing.now moment) }
{
    let rp = rp_of(alloc, standing.rp.as_ref())?;
    Ok(Candidacy::new(alloc, bsr_of(standing.bsr), rp, moment))
}

// The candidate BSR.
fn bsr_of(text: Option<BsrText>) -> Option<StandsAsBsr>
    ensures { result ≡ option_map bsr_of text }
{
    let text = text?;
    Some(StandsAsBsr {
        bsr: Bsr {
            address: text.address,
            priority: text.priority,
        },
        hash_length: text.hash_length,
        limit: usize::from(text.limit),
    })
}

// The candidate RP.
fn rp_of(alloc: Global, text: Option<&RpText>) -> Result<Option<StandsAsRp>, AllocError>
    ensures { IfOk result (λ rp. option_map rp_standing rp ≡ option_map rp_of (option_copied text.entry)) }
{
    let Some(text) = text else {
        return Ok(None);
    };
    Ok(Some(StandsAsRp {
        address: text.address,
        priority: text.priority,
        ranges: text.ranges.as_slice().to_vec(alloc)?,
    }))
}

/// Whether two texts have a router stand as the same.
pub(crate) fn is_same_standing(left: &StandingText, right: &StandingText) -> bool {
    is_same_bsr(left.bsr, right.bsr) && is_same_rp(left.rp.as_ref(), right.rp.as_ref())
}

fn is_same_bsr(left: Option<BsrText>, right: Option<BsrText>) -> bool {
    match (left, right) {
        (Some(left), Some(right)) => {
            left.address == right.address
                && left.priority == right.priority
                && left.hash_length == right.hash_length
                && left.limit == right.limit
        }
        (None, None) => true,
        _ => false,
    }
}

/// Whether two texts have a router be the same candidate RP.
pub(crate) fn is_same_rp(left: Option<&RpText>, right: Option<&RpText>) -> bool {
    match (left, right) {
        (Some(left), Some(right)) => {
            left.address == right.address
                && left.priority == right.priority
                && are_same(left.ranges.as_slice(), right.ranges.as_slice())
        }
        (None, None) => true,
        _ => false,
    }
}

fn are_same(left: &[Prefix], right: &[Prefix]) -> bool {
    if left.len() != right.len() {
        return false;
    }
    for (place, range) in left.iter().enumerate() {
        let Some(other) = right.get(place) else {
            return false;
        };
        if !is_same_range(*range, *other) {
            return false;
        }
    }
    true
}

fn is_same_range(left: Prefix, right: Prefix) -> bool {
    left.address == right.address && left.length == right.length
}

/// What a candidate BSR is, and when its Bootstrap Timer expires.
#[derive(Clone, Copy)]
pub struct RoleLine {
    pub role: Role,
    pub end: u64,
}

impl fmt::Display for RoleLine {
    fn fmt<W: fmt::Write>(&self, f: &mut fmt::Formatter<W>) -> fmt::Result {
        let role = match self.role {
            Role::Candidate => "candidate",
            Role::Pending => "pending",
            Role::Elected => "elected",
        };
        let end = self.end;
        write!(f, "E {role} {end}")
    }
}

/// An RP of a range that a candidate BSR holds.
#[derive(Clone, Copy)]
pub struct HeldLine {
    pub held: Held,
}

impl fmt::Display for HeldLine {
    fn fmt<W: fmt::Write>(&self, f: &mut fmt::Formatter<W>) -> fmt::Result {
        let group = self.held.group;
        let length = self.held.length;
        let rp = self.held.rp.address;
        let priority = self.held.rp.priority;
        let holdtime = self.held.rp.holdtime;
        let end = self.held.end;
        write!(f, "H {group}/{length} {rp} {priority} {holdtime} {end}")
    }
}

/// A range that a candidate BSR says without RPs.
#[derive(Clone, Copy)]
pub struct GoneLine {
    pub gone: Gone,
}

impl fmt::Display for GoneLine {
    fn fmt<W: fmt::Write>(&self, f: &mut fmt::Formatter<W>) -> fmt::Result {
        let group = self.gone.group;
        let length = self.gone.length;
        let until = self.gone.until;
        write!(f, "W {group}/{length} {until}")
    }
}

/// The BSR that a candidate RP tells of itself, and when it does so next.
#[derive(Clone, Copy)]
pub struct ToldLine {
    pub bsr: Addr,
    pub end: u64,
}

impl fmt::Display for ToldLine {
    fn fmt<W: fmt::Write>(&self, f: &mut fmt::Formatter<W>) -> fmt::Result {
        let bsr = self.bsr;
        let end = self.end;
        write!(f, "T {bsr} {end}")
    }
}
