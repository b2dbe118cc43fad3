//! What a candidate RP tells the BSR.
ghost use Rattle.std.specs.Prelude.{◌≡◌, ◌++◌, true, IfOk, OnOk, map};
ghost use Rattle.pim_candidate.specs.Candidacy.{advertised_range, advertisement_bytes, is_advertised, is_itself, left_for_good, rp_standing, told_to};

use super::{Candidacy, MOST_ADVERTISED_RANGES, StandingBsr, StandsAsRp, bsr_of};
use pim_bootstrap::{AdvertisedRange, write_advertisement};
use pim_bsr::Listener;
use pim_ip::{Addr, Prefix, write_pim_packet};
use pim_types::{Emission, Series};
use std::alloc::{AllocError, Global};

/// The TTL of an advertisement.
const TIME_TO_LIVE: u8 = 64;

/// A range that is advertised.
fn advertised_range(prefix: Prefix) -> AdvertisedRange
    ensures { result ≡ advertised_range prefix }
{
    AdvertisedRange {
        group: prefix.address,
        length: prefix.length.min(32) as u8,
        bidir: false,
        zone: false,
    }
}

/// The ranges that are advertised.
fn advertised_ranges(alloc: Global, prefixes: &[Prefix]) -> Result<Vec<AdvertisedRange>, AllocError>
    ensures { IfOk result (λ ranges. ranges.items ≡ map advertised_range prefixes.now) }
{
    let mut ranges = Vec::new(alloc);
    for prefix in prefixes {
        ranges.push(advertised_range(*prefix))?;
    }
    Ok(ranges)
}

/// Whether the BSR is the router itself.
pub(super) fn is_itself(bsr: Option<StandingBsr>, address: Addr) -> bool
    ensures { result ≡ is_itself bsr address }
{
    match bsr {
        Some(bsr) => bsr.stands.bsr.address.bits == address.bits,
        None => false,
    }
}

impl StandsAsRp {
    /// Whether a packet holds its ranges, and there are any.
    pub(super) fn is_advertised(&self) -> bool
        ensures { result ≡ is_advertised (rp_standing self.now) }
    {
        !self.ranges.is_empty() && self.ranges.len() <= MOST_ADVERTISED_RANGES
    }

    /// An advertisement with a holdtime in seconds.
    #[tactic(auto, unfolding(crate::specs::Candidacy::advertisement_bytes))]
    pub(super) fn advertisement(&self, alloc: Global, holdtime: u16) -> Result<Vec<u8>, AllocError>
        requires { is_advertised (rp_standing self.now) ≡ true }
        ensures { IfOk result (λ message. message.items ≡ advertisement_bytes holdtime (rp_standing self.now)) }
    {
        let ranges = advertised_ranges(alloc, self.ranges.as_slice())?;
        write_advertisement(
            alloc,
            self.address,
            self.priority,
            holdtime,
            ranges.as_slice(),
        )
    }

    /// Tells a BSR of the RP, with a holdtime in seconds.
    #[tactic(auto, using(crate::proofs::Sizes::fits_packet), unfolding(crate::specs::Candidacy::told_to, pim_model::specs::Writing::pim_to))]
    pub(super) fn tell(
        &self,
        alloc: Global,
        holdtime: u16,
        bsr: Addr,
        out: &mut Vec<Emission>,
    ) -> Result<(), AllocError>
        ensures { OnOk result (out.new.items ≡ out.old.items ++ told_to holdtime (rp_standing self.now) bsr) }
    {
        if !self.is_advertised() {
            return Ok(());
        }
        let message = self.advertisement(alloc, holdtime)?;
        let mut packet = Vec::new(alloc);
        write_pim_packet(
            TIME_TO_LIVE,
            self.address,
            bsr,
            message.as_slice(),
            &mut packet,
        )?;
        out.push(Emission::Unicast {
            destination: bsr,
            bytes: Series::from_vec(packet),
        })?;
        Ok(())
    }
}

impl Candidacy {
    /// Says that the candidate RP goes: an advertisement with holdtime 0 to the elected BSR is added to `out`. An `Err` is
    /// want of memory.
    #[tactic(auto, unfolding(crate::specs::Candidacy::left_for_good))]
    pub fn leave(
        &self,
        alloc: Global,
        listener: &Listener,
        out: &mut Vec<Emission>,
    ) -> Result<(), AllocError>
        ensures { OnOk result (out.new.items ≡ out.old.items ++ left_for_good self.now listener.now) }
    {
        let Some(rp) = &self.rp else {
            return Ok(());
        };
        let Some(bsr) = bsr_of(listener.elected()) else {
            return Ok(());
        };
        if is_itself(self.bsr, bsr) {
            return Ok(());
        }
        rp.tell(alloc, 0, bsr, out)
    }
}
