//! Null-Registers to the others of a set, for sources on the router's own links.
ghost use Rattle.std.specs.Prelude.{◌≡◌, ◌&&◌, ◌||◌, false, is_none, not, IfOk, IsOk, true};
ghost use Rattle.pim_model.specs.Tables.{is_empty_list};
ghost use Rattle.pim_anycast.specs.Sets.{set_for};
ghost use Rattle.pim_anycast.specs.Announced.{announced, announced_all, announced_due, announced_new, is_announced, is_due, keys_named, next_announcement};

use crate::front::Anycast;
use crate::rendezvous::Rendezvous;
use pim_types::{Emission, SourceGroup};
use pim_wire::write_null_register;
use std::alloc::{AllocError, Global};

/// How often sources on the router's own links are announced, in ms: as often as a DR sends Null-Registers.
pub const ANNOUNCEMENT_INTERVAL: u64 = 60_000;

/// The TTL of a Null-Register.
const TIME_TO_LIVE: u8 = 64;

/// The latest timestamp that an event may have, in ms.
const LAST_MOMENT: u64 = 1 << 62;

impl Anycast {
    /// Whether a source is on a link of which the router is the DR, sends, and is announced to the others of a set.
    #[tactic(auto, using(crate::proofs::Unset::unset), unfolding(crate::specs::Announced::is_announced))]
    pub fn is_announced<R: Rendezvous>(&self, router: &R, name: SourceGroup) -> bool
        ensures { result ≡ is_announced self.now (R.ranges router.now)
            (R.is_local router.now name.group.bits name.source.bits) name.group.bits }
    {
        if self.is_unset() {
            return false;
        }
        router.is_local(name) && self.set_for(router, name.group).is_some()
    }

    // The Null-Registers of a source. Without a set none leaves, and no memory is taken.
    #[tactic(auto, using(crate::proofs::NullLength::null_long), unfolding(crate::specs::Announced::announced))]
    fn announce<R: Rendezvous>(
        &self,
        alloc: Global,
        router: &R,
        name: SourceGroup,
    ) -> Result<Vec<Emission>, AllocError>
        ensures value { IfOk result (λ sent. sent.items
            ≡ announced self.now (R.ranges router.now) name.group.bits name.source.bits) }
        ensures sure { is_none (set_for self.now (R.ranges router.now) name.group.bits) ≡ true → IsOk result }
    {
        let Some(set) = self.set_for(router, name.group) else {
            return Ok(Vec::new(alloc));
        };
        let mut message = Vec::new(alloc);
        write_null_register(name.source, name.group, &mut message)?;
        set.to_others(alloc, TIME_TO_LIVE, &message)
    }

    /// What leaves after an event that brought a packet of a source, where [`Anycast::is_announced`] was so before it or
    /// not: Null-Registers, if the source is announced from then on. An `Err` is want of memory; where the source was
    /// announced before, or isn't announced, none is taken.
    #[tactic(auto, unfolding(crate::specs::Announced::announced_new, crate::specs::Announced::is_announced))]
    pub fn announce_new<R: Rendezvous>(
        &self,
        alloc: Global,
        router: &R,
        name: SourceGroup,
        before: bool,
    ) -> Result<Vec<Emission>, AllocError>
        ensures value { IfOk result (λ sent. sent.items
            ≡ announced_new self.now (R.ranges router.now) before
            (R.is_local router.now name.group.bits name.source.bits) name.group.bits name.source.bits) }
        ensures sure { (before || not (is_announced self.now (R.ranges router.now)
            (R.is_local router.now name.group.bits name.source.bits) name.group.bits)) ≡ true → IsOk result }
    {
        if before || !router.is_local(name) {
            return Ok(Vec::new(alloc));
        }
        self.announce(alloc, router, name)
    }

    // The Null-Registers of named sources.
    #[tactic(auto, unfolding(crate::specs::Announced::announced_all))]
    fn announce_each<R: Rendezvous>(
        &self,
        alloc: Global,
        router: &R,
        names: &[SourceGroup],
    ) -> Result<Vec<Emission>, AllocError>
        ensures { IfOk result (λ sent. sent.items
            ≡ announced_all self.now (R.ranges router.now) (keys_named names.now)) }
    {
        let mut sent = Vec::new(alloc);
        for name in names {
            let mut more = self.announce(alloc, router, *name)?;
            sent.append(&mut more)?;
        }
        Ok(sent)
    }

    /// What leaves after time passed from a timestamp in ms to the router's present: Null-Registers of all local sources,
    /// if they are due. An `Err` is want of memory; where nothing is due, or no set is there, none is taken.
    #[tactic(auto, using(crate::proofs::Unset::unset), unfolding(crate::specs::Announced::announced_due))]
    pub fn announce_due<R: Rendezvous>(
        &self,
        alloc: Global,
        router: &R,
        before: u64,
    ) -> Result<Vec<Emission>, AllocError>
        ensures value { IfOk result (λ sent. sent.items ≡ announced_due self.now (R.ranges router.now) (R.local_keys router.now) before (R.present router.now)) }
        ensures sure { (is_due before (R.present router.now) && not (is_empty_list self.now)) ≡ false → IsOk result }
    {
        if before / ANNOUNCEMENT_INTERVAL >= router.present_moment() / ANNOUNCEMENT_INTERVAL {
            return Ok(Vec::new(alloc));
        }
        if self.is_unset() {
            return Ok(Vec::new(alloc));
        }
        let names = router.local_sources(alloc)?;
        self.announce_each(alloc, router, &names)
    }

    /// When announcements are due next, by the router's present timestamp in ms: never without a set, or later than an
    /// event may come.
    #[tactic(auto, unfolding(crate::specs::Announced::next_announcement))]
    pub fn next(&self, present: u64) -> Option<u64>
        ensures { result ≡ next_announcement self.now present }
    {
        if self.is_unset() || present > LAST_MOMENT {
            return None;
        }
        let next = (present / ANNOUNCEMENT_INTERVAL + 1) * ANNOUNCEMENT_INTERVAL;
        if next <= LAST_MOMENT {
            Some(next)
        } else {
            None
        }
    }
}
