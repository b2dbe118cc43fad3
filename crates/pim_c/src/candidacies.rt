//! The functions that C calls of a candidacy (RFC 5059). Each takes the candidacy out of its handle, and with it the
//! listener and the session where it needs them, calls it, and puts all back; in which order a program calls them says
//! `pim_candidate::Candidacy`.
ghost use Rattle.pim_c.specs.Candidacies.{CandidacyMade, LeftBy, PassedStanding, StoodBy, ToldBy, advertised_row_of, as_bsr_of, as_rp_of, candidacy_end_in, held_in, state_of};
ghost use Rattle.pim_c.specs.Returned.{never};
ghost use Rattle.pim_c.specs.Written.{ValueWritten};
ghost use Rattle.pim_model.specs.Judging.{last_moment};
ghost use Rattle.std.specs.List.{slice_get};
ghost use Rattle.std.specs.Prelude.{◌≡◌, None, length, nat_lt, unwrap_or};

use crate::advertised::{self, AdvertisedRow, CandidacyState};
use crate::handle::Handle;
use crate::listening::{ListenerHandle, unheard_number};
use crate::returned::{
    DONE, LAST_MOMENT, MEMORY, MOMENT_FAR, NEVER, NO_CANDIDACY, NO_LISTENER, NO_ROUTER, NO_SETTING,
};
use crate::standing::{self, CandidacyHandle};
use crate::stands::{self, GivenCandidacy, GivenPrefix};
use pim_candidate::Candidacy;
use pim_types::IfaceId;
use std::alloc::Global;

/// Makes a candidacy, at a timestamp in ms, of what a router stands as, and of the ranges of which it would be the RP. If
/// the handle had a candidacy and the new one is made, the old one is freed.
#[unsafe(no_mangle)]
pub extern "C" fn viq_core_candidacy_new(
    alloc: Global,
    candidacy: &mut CandidacyHandle,
    settings: &GivenCandidacy,
    ranges: &[GivenPrefix],
    moment: u64,
) -> u32
    ensures { CandidacyMade (nat_lt last_moment moment) candidacy.old.place.inside (as_bsr_of settings.now)
        (as_rp_of settings.now ranges.now) moment result candidacy.new.place.inside }
{
    if LAST_MOMENT < moment {
        return MOMENT_FAR;
    }
    let Some(as_bsr) = stands::as_bsr(settings) else {
        return NO_SETTING;
    };
    let Ok(as_rp) = stands::as_rp(alloc, settings, ranges) else {
        return MEMORY;
    };
    let Some(as_rp) = as_rp else {
        return NO_SETTING;
    };
    let made = Candidacy::new(alloc, as_bsr, as_rp, moment);
    candidacy.renew(alloc, made)
}

/// Frees a candidacy with its memory. The handle then has none.
#[unsafe(no_mangle)]
pub extern "C" fn viq_core_candidacy_end(alloc: Global, candidacy: &mut CandidacyHandle)
    ensures { candidacy.new.place.inside ≡ None }
{
    let _ended = candidacy.take(alloc);
}

/// Has a candidacy hear a packet that the router ignored for its type, in the place of its listener. What is sent is to be
/// taken as what a router sends. `moved` says whether the router is to be given other RPs.
#[unsafe(no_mangle)]
pub extern "C" fn viq_core_candidacy_hear(
    alloc: Global,
    candidacy: &mut CandidacyHandle,
    listener: &mut ListenerHandle,
    router: &mut Handle,
    iface: u32,
    packet: &[u8],
    draw: u32,
    moved: &mut bool,
) -> u32
    ensures { StoodBy (record { candidacy = candidacy.old.place.inside; listener = listener.old.place.inside; router = router.old.place.inside })
        iface packet.now draw result moved.new
        (record { candidacy = candidacy.new.place.inside; listener = listener.new.place.inside; router = router.new.place.inside }) }
{
    *moved = false;
    let Some(mut standing) = candidacy.take(alloc) else {
        return NO_CANDIDACY;
    };
    let Some(mut hearing) = listener.take(alloc) else {
        candidacy.put(standing);
        return NO_LISTENER;
    };
    let Some(mut session) = router.take(alloc) else {
        candidacy.put(standing);
        listener.put(hearing);
        return NO_ROUTER;
    };
    let iface = IfaceId { number: iface };
    let answer = session.hear_standing(
        alloc,
        standing.as_mut(),
        hearing.as_mut(),
        iface,
        packet,
        draw,
    );
    candidacy.put(standing);
    listener.put(hearing);
    router.put(session);
    match answer {
        Ok(heard) => {
            *moved = standing::moves_rps(heard);
            standing::candidacy_number(heard)
        }
        Err(stop) => unheard_number(stop),
    }
}

/// Has a candidacy hear a packet to one of the router's addresses, which the router ignored as not for it.
#[unsafe(no_mangle)]
pub extern "C" fn viq_core_candidacy_unicast(
    alloc: Global,
    candidacy: &mut CandidacyHandle,
    router: &mut Handle,
    packet: &[u8],
) -> u32
    ensures told { ToldBy candidacy.old.place.inside router.old.place.inside packet.now result candidacy.new.place.inside }
    ensures stays { router.new.place.inside ≡ router.old.place.inside }
{
    let Some(mut standing) = candidacy.take(alloc) else {
        return NO_CANDIDACY;
    };
    let Some(session) = router.take(alloc) else {
        candidacy.put(standing);
        return NO_ROUTER;
    };
    let answer = session.hear_unicast(alloc, standing.as_mut(), packet);
    candidacy.put(standing);
    router.put(session);
    standing::told_number(answer)
}

/// When the first timer of a candidacy expires, in ms, or 2^64 - 1 where none runs.
#[unsafe(no_mangle)]
pub extern "C" fn viq_core_candidacy_next(alloc: Global, candidacy: &mut CandidacyHandle) -> u64
    ensures moment { result ≡ unwrap_or (candidacy_end_in candidacy.old.place.inside) never }
    ensures stays { candidacy.new.place.inside ≡ candidacy.old.place.inside }
{
    let Some(standing) = candidacy.take(alloc) else {
        return NEVER;
    };
    let next = standing.first_end().unwrap_or(NEVER);
    candidacy.put(standing);
    next
}

/// Time passed to a timestamp, in ms, at most 2^62, to which the router went: what is due of a candidacy and its listener
/// happens. `moved` says whether the router is to be given other RPs.
#[unsafe(no_mangle)]
pub extern "C" fn viq_core_candidacy_pass(
    alloc: Global,
    candidacy: &mut CandidacyHandle,
    listener: &mut ListenerHandle,
    router: &mut Handle,
    moment: u64,
    draw: u32,
    moved: &mut bool,
) -> u32
    ensures { PassedStanding (nat_lt last_moment moment)
        (record { candidacy = candidacy.old.place.inside; listener = listener.old.place.inside; router = router.old.place.inside })
        moment draw result moved.new
        (record { candidacy = candidacy.new.place.inside; listener = listener.new.place.inside; router = router.new.place.inside }) }
{
    *moved = false;
    if LAST_MOMENT < moment {
        return MOMENT_FAR;
    }
    let Some(mut standing) = candidacy.take(alloc) else {
        return NO_CANDIDACY;
    };
    let Some(mut hearing) = listener.take(alloc) else {
        candidacy.put(standing);
        return NO_LISTENER;
    };
    let Some(mut session) = router.take(alloc) else {
        candidacy.put(standing);
        listener.put(hearing);
        return NO_ROUTER;
    };
    let passed = session.pass_standing(alloc, standing.as_mut(), hearing.as_mut(), moment, draw);
    candidacy.put(standing);
    listener.put(hearing);
    router.put(session);
    match passed {
        Ok(is_moved) => {
            *moved = is_moved;
            DONE
        }
        Err(stop) => unheard_number(stop),
    }
}

/// Has a candidacy say that its RP goes. What it sends is to be taken as what a router sends.
#[unsafe(no_mangle)]
pub extern "C" fn viq_core_candidacy_leave(
    alloc: Global,
    candidacy: &mut CandidacyHandle,
    listener: &mut ListenerHandle,
    router: &mut Handle,
) -> u32
    ensures left { LeftBy candidacy.old.place.inside listener.old.place.inside router.old.place.inside result
        router.new.place.inside }
    ensures candidacy { candidacy.new.place.inside ≡ candidacy.old.place.inside }
    ensures listener { listener.new.place.inside ≡ listener.old.place.inside }
{
    let Some(standing) = candidacy.take(alloc) else {
        return NO_CANDIDACY;
    };
    let Some(hearing) = listener.take(alloc) else {
        candidacy.put(standing);
        return NO_LISTENER;
    };
    let Some(mut session) = router.take(alloc) else {
        candidacy.put(standing);
        listener.put(hearing);
        return NO_ROUTER;
    };
    let left = session.leave_standing(alloc, standing.as_ref(), hearing.as_ref());
    candidacy.put(standing);
    listener.put(hearing);
    router.put(session);
    match left {
        Ok(()) => DONE,
        Err(stop) => unheard_number(stop),
    }
}

/// How a candidacy stands. False where there is none.
#[unsafe(no_mangle)]
pub extern "C" fn viq_core_candidacy_state(
    alloc: Global,
    candidacy: &mut CandidacyHandle,
    state: &mut CandidacyState,
) -> bool
    ensures written { ValueWritten state_of candidacy.old.place.inside result state.old state.new }
    ensures stays { candidacy.new.place.inside ≡ candidacy.old.place.inside }
{
    let Some(standing) = candidacy.take(alloc) else {
        return false;
    };
    advertised::write_state(standing.as_ref(), state);
    candidacy.put(standing);
    true
}

/// How many RPs of ranges a candidate BSR knows by advertisements.
#[unsafe(no_mangle)]
pub extern "C" fn viq_core_candidacy_rps(alloc: Global, candidacy: &mut CandidacyHandle) -> usize
    ensures count { result ≡ length (held_in candidacy.old.place.inside) }
    ensures stays { candidacy.new.place.inside ≡ candidacy.old.place.inside }
{
    let Some(standing) = candidacy.take(alloc) else {
        return 0;
    };
    let count = standing.held().len();
    candidacy.put(standing);
    count
}

/// One of them, counted from 0. False where there is none of this number.
#[unsafe(no_mangle)]
pub extern "C" fn viq_core_candidacy_rp(
    alloc: Global,
    candidacy: &mut CandidacyHandle,
    index: usize,
    row: &mut AdvertisedRow,
) -> bool
    ensures written { ValueWritten advertised_row_of (slice_get (held_in candidacy.old.place.inside) index) result row.old row.new }
    ensures stays { candidacy.new.place.inside ≡ candidacy.old.place.inside }
{
    let Some(standing) = candidacy.take(alloc) else {
        return false;
    };
    let is_there = advertised::write_advertised(standing.held(), index, row);
    candidacy.put(standing);
    is_there
}
