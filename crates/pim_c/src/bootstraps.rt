//! The functions that C calls of a listener for Bootstraps (RFC 5059). Each takes the listener out of its handle, calls
//! it, and puts it back; in which order a program calls them says `pim_bsr::Listener`.
ghost use Rattle.pim_c.specs.Bootstraps.{Chosen, GivenTo, HeardBy, ListenerMade, ListenerRestored, ListenerSaved, PassedBy, RangesSet, RangesSetBy, choice_in, choice_of, elected_in, elected_of, first_end_in, learned_row_in, limit_of, part_row_of, parts_in, rps_in, static_in, told_range};
ghost use Rattle.pim_c.specs.Given.{given_event, range_of};
ghost use Rattle.pim_c.specs.Returned.{never};
ghost use Rattle.pim_c.specs.Written.{ValueWritten};
ghost use Rattle.pim_types.specs.declared.event.EventKind.{EventKind};
ghost use Rattle.std.specs.List.{slice_get};
ghost use Rattle.std.specs.Prelude.{◌≡◌, None, length, map, unwrap_or};

use crate::given::{self, GivenRange};
use crate::handle::Handle;
use crate::learned::{self, CElected, LearnedRow, PartRow};
use crate::listening::{self, ListenerHandle};
use crate::returned::{self, DONE, MEMORY, NEVER, NO_LISTENER, NO_ROUTER, NO_SETTING};
use pim_bsr::Listener;
use pim_intake::LentEvent;
use pim_types::{Event, EventKind, IfaceId, RpRange, Series};
use std::alloc::Global;

/// Makes a listener for a router with these configured ranges, which keeps at most as many RPs as the limit says, 1 to
/// 256. If the handle had a listener and the new one is made, the old one is freed.
#[unsafe(no_mangle)]
pub extern "C" fn viq_core_bsr_new(
    alloc: Global,
    listener: &mut ListenerHandle,
    limit: u32,
    ranges: &[GivenRange],
    refresh_end: u64,
) -> u32
    ensures { ListenerMade listener.old.place.inside (limit_of limit) (map range_of ranges.now) refresh_end result
        listener.new.place.inside }
{
    let Some(limit) = listening::limit(limit) else {
        return NO_SETTING;
    };
    let Ok(ranges) = given::ranges(alloc, ranges) else {
        return MEMORY;
    };
    let made = Listener::new(alloc, limit, ranges.into_vec(), refresh_end);
    listener.renew(alloc, made)
}

/// Makes a listener of saved bytes, which knows what was known. If the handle had a listener and the new one is made, the
/// old one is freed.
#[unsafe(no_mangle)]
pub extern "C" fn viq_core_bsr_restore(
    alloc: Global,
    listener: &mut ListenerHandle,
    bytes: &[u8],
) -> u32
    ensures { ListenerRestored listener.old.place.inside bytes.now result listener.new.place.inside }
{
    match Listener::restore(alloc, bytes) {
        Ok(Ok(made)) => listener.renew(alloc, made),
        Ok(Err(refusal)) => u32::from(refusal.number()),
        Err(_) => MEMORY,
    }
}

/// Saves what a listener knows: as many of its bytes as the buffer holds are written into it, and how many there are.
#[unsafe(no_mangle)]
pub extern "C" fn viq_core_bsr_save(
    alloc: Global,
    listener: &mut ListenerHandle,
    room: &mut [u8],
    size: &mut usize,
) -> u32
    ensures written { ListenerSaved listener.old.place.inside result size.old size.new room.old room.new }
    ensures stays { listener.new.place.inside ≡ listener.old.place.inside }
{
    let Some(hearing) = listener.take(alloc) else {
        return NO_LISTENER;
    };
    let mut bytes = Vec::new(alloc);
    let answer = hearing.save(&mut bytes);
    listener.put(hearing);
    match answer {
        Ok(()) => {
            *size = bytes.len();
            returned::write(room, bytes.as_slice());
            DONE
        }
        Err(_) => MEMORY,
    }
}

/// Frees a listener with its memory. The handle then has none.
#[unsafe(no_mangle)]
pub extern "C" fn viq_core_bsr_end(alloc: Global, listener: &mut ListenerHandle)
    ensures { listener.new.place.inside ≡ None }
{
    let _ended = listener.take(alloc);
}

/// Has a listener hear a packet that the router ignored for its type. What it sends on is to be taken as what a router
/// sends. `moved` says whether the router is to be given other RPs.
#[unsafe(no_mangle)]
pub extern "C" fn viq_core_bsr_hear(
    alloc: Global,
    listener: &mut ListenerHandle,
    router: &mut Handle,
    iface: u32,
    packet: &[u8],
    moved: &mut bool,
) -> u32
    ensures { HeardBy listener.old.place.inside router.old.place.inside iface packet.now result moved.new
        listener.new.place.inside router.new.place.inside }
{
    *moved = false;
    let Some(mut hearing) = listener.take(alloc) else {
        return NO_LISTENER;
    };
    let Some(mut session) = router.take(alloc) else {
        listener.put(hearing);
        return NO_ROUTER;
    };
    let iface = IfaceId { number: iface };
    let answer = session.hear(alloc, hearing.as_mut(), iface, packet);
    listener.put(hearing);
    router.put(session);
    match answer {
        Ok(heard) => {
            *moved = listening::is_moved(heard);
            listening::heard_number(heard)
        }
        Err(stop) => listening::unheard_number(stop),
    }
}

// New RP ranges.
fn new_ranges(draw: u32, ranges: Vec<RpRange>) -> Event
    ensures { result ≡ given_event draw (EventKind.Rps ranges.items) }
{
    let kind = EventKind::Rps {
        rps: Series::from_vec(ranges),
    };
    Event { draw, kind }
}

/// The router's RP ranges are replaced by those of a listener, or its candidates where an RP is chosen for each group.
#[unsafe(no_mangle)]
pub extern "C" fn viq_core_bsr_give(
    alloc: Global,
    listener: &mut ListenerHandle,
    router: &mut Handle,
    draw: u32,
) -> u32
    ensures given { GivenTo listener.old.place.inside router.old.place.inside draw result router.new.place.inside }
    ensures stays { listener.new.place.inside ≡ listener.old.place.inside }
{
    let Some(hearing) = listener.take(alloc) else {
        return NO_LISTENER;
    };
    let kind = hearing.rps_event(alloc);
    listener.put(hearing);
    match kind {
        Ok(kind) => router.step(alloc, &LentEvent::of(&Event { draw, kind })),
        Err(_) => router.refuse(alloc),
    }
}

/// When the first of a listener's RPs in force expires, in ms, or 2^64 - 1 where there is none.
#[unsafe(no_mangle)]
pub extern "C" fn viq_core_bsr_next(alloc: Global, listener: &mut ListenerHandle) -> u64
    ensures moment { result ≡ unwrap_or (first_end_in listener.old.place.inside) never }
    ensures stays { listener.new.place.inside ≡ listener.old.place.inside }
{
    let Some(hearing) = listener.take(alloc) else {
        return NEVER;
    };
    let next = hearing.first_end().unwrap_or(NEVER);
    listener.put(hearing);
    next
}

/// Time passed to a timestamp, in ms: what expired is forgotten. `moved` says whether the router is to be given other
/// RPs.
#[unsafe(no_mangle)]
pub extern "C" fn viq_core_bsr_pass(
    alloc: Global,
    listener: &mut ListenerHandle,
    moment: u64,
    moved: &mut bool,
) -> u32
    ensures { PassedBy listener.old.place.inside moment result moved.new listener.new.place.inside }
{
    *moved = false;
    let Some(mut hearing) = listener.take(alloc) else {
        return NO_LISTENER;
    };
    let passed = hearing.pass_to(alloc, moment);
    listener.put(hearing);
    match passed {
        Ok(is_moved) => {
            *moved = is_moved;
            DONE
        }
        Err(_) => MEMORY,
    }
}

// Replaces a router's RP ranges by those that a listener has beside other configured ones, and where that is done has the
// listener take these.
#[tactic(auto, unfolding(pim_bsr::specs::Table::configured))]
fn set_ranges(
    alloc: Global,
    listener: &mut Listener,
    router: &mut Handle,
    draw: u32,
    limit: usize,
    ranges: &[GivenRange],
) -> u32
    ensures { RangesSet listener.old router.old.place.inside draw limit (map range_of ranges.now) result listener.new
        router.new.place.inside }
{
    let Ok(ranges) = given::ranges(alloc, ranges) else {
        return router.refuse(alloc);
    };
    let ranges = ranges.into_vec();
    let Ok(beside) = listener.given_beside(alloc, limit, ranges.as_slice()) else {
        return router.refuse(alloc);
    };
    let answer = router.step(alloc, &LentEvent::of(&new_ranges(draw, beside)));
    if answer == DONE {
        listener.configure(limit, ranges);
    }
    answer
}

/// Puts a listener under other configured ranges, and another limit, and replaces the router's by those that it has
/// beside them. If the router refuses them, nothing changes.
#[unsafe(no_mangle)]
pub extern "C" fn viq_core_bsr_ranges(
    alloc: Global,
    listener: &mut ListenerHandle,
    router: &mut Handle,
    draw: u32,
    limit: u32,
    ranges: &[GivenRange],
) -> u32
    ensures { RangesSetBy listener.old.place.inside router.old.place.inside draw (limit_of limit) (map range_of ranges.now)
        result listener.new.place.inside router.new.place.inside }
{
    let Some(limit) = listening::limit(limit) else {
        return NO_SETTING;
    };
    let Some(mut hearing) = listener.take(alloc) else {
        return NO_LISTENER;
    };
    let answer = set_ranges(alloc, hearing.as_mut(), router, draw, limit, ranges);
    listener.put(hearing);
    answer
}

/// Has an RP chosen for a range, by 0, or for each group, by 1.
#[unsafe(no_mangle)]
pub extern "C" fn viq_core_bsr_choose(
    alloc: Global,
    listener: &mut ListenerHandle,
    choice: u32,
) -> u32
    ensures { Chosen listener.old.place.inside (choice_of choice) result listener.new.place.inside }
{
    let Some(choice) = listening::choice(choice) else {
        return NO_SETTING;
    };
    let Some(mut hearing) = listener.take(alloc) else {
        return NO_LISTENER;
    };
    hearing.choose(choice);
    listener.put(hearing);
    DONE
}

/// What an RP is chosen for: a range, by 0, or each group, by 1.
#[unsafe(no_mangle)]
pub extern "C" fn viq_core_bsr_choice(alloc: Global, listener: &mut ListenerHandle) -> u32
    ensures choice { result ≡ choice_in listener.old.place.inside }
    ensures stays { listener.new.place.inside ≡ listener.old.place.inside }
{
    let Some(hearing) = listener.take(alloc) else {
        return 0;
    };
    let choice = listening::choice_number(hearing.choice());
    listener.put(hearing);
    choice
}

/// How many ranges are configured.
#[unsafe(no_mangle)]
pub extern "C" fn viq_core_bsr_configured(alloc: Global, listener: &mut ListenerHandle) -> usize
    ensures count { result ≡ length (static_in listener.old.place.inside) }
    ensures stays { listener.new.place.inside ≡ listener.old.place.inside }
{
    let Some(hearing) = listener.take(alloc) else {
        return 0;
    };
    let count = hearing.configured().len();
    listener.put(hearing);
    count
}

/// One of the configured ranges, counted from 0. False where there is none of this number.
#[unsafe(no_mangle)]
pub extern "C" fn viq_core_bsr_range(
    alloc: Global,
    listener: &mut ListenerHandle,
    index: usize,
    range: &mut GivenRange,
) -> bool
    ensures written { ValueWritten told_range (slice_get (static_in listener.old.place.inside) index) result range.old range.new }
    ensures stays { listener.new.place.inside ≡ listener.old.place.inside }
{
    let Some(hearing) = listener.take(alloc) else {
        return false;
    };
    let is_there = learned::write_range(hearing.configured(), index, range);
    listener.put(hearing);
    is_there
}

/// The elected BSR. False where none is elected.
#[unsafe(no_mangle)]
pub extern "C" fn viq_core_bsr_elected(
    alloc: Global,
    listener: &mut ListenerHandle,
    elected: &mut CElected,
) -> bool
    ensures written { ValueWritten elected_of (elected_in listener.old.place.inside) result elected.old elected.new }
    ensures stays { listener.new.place.inside ≡ listener.old.place.inside }
{
    let Some(hearing) = listener.take(alloc) else {
        return false;
    };
    let is_there = learned::write_elected(hearing.elected(), elected);
    listener.put(hearing);
    is_there
}

/// How many RPs are in force.
#[unsafe(no_mangle)]
pub extern "C" fn viq_core_bsr_rps(alloc: Global, listener: &mut ListenerHandle) -> usize
    ensures count { result ≡ length (rps_in listener.old.place.inside) }
    ensures stays { listener.new.place.inside ≡ listener.old.place.inside }
{
    let Some(hearing) = listener.take(alloc) else {
        return 0;
    };
    let count = hearing.rps().len();
    listener.put(hearing);
    count
}

/// One of the RPs in force, counted from 0. False where there is none of this number.
#[unsafe(no_mangle)]
pub extern "C" fn viq_core_bsr_rp(
    alloc: Global,
    listener: &mut ListenerHandle,
    index: usize,
    row: &mut LearnedRow,
) -> bool
    ensures written { ValueWritten (learned_row_in listener.old.place.inside) (slice_get (rps_in listener.old.place.inside) index)
        result row.old row.new }
    ensures stays { listener.new.place.inside ≡ listener.old.place.inside }
{
    let Some(hearing) = listener.take(alloc) else {
        return false;
    };
    let is_there = learned::write_learned(hearing.as_ref(), index, row);
    listener.put(hearing);
    is_there
}

/// How many RPs wait for other fragments of their message.
#[unsafe(no_mangle)]
pub extern "C" fn viq_core_bsr_parts(alloc: Global, listener: &mut ListenerHandle) -> usize
    ensures count { result ≡ length (parts_in listener.old.place.inside) }
    ensures stays { listener.new.place.inside ≡ listener.old.place.inside }
{
    let Some(hearing) = listener.take(alloc) else {
        return 0;
    };
    let count = hearing.parts().len();
    listener.put(hearing);
    count
}

/// One of the RPs that wait for other fragments, counted from 0. False where there is none of this number.
#[unsafe(no_mangle)]
pub extern "C" fn viq_core_bsr_part(
    alloc: Global,
    listener: &mut ListenerHandle,
    index: usize,
    row: &mut PartRow,
) -> bool
    ensures written { ValueWritten part_row_of (slice_get (parts_in listener.old.place.inside) index) result row.old row.new }
    ensures stays { listener.new.place.inside ≡ listener.old.place.inside }
{
    let Some(hearing) = listener.take(alloc) else {
        return false;
    };
    let is_there = learned::write_part(hearing.parts(), index, row);
    listener.put(hearing);
    is_there
}
