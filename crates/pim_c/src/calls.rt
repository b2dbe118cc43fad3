//! The functions that C calls. Each takes the session out of the handle, calls it, and puts it back.
ghost use Rattle.law_plane.specs.Seen.{seen_event};
ghost use Rattle.pim_c.specs.Called.{CachedWritten, Copied, GuardSetBy, HostsSetBy, KeepAnswered, Made, OffloadWritten, OlderRead, PacketTaken, ReadBy, Restored, RpSetsSet, Saved, Seen, Stepped, VersionSetBy, changed_in, cleared, may_differ_in, older_rows_in, packets_in, probes_in, rows_in, standing_in, touched_in};
ghost use Rattle.pim_c.specs.Given.{candidate_of, config_of, given_event, place_of, range_of, route_of, rp_set_of};
ghost use Rattle.pim_c.specs.Placed.{PlacedCopy};
ghost use Rattle.pim_c.specs.Recorded.{Written, candidates_text, given_text, placed_text, ranges_text, reload_text, routes_text, rp_sets_text};
ghost use Rattle.pim_c.specs.Reloaded.{ReloadedCopy};
ghost use Rattle.pim_c.specs.Rows.{row_of};
ghost use Rattle.pim_c.specs.Returned.{guard_of, name_of, never, older_group_of, older_hosts_of, query_version_of, table_of_letter};
ghost use Rattle.pim_c.specs.Trees.{link_in, link_of, neighbour_in, neighbour_of, source_tree_in, source_tree_of, tree_in, tree_of};
ghost use Rattle.pim_c.specs.Written.{ValueWritten};
ghost use Rattle.pim_ifset.specs.Members.{iface_of};
ghost use Rattle.pim_model.specs.Judging.{last_moment};
ghost use Rattle.pim_saver.specs.Records.{sum_of};
ghost use Rattle.pim_session.specs.Shared.{next_in};
ghost use Rattle.pim_types.specs.declared.event.EventKind.{EventKind};
ghost use Rattle.std.specs.List.{slice_get};
ghost use Rattle.std.specs.Option.{option_map_or};
ghost use Rattle.std.specs.Prelude.{◌≡◌, None, length, map, nat_lt, option_and_then, option_map, unwrap_or};

use crate::given::{self, GivenCandidate, GivenConfiguration, GivenRange, GivenRoute, GivenRpSet};
use crate::handle::Handle;
use crate::recorded::{self, GivenCall};
use crate::returned::{
    self, DONE, Forwarding, LAST_MOMENT, MEMORY, MOMENT_FAR, NEVER, NO_ROUTER, NO_SETTING,
    NO_TABLE, NamedSource, OlderGroup, Packet, PlaneRow, answer_number, failure_number,
    kept_number, reload_number, rp_sets_number, set_number, stop_number,
};
use crate::rows::{CRow, write_row};
use crate::trees::{
    CLink, CNeighbour, CSourceTree, CTree, write_link, write_neighbour, write_source_tree,
    write_tree,
};
use pim_intake::LentEvent;
use pim_session::Session;
use pim_types::{Addr, Event, EventKind, IfaceId, SourceGroup};
use std::alloc::Global;

/// Makes a router of a configuration. If the handle had a router and the new one is made, the old one is freed.
#[unsafe(no_mangle)]
pub extern "C" fn viq_core_new(
    alloc: Global,
    router: &mut Handle,
    given: &GivenConfiguration<'_>,
) -> u32
    ensures { Made router.old.place.inside (config_of given.now) result router.new.place.inside }
{
    let Ok(config) = given::config(alloc, given) else {
        return MEMORY;
    };
    match Session::new(alloc, config) {
        Ok(Ok(session)) => router.renew(alloc, session),
        Ok(Err(refusal)) => u32::from(refusal.number()),
        Err(fault) => u32::from(fault.number()),
    }
}

/// Puts a router under another configuration. If the configuration is refused, nothing changes.
#[unsafe(no_mangle)]
pub extern "C" fn viq_core_reload(
    alloc: Global,
    router: &mut Handle,
    draw: u32,
    given: &GivenConfiguration<'_>,
) -> u32
    ensures { ReloadedCopy router.old.place.inside (config_of given.now) draw result
        router.new.place.inside }
{
    let Ok(config) = given::config(alloc, given) else {
        return router.refuse(alloc);
    };
    let Some(mut session) = router.take(alloc) else {
        return NO_ROUTER;
    };
    let answer = session.reload(draw, &config);
    router.put(session);
    match answer {
        Ok(Ok(())) => DONE,
        Ok(Err(refusal)) => reload_number(refusal),
        Err(stop) => stop_number(stop),
    }
}

/// Puts a router under another configuration by a map of places: of each old interface, by its number, the number of the
/// one that has its link, or the number that stands for none. If the configuration or the map is refused, nothing changes.
#[unsafe(no_mangle)]
pub extern "C" fn viq_core_reload_places(
    alloc: Global,
    router: &mut Handle,
    draw: u32,
    given: &GivenConfiguration<'_>,
    places: &[u32],
) -> u32
    ensures { PlacedCopy (map place_of places.now) router.old.place.inside
        (config_of given.now) draw result router.new.place.inside }
{
    let Ok(places) = given::places(alloc, places) else {
        return router.refuse(alloc);
    };
    let Ok(config) = given::config(alloc, given) else {
        return router.refuse(alloc);
    };
    let Some(mut session) = router.take(alloc) else {
        return NO_ROUTER;
    };
    let answer = session.reload_places(draw, &config, places.as_slice());
    router.put(session);
    match answer {
        Ok(Ok(())) => DONE,
        Ok(Err(refusal)) => reload_number(refusal),
        Err(stop) => stop_number(stop),
    }
}

/// Makes a router of saved bytes, which goes on from their state. If the handle had a router and the new one is made, the
/// old one is freed.
#[unsafe(no_mangle)]
pub extern "C" fn viq_core_restore(alloc: Global, router: &mut Handle, bytes: &[u8]) -> u32
    ensures { Restored router.old.place.inside bytes.now result router.new.place.inside }
{
    match Session::restore(alloc, bytes) {
        Ok(Ok(session)) => router.renew(alloc, session),
        Ok(Err(refusal)) => u32::from(refusal.number()),
        Err(fault) => u32::from(fault.number()),
    }
}

/// Saves a router's state: as many of its bytes as the buffer holds are written into it, and how many there are.
#[unsafe(no_mangle)]
pub extern "C" fn viq_core_save(
    alloc: Global,
    router: &mut Handle,
    room: &mut [u8],
    size: &mut usize,
) -> u32
    ensures written { Saved router.old.place.inside result size.old size.new room.old room.new }
    ensures stays { router.new.place.inside ≡ router.old.place.inside }
{
    let Some(session) = router.take(alloc) else {
        return NO_ROUTER;
    };
    let mut bytes = Vec::new(alloc);
    let answer = session.save(&mut bytes);
    router.put(session);
    match answer {
        Ok(()) => {
            *size = bytes.len();
            returned::write(room, bytes.as_slice());
            DONE
        }
        Err(fault) => u32::from(fault.number()),
    }
}

/// Frees a router with its memory. The handle then has none.
#[unsafe(no_mangle)]
pub extern "C" fn viq_core_end(alloc: Global, router: &mut Handle)
    ensures { router.new.place.inside ≡ None }
{
    let _ended = router.take(alloc);
}

/// Time passes up to the timestamp, in ms.
#[unsafe(no_mangle)]
pub extern "C" fn viq_core_advance(
    alloc: Global,
    router: &mut Handle,
    draw: u32,
    moment: u64,
) -> u32
    ensures { Stepped router.old.place.inside (given_event draw (EventKind.Advance moment)) result router.new.place.inside }
{
    let kind = EventKind::Advance { moment };
    router.step(alloc, &LentEvent::of(&Event { draw, kind }))
}

/// A packet was received on a link.
#[unsafe(no_mangle)]
pub extern "C" fn viq_core_frame(
    alloc: Global,
    router: &mut Handle,
    draw: u32,
    iface: u32,
    packet: &[u8],
) -> u32
    ensures { Stepped router.old.place.inside (given_event draw (EventKind.Frame (iface_of iface) packet.now)) result router.new.place.inside }
{
    let iface = IfaceId { number: iface };
    router.step(alloc, &LentEvent::frame(draw, iface, packet))
}

/// A packet was received for an address of the router.
#[unsafe(no_mangle)]
pub extern "C" fn viq_core_unicast(
    alloc: Global,
    router: &mut Handle,
    draw: u32,
    packet: &[u8],
) -> u32
    ensures { Stepped router.old.place.inside (given_event draw (EventKind.Unicast packet.now)) result router.new.place.inside }
{
    router.step(alloc, &LentEvent::unicast(draw, packet))
}

/// The interface goes up.
#[unsafe(no_mangle)]
pub extern "C" fn viq_core_up(alloc: Global, router: &mut Handle, draw: u32, iface: u32) -> u32
    ensures { Stepped router.old.place.inside (given_event draw (EventKind.Up (iface_of iface))) result router.new.place.inside }
{
    let kind = EventKind::Up {
        iface: IfaceId { number: iface },
    };
    router.step(alloc, &LentEvent::of(&Event { draw, kind }))
}

/// The interface goes down.
#[unsafe(no_mangle)]
pub extern "C" fn viq_core_down(alloc: Global, router: &mut Handle, draw: u32, iface: u32) -> u32
    ensures { Stepped router.old.place.inside (given_event draw (EventKind.Down (iface_of iface))) result router.new.place.inside }
{
    let kind = EventKind::Down {
        iface: IfaceId { number: iface },
    };
    router.step(alloc, &LentEvent::of(&Event { draw, kind }))
}

/// The unicast routes are replaced.
#[unsafe(no_mangle)]
pub extern "C" fn viq_core_routes(
    alloc: Global,
    router: &mut Handle,
    draw: u32,
    routes: &[GivenRoute],
) -> u32
    ensures { Copied router.old.place.inside (given_event draw (EventKind.Routes (map route_of routes.now))) result router.new.place.inside }
{
    match given::new_routes(alloc, draw, routes) {
        Ok(event) => router.step(alloc, &LentEvent::of(&event)),
        Err(_) => router.refuse(alloc),
    }
}

/// The RP ranges are replaced.
#[unsafe(no_mangle)]
pub extern "C" fn viq_core_ranges(
    alloc: Global,
    router: &mut Handle,
    draw: u32,
    ranges: &[GivenRange],
) -> u32
    ensures { Copied router.old.place.inside (given_event draw (EventKind.Rps (map range_of ranges.now))) result router.new.place.inside }
{
    match given::new_ranges(alloc, draw, ranges) {
        Ok(event) => router.step(alloc, &LentEvent::of(&event)),
        Err(_) => router.refuse(alloc),
    }
}

/// The candidate RPs are replaced.
#[unsafe(no_mangle)]
pub extern "C" fn viq_core_candidates(
    alloc: Global,
    router: &mut Handle,
    draw: u32,
    candidates: &[GivenCandidate],
) -> u32
    ensures { Copied router.old.place.inside (given_event draw (EventKind.RpCandidates (map candidate_of candidates.now))) result router.new.place.inside }
{
    match given::new_candidates(alloc, draw, candidates) {
        Ok(event) => router.step(alloc, &LentEvent::of(&event)),
        Err(_) => router.refuse(alloc),
    }
}

/// How many packets are to be sent: those of the last event that are untaken.
#[unsafe(no_mangle)]
pub extern "C" fn viq_core_packets(alloc: Global, router: &mut Handle) -> usize
    ensures count { result ≡ length (packets_in router.old.place.inside) }
    ensures stays { router.new.place.inside ≡ router.old.place.inside }
{
    let Some(session) = router.take(alloc) else {
        return 0;
    };
    let count = session.sent().len();
    router.put(session);
    count
}

/// Takes the first of the packets that `viq_core_packets` counts: its bytes are written into the buffer. False, with
/// nothing changed, where there is none or the buffer is too small for it.
#[unsafe(no_mangle)]
pub extern "C" fn viq_core_take(
    alloc: Global,
    router: &mut Handle,
    packet: &mut Packet,
    room: &mut [u8],
) -> bool
    ensures { PacketTaken router.old.place.inside result packet.old packet.new room.old room.new router.new.place.inside }
{
    let Some(mut session) = router.take(alloc) else {
        return false;
    };
    if !returned::write_packet(session.sent(), session.copies(), packet, room) {
        router.put(session);
        return false;
    }
    session.remove_first();
    router.put(session);
    true
}

/// Takes all packets away that `viq_core_packets` counts.
#[unsafe(no_mangle)]
pub extern "C" fn viq_core_clear(alloc: Global, router: &mut Handle)
    ensures { router.new.place.inside ≡ option_map cleared router.old.place.inside }
{
    let Some(mut session) = router.take(alloc) else {
        return;
    };
    session.clear();
    router.put(session);
}

/// How many copies of a data packet the last event sent on links. They are the last of the packets that it sent on
/// links.
#[unsafe(no_mangle)]
pub extern "C" fn viq_core_copies(alloc: Global, router: &mut Handle) -> u32
    ensures copies { result ≡ option_map_or (λ r. r.copies) (standing_in router.old.place.inside) 0 }
    ensures stays { router.new.place.inside ≡ router.old.place.inside }
{
    let Some(session) = router.take(alloc) else {
        return 0;
    };
    let copies = session.copies();
    router.put(session);
    copies
}

/// The timestamp, in ms, at which the next timer expires, or sources are announced to the others of a set, whichever is
/// sooner, or 2^64 - 1 where neither is so.
#[unsafe(no_mangle)]
pub extern "C" fn viq_core_next_moment(alloc: Global, router: &mut Handle) -> u64
    ensures moment { result ≡ unwrap_or (option_and_then next_in router.old.place.inside) never }
    ensures stays { router.new.place.inside ≡ router.old.place.inside }
{
    let Some(session) = router.take(alloc) else {
        return NEVER;
    };
    let next = session.next_moment().unwrap_or(NEVER);
    router.put(session);
    next
}

/// Reads the rows of a table, which is named by the letter of its printed lines.
#[unsafe(no_mangle)]
pub extern "C" fn viq_core_read(alloc: Global, router: &mut Handle, letter: u8) -> u32
    ensures { ReadBy router.old.place.inside (table_of_letter letter) result router.new.place.inside }
{
    let Some(table) = returned::table(letter) else {
        return NO_TABLE;
    };
    let Some(mut session) = router.take(alloc) else {
        return NO_ROUTER;
    };
    let answer = session.read(table);
    router.put(session);
    match answer {
        Ok(()) => DONE,
        Err(fault) => u32::from(fault.number()),
    }
}

/// How many rows were read.
#[unsafe(no_mangle)]
pub extern "C" fn viq_core_rows(alloc: Global, router: &mut Handle) -> usize
    ensures count { result ≡ length (rows_in router.old.place.inside) }
    ensures stays { router.new.place.inside ≡ router.old.place.inside }
{
    let Some(session) = router.take(alloc) else {
        return 0;
    };
    let count = session.rows().len();
    router.put(session);
    count
}

/// Reads one of the rows that were read, counted from 0. False where there is no row of this number.
#[unsafe(no_mangle)]
pub extern "C" fn viq_core_row(
    alloc: Global,
    router: &mut Handle,
    index: usize,
    row: &mut CRow,
) -> bool
    ensures written { ValueWritten row_of (slice_get (rows_in router.old.place.inside) index) result row.old row.new }
    ensures stays { router.new.place.inside ≡ router.old.place.inside }
{
    let Some(session) = router.take(alloc) else {
        return false;
    };
    let is_there = write_row(session.rows(), index, row);
    router.put(session);
    is_there
}

/// Sets which hosts of older versions of IGMP an interface hears, by a number: 0 none, 1 those of version 2, 2 those of
/// versions 1 and 2. What was heard there before is forgotten.
#[unsafe(no_mangle)]
pub extern "C" fn viq_core_older(alloc: Global, router: &mut Handle, iface: u32, hosts: u32) -> u32
    ensures { HostsSetBy router.old.place.inside iface (older_hosts_of hosts) result router.new.place.inside }
{
    let Some(hosts) = returned::older_hosts(hosts) else {
        return NO_SETTING;
    };
    let Some(mut session) = router.take(alloc) else {
        return NO_ROUTER;
    };
    let answer = session.set_older_hosts(IfaceId { number: iface }, hosts);
    router.put(session);
    match answer {
        Ok(answer) => set_number(answer),
        Err(fault) => u32::from(fault.number()),
    }
}

/// Sets the version in which an interface queries: 2 or 3.
#[unsafe(no_mangle)]
pub extern "C" fn viq_core_query_version(
    alloc: Global,
    router: &mut Handle,
    iface: u32,
    version: u32,
) -> u32
    ensures { VersionSetBy router.old.place.inside iface (query_version_of version) result router.new.place.inside }
{
    let Some(version) = returned::query_version(version) else {
        return NO_SETTING;
    };
    let Some(mut session) = router.take(alloc) else {
        return NO_ROUTER;
    };
    let answer = session.set_query_version(IfaceId { number: iface }, version);
    router.put(session);
    match answer {
        Ok(answer) => set_number(answer),
        Err(fault) => u32::from(fault.number()),
    }
}

/// Sets the guard, which stops what would be forwarded as data though hosts and routers read it as IGMP or PIM: 0 off,
/// 1 on.
#[unsafe(no_mangle)]
pub extern "C" fn viq_core_guard(alloc: Global, router: &mut Handle, on: u32) -> u32
    ensures { GuardSetBy router.old.place.inside (guard_of on) result router.new.place.inside }
{
    let Some(is_on) = returned::guard(on) else {
        return NO_SETTING;
    };
    let Some(mut session) = router.take(alloc) else {
        return NO_ROUTER;
    };
    let answer = session.set_guard(is_on);
    router.put(session);
    match answer {
        Ok(()) => DONE,
        Err(fault) => u32::from(fault.number()),
    }
}

/// Sets the sets of RPs that share an address, in place of those before. If they are refused, those before stay.
#[unsafe(no_mangle)]
pub extern "C" fn viq_core_anycast(
    alloc: Global,
    router: &mut Handle,
    sets: &[GivenRpSet<'_>],
) -> u32
    ensures { RpSetsSet router.old.place.inside (map rp_set_of sets.now) result router.new.place.inside }
{
    let Ok(sets) = given::rp_sets(alloc, sets) else {
        return MEMORY;
    };
    let Some(mut session) = router.take(alloc) else {
        return NO_ROUTER;
    };
    let answer = session.set_rp_sets(sets);
    router.put(session);
    match answer {
        Ok(answer) => rp_sets_number(answer),
        Err(fault) => u32::from(fault.number()),
    }
}

/// Reads the groups that are in an older mode.
#[unsafe(no_mangle)]
pub extern "C" fn viq_core_older_read(alloc: Global, router: &mut Handle) -> u32
    ensures { OlderRead router.old.place.inside result router.new.place.inside }
{
    let Some(mut session) = router.take(alloc) else {
        return NO_ROUTER;
    };
    let answer = session.read_older();
    router.put(session);
    match answer {
        Ok(()) => DONE,
        Err(fault) => u32::from(fault.number()),
    }
}

/// How many groups in an older mode were read.
#[unsafe(no_mangle)]
pub extern "C" fn viq_core_older_rows(alloc: Global, router: &mut Handle) -> usize
    ensures count { result ≡ length (older_rows_in router.old.place.inside) }
    ensures stays { router.new.place.inside ≡ router.old.place.inside }
{
    let Some(session) = router.take(alloc) else {
        return 0;
    };
    let count = session.older_rows().len();
    router.put(session);
    count
}

/// Reads one of the groups in an older mode that were read, counted from 0. False where there is none of this number.
#[unsafe(no_mangle)]
pub extern "C" fn viq_core_older_row(
    alloc: Global,
    router: &mut Handle,
    index: usize,
    row: &mut OlderGroup,
) -> bool
    ensures written { ValueWritten older_group_of (slice_get (older_rows_in router.old.place.inside) index) result row.old row.new }
    ensures stays { router.new.place.inside ≡ router.old.place.inside }
{
    let Some(session) = router.take(alloc) else {
        return false;
    };
    let is_there = returned::write_older(session.older_rows(), index, row);
    router.put(session);
    is_there
}

/// How data of a source to a group is forwarded, by the forwarding cache. False where the cache has no row of it.
#[unsafe(no_mangle)]
pub extern "C" fn viq_core_cached(
    alloc: Global,
    router: &mut Handle,
    source: u32,
    group: u32,
    forwarding: &mut Forwarding,
) -> bool
    ensures written { CachedWritten (standing_in router.old.place.inside) source group result forwarding.old forwarding.new }
    ensures stays { router.new.place.inside ≡ router.old.place.inside }
{
    let source = Addr { bits: source };
    let group = Addr { bits: group };
    let Some(session) = router.take(alloc) else {
        return false;
    };
    let row = session.cached(source, group);
    let is_there = returned::write_cached(row, session.rp_interface(group), forwarding);
    router.put(session);
    is_there
}

/// What a data plane may do with the packets of a source to a group. False where the router takes all of them.
#[unsafe(no_mangle)]
pub extern "C" fn viq_core_offload(
    alloc: Global,
    router: &mut Handle,
    source: u32,
    group: u32,
    row: &mut PlaneRow,
) -> bool
    ensures written { OffloadWritten (standing_in router.old.place.inside) source group result row.old row.new }
    ensures stays { router.new.place.inside ≡ router.old.place.inside }
{
    let source = Addr { bits: source };
    let group = Addr { bits: group };
    let Some(session) = router.take(alloc) else {
        return false;
    };
    let is_there = returned::write_offload(session.offload(source, group), row);
    router.put(session);
    is_there
}

/// The macros of (*,G) of any group, each evaluated anew. False where there is no router that works.
#[unsafe(no_mangle)]
pub extern "C" fn viq_core_tree(
    alloc: Global,
    router: &mut Handle,
    group: u32,
    tree: &mut CTree,
) -> bool
    ensures written { ValueWritten tree_of (tree_in (standing_in router.old.place.inside) group) result tree.old tree.new }
    ensures stays { router.new.place.inside ≡ router.old.place.inside }
{
    let Some(session) = router.take(alloc) else {
        return false;
    };
    let is_there = write_tree(session.tree(Addr { bits: group }), tree);
    router.put(session);
    is_there
}

/// The macros of (S,G) and of (S,G,rpt) of any source and group, each evaluated anew. False where there is no router
/// that works.
#[unsafe(no_mangle)]
pub extern "C" fn viq_core_source_tree(
    alloc: Global,
    router: &mut Handle,
    source: u32,
    group: u32,
    tree: &mut CSourceTree,
) -> bool
    ensures written { ValueWritten source_tree_of (source_tree_in (standing_in router.old.place.inside) group source)
        result tree.old tree.new }
    ensures stays { router.new.place.inside ≡ router.old.place.inside }
{
    let source = Addr { bits: source };
    let group = Addr { bits: group };
    let Some(session) = router.take(alloc) else {
        return false;
    };
    let is_there = write_source_tree(session.source_tree(SourceGroup { source, group }), tree);
    router.put(session);
    is_there
}

/// An interface with its DR and its querier. False where it isn't configured.
#[unsafe(no_mangle)]
pub extern "C" fn viq_core_link(
    alloc: Global,
    router: &mut Handle,
    iface: u32,
    link: &mut CLink,
) -> bool
    ensures written { ValueWritten link_of (link_in (standing_in router.old.place.inside) iface) result link.old link.new }
    ensures stays { router.new.place.inside ≡ router.old.place.inside }
{
    let Some(session) = router.take(alloc) else {
        return false;
    };
    let is_there = write_link(session.link(IfaceId { number: iface }), link);
    router.put(session);
    is_there
}

/// A neighbour on an interface with the options of its last Hello. False where there is none with the address.
#[unsafe(no_mangle)]
pub extern "C" fn viq_core_neighbour(
    alloc: Global,
    router: &mut Handle,
    iface: u32,
    address: u32,
    neighbour: &mut CNeighbour,
) -> bool
    ensures written { ValueWritten neighbour_of (neighbour_in (standing_in router.old.place.inside) iface address)
        result neighbour.old neighbour.new }
    ensures stays { router.new.place.inside ≡ router.old.place.inside }
{
    let iface = IfaceId { number: iface };
    let address = Addr { bits: address };
    let Some(session) = router.take(alloc) else {
        return false;
    };
    let is_there = write_neighbour(session.neighbour(iface, address), neighbour);
    router.put(session);
    is_there
}

/// How many sources the last event listed as changed in the forwarding cache.
#[unsafe(no_mangle)]
pub extern "C" fn viq_core_changed(alloc: Global, router: &mut Handle) -> usize
    ensures count { result ≡ length (changed_in router.old.place.inside) }
    ensures stays { router.new.place.inside ≡ router.old.place.inside }
{
    let Some(session) = router.take(alloc) else {
        return 0;
    };
    let count = session.changed().len();
    router.put(session);
    count
}

/// Reads one of the sources that the last event listed as changed, counted from 0. False where there is no source of
/// this number.
#[unsafe(no_mangle)]
pub extern "C" fn viq_core_changed_source(
    alloc: Global,
    router: &mut Handle,
    index: usize,
    name: &mut NamedSource,
) -> bool
    ensures written { ValueWritten name_of (slice_get (changed_in router.old.place.inside) index) result name.old name.new }
    ensures stays { router.new.place.inside ≡ router.old.place.inside }
{
    let Some(session) = router.take(alloc) else {
        return false;
    };
    let is_there = returned::write_name(session.changed(), index, name);
    router.put(session);
    is_there
}

/// Whether what is offered of a source may have changed in the last event.
#[unsafe(no_mangle)]
pub extern "C" fn viq_core_may_differ(
    alloc: Global,
    router: &mut Handle,
    source: u32,
    group: u32,
) -> bool
    ensures differs { result ≡ may_differ_in router.old.place.inside source group }
    ensures stays { router.new.place.inside ≡ router.old.place.inside }
{
    let source = Addr { bits: source };
    let group = Addr { bits: group };
    let Some(session) = router.take(alloc) else {
        return true;
    };
    let may_differ = session.may_differ(source, group);
    router.put(session);
    may_differ
}

/// A data plane saw a packet of a source to a group on the interface.
#[unsafe(no_mangle)]
pub extern "C" fn viq_core_seen(
    alloc: Global,
    router: &mut Handle,
    draw: u32,
    iface: u32,
    source: u32,
    group: u32,
) -> u32
    ensures { Seen router.old.place.inside (seen_event draw (iface_of iface) group source) group source result router.new.place.inside }
{
    let iface = IfaceId { number: iface };
    let name = SourceGroup {
        source: Addr { bits: source },
        group: Addr { bits: group },
    };
    let Some(mut session) = router.take(alloc) else {
        return NO_ROUTER;
    };
    let answer = answer_number(session.packet_seen(draw, iface, name));
    router.put(session);
    answer
}

/// A data plane forwarded its last packet of a source to a group at the timestamp, in ms, at most 2^62.
#[unsafe(no_mangle)]
pub extern "C" fn viq_core_keep(
    alloc: Global,
    router: &mut Handle,
    source: u32,
    group: u32,
    moment: u64,
) -> u32
    ensures { KeepAnswered (nat_lt last_moment moment) router.old.place.inside source group moment result router.new.place.inside }
{
    if LAST_MOMENT < moment {
        return MOMENT_FAR;
    }
    let source = Addr { bits: source };
    let group = Addr { bits: group };
    let Some(mut session) = router.take(alloc) else {
        return NO_ROUTER;
    };
    let answer = session.keep(source, group, moment);
    router.put(session);
    match answer {
        Ok(runs) => kept_number(runs),
        Err(fault) => failure_number(fault),
    }
}

/// By how much the meter of visited trie nodes rose in the last event.
#[unsafe(no_mangle)]
pub extern "C" fn viq_core_probes(alloc: Global, router: &mut Handle) -> u64
    ensures probes { result ≡ probes_in router.old.place.inside }
    ensures stays { router.new.place.inside ≡ router.old.place.inside }
{
    let Some(session) = router.take(alloc) else {
        return 0;
    };
    let probes = session.probes();
    router.put(session);
    probes
}

/// The rows of the forwarding cache that the last event evaluated, put in and took out.
#[unsafe(no_mangle)]
pub extern "C" fn viq_core_touched(alloc: Global, router: &mut Handle) -> u64
    ensures touched { result ≡ touched_in router.old.place.inside }
    ensures stays { router.new.place.inside ≡ router.old.place.inside }
{
    let Some(session) = router.take(alloc) else {
        return 0;
    };
    let touched = session.touched();
    router.put(session);
    touched
}

/// The record of a call without a list: as many of its bytes as the buffer holds are written into it, and how many there
/// are, 0 where no kind of call has the letter.
#[unsafe(no_mangle)]
pub extern "C" fn viq_core_record(
    alloc: Global,
    call: &GivenCall,
    packet: &[u8],
    room: &mut [u8],
    size: &mut usize,
) -> u32
    ensures { Written (given_text call.now packet.now) result size.old size.new room.old room.new }
{
    recorded::tell(recorded::call_record(alloc, call, packet), room, size)
}

/// The record of new unicast routes, written so.
#[unsafe(no_mangle)]
pub extern "C" fn viq_core_record_routes(
    alloc: Global,
    call: &GivenCall,
    routes: &[GivenRoute],
    room: &mut [u8],
    size: &mut usize,
) -> u32
    ensures { Written (routes_text call.now routes.now) result size.old size.new room.old room.new }
{
    recorded::tell(recorded::routes_record(alloc, call, routes), room, size)
}

/// The record of new RP ranges, written so.
#[unsafe(no_mangle)]
pub extern "C" fn viq_core_record_ranges(
    alloc: Global,
    call: &GivenCall,
    ranges: &[GivenRange],
    room: &mut [u8],
    size: &mut usize,
) -> u32
    ensures { Written (ranges_text call.now ranges.now) result size.old size.new room.old room.new }
{
    recorded::tell(recorded::ranges_record(alloc, call, ranges), room, size)
}

/// The record of new candidate RPs, written so.
#[unsafe(no_mangle)]
pub extern "C" fn viq_core_record_candidates(
    alloc: Global,
    call: &GivenCall,
    candidates: &[GivenCandidate],
    room: &mut [u8],
    size: &mut usize,
) -> u32
    ensures { Written (candidates_text call.now candidates.now) result size.old size.new room.old room.new }
{
    let record = recorded::candidates_record(alloc, call, candidates);
    recorded::tell(record, room, size)
}

/// The record of sets of RPs that share an address, written so.
#[unsafe(no_mangle)]
pub extern "C" fn viq_core_record_anycast(
    alloc: Global,
    call: &GivenCall,
    sets: &[GivenRpSet<'_>],
    room: &mut [u8],
    size: &mut usize,
) -> u32
    ensures { Written (rp_sets_text call.now sets.now) result size.old size.new room.old room.new }
{
    recorded::tell(recorded::rp_sets_record(alloc, call, sets), room, size)
}

/// The record of another configuration, written so.
#[unsafe(no_mangle)]
pub extern "C" fn viq_core_record_reload(
    alloc: Global,
    call: &GivenCall,
    given: &GivenConfiguration<'_>,
    room: &mut [u8],
    size: &mut usize,
) -> u32
    ensures { Written (reload_text call.now (config_of given.now))
        result size.old size.new room.old room.new }
{
    let Ok(config) = given::config(alloc, given) else {
        return MEMORY;
    };
    recorded::tell(recorded::reload_record(alloc, call, &config), room, size)
}

/// The record of another configuration by a map of places, written so.
#[unsafe(no_mangle)]
pub extern "C" fn viq_core_record_reload_places(
    alloc: Global,
    call: &GivenCall,
    given: &GivenConfiguration<'_>,
    places: &[u32],
    room: &mut [u8],
    size: &mut usize,
) -> u32
    ensures { Written (placed_text call.now (config_of given.now) places.now)
        result size.old size.new room.old room.new }
{
    let Ok(config) = given::config(alloc, given) else {
        return MEMORY;
    };
    let record = recorded::placed_record(alloc, call, &config, places);
    recorded::tell(record, room, size)
}

/// The sum of the packets that are to be sent, as it is in a record.
#[unsafe(no_mangle)]
pub extern "C" fn viq_core_sum(alloc: Global, router: &mut Handle) -> u32
    ensures sum { result ≡ sum_of (packets_in router.old.place.inside) }
    ensures stays { router.new.place.inside ≡ router.old.place.inside }
{
    let Some(session) = router.take(alloc) else {
        return pim_saver::sum_of(&[]);
    };
    let sum = pim_saver::sum_of(session.sent());
    router.put(session);
    sum
}
