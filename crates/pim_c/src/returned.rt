//! What the router returns to a program: answers, packets and rows.
ghost use Rattle.std.specs.List.{slice_get};
ghost use Rattle.std.specs.Prelude.{◌≡◌, ◌+◌, ◌<◌, ◌≤◌, ◌^◌, IfErr, IfOk, None, Option, false, filter, if◌then◌else◌, length, nat_lt, true, ℕ};
ghost use Rattle.pim_fanout.specs.Before.{name_key};
ghost use Rattle.pim_fanout.specs.Named.{keys_of};
ghost use Rattle.pim_ifset.specs.Members.{has, mask_of};
ghost use Rattle.pim_macros.specs.Rows.{number_of};
ghost use Rattle.pim_mfc.specs.Laws.{IsAfresh, TellsRow};
ghost use Rattle.pim_model.specs.Cache.{Answers};
ghost use Rattle.pim_model.specs.Cause.{is_on_link};
ghost use Rattle.pim_model.specs.Sets.{Set};
ghost use Rattle.law_plane.specs.Offered.{Offered as OfferedValue};
ghost use Rattle.pim_mfc.specs.Shown.{ShowsOffered, TellsOffload};
ghost use Rattle.pim_state.specs.Shown.{Shows};
ghost use Rattle.pim_c.specs.Called.{PacketWritten, forwarding_of, interface_bits, is_copy, plane_row_of};
ghost use Rattle.pim_c.specs.Returned.{answer_number, bytes_in, guard_of, iface_number, ignored_number, kept_number, link_kind, failure_number, mode_number, name_of, older_group_of, older_hosts_of, query_version_of, reload_number, rp_sets_number, set_number, stop_number, c_packet, table_of_letter, verdict_number, written_into};
ghost use Rattle.pim_c.specs.Written.{Unwritten, ValueWritten};

use igmp_older::{Mode, OlderHosts, OlderRow, QueryVersion};
use pim_anycast::BadRpSet;
use pim_ifset::IfSet;
use pim_mfc::{CacheRow, Offered};
use pim_rows::Table;
use pim_session::{ReloadRefusal, Stop};
use pim_types::{Emission, Fault, IfaceId, Ignored, Refusal, SourceGroup, Verdict};

/// The event was accepted and done.
pub const DONE: u32 = 0;
/// The timestamp is past the latest that an event may have.
pub const MOMENT_FAR: u32 = 21;
/// An allocation failed, and nothing has changed.
pub const MEMORY: u32 = 40;
/// The router had failed before this call.
pub const FAILED: u32 = 41;
/// An allocation failed in the midst of a change: the router has failed.
pub const LOST: u32 = 43;
/// The handle has no router.
pub const NO_ROUTER: u32 = 50;
/// No table has this letter.
pub const NO_TABLE: u32 = 51;
/// The source's keepalive timer doesn't run.
pub const NO_TIMER: u32 = 52;
/// No setting has this number.
pub const NO_SETTING: u32 = 54;
/// Packets of the event before are untaken, and nothing has changed.
pub const UNTAKEN: u32 = 55;
/// The handle has no listener for Bootstraps.
pub const NO_LISTENER: u32 = 56;
/// The handle has no candidacy.
pub const NO_CANDIDACY: u32 = 57;
/// The guard stopped the event.
pub const GUARDED: u32 = 109;
/// The router isn't the elected BSR, for which an advertisement is.
pub const NOT_ELECTED: u32 = 115;
/// A packet that leaves on an interface and is no copy.
pub const FRAME: u32 = 1;
/// A copy of a packet of data, which leaves on an interface.
pub const COPY: u32 = 2;
/// A packet that leaves by unicast routing.
pub const UNICAST: u32 = 3;
/// The latest timestamp of an event, in ms.
pub const LAST_MOMENT: u64 = 1 << 62;
/// Stands for a timestamp that doesn't exist, as where no timer runs.
pub const NEVER: u64 = u64::MAX;
/// No interface.
pub const NO_INTERFACE: u32 = u32::MAX;

/// The number of a reason to ignore an event, as C reads it.
pub(crate) fn ignored_number(reason: Ignored) -> u32
    ensures { result ≡ ignored_number reason }
{
    match reason {
        Ignored::Own => 101,
        Ignored::NotForMe => 102,
        Ignored::OtherType => 103,
        Ignored::Mask => 104,
        Ignored::LinkLocal => 105,
        Ignored::NoNeighbour => 106,
        Ignored::NotRp => 107,
        Ignored::Already => 108,
    }
}

// The number of an answer without a refusal, as C reads it.
fn verdict_number(verdict: Verdict) -> u32
    ensures { result ≡ verdict_number verdict }
{
    match verdict {
        Verdict::Done => DONE,
        Verdict::Ignored(reason) => ignored_number(reason),
    }
}

/// The number of a fault after which the router has failed.
pub fn failure_number(fault: Fault) -> u32
    ensures { result ≡ failure_number fault }
{
    match fault {
        Fault::Memory => LOST,
        Fault::Failed => FAILED,
        Fault::Wire => u32::from(fault.number()),
    }
}

/// The number of why an event wasn't taken.
pub fn stop_number(stop: Stop) -> u32
    ensures { result ≡ stop_number stop }
{
    match stop {
        Stop::Untaken => UNTAKEN,
        Stop::Guarded => GUARDED,
        Stop::Fault(fault) => failure_number(fault),
    }
}

/// The number of an answer to what changes a router.
pub fn answer_number(answer: Result<Result<Verdict, Refusal>, Stop>) -> u32
    ensures answer { IfOk answer (λ a. result ≡ answer_number a) }
    ensures stop { IfErr answer (λ s. result ≡ stop_number s) }
{
    match answer {
        Ok(Ok(verdict)) => verdict_number(verdict),
        Ok(Err(refusal)) => u32::from(refusal.number()),
        Err(stop) => stop_number(stop),
    }
}

/// The number of an answer to a setting of an interface.
pub fn set_number(answer: Result<(), Refusal>) -> u32
    ensures { result ≡ set_number answer }
{
    match answer {
        Ok(()) => DONE,
        Err(refusal) => u32::from(refusal.number()),
    }
}

/// The number of why a reload isn't done.
pub fn reload_number(refusal: ReloadRefusal) -> u32
    ensures { result ≡ reload_number refusal }
{
    match refusal {
        ReloadRefusal::Configuration(refusal) => u32::from(refusal.number()),
        ReloadRefusal::SetsDontFit => u32::from(BadRpSet::NUMBER),
    }
}

/// The number of an answer to sets of RPs.
pub fn rp_sets_number(answer: Result<(), BadRpSet>) -> u32
    ensures { result ≡ rp_sets_number answer }
{
    match answer {
        Ok(()) => DONE,
        Err(_) => u32::from(BadRpSet::NUMBER),
    }
}

/// The hosts that a number names, if it names any.
pub fn older_hosts(number: u32) -> Option<OlderHosts>
    ensures { result ≡ older_hosts_of number }
{
    match number {
        0 => Some(OlderHosts::Nobody),
        1 => Some(OlderHosts::VersionTwo),
        2 => Some(OlderHosts::All),
        _ => None,
    }
}

/// The version of queries that a number names, if it names one.
pub fn query_version(number: u32) -> Option<QueryVersion>
    ensures { result ≡ query_version_of number }
{
    match number {
        2 => Some(QueryVersion::Two),
        3 => Some(QueryVersion::Three),
        _ => None,
    }
}

/// What a number says of the guard, if it says anything: whether it is on.
pub fn guard(number: u32) -> Option<bool>
    ensures { result ≡ guard_of number }
{
    match number {
        0 => Some(false),
        1 => Some(true),
        _ => None,
    }
}

/// Whether a keepalive timer runs, as the number of an answer.
pub fn kept_number(runs: bool) -> u32
    ensures { result ≡ kept_number runs }
{
    if runs { DONE } else { NO_TIMER }
}

/// A packet that leaves, without its bytes.
#[repr(C)]
#[derive(Drop)]
pub struct Packet {
    /// `FRAME`, `COPY` or `UNICAST`.
    pub kind: u32,
    /// The interface on which it leaves, or 0.
    pub iface: u32,
    /// The address to which it is to be routed, or 0.
    pub destination: u32,
    /// The number of the packet's bytes.
    pub length: usize,
}

/// Whether a packet leaves on an interface.
pub fn is_on_link(emission: &Emission) -> bool
    ensures { result ≡ is_on_link emission.now }
{
    match emission {
        Emission::Link { .. } => true,
        Emission::Unicast { .. } => false,
    }
}

// The kind of a packet that leaves on an interface, as C reads it: a copy of data or another frame.
fn link_kind(is_copy: bool) -> u32
    ensures { result ≡ link_kind is_copy }
{
    if is_copy { COPY } else { FRAME }
}

/// A packet without its bytes. One that leaves on an interface is marked as a copy of data or as none.
pub fn c_packet(emission: &Emission, is_copy: bool) -> Packet
    ensures { result ≡ c_packet emission.now is_copy }
{
    match emission {
        Emission::Link { iface, bytes } => Packet {
            kind: link_kind(is_copy),
            iface: iface.number,
            destination: 0,
            length: bytes.len(),
        },
        Emission::Unicast { destination, bytes } => Packet {
            kind: UNICAST,
            iface: 0,
            destination: destination.bits,
            length: bytes.len(),
        },
    }
}

/// A packet's bytes.
pub fn bytes(emission: &Emission) -> &[u8]
    ensures { result.now ≡ bytes_in emission.now }
{
    match emission {
        Emission::Link { iface: _, bytes } => bytes.as_slice(),
        Emission::Unicast {
            destination: _,
            bytes,
        } => bytes.as_slice(),
    }
}

/// Writes bytes into a buffer from its start, as many as fit.
pub fn write(room: &mut [u8], bytes: &[u8])
    ensures { room.new ≡ written_into room.old bytes.now }
{
    if bytes.len() < room.len() {
        room[..bytes.len()].copy_from_slice(bytes);
    } else {
        let count = room.len();
        room.copy_from_slice(&bytes[..count]);
    }
}

// The number of an interface, or that of none, as C reads it.
fn iface_number(iface: Option<IfaceId>) -> u32
    ensures { result ≡ iface_number iface }
{
    match iface {
        Some(iface) => iface.number,
        None => NO_INTERFACE,
    }
}

/// A group in an older mode on an interface. A timer that doesn't run has `NEVER`.
#[repr(C)]
#[derive(Drop)]
pub struct OlderGroup {
    pub iface: u32,
    pub group: u32,
    /// The version, 1 or 2.
    pub mode: u32,
    /// When the IGMPv1 Host Present timer expires, in ms.
    pub one_end: u64,
    /// When the IGMPv2 Host Present timer expires, in ms.
    pub two_end: u64,
}

// The version of IGMP of a group's mode, as C reads it.
fn mode_number(mode: Mode) -> u32
    ensures { result ≡ mode_number mode }
{
    match mode {
        Mode::One => 1,
        Mode::Two => 2,
        Mode::Three => 3,
    }
}

/// A group in an older mode as C reads it.
pub fn older_group(row: &OlderRow) -> OlderGroup
    ensures { result ≡ older_group_of row.now }
{
    OlderGroup {
        iface: row.iface.number,
        group: row.group.bits,
        mode: mode_number(row.mode),
        one_end: row.one_end.unwrap_or(NEVER),
        two_end: row.two_end.unwrap_or(NEVER),
    }
}

/// A set of interfaces as the bits of two words: 0 to 63, and 64 to 119.
#[repr(C)]
#[derive(Drop)]
pub struct Interfaces {
    pub low: u64,
    pub high: u64,
}

/// How data of a source to a group is forwarded.
#[repr(C)]
#[derive(Drop)]
pub struct Forwarding {
    /// RPF_interface(S), or `NO_INTERFACE`.
    pub rpf: u32,
    /// RPF_interface(RP(G)), or `NO_INTERFACE`.
    pub shared_rpf: u32,
    /// SPTbit(S,G).
    pub has_spt_bit: bool,
    /// Whether the register tunnel is in `immediate` and in `inherited`.
    pub has_tunnel: bool,
    /// immediate_olist(S,G).
    pub immediate: Interfaces,
    /// inherited_olist(S,G).
    pub inherited: Interfaces,
    /// inherited_olist(S,G,rpt).
    pub shared_tree: Interfaces,
}

// A bit of a word, which stands for an interface.
fn bit(set: IfSet, iface: IfaceId, at: u32) -> u64
    requires { at < 64 }
    ensures { result ≡ (if has set iface.number then 2 ^ at else 0) }
{
    if set.contains(iface) { 1 << at } else { 0 }
}

// As many of a set's interfaces as `count`, from one on, as bits of a word: the first is the lowest bit.
#[tactic(auto, using(crate::proofs::Bits::next_bit, crate::proofs::Bits::no_bit, crate::proofs::Bits::bits_fit))]
fn word(set: IfSet, from: u32, count: u32) -> u64
    requires { (count ≤ 64) × (from ≤ 64) }
    ensures { result ≡ mask_of (λ q. has set (from + q)) count }
{
    let mut word = 0;
    for at in 0..count {
        word += bit(set, IfaceId { number: from + at }, at);
    }
    word
}

// The two words that have a set's interfaces as bits.
pub(crate) fn words(set: IfSet) -> Interfaces
    ensures shown { (p : Set) → Shows set p → result ≡ interface_bits p }
    ensures below { (p : Set) → ((i : ℕ) → nat_lt i 120 ≡ true → has set i ≡ p i) → result ≡ interface_bits p }
{
    Interfaces {
        low: word(set, 0, 64),
        high: word(set, 64, 56),
    }
}

/// A row of the forwarding cache, with RPF_interface(RP(G)), as C reads it.
pub fn cache_row(row: &CacheRow, shared_rpf: Option<IfaceId>) -> Forwarding
    ensures { (a : Answers) → IsAfresh row.now a → result ≡ forwarding_of (number_of shared_rpf) a }
{
    Forwarding {
        rpf: iface_number(row.rpf),
        shared_rpf: iface_number(shared_rpf),
        has_spt_bit: row.spt,
        has_tunnel: row.inherited.has_tunnel(),
        immediate: words(row.immediate),
        inherited: words(row.inherited),
        shared_tree: words(row.inherited_rpt),
    }
}

/// What a data plane may do with the packets of a source.
#[repr(C)]
#[derive(Drop)]
pub struct PlaneRow {
    /// The source has a fact.
    pub is_known: bool,
    /// The interface on which packets are accepted, or `NO_INTERFACE`.
    pub incoming: u32,
    /// The interfaces on which copies of accepted packets leave, without the one on which they came.
    pub outgoing: Interfaces,
    /// The interfaces on which a packet shows that the source is alive.
    pub alive: Interfaces,
    /// The interfaces from which packets go to the router.
    pub to_core: Interfaces,
}

/// What is offered of a source, as C reads it.
pub fn plane_row(offered: &Offered) -> PlaneRow
    ensures { (o : OfferedValue) → ShowsOffered offered.now o → result ≡ plane_row_of o }
{
    PlaneRow {
        is_known: offered.is_known,
        incoming: iface_number(offered.row.incoming),
        outgoing: words(offered.row.outgoing),
        alive: words(offered.row.alive),
        to_core: words(offered.row.to_core),
    }
}

/// A source of a group.
#[repr(C)]
#[derive(Drop)]
pub struct NamedSource {
    pub source: u32,
    pub group: u32,
}

/// A source of a group, as C reads it.
pub fn named(name: &SourceGroup) -> NamedSource
    ensures { result ≡ name_of (name_key name.now) }
{
    NamedSource {
        source: name.source.bits,
        group: name.group.bits,
    }
}

/// The table that a letter names.
pub fn table(letter: u8) -> Option<Table>
    ensures { result ≡ table_of_letter letter }
{
    match letter {
        b'N' => Some(Table::Neighbours),
        b'G' => Some(Table::Groups),
        b'S' => Some(Table::Sources),
        b'D' => Some(Table::Downstream),
        b'A' => Some(Table::Asserts),
        b'U' => Some(Table::Upstream),
        b'R' => Some(Table::Trees),
        b'F' => Some(Table::Active),
        _ => None,
    }
}

// How many of the packets leave on links.
fn links(sent: &[Emission]) -> usize
    ensures { result ≡ length (filter is_on_link sent.now) }
{
    sent.iter().filter(|emission| is_on_link(emission)).count()
}

// Whether the packet before these is a copy, if it leaves on a link: the copies are the last of those.
fn is_copy(copies: u32, others: &[Emission]) -> bool
    ensures { result ≡ is_copy copies others.now }
{
    copies != 0 && links(others) < copies as usize
}

/// Writes out the first of the packets, if there is one, and if there is room for its bytes.
pub fn write_packet(sent: &[Emission], copies: u32, packet: &mut Packet, room: &mut [u8]) -> bool
    ensures { PacketWritten copies sent.now result packet.old packet.new room.old room.new }
{
    let Some((first, others)) = sent.split_first() else {
        return false;
    };
    let bytes = bytes(first);
    if room.len() < bytes.len() {
        return false;
    }
    *packet = c_packet(first, is_copy(copies, others));
    write(room, bytes);
    true
}

/// Writes out one of the groups in an older mode, if it exists.
pub fn write_older(rows: &[OlderRow], index: usize, row: &mut OlderGroup) -> bool
    ensures { ValueWritten older_group_of (slice_get rows.now index) result row.old row.new }
{
    match rows.get(index) {
        Some(found) => {
            *row = older_group(found);
            true
        }
        None => false,
    }
}

/// Writes out a row of the forwarding cache, with RPF_interface(RP(G)), if it exists.
pub fn write_cached(
    row: Option<CacheRow>,
    shared_rpf: Option<IfaceId>,
    forwarding: &mut Forwarding,
) -> bool
    ensures written { (answers : Option Answers) → TellsRow row answers
        → ValueWritten (forwarding_of (number_of shared_rpf)) answers result forwarding.old forwarding.new }
    ensures none { row ≡ None → Unwritten result forwarding.old forwarding.new }
{
    match row {
        Some(row) => {
            *forwarding = cache_row(&row, shared_rpf);
            true
        }
        None => false,
    }
}

/// Writes out what is offered of a source, if anything is.
pub fn write_offload(offered: Option<Offered>, row: &mut PlaneRow) -> bool
    ensures written { (offer : Option OfferedValue) → TellsOffload offered offer
        → ValueWritten plane_row_of offer result row.old row.new }
    ensures none { offered ≡ None → Unwritten result row.old row.new }
{
    match offered {
        Some(offered) => {
            *row = plane_row(&offered);
            true
        }
        None => false,
    }
}

/// Writes out one of the sources, if it exists.
pub fn write_name(names: &[SourceGroup], index: usize, name: &mut NamedSource) -> bool
    ensures { ValueWritten name_of (slice_get (keys_of names.now) index) result name.old name.new }
{
    match names.get(index) {
        Some(found) => {
            *name = named(found);
            true
        }
        None => false,
    }
}
