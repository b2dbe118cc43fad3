//! Join/Prunes, read and written.
ghost use Rattle.std.specs.Prelude.{◌≡◌, ◌+◌, ◌*◌, ◌^◌, ◌<◌, ◌≤◌, ◌∷◌, ◌++◌, length, take, drop, flat_map, OnOk, OnErr, option_to_list};
ghost use Rattle.pim_ip.specs.Checksum.{with_checksum};
ghost use Rattle.pim_wire.specs.Bodies.{join_prune_reading};
ghost use Rattle.pim_wire.specs.Groups.{one_group_test};
ghost use Rattle.pim_wire.specs.JoinPruneTexts.{join_prune_header_text};
ghost use Rattle.pim_wire.specs.JoinPrunes.{sources_test, groups_test, kind_of, entry_at, group_at, join_count_at, prune_count_at, after_group, flags_of, entry_text, join_prune_text};
ghost use Rattle.pim_wire.specs.ReadsBack.{JoinPruneReads};

use crate::encoded::{
    CHECKSUM_PLACE, HOST_MASK, SOURCE_LENGTH, VERSION_BITS, address_at, check_field, check_group,
    check_source, check_unicast, group_bytes, source_bytes, u16_at, unicast_at, unicast_bytes,
};
use byteorder::{BigEndian, ByteOrder};
use pim_ip::{Addr, Refusal, set_checksum};
use std::alloc::AllocError;
use std::marker::Model;

/// What an entry of a Join/Prune is about, by its W and R bits.
#[derive(Clone, Copy)]
pub enum EntryKind {
    /// (*,G): the address is the RP's.
    Star,
    /// (S,G).
    Source,
    /// (S,G,rpt).
    SourceRpt,
}

/// A joined or pruned source of a Join/Prune (RFC 7761, section 4.9.5).
#[derive(Clone, Copy)]
pub struct Entry {
    pub kind: EntryKind,
    pub address: Addr,
}

impl EntryKind {
    /// The flags of an entry of the kind, with S set.
    fn flags(self) -> u8
        ensures { result ≡ flags_of self }
    {
        match self {
            EntryKind::Star => 7,
            EntryKind::Source => 4,
            EntryKind::SourceRpt => 5,
        }
    }
}

impl Entry {
    fn bytes(self) -> [u8; 8]
        ensures { result ≡ entry_text self }
    {
        source_bytes(self.kind.flags(), self.address)
    }
}

/// The holdtime that is written, in seconds.
const WRITTEN_HOLDTIME: u16 = 210;

/// The place of the number of groups.
const GROUP_COUNT: usize = 11;

/// The place of the holdtime.
const HOLDTIME: usize = 12;

/// The place of the first group.
const FIRST_GROUP: usize = 14;

/// The length of a group's address and its two numbers of sources.
const GROUP_LENGTH: usize = 12;

/// The number of joined sources of the group at a place.
fn join_count(bytes: &[u8], place: usize) -> usize
    requires { place + 12 ≤ length bytes.now }
    ensures { result ≡ join_count_at bytes.now place }
{
    usize::from(u16_at(bytes, place + 8))
}

/// The number of pruned sources of the group at a place.
fn prune_count(bytes: &[u8], place: usize) -> usize
    requires { place + 12 ≤ length bytes.now }
    ensures { result ≡ prune_count_at bytes.now place }
{
    usize::from(u16_at(bytes, place + 10))
}

/// The place after the group at a place.
fn after_group(bytes: &[u8], place: usize) -> usize
    requires { after_group bytes.now place ≤ length bytes.now }
    ensures { result ≡ after_group bytes.now place }
{
    place + GROUP_LENGTH + SOURCE_LENGTH * (join_count(bytes, place) + prune_count(bytes, place))
}

/// Whether there are `count` sources from a place on.
fn check_sources(bytes: &[u8], place: usize, count: usize) -> Result<(), Refusal>
    requires { place ≤ length bytes.now }
    ensures value { result ≡ sources_test bytes.now place count }
    ensures there { OnOk result (place + 8 * count ≤ length bytes.now) }
{
    for index in 0..count {
        check_source(bytes, place + SOURCE_LENGTH * index)?;
    }
    Ok(())
}

/// Whether there is a group with its sources at a place.
#[tactic(auto, unfolding(crate::specs::Groups::one_group_test))]
fn check_one_group(bytes: &[u8], place: usize) -> Result<(), Refusal>
    requires { place ≤ length bytes.now }
    ensures value { result ≡ one_group_test bytes.now place }
    ensures there { OnOk result (after_group bytes.now place ≤ length bytes.now) }
{
    check_group(bytes, place)?;
    check_field(bytes, place + SOURCE_LENGTH, 4)?;
    let count = join_count(bytes, place) + prune_count(bytes, place);
    check_sources(bytes, place + GROUP_LENGTH, count)
}

/// Whether there are `count` groups from a place on.
fn check_groups(bytes: &[u8], first: usize, count: usize) -> Result<(), Refusal>
    requires { first ≤ length bytes.now }
    ensures { result ≡ groups_test bytes.now first count }
{
    let mut place = first;
    'groups: for _ in 0..count {
        check_one_group(bytes, place)?;
        place = after_group(bytes, place);
    }
    Ok(())
}

#[tactic(auto, unfolding(crate::specs::JoinPrunes::kind_of))]
fn kind_of(flags: u8) -> Option<EntryKind>
    ensures { result ≡ kind_of flags }
{
    let wildcard = (flags >> 1) & 1 == 1;
    let rpt = flags & 1 == 1;
    match (wildcard, rpt) {
        (true, true) => Some(EntryKind::Star),
        (true, false) => None,
        (false, true) => Some(EntryKind::SourceRpt),
        (false, false) => Some(EntryKind::Source),
    }
}

/// The entry at a place, unless it is skipped.
#[tactic(auto, unfolding(crate::specs::JoinPrunes::entry_at))]
fn entry_at(bytes: &[u8], place: usize) -> Option<Entry>
    requires { place + 8 ≤ length bytes.now }
    ensures { option_to_list result ≡ entry_at bytes.now place }
{
    let address = address_at(bytes, place);
    if bytes[place + 3] != HOST_MASK || !address.is_unicast() {
        return None;
    }
    let kind = kind_of(bytes[place + 2])?;
    Some(Entry { kind, address })
}

/// Joined or pruned sources, in their order in the message. Skipped sources are left out: those with another mask than
/// a host's, with an address that no host has, and with W but not R.
#[derive(Drop)]
pub struct Entries<'a> {
    message: &'a [u8],
    place: usize,
    left: usize,
}

impl<'a> Model for Entries<'a> {
    ghost use Rattle.std.specs.Prelude.{List};
    ghost use Rattle.pim_wire.specs.declared.join_prune.Entry.{Entry};

    ghost Value = { List Entry };

    ghost use Rattle.pim_wire.specs.JoinPrunes.{entries_at};
    ghost use Rattle.pim_wire.specs.Groups.{HasSources};

    ghost view = { λ a. entries_at a.message.now a.place a.left };

    ghost invariant = { λ a. HasSources a.message.now a.place a.left };
}

impl<'a> Iterator for Entries<'a> {
    ghost use Rattle.std.specs.Iterator.{YieldsFirst, item_count};

    type Item = Entry;

    ghost next_gives = { YieldsFirst (λ entries. entries) };

    ghost remaining = { item_count (λ entries. entries) };

    fn next(&mut self) -> Option<Entry> {
        while self.left > 0 {
            let entry = entry_at(self.message, self.place);
            self.place += SOURCE_LENGTH;
            self.left -= 1;
            if entry.is_some() {
                return entry;
            }
        }
        None
    }
}

/// A group of a Join/Prune.
#[derive(Drop)]
pub struct GroupView<'a> {
    message: &'a [u8],
    place: usize,
}

impl<'a> Model for GroupView<'a> {
    ghost use Rattle.pim_wire.specs.Values.{Group};

    ghost Value = { Group };

    ghost use Rattle.pim_wire.specs.Groups.{group_value, HasGroup};

    ghost view = { λ a. group_value a.message.now a.place };

    ghost invariant = { λ a. HasGroup a.message.now a.place };
}

impl<'a> GroupView<'a> {
    /// The group's address.
    pub fn group(&self) -> Addr
        ensures { result.bits ≡ self.now.group }
    {
        address_at(self.message, self.place)
    }

    /// The sources that are joined.
    pub fn joins(&self) -> Entries<'a>
        ensures { result ≡ self.now.joins }
    {
        Entries {
            message: self.message,
            place: self.place + GROUP_LENGTH,
            left: join_count(self.message, self.place),
        }
    }

    /// The sources that are pruned.
    pub fn prunes(&self) -> Entries<'a>
        ensures { result ≡ self.now.prunes }
    {
        let joins = join_count(self.message, self.place);
        Entries {
            message: self.message,
            place: self.place + GROUP_LENGTH + SOURCE_LENGTH * joins,
            left: prune_count(self.message, self.place),
        }
    }
}

/// The group at a place, unless it is skipped.
#[tactic(auto, unfolding(crate::specs::JoinPrunes::group_at))]
fn group_at(message: &[u8], place: usize) -> Option<GroupView<'_>>
    requires { after_group message.now place ≤ length message.now }
    ensures { option_to_list result ≡ group_at message.now place }
{
    (message[place + 3] == HOST_MASK).then_some(GroupView { message, place })
}

/// The groups of a Join/Prune, in their order in the message. Groups with another mask than a host's are left out.
#[derive(Drop)]
pub struct Groups<'a> {
    message: &'a [u8],
    place: usize,
    left: usize,
}

impl<'a> Model for Groups<'a> {
    ghost use Rattle.std.specs.Prelude.{List};
    ghost use Rattle.pim_wire.specs.Values.{Group};

    ghost Value = { List Group };

    ghost use Rattle.pim_wire.specs.JoinPrunes.{groups_at};
    ghost use Rattle.pim_wire.specs.Groups.{HasGroups};

    ghost view = { λ a. groups_at a.message.now a.place a.left };

    ghost invariant = { λ a. HasGroups a.message.now a.place a.left };
}

impl<'a> Iterator for Groups<'a> {
    ghost use Rattle.std.specs.Iterator.{YieldsFirst, item_count};

    type Item = GroupView<'a>;

    ghost next_gives = { YieldsFirst (λ groups. groups) };

    ghost remaining = { item_count (λ groups. groups) };

    fn next(&mut self) -> Option<GroupView<'a>> {
        while self.left > 0 {
            let group = group_at(self.message, self.place);
            self.place = after_group(self.message, self.place);
            self.left -= 1;
            if group.is_some() {
                return group;
            }
        }
        None
    }
}

/// A Join/Prune that was read, borrowed from its bytes.
#[derive(Drop)]
pub struct JoinPruneView<'a> {
    message: &'a [u8],
}

impl<'a> Model for JoinPruneView<'a> {
    ghost use Rattle.pim_wire.specs.Values.{JoinPrune};

    ghost Value = { JoinPrune };

    ghost use Rattle.pim_wire.specs.JoinPrunes.{join_prune_of, group_count_of};
    ghost use Rattle.pim_wire.specs.Groups.{HasGroups};

    ghost view = { λ a. join_prune_of a.message.now };

    ghost invariant = { λ a. HasGroups a.message.now 14 (group_count_of a.message.now) };
}

impl<'a> JoinPruneView<'a> {
    /// The neighbour that the message is meant for.
    #[tactic(auto, unfolding(crate::specs::JoinPrunes::join_prune_of))]
    pub fn upstream(&self) -> Addr
        ensures { result.bits ≡ self.now.upstream }
    {
        unicast_at(self.message, 4)
    }

    /// The holdtime, in seconds; 0xFFFF never expires.
    #[tactic(auto, unfolding(crate::specs::JoinPrunes::join_prune_of))]
    pub fn holdtime(&self) -> u16
        ensures { result ≡ self.now.holdtime }
    {
        u16_at(self.message, HOLDTIME)
    }

    /// The groups.
    #[tactic(auto, unfolding(crate::specs::JoinPrunes::join_prune_of))]
    pub fn groups(&self) -> Groups<'a>
        ensures { result ≡ self.now.groups }
    {
        Groups {
            message: self.message,
            place: FIRST_GROUP,
            left: usize::from(self.message[GROUP_COUNT]),
        }
    }
}

/// Reads a Join/Prune whose header was tested.
#[tactic(auto, unfolding(crate::specs::JoinPrunes::join_prune_test))]
pub(crate) fn read_join_prune(message: &[u8]) -> Result<JoinPruneView<'_>, Refusal>
    requires { 4 ≤ length message.now }
    ensures { result ≡ join_prune_reading message.now }
{
    check_unicast(message, 4)?;
    check_field(message, GROUP_COUNT - 1, 4)?;
    check_groups(message, FIRST_GROUP, usize::from(message[GROUP_COUNT]))?;
    Ok(JoinPruneView { message })
}

/// A Join/Prune for one group up to its joins, with 0 for the checksum.
#[tactic(auto, unfolding(crate::specs::JoinPruneTexts::join_prune_header_text))]
fn header_bytes(upstream: Addr, group: Addr, joins: u16, prunes: u16) -> [u8; 26]
    ensures in_range { upstream.bits < 2 ^ 32 }
    ensures value { result ≡ join_prune_header_text upstream.bits group.bits joins prunes }
{
    let mut bytes = [0; 26];
    bytes[0] = VERSION_BITS + 3;
    bytes[4..10].copy_from_slice(&unicast_bytes(upstream));
    bytes[GROUP_COUNT] = 1;
    BigEndian::write_u16(&mut bytes[12..14], WRITTEN_HOLDTIME);
    bytes[14..22].copy_from_slice(&group_bytes(group));
    BigEndian::write_u16(&mut bytes[22..24], joins);
    BigEndian::write_u16(&mut bytes[24..26], prunes);
    bytes
}

fn push_entries(entries: &[Entry], out: &mut Vec<u8>) -> Result<(), AllocError>
    ensures ok { OnOk result (out.new.items ≡ out.old.items ++ flat_map entry_text entries.now) }
    ensures kept { take (length out.old.items) out.new.items ≡ out.old.items }
{
    for entry in entries {
        out.extend_from_slice(&entry.bytes())?;
    }
    Ok(())
}

fn push_join_prune(
    upstream: Addr,
    group: Addr,
    joins: &[Entry],
    prunes: &[Entry],
    out: &mut Vec<u8>,
) -> Result<(), AllocError>
    requires joins { length joins.now < 2 ^ 16 }
    requires prunes { length prunes.now < 2 ^ 16 }
    ensures in_range { upstream.bits < 2 ^ 32 }
    ensures ok { OnOk result (out.new.items
        ≡ out.old.items ++ (join_prune_header_text upstream.bits group.bits (length joins.now) (length prunes.now)
        ++ flat_map entry_text joins.now ++ flat_map entry_text prunes.now)) }
    ensures kept { take (length out.old.items) out.new.items ≡ out.old.items }
{
    let header = header_bytes(upstream, group, joins.len() as u16, prunes.len() as u16);
    out.extend_from_slice(&header)?;
    push_entries(joins, out)?;
    push_entries(prunes, out)
}

/// Writes the checksum of the message from a place to the end.
fn sum_from(start: usize, out: &mut Vec<u8>)
    requires { start + 4 ≤ length out.old.items }
    ensures { out.new.items ≡ take start out.old.items
        ++ with_checksum (take 2 (drop start out.old.items)) (drop 4 (drop start out.old.items)) }
{
    set_checksum(&mut out[start..], CHECKSUM_PLACE);
}

/// Writes a Join/Prune for one group at the end. An `Err` is want of memory, and changes nothing.
pub fn write_join_prune(
    upstream: Addr,
    group: Addr,
    joins: &[Entry],
    prunes: &[Entry],
    out: &mut Vec<u8>,
) -> Result<(), AllocError>
    requires joins { length joins.now < 2 ^ 16 }
    requires prunes { length prunes.now < 2 ^ 16 }
    ensures ok { OnOk result (out.new.items
        ≡ out.old.items ++ join_prune_text upstream.bits group.bits joins.now prunes.now) }
    ensures err { OnErr result (out.new.items ≡ out.old.items) }
    ensures reads { JoinPruneReads upstream.bits group.bits joins.now prunes.now }
{
    let start = out.len();
    match push_join_prune(upstream, group, joins, prunes, out) {
        Ok(()) => {
            sum_from(start, out);
            Ok(())
        }
        Err(refused) => {
            out.truncate(start);
            Err(refused)
        }
    }
}
