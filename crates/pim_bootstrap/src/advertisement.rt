//! Candidate-RP-Advertisements, read and written (RFC 5059, section 4.2).
ghost use Rattle.std.specs.Prelude.{◌≡◌, ◌+◌, ◌*◌, ◌^◌, ◌<◌, ◌≤◌, ◌∷◌, ◌++◌, length, IfOk, OnOk};
ghost use Rattle.std.specs.List.{flat_map};
ghost use Rattle.byteorder.specs.Endian.{big_bytes};
ghost use Rattle.pim_wire.specs.Encoded.{unicast_text};
ghost use Rattle.pim_bootstrap.specs.Advertisements.{advertised_at, advertised_prefix, advertised_test, advertised_text, advertisement_reading, advertisement_text, all_advertised_test};
ghost use Rattle.pim_bootstrap.specs.Bootstraps.{group_flags};

use crate::encoded::{
    CHECKSUM_PLACE, HEADER_LENGTH, SOURCE_LENGTH, VERSION_BITS, address_at, check_field,
    check_group, check_unicast, u16_at, unicast_at,
};
use pim_ip::{Addr, Prefix, Refusal, set_checksum};
use std::alloc::{AllocError, Global};
use std::marker::Model;

/// A range of groups of which a candidate RP would be the RP.
#[derive(Clone, Copy)]
pub struct AdvertisedRange {
    pub group: Addr,
    /// The length of the mask, 4 to 32.
    pub length: u8,
    /// The B bit: the range is for BIDIR (RFC 5015).
    pub bidir: bool,
    /// The Z bit: the range is an admin scope zone.
    pub zone: bool,
}

impl AdvertisedRange {
    /// 224.0.0.0/4.
    pub const ALL_GROUPS: AdvertisedRange = AdvertisedRange {
        group: Addr { bits: 0xE000_0000 },
        length: 4,
        bidir: false,
        zone: false,
    };

    /// The prefix of the range; bits past its mask don't count.
    #[tactic(auto, unfolding(crate::specs::Advertisements::advertised_prefix))]
    pub fn prefix(self) -> Prefix
        ensures { result ≡ advertised_prefix self }
    {
        let host = 1u64 << 32u32.saturating_sub(u32::from(self.length));
        let group = u64::from(self.group.bits);
        Prefix {
            address: Addr::from((group / host * host) as u32),
            length: u32::from(self.length),
        }
    }
}

/// The place of the first range.
const FIRST_RANGE: usize = 14;

/// Whether there is a range at a place.
#[tactic(auto, unfolding(crate::specs::Advertisements::advertised_test))]
fn check_advertised(bytes: &[u8], place: usize) -> Result<(), Refusal>
    requires { place ≤ length bytes.now }
    ensures value { result ≡ advertised_test bytes.now place }
    ensures there { OnOk result (place + 8 ≤ length bytes.now) }
{
    check_group(bytes, place)?;
    let mask = bytes[place + 3];
    if mask < 4 || mask > 32 {
        return Err(Refusal::BadLength);
    }
    Ok(())
}

/// The range at a place.
fn advertised_at(bytes: &[u8], place: usize) -> AdvertisedRange
    requires { place + 8 ≤ length bytes.now }
    ensures { result ≡ advertised_at bytes.now place }
{
    let flags = bytes[place + 2];
    AdvertisedRange {
        group: address_at(bytes, place),
        length: bytes[place + 3],
        bidir: flags >= 0x80,
        zone: flags % 2 == 1,
    }
}

/// Whether there are `count` ranges from a place on.
fn check_all_advertised(bytes: &[u8], place: usize, count: usize) -> Result<(), Refusal>
    requires { place ≤ length bytes.now }
    ensures value { result ≡ all_advertised_test bytes.now place count }
    ensures there { OnOk result (place + 8 * count ≤ length bytes.now) }
{
    for index in 0..count {
        check_advertised(bytes, place + SOURCE_LENGTH * index)?;
    }
    Ok(())
}

/// The ranges of an advertisement, in their order in the message.
#[derive(Drop)]
pub struct AdvertisedRanges<'a> {
    message: &'a [u8],
    place: usize,
    left: usize,
    /// Whether all groups come first.
    all: bool,
}

impl<'a> Model for AdvertisedRanges<'a> {
    ghost use Rattle.std.specs.Prelude.{List};
    ghost use Rattle.pim_bootstrap.specs.declared.advertisement.AdvertisedRange.{AdvertisedRange};

    ghost Value = { List AdvertisedRange };

    ghost use Rattle.pim_bootstrap.specs.Advertisements.{all_advertised_at, all_before};
    ghost use Rattle.pim_bootstrap.specs.Views.{HasAdvertised};

    ghost view = { λ a. all_before a.all (all_advertised_at a.message.now a.place a.left) };

    ghost invariant = { λ a. HasAdvertised a.message.now a.place a.left };
}

impl<'a> Iterator for AdvertisedRanges<'a> {
    ghost use Rattle.std.specs.Iterator.{YieldsFirst, item_count};

    type Item = AdvertisedRange;

    ghost next_gives = { YieldsFirst (λ ranges. ranges) };

    ghost remaining = { item_count (λ ranges. ranges) };

    fn next(&mut self) -> Option<AdvertisedRange> {
        if self.all {
            self.all = false;
            return Some(AdvertisedRange::ALL_GROUPS);
        }
        if self.left == 0 {
            return None;
        }
        let range = advertised_at(self.message, self.place);
        self.place += SOURCE_LENGTH;
        self.left -= 1;
        Some(range)
    }
}

/// A Candidate-RP-Advertisement that was read, borrowed from its bytes.
#[derive(Drop)]
pub struct AdvertisementView<'a> {
    message: &'a [u8],
}

impl<'a> Model for AdvertisementView<'a> {
    ghost use Rattle.pim_bootstrap.specs.Advertisements.{Advertisement, advertisement_of};
    ghost use Rattle.pim_bootstrap.specs.Views.{HasAllAdvertised};

    ghost Value = { Advertisement };

    ghost view = { λ a. advertisement_of a.message.now };

    ghost invariant = { λ a. HasAllAdvertised a.message.now };
}

impl<'a> AdvertisementView<'a> {
    /// The candidate RP's priority; the lower number is preferred.
    #[tactic(auto, unfolding(crate::specs::Advertisements::advertisement_of))]
    pub fn priority(&self) -> u8
        ensures { result ≡ self.now.priority }
    {
        self.message[5]
    }

    /// For how long the advertisement counts, in seconds; with 0 the candidate RP goes.
    #[tactic(auto, unfolding(crate::specs::Advertisements::advertisement_of))]
    pub fn holdtime(&self) -> u16
        ensures { result ≡ self.now.holdtime }
    {
        u16_at(self.message, 6)
    }

    /// The candidate RP's address.
    #[tactic(auto, unfolding(crate::specs::Advertisements::advertisement_of))]
    pub fn rp(&self) -> Addr
        ensures { result.bits ≡ self.now.rp }
    {
        unicast_at(self.message, 8)
    }

    /// The ranges; all groups where the message names none.
    #[tactic(auto, unfolding(crate::specs::Advertisements::advertisement_of))]
    pub fn ranges(&self) -> AdvertisedRanges<'a>
        ensures { result ≡ self.now.ranges }
    {
        let count = usize::from(self.message[4]);
        AdvertisedRanges {
            message: self.message,
            place: FIRST_RANGE,
            left: count,
            all: count == 0,
        }
    }
}

/// Reads an advertisement: the fields behind PIM's header, from first to last. The error is that of the first test that
/// fails. The header's own tests are those of `pim_wire::read_pim`.
#[tactic(auto, unfolding(crate::specs::Advertisements::advertisement_test))]
pub fn read_advertisement(message: &[u8]) -> Result<AdvertisementView<'_>, Refusal>
    ensures { result ≡ advertisement_reading message.now }
{
    if message.len() < HEADER_LENGTH {
        return Err(Refusal::Short);
    }
    check_field(message, HEADER_LENGTH, 4)?;
    check_unicast(message, 8)?;
    if !unicast_at(message, 8).is_unicast() {
        return Err(Refusal::BadAddress);
    }
    check_all_advertised(message, FIRST_RANGE, usize::from(message[4]))?;
    Ok(AdvertisementView { message })
}

/// The flags of an Encoded-Group with these bits.
fn group_flags(bidir: bool, zone: bool) -> u8
    ensures { result ≡ group_flags bidir zone }
{
    match (bidir, zone) {
        (true, true) => 0x81,
        (true, false) => 0x80,
        (false, true) => 1,
        (false, false) => 0,
    }
}

impl AdvertisedRange {
    fn bytes(self) -> [u8; 8]
        ensures { result ≡ advertised_text self }
    {
        let [first, second, third, fourth] = self.group.octets();
        let flags = group_flags(self.bidir, self.zone);
        [1, 0, flags, self.length, first, second, third, fourth]
    }
}

fn push_ranges(ranges: &[AdvertisedRange], out: &mut Vec<u8>) -> Result<(), AllocError>
    ensures { OnOk result (out.new.items ≡ out.old.items ++ flat_map advertised_text ranges.now) }
{
    for range in ranges {
        out.extend_from_slice(&range.bytes())?;
    }
    Ok(())
}

/// An advertisement before its ranges, with 0 for the checksum.
fn head_bytes(count: u8, priority: u8, holdtime: u16, rp: Addr) -> [u8; 14]
    ensures { result ≡ 0x28 ∷ 0 ∷ 0 ∷ 0 ∷ count ∷ priority ∷ big_bytes 2 holdtime ++ unicast_text rp.bits }
{
    let [high, low] = holdtime.to_be_bytes();
    let [first, second, third, fourth] = rp.octets();
    [
        VERSION_BITS + 8,
        0,
        0,
        0,
        count,
        priority,
        high,
        low,
        1,
        0,
        first,
        second,
        third,
        fourth,
    ]
}

/// An advertisement of a candidate RP, with its priority, its holdtime in seconds, and its ranges. The error is want of
/// memory.
#[tactic(auto, unfolding(crate::specs::Advertisements::advertisement_text, pim_wire::specs::Encoded::pim_text))]
pub fn write_advertisement(
    alloc: Global,
    rp: Addr,
    priority: u8,
    holdtime: u16,
    ranges: &[AdvertisedRange],
) -> Result<Vec<u8>, AllocError>
    requires some { 0 < length ranges.now }
    requires few { length ranges.now < 2 ^ 8 }
    ensures { IfOk result (λ message. message.items
        ≡ advertisement_text (record { priority = priority; holdtime = holdtime; rp = rp.bits; ranges = ranges.now })) }
{
    let head = head_bytes(ranges.len() as u8, priority, holdtime, rp);
    let mut message = Vec::from_slice(alloc, &head)?;
    push_ranges(ranges, &mut message)?;
    set_checksum(&mut message, CHECKSUM_PLACE);
    Ok(message)
}
