//! RPs that share an address: what comes of packets, sets that are refused, and what is announced.
ghost use Rattle.pim_anycast.specs.Announced.{keys_named};
ghost use Rattle.pim_model.specs.Unicast.{no_ranges, with_ranges};
ghost use Rattle.std.specs.Prelude.{◌≡◌, ◌==◌, ◌&&◌, ◌∷◌, []};

use pim_anycast::{Anycast, OwnAddresses, Passed, Rendezvous, RpSet};
use pim_types::{Addr, Emission, Prefix, RpRange, Series, SourceGroup};
use std::alloc::{AllocError, Global};
use std::process::Abort;
use std::test::Fail;

const SHARED: Addr = Addr { bits: 0x0A09_0909 };

const FIRST: Addr = Addr { bits: 0x0AFF_0001 };

const SECOND: Addr = Addr { bits: 0x0AFF_0002 };

const THIRD: Addr = Addr { bits: 0x0AFF_0003 };

// The source of a link of the first router, and its group.
const SOURCE: SourceGroup = SourceGroup {
    source: Addr { bits: 0x0A01_0032 },
    group: Addr { bits: 0xEF01_0101 },
};

// A Null-Register of (10.1.0.50, 239.1.1.1) from a DR, 10.0.12.1, to the shared address, with TTL 62.
const REGISTER: &[u8] = &[
    0x45, 0xC0, 0x00, 0x30, 0x00, 0x00, 0x00, 0x00, 0x3E, 0x67, 0x52, 0x95, 0x0A, 0x00, 0x0C, 0x01,
    0x0A, 0x09, 0x09, 0x09, 0x21, 0x00, 0x9E, 0xFF, 0x40, 0x00, 0x00, 0x00, 0x45, 0x00, 0x00, 0x14,
    0x00, 0x00, 0x00, 0x00, 0x01, 0x67, 0xBF, 0x4E, 0x0A, 0x01, 0x00, 0x32, 0xEF, 0x01, 0x01, 0x01,
];

// Its copy to the second of the set: from 10.255.0.1, with TTL 61.
const COPY_TO_SECOND: &[u8] = &[
    0x45, 0xC0, 0x00, 0x30, 0x00, 0x00, 0x00, 0x00, 0x3D, 0x67, 0x66, 0xA7, 0x0A, 0xFF, 0x00, 0x01,
    0x0A, 0xFF, 0x00, 0x02, 0x21, 0x00, 0x9E, 0xFF, 0x40, 0x00, 0x00, 0x00, 0x45, 0x00, 0x00, 0x14,
    0x00, 0x00, 0x00, 0x00, 0x01, 0x67, 0xBF, 0x4E, 0x0A, 0x01, 0x00, 0x32, 0xEF, 0x01, 0x01, 0x01,
];

// Its copy to the third.
const COPY_TO_THIRD: &[u8] = &[
    0x45, 0xC0, 0x00, 0x30, 0x00, 0x00, 0x00, 0x00, 0x3D, 0x67, 0x66, 0xA6, 0x0A, 0xFF, 0x00, 0x01,
    0x0A, 0xFF, 0x00, 0x03, 0x21, 0x00, 0x9E, 0xFF, 0x40, 0x00, 0x00, 0x00, 0x45, 0x00, 0x00, 0x14,
    0x00, 0x00, 0x00, 0x00, 0x01, 0x67, 0xBF, 0x4E, 0x0A, 0x01, 0x00, 0x32, 0xEF, 0x01, 0x01, 0x01,
];

// The same Null-Register with TTL 1.
const WITH_TTL_ONE: &[u8] = &[
    0x45, 0xC0, 0x00, 0x30, 0x00, 0x00, 0x00, 0x00, 0x01, 0x67, 0x8F, 0x95, 0x0A, 0x00, 0x0C, 0x01,
    0x0A, 0x09, 0x09, 0x09, 0x21, 0x00, 0x9E, 0xFF, 0x40, 0x00, 0x00, 0x00, 0x45, 0x00, 0x00, 0x14,
    0x00, 0x00, 0x00, 0x00, 0x01, 0x67, 0xBF, 0x4E, 0x0A, 0x01, 0x00, 0x32, 0xEF, 0x01, 0x01, 0x01,
];

// One of a group of another RP, to the shared address.
const OF_OTHER_GROUP: &[u8] = &[
    0x45, 0xC0, 0x00, 0x30, 0x00, 0x00, 0x00, 0x00, 0x3E, 0x67, 0x52, 0x95, 0x0A, 0x00, 0x0C, 0x01,
    0x0A, 0x09, 0x09, 0x09, 0x21, 0x00, 0x9E, 0xFF, 0x40, 0x00, 0x00, 0x00, 0x45, 0x00, 0x00, 0x14,
    0x00, 0x00, 0x00, 0x00, 0x01, 0x67, 0xC0, 0x4E, 0x0A, 0x01, 0x00, 0x32, 0xEE, 0x01, 0x01, 0x01,
];

// What the second of the set sends: a Register with data, with TTL 60.
const FROM_SECOND: &[u8] = &[
    0x45, 0xC0, 0x00, 0x3B, 0x00, 0x00, 0x00, 0x00, 0x3C, 0x67, 0x67, 0x9C, 0x0A, 0xFF, 0x00, 0x02,
    0x0A, 0xFF, 0x00, 0x01, 0x21, 0x00, 0xDE, 0xFF, 0x00, 0x00, 0x00, 0x00, 0x45, 0x00, 0x00, 0x1F,
    0x00, 0x00, 0x00, 0x00, 0x10, 0x11, 0xB0, 0x99, 0x0A, 0x01, 0x00, 0x32, 0xEF, 0x01, 0x01, 0x01,
    0x13, 0x8C, 0x13, 0x8C, 0x00, 0x0B, 0x0A, 0x1C, 0x6F, 0x6E, 0x65,
];

// The same as one to the shared address.
const COUNTED: &[u8] = &[
    0x45, 0xC0, 0x00, 0x3B, 0x00, 0x00, 0x00, 0x00, 0x3C, 0x67, 0x5F, 0x8A, 0x0A, 0xFF, 0x00, 0x02,
    0x0A, 0x09, 0x09, 0x09, 0x21, 0x00, 0xDE, 0xFF, 0x00, 0x00, 0x00, 0x00, 0x45, 0x00, 0x00, 0x1F,
    0x00, 0x00, 0x00, 0x00, 0x10, 0x11, 0xB0, 0x99, 0x0A, 0x01, 0x00, 0x32, 0xEF, 0x01, 0x01, 0x01,
    0x13, 0x8C, 0x13, 0x8C, 0x00, 0x0B, 0x0A, 0x1C, 0x6F, 0x6E, 0x65,
];

// A Null-Register from 10.255.0.9, which is in no set, to the own address.
const FROM_STRANGER: &[u8] = &[
    0x45, 0xC0, 0x00, 0x30, 0x00, 0x00, 0x00, 0x00, 0x3C, 0x67, 0x67, 0xA0, 0x0A, 0xFF, 0x00, 0x09,
    0x0A, 0xFF, 0x00, 0x01, 0x21, 0x00, 0x9E, 0xFF, 0x40, 0x00, 0x00, 0x00, 0x45, 0x00, 0x00, 0x14,
    0x00, 0x00, 0x00, 0x00, 0x01, 0x67, 0xBF, 0x4E, 0x0A, 0x01, 0x00, 0x32, 0xEF, 0x01, 0x01, 0x01,
];

// One from the second of the set to the shared address.
const SECOND_TO_SHARED: &[u8] = &[
    0x45, 0xC0, 0x00, 0x30, 0x00, 0x00, 0x00, 0x00, 0x3C, 0x67, 0x5F, 0x95, 0x0A, 0xFF, 0x00, 0x02,
    0x0A, 0x09, 0x09, 0x09, 0x21, 0x00, 0x9E, 0xFF, 0x40, 0x00, 0x00, 0x00, 0x45, 0x00, 0x00, 0x14,
    0x00, 0x00, 0x00, 0x00, 0x01, 0x67, 0xBF, 0x4E, 0x0A, 0x01, 0x00, 0x32, 0xEF, 0x01, 0x01, 0x01,
];

// One from the second to an address that is in no set.
const SECOND_TO_LINK: &[u8] = &[
    0x45, 0xC0, 0x00, 0x30, 0x00, 0x00, 0x00, 0x00, 0x3C, 0x67, 0x5C, 0xA5, 0x0A, 0xFF, 0x00, 0x02,
    0x0A, 0x00, 0x0C, 0x02, 0x21, 0x00, 0x9E, 0xFF, 0x40, 0x00, 0x00, 0x00, 0x45, 0x00, 0x00, 0x14,
    0x00, 0x00, 0x00, 0x00, 0x01, 0x67, 0xBF, 0x4E, 0x0A, 0x01, 0x00, 0x32, 0xEF, 0x01, 0x01, 0x01,
];

// A Register-Stop from the second of the set.
const STOP: &[u8] = &[
    0x45, 0xC0, 0x00, 0x26, 0x00, 0x00, 0x00, 0x00, 0x3C, 0x67, 0x67, 0xB1, 0x0A, 0xFF, 0x00, 0x02,
    0x0A, 0xFF, 0x00, 0x01, 0x22, 0x00, 0xE1, 0xA9, 0x01, 0x00, 0x00, 0x20, 0xEF, 0x01, 0x01, 0x01,
    0x01, 0x00, 0x0A, 0x01, 0x00, 0x32,
];

// A Null-Register of (10.1.0.50, 239.1.1.1) to the second, with TTL 64.
const ANNOUNCED_TO_SECOND: &[u8] = &[
    0x45, 0xC0, 0x00, 0x30, 0x00, 0x00, 0x00, 0x00, 0x40, 0x67, 0x63, 0xA7, 0x0A, 0xFF, 0x00, 0x01,
    0x0A, 0xFF, 0x00, 0x02, 0x21, 0x00, 0x9E, 0xFF, 0x40, 0x00, 0x00, 0x00, 0x45, 0x00, 0x00, 0x14,
    0x00, 0x00, 0x00, 0x00, 0x01, 0x67, 0xBF, 0x4E, 0x0A, 0x01, 0x00, 0x32, 0xEF, 0x01, 0x01, 0x01,
];

// The same to the third.
const ANNOUNCED_TO_THIRD: &[u8] = &[
    0x45, 0xC0, 0x00, 0x30, 0x00, 0x00, 0x00, 0x00, 0x40, 0x67, 0x63, 0xA6, 0x0A, 0xFF, 0x00, 0x01,
    0x0A, 0xFF, 0x00, 0x03, 0x21, 0x00, 0x9E, 0xFF, 0x40, 0x00, 0x00, 0x00, 0x45, 0x00, 0x00, 0x14,
    0x00, 0x00, 0x00, 0x00, 0x01, 0x67, 0xBF, 0x4E, 0x0A, 0x01, 0x00, 0x32, 0xEF, 0x01, 0x01, 0x01,
];

// The first router of the set, whose addresses are the shared one and its own.
struct Own;

impl OwnAddresses for Own {
    ghost configured = { λ o. record {
      interfaces = [];
      addresses = record { bits = 0x0A090909 } ∷ record { bits = 0x0AFF0001 } ∷ [];
    } };

    #[tactic(auto, unfolding(pim_model::specs::State::is_own_among))]
    fn is_own(&self, address: Addr) -> bool {
        address == SHARED || address == FIRST
    }
}

// The first router at a timestamp in ms: it is the DR of one source's link, and has the RP of one range.
#[derive(Clone, Copy)]
struct Router {
    present: u64,
    range: RpRange,
    source: SourceGroup,
}

impl Rendezvous for Router {
    ghost present = { λ r. r.present };

    ghost ranges = { λ r. with_ranges no_ranges (r.range ∷ []) };

    ghost is_local = { λ r group source. (r.source.group.bits == group) && (r.source.source.bits == source) };

    ghost local_keys = { λ r. keys_named (r.source ∷ []) };

    fn present_moment(&self) -> u64 {
        self.present
    }

    #[tactic(auto, unfolding(pim_model::specs::Unicast::rp_among, pim_model::specs::Candidates::chosen_among, pim_ip::specs::Prefixes::longest_match, pim_ip::specs::Prefixes::longer))]
    fn rp(&self, group: Addr) -> Option<Addr> {
        if group.is_source_specific() || !self.range.prefix.contains(group) {
            return None;
        }
        Some(self.range.rp)
    }

    fn is_local(&self, name: SourceGroup) -> bool {
        self.source.group == name.group && self.source.source == name.source
    }

    fn local_sources(&self, alloc: Global) -> Result<Vec<SourceGroup>, AllocError> {
        let mut names = Vec::new(alloc);
        names.push(self.source)?;
        Ok(names)
    }
}

fn router_at(present: u64) -> Router {
    Router {
        present,
        range: RpRange {
            prefix: Prefix {
                address: Addr { bits: 0xEF00_0000 },
                length: 8,
            },
            rp: SHARED,
        },
        source: SOURCE,
    }
}

// A set with a shared address, an own one, and others.
fn set_of(alloc: Global, given: (Addr, Addr, &[Addr])) -> Result<RpSet, AllocError> {
    let (shared, own, listed) = given;
    let mut others = Series::new(alloc);
    for other in listed {
        others.push(*other)?;
    }
    Ok(RpSet {
        shared,
        own,
        others,
    })
}

fn sets_of(alloc: Global, given: &[(Addr, Addr, &[Addr])]) -> Result<Vec<RpSet>, AllocError> {
    let mut sets = Vec::new(alloc);
    for set in given {
        sets.push(set_of(alloc, *set)?)?;
    }
    Ok(sets)
}

// The front of the first router, whose set has these others.
fn front_with(alloc: Global, others: &[Addr]) -> Result<Anycast, AllocError> {
    let sets = sets_of(alloc, &[(SHARED, FIRST, others)])?;
    match Anycast::of(&Own, sets) {
        Ok(front) => Ok(front),
        Err(_) => Ok(Anycast::new(alloc)),
    }
}

fn passes(rt: &impl Abort, alloc: Global, front: &Anycast, bytes: &[u8]) -> Result<(), AllocError> {
    let told = front.take_unicast(alloc, &router_at(0), bytes)?;
    assert!(rt; matches!(told, Passed::AsItCame));
    Ok(())
}

fn is_sent(sent: &[Emission], place: usize, to: Addr, packet: &[u8]) -> bool {
    match sent.get(place) {
        Some(Emission::Unicast { destination, bytes }) => {
            *destination == to && bytes.as_slice() == packet
        }
        _ => false,
    }
}

// Exactly these packets leave, to the second of the set and to the third.
fn has_sent(rt: &impl Abort, sent: &[Emission], second: &[u8], third: &[u8]) {
    assert!(rt; sent.len() == 2);
    assert!(rt; is_sent(sent, 0, SECOND, second));
    assert!(rt; is_sent(sent, 1, THIRD, third));
}

// The source is announced to the second of the set and to the third, or isn't.
fn announces(rt: &impl Abort, sent: &[Emission], is_due: bool) {
    if is_due {
        has_sent(rt, sent, ANNOUNCED_TO_SECOND, ANNOUNCED_TO_THIRD);
    } else {
        assert!(rt; sent.is_empty());
    }
}

fn is_copied(rt: &impl Abort, told: &Passed) {
    match told {
        Passed::Copied(copies) => {
            has_sent(rt, copies.as_slice(), COPY_TO_SECOND, COPY_TO_THIRD);
        }
        _ => assert!(rt; false),
    }
}

fn is_counted(rt: &impl Abort, told: &Passed) {
    match told {
        Passed::Counted(text) => assert!(rt; text.as_slice() == COUNTED),
        _ => assert!(rt; false),
    }
}

#[test]
fn a_register_is_copied_to_the_others(rt: HostRuntime) -> Result<(), Fail> {
    let alloc = rt.alloc();
    let front = front_with(alloc, &[SECOND, THIRD])?;
    let told = front.take_unicast(alloc, &router_at(0), REGISTER)?;
    is_copied(&rt, &told);
    Ok(())
}

#[test]
fn a_copy_counts_as_a_register_to_the_shared_address(rt: HostRuntime) -> Result<(), Fail> {
    let alloc = rt.alloc();
    let front = front_with(alloc, &[SECOND, THIRD])?;
    let told = front.take_unicast(alloc, &router_at(0), FROM_SECOND)?;
    is_counted(&rt, &told);
    Ok(())
}

#[test]
fn other_packets_pass_as_they_came(rt: HostRuntime) -> Result<(), Fail> {
    let alloc = rt.alloc();
    let front = front_with(alloc, &[SECOND, THIRD])?;
    for bytes in [WITH_TTL_ONE, OF_OTHER_GROUP, FROM_STRANGER] {
        passes(&rt, alloc, &front, bytes)?;
    }
    for bytes in [SECOND_TO_SHARED, SECOND_TO_LINK, STOP] {
        passes(&rt, alloc, &front, bytes)?;
    }
    Ok(())
}

// The second knows the first, and the first doesn't know the second.
#[test]
fn a_copy_of_a_router_that_isnt_known_passes(rt: HostRuntime) -> Result<(), Fail> {
    let front = front_with(rt.alloc(), &[THIRD])?;
    passes(&rt, rt.alloc(), &front, FROM_SECOND)?;
    Ok(())
}

#[test]
fn each_front_of_a_register_passes(rt: HostRuntime) -> Result<(), Fail> {
    let alloc = rt.alloc();
    let front = front_with(alloc, &[SECOND, THIRD])?;
    for n in 0..REGISTER.len() {
        passes(&rt, alloc, &front, &REGISTER[..n])?;
    }
    for n in 0..FROM_SECOND.len() {
        passes(&rt, alloc, &front, &FROM_SECOND[..n])?;
    }
    Ok(())
}

fn with_a_bit_turned(alloc: Global, bytes: &[u8], place: usize) -> Result<Vec<u8>, AllocError> {
    let mut turned = Vec::new(alloc);
    for (number, byte) in bytes.iter().enumerate() {
        turned.push(if number == place { *byte ^ 1 } else { *byte })?;
    }
    Ok(turned)
}

#[test]
fn a_register_with_a_wrong_checksum_passes(rt: HostRuntime) -> Result<(), Fail> {
    let alloc = rt.alloc();
    let front = front_with(alloc, &[SECOND, THIRD])?;
    for place in 0..REGISTER.len() {
        let turned = with_a_bit_turned(alloc, REGISTER, place)?;
        passes(&rt, alloc, &front, &turned)?;
    }
    Ok(())
}

fn are_accepted(alloc: Global, given: &[(Addr, Addr, &[Addr])]) -> Result<bool, AllocError> {
    Ok(Anycast::of(&Own, sets_of(alloc, given)?).is_ok())
}

#[test]
fn sets_that_dont_fit_are_refused(rt: HostRuntime) -> Result<(), Fail> {
    const BAD: &[&[(Addr, Addr, &[Addr])]] = &[
        &[(SHARED, SECOND, &[THIRD])],
        &[(SECOND, FIRST, &[THIRD])],
        &[(SHARED, SHARED, &[THIRD])],
        &[(SHARED, FIRST, &[SECOND, SECOND])],
        &[(SHARED, FIRST, &[SECOND, SHARED])],
        &[(SHARED, FIRST, &[Addr::NONE])],
        &[(SHARED, FIRST, &[Addr { bits: 0xEF01_0101 }])],
        &[(SHARED, FIRST, &[SECOND]), (SHARED, FIRST, &[THIRD])],
    ];
    for given in BAD {
        assert!(&rt; !are_accepted(rt.alloc(), given)?);
    }
    Ok(())
}

// Is a set accepted with so many others, from 10.255.1.0 on?
fn is_room_for(alloc: Global, count: u32) -> Result<bool, AllocError> {
    let mut others = Vec::new(alloc);
    for number in 0..count {
        others.push(Addr::from(0x0AFF_0100 | (number & 0xFF)))?;
    }
    are_accepted(alloc, &[(SHARED, FIRST, &others)])
}

#[test]
fn a_set_has_at_most_sixteen_others(rt: HostRuntime) -> Result<(), Fail> {
    assert!(&rt; is_room_for(rt.alloc(), 16)?);
    assert!(&rt; !is_room_for(rt.alloc(), 17)?);
    Ok(())
}

#[test]
fn a_local_source_is_announced(rt: HostRuntime) -> Result<(), Fail> {
    let alloc = rt.alloc();
    let front = front_with(alloc, &[SECOND, THIRD])?;
    let router = router_at(60_000);
    for (before, is_due) in [(false, true), (true, false)] {
        let sent = front.announce_new(alloc, &router, SOURCE, before)?;
        announces(&rt, &sent, is_due);
    }
    for (before, is_due) in [(59_999, true), (60_000, false)] {
        announces(&rt, &front.announce_due(alloc, &router, before)?, is_due);
    }
    Ok(())
}

fn is_next(rt: &impl Abort, next: Option<u64>, moment: Option<u64>) {
    assert!(rt; next == moment);
}

#[test]
fn announcements_are_due_each_minute(rt: HostRuntime) -> Result<(), Fail> {
    let alloc = rt.alloc();
    let front = front_with(alloc, &[SECOND])?;
    is_next(&rt, front.next(0), Some(60_000));
    is_next(&rt, front.next(59_999), Some(60_000));
    is_next(&rt, front.next(60_000), Some(120_000));
    is_next(&rt, front.next(u64::MAX), None);
    is_next(&rt, Anycast::new(alloc).next(0), None);
    Ok(())
}
