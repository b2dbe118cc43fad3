//! What FRR 10.3 sent as a candidate RP and as a BSR, read, and written byte by byte as FRR wrote it.
use pim_bootstrap::{
    AdvertisedRange, BootstrapHead, CandidateRp, RangeView, read_advertisement, read_bootstrap,
    write_advertisement,
};
use pim_candidate::RpSet;
use pim_ip::{Addr, sum16};
use std::alloc::{AllocError, Global};
use std::process::Abort;
use std::test::Fail;

// Candidate RPs. The first is the BSR of the second one below, too.
const FIRST: Addr = Addr { bits: 0x0A5B_0001 };

const SECOND: Addr = Addr { bits: 0x0A5B_0002 };

// 10.91.0.2 is an RP of 239.3.0.0/16 with priority 7 for 151 s.
const ADVERTISEMENT: &[u8] = &[
    0x28, 0x00, 0xDA, 0xF0, 0x01, 0x07, 0x00, 0x97, 0x01, 0x00, 0x0A, 0x5B, 0x00, 0x02, 0x01, 0x00,
    0x00, 0x10, 0xEF, 0x03, 0x00, 0x00,
];

// The same RP goes: it names no range, and 8 bytes follow of whatever was there.
const DEPARTURE: &[u8] = &[
    0x28, 0x00, 0x82, 0x96, 0x00, 0xFF, 0x00, 0x00, 0x01, 0x00, 0x0A, 0x5B, 0x00, 0x02, 0x00, 0x00,
    0x20, 0xA8, 0x2A, 0xE5, 0xFD, 0x7F,
];

// The BSR 10.92.0.2 says the RP.
const BOOTSTRAP: &[u8] = &[
    0x24, 0x00, 0x45, 0x66, 0x68, 0xF2, 0x1E, 0x40, 0x01, 0x00, 0x0A, 0x5C, 0x00, 0x02, 0x01, 0x00,
    0x00, 0x10, 0xEF, 0x03, 0x00, 0x00, 0x01, 0x01, 0x00, 0x00, 0x01, 0x00, 0x0A, 0x5B, 0x00, 0x02,
    0x00, 0x97, 0x07, 0x00,
];

// It has nothing to say, before that.
const EMPTY: &[u8] = &[
    0x24, 0x00, 0x49, 0x77, 0x68, 0xEA, 0x1E, 0x40, 0x01, 0x00, 0x0A, 0x5C, 0x00, 0x02,
];

// The BSR 10.91.0.1 says three ranges, by the bit for a router that has just started.
const FOR_A_NEW_ONE: &[u8] = &[
    0x24, 0x80, 0x56, 0x58, 0x53, 0x51, 0x1E, 0x64, 0x01, 0x00, 0x0A, 0x5B, 0x00, 0x01, 0x01, 0x00,
    0x00, 0x10, 0xEF, 0x01, 0x00, 0x00, 0x01, 0x01, 0x00, 0x00, 0x01, 0x00, 0x0A, 0x5B, 0x00, 0x01,
    0x00, 0x97, 0x05, 0x00, 0x01, 0x00, 0x00, 0x10, 0xEF, 0x02, 0x00, 0x00, 0x01, 0x01, 0x00, 0x00,
    0x01, 0x00, 0x0A, 0x5B, 0x00, 0x01, 0x00, 0x97, 0x05, 0x00, 0x01, 0x00, 0x00, 0x10, 0xEF, 0x03,
    0x00, 0x00, 0x01, 0x01, 0x00, 0x00, 0x01, 0x00, 0x0A, 0x5B, 0x00, 0x02, 0x00, 0x97, 0x07, 0x00,
];

// It says that the last of them has no RP any more.
const WITHOUT_THE_LAST: &[u8] = &[
    0x24, 0x00, 0x6A, 0xC0, 0x53, 0x5E, 0x1E, 0x64, 0x01, 0x00, 0x0A, 0x5B, 0x00, 0x01, 0x01, 0x00,
    0x00, 0x10, 0xEF, 0x01, 0x00, 0x00, 0x01, 0x01, 0x00, 0x00, 0x01, 0x00, 0x0A, 0x5B, 0x00, 0x01,
    0x00, 0x97, 0x05, 0x00, 0x01, 0x00, 0x00, 0x10, 0xEF, 0x02, 0x00, 0x00, 0x01, 0x01, 0x00, 0x00,
    0x01, 0x00, 0x0A, 0x5B, 0x00, 0x01, 0x00, 0x97, 0x05, 0x00, 0x01, 0x00, 0x00, 0x10, 0xEF, 0x03,
    0x00, 0x00, 0x00, 0x00, 0x00, 0x00,
];

const RANGE: AdvertisedRange = AdvertisedRange {
    group: Addr { bits: 0xEF03_0000 },
    length: 16,
    bidir: false,
    zone: false,
};

// A head that is expected: its bit, tag, priority and BSR. The hash masks have 30 bits.
#[derive(Clone, Copy)]
struct Head(bool, u16, u8, Addr);

// A range of 16 bits that is expected, with its RP and the RP's priority, if it has one.
#[derive(Clone, Copy)]
struct Range(u32, Option<(Addr, u8)>);

fn same(rt: &impl Abort, got: &[u8], want: &[u8]) {
    assert_eq!(rt; got, want);
}

fn has_rp(rt: &impl Abort, rp: CandidateRp, address: Addr, priority: u8) {
    assert_eq!(rt; rp.address.bits, address.bits);
    assert_eq!(rt; rp.holdtime, 151);
    assert_eq!(rt; rp.priority, priority);
}

fn is_range(rt: &impl Abort, range: &RangeView<'_>, want: Range) {
    let Range(group, rp) = want;
    assert_eq!(rt; range.group().bits, group);
    assert_eq!(rt; range.length(), 16);
    assert!(rt; !range.is_bidir() && !range.is_zone());
    let mut rps = range.rps();
    assert_eq!(rt; range.rp_count(), if rp.is_some() { 1 } else { 0 });
    if let Some((address, priority)) = rp {
        match rps.next() {
            Some(rp) => has_rp(rt, rp, address, priority),
            None => assert!(rt; false),
        }
    }
    assert!(rt; rps.next().is_none());
}

fn reads(rt: &impl Abort, message: &[u8], head: Head, want: &[Range]) {
    assert_eq!(rt; sum16(message), 0);
    let Head(no_forward, tag, priority, bsr) = head;
    match read_bootstrap(message) {
        Ok(told) => {
            assert_eq!(rt; told.is_no_forward(), no_forward);
            assert_eq!(rt; told.tag(), tag);
            assert_eq!(rt; told.hash_length(), 30);
            assert_eq!(rt; told.priority(), priority);
            assert_eq!(rt; told.bsr().bits, bsr.bits);
            let mut count = 0;
            for range in told.ranges() {
                match want.get(count) {
                    Some(wanted) => is_range(rt, &range, *wanted),
                    None => assert!(rt; false),
                }
                count += 1;
            }
            assert_eq!(rt; count, want.len());
        }
        Err(_) => assert!(rt; false),
    }
}

#[test]
fn reads_what_a_bsr_said(rt: HostRuntime) {
    let bsr = Addr { bits: 0x0A5C_0002 };
    reads(&rt, EMPTY, Head(false, 0x68EA, 64, bsr), &[]);
    let last = Range(0xEF03_0000, Some((SECOND, 7)));
    reads(&rt, BOOTSTRAP, Head(false, 0x68F2, 64, bsr), &[last]);
    let first = Range(0xEF01_0000, Some((FIRST, 5)));
    let next = Range(0xEF02_0000, Some((FIRST, 5)));
    let all = [first, next, last];
    reads(&rt, FOR_A_NEW_ONE, Head(true, 0x5351, 100, FIRST), &all);
    let none = [first, next, Range(0xEF03_0000, None)];
    reads(
        &rt,
        WITHOUT_THE_LAST,
        Head(false, 0x535E, 100, FIRST),
        &none,
    );
}

// An advertisement of one range is taken.
fn advertise(
    rt: &impl Abort,
    alloc: Global,
    set: &mut RpSet,
    message: &[u8],
) -> Result<(), AllocError> {
    assert_eq!(rt; sum16(message), 0);
    match read_advertisement(message) {
        Ok(told) => {
            let moved = set.advertise(alloc, 1000, 255, &told)?;
            assert!(rt; moved);
        }
        Err(_) => assert!(rt; false),
    }
    Ok(())
}

// The BSR with a tag says what it holds in one message.
fn says(
    rt: &impl Abort,
    alloc: Global,
    set: &RpSet,
    tag: u16,
    want: &[u8],
) -> Result<(), AllocError> {
    let head = BootstrapHead {
        no_forward: false,
        tag,
        hash_length: 30,
        priority: 64,
        bsr: Addr { bits: 0x0A5C_0002 },
    };
    let messages = set.write(alloc, head)?;
    assert_eq!(rt; messages.len(), 1);
    for message in &messages {
        same(rt, message, want);
    }
    Ok(())
}

#[test]
fn says_as_a_bsr_what_an_rp_said(rt: HostRuntime) -> Result<(), Fail> {
    let alloc = rt.alloc();
    let mut set = RpSet::new(alloc);
    says(&rt, alloc, &set, 0x68EA, EMPTY)?;
    advertise(&rt, alloc, &mut set, ADVERTISEMENT)?;
    says(&rt, alloc, &set, 0x68F2, BOOTSTRAP)?;
    Ok(())
}

#[test]
fn writes_what_an_rp_said(rt: HostRuntime) -> Result<(), Fail> {
    let message = write_advertisement(rt.alloc(), SECOND, 7, 151, &[RANGE])?;
    same(&rt, &message, ADVERTISEMENT);
    Ok(())
}

// One that goes names no range, and so all groups.
#[test]
fn reads_that_an_rp_goes(rt: HostRuntime) {
    assert_eq!(&rt; sum16(DEPARTURE), 0);
    match read_advertisement(DEPARTURE) {
        Ok(told) => {
            assert_eq!(&rt; told.rp().bits, SECOND.bits);
            assert_eq!(&rt; told.holdtime(), 0);
            let mut ranges = told.ranges();
            match ranges.next() {
                Some(range) => assert_eq!(&rt; range.length, 4),
                None => assert!(&rt; false),
            }
            assert!(&rt; ranges.next().is_none());
        }
        Err(_) => assert!(&rt; false),
    }
}
