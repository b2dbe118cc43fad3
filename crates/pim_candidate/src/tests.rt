//! Messages byte by byte, as the RFC draws them with checksums summed by hand, and a candidate that becomes the BSR.
use crate::{Action, Bsr, Election, Outcome, RpSet};
use pim_bootstrap::{AdvertisedRange, BootstrapHead, read_advertisement, write_advertisement};
use pim_ip::Addr;
use std::alloc::{AllocError, Global};
use std::process::Abort;
use std::test::Fail;

const RP: Addr = Addr { bits: 0x0A00_0005 };

// 239.0.0.0/8.
const RANGE: AdvertisedRange = AdvertisedRange {
    group: Addr { bits: 0xEF00_0000 },
    length: 8,
    bidir: false,
    zone: false,
};

const HEAD: BootstrapHead = BootstrapHead {
    no_forward: false,
    tag: 7,
    hash_length: 30,
    priority: 10,
    bsr: Addr { bits: 0x0A00_0009 },
};

// 10.0.0.5 is an RP of 239.0.0.0/8 with priority 192 for 200 s.
const ADVERTISEMENT: &[u8] = &[
    0x28, 0x00, 0xDA, 0x69, 0x01, 0xC0, 0x00, 0xC8, 0x01, 0x00, 0x0A, 0x00, 0x00, 0x05, 0x01, 0x00,
    0x00, 0x08, 0xEF, 0x00, 0x00, 0x00,
];

// The BSR says it.
const BOOTSTRAP: &[u8] = &[
    0x24, 0x00, 0xF6, 0x0D, 0x00, 0x07, 0x1E, 0x0A, 0x01, 0x00, 0x0A, 0x00, 0x00, 0x09, 0x01, 0x00,
    0x00, 0x08, 0xEF, 0x00, 0x00, 0x00, 0x01, 0x01, 0x00, 0x00, 0x01, 0x00, 0x0A, 0x00, 0x00, 0x05,
    0x00, 0xC8, 0xC0, 0x00,
];

// The BSR says that the range has no RP any more.
const EMPTIED: &[u8] = &[
    0x24, 0x00, 0xC2, 0xDC, 0x00, 0x07, 0x1E, 0x0A, 0x01, 0x00, 0x0A, 0x00, 0x00, 0x09, 0x01, 0x00,
    0x00, 0x08, 0xEF, 0x00, 0x00, 0x00, 0x00, 0x00, 0x00, 0x00,
];

fn take_advertisement(
    rt: &impl Abort,
    alloc: Global,
    set: &mut RpSet,
    message: &[u8],
) -> Result<bool, AllocError> {
    match read_advertisement(message) {
        Ok(advertisement) => set.advertise(alloc, 1000, 255, &advertisement),
        Err(_) => {
            assert!(rt; false);
            Ok(false)
        }
    }
}

// The one message that says the RPs.
fn says(rt: &impl Abort, alloc: Global, set: &RpSet, want: &[u8]) -> Result<(), AllocError> {
    let messages = set.write(alloc, HEAD)?;
    assert_eq!(rt; messages.len(), 1);
    for message in &messages {
        assert!(rt; message.as_slice() == want);
    }
    Ok(())
}

#[test]
fn says_what_is_advertised(rt: HostRuntime) -> Result<(), Fail> {
    let alloc = rt.alloc();
    let message = write_advertisement(alloc, RP, 192, 200, &[RANGE])?;
    assert!(&rt; message.as_slice() == ADVERTISEMENT);
    let mut set = RpSet::new(alloc);
    let moved = take_advertisement(&rt, alloc, &mut set, ADVERTISEMENT)?;
    assert!(&rt; moved);
    says(&rt, alloc, &set, BOOTSTRAP)?;
    let again = take_advertisement(&rt, alloc, &mut set, ADVERTISEMENT)?;
    assert!(&rt; !again);
    let passed = set.pass_to(alloc, 201_000)?;
    assert!(&rt; passed);
    says(&rt, alloc, &set, EMPTIED)?;
    Ok(())
}

// The timer expires.
fn expire(rt: &impl Abort, election: Election) -> Outcome {
    assert!(rt; election.end <= 0x4000_0000_0000_0000);
    election.expire()
}

fn ends(rt: &impl Abort, election: Election, want: u64) {
    assert_eq!(rt; election.end, want);
}

#[test]
fn becomes_the_bsr(rt: HostRuntime) -> Result<(), Fail> {
    let own = Bsr {
        address: Addr { bits: 0x0A00_0001 },
        priority: 10,
    };
    let begun = Election::new(own, 0);
    ends(&rt, begun, 5000);
    let elected = expire(&rt, begun);
    assert!(&rt; matches!(elected.action, Action::Originate));
    ends(&rt, elected.left, 65_000);
    ends(&rt, elected.left.hasten(12_000), 15_000);
    ends(&rt, elected.left.hasten(20_000), 20_000);
    Ok(())
}
