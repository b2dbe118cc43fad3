//! A router that stands as a BSR and as an RP, beside a listener.
use crate::{Bsr, Candidacy, CandidacyHeard, Election, Role, StandsAsBsr, StandsAsRp};
use pim_bootstrap::{AdvertisedRange, BootstrapHead, write_advertisement, write_bootstrap};
use pim_bsr::{Listener, Surroundings};
use pim_ip::{Addr, Prefix, write_pim_packet};
use pim_types::{Emission, Hop, IfaceId};
use std::alloc::{AllocError, Global};
use std::process::Abort;
use std::test::Fail;

const OWN: Addr = Addr { bits: 0x0A63_0001 };

const OTHER: Addr = Addr { bits: 0x0A63_0009 };

const UPSTREAM: Addr = Addr { bits: 0x0A00_0002 };

const FIRST: IfaceId = IfaceId { number: 0 };

// 239.0.0.0/8.
const WIDE: Prefix = Prefix {
    address: Addr { bits: 0xEF00_0000 },
    length: 8,
};

// A router with neighbours on two of three interfaces.
#[derive(Drop)]
struct Router {
    moment: u64,
}

impl Surroundings for Router {
    ghost use Rattle.std.specs.Prelude.{◌/◌, ◌==◌, ◌^◌, min, nat_lt, Some};

    ghost around = { λ r. record {
      present = min r.moment (2 ^ 62);
      own = λ a. a == 0x0A63_0001;
      neighbour = λ i a. a == 0x0A00_0002;
      hop = λ a. Some (record { iface = record { number = 0 }; address = record { bits = 0x0A00_0002 } });
      count = 3;
      linked = λ i. nat_lt i 2;
      address = λ i. 0x0A00_0001;
    } };

    fn present_moment(&self) -> u64 {
        self.moment.min(1 << 62)
    }

    fn is_own(&self, address: Addr) -> bool {
        address.bits == 0x0A63_0001
    }

    fn is_neighbour(&self, _iface: IfaceId, address: Addr) -> bool {
        address.bits == 0x0A00_0002
    }

    fn rpf_neighbour(&self, _address: Addr) -> Option<Hop> {
        Some(Hop {
            iface: IfaceId { number: 0 },
            address: Addr { bits: 0x0A00_0002 },
        })
    }

    fn interface_count(&self) -> u32 {
        3
    }

    fn has_neighbours(&self, iface: IfaceId) -> bool {
        iface.number < 2
    }

    fn address(&self, _iface: IfaceId) -> Addr {
        Addr { bits: 0x0A00_0001 }
    }
}

// A router that stands as both, from 0 on.
fn standing(alloc: Global) -> Result<Candidacy, AllocError> {
    let as_bsr = StandsAsBsr {
        bsr: Bsr {
            address: OWN,
            priority: 10,
        },
        hash_length: 30,
        limit: 255,
    };
    let as_rp = StandsAsRp {
        address: OWN,
        priority: 192,
        ranges: Vec::from_slice(alloc, &[WIDE])?,
    };
    Ok(Candidacy::new(alloc, Some(as_bsr), Some(as_rp), 0))
}

// Time passes to a moment. The number of packets that leave then.
fn pass(
    rt: &impl Abort,
    alloc: Global,
    candidacy: &mut Candidacy,
    listener: &mut Listener,
    moment: u64,
) -> Result<(bool, usize), AllocError> {
    assert!(rt; moment <= 0x4000_0000_0000_0000);
    let mut out = Vec::new(alloc);
    let moved = candidacy.pass_to(alloc, listener, &Router { moment }, moment, 500, &mut out)?;
    Ok((moved, out.len()))
}

// A message in a packet on a link, or by unicast.
fn packet(alloc: Global, destination: Addr, message: &[u8]) -> Result<Vec<u8>, AllocError> {
    let mut bytes = Vec::new(alloc);
    if message.len() <= 1460 {
        write_pim_packet(1, UPSTREAM, destination, message, &mut bytes)?;
    }
    Ok(bytes)
}

// A Bootstrap of another BSR without ranges.
fn bootstrap(alloc: Global, priority: u8) -> Result<Vec<u8>, AllocError> {
    let head = BootstrapHead {
        no_forward: false,
        tag: 7,
        hash_length: 30,
        priority,
        bsr: OTHER,
    };
    let messages = write_bootstrap(alloc, head, &[])?;
    match messages.first() {
        Some(message) => packet(alloc, Addr::ALL_PIM_ROUTERS, message.as_slice()),
        None => Ok(Vec::new(alloc)),
    }
}

// A packet is heard, and so many leave.
fn hears(
    rt: &impl Abort,
    alloc: Global,
    candidacy: &mut Candidacy,
    listener: &mut Listener,
    moment: u64,
    bytes: &[u8],
) -> Result<(CandidacyHeard, usize), AllocError> {
    let _ = rt;
    let mut out = Vec::new(alloc);
    let router = Router { moment };
    let heard = candidacy.hear(alloc, listener, &router, FIRST, bytes, 500, &mut out)?;
    Ok((heard, out.len()))
}

fn is_elected(election: Option<Election>) -> bool {
    match election {
        Some(election) => matches!(election.role, Role::Elected),
        None => false,
    }
}

// The router is the BSR from 5 s on, tells itself of its RP, and says it as soon as it may.
fn elected(
    rt: &impl Abort,
    alloc: Global,
    candidacy: &mut Candidacy,
    listener: &mut Listener,
) -> Result<(), AllocError> {
    assert!(rt; candidacy.first_end() == Some(5000));
    let said = pass(rt, alloc, candidacy, listener, 5000)?;
    assert!(rt; said == (false, 2));
    assert!(rt; is_elected(candidacy.election()));
    assert!(rt; candidacy.first_end() == Some(5500));
    let told = pass(rt, alloc, candidacy, listener, 5500)?;
    assert!(rt; told == (false, 0));
    assert_eq!(rt; candidacy.held().len(), 1);
    let _ = pass(rt, alloc, candidacy, listener, 6000)?;
    let _ = pass(rt, alloc, candidacy, listener, 6500)?;
    assert!(rt; candidacy.first_end() == Some(15_000));
    let said = pass(rt, alloc, candidacy, listener, 15_000)?;
    assert!(rt; said == (true, 2));
    assert_eq!(rt; listener.rps().len(), 1);
    Ok(())
}

#[test]
fn stands_for_both(rt: HostRuntime) -> Result<(), Fail> {
    let alloc = rt.alloc();
    let mut candidacy = standing(alloc)?;
    let mut listener = Listener::new(alloc, 255, Vec::new(alloc), 60_000);
    elected(&rt, alloc, &mut candidacy, &mut listener)?;
    let range = AdvertisedRange {
        group: WIDE.address,
        length: 8,
        bidir: false,
        zone: false,
    };
    let advertisement = write_advertisement(alloc, OTHER, 100, 150, &[range])?;
    let bytes = packet(alloc, OWN, advertisement.as_slice())?;
    let heard = candidacy.hear_unicast(alloc, &Router { moment: 16_000 }, bytes.as_slice())?;
    assert!(&rt; heard == CandidacyHeard::Advertised);
    assert_eq!(&rt; candidacy.held().len(), 2);
    // It may say it from 25 s on, and answers one of less weight then.
    let less = bootstrap(alloc, 9)?;
    let heard = hears(
        &rt,
        alloc,
        &mut candidacy,
        &mut listener,
        25_000,
        less.as_slice(),
    )?;
    assert!(&rt; heard == (CandidacyHeard::Answered(true), 2));
    assert_eq!(&rt; listener.rps().len(), 2);
    let more = bootstrap(alloc, 11)?;
    let heard = hears(
        &rt,
        alloc,
        &mut candidacy,
        &mut listener,
        26_000,
        more.as_slice(),
    )?;
    assert!(&rt; heard == (CandidacyHeard::Taken(false), 2));
    assert!(&rt; !is_elected(candidacy.election()));
    assert!(&rt; candidacy.held().is_empty());
    let heard = candidacy.hear_unicast(alloc, &Router { moment: 26_000 }, bytes.as_slice())?;
    assert!(&rt; heard == CandidacyHeard::NotElected);
    let mut out = Vec::new(alloc);
    candidacy.leave(alloc, &listener, &mut out)?;
    match out.first() {
        Some(Emission::Unicast { destination, bytes }) => {
            assert!(&rt; destination.bits == OTHER.bits);
            assert_eq!(&rt; bytes.as_slice().len(), 42);
        }
        _ => assert!(&rt; false),
    }
    Ok(())
}

#[test]
fn stands_for_nothing(rt: HostRuntime) -> Result<(), Fail> {
    let alloc = rt.alloc();
    let mut candidacy = Candidacy::new(alloc, None, None, 0);
    let mut listener = Listener::new(alloc, 255, Vec::new(alloc), 60_000);
    assert!(&rt; candidacy.first_end().is_none());
    let less = bootstrap(alloc, 9)?;
    let heard = hears(
        &rt,
        alloc,
        &mut candidacy,
        &mut listener,
        1000,
        less.as_slice(),
    )?;
    assert!(&rt; heard == (CandidacyHeard::Taken(false), 2));
    let passed = pass(&rt, alloc, &mut candidacy, &mut listener, 2000)?;
    assert!(&rt; passed == (false, 0));
    assert!(&rt; candidacy.first_end().is_none());
    Ok(())
}
