//! Saved states, compared with bytes that docs/SAVED.md gives.
use pim_ip::{Addr, LanDelay, Prefix};
use pim_saved::SavedRefusal;
use pim_saver::{
    ReadFault, SavedGround, SavedHead, SavedLinks, SavedRecords, SavedState, SavedTrees, crc32,
    read_state, write_state,
};
use pim_types::fact::{
    AssertMetric, AssertRole, AssertRow, DownstreamRow, GroupRecordRow, GroupRepeatRow,
    InterfaceRow, JoinTimerRow, NeighbourRow, OverrideTimerRow, QuerierRole, QuerierRow,
    RegisterRow, RegisterState, SendingRow, SourceRecordRow, SourceRepeatRow, SourceRow,
};
use pim_types::{IfaceId, InterfaceConfig, Key, Route, RpCandidate, RpRange, Settings, SptSwitch};
use std::alloc::{AllocError, Global};
use std::process::Abort;
use std::test::Fail;

const LINK: IfaceId = IfaceId { number: 0 };

const ADDRESS: Addr = Addr { bits: 0x0A00_0001 };

const NEIGHBOUR: Addr = Addr { bits: 0x0A00_0002 };

const SOURCE: Addr = Addr { bits: 0x0A00_0205 };

const GROUP: Addr = Addr { bits: 0xE101_0101 };

// A row of each table, two of downstream states.
const STATE: &[u8] = &[
    // magic, version
    0x56, 0x51, 0x53, 0x54, 0x00, 0x02,
    // settings
    0x00, 0x01, 0x00, 0x00, 0x01, 0x00, 0x00, 0x00, 0x02, 0x00, 0x00, 0x00, 0x7D, 0x00, 0x00, 0x00,
    0x64, 0x00, 0x00, 0x00, 0x0A,
    // configured
    0x00, 0x00, 0x00, 0x00, 0x00, 0x00, 0x00, 0x01, 0x0A, 0x00, 0x00, 0x01, 0x00, 0x00, 0x00, 0x18,
    0x00, 0x00, 0x00, 0x01, 0x00, 0x00, 0x01, 0xF4, 0x00, 0x00, 0x09, 0xC4,
    // present
    0x00, 0x00, 0x00, 0x00, 0x00, 0x00, 0x03, 0xE8,
    // routes
    0x00, 0x00, 0x00, 0x00, 0x00, 0x00, 0x00, 0x01, 0x0A, 0x09, 0x00, 0x00, 0x00, 0x00, 0x00, 0x10,
    0x0A, 0x00, 0x00, 0x02, 0x00, 0x00, 0x00, 0x00, 0x00, 0x00, 0x00, 0x6E, 0x00, 0x00, 0x00, 0x14,
    // ranges
    0x00, 0x00, 0x00, 0x00, 0x00, 0x00, 0x00, 0x01, 0xE1, 0x00, 0x00, 0x00, 0x00, 0x00, 0x00, 0x08,
    0x0A, 0x09, 0x09, 0x09,
    // interfaces
    0x00, 0x00, 0x00, 0x00, 0x00, 0x00, 0x00, 0x01, 0x00, 0x00, 0x00, 0x00, 0x00, 0x00, 0x00, 0x00,
    0x00, 0x00, 0x00, 0x00, 0x00, 0x1F, 0x00, 0x00, 0x00, 0x00, 0x00, 0x00, 0x75, 0x30, 0x01,
    // neighbours
    0x00, 0x00, 0x00, 0x00, 0x00, 0x00, 0x00, 0x01, 0x00, 0x00, 0x00, 0x00, 0x00, 0x00, 0x00, 0x00,
    0x01, 0x0A, 0x00, 0x00, 0x02, 0x00, 0x01, 0x00, 0x00, 0x00, 0x00, 0x00, 0x01, 0x9A, 0x28, 0x01,
    0x01, 0x01, 0xF4, 0x09, 0xC4, 0x00, 0x01, 0x00, 0x00, 0x00, 0x07,
    // queriers
    0x00, 0x00, 0x00, 0x00, 0x00, 0x00, 0x00, 0x01, 0x00, 0x00, 0x00, 0x00, 0x00, 0x00, 0x00, 0x00,
    0x00, 0x00, 0x00, 0x00, 0x00, 0x00, 0x00, 0x00, 0x00, 0x7A, 0x12, 0x01, 0x02, 0x00, 0x7D,
    // group records
    0x00, 0x00, 0x00, 0x00, 0x00, 0x00, 0x00, 0x01, 0x00, 0x00, 0x00, 0x00, 0xE1, 0x01, 0x01, 0x01,
    0x00, 0x00, 0x01, 0x00, 0x00, 0x00, 0x00, 0x00, 0x03, 0xF7, 0xA0,
    // source records
    0x00, 0x00, 0x00, 0x00, 0x00, 0x00, 0x00, 0x01, 0x00, 0x00, 0x00, 0x00, 0xE1, 0x01, 0x01, 0x01,
    0x01, 0x0A, 0x00, 0x02, 0x05, 0x00, 0x00,
    // group repeats
    0x00, 0x00, 0x00, 0x00, 0x00, 0x00, 0x00, 0x01, 0x00, 0x00, 0x00, 0x00, 0xE1, 0x01, 0x01, 0x01,
    0x00, 0x00, 0x00, 0x00, 0x00, 0x00, 0x00, 0x00, 0x07, 0xD0, 0x00, 0x00, 0x00, 0x01,
    // source repeats
    0x00, 0x00, 0x00, 0x00, 0x00, 0x00, 0x00, 0x01, 0x00, 0x00, 0x00, 0x00, 0xE1, 0x01, 0x01, 0x01,
    0x00, 0x00, 0x00, 0x00, 0x00, 0x00, 0x00, 0x00, 0x09, 0xC4,
    // sendings
    0x00, 0x00, 0x00, 0x00, 0x00, 0x00, 0x00, 0x01, 0x00, 0x00, 0x00, 0x00, 0xE1, 0x01, 0x01, 0x01,
    0x01, 0x0A, 0x00, 0x02, 0x05, 0x00, 0x00, 0x00, 0x00, 0x02,
    // downstream
    0x00, 0x00, 0x00, 0x00, 0x00, 0x00, 0x00, 0x02, 0x00, 0x00, 0x00, 0x00, 0xE1, 0x01, 0x01, 0x01,
    0x00, 0x00, 0x01, 0x00, 0x00, 0x00, 0x00, 0x00, 0x03, 0x34, 0x50, 0x00, 0x00, 0x00, 0x00, 0x00,
    0xE1, 0x01, 0x01, 0x01, 0x01, 0x0A, 0x00, 0x02, 0x05, 0x01, 0x01, 0x00, 0x00, 0x00, 0x00, 0x00,
    0x03, 0x34, 0x50, 0x01, 0x00, 0x00, 0x00, 0x00, 0x00, 0x00, 0x0F, 0xA0,
    // asserts
    0x00, 0x00, 0x00, 0x00, 0x00, 0x00, 0x00, 0x01, 0x00, 0x00, 0x00, 0x00, 0xE1, 0x01, 0x01, 0x01,
    0x01, 0x0A, 0x00, 0x02, 0x05, 0x00, 0x01, 0x00, 0x00, 0x00, 0x00, 0x6E, 0x00, 0x00, 0x00, 0x14,
    0x0A, 0x00, 0x00, 0x02, 0x00, 0x00, 0x00, 0x00, 0x00, 0x02, 0xBF, 0x20,
    // join timers
    0x00, 0x00, 0x00, 0x00, 0x00, 0x00, 0x00, 0x01, 0x00, 0x00, 0x00, 0x00, 0xE1, 0x01, 0x01, 0x01,
    0x00, 0x00, 0x00, 0x00, 0x00, 0x00, 0x00, 0x00, 0xEA, 0x60,
    // override timers
    0x00, 0x00, 0x00, 0x00, 0x00, 0x00, 0x00, 0x01, 0x00, 0x00, 0x00, 0x00, 0xE1, 0x01, 0x01, 0x01,
    0x01, 0x0A, 0x00, 0x02, 0x05, 0x01, 0x00, 0x00, 0x00, 0x00, 0x00, 0x00, 0x0B, 0xB8,
    // sources
    0x00, 0x00, 0x00, 0x00, 0x00, 0x00, 0x00, 0x01, 0x00, 0x00, 0x00, 0x00, 0xE1, 0x01, 0x01, 0x01,
    0x01, 0x0A, 0x00, 0x02, 0x05, 0x00, 0x01, 0x00, 0x00, 0x00, 0x00, 0x00, 0x03, 0x38, 0x38, 0x01,
    // registers
    0x00, 0x00, 0x00, 0x00, 0x00, 0x00, 0x00, 0x01, 0x00, 0x00, 0x00, 0x00, 0xE1, 0x01, 0x01, 0x01,
    0x01, 0x0A, 0x00, 0x02, 0x05, 0x00, 0x02, 0x00, 0x00, 0x00, 0x00, 0x00, 0x00, 0xEA, 0x60,
    // the sum
    0x54, 0xC4, 0xFD, 0xA9,
];

// The place of the switch to the SPT, which is 0 or 1.
const SPT: usize = 10;

// The place of the last byte of the group of the first downstream state.
const FIRST_GROUP: usize = 367;

// The place of the sum.
const SUM: usize = 575;

fn ground(alloc: Global) -> Result<SavedGround, AllocError> {
    let mut configured = Vec::new(alloc);
    configured.push(InterfaceConfig {
        address: ADDRESS,
        length: 24,
        priority: 1,
        propagation_delay: 500,
        override_interval: 2500,
    })?;
    let mut routes = Vec::new(alloc);
    routes.push(Route {
        prefix: Prefix {
            address: Addr { bits: 0x0A09_0000 },
            length: 16,
        },
        next_hop: NEIGHBOUR,
        iface: LINK,
        preference: 110,
        metric: 20,
    })?;
    let mut ranges = Vec::new(alloc);
    ranges.push(RpRange {
        prefix: Prefix {
            address: Addr { bits: 0xE100_0000 },
            length: 8,
        },
        rp: Addr { bits: 0x0A09_0909 },
    })?;
    let settings = Settings {
        limit: 65536,
        spt: SptSwitch::Never,
        robustness: 2,
        query_interval: 125,
        query_response_interval: 100,
        last_member_query_interval: 10,
    };
    Ok(SavedGround {
        settings,
        configured,
        present: 1000,
        routes,
        ranges,
    })
}

fn links(alloc: Global) -> Result<SavedLinks, AllocError> {
    let mut interfaces = Vec::new(alloc);
    let up = InterfaceRow {
        generation: 31,
        hello_end: 30_000,
        is_hello_owed: true,
    };
    interfaces.push((Key::iface(LINK), up))?;
    let mut neighbours = Vec::new(alloc);
    let delay = LanDelay {
        can_track: true,
        propagation_delay: 500,
        override_interval: 2500,
    };
    let neighbour = NeighbourRow {
        end: Some(105_000),
        lan_delay: Some(delay),
        priority: None,
        generation: Some(7),
    };
    neighbours.push((Key::neighbour(LINK, NEIGHBOUR), neighbour))?;
    let mut queriers = Vec::new(alloc);
    let role = QuerierRole::Querier {
        next_query: 31_250,
        startup_left: 1,
    };
    queriers.push((
        Key::iface(LINK),
        QuerierRow {
            role,
            robustness: 2,
            query_interval: 125,
        },
    ))?;
    Ok(SavedLinks {
        interfaces,
        neighbours,
        queriers,
    })
}

fn records(alloc: Global) -> Result<SavedRecords, AllocError> {
    let (star, source) = (Key::star(LINK, GROUP), Key::source(LINK, GROUP, SOURCE));
    let mut group_records = Vec::new(alloc);
    group_records.push((star, GroupRecordRow { end: Some(260_000) }))?;
    let mut source_records = Vec::new(alloc);
    source_records.push((source, SourceRecordRow { end: None }))?;
    let mut group_repeats = Vec::new(alloc);
    group_repeats.push((
        star,
        GroupRepeatRow {
            next: 2000,
            left: 1,
        },
    ))?;
    let mut source_repeats = Vec::new(alloc);
    source_repeats.push((star, SourceRepeatRow { next: 2500 }))?;
    let mut sendings = Vec::new(alloc);
    sendings.push((source, SendingRow { left: 2 }))?;
    Ok(SavedRecords {
        group_records,
        source_records,
        group_repeats,
        source_repeats,
        sendings,
    })
}

fn trees(alloc: Global) -> Result<SavedTrees, AllocError> {
    let (star, source) = (Key::star(LINK, GROUP), Key::source(LINK, GROUP, SOURCE));
    let pruned = Key::source_rpt(LINK, GROUP, SOURCE);
    let mut downstream = Vec::new(alloc);
    downstream.push((
        star,
        DownstreamRow {
            expiry: Some(210_000),
            pending: None,
        },
    ))?;
    downstream.push((
        pruned,
        DownstreamRow {
            expiry: Some(210_000),
            pending: Some(4000),
        },
    ))?;
    let mut asserts = Vec::new(alloc);
    let winner = AssertMetric {
        rpt: false,
        preference: 110,
        metric: 20,
        address: NEIGHBOUR,
    };
    asserts.push((
        source,
        AssertRow {
            role: AssertRole::Loser,
            winner,
            end: 180_000,
        },
    ))?;
    let mut join_timers = Vec::new(alloc);
    join_timers.push((star, JoinTimerRow { end: 60_000 }))?;
    let mut override_timers = Vec::new(alloc);
    override_timers.push((pruned, OverrideTimerRow { end: 3000 }))?;
    let mut sources = Vec::new(alloc);
    sources.push((
        source,
        SourceRow {
            keepalive: Some(211_000),
            spt: true,
        },
    ))?;
    let mut registers = Vec::new(alloc);
    registers.push((
        source,
        RegisterRow {
            state: RegisterState::Prune { end: 60_000 },
        },
    ))?;
    Ok(SavedTrees {
        downstream,
        asserts,
        join_timers,
        override_timers,
        sources,
        registers,
    })
}

fn state(alloc: Global) -> Result<SavedState, AllocError> {
    let ground = ground(alloc)?;
    let links = links(alloc)?;
    let records = records(alloc)?;
    let trees = trees(alloc)?;
    Ok(SavedState {
        head: SavedHead {
            candidates: Vec::new(alloc),
            addresses: Vec::new(alloc),
        },
        ground,
        links,
        records,
        trees,
    })
}

// These bytes with another one at a place.
fn changed(alloc: Global, given: &[u8], place: usize, byte: u8) -> Result<Vec<u8>, Fail> {
    let mut bytes = Vec::new(alloc);
    for (i, old) in given.iter().enumerate() {
        bytes.push(if i == place { byte } else { *old })?;
    }
    Ok(bytes)
}

// These bytes, with their sum behind them.
fn summed(alloc: Global, front: &[u8]) -> Result<Vec<u8>, Fail> {
    let mut bytes = Vec::new(alloc);
    bytes.extend_from_slice(front)?;
    bytes.extend_from_slice(&crc32(front).to_be_bytes())?;
    Ok(bytes)
}

// The state with another byte at a place.
fn spoilt(alloc: Global, place: usize, byte: u8) -> Result<Vec<u8>, Fail> {
    changed(alloc, STATE, place, byte)
}

// The state with another byte at a place, and the sum that it has then.
fn spoilt_and_summed(alloc: Global, place: usize, byte: u8) -> Result<Vec<u8>, Fail> {
    let front = changed(alloc, &STATE[..SUM], place, byte)?;
    summed(alloc, &front)
}

fn is_refused(alloc: Global, bytes: &[u8], refusal: SavedRefusal) -> bool {
    match read_state(alloc, bytes) {
        Err(ReadFault::Refused(why)) => why == refusal,
        _ => false,
    }
}

fn refuses(rt: &impl Abort, alloc: Global, bytes: &[u8], refusal: SavedRefusal) {
    assert!(rt; is_refused(alloc, bytes, refusal));
}

#[test]
fn states_are_written(rt: HostRuntime) -> Result<(), Fail> {
    let mut bytes = Vec::new(rt.alloc());
    write_state(&state(rt.alloc())?, &mut bytes)?;
    assert_eq!(rt; bytes.as_slice(), STATE);
    Ok(())
}

#[test]
fn states_are_read(rt: HostRuntime) -> Result<(), Fail> {
    let state = read_state(rt.alloc(), STATE).ok().ok_or("it is read")?;
    let mut bytes = Vec::new(rt.alloc());
    write_state(&state, &mut bytes)?;
    assert_eq!(rt; bytes.as_slice(), STATE);
    Ok(())
}

#[test]
fn other_bytes_are_refused(rt: HostRuntime) -> Result<(), Fail> {
    let alloc = rt.alloc();
    refuses(&rt, alloc, &spoilt(alloc, 0, 0)?, SavedRefusal::NotOurs);
    refuses(
        &rt,
        alloc,
        &spoilt(alloc, 5, 1)?,
        SavedRefusal::OtherVersion,
    );
    refuses(
        &rt,
        alloc,
        &spoilt_and_summed(alloc, SPT, 2)?,
        SavedRefusal::OutOfRange,
    );
    refuses(
        &rt,
        alloc,
        &spoilt_and_summed(alloc, FIRST_GROUP, 2)?,
        SavedRefusal::KeysDontRise,
    );
    let mut longer = Vec::new(alloc);
    longer.extend_from_slice(&STATE[..SUM])?;
    longer.push(0)?;
    refuses(&rt, alloc, &summed(alloc, &longer)?, SavedRefusal::LeftOver);
    Ok(())
}

#[test]
fn each_damaged_byte_is_told(rt: HostRuntime) -> Result<(), Fail> {
    let alloc = rt.alloc();
    for place in 6..STATE.len() {
        let bytes = spoilt(alloc, place, STATE[place] ^ 1)?;
        refuses(&rt, alloc, &bytes, SavedRefusal::Damaged);
    }
    Ok(())
}

#[test]
fn each_front_is_refused(rt: HostRuntime) -> Result<(), Fail> {
    let alloc = rt.alloc();
    for n in 0..6 {
        refuses(&rt, alloc, &STATE[..n], SavedRefusal::CutShort);
    }
    for n in 6..STATE.len() {
        refuses(&rt, alloc, &STATE[..n], SavedRefusal::Damaged);
    }
    // What is missing is read of the sum first, where a flag may be none.
    for n in 6..SUM {
        let bytes = summed(alloc, &STATE[..n])?;
        assert!(rt;
            is_refused(alloc, &bytes, SavedRefusal::CutShort)
                || is_refused(alloc, &bytes, SavedRefusal::OutOfRange)
        );
    }
    Ok(())
}

// The state with so many own addresses of no interface, in version 3: their number, each in four bytes, and the rest.
fn with_addresses(alloc: Global, count: u8, addresses: &[u8]) -> Result<Vec<u8>, Fail> {
    let mut front = Vec::new(alloc);
    front.extend_from_slice(&STATE[..5])?;
    front.extend_from_slice(&[3, 0, 0, 0, 0, 0, 0, 0])?;
    front.push(count)?;
    front.extend_from_slice(addresses)?;
    front.extend_from_slice(&STATE[6..SUM])?;
    summed(alloc, &front)
}

#[test]
fn own_addresses_make_version_3(rt: HostRuntime) -> Result<(), Fail> {
    let alloc = rt.alloc();
    let expected = with_addresses(alloc, 2, &[10, 255, 1, 1, 10, 255, 1, 2])?;
    let mut state = state(alloc)?;
    state.head.addresses.push(Addr { bits: 0x0AFF_0101 })?;
    state.head.addresses.push(Addr { bits: 0x0AFF_0102 })?;
    let mut bytes = Vec::new(alloc);
    write_state(&state, &mut bytes)?;
    assert_eq!(rt; bytes.as_slice(), expected.as_slice());
    let again = read_state(alloc, &expected).ok().ok_or("it is read")?;
    assert!(rt; again.head.addresses.as_slice() == state.head.addresses.as_slice());
    Ok(())
}

#[test]
fn version_3_without_addresses_is_refused(rt: HostRuntime) -> Result<(), Fail> {
    let alloc = rt.alloc();
    let bytes = with_addresses(alloc, 0, &[])?;
    refuses(&rt, alloc, &bytes, SavedRefusal::OutOfRange);
    Ok(())
}

// Two RPs of 239.0.0.0/8: 10.99.0.1 of priority 192, and 10.88.0.9 of priority 0, both with a mask of 30 bits.
const CANDIDATES: &[u8] = &[
    0xEF, 0x00, 0x00, 0x00, 0x00, 0x00, 0x00, 0x08, 0x0A, 0x63, 0x00, 0x01, 0x00, 0x00, 0x00, 0xC0,
    0x00, 0x00, 0x00, 0x1E, 0xEF, 0x00, 0x00, 0x00, 0x00, 0x00, 0x00, 0x08, 0x0A, 0x58, 0x00, 0x09,
    0x00, 0x00, 0x00, 0x00, 0x00, 0x00, 0x00, 0x1E,
];

// An RP of 239.0.0.0/8, as it is read.
fn candidate(rp: u32, priority: u32) -> RpCandidate {
    RpCandidate {
        prefix: Prefix {
            address: Addr { bits: 0xEF00_0000 },
            length: 8,
        },
        rp: Addr { bits: rp },
        priority,
        hash_length: 30,
    }
}

// The state in version 4: one own address of no interface, so many candidates, these, and the rest.
fn with_candidates(alloc: Global, count: u8, candidates: &[u8]) -> Result<Vec<u8>, Fail> {
    let mut front = Vec::new(alloc);
    front.extend_from_slice(&STATE[..5])?;
    front.extend_from_slice(&[
        4, 0, 0, 0, 0, 0, 0, 0, 1, 10, 255, 1, 1, 0, 0, 0, 0, 0, 0, 0,
    ])?;
    front.push(count)?;
    front.extend_from_slice(candidates)?;
    front.extend_from_slice(&STATE[6..SUM])?;
    summed(alloc, &front)
}

#[test]
fn candidates_make_version_4(rt: HostRuntime) -> Result<(), Fail> {
    let alloc = rt.alloc();
    let expected = with_candidates(alloc, 2, CANDIDATES)?;
    let mut state = state(alloc)?;
    state.head.addresses.push(Addr { bits: 0x0AFF_0101 })?;
    state.head.candidates.push(candidate(0x0A63_0001, 192))?;
    state.head.candidates.push(candidate(0x0A58_0009, 0))?;
    let mut bytes = Vec::new(alloc);
    write_state(&state, &mut bytes)?;
    assert_eq!(rt; bytes.as_slice(), expected.as_slice());
    let again = read_state(alloc, &expected).ok().ok_or("it is read")?;
    assert_eq!(rt; again.head.candidates.len(), 2);
    assert_eq!(rt; again.head.candidates[0].priority, 192);
    assert_eq!(rt; again.head.candidates[1].rp.bits, 0x0A58_0009);
    Ok(())
}

#[test]
fn version_4_without_candidates_is_refused(rt: HostRuntime) -> Result<(), Fail> {
    let alloc = rt.alloc();
    let bytes = with_candidates(alloc, 0, &[])?;
    refuses(&rt, alloc, &bytes, SavedRefusal::OutOfRange);
    Ok(())
}
