//! The listener for Bootstraps, on messages of many kinds.
ghost use Rattle.std.specs.Prelude.{◌≡◌};

use pim_bsr::{Choice, Heard, Listener, Surroundings, Why};
use pim_ip::{Addr, Prefix, Refusal, write_pim_packet};
use pim_types::{Emission, Hop, IfaceId, RpRange};
use std::alloc::{AllocError, Global};
use std::process::Abort;
use std::test::Fail;

const NEAR: IfaceId = IfaceId { number: 0 };

const FAR: IfaceId = IfaceId { number: 1 };

// The RPF neighbour of every BSR in 10.99.0.0/16, on the near interface.
const UPSTREAM: Addr = Addr { bits: 0x0A00_0002 };

// Another neighbour, on either interface.
const OTHER: Addr = Addr { bits: 0x0A00_0003 };

const STRANGER: Addr = Addr { bits: 0x0A00_0063 };

const OWN: Addr = Addr { bits: 0x0A63_0001 };

const BSR: Addr = Addr { bits: 0x0A63_0009 };

// A BSR of a greater address.
const HIGH_BSR: Addr = Addr { bits: 0x0A63_000A };

// A BSR to which no route leads.
const LOST_BSR: Addr = Addr { bits: 0x0A62_0009 };

const FIRST_RP: Addr = Addr { bits: 0x0A63_0001 };

const SECOND_RP: Addr = Addr { bits: 0x0A58_0009 };

const THIRD_RP: Addr = Addr { bits: 0x0A4D_0002 };

// The range 239.0.0.0/8.
const WIDE: Addr = Addr { bits: 0xEF00_0000 };

// A router with neighbours on two of three interfaces.
#[derive(Drop)]
struct Router {
    moment: u64,
    upstream: Addr,
}

impl Surroundings for Router {
    ghost use Rattle.std.specs.Prelude.{◌/◌, ◌==◌, ◌^◌, ◌||◌, ◌&&◌, min, nat_lt, if◌then◌else◌, Some, None};

    ghost around = { λ r. record {
      present = min r.moment (2 ^ 62);
      own = λ a. a == 0x0A63_0001;
      neighbour = λ i a. nat_lt i 2 && ((a == 0x0A00_0002) || (a == 0x0A00_0003));
      hop = λ a. if a / 65536 == 0x0A63 then Some (record { iface = record { number = 0 }; address = r.upstream }) else None;
      count = 3;
      linked = λ i. nat_lt i 2;
      address = λ i. 0x0A00_0001;
    } };

    fn present_moment(&self) -> u64 {
        self.moment.min(1 << 62)
    }

    fn is_own(&self, address: Addr) -> bool {
        address.bits == 0x0A63_0001
    }

    fn is_neighbour(&self, iface: IfaceId, address: Addr) -> bool {
        iface.number < 2 && (address.bits == 0x0A00_0002 || address.bits == 0x0A00_0003)
    }

    fn rpf_neighbour(&self, address: Addr) -> Option<Hop> {
        if address.bits / 65536 == 0x0A63 {
            return Some(Hop {
                iface: IfaceId { number: 0 },
                address: self.upstream,
            });
        }
        None
    }

    fn interface_count(&self) -> u32 {
        3
    }

    fn has_neighbours(&self, iface: IfaceId) -> bool {
        iface.number < 2
    }

    fn address(&self, _iface: IfaceId) -> Addr {
        Addr { bits: 0x0A00_0001 }
    }
}

// An RP of a message: its address, holdtime and priority.
#[derive(Clone, Copy)]
struct Candidate(Addr, u16, u8);

const FIRST: Candidate = Candidate(FIRST_RP, 150, 5);

const SECOND: Candidate = Candidate(SECOND_RP, 150, 5);

const THIRD: Candidate = Candidate(THIRD_RP, 150, 5);

// A range of a message as its fields follow: flags, mask length, group, count of RPs, and those that are there.
#[derive(Clone, Copy)]
struct Range<'a>(u8, u8, Addr, u8, &'a [Candidate]);

// The head of a message, whose ranges are put behind it.
#[derive(Clone, Copy)]
struct Head {
    no_forward: bool,
    tag: u16,
    hash_length: u8,
    priority: u8,
    bsr: Addr,
}

const HEAD: Head = Head {
    no_forward: false,
    tag: 7,
    hash_length: 30,
    priority: 10,
    bsr: BSR,
};

fn put_rp(bytes: &mut Vec<u8>, rp: Candidate) -> Result<(), AllocError> {
    let Candidate(address, holdtime, priority) = rp;
    let [first, second, third, fourth] = address.octets();
    let [high, low] = holdtime.to_be_bytes();
    bytes.extend_from_slice(&[1, 0, first, second, third, fourth])?;
    bytes.extend_from_slice(&[high, low, priority, 0])
}

fn put_range(bytes: &mut Vec<u8>, range: Range<'_>) -> Result<(), AllocError> {
    let Range(flags, mask, group, count, rps) = range;
    let [first, second, third, fourth] = group.octets();
    bytes.extend_from_slice(&[1, 0, flags, mask, first, second, third, fourth])?;
    let here = (rps.len() % 256) as u8;
    bytes.extend_from_slice(&[count, here, 0, 0])?;
    for rp in rps {
        put_rp(bytes, *rp)?;
    }
    Ok(())
}

fn put_head(bytes: &mut Vec<u8>, head: Head) -> Result<(), AllocError> {
    let [high, low] = head.tag.to_be_bytes();
    let [first, second, third, fourth] = head.bsr.octets();
    let flags = if head.no_forward { 0x80 } else { 0 };
    bytes.extend_from_slice(&[0x24, flags, 0, 0, high, low])?;
    bytes.extend_from_slice(&[head.hash_length, head.priority])?;
    bytes.extend_from_slice(&[1, 0, first, second, third, fourth])
}

fn message(alloc: Global, head: Head, ranges: &[Range<'_>]) -> Result<Vec<u8>, AllocError> {
    let mut bytes = Vec::new(alloc);
    put_head(&mut bytes, head)?;
    for range in ranges {
        put_range(&mut bytes, *range)?;
    }
    Ok(bytes)
}

// A message of as many ranges 225.0.0.0/32 and on, from a first one.
fn many_ranges(alloc: Global, first: u32, count: u32) -> Result<Vec<u8>, AllocError> {
    let mut bytes = message(alloc, HEAD, &[])?;
    for number in 0..count.min(256) {
        let group = Addr::from(0xE100_0000 + first % 0x1_0000 + number);
        put_range(&mut bytes, Range(0, 32, group, 1, &[FIRST]))?;
    }
    Ok(bytes)
}

// The addresses 11.0.0.1 and on, ten of each number.
fn ten_rps(alloc: Global, number: u32) -> Result<Vec<Candidate>, AllocError> {
    let start = 0x0B00_0001 + 10 * (number % 256);
    let mut rps = Vec::new(alloc);
    for other in 0..10u32 {
        rps.push(Candidate(Addr::from(start + other), 65535, 5))?;
    }
    Ok(rps)
}

// The range 239.0.0.0/8 as configured.
fn one_range(alloc: Global, rp: Addr) -> Result<Vec<RpRange>, AllocError> {
    let (address, length) = (WIDE, 8);
    let prefix = Prefix { address, length };
    let mut ranges = Vec::new(alloc);
    ranges.push(RpRange { prefix, rp })?;
    Ok(ranges)
}

// What a listener does or is asked, and what is expected of it.
#[derive(Clone, Copy)]
enum Step {
    // Messages come from an address on an interface, at first from the RPF neighbour.
    From(IfaceId, Addr),
    // A message of the range 239.0.0.0/8 with a count and RPs.
    Hear(Head, u8, &'static [Candidate], Heard),
    // One of that range with another mask.
    HearMask(u8, Heard),
    HearRanges(Head, &'static [Range<'static>], Heard),
    // A message of so many ranges, from a first one.
    HearMany(u32, u32, Heard),
    HearFronts,
    HearTens,
    // How many RPs are in force, and how many wait in parts.
    Knows(usize, usize),
    // The router is given one RP, or none.
    Gives(Option<Addr>),
    // It would be given so many ranges beside a configured one.
    Beside(Addr, usize),
    Configure(Addr),
    Choose(Choice),
    // The router is given so many candidates.
    Offers(usize),
    // Beside a configured range, with room for so many RPs, it would be given others.
    Loses(usize, bool),
    FirstEnd(Option<u64>),
    FirstGroup(Option<Addr>),
    SentOn(usize),
    Moment(u64),
    // The time goes on, and the router is to be given other ranges or isn't.
    Pass(u64, bool),
    Upstream(Addr),
}

// A listener before a router, whose messages come from an address on an interface, and what it sent on.
#[derive(Drop)]
struct Play {
    alloc: Global,
    listener: Listener,
    router: Router,
    from: (IfaceId, Addr),
    out: Vec<Emission>,
}

impl Play {
    fn new(alloc: Global, limit: usize) -> Play {
        Play {
            alloc,
            listener: Listener::new(alloc, limit, Vec::new(alloc), 60_000),
            router: Router {
                moment: 1000,
                upstream: UPSTREAM,
            },
            from: (NEAR, UPSTREAM),
            out: Vec::new(alloc),
        }
    }

    // A message comes in a packet. What was sent on before is dropped.
    fn hear(&mut self, message: &[u8]) -> Result<Heard, AllocError> {
        let (iface, source) = self.from;
        let mut packet = Vec::new(self.alloc);
        let message = &message[..message.len().min(1480)];
        write_pim_packet(1, source, Addr::ALL_PIM_ROUTERS, message, &mut packet)?;
        self.out.clear();
        self.listener.hear(
            self.alloc,
            &self.router,
            iface,
            packet.as_slice(),
            &mut self.out,
        )
    }

    fn hear_of(&mut self, head: Head, ranges: &[Range<'_>]) -> Result<Heard, AllocError> {
        let message = message(self.alloc, head, ranges)?;
        self.hear(&message)
    }

    fn hear_wide(&mut self, head: Head, count: u8, rps: &[Candidate]) -> Result<Heard, AllocError> {
        self.hear_of(head, &[Range(0, 8, WIDE, count, rps)])
    }

    fn hear_mask(&mut self, mask: u8) -> Result<Heard, AllocError> {
        self.hear_of(HEAD, &[Range(0, mask, WIDE, 1, &[FIRST])])
    }

    fn hear_many(&mut self, first: u32, count: u32) -> Result<Heard, AllocError> {
        let message = many_ranges(self.alloc, first, count)?;
        self.hear(&message)
    }

    fn hear_ten(&mut self, number: u32) -> Result<Heard, AllocError> {
        let rps = ten_rps(self.alloc, number)?;
        self.hear_wide(HEAD, 255, &rps)
    }

    // The RP of the first range that the router is given.
    fn given(&self) -> Result<Option<Addr>, AllocError> {
        let given = self.listener.given(self.alloc)?;
        Ok(given.first().map(|range| range.rp))
    }

    fn given_beside(&self, rp: Addr) -> Result<usize, AllocError> {
        let ranges = one_range(self.alloc, rp)?;
        Ok(self.listener.given_beside(self.alloc, 256, &ranges)?.len())
    }

    fn configure(&mut self, rp: Addr) -> Result<(), AllocError> {
        self.listener.configure(256, one_range(self.alloc, rp)?);
        Ok(())
    }

    fn offered(&self) -> Result<usize, AllocError> {
        Ok(self.listener.candidates(self.alloc)?.len())
    }

    fn loses_beside(&self, limit: usize) -> Result<bool, AllocError> {
        let ranges = one_range(self.alloc, THIRD_RP)?;
        Ok(self.listener.loses_beside(limit, &ranges))
    }

    fn first_group(&self) -> Option<Addr> {
        let first = self.listener.rps().first();
        first.map(|learned| learned.prefix.address)
    }

    fn pass_to(&mut self, moment: u64) -> Result<bool, AllocError> {
        self.router.moment = moment;
        self.listener.pass_to(self.alloc, moment)
    }
}

fn is(rt: &impl Abort, heard: Heard, want: Heard) {
    assert!(rt; heard == want);
}

// Each front of a message is heard, and then it with a byte more.
fn hears_fronts(rt: &impl Abort, play: &mut Play) -> Result<(), AllocError> {
    let mut whole = message(play.alloc, HEAD, &[Range(0, 8, WIDE, 1, &[FIRST])])?;
    for length in 4..whole.len() {
        let cut = play.hear(&whole[..length])?;
        // Behind its BSR a message may end: then it has no range.
        if length == 14 {
            is(rt, cut, Heard::Taken(false));
        } else {
            is(rt, cut, Heard::Refused(Refusal::Short));
        }
    }
    whole.push(0)?;
    let longer = play.hear(&whole)?;
    is(rt, longer, Heard::Refused(Refusal::Short));
    Ok(())
}

// Twenty messages of ten RPs each are heard. There is room for those of ten.
fn hears_tens(rt: &impl Abort, play: &mut Play) -> Result<(), AllocError> {
    for number in 0..20u32 {
        let heard = play.hear_ten(number)?;
        if number < 10 {
            is(rt, heard, Heard::Taken(false));
        } else {
            is(rt, heard, Heard::Ignored(Why::NoRoom));
        }
    }
    Ok(())
}

fn knows(rt: &impl Abort, play: &Play, rps: usize, parts: usize) {
    assert_eq!(rt; play.listener.rps().len(), rps);
    assert_eq!(rt; play.listener.parts().len(), parts);
}

fn are(rt: &impl Abort, address: Option<Addr>, want: Option<Addr>) {
    assert!(rt; address == want);
}

fn says(rt: &impl Abort, moved: bool, want: bool) {
    assert_eq!(rt; moved, want);
}

fn counts(rt: &impl Abort, count: usize, want: usize) {
    assert_eq!(rt; count, want);
}

fn ends(rt: &impl Abort, end: Option<u64>, want: Option<u64>) {
    assert!(rt; end == want);
}

fn take(rt: &impl Abort, play: &mut Play, step: Step) -> Result<(), AllocError> {
    match step {
        Step::From(iface, source) => play.from = (iface, source),
        Step::Hear(head, count, rps, want) => is(rt, play.hear_wide(head, count, rps)?, want),
        Step::HearMask(mask, want) => is(rt, play.hear_mask(mask)?, want),
        Step::HearRanges(head, ranges, want) => is(rt, play.hear_of(head, ranges)?, want),
        Step::HearMany(first, count, want) => is(rt, play.hear_many(first, count)?, want),
        Step::HearFronts => hears_fronts(rt, play)?,
        Step::HearTens => hears_tens(rt, play)?,
        Step::Knows(rps, parts) => knows(rt, play, rps, parts),
        Step::Gives(want) => are(rt, play.given()?, want),
        Step::Beside(rp, count) => counts(rt, play.given_beside(rp)?, count),
        Step::Configure(rp) => play.configure(rp)?,
        Step::Choose(choice) => play.listener.choose(choice),
        Step::Offers(count) => counts(rt, play.offered()?, count),
        Step::Loses(limit, want) => says(rt, play.loses_beside(limit)?, want),
        Step::FirstEnd(want) => ends(rt, play.listener.first_end(), want),
        Step::FirstGroup(want) => are(rt, play.first_group(), want),
        Step::SentOn(count) => counts(rt, play.out.len(), count),
        Step::Moment(moment) => play.router.moment = moment,
        Step::Pass(moment, want) => says(rt, play.pass_to(moment)?, want),
        Step::Upstream(upstream) => play.router.upstream = upstream,
    }
    Ok(())
}

fn perform(rt: &impl Abort, alloc: Global, limit: usize, steps: &[Step]) -> Result<(), Fail> {
    let mut play = Play::new(alloc, limit);
    for step in steps {
        take(rt, &mut play, *step)?;
    }
    Ok(())
}

#[test]
fn only_the_rpf_neighbour_is_heard(rt: HostRuntime) -> Result<(), Fail> {
    const LOST: Head = Head {
        bsr: LOST_BSR,
        priority: 255,
        ..HEAD
    };
    const MINE: Head = Head { bsr: OWN, ..HEAD };
    const STEPS: &[Step] = &[
        Step::From(NEAR, OTHER),
        Step::Hear(HEAD, 1, &[FIRST], Heard::Ignored(Why::NotFromRpf)),
        Step::From(FAR, UPSTREAM),
        Step::Hear(HEAD, 1, &[FIRST], Heard::Ignored(Why::NotFromRpf)),
        Step::From(NEAR, STRANGER),
        Step::Hear(HEAD, 1, &[FIRST], Heard::Ignored(Why::NoNeighbour)),
        Step::From(NEAR, UPSTREAM),
        Step::Hear(LOST, 1, &[FIRST], Heard::Ignored(Why::NotFromRpf)),
        Step::Hear(MINE, 1, &[FIRST], Heard::Ignored(Why::OwnBsr)),
        Step::Knows(0, 0),
        Step::Hear(HEAD, 1, &[FIRST], Heard::Taken(true)),
        Step::Gives(Some(FIRST_RP)),
    ];
    perform(&rt, rt.alloc(), 256, STEPS)
}

#[test]
fn a_configured_range_wins(rt: HostRuntime) -> Result<(), Fail> {
    const STEPS: &[Step] = &[
        Step::Hear(HEAD, 1, &[FIRST], Heard::Taken(true)),
        Step::Beside(THIRD_RP, 1),
        Step::Gives(Some(FIRST_RP)),
        Step::Configure(THIRD_RP),
        Step::Gives(Some(THIRD_RP)),
    ];
    perform(&rt, rt.alloc(), 256, STEPS)
}

#[test]
fn each_group_has_its_rp(rt: HostRuntime) -> Result<(), Fail> {
    const STEPS: &[Step] = &[
        Step::Hear(HEAD, 3, &[FIRST, SECOND, THIRD], Heard::Taken(true)),
        Step::Offers(0),
        Step::Loses(2, false),
        Step::Choose(Choice::Group),
        Step::Gives(None),
        Step::Offers(3),
        Step::Loses(3, false),
        Step::Loses(2, true),
        Step::Choose(Choice::Range),
        Step::Gives(Some(FIRST_RP)),
    ];
    perform(&rt, rt.alloc(), 256, STEPS)
}

#[test]
fn messages_that_cannot_be_read_are_refused(rt: HostRuntime) -> Result<(), Fail> {
    const UNICAST: Range<'static> = Range(0, 8, BSR, 1, &[FIRST]);
    const GROUP: Candidate = Candidate(WIDE, 150, 5);
    const STEPS: &[Step] = &[
        Step::HearFronts,
        Step::HearMask(0, Heard::Refused(Refusal::BadLength)),
        Step::HearMask(3, Heard::Refused(Refusal::BadLength)),
        Step::HearMask(33, Heard::Refused(Refusal::BadLength)),
        Step::HearMask(255, Heard::Refused(Refusal::BadLength)),
        Step::HearRanges(HEAD, &[UNICAST], Heard::Refused(Refusal::NotMulticast)),
        Step::Hear(HEAD, 1, &[GROUP], Heard::Refused(Refusal::BadAddress)),
        Step::Knows(0, 0),
    ];
    perform(&rt, rt.alloc(), 256, STEPS)
}

#[test]
fn fragments_are_put_together(rt: HostRuntime) -> Result<(), Fail> {
    const BACK: Head = Head { tag: 6, ..HEAD };
    const STEPS: &[Step] = &[
        Step::Hear(HEAD, 3, &[SECOND, THIRD], Heard::Taken(false)),
        Step::Knows(0, 2),
        // The same fragment again adds none.
        Step::Hear(HEAD, 3, &[SECOND, THIRD], Heard::Taken(false)),
        Step::Knows(0, 2),
        Step::Hear(HEAD, 3, &[FIRST], Heard::Taken(true)),
        Step::Knows(3, 0),
        Step::Gives(Some(FIRST_RP)),
        // Under another tag the parts begin anew, and the RPs in force stay.
        Step::Hear(BACK, 3, &[SECOND], Heard::Taken(false)),
        Step::Knows(3, 1),
        // Under the same tag with another count two are all.
        Step::Hear(BACK, 2, &[THIRD], Heard::Taken(true)),
        Step::Knows(2, 0),
        Step::Gives(Some(SECOND_RP)),
        // The RPF neighbour is another between two fragments.
        Step::Hear(HEAD, 3, &[SECOND, THIRD], Heard::Taken(false)),
        Step::Upstream(OTHER),
        Step::From(NEAR, OTHER),
        Step::Hear(HEAD, 3, &[FIRST], Heard::Taken(true)),
        Step::Knows(3, 0),
    ];
    perform(&rt, rt.alloc(), 256, STEPS)
}

#[test]
fn fragments_of_two_bsrs_stay_apart(rt: HostRuntime) -> Result<(), Fail> {
    const HEAVIER: Head = Head {
        priority: 11,
        bsr: HIGH_BSR,
        ..HEAD
    };
    const STEPS: &[Step] = &[
        Step::Hear(HEAD, 2, &[SECOND], Heard::Taken(false)),
        // The same tag, of another BSR: its part takes the place of the first.
        Step::Hear(HEAVIER, 2, &[THIRD], Heard::Taken(false)),
        Step::Knows(0, 1),
        Step::Hear(HEAVIER, 2, &[FIRST], Heard::Taken(true)),
        Step::Knows(2, 0),
    ];
    perform(&rt, rt.alloc(), 256, STEPS)
}

#[test]
fn a_hash_mask_counts_for_all_ranges(rt: HostRuntime) -> Result<(), Fail> {
    const UNHASHED: Head = Head {
        hash_length: 0,
        ..HEAD
    };
    const OTHER: Range<'static> = Range(0, 8, Addr { bits: 0xEE00_0000 }, 1, &[THIRD]);
    const STEPS: &[Step] = &[
        Step::Hear(HEAD, 3, &[SECOND, THIRD, FIRST], Heard::Taken(true)),
        Step::Gives(Some(FIRST_RP)),
        // Without bits of the group the hash of the second RP is the greatest.
        Step::HearRanges(UNHASHED, &[], Heard::Taken(false)),
        Step::Gives(Some(FIRST_RP)),
        Step::HearRanges(UNHASHED, &[OTHER], Heard::Taken(true)),
        Step::Gives(Some(SECOND_RP)),
    ];
    perform(&rt, rt.alloc(), 256, STEPS)
}

#[test]
fn rps_go_at_their_ends(rt: HostRuntime) -> Result<(), Fail> {
    const LONG: Candidate = Candidate(SECOND_RP, 65535, 9);
    const NONE: Candidate = Candidate(FIRST_RP, 0, 5);
    const STEPS: &[Step] = &[
        Step::Hear(HEAD, 2, &[FIRST, LONG], Heard::Taken(true)),
        Step::Gives(Some(FIRST_RP)),
        Step::FirstEnd(Some(151_000)),
        Step::Pass(150_999, false),
        Step::Pass(151_000, true),
        Step::Gives(Some(SECOND_RP)),
        Step::Pass(65_535_999, false),
        Step::Pass(65_536_000, true),
        Step::Gives(None),
        // Without a holdtime an RP is taken away; of two of one address the last counts.
        Step::Hear(HEAD, 2, &[FIRST, THIRD, NONE], Heard::Taken(true)),
        Step::Knows(1, 0),
        Step::Gives(Some(THIRD_RP)),
        Step::Hear(HEAD, 0, &[FIRST], Heard::Taken(true)),
        Step::Knows(0, 0),
    ];
    perform(&rt, rt.alloc(), 256, STEPS)
}

#[test]
fn ranges_of_all_kinds_are_taken(rt: HostRuntime) -> Result<(), Fail> {
    const HOST_BITS: Range<'static> = Range(0, 8, Addr { bits: 0xEF01_0101 }, 1, &[FIRST]);
    const ALL: Range<'static> = Range(0, 4, Addr { bits: 0xE000_0000 }, 1, &[SECOND]);
    const SPECIFIC: Range<'static> = Range(0, 8, Addr { bits: 0xE800_0000 }, 1, &[THIRD]);
    const BIDIR: Range<'static> = Range(0x80, 16, WIDE, 1, &[THIRD]);
    const ZONE: Range<'static> = Range(1, 8, WIDE, 1, &[THIRD]);
    const STEPS: &[Step] = &[
        Step::HearRanges(HEAD, &[HOST_BITS, ALL, SPECIFIC, BIDIR], Heard::Taken(true)),
        Step::Knows(3, 0),
        Step::FirstGroup(Some(WIDE)),
        Step::HearRanges(HEAD, &[ZONE], Heard::Ignored(Why::Scoped)),
    ];
    perform(&rt, rt.alloc(), 256, STEPS)
}

#[test]
fn there_is_room_for_so_many(rt: HostRuntime) -> Result<(), Fail> {
    const STEPS: &[Step] = &[
        Step::HearMany(0, 64, Heard::Taken(true)),
        Step::HearMany(64, 64, Heard::Taken(true)),
        Step::HearMany(128, 64, Heard::Taken(true)),
        Step::HearMany(192, 64, Heard::Taken(true)),
        Step::Knows(256, 0),
        Step::HearMany(256, 1, Heard::Ignored(Why::NoRoom)),
        Step::HearMany(255, 1, Heard::Taken(false)),
    ];
    perform(&rt, rt.alloc(), 256, STEPS)
}

#[test]
fn fragments_that_never_end_go(rt: HostRuntime) -> Result<(), Fail> {
    const STEPS: &[Step] = &[
        Step::HearTens,
        Step::Knows(0, 100),
        Step::Pass(130_999, false),
        Step::Knows(0, 100),
        Step::Pass(131_000, false),
        Step::Knows(0, 0),
    ];
    perform(&rt, rt.alloc(), 100, STEPS)
}

#[test]
fn the_heavier_bsr_counts_until_its_timer_expires(rt: HostRuntime) -> Result<(), Fail> {
    const HIGH: Head = Head {
        bsr: HIGH_BSR,
        ..HEAD
    };
    const LIGHTER: Head = Head {
        priority: 1,
        ..HIGH
    };
    const STEPS: &[Step] = &[
        Step::Hear(HEAD, 1, &[FIRST], Heard::Taken(true)),
        Step::Hear(HIGH, 1, &[SECOND], Heard::Taken(true)),
        // Of equal weight but for the address.
        Step::Hear(HEAD, 1, &[FIRST], Heard::Ignored(Why::NotPreferred)),
        // The elected one counts with less weight too.
        Step::Hear(LIGHTER, 1, &[SECOND], Heard::Taken(false)),
        Step::Hear(HEAD, 1, &[FIRST], Heard::Taken(true)),
        Step::Hear(HIGH, 1, &[SECOND], Heard::Taken(true)),
        Step::Pass(130_999, false),
        Step::Hear(HEAD, 1, &[FIRST], Heard::Ignored(Why::NotPreferred)),
        Step::Pass(131_000, false),
        Step::Hear(HEAD, 1, &[FIRST], Heard::Taken(true)),
    ];
    perform(&rt, rt.alloc(), 256, STEPS)
}

#[test]
fn a_message_is_sent_on_once(rt: HostRuntime) -> Result<(), Fail> {
    const REFRESH: Head = Head {
        no_forward: true,
        ..HEAD
    };
    const STEPS: &[Step] = &[
        Step::Hear(HEAD, 1, &[FIRST], Heard::Taken(true)),
        Step::SentOn(2),
        // A repetition within a second isn't sent on where it came.
        Step::Moment(1999),
        Step::Hear(HEAD, 1, &[FIRST], Heard::Taken(false)),
        Step::SentOn(1),
        Step::Moment(2999),
        Step::Hear(HEAD, 1, &[FIRST], Heard::Taken(false)),
        Step::SentOn(2),
        // With No-Forward a message counts first of all alone.
        Step::Hear(REFRESH, 1, &[SECOND], Heard::Ignored(Why::LateRefresh)),
    ];
    const FRESH: &[Step] = &[
        Step::From(FAR, OTHER),
        Step::Hear(REFRESH, 1, &[SECOND], Heard::Taken(true)),
        Step::SentOn(0),
    ];
    const LATE: &[Step] = &[
        Step::Moment(60_001),
        Step::Hear(REFRESH, 1, &[SECOND], Heard::Ignored(Why::LateRefresh)),
    ];
    perform(&rt, rt.alloc(), 256, STEPS)?;
    perform(&rt, rt.alloc(), 256, FRESH)?;
    perform(&rt, rt.alloc(), 256, LATE)
}
