//! The front as it runs, on packets of known bytes.
ghost use Rattle.std.specs.Prelude.{◌≡◌};

use igmp_older::{
    Given, Mode, OlderHosts, Presence, Querier, ResponseTimes, cut_query, note_answered, translate,
    translate_query,
};
use pim_ip::{Addr, Refusal};
use pim_tables::Facts;
use pim_types::fact::GroupRecordRow;
use pim_types::{IfaceId, Key, Verdict};
use std::alloc::{AllocError, Global};
use std::process::Abort;
use std::test::Fail;

// An interface on which no older hosts are heard.
const QUIET_LINK: IfaceId = IfaceId { number: 0 };

// An interface on which hosts of all versions are heard.
const LINK: IfaceId = IfaceId { number: 1 };

const GROUP: Addr = Addr { bits: 0xEF01_0101 };

// A Version 2 Membership Report of the group.
const REPORT_TWO: &[u8] = &[
    0x46, 0x00, 0x00, 0x20, 0x00, 0x07, 0x00, 0x00, 0x01, 0x02, 0x2A, 0x7A, 0x0A, 0x08, 0x00, 0x4D,
    0xEF, 0x01, 0x01, 0x01, 0x94, 0x04, 0x00, 0x00, 0x16, 0x00, 0xF9, 0xFC, 0xEF, 0x01, 0x01, 0x01,
];

// IS_EX( {} ) of the group.
const IS_EX: &[u8] = &[
    0x46, 0xC0, 0x00, 0x28, 0x00, 0x00, 0x00, 0x00, 0x01, 0x02, 0x39, 0xA5, 0x0A, 0x08, 0x00, 0x4D,
    0xE0, 0x00, 0x00, 0x16, 0x94, 0x04, 0x00, 0x00, 0x22, 0x00, 0xEB, 0xFB, 0x00, 0x00, 0x00, 0x01,
    0x02, 0x00, 0x00, 0x00, 0xEF, 0x01, 0x01, 0x01,
];

// A general query of version 2.
const QUERY_TWO: &[u8] = &[
    0x46, 0x00, 0x00, 0x20, 0x00, 0x00, 0x00, 0x00, 0x01, 0x02, 0x3A, 0xCD, 0x0A, 0x08, 0x00, 0x02,
    0xE0, 0x00, 0x00, 0x01, 0x94, 0x04, 0x00, 0x00, 0x11, 0x64, 0xEE, 0x9B, 0x00, 0x00, 0x00, 0x00,
];

// The general query of version 3 in its place.
const QUERY_THREE: &[u8] = &[
    0x46, 0xC0, 0x00, 0x24, 0x00, 0x00, 0x00, 0x00, 0x01, 0x02, 0x3A, 0x09, 0x0A, 0x08, 0x00, 0x02,
    0xE0, 0x00, 0x00, 0x01, 0x94, 0x04, 0x00, 0x00, 0x11, 0x64, 0xEE, 0x9B, 0x00, 0x00, 0x00, 0x00,
    0x00, 0x00, 0x00, 0x00,
];

// The query of version 3 as it leaves in version 2.
const QUERY_CUT: &[u8] = &[
    0x46, 0xC0, 0x00, 0x20, 0x00, 0x00, 0x00, 0x00, 0x01, 0x02, 0x3A, 0x0D, 0x0A, 0x08, 0x00, 0x02,
    0xE0, 0x00, 0x00, 0x01, 0x94, 0x04, 0x00, 0x00, 0x11, 0x64, 0xEE, 0x9B, 0x00, 0x00, 0x00, 0x00,
];

// The query cut where hosts answer within 19.9 s.
const QUERY_CUT_LATE: &[u8] = &[
    0x46, 0xC0, 0x00, 0x20, 0x00, 0x00, 0x00, 0x00, 0x01, 0x02, 0x3A, 0x0D, 0x0A, 0x08, 0x00, 0x02,
    0xE0, 0x00, 0x00, 0x01, 0x94, 0x04, 0x00, 0x00, 0x11, 0xC7, 0xEE, 0x38, 0x00, 0x00, 0x00, 0x00,
];

// The usual times.
const TIMES: ResponseTimes = ResponseTimes {
    general: 100,
    specific: 10,
};

// A querier that has the group records that a test gives it.
#[derive(Drop)]
struct Records {
    present: u64,
    rows: Facts<GroupRecordRow>,
}

impl Querier for Records {
    ghost present = { λ q. q.present };

    ghost group_records = { λ q. q.rows };

    fn present_moment(&self) -> u64 {
        self.present
    }

    fn has_group_record(&self, iface: IfaceId, group: Addr) -> bool {
        self.rows.contains(Key::star(iface, group))
    }

    fn group_record(&self, iface: IfaceId, group: Addr) -> Option<GroupRecordRow> {
        self.rows.get(Key::star(iface, group))
    }
}

fn no_records(alloc: Global) -> Records {
    Records {
        present: 1000,
        rows: Facts::new(alloc),
    }
}

fn nobody_known(alloc: Global) -> Result<Presence, AllocError> {
    let mut hosts = Vec::new(alloc);
    hosts.push(OlderHosts::Nobody)?;
    hosts.push(OlderHosts::All)?;
    Ok(Presence::new(alloc, 16, hosts))
}

fn has_written(rt: &impl Abort, out: &[u8], want: &[u8]) {
    assert!(rt; out == want);
}

fn is_in_two(rt: &impl Abort, presence: &Presence, records: &Records) {
    let mode = presence.mode(records, LINK, GROUP);
    assert!(rt; matches!(mode, Mode::Two));
}

fn is_in_three(rt: &impl Abort, presence: &Presence, records: &Records) {
    let mode = presence.mode(records, LINK, GROUP);
    assert!(rt; mode.is_three());
}

fn has_rows(rt: &impl Abort, presence: &Presence, count: usize) {
    assert_eq!(rt; presence.len(), count);
}

fn answers(rt: &impl Abort, written: bool) {
    assert!(rt; written);
}

fn is_same(rt: &impl Abort, given: Given) {
    assert!(rt; matches!(given, Given::Same));
}

#[test]
fn a_report_is_translated_and_remembered(rt: HostRuntime) -> Result<(), Fail> {
    let alloc = rt.alloc();
    let mut records = no_records(alloc);
    let mut presence = nobody_known(alloc)?;
    let mut out = Vec::new(alloc);
    let given = translate(alloc, &presence, &records, LINK, REPORT_TWO, &mut out)?;
    has_written(&rt, &out, IS_EX);
    records.rows.put(
        Key::star(LINK, GROUP),
        GroupRecordRow { end: Some(261_000) },
    )?;
    note_answered(
        &mut presence,
        LINK,
        given,
        &out,
        Err(Refusal::Full),
        261_000,
    )?;
    is_in_three(&rt, &presence, &records);
    note_answered(&mut presence, LINK, given, &out, Ok(Verdict::Done), 261_000)?;
    is_in_two(&rt, &presence, &records);
    has_rows(&rt, &presence, 1);
    Ok(())
}

#[test]
fn a_row_goes_with_its_group_record(rt: HostRuntime) -> Result<(), Fail> {
    let alloc = rt.alloc();
    let mut records = no_records(alloc);
    let mut presence = nobody_known(alloc)?;
    let mut out = Vec::new(alloc);
    let given = translate(alloc, &presence, &records, LINK, REPORT_TWO, &mut out)?;
    records.rows.put(
        Key::star(LINK, GROUP),
        GroupRecordRow { end: Some(261_000) },
    )?;
    note_answered(&mut presence, LINK, given, &out, Ok(Verdict::Done), 261_000)?;
    presence.forget(&records, 260_999);
    has_rows(&rt, &presence, 1);
    presence.forget(&records, 261_000);
    has_rows(&rt, &presence, 0);
    Ok(())
}

#[test]
fn a_row_is_looked_at_after_a_message_of_its_group(rt: HostRuntime) -> Result<(), Fail> {
    let alloc = rt.alloc();
    let mut records = no_records(alloc);
    let mut presence = nobody_known(alloc)?;
    let mut out = Vec::new(alloc);
    let given = translate(alloc, &presence, &records, LINK, REPORT_TWO, &mut out)?;
    records.rows.put(
        Key::star(LINK, GROUP),
        GroupRecordRow { end: Some(261_000) },
    )?;
    note_answered(&mut presence, LINK, given, &out, Ok(Verdict::Done), 261_000)?;
    // The querier isn't asked before the group timer expires.
    records.rows.remove(Key::star(LINK, GROUP));
    is_in_three(&rt, &presence, &records);
    presence.forget(&records, 1000);
    has_rows(&rt, &presence, 1);
    // A report of the group that passes as it came.
    note_answered(
        &mut presence,
        LINK,
        Given::Same,
        IS_EX,
        Ok(Verdict::Done),
        261_000,
    )?;
    presence.forget(&records, 1000);
    has_rows(&rt, &presence, 0);
    Ok(())
}

#[test]
fn nobody_is_heard_without_a_setting(rt: HostRuntime) -> Result<(), Fail> {
    let alloc = rt.alloc();
    let records = no_records(alloc);
    let presence = nobody_known(alloc)?;
    let mut out = Vec::new(alloc);
    let given = translate(alloc, &presence, &records, QUIET_LINK, REPORT_TWO, &mut out)?;
    is_same(&rt, given);
    has_written(&rt, &out, &[]);
    Ok(())
}

#[test]
fn a_query_changes_its_version(rt: HostRuntime) -> Result<(), Fail> {
    let alloc = rt.alloc();
    let mut given = Vec::new(alloc);
    answers(&rt, translate_query(alloc, QUERY_TWO, &mut given)?);
    has_written(&rt, &given, QUERY_THREE);
    let mut cut = Vec::new(alloc);
    answers(&rt, cut_query(alloc, TIMES, &given, &mut cut)?);
    has_written(&rt, &cut, QUERY_CUT);
    Ok(())
}

#[test]
fn a_cut_query_says_what_eight_bits_hold(rt: HostRuntime) -> Result<(), Fail> {
    let alloc = rt.alloc();
    let times = ResponseTimes {
        general: 199,
        specific: 10,
    };
    let mut cut = Vec::new(alloc);
    answers(&rt, cut_query(alloc, times, QUERY_THREE, &mut cut)?);
    has_written(&rt, &cut, QUERY_CUT_LATE);
    Ok(())
}
