//! Queries and reports, written.
ghost use Rattle.std.specs.Prelude.{◌≡◌, ℕ, ◌+◌, ◌^◌, ◌<◌, ◌≤◌, if◌then◌else◌, [], ◌∷◌, ◌++◌, length, take, drop, flat_map, All, OnOk, OnErr};
ghost use Rattle.byteorder.specs.Endian.{big_bytes};
ghost use Rattle.igmp_wire.specs.Queries.{query_text};
ghost use Rattle.igmp_wire.specs.Reports.{code_of_type, record_text, report_text};
ghost use Rattle.igmp_wire.specs.Written.{bits_of, query_with, record_to_write, records_of, HasSourceCount, summed, unsummed_query, unsummed_report, BeginsWith, QueryReadsBack, ReportReadsBack};

use crate::report::RecordType;
use pim_ip::{Addr, set_checksum};
use std::alloc::AllocError;

/// Where the checksum stands in a message.
const CHECKSUM_PLACE: usize = 2;

/// A query without its sources.
#[derive(Clone, Copy)]
pub struct QueryHeader {
    /// The code of the time in which hosts answer, in tenths of a second.
    pub max_response_code: u8,
    /// The group that is asked for, or 0.0.0.0 for all groups.
    pub group: Addr,
    /// Whether routers that hear the query leave their timers unchanged.
    pub suppress: bool,
    /// The robustness variable, below 8.
    pub robustness: u8,
    /// The code of the time between general queries, in seconds.
    pub interval_code: u8,
}

impl QueryHeader {
    /// The query before its sources, with 0 for the checksum.
    fn fields(&self, source_count: usize) -> [u8; 12]
        requires robustness { self.now.robustness < 8 }
        requires count { source_count < 2 ^ 16 }
        ensures { result ≡ 0x11 ∷ self.now.max_response_code ∷ 0 ∷ 0
            ∷ big_bytes 4 self.now.group.bits
            ++ ((if self.now.suppress then 8 else 0) + self.now.robustness)
            ∷ self.now.interval_code ∷ big_bytes 2 source_count }
    {
        let [first, second, third, fourth] = self.group.octets();
        let suppress = if self.suppress { 8 } else { 0 };
        let [high, low] = (source_count as u16).to_be_bytes();
        [
            0x11,
            self.max_response_code,
            0,
            0,
            first,
            second,
            third,
            fourth,
            suppress + self.robustness,
            self.interval_code,
            high,
            low,
        ]
    }
}

/// A group record to be written.
#[derive(Clone, Copy)]
pub struct GroupRecord<'a> {
    pub record_type: RecordType,
    pub group: Addr,
    /// At most 65,535 sources, in the order in which they are written.
    pub sources: &'a [Addr],
}

impl<'a> GroupRecord<'a> {
    /// The record before its sources.
    fn fields(&self) -> [u8; 8]
        requires { length self.now.sources.now < 2 ^ 16 }
        ensures { result ≡ code_of_type self.now.record_type ∷ 0
            ∷ big_bytes 2 (length self.now.sources.now) ++ big_bytes 4 self.now.group.bits }
    {
        let [high, low] = (self.sources.len() as u16).to_be_bytes();
        let [first, second, third, fourth] = self.group.octets();
        [
            self.record_type.code(),
            0,
            high,
            low,
            first,
            second,
            third,
            fourth,
        ]
    }
}

/// A report before its records, with 0 for the checksum.
fn report_fields(record_count: usize) -> [u8; 8]
    requires { record_count < 2 ^ 16 }
    ensures { result ≡ 0x22 ∷ 0 ∷ 0 ∷ 0 ∷ 0 ∷ 0 ∷ big_bytes 2 record_count }
{
    let [high, low] = (record_count as u16).to_be_bytes();
    [0x22, 0, 0, 0, 0, 0, high, low]
}

/// Writes addresses at the end. An `Err` leaves what stood there.
#[tactic(auto, using(crate::proofs::WritingLaws::begins))]
fn append_addresses(out: &mut Vec<u8>, addresses: &[Addr]) -> Result<(), AllocError>
    ensures ok { OnOk result (out.new.items
        ≡ out.old.items ++ flat_map (big_bytes 4) (bits_of addresses.now)) }
    ensures err { OnErr result (BeginsWith out.new.items out.old.items) }
    ensures in_range { OnOk result (All (λ bits. bits < 2 ^ 32) (bits_of addresses.now)) }
{
    for address in addresses {
        out.extend_from_slice(&address.bits.to_be_bytes())?;
    }
    Ok(())
}

/// Writes a record at the end. An `Err` leaves what stood there.
fn append_record(out: &mut Vec<u8>, group_record: &GroupRecord<'_>) -> Result<(), AllocError>
    requires { length group_record.now.sources.now < 2 ^ 16 }
    ensures ok { OnOk result (out.new.items
        ≡ out.old.items ++ record_text (record_to_write group_record.now)) }
    ensures err { OnErr result (BeginsWith out.new.items out.old.items) }
{
    out.extend_from_slice(&group_record.fields())?;
    append_addresses(out, group_record.sources)
}

/// Writes a query with 0 for its checksum at the end. An `Err` leaves what stood there.
fn append_query(out: &mut Vec<u8>, query: &QueryHeader, sources: &[Addr]) -> Result<(), AllocError>
    requires robustness { query.now.robustness < 8 }
    requires count { length sources.now < 2 ^ 16 }
    ensures ok { OnOk result (out.new.items
        ≡ out.old.items ++ unsummed_query (query_with query.now sources.now)) }
    ensures err { OnErr result (BeginsWith out.new.items out.old.items) }
    ensures in_range { OnOk result (All (λ bits. bits < 2 ^ 32) (bits_of sources.now)) }
{
    out.extend_from_slice(&query.fields(sources.len()))?;
    append_addresses(out, sources)
}

/// Writes a report with 0 for its checksum at the end. An `Err` leaves what stood there.
fn append_report(out: &mut Vec<u8>, records: &[GroupRecord<'_>]) -> Result<(), AllocError>
    requires count { length records.now < 2 ^ 16 }
    requires sources { All HasSourceCount records.now }
    ensures ok { OnOk result (out.new.items
        ≡ out.old.items ++ unsummed_report (records_of records.now)) }
    ensures err { OnErr result (BeginsWith out.new.items out.old.items) }
{
    out.extend_from_slice(&report_fields(records.len()))?;
    for group_record in records {
        append_record(out, group_record)?;
    }
    Ok(())
}

/// Writes the checksum of the message from a place on, or removes the unfinished message.
fn finish(
    out: &mut Vec<u8>,
    start: usize,
    written: Result<(), AllocError>,
) -> Result<(), AllocError>
    requires { OnOk written (start + 4 ≤ length out.old.items) }
    ensures same { result ≡ written }
    ensures ok { OnOk written (out.new.items
        ≡ take start out.old.items ++ summed (drop start out.old.items)) }
    ensures err { OnErr written (out.new.items ≡ take start out.old.items) }
{
    if written.is_ok() {
        set_checksum(&mut out[start..], CHECKSUM_PLACE);
    } else {
        out.truncate(start);
    }
    written
}

/// Writes a query (RFC 3376, section 4.1) at the end. An `Err` changes nothing. A query for all
/// groups or for one reads back as it was written.
pub fn write_query(
    out: &mut Vec<u8>,
    query: &QueryHeader,
    sources: &[Addr],
) -> Result<(), AllocError>
    requires robustness { query.now.robustness < 8 }
    requires count { length sources.now < 2 ^ 16 }
    ensures ok { OnOk result (out.new.items
        ≡ out.old.items ++ query_text (query_with query.now sources.now)) }
    ensures err { OnErr result (out.new.items ≡ out.old.items) }
    ensures reads { OnOk result (QueryReadsBack (query_with query.now sources.now)) }
{
    let start = out.len();
    let written = append_query(out, query, sources);
    finish(out, start, written)
}

/// Writes a report (RFC 3376, section 4.2) at the end. An `Err` changes nothing. Records of groups
/// that routers forward, with sources that a host can be, read back as they were written.
pub fn write_report(out: &mut Vec<u8>, records: &[GroupRecord<'_>]) -> Result<(), AllocError>
    requires count { length records.now < 2 ^ 16 }
    requires sources { All HasSourceCount records.now }
    ensures ok { OnOk result (out.new.items
        ≡ out.old.items ++ report_text (records_of records.now)) }
    ensures err { OnErr result (out.new.items ≡ out.old.items) }
    ensures reads { ReportReadsBack (records_of records.now) }
{
    let start = out.len();
    let written = append_report(out, records);
    finish(out, start, written)
}
