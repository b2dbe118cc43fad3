//! The group records of a report (RFC 3376, section 4.2.4), by their places.
ghost use Rattle.std.specs.Prelude.{◌≡◌, ◌+◌, ◌≤◌, [], ◌∷◌, length, MatchOption};
ghost use Rattle.igmp_wire.specs.Reports.{after_record, record_at};
ghost use Rattle.igmp_wire.specs.Parts.{record_reading};

use crate::fields::{Addresses, address_at, number_at};
use crate::report::RecordType;
use pim_ip::{Addr, Refusal};
use std::marker::Model;

/// The length of a record without sources and auxiliary data, in bytes.
const RECORD_LENGTH: usize = 8;

/// The length of the record at a place, in bytes.
fn record_length(message: &[u8], place: usize) -> usize
    requires { place + 8 ≤ length message.now }
    ensures { place + result ≡ after_record message.now place }
{
    let auxiliary_length = usize::from(message[place + 1]);
    let source_count = usize::from(number_at(message, place + 2));
    RECORD_LENGTH + 4 * source_count + 4 * auxiliary_length
}

/// Tests the record at a place, and returns the place after it.
#[tactic(auto, unfolding(crate::specs::Parts::record_reading))]
pub(crate) fn record_end(message: &[u8], place: usize) -> Result<usize, Refusal>
    requires { place ≤ length message.now }
    ensures { result ≡ record_reading message.now place }
{
    let left = message.len() - place;
    if left < RECORD_LENGTH {
        return Err(Refusal::Short);
    }
    let record_type = RecordType::from_code(message[place]);
    if record_type.is_some() && !address_at(message, place + 4).is_multicast() {
        return Err(Refusal::NotMulticast);
    }
    let length = record_length(message, place);
    if left < length {
        return Err(Refusal::Short);
    }
    Ok(place + length)
}

/// The record at a place, unless it is skipped.
#[tactic(auto, unfolding(crate::specs::Reports::record_at))]
fn kept_record(message: &[u8], place: usize) -> Option<RecordView<'_>>
    requires fixed { place + 8 ≤ length message.now }
    requires whole { after_record message.now place ≤ length message.now }
    ensures { MatchOption result (record_at message.now place ≡ [])
        (λ kept. record_at message.now place ≡ kept ∷ []) }
{
    let record_type = RecordType::from_code(message[place])?;
    if address_at(message, place + 4).is_link_local() {
        return None;
    }
    Some(RecordView {
        message,
        place,
        record_type,
    })
}

/// A group record of a report, borrowed from its bytes.
#[derive(Drop)]
pub struct RecordView<'a> {
    message: &'a [u8],
    place: usize,
    record_type: RecordType,
}

impl<'a> Model for RecordView<'a> {
    ghost use Rattle.std.specs.Prelude.{◌+◌, ◌*◌, ◌≤◌, length};
    ghost use Rattle.igmp_wire.specs.Values.{Record};

    ghost Value = { Record };

    ghost use Rattle.igmp_wire.specs.Parts.{record_from};
    ghost use Rattle.igmp_wire.specs.Reports.{source_count_at};

    ghost view = { λ a. record_from a.message.now a.place a.record_type };

    ghost invariant = { λ a.
        a.place + 8 + 4 * source_count_at a.message.now a.place ≤ length a.message.now };
}

impl<'a> RecordView<'a> {
    ghost use Rattle.std.specs.Prelude.{◌≡◌};

    /// The type of the record.
    pub fn record_type(&self) -> RecordType
        ensures { result ≡ self.now.type }
    {
        self.record_type
    }

    /// The group that the record is about.
    pub fn group(&self) -> Addr
        ensures { result.bits ≡ self.now.group }
    {
        address_at(self.message, self.place + 4)
    }

    /// The sources in their order, without those that no host can be.
    pub fn sources(&self) -> Sources<'a>
        ensures { result ≡ self.now.sources }
    {
        let source_count = usize::from(number_at(self.message, self.place + 2));
        Sources::new(Addresses::new(self.message, self.place + RECORD_LENGTH, source_count))
    }
}

/// The sources of a record in their order, without those that no host can be.
#[derive(Drop)]
pub struct Sources<'a> {
    addresses: Addresses<'a>,
}

impl<'a> Model for Sources<'a> {
    ghost use Rattle.std.specs.Prelude.{ℕ, List, filter};
    ghost use Rattle.pim_ip.specs.Ipv4.{is_unicast};

    ghost Value = { List ℕ };

    ghost view = { λ a. filter is_unicast a.addresses };
}

impl<'a> Sources<'a> {
    ghost use Rattle.std.specs.Prelude.{◌≡◌, filter};
    ghost use Rattle.pim_ip.specs.Ipv4.{is_unicast};

    fn new(addresses: Addresses<'a>) -> Sources<'a>
        ensures { result ≡ filter is_unicast addresses.entry }
    {
        Sources { addresses }
    }
}

impl<'a> Iterator for Sources<'a> {
    ghost use Rattle.std.specs.Iterator.{YieldsFirstBy, item_count};

    type Item = Addr;

    ghost next_gives = { YieldsFirstBy (λ address. address.bits) (λ rest. rest) };

    ghost remaining = { item_count (λ rest. rest) };

    fn next(&mut self) -> Option<Addr> {
        while let Some(address) = self.addresses.next() {
            if address.is_unicast() {
                return Some(address);
            }
        }
        None
    }
}

/// The records of a report in their order, without those that are skipped.
#[derive(Drop)]
pub struct Records<'a> {
    message: &'a [u8],
    place: usize,
    left: usize,
}

impl<'a> Model for Records<'a> {
    ghost use Rattle.std.specs.Prelude.{◌≡◌, List, Ok};
    ghost use Rattle.igmp_wire.specs.Values.{Record};

    ghost Value = { List Record };

    ghost use Rattle.igmp_wire.specs.Reports.{records_at, records_test};

    ghost view = { λ a. records_at a.message.now a.place a.left };

    ghost invariant = { λ a. records_test a.message.now a.place a.left ≡ Ok tt };
}

impl<'a> Records<'a> {
    ghost use Rattle.std.specs.Prelude.{◌≡◌, Ok};
    ghost use Rattle.igmp_wire.specs.Reports.{records_at, records_test};

    /// The records from a place on.
    pub(crate) fn new(message: &'a [u8], place: usize, left: usize) -> Records<'a>
        requires { records_test message.now place left ≡ Ok tt }
        ensures { result ≡ records_at message.now place left }
    {
        Records {
            message,
            place,
            left,
        }
    }
}

impl<'a> Iterator for Records<'a> {
    ghost use Rattle.std.specs.Iterator.{YieldsFirst, item_count};

    type Item = RecordView<'a>;

    ghost next_gives = { YieldsFirst (λ rest. rest) };

    ghost remaining = { item_count (λ rest. rest) };

    #[tactic(auto, using(crate::proofs::RecordLaws::records_taken))]
    fn next(&mut self) -> Option<RecordView<'a>> {
        while self.left > 0 {
            let message = self.message;
            let place = self.place;
            let kept = kept_record(message, place);
            self.place = place + record_length(message, place);
            self.left -= 1;
            if kept.is_some() {
                return kept;
            }
        }
        None
    }
}
