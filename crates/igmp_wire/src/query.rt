//! A membership query, read.
use crate::fields::{Addresses, address_at, number_at};
use pim_ip::{Addr, Refusal};
use std::marker::Model;

/// Where the sources of a query begin.
const SOURCES_PLACE: usize = 12;

/// A query that was read, borrowed from its bytes (RFC 3376, section 4.1).
#[derive(Drop)]
pub struct QueryView<'a> {
    message: &'a [u8],
}

impl<'a> Model for QueryView<'a> {
    ghost use Rattle.std.specs.Prelude.{◌+◌, ◌*◌, ◌≤◌, length};
    ghost use Rattle.igmp_wire.specs.Values.{Query};

    ghost Value = { Query };

    ghost use Rattle.igmp_wire.specs.Queries.{query_of, source_count_of};

    ghost view = { λ a. query_of a.message.now };

    ghost invariant = { λ a. 12 + 4 * source_count_of a.message.now ≤ length a.message.now };
}

#[tactic(auto, unfolding(crate::specs::Queries::query_of))]
impl<'a> QueryView<'a> {
    ghost use Rattle.std.specs.Prelude.{◌≡◌, ◌≤◌, length};
    ghost use Rattle.igmp_wire.specs.Parts.{query_reading};

    /// Reads a query whose type and checksum were tested.
    #[tactic(auto, unfolding(crate::specs::Queries::query_of, crate::specs::Queries::query_test, crate::specs::Parts::query_reading))]
    pub(crate) fn read(message: &'a [u8]) -> Result<QueryView<'a>, Refusal>
        requires { 8 ≤ length message.now }
        ensures { result ≡ query_reading message.now }
    {
        if message.len() == 8 {
            return Err(Refusal::OldVersion);
        }
        if message.len() < SOURCES_PLACE {
            return Err(Refusal::BadLength);
        }
        let group = address_at(message, 4);
        if group.bits != 0 && !group.is_multicast() {
            return Err(Refusal::NotMulticast);
        }
        let source_count = usize::from(number_at(message, 10));
        if message.len() < SOURCES_PLACE + 4 * source_count {
            return Err(Refusal::Short);
        }
        Ok(QueryView { message })
    }

    /// The code of the time in which hosts answer, in tenths of a second.
    pub fn max_response_code(&self) -> u8
        ensures { result ≡ self.now.max_response_code }
    {
        self.message[1]
    }

    /// The group that is asked for, or 0.0.0.0 in a query for all groups.
    pub fn group(&self) -> Addr
        ensures { result.bits ≡ self.now.group }
    {
        address_at(self.message, 4)
    }

    /// Whether routers that hear the query leave their timers unchanged.
    pub fn is_suppress(&self) -> bool
        ensures { result ≡ self.now.suppress }
    {
        self.message[8] / 8 % 2 == 1
    }

    /// The robustness variable of the querier, or 0 where it has more than 3 bits.
    pub fn robustness(&self) -> u8
        ensures value { result ≡ self.now.robustness }
        ensures within { result ≤ 7 }
    {
        self.message[8] % 8
    }

    /// The code of the time between the querier's general queries, in seconds.
    pub fn interval_code(&self) -> u8
        ensures { result ≡ self.now.interval_code }
    {
        self.message[9]
    }

    /// The sources that are asked for, none for the whole group.
    pub fn sources(&self) -> Addresses<'a>
        ensures { result ≡ self.now.sources }
    {
        let source_count = usize::from(number_at(self.message, 10));
        Addresses::new(self.message, SOURCES_PLACE, source_count)
    }
}
