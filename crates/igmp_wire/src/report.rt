//! A membership report, read, with its record types.
use crate::fields::number_at;
use crate::records::{Records, record_end};
use pim_ip::Refusal;
use std::marker::Model;

/// Where the records of a report begin.
const RECORDS_PLACE: usize = 8;

/// The type of a group record (RFC 3376, section 4.2.12).
#[derive(Clone, Copy)]
pub enum RecordType {
    /// MODE_IS_INCLUDE.
    IsInclude = 1,
    /// MODE_IS_EXCLUDE.
    IsExclude = 2,
    /// CHANGE_TO_INCLUDE_MODE.
    ToInclude = 3,
    /// CHANGE_TO_EXCLUDE_MODE.
    ToExclude = 4,
    /// ALLOW_NEW_SOURCES.
    Allow = 5,
    /// BLOCK_OLD_SOURCES.
    Block = 6,
}

impl RecordType {
    ghost use Rattle.std.specs.Prelude.{◌≡◌};
    ghost use Rattle.igmp_wire.specs.Reports.{type_of_code, code_of_type};

    /// The type of a code, if it is one of the six.
    #[tactic(auto, unfolding(crate::specs::Reports::type_of_code))]
    pub fn from_code(code: u8) -> Option<RecordType>
        ensures { result ≡ type_of_code code }
    {
        match code {
            1 => Some(RecordType::IsInclude),
            2 => Some(RecordType::IsExclude),
            3 => Some(RecordType::ToInclude),
            4 => Some(RecordType::ToExclude),
            5 => Some(RecordType::Allow),
            6 => Some(RecordType::Block),
            _ => None,
        }
    }

    /// The code of the type.
    pub fn code(self) -> u8
        ensures { result ≡ code_of_type self }
    {
        self as u8
    }
}

/// A report that was read, borrowed from its bytes (RFC 3376, section 4.2).
#[derive(Drop)]
pub struct ReportView<'a> {
    message: &'a [u8],
}

impl<'a> Model for ReportView<'a> {
    ghost use Rattle.std.specs.Prelude.{List};
    ghost use Rattle.igmp_wire.specs.Values.{Record};

    ghost Value = { List Record };

    ghost use Rattle.igmp_wire.specs.Reports.{report_of};
    ghost use Rattle.igmp_wire.specs.Parts.{IsReport};

    ghost view = { λ a. report_of a.message.now };

    ghost invariant = { λ a. IsReport a.message.now };
}

impl<'a> ReportView<'a> {
    ghost use Rattle.std.specs.Prelude.{◌≡◌, ◌≤◌, length};
    ghost use Rattle.igmp_wire.specs.Parts.{report_reading};

    /// Reads a report whose type and checksum were tested.
    pub(crate) fn read(message: &'a [u8]) -> Result<ReportView<'a>, Refusal>
        requires { 8 ≤ length message.now }
        ensures { result ≡ report_reading message.now }
    {
        let record_count = number_at(message, 6);
        let mut place = RECORDS_PLACE;
        for _index in 0..record_count {
            place = record_end(message, place)?;
        }
        Ok(ReportView { message })
    }

    /// The records in their order, without those of an unknown type and those of a group whose packets never leave
    /// their link.
    #[tactic(auto, unfolding(crate::specs::Reports::report_test, crate::specs::Reports::report_of))]
    pub fn records(&self) -> Records<'a>
        ensures { result ≡ self.now }
    {
        let record_count = usize::from(number_at(self.message, 6));
        Records::new(self.message, RECORDS_PLACE, record_count)
    }
}
