//! The tests that every IGMP message has to pass, in their order.
ghost use Rattle.std.specs.Prelude.{◌≡◌};
ghost use Rattle.igmp_wire.specs.Messages.{igmp_reading};

use crate::query::QueryView;
use crate::report::ReportView;
use crate::view::IgmpView;
use pim_ip::{Refusal, sum16};

/// The length of what every message begins with, in bytes.
const HEADER_LENGTH: usize = 8;

/// Reads a message. Bytes past its last field are ignored, but its checksum covers them.
#[tactic(auto, using(crate::proofs::ReadingLaws::part_read), unfolding(crate::specs::Messages::igmp_reading))]
pub fn read_igmp(message: &[u8]) -> Result<IgmpView<'_>, Refusal>
    ensures { result ≡ igmp_reading message.now }
{
    if message.len() < HEADER_LENGTH {
        return Err(Refusal::Short);
    }
    if sum16(message) != 0 {
        return Err(Refusal::BadChecksum);
    }
    match message[0] {
        0x11 => Ok(IgmpView::Query(QueryView::read(message)?)),
        0x22 => Ok(IgmpView::Report(ReportView::read(message)?)),
        0x12 | 0x16 | 0x17 => Err(Refusal::OldVersion),
        _ => Err(Refusal::UnknownType),
    }
}
