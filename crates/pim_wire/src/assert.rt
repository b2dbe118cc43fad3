//! Asserts, read and written.
ghost use Rattle.std.specs.Prelude.{◌≡◌, ◌^◌, ◌<◌, ◌≤◌, ◌++◌, length, OnOk, OnErr};
ghost use Rattle.pim_wire.specs.Asserts.{assert_text};
ghost use Rattle.pim_wire.specs.Bodies.{assert_reading};
ghost use Rattle.pim_wire.specs.ReadsBack.{AssertReads};

use crate::encoded::{
    CHECKSUM_PLACE, VERSION_BITS, address_at, check_field, check_group, check_unicast, group_bytes,
    u32_at, unicast_at, unicast_bytes,
};
use byteorder::{BigEndian, ByteOrder};
use pim_ip::{Addr, Refusal, set_checksum};
use std::alloc::AllocError;

/// An Assert (RFC 7761, section 4.9.6). One with source 0.0.0.0 is about (*,G).
#[derive(Clone, Copy)]
pub struct Assert {
    pub group: Addr,
    /// The length of the group's mask. An Assert with another length than 32 is read but not used.
    pub mask_length: u8,
    pub source: Addr,
    /// The R bit.
    pub rpt: bool,
    /// The metric preference, of 31 bits.
    pub preference: u32,
    pub metric: u32,
}

/// The first address that is no unicast address.
const FIRST_MULTICAST: u32 = 0xE000_0000;

/// Reads an Assert whose header was tested.
#[tactic(auto, unfolding(crate::specs::Asserts::assert_test, crate::specs::Asserts::assert_of))]
pub(crate) fn read_assert(bytes: &[u8]) -> Result<Assert, Refusal>
    requires { 4 ≤ length bytes.now }
    ensures { result ≡ assert_reading bytes.now }
{
    check_group(bytes, 4)?;
    check_unicast(bytes, 12)?;
    let source = unicast_at(bytes, 12);
    if source.bits >= FIRST_MULTICAST {
        return Err(Refusal::BadAddress);
    }
    check_field(bytes, 18, 4)?;
    check_field(bytes, 22, 4)?;
    let preference = u32_at(bytes, 18);
    Ok(Assert {
        group: address_at(bytes, 4),
        mask_length: bytes[7],
        source,
        rpt: preference >= 0x8000_0000,
        preference: preference & 0x7FFF_FFFF,
        metric: u32_at(bytes, 22),
    })
}

/// The bytes of an Assert.
#[tactic(auto, unfolding(crate::specs::Asserts::assert_text, crate::specs::Encoded::pim_text))]
fn assert_bytes(group: Addr, source: Addr, rpt: bool, preference: u32, metric: u32) -> [u8; 26]
    requires { preference < 2 ^ 31 }
    ensures { result ≡ assert_text group.bits source.bits rpt preference metric }
{
    let rpt_bit = if rpt { 0x8000_0000 } else { 0 };
    let mut bytes = [0; 26];
    bytes[0] = VERSION_BITS + 5;
    bytes[4..12].copy_from_slice(&group_bytes(group));
    bytes[12..18].copy_from_slice(&unicast_bytes(source));
    BigEndian::write_u32(&mut bytes[18..22], rpt_bit + preference);
    BigEndian::write_u32(&mut bytes[22..26], metric);
    set_checksum(&mut bytes, CHECKSUM_PLACE);
    bytes
}

/// Writes an Assert about a source, or with source 0.0.0.0 about the group, at the end. An `Err` changes
/// nothing.
pub fn write_assert(
    group: Addr,
    source: Addr,
    rpt: bool,
    preference: u32,
    metric: u32,
    out: &mut Vec<u8>,
) -> Result<(), AllocError>
    requires { preference < 2 ^ 31 }
    ensures ok { OnOk result (out.new.items
        ≡ out.old.items ++ assert_text group.bits source.bits rpt preference metric) }
    ensures err { OnErr result (out.new.items ≡ out.old.items) }
    ensures reads { AssertReads group.bits source.bits rpt preference metric }
{
    out.extend_from_slice(&assert_bytes(group, source, rpt, preference, metric))
}
