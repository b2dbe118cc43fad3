//! Fields and encoded addresses (RFC 7761, section 4.9.1) at places of a message. `pim_wire` has the same for its own
//! messages, and keeps them private.
ghost use Rattle.std.specs.Prelude.{◌≡◌, ◌+◌, ◌≤◌, length, OnOk};
ghost use Rattle.byteorder.specs.Endian.{big_from};
ghost use Rattle.pim_wire.specs.Encoded.{address_at, unicast_at, is_native_ipv4, field_test, unicast_test, source_test, group_test};
ghost use Rattle.pim_ip.specs.Addr.{addr};

use byteorder::{BigEndian, ByteOrder};
use pim_ip::{Addr, Refusal};

/// The length of PIM's header.
pub(crate) const HEADER_LENGTH: usize = 4;

/// The length of an Encoded-Unicast address.
pub(crate) const UNICAST_LENGTH: usize = 6;

/// The length of an Encoded-Source or an Encoded-Group address.
pub(crate) const SOURCE_LENGTH: usize = 8;

/// The first byte of a message of a type: version 2 is in its upper half.
pub(crate) const VERSION_BITS: u8 = 0x20;

/// The place of a message's checksum.
pub(crate) const CHECKSUM_PLACE: usize = 2;

/// The 16 bits at a place.
pub(crate) fn u16_at(bytes: &[u8], place: usize) -> u16
    requires { place + 2 ≤ length bytes.now }
    ensures { result ≡ big_from place 2 bytes.now }
{
    BigEndian::read_u16(&bytes[place..])
}

/// The 32 bits at a place.
fn u32_at(bytes: &[u8], place: usize) -> u32
    requires { place + 4 ≤ length bytes.now }
    ensures { result ≡ big_from place 4 bytes.now }
{
    BigEndian::read_u32(&bytes[place..])
}

/// The address in an Encoded-Unicast.
pub(crate) fn unicast_at(bytes: &[u8], place: usize) -> Addr
    requires { place + 6 ≤ length bytes.now }
    ensures { result ≡ addr (unicast_at bytes.now place) }
{
    Addr::from(u32_at(bytes, place + 2))
}

/// The address in an Encoded-Source or an Encoded-Group.
pub(crate) fn address_at(bytes: &[u8], place: usize) -> Addr
    requires { place + 8 ≤ length bytes.now }
    ensures { result ≡ addr (address_at bytes.now place) }
{
    Addr::from(u32_at(bytes, place + 4))
}

/// Whether there are `count` bytes from a place on.
pub(crate) fn check_field(bytes: &[u8], place: usize, count: usize) -> Result<(), Refusal>
    requires { place ≤ length bytes.now }
    ensures value { result ≡ field_test bytes.now place count }
    ensures there { OnOk result (place + count ≤ length bytes.now) }
{
    if bytes.len() - place < count {
        return Err(Refusal::Short);
    }
    Ok(())
}

fn is_native_ipv4(bytes: &[u8], place: usize) -> bool
    requires { place + 2 ≤ length bytes.now }
    ensures { result ≡ is_native_ipv4 bytes.now place }
{
    bytes[place] == 1 && bytes[place + 1] == 0
}

/// Whether there is an Encoded-Unicast IPv4 address at a place.
#[tactic(auto, unfolding(pim_wire::specs::Encoded::unicast_test))]
pub(crate) fn check_unicast(bytes: &[u8], place: usize) -> Result<(), Refusal>
    requires { place ≤ length bytes.now }
    ensures value { result ≡ unicast_test bytes.now place }
    ensures there { OnOk result (place + 6 ≤ length bytes.now) }
{
    check_field(bytes, place, UNICAST_LENGTH)?;
    if !is_native_ipv4(bytes, place) {
        return Err(Refusal::BadAddress);
    }
    Ok(())
}

/// Whether there is an Encoded-Source IPv4 address at a place.
#[tactic(auto, unfolding(pim_wire::specs::Encoded::source_test))]
fn check_source(bytes: &[u8], place: usize) -> Result<(), Refusal>
    requires { place ≤ length bytes.now }
    ensures value { result ≡ source_test bytes.now place }
    ensures there { OnOk result (place + 8 ≤ length bytes.now) }
{
    check_field(bytes, place, SOURCE_LENGTH)?;
    if !is_native_ipv4(bytes, place) {
        return Err(Refusal::BadAddress);
    }
    Ok(())
}

/// Whether there is an Encoded-Group IPv4 address at a place.
#[tactic(auto, unfolding(pim_wire::specs::Encoded::group_test))]
pub(crate) fn check_group(bytes: &[u8], place: usize) -> Result<(), Refusal>
    requires { place ≤ length bytes.now }
    ensures value { result ≡ group_test bytes.now place }
    ensures there { OnOk result (place + 8 ≤ length bytes.now) }
{
    check_source(bytes, place)?;
    if !address_at(bytes, place).is_multicast() {
        return Err(Refusal::NotMulticast);
    }
    Ok(())
}
