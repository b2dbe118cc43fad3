//! Registers, Null-Registers and Register-Stops, read and written.
ghost use Rattle.std.specs.Prelude.{◌≡◌, ◌^◌, ◌<◌, ◌≤◌, [], ◌∷◌, ◌++◌, length, OnOk, OnErr};
ghost use Rattle.std.specs.Option.{option_copied};
ghost use Rattle.pim_wire.specs.Bodies.{register_reading, register_stop_reading, inner_reading};
ghost use Rattle.pim_wire.specs.Registers.{null_inner_test, register_text, dummy_text, null_register_text, register_stop_text};
ghost use Rattle.pim_ip.specs.Checksum.{with_checksum};
ghost use Rattle.pim_wire.specs.ReadsBack.{RegisterReads, NullRegisterReads, RegisterStopReads};

use crate::encoded::{
    CHECKSUM_PLACE, VERSION_BITS, address_at, check_group, check_unicast, group_bytes, u16_at,
    u32_at, unicast_at, unicast_bytes,
};
use pim_ip::{Addr, FRAME_LIMIT, Ipv4View, PROTOCOL_PIM, Refusal, read_ipv4, set_checksum, sum16};
use std::alloc::AllocError;
use std::marker::Model;

/// A Register-Stop (RFC 7761, section 4.9.4). Source 0.0.0.0 means every source of the group.
#[derive(Clone, Copy)]
pub struct RegisterStop {
    pub group: Addr,
    /// The length of the group's mask. A Register-Stop with another length than 32 is read but not used.
    pub mask_length: u8,
    pub source: Addr,
}

/// The length of a Register's header.
pub(crate) const REGISTER_HEADER: usize = 8;

/// The length of an IPv4 header without options.
const HEADER_LENGTH: usize = 20;

#[derive(Drop)]
enum Content<'a> {
    Packet(Ipv4View<'a>),
    Null { source: Addr, group: Addr },
}

/// A Register that was read (RFC 7761, section 4.9.3), borrowed from its bytes: it holds a data packet from a host to a
/// group, or, as a Null-Register, only a source and a group.
#[derive(Drop)]
pub struct RegisterView<'a> {
    content: Content<'a>,
}

impl<'a> Model for RegisterView<'a> {
    ghost use Rattle.pim_wire.specs.Values.{Register};

    ghost Value = { Register };

    ghost use Rattle.pim_wire.specs.RegisterContent.{register_from};

    ghost view = { λ a. register_from a.content };
}

impl<'a> RegisterView<'a> {
    ghost use Rattle.pim_wire.specs.RegisterParts.{is_null, registered_source, registered_group, registered_packet};

    /// Whether the Register is a Null-Register, which brings no packet.
    pub fn is_null(&self) -> bool
        ensures { result ≡ is_null self.now }
    {
        matches!(&self.content, Content::Null { .. })
    }

    /// The source that sends.
    pub fn source(&self) -> Addr
        ensures { result.bits ≡ registered_source self.now }
    {
        match &self.content {
            Content::Packet(packet) => packet.source(),
            Content::Null { source, .. } => *source,
        }
    }

    /// The group that the registered packet, or a Null-Register, is for.
    pub fn group(&self) -> Addr
        ensures { result.bits ≡ registered_group self.now }
    {
        match &self.content {
            Content::Packet(packet) => packet.destination(),
            Content::Null { group, .. } => *group,
        }
    }

    /// The data packet; a Null-Register has none.
    pub fn inner(&self) -> Option<&Ipv4View<'a>>
        ensures { option_copied result ≡ registered_packet self.now }
    {
        match &self.content {
            Content::Packet(packet) => Some(packet),
            Content::Null { .. } => None,
        }
    }
}

/// Reads the packet in a Register.
fn read_inner(bytes: &[u8]) -> Result<Ipv4View<'_>, Refusal>
    ensures { result ≡ inner_reading bytes.now }
{
    if bytes.len() > FRAME_LIMIT {
        return Err(Refusal::BadLength);
    }
    let packet = read_ipv4(bytes)?;
    if !packet.source().is_unicast() {
        return Err(Refusal::BadAddress);
    }
    if !packet.destination().is_multicast() {
        return Err(Refusal::NotMulticast);
    }
    Ok(packet)
}

/// Whether there is a header in a Null-Register. Its checksum may be 0, and nothing but its addresses
/// is tested.
#[tactic(auto, unfolding(crate::specs::Registers::null_inner_test))]
fn check_null_inner(bytes: &[u8]) -> Result<(), Refusal>
    ensures value { result ≡ null_inner_test bytes.now }
    ensures there { OnOk result (20 ≤ length bytes.now) }
{
    if bytes.len() < HEADER_LENGTH {
        return Err(Refusal::Short);
    }
    if u16_at(bytes, 10) != 0 && sum16(&bytes[..HEADER_LENGTH]) != 0 {
        return Err(Refusal::BadChecksum);
    }
    if !Addr::from(u32_at(bytes, 12)).is_unicast() {
        return Err(Refusal::BadAddress);
    }
    if !Addr::from(u32_at(bytes, 16)).is_multicast() {
        return Err(Refusal::NotMulticast);
    }
    Ok(())
}

/// Reads a Register whose header was tested.
#[tactic(auto, unfolding(crate::specs::Registers::register_test, crate::specs::Registers::register_of))]
pub(crate) fn read_register(bytes: &[u8]) -> Result<RegisterView<'_>, Refusal>
    requires { 8 ≤ length bytes.now }
    ensures { result ≡ register_reading bytes.now }
{
    let inner = &bytes[REGISTER_HEADER..];
    if (bytes[4] >> 6) & 1 == 0 {
        let packet = read_inner(inner)?;
        return Ok(RegisterView {
            content: Content::Packet(packet),
        });
    }
    check_null_inner(inner)?;
    let source = Addr::from(u32_at(inner, 12));
    let group = Addr::from(u32_at(inner, 16));
    Ok(RegisterView {
        content: Content::Null { source, group },
    })
}

/// Reads a Register-Stop whose header was tested.
#[tactic(auto, unfolding(crate::specs::Registers::register_stop_test, crate::specs::Registers::register_stop_of))]
pub(crate) fn read_register_stop(bytes: &[u8]) -> Result<RegisterStop, Refusal>
    requires { 4 ≤ length bytes.now }
    ensures { result ≡ register_stop_reading bytes.now }
{
    check_group(bytes, 4)?;
    check_unicast(bytes, 12)?;
    Ok(RegisterStop {
        group: address_at(bytes, 4),
        mask_length: bytes[7],
        source: unicast_at(bytes, 12),
    })
}

/// The bytes of a Register-Stop.
#[tactic(auto, unfolding(crate::specs::Registers::register_stop_text, crate::specs::Encoded::pim_text))]
fn register_stop_bytes(group: Addr, source: Addr) -> [u8; 18]
    ensures in_range { source.bits < 2 ^ 32 }
    ensures value { result ≡ register_stop_text group.bits source.bits }
{
    let mut bytes = [0; 18];
    bytes[0] = VERSION_BITS + 2;
    bytes[4..12].copy_from_slice(&group_bytes(group));
    bytes[12..18].copy_from_slice(&unicast_bytes(source));
    set_checksum(&mut bytes, CHECKSUM_PLACE);
    bytes
}

/// Writes a Register-Stop at the end. An `Err` changes nothing.
pub fn write_register_stop(group: Addr, source: Addr, out: &mut Vec<u8>) -> Result<(), AllocError>
    ensures ok { OnOk result
        (out.new.items ≡ out.old.items ++ register_stop_text group.bits source.bits) }
    ensures err { OnErr result (out.new.items ≡ out.old.items) }
    ensures reads { RegisterStopReads group.bits source.bits }
{
    out.extend_from_slice(&register_stop_bytes(group, source))
}

/// The bytes of a Register's header.
fn register_header_bytes(flags: u8) -> [u8; 8]
    ensures { result ≡ with_checksum (0x21 ∷ 0 ∷ []) (flags ∷ 0 ∷ 0 ∷ 0 ∷ []) }
{
    let mut bytes = [VERSION_BITS + 1, 0, 0, 0, flags, 0, 0, 0];
    set_checksum(&mut bytes, CHECKSUM_PLACE);
    bytes
}

/// The header that stands in a Null-Register.
#[tactic(auto, unfolding(crate::specs::Registers::dummy_text))]
fn dummy_bytes(source: Addr, group: Addr) -> [u8; 20]
    ensures { result ≡ dummy_text source.bits group.bits }
{
    let mut bytes = [0; 20];
    bytes[0] = 0x45;
    bytes[3] = 20;
    bytes[8] = 1;
    bytes[9] = PROTOCOL_PIM;
    bytes[12..16].copy_from_slice(&source.octets());
    bytes[16..20].copy_from_slice(&group.octets());
    set_checksum(&mut bytes, 10);
    bytes
}

/// Writes two byte strings at the end, or neither. The error is want of memory.
fn write_both(first: &[u8], second: &[u8], out: &mut Vec<u8>) -> Result<(), AllocError>
    ensures ok { OnOk result (out.new.items ≡ out.old.items ++ (first.now ++ second.now)) }
    ensures err { OnErr result (out.new.items ≡ out.old.items) }
{
    let start = out.len();
    out.extend_from_slice(first)?;
    let written = out.extend_from_slice(second);
    if written.is_err() {
        out.truncate(start);
    }
    written
}

/// Writes a Register around a packet at the end. Its checksum covers only the header. An `Err` is want of memory, and
/// changes nothing.
#[tactic(auto, unfolding(crate::specs::Registers::register_text))]
pub fn write_register(inner: &[u8], out: &mut Vec<u8>) -> Result<(), AllocError>
    ensures ok { OnOk result (out.new.items ≡ out.old.items ++ register_text inner.now) }
    ensures err { OnErr result (out.new.items ≡ out.old.items) }
    ensures reads { RegisterReads inner.now }
{
    write_both(&register_header_bytes(0), inner, out)
}

/// Writes a Null-Register at the end. An `Err` changes nothing.
#[tactic(auto, unfolding(crate::specs::Registers::null_register_text))]
pub fn write_null_register(source: Addr, group: Addr, out: &mut Vec<u8>) -> Result<(), AllocError>
    ensures ok { OnOk result
        (out.new.items ≡ out.old.items ++ null_register_text source.bits group.bits) }
    ensures err { OnErr result (out.new.items ≡ out.old.items) }
    ensures reads { NullRegisterReads source.bits group.bits }
{
    write_both(
        &register_header_bytes(0x40),
        &dummy_bytes(source, group),
        out,
    )
}
