//! IPv4 packets, read.
ghost use Rattle.std.specs.Prelude.{◌≡◌, ◌+◌, ◌*◌, ◌%◌, ◌≤◌, ◌++◌, length, IsTrue, OnOk, OnErr};
ghost use Rattle.byteorder.specs.Endian.{big_from};
ghost use Rattle.pim_ip.specs.Ipv4.{packet_limit, is_source, copy_text, ipv4_reading, version_of};
ghost use Rattle.pim_ip.specs.Checksum.{sum16};
ghost use Rattle.pim_ip.specs.View.{ReadsAs, copied, lowered_header};

use crate::addr::Addr;
use crate::checksum::sum16;
use crate::refusal::Refusal;
use crate::write::write_both;
use byteorder::{BigEndian, ByteOrder};
use std::alloc::AllocError;
use std::marker::Model;

/// The longest packet that is read, in bytes: a Register of 1500 bytes behind two headers of its
/// own.
pub const PACKET_LIMIT: usize = 1528;

/// The longest packet that a link carries, in bytes.
pub const FRAME_LIMIT: usize = 1500;

/// The protocol number of IGMP.
pub const PROTOCOL_IGMP: u8 = 2;

/// The protocol number of PIM.
pub const PROTOCOL_PIM: u8 = 103;

/// The length of a header without options, in bytes.
const HEADER_LENGTH: usize = 20;

/// Where the checksum stands in a header.
pub(crate) const CHECKSUM_PLACE: usize = 10;

/// An IPv4 packet (RFC 791) that was read. It borrows the header, with its options, and the payload from the bytes that
/// were read, and takes no memory.
#[derive(Drop)]
pub struct Ipv4View<'a> {
    header: &'a [u8],
    payload: &'a [u8],
}

impl<'a> Model for Ipv4View<'a> {
    ghost use Rattle.pim_ip.specs.Ipv4.{Packet};
    ghost use Rattle.pim_ip.specs.View.{packet_from, IsPacket};

    ghost Value = { Packet };

    ghost view = { λ v. packet_from v.header.now v.payload.now };

    ghost invariant = { λ v. IsPacket v.header.now v.payload.now };
}

impl<'a> Ipv4View<'a> {
    /// The header, with its options. Followed by the payload, it is read as the same packet.
    pub fn header(&self) -> &'a [u8]
        ensures value { result.now ≡ self.now.header }
        ensures again { ReadsAs (self.now.header ++ self.now.payload) self.now }
    {
        self.header
    }

    /// What the packet carries.
    pub fn payload(&self) -> &'a [u8]
        ensures { result.now ≡ self.now.payload }
    {
        self.payload
    }

    /// The length of the packet in bytes, header and payload.
    pub fn total_length(&self) -> usize
        ensures value { result ≡ length self.now.header + length self.now.payload }
        ensures within { result ≤ packet_limit }
    {
        self.header.len() + self.payload.len()
    }

    /// The number of the protocol in the payload.
    pub fn protocol(&self) -> u8
        ensures { result ≡ self.now.protocol }
    {
        self.header[9]
    }

    /// How many routers the packet may still pass.
    pub fn time_to_live(&self) -> u8
        ensures { result ≡ self.now.time_to_live }
    {
        self.header[8]
    }

    /// The address that the packet comes from: 0.0.0.0 with IGMP alone, and never a group.
    pub fn source(&self) -> Addr
        ensures value { result.bits ≡ self.now.source }
        ensures lawful { IsTrue (is_source self.now.protocol self.now.source) }
    {
        Addr::from(u32_at(self.header, 12))
    }

    /// The address that the packet goes to.
    pub fn destination(&self) -> Addr
        ensures { result.bits ≡ self.now.destination }
    {
        Addr::from(u32_at(self.header, 16))
    }
}

/// The 16 bits at a place.
fn u16_at(bytes: &[u8], place: usize) -> u16
    requires { place + 2 ≤ length bytes.now }
    ensures { result ≡ big_from place 2 bytes.now }
{
    BigEndian::read_u16(&bytes[place..])
}

/// The 32 bits at a place.
fn u32_at(bytes: &[u8], place: usize) -> u32
    requires { place + 4 ≤ length bytes.now }
    ensures { result ≡ big_from place 4 bytes.now }
{
    BigEndian::read_u32(&bytes[place..])
}

/// Whether packets of the protocol may come from the address: from 0.0.0.0 those of IGMP alone.
fn is_source(protocol: u8, address: Addr) -> bool
    ensures { result ≡ is_source protocol address.bits }
{
    address.is_unicast() || address.bits == 0 && protocol == PROTOCOL_IGMP
}

/// Reads the packet at the front of the bytes; bytes past its total length are ignored. Neither
/// the time to live nor the options are tested.
#[tactic(auto, using(crate::proofs::ReadingLemmas::refused))]
pub fn read_ipv4(bytes: &[u8]) -> Result<Ipv4View<'_>, Refusal>
    ensures { result ≡ ipv4_reading bytes.now }
{
    if bytes.len() > PACKET_LIMIT {
        return Err(Refusal::BadLength);
    }
    if bytes.len() < HEADER_LENGTH {
        return Err(Refusal::Short);
    }
    if bytes[0] >> 4 != 4 {
        return Err(Refusal::BadVersion);
    }
    let header_length = 4 * usize::from(bytes[0] & 0x0F);
    if header_length < HEADER_LENGTH {
        return Err(Refusal::BadLength);
    }
    let total_length = usize::from(u16_at(bytes, 2));
    if total_length < header_length {
        return Err(Refusal::BadLength);
    }
    if bytes.len() < total_length {
        return Err(Refusal::Short);
    }
    let header = &bytes[..header_length];
    if sum16(header) != 0 {
        return Err(Refusal::BadChecksum);
    }
    if u16_at(bytes, 6) & 0x3FFF != 0 {
        return Err(Refusal::Fragment);
    }
    let source = Addr::from(u32_at(bytes, 12));
    if !is_source(bytes[9], source) {
        return Err(Refusal::BadAddress);
    }
    let payload = &bytes[header_length..total_length];
    Ok(Ipv4View { header, payload })
}

/// A header's checksum after one of its words was lowered by `times` times 256 (RFC 1624). It is never 0xFFFF, since
/// the sum of a header's words isn't 0.
fn raised_checksum(checksum: u16, times: u8) -> u16
    ensures { result ≡ (checksum + 256 * times) % 65535 }
{
    let raised = u32::from(checksum) + 256 * u32::from(times);
    if raised >= 0xFFFF {
        (raised - 0xFFFF) as u16
    } else {
        raised as u16
    }
}

/// Lowers the time to live of a header by one (0 stays 0), and updates its checksum.
fn lower_time_to_live(header: &mut [u8])
    requires long_enough { 20 ≤ length header.old }
    requires version { version_of header.old ≡ 4 }
    requires summed { sum16 header.old ≡ 0 }
    ensures { header.new ≡ lowered_header header.old }
{
    let time_to_live = header[8];
    let lower = time_to_live.saturating_sub(1);
    let checksum = raised_checksum(u16_at(header, CHECKSUM_PLACE), time_to_live - lower);
    header[8] = lower;
    BigEndian::write_u16(&mut header[CHECKSUM_PLACE..CHECKSUM_PLACE + 2], checksum);
}

/// Writes the packet at the end as it leaves: with a time to live one lower (0 stays 0), and the checksum updated. An
/// `Err` is want of memory, and changes nothing.
pub fn write_copy(packet: &Ipv4View<'_>, out: &mut Vec<u8>) -> Result<(), AllocError>
    ensures ok { OnOk result (out.new.items ≡ out.old.items ++ copy_text packet.now) }
    ensures err { OnErr result (out.new.items ≡ out.old.items) }
    ensures reads { ReadsAs (copy_text packet.now) (copied packet.now) }
{
    let start = out.len();
    write_both(packet.header, packet.payload, out)?;
    lower_time_to_live(&mut out[start..start + packet.header.len()]);
    Ok(())
}
