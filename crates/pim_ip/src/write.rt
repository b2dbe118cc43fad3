//! IPv4 packets, written: control packets with their header, and copies of packets that go on.
ghost use Rattle.std.specs.Prelude.{◌≡◌, ◌+◌, ◌^◌, ◌/◌, ◌<◌, ◌≤◌, [], ◌∷◌, ◌++◌, length, take, IsTrue, OnOk, OnErr};
ghost use Rattle.byteorder.specs.Endian.{big_bytes};
ghost use Rattle.pim_ip.specs.ControlHeader.{options_of, text_of, ReadsBack};
ghost use Rattle.pim_ip.specs.Ipv4.{is_source, protocol_igmp, protocol_pim, router_alert, pim_packet_text, igmp_packet_text};
ghost use Rattle.pim_ip.specs.View.{ReadsAs, written_packet};

use crate::addr::Addr;
use crate::checksum::set_checksum;
use crate::ipv4::{CHECKSUM_PLACE, PROTOCOL_IGMP, PROTOCOL_PIM};
use byteorder::{BigEndian, ByteOrder};
use std::alloc::AllocError;

/// The Router Alert option (RFC 2113).
const ROUTER_ALERT: [u8; 4] = [0x94, 0x04, 0, 0];

/// The fields of a control packet's header. Its type of service is 0xC0 (internetwork control), it
/// has no identification, and it is no fragment.
#[derive(Clone, Copy)]
pub struct ControlHeader {
    /// Whether the Router Alert option follows the other fields.
    pub router_alert: bool,
    pub time_to_live: u8,
    pub protocol: u8,
    pub source: Addr,
    pub destination: Addr,
    /// The length of the payload, in bytes.
    pub payload_length: usize,
}

impl ControlHeader {
    fn options(&self) -> &'static [u8]
        ensures { result.now ≡ options_of self.now }
    {
        if self.router_alert {
            &ROUTER_ALERT
        } else {
            &[]
        }
    }

    /// The length of the header, in bytes.
    fn length(&self) -> usize
        ensures { result ≡ 20 + length (options_of self.now) }
    {
        20 + self.options().len()
    }

    /// The fields without options, and with 0 for the checksum.
    fn fields(&self) -> [u8; 20]
        requires { 20 + length (options_of self.now) + self.now.payload_length < 2 ^ 16 }
        ensures in_range { self.now.destination.bits < 2 ^ 32 }
        ensures value { result ≡ (0x45 + length (options_of self.now) / 4) ∷ 0xC0
            ∷ big_bytes 2 (20 + length (options_of self.now) + self.now.payload_length)
            ++ (0 ∷ 0 ∷ 0 ∷ 0 ∷ self.now.time_to_live ∷ self.now.protocol ∷ 0 ∷ 0 ∷ [])
            ++ big_bytes 4 self.now.source.bits ++ big_bytes 4 self.now.destination.bits }
    {
        let header_length = self.length();
        let mut bytes = [0; 20];
        bytes[0] = 0x40 + (header_length / 4) as u8;
        bytes[1] = 0xC0;
        BigEndian::write_u16(
            &mut bytes[2..4],
            (header_length + self.payload_length) as u16,
        );
        bytes[8] = self.time_to_live;
        bytes[9] = self.protocol;
        BigEndian::write_u32(&mut bytes[12..16], self.source.bits);
        BigEndian::write_u32(&mut bytes[16..20], self.destination.bits);
        bytes
    }

    /// The header in bytes, with zeros behind it.
    fn bytes(&self) -> [u8; 24]
        requires { 20 + length (options_of self.now) + self.now.payload_length < 2 ^ 16 }
        ensures text { take (20 + length (options_of self.now)) result ≡ text_of self.now }
        ensures reads { ReadsBack self.now }
    {
        let header_length = self.length();
        let mut bytes = [0; 24];
        bytes[..20].copy_from_slice(&self.fields());
        bytes[20..header_length].copy_from_slice(self.options());
        set_checksum(&mut bytes[..header_length], CHECKSUM_PLACE);
        bytes
    }
}

/// Writes two byte strings at the end, or neither.
pub(crate) fn write_both(first: &[u8], second: &[u8], out: &mut Vec<u8>) -> Result<(), AllocError>
    ensures ok { OnOk result (out.new.items ≡ out.old.items ++ (first.now ++ second.now)) }
    ensures err { OnErr result (out.new.items ≡ out.old.items) }
{
    let start = out.len();
    out.extend_from_slice(first)?;
    let written = out.extend_from_slice(second);
    if written.is_err() {
        out.truncate(start);
    }
    written
}

fn write_packet(header: &ControlHeader, payload: &[u8], out: &mut Vec<u8>) -> Result<(), AllocError>
    requires fits { 20 + length (options_of header.now) + header.now.payload_length < 2 ^ 16 }
    requires payload { header.now.payload_length ≡ length payload.now }
    ensures ok { OnOk result (out.new.items ≡ out.old.items ++ (text_of header.now ++ payload.now)) }
    ensures err { OnErr result (out.new.items ≡ out.old.items) }
    ensures reads { ReadsBack header.now }
{
    write_both(&header.bytes()[..header.length()], payload, out)
}

/// Writes a header at the end. An `Err` changes nothing.
pub fn write_header(header: &ControlHeader, out: &mut Vec<u8>) -> Result<(), AllocError>
    requires { 20 + length (options_of header.now) + header.now.payload_length < 2 ^ 16 }
    ensures ok { OnOk result (out.new.items ≡ out.old.items ++ text_of header.now) }
    ensures err { OnErr result (out.new.items ≡ out.old.items) }
    ensures reads { ReadsBack header.now }
{
    out.extend_from_slice(&header.bytes()[..header.length()])
}

/// Writes a PIM message with a header without options at the end. An `Err` changes nothing.
#[tactic(auto, unfolding(crate::specs::Ipv4::pim_packet_text))]
pub fn write_pim_packet(
    time_to_live: u8,
    source: Addr,
    destination: Addr,
    message: &[u8],
    out: &mut Vec<u8>,
) -> Result<(), AllocError>
    requires { 20 + length message.now < 2 ^ 16 }
    ensures ok { OnOk result (out.new.items
        ≡ out.old.items ++ pim_packet_text time_to_live source.bits destination.bits message.now) }
    ensures err { OnErr result (out.new.items ≡ out.old.items) }
    ensures reads { IsTrue (is_source protocol_pim source.bits)
        → ReadsAs (pim_packet_text time_to_live source.bits destination.bits message.now)
        (written_packet [] time_to_live protocol_pim source.bits destination.bits message.now) }
{
    let header = ControlHeader {
        router_alert: false,
        time_to_live,
        protocol: PROTOCOL_PIM,
        source,
        destination,
        payload_length: message.len(),
    };
    write_packet(&header, message, out)
}

/// Writes an IGMP message at the end, with a header that has Router Alert and a time to live of 1. An `Err` changes
/// nothing.
#[tactic(auto, unfolding(crate::specs::Ipv4::igmp_packet_text))]
pub fn write_igmp_packet(
    source: Addr,
    destination: Addr,
    message: &[u8],
    out: &mut Vec<u8>,
) -> Result<(), AllocError>
    requires { 24 + length message.now < 2 ^ 16 }
    ensures ok { OnOk result (out.new.items
        ≡ out.old.items ++ igmp_packet_text source.bits destination.bits message.now) }
    ensures err { OnErr result (out.new.items ≡ out.old.items) }
    ensures reads { IsTrue (is_source protocol_igmp source.bits)
        → ReadsAs (igmp_packet_text source.bits destination.bits message.now)
        (written_packet router_alert 1 protocol_igmp source.bits destination.bits message.now) }
{
    let header = ControlHeader {
        router_alert: true,
        time_to_live: 1,
        protocol: PROTOCOL_IGMP,
        source,
        destination,
        payload_length: message.len(),
    };
    write_packet(&header, message, out)
}
