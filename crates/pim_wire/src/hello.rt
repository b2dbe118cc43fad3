//! Hellos, read and written.
ghost use Rattle.std.specs.Prelude.{◌≡◌, ◌+◌, ◌≤◌, true, ◌++◌, length, OnOk, OnErr};
ghost use Rattle.pim_wire.specs.Bodies.{hello_reading};
ghost use Rattle.pim_wire.specs.Hellos.{option_type, option_length, is_option_length, option_test, lan_delay_at, with_option, hello_text, option_text, lan_delay_option};
ghost use Rattle.byteorder.specs.Endian.{big_bytes};
ghost use Rattle.pim_wire.specs.ReadsBack.{HelloReads};

use crate::encoded::{CHECKSUM_PLACE, VERSION_BITS, check_field, u16_at, u32_at};
use byteorder::{BigEndian, ByteOrder};
use pim_ip::{LanDelay, Refusal, set_checksum};
use std::alloc::AllocError;

/// The holdtime of a Hello without the option, and of those that are written, in seconds:
/// Default_Hello_Holdtime of RFC 7761, section 4.11.
pub const DEFAULT_HOLDTIME: u16 = 105;

/// The holdtime, in seconds, that never expires.
pub const HOLDTIME_FOREVER: u16 = 0xffff;

const HOLDTIME: u16 = 1;

const LAN_DELAY: u16 = 2;

const PRIORITY: u16 = 19;

const GENERATION: u16 = 20;

/// The length of an option's type and length.
const OPTION_HEADER: usize = 4;

/// The options of a Hello that the router uses (RFC 7761, section 4.9.2).
#[derive(Clone, Copy)]
pub struct Hello {
    /// In seconds; 0xFFFF never expires.
    pub holdtime: Option<u16>,
    pub lan_delay: Option<LanDelay>,
    /// The DR priority.
    pub priority: Option<u32>,
    pub generation: Option<u32>,
}

/// Whether an option of the type may have the length: a known option has its one length.
#[tactic(auto, unfolding(crate::specs::Hellos::is_option_length))]
fn is_option_length(option: u16, length: usize) -> bool
    ensures { result ≡ is_option_length option length }
{
    match option {
        HOLDTIME => length == 2,
        LAN_DELAY | PRIORITY | GENERATION => length == 4,
        _ => true,
    }
}

/// The length of the value of the option at a place.
fn option_length(bytes: &[u8], place: usize) -> usize
    requires { place + 4 ≤ length bytes.now }
    ensures { result ≡ option_length bytes.now place }
{
    usize::from(u16_at(bytes, place + 2))
}

/// Whether there is an option at a place.
#[tactic(auto, unfolding(crate::specs::Hellos::option_test))]
fn check_option(bytes: &[u8], place: usize) -> Result<(), Refusal>
    requires { place ≤ length bytes.now }
    ensures value { result ≡ option_test bytes.now place }
    ensures there { OnOk result (place + 4 + option_length bytes.now place ≤ length bytes.now) }
    ensures known { OnOk result (is_option_length (option_type bytes.now place) (option_length bytes.now place) ≡ true) }
{
    check_field(bytes, place, OPTION_HEADER)?;
    let length = option_length(bytes, place);
    if !is_option_length(u16_at(bytes, place), length) {
        return Err(Refusal::BadLength);
    }
    check_field(bytes, place + OPTION_HEADER, length)
}

#[tactic(auto, unfolding(crate::specs::Hellos::lan_delay_at))]
fn lan_delay_at(bytes: &[u8], place: usize) -> LanDelay
    requires { place + 4 ≤ length bytes.now }
    ensures { result ≡ lan_delay_at bytes.now place }
{
    let delay = u16_at(bytes, place);
    LanDelay {
        can_track: delay >= 0x8000,
        propagation_delay: delay & 0x7FFF,
        override_interval: u16_at(bytes, place + 2),
    }
}

impl Hello {
    /// Stores the option at a place; unknown options are skipped.
    #[tactic(auto, unfolding(crate::specs::Hellos::with_option, crate::specs::Hellos::is_option_length))]
    fn put_option(&mut self, bytes: &[u8], place: usize)
        requires there { place + 4 + option_length bytes.now place ≤ length bytes.now }
        requires known { is_option_length (option_type bytes.now place) (option_length bytes.now place) ≡ true }
        ensures { self.new ≡ with_option bytes.now place self.old }
    {
        let value = place + OPTION_HEADER;
        match u16_at(bytes, place) {
            HOLDTIME => self.holdtime = Some(u16_at(bytes, value)),
            LAN_DELAY => self.lan_delay = Some(lan_delay_at(bytes, value)),
            PRIORITY => self.priority = Some(u32_at(bytes, value)),
            GENERATION => self.generation = Some(u32_at(bytes, value)),
            _ => {}
        }
    }
}

/// Reads a Hello whose header was tested.
#[tactic(auto, unfolding(crate::specs::Hellos::hello_test, crate::specs::Hellos::hello_of))]
pub(crate) fn read_hello(bytes: &[u8]) -> Result<Hello, Refusal>
    requires { 4 ≤ length bytes.now }
    ensures { result ≡ hello_reading bytes.now }
{
    let mut hello = Hello {
        holdtime: None,
        lan_delay: None,
        priority: None,
        generation: None,
    };
    let mut place = 4;
    while place < bytes.len() {
        check_option(bytes, place)?;
        hello.put_option(bytes, place);
        place += OPTION_HEADER + option_length(bytes, place);
    }
    Ok(hello)
}

/// The LAN Prune Delay option, with T clear.
#[tactic(auto, unfolding(crate::specs::Hellos::option_text))]
fn lan_delay_bytes(propagation_delay: u16, override_interval: u16) -> [u8; 8]
    ensures { result ≡ option_text lan_delay_option (big_bytes 2 propagation_delay ++ big_bytes 2 override_interval) }
{
    let mut bytes = [0, 2, 0, 4, 0, 0, 0, 0];
    BigEndian::write_u16(&mut bytes[4..6], propagation_delay);
    BigEndian::write_u16(&mut bytes[6..8], override_interval);
    bytes
}

/// An option whose value is one number.
#[tactic(auto, unfolding(crate::specs::Hellos::option_text))]
fn number_bytes(option: u16, number: u32) -> [u8; 8]
    ensures { result ≡ option_text option (big_bytes 4 number) }
{
    let mut bytes = [0, 0, 0, 4, 0, 0, 0, 0];
    BigEndian::write_u16(&mut bytes[0..2], option);
    BigEndian::write_u32(&mut bytes[4..8], number);
    bytes
}

/// The bytes of the Hello that the router sends.
#[tactic(auto, unfolding(crate::specs::Hellos::hello_text, crate::specs::Encoded::pim_text))]
fn hello_bytes(
    propagation_delay: u16,
    override_interval: u16,
    priority: u32,
    generation: u32,
) -> [u8; 34]
    ensures { result ≡ hello_text propagation_delay override_interval priority generation }
{
    let mut bytes = [0; 34];
    bytes[0] = VERSION_BITS;
    bytes[4..8].copy_from_slice(&[0, 1, 0, 2]);
    BigEndian::write_u16(&mut bytes[8..10], DEFAULT_HOLDTIME);
    bytes[10..18].copy_from_slice(&lan_delay_bytes(propagation_delay, override_interval));
    bytes[18..26].copy_from_slice(&number_bytes(PRIORITY, priority));
    bytes[26..34].copy_from_slice(&number_bytes(GENERATION, generation));
    set_checksum(&mut bytes, CHECKSUM_PLACE);
    bytes
}

/// Writes the Hello that the router sends at the end: its delays in ms, its DR priority and its
/// generation ID. An `Err` changes nothing.
pub fn write_hello(
    propagation_delay: u16,
    override_interval: u16,
    priority: u32,
    generation: u32,
    out: &mut Vec<u8>,
) -> Result<(), AllocError>
    ensures ok { OnOk result (out.new.items
        ≡ out.old.items ++ hello_text propagation_delay override_interval priority generation) }
    ensures err { OnErr result (out.new.items ≡ out.old.items) }
    ensures reads { HelloReads propagation_delay override_interval priority generation }
{
    let bytes = hello_bytes(propagation_delay, override_interval, priority, generation);
    out.extend_from_slice(&bytes)
}
