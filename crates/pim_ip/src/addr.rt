//! IPv4 addresses.
ghost use Rattle.std.specs.Prelude.{◌≡◌, ◌-◌, ◌≤◌, Some};
ghost use Rattle.byteorder.specs.Endian.{big_bytes, big_from};
ghost use Rattle.pim_ip.specs.Addr.{dotted_text};
ghost use Rattle.pim_ip.specs.Ipv4.{is_link_local, is_multicast, is_source_specific, is_unicast};

use std::fmt;

/// An IPv4 address: its 32 bits, the first byte highest.
#[derive(Clone, Copy, PartialEq, Eq, PartialOrd, Ord, Hash)]
pub struct Addr {
    pub bits: u32,
}

impl Addr {
    /// 0.0.0.0: no address, or every source of a group.
    pub const NONE: Addr = Addr { bits: 0 };
    /// All PIM routers of a link (RFC 7761, section 4.9): 224.0.0.13.
    pub const ALL_PIM_ROUTERS: Addr = Addr { bits: 0xe000_000d };
    /// All systems of a link (RFC 3376, section 4.1.12): 224.0.0.1.
    pub const ALL_SYSTEMS: Addr = Addr { bits: 0xe000_0001 };

    /// The four bytes, in the order of a packet.
    pub fn octets(self) -> [u8; 4]
        ensures { result ≡ big_bytes 4 self.bits }
    {
        self.bits.to_be_bytes()
    }

    /// Whether the address is in 224.0.0.0/4.
    pub fn is_multicast(self) -> bool
        ensures { result ≡ is_multicast self.bits }
    {
        self.bits >> 28 == 14
    }

    /// Whether the address is in 224.0.0.0/24, whose packets never leave their link.
    pub fn is_link_local(self) -> bool
        ensures { result ≡ is_link_local self.bits }
    {
        self.bits >> 8 == 0xe0_0000
    }

    /// Whether the group is source-specific: it lies in 232.0.0.0/8 (RFC 7761, section 4.8).
    pub fn is_source_specific(self) -> bool
        ensures { result ≡ is_source_specific self.bits }
    {
        self.bits >> 24 == 232
    }

    /// Whether a host can have the address: it is not 0.0.0.0, and below 224.0.0.0.
    pub fn is_unicast(self) -> bool
        ensures { result ≡ is_unicast self.bits }
    {
        self.bits > 0 && self.bits < 0xE000_0000
    }
}

impl From<u32> for Addr {
    ghost from_gives = { λ bits address. address.bits ≡ bits };

    fn from(bits: u32) -> Addr {
        Addr { bits }
    }
}

impl From<[u8; 4]> for Addr {
    ghost from_gives = { λ octets address. address.bits ≡ big_from 0 4 octets };

    fn from(octets: [u8; 4]) -> Addr {
        Addr {
            bits: u32::from_be_bytes(octets),
        }
    }
}

impl fmt::Display for Addr {
    ghost output = { λ address. Some (dotted_text address.bits) };

    fn fmt<W: fmt::Write>(&self, f: &mut fmt::Formatter<W>) -> fmt::Result {
        let [first, second, third, fourth] = self.octets();
        write!(f, "{first}.{second}.{third}.{fourth}")
    }
}

/// An address and a length in bits. Any length can be held, so that a list of routes with a
/// length above 32 can be refused where it is used.
#[derive(Clone, Copy)]
pub struct Prefix {
    pub address: Addr,
    pub length: u32,
}

impl Prefix {
    ghost use Rattle.pim_ip.specs.Prefixes.{contains, is_host_clear};

    /// How many bits lie past the prefix.
    fn host_bits(self) -> u32
        ensures value { result ≡ 32 - self.length }
        ensures within { result ≤ 32 }
    {
        32u32.saturating_sub(self.length)
    }

    /// Whether the address has the prefix: the highest `length` bits are the same, all 32 where
    /// `length` is above 32.
    #[tactic(auto, unfolding(crate::specs::Prefixes::contains))]
    pub fn contains(self, address: Addr) -> bool
        ensures { result ≡ contains self address.bits }
    {
        let host_bits = self.host_bits();
        u64::from(address.bits) >> host_bits == u64::from(self.address.bits) >> host_bits
    }

    /// Whether no bit past the prefix is set.
    #[tactic(auto, unfolding(crate::specs::Prefixes::is_host_clear))]
    pub fn is_host_clear(self) -> bool
        ensures { result ≡ is_host_clear self }
    {
        u64::from(self.address.bits) % (1 << self.host_bits()) == 0
    }
}
