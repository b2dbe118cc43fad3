//! The configured interfaces, and by what their subnets are compared with an address.
ghost use Rattle.std.specs.Prelude.{◌≡◌, ◌≤◌, ◌/◌, ◌^◌, ◌==◌, length, true};
ghost use Rattle.std.specs.List.Sorted.{IsNonDecreasingBy, IsPermutation};
ghost use Rattle.pim_ifaces.specs.Subnets.{AreOrdered, Finds, found_at, found_before, lies_in, owns_from, subnet_of};
ghost use Rattle.pim_model.specs.Limits.{are_apart};

use crate::limits::MOST_INTERFACES;
use arrayvec::ArrayVec;
use pim_types::{Addr, InterfaceConfig};
use std::marker::Model;

/// What the addresses of a subnet have in common.
#[derive(Clone, Copy)]
pub(crate) struct Subnet {
    /// How many bits lie past the prefix, at most 32.
    pub host_bits: u32,
    /// The bits of the prefix.
    pub network: u32,
}

/// What a place for a subnet holds before one is put there.
impl Default for Subnet {
    fn default() -> Self {
        Subnet {
            host_bits: 0,
            network: 0,
        }
    }
}

impl Subnet {
    // The subnet of an interface.
    fn of(interface: InterfaceConfig) -> Subnet
        ensures { result ≡ subnet_of interface }
    {
        let host_bits = 32u32.saturating_sub(interface.length);
        Subnet {
            host_bits,
            network: (u64::from(interface.address.bits) >> host_bits) as u32,
        }
    }

    // Whether the address lies in it: a shift and a comparison, since an address is sought among all interfaces.
    pub(crate) fn has(self, address: Addr) -> bool
        requires { self.host_bits ≤ 32 }
        ensures { result ≡ (address.bits / 2 ^ self.host_bits == self.network) }
    {
        (u64::from(address.bits) >> self.host_bits) as u32 == self.network
    }
}

/// An own address of the router, with the number of its interface.
#[derive(Clone, Copy)]
pub(crate) struct Own {
    pub address: u32,
    pub number: u32,
}

/// What a place for one holds before one is put there.
impl Default for Own {
    fn default() -> Self {
        Own {
            address: 0,
            number: 0,
        }
    }
}

/// The configured interfaces, and their own addresses in ascending order.
#[derive(Drop)]
pub(crate) struct Configured {
    interfaces: ArrayVec<InterfaceConfig, MOST_INTERFACES>,
    owns: ArrayVec<Own, MOST_INTERFACES>,
}

impl Model for Configured {
    ghost use Rattle.std.specs.Prelude.{List};
    ghost use Rattle.pim_types.specs.declared.config.InterfaceConfig.{InterfaceConfig};
    ghost use Rattle.pim_ifaces.specs.Subnets.{AreOrdered};

    ghost Value = { List InterfaceConfig };

    ghost view = { λ a. a.interfaces.items };

    ghost invariant = { λ a. AreOrdered a.interfaces.items a.owns.items };
}

impl Configured {
    // The given interfaces, held in place.
    pub(crate) fn new(configured: &[InterfaceConfig]) -> Self
        requires few { length configured.now ≤ MOST_INTERFACES }
        requires apart { are_apart configured.now ≡ true }
        ensures { result ≡ configured.now }
    {
        let mut interfaces = ArrayVec::new();
        for interface in configured {
            interfaces.push(*interface);
        }
        Configured {
            interfaces,
            owns: in_order(owns_of(configured)),
        }
    }

    // The interfaces, by their numbers.
    pub(crate) fn as_slice(&self) -> &[InterfaceConfig]
        ensures same { result.now ≡ self.now }
    {
        self.interfaces.as_slice()
    }

    // The interface in whose subnet the address lies.
    pub(crate) fn around(&self, address: Addr) -> Option<u32>
        ensures { Finds self.now address.bits result }
    {
        around(self.interfaces.as_slice(), self.owns.as_slice(), address)
    }
}

// The own addresses, by the interfaces' numbers.
fn owns_of(configured: &[InterfaceConfig]) -> ArrayVec<Own, MOST_INTERFACES>
    requires { length configured.now ≤ MOST_INTERFACES }
    ensures { result.items ≡ owns_from 0 configured.now }
{
    let mut owns = ArrayVec::new();
    for (number, interface) in configured.iter().enumerate() {
        owns.push(Own {
            address: interface.address.bits,
            number: number as u32,
        });
    }
    owns
}

// The own addresses in ascending order.
fn in_order(mut owns: ArrayVec<Own, MOST_INTERFACES>) -> ArrayVec<Own, MOST_INTERFACES>
    ensures all { IsPermutation owns.items result.items }
    ensures order { IsNonDecreasingBy (λ o. o.address) result.items }
{
    owns.as_mut_slice().sort_unstable_by_key(|own| own.address);
    owns
}

// Whether the address lies in the subnet of the interface.
#[tactic(auto, unfolding(pim_ip::specs::Prefixes::contains))]
fn lies_in(interfaces: &[InterfaceConfig], number: u32, address: Addr) -> bool
    ensures { result ≡ lies_in interfaces.now address.bits number }
{
    match interfaces.get(number as usize) {
        Some(interface) => Subnet::of(*interface).has(address),
        None => false,
    }
}

// The number of the interface whose own address stands at the place, if the address lies in its subnet.
fn around_at(
    interfaces: &[InterfaceConfig],
    owns: &[Own],
    place: usize,
    address: Addr,
) -> Option<u32>
    ensures { result ≡ found_at interfaces.now owns.now address.bits place }
{
    let own = owns.get(place)?;
    if lies_in(interfaces, own.number, address) {
        Some(own.number)
    } else {
        None
    }
}

// The same of the place before this one, if there is one.
fn around_before(
    interfaces: &[InterfaceConfig],
    owns: &[Own],
    place: usize,
    address: Addr,
) -> Option<u32>
    ensures { result ≡ found_before interfaces.now owns.now address.bits place }
{
    if place == 0 {
        None
    } else {
        around_at(interfaces, owns, place - 1, address)
    }
}

// The interface in whose subnet the address lies. Subnets are apart, so no own address of another interface lies between
// the address and that interface's own: it is the last one up to the address, or the first one past it.
fn around(interfaces: &[InterfaceConfig], owns: &[Own], address: Addr) -> Option<u32>
    requires { AreOrdered interfaces.now owns.now }
    ensures { Finds interfaces.now address.bits result }
{
    let place = owns.partition_point(|own| own.address <= address.bits);
    match around_before(interfaces, owns, place, address) {
        Some(number) => Some(number),
        None => around_at(interfaces, owns, place, address),
    }
}
