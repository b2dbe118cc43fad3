//! Which interfaces a router can be configured with.
ghost use Rattle.std.specs.Prelude.{◌≡◌, ◌==◌};
ghost use Rattle.std.specs.List.{list_all, list_any};
ghost use Rattle.pim_ip.specs.Ipv4.{is_unicast};
ghost use Rattle.pim_model.specs.Limits.{are_apart, are_once, are_own_addresses, is_apart, is_between, is_delay_config, is_in_subnet, overlaps};
ghost use Rattle.pim_model.specs.Unicast.{subnet};
ghost use Rattle.pim_ifaces.specs.Interfaces.{interfaces_test, delays_test};

use pim_types::{Addr, InterfaceConfig, Prefix, Refusal};

/// The most interfaces of a router.
pub const MOST_INTERFACES: usize = 120;

/// Whether a router can have these interfaces: 1 to 120, their addresses unicast, the prefixes of
/// their subnets 1 to 31 bits long, and no subnet overlapping another. The first of these that
/// fails names the refusal.
#[tactic(auto, unfolding(crate::specs::Interfaces::interfaces_test))]
pub fn test_interfaces(configured: &[InterfaceConfig]) -> Result<(), Refusal>
    ensures { result ≡ interfaces_test configured.now }
{
    if configured.is_empty() || configured.len() > MOST_INTERFACES {
        return Err(Refusal::InterfaceCount);
    }
    if !are_unicast(configured) {
        return Err(Refusal::InterfaceAddress);
    }
    if !have_lengths(configured) {
        return Err(Refusal::InterfaceLength);
    }
    if !are_apart(configured) {
        return Err(Refusal::Overlap);
    }
    Ok(())
}

/// Whether the interfaces can announce their delays: a propagation delay has 15 bits, an override
/// interval 16.
#[tactic(auto, unfolding(crate::specs::Interfaces::delays_test, pim_model::specs::Limits::is_delay_config))]
pub fn test_delays(configured: &[InterfaceConfig]) -> Result<(), Refusal>
    ensures { result ≡ delays_test configured.now }
{
    for interface in configured {
        if interface.propagation_delay > 32767 || interface.override_interval > 65535 {
            return Err(Refusal::BadDelay);
        }
    }
    Ok(())
}

// The most own addresses of no interface.
const MOST_ADDRESSES: usize = 16;

/// Whether a router with these interfaces can have these own addresses beside: at most 16, each one that a host can have, in
/// the subnet of no interface, none twice.
#[tactic(auto, unfolding(pim_model::specs::Limits::are_own_addresses))]
pub fn are_own_addresses(configured: &[InterfaceConfig], addresses: &[Addr]) -> bool
    ensures { result ≡ are_own_addresses (record { interfaces = configured.now; addresses = addresses.now }) }
{
    addresses.len() <= MOST_ADDRESSES && are_beside(configured, addresses) && are_once(addresses)
}

// Whether each address is one that a host can have, in the subnet of no interface.
fn are_beside(configured: &[InterfaceConfig], addresses: &[Addr]) -> bool
    ensures { result ≡ list_all (is_apart configured.now) addresses.now }
{
    for address in addresses {
        if !address.is_unicast() || is_in_subnet(configured, *address) {
            return false;
        }
    }
    true
}

// Whether the address is in the subnet of an interface.
fn is_in_subnet(configured: &[InterfaceConfig], address: Addr) -> bool
    ensures { result ≡ is_in_subnet configured.now address.bits }
{
    for interface in configured {
        if subnet(*interface).contains(address) {
            return true;
        }
    }
    false
}

// Whether no address is listed twice.
fn are_once(addresses: &[Addr]) -> bool
    ensures { result ≡ are_once addresses.now }
{
    for (number, address) in addresses.iter().enumerate() {
        if is_listed(*address, &addresses[number + 1..]) {
            return false;
        }
    }
    true
}

// Whether the address is one of the others.
fn is_listed(address: Addr, others: &[Addr]) -> bool
    ensures { result ≡ list_any (λ other. address.bits == other.bits) others.now }
{
    for other in others {
        if address == *other {
            return true;
        }
    }
    false
}

// Whether each address is one that a host can have.
fn are_unicast(configured: &[InterfaceConfig]) -> bool
    ensures { result ≡ list_all (λ i. is_unicast i.address.bits) configured.now }
{
    for interface in configured {
        if !interface.address.is_unicast() {
            return false;
        }
    }
    true
}

// Whether each subnet's prefix has 1 to 31 bits.
fn have_lengths(configured: &[InterfaceConfig]) -> bool
    ensures { result ≡ list_all (λ i. is_between 1 31 i.length) configured.now }
{
    for interface in configured {
        if interface.length < 1 || interface.length > 31 {
            return false;
        }
    }
    true
}

// Whether no two subnets overlap.
fn are_apart(configured: &[InterfaceConfig]) -> bool
    ensures { result ≡ are_apart configured.now }
{
    for (number, interface) in configured.iter().enumerate() {
        if overlaps_any(*interface, &configured[number + 1..]) {
            return false;
        }
    }
    true
}

// Whether the subnet overlaps one of the others.
fn overlaps_any(interface: InterfaceConfig, others: &[InterfaceConfig]) -> bool
    ensures { result ≡ list_any (overlaps interface) others.now }
{
    for other in others {
        if overlaps(interface, *other) {
            return true;
        }
    }
    false
}

// Whether two subnets overlap: the one with the shorter prefix contains the other's address.
fn overlaps(a: InterfaceConfig, b: InterfaceConfig) -> bool
    ensures { result ≡ overlaps a b }
{
    subnet(a).contains(b.address) || subnet(b).contains(a.address)
}

// The subnet of an interface. The address in it is the router's own.
fn subnet(interface: InterfaceConfig) -> Prefix
    ensures { result ≡ subnet interface }
{
    Prefix {
        address: interface.address,
        length: interface.length,
    }
}
