//! The limit on facts, where a packet or a Register may make a source's.
ghost use Rattle.std.specs.Prelude.{◌≡◌, ◌&&◌};
ghost use Rattle.pim_wire.specs.RegisterParts.{registered_group, registered_source};
ghost use Rattle.pim_model.specs.Full.{source_is_full};
ghost use Rattle.pim_model.specs.Unicast.{is_rp};

use pim_ip::Ipv4View;
use pim_state::{Meter, World};
use pim_types::SourceGroup;
use pim_wire::RegisterView;

/// Whether the row that a source may get passes the limit on facts. It isn't looked up where there is room for one.
pub fn source_is_full(world: &World, name: SourceGroup) -> bool
    ensures { result ≡ source_is_full world.now name.group.bits name.source.bits }
{
    world.passes_limit(1) && world.store().source(name.key()).is_none()
}

// The source whose packet a Register has.
fn registered(register: &RegisterView<'_>) -> SourceGroup
    ensures group { result.group.bits ≡ registered_group register.now }
    ensures source { result.source.bits ≡ registered_source register.now }
{
    SourceGroup {
        source: register.source(),
        group: register.group(),
    }
}

/// Whether the row that a Register may make passes it: at another router than the RP a Register makes none. The meter
/// rises by the nodes visited.
pub fn is_full(
    world: &World,
    meter: &mut Meter,
    packet: &Ipv4View<'_>,
    register: &RegisterView<'_>,
) -> bool
    ensures { result ≡ (is_rp world.now (registered_group register.now) packet.now.destination
        && source_is_full world.now (registered_group register.now) (registered_source register.now)) }
{
    let name = registered(register);
    world.is_rp(name.group, packet.destination(), meter) && source_is_full(world, name)
}
