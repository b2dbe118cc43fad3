//! What is known of the source of a Register before it is taken.
ghost use Rattle.pim_event.specs.AtRp.{IsKnown};
ghost use Rattle.pim_mfc.specs.Laws.{ShowsRows};
ghost use Rattle.pim_model.specs.Cache.{cached};
ghost use Rattle.pim_model.specs.Sets.{is_kept_alive};
ghost use Rattle.pim_model.specs.Unicast.{is_rp};
ghost use Rattle.pim_wire.specs.RegisterParts.{registered_group, registered_source};
ghost use Rattle.std.specs.Prelude.{◌≡◌, ◌&&◌, IfSome, true};

use crate::rendezvous::{SourceAtRp, registered};
use pim_ip::Ipv4View;
use pim_mfc::Mfc;
use pim_state::World;
use pim_trie::Meter;
use pim_types::SourceGroup;
use pim_wire::RegisterView;

// Whether the keepalive timer of the source runs.
#[tactic(auto, unfolding(pim_model::specs::Sets::is_kept_alive))]
fn is_kept_alive(world: &World, name: SourceGroup) -> bool
    ensures { result ≡ is_kept_alive world.now name.group.bits name.source.bits }
{
    match world.store().source(name.key()) {
        Some(row) => row.keepalive.is_some(),
        None => false,
    }
}

// Whether a Register of the source came to the RP of its group, and the keepalive timer of the source runs.
fn is_known(world: &World, meter: &mut Meter, packet: &Ipv4View<'_>, name: SourceGroup) -> bool
    ensures { result ≡ (is_kept_alive world.now name.group.bits name.source.bits
        && is_rp world.now name.group.bits packet.now.destination) }
{
    is_kept_alive(world, name) && world.is_rp(name.group, packet.destination(), meter)
}

/// What the row of its source tells of a Register, if that came to the RP of its group and the keepalive timer of the
/// source runs. The meter rises by the nodes visited.
pub(crate) fn known_source(
    world: &World,
    rows: &Mfc,
    meter: &mut Meter,
    packet: &Ipv4View<'_>,
    register: &RegisterView<'_>,
) -> Option<SourceAtRp>
    requires { ShowsRows rows.now.rows (cached world.now) }
    ensures known { IfSome result (IsKnown world.now packet.now register.now) }
    ensures kept { IfSome result (λ source.
        is_kept_alive world.now (registered_group register.now) (registered_source register.now) ≡ true) }
{
    let name = registered(register);
    if let Some(row) = rows.kept(name, meter) {
        if is_known(world, meter, packet, name) {
            return Some(SourceAtRp::of_row(world, &row));
        }
    }
    None
}
