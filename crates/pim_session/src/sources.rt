//! What MSDP (RFC 3618) beside a router asks of it.
ghost use Rattle.pim_msdp.specs.Actives.{given_active, is_connected};
ghost use Rattle.pim_msdp.specs.Own.{is_own_source, registered};
ghost use Rattle.std.specs.Option.{option_map_or};
ghost use Rattle.std.specs.Prelude.{◌≡◌, [], IfOk, IfSome, false, option_and_then, unwrap_or};

use crate::asked::Asked;
use pim_anycast::Anycast;
use pim_msdp::SourceActive;
use pim_router::{Router, SourceTree};
use pim_types::SourceGroup;
use std::alloc::{AllocError, Global};

// Whether the route to the source of a tree is over a link that it is on.
fn has_connected_path(tree: Option<SourceTree>) -> bool
    ensures { result ≡ option_map_or (λ t. option_map_or (λ p. p.is_connected) t.path false) tree false }
{
    match tree {
        Some(tree) => match tree.path {
            Some(path) => path.is_connected,
            None => false,
        },
        None => false,
    }
}

// Whether a source is on a link of the router's.
fn is_connected(router: &Router, name: SourceGroup) -> bool
    ensures { result ≡ option_map_or (λ r. is_connected r.state name.source.bits) router.now.standing false }
{
    has_connected_path(router.source_tree(name))
}

/// The packet in which a router is to be given an SA; no bytes where it is to be given nothing. An `Err` is want of memory.
pub(crate) fn source_active(
    alloc: Global,
    router: &Router,
    told: &SourceActive<'_>,
) -> Result<Vec<u8>, AllocError>
    ensures { IfSome router.now.standing (λ r. IfOk result (λ bytes. bytes.items ≡ unwrap_or
        (given_active r.state told.now.peer.bits told.now.rp.bits told.now.name.group.bits told.now.name.source.bits
        told.now.packet.now) [])) }
{
    if is_connected(router, told.name) {
        return Ok(Vec::new(alloc));
    }
    let packet = pim_msdp::active_packet(alloc, told)?;
    Ok(packet)
}

/// The source that a packet by unicast registers with a router, if a DR sent it.
pub(crate) fn registered(router: &Router, anycast: &Anycast, bytes: &[u8]) -> Option<SourceGroup>
    ensures { result ≡ option_and_then (λ r. registered anycast.now r.state.configured r.state.ranges bytes.now)
        router.now.standing }
{
    pim_msdp::registered(anycast.sets(), &Asked::of(router), bytes)
}

/// Whether a source is on a link of which the router is the DR, sends, and has the router as the RP of its group.
pub(crate) fn is_own_source(router: &Router, name: SourceGroup) -> bool
    ensures { result ≡ option_map_or (λ r. is_own_source r.state name.group.bits name.source.bits)
        router.now.standing false }
{
    pim_msdp::is_own_source(&Asked::of(router), name)
}
