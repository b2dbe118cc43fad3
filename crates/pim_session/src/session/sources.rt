//! What MSDP (RFC 3618) beside the session asks of its router.
ghost use Rattle.pim_msdp.specs.Actives.{given_active};
ghost use Rattle.pim_msdp.specs.Own.{is_own_source, registered};
ghost use Rattle.pim_router.specs.Stepped.{Faults};
ghost use Rattle.std.specs.Option.{option_map_or};
ghost use Rattle.std.specs.Prelude.{◌≡◌, [], IfOk, IfSome, false, option_and_then, unwrap_or};

use super::Session;
use crate::sources;
use pim_msdp::SourceActive;
use pim_types::{Fault, SourceGroup};
use std::alloc::Global;

impl Session {
    /// The packet in which the router is to be given an SA, by `step` as one that came by unicast, as `pim_msdp` says; no
    /// bytes where the source is on a link of the router's. The fault of a session that hasn't failed is want of memory.
    pub fn source_active(&self, alloc: Global, told: &SourceActive<'_>) -> Result<Vec<u8>, Fault>
        ensures given { IfSome self.now.router.standing (λ r. IfOk result (λ bytes. bytes.items ≡ unwrap_or
            (given_active r.state told.now.peer.bits told.now.rp.bits told.now.name.group.bits told.now.name.source.bits
            told.now.packet.now) [])) }
        ensures faults { Faults result self.now.router.standing }
    {
        if self.is_lost {
            return Err(Fault::Failed);
        }
        let bytes = sources::source_active(alloc, &self.router, told)?;
        Ok(bytes)
    }

    /// The source that a packet by unicast registers with the router, if a DR sent it, as `pim_msdp::registered` says; `None`
    /// after a fault.
    pub fn registered(&self, bytes: &[u8]) -> Option<SourceGroup>
        ensures { result ≡ option_and_then (λ r. registered self.now.sets r.state.configured r.state.ranges bytes.now)
            self.now.router.standing }
    {
        if self.is_lost {
            return None;
        }
        sources::registered(&self.router, &self.anycast, bytes)
    }

    /// Whether a source is on a link of which the router is the DR, sends, and has the router as the RP of its group; false
    /// after a fault.
    pub fn is_own_source(&self, name: SourceGroup) -> bool
        ensures { result ≡ option_map_or (λ r. is_own_source r.state name.group.bits name.source.bits)
            self.now.router.standing false }
    {
        if self.is_lost {
            return false;
        }
        sources::is_own_source(&self.router, name)
    }
}
