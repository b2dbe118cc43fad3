//! The functions that C calls for MSDP (RFC 3618) beside a router.
ghost use Rattle.pim_c.specs.Called.{standing_in};
ghost use Rattle.pim_c.specs.Sources.{ActiveWritten, active_of, is_own_source_in, registered_in, registered_name};
ghost use Rattle.pim_c.specs.Written.{ValueWritten};
ghost use Rattle.std.specs.Prelude.{◌≡◌};

use crate::handle::Handle;
use crate::returned::{self, DONE, NO_ROUTER, NamedSource};
use pim_msdp::SourceActive;
use pim_types::{Addr, SourceGroup};
use std::alloc::Global;

/// A Source-Active message of one source, with the router's own RP address.
#[repr(C)]
#[derive(Drop)]
pub struct GivenActive<'a> {
    pub peer: u32,
    pub rp: u32,
    pub source: u32,
    pub group: u32,
    /// The packet that it encapsulates; empty where it has none.
    pub packet: &'a [u8],
}

// A Source-Active message that C gives.
fn active<'a>(given: &GivenActive<'a>) -> SourceActive<'a>
    ensures { result ≡ active_of given.now }
{
    SourceActive {
        peer: Addr { bits: given.peer },
        rp: Addr { bits: given.rp },
        name: SourceGroup {
            source: Addr { bits: given.source },
            group: Addr { bits: given.group },
        },
        packet: given.packet,
    }
}

/// The packet in which a router is to be given a Source-Active message: as many of its bytes as the buffer holds are written
/// into it, and how many there are, 0 where it is to be given nothing.
#[unsafe(no_mangle)]
pub extern "C" fn viq_core_source_active(
    alloc: Global,
    router: &mut Handle,
    told: &GivenActive<'_>,
    room: &mut [u8],
    size: &mut usize,
) -> u32
    ensures written { ActiveWritten router.old.place.inside told.now result size.old size.new room.old room.new }
    ensures stays { router.new.place.inside ≡ router.old.place.inside }
{
    let Some(session) = router.take(alloc) else {
        return NO_ROUTER;
    };
    let given = session.source_active(alloc, &active(told));
    router.put(session);
    match given {
        Ok(bytes) => {
            *size = bytes.len();
            returned::write(room, bytes.as_slice());
            DONE
        }
        Err(fault) => u32::from(fault.number()),
    }
}

/// The source that a packet by unicast registers with a router, if a DR sent it. False where it registers none.
#[unsafe(no_mangle)]
pub extern "C" fn viq_core_registered(
    alloc: Global,
    router: &mut Handle,
    packet: &[u8],
    name: &mut NamedSource,
) -> bool
    ensures written { ValueWritten registered_name (registered_in router.old.place.inside packet.now) result name.old name.new }
    ensures stays { router.new.place.inside ≡ router.old.place.inside }
{
    let Some(session) = router.take(alloc) else {
        return false;
    };
    let registered = session.registered(packet);
    router.put(session);
    match registered {
        Some(found) => {
            *name = returned::named(&found);
            true
        }
        None => false,
    }
}

/// Whether a source is one of which a router tells its peers for a link of its own.
#[unsafe(no_mangle)]
pub extern "C" fn viq_core_own_source(
    alloc: Global,
    router: &mut Handle,
    source: u32,
    group: u32,
) -> bool
    ensures own { result ≡ is_own_source_in (standing_in router.old.place.inside) source group }
    ensures stays { router.new.place.inside ≡ router.old.place.inside }
{
    let source = Addr { bits: source };
    let group = Addr { bits: group };
    let Some(session) = router.take(alloc) else {
        return false;
    };
    let is_own = session.is_own_source(SourceGroup { source, group });
    router.put(session);
    is_own
}
