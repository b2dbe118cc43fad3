//! A group on an interface.
use pim_types::{Addr, IfaceId};

/// A group on an interface, by which what is known of its receivers is kept (RFC 3376, section 6.2).
#[derive(Clone, Copy)]
pub struct IfaceGroup {
    pub iface: IfaceId,
    pub group: Addr,
}
