//! The name of a source of a group.
ghost use Rattle.std.specs.Prelude.{◌≡◌};
ghost use Rattle.pim_types.specs.Keys.{rpt_key, source_key};

use crate::config::IfaceId;
use crate::fact::Key;
use pim_ip::Addr;

/// A source of a group, (S,G).
#[derive(Clone, Copy)]
pub struct SourceGroup {
    pub source: Addr,
    pub group: Addr,
}

impl SourceGroup {
    /// The key of (S,G) of the whole router.
    pub fn key(self) -> Key
        ensures { result ≡ source_key 0 self.group.bits self.source.bits }
    {
        Key::source(IfaceId::NONE, self.group, self.source)
    }

    /// The key of (S,G,rpt) of the whole router.
    pub fn rpt_key(self) -> Key
        ensures { result ≡ rpt_key 0 self.group.bits self.source.bits }
    {
        Key::source_rpt(IfaceId::NONE, self.group, self.source)
    }
}
