//! What the session's router tells of its trees and its links.
ghost use Rattle.pim_shown.specs.Links.{link, neighbour_at};
ghost use Rattle.pim_shown.specs.TreeMacros.{source_tree, tree};
ghost use Rattle.std.specs.Prelude.{◌≡◌, option_and_then, option_map};

use super::Session;
use pim_router::{Link, Neighbour, SourceTree, Tree};
use pim_types::{Addr, IfaceId, SourceGroup};

impl Session {
    /// The macros of (*,G), as `Router::tree` returns them; `None` after a fault.
    pub fn tree(&self, group: Addr) -> Option<Tree>
        ensures { result ≡ option_map (λ r. tree r.state group.bits) self.now.router.standing }
    {
        if self.is_lost {
            return None;
        }
        self.router.tree(group)
    }

    /// The macros of (S,G) and of (S,G,rpt), as `Router::source_tree` returns them; `None` after a fault.
    pub fn source_tree(&self, name: SourceGroup) -> Option<SourceTree>
        ensures { result
            ≡ option_map (λ r. source_tree r.state name.group.bits name.source.bits) self.now.router.standing }
    {
        if self.is_lost {
            return None;
        }
        self.router.source_tree(name)
    }

    /// An interface with its DR and its querier, as `Router::link` returns it; `None` after a fault.
    pub fn link(&self, iface: IfaceId) -> Option<Link>
        ensures { result ≡ option_and_then (λ r. link r.state iface.number) self.now.router.standing }
    {
        if self.is_lost {
            return None;
        }
        self.router.link(iface)
    }

    /// A neighbour with its options, as `Router::neighbour` returns it; `None` after a fault.
    pub fn neighbour(&self, iface: IfaceId, address: Addr) -> Option<Neighbour>
        ensures { result
            ≡ option_and_then (λ r. neighbour_at r.state iface.number address.bits) self.now.router.standing }
    {
        if self.is_lost {
            return None;
        }
        self.router.neighbour(iface, address)
    }
}
