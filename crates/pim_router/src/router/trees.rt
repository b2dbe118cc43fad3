//! What the router tells of its trees and its links.
ghost use Rattle.pim_shown.specs.Links.{link, neighbour_at};
ghost use Rattle.pim_shown.specs.TreeMacros.{source_tree, tree};
ghost use Rattle.std.specs.Prelude.{◌≡◌, option_and_then, option_map};

use super::Router;
use pim_shown::{Link, Neighbour, SourceTree, Tree};
use pim_types::{Addr, IfaceId, SourceGroup};

impl Router {
    /// The macros of (*,G) of any group, each evaluated anew in the present state. `None` where the router has failed.
    /// Takes no memory.
    pub fn tree(&self, group: Addr) -> Option<Tree>
        ensures { result ≡ option_map (λ r. tree r.state group.bits) self.now.standing }
    {
        if self.failed {
            return None;
        }
        let mut outside = self.probes.outside();
        Some(Tree::of(&self.core.world, group, &mut outside.meter))
    }

    /// The macros of (S,G) and of (S,G,rpt) of any source of any group, each evaluated anew in the present state.
    /// `None` where the router has failed. Takes no memory.
    pub fn source_tree(&self, name: SourceGroup) -> Option<SourceTree>
        ensures { result ≡ option_map (λ r. source_tree r.state name.group.bits name.source.bits) self.now.standing }
    {
        if self.failed {
            return None;
        }
        let mut outside = self.probes.outside();
        Some(SourceTree::of(&self.core.world, name, &mut outside.meter))
    }

    /// An interface with its DR and its querier. `None` where it isn't configured, and where the router has failed.
    /// Takes no memory.
    pub fn link(&self, iface: IfaceId) -> Option<Link>
        ensures { result ≡ option_and_then (λ r. link r.state iface.number) self.now.standing }
    {
        if self.failed {
            return None;
        }
        Link::of(&self.core.world, iface)
    }

    /// The neighbour with the address on the interface, with the options of its last Hello. `None` where there is none,
    /// and where the router has failed. Takes no memory.
    pub fn neighbour(&self, iface: IfaceId, address: Addr) -> Option<Neighbour>
        ensures { result ≡ option_and_then (λ r. neighbour_at r.state iface.number address.bits) self.now.standing }
    {
        if self.failed {
            return None;
        }
        Neighbour::of(&self.core.world, iface, address)
    }
}
