//! The parts of a router in a network.
ghost use Rattle.std.specs.Prelude.{◌≡◌};
ghost use Rattle.pim_model.specs.Network.{is_node};
ghost use Rattle.pim_net.specs.Showing.{node_of};

use pim_types::{Config, Series};

/// A router of a network.
#[derive(Drop)]
pub struct Node {
    pub config: Config,
    /// The link of each interface, by the interface's number. Interfaces with the same link are neighbours.
    pub links: Series<u32>,
}

/// Another configuration of a router of a network.
#[derive(Drop)]
pub struct Renewal {
    /// The configuration, with the links.
    pub node: Node,
    /// Of each interface of the router, by its number, the number of the node's that has its link, or none. It is empty
    /// where interfaces keep their numbers.
    pub places: Series<Option<u32>>,
}

impl Node {
    /// Whether there is a link for each interface.
    pub fn is_linked(&self) -> bool
        ensures { result ≡ is_node (node_of self.now) }
    {
        self.links.len() == self.config.interfaces.len()
    }
}
