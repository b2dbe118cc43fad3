//! The core: what an event may change, as one value.

use crate::replaced::Replaced;
use pim_fanout::Cache;
use pim_messages::Room;
use pim_state::World;

/// What an event may change: all facts, what is made of them, and the memory of packets.
#[derive(Drop)]
pub struct Core {
    /// The memory in which packets that leave are written.
    pub room: Room,
    /// All facts.
    pub world: World,
    /// The forwarding cache: a row for each source with a fact.
    pub cache: Cache,
    /// The routes or RP ranges that the last event replaced.
    pub replaced: Replaced,
}
