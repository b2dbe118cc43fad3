//! What `pimlab` does: it reads scenarios, plays them over a network of routers, and prints what comes of them.
#![tactic(auto)]

mod front;
mod kept;
mod lab;
mod learned;
mod nodes;
pub mod playing;
pub mod saved;
mod shared;

pub use pim_net::{MemoryWire, Move, Net, NetLog, Node, UdpWire, Wire};
pub use pim_scenario::{
    Answer, Command, Complaint, ConfigText, Link, RouterText, Scenario, ScenarioMove, Tables,
    WireKind, Words, fault, load, read_scenario, read_words, refused,
};
pub use playing::{check_text, play, play_with};
pub use saved::{Begin, States, play_saved};
