//! What is handed on while an event is taken.
ghost use Rattle.std.specs.Prelude.{◌≡◌, []};

use pim_messages::{Outbox, Room};
use std::alloc::Global;
use std::marker::Model;

/// The turn of an event: its draw, the messages that it has sent so far, and the memory into which packets are written.
#[derive(Drop)]
pub struct Turn {
    pub alloc: Global,
    pub draw: u32,
    pub out: Outbox,
    pub room: Room,
}

impl Model for Turn {
    ghost use Rattle.pim_state.specs.Turns.{Taking};

    ghost Value = { Taking };

    ghost view = { λ t. record { draw = t.draw; messages = t.out } };
}

impl Turn {
    /// A turn that has sent nothing yet.
    pub fn new(room: Room, draw: u32) -> Turn
        ensures { result ≡ record { draw = draw; messages = [] } }
    {
        let alloc = room.alloc;
        Turn {
            alloc,
            draw,
            out: Outbox::new(alloc),
            room,
        }
    }
}
