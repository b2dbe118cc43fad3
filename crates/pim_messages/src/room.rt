//! Room for packets that is kept from event to event.
ghost use Rattle.std.specs.Prelude.{◌≡◌, [], IfOk};

use pim_types::Emission;
use std::alloc::{AllocError, Global};
use std::mem;

// The most buffers that are kept: as many as a data packet has copies, and a few more.
const MOST_BUFFERS: usize = 128;

// The most lists that are kept.
const MOST_LISTS: usize = 4;

/// The memory of packets that aren't needed any more, and of lists of them, into which other packets are written. No
/// clause speaks of what it holds: a packet is the same wherever its bytes are.
pub struct Room {
    pub alloc: Global,
    buffers: Vec<Vec<u8>>,
    lists: Vec<Vec<Emission>>,
}

// Written out, so that it is proved once (docs/PROOF_NOTES.md, Drops).
impl Drop for Room {
    fn drop(self) {
        let Room {
            alloc: _,
            buffers: _,
            lists: _,
        } = self;
    }
}

impl Room {
    /// No room; it takes no memory.
    pub fn new(alloc: Global) -> Room {
        Room {
            alloc,
            buffers: Vec::new(alloc),
            lists: Vec::new(alloc),
        }
    }

    /// The room with all that it holds; what stays behind is empty.
    pub fn taken(&mut self) -> Room {
        let alloc = self.alloc;
        mem::replace(self, Room::new(alloc))
    }

    /// An empty buffer: one that was given back, or a new one, which has taken no memory yet.
    pub fn buffer(&mut self) -> Vec<u8>
        ensures { result.items ≡ [] }
    {
        let Some(mut buffer) = self.buffers.pop() else {
            return Vec::new(self.alloc);
        };
        buffer.clear();
        buffer
    }

    /// An empty buffer with room for `length` bytes. The error is want of memory.
    pub fn buffer_for(&mut self, length: usize) -> Result<Vec<u8>, AllocError>
        ensures { IfOk result (λ buffer. buffer.items ≡ []) }
    {
        let mut buffer = self.buffer();
        buffer.reserve(length)?;
        Ok(buffer)
    }

    /// An empty list of packets: one that was given back, or a new one, which has taken no memory yet.
    pub fn list(&mut self) -> Vec<Emission>
        ensures { result.items ≡ [] }
    {
        let Some(mut list) = self.lists.pop() else {
            return Vec::new(self.alloc);
        };
        list.clear();
        list
    }

    /// An empty list with room for `length` packets. The error is want of memory.
    pub fn list_for(&mut self, length: usize) -> Result<Vec<Emission>, AllocError>
        ensures { IfOk result (λ list. list.items ≡ []) }
    {
        let mut list = self.list();
        list.reserve(length)?;
        Ok(list)
    }

    /// Takes a buffer back, unless there are many.
    pub fn give(&mut self, buffer: Vec<u8>) {
        if self.buffers.len() < MOST_BUFFERS {
            // Where the list of buffers can't grow, the buffer is freed.
            let _ = self.buffers.push(buffer);
        }
    }

    /// Takes a list back with the bytes of its packets, which are done with.
    pub fn take_back(&mut self, mut packets: Vec<Emission>) {
        while let Some(packet) = packets.pop() {
            self.give(bytes_of(packet));
        }
        if self.lists.len() < MOST_LISTS {
            let _ = self.lists.push(packets);
        }
    }
}

// The bytes of a packet.
fn bytes_of(packet: Emission) -> Vec<u8> {
    match packet {
        Emission::Link { bytes, .. } => bytes.into_vec(),
        Emission::Unicast { bytes, .. } => bytes.into_vec(),
    }
}
