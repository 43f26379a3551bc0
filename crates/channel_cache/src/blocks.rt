//! The memory of the packets that are held: blocks in which they stand one behind another.
ghost use Rattle.std.specs.Prelude.{◌≡◌, [], IfOk, OnOk};

use bytes::{Bytes, BytesMut};
use ram_io::NoMemory;
use rams_model::Held;
use std::alloc::Global;

/// Bytes of a block that has room for many packets.
const BLOCK: usize = 16 * 1024;

/// Blocks of memory. Packets that are kept one after another share a block, and the count of its owners. A
/// block is used again once the last of its packets is given back.
#[derive(Drop)]
pub struct Blocks {
    /// Room for the next packets, with no bytes in it.
    room: BytesMut,
    /// A block that all its packets left.
    spare: Option<BytesMut>,
    /// No block has room for more packets of the length of that for which it was taken.
    most_packets: usize,
}

impl Blocks {
    /// No blocks, for a ring of so many packets. It takes no memory.
    pub fn new(alloc: Global, ring: u32) -> Blocks {
        Blocks {
            room: BytesMut::new(alloc),
            spare: None,
            most_packets: ring as usize,
        }
    }

    /// A copy of a packet, in the block of the one before it where that has room.
    pub fn keep(&mut self, alloc: Global, packet: &[u8]) -> Result<Bytes, NoMemory>
        ensures { IfOk result (λ bytes. bytes ≡ packet.now) }
    {
        self.make_room(alloc, packet.len())?;
        self.room.extend_from_slice(packet)?;
        Ok(self.room.freeze_to(packet.len())?)
    }

    /// Room for so many bytes, with none in it.
    fn make_room(&mut self, alloc: Global, len: usize) -> Result<(), NoMemory>
        ensures { OnOk result (self.new.room.items ≡ []) }
    {
        if self.room.capacity() < len {
            self.room = self.next_block(alloc, len)?;
        }
        self.room.clear();
        Ok(())
    }

    /// A block with room for so many bytes, and most often for many packets.
    fn next_block(&mut self, alloc: Global, len: usize) -> Result<BytesMut, NoMemory> {
        match self.spare.take() {
            Some(block) if block.capacity() >= len => Ok(block),
            _ => {
                let size = len.saturating_mul(self.most_packets).min(BLOCK);
                Ok(BytesMut::with_capacity(alloc, size)?)
            }
        }
    }

    /// What the ring lets go is given back.
    pub fn give_back(&mut self, gone: Option<Held>) {
        if let Some(block) = gone.and_then(block_of) {
            self.spare = Some(block);
        }
    }
}

/// The block of a packet, with no bytes in it; none where others still read of it.
fn block_of(gone: Held) -> Option<BytesMut> {
    let mut block = gone.packet.reclaim()?;
    block.clear();
    Some(block)
}
