//! The ring of one channel.
ghost use Rattle.std.specs.Prelude.{◌≡◌, ◌+◌, ◌^◌, ◌<◌, ◌≤◌, List, [], ◌∷◌, ◌++◌, ◌↔◌, option_copied, IfOk, IfSome, IsSome};
ghost use Rattle.rams_model.specs.declared.Held.{Held};
ghost use Rattle.rams_model.specs.Packets.{lo, hi};
ghost use Rattle.channel_cache.specs.packet_ring.{empty_ring, pushed, let_go, packet_of, IsRing, StandsFor};

use circular_buffer::HeapCircularBuffer;
use ram_io::NoMemory;
use rams_model::Held;
use std::alloc::Global;
use std::marker::Model;

/// The last packets of a source. Each has the number after that of the packet before it, so a
/// packet is found by its number alone.
#[derive(Drop)]
pub struct Ring {
    packets: HeapCircularBuffer<Held>,
}

impl Model for Ring {
    ghost use Rattle.channel_cache.specs.packet_ring.{IsRing};
    ghost use Rattle.channel_cache.specs.packet_ring.Seen.{Seen};

    ghost Value = { Seen };

    ghost view = { λ r. record { capacity = r.packets.capacity; held = r.packets.items } };

    ghost invariant = { λ r. IsRing (record { capacity = r.packets.capacity; held = r.packets.items }) };
}

impl Ring {
    /// A ring that holds nothing. It takes the room of so many packets.
    pub fn new(alloc: Global, capacity: u32) -> Result<Ring, NoMemory>
        requires { 1 ≤ capacity }
        ensures value { IfOk result (λ ring. ring ≡ empty_ring capacity) }
        ensures stands { IfOk result (λ ring. StandsFor ring []) }
    {
        Ok(Ring {
            packets: HeapCircularBuffer::with_capacity(alloc, capacity as usize)?,
        })
    }

    /// Puts a packet behind the others, where its number is the next; the oldest goes where there
    /// is no room, and is handed out. Where its number is greater, all others go.
    pub fn push(&mut self, held: Held) -> Option<Held>
        requires above { hi self.old.held ≤ held.n }
        requires small { held.n < 2 ^ 62 }
        ensures step { self.new ≡ pushed self.old held }
        ensures gone { result ≡ let_go self.old held }
        ensures ring { IsRing self.new }
        // Whichever source the ring stood for, it stands for that with the packet at its end.
        ensures stands { (source : List Held) → StandsFor self.old source → StandsFor self.new (source ++ held ∷ []) }
    {
        if held.n != self.hi() {
            self.packets.clear();
        }
        self.packets.push_back(held)
    }

    /// The number of the oldest packet; 0 while nothing is held.
    pub fn lo(&self) -> u64
        ensures value { result ≡ lo self.now.held }
        ensures ring { IsRing self.now }
    {
        match self.packets.front() {
            Some(held) => held.n,
            None => 0,
        }
    }

    /// One above the number of the newest packet; 0 while nothing is held.
    pub fn hi(&self) -> u64
        ensures value { result ≡ hi self.now.held }
        ensures ring { IsRing self.now }
    {
        match self.packets.back() {
            Some(held) => held.n + 1,
            None => 0,
        }
    }

    /// The packet of a number; `None` exactly outside of [`lo`, `hi`).
    pub fn get(&self, n: u64) -> Option<&Held>
        ensures value { option_copied result ≡ packet_of n self.now.held }
        ensures number { IfSome result (λ held. held.now.n ≡ n) }
        ensures within { IsSome result ↔ ((lo self.now.held ≤ n) × (n < hi self.now.held)) }
    {
        let place = n.checked_sub(self.lo())?;
        self.packets.get(place as usize)
    }
}
