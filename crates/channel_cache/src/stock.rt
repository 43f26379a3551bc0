//! The packets that a channel holds, with the access points among them.
ghost use Rattle.std.specs.Prelude.{◌≡◌, ◌+◌, ◌^◌, ◌<◌, ◌≤◌, ◌↔◌, List, [], ◌∷◌, ◌++◌, option_copied, IfOk, IfSome, IsSome};
ghost use Rattle.rams_model.specs.declared.Held.{Held};
ghost use Rattle.rams_model.specs.Formats.{stripped};
ghost use Rattle.rams_model.specs.Packets.{chosen, lo, hi};
ghost use Rattle.channel_cache.specs.packet_ring.{packet_of, IsRing, StandsFor};
ghost use Rattle.channel_cache.specs.access_index.{choice_of};
ghost use Rattle.channel_cache.specs.Stocked.{empty_stock, stocked};
ghost use Rattle.rams_model.specs.Laws.{AreAtLeast};
ghost use Rattle.channel_cache.specs.{IsWhole};

use crate::access_index::{Choice, Index};
use crate::blocks::Blocks;
use crate::packet_ring::Ring;
use bytes::Bytes;
use channel_config::Channel;
use ram_io::NoMemory;
use rams_model::{Held, MOST_ON_WIRE};
use reckoning::ext_seq::SEQUENCE_NUMBERS;
use std::alloc::Global;
use std::marker::Model;
use wire_packets::rtp_record::Rtp;

/// The last packets of the source. The marks of the index are the packets of the ring.
#[derive(Drop)]
pub struct Stock {
    ring: Ring,
    index: Index,
    // None of the packets is smaller on the wire.
    least_wire: u32,
    // The memory of the packets.
    blocks: Blocks,
}

impl Model for Stock {
    ghost use Rattle.channel_cache.specs.Stocked.{Seen, IsStock};

    ghost Value = { Seen };

    ghost view = { λ s. record { ring = s.ring; total = s.index.total } };

    ghost invariant = { λ s. IsStock s.ring s.index s.least_wire };
}

impl Stock {
    /// A stock that holds nothing. It takes room for so many packets.
    pub fn new(alloc: Global, capacity: u32) -> Result<Stock, NoMemory>
        requires some { 1 ≤ capacity }
        requires bounded { capacity ≤ 32768 }
        ensures value { IfOk result (λ stock. stock ≡ empty_stock capacity) }
    {
        Ok(Stock {
            ring: Ring::new(alloc, capacity)?,
            index: Index::new(alloc, capacity)?,
            least_wire: u32::MAX,
            blocks: Blocks::new(alloc, capacity),
        })
    }

    /// Puts a packet behind the others. What the ring lets go for it, the index lets go too.
    #[inline(always)]
    pub fn push(&mut self, held: Held)
        requires above { hi self.old.ring.held ≤ held.n }
        requires small { held.n < 2 ^ 62 }
        requires whole { IsWhole held }
        requires few { self.old.total + held.wire ≤ 2 ^ 60 }
        ensures step { self.new ≡ stocked self.old held }
        ensures ring { IsRing self.new.ring }
        ensures stands { (source : List Held) → StandsFor self.old.ring source → StandsFor self.new.ring (source ++ held ∷ []) }
    {
        let (n, ts, wire, access) = (held.n, held.ts, held.wire, held.access);
        self.blocks.give_back(self.ring.push(held));
        self.index.drop_below(self.ring.lo());
        self.index.push(n, ts, wire, access);
        self.least_wire = self.least_wire.min(wire);
    }

    /// The packet without its padding, in memory: one that comes in its turn behind the one before it, in a block
    /// that they share; any other in memory of its own, since it may go before its neighbours.
    pub fn keep(&mut self, alloc: Global, packet: &Rtp<'_>) -> Result<Bytes, NoMemory>
        ensures kept { IfOk result (λ bytes. bytes ≡ stripped packet.now) }
        ensures same { self.new ≡ self.old }
    {
        match packet.bare() {
            Some(bytes) if self.is_awaited(packet.sequence()) => self.blocks.keep(alloc, bytes),
            _ => Ok(Bytes::from_vec(packet.strip(alloc)?)?),
        }
    }

    // Whether the next packet in order has this sequence number.
    fn is_awaited(&self, sequence: u16) -> bool {
        self.ring.hi() % SEQUENCE_NUMBERS == u64::from(sequence)
    }

    /// The number of the oldest packet; 0 while nothing is held.
    pub fn lo(&self) -> u64
        ensures value { result ≡ lo self.now.ring.held }
        ensures ring { IsRing self.now.ring }
    {
        self.ring.lo()
    }

    /// One above the number of the newest packet; 0 while nothing is held.
    pub fn hi(&self) -> u64
        ensures value { result ≡ hi self.now.ring.held }
        ensures ring { IsRing self.now.ring }
    {
        self.ring.hi()
    }

    /// A size on the wire than which no packet is smaller: that of the smallest that ever came.
    pub fn least_wire(&self) -> u32
        ensures { AreAtLeast result self.now.ring.held }
    {
        self.least_wire
    }

    /// The packet of a number; `None` exactly outside of [`lo`, `hi`).
    pub fn get(&self, n: u64) -> Option<&Held>
        ensures value { option_copied result ≡ packet_of n self.now.ring.held }
        ensures number { IfSome result (λ held. held.now.n ≡ n) }
        ensures within { IsSome result ↔ ((lo self.now.ring.held ≤ n) × (n < hi self.now.ring.held)) }
        ensures whole { IfSome result (λ held. IsWhole held.now) }
    {
        self.ring.get(n)
    }

    /// Where a burst of the channel may begin.
    pub fn choose(&self, channel: &Channel, min_ms: u32, max_ms: Option<u32>) -> Choice
        requires ring { channel.now.ring ≤ 32768 }
        requires minwire { channel.now.minwire ≤ MOST_ON_WIRE }
        requires declared { channel.now.declared ≤ 1000000000 }
        ensures { result ≡ choice_of self.now.ring.held (chosen channel.now self.now.ring.held min_ms max_ms) }
    {
        let room = u64::from(channel.ring) * channel.minwire;
        self.index.choose(room, channel.declared, min_ms, max_ms)
    }
}
