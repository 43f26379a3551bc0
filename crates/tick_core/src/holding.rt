//! What a channel holds, as a pass over its pending repairs asks for it.
ghost use Rattle.std.specs.Prelude.{◌≡◌, ◌≤◌, true, length, take, drop, is_some, option_copied};
ghost use Rattle.channel_cache.specs.packet_ring.{packet_of};
ghost use Rattle.rams_model.specs.Laws.{AreAtLeast};
ghost use Rattle.tick_core.specs.{AreHeld, IsGone};

use channel_cache::Cache;
use rams_model::Held;
use repair_queue::{Piece, Wanted};
use std::marker::Model;

// So many repairs are looked at together.
const BLOCK: usize = 8;

/// The packets that a cache holds. What it says of all of them was asked once.
#[derive(Drop)]
pub struct Holding<'a> {
    cache: &'a Cache,
    /// The numbers from this on and below `end` are held.
    oldest: u64,
    end: u64,
    /// No packet takes less on the wire.
    least: u64,
}

impl<'a> Model for Holding<'a> {
    ghost use Rattle.std.specs.Prelude.{◌≡◌, List};
    ghost use Rattle.rams_model.specs.declared.Held.{Held};
    ghost use Rattle.rams_model.specs.Packets.{lo, hi};
    ghost use Rattle.channel_cache.specs.packet_ring.{IsRing};
    ghost use Rattle.rams_model.specs.Laws.{AreAtLeast};
    ghost use Rattle.channel_cache.specs.{ring_of};

    ghost Value = { List Held };

    ghost view = { λ h. h.cache.now.held };

    ghost invariant = { λ h. record {
      ring : IsRing (ring_of h.cache.now);
      low : h.oldest ≡ lo h.cache.now.held;
      high : h.end ≡ hi h.cache.now.held;
      large : AreAtLeast h.least h.cache.now.held;
    } };
}

impl<'a> Holding<'a> {
    /// What the cache holds.
    pub fn new(cache: &'a Cache) -> Holding<'a>
        ensures { result ≡ cache.now.held }
    {
        Holding {
            cache,
            oldest: cache.lo(),
            end: cache.hi(),
            least: u64::from(cache.least_wire()),
        }
    }

    /// A size on the wire, in bytes, than which no packet is smaller.
    pub fn least_wire(&self) -> u64
        ensures { AreAtLeast result self.now }
    {
        self.least
    }

    /// The packet of a number.
    pub fn get(&self, n: u64) -> Option<&Held>
        ensures { option_copied result ≡ packet_of n self.now }
    {
        self.cache.held(n)
    }

    /// Whether the packet of a number is held.
    pub fn has(&self, n: u64) -> bool
        ensures { result ≡ is_some (packet_of n self.now) }
    {
        self.oldest <= n && n < self.end
    }

    /// How many of these repairs, from the first on, have their packets held.
    pub fn held_front(&self, pending: &[Wanted]) -> usize
        ensures within { result ≤ length pending.now }
        ensures held { AreHeld self.now (take result pending.now) }
        ensures gone { IsGone self.now (drop result pending.now) }
    {
        let start = self.held_blocks(pending);
        start + self.held_each(&pending[start..])
    }

    /// How many repairs are in the first whole blocks of these of which all packets are held.
    fn held_blocks(&self, pending: &[Wanted]) -> usize
        ensures within { result ≤ length pending.now }
        ensures held { AreHeld self.now (take result pending.now) }
    {
        let mut start = 0;
        while pending.len() - start >= BLOCK {
            let end = start + BLOCK;
            if !self.has_each(&pending[start..end]) {
                return start;
            }
            start = end;
        }
        start
    }

    /// Whether the packets of all of these repairs are held.
    fn has_each(&self, pending: &[Wanted]) -> bool
        ensures { result ≡ true → AreHeld self.now pending.now }
    {
        for wanted in pending {
            if !self.has(wanted.n) {
                return false;
            }
        }
        true
    }

    /// How many of these repairs, from the first on, have their packets held, by a walk.
    fn held_each(&self, pending: &[Wanted]) -> usize
        ensures within { result ≤ length pending.now }
        ensures held { AreHeld self.now (take result pending.now) }
        ensures gone { IsGone self.now (drop result pending.now) }
    {
        let mut count = 0;
        for wanted in pending {
            if !self.has(wanted.n) {
                return count;
            }
            count += 1;
        }
        count
    }

    /// Whether the packets of all repairs of a piece are held. It looks at none of them, and may say no
    /// although they are.
    pub fn has_all(&self, piece: &Piece) -> bool
        ensures { result ≡ true → AreHeld self.now piece.now }
    {
        piece.are_from(self.oldest, self.end)
    }
}
