//! The index of one channel's access points.
ghost use Rattle.std.specs.Prelude.{◌≡◌, ◌+◌, ◌-◌, ◌*◌, ◌^◌, ◌<◌, ◌≤◌, List, [], ◌∷◌, ◌++◌, false, IfOk};
ghost use Rattle.rams_model.specs.declared.{Channel.Channel, Held.Held};
ghost use Rattle.rams_model.specs.Packets.{from_number, chosen};
ghost use Rattle.channel_cache.specs.access_index.{new_index, since, pushed, left_from, choice, StandsFor, choice_of};

use crate::access_index::Choice;
use crate::access_index::point::{Ask, Point};
use crate::access_index::points::Points;
use ram_io::NoMemory;
use std::alloc::Global;
use std::marker::Model;

/// The access points among the marks, which are the packets that were pushed and not dropped. The
/// numbers of the marks follow one another.
#[derive(Drop)]
pub struct Index {
    /// Most marks.
    capacity: u32,
    /// The number of the first mark, and one above that of the last.
    lo: u64,
    hi: u64,
    /// The timestamp of the last packet that was pushed.
    last: u32,
    /// Where the points' timestamps are counted from: half around from that of the interval's first
    /// packet, so that they compare as numbers for as long as they can.
    edge: u32,
    /// The wire sizes of all packets that were pushed.
    total: u64,
    points: Points,
}

impl Model for Index {
    ghost use Rattle.std.specs.Prelude.{◌^◌, ◌≤◌};
    ghost use Rattle.channel_cache.specs.access_index.Seen.{Seen};
    ghost use Rattle.channel_cache.specs.access_index.{seen_of, RiseIn, AreTimes};

    ghost Value = { Seen };

    ghost view = { λ i. seen_of i.edge i.capacity i.lo i.hi i.last i.total i.points.items };

    ghost invariant = { λ i. record {
      rise : RiseIn i.lo i.hi 0 i.total i.points.items;
      small : i.hi ≤ 2 ^ 62;
      few : i.total ≤ 2 ^ 60;
      room : i.capacity ≤ i.points.capacity;
      times : AreTimes i.points.items;
    } };
}

impl Index {
    /// An index with no marks. It takes room for `capacity` of them, so that no other call takes
    /// memory.
    pub fn new(alloc: Global, capacity: u32) -> Result<Index, NoMemory>
        requires some { 1 ≤ capacity }
        requires bounded { capacity ≤ 32768 }
        ensures value { IfOk result (λ index. index ≡ new_index capacity) }
        ensures stands { IfOk result (λ index. StandsFor index []) }
    {
        Ok(Index {
            capacity,
            lo: 0,
            hi: 0,
            last: 0,
            edge: 0,
            total: 0,
            points: Points::new(alloc, capacity as usize)?,
        })
    }

    /// Takes the next packet: its number, its timestamp in units of 1/90,000 s, its bytes on the wire, and
    /// whether it is an access point. Its number is one above the last mark's; where no mark is left it
    /// may be any.
    pub fn push(&mut self, n: u64, ts: u32, wire: u32, access: bool)
        requires room { self.old.hi - self.old.lo < self.old.capacity }
        requires next { self.old.lo < self.old.hi → n ≡ self.old.hi }
        requires small { n < 2 ^ 62 }
        requires few { self.old.total + wire ≤ 2 ^ 60 }
        ensures step { self.new ≡ pushed self.old n ts wire access }
        ensures stands { (marks : List Held) (h : Held) → h.n ≡ n → h.ts ≡ ts → h.wire ≡ wire → h.access ≡ access →
            StandsFor self.old marks → StandsFor self.new (marks ++ h ∷ []) }
    {
        // Where no mark is left, the interval begins anew.
        self.edge = edge_for(self.lo == self.hi, self.edge, ts);
        self.lo = if self.lo == self.hi { n } else { self.lo };
        if access {
            self.points.push(Point {
                n,
                ts: since(self.edge, ts),
                before: self.total,
            });
        }
        self.hi = n + 1;
        self.last = ts;
        self.total += u64::from(wire);
    }

    /// The marks below `lo` go, whether some are left or none. It takes as long as access points go.
    pub fn drop_below(&mut self, lo: u64)
        ensures step { self.new ≡ left_from self.old lo }
        ensures stands { (marks : List Held) → StandsFor self.old marks → StandsFor self.new (from_number lo marks) }
    {
        self.points.drop_below(lo);
        self.lo = self.lo.max(lo).min(self.hi);
    }

    /// Chooses the newest access point that leaves room and is at least `min_ms` old, unless it is older
    /// than `max_ms`. An access point leaves room where the wire sizes from it on, with the `declared`
    /// bytes, are at most `room`. Its age is the time, in ms, from its timestamp to the last mark's;
    /// timestamps go around at 2^32 (RFC 3550, 5.1).
    pub fn choose(&self, room: u64, declared: u64, min_ms: u32, max_ms: Option<u32>) -> Choice
        requires { declared ≤ 10 ^ 9 }
        ensures value { result ≡ choice self.now room declared min_ms max_ms }
        ensures stands { (c : Channel) (marks : List Held) → c.ring * c.minwire ≡ room → c.declared ≡ declared → StandsFor self.now marks →
            result ≡ choice_of marks (chosen c marks min_ms max_ms) }
    {
        self.points.choose(&Ask {
            room,
            declared,
            min_ms,
            max_ms,
            last: since(self.edge, self.last),
            total: self.total,
        })
    }
}

// How far a timestamp is behind an edge (modulo 2^32; RFC 3550, 5.1).
fn since(edge: u32, ts: u32) -> u32
    ensures { result ≡ since edge ts }
{
    ts.wrapping_sub(edge)
}

// The edge once a packet came: where it is the interval's first, half around from its timestamp.
fn edge_for(is_first: bool, edge: u32, ts: u32) -> u32
    ensures { is_first ≡ false → result ≡ edge }
{
    if is_first {
        ts.wrapping_add(1 << 31)
    } else {
        edge
    }
}
