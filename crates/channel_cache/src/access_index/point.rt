//! An access point as it is kept, and what is asked of the points.
ghost use Rattle.std.specs.Prelude.{◌+◌, ◌^◌, ◌<◌};

use crate::access_index::Choice;

/// An access point.
#[derive(Clone, Copy)]
pub struct Point {
    pub n: u64,
    /// Its timestamp, counted from the index's edge.
    pub ts: u32,
    /// The wire sizes of all packets that were pushed before it.
    pub before: u64,
}

/// What is asked: the start at the newest point that leaves room and is old enough.
#[derive(Clone, Copy)]
pub struct Ask {
    /// Most bytes from the start on, with the declared ones.
    pub room: u64,
    pub declared: u64,
    /// The least and the greatest age.
    pub min_ms: u32,
    pub max_ms: Option<u32>,
    /// The timestamp of the last mark, counted as the points' are.
    pub last: u32,
    /// The wire sizes of all packets that were pushed.
    pub total: u64,
    ghost small: { total + declared < 2 ^ 64 },
}

impl Ask {
    ghost use Rattle.std.specs.Prelude.{◌≡◌, ◌-◌, ◌≤◌};
    ghost use Rattle.channel_cache.specs.access_index.{leaves_room, start_unless, shown};

    /// Whether a point leaves room.
    pub fn leaves_room(&self, point: &Point) -> bool
        requires { point.now.before ≤ self.now.total }
        ensures { result ≡ leaves_room self.now.room self.now.declared (shown self.now.total point.now) }
    {
        self.total - point.before + self.declared <= self.room
    }

    /// A start at a point of this age, where it isn't too old.
    pub fn start_at(&self, point: &Point, age: u32) -> Choice
        requires { point.now.before ≤ self.now.total }
        ensures { result ≡ start_unless self.now.max_ms age point.now.n (self.now.total - point.now.before) }
    {
        if self.max_ms.is_some_and(|most| most < age) {
            return Choice::MaxUnmet;
        }
        Choice::Start {
            n: point.n,
            behind: self.total - point.before,
        }
    }
}
