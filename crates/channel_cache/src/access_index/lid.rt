//! Timestamps that none of the newest points is above.
ghost use Rattle.std.specs.Prelude.{◌≡◌, ◌++◌, [], ◌∷◌, List, length, true};
ghost use Rattle.channel_cache.specs.access_index.{IsLid, AreLids, AreAtMost};
ghost use Rattle.channel_cache.specs.declared.access_index.point.Point.{Point};

/// A timestamp, and of how many points, the newest, none has one above it.
#[derive(Clone, Copy)]
struct Lid {
    most: u32,
    run: usize,
}

impl Lid {
    // The lid of the newest point alone.
    fn of(ts: u32) -> Lid
        ensures none { IsLid result [] }
        ensures one { (points : List Point) (p : Point) → p.ts ≡ ts → IsLid result (points ++ p ∷ []) }
    {
        Lid { most: ts, run: 1 }
    }

    // The lid once a point with this timestamp is behind the others.
    fn with(self, ts: u32) -> Lid
        ensures { (points : List Point) (p : Point) → p.ts ≡ ts → IsLid self points → IsLid result (points ++ p ∷ []) }
    {
        Lid {
            most: self.most.max(ts),
            run: self.run.saturating_add(1),
        }
    }
}

/// Two lids. The second, of fewer points, takes the first one's place once it is over all of them, so that a point
/// counts no longer some time after it has gone.
#[derive(Clone, Copy)]
pub struct Lids {
    first: Lid,
    second: Lid,
}

impl Lids {
    /// The lids of no points.
    pub fn new() -> Lids
        ensures { AreLids result [] }
    {
        Lids {
            first: Lid::of(0),
            second: Lid::of(0),
        }
    }

    /// The lids once a point with this timestamp is behind `count` others.
    pub fn with(self, ts: u32, count: usize) -> Lids
        ensures { (points : List Point) (p : Point) → p.ts ≡ ts → AreLids self points → AreLids result (points ++ p ∷ []) }
    {
        let second = self.second.with(ts);
        if second.run > count {
            return Lids {
                first: second,
                second: Lid::of(ts),
            };
        }
        Lids {
            first: self.first.with(ts),
            second,
        }
    }

    /// Whether so many points are all that there are, and none is above a timestamp.
    pub fn are_over(self, count: usize, last: u32) -> bool
        ensures { result ≡ true → (points : List Point) → length points ≡ count → AreLids self points → AreAtMost last points }
    {
        count <= self.first.run && self.first.most <= last
    }
}
