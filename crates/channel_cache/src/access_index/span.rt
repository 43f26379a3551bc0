//! The timestamps of access points that stand side by side.
ghost use Rattle.std.specs.Prelude.{◌≤◌};

use reckoning::ext_seq::age_ms;

/// The least and the greatest timestamp of some points.
#[derive(Clone, Copy)]
pub struct Span {
    least: u32,
    greatest: u32,
    ghost ordered: { least ≤ greatest },
}

impl Span {
    ghost use Rattle.std.specs.Prelude.{ℕ, ◌≤◌, ◌↔◌, IsTrue};
    ghost use Rattle.rams_model.specs.Packets.{age_ms};
    ghost use Rattle.channel_cache.specs.access_index.{IsIn, Reaches};

    /// The span of one point.
    pub fn of(ts: u32) -> Span
        ensures { IsIn result ts }
    {
        Span {
            least: ts,
            greatest: ts,
        }
    }

    /// The span with a further point.
    pub fn widened(self, ts: u32) -> Span
        ensures further { IsIn result ts }
        ensures others { (t : ℕ) → IsIn self t → IsIn result t }
    {
        Span {
            least: self.least.min(ts),
            greatest: self.greatest.max(ts),
        }
    }

    // The timestamp of the span that is the oldest at `last`. One after `last` is almost once around
    // (RFC 3550, 5.1).
    fn oldest(self, last: u32) -> u32
        ensures within { IsIn self result }
        ensures oldest { (t : ℕ) → IsIn self t → age_ms last t ≤ age_ms last result }
    {
        if self.least <= last && last < self.greatest {
            last + 1
        } else {
            self.least
        }
    }

    /// Whether some timestamp of the span is at least `min_ms` old at `last`.
    pub fn reaches(self, last: u32, min_ms: u32) -> bool
        ensures { IsTrue result ↔ Reaches self last min_ms }
    {
        age_ms(last, self.oldest(last)) >= min_ms
    }
}
