//! The access points in their order, and the timestamps of each 64 of them.
ghost use Rattle.std.specs.Prelude.{◌≡◌, ℕ, ◌*◌, ◌+◌, ◌%◌, ◌++◌, ◌^◌, ◌<◌, ◌≤◌, [], ◌∷◌, length, take, IfOk, IfSome, IfNone};
ghost use Rattle.std.specs.VecDeque.{deque_len, deque_capacity};
ghost use Rattle.channel_cache.specs.access_index.{above, start_of, choice_for, RiseIn, IsNoted};

use crate::access_index::Choice;
use crate::access_index::lid::Lids;
use crate::access_index::lows::{choose_low, drop_lows, push_low};
use crate::access_index::point::{Ask, Point};
use crate::access_index::span::Span;
use ram_io::NoMemory;
use reckoning::ext_seq::age_ms;
use std::alloc::Global;
use std::collections::VecDeque;
use std::marker::Model;

// How many points a span has.
const SPAN: usize = 64;

/// The access points by rising number. They are counted from the first that ever came, and each
/// `SPAN` of them have a span.
#[derive(Drop)]
pub struct Points {
    points: VecDeque<Point>,
    /// The span of each point that is kept, and of no other.
    spans: VecDeque<Span>,
    /// How many points of the first span are gone.
    gone: usize,
    /// The points whose timestamps are below those of all points behind them.
    lows: VecDeque<Point>,
    /// Two timestamps that none of the newest points is above.
    lids: Lids,
}

impl Model for Points {
    ghost use Rattle.std.specs.Prelude.{◌≡◌, ◌+◌, ◌/◌, ◌≤◌};
    ghost use Rattle.std.specs.VecDeque.{deque_capacity};
    ghost use Rattle.channel_cache.specs.access_index.{Row, Spanned, lows_of, AreLids};

    ghost Value = { Row };

    ghost view = { λ p. record { items = p.points.items; capacity = deque_capacity p.points } };

    ghost invariant = { λ p. record {
      spanned : Spanned p.gone p.spans.items p.points.items;
      room : deque_capacity p.points / 64 + 2 ≤ deque_capacity p.spans;
      lows : p.lows.items ≡ lows_of p.points.items;
      lows_room : deque_capacity p.points ≤ deque_capacity p.lows;
      lids : AreLids p.lids p.points.items;
    } };
}

impl Points {
    /// No points, and room for `capacity`.
    pub fn new(alloc: Global, capacity: usize) -> Result<Points, NoMemory>
        ensures { IfOk result (λ points. points ≡ record { items = []; capacity = capacity }) }
    {
        Ok(Points {
            points: VecDeque::with_capacity(alloc, capacity)?,
            spans: VecDeque::with_capacity(alloc, capacity / SPAN + 2)?,
            gone: 0,
            lows: VecDeque::with_capacity(alloc, capacity)?,
            lids: Lids::new(),
        })
    }

    /// Takes the next point.
    pub fn push(&mut self, point: Point)
        requires { length self.old.items < self.old.capacity }
        ensures { self.new ≡ record { items = self.old.items ++ point ∷ []; capacity = self.old.capacity } }
    {
        note(&mut self.spans, self.gone + self.points.len(), point.ts);
        push_low(&mut self.lows, point);
        self.lids = self.lids.with(point.ts, self.points.len());
        self.points.push_back_reserved(point);
    }

    /// The points with numbers below `lo`, which stand in front, go.
    pub fn drop_below(&mut self, lo: u64)
        requires { (total : ℕ) × RiseIn 0 (2 ^ 62) 0 total self.old.items }
        ensures { self.new ≡ record { items = above lo self.old.items; capacity = self.old.capacity } }
    {
        drop_lows(&mut self.lows, lo);
        while self.points.front().is_some_and(|point| point.n < lo) {
            let _ = self.points.pop_front();
            self.gone += 1;
            if self.gone == SPAN {
                let _ = self.spans.pop_front();
                self.gone = 0;
            }
        }
    }

    /// The choice among the points. Where none is above the last mark's timestamp, it is found by guesses and halves
    /// among those that are below all behind them. Else the search goes from the newest on, and into a span only where
    /// a point of it may be old enough.
    pub fn choose(&self, ask: &Ask) -> Choice
        requires { RiseIn 0 (2 ^ 62) 0 ask.now.total self.now.items }
        ensures { result ≡ choice_for ask.now self.now.items }
    {
        // Where the newest leaves no room, no other does.
        let Some(newest) = self.points.back() else {
            return Choice::NoStart;
        };
        if !ask.leaves_room(newest) {
            return Choice::NoStart;
        }
        if self.lids.are_over(self.points.len(), ask.last) {
            return choose_low(&self.lows, ask);
        }
        let mut place = self.spans.len();
        while place > 0 {
            place -= 1;
            if self.spans[place].reaches(ask.last, ask.min_ms) {
                let start = (place * SPAN).saturating_sub(self.gone);
                let end = ((place + 1) * SPAN - self.gone).min(self.points.len());
                if let Some(choice) = self.look(ask, start, end) {
                    return choice;
                }
            }
        }
        Choice::MinUnmet
    }

    // The choice among the first `end` points, if one of those from `start` on decides it: the newest of
    // them that leaves no room, or is old enough. `None` where each of these is too young.
    fn look(&self, ask: &Ask, start: usize, end: usize) -> Option<Choice>
        requires ordered { start ≤ end }
        requires within { end ≤ length self.now.items }
        requires rise { RiseIn 0 (2 ^ 62) 0 ask.now.total self.now.items }
        ensures some { IfSome result (λ choice. choice ≡ start_of ask.now (take end self.now.items)) }
        ensures none { IfNone result (start_of ask.now (take start self.now.items) ≡ start_of ask.now (take end self.now.items)) }
    {
        for point in self.points.range(start..end).rev() {
            if !ask.leaves_room(point) {
                return Some(Choice::MinUnmet);
            }
            let age = age_ms(ask.last, point.ts);
            if age >= ask.min_ms {
                return Some(ask.start_at(point, age));
            }
        }
        None
    }
}

// Notes the timestamp of the point behind `count` others: a new span begins with each `SPAN` of them.
fn note(spans: &mut VecDeque<Span>, count: usize, ts: u32)
    requires all { count ≤ SPAN * deque_len spans.old }
    requires tight { SPAN * deque_len spans.old < count + SPAN }
    requires room { count % SPAN ≡ 0 → deque_len spans.old < deque_capacity spans.old }
    ensures noted { IsNoted count ts spans.old.items spans.new.items }
    ensures capacity { deque_capacity spans.new ≡ deque_capacity spans.old }
{
    if count % SPAN == 0 {
        spans.push_back_reserved(Span::of(ts));
    } else {
        let last = &mut spans[count / SPAN];
        *last = last.widened(ts);
    }
}
