//! The access points whose timestamps are below those of all points behind them. The newest point that is old
//! enough is one of them, where no timestamp is above the last mark's; and theirs rise.
ghost use Rattle.std.specs.Prelude.{◌≡◌, ℕ, ◌++◌, ◌^◌, ◌<◌, ◌≤◌, List, [], ◌∷◌, true, false, length, take};
ghost use Rattle.std.specs.VecDeque.{deque_capacity};
ghost use Rattle.channel_cache.specs.access_index.{above, under, start_of, RiseIn, RiseLast, AreAtMost, IsLastOld};
ghost use Rattle.channel_cache.specs.declared.access_index.point.Point.{Point};

use crate::access_index::Choice;
use crate::access_index::point::{Ask, Point};
use reckoning::ext_seq::{TICKS_PER_MS, age_ms};
use std::collections::VecDeque;

/// A point comes behind the others: those go that it is no later than.
pub fn push_low(lows: &mut VecDeque<Point>, point: Point)
    requires risen { RiseLast (length lows.old.items) lows.old.items }
    requires room { length lows.old.items < deque_capacity lows.old }
    ensures items { lows.new.items ≡ under point.ts lows.old.items ++ point ∷ [] }
    ensures capacity { deque_capacity lows.new ≡ deque_capacity lows.old }
{
    drop_from(lows, point.ts);
    lows.push_back_reserved(point);
}

// Those whose timestamp isn't below this one, which stand at the back, go.
fn drop_from(lows: &mut VecDeque<Point>, ts: u32)
    requires { RiseLast (length lows.old.items) lows.old.items }
    ensures items { lows.new.items ≡ under ts lows.old.items }
    ensures few { length lows.new.items ≤ length lows.old.items }
    ensures capacity { deque_capacity lows.new ≡ deque_capacity lows.old }
{
    while ends_from(lows, ts) {
        let _ = lows.pop_back();
    }
}

// Whether the last has a timestamp that isn't below this one.
fn ends_from(lows: &VecDeque<Point>, ts: u32) -> bool
    requires { RiseLast (length lows.now.items) lows.now.items }
    ensures some { result ≡ true → (front : List Point) × (p : Point) × (lows.now.items ≡ front ++ p ∷ []) × (ts ≤ p.ts) }
    ensures none { result ≡ false → under ts lows.now.items ≡ lows.now.items }
{
    match lows.back() {
        Some(point) => point.ts >= ts,
        None => false,
    }
}

/// The points with numbers below `lo`, which stand in front, go.
pub fn drop_lows(lows: &mut VecDeque<Point>, lo: u64)
    ensures items { lows.new.items ≡ above lo lows.old.items }
    ensures capacity { deque_capacity lows.new ≡ deque_capacity lows.old }
{
    while lows.front().is_some_and(|point| point.n < lo) {
        let _ = lows.pop_front();
    }
}

/// The choice among points whose timestamps rise, up to the last mark's at most.
pub fn choose_low(lows: &VecDeque<Point>, ask: &Ask) -> Choice
    requires rise { RiseIn 0 (2 ^ 62) 0 ask.now.total lows.now.items }
    requires risen { RiseLast (length lows.now.items) lows.now.items }
    requires past { AreAtMost ask.now.last lows.now.items }
    ensures { result ≡ start_of ask.now lows.now.items }
{
    let count = old_count(lows, ask);
    if count == 0 {
        return Choice::MinUnmet;
    }
    let point = &lows[count - 1];
    if !ask.leaves_room(point) {
        return Choice::MinUnmet;
    }
    ask.start_at(point, age_ms(ask.last, point.ts))
}

// How many guesses are tried before the halves.
const GUESSES: u32 = 4;

// How many points are old enough: those in front, where the timestamps rise up to the last mark's at
// most. They are found by guesses, and where time runs too unevenly for these, by halves.
fn old_count(lows: &VecDeque<Point>, ask: &Ask) -> usize
    requires risen { RiseLast (length lows.now.items) lows.now.items }
    requires past { AreAtMost ask.now.last lows.now.items }
    ensures within { result ≤ length lows.now.items }
    ensures old { IsLastOld ask.now.last ask.now.min_ms result lows.now.items }
    ensures same { start_of ask.now (take result lows.now.items) ≡ start_of ask.now lows.now.items }
{
    let wanted = ask
        .last
        .saturating_sub(ask.min_ms.saturating_mul(TICKS_PER_MS));
    let mut guesses = GUESSES;
    let mut low = 0;
    let mut high = lows.len();
    while low < high {
        let place = place_between(lows, low, high, wanted, guesses);
        guesses = guesses.saturating_sub(1);
        if age_ms(ask.last, lows[place].ts) >= ask.min_ms {
            low = place + 1;
        } else {
            high = place;
        }
    }
    low
}

// The place among those from `low` on, and below `high`, at which the last point up to the timestamp `wanted` is to be
// looked for: the middle, where no guess is left.
fn place_between(
    lows: &VecDeque<Point>,
    low: usize,
    high: usize,
    wanted: u32,
    guesses: u32,
) -> usize
    requires some { low < high }
    requires within { high ≤ length lows.now.items }
    ensures least { low ≤ result }
    ensures most { result < high }
{
    let last = high - 1;
    if guesses == 0 {
        return low + (last - low) / 2;
    }
    low + place_of(wanted, lows[low].ts, lows[last].ts, last - low)
}

// The place that a timestamp would have if time ran evenly from the first timestamp, at place 0, to the last.
fn place_of(wanted: u32, first: u32, last: u32, last_place: usize) -> usize
    ensures { result ≤ last_place }
{
    let spread = u64::from(last.saturating_sub(first));
    if spread == 0 {
        return 0;
    }
    let behind = u64::from(wanted.saturating_sub(first));
    let place = behind.wrapping_mul(last_place as u64) / spread;
    (place as usize).min(last_place)
}
