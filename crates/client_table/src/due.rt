//! The known clients by the tick in which each is looked at.
ghost use Rattle.std.specs.Prelude.{◌≡◌, ℕ, ◌+◌, ◌^◌, ◌<◌, ◌≤◌, List, ◌∷◌, true, false, cond, IfSome, IfNone, Contains};
ghost use Rattle.std.specs.BTreeMap.{is_at};
ghost use Rattle.std.specs.BTreeSet.{contains};
ghost use Rattle.std.specs.List.Sorted.{IsStrictlySortedBy};
ghost use Rattle.std.specs.Ordering.{nat_cmp};
ghost use Rattle.rams_model.specs.Pairs.{pair_cmp};
ghost use Rattle.client_table.specs.{has_pair, waiting, waiting_in, clients_in, AreLater, MovesOnly, GoesOn, IsInTime};

use std::alloc::Global;
use std::collections::btree_set::{BTreeSet, Range};
use std::ops::Bound;

// In ticks before this one the tick after the next one is a number too.
const LAST: u64 = u64::MAX - 1;

/// The known clients by the tick in which each is looked at, which is no later than where it can first have
/// been idle for `limit` ticks. One that is served keeps its tick, and is moved when that has come. Where
/// this was refused memory it is no longer whole, and all clients are looked at in its place.
#[derive(Drop)]
pub(crate) struct Due {
    limit: u32,
    /// The ticks so far.
    ticks: u64,
    pairs: BTreeSet<(u64, u64)>,
    whole: bool,
}

impl Due {
    /// Nobody is looked at.
    pub fn new(alloc: Global, limit: u32) -> Due
        ensures { AreLater result }
    {
        Due {
            limit,
            ticks: 0,
            pairs: BTreeSet::new(alloc),
            whole: true,
        }
    }

    /// A tick goes by.
    pub fn go_on(&mut self)
        ensures { GoesOn self.old self.new }
    {
        match self.ticks.checked_add(1) {
            Some(ticks) => self.ticks = ticks,
            None => self.whole = false,
        }
    }

    /// The next client whose tick has come, which stands nowhere then.
    pub fn take(&mut self) -> Option<u64>
        ensures moves { IfSome result (λ client. MovesOnly client self.old self.new) }
        ensures fewer { IfSome result (λ _. waiting self.new < waiting self.old) }
        ensures same { IfNone result (self.new ≡ self.old) }
        ensures later { IfNone result (AreLater self.new) }
    {
        if !self.whole {
            return None;
        }
        if !has_come(&self.pairs, self.ticks) {
            return None;
        }
        let (_, client) = self.pairs.pop_first()?;
        Some(client)
    }

    /// A client that stands nowhere, of this idle count, stands where it can first have been idle for the
    /// limit: the tick.
    pub fn place(&mut self, client: u64, idle: u32) -> u64
        ensures moves { MovesOnly client self.old self.new }
        ensures there { self.new.whole ≡ true → IsInTime self.new client result idle }
        ensures later { AreLater self.old → AreLater self.new }
        ensures waiting { waiting self.new ≡ waiting self.old }
    {
        let left = if idle < self.limit {
            self.limit - idle
        } else {
            self.limit
        };
        let tick = self.ticks.saturating_add(u64::from(left));
        self.put(client, tick);
        tick
    }

    // A client stands at a tick, where that is still to come.
    fn put(&mut self, client: u64, tick: u64)
        ensures moves { MovesOnly client self.old self.new }
        ensures there { self.new.whole ≡ true → has_pair self.new tick client ≡ true }
        ensures later { AreLater self.old → AreLater self.new }
        ensures waiting { waiting self.new ≡ waiting self.old }
    {
        if !self.whole {
            return;
        }
        if tick <= self.ticks {
            self.whole = false;
            return;
        }
        self.whole = add_pair(&mut self.pairs, tick, client);
    }

    /// A client stands at a tick no more.
    pub fn remove(&mut self, client: u64, tick: u64)
        ensures moves { MovesOnly client self.old self.new }
        ensures later { AreLater self.old → AreLater self.new }
    {
        take_pair(&mut self.pairs, tick, client);
    }

    /// A client that stands at a tick has this idle count now: the tick where it stands then.
    pub fn settle(&mut self, client: u64, tick: u64, idle: u32) -> u64
        requires { self.old.whole ≡ true → (was : ℕ) × IsInTime self.old client tick was }
        ensures moves { MovesOnly client self.old self.new }
        ensures there { self.new.whole ≡ true → IsInTime self.new client result idle }
        ensures later { AreLater self.old → AreLater self.new }
    {
        if idle >= self.limit || self.is_in_time(tick, idle) {
            return tick;
        }
        self.remove(client, tick);
        self.place(client, idle)
    }

    // Whether a tick is no later than where one of this idle count can first have been idle for the limit.
    fn is_in_time(&self, tick: u64, idle: u32) -> bool
        ensures { result ≡ true → tick + idle ≤ self.now.ticks + self.now.limit }
    {
        let left = tick.saturating_sub(self.ticks);
        left <= u64::from(self.limit) && u64::from(idle) <= u64::from(self.limit) - left
    }

    /// The next tick, where those who can have been idle for so many ticks in it are among those that
    /// stand there.
    pub fn next(&self, idle: u32) -> Option<u64>
        ensures { IfSome result (λ tick. (self.now.whole ≡ true) × (self.now.limit ≡ idle) × (tick ≡ self.now.ticks + 1) × (tick + 1 < 2 ^ 64)) }
    {
        if self.whole && self.limit == idle && self.ticks < LAST {
            Some(self.ticks + 1)
        } else {
            None
        }
    }

    /// Those that stand at a tick.
    pub fn at(&self, tick: u64) -> Range<'_, (u64, u64)>
        requires { tick + 1 < 2 ^ 64 }
        ensures rising { IsStrictlySortedBy nat_cmp (clients_in result) }
        ensures all { (client : ℕ) → has_pair self.now tick client ≡ true → Contains (clients_in result) client }
    {
        self.pairs.range((Bound::Included((tick, 0)), Bound::Excluded((tick + 1, 0))))
    }
}

// Whether the first tick has come.
fn has_come(pairs: &BTreeSet<(u64, u64)>, now: u64) -> bool
    ensures come { result ≡ true → (p : ℕ × ℕ) (ps : List (ℕ × ℕ)) → pairs.now.keys ≡ p ∷ ps → p.0 ≤ now }
    ensures none { result ≡ false → (p : ℕ × ℕ) → contains pair_cmp pairs.now p ≡ true → now < p.0 }
{
    match pairs.first() {
        Some((tick, _)) => *tick <= now,
        None => false,
    }
}

// Puts a pair among the others. Whether there was memory for it.
fn add_pair(pairs: &mut BTreeSet<(u64, u64)>, tick: u64, client: u64) -> bool
    ensures has { result ≡ true → (q : ℕ × ℕ) → contains pair_cmp pairs.new q ≡ cond (is_at (pair_cmp (tick, client)) q) true (contains pair_cmp pairs.old q) }
    ensures same { result ≡ false → pairs.new.keys ≡ pairs.old.keys }
    ensures waiting { (now : ℕ) → now < tick → waiting_in now pairs.new ≡ waiting_in now pairs.old }
{
    pairs.insert((tick, client)).is_ok()
}

// Takes a pair out.
fn take_pair(pairs: &mut BTreeSet<(u64, u64)>, tick: u64, client: u64)
    ensures { (q : ℕ × ℕ) → contains pair_cmp pairs.new q ≡ cond (is_at (pair_cmp (tick, client)) q) false (contains pair_cmp pairs.old q) }
{
    let _ = pairs.remove(&(tick, client));
}
