//! Bytes that are reserved, and bytes that are left.
ghost use Rattle.std.specs.Prelude.{◌≡◌, ◌+◌, ◌-◌, ◌<◌, ◌≤◌, ◌^◌, ◌↔◌, min, IsTrue};
ghost use Rattle.std.specs.Bool.{OnTrue, OnFalse};
ghost use Rattle.reckoning.specs.link_budget.{amounts, HasRoom};

use std::marker::Model;

/// The bytes of one channel: its share of each tick, what bursts have reserved of it, and what is
/// left to be sent.
#[derive(Clone, Copy, PartialEq, Eq)]
pub struct Budget {
    share: u64,
    reserve: u64,
    swell: u64,
    reserved: u64,
    left: u64,
}

impl Model for Budget {
    ghost use Rattle.reckoning.specs.link_budget.{amounts, AreWithinShare};
    ghost use Rattle.reckoning.specs.link_budget.Amounts.{Amounts};

    ghost Value = { Amounts };

    ghost view = { λ b. amounts b.share b.reserve b.swell b.reserved b.left };

    ghost invariant = { λ b. AreWithinShare (amounts b.share b.reserve b.swell b.reserved b.left) };

    ghost inverse = { λ a. record { share = a.share; reserve = a.reserve; swell = a.swell; reserved = a.reserved; left = a.left } };
}

impl Budget {
    /// The budget before the first tick: nothing is reserved and nothing is left. Each tick gives it
    /// `share` bytes, of which bursts leave `reserve` to repairs; what a tick leaves is kept up to
    /// `swell`.
    pub fn new(share: u64, reserve: u64, swell: u64) -> Budget
        requires reserve { reserve ≤ share }
        requires swell { share + swell < 2 ^ 64 }
        ensures { result ≡ amounts share reserve swell 0 0 }
    {
        Budget {
            share,
            reserve,
            swell,
            reserved: 0,
            left: 0,
        }
    }

    /// Reserves the amount for a burst: its rate, and what it may keep from tick to tick. `false`
    /// where the share has no room for it beside the reserve.
    pub fn reserve(&mut self, amount: u64) -> bool
        ensures room { IsTrue result ↔ HasRoom self.old amount }
        ensures taken { OnTrue result
            (self.new ≡ record self.old { reserved = self.old.reserved + amount }) }
        ensures same { OnFalse result (self.new ≡ self.old) }
    {
        let has_room = amount <= self.share - self.reserve - self.reserved;
        if has_room {
            self.reserved += amount;
        }
        has_room
    }

    /// Gives back what was reserved for a burst.
    pub fn release(&mut self, amount: u64)
        requires { amount ≤ self.old.reserved }
        ensures { self.new ≡ record self.old { reserved = self.old.reserved - amount } }
    {
        self.reserved -= amount;
    }

    /// What is reserved.
    pub fn reserved(&self) -> u64
        ensures value { result ≡ self.now.reserved }
        ensures within { result + self.now.reserve ≤ self.now.share }
    {
        self.reserved
    }

    /// Begins a tick: the share is left, beside what is kept of what was left.
    pub fn open_tick(&mut self)
        ensures { self.new
            ≡ record self.old { left = self.old.share + min self.old.swell self.old.left } }
    {
        self.left = self.share + self.swell.min(self.left);
    }

    /// Takes the wire size of a packet from what is left. `false` where it doesn't fit there.
    pub fn spend(&mut self, size: u64) -> bool
        ensures fits { IsTrue result ↔ size ≤ self.old.left }
        ensures taken { OnTrue result (self.new ≡ record self.old { left = self.old.left - size }) }
        ensures same { OnFalse result (self.new ≡ self.old) }
    {
        let fits = size <= self.left;
        if fits {
            self.left -= size;
        }
        fits
    }

    /// What is left.
    pub fn left(&self) -> u64
        ensures value { result ≡ self.now.left }
        ensures within { result ≤ self.now.share + self.now.swell }
    {
        self.left
    }
}
