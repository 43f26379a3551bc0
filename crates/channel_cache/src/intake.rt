//! Packets that come in time, on their way into the stock.
ghost use Rattle.std.specs.Prelude.{◌≡◌, ℕ, ◌+◌, ◌^◌, ◌<◌, ◌≤◌, List, [], ◌∷◌, ◌++◌, None, true, IfOk};
ghost use Rattle.rams_model.specs.declared.Held.{Held};
ghost use Rattle.rams_model.specs.Packets.{hi};
ghost use Rattle.channel_cache.specs.packet_ring.Seen as rings;
ghost use Rattle.channel_cache.specs.reorder_window.{Start, came, start_after, begun, came_of, arrived, first_free, IsAwaited};
ghost use Rattle.channel_cache.specs.declared.reorder_window.window.Came.TheVariants.{Kept};
ghost use Rattle.channel_cache.specs.reorder_window.Seen as windows;
ghost use Rattle.channel_cache.specs.{new_intake, packets_of, IsIntake, IsSettled, Grows, total_of, UnlessKept, Holds, IsWhole};

use crate::reorder_window::{Came, Window};
use crate::stock::Stock;
use ram_io::NoMemory;
use rams_model::{Held, MOST_ON_WIRE};
use std::alloc::Global;

/// The packets of a channel that came in time: those that wait for others, and those that are held.
#[derive(Drop)]
pub struct Intake {
    pub window: Window<Held>,
    pub stock: Stock,
}

impl Intake {
    /// It takes room for `width` packets and one more that wait, and for `ring` that are held.
    pub fn new(alloc: Global, width: u32, ring: u32) -> Result<Intake, NoMemory>
        requires some { 1 ≤ ring }
        requires bounded { ring ≤ 32768 }
        ensures { IfOk result (λ intake. intake ≡ new_intake width ring) }
    {
        Ok(Intake {
            window: Window::new(alloc, width)?,
            stock: Stock::new(alloc, ring)?,
        })
    }

    /// Begins a new start, whose first number is `n`.
    pub fn begin(&mut self, n: u64)
        requires intake { IsIntake self.old }
        requires empty { self.old.window.kept ≡ [] }
        requires above { hi self.old.stock.ring.held ≤ n }
        requires small { n < 2 ^ 62 }
        ensures settled { IsSettled self.new }
        ensures step { self.new ≡ record self.old { window = begun self.old.window n } }
        ensures stands { (before : List Held) → rings.StandsFor self.old.stock.ring before → Holds self.new before (record { first = n; items = [] }) }
    {
        self.window.begin(n);
    }

    /// Takes a packet under its number, and holds all that need not wait any longer.
    #[inline(always)]
    pub fn place(&mut self, held: Held) -> Came
        requires settled { IsSettled self.old }
        requires small { held.n < 2 ^ 62 }
        requires whole { IsWhole held }
        requires few { total_of self.old + MOST_ON_WIRE ≤ 2 ^ 60 }
        ensures came { result ≡ came_of self.old.window held.n }
        ensures settled { IsSettled self.new }
        ensures grows { Grows self.old self.new 1 }
        ensures window { self.new.window ≡ (let w = arrived self.old.window held.n held result in record w { kept = self.new.window.kept }) }
        ensures dropped { UnlessKept result (self.new ≡ self.old) }
        ensures stands { (before : List Held) (s : Start Held) → Holds self.old before s →
            (result ≡ came self.old.window.width s held.n) × Holds self.new before (start_after s held.n held result) }
    {
        if self.window.is_next(held.n) {
            self.pass(held);
            return Came::Kept;
        }
        let came = self.window.arrive(held.n, held);
        if came == Came::Kept {
            self.drain();
        }
        came
    }

    // Holds a packet that need not wait, while no other waits.
    #[inline(always)]
    fn pass(&mut self, held: Held)
        requires settled { IsSettled self.old }
        requires next { IsAwaited self.old.window held.n }
        requires small { held.n < 2 ^ 62 }
        requires whole { IsWhole held }
        requires few { total_of self.old + MOST_ON_WIRE ≤ 2 ^ 60 }
        ensures came { came_of self.old.window held.n ≡ Kept }
        ensures settled { IsSettled self.new }
        ensures grows { Grows self.old self.new 1 }
        ensures window { self.new.window ≡ (let w = arrived self.old.window held.n held Kept in record w { kept = self.new.window.kept }) }
        ensures stands { (before : List Held) (s : Start Held) → Holds self.old before s →
            (came self.old.window.width s held.n ≡ Kept) × Holds self.new before (start_after s held.n held Kept) }
    {
        self.window.pass(held.n);
        self.stock.push(held);
    }

    /// Ends the start, and holds all its packets.
    pub fn end_start(&mut self)
        requires intake { IsIntake self.old }
        requires few { total_of self.old ≤ 2 ^ 60 }
        ensures intake { IsIntake self.new }
        ensures grows { Grows self.old self.new 0 }
        ensures window { self.new.window ≡ record self.old.window { ended = true; kept = [] } }
        ensures stands { (before : List Held) (s : Start Held) → Holds self.old before s → rings.StandsFor self.new.stock.ring (before ++ packets_of s.items) }
    {
        self.window.end_start();
        self.drain();
    }

    // Holds all packets that need not wait any longer.
    fn drain(&mut self)
        requires intake { IsIntake self.old }
        requires few { total_of self.old ≤ 2 ^ 60 }
        ensures intake { IsIntake self.new }
        ensures settled { first_free self.new.window ≡ None }
        ensures grows { Grows self.old self.new 0 }
        ensures window { self.new.window ≡ record self.old.window { kept = self.new.window.kept } }
        ensures stands { (before : List Held) (s : Start Held) (out : List (ℕ × Held)) → windows.StandsFor self.old.window s out → rings.StandsFor self.old.stock.ring (before ++ packets_of out) → Holds self.new before s }
    {
        while let Some((_, held)) = self.window.release() {
            self.stock.push(held);
        }
    }
}
