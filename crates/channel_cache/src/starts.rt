//! Packets under their numbers, start by start.
ghost use Rattle.std.specs.Prelude.{◌≡◌, ℕ, ◌+◌, ◌^◌, ◌<◌, ◌≤◌, max, List, [], ◌∷◌, Option, length};
ghost use Rattle.rams_model.specs.declared.Held.{Held};
ghost use Rattle.rams_model.specs.declared.LiveNote.TheVariants as notes;
ghost use Rattle.rams_model.specs.Packets.{hi, Stream, held_as, in_time, stream_after};
ghost use Rattle.channel_cache.specs.packet_ring.Seen as rings;
ghost use Rattle.channel_cache.specs.reorder_window.{note_of};
ghost use Rattle.channel_cache.specs.{arrival_of, IsIntake, IsSettled, Grows, total_of, IsBare, Brings, UnlessTaken};

use crate::incoming::Incoming;
use crate::intake::Intake;
use crate::reorder_window::Came;
use rams_model::{LiveNote, MOST_ON_WIRE};

impl Intake {
    /// Takes a packet of the present start under its number.
    #[inline(always)]
    pub fn continue_with(&mut self, n: u64, incoming: Incoming) -> LiveNote
        requires settled { IsSettled self.old }
        requires small { n < 2 ^ 62 }
        requires bare { IsBare incoming.packet }
        requires few { total_of self.old + MOST_ON_WIRE ≤ 2 ^ 60 }
        ensures settled { IsSettled self.new }
        ensures greatest { self.new.window.greatest ≡ max self.old.window.greatest n }
        ensures grows { Grows self.old self.new 1 }
        ensures dropped { UnlessTaken result (self.new ≡ self.old) }
        ensures stands { (s : Stream) → 0 < length s.present → Brings self.old s →
            (result ≡ in_time self.old.window.width s.present n) × Brings self.new (stream_after s (arrival_of incoming) result) }
    {
        note_of(n, self.place(incoming.under(n)))
    }

    /// Begins a start with this packet.
    pub fn begin_with(&mut self, n: u64, incoming: Incoming)
        requires intake { IsIntake self.old }
        requires empty { self.old.window.kept ≡ [] }
        requires above { hi self.old.stock.ring.held ≤ n }
        requires small { n < 2 ^ 62 }
        requires bare { IsBare incoming.packet }
        requires few { total_of self.old + MOST_ON_WIRE ≤ 2 ^ 60 }
        ensures settled { IsSettled self.new }
        ensures greatest { self.new.window.greatest ≡ n }
        ensures grows { Grows self.old self.new 1 }
        ensures stands { (before : List Held) (kept : Option ℕ) → rings.StandsFor self.old.stock.ring before →
            Brings self.new (record { ended = before; present = held_as n (arrival_of incoming) ∷ []; kept = kept }) }
    {
        self.begin(n);
        let _ = self.place(incoming.under(n));
    }

    /// Ends the present start, and begins one with this packet.
    pub fn restart_with(&mut self, n: u64, incoming: Incoming)
        requires intake { IsIntake self.old }
        requires above { self.old.window.greatest < n }
        requires small { n < 2 ^ 62 }
        requires bare { IsBare incoming.packet }
        requires few { total_of self.old + MOST_ON_WIRE ≤ 2 ^ 60 }
        ensures settled { IsSettled self.new }
        ensures greatest { self.new.window.greatest ≡ n }
        ensures grows { Grows self.old self.new 1 }
        ensures stands { (s : Stream) → 0 < length s.present → Brings self.old s → Brings self.new (stream_after s (arrival_of incoming) (notes.Restart n)) }
    {
        self.end_start();
        self.begin_with(n, incoming);
    }
}

// The note of a packet under its number.
fn note_of(n: u64, came: Came) -> LiveNote
    ensures { result ≡ note_of n came }
{
    match came {
        Came::Kept => LiveNote::Took(n),
        Came::Late => LiveNote::Late,
        Came::Twice => LiveNote::Twice,
    }
}
