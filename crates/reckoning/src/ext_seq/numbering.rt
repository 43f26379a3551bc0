//! The numbering of live packets.
ghost use Rattle.std.specs.Prelude.{◌≡◌, ℕ, ◌+◌, ◌*◌, ◌^◌, ◌<◌, ◌≤◌, List, [], ◌∷◌, IfSome};
ghost use Rattle.rams_model.specs.Packets.{numbered, Arrival};
ghost use Rattle.reckoning.specs.ext_seq.{Seen, new_numbering, noted, moved, IsWithin, IsNumberWithin, StandsFor};

use crate::ext_seq::distance::{SEQUENCE_NUMBERS, ahead};
use std::marker::Model;

// A packet jumps from so many ahead of the greatest number on (RFC 3550, A.1).
const MAX_DROPOUT: u64 = 3000;

// A packet that is fewer than so many behind it is out of order (RFC 3550, A.1).
const MAX_MISORDER: u64 = 100;

/// What the numbering makes of a sequence number.
#[derive(Clone, Copy, PartialEq, Eq)]
pub enum Noted {
    /// The first packet of all has this number.
    First(u64),
    /// The packet's number is the greatest of the present start, or above it.
    Forward(u64),
    /// The packet's number is below the greatest of the present start.
    Behind(u64),
    /// The packet is too far from it, and gets no number.
    Jump,
    /// It is too far too, but next to the jump before: a new start begins under this number.
    Restart(u64),
}

/// The numbering of a channel's live packets, each from its sequence number (RFC 3550, A.1).
#[derive(Drop)]
pub struct Numbering {
    /// The greatest number of the present start.
    greatest: Option<u64>,
    /// The sequence number after the last jump of this start.
    kept: Option<u16>,
}

impl Model for Numbering {
    ghost use Rattle.std.specs.Prelude.{◌≤◌, IfSome};
    ghost use Rattle.reckoning.specs.ext_seq.{Seen};

    ghost Value = { Seen };

    ghost view = { λ n. record { greatest = n.greatest; kept = n.kept } };

    ghost invariant = { λ n. IfSome n.greatest (λ g. 65536 ≤ g) };
}

impl Numbering {
    /// A numbering that no packet came to.
    pub fn new() -> Numbering
        ensures value { result ≡ new_numbering }
        ensures stands { (window : ℕ) → StandsFor result window [] }
    {
        Numbering {
            greatest: None,
            kept: None,
        }
    }

    /// Takes the next live packet's sequence number, and says what number the packet has. A packet
    /// may have a number and still be late.
    pub fn note(&mut self, seq: u16) -> Noted
        requires { IfSome self.old.greatest (λ g. g < 2 ^ 62) }
        ensures number { result ≡ noted (numbered self.old.greatest self.old.kept seq) }
        ensures step { self.new ≡ moved self.old seq result }
        // The greatest number rises by less than 65,536.
        ensures rises { (packets : ℕ) → IsWithin packets self.old.greatest → IsWithin (packets + 1) self.new.greatest }
        // After any list of calls, what is kept is what the definitions say of these packets.
        ensures stands { (window : ℕ) (arrivals : List Arrival) (a : Arrival) →
            a.sequence ≡ seq → StandsFor self.old window arrivals → StandsFor self.new window (a ∷ arrivals) }
    {
        self.advance(seq)
    }

    // Numbers the packet, and keeps what its number says; `note` adds what that means in history.
    fn advance(&mut self, seq: u16) -> Noted
        requires { IfSome self.old.greatest (λ g. g < 2 ^ 62) }
        ensures number { result ≡ noted (numbered self.old.greatest self.old.kept seq) }
        ensures step { self.new ≡ moved self.old seq result }
    {
        let noted = number_of(self.greatest, self.kept, seq);
        match noted {
            Noted::First(n) | Noted::Forward(n) => self.greatest = Some(n),
            Noted::Behind(_) => {}
            Noted::Jump => self.kept = Some(seq.wrapping_add(1)),
            Noted::Restart(n) => {
                self.greatest = Some(n);
                self.kept = None;
            }
        }
        noted
    }
}

// What the numbering makes of a sequence number.
#[tactic(auto, unfolding(rams_model::specs::Packets::Numbering::numbered))]
fn number_of(greatest: Option<u64>, kept: Option<u16>, seq: u16) -> Noted
    requires from { IfSome greatest (λ g. 65536 ≤ g) }
    requires small { IfSome greatest (λ g. g < 2 ^ 62) }
    ensures number { result ≡ noted (numbered greatest kept seq) }
    ensures within { (packets : ℕ) → IsWithin packets greatest → IsNumberWithin (packets + 1) result }
{
    let Some(greatest) = greatest else {
        return Noted::First(SEQUENCE_NUMBERS + u64::from(seq));
    };
    let ahead = ahead(seq, greatest);
    if ahead < MAX_DROPOUT {
        Noted::Forward(greatest + ahead)
    } else if ahead > SEQUENCE_NUMBERS - MAX_MISORDER {
        Noted::Behind(greatest - (SEQUENCE_NUMBERS - ahead))
    } else if kept == Some(seq) {
        Noted::Restart(greatest + ahead)
    } else {
        Noted::Jump
    }
}
