//! The end of a line, which grows at its front.
ghost use Rattle.std.specs.Prelude.{◌≡◌, ◌+◌, ◌-◌, ◌≤◌, ◌<◌, ◌++◌, [], ◌∷◌, OnOk, OnErr, drop, length, decimal, vec_capacity};
ghost use Rattle.rams_model.specs.Texts.{spaced, of_number};

use crate::piece::{PIECE, Piece};
use itoa::write_digits;
use ram_io::NoMemory;
use std::marker::Model;

// Bytes of the longest line of a note and of the front of a datagram's line, and more; in front of
// them a piece has the room that is copied with it.
const ROOM: usize = 224 + PIECE;

/// The end of a line. It is written from its last byte to its first, as digits are, and then appended
/// to a text as a whole.
#[derive(Drop)]
pub struct Tail {
    bytes: [u8; ROOM],
    start: usize,
}

impl Model for Tail {
    ghost use Rattle.std.specs.Prelude.{ℕ, List, ◌≤◌, drop};

    ghost Value = { List ℕ };

    ghost view = { λ tail. drop tail.start tail.bytes };

    ghost invariant = { λ tail. tail.start ≤ 272 };
}

impl Tail {
    /// No bytes.
    #[inline]
    pub fn new() -> Tail
        ensures { result ≡ [] }
    {
        Tail {
            bytes: [0; ROOM],
            start: ROOM,
        }
    }

    /// Takes all its bytes away; the room stays as it is.
    #[inline]
    pub(crate) fn clear(&mut self)
        ensures { self.new ≡ [] }
    {
        self.start = ROOM;
    }

    /// Keeps so many bytes at its end, and takes those in front of them away.
    #[inline]
    pub(crate) fn keep(&mut self, n: usize)
        requires { n ≤ length self.old }
        ensures { self.new ≡ drop (length self.old - n) self.old }
    {
        self.start = ROOM.saturating_sub(n);
    }

    /// How many bytes it has.
    #[inline]
    pub fn len(&self) -> usize
        ensures { result ≡ length self.now }
    {
        ROOM - self.start
    }

    /// Appends it to a text. An error comes only where the text lacks the room, and changes nothing.
    pub fn append_to(&self, text: &mut Vec<u8>) -> Result<(), NoMemory>
        ensures text { OnOk result (text.new.items ≡ text.old.items ++ self.now) }
        ensures err { OnErr result (text.new.items ≡ text.old.items) }
        ensures full { OnErr result (vec_capacity text.old < length text.old.items + length self.now) }
        ensures room { vec_capacity text.old ≤ vec_capacity text.new }
    {
        text.extend_from_slice(&self.bytes[self.start..])?;
        Ok(())
    }

    /// A byte in front.
    #[inline]
    pub fn byte(&mut self, byte: u8)
        requires { length self.old < 224 }
        ensures { self.new ≡ byte ∷ self.old }
    {
        self.start -= 1;
        self.bytes[self.start] = byte;
    }

    /// A word in front.
    #[inline]
    pub fn word(&mut self, word: &[u8])
        requires { length word.now + length self.old ≤ 224 }
        ensures { self.new ≡ word.now ++ self.old }
    {
        let end = self.start;
        self.start -= word.len();
        self.bytes[self.start..end].copy_from_slice(word);
    }

    /// A piece in front.
    #[inline(always)]
    pub(crate) fn piece(&mut self, piece: &Piece)
        requires { length piece.now + length self.old ≤ 224 }
        ensures { self.new ≡ piece.now ++ self.old }
    {
        let end = self.start;
        self.bytes[end - PIECE..end].copy_from_slice(piece.whole());
        self.start = end - piece.len();
    }

    /// A number in front, in decimal digits.
    pub fn number(&mut self, n: u64)
        requires { length self.old + 20 ≤ 224 }
        ensures line { self.new ≡ decimal n ++ self.old }
        ensures few { length self.new ≤ length self.old + 20 }
    {
        self.start = write_digits(n, &mut self.bytes, self.start);
    }

    /// A space and a number in front.
    #[inline]
    pub fn spaced(&mut self, n: u64)
        requires { length self.old + 21 ≤ 224 }
        ensures line { self.new ≡ spaced n ++ self.old }
        ensures few { length self.new ≤ length self.old + 21 }
    {
        self.number(n);
        self.byte(b' ');
    }

    /// A word, a space and a number in front.
    #[inline]
    pub fn named(&mut self, word: &[u8], n: u64)
        requires { length word.now + length self.old + 21 ≤ 224 }
        ensures line { self.new ≡ word.now ++ spaced n ++ self.old }
        ensures few { length self.new ≤ length word.now + length self.old + 21 }
    {
        self.spaced(n);
        self.word(word);
    }

    /// A word, a client and a number in front.
    #[inline]
    pub fn numbered(&mut self, word: &[u8], client: u64, n: u64)
        requires { length word.now + length self.old + 42 ≤ 224 }
        ensures line { self.new ≡ of_number word.now client n ++ self.old }
        ensures few { length self.new ≤ length word.now + length self.old + 42 }
    {
        self.spaced(n);
        self.named(word, client);
    }
}
