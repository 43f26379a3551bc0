//! The numbers of a NACK, one after another.
ghost use Rattle.std.specs.Prelude.{◌≡◌, ◌≤◌, [], ◌∷◌, MatchOption};
ghost use Rattle.wire_packets.specs.rtcp_feedback.Numbers.{numbers_from};

use byteorder::{BigEndian, ByteOrder};

/// The numbers that a generic NACK names, in their order (RFC 4585, 6.2.1).
#[derive(Clone, Copy)]
pub struct NackIter<'a> {
    // the words behind the present one.
    pub(crate) words: &'a [u8],
    // the present word: its number, and the bits of those that follow it.
    pub(crate) pid: u16,
    pub(crate) blp: u16,
    // the bit of it that is looked at next, from 1 to 16; 17 at its end.
    pub(crate) bit: u16,
    ghost first: { 1 ≤ bit },
    ghost last: { bit ≤ 17 },
}

impl<'a> NackIter<'a> {
    // The next number that a bit of the present word names.
    fn next_bit(&mut self) -> Option<u16>
        ensures { MatchOption result
            ((numbers_from self.old.pid self.old.blp self.old.bit self.old.words.now ≡ numbers_from self.new.pid self.new.blp self.new.bit self.new.words.now) × (self.new.bit ≡ 17))
            (λ n. numbers_from self.old.pid self.old.blp self.old.bit self.old.words.now ≡ n ∷ numbers_from self.new.pid self.new.blp self.new.bit self.new.words.now) }
    {
        while self.bit <= 16 {
            let bit = self.bit;
            self.bit += 1;
            if (self.blp >> (bit - 1)) % 2 == 1 {
                return Some(self.pid.wrapping_add(bit));
            }
        }
        None
    }

    // The number of the next word, which becomes the present one.
    fn next_word(&mut self) -> Option<u16>
        requires { self.old.bit ≡ 17 }
        ensures { MatchOption result
            ((numbers_from self.old.pid self.old.blp self.old.bit self.old.words.now ≡ []) × (numbers_from self.new.pid self.new.blp self.new.bit self.new.words.now ≡ []))
            (λ n. numbers_from self.old.pid self.old.blp self.old.bit self.old.words.now ≡ n ∷ numbers_from self.new.pid self.new.blp self.new.bit self.new.words.now) }
    {
        let words = self.words;
        if words.len() < 4 {
            return None;
        }
        let (_, blp) = words.split_at(2);
        let (_, rest) = words.split_at(4);
        self.pid = BigEndian::read_u16(words);
        self.blp = BigEndian::read_u16(blp);
        self.bit = 1;
        self.words = rest;
        Some(self.pid)
    }
}

impl<'a> Iterator for NackIter<'a> {
    ghost use Rattle.std.specs.Iterator.{YieldsFirst, item_count};
    ghost use Rattle.wire_packets.specs.rtcp_feedback.{numbers_left};

    type Item = u16;

    ghost next_gives = { YieldsFirst numbers_left };

    ghost remaining = { item_count numbers_left };

    fn next(&mut self) -> Option<u16> {
        match self.next_bit() {
            Some(n) => Some(n),
            None => self.next_word(),
        }
    }
}
