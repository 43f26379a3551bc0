//! The words of a line.
ghost use Rattle.std.specs.Prelude.{◌≡◌, ◌∷◌, Some, MatchOption};
ghost use Rattle.std.specs.Iterator.{YieldsFirstRef, item_count};
ghost use Rattle.rams_model.specs.Texts.{words_of, first_word, one, number_in};
ghost use Rattle.trace_lines.specs.{words_left};

use crate::numbers::first_number;
use memchr::memchr;
use std::marker::Model;

/// The words that are left of a line: the pieces between single spaces.
#[derive(Drop)]
pub struct Words<'a> {
    rest: Option<&'a [u8]>,
}

impl<'a> Model for Words<'a> {
    ghost use Rattle.std.specs.Prelude.{ℕ, List};
    ghost use Rattle.trace_lines.specs.{words_left};

    ghost Value = { List (List ℕ) };

    ghost view = { λ w. words_left w.rest };
}

impl<'a> Words<'a> {
    /// All words of a line; there is at least one.
    pub fn of(line: &'a [u8]) -> Words<'a>
        ensures { result ≡ words_of line.now }
    {
        Words { rest: Some(line) }
    }

    /// The words that are left with the spaces between them, if any is left.
    pub fn rest(&self) -> Option<&'a [u8]>
        ensures { words_left result ≡ self.now }
    {
        self.rest
    }

    /// The next word as a number. Where it is none, the words stay as they are.
    pub fn take_number(&mut self) -> Option<u64>
        ensures { MatchOption result (self.new ≡ self.old) (λ number. one number_in self.old ≡ Some (number, self.new)) }
    {
        let (number, rest) = first_number(self.rest?)?;
        self.rest = rest;
        Some(number)
    }
}

impl<'a> Iterator for Words<'a> {
    type Item = &'a [u8];

    ghost next_gives = { YieldsFirstRef (λ words. words) };

    ghost remaining = { item_count (λ words. words) };

    fn next(&mut self) -> Option<&'a [u8]> {
        let (word, rest) = cut(self.rest?);
        self.rest = rest;
        Some(word)
    }
}

/// What stands in front of the first space.
pub fn first_word(line: &[u8]) -> &[u8]
    ensures { result.now ≡ first_word line.now }
{
    cut(line).0
}

#[tactic(auto, using(crate::proofs::Cuts::words_at, crate::proofs::Cuts::words_whole))]
// The first word, and what stands after its space.
fn cut(bytes: &[u8]) -> (&[u8], Option<&[u8]>)
    ensures { words_of bytes.now ≡ result.0.now ∷ words_left result.1 }
{
    match memchr(b' ', bytes) {
        Some(at) => (bytes.split_at(at).0, Some(bytes.split_at(at + 1).1)),
        None => (bytes, None),
    }
}
