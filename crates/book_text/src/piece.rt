//! Pieces of lines that are written out once and then copied.
ghost use Rattle.std.specs.Prelude.{◌≡◌, ◌+◌, ◌≤◌, ◌-◌, ◌<◌, ◌++◌, [], ◌∷◌, codes, drop, length, decimal};
ghost use Rattle.rams_model.specs.Texts.{spaced};

use itoa::write_digits;
use std::marker::Model;

/// What is copied of a piece, whatever its length: so many bytes at once take less time than fewer.
pub(crate) const PIECE: usize = 48;

/// A piece of a line. It stands at the end of its room.
#[derive(Drop)]
pub(crate) struct Piece {
    bytes: [u8; PIECE],
    start: usize,
}

impl Model for Piece {
    ghost use Rattle.std.specs.Prelude.{ℕ, List, ◌≤◌, drop};

    ghost Value = { List ℕ };

    ghost view = { λ piece. drop piece.start piece.bytes };

    ghost invariant = { λ piece. piece.start ≤ 48 };
}

impl Piece {
    fn new() -> Piece
        ensures { result ≡ [] }
    {
        Piece {
            bytes: [0; PIECE],
            start: PIECE,
        }
    }

    /// The number of the event, that of the channel, and a space: the front of a line.
    pub(crate) fn front(event: u64, id: u16) -> Piece
        ensures front { result ≡ decimal event ++ spaced id ++ codes " " }
        ensures few { length result ≤ 42 }
    {
        let mut piece = Piece::new();
        piece.set_front(event, id);
        piece
    }

    /// Becomes such a front, where it stands: to move one that was just written would wait for its bytes.
    pub(crate) fn set_front(&mut self, event: u64, id: u16)
        ensures front { self.new ≡ decimal event ++ spaced id ++ codes " " }
        ensures few { length self.new ≤ 42 }
    {
        self.clear();
        self.byte(b' ');
        self.number(u64::from(id));
        self.byte(b' ');
        self.number(event);
    }

    /// A space and a number.
    pub(crate) fn spaced(n: u64) -> Piece
        ensures spaced { result ≡ spaced n }
        ensures few { length result ≤ 21 }
    {
        let mut piece = Piece::new();
        piece.set_spaced(n);
        piece
    }

    /// Becomes a space and a number, where it stands.
    pub(crate) fn set_spaced(&mut self, n: u64)
        ensures spaced { self.new ≡ spaced n }
        ensures few { length self.new ≤ 21 }
    {
        self.clear();
        self.number(n);
        self.byte(b' ');
    }

    /// How many bytes it has.
    #[inline]
    pub(crate) fn len(&self) -> usize
        ensures { result ≡ length self.now }
    {
        PIECE - self.start
    }

    /// Its bytes, behind others that fill its room.
    #[inline]
    pub(crate) fn whole(&self) -> &[u8]
        ensures size { length result.now ≡ 48 }
        ensures end { drop (48 - length self.now) result.now ≡ self.now }
    {
        &self.bytes
    }

    #[inline]
    fn clear(&mut self)
        ensures { self.new ≡ [] }
    {
        self.start = PIECE;
    }

    #[inline]
    fn byte(&mut self, byte: u8)
        requires { length self.old < 48 }
        ensures { self.new ≡ byte ∷ self.old }
    {
        self.start -= 1;
        self.bytes[self.start] = byte;
    }

    fn number(&mut self, n: u64)
        requires { length self.old + 20 ≤ 48 }
        ensures line { self.new ≡ decimal n ++ self.old }
        ensures few { length self.new ≤ length self.old + 20 }
    {
        self.start = write_digits(n, &mut self.bytes, self.start);
    }
}
