//! The words that name a client, whose digits are mostly those of the line before.
ghost use Rattle.std.specs.Prelude.{◌≡◌, ◌+◌, ◌≤◌, ◌++◌, length};
ghost use Rattle.rams_model.specs.Texts.{spaced, of_client, of_number};

use crate::piece::Piece;
use crate::tail::Tail;

/// The client that was named last, and its digits behind a space. What was named before changes
/// nothing of what is written.
#[derive(Drop)]
pub(crate) struct Named {
    client: u64,
    piece: Piece,
    ghost spelled: { piece ≡ spaced client },
    ghost few: { length piece ≤ 21 },
}

impl Named {
    pub(crate) fn new(client: u64) -> Named
        ensures { result.client ≡ client }
    {
        Named {
            client,
            piece: Piece::spaced(client),
        }
    }

    #[cold]
    fn turn_to(&mut self, client: u64)
        ensures { self.new.client ≡ client }
    {
        self.client = client;
        self.piece.set_spaced(client);
    }

    /// A space and the client's digits; where it was named last, nothing is spelled.
    #[inline]
    pub(crate) fn spell(&mut self, client: u64) -> &Piece
        ensures spaced { result.now ≡ spaced client }
        ensures few { length result.now ≤ 21 }
    {
        if self.client != client {
            self.turn_to(client);
        }
        &self.piece
    }

    /// A word and a client, in front of a line. (Where it is inlined, the word's length is known.)
    #[inline(always)]
    pub(crate) fn of_client(&mut self, line: &mut Tail, word: &[u8], client: u64)
        requires { length word.now + length line.old + 21 ≤ 224 }
        ensures line { line.new ≡ of_client word.now client ++ line.old }
        ensures few { length line.new ≤ length word.now + length line.old + 21 }
    {
        line.piece(self.spell(client));
        line.word(word);
    }

    /// A word, a client and a number, in front of a line.
    #[inline(always)]
    pub(crate) fn numbered(&mut self, line: &mut Tail, word: &[u8], client: u64, n: u64)
        requires { length word.now + length line.old + 42 ≤ 224 }
        ensures line { line.new ≡ of_number word.now client n ++ line.old }
        ensures few { length line.new ≤ length word.now + length line.old + 42 }
    {
        line.spaced(n);
        self.of_client(line, word, client);
    }
}
