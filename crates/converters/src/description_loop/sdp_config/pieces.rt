//! Bytes between marks, and behind a text.
ghost use Rattle.std.specs.Prelude.{◌≡◌, ◌∷◌, None, MatchOption};
ghost use Rattle.converters.specs.description_loop.sdp_config.{pieces_of, pieces_behind, pieces_left, first_piece, behind};

use memchr::memchr;

/// The pieces that are left of some bytes, between marks.
#[derive(Clone, Copy)]
pub struct Pieces<'a> {
    mark: u8,
    rest: Option<&'a [u8]>,
}

impl<'a> Pieces<'a> {
    /// All pieces of some bytes; there is at least one.
    pub fn of(mark: u8, bytes: &'a [u8]) -> Pieces<'a>
        ensures { pieces_left result ≡ pieces_of mark bytes.now }
    {
        Pieces {
            mark,
            rest: Some(bytes),
        }
    }
}

impl<'a> Iterator for Pieces<'a> {
    ghost use Rattle.std.specs.Iterator.{YieldsFirstRef, item_count};
    ghost use Rattle.converters.specs.description_loop.sdp_config.{pieces_left};

    type Item = &'a [u8];

    ghost next_gives = { YieldsFirstRef pieces_left };

    ghost remaining = { item_count pieces_left };

    fn next(&mut self) -> Option<&'a [u8]> {
        let (piece, rest) = cut(self.mark, self.rest?);
        self.rest = rest;
        Some(piece)
    }
}

/// The bytes up to the first mark, or all.
pub fn first_piece(mark: u8, bytes: &[u8]) -> &[u8]
    ensures { result.now ≡ first_piece mark bytes.now }
{
    cut(mark, bytes).0
}

// The first piece, and what stands after its mark.
#[tactic(auto, using(crate::proofs::description_loop::sdp_config::Cuts::pieces_at, crate::proofs::description_loop::sdp_config::Cuts::pieces_whole))]
fn cut(mark: u8, bytes: &[u8]) -> (&[u8], Option<&[u8]>)
    ensures { pieces_of mark bytes.now ≡ result.0.now ∷ pieces_behind mark result.1 }
{
    match memchr(mark, bytes) {
        Some(at) => (bytes.split_at(at).0, Some(bytes.split_at(at + 1).1)),
        None => (bytes, None),
    }
}

/// What stands behind this text in a line that begins with it.
pub fn behind<'a>(text: &[u8], line: &'a [u8]) -> Option<&'a [u8]>
    ensures { MatchOption result (behind text.now line.now ≡ None) (λ rest. behind text.now line.now ≡ Some rest.now) }
{
    line.strip_prefix(text)
}
