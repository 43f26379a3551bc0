//! Some pending repairs, one after another.
ghost use Rattle.std.specs.Prelude.{◌≡◌, true, length};
ghost use Rattle.repair_queue.specs.{unmarked, without, AreFrom, AreNoLess, Spans};

use crate::places::{drop_client, move_down, move_unmarked};
use crate::span::Span;
use crate::wanted::Wanted;
use std::marker::Model;

/// So many repairs a piece has at first.
pub(crate) const PIECE: usize = 64;

/// Pending repairs, one after another, and between which numbers they are: whoever looks for packets that are gone
/// looks into those pieces alone that may ask for one.
#[derive(Drop)]
pub struct Piece {
    wanted: Vec<Wanted>,
    /// Where those begin that are pending still.
    from: usize,
    span: Span,
}

impl Model for Piece {
    ghost use Rattle.std.specs.Prelude.{◌≤◌, List, drop, vec_len};
    ghost use Rattle.rams_model.specs.Service.{Wanted as Repair};
    ghost use Rattle.repair_queue.specs.{Spans};

    ghost Value = { List Repair };

    ghost view = { λ p. drop p.from p.wanted.items };

    ghost invariant = { λ p. record {
      within : p.from ≤ vec_len p.wanted;
      spans : Spans p.span (drop p.from p.wanted.items);
    } };
}

impl Piece {
    /// A piece of these.
    pub(crate) fn of(wanted: Vec<Wanted>) -> Piece
        ensures { result ≡ wanted.items }
    {
        let span = span_of(&wanted);
        Piece {
            wanted,
            from: 0,
            span,
        }
    }

    /// The repairs, the oldest first.
    pub fn pending(&self) -> &[Wanted]
        ensures { result.now ≡ self.now }
    {
        &self.wanted[self.from..]
    }

    /// Whether each number is at least `lo` and below `hi`. It looks at none of them, and where some went it may say
    /// no although they are.
    pub fn are_from(&self, lo: u64, hi: u64) -> bool
        ensures { result ≡ true → AreFrom lo hi self.now }
    {
        self.span.is_within(lo, hi)
    }

    /// The repairs whose flag is set go, and those in front of them move up. There is one flag for each. The span
    /// is open until a tick in which none goes: of a run of numbers mostly one goes in each tick.
    pub(crate) fn drop_marked(&mut self, done: &[bool])
        requires { length done.now ≡ length self.old }
        ensures { self.new ≡ unmarked self.old done.now }
    {
        let gone = move_unmarked(&mut self.wanted[self.from..], done);
        self.from += gone;
        self.span = self.span.open();
    }

    /// An open span begins with the least number from here on.
    pub(crate) fn close_span(&mut self)
        ensures { self.new ≡ self.old }
    {
        if self.span.is_open() {
            let least = least_of(&self.wanted[self.from..]);
            self.span = self.span.since(least);
        }
    }

    /// The client's repairs go.
    pub(crate) fn drop_client(&mut self, client: u64)
        ensures { self.new ≡ without client self.old }
    {
        move_down(&mut self.wanted, self.from);
        self.from = 0;
        drop_client(&mut self.wanted, client);
    }
}

// The least span of these.
fn span_of(pending: &[Wanted]) -> Span
    ensures { Spans result pending.now }
{
    let mut span = Span::new();
    for wanted in pending {
        span = span.with(wanted.n);
    }
    span
}

// A number than which none of these has a lesser one.
fn least_of(pending: &[Wanted]) -> u64
    ensures { AreNoLess result pending.now }
{
    let mut least = u64::MAX;
    for wanted in pending {
        least = least.min(wanted.n);
    }
    least
}
