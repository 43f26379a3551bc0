//! The pending repairs that were asked for last.
ghost use Rattle.std.specs.Prelude.{◌≡◌, ◌<◌, ◌≤◌, ◌++◌, [], ◌∷◌, length, drop, vec_len, vec_capacity, IfOk, IfSome, IfNone};
ghost use Rattle.rams_model.specs.Service.{wanted};
ghost use Rattle.repair_queue.specs.{unmarked, without};

use crate::piece::{PIECE, Piece};
use crate::places::{drop_client, move_down, move_unmarked};
use crate::wanted::{MOST_PENDING, Wanted};
use ram_io::NoMemory;
use std::alloc::Global;
use std::marker::Model;

// Where so many places are free in front, the pending repairs move down.
const MOST_GONE: usize = 1024;

/// Pending repairs, the oldest first. Those that go leave their places free in front, so nothing
/// behind them moves; once 1,024 places are free, all that is pending moves down.
#[derive(Drop)]
pub(crate) struct Tail {
    places: Vec<Wanted>,
    /// Where the pending ones begin: so many places are free.
    from: usize,
}

impl Model for Tail {
    ghost use Rattle.std.specs.Prelude.{◌<◌, ◌≤◌, List, drop, vec_len, vec_capacity};
    ghost use Rattle.rams_model.specs.Service.{Wanted as Repair};

    ghost Value = { List Repair };

    ghost view = { λ tail. drop tail.from tail.places.items };

    ghost invariant = { λ tail. record {
      gone : tail.from < 1024;
      within : tail.from ≤ vec_len tail.places;
      room : 5120 ≤ vec_capacity tail.places;
    } };
}

impl Tail {
    /// No repairs, with room for 4,096 and the free places.
    pub(crate) fn new(alloc: Global) -> Result<Tail, NoMemory>
        ensures { IfOk result (λ tail. tail ≡ []) }
    {
        Ok(Tail {
            places: Vec::with_capacity(alloc, MOST_PENDING + MOST_GONE)?,
            from: 0,
        })
    }

    /// The pending repairs.
    pub(crate) fn as_slice(&self) -> &[Wanted]
        ensures { result.now ≡ self.now }
    {
        &self.places[self.from..]
    }

    /// One more repair, behind the others.
    pub(crate) fn push(&mut self, w: Wanted)
        requires room { length self.old < MOST_PENDING }
        ensures { self.new ≡ self.old ++ w ∷ [] }
    {
        self.places.push_reserved(w);
    }

    /// The repairs whose flag is set go. Those behind the flags stay.
    pub(crate) fn drop_marked(&mut self, done: &[bool])
        requires { length done.now ≤ length self.old }
        ensures { self.new ≡ unmarked self.old done.now }
    {
        let gone = move_unmarked(&mut self.places[self.from..], done);
        self.from += gone;
        if self.from >= MOST_GONE {
            move_down(&mut self.places, self.from);
            self.from = 0;
        }
    }

    /// The first 64 go into a piece. `None` where there is no memory for that; nothing changed then.
    pub(crate) fn take_piece(&mut self, alloc: Global) -> Option<Piece>
        requires { 64 ≤ length self.old }
        ensures taken { IfSome result (λ piece. piece ++ self.new ≡ self.old) }
        ensures long { IfSome result (λ piece. length piece ≡ 64) }
        ensures none { IfNone result (self.new ≡ self.old) }
    {
        let wanted = copy_of(alloc, &self.as_slice()[..PIECE])?;
        self.drop_front(PIECE);
        Some(Piece::of(wanted))
    }

    // So many of the first ones go.
    fn drop_front(&mut self, count: usize)
        requires { count ≤ length self.old }
        ensures { self.new ≡ drop count self.old }
    {
        self.from += count;
        if self.from >= MOST_GONE {
            move_down(&mut self.places, self.from);
            self.from = 0;
        }
    }

    /// The client's repairs go.
    pub(crate) fn drop_client(&mut self, client: u64)
        ensures { self.new ≡ without client self.old }
    {
        move_down(&mut self.places, self.from);
        self.from = 0;
        drop_client(&mut self.places, client);
    }
}

// These once more; `None` where there is no memory for them.
fn copy_of(alloc: Global, pending: &[Wanted]) -> Option<Vec<Wanted>>
    ensures { IfSome result (λ copy. copy.items ≡ pending.now) }
{
    Vec::from_slice(alloc, pending).ok()
}
