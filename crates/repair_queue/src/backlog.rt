//! The pending repairs in their order.
ghost use Rattle.std.specs.Prelude.{◌≡◌, ◌+◌, ◌<◌, ◌≤◌, ◌++◌, true, if◌then◌else◌, List, length};
ghost use Rattle.rams_model.specs.Service.{Wanted as Repair};
ghost use Rattle.repair_queue.specs.{all_of, unmarked, without, AreOnce, Indexes, Owes};

use crate::block::is_any_set;
use crate::index::{Index, Run};
use crate::piece::{PIECE, Piece};
use crate::tail::Tail;
use crate::wanted::{MOST_PENDING, Wanted};
use ram_io::NoMemory;
use std::alloc::Global;
use std::marker::Model;

// So many pieces there are at most. Where there would be more, repairs stay behind them.
const MOST_PIECES: usize = 96;

// So many of the oldest pieces may be empty before they go.
const MOST_EMPTY: usize = 7;

/// The pending repairs, the oldest first: in pieces those that were asked for long ago, so that some of them go and
/// the others stay where they are; and behind these those that were asked for last.
#[derive(Drop)]
pub(crate) struct Backlog {
    alloc: Global,
    pieces: Vec<Piece>,
    /// How many stand in pieces.
    in_pieces: usize,
    last: Tail,
}

impl Model for Backlog {
    ghost use Rattle.std.specs.Prelude.{◌≡◌, ◌++◌, List, length};
    ghost use Rattle.rams_model.specs.Service.{Wanted as Repair};
    ghost use Rattle.repair_queue.specs.{all_of};

    ghost Value = { List Repair };

    ghost view = { λ b. all_of b.pieces.items ++ b.last };

    ghost invariant = { λ b. b.in_pieces ≡ length (all_of b.pieces.items) };
}

impl Backlog {
    ghost use Rattle.std.specs.Prelude.{◌≡◌, ◌<◌, ◌≤◌, ◌++◌, [], ◌∷◌, length, IfOk};
    ghost use Rattle.repair_queue.specs.{all_of, unmarked, without, AreOnce, Indexes};

    /// No repairs, with room for 4,096.
    pub(crate) fn new(alloc: Global) -> Result<Backlog, NoMemory>
        ensures { IfOk result (λ backlog. backlog ≡ []) }
    {
        Ok(Backlog {
            alloc,
            pieces: Vec::new(alloc),
            in_pieces: 0,
            last: Tail::new(alloc)?,
        })
    }

    /// How many there are.
    pub(crate) fn len(&self) -> usize
        requires { length self.now ≤ MOST_PENDING }
        ensures { result ≡ length self.now }
    {
        self.in_pieces + self.last.as_slice().len()
    }

    /// The pieces, and those behind them.
    pub(crate) fn parts(&self) -> (&[Piece], &[Wanted])
        ensures { all_of result.0.now ++ result.1.now ≡ self.now }
    {
        (&self.pieces, self.last.as_slice())
    }

    /// One more repair, behind the others.
    pub(crate) fn push(&mut self, w: Wanted)
        requires room { length self.old < MOST_PENDING }
        ensures { self.new ≡ self.old ++ w ∷ [] }
    {
        self.last.push(w);
    }

    /// The repairs whose flag is set go, and their pairs go out of the index of all. There is one flag for each.
    pub(crate) fn drop_marked(&mut self, index: &mut Index, done: &[bool])
        requires few { length self.old ≤ MOST_PENDING }
        requires one_each { length done.now ≡ length self.old }
        requires once { AreOnce self.old }
        requires indexed { Indexes index.old self.old }
        ensures pending { self.new ≡ unmarked self.old done.now }
        ensures indexed { Indexes index.new self.new }
    {
        let (of_pieces, of_last) = done.split_at(self.in_pieces);
        let run = drop_of_pieces(index, &mut self.pieces, of_pieces);
        self.in_pieces = count_of_pieces(&self.pieces);
        let run = index.drop_of(run, self.last.as_slice(), of_last);
        index.end_run(run);
        self.last.drop_marked(of_last);
    }

    /// The client's repairs go.
    pub(crate) fn drop_client(&mut self, client: u64)
        requires few { length self.old ≤ MOST_PENDING }
        ensures { self.new ≡ without client self.old }
    {
        drop_client_of_pieces(&mut self.pieces, client);
        self.in_pieces = count_of_pieces(&self.pieces);
        self.last.drop_client(client);
    }

    /// What was asked for last goes into pieces, where whole ones can be made of it and there is memory.
    pub(crate) fn cut(&mut self)
        requires few { length self.old ≤ MOST_PENDING }
        ensures { self.new ≡ self.old }
    {
        if has_empty(&self.pieces) {
            drop_empty(&mut self.pieces);
        }
        self.in_pieces += cut_pieces(self.alloc, &mut self.pieces, &mut self.last);
    }
}

// Whether the eighth piece has none left, as the oldest mostly lose all of theirs first; or no more would fit.
fn has_empty(pieces: &[Piece]) -> bool {
    pieces.len() >= MOST_PIECES
        || (pieces.len() > MOST_EMPTY && pieces[MOST_EMPTY].pending().is_empty())
}

// Pieces without repairs go.
fn drop_empty(pieces: &mut Vec<Piece>)
    ensures { all_of pieces.new.items ≡ all_of pieces.old.items }
{
    pieces.retain(|piece| !piece.pending().is_empty());
}

// The first of those behind the pieces go into more pieces. How many went.
fn cut_pieces(alloc: Global, pieces: &mut Vec<Piece>, last: &mut Tail) -> usize
    requires few { length (all_of pieces.old.items ++ last.old) ≤ MOST_PENDING }
    ensures same { all_of pieces.new.items ++ last.new ≡ all_of pieces.old.items ++ last.old }
    ensures count { length (all_of pieces.new.items) ≡ length (all_of pieces.old.items) + result }
{
    let mut count = 0;
    while last.as_slice().len() >= PIECE && pieces.len() < MOST_PIECES {
        if !cut_piece(alloc, pieces, last) {
            break;
        }
        count += PIECE;
    }
    count
}

// The first 64 of those behind the pieces go into one more. Where there is no memory for that nothing changes.
fn cut_piece(alloc: Global, pieces: &mut Vec<Piece>, last: &mut Tail) -> bool
    requires { 64 ≤ length last.old }
    ensures same { all_of pieces.new.items ++ last.new ≡ all_of pieces.old.items ++ last.old }
    ensures count { length (all_of pieces.new.items) ≡ length (all_of pieces.old.items) + (if result then 64 else 0) }
    ensures less { result ≡ true → length last.new < length last.old }
{
    if pieces.reserve(1).is_err() {
        return false;
    }
    let Some(piece) = last.take_piece(alloc) else {
        return false;
    };
    pieces.push_reserved(piece);
    true
}

// Of the repairs of some pieces those go whose flag is set, and their pairs go out of the index of these and those
// behind them. There is one flag for each.
fn drop_of_pieces(index: &mut Index, pieces: &mut Vec<Piece>, done: &[bool]) -> Run
    requires few { length (all_of pieces.old.items) ≤ MOST_PENDING }
    requires one_each { length done.now ≡ length (all_of pieces.old.items) }
    ensures pieces { all_of pieces.new.items ≡ unmarked (all_of pieces.old.items) done.now }
    ensures removed { (back : List Repair) → AreOnce (all_of pieces.old.items ++ back) → Indexes index.old (all_of pieces.old.items ++ back) → Owes index.new (all_of pieces.new.items ++ back) result }
    ensures len { result.len ≤ length (all_of pieces.old.items) }
{
    let mut run = Run::new();
    let mut left = done;
    for i in 0..pieces.len() {
        let piece = &mut pieces[i];
        let (flags, later) = left.split_at(piece.pending().len());
        run = drop_of_piece(index, run, piece, flags);
        left = later;
    }
    run
}

// The same of one piece. Where no flag is set, none of its repairs is looked at, but for once after some went.
fn drop_of_piece(index: &mut Index, run: Run, piece: &mut Piece, done: &[bool]) -> Run
    requires few { run.len + length piece.old ≤ MOST_PENDING }
    requires one_each { length done.now ≡ length piece.old }
    ensures piece { piece.new ≡ unmarked piece.old done.now }
    ensures removed { (front back : List Repair) → AreOnce (front ++ piece.old ++ back) → Owes index.old (front ++ piece.old ++ back) run → Owes index.new (front ++ piece.new ++ back) result }
    ensures len { result.len ≤ run.len + length piece.old }
{
    if !is_any_set(done) {
        piece.close_span();
        return run;
    }
    let run = index.drop_of(run, piece.pending(), done);
    piece.drop_marked(done);
    run
}

// A client's repairs go.
fn drop_client_of_pieces(pieces: &mut Vec<Piece>, client: u64)
    ensures { all_of pieces.new.items ≡ without client (all_of pieces.old.items) }
{
    for i in 0..pieces.len() {
        let piece = &mut pieces[i];
        piece.drop_client(client);
    }
}

// How many repairs some pieces have.
fn count_of_pieces(pieces: &[Piece]) -> usize
    requires { length (all_of pieces.now) ≤ MOST_PENDING }
    ensures { result ≡ length (all_of pieces.now) }
{
    let mut count = 0;
    for piece in pieces {
        count += piece.pending().len();
    }
    count
}
