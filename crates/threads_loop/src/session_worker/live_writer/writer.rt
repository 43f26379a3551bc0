//! The calls of one list.
ghost use Rattle.std.specs.Prelude.{◌≡◌, ◌+◌, ◌++◌, ◌^◌, ◌<◌, ◌≤◌, IfOk, length, map, min, OnOk, MatchResult};
ghost use Rattle.std.specs.Vec.Iter.{into_iter_items};
ghost use Rattle.threads_loop.specs.session_worker.live_writer.{datagrams_of, HasDrawn, HasWritten, HasWrittenPiece};
ghost use Rattle.channel_book.specs.{HasAnsweredFront};

use crate::session_worker::live_writer::rendering::{grow, render_each};
use channel_book::{Answer, Config, Event, NoMemory, Shared};
use ram_io::Gate;
use rams_model::Octets;
use std::alloc::Global;
use std::sync::Wait;
use std::thread::Threads;
use std::vec::IntoIter;

/// The most events that are taken in one turn. Beside so many, what it costs to pass a turn on is small.
const LARGEST_PIECE: usize = 1024;

/// So much memory is at hand before the answers to a piece are made.
const AT_HAND: usize = 1 << 20;

/// What became of an event.
#[derive(Drop)]
pub struct Placed {
    /// Its place in the history, where its answer stands.
    pub place: u64,
    /// The datagram of each order of its answer.
    pub datagrams: Vec<Octets>,
}

/// Stands before the calls of a piece, from this number on.
fn enter_all<G: Gate>(gate: &G, list: u16, first: usize, count: usize)
    requires { first + count < 2 ^ 64 }
{
    for call in first..first + count {
        gate.enter(list, call as u64);
    }
}

/// Stands before the rendering of the answers of a piece, from this call on.
fn draw_after<G: Gate>(gate: &G, list: u16, first: usize, count: usize)
    requires { first + count < 2 ^ 64 }
{
    for call in first..first + count {
        gate.drawing(list, call as u64);
    }
}

/// Adds the datagrams of answers, the first of which has this place.
fn place_all(place: u64, drawn: Vec<Vec<Octets>>, all: &mut Vec<Placed>) -> Result<(), NoMemory>
    requires { place + length drawn.items ≤ 2 ^ 40 }
    ensures { OnOk result (HasDrawn place (map (λ d. d.items) drawn.items) all.old.items all.new.items) }
{
    let mut next = place;
    for datagrams in drawn {
        all.push(Placed {
            place: next,
            datagrams,
        })?;
        next += 1;
    }
    Ok(())
}

/// Adds the datagrams of the answers of a piece, the first of which has this place. No turn is held.
fn draw_all<R: Threads + Sync, G: Gate>(
    rt: &R,
    alloc: Global,
    list: u16,
    place: u64,
    answers: Vec<Answer>,
    config: &Config,
    workers: u32,
    gate: &G,
    all: &mut Vec<Placed>,
) -> Result<(), NoMemory>
    requires workers { 0 < workers }
    requires places { place + length answers.items ≤ 2 ^ 40 }
    ensures { OnOk result (HasDrawn place (map (datagrams_of config.now) answers.items) all.old.items all.new.items) }
{
    draw_after(gate, list, all.len(), answers.len());
    let drawn = render_each(rt, alloc, config, &answers, workers)?;
    place_all(place, drawn, all)
}

/// The next events of a list, so many where there are as many.
fn next_piece(
    alloc: Global,
    left: &mut IntoIter<Event, Global>,
    size: usize,
) -> Result<Vec<Event>, NoMemory>
    ensures cut { IfOk result (λ piece. piece.items ++ into_iter_items left.new ≡ into_iter_items left.old) }
    ensures count { IfOk result (λ piece. length piece.items ≡ min size (length (into_iter_items left.old))) }
{
    let size = size.min(left.len());
    let mut piece = Vec::with_capacity(alloc, size)?;
    for _ in 0..size {
        let Some(event) = left.next() else {
            unreachable!()
        };
        piece.push_reserved(event);
    }
    Ok(piece)
}

/// Takes a piece of a list in one turn, and then adds the datagrams of its answers, while no turn is
/// held. Its calls have the numbers from the length of `all` on.
fn write_piece<R: Threads + Wait + Sync, S: Shared, G: Gate>(
    rt: &R,
    alloc: Global,
    shared: &S,
    pass: &mut S::Pass,
    list: u16,
    events: Vec<Event>,
    config: &Config,
    workers: u32,
    gate: &G,
    all: &mut Vec<Placed>,
) -> Result<(), NoMemory>
    requires workers { 0 < workers }
    requires made { S.made shared.now pass.old }
    requires left { (0 < length events.items) × (length events.items ≤ S.left pass.old) }
    requires settings { S.settings pass.old ≡ config.now }
    ensures made { S.made shared.now pass.new }
    ensures settings { S.settings pass.new ≡ S.settings pass.old }
    ensures list { S.list pass.new ≡ S.list pass.old }
    ensures left { S.left pass.old ≤ S.left pass.new + length events.items }
    ensures told { MatchResult result
        (λ _. HasWrittenPiece (S.list pass.old) config.now events.items (S.seen pass.old) all.old.items all.new.items (S.seen pass.new))
        (λ _. HasAnsweredFront (S.list pass.old) events.items (S.seen pass.old) (S.seen pass.new)) }
{
    enter_all(gate, list, all.len(), events.len());
    grow(alloc, AT_HAND);
    let (place, answers) = shared.step_all(rt, alloc, pass, events)?;
    draw_all(rt, alloc, list, place, answers, config, workers, gate, all)
}

/// Takes the events of a list, one after another: the place of each in the history, which has its
/// answer, and the datagrams of the answer's orders, by at most so many threads at once. May wait.
///
/// Events are taken in pieces, each in one turn: the first event, the next two, the next four, and so
/// on up to 1,024. The gate is passed before the turn in which a call is stepped, and again when that
/// turn was passed on, before the call's answer is rendered.
///
/// After want of memory a front of the events was taken, and the rest is given up.
pub fn write_all<R: Threads + Wait + Sync, S: Shared, G: Gate>(
    rt: &R,
    alloc: Global,
    shared: &S,
    pass: &mut S::Pass,
    list: u16,
    events: Vec<Event>,
    config: &Config,
    workers: u32,
    gate: &G,
) -> Result<Vec<Placed>, NoMemory>
    requires workers { 0 < workers }
    requires made { S.made shared.now pass.old }
    requires left { length events.items ≤ S.left pass.old }
    requires settings { S.settings pass.old ≡ config.now }
    ensures made { S.made shared.now pass.new }
    ensures settings { S.settings pass.new ≡ S.settings pass.old }
    ensures list { S.list pass.new ≡ S.list pass.old }
    ensures told { MatchResult result
        (λ placed. HasWritten (S.list pass.old) config.now events.items (S.seen pass.old) placed.items (S.seen pass.new))
        (λ _. HasAnsweredFront (S.list pass.old) events.items (S.seen pass.old) (S.seen pass.new)) }
{
    let mut all = Vec::with_capacity(alloc, events.len())?;
    let mut left = events.into_iter();
    let mut size = 1;
    while left.len() > 0 {
        let piece = next_piece(alloc, &mut left, size)?;
        write_piece(
            rt, alloc, shared, pass, list, piece, config, workers, gate, &mut all,
        )?;
        size = (2 * size).min(LARGEST_PIECE);
    }
    Ok(all)
}
