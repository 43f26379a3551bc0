//! A caller's turn.
ghost use Rattle.std.specs.Prelude.{◌≡◌, ◌<◌, List, [], ◌∷◌, ◌++◌, length, Some, IfOk, OnErr, MatchResult};
ghost use Rattle.rams_model.specs.Service.{Settings};
ghost use Rattle.channel_book.specs.declared.entry.Entry.{Entry};
ghost use Rattle.channel_book.specs.{IsLegal, HasTaken, HasTakenFront, entry};
ghost use Rattle.channel_book.specs.channel_lock.Steps.{HasBook, rested};

use crate::channel_lock::steps::{BOOK, Chair, Turnstile, pass_on};
use crate::{Answer, Event, NoMemory};
use std::alloc::Global;

/// What a caller's turn came to.
#[derive(Drop)]
pub(crate) struct Turn {
    pub answer: Result<(u64, Answer), NoMemory>,
    /// The entries of the book after it.
    pub seen: u64,
}

/// What a caller's turn with several events came to.
#[derive(Drop)]
pub(crate) struct Round {
    /// The entries of the book before it.
    pub place: u64,
    pub answers: Result<Vec<Answer>, NoMemory>,
    /// The entries of the book after it.
    pub seen: u64,
}

/// Steps the book, which is out with the caller, and passes the turn on.
pub(crate) fn work(
    alloc: Global,
    shared: &Turnstile,
    seat: &mut Chair,
    list: u16,
    event: Event,
) -> Turn
    requires table { (seat.old.table_id ≡ shared.now.table_id) × (shared.now.table_id.words ≡ 2) × (shared.now.table_id.slots ≡ 1) }
    requires turn { (s : Settings) × (log : List Entry) × HasBook s log list seat.old.me }
    requires size { seat.old.me.0.size ≡ 1 }
    ensures table { seat.new.table_id ≡ seat.old.table_id }
    ensures seat { seat.new.me ≡ (rested seat.old.me.0 seat.new.me.0.log, []) }
    ensures seen { result.seen ≡ length seat.new.me.0.log }
    ensures added { IfOk result.answer (λ r. (r.0 ≡ length seat.old.me.0.log)
        × (seat.new.me.0.log ≡ seat.old.me.0.log ++ entry list event r.1 ∷ [])) }
    ensures same { OnErr result.answer (seat.new.me.0.log ≡ seat.old.me.0.log) }
    ensures legal { (s : Settings) → seat.old.me.0.config ≡ Some s → IsLegal s seat.new.me.0.log }
{
    let book = seat.slot_mut(shared, BOOK);
    let answer = book.take(alloc, list, event);
    let seen = book.entries().len() as u64;
    pass_on(shared, seat, 1);
    Turn { answer, seen }
}

/// Steps the book with each of the events, as many as the caller has tickets, and passes the turn on.
pub(crate) fn work_all(
    alloc: Global,
    shared: &Turnstile,
    seat: &mut Chair,
    list: u16,
    events: Vec<Event>,
) -> Round
    requires table { (seat.old.table_id ≡ shared.now.table_id) × (shared.now.table_id.words ≡ 2) × (shared.now.table_id.slots ≡ 1) }
    requires turn { (s : Settings) × (log : List Entry) × HasBook s log list seat.old.me }
    requires size { seat.old.me.0.size ≡ length events.items }
    ensures table { seat.new.table_id ≡ seat.old.table_id }
    ensures seat { seat.new.me ≡ (rested seat.old.me.0 seat.new.me.0.log, []) }
    ensures seen { result.seen ≡ length seat.new.me.0.log }
    ensures place { result.place ≡ length seat.old.me.0.log }
    ensures told { MatchResult result.answers
        (λ answers. HasTaken list events.items seat.old.me.0.log answers.items seat.new.me.0.log)
        (λ _. HasTakenFront list events.items seat.old.me.0.log seat.new.me.0.log) }
    ensures legal { (s : Settings) → seat.old.me.0.config ≡ Some s → IsLegal s seat.new.me.0.log }
{
    let size = events.len() as u64;
    let book = seat.slot_mut(shared, BOOK);
    let place = book.entries().len() as u64;
    let answers = book.take_all(alloc, list, events);
    let seen = book.entries().len() as u64;
    pass_on(shared, seat, size);
    Round {
        place,
        answers,
        seen,
    }
}
