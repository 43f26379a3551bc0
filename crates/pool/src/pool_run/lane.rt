//! One channel on its thread.
ghost use Rattle.std.specs.Prelude.{◌≡◌, ◌<◌, ◌≤◌, [], length, map, IfOk, OnOk};
ghost use Rattle.pool.specs.link_pool.{bytes_of};
ghost use Rattle.pool.specs.pool_run.{CanRun, HasRun, IsBookOf, sizes_of};

use crate::link_pool::{NoMemory, Pool, Taker};
use crate::pool_run::claiming::claim_answer;
use channel_book::{Book, Event};
use ram_io::Gate;
use server_hub::session_core::Core;
use std::alloc::Global;

/// A channel to which nothing came yet, and its events.
#[derive(Drop)]
pub struct Lane {
    pub core: Core,
    pub events: Vec<Event>,
}

/// A lane, and what claims for it.
#[derive(Drop)]
pub(crate) struct Job {
    pub lane: Lane,
    pub taker: Taker,
}

/// What became of a lane.
#[derive(Drop)]
pub(crate) struct Ran {
    pub book: Book,
    pub taker: Taker,
}

/// Takes the events of a lane, and claims for each answer before the next event.
pub(crate) fn run_lane<G: Gate>(
    alloc: Global,
    pool: &Pool,
    job: Job,
    gate: &G,
) -> Result<Ran, NoMemory>
    requires job { CanRun pool.now job }
    ensures { IfOk result (HasRun job) }
{
    let Job { lane, mut taker } = job;
    let Lane { core, events } = lane;
    let mut book = Book::new(alloc, core);
    run_events(alloc, pool, &mut book, &mut taker, events, gate)?;
    Ok(Ran { book, taker })
}

/// The same into a new book, with a taker that has claimed nothing yet.
fn run_events<G: Gate>(
    alloc: Global,
    pool: &Pool,
    book: &mut Book,
    taker: &mut Taker,
    events: Vec<Event>,
    gate: &G,
) -> Result<(), NoMemory>
    requires made { taker.old.pool ≡ pool.now.pool }
    requires number { taker.old.number < 64 }
    requires claims { taker.old.claims ≡ [] }
    requires entries { book.old.entries ≡ [] }
    requires few { length events.items ≤ 200000 }
    ensures pool { taker.new.pool ≡ taker.old.pool }
    ensures number { taker.new.number ≡ taker.old.number }
    ensures book { OnOk result (IsBookOf book.old.settings events.items book.new) }
    ensures claims { OnOk result (map bytes_of taker.new.claims ≡ sizes_of book.new.entries) }
{
    let number = taker.number() as u16;
    for event in events {
        let call = book.entries().len() as u64;
        gate.enter(number, call);
        let (_, answer) = book.take(alloc, 0, event)?;
        gate.drawing(number, call);
        claim_answer(pool, taker, &answer)?;
    }
    Ok(())
}
