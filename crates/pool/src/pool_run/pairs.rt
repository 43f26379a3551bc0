//! Lanes with their takers, before and behind the threads.
ghost use Rattle.std.specs.Prelude.{◌≡◌, IfOk};
ghost use Rattle.pool.specs.pool_run.{pairs, ArePulled};

use crate::link_pool::{NoMemory, Taker};
use crate::pool_run::lane::{Job, Lane, Ran};
use channel_book::Book;
use std::alloc::Global;

/// Each lane with the taker of its place.
pub(crate) fn pair(
    alloc: Global,
    lanes: Vec<Lane>,
    takers: Vec<Taker>,
) -> Result<Vec<Job>, NoMemory>
    ensures { IfOk result (λ jobs. jobs.items ≡ pairs lanes.items takers.items) }
{
    let jobs = lanes
        .into_iter()
        .zip(takers)
        .map(|(lane, taker)| Job { lane, taker })
        .collect(alloc)?;
    Ok(jobs)
}

/// The books and the takers of lanes that ran.
#[derive(Drop)]
pub(crate) struct Pulled {
    pub books: Vec<Book>,
    pub takers: Vec<Taker>,
}

/// The books and the takers, where all lanes had memory.
pub(crate) fn pull(alloc: Global, all: Vec<Result<Ran, NoMemory>>) -> Result<Pulled, NoMemory>
    ensures { IfOk result (λ pulled. ArePulled all.items pulled.books.items pulled.takers.items) }
{
    let mut books = Vec::with_capacity(alloc, all.len())?;
    let mut takers = Vec::with_capacity(alloc, all.len())?;
    for ran in all {
        let Ran { book, taker } = ran?;
        books.push(book)?;
        takers.push(taker)?;
    }
    Ok(Pulled { books, takers })
}
