//! All channels of a link.
ghost use Rattle.std.specs.Prelude.{◌≡◌, ◌*◌, ◌^◌, ◌<◌, ◌≤◌, All, IfOk, vec_len};
ghost use Rattle.pool.specs.link_pool.{claimed, Fill, PaidWithin};
ghost use Rattle.pool.specs.pool_run.{IsFresh, AreBooks, ClaimsAreSizes, NoOthersClaim, CanRun, HasRun, HaveRun};

use crate::link_pool::{Ledger, NoMemory, Pool, Ticker};
use crate::pool_run::granting::grant_all;
use crate::pool_run::lane::{Job, Lane, Ran, run_lane};
use crate::pool_run::pairs::{pair, pull};
use channel_book::Book;
use ram_io::Gate;
use std::alloc::Global;
use std::thread;
use std::thread::Threads;

/// What became of the channels of a link.
#[derive(Drop)]
pub struct Pooled {
    /// The book of each lane.
    pub books: Vec<Book>,
    pub ledger: Ledger,
}

/// Runs all jobs, each on a thread of its own where one can be had.
fn run_all<R: Threads + Sync, G: Gate + Sync>(
    rt: &R,
    pool: &Pool,
    alloc: Global,
    jobs: Vec<Job>,
    gate: &G,
) -> Result<Vec<Result<Ran, NoMemory>>, NoMemory>
    requires { All (CanRun pool.now) jobs.items }
    ensures { IfOk result (λ all. HaveRun jobs.items all.items) }
{
    let all = thread::map_vec(
        rt,
        jobs,
        &|job: Job| -> Result<Ran, NoMemory>
            requires { CanRun pool.now job }
            ensures { IfOk result (HasRun job) }
        { run_lane(alloc, pool, job, gate) },
    )?;
    Ok(all)
}

/// Grants tick by tick on one thread, and runs all jobs beside it.
fn run_beside<R: Threads + Sync, G: Gate + Sync>(
    rt: &R,
    pool: &Pool,
    alloc: Global,
    ticker: Ticker,
    jobs: Vec<Job>,
    ticks: u32,
    rate: u64,
    gate: &G,
) -> (Ticker, Result<Vec<Result<Ran, NoMemory>>, NoMemory>)
    requires ticker { (ticker.pool ≡ pool.now.pool) × (ticker.total ≡ 0) }
    requires ticks { ticks ≤ 1000000 }
    requires rate { rate ≤ 1000000000 }
    requires jobs { All (CanRun pool.now) jobs.items }
    ensures pool { result.0.pool ≡ pool.now.pool }
    ensures granted { result.0.total ≡ ticks * rate }
    ensures ran { IfOk result.1 (λ all. HaveRun jobs.items all.items) }
{
    thread::join(
        rt,
        || -> Ticker
            requires { (ticker.pool ≡ pool.now.pool) × (ticker.total ≡ 0) × (ticks ≤ 1000000) × (rate ≤ 1000000000) }
            ensures { (result.pool ≡ pool.entry.now.pool) × (result.total ≡ ticks * rate) }
        { grant_all(pool, ticker, ticks, rate) },
        || -> Result<Vec<Result<Ran, NoMemory>>, NoMemory>
            requires { All (CanRun pool.now) jobs.items }
            ensures { IfOk result (λ all. HaveRun jobs.items all.items) }
        { run_all(rt, pool, alloc, jobs, gate) },
    )
}

/// Runs each lane on a thread, and grants so many bytes in each of so many ticks on one more; after the
/// joins the pool is closed. Lane i has taker i, and gives book i.
///
/// The gate is passed before each event, and again before its claims.
pub fn run_pool<R: Threads + Sync, G: Gate + Sync>(
    rt: &R,
    alloc: Global,
    lanes: Vec<Lane>,
    ticks: u32,
    rate: u64,
    gate: &G,
) -> Result<Pooled, NoMemory>
    requires lanes { (0 < vec_len lanes) × (vec_len lanes ≤ 64) }
    requires fresh { All IsFresh lanes.items }
    requires ticks { ticks ≤ 1000000 }
    requires rate { rate ≤ 1000000000 }
    ensures books { IfOk result (λ pooled. AreBooks lanes.items pooled.books.items) }
    ensures claims { IfOk result (λ pooled. ClaimsAreSizes pooled.books.items pooled.ledger.claims.items) }
    ensures others { IfOk result (λ pooled. NoOthersClaim pooled.books.items pooled.ledger.claims.items) }
    ensures granted { IfOk result (λ pooled. pooled.ledger.granted ≡ ticks * rate) }
    ensures fills { IfOk result (λ pooled. Fill pooled.ledger.claims.items) }
    ensures most { IfOk result (λ pooled. claimed pooled.ledger.claims.items ≤ 2 ^ 54) }
    ensures paid { IfOk result (λ pooled. PaidWithin pooled.ledger.granted pooled.ledger.claims.items) }
{
    let (pool, ticker, takers) = Pool::new(alloc, lanes.len() as u32)?;
    let jobs = pair(alloc, lanes, takers)?;
    let (ticker, all) = run_beside(rt, &pool, alloc, ticker, jobs, ticks, rate, gate);
    let pulled = pull(alloc, all?)?;
    let Ok(ledger) = pool.close(alloc, ticker, pulled.takers) else {
        return Err(NoMemory);
    };
    Ok(Pooled {
        books: pulled.books,
        ledger,
    })
}
