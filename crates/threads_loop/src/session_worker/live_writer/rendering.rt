//! Orders to datagrams, by one thread or several.
ghost use Rattle.std.specs.Prelude.{◌≡◌, ◌<◌, ◌≤◌, length, map, IfOk};
ghost use Rattle.std.specs.Thread.{IsSync};
ghost use Rattle.rams_model.specs.Service.{datagram};
ghost use Rattle.threads_loop.specs.session_worker.live_writer.{datagrams_of};

use book_text::order_datagrams::{Config, render_order};
use channel_book::Answer;
use ram_io::NoMemory;
use rams_model::{Octets, Order};
use rayon::prelude::*;
use std::alloc::Global;
use std::thread::{Threads, join};

/// So many orders take as long as the start of a thread.
const WORTH_A_THREAD: usize = 4096;

/// So many bytes a datagram has, as a rule.
const USUAL_BYTES: usize = 256;

/// So many datagrams need more memory than a few pages.
const WORTH_A_BLOCK: usize = 64;

/// Lets this thread's memory grow in one step, where for small blocks it grows page by page, each by a
/// call of the system: a block is taken, and given back at once.
pub(crate) fn grow(alloc: Global, bytes: usize) {
    let _room = Vec::<u8>::with_capacity(alloc, bytes);
}

/// The datagram of each order, in order, by at most so many threads at once. Where there are fewer than
/// 4,096 orders for each of them, by fewer.
pub fn render<R: Threads + Sync>(
    rt: &R,
    alloc: Global,
    config: &Config,
    orders: &[Order],
    workers: u32,
) -> Result<Vec<Octets>, NoMemory>
    requires { 0 < workers }
    ensures { IfOk result (λ datagrams. datagrams.items ≡ map (datagram config.now) orders.now) }
{
    if workers == 1 || orders.len() <= WORTH_A_THREAD {
        return render_alone(alloc, config, orders);
    }
    let least = orders.len().div_ceil(workers as usize).max(WORTH_A_THREAD);
    render_beside(rt, alloc, config, orders, least)
}

fn render_one(alloc: Global, config: &Config, order: &Order) -> Result<Octets, NoMemory>
    ensures { IfOk result (λ bytes. bytes ≡ datagram config.now order.now) }
{
    Ok(Octets::of(render_order(alloc, config, order)?))
}

fn render_alone(alloc: Global, config: &Config, orders: &[Order]) -> Result<Vec<Octets>, NoMemory>
    ensures { IfOk result (λ datagrams. datagrams.items ≡ map (datagram config.now) orders.now) }
{
    if orders.len() >= WORTH_A_BLOCK {
        grow(alloc, orders.len().min(WORTH_A_THREAD) * USUAL_BYTES);
    }
    let mut datagrams = Vec::with_capacity(alloc, orders.len())?;
    for order in orders {
        datagrams.push(render_one(alloc, config, order)?)?;
    }
    Ok(datagrams)
}

/// The same, in pieces of at least so many orders.
fn render_beside<R: Threads + Sync>(
    rt: &R,
    alloc: Global,
    config: &Config,
    orders: &[Order],
    least: usize,
) -> Result<Vec<Octets>, NoMemory>
    ensures { IfOk result (λ datagrams. datagrams.items ≡ map (datagram config.now) orders.now) }
{
    orders
        .par_iter()
        .with_min_len(least)
        .map(
            move |order: &Order| -> Result<Octets, NoMemory>
                ensures { IfOk result (λ bytes. bytes ≡ datagram config.entry.now order.now) }
            { render_one(alloc, config, order) },
        )
        .collect::<Result<Vec<Octets>, NoMemory>>(rt, alloc)?
}

/// How many orders some answers have, or 2^64 - 1 where they are more.
fn orders_in(answers: &[Answer]) -> usize {
    let mut orders = 0usize;
    for answer in answers {
        orders = orders.saturating_add(answer.orders.len());
    }
    orders
}

/// A place behind which there are about as many orders as before it.
fn middle_of(answers: &[Answer]) -> usize
    ensures { result ≤ length answers.now }
{
    let half = orders_in(answers) / 2;
    let mut orders = 0usize;
    for place in 0..answers.len() {
        let answer = &answers[place];
        orders = orders.saturating_add(answer.orders.len());
        if orders >= half {
            return place + 1;
        }
    }
    answers.len()
}

/// The datagrams of each answer, in order, by at most so many threads at once: of one answer after
/// another where one alone is worth a second thread, or all of them aren't; else of several beside each
/// other.
pub(crate) fn render_each<R: Threads + Sync>(
    rt: &R,
    alloc: Global,
    config: &Config,
    answers: &[Answer],
    workers: u32,
) -> Result<Vec<Vec<Octets>>, NoMemory>
    requires { 0 < workers }
    ensures { IfOk result (λ all. map (λ d. d.items) all.items ≡ map (datagrams_of config.now) answers.now) }
{
    let worth = orders_in(answers) / WORTH_A_THREAD;
    if worth <= 1
        || workers == 1
        || answers
            .iter()
            .any(|answer| answer.orders.len() > WORTH_A_THREAD)
    {
        return render_in_turn(rt, alloc, config, answers, workers);
    }
    render_halves(rt, alloc, config, answers, worth.min(workers as usize))
}

fn render_in_turn<R: Threads + Sync>(
    rt: &R,
    alloc: Global,
    config: &Config,
    answers: &[Answer],
    workers: u32,
) -> Result<Vec<Vec<Octets>>, NoMemory>
    requires { 0 < workers }
    ensures { IfOk result (λ all. map (λ d. d.items) all.items ≡ map (datagrams_of config.now) answers.now) }
{
    let mut all = Vec::with_capacity(alloc, answers.len())?;
    for answer in answers {
        all.push(render(rt, alloc, config, &answer.orders, workers)?)?;
    }
    Ok(all)
}

/// The same by so many threads, each with about as many orders.
#[cycle(halves)]
fn render_halves<R: Threads + Sync>(
    rt: &R,
    alloc: Global,
    config: &Config,
    answers: &[Answer],
    threads: usize,
) -> Result<Vec<Vec<Octets>>, NoMemory>
    requires { 0 < threads }
    ensures { IfOk result (λ all. map (λ d. d.items) all.items ≡ map (datagrams_of config.now) answers.now) }
{
    if threads == 1 {
        return render_in_turn(rt, alloc, config, answers, 1);
    }
    let low = threads / 2;
    let high = threads - low;
    let (head, tail) = answers.split_at(middle_of(answers));
    let front = || -> Result<Vec<Vec<Octets>>, NoMemory>
        requires { IsSync R.row × (0 < low) }
        ensures { IfOk result (λ all. map (λ d. d.items) all.items ≡ map (datagrams_of config.entry.now) head.entry.now) }
    { render_halves(rt, alloc, config, head, low) };
    let back = || -> Result<Vec<Vec<Octets>>, NoMemory>
        requires { IsSync R.row × (0 < high) }
        ensures { IfOk result (λ all. map (λ d. d.items) all.items ≡ map (datagrams_of config.entry.now) tail.entry.now) }
    { render_halves(rt, alloc, config, tail, high) };
    let (first, second) = join(rt, front, back);
    let mut all = first?;
    let mut rest = second?;
    all.append(&mut rest)?;
    Ok(all)
}
